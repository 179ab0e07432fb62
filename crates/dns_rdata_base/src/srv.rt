//! SRV: a host of a service (RFC 2782).

ghost use Rattle.dns_rows.specs.Table.{kinds_of};
ghost use Rattle.std.specs.{Prelude.◌≡◌, Prelude.Some, Option.option_copied, Prelude.refl};
ghost use Rattle.dns_fields.specs.declared.RDataEncoding.TheVariants as modes;
ghost use Rattle.dns_names_wire.specs.{Terms.Emits};
ghost use Rattle.dns_rdata_base.specs.NameRecords.{srv_numbers_shape, srv_numbers, srv_facts};
ghost use Rattle.dns_tokens.specs.{Reads.ReadsTokenRow, Straight.straight_tokens, Straight.straight_text};

use crate::{OrderedRecord, cmp_each_field, unless_tied};
use dns_canonical::{AtOnce, Head, Tail, name_behind, two_behind};
use dns_check::DecodesFields;
use dns_names_wire::{
    BinDecoder, BinEncodable, BinEncoder, DecodeError, EncodesFields, Name, ParseError, ProtoError,
    RDataEncoding, Record,
};
use dns_rows::{Part, row};
use dns_tokens::{next_name, next_u16, number_field};
use std::alloc::Global;
use std::cmp::Ordering;
use std::convert::AsStr;
use std::fmt;

/// SRV RDATA (RFC 2782): a host and a port of a service.
///
///     +--+--+--+--+--+--+--+--+
///     |       PRIORITY        |   u16, lower is tried first
///     +--+--+--+--+--+--+--+--+
///     |        WEIGHT         |   u16
///     +--+--+--+--+--+--+--+--+
///     |         PORT          |   u16
///     +--+--+--+--+--+--+--+--+
///     /        TARGET         /   a domain name, uncompressed on emit
///     +--+--+--+--+--+--+--+--+
///
/// The RDATA `0000000513c403736970076578616d706c6503636f6d00` is `0 5 5060 sip.example.com.`.
#[derive(Clone, Debug, Drop, Eq, Hash, PartialEq)]
pub struct SRV {
    /// Lower values are tried first; 16 bits.
    pub priority: u16,
    /// The share among those of one priority; 16 bits.
    pub weight: u16,
    /// The port in the protocol that the owner names; 16 bits.
    pub port: u16,
    /// The host; the root where the service is not offered.
    pub target: Name,
}

impl SRV {
    /// Makes a record of these fields.
    pub fn new(priority: u16, weight: u16, port: u16, target: Name) -> SRV
        ensures { result ≡ record { priority = priority; weight = weight; port = port; target = target } }
    {
        SRV {
            priority,
            weight,
            port,
            target,
        }
    }

    /// Reads four tokens: priority, weight and port, decimal numbers of 16 bits, and target, a name, which is completed
    /// with the origin if it is relative. Further tokens are not read.
    ///
    /// # Errors
    ///
    /// - [`MissingToken`](ParseError::MissingToken): a token is missing.
    /// - [`Message`](ParseError::Message): the token of priority, weight or port is no such number.
    /// - [`Proto`](ParseError::Proto): the token of target is no name.
    /// - [`Memory`](ParseError::Memory): an allocation failed.
    pub fn from_tokens<S: AsStr + Drop, I: Iterator<Item = S>>(
        alloc: Global,
        mut tokens: I,
        origin: Option<&Name>,
    ) -> Result<SRV, ParseError>
        requires can { I.can_next tokens }
        ensures { ReadsTokenRow I.next_gives S.text (straight_tokens (option_copied origin.entry) (kinds_of srv_facts.row)) srv_facts.fields result tokens }
    {
        let priority = next_u16(&mut tokens, number_field!("SRV priority"))?;
        let weight = next_u16(&mut tokens, number_field!("SRV weight"))?;
        let port = next_u16(&mut tokens, number_field!("SRV port"))?;
        let target = next_name(alloc, &mut tokens, origin, "SRV target")?;
        Ok(SRV {
            priority,
            weight,
            port,
            target,
        })
    }
}

impl Record for SRV {
    ghost facts = { srv_facts };

    #[inline]
    fn row() -> &'static [Part] {
        &row::SRV
    }
}

impl DecodesFields for SRV {
    ghost alone = { record { checked = refl; asked = refl; alone = refl; long = tt } };

    fn read_fields(decoder: &mut BinDecoder<'_>) -> Result<SRV, DecodeError> {
        let priority = decoder.read_u16()?.unverified();
        let weight = decoder.read_u16()?.unverified();
        let port = decoder.read_u16()?.unverified();
        let target = Name::read(decoder)?;
        Ok(SRV {
            priority,
            weight,
            port,
            target,
        })
    }
}

impl SRV {
    // Appends priority, weight and port at once.
    #[inline]
    fn emit_numbers(&self, encoder: &mut BinEncoder<'_>) -> Result<(), ProtoError>
        ensures { Emits srv_numbers_shape (srv_numbers self.now) result encoder.old encoder.new }
    {
        let priority = self.priority.to_be_bytes();
        let weight = self.weight.to_be_bytes();
        let port = self.port.to_be_bytes();
        encoder.emit_vec(&[
            priority[0],
            priority[1],
            weight[0],
            weight[1],
            port[0],
            port[1],
        ])
    }
}

impl EncodesFields for SRV {
    /// Appends the fields, with the name uncompressed and case preserved.
    const MODE: RDataEncoding = RDataEncoding::Canonical;

    ghost MODE = { modes.Canonical };

    fn emit_fields(&self, encoder: &mut BinEncoder<'_>) -> Result<(), ProtoError> {
        self.emit_numbers(encoder)?;
        self.target.emit(encoder)?;
        Ok(())
    }
}

impl AtOnce for SRV {
    #[inline]
    fn at_once<'a>(&'a self, head: &mut Head) -> Tail<'a> {
        head.two(self.priority);
        head.two(self.weight);
        head.two(self.port);
        Tail::name(&self.target)
    }
}

impl OrderedRecord for SRV {
    #[inline]
    fn cmp_canonical_fields(&self, other: &SRV) -> Option<Ordering> {
        let priority = two_behind(Ordering::Equal, self.priority, other.priority);
        let weight = two_behind(priority, self.weight, other.weight);
        let port = two_behind(weight, self.port, other.port);
        let order = name_behind(port, &self.target, &other.target);
        unless_tied(order, self, other, false)
    }

    fn cmp_values(&self, other: &SRV) -> Ordering {
        cmp_each_field!((self, other) priority weight port target)
    }
}

impl fmt::Display for SRV {
    ghost output = { λ x. Some (straight_text srv_facts x) };

    /// Prints the fields in order, with a blank between.
    fn fmt<W: fmt::Write>(&self, f: &mut fmt::Formatter<W>) -> fmt::Result {
        write!(
            f,
            "{} {} {} {}",
            self.priority, self.weight, self.port, self.target
        )
    }
}
