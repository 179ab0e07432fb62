//! MX: a mail exchange (RFC 1035, 3.3.9).

ghost use Rattle.dns_rows.specs.Table.{kinds_of};
ghost use Rattle.std.specs.{Prelude.◌≡◌, Prelude.Some, Option.option_copied, Prelude.refl};
ghost use Rattle.dns_fields.specs.declared.RDataEncoding.TheVariants as modes;
ghost use Rattle.dns_rdata_base.specs.NameRecords.{mx_facts};
ghost use Rattle.dns_tokens.specs.{Reads.ReadsTokenRow, Straight.straight_tokens, Straight.straight_text};

use crate::{OrderedRecord, cmp_each_field, unless_tied};
use dns_canonical::{AtOnce, Head, Tail, name_behind, two_behind};
use dns_check::DecodesFields;
use dns_names_wire::{
    BinDecoder, BinEncodable, BinEncoder, DecodeError, EncodesFields, Name, ParseError, ProtoError,
    RDataEncoding, Record,
};
use dns_rows::{Part, row};
use dns_tokens::{next_name, next_u16, number_field};
use std::alloc::Global;
use std::cmp::Ordering;
use std::convert::AsStr;
use std::fmt;

/// MX RDATA (RFC 1035, section 3.3.9): a host that receives mail for the owner.
///
///     +--+--+--+--+--+--+--+--+
///     |      PREFERENCE       |   u16, lower is tried first
///     +--+--+--+--+--+--+--+--+
///     /       EXCHANGE        /   a domain name, compressed on emit
///     +--+--+--+--+--+--+--+--+
///
/// The RDATA `000a046d61696c076578616d706c6503636f6d00` is `10 mail.example.com.`.
#[derive(Clone, Debug, Drop, Eq, Hash, PartialEq)]
pub struct MX {
    /// Lower values are tried first; 16 bits.
    pub preference: u16,
    /// The host.
    pub exchange: Name,
}

impl MX {
    /// Makes a record of these fields.
    pub fn new(preference: u16, exchange: Name) -> MX
        ensures { result ≡ record { preference = preference; exchange = exchange } }
    {
        MX {
            preference,
            exchange,
        }
    }

    /// Reads two tokens: preference, a decimal number of 16 bits, and exchange, a name, which is completed with the
    /// origin if it is relative. Further tokens are not read.
    ///
    /// # Errors
    ///
    /// - [`MissingToken`](ParseError::MissingToken): a token is missing.
    /// - [`Message`](ParseError::Message): the token of preference is no such number.
    /// - [`Proto`](ParseError::Proto): the token of exchange is no name.
    /// - [`Memory`](ParseError::Memory): an allocation failed.
    pub fn from_tokens<S: AsStr + Drop, I: Iterator<Item = S>>(
        alloc: Global,
        mut tokens: I,
        origin: Option<&Name>,
    ) -> Result<MX, ParseError>
        requires can { I.can_next tokens }
        ensures { ReadsTokenRow I.next_gives S.text (straight_tokens (option_copied origin.entry) (kinds_of mx_facts.row)) mx_facts.fields result tokens }
    {
        let preference = next_u16(&mut tokens, number_field!("MX preference"))?;
        let exchange = next_name(alloc, &mut tokens, origin, "MX exchange")?;
        Ok(MX::new(preference, exchange))
    }
}

impl Record for MX {
    ghost facts = { mx_facts };

    #[inline]
    fn row() -> &'static [Part] {
        &row::MX
    }
}

impl DecodesFields for MX {
    ghost alone = { record { checked = refl; asked = refl; alone = refl; long = tt } };

    fn read_fields(decoder: &mut BinDecoder<'_>) -> Result<MX, DecodeError> {
        let preference = decoder.read_u16()?.unverified();
        Ok(MX::new(preference, Name::read(decoder)?))
    }
}

impl EncodesFields for MX {
    /// Appends the fields, with the name compressed against earlier names of the message (RFC 1035, section 4.1.4).
    const MODE: RDataEncoding = RDataEncoding::StandardRecord;

    ghost MODE = { modes.StandardRecord };

    fn emit_fields(&self, encoder: &mut BinEncoder<'_>) -> Result<(), ProtoError> {
        encoder.emit_u16(self.preference)?;
        self.exchange.emit(encoder)?;
        Ok(())
    }
}

impl AtOnce for MX {
    #[inline]
    fn at_once<'a>(&'a self, head: &mut Head) -> Tail<'a> {
        head.two(self.preference);
        Tail::name(&self.exchange)
    }
}

impl OrderedRecord for MX {
    #[inline]
    fn cmp_canonical_fields(&self, other: &MX) -> Option<Ordering> {
        let preference = two_behind(Ordering::Equal, self.preference, other.preference);
        let order = name_behind(preference, &self.exchange, &other.exchange);
        unless_tied(order, self, other, false)
    }

    fn cmp_values(&self, other: &MX) -> Ordering {
        cmp_each_field!((self, other) preference exchange)
    }
}

impl fmt::Display for MX {
    ghost output = { λ x. Some (straight_text mx_facts x) };

    /// Prints the fields in order, with a blank between.
    fn fmt<W: fmt::Write>(&self, f: &mut fmt::Formatter<W>) -> fmt::Result {
        write!(f, "{} {}", self.preference, self.exchange)
    }
}
