//! HINFO: a machine and its system (RFC 1035, 3.3.2).

ghost use Rattle.std.specs.{Prelude.◌≡◌, Prelude.ℕ, Prelude.[], Prelude.Some, Box.boxed_slice_items, String.string_bytes, Prelude.refl};
ghost use Rattle.dns_names_wire.specs.{Facts.RecordStands, Terms.Emits};
ghost use Rattle.dns_check.specs.ByRow.{RecordRefuses};
ghost use Rattle.dns_fields.specs.Fields.{all_emittable};
ghost use Rattle.dns_canonical.specs.Steps.{AllShort, GivesStep, field_steps};
ghost use Rattle.dns_rdata_base.specs.{HINFO.hinfo_shape, HINFO.hinfo_fields, HINFO.hinfo_facts, HINFO.hinfo_text, HINFO.hinfo_tokens, Steps.hinfo_begins};
ghost use Rattle.dns_tokens.specs.Reads.{ReadsTokenRow};

use crate::{OrderedRecord, cmp_each_field};
use bstr::BStr;
use dns_canonical::{Head, Step, text_behind};
use dns_check::{BinDecodable, DecodesFields, read_alone};
use dns_names_wire::{
    BinDecoder, BinEncodable, BinEncoder, DecodeError, ParseError, ProtoError, Record, SmallOctets,
};
use dns_rows::{Part, row};
use dns_tokens::next_kept;
use std::alloc::Global;
use std::boxed::BoxedSlice;
use std::cmp::Ordering;
use std::convert::AsStr;
use std::fmt;

/// HINFO RDATA (RFC 1035, section 3.3.2): a machine and its operating system.
///
///     +------+-------+------+-------+
///     |LENGTH/  CPU  |LENGTH/  OS   /   two character strings
///     +------+-------+------+-------+
///
/// The RDATA `03637075026f73` is `cpu os`.
#[derive(Clone, Debug, Drop, Eq, Hash, PartialEq)]
pub struct HINFO {
    /// The machine: a character string, at most 255 octets on emit.
    pub cpu: SmallOctets<32>,
    /// The operating system: a character string, at most 255 octets on emit.
    pub os: SmallOctets<32>,
}

impl HINFO {
    /// Makes a record of these texts, which are moved: up to 32 octets are kept in the value.
    pub fn new(cpu: String, os: String) -> HINFO
        ensures cpu { result.cpu ≡ string_bytes cpu }
        ensures os { result.os ≡ string_bytes os }
    {
        HINFO {
            cpu: SmallOctets::from_vec(cpu.into_bytes()),
            os: SmallOctets::from_vec(os.into_bytes()),
        }
    }

    /// Makes a record of these octets, which are moved as those of [`new`](HINFO::new).
    pub fn from_bytes(cpu: BoxedSlice<u8>, os: BoxedSlice<u8>) -> HINFO
        ensures cpu { result.cpu ≡ boxed_slice_items cpu }
        ensures os { result.os ≡ boxed_slice_items os }
    {
        HINFO {
            cpu: SmallOctets::from_boxed(cpu),
            os: SmallOctets::from_boxed(os),
        }
    }

    /// Reads two tokens, cpu and os, octet by octet. Further tokens are not read.
    ///
    /// # Errors
    ///
    /// - [`MissingToken`](ParseError::MissingToken): a token is missing.
    /// - [`Memory`](ParseError::Memory): an allocation failed.
    pub fn from_tokens<S: AsStr + Drop, I: Iterator<Item = S>>(
        alloc: Global,
        mut tokens: I,
    ) -> Result<HINFO, ParseError>
        requires can { I.can_next tokens }
        ensures { ReadsTokenRow I.next_gives S.text hinfo_tokens hinfo_fields result tokens }
    {
        let cpu = next_kept(alloc, &mut tokens, "HINFO cpu")?;
        let os = next_kept(alloc, &mut tokens, "HINFO os")?;
        Ok(HINFO {
            cpu: SmallOctets::from_vec(cpu.into_vec()),
            os: SmallOctets::from_vec(os.into_vec()),
        })
    }
}

impl Record for HINFO {
    ghost facts = { hinfo_facts };

    #[inline]
    fn row() -> &'static [Part] {
        &row::HINFO
    }
}

impl DecodesFields for HINFO {
    ghost alone = { record { checked = refl; asked = refl; alone = refl; long = tt } };

    fn read_fields(decoder: &mut BinDecoder<'_>) -> Result<HINFO, DecodeError> {
        let alloc = decoder.allocator();
        let cpu = decoder.read_character_data()?.unverified();
        let os = decoder.read_character_data()?.unverified();
        let cpu = SmallOctets::from_slice(alloc, cpu)?;
        let os = SmallOctets::from_slice(alloc, os)?;
        Ok(HINFO { cpu, os })
    }
}

impl BinDecodable for HINFO {
    ghost stands = { RecordStands hinfo_facts };

    ghost refuses = { RecordRefuses hinfo_facts };

    /// Reads two character strings. Allocates once for each string of more than 32 octets, after both were read.
    ///
    /// # Errors
    ///
    /// - [`InsufficientBytes`](DecodeError::InsufficientBytes): a string lacks octets. The strings before it, and its
    ///   length octet if it is there, are read.
    /// - [`Memory`](DecodeError::Memory): an allocation failed.
    #[inline]
    fn read(decoder: &mut BinDecoder<'_>) -> Result<HINFO, DecodeError> {
        read_alone::<HINFO>(decoder)
    }
}

impl BinEncodable for HINFO {
    ghost emits = { λ x r old new. Emits hinfo_shape (hinfo_fields x) r old new };

    /// Appends the two character strings.
    ///
    /// # Errors
    ///
    /// [`Message`](ProtoError::Message): a string has more than 255 octets. The first one may have been appended.
    fn emit(&self, encoder: &mut BinEncoder<'_>) -> Result<(), ProtoError> {
        encoder.emit_character_data(self.cpu.as_slice())?;
        encoder.emit_character_data(self.os.as_slice())?;
        Ok(())
    }
}

/// Whether HINFO can be emitted: no string has more than 255 octets.
#[inline]
pub fn hinfo_is_emittable(x: &HINFO) -> bool
    ensures { result ≡ all_emittable hinfo_shape (hinfo_fields x.now) }
{
    x.cpu.len() <= 255 && x.os.len() <= 255
}

/// The steps of HINFO: the machine, the operating system.
#[inline]
pub fn hinfo_step<'a>(x: &'a HINFO, step: usize, head: &mut Head) -> Option<Step<'a>>
    requires empty { head.old ≡ [] }
    requires short { AllShort hinfo_shape (hinfo_fields x.now) }
    ensures { (i j : ℕ) → GivesStep (field_steps hinfo_begins hinfo_shape (hinfo_fields x.now)) step i j head.new result }
{
    match step {
        0 => Some(Step::to(head.text(x.cpu.as_slice()), 1)),
        1 => Some(Step::to(head.text(x.os.as_slice()), 2)),
        _ => None,
    }
}

impl OrderedRecord for HINFO {
    #[inline]
    #[tactic(auto, using(crate::proofs::QuickOrders::hinfo_orders, crate::proofs::QuickOrders::tie))]
    fn cmp_canonical_fields(&self, other: &HINFO) -> Option<Ordering> {
        let cpu = text_behind(Ordering::Equal, self.cpu.as_slice(), other.cpu.as_slice());
        let order = text_behind(cpu, self.os.as_slice(), other.os.as_slice());
        if order.is_eq() {
            return Some(order);
        }
        if !hinfo_is_emittable(self) || !hinfo_is_emittable(other) {
            return None;
        }
        Some(order)
    }

    fn cmp_values(&self, other: &HINFO) -> Ordering {
        cmp_each_field!((self, other) cpu os)
    }
}

impl fmt::Display for HINFO {
    ghost output = { λ x. Some (hinfo_text x) };

    /// Prints the two strings with a blank between, and U+FFFD for octets that are not UTF-8.
    #[tactic(auto, unfolding(crate::specs::Lossy::lossy))]
    fn fmt<W: fmt::Write>(&self, f: &mut fmt::Formatter<W>) -> fmt::Result {
        let cpu = BStr::new(self.cpu.as_slice());
        let os = BStr::new(self.os.as_slice());
        write!(f, "{cpu} {os}")
    }
}
