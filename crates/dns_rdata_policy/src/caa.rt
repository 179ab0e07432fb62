//! CAA: a property of a domain's issuers of certificates (RFC 8659).

ghost use Rattle.std.specs.Prelude.{◌≡◌, ◌<◌, ◌↔◌, ℕ, [], refl, length as list_length, IsTrue, IfErr, IfOk, Some};
ghost use Rattle.dns_names_wire.specs.Terms.{Emits, Extends, IsMessage};
ghost use Rattle.dns_names_wire.specs.Facts.{same, same_equiv, same_partial};
ghost use Rattle.dns_rdata_policy.specs.{CAA.caa_text, CAA.IsReadCaa, TokenRows.caa_tokens, Steps.caa_begins};
ghost use Rattle.dns_rdata_policy.specs.CAA.{caa_shape, caa_flags, caa_fields, caa_facts, caa_key_shape, caa_keys};
ghost use Rattle.dns_rows.specs.Rules.{IsTag};
ghost use Rattle.dns_canonical.specs.Steps.{AllShort, GivesStep, field_steps};
ghost use Rattle.dns_tokens.specs.Reads.{ReadsTokenRow};
ghost use Rattle.dns_fields.specs.Fields.{all_emittable};

mod issuer;
mod values;

use bstr::BStr;
use dns_canonical::{Head, Step, Tail, one_behind, rest_behind, text_behind};
use dns_check::DecodesRow;
use dns_names_wire::{
    BinDecoder, BinEncodable, BinEncoder, DecodeError, ParseError, ProtoError, Record, Restrict,
    SmallOctets,
};
use dns_rdata_base::{OrderedRecord, cmp_each_field, in_order, verify_flags};
use dns_rows::{Part, row};
use dns_tokens::{Field, next_kept, next_u8, number_field};
pub use issuer::{KeyValue, read_iodef, read_issuer};
use std::alloc::{AllocError, Global};
use std::cmp::Ordering;
use std::convert::AsStr;
use std::fmt;

const CAA_FLAGS: Field = number_field!("CAA flags");

/// CAA RDATA (RFC 8659, section 4.1): a property of a domain's issuers of certificates.
///
///     +-----+------------+-----+-------+
///     |FLAGS| TAG LENGTH / TAG / VALUE /   two octets, 1 to 15 letters and digits, and the rest
///     +-----+------------+-----+-------+
///
/// The RDATA `800569737375653b` is `128 issue ";"`.
///
/// ```rust
/// fn only_issuer(alloc: Global, issuer: Name) -> Result<CAA, AllocError> {
///     CAA::new_issue(true, Some(issuer), Vec::new(alloc))
/// }
/// ```
#[derive(Clone, Debug, Drop, Hash)]
pub struct CAA {
    /// Whether an issuer that does not know the tag may not issue: 0x80 of the flags.
    pub issuer_critical: bool,
    /// The other flags. Their 0x7f is emitted.
    pub reserved_flags: u8,
    /// The tag. Those that are read are 1 to 15 letters and digits of ASCII.
    pub tag: SmallOctets<32>,
    /// The value.
    pub value: SmallOctets<64>,
}

impl CAA {
    /// The flags as one octet: 0x80 where critical, and 0x7f of the reserved flags.
    #[inline]
    pub fn flags(&self) -> u8
        ensures { result ≡ caa_flags self.now }
    {
        let low = self.reserved_flags % 128;
        if self.issuer_critical { low + 128 } else { low }
    }

    // Appends the fields in order.
    fn emit_in_order(&self, encoder: &mut BinEncoder<'_>) -> Result<(), ProtoError>
        ensures { Emits caa_shape (caa_fields self.now) result encoder.old encoder.new }
    {
        encoder.emit_u8(self.flags())?;
        encoder.emit_character_data(self.tag.as_slice())?;
        encoder.emit_vec(self.value.as_slice())?;
        Ok(())
    }

    /// Reads three tokens: flags, a decimal number of 8 bits, of which 0x80 is `issuer_critical`; tag and value, octet
    /// by octet. Further tokens are not read.
    ///
    /// # Errors
    ///
    /// - [`MissingToken`](ParseError::MissingToken): a token is missing.
    /// - [`Message`](ParseError::Message): the flags are no such number.
    /// - [`Memory`](ParseError::Memory): an allocation failed.
    pub fn from_tokens<S: AsStr + Drop, I: Iterator<Item = S>>(
        alloc: Global,
        mut tokens: I,
    ) -> Result<CAA, ParseError>
        requires can { I.can_next tokens }
        ensures reads { ReadsTokenRow I.next_gives S.text caa_tokens caa_fields result tokens }
        ensures flags { IfOk result IsReadCaa }
    {
        let flags = next_u8(&mut tokens, CAA_FLAGS)?;
        let tag = next_kept(alloc, &mut tokens, "CAA tag")?;
        let value = next_kept(alloc, &mut tokens, "CAA value")?;
        Ok(CAA {
            issuer_critical: flags >= 128,
            reserved_flags: flags % 128,
            tag: SmallOctets::from_vec(tag.into_vec()),
            value: SmallOctets::from_vec(value.into_vec()),
        })
    }
}

// Whether these octets are a tag.
fn is_tag(octets: &[u8]) -> bool
    ensures { IsTrue result ↔ IsTag octets.now }
{
    let some = octets.len() > 0;
    let short = octets.len() < 16;
    some && short && verify_flags(octets)
}

impl Record for CAA {
    ghost facts = { caa_facts };

    #[inline]
    fn row() -> &'static [Part] {
        &row::CAA
    }
}

impl DecodesRow for CAA {
    ghost checked = { refl };

    /// Reads an octet of flags, the tag, and the rest of RDLENGTH. Allocates once if the rest is more than 64 octets.
    #[inline]
    fn read_row(decoder: &mut BinDecoder<'_>, length: Restrict<u16>) -> Result<CAA, DecodeError> {
        let alloc = decoder.allocator();
        let start = decoder.index();
        let flags = decoder.read_u8()?.unverified();
        let tag = decoder.read_character_data()?.unverified();
        let read = decoder.index() - start;
        let len = length.unverified() as usize;
        if !is_tag(tag) || len < read {
            return Err(DecodeError::CaaTagInvalid);
        }
        let value = decoder.read_small(len - read)?.unverified();
        let tag = SmallOctets::from_slice(alloc, tag)?;
        Ok(CAA {
            issuer_critical: flags >= 128,
            reserved_flags: flags % 128,
            tag,
            value,
        })
    }
}

impl BinEncodable for CAA {
    ghost emits = { λ x r old new. Emits caa_shape (caa_fields x) r old new };

    /// Appends the flags, the length of the tag, the tag, and the value. Fails with [`Message`](ProtoError::Message)
    /// exactly if the tag has more than 255 octets.
    #[inline]
    #[tactic(auto, using(crate::proofs::CaaValues::long_tag))]
    fn emit(&self, encoder: &mut BinEncoder<'_>) -> Result<(), ProtoError>
        ensures emits { Emits caa_shape (caa_fields self.now) result encoder.old encoder.new }
        ensures extends { Extends encoder.old encoder.new }
        ensures message { IfErr result (λ e. IsMessage e → 255 < list_length self.now.tag) }
    {
        self.emit_in_order(encoder)
    }
}

impl PartialEq for CAA {
    ghost eq = { same caa_key_shape caa_keys };

    ghost laws = { same_partial caa_key_shape caa_keys };

    // Inlined, and the flags told by one branch: a call costs as much as the comparison.
    #[inline(always)]
    fn eq(&self, other: &CAA) -> bool {
        ((self.issuer_critical == other.issuer_critical)
            & (self.reserved_flags == other.reserved_flags))
            && self.tag == other.tag
            && self.value == other.value
    }
}

impl Eq for CAA {
    ghost laws = { same_equiv caa_key_shape caa_keys };
}

/// Whether CAA can be emitted: its tag has at most 255 octets.
#[inline]
pub fn caa_is_emittable(x: &CAA) -> bool
    ensures { result ≡ all_emittable caa_shape (caa_fields x.now) }
{
    x.tag.len() <= 255
}

/// The steps of CAA: flags and tag, the value.
#[inline]
pub fn caa_step<'a>(x: &'a CAA, step: usize, head: &mut Head) -> Option<Step<'a>>
    requires empty { head.old ≡ [] }
    requires short { AllShort caa_shape (caa_fields x.now) }
    ensures { (i j : ℕ) → GivesStep (field_steps caa_begins caa_shape (caa_fields x.now)) step i j head.new result }
{
    match step {
        0 => {
            head.one(x.flags());
            Some(Step::to(head.text(x.tag.as_slice()), 1))
        }
        1 => Some(Step::to(Tail::rest(x.value.as_slice()), 2)),
        _ => None,
    }
}

// Whether flag and reserved bits are the same.
#[inline]
fn has_same_flags(a: &CAA, b: &CAA) -> bool
    ensures { IsTrue result → (a.now.issuer_critical ≡ b.now.issuer_critical) × (a.now.reserved_flags ≡ b.now.reserved_flags) }
{
    a.issuer_critical == b.issuer_critical && a.reserved_flags == b.reserved_flags
}

impl OrderedRecord for CAA {
    /// If the octets tie, tag and value are equal, and the flags are compared.
    #[inline]
    #[tactic(auto, using(crate::proofs::CaaOrders::caa_orders, dns_rdata_base::proofs::QuickOrders::tie, dns_rdata_base::proofs::QuickOrders::no_difference))]
    fn cmp_canonical_fields(&self, other: &CAA) -> Option<Ordering> {
        let flags = one_behind(Ordering::Equal, self.flags(), other.flags());
        let tags = text_behind(flags, self.tag.as_slice(), other.tag.as_slice());
        let order = rest_behind(tags, self.value.as_slice(), other.value.as_slice());
        if order.is_eq() {
            return if has_same_flags(self, other) {
                Some(order)
            } else {
                None
            };
        }
        if !caa_is_emittable(self) || !caa_is_emittable(other) {
            return None;
        }
        Some(order)
    }

    fn cmp_values(&self, other: &CAA) -> Ordering {
        in_order!(
            u8::from(self.issuer_critical).cmp(&u8::from(other.issuer_critical)),
            cmp_each_field!((self, other) reserved_flags tag value)
        )
    }
}

impl fmt::Display for CAA {
    ghost output = { λ x. Some (caa_text x) };

    /// The flags in decimal, the tag, and the value in quotes: `128 issue ";"`. U+FFFD stands for octets that are not
    /// UTF-8.
    #[tactic(auto, unfolding(dns_rdata_base::specs::Lossy::lossy))]
    fn fmt<W: fmt::Write>(&self, f: &mut fmt::Formatter<W>) -> fmt::Result {
        let tag = BStr::new(self.tag.as_slice());
        let value = BStr::new(self.value.as_slice());
        write!(f, "{} {tag} \"{value}\"", self.flags())
    }
}
