//! TLSA: a certificate of a service (RFC 6698, 2.1).

ghost use Rattle.std.specs.{Prelude.◌≡◌, Prelude.IfOk, Prelude.IsTrue, Prelude.Some, Prelude.true, Iterator.IsFinite, Prelude.refl};
ghost use Rattle.dns_names_wire.specs.{Terms.Emits};
ghost use Rattle.dns_rdata_certs.specs.TLSA.{tlsa_shape, tlsa_fields, tlsa_facts, tlsa_key_shape, tlsa_keys, tlsa_text, IsReadTlsa};
ghost use Rattle.dns_rdata_certs.specs.{Enums.cert_usage_number, Enums.matching_number, Enums.selector_number};
ghost use Rattle.dns_rdata_certs.specs.TokenRows.{IsSomeHex, joined_hex, tlsa_tokens};
ghost use Rattle.dns_tokens.specs.Reads.{ReadsTokenRow, Decides};

mod enums;

use crate::hexadecimal::{HEX, Hexadecimal};
use dns_canonical::{AtOnce, Head, Tail, one_behind, rest_behind};
use dns_check::DecodesRow;
use dns_names_wire::{
    BinDecoder, BinEncodable, BinEncoder, DecodeError, ParseError, ProtoError, Record, Restrict,
    SmallOctets,
};
use dns_rdata_base::rest::rest_order;
use dns_rdata_base::{OrderedRecord, cmp_each_field};
use dns_rows::{Part, row};
use dns_tokens::{Field, join_tokens, next_u8, number_field};
pub use enums::{CertUsage, Matching, Selector};
use std::alloc::Global;
use std::cmp::Ordering;
use std::convert::AsStr;
use std::fmt;

// The fields of TLSA, which SMIMEA has too (RFC 6698, 2.1).
const CERT_USAGE: Field = number_field!("certificate usage");

const SELECTOR: Field = number_field!("selector");

const MATCHING: Field = number_field!("matching type");

/// TLSA RDATA (RFC 6698, section 2.1): a certificate for a service, or what is compared with one.
///
///     +-----+--------+--------+------+
///     |USAGE|SELECTOR|MATCHING| DATA /   an octet each, and the rest
///     +-----+--------+--------+------+
///
/// The RDATA `030101abcd` is `3 1 1 abcd`.
#[derive(Clone, Debug, Drop, Eq, Hash, PartialEq)]
pub struct TLSA {
    /// How the certificate is used.
    pub cert_usage: CertUsage,
    /// Which part of it is compared.
    pub selector: Selector,
    /// How that part is compared.
    pub matching: Matching,
    /// What it is compared with.
    pub cert_data: SmallOctets<64>,
}

impl TLSA {
    /// Makes a record of these fields, which are moved: up to 64 octets are kept in the value.
    pub fn new(
        cert_usage: CertUsage,
        selector: Selector,
        matching: Matching,
        cert_data: Vec<u8>,
    ) -> TLSA
        ensures usage { result.cert_usage ≡ cert_usage }
        ensures selector { result.selector ≡ selector }
        ensures matching { result.matching ≡ matching }
        ensures data { result.cert_data ≡ cert_data.items }
    {
        TLSA {
            cert_usage,
            selector,
            matching,
            cert_data: SmallOctets::from_vec(cert_data),
        }
    }

    /// Reads three tokens and more: usage, selector and matching type, decimal numbers of 8 bits, and in all further
    /// tokens, joined, hexadecimal digits of one octet or more ([`HEX`]). The iterator must end.
    ///
    /// # Errors
    ///
    /// - [`MissingToken`](ParseError::MissingToken): a token is missing.
    /// - [`Message`](ParseError::Message): a token is no such number, or no digits; or there is no octet.
    /// - [`Memory`](ParseError::Memory): an allocation failed.
    pub fn from_tokens<S: AsStr + Drop, I: Iterator<Item = S>>(
        alloc: Global,
        mut tokens: I,
    ) -> Result<TLSA, ParseError>
        requires can { I.can_next tokens }
        requires ends { IsFinite (I.remaining tokens) }
        ensures reads { ReadsTokenRow I.next_gives S.text tlsa_tokens tlsa_fields result tokens }
        ensures enums { IfOk result IsReadTlsa }
    {
        let cert_usage = CertUsage::from(next_u8(&mut tokens, CERT_USAGE)?);
        let selector = Selector::from(next_u8(&mut tokens, SELECTOR)?);
        let matching = Matching::from(next_u8(&mut tokens, MATCHING)?);
        let cert_data = all_hex(alloc, tokens)?;
        Ok(TLSA {
            cert_usage,
            selector,
            matching,
            cert_data,
        })
    }
}

// The octets of hexadecimal digits. No digits are rejected.
fn some_hex_of(alloc: Global, digits: &[u8]) -> Result<SmallOctets<64>, ParseError>
    ensures { Decides (IsSomeHex digits.now) (λ x. x) result }
{
    let octets = SmallOctets::from_vec(HEX.decode(alloc, digits)?);
    if octets.is_empty() {
        return Err(ParseError::Message("certificate association data missing"));
    }
    Ok(octets)
}

// The octets of all further tokens, joined. No digits are rejected.
#[tactic(auto, using(crate::proofs::TokensBack::hex_read))]
fn all_hex<S: AsStr + Drop, I: Iterator<Item = S>>(
    alloc: Global,
    tokens: I,
) -> Result<SmallOctets<64>, ParseError>
    requires can { I.can_next tokens }
    requires ends { IsFinite (I.remaining tokens) }
    ensures { ReadsTokenRow I.next_gives S.text joined_hex (λ x. (x, tt)) result tokens }
{
    let joined = join_tokens(alloc, tokens)?;
    some_hex_of(alloc, joined.as_slice())
}

impl Record for TLSA {
    ghost facts = { tlsa_facts };

    #[inline]
    fn row() -> &'static [Part] {
        &row::TLSA
    }
}

impl DecodesRow for TLSA {
    ghost checked = { refl };

    /// Reads three octets of numbers, and the rest of RDLENGTH. Allocates once if the rest is more than 64 octets.
    #[inline(always)]
    fn read_row(decoder: &mut BinDecoder<'_>, length: Restrict<u16>) -> Result<TLSA, DecodeError> {
        let start = decoder.index();
        let cert_usage = CertUsage::from(decoder.read_u8()?.unverified());
        let selector = Selector::from(decoder.read_u8()?.unverified());
        let matching = Matching::from(decoder.read_u8()?.unverified());
        let read = decoder.index() - start;
        let len = length.unverified() as usize;
        if len < read {
            return Err(DecodeError::IncorrectRDataLengthRead { read, len });
        }
        let cert_data = decoder.read_small(len - read)?.unverified();
        Ok(TLSA {
            cert_usage,
            selector,
            matching,
            cert_data,
        })
    }
}

impl BinEncodable for TLSA {
    ghost emits = { λ x r old new. Emits tlsa_shape (tlsa_fields x) r old new };

    /// Appends the three numbers and the data.
    #[inline(always)]
    fn emit(&self, encoder: &mut BinEncoder<'_>) -> Result<(), ProtoError> {
        let usage = u8::from(self.cert_usage);
        let selector = u8::from(self.selector);
        let matching = u8::from(self.matching);
        encoder.emit_both(&[usage, selector, matching], self.cert_data.as_slice())
    }
}

impl AtOnce for TLSA {
    #[inline]
    fn at_once<'a>(&'a self, head: &mut Head) -> Tail<'a> {
        head.one(u8::from(self.cert_usage));
        head.one(u8::from(self.selector));
        head.one(u8::from(self.matching));
        Tail::rest(self.cert_data.as_slice())
    }
}

// Whether two TLSA have equal fields before the certificate data.
#[inline]
fn is_tlsa_front_same(a: &TLSA, b: &TLSA) -> bool
    ensures numbers { IsTrue result → (cert_usage_number a.now.cert_usage ≡ cert_usage_number b.now.cert_usage) × (selector_number a.now.selector ≡ selector_number b.now.selector) × (matching_number a.now.matching ≡ matching_number b.now.matching) }
    ensures equal { IsTrue result → a.now.cert_data ≡ b.now.cert_data → ⟦<TLSA as PartialEq>⟧.eq a.now b.now ≡ true }
{
    a.cert_usage == b.cert_usage && a.selector == b.selector && a.matching == b.matching
}

impl OrderedRecord for TLSA {
    /// By the octets of the certificate data if the fields before it are equal.
    #[inline]
    #[tactic(auto, using(crate::proofs::Fronts::tlsa_tied, crate::proofs::Fronts::differ, dns_rdata_base::proofs::QuickOrders::no_difference))]
    fn cmp_canonical_fields(&self, other: &TLSA) -> Option<Ordering> {
        if is_tlsa_front_same(self, other) {
            return Some(rest_order(self.cert_data.as_slice(), other.cert_data.as_slice()));
        }
        let usage = u8::from(self.cert_usage);
        let usages = one_behind(Ordering::Equal, usage, u8::from(other.cert_usage));
        let selectors = one_behind(usages, u8::from(self.selector), u8::from(other.selector));
        let matching = one_behind(selectors, u8::from(self.matching), u8::from(other.matching));
        let (data, other_data) = (self.cert_data.as_slice(), other.cert_data.as_slice());
        let order = rest_behind(matching, data, other_data);
        if order.is_ne() { Some(order) } else { None }
    }

    #[inline]
    fn cmp_values(&self, other: &TLSA) -> Ordering {
        cmp_each_field!((self, other) cert_usage selector matching cert_data)
    }
}

impl fmt::Display for TLSA {
    ghost output = { λ x. Some (tlsa_text x) };

    /// Prints the three numbers in decimal and the data in hexadecimal, with a blank between: `3 1 1 abcd`.
    fn fmt<W: fmt::Write>(&self, f: &mut fmt::Formatter<W>) -> fmt::Result {
        let usage = u8::from(self.cert_usage);
        let selector = u8::from(self.selector);
        let matching = u8::from(self.matching);
        let data = Hexadecimal(self.cert_data.as_slice());
        write!(f, "{usage} {selector} {matching} {data}")
    }
}
