//! AAAA: an IPv6 address (RFC 3596, 2.2).

ghost use Rattle.std.specs.Prelude.{◌≡◌, ◌≢◌, ◌+◌, ◌-◌, ◌*◌, ◌/◌, ◌<◌, ◌≤◌, ℕ, List, [], ◌∷◌, length, length as list_length, OnErr, IfErr, Some, refl};
ghost use Rattle.std.specs.{Net.Addr.ipv6_segments, Net.Addr.ipv6_octets, Net.Grammar.Parses, Net.Grammar.IsIpv6Text, Cmp.Rules.hashing};
ghost use Rattle.dns_names_wire.specs.Terms.{ReadsIf, ReadsBy, Emits, LacksOctets, Always, IsTruncated};
ghost use Rattle.dns_names_wire.specs.Facts.{same, same_equiv, same_partial};
ghost use Rattle.dns_rdata_base.specs.AAAA.{aaaa_shape, aaaa_fields, aaaa_facts, aaaa_text, aaaa_tokens};
ghost use Rattle.dns_tokens.specs.Reads.{ReadsTokenRow};
ghost use Rattle.dns_fields.specs.Fields.{Stands};
ghost use Rattle.std.proofs.Common.{rules};
ghost use Rattle.dns_types.specs.declared.error.ParseError.TheVariants as parse;

use crate::traits::TakesOctet;
use crate::{OrderedRecord, unless_tied};
use dns_canonical::{AtOnce, Head, Tail, octets_cmp};
use dns_check::{BinDecodable, DecodesFields};
use dns_names_wire::{
    AddrParseError, BinDecoder, BinEncodable, BinEncoder, DecodeError, ParseError, ProtoError,
    Record,
};
use dns_rows::{Part, row};
use dns_tokens::next_ipv6;
use std::cmp::Ordering;
use std::convert::AsStr;
use std::fmt;
use std::hash::{Hash, Hasher};
use std::net::Ipv6Addr;
use std::ops::Deref;
use std::str::FromStr;

/// AAAA RDATA (RFC 3596, section 2.2): an IPv6 address.
///
///     +--+--+ .. +--+
///     |   ADDRESS   |   16 octets, network order
///     +--+--+ .. +--+
///
/// The RDATA `20010db8000000000000000000000001` is `2001:db8::1`.
#[derive(Clone, Copy, Debug)]
pub struct AAAA(pub Ipv6Addr);

impl AAAA {
    /// The address of these eight groups of sixteen bits, `a:b:c:d:e:f:g:h`.
    #[allow(clippy::too_many_arguments)]
    pub fn new(a: u16, b: u16, c: u16, d: u16, e: u16, f: u16, g: u16, h: u16) -> AAAA
        ensures { ipv6_segments result.0 ≡ a ∷ b ∷ c ∷ d ∷ e ∷ f ∷ g ∷ h ∷ [] }
    {
        AAAA(Ipv6Addr::new(a, b, c, d, e, f, g, h))
    }

    /// Reads one token, the text of an IPv6 address as `from_str` reads it. Further tokens are not read. Allocates
    /// nothing.
    ///
    /// # Errors
    ///
    /// - [`MissingToken`](ParseError::MissingToken): there is no token.
    /// - [`AddrParse`](ParseError::AddrParse): the token is no address.
    pub fn from_tokens<S: AsStr + Drop, I: Iterator<Item = S>>(
        mut tokens: I,
    ) -> Result<AAAA, ParseError>
        requires can { I.can_next tokens }
        ensures reads { ReadsTokenRow I.next_gives S.text aaaa_tokens aaaa_fields result tokens }
        ensures memory { IfErr result (λ e. e ≢ parse.Memory) }
    {
        Ok(AAAA(next_ipv6(&mut tokens, "AAAA address")?))
    }
}

impl BinDecodable for AAAA {
    ghost stands = { λ m p x q. Stands m p aaaa_shape (aaaa_fields x) q };

    ghost refuses = { IsTruncated 16 };

    /// Reads sixteen octets. Allocates nothing.
    ///
    /// # Errors
    ///
    /// [`InsufficientBytes`](DecodeError::InsufficientBytes): fewer octets are left. The decoder is then after the last
    /// whole pair of octets.
    #[inline]
    fn read(decoder: &mut BinDecoder<'_>) -> Result<AAAA, DecodeError>
        ensures reads { ReadsBy (λ m p x q. Stands m p aaaa_shape (aaaa_fields x) q) result decoder.old decoder.new }
        ensures fields { ReadsIf aaaa_shape (Always aaaa_shape) aaaa_fields result decoder.old decoder.new }
        ensures lacking { IfErr result (λ e. (e ≡ DecodeError.InsufficientBytes) × LacksOctets decoder.old 16) }
        ensures stopped { OnErr result (decoder.new.index ≡ decoder.old.index + (length decoder.old.message - decoder.old.index) / 2 * 2) }
    {
        let octets = decoder.read_in_steps(16, 2)?.unverified();
        Ok(AAAA(address_of(octets)))
    }
}

impl TakesOctet for AAAA {
    ghost use Rattle.dns_rdata_base.specs.Taking.{octets_take};

    ghost takes = { octets_take 15 aaaa_fields };
}

impl Record for AAAA {
    ghost facts = { aaaa_facts };

    #[inline]
    fn row() -> &'static [Part] {
        &row::AAAA
    }
}

impl DecodesFields for AAAA {
    ghost alone = { record { checked = refl; asked = refl; alone = refl; long = tt } };

    #[inline]
    fn read_fields(decoder: &mut BinDecoder<'_>) -> Result<AAAA, DecodeError> {
        AAAA::read(decoder)
    }
}

impl BinEncodable for AAAA {
    ghost emits = { λ x r old new. Emits aaaa_shape (aaaa_fields x) r old new };

    /// Appends the sixteen octets.
    #[inline]
    fn emit(&self, encoder: &mut BinEncoder<'_>) -> Result<(), ProtoError> {
        encoder.emit_vec(&self.0.octets())
    }
}

impl PartialEq for AAAA {
    ghost eq = { same aaaa_shape aaaa_fields };

    ghost laws = { same_partial aaaa_shape aaaa_fields };

    #[inline(always)]
    fn eq(&self, other: &AAAA) -> bool {
        // one comparison of sixteen octets, once compiled
        let [a0, a1, a2, a3, a4, a5, a6, a7] = self.0.segments();
        let [b0, b1, b2, b3, b4, b5, b6, b7] = other.0.segments();
        let lower = (a4 == b4) & ((a5 == b5) & ((a6 == b6) & (a7 == b7)));
        (a0 == b0) & ((a1 == b1) & ((a2 == b2) & ((a3 == b3) & lower)))
    }
}

impl Eq for AAAA {
    ghost laws = { same_equiv aaaa_shape aaaa_fields };
}

impl Hash for AAAA {
    ghost use Rattle.std.specs.Hash as fed;

    ghost hash_input = { λ a. fed.slice fed.u8 (ipv6_octets a.0) };

    ghost respects_eq = { Prim.search (hashing, rules) };

    fn hash<H: Hasher>(&self, state: &mut H) {
        self.0.octets().as_slice().hash(state);
    }
}

impl From<Ipv6Addr> for AAAA {
    ghost from_gives = { λ address a. a.0 ≡ address };

    fn from(address: Ipv6Addr) -> AAAA {
        AAAA(address)
    }
}

impl From<AAAA> for Ipv6Addr {
    ghost from_gives = { λ a address. address ≡ a.0 };

    fn from(a: AAAA) -> Ipv6Addr {
        a.0
    }
}

impl Deref for AAAA {
    type Target = Ipv6Addr;

    ghost deref_gives = { λ a address. address ≡ a.0 };

    #[inline]
    fn deref(&self) -> &Ipv6Addr {
        &self.0
    }
}

/// Reads eight groups of one to four hexadecimal digits joined by colons, one `::` instead of groups of zero, the last
/// two groups perhaps as an IPv4 address (RFC 4291, section 2.2). Any other text is an error. Allocates nothing.
impl FromStr for AAAA {
    type Err = AddrParseError;

    ghost from_str_gives = { Parses (λ text a. IsIpv6Text text a.0) };

    fn from_str(text: &str) -> Result<AAAA, AddrParseError> {
        match text.parse::<Ipv6Addr>() {
            Ok(address) => Ok(AAAA(address)),
            Err(_) => Err(AddrParseError),
        }
    }
}

impl AtOnce for AAAA {
    #[inline]
    #[tactic(auto, unfolding(dns_fields::specs::Fields::field_octets))]
    fn at_once<'a>(&'a self, head: &mut Head) -> Tail<'a> {
        head.octets(&self.0.octets());
        Tail::none()
    }
}

impl OrderedRecord for AAAA {
    #[inline]
    #[tactic(auto, unfolding(dns_fields::specs::Fields::field_octets))]
    fn cmp_canonical_fields(&self, other: &AAAA) -> Option<Ordering> {
        let order = octets_cmp(&self.0.octets(), &other.0.octets());
        unless_tied(order, self, other, true)
    }

    fn cmp_values(&self, other: &AAAA) -> Ordering {
        self.0.octets().as_slice().cmp(other.0.octets().as_slice())
    }
}

impl fmt::Display for AAAA {
    ghost output = { λ a. Some (aaaa_text a) };

    /// Prints eight groups in hexadecimal, the first longest run of at least two groups of zero as `::`: `2001:db8::1`.
    /// A mapped IPv4 address is printed as `::ffff:192.0.2.1`.
    fn fmt<W: fmt::Write>(&self, f: &mut fmt::Formatter<W>) -> fmt::Result {
        let address = self.0;
        write!(f, "{address}")
    }
}

// The address of sixteen octets.
#[inline]
fn address_of(octets: &[u8]) -> Ipv6Addr
    requires { length octets.now ≡ 16 }
    ensures { ipv6_octets result ≡ octets.now }
{
    match octets.as_array::<16>() {
        Some(octets) => Ipv6Addr::from(*octets),
        None => unreachable!(),
    }
}
