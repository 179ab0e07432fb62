//! The codes of EDNS options (RFC 6891, 9).

ghost use Rattle.std.specs.Prelude.{◌≡◌, ◌++◌, ◌<◌, refl};
ghost use Rattle.std.specs.{Cmp.partial_equiv_from_equiv, Cmp.partial_order_from_agreeing_total, Cmp.Rules.hashing, Ordering.as_partial_cmp, Ordering.nat_cmp};
ghost use Rattle.std.specs.Hash as fed;
ghost use Rattle.std.proofs.Common.{rules};
ghost use Rattle.dns_rdata_base.specs.Numbered.{numbered_eq, numbered_cmp};
ghost use Rattle.dns_rdata_base.proofs.NumberedLaws.{numbered_equiv, numbered_total, numbered_ties};
ghost use Rattle.dns_rdata_options.specs.EdnsCode.{edns_code_number, edns_code_variant, edns_code_of};

use std::cmp::Ordering;
use std::hash::{Hash, Hasher};

/// The code of an EDNS option (RFC 6891, 9). Codes are ordered by number, and then as declared here.
#[derive(Clone, Copy, Debug)]
pub enum EdnsCode {
    /// Reserved (0).
    Zero,
    /// LLQ, long-lived queries (1; RFC 8764).
    LLQ,
    /// UL, update leases (2).
    UL,
    /// NSID, the name of a server (3; RFC 5001).
    NSID,
    /// DAU, algorithms of DNSSEC that are understood (5; RFC 6975).
    DAU,
    /// DHU, hashes of DS that are understood (6; RFC 6975).
    DHU,
    /// N3U, hashes of NSEC3 that are understood (7; RFC 6975).
    N3U,
    /// The subnet of a client (8; RFC 7871).
    Subnet,
    /// EXPIRE (9; RFC 7314).
    Expire,
    /// COOKIE (10; RFC 7873).
    Cookie,
    /// edns-tcp-keepalive (11; RFC 7828).
    Keepalive,
    /// Padding (12; RFC 7830).
    Padding,
    /// CHAIN (13; RFC 7901).
    Chain,
    /// A number that has no variant of its own: `from` gives it for every other number.
    Unknown(u16),
}

#[tactic(auto, unfolding(crate::specs::EdnsCode::edns_code_of))]
impl From<u16> for EdnsCode {
    ghost from_gives = { λ n e. (e ≡ edns_code_of n) × (edns_code_number e ≡ n) };

    #[inline]
    fn from(value: u16) -> EdnsCode {
        match value {
            0 => EdnsCode::Zero,
            1 => EdnsCode::LLQ,
            2 => EdnsCode::UL,
            3 => EdnsCode::NSID,
            5 => EdnsCode::DAU,
            6 => EdnsCode::DHU,
            7 => EdnsCode::N3U,
            8 => EdnsCode::Subnet,
            9 => EdnsCode::Expire,
            10 => EdnsCode::Cookie,
            11 => EdnsCode::Keepalive,
            12 => EdnsCode::Padding,
            13 => EdnsCode::Chain,
            _ => EdnsCode::Unknown(value),
        }
    }
}

impl From<EdnsCode> for u16 {
    ghost from_gives = { λ e n. n ≡ edns_code_number e };

    #[inline]
    fn from(value: EdnsCode) -> u16 {
        match value {
            EdnsCode::Zero => 0,
            EdnsCode::LLQ => 1,
            EdnsCode::UL => 2,
            EdnsCode::NSID => 3,
            EdnsCode::DAU => 5,
            EdnsCode::DHU => 6,
            EdnsCode::N3U => 7,
            EdnsCode::Subnet => 8,
            EdnsCode::Expire => 9,
            EdnsCode::Cookie => 10,
            EdnsCode::Keepalive => 11,
            EdnsCode::Padding => 12,
            EdnsCode::Chain => 13,
            EdnsCode::Unknown(number) => number,
        }
    }
}

impl EdnsCode {
    /// The number on the wire.
    #[inline]
    pub fn number(self) -> u16
        ensures { result ≡ edns_code_number self }
    {
        u16::from(self)
    }

    /// Compares the numbers. The records with most options are in order of codes without a name, so that case is inlined
    /// and all others are a call.
    #[inline(always)]
    pub(crate) fn cmp_number(self, other: EdnsCode) -> Ordering
        ensures numbers { result ≡ nat_cmp (edns_code_number self) (edns_code_number other) }
        ensures first { edns_code_number self < 65536 }
        ensures second { edns_code_number other < 65536 }
    {
        if let (EdnsCode::Unknown(number), EdnsCode::Unknown(another)) = (self, other) {
            return number.cmp(&another);
        }
        self.cmp_named_number(other)
    }

    #[inline(never)]
    fn cmp_named_number(self, other: EdnsCode) -> Ordering
        ensures numbers { result ≡ nat_cmp (edns_code_number self) (edns_code_number other) }
        ensures first { edns_code_number self < 65536 }
        ensures second { edns_code_number other < 65536 }
    {
        u16::from(self).cmp(&u16::from(other))
    }

    // Compares the variants, as `cmp_number`.
    #[inline(always)]
    fn cmp_variant(self, other: EdnsCode) -> Ordering
        ensures { result ≡ nat_cmp (edns_code_variant self) (edns_code_variant other) }
    {
        if let (EdnsCode::Unknown(_), EdnsCode::Unknown(_)) = (self, other) {
            return Ordering::Equal;
        }
        self.cmp_named_variant(other)
    }

    #[inline(never)]
    fn cmp_named_variant(self, other: EdnsCode) -> Ordering
        ensures { result ≡ nat_cmp (edns_code_variant self) (edns_code_variant other) }
    {
        self.variant().cmp(&other.variant())
    }

    // The rank in the declaration.
    #[inline]
    fn variant(self) -> u8
        ensures { result ≡ edns_code_variant self }
    {
        match self {
            EdnsCode::Zero => 0,
            EdnsCode::LLQ => 1,
            EdnsCode::UL => 2,
            EdnsCode::NSID => 3,
            EdnsCode::DAU => 4,
            EdnsCode::DHU => 5,
            EdnsCode::N3U => 6,
            EdnsCode::Subnet => 7,
            EdnsCode::Expire => 8,
            EdnsCode::Cookie => 9,
            EdnsCode::Keepalive => 10,
            EdnsCode::Padding => 11,
            EdnsCode::Chain => 12,
            EdnsCode::Unknown(_) => 13,
        }
    }
}

impl PartialEq for EdnsCode {
    ghost eq = { numbered_eq edns_code_number edns_code_variant };

    ghost laws = { partial_equiv_from_equiv (numbered_equiv edns_code_number edns_code_variant) };

    #[inline]
    fn eq(&self, other: &EdnsCode) -> bool {
        if self.variant() != other.variant() {
            return false;
        }
        match (*self, *other) {
            (EdnsCode::Unknown(a), EdnsCode::Unknown(b)) => a == b,
            _ => true,
        }
    }
}

impl Eq for EdnsCode {
    ghost laws = { numbered_equiv edns_code_number edns_code_variant };
}

impl Hash for EdnsCode {
    ghost hash_input = { λ e. fed.u16 (edns_code_number e) ++ fed.u8 (edns_code_variant e) };

    ghost respects_eq = { Prim.search (hashing, rules) };

    #[inline]
    fn hash<H: Hasher>(&self, state: &mut H) {
        u16::from(*self).hash(state);
        self.variant().hash(state);
    }
}

impl PartialOrd for EdnsCode {
    ghost partial_cmp = { as_partial_cmp (numbered_cmp edns_code_number edns_code_variant) };

    ghost laws = { partial_order_from_agreeing_total (numbered_cmp edns_code_number edns_code_variant) (numbered_total edns_code_number edns_code_variant)
        (λ _ _. refl) (numbered_ties edns_code_number edns_code_variant) };

    #[inline]
    fn partial_cmp(&self, other: &EdnsCode) -> Option<Ordering> {
        Some(self.cmp(other))
    }
}

impl Ord for EdnsCode {
    ghost cmp = { numbered_cmp edns_code_number edns_code_variant };

    ghost total = { numbered_total edns_code_number edns_code_variant };

    ghost matches_partial_cmp = { λ _ _. refl };

    ghost matches_eq = { numbered_ties edns_code_number edns_code_variant };

    #[inline(always)]
    fn cmp(&self, other: &EdnsCode) -> Ordering {
        let numbers = self.cmp_number(*other);
        if numbers.is_ne() {
            return numbers;
        }
        self.cmp_variant(*other)
    }
}
