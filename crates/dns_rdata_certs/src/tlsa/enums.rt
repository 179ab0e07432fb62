//! The usage of a certificate in TLSA, which part of it is compared, and how (RFC 6698, 2.1.1 to 2.1.3).

ghost use Rattle.std.specs.Prelude.{◌≡◌, refl};
ghost use Rattle.std.specs.Hash as fed;
ghost use Rattle.dns_rdata_base.specs.Numbered.{numbered_eq, numbered_cmp, numbered_partial_cmp, numbered_hash};
ghost use Rattle.dns_rdata_base.proofs.NumberedLaws.{numbered_equiv, numbered_partial, numbered_total, numbered_order, numbered_ties, numbered_alike};
ghost use Rattle.dns_rdata_certs.specs.Enums.{cert_usage_number, cert_usage_variant, cert_usage_of, selector_number, selector_variant, selector_of};
ghost use Rattle.dns_rdata_certs.specs.Enums.{matching_number, matching_variant, matching_of};

use std::cmp::Ordering;
use std::hash::{Hash, Hasher};

/// How a certificate is used (RFC 6698, 2.1.1; names of RFC 7218). Usages are ordered by number, and then as declared
/// here.
#[derive(Clone, Copy, Debug)]
pub enum CertUsage {
    /// An authority, under the checks of PKIX (0).
    PkixTa,
    /// The service itself, under the checks of PKIX (1).
    PkixEe,
    /// An authority of this record alone (2).
    DaneTa,
    /// The service itself, by this record alone (3).
    DaneEe,
    /// A number that is given to no usage: `from` gives it for every other number.
    Unassigned(u8),
    /// For private use (255).
    Private,
}

// The variants, as the macros of the crate take them.
macro_rules! usages {
    ($macro:ident, $arguments:tt) => {
        $macro!(
            $arguments CertUsage
            (PkixTa 0 0) (PkixEe 1 1) (DaneTa 2 2) (DaneEe 3 3) (Private 255 5) [Unassigned 4]
        )
    };
}

#[tactic(auto, unfolding(crate::specs::Enums::cert_usage_of))]
impl From<u8> for CertUsage {
    ghost from_gives = { λ n e. (e ≡ cert_usage_of n) × (cert_usage_number e ≡ n) };

    #[inline]
    fn from(value: u8) -> CertUsage {
        usages!(of_number, (value, _ => CertUsage::Unassigned(value)))
    }
}

impl From<CertUsage> for u8 {
    ghost from_gives = { λ e n. n ≡ cert_usage_number e };

    #[inline]
    fn from(value: CertUsage) -> u8 {
        usages!(number_of, (value))
    }
}

impl CertUsage {
    /// The number on the wire.
    #[inline]
    pub fn number(self) -> u8
        ensures { result ≡ cert_usage_number self }
    {
        u8::from(self)
    }

    // The rank in the declaration.
    #[inline]
    fn variant(self) -> u8
        ensures { result ≡ cert_usage_variant self }
    {
        usages!(rank_of, (self))
    }
}

impl PartialEq for CertUsage {
    ghost eq = { numbered_eq cert_usage_number cert_usage_variant };

    ghost laws = { numbered_partial cert_usage_number cert_usage_variant };

    #[inline]
    fn eq(&self, other: &CertUsage) -> bool {
        usages!(are_same, (*self, *other))
    }
}

impl Eq for CertUsage {
    ghost laws = { numbered_equiv cert_usage_number cert_usage_variant };
}

impl Hash for CertUsage {
    ghost hash_input = { numbered_hash fed.u8 cert_usage_number cert_usage_variant };

    ghost respects_eq = { numbered_alike fed.u8 cert_usage_number cert_usage_variant };

    #[inline]
    fn hash<H: Hasher>(&self, state: &mut H) {
        u8::from(*self).hash(state);
        self.variant().hash(state);
    }
}

impl PartialOrd for CertUsage {
    ghost partial_cmp = { numbered_partial_cmp cert_usage_number cert_usage_variant };

    ghost laws = { numbered_order cert_usage_number cert_usage_variant };

    #[inline]
    fn partial_cmp(&self, other: &CertUsage) -> Option<Ordering> {
        Some(self.cmp(other))
    }
}

impl Ord for CertUsage {
    ghost cmp = { numbered_cmp cert_usage_number cert_usage_variant };

    ghost total = { numbered_total cert_usage_number cert_usage_variant };

    ghost matches_partial_cmp = { λ _ _. refl };

    ghost matches_eq = { numbered_ties cert_usage_number cert_usage_variant };

    #[inline]
    fn cmp(&self, other: &CertUsage) -> Ordering {
        let numbers = u8::from(*self).cmp(&u8::from(*other));
        numbers.then(self.variant().cmp(&other.variant()))
    }
}

/// Which part of a certificate is compared (RFC 6698, 2.1.2; names of RFC 7218). Selectors are ordered by number, and
/// then as declared here.
#[derive(Clone, Copy, Debug)]
pub enum Selector {
    /// The whole certificate (0).
    Full,
    /// Its public key (1).
    Spki,
    /// A number that is given to no part: `from` gives it for every other number.
    Unassigned(u8),
    /// For private use (255).
    Private,
}

// The variants, as the macros of the crate take them.
macro_rules! parts {
    ($macro:ident, $arguments:tt) => {
        $macro!($arguments Selector (Full 0 0) (Spki 1 1) (Private 255 3) [Unassigned 2])
    };
}

#[tactic(auto, unfolding(crate::specs::Enums::selector_of))]
impl From<u8> for Selector {
    ghost from_gives = { λ n e. (e ≡ selector_of n) × (selector_number e ≡ n) };

    #[inline]
    fn from(value: u8) -> Selector {
        parts!(of_number, (value, _ => Selector::Unassigned(value)))
    }
}

impl From<Selector> for u8 {
    ghost from_gives = { λ e n. n ≡ selector_number e };

    #[inline]
    fn from(value: Selector) -> u8 {
        parts!(number_of, (value))
    }
}

impl Selector {
    /// The number on the wire.
    #[inline]
    pub fn number(self) -> u8
        ensures { result ≡ selector_number self }
    {
        u8::from(self)
    }

    // The rank in the declaration.
    #[inline]
    fn variant(self) -> u8
        ensures { result ≡ selector_variant self }
    {
        parts!(rank_of, (self))
    }
}

impl PartialEq for Selector {
    ghost eq = { numbered_eq selector_number selector_variant };

    ghost laws = { numbered_partial selector_number selector_variant };

    #[inline]
    fn eq(&self, other: &Selector) -> bool {
        parts!(are_same, (*self, *other))
    }
}

impl Eq for Selector {
    ghost laws = { numbered_equiv selector_number selector_variant };
}

impl Hash for Selector {
    ghost hash_input = { numbered_hash fed.u8 selector_number selector_variant };

    ghost respects_eq = { numbered_alike fed.u8 selector_number selector_variant };

    #[inline]
    fn hash<H: Hasher>(&self, state: &mut H) {
        u8::from(*self).hash(state);
        self.variant().hash(state);
    }
}

impl PartialOrd for Selector {
    ghost partial_cmp = { numbered_partial_cmp selector_number selector_variant };

    ghost laws = { numbered_order selector_number selector_variant };

    #[inline]
    fn partial_cmp(&self, other: &Selector) -> Option<Ordering> {
        Some(self.cmp(other))
    }
}

impl Ord for Selector {
    ghost cmp = { numbered_cmp selector_number selector_variant };

    ghost total = { numbered_total selector_number selector_variant };

    ghost matches_partial_cmp = { λ _ _. refl };

    ghost matches_eq = { numbered_ties selector_number selector_variant };

    #[inline]
    fn cmp(&self, other: &Selector) -> Ordering {
        let numbers = u8::from(*self).cmp(&u8::from(*other));
        numbers.then(self.variant().cmp(&other.variant()))
    }
}

/// How the data is compared (RFC 6698, 2.1.3; names of RFC 7218). Ways are ordered by number, and then as declared
/// here.
#[derive(Clone, Copy, Debug)]
pub enum Matching {
    /// The part as it is (0).
    Raw,
    /// Its SHA-256 (1).
    Sha256,
    /// Its SHA-512 (2).
    Sha512,
    /// A number that is given to no way: `from` gives it for every other number.
    Unassigned(u8),
    /// For private use (255).
    Private,
}

// The variants, as the macros of the crate take them.
macro_rules! ways {
    ($macro:ident, $arguments:tt) => {
        $macro!(
            $arguments Matching
            (Raw 0 0) (Sha256 1 1) (Sha512 2 2) (Private 255 4) [Unassigned 3]
        )
    };
}

#[tactic(auto, unfolding(crate::specs::Enums::matching_of))]
impl From<u8> for Matching {
    ghost from_gives = { λ n e. (e ≡ matching_of n) × (matching_number e ≡ n) };

    #[inline]
    fn from(value: u8) -> Matching {
        ways!(of_number, (value, _ => Matching::Unassigned(value)))
    }
}

impl From<Matching> for u8 {
    ghost from_gives = { λ e n. n ≡ matching_number e };

    #[inline]
    fn from(value: Matching) -> u8 {
        ways!(number_of, (value))
    }
}

impl Matching {
    /// The number on the wire.
    #[inline]
    pub fn number(self) -> u8
        ensures { result ≡ matching_number self }
    {
        u8::from(self)
    }

    // The rank in the declaration.
    #[inline]
    fn variant(self) -> u8
        ensures { result ≡ matching_variant self }
    {
        ways!(rank_of, (self))
    }
}

impl PartialEq for Matching {
    ghost eq = { numbered_eq matching_number matching_variant };

    ghost laws = { numbered_partial matching_number matching_variant };

    #[inline]
    fn eq(&self, other: &Matching) -> bool {
        ways!(are_same, (*self, *other))
    }
}

impl Eq for Matching {
    ghost laws = { numbered_equiv matching_number matching_variant };
}

impl Hash for Matching {
    ghost hash_input = { numbered_hash fed.u8 matching_number matching_variant };

    ghost respects_eq = { numbered_alike fed.u8 matching_number matching_variant };

    #[inline]
    fn hash<H: Hasher>(&self, state: &mut H) {
        u8::from(*self).hash(state);
        self.variant().hash(state);
    }
}

impl PartialOrd for Matching {
    ghost partial_cmp = { numbered_partial_cmp matching_number matching_variant };

    ghost laws = { numbered_order matching_number matching_variant };

    #[inline]
    fn partial_cmp(&self, other: &Matching) -> Option<Ordering> {
        Some(self.cmp(other))
    }
}

impl Ord for Matching {
    ghost cmp = { numbered_cmp matching_number matching_variant };

    ghost total = { numbered_total matching_number matching_variant };

    ghost matches_partial_cmp = { λ _ _. refl };

    ghost matches_eq = { numbered_ties matching_number matching_variant };

    #[inline]
    fn cmp(&self, other: &Matching) -> Ordering {
        let numbers = u8::from(*self).cmp(&u8::from(*other));
        numbers.then(self.variant().cmp(&other.variant()))
    }
}
