//! The type of a fingerprint in SSHFP (RFC 4255, 3.1.2).

ghost use Rattle.std.specs.Prelude.{◌≡◌, refl};
ghost use Rattle.std.specs.Hash as fed;
ghost use Rattle.dns_rdata_base.specs.Numbered.{numbered_eq, numbered_cmp, numbered_partial_cmp, numbered_hash};
ghost use Rattle.dns_rdata_base.proofs.NumberedLaws.{numbered_equiv, numbered_partial, numbered_total, numbered_order, numbered_ties, numbered_alike};
ghost use Rattle.dns_rdata_certs.specs.Enums.{fingerprint_type_number, fingerprint_type_variant, fingerprint_type_of};

use std::cmp::Ordering;
use std::hash::{Hash, Hasher};

/// The type of a fingerprint (RFC 4255, 3.1.2). Types are ordered by number, and then as declared here.
#[derive(Clone, Copy, Debug)]
pub enum FingerprintType {
    /// Reserved (0).
    Reserved,
    /// SHA-1 (1).
    SHA1,
    /// SHA-256 (2; RFC 6594).
    SHA256,
    /// A number that is given to no type: `from` gives it for every other number.
    Unassigned(u8),
}

// The variants, as the macros of the crate take them.
macro_rules! types {
    ($macro:ident, $arguments:tt) => {
        $macro!($arguments FingerprintType (Reserved 0 0) (SHA1 1 1) (SHA256 2 2) [Unassigned 3])
    };
}

#[tactic(auto, unfolding(crate::specs::Enums::fingerprint_type_of))]
impl From<u8> for FingerprintType {
    ghost from_gives = { λ n e. (e ≡ fingerprint_type_of n) × (fingerprint_type_number e ≡ n) };

    #[inline]
    fn from(value: u8) -> FingerprintType {
        types!(of_number, (value, _ => FingerprintType::Unassigned(value)))
    }
}

impl From<FingerprintType> for u8 {
    ghost from_gives = { λ e n. n ≡ fingerprint_type_number e };

    #[inline]
    fn from(value: FingerprintType) -> u8 {
        types!(number_of, (value))
    }
}

impl FingerprintType {
    /// The number on the wire.
    #[inline]
    pub fn number(self) -> u8
        ensures { result ≡ fingerprint_type_number self }
    {
        u8::from(self)
    }

    // The rank in the declaration.
    #[inline]
    fn variant(self) -> u8
        ensures { result ≡ fingerprint_type_variant self }
    {
        types!(rank_of, (self))
    }
}

impl PartialEq for FingerprintType {
    ghost eq = { numbered_eq fingerprint_type_number fingerprint_type_variant };

    ghost laws = { numbered_partial fingerprint_type_number fingerprint_type_variant };

    #[inline]
    fn eq(&self, other: &FingerprintType) -> bool {
        types!(are_same, (*self, *other))
    }
}

impl Eq for FingerprintType {
    ghost laws = { numbered_equiv fingerprint_type_number fingerprint_type_variant };
}

impl Hash for FingerprintType {
    ghost hash_input = { numbered_hash fed.u8 fingerprint_type_number fingerprint_type_variant };

    ghost respects_eq = { numbered_alike fed.u8 fingerprint_type_number fingerprint_type_variant };

    #[inline]
    fn hash<H: Hasher>(&self, state: &mut H) {
        u8::from(*self).hash(state);
        self.variant().hash(state);
    }
}

impl PartialOrd for FingerprintType {
    ghost partial_cmp = { numbered_partial_cmp fingerprint_type_number fingerprint_type_variant };

    ghost laws = { numbered_order fingerprint_type_number fingerprint_type_variant };

    #[inline]
    fn partial_cmp(&self, other: &FingerprintType) -> Option<Ordering> {
        Some(self.cmp(other))
    }
}

impl Ord for FingerprintType {
    ghost cmp = { numbered_cmp fingerprint_type_number fingerprint_type_variant };

    ghost total = { numbered_total fingerprint_type_number fingerprint_type_variant };

    ghost matches_partial_cmp = { λ _ _. refl };

    ghost matches_eq = { numbered_ties fingerprint_type_number fingerprint_type_variant };

    #[inline]
    fn cmp(&self, other: &FingerprintType) -> Ordering {
        let numbers = u8::from(*self).cmp(&u8::from(*other));
        numbers.then(self.variant().cmp(&other.variant()))
    }
}
