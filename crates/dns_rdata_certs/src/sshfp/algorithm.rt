//! The algorithm of a key in SSHFP (RFC 4255, 3.1.1).

ghost use Rattle.std.specs.Prelude.{◌≡◌, refl};
ghost use Rattle.std.specs.Hash as fed;
ghost use Rattle.dns_rdata_base.specs.Numbered.{numbered_eq, numbered_cmp, numbered_partial_cmp, numbered_hash};
ghost use Rattle.dns_rdata_base.proofs.NumberedLaws.{numbered_equiv, numbered_partial, numbered_total, numbered_order, numbered_ties, numbered_alike};
ghost use Rattle.dns_rdata_certs.specs.Enums.{sshfp_algorithm_number, sshfp_algorithm_variant, sshfp_algorithm_of};

use std::cmp::Ordering;
use std::hash::{Hash, Hasher};

/// The algorithm of a host's key (RFC 4255, 3.1.1). Algorithms are ordered by number, and then as declared here.
#[derive(Clone, Copy, Debug)]
pub enum Algorithm {
    /// Reserved (0).
    Reserved,
    /// RSA (1).
    RSA,
    /// DSA (2).
    DSA,
    /// ECDSA (3; RFC 6594).
    ECDSA,
    /// Ed25519 (4; RFC 7479).
    Ed25519,
    /// Ed448 (6; RFC 8709).
    Ed448,
    /// A number that is given to no algorithm: `from` gives it for every other number.
    Unassigned(u8),
}

// The variants, as the macros of the crate take them.
macro_rules! algorithms {
    ($macro:ident, $arguments:tt) => {
        $macro!(
            $arguments Algorithm
            (Reserved 0 0) (RSA 1 1) (DSA 2 2) (ECDSA 3 3) (Ed25519 4 4) (Ed448 6 5) [Unassigned 6]
        )
    };
}

#[tactic(auto, unfolding(crate::specs::Enums::sshfp_algorithm_of))]
impl From<u8> for Algorithm {
    ghost from_gives = { λ n e. (e ≡ sshfp_algorithm_of n) × (sshfp_algorithm_number e ≡ n) };

    #[inline]
    fn from(value: u8) -> Algorithm {
        algorithms!(of_number, (value, _ => Algorithm::Unassigned(value)))
    }
}

impl From<Algorithm> for u8 {
    ghost from_gives = { λ e n. n ≡ sshfp_algorithm_number e };

    #[inline]
    fn from(value: Algorithm) -> u8 {
        algorithms!(number_of, (value))
    }
}

impl Algorithm {
    /// The number on the wire.
    #[inline]
    pub fn number(self) -> u8
        ensures { result ≡ sshfp_algorithm_number self }
    {
        u8::from(self)
    }

    // The rank in the declaration.
    #[inline]
    fn variant(self) -> u8
        ensures { result ≡ sshfp_algorithm_variant self }
    {
        algorithms!(rank_of, (self))
    }
}

impl PartialEq for Algorithm {
    ghost eq = { numbered_eq sshfp_algorithm_number sshfp_algorithm_variant };

    ghost laws = { numbered_partial sshfp_algorithm_number sshfp_algorithm_variant };

    #[inline]
    fn eq(&self, other: &Algorithm) -> bool {
        algorithms!(are_same, (*self, *other))
    }
}

impl Eq for Algorithm {
    ghost laws = { numbered_equiv sshfp_algorithm_number sshfp_algorithm_variant };
}

impl Hash for Algorithm {
    ghost hash_input = { numbered_hash fed.u8 sshfp_algorithm_number sshfp_algorithm_variant };

    ghost respects_eq = { numbered_alike fed.u8 sshfp_algorithm_number sshfp_algorithm_variant };

    #[inline]
    fn hash<H: Hasher>(&self, state: &mut H) {
        u8::from(*self).hash(state);
        self.variant().hash(state);
    }
}

impl PartialOrd for Algorithm {
    ghost partial_cmp = { numbered_partial_cmp sshfp_algorithm_number sshfp_algorithm_variant };

    ghost laws = { numbered_order sshfp_algorithm_number sshfp_algorithm_variant };

    #[inline]
    fn partial_cmp(&self, other: &Algorithm) -> Option<Ordering> {
        Some(self.cmp(other))
    }
}

impl Ord for Algorithm {
    ghost cmp = { numbered_cmp sshfp_algorithm_number sshfp_algorithm_variant };

    ghost total = { numbered_total sshfp_algorithm_number sshfp_algorithm_variant };

    ghost matches_partial_cmp = { λ _ _. refl };

    ghost matches_eq = { numbered_ties sshfp_algorithm_number sshfp_algorithm_variant };

    #[inline]
    fn cmp(&self, other: &Algorithm) -> Ordering {
        let numbers = u8::from(*self).cmp(&u8::from(*other));
        numbers.then(self.variant().cmp(&other.variant()))
    }
}
