//! Names compared and hashed without their case (RFC 4343).

ghost use Rattle.std.specs.Prelude.{◌≡◌, ◌≤◌, ◌↔◌, IsTrue, map, length};
ghost use Rattle.std.specs.{Char.to_ascii_lowercase, Cmp.Lexicographic.slice_cmp, Ordering.nat_cmp};
ghost use Rattle.dns_labels.specs.Comparing.{lowered_octets};

use std::cmp::Ordering;
use std::hash::Hasher;

/// Compares octets by the first that differs once A to Z are lowercased; a proper prefix is less.
///
/// A length octet is less than `A`, so this orders the octets of names as their canonical octets.
#[tactic(auto, using(crate::proofs::ComparingSteps::ended, crate::proofs::ComparingSteps::past_shorter))]
pub fn compare_lowered(a: &[u8], b: &[u8]) -> Ordering
    ensures { result ≡ slice_cmp nat_cmp (map to_ascii_lowercase a.now) (map to_ascii_lowercase b.now) }
{
    let shorter = a.len().min(b.len());
    for at in 0..shorter {
        let x = a[at].to_ascii_lowercase();
        let y = b[at].to_ascii_lowercase();
        if x != y {
            return x.cmp(&y);
        }
    }
    a.len().cmp(&b.len())
}

/// Returns whether the octets are the same once A to Z are lowercased.
#[inline]
pub fn equal_lowered(a: &[u8], b: &[u8]) -> bool
    ensures { IsTrue result ↔ (map to_ascii_lowercase a.now ≡ map to_ascii_lowercase b.now) }
{
    a.eq_ignore_ascii_case(b)
}

/// Feeds a name's canonical octets at once: its octets with A to Z lowercased, and the 0 at the end.
pub fn hash_lowered<H: Hasher>(octets: &[u8], state: &mut H)
    requires { length octets.now ≤ 254 }
    ensures { state.new ≡ H.write state.old (lowered_octets octets.now) }
{
    let mut lowered = [0u8; 255];
    for (index, octet) in octets.iter().enumerate() {
        lowered[index] = octet.to_ascii_lowercase();
    }
    lowered[octets.len()] = 0;
    state.write(&lowered[..octets.len() + 1]);
}
