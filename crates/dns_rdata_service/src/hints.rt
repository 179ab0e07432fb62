//! Addresses in hints, of four or of sixteen octets.

ghost use Rattle.std.specs.Prelude.{◌≡◌, ◌<◌, ◌≤◌, ℕ, List, IfSome, length, map};
ghost use Rattle.std.specs.{Cmp.Lexicographic.slice_cmp, Ordering.nat_cmp, List.AllByRecursion, declared.cmp.Ordering.TheVariants.Equal};
ghost use Rattle.dns_fields.specs.Tlvs.{Opaque};
ghost use Rattle.dns_rdata_service.specs.{SvcParamValue.a_octets, SvcParamValue.aaaa_octets, Steps.IsSizeOf};
ghost use Rattle.dns_rdata_service.specs.ParameterOrder.{OrderFirst, behind_length, joined};

use dns_canonical::order::octets_cmp;
use dns_rdata_base::{A, AAAA};
use std::cmp::Ordering;

/// An address of `N` octets.
pub(crate) trait Address<const N: usize>: Sized {
    /// Its octets.
    ghost octets: { Self → List ℕ };

    /// Its octets in network order.
    fn to_octets(&self) -> [u8; N]
        ensures { result ≡ octets self.now };
}

impl Address<4> for A {
    ghost octets = { a_octets };

    #[inline]
    fn to_octets(&self) -> [u8; 4] {
        self.0.octets()
    }
}

impl Address<16> for AAAA {
    ghost octets = { aaaa_octets };

    #[inline]
    fn to_octets(&self) -> [u8; 16] {
        self.0.octets()
    }
}

/// Compares two lists, address by address.
#[inline]
pub(crate) fn hints_cmp<const N: usize, T: Address<N>>(a: &[T], b: &[T]) -> Ordering
    requires { (0 < N) × (N ≤ 16) }
    ensures { result ≡ slice_cmp (slice_cmp nat_cmp) (map T.octets a.now) (map T.octets b.now) }
{
    let shorter = a.len().min(b.len());
    for i in 0..shorter {
        let order = octets_cmp(&a[i].to_octets(), &b[i].to_octets());
        if order.is_ne() {
            return order;
        }
    }
    a.len().cmp(&b.len())
}

/// Compares two lists by their length in octets, and then address by address.
#[inline]
#[tactic(auto, using(crate::proofs::SvcbFronts::items_first, crate::proofs::SvcbFronts::items_alike, crate::proofs::SvcbFronts::lists_tie, crate::proofs::SvcbFronts::then_ties))]
pub(crate) fn hints_order<const N: usize, T: Address<N>>(a: &[T], b: &[T]) -> Option<Ordering>
    requires { (0 < N) × (N ≤ 16) }
    ensures order { IfSome result (λ o. OrderFirst o (behind_length (joined (map T.octets a.now))) (behind_length (joined (map T.octets b.now)))) }
    ensures alike { IfSome result (λ o. o ≡ Equal → map T.octets a.now ≡ map T.octets b.now) }
{
    let order = hints_cmp(a, b);
    if order.is_eq() {
        return Some(order);
    }
    let sizes = hints_size(a)?.cmp(&hints_size(b)?);
    Some(sizes.then(order))
}

/// Returns how many octets the addresses have, if at most 65535.
#[inline]
pub(crate) fn hints_size<const N: usize, T: Address<N>>(addresses: &[T]) -> Option<u16>
    requires { (0 < N) × (N ≤ 16) }
    ensures size { IsSizeOf (Opaque (joined (map T.octets addresses.now))) result }
    ensures width { AllByRecursion (λ s. length s ≡ N) (map T.octets addresses.now) }
{
    // For the proof: shows how many octets each address has.
    for address in addresses {
        let _octets = address.to_octets();
    }
    u16::try_from(addresses.len().checked_mul(N)?).ok()
}
