//! Canonical octets compared field by field, without a cursor.

ghost use Rattle.std.specs.Prelude.{◌≡◌, ◌<◌, ◌≤◌, ◌^◌, ◌⊎◌, length};
ghost use Rattle.std.specs.{Cmp.Lexicographic.slice_cmp, Int.bytes_high_first, Ordering.nat_cmp, Ordering.ordering_then};
ghost use Rattle.dns_fields.specs.{declared.Kind.TheVariants.Name as NameKind, declared.Kind.TheVariants.Number};
ghost use Rattle.dns_fields.specs.{declared.Kind.TheVariants.Rest, declared.Kind.TheVariants.CharacterString};
ghost use Rattle.dns_fields.specs.{Fields.field_octets, Labels.AreLabels};
ghost use Rattle.dns_canonical.specs.Runs.{next_order};

use crate::tail::Tail;
use dns_names_wire::Name;
use std::cmp::Ordering;

/// Returns the order of two lists by the next octet of each: a list that has ended is less than one that goes on.
/// `None` if both have the same next octet.
#[inline(always)]
pub fn next_order(a: Option<u8>, b: Option<u8>) -> Option<Ordering>
    ensures { result ≡ next_order a b }
{
    match (a, b) {
        (None, None) => Some(Ordering::Equal),
        (None, Some(_)) => Some(Ordering::Less),
        (Some(_), None) => Some(Ordering::Greater),
        (Some(x), Some(y)) => { if x == y { None } else { Some(x.cmp(&y)) } }
    }
}

/// Compares slices as their `cmp` does, but faster: by the first octet that differs; a proper prefix is less.
#[inline]
pub fn octets_cmp(a: &[u8], b: &[u8]) -> Ordering
    ensures { result ≡ slice_cmp nat_cmp a.now b.now }
{
    let shorter = a.len().min(b.len());
    if shorter < 8 {
        return few_cmp(a, b);
    }
    let mut at = 0usize;
    'tokens: while at + 8 < shorter {
        let x = token(&a[at..at + 8]);
        let y = token(&b[at..at + 8]);
        if x != y {
            return x.cmp(&y);
        }
        at += 8;
    }
    // The last eight octets of the shorter one lap over some that are known to be the same.
    let x = token(&a[shorter - 8..shorter]);
    let y = token(&b[shorter - 8..shorter]);
    x.cmp(&y).then(a.len().cmp(&b.len()))
}

// The order of octets where one list has fewer than eight: by the first four of the shorter one, and then by its last four,
// which may lap over those.
#[inline]
fn few_cmp(a: &[u8], b: &[u8]) -> Ordering
    requires { (length a.now < 8) ⊎ (length b.now < 8) }
    ensures { result ≡ slice_cmp nat_cmp a.now b.now }
{
    let shorter = a.len().min(b.len());
    if shorter < 4 {
        return a.cmp(b);
    }
    let x = half(&a[..4]);
    let y = half(&b[..4]);
    if x != y {
        return x.cmp(&y);
    }
    let x = half(&a[shorter - 4..shorter]);
    let y = half(&b[shorter - 4..shorter]);
    x.cmp(&y).then(a.len().cmp(&b.len()))
}

// Eight octets as one number, the first the highest.
#[inline]
fn token(octets: &[u8]) -> u64
    requires { length octets.now ≡ 8 }
    ensures { bytes_high_first 8 result ≡ octets.now }
{
    u64::from_be_bytes([
        octets[0], octets[1], octets[2], octets[3], octets[4], octets[5], octets[6], octets[7],
    ])
}

// Four octets as one number, the first the highest.
#[inline]
fn half(octets: &[u8]) -> u32
    requires { length octets.now ≡ 4 }
    ensures { bytes_high_first 4 result ≡ octets.now }
{
    u32::from_be_bytes([octets[0], octets[1], octets[2], octets[3]])
}

/// Compares these slices if what came before them is equal.
#[inline]
pub fn slices_behind(first: Ordering, a: &[u8], b: &[u8]) -> Ordering
    ensures { result ≡ ordering_then first (slice_cmp nat_cmp a.now b.now) }
{
    if first.is_ne() {
        return first;
    }
    octets_cmp(a, b)
}

/// Compares a number of one octet if the fields before it are equal.
#[inline]
#[tactic(auto, using(crate::proofs::Fronts::number_then))]
pub fn one_behind(first: Ordering, a: u8, b: u8) -> Ordering
    ensures { result ≡ ordering_then first (slice_cmp nat_cmp (field_octets (Number 1) a) (field_octets (Number 1) b)) }
{
    first.then(a.cmp(&b))
}

/// Compares a number of two octets if the fields before it are equal.
#[inline]
#[tactic(auto, using(crate::proofs::Fronts::number_then))]
pub fn two_behind(first: Ordering, a: u16, b: u16) -> Ordering
    ensures { result ≡ ordering_then first (slice_cmp nat_cmp (field_octets (Number 2) a) (field_octets (Number 2) b)) }
{
    first.then(a.cmp(&b))
}

/// Compares a number of four octets if the fields before it are equal.
#[inline]
#[tactic(auto, using(crate::proofs::Fronts::number_then))]
pub fn four_behind(first: Ordering, a: u32, b: u32) -> Ordering
    ensures { result ≡ ordering_then first (slice_cmp nat_cmp (field_octets (Number 4) a) (field_octets (Number 4) b)) }
{
    first.then(a.cmp(&b))
}

/// Compares a character string, whose first octet is its length, if the fields before it are equal.
#[inline]
#[tactic(auto, using(crate::proofs::Fronts::text_then))]
pub fn text_behind(first: Ordering, a: &[u8], b: &[u8]) -> Ordering
    ensures { result ≡ ordering_then first (slice_cmp nat_cmp (field_octets CharacterString a.now) (field_octets CharacterString b.now)) }
{
    let lengths = first.then(a.len().cmp(&b.len()));
    slices_behind(lengths, a, b)
}

/// Compares octets up to the end of the record if the fields before them are equal.
#[inline]
#[tactic(auto, unfolding(dns_fields::specs::Fields::field_octets))]
pub fn rest_behind(first: Ordering, a: &[u8], b: &[u8]) -> Ordering
    ensures { result ≡ ordering_then first (slice_cmp nat_cmp (field_octets Rest a.now) (field_octets Rest b.now)) }
{
    slices_behind(first, a, b)
}

/// Compares a name if the fields before it are equal.
#[inline]
pub fn name_behind(first: Ordering, a: &Name, b: &Name) -> Ordering
    ensures order { result ≡ ordering_then first (slice_cmp nat_cmp (field_octets NameKind a.now) (field_octets NameKind b.now)) }
    ensures labels { AreLabels a.now.labels × AreLabels b.now.labels }
{
    let _ = (a.len(), b.len());
    if first.is_ne() {
        return first;
    }
    Tail::name(a).compare(&mut Tail::name(b))
}
