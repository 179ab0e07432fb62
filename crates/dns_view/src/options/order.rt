//! Options of EDNS compared by their canonical octets, given by their octets in messages (RFC 6891, 6.1.2).

ghost use Rattle.std.specs.Prelude.{◌≡◌, ◌+◌, ◌*◌, ◌<◌, ◌≤◌, length, map};
ghost use Rattle.std.specs.{Cmp.Lexicographic.slice_cmp, Ordering.nat_cmp};
ghost use Rattle.dns_fields.specs.{Fields.Value, Fields.Field, Fields.field_octets, declared.Kind.TheVariants.Options};
ghost use Rattle.dns_view.specs.OptionOctets.{own_at};

use crate::options::parts::compare_at;
use crate::options::put::{
    FEW, FEW_OCTETS, FEWEST, FEWEST_OCTETS, MOST, SOME, SOME_OCTETS, list_options, sort_options,
};
use std::cmp::Ordering;

// Compares options one by one, by their canonical octets; a list that ends first comes first.
fn compare_each(a: &[u8], left: &[u16], b: &[u8], right: &[u16]) -> Ordering
    ensures { result ≡ slice_cmp (slice_cmp nat_cmp) (map (own_at a.now) left.now) (map (own_at b.now) right.now) }
{
    let most = left.len().min(right.len());
    for k in 0..most {
        match compare_at(a, left[k] as usize, b, right[k] as usize) {
            Ordering::Equal => {}
            order => return order,
        }
    }
    if left.len() > most {
        return Ordering::Greater;
    }
    if right.len() > most {
        return Ordering::Less;
    }
    Ordering::Equal
}

// Compares as `compare_options`, with room for so many offsets of each list.
#[inline(never)]
fn compare_within<const N: usize>(a: &[u8], b: &[u8]) -> Ordering
    requires short { length a.now < 65536 }
    requires shorts { length b.now < 65536 }
    requires most { N ≤ 16384 }
    requires many { length a.now < 4 * N + 4 }
    requires others { length b.now < 4 * N + 4 }
    ensures { (u : Value Options) (v : Value Options) → Field a.now 0 Options u (length a.now) →
        Field b.now 0 Options v (length b.now) → result ≡ slice_cmp nat_cmp (field_octets Options u) (field_octets Options v) }
{
    let mut left = [0u16; N];
    let count = list_options(a, &mut left);
    let mut right = [0u16; N];
    let other = list_options(b, &mut right);
    if count == 0 || other == 0 {
        return count.cmp(&other);
    }
    let left = &mut left[..count];
    sort_options(a, left, true);
    let right = &mut right[..other];
    sort_options(b, right, true);
    compare_each(a, left, b, right)
}

/// Orders two lists of options by their canonical octets, given by their octets in messages. Allocates nothing.
pub fn compare_options(a: &[u8], b: &[u8]) -> Ordering
    requires short { length a.now < 65536 }
    requires shorts { length b.now < 65536 }
    ensures { (u : Value Options) (v : Value Options) → Field a.now 0 Options u (length a.now) →
        Field b.now 0 Options v (length b.now) → result ≡ slice_cmp nat_cmp (field_octets Options u) (field_octets Options v) }
{
    if a.len() < FEWEST_OCTETS && b.len() < FEWEST_OCTETS {
        return compare_within::<FEWEST>(a, b);
    }
    if a.len() < FEW_OCTETS && b.len() < FEW_OCTETS {
        return compare_within::<FEW>(a, b);
    }
    if a.len() < SOME_OCTETS && b.len() < SOME_OCTETS {
        return compare_within::<SOME>(a, b);
    }
    compare_within::<MOST>(a, b)
}
