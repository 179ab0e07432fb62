//! Sets of types compared by their shortest bitmaps.

ghost use Rattle.std.specs.Prelude.{◌≡◌, ◌<◌, ◌≤◌, length, IfSome, IfNone};
ghost use Rattle.std.specs.{Cmp.Lexicographic.slice_cmp, Ordering.nat_cmp};
ghost use Rattle.dns_fields.specs.Fields.{Value, Field, field_octets};
ghost use Rattle.dns_fields.specs.declared.Kind.TheVariants.{Bitmap};

use crate::bitmap::put::put_bitmap;
use std::cmp::Ordering;

// The most octets of the shortest bitmap of a set of types: 256 windows of 34 octets.
const BITMAP_OCTETS: usize = 8704;

// As many octets as most bitmaps have: three full windows and more.
const FEW_OCTETS: usize = 128;

// Orders two sets of types by their shortest bitmaps, if each of these has at most so many octets.
// Not inlined, so that only long bitmaps need the stack for them.
#[inline(never)]
fn compare_within<const N: usize>(a: &[u8], b: &[u8]) -> Option<Ordering>
    requires { N ≤ 8704 }
    ensures some { IfSome result (λ o. (u : Value Bitmap) (v : Value Bitmap) → Field a.now 0 Bitmap u (length a.now) →
        Field b.now 0 Bitmap v (length b.now) → o ≡ slice_cmp nat_cmp (field_octets Bitmap u) (field_octets Bitmap v)) }
    ensures none { IfNone result (N < 8704) }
{
    let mut left = [0; N];
    let mut right = [0; N];
    let long = put_bitmap(&mut left, 0, a);
    let other = put_bitmap(&mut right, 0, b);
    if long > N || other > N {
        return None;
    }
    Some(left[..long].cmp(&right[..other]))
}

/// Orders two sets of types by their shortest bitmaps, given by the octets of any bitmaps of theirs.
pub fn compare_bitmaps(a: &[u8], b: &[u8]) -> Ordering
    ensures { (u : Value Bitmap) (v : Value Bitmap) → Field a.now 0 Bitmap u (length a.now) → Field b.now 0 Bitmap v (length b.now) →
        result ≡ slice_cmp nat_cmp (field_octets Bitmap u) (field_octets Bitmap v) }
{
    match compare_within::<FEW_OCTETS>(a, b) {
        Some(order) => order,
        None => match compare_within::<BITMAP_OCTETS>(a, b) {
            Some(order) => order,
            // Unreachable: no shortest bitmap is longer.
            None => Ordering::Equal,
        },
    }
}
