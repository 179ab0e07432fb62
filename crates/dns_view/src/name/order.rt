//! Names in messages, compared by their uncompressed octets in lower case.

ghost use Rattle.std.specs.Prelude.{◌≡◌, ◌+◌, ◌≤◌, ℕ, None, length, take, IfSome};
ghost use Rattle.std.specs.{Cmp.Lexicographic.slice_cmp, Ordering.nat_cmp};
ghost use Rattle.dns_fields.specs.{Labels.DomainName, Labels.lowname, Names.IsNameIn};
ghost use Rattle.dns_names_wire.specs.NameEnds.{SkipsRun, OrdersNames};

use crate::put::put_name;
use dns_canonical::order::octets_cmp;
use dns_labels::comparing::compare_lowered;
use dns_names_wire::name_ends::skip_run;
use dns_types::comparing::same_octets;
use std::cmp::Ordering;

// The most octets that a name has (RFC 1035, 3.1).
const NAME_OCTETS: usize = 255;

// How two names are ordered, and where the encoding of each ends.
#[derive(Clone, Copy)]
pub(crate) struct NameOrder {
    pub(crate) order: Ordering,
    pub(crate) left: usize,
    pub(crate) right: usize,
}

// Returns how many octets of a name are before the 0 at its end, or `None` if a compression pointer ends its labels.
#[inline]
fn uncompressed_len(message: &[u8], offset: usize) -> Option<usize>
    requires { offset ≤ length message.now }
    ensures run { IfSome result (λ n. SkipsRun message.now offset None (offset + n + 1) 0 n) }
    ensures inside { IfSome result (λ n. offset + n + 1 ≤ length message.now) }
{
    match skip_run(message, offset, 0) {
        Some(run) => match run.next {
            None => Some(run.octets),
            Some(_) => None,
        },
        None => None,
    }
}

// Returns a number of octets that are the same at the front of both: all of the shorter one, or some eights.
#[inline]
fn same_front(a: &[u8], b: &[u8]) -> usize
    ensures same { take result a.now ≡ take result b.now }
    ensures left { result ≤ length a.now }
    ensures right { result ≤ length b.now }
{
    let most = a.len().min(b.len());
    let mut at = 0;
    'eights: while at + 8 <= most {
        if !same_octets(&a[at..at + 8], &b[at..at + 8]) {
            return at;
        }
        at += 8;
    }
    if same_octets(&a[at..most], &b[at..most]) {
        return most;
    }
    at
}

/// Orders two names in messages by their uncompressed octets in lower case. Allocates nothing.
#[inline]
pub fn compare_names(a: &[u8], x: usize, b: &[u8], y: usize) -> Ordering
    requires left { x ≤ length a.now }
    requires right { y ≤ length b.now }
    ensures { (u : DomainName) (q : ℕ) (v : DomainName) (r : ℕ) → IsNameIn a.now x u q → IsNameIn b.now y v r →
        result ≡ slice_cmp nat_cmp (lowname u) (lowname v) }
{
    order_names(a, x, b, y).order
}

// Orders two names, and finds their ends.
#[inline]
pub(crate) fn order_names(a: &[u8], x: usize, b: &[u8], y: usize) -> NameOrder
    requires left { x ≤ length a.now }
    requires right { y ≤ length b.now }
    ensures names { OrdersNames a.now x b.now y result.order result.left result.right }
    ensures behind { (x ≤ result.left) × (y ≤ result.right) }
{
    let first = match uncompressed_len(a, x) {
        Some(first) => first,
        None => return order_any_names(a, x, b, y),
    };
    // Names that are the same octet by octet are gone over once.
    let whole = &a[x..x + first + 1];
    let same = same_front(whole, &b[y..]);
    if same == first + 1 {
        return NameOrder {
            order: Ordering::Equal,
            left: x + same,
            right: y + same,
        };
    }
    let second = match uncompressed_len(b, y) {
        Some(second) => second,
        None => return order_any_names(a, x, b, y),
    };
    let from = same.min(first).min(second);
    NameOrder {
        order: compare_lowered(&a[x + from..x + first], &b[y + from..y + second]),
        left: x + first + 1,
        right: y + second + 1,
    }
}

// The same for names that compression pointers may end.
#[inline(never)]
fn order_any_names(a: &[u8], x: usize, b: &[u8], y: usize) -> NameOrder
    requires left { x ≤ length a.now }
    requires right { y ≤ length b.now }
    ensures names { OrdersNames a.now x b.now y result.order result.left result.right }
    ensures behind { (x ≤ result.left) × (y ≤ result.right) }
{
    let mut first = [0; NAME_OCTETS];
    let mut second = [0; NAME_OCTETS];
    match put_name(a, x, true, &mut first, 0) {
        Some((left, long)) => match put_name(b, y, true, &mut second, 0) {
            Some((right, other)) => NameOrder {
                order: octets_cmp(&first[..long], &second[..other]),
                left,
                right,
            },
            None => no_order(x, y),
        },
        None => no_order(x, y),
    }
}

// Unreachable: a name is encoded at each of the offsets.
#[inline]
fn no_order(left: usize, right: usize) -> NameOrder
    ensures { (result.left ≡ left) × (result.right ≡ right) }
{
    NameOrder {
        order: Ordering::Equal,
        left,
        right,
    }
}
