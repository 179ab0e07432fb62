//! The order of RDATA by canonical octets, this library's own form and not that of DNSSEC.

ghost use Rattle.std.specs.Prelude.{◌≡◌, ◌+◌, ◌-◌, ◌<◌, ◌≤◌, ◌↔◌, IsTrue, ℕ, true, false};
ghost use Rattle.std.specs.Prelude.{length, take, drop, IfSome, IfNone};
ghost use Rattle.std.specs.{Cmp.Lexicographic.slice_cmp, Ordering.nat_cmp};
ghost use Rattle.dns_fields.specs.{Fields.canonical, Fields.field_octets, Fields.Field, Fields.Value};
ghost use Rattle.dns_rows.specs.Table.{kinds_of};
ghost use Rattle.dns_check.specs.Parts.{Reaches};
ghost use Rattle.dns_view.specs.Putting.{IsRecoded};
ghost use Rattle.dns_check.specs.Rows.{IsRowChecked, IsRow, HasRow};
ghost use Rattle.dns_view.specs.RowOrder.{IsPlain, ArePlain, Sized};

use crate::bitmap::order::compare_bitmaps;
use crate::name::order::order_names;
use crate::options::order::compare_options;
use crate::parameters::order::compare_parameters;
use crate::row::ends::{fields_to_visit, is_plain, plain_end};
use dns_canonical::order::octets_cmp;
use dns_fields::Kind;
use dns_rows::Part;
use dns_types::comparing::same_octets;
use std::cmp::Ordering;

/// Orders RDATA of two records of one row by canonical octets: field by field, in the messages. Allocates
/// nothing.
pub fn compare_rows(
    a: &[u8],
    x: usize,
    long: usize,
    b: &[u8],
    y: usize,
    other: usize,
    row: &[Part],
) -> Ordering
    requires left { x ≤ length a.now }
    requires right { y ≤ length b.now }
    requires row { IsRowChecked row.now }
    requires short_left { long < 65536 }
    requires short_right { other < 65536 }
    ensures { (h : HasRow a.now x row.now (x + long)) (k : HasRow b.now y row.now (y + other)) →
        result ≡ slice_cmp nat_cmp (canonical (kinds_of row.now) h.values) (canonical (kinds_of row.now) k.values) }
{
    let end = x + long;
    let stop = y + other;
    if a.len() < end || b.len() < stop {
        // Unreachable: the RDATA is inside the messages.
        return Ordering::Equal;
    }
    let count = fields_to_visit(row);
    if count == 0 {
        return octets_cmp(&a[x..end], &b[y..stop]);
    }
    compare_fields(a, x, end, b, y, stop, row, count)
}

// The same for RDATA up to two ends. So many fields are gone over; those behind them are canonical as they are encoded.
fn compare_fields(
    a: &[u8],
    x: usize,
    end: usize,
    b: &[u8],
    y: usize,
    stop: usize,
    row: &[Part],
    count: usize,
) -> Ordering
    requires left { (x ≤ end) × (end ≤ length a.now) }
    requires right { (y ≤ stop) × (stop ≤ length b.now) }
    requires row { IsRow row.now }
    requires count { count ≤ length row.now }
    requires plain { ArePlain (drop count row.now) }
    requires short_left { end - x < 65536 }
    requires short_right { stop - y < 65536 }
    ensures { (h : HasRow a.now x row.now end) (k : HasRow b.now y row.now stop) →
        result ≡ slice_cmp nat_cmp (canonical (kinds_of row.now) h.values) (canonical (kinds_of row.now) k.values) }
{
    // What is encoded before the offsets `from` and `to` is equal. Octets of the first message from there to `at` are
    // canonical as they are encoded, and are compared at once, before the next name or at the end.
    let mut from = x;
    let mut to = y;
    let mut at = x;
    'fields: for index in 0..count {
        let kind = row[index].kind;
        if is_plain(kind) {
            match plain_end(a, at, kind, end) {
                Some(next) => at = next,
                // Unreachable: the field is there.
                None => return Ordering::Equal,
            }
        } else {
            if !begins_with(&b[to..stop], &a[from..at]) {
                return octets_cmp(&a[from..end], &b[to..stop]);
            }
            to += at - from;
            match kind {
                Kind::Name => {
                    let names = order_names(a, at, b, to);
                    match names.order {
                        Ordering::Equal => {}
                        order => return order,
                    }
                    if end < names.left || stop < names.right {
                        // Unreachable: the names are inside the RDATA.
                        return Ordering::Equal;
                    }
                    from = names.left;
                    at = from;
                    to = names.right;
                }
                _ => return compare_recoded(kind, &a[at..end], &b[to..stop]),
            }
        }
    }
    octets_cmp(&a[from..end], &b[to..stop])
}

// Returns whether the first octets are these.
#[inline]
fn begins_with(octets: &[u8], front: &[u8]) -> bool
    ensures { IsTrue result ↔ (take (length front.now) octets.now ≡ front.now) }
{
    let count = front.len();
    if octets.len() < count {
        return false;
    }
    same_octets(&octets[..count], front)
}

// Orders two fields of one kind whose canonical octets are made anew, given by their octets.
#[inline]
fn compare_recoded(kind: Kind, a: &[u8], b: &[u8]) -> Ordering
    requires short_left { length a.now < 65536 }
    requires short_right { length b.now < 65536 }
    ensures { IsRecoded kind → (u : Value kind) (v : Value kind) → Field a.now 0 kind u (length a.now) →
        Field b.now 0 kind v (length b.now) →
        result ≡ slice_cmp nat_cmp (field_octets kind u) (field_octets kind v) }
{
    if same_octets(a, b) {
        return Ordering::Equal;
    }
    match kind {
        Kind::Options => compare_options(a, b),
        Kind::Parameters => compare_parameters(a, b),
        Kind::Bitmap => compare_bitmaps(a, b),
        // Unreachable: all other kinds are compared as they are, or are names.
        _ => Ordering::Equal,
    }
}
