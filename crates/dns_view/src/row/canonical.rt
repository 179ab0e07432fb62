//! The octets of RDATA in one form, written into a buffer.

ghost use Rattle.std.specs.Prelude.{◌≡◌, ◌+◌, ◌<◌, ◌≤◌, ◌^◌, length, MatchOption};
ghost use Rattle.dns_rows.specs.Table.{kinds_of};
ghost use Rattle.dns_fields.specs.Fields.{Value, Field};
ghost use Rattle.dns_check.specs.Rows.{IsRowChecked, HasRow};
ghost use Rattle.dns_view.specs.Putting.{IsRecoded, Put, form_octets, all_form};

use crate::bitmap::put::put_bitmap;
use crate::options::put::put_options;
use crate::parameters::put::put_parameters;
use crate::put::{put_name, put_octets};
use crate::row::ends::{fields_to_visit, is_plain, plain_end};
use dns_fields::Kind;
use dns_rows::Part;

// Writes the octets of a field that is made anew, given by its octets in the message, and returns where they end.
fn put_recoded(out: &mut [u8], at: usize, kind: Kind, low: bool, octets: &[u8]) -> usize
    requires short { length octets.now < 65536 }
    requires room { at + length octets.now + 8704 < 2 ^ 64 }
    ensures { (v : Value kind) → IsRecoded kind → Field octets.now 0 kind v (length octets.now) →
        Put out.old out.new at result (form_octets low kind v) }
{
    match kind {
        Kind::Options => put_options(out, at, octets, low),
        Kind::Parameters => put_parameters(out, at, octets),
        Kind::Bitmap => put_bitmap(out, at, octets),
        // Unreachable: the octets of all other kinds are copied, or are names.
        _ => at,
    }
}

/// Writes the octets of RDATA that fields of the row fill at the front of a buffer, with names uncompressed, and lowercased if
/// `low` is set, and returns how many they are. Allocates nothing.
///
/// Of other RDATA it returns `None` or writes any octets, since what was checked is not checked again.
///
/// If the octets are more than the buffer has, as many as fit are written, and the number is still theirs.
pub fn put_row(
    message: &[u8],
    offset: usize,
    row: &[Part],
    len: usize,
    low: bool,
    out: &mut [u8],
) -> Option<usize>
    requires inside { offset ≤ length message.now }
    requires row { IsRowChecked row.now }
    requires short { len < 65536 }
    ensures { (h : HasRow message.now offset row.now (offset + len)) →
        MatchOption result ⊥ (λ end. Put out.old out.new 0 end (all_form low (kinds_of row.now) h.values)) }
{
    let end = offset + len;
    if message.len() < end {
        return None;
    }
    // What is encoded before the offset `from` has been written, up to `at` of the buffer. Octets from there to `here` are
    // copied at once, before the next field that is not copied, or at the end.
    let mut at = 0;
    let mut from = offset;
    let mut here = offset;
    'fields: for index in 0..fields_to_visit(row) {
        let kind = row[index].kind;
        if is_plain(kind) {
            here = plain_end(message, here, kind, end)?;
        } else {
            let middle = put_octets(out, at, &message[from..here]);
            match kind {
                Kind::Name => {
                    let (next, behind) = put_name(message, here, low, out, middle)?;
                    if end < next {
                        return None;
                    }
                    from = next;
                    here = next;
                    at = behind;
                }
                _ => return Some(put_recoded(out, middle, kind, low, &message[here..end])),
            }
        }
    }
    Some(put_octets(out, at, &message[from..end]))
}
