//! The fields of RDATA, one by one.

ghost use Rattle.std.specs.Prelude.{◌≡◌, ◌+◌, ◌<◌, ◌≤◌, ◌⊎◌, length, MatchOption, IfSome, IfNone};
ghost use Rattle.dns_fields.specs.{Fields.Field, Fields.Value, declared.Kind.TheVariants.Number, declared.Kind.TheVariants.Name};
ghost use Rattle.dns_names_wire.specs.Terms.{TookField, LacksField};
ghost use Rattle.dns_rows.specs.Table.{kinds_of};
ghost use Rattle.dns_names_wire.specs.NameEnds.{IsNamed};
ghost use Rattle.dns_check.specs.{Parts.IsCovered, Parts.IsWidth, Rows.IsRowChecked, Rows.HasRow};
ghost use Rattle.dns_view.specs.Shown.{Shows, ShowsAt};
ghost use Rattle.dns_view.specs.NameFields.{names_in, ShowsNameAt};

use crate::name::name_ref::NameRef;
use crate::row::ends::part_end;
use dns_fields::Kind;
use dns_names_wire::walk::Walk;
use dns_rows::{Part, Rule};

/// A field of RDATA, lent from the message.
#[derive(Clone, Copy)]
pub enum FieldRef<'a> {
    /// An unsigned number.
    Number(u32),
    /// A fixed number of octets.
    Octets(&'a [u8]),
    /// A domain name.
    Name(NameRef<'a>),
    /// A character string, without its length octet.
    CharacterString(&'a [u8]),
    /// Character strings up to the end of the RDATA, each after its length octet.
    CharacterStrings(&'a [u8]),
    /// All octets up to the end of the RDATA.
    Rest(&'a [u8]),
    /// Options of EDNS (RFC 6891, 6.1.2), as they are encoded.
    Options(&'a [u8]),
    /// Parameters of a service binding (RFC 9460, 2.2), as they are encoded.
    Parameters(&'a [u8]),
    /// A bitmap of type numbers (RFC 4034, 4.1.2), as it is encoded.
    Bitmap(&'a [u8]),
}

// Reads a number of one, two or four octets.
#[inline]
fn read_number(walk: &mut Walk<'_>, width: u8) -> Option<u32>
    requires { IsWidth width }
    ensures some { IfSome result (λ n. TookField walk.old (Number width) n walk.new) }
    ensures none { IfNone result (LacksField walk.old (Number width)) }
{
    match width {
        1 => match walk.read_u8() {
            Ok(n) => Some(n as u32),
            Err(_) => None,
        },
        2 => match walk.read_u16() {
            Ok(n) => Some(n as u32),
            Err(_) => None,
        },
        _ => match walk.read_u32() {
            Ok(n) => Some(n),
            Err(_) => None,
        },
    }
}

// The field that is encoded between two offsets of a message.
#[inline]
fn show_field<'a>(
    message: &'a [u8],
    here: usize,
    end: usize,
    kind: Kind,
    rule: Rule,
) -> FieldRef<'a>
    requires covered { IsCovered kind rule }
    requires before { here ≤ end }
    requires within { end ≤ length message.now }
    requires named { kind ≡ Name → IsNamed message.now here }
    ensures { (v : Value kind) → Field message.now here kind v end → Shows message.now here result kind v end }
{
    let octets = &message[here..end];
    match kind {
        Kind::Number(width) => {
            let mut walk = Walk::at(message, here);
            match read_number(&mut walk, width) {
                Some(n) => FieldRef::Number(n),
                None => FieldRef::Number(0),
            }
        }
        Kind::Octets(_) => FieldRef::Octets(octets),
        Kind::Name => FieldRef::Name(NameRef::at(message, here)),
        Kind::CharacterString => {
            if here < end {
                FieldRef::CharacterString(&message[here + 1..end])
            } else {
                FieldRef::CharacterString(octets)
            }
        }
        Kind::CharacterStrings => FieldRef::CharacterStrings(octets),
        Kind::Rest => FieldRef::Rest(octets),
        Kind::Options => FieldRef::Options(octets),
        Kind::Parameters => FieldRef::Parameters(octets),
        Kind::Bitmap => FieldRef::Bitmap(octets),
    }
}

/// The field of this index in the row, or `None` if the row has fewer fields. Allocates nothing.
pub fn field_of<'a>(
    message: &'a [u8],
    offset: usize,
    row: &[Part],
    len: usize,
    number: usize,
) -> Option<FieldRef<'a>>
    requires inside { offset ≤ length message.now }
    requires row { IsRowChecked row.now }
    requires short { len < 65536 }
    ensures { (h : HasRow message.now offset row.now (offset + len)) →
        MatchOption result (length row.now ≤ number)
        (λ f. ShowsAt message.now offset number (kinds_of row.now) h.values (offset + len) f) }
{
    let end = offset + len;
    if message.len() < end {
        // Unreachable: the RDATA is inside the message.
        return None;
    }
    let mut here = offset;
    for (at, part) in row.iter().enumerate() {
        let next = part_end(message, here, part.kind, end)?;
        if at == number {
            return Some(show_field(message, here, next, part.kind, part.rule));
        }
        here = next;
    }
    None
}

/// The name of this index among the fields that are names, or `None` if the row has fewer names. Allocates nothing.
pub fn name_field_of<'a>(
    message: &'a [u8],
    offset: usize,
    row: &[Part],
    len: usize,
    number: usize,
) -> Option<NameRef<'a>>
    requires inside { offset ≤ length message.now }
    requires row { IsRowChecked row.now }
    requires short { len < 65536 }
    ensures { (h : HasRow message.now offset row.now (offset + len)) → MatchOption result (names_in (kinds_of row.now) ≤ number)
        (λ r. ShowsNameAt message.now offset (kinds_of row.now) h.values number r) }
{
    let end = offset + len;
    if message.len() < end {
        // Unreachable: the RDATA is inside the message.
        return None;
    }
    let mut here = offset;
    let mut left = number;
    'fields: for part in row {
        let next = part_end(message, here, part.kind, end)?;
        if let Kind::Name = part.kind {
            if left == 0 {
                return Some(NameRef::at(message, here));
            }
            left -= 1;
        }
        here = next;
    }
    None
}
