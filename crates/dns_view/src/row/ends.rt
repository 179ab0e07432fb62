//! Where the fields of RDATA end that was checked before.

ghost use Rattle.std.specs.Prelude.{◌≡◌, ◌+◌, ◌<◌, ◌≤◌, ℕ, true, false, length, drop, IfSome, IfNone};
ghost use Rattle.dns_fields.specs.{Fields.Field, Fields.Value, declared.Kind.TheVariants.Name};
ghost use Rattle.dns_names_wire.specs.NameEnds.{IsNamed};
ghost use Rattle.dns_check.specs.Parts.{Reaches};
ghost use Rattle.dns_view.specs.RowOrder.{IsPlain, ArePlain, Sized};

use dns_fields::Kind;
use dns_names_wire::name_ends::skip_name;
use dns_rows::Part;

// Returns whether the octets of a field are canonical as they are encoded.
#[inline]
pub(crate) fn is_plain(kind: Kind) -> bool
    ensures yes { result ≡ true → IsPlain kind }
    ensures no { result ≡ false → IsPlain kind → ⊥ }
{
    match kind {
        Kind::Name => false,
        Kind::Options => false,
        Kind::Parameters => false,
        Kind::Bitmap => false,
        _ => true,
    }
}

// Returns how many fields there are up to the last one whose octets are not canonical as they are encoded.
#[inline]
pub(crate) fn fields_to_visit(row: &[Part]) -> usize
    ensures within { result ≤ length row.now }
    ensures plain { ArePlain (drop result row.now) }
{
    let mut count = row.len();
    while count > 0 {
        if !is_plain(row[count - 1].kind) {
            return count;
        }
        count -= 1;
    }
    0
}

// Returns how many octets a field has whose octets are canonical as they are encoded, by its kind and its first octet.
#[inline]
#[tactic(auto, using(crate::proofs::RowOrder::number_sized, crate::proofs::RowOrder::octets_sized, crate::proofs::RowOrder::string_sized, crate::proofs::RowOrder::rest_sized))]
fn plain_size(message: &[u8], at: usize, kind: Kind, end: usize) -> Option<usize>
    requires within { at ≤ end }
    requires inside { end ≤ length message.now }
    ensures some { IfSome result (λ size. Sized message.now at kind end size) }
    ensures none { IfNone result ((v : Value kind) (q : ℕ) → IsPlain kind → Field message.now at kind v q →
        Reaches kind end q → ⊥) }
{
    match kind {
        Kind::Number(width) => Some(width as usize),
        Kind::Octets(count) => Some(count as usize),
        Kind::CharacterString => {
            if at == end {
                return None;
            }
            Some(message[at] as usize + 1)
        }
        _ => Some(end - at),
    }
}

// Returns the offset after a field whose octets are canonical as they are encoded, if it ends within the RDATA.
#[inline]
#[tactic(auto, using(crate::proofs::RowOrder::sized_past))]
pub(crate) fn plain_end(message: &[u8], at: usize, kind: Kind, end: usize) -> Option<usize>
    requires within { at ≤ end }
    requires inside { end ≤ length message.now }
    ensures some { IfSome result (λ next. (v : Value kind) (q : ℕ) → IsPlain kind → Field message.now at kind v q →
        Reaches kind end q → q ≡ next) }
    ensures range { IfSome result (λ next. (at ≤ next) × (next ≤ end)) }
    ensures none { IfNone result ((v : Value kind) (q : ℕ) → IsPlain kind → Field message.now at kind v q →
        Reaches kind end q → ⊥) }
{
    let size = plain_size(message, at, kind, end)?;
    if end - at < size {
        return None;
    }
    Some(at + size)
}

// Returns the offset after a field, if it ends within the RDATA. Only names are gone over.
pub(crate) fn part_end(message: &[u8], at: usize, kind: Kind, end: usize) -> Option<usize>
    requires within { at ≤ end }
    requires inside { end ≤ length message.now }
    ensures some { IfSome result (λ next. (v : Value kind) (q : ℕ) → Field message.now at kind v q →
        Reaches kind end q → q ≡ next) }
    ensures named { kind ≡ Name → IfSome result (λ next. IsNamed message.now at) }
    ensures range { IfSome result (λ next. (at ≤ next) × (next ≤ end)) }
    ensures none { IfNone result ((v : Value kind) (q : ℕ) → Field message.now at kind v q → Reaches kind end q → ⊥) }
{
    match kind {
        Kind::Name => {
            let next = skip_name(message, at)?;
            if end < next {
                return None;
            }
            Some(next)
        }
        Kind::Options => Some(end),
        Kind::Parameters => Some(end),
        Kind::Bitmap => Some(end),
        _ => plain_end(message, at, kind, end),
    }
}
