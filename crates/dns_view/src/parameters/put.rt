//! The canonical octets of the parameters of a service binding (RFC 9460, 2.2), written into a buffer.

ghost use Rattle.std.specs.Prelude.{◌≡◌, ◌+◌, ◌^◌, ◌<◌, ◌≤◌, [], ◌∷◌, true, false, length, take, IfSome, IfNone};
ghost use Rattle.dns_fields.specs.{Fields.Value, Fields.Field, Fields.field_octets, declared.Kind.TheVariants.Parameters};
ghost use Rattle.dns_view.specs.Putting.{Put, short_port};

use crate::put::put_octets;
use dns_check::tlvs::end_of;

// Returns whether a parameter is a port with octets after it, which the canonical octets do not have.
#[inline]
pub(crate) fn has_surplus(part: &[u8]) -> bool
    ensures yes { result ≡ true → (take 2 part.now ≡ 0 ∷ 3 ∷ []) × (6 < length part.now) }
    ensures no { result ≡ false → take 2 part.now ≡ 0 ∷ 3 ∷ [] → length part.now ≤ 6 }
{
    if part.len() <= 6 {
        return false;
    }
    if part[0] != 0 {
        return false;
    }
    part[1] == 3
}

// Returns where the port with octets after it begins and ends, if there is one. Keys rise, so nothing after the first key above 2
// is gone over.
fn find_surplus(octets: &[u8]) -> Option<(usize, usize)>
    ensures some { IfSome result (λ p. (v : Value Parameters) → Field octets.now 0 Parameters v (length octets.now) →
        field_octets Parameters v ≡ short_port octets.now p.0 p.1) }
    ensures range { IfSome result (λ p. (p.0 + 6 < p.1) × (p.1 ≤ length octets.now)) }
    ensures none { IfNone result ((v : Value Parameters) → Field octets.now 0 Parameters v (length octets.now) →
        field_octets Parameters v ≡ octets.now) }
{
    let mut offset = 0;
    'tlvs: while let Some(end) = end_of(octets, offset) {
        let key = u16::from_be_bytes([octets[offset], octets[offset + 1]]);
        if key > 2 {
            if key > 3 || end - offset <= 6 {
                return None;
            }
            return Some((offset, end));
        }
        offset = end;
    }
    None
}

/// Writes the canonical octets of parameters, given by their octets in a message, and returns where they end.
pub fn put_parameters(out: &mut [u8], start: usize, octets: &[u8]) -> usize
    requires room { start + length octets.now < 2 ^ 64 }
    ensures { (v : Value Parameters) → Field octets.now 0 Parameters v (length octets.now) →
        Put out.old out.new start result (field_octets Parameters v) }
{
    match find_surplus(octets) {
        None => put_octets(out, start, octets),
        Some((offset, end)) => {
            let head = put_octets(out, start, &octets[..offset]);
            let port = put_octets(out, head, &[0, 3, 0, 2]);
            let rest = put_octets(out, port, &octets[offset + 4..offset + 6]);
            put_octets(out, rest, &octets[end..])
        }
    }
}
