//! Keys or codes, each with a length and so many octets, one after the other (RFC 6891, 6.1.2; RFC 9460, 2.2).

ghost use Rattle.std.specs.Prelude.{◌≡◌, ◌+◌, ◌<◌, ◌≤◌, ℕ, List, true, false, length, IfSome, IfNone};
ghost use Rattle.dns_check.specs.{Parameters.IsTlvAt, Tlvs.TlvThere, Tlvs.AreComplete, Tlvs.CompleteBy};

/// Returns where the part ends that begins at the offset, or `None` if the octets end inside it.
#[inline]
pub fn end_of(octets: &[u8], offset: usize) -> Option<usize>
    requires { offset ≤ length octets.now }
    ensures some { IfSome result (λ end. (offset + 4 ≤ end) × (end ≤ length octets.now)) }
    ensures is { (key : ℕ) (body : List ℕ) (to : ℕ) → IsTlvAt octets.now offset key body to → IfSome result (λ end. end ≡ to) }
    ensures there { IfSome result (λ end. TlvThere octets.now offset end) }
    ensures none { IfNone result ((key : ℕ) (body : List ℕ) (to : ℕ) → IsTlvAt octets.now offset key body to → ⊥) }
{
    if octets.len() - offset < 4 {
        return None;
    }
    let size = u16::from_be_bytes([octets[offset + 2], octets[offset + 3]]) as usize;
    if octets.len() - offset - 4 < size {
        return None;
    }
    Some(offset + 4 + size)
}

/// Returns how many parts fill the octets, or `None` if parts do not.
pub fn count_parts(octets: &[u8]) -> Option<usize>
    ensures some { IfSome result (λ n. CompleteBy octets.now n) }
    ensures none { IfNone result (AreComplete octets.now → ⊥) }
{
    let mut offset = 0;
    let mut count = 0;
    'parts: while offset < octets.len() {
        match end_of(octets, offset) {
            Some(end) => offset = end,
            None => return None,
        }
        count += 1;
    }
    Some(count)
}

/// Returns whether parts fill the octets.
#[inline]
pub fn are_complete(octets: &[u8]) -> bool
    ensures yes { result ≡ true → AreComplete octets.now }
    ensures no { result ≡ false → AreComplete octets.now → ⊥ }
{
    match count_parts(octets) {
        Some(_) => true,
        None => false,
    }
}
