//! The ends of TKEY (RFC 2930) and TSIG (RFC 8945), with lengths of two octets.

ghost use Rattle.std.specs.Prelude.{◌≡◌, ◌↔◌, ◌≤◌, ℕ, true, length, IfSome, IfNone};
ghost use Rattle.dns_registry.specs.FieldRules.{IsLong, IsKeyAndOther, IsMacAndOther};

// Returns where the octets end whose length is at an offset, if there are so many.
fn long_end(octets: &[u8], at: usize) -> Option<usize>
    requires { at ≤ length octets.now }
    ensures some { IfSome result (IsLong octets.now at) }
    ensures inside { IfSome result (λ end. end ≤ length octets.now) }
    ensures none { IfNone result ((q : ℕ) → IsLong octets.now at q → ⊥) }
{
    if octets.len() - at < 2 {
        return None;
    }
    let count = octets[at] as usize * 256 + octets[at + 1] as usize;
    if octets.len() - at - 2 < count {
        return None;
    }
    Some(at + 2 + count)
}

// Returns whether octets are the end of TKEY.
pub fn is_key_and_other(octets: &[u8]) -> bool
    ensures { (result ≡ true) ↔ IsKeyAndOther octets.now }
{
    let Some(middle) = long_end(octets, 0) else {
        return false;
    };
    let Some(end) = long_end(octets, middle) else {
        return false;
    };
    end == octets.len()
}

// Returns whether octets are the end of TSIG.
pub fn is_mac_and_other(octets: &[u8]) -> bool
    ensures { (result ≡ true) ↔ IsMacAndOther octets.now }
{
    let Some(middle) = long_end(octets, 0) else {
        return false;
    };
    if octets.len() - middle < 4 {
        return false;
    }
    let Some(end) = long_end(octets, middle + 4) else {
        return false;
    };
    end == octets.len()
}
