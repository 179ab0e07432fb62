//! Address prefixes of APL (RFC 3123).

ghost use Rattle.std.specs.Prelude.{◌≡◌, ◌↔◌, true, IfSome, IfNone};
ghost use Rattle.dns_registry.specs.FieldRules.{ArePrefixes, IsOfFamily, IsWithinFamily};
ghost use Rattle.dns_registry.specs.PrefixSteps.{FirstPrefix, NoPrefix};

// Returns whether a prefix and the octets of its address are within limits.
fn is_within(bits: usize, size: usize, prefix: usize, part: &[u8]) -> bool
    ensures { (result ≡ true) ↔ IsWithinFamily bits size prefix part.now }
{
    if prefix > bits {
        return false;
    }
    if part.len() > size {
        return false;
    }
    if part.len() == 0 {
        return true;
    }
    if part[part.len() - 1] == 0 {
        return false;
    }
    true
}

// Returns whether a prefix and the octets of its address are those of an address of the family.
fn is_of_family(family: usize, prefix: usize, part: &[u8]) -> bool
    ensures { (result ≡ true) ↔ IsOfFamily family prefix part.now }
{
    if family == 1 {
        return is_within(32, 4, prefix, part);
    }
    if family == 2 {
        return is_within(128, 16, prefix, part);
    }
    true
}

// Returns how many octets the first address prefix has, if one is at the front.
fn prefix_len(octets: &[u8]) -> Option<usize>
    ensures some { IfSome result (λ n. FirstPrefix octets.now n) }
    ensures none { IfNone result (NoPrefix octets.now) }
{
    if octets.len() < 4 {
        return None;
    }
    let count = octets[3] as usize % 128;
    if octets.len() - 4 < count {
        return None;
    }
    let family = octets[0] as usize * 256 + octets[1] as usize;
    if !is_of_family(family, octets[2] as usize, &octets[4..4 + count]) {
        return None;
    }
    Some(4 + count)
}

// Returns whether octets are address prefixes, one after the other.
pub fn are_prefixes(octets: &[u8]) -> bool
    ensures { (result ≡ true) ↔ ArePrefixes octets.now }
{
    let mut rest = octets;
    'prefixes: while rest.len() > 0 {
        match prefix_len(rest) {
            None => return false,
            Some(count) => rest = &rest[count..],
        }
    }
    true
}
