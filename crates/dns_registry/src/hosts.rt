//! The host identity of HIP (RFC 8005).

ghost use Rattle.std.specs.Prelude.{◌≡◌, ◌↔◌, true, IfSome, IfNone};
ghost use Rattle.dns_registry.specs.FieldRules.{ArePlainNames, IsHostIdentity};
ghost use Rattle.dns_registry.specs.HostSteps.{FirstName, NoName};

use dns_names_wire::name_ends::skip_run;

// Returns how many octets the first name has, if an uncompressed name is at the front.
fn name_len(octets: &[u8]) -> Option<usize>
    ensures some { IfSome result (λ n. FirstName octets.now n) }
    ensures none { IfNone result (NoName octets.now) }
{
    match skip_run(octets, 0, 0) {
        Some(run) => match run.next {
            Some(_) => None,
            None => Some(run.end),
        },
        None => None,
    }
}

// Returns whether octets are uncompressed names, one after the other.
fn are_names(octets: &[u8]) -> bool
    ensures { (result ≡ true) ↔ ArePlainNames octets.now }
{
    let mut rest = octets;
    'names: while rest.len() > 0 {
        match name_len(rest) {
            None => return false,
            Some(count) => rest = &rest[count..],
        }
    }
    true
}

// Returns whether octets are the RDATA of HIP.
pub fn is_host_identity(octets: &[u8]) -> bool
    ensures { (result ≡ true) ↔ IsHostIdentity octets.now }
{
    if octets.len() < 4 {
        return false;
    }
    let hit = octets[0] as usize;
    let key = octets[2] as usize * 256 + octets[3] as usize;
    if hit == 0 {
        return false;
    }
    if key == 0 {
        return false;
    }
    if octets.len() - 4 < hit + key {
        return false;
    }
    are_names(&octets[4 + (hit + key)..])
}
