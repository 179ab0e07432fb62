//! Keys of service parameters in zone files (RFC 9460, section 2.1).

ghost use Rattle.std.specs.Prelude.{◌≡◌, ◌↔◌, IfSome, IfNone, IsTrue};
ghost use Rattle.dns_rdata_service.specs.{ParameterTokens.IsKeyText, declared.svcb.key.SvcParamKey.SvcParamKey as Key};
ghost use Rattle.dns_zone_rows.specs.{ParameterKeys.IsKeyName, ParameterSteps.IsShortest};

use dns_rdata_service::svcb::SvcParamKey;
use std::str;

/// Returns the key of a name in lower case: a registered name, or `key` and a decimal number up to 65534 without
/// leading zeros, which gives [`Key`](SvcParamKey::Key) of that number even if it has a name. Allocates nothing.
#[tactic(auto, using(crate::proofs::KeyNames::name_utf8, crate::proofs::KeyNames::other_key))]
pub fn key_of_name(name: &[u8]) -> Option<SvcParamKey>
    ensures some { IfSome result (λ key. IsKeyName key name.now) }
    ensures none { IfNone result ((key : Key) → IsKeyName key name.now → ⊥) }
{
    let Ok(text) = str::from_utf8(name) else {
        return None;
    };
    let Ok(key) = text.parse::<SvcParamKey>() else {
        return None;
    };
    if is_name(key, name) { Some(key) } else { None }
}

// Whether a text of the key is a name of it in zone files.
#[tactic(auto, using(crate::proofs::KeyNames::own_name))]
fn is_name(key: SvcParamKey, text: &[u8]) -> bool
    requires { IsKeyText text.now key }
    ensures { IsTrue result ↔ IsKeyName key text.now }
{
    match key {
        SvcParamKey::Key65535 => false,
        SvcParamKey::Key(_) => is_shortest(text),
        _ => true,
    }
}

// Whether the digits after `key` have no `+` and no zero before them.
fn is_shortest(text: &[u8]) -> bool
    ensures { IsTrue result ↔ IsShortest text.now }
{
    text.len() == 4 || (text.len() > 4 && text[3] != b'0' && text[3] != b'+')
}
