//! Texts of times to live.

ghost use Rattle.std.specs.Prelude.{◌≡◌, ◌≢◌, ℕ, IfSome, IfNone, IfOk, IfErr};
ghost use Rattle.dns_types.specs.declared.error.ParseError.TheVariants as parse;
ghost use Rattle.dns_tokens.specs.Ttl.{IsUnit, IsTtl};
ghost use Rattle.dns_tokens.specs.Messages.{IsMessage};

use crate::text::spans::{Kind, behind, octet, split};
use dns_types::ParseError;

/// The seconds of a unit.
#[tactic(auto, using(crate::proofs::TtlSteps::units))]
fn unit_seconds(letter: u8) -> Option<u32>
    ensures some { IfSome result (λ factor. IsUnit letter factor) }
    ensures none { IfNone result ((factor : ℕ) → IsUnit letter factor → ⊥) }
{
    match letter.to_ascii_lowercase() {
        b'w' => Some(604800),
        b'd' => Some(86400),
        b'h' => Some(3600),
        b'm' => Some(60),
        b's' => Some(1),
        _ => None,
    }
}

/// Reads a TTL in seconds: runs of digits, each followed by `w`, `d`, `h`, `m` or `s` in either case. The last may have
/// no unit and is then in seconds.
#[tactic(auto, using(crate::proofs::TtlSteps::periods))]
pub fn parse_ttl(text: &str) -> Result<u32, ParseError>
    ensures ok { IfOk result (IsTtl text.now) }
    ensures refused { IfErr result (λ e. (ttl : ℕ) → IsTtl text.now ttl → ⊥) }
    ensures message { IfErr result IsMessage }
    ensures memory { IfErr result (λ e. e ≢ parse.Memory) }
{
    let mut total = 0u32;
    let mut rest = text;
    'periods: loop {
        let (digits, more) = split(Kind::Digit, rest);
        let Ok(number) = digits.parse::<u32>() else {
            return Err(ParseError::Message("invalid time to live"));
        };
        if more.len() == 0 {
            return match total.checked_add(number) {
                Some(sum) => Ok(sum),
                None => Err(ParseError::Message("time to live too great")),
            };
        }
        let Some(factor) = unit_seconds(octet(more, 0)) else {
            return Err(ParseError::Message("invalid time to live"));
        };
        let Some(seconds) = number.checked_mul(factor) else {
            return Err(ParseError::Message("time to live too great"));
        };
        let Some(sum) = total.checked_add(seconds) else {
            return Err(ParseError::Message("time to live too great"));
        };
        total = sum;
        rest = behind(more, 1);
        if rest.len() == 0 {
            return Ok(total);
        }
    }
}
