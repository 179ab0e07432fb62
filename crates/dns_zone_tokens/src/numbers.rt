//! Numbers in tokens.

ghost use Rattle.std.specs.Prelude.{◌≡◌, ◌≤◌, ◌<◌, ◌^◌, ℕ, IfSome, IfNone, IfOk, IfErr};
ghost use Rattle.std.specs.Str.Parse.{IsNumeral, digits_value};
ghost use Rattle.dns_zone_tokens.specs.{Forms.number, Forms.IsNumber, Views.token_value, ZoneReads.ReadsAs, ZoneReads.WrongToken};

use crate::tokens::ZoneToken;
use dns_types::ParseError;

/// Reads a decimal number of so many octets, at most four: only digits, without quotes. Any other token gives
/// [`Message`](ParseError::Message) with the text `wrong`. Allocates nothing.
#[inline]
#[tactic(auto, using(crate::proofs::DecimalSteps::small_power))]
pub fn number_of(token: ZoneToken<'_>, octets: u32, wrong: &'static str) -> Result<u32, ParseError>
    requires { octets ≤ 4 }
    ensures reads { ReadsAs (number octets) (λ n. n) result (token_value token.entry) }
    ensures why { IfErr result (WrongToken (number octets) (ParseError.Message wrong.entry) (token_value token.entry)) }
{
    match token_number(token) {
        Some(n) if (n as u64) < 1 << (8 * octets) => Ok(n),
        _ => Err(ParseError::Message(wrong)),
    }
}

// The number of 32 bits that a token without quotes is.
#[inline]
fn token_number(token: ZoneToken<'_>) -> Option<u32>
    ensures some { IfSome result (λ n. IsNumber n (token_value token.entry)) }
    ensures none { IfNone result ((n : ℕ) → IsNumber n (token_value token.entry) → 2 ^ 32 ≤ n) }
{
    if token.quoted {
        return None;
    }
    decimal(token.raw)
}

// The number of 32 bits that decimal digits are.
pub(crate) fn decimal(digits: &[u8]) -> Option<u32>
    ensures some { IfSome result (λ n. IsNumeral 10 digits.now × (n ≡ digits_value 10 digits.now)) }
    ensures none { IfNone result (IsNumeral 10 digits.now → 2 ^ 32 ≤ digits_value 10 digits.now) }
{
    if digits.len() == 0 {
        return None;
    }
    let mut number = 0u32;
    for octet in digits {
        if !octet.is_ascii_digit() {
            return None;
        }
        let sum = number as u64 * 10 + (*octet - 48) as u64;
        if sum >= 4294967296 {
            return None;
        }
        number = sum as u32;
    }
    Some(number)
}
