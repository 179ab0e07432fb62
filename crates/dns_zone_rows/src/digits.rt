//! Octets in digits of one token, after their length: salts and hashes of NSEC3.

ghost use Rattle.std.specs.Prelude.{◌≡◌, ◌↔◌, ◌⊎◌, IsTrue, ◌+◌, ◌-◌, ◌<◌, ◌≤◌, [], length, slice_set, IfOk, IfErr, IfSome, suc};
ghost use Rattle.std.specs.Bool.{OnTrue, OnFalse};
ghost use Rattle.dns_fields.specs.Tlvs.{string as string_octets};
ghost use Rattle.dns_zone_tokens.specs.{Views.token_value, ZoneReads.PutsAs, ZoneReads.WrongToken};
ghost use Rattle.dns_zone_rows.specs.{Decoding.Appended, Base32.base32_digit, Base32.base32_octets, HexDigits.hex_octets, Rows.IsHyphen, Rows.base32, Rows.hex_string, Rows.salt};

use crate::groups::hex_digit;
use dns_types::ParseError;
use dns_zone_tokens::ZoneToken;

// Appends the length and the octets of a salt: `-` for none, or hexadecimal digits (RFC 5155, section 3.3).
#[tactic(auto, using(crate::proofs::SaltSteps::salt_puts, crate::proofs::SaltSteps::salt_why))]
pub(crate) fn put_salt(
    octets: &mut Vec<u8>,
    token: ZoneToken<'_>,
    wrong: &'static str,
) -> Result<(), ParseError>
    ensures puts { PutsAs salt string_octets result octets.old.items octets.new.items (token_value token.entry) }
    ensures why { IfErr result (λ e. (e ≡ ParseError.Memory) ⊎ WrongToken salt (ParseError.Message wrong.entry) (token_value token.entry) e) }
{
    if is_hyphen(token) {
        octets.push(0)?;
        return Ok(());
    }
    put_hex_string(octets, token, wrong)
}

// Whether the token is `-` without quotes.
fn is_hyphen(token: ZoneToken<'_>) -> bool
    ensures { IsTrue result ↔ IsHyphen (token_value token.entry) }
{
    !token.quoted && token.raw.len() == 1 && token.raw[0] == b'-'
}

// Appends the length and the octets of hexadecimal digits.
fn put_hex_string(
    octets: &mut Vec<u8>,
    token: ZoneToken<'_>,
    wrong: &'static str,
) -> Result<(), ParseError>
    ensures puts { PutsAs hex_string string_octets result octets.old.items octets.new.items (token_value token.entry) }
    ensures why { IfErr result (λ e. (e ≡ ParseError.Memory) ⊎ WrongToken hex_string (ParseError.Message wrong.entry) (token_value token.entry) e) }
{
    if token.quoted {
        return Err(ParseError::Message(wrong));
    }
    let start = octets.len();
    octets.push(0)?;
    if !put_hex_digits(octets, token.raw)? || !end_string(octets, start) {
        return Err(ParseError::Message(wrong));
    }
    Ok(())
}

// Appends the length and the octets of digits of base32.
pub(crate) fn put_base32(
    octets: &mut Vec<u8>,
    token: ZoneToken<'_>,
    wrong: &'static str,
) -> Result<(), ParseError>
    ensures puts { PutsAs base32 string_octets result octets.old.items octets.new.items (token_value token.entry) }
    ensures why { IfErr result (λ e. (e ≡ ParseError.Memory) ⊎ WrongToken base32 (ParseError.Message wrong.entry) (token_value token.entry) e) }
{
    if token.quoted {
        return Err(ParseError::Message(wrong));
    }
    let start = octets.len();
    octets.push(0)?;
    if !put_base32_digits(octets, token.raw)? || !end_string(octets, start) {
        return Err(ParseError::Message(wrong));
    }
    Ok(())
}

// Sets the octet at an index to the number of octets after it, and returns whether they are 1 to 255.
fn end_string(octets: &mut Vec<u8>, start: usize) -> bool
    requires { start < length octets.old.items }
    ensures set { OnTrue result (octets.new.items ≡ slice_set octets.old.items start (length octets.old.items - suc start)) }
    ensures fits { OnTrue result ((suc start < length octets.old.items) × (length octets.old.items < start + 257)) }
    ensures wrong { OnFalse result ((length octets.old.items ≡ suc start) ⊎ (start + 257 ≤ length octets.old.items)) }
{
    let count = octets.len() - start - 1;
    if count == 0 || count > 255 {
        return false;
    }
    octets[start] = count as u8;
    true
}

// Appends the octets of hexadecimal digits, and returns whether there are any.
fn put_hex_digits(octets: &mut Vec<u8>, text: &[u8]) -> Result<bool, ParseError>
    ensures appends { IfOk result (λ b. Appended b (hex_octets text.now) octets.old.items octets.new.items) }
    ensures memory { IfErr result (λ e. e ≡ ParseError.Memory) }
{
    let mut high = 0u32;
    let mut odd = false;
    for c in text {
        let Some(digit) = hex_digit(*c) else {
            return Ok(false);
        };
        if odd {
            octets.push((16 * high + digit) as u8)?;
            odd = false;
        } else {
            high = digit;
            odd = true;
        }
    }
    Ok(!odd)
}

// Appends the octets of digits, and returns whether there are any.
fn put_base32_digits(octets: &mut Vec<u8>, text: &[u8]) -> Result<bool, ParseError>
    ensures appends { IfOk result (λ b. Appended b (base32_octets text.now) octets.old.items octets.new.items) }
    ensures memory { IfErr result (λ e. e ≡ ParseError.Memory) }
{
    let mut bits = 0u32;
    let mut held = 0u32;
    for c in text {
        let Some(digit) = base32_digit(*c) else {
            return Ok(false);
        };
        bits = 32 * bits + digit;
        if held >= 3 {
            held -= 3;
            octets.push((bits >> held) as u8)?;
            bits = bits % (1 << held);
        } else {
            held += 5;
        }
    }
    Ok(held <= 4 && bits == 0)
}

// The value of a digit.
fn base32_digit(c: u8) -> Option<u32>
    ensures value { result ≡ base32_digit c }
    ensures small { IfSome result (λ d. d < 32) }
{
    if c >= b'0' && c <= b'9' {
        return Some(c as u32 - 48);
    }
    if c >= b'A' && c <= b'V' {
        return Some(c as u32 - 55);
    }
    if c >= b'a' && c <= b'v' {
        return Some(c as u32 - 87);
    }
    None
}
