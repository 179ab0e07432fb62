//! All remaining tokens of a text: base64, hexadecimal digits, and the unknown-data form (RFC 3597, section 5).

ghost use Rattle.std.specs.Prelude.{◌≡◌, ◌≢◌, ◌↔◌, ◌⊎◌, [], Ok, IsTrue, IfErr, OnOk, OnErr, IfSome, List, ℕ, drop, length, take};
ghost use Rattle.std.specs.{Bool.OnTrue};
ghost use Rattle.base64.specs.{Engines.standard, GeneralPurpose.decode_of as base64_of};
ghost use Rattle.dns_zone_tokens.specs.{Forms.StringFault, Views.token_value, Tokens.tokens_at, Tokens.seen_at, ZoneReads.IsUndividedError};
ghost use Rattle.dns_zone_tokens.specs.Remaining.{AreJoined, AreHex, AreBase64, AreUnknown, AreStrings, IsUnknownMark, PutAll, PutsAll, TookAll, ReadsAll, AmongFault};
ghost use Rattle.dns_zone_tokens.specs.TokenSteps.{PutHex};
ghost use Rattle.dns_zone_tokens.specs.Remaining.{QuotesFault, HexFault, Base64Fault, UnknownFault};

use crate::field::HexField;
use crate::fields::next_number;
use crate::hex_field;
use crate::tokens::{ZoneToken, ZoneTokens};
use base64::DecodeAllocError;
use base64::engine::general_purpose::STANDARD;
use dns_tokens::{Field, number_field};
use dns_types::{Octets, ParseError};
use hex::FromHexError;
use std::alloc::Global;

const UNKNOWN_LENGTH: Field = number_field!("length of unknown data");

const UNKNOWN_DATA: HexField = hex_field!("unknown data");

const OTHER_LENGTH: &str = "unknown data is not as many octets as its length says";

/// Returns whether the token is `\#` without quotes, which begins the unknown-data form (RFC 3597, section 5).
#[inline]
pub fn is_unknown_mark(token: ZoneToken<'_>) -> bool
    ensures { IsTrue result ↔ IsUnknownMark (token_value token.entry) }
{
    !token.quoted && token.raw.len() == 2 && token.raw[0] == b'\\' && token.raw[1] == b'#'
}

/// Reads all remaining tokens as hexadecimal digits of either case; without tokens there are no octets. Returns
/// [`Message`](ParseError::Message) with the field's text if a token is in quotes; otherwise if the number of digits is
/// odd; otherwise if a character is no digit.
pub fn all_hex(
    alloc: Global,
    tokens: &mut ZoneTokens<'_>,
    field: &HexField,
) -> Result<Octets, ParseError>
    ensures reads { ReadsAll AreHex (λ x. x) result tokens.old }
    ensures why { IfErr result (λ e. (e ≡ ParseError.Memory) ⊎ HexFault field.now tokens.old e) }
{
    let digits = all_joined(alloc, tokens, field.quoted)?;
    if digits.len() % 2 == 1 {
        return Err(ParseError::Message(field.odd));
    }
    match hex::decode(alloc, digits.as_slice()) {
        Ok(octets) => Ok(Octets::from_vec(octets)),
        Err(FromHexError::OutOfMemory) => Err(ParseError::Memory),
        Err(_) => Err(ParseError::Message(field.digit)),
    }
}

/// Reads all remaining tokens as `all_hex` does, and appends their octets. Allocates as the vector grows; beside that only
/// if a token has an odd number of digits.
pub fn put_hex(
    alloc: Global,
    tokens: &mut ZoneTokens<'_>,
    field: &HexField,
    octets: &mut Vec<u8>,
) -> Result<(), ParseError>
    ensures puts { PutsAll AreHex result octets.old.items octets.new.items tokens.old }
    ensures why { IfErr result (λ e. (e ≡ ParseError.Memory) ⊎ HexFault field.now tokens.old e) }
{
    let start = octets.len();
    if put_pairs(&mut tokens.again(), octets) {
        return Ok(());
    }
    octets.truncate(start);
    let data = all_hex(alloc, tokens, field)?;
    octets.extend_from_slice(data.as_slice())?;
    Ok(())
}

// Appends the octets of all remaining tokens, and returns whether it could: each token has an even number of digits.
fn put_pairs(tokens: &mut ZoneTokens<'_>, octets: &mut Vec<u8>) -> bool
    ensures put { OnTrue result (PutAll AreHex octets.old.items octets.new.items tokens.old) }
    ensures kept { take (length octets.old.items) octets.new.items ≡ octets.old.items }
{
    'tokens: loop {
        match tokens.next_token() {
            Ok(Some(token)) => {
                if token.quoted {
                    return false;
                }
                if !put_digits(octets, token.raw) {
                    return false;
                }
            }
            Ok(None) => return true,
            Err(_) => return false,
        }
    }
}

// Appends the octets of an even number of digits, and returns whether it could.
fn put_digits(octets: &mut Vec<u8>, digits: &[u8]) -> bool
    ensures put { OnTrue result (PutHex digits.now octets.old.items octets.new.items) }
    ensures kept { take (length octets.old.items) octets.new.items ≡ octets.old.items }
{
    let start = octets.len();
    if octets.resize(start + digits.len() / 2, 0).is_err() {
        return false;
    }
    hex::decode_to_slice(digits, &mut octets.as_mut_slice()[start..]).is_ok()
}

/// Reads all remaining tokens as base64 with padding (RFC 4648, section 4); without tokens there are no octets. Tokens
/// in quotes and anything else give [`Message`](ParseError::Message) with the text `wrong`.
pub fn all_base64(
    alloc: Global,
    tokens: &mut ZoneTokens<'_>,
    wrong: &'static str,
) -> Result<Octets, ParseError>
    ensures reads { ReadsAll AreBase64 (λ x. x) result tokens.old }
    ensures why { IfErr result (λ e. (e ≡ ParseError.Memory) ⊎ Base64Fault (ParseError.Message wrong.entry) tokens.old e) }
{
    let mut octets = Vec::new(alloc);
    match put_base64(alloc, tokens, wrong, &mut octets) {
        Ok(()) => Ok(Octets::from_vec(octets)),
        Err(e) => Err(e),
    }
}

/// Reads all remaining tokens as `all_base64` does, and appends their octets. Allocates as the vector grows; beside that
/// only for more than one token.
pub fn put_base64(
    alloc: Global,
    tokens: &mut ZoneTokens<'_>,
    wrong: &'static str,
    octets: &mut Vec<u8>,
) -> Result<(), ParseError>
    ensures puts { PutsAll AreBase64 result octets.old.items octets.new.items tokens.old }
    ensures why { IfErr result (λ e. (e ≡ ParseError.Memory) ⊎ Base64Fault (ParseError.Message wrong.entry) tokens.old e) }
{
    if let Some(digits) = only_token(tokens) {
        return put_decoded(digits, wrong, octets);
    }
    let digits = all_joined(alloc, tokens, wrong)?;
    put_decoded(digits.as_slice(), wrong, octets)
}

// The next token, if it is the last one and not in quotes. Takes none.
fn only_token<'a>(tokens: &ZoneTokens<'a>) -> Option<&'a [u8]>
    ensures { IfSome result (λ digits. TookAll AreJoined digits.now tokens.now) }
{
    let mut rest = tokens.again();
    match rest.next_token() {
        Ok(Some(token)) if !token.quoted => match rest.next_token() {
            Ok(None) => Some(token.raw),
            _ => None,
        },
        _ => None,
    }
}

// Appends the octets of base64.
fn put_decoded(digits: &[u8], wrong: &'static str, octets: &mut Vec<u8>) -> Result<(), ParseError>
    ensures ok { OnOk result (base64_of standard digits.now ≡ Ok (drop (length octets.old.items) octets.new.items)) }
    ensures kept { OnOk result (take (length octets.old.items) octets.new.items ≡ octets.old.items) }
    ensures refused { IfErr result (λ e. (e ≡ ParseError.Memory) ⊎ ((e ≡ ParseError.Message wrong.entry) × ((given : List ℕ) → base64_of standard digits.now ≡ Ok given → ⊥))) }
{
    match STANDARD.decode_vec(digits, octets) {
        Ok(()) => Ok(()),
        Err(DecodeAllocError::OutOfMemory) => Err(ParseError::Memory),
        Err(DecodeAllocError::DecodeError(_)) => Err(ParseError::Message(wrong)),
    }
}

/// Reads the octets after `\#`: their number of 16 bits, and as many octets in hexadecimal digits, in tokens without
/// quotes (RFC 3597, section 5). Returns [`MissingToken`](ParseError::MissingToken) if there is no length, and
/// [`Message`](ParseError::Message) if it is no number, if `all_hex` fails, or if the number of octets is another one.
pub fn unknown_data(alloc: Global, tokens: &mut ZoneTokens<'_>) -> Result<Octets, ParseError>
    ensures reads { ReadsAll AreUnknown (λ x. x) result tokens.old }
    ensures why { IfErr result (λ e. (e ≡ ParseError.Memory) ⊎ UnknownFault tokens.old e) }
{
    let length = next_number(tokens, 2, UNKNOWN_LENGTH)?;
    let octets = all_hex(alloc, tokens, &UNKNOWN_DATA)?;
    if octets.len() != length as usize {
        return Err(ParseError::Message(OTHER_LENGTH));
    }
    Ok(octets)
}

/// Checks that no token is left. If one is, returns [`Message`](ParseError::Message) with the text `surplus`.
pub fn no_more(tokens: &mut ZoneTokens<'_>, surplus: &'static str) -> Result<(), ParseError>
    ensures took { OnOk result (tokens_at tokens.old ≡ Ok []) }
    ensures refused { OnErr result (tokens_at tokens.old ≢ Ok []) }
    ensures why { IfErr result (λ e. ((e ≡ ParseError.Message surplus.entry) × (seen_at tokens.old ≢ [])) ⊎ IsUndividedError tokens.old e) }
{
    match tokens.next_token()? {
        Some(_) => Err(ParseError::Message(surplus)),
        None => Ok(()),
    }
}

// The octets of all remaining tokens, one after the other. A token in quotes is rejected.
fn all_joined(
    alloc: Global,
    tokens: &mut ZoneTokens<'_>,
    wrong: &'static str,
) -> Result<Vec<u8>, ParseError>
    ensures reads { ReadsAll AreJoined (λ v. v.items) result tokens.old }
    ensures why { IfErr result (λ e. (e ≡ ParseError.Memory) ⊎ AmongFault (QuotesFault (ParseError.Message wrong.entry)) tokens.old e) }
{
    let mut joined = Vec::with_capacity(alloc, tokens.octets_left())?;
    'tokens: loop {
        match tokens.next_token()? {
            Some(token) => {
                if token.quoted {
                    return Err(ParseError::Message(wrong));
                }
                joined.extend_from_slice(token.raw)?;
            }
            None => return Ok(joined),
        }
    }
}
