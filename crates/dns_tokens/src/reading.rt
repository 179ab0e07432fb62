//! Tokens read from an iterator.
#![tactic(auto, using(crate::proofs::Steps::taking))]

ghost use Rattle.std.specs.Prelude.{FitsSigned, ◌≡◌, ◌≢◌, ◌⊎◌, [], Some, None, IfOk, IfErr};
ghost use Rattle.std.specs.{Option.option_copied, Int.cast_unsigned, Int.w32, Iterator.IsFinite, Net.Addr.ipv4_octets, Net.Addr.ipv6_octets};
ghost use Rattle.dns_types.specs.declared.error.ParseError.TheVariants as parse;
ghost use Rattle.dns_tokens.specs.Forms.{number, ttl, name, base64, kept, kept_rest, ipv4, ipv6, nothing};
ghost use Rattle.dns_tokens.specs.TokenErrors.{IsOfField};
ghost use Rattle.dns_tokens.specs.Reads.{ReadsToken, AreTexts, AreJoined, TookTokens, RefusedTokens, GoesOn};

use crate::field::Field;
use crate::texts::{
    base64_of, ipv4_of, ipv6_of, kept_of, name_of, signed_ttl_of, ttl_of, u8_of, u16_of, u32_of,
};
use dns_names_wire::{Name, Octets, ParseError};
use dns_types::Strings;
use std::alloc::{AllocError, Global};
use std::convert::AsStr;
use std::net::{Ipv4Addr, Ipv6Addr};

/// Takes the next token. Returns [`MissingToken`](ParseError::MissingToken) with this name if none is left.
#[inline]
pub fn next_token<S: AsStr + Drop, I: Iterator<Item = S>>(
    tokens: &mut I,
    name: &'static str,
) -> Result<S, ParseError>
    requires can { I.can_next tokens.old }
    ensures gave { IfOk result (λ token. I.next_gives tokens.old (Some token) tokens.new) }
    ensures missing { IfErr result (λ _. I.next_gives tokens.old None tokens.new) }
    ensures named { IfErr result (λ e. e ≡ ParseError.MissingToken name.entry) }
    ensures goes { GoesOn I.can_next I.remaining result tokens.old tokens.new }
{
    match tokens.next() {
        Some(token) => Ok(token),
        None => Err(ParseError::MissingToken(name)),
    }
}

/// Reads a decimal number of 8 bits, with or without a `+`. If no token is left, or if it is no such number, the error
/// names the field. Allocates nothing.
#[inline]
pub fn next_u8<S: AsStr + Drop, I: Iterator<Item = S>>(
    tokens: &mut I,
    field: Field,
) -> Result<u8, ParseError>
    requires can { I.can_next tokens.old }
    ensures reads { ReadsToken I.next_gives S.text (number 1) (λ n. n) result tokens.old tokens.new }
    ensures why { IfErr result (IsOfField field) }
    ensures goes { GoesOn I.can_next I.remaining result tokens.old tokens.new }
{
    let token = next_token(tokens, field.name)?;
    u8_of(token.as_str(), field.wrong)
}

/// Reads a number of 16 bits, as `next_u8` does.
#[inline]
pub fn next_u16<S: AsStr + Drop, I: Iterator<Item = S>>(
    tokens: &mut I,
    field: Field,
) -> Result<u16, ParseError>
    requires can { I.can_next tokens.old }
    ensures reads { ReadsToken I.next_gives S.text (number 2) (λ n. n) result tokens.old tokens.new }
    ensures why { IfErr result (IsOfField field) }
    ensures goes { GoesOn I.can_next I.remaining result tokens.old tokens.new }
{
    let token = next_token(tokens, field.name)?;
    u16_of(token.as_str(), field.wrong)
}

/// Reads a number of 32 bits, as `next_u8` does.
#[inline]
pub fn next_u32<S: AsStr + Drop, I: Iterator<Item = S>>(
    tokens: &mut I,
    field: Field,
) -> Result<u32, ParseError>
    requires can { I.can_next tokens.old }
    ensures reads { ReadsToken I.next_gives S.text (number 4) (λ n. n) result tokens.old tokens.new }
    ensures why { IfErr result (IsOfField field) }
    ensures goes { GoesOn I.can_next I.remaining result tokens.old tokens.new }
{
    let token = next_token(tokens, field.name)?;
    u32_of(token.as_str(), field.wrong)
}

/// Reads a TTL of 32 bits (`parse_ttl`), as `next_u8` does.
#[inline]
pub fn next_ttl<S: AsStr + Drop, I: Iterator<Item = S>>(
    tokens: &mut I,
    field: Field,
) -> Result<u32, ParseError>
    requires can { I.can_next tokens.old }
    ensures reads { ReadsToken I.next_gives S.text (ttl 4294967295) (λ n. n) result tokens.old tokens.new }
    ensures why { IfErr result (IsOfField field) }
    ensures goes { GoesOn I.can_next I.remaining result tokens.old tokens.new }
{
    let token = next_token(tokens, field.name)?;
    ttl_of(token.as_str(), field.wrong)
}

/// Reads a TTL of at most 2147483647 seconds, as `next_u8` does.
#[inline]
pub fn next_signed_ttl<S: AsStr + Drop, I: Iterator<Item = S>>(
    tokens: &mut I,
    field: Field,
) -> Result<i32, ParseError>
    requires can { I.can_next tokens.old }
    ensures reads { ReadsToken I.next_gives S.text (ttl 2147483647) (λ z. cast_unsigned w32 z) result tokens.old tokens.new }
    ensures fits { IfOk result (λ z. FitsSigned w32 z) }
    ensures why { IfErr result (IsOfField field) }
    ensures goes { GoesOn I.can_next I.remaining result tokens.old tokens.new }
{
    let token = next_token(tokens, field.name)?;
    signed_ttl_of(token.as_str(), field.wrong)
}

/// Reads a name, which the origin completes if there is one. Returns [`MissingToken`](ParseError::MissingToken) if no
/// token is left, and otherwise the errors of `Name::parse`.
#[inline]
pub fn next_name<S: AsStr + Drop, I: Iterator<Item = S>>(
    alloc: Global,
    tokens: &mut I,
    origin: Option<&Name>,
    missing: &'static str,
) -> Result<Name, ParseError>
    requires can { I.can_next tokens.old }
    ensures reads { ReadsToken I.next_gives S.text (name (option_copied origin.entry)) (λ x. x) result tokens.old tokens.new }
    ensures goes { GoesOn I.can_next I.remaining result tokens.old tokens.new }
{
    let token = next_token(tokens, missing)?;
    name_of(alloc, token.as_str(), origin)
}

/// Reads octets in base64. Allocates once. Errors name the field.
#[inline]
pub fn next_base64<S: AsStr + Drop, I: Iterator<Item = S>>(
    alloc: Global,
    tokens: &mut I,
    field: Field,
) -> Result<Octets, ParseError>
    requires can { I.can_next tokens.old }
    ensures reads { ReadsToken I.next_gives S.text base64 (λ x. x) result tokens.old tokens.new }
    ensures why { IfErr result (λ e. (e ≡ ParseError.Memory) ⊎ IsOfField field e) }
    ensures goes { GoesOn I.can_next I.remaining result tokens.old tokens.new }
{
    let token = next_token(tokens, field.name)?;
    base64_of(alloc, token.as_str(), field.wrong)
}

/// Takes the octets of the next token. Returns [`MissingToken`](ParseError::MissingToken) if none is left.
#[inline]
pub fn next_kept<S: AsStr + Drop, I: Iterator<Item = S>>(
    alloc: Global,
    tokens: &mut I,
    missing: &'static str,
) -> Result<Octets, ParseError>
    requires can { I.can_next tokens.old }
    ensures text { ReadsToken I.next_gives S.text kept (λ x. x) result tokens.old tokens.new }
    ensures rest { ReadsToken I.next_gives S.text kept_rest (λ x. x) result tokens.old tokens.new }
    ensures why { IfErr result (λ e. (e ≡ ParseError.Memory) ⊎ (e ≡ ParseError.MissingToken missing.entry)) }
    ensures goes { GoesOn I.can_next I.remaining result tokens.old tokens.new }
{
    let token = next_token(tokens, missing)?;
    kept_of(alloc, token.as_str())
}

/// Reads an IPv4 address. Returns [`MissingToken`](ParseError::MissingToken) if no token is left, and
/// [`AddrParse`](ParseError::AddrParse) for any other token. Allocates nothing.
#[inline]
pub fn next_ipv4<S: AsStr + Drop, I: Iterator<Item = S>>(
    tokens: &mut I,
    missing: &'static str,
) -> Result<Ipv4Addr, ParseError>
    requires can { I.can_next tokens.old }
    ensures reads { ReadsToken I.next_gives S.text ipv4 ipv4_octets result tokens.old tokens.new }
    ensures why { IfErr result (λ e. (e ≡ ParseError.AddrParse) ⊎ (e ≡ ParseError.MissingToken missing.entry)) }
    ensures goes { GoesOn I.can_next I.remaining result tokens.old tokens.new }
{
    let token = next_token(tokens, missing)?;
    ipv4_of(token.as_str())
}

/// Reads an IPv6 address, as `next_ipv4` does.
#[inline]
pub fn next_ipv6<S: AsStr + Drop, I: Iterator<Item = S>>(
    tokens: &mut I,
    missing: &'static str,
) -> Result<Ipv6Addr, ParseError>
    requires can { I.can_next tokens.old }
    ensures reads { ReadsToken I.next_gives S.text ipv6 ipv6_octets result tokens.old tokens.new }
    ensures why { IfErr result (λ e. (e ≡ ParseError.AddrParse) ⊎ (e ≡ ParseError.MissingToken missing.entry)) }
    ensures goes { GoesOn I.can_next I.remaining result tokens.old tokens.new }
{
    let token = next_token(tokens, missing)?;
    ipv6_of(token.as_str())
}

/// Checks that no token is left. If one is, returns [`Message`](ParseError::Message) with this text.
#[inline]
pub fn no_more<S: AsStr + Drop, I: Iterator<Item = S>>(
    tokens: &mut I,
    surplus: &'static str,
) -> Result<(), ParseError>
    requires can { I.can_next tokens.old }
    ensures took { IfOk result (λ _. TookTokens I.next_gives S.text nothing tt tokens.old) }
    ensures refused { IfErr result (λ e. RefusedTokens I.next_gives S.text e nothing tokens.old) }
    ensures why { IfErr result (λ e. e ≡ ParseError.Message surplus.entry) }
{
    match tokens.next() {
        Some(_token) => Err(ParseError::Message(surplus)),
        None => Ok(()),
    }
}

/// Copies all further tokens as strings. Fails only if an allocation fails.
pub fn all_texts<S: AsStr + Drop, I: Iterator<Item = S>>(
    alloc: Global,
    tokens: I,
) -> Result<Strings, AllocError>
    requires can { I.can_next tokens }
    requires ends { IsFinite (I.remaining tokens) }
    ensures { IfOk result (λ strings. AreTexts I.next_gives S.text tokens strings) }
{
    let mut strings = Strings::new(alloc);
    for token in tokens {
        strings.push(Octets::from_slice(alloc, token.as_str().as_bytes())?)?;
    }
    Ok(strings)
}

/// Joins all further tokens. Fails only if an allocation fails.
pub fn join_tokens<S: AsStr + Drop, I: Iterator<Item = S>>(
    alloc: Global,
    tokens: I,
) -> Result<Vec<u8>, AllocError>
    requires can { I.can_next tokens }
    requires ends { IsFinite (I.remaining tokens) }
    ensures { IfOk result (λ joined. AreJoined I.next_gives S.text tokens joined.items) }
{
    let mut joined = Vec::new(alloc);
    for token in tokens {
        joined.extend_from_slice(token.as_str().as_bytes())?;
    }
    Ok(joined)
}
