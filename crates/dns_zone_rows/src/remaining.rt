//! What all tokens after the fields of a zone row are.

ghost use Rattle.std.specs.Prelude.{◌≡◌, ◌≢◌, ◌≤◌, ◌⊎◌, ◌++◌, [], All, length, Ok, IfErr, OnOk, OnErr};
ghost use Rattle.std.specs.List.{flat_map};
ghost use Rattle.dns_fields.specs.Tlvs.{string as string_octets};
ghost use Rattle.dns_zone_tokens.specs.{Forms.StringFault, Tokens.tokens_at, ZoneReads.LacksFirst};
ghost use Rattle.dns_zone_tokens.specs.Remaining.{AmongFault, HexFault, Base64Fault, PutsAll};
ghost use Rattle.dns_zone_rows.specs.RowFaults.{rest_kind_of, LongHexFault, MaybeStringFault, SurplusFault, RestFault};
ghost use Rattle.dns_zone_rows.specs.Rows.{NoToken, SomeStrings, MaybeString, SomeHex, LongHex, SomeBase64, RestGives};

use crate::parameters::put_parameters;
use crate::types::add_types;
use crate::zone_row::{LongHexField, ZoneRest};
use dns_types::ParseError;
use dns_zone_tokens::{
    Field, HexField, StringField, ZoneTokens, no_more, put_base64, put_hex, put_string, some_token,
};
use std::alloc::Global;

// Takes all remaining tokens and appends the octets that they give.
pub(crate) fn add_rest(
    alloc: Global,
    tokens: &mut ZoneTokens<'_>,
    rest: &ZoneRest,
    octets: &mut Vec<u8>,
) -> Result<(), ParseError>
    ensures adds { PutsAll (RestGives (rest_kind_of rest.now)) result octets.old.items octets.new.items tokens.old }
    ensures why { IfErr result (λ e. (e ≡ ParseError.Memory) ⊎ RestFault rest.now tokens.old e) }
{
    match rest {
        ZoneRest::Nothing(surplus) => add_nothing(tokens, *surplus, octets),
        ZoneRest::Strings(field) => add_strings(tokens, field, octets),
        ZoneRest::MaybeString(field, surplus) => add_maybe_string(tokens, field, *surplus, octets),
        ZoneRest::Hex(missing, field) => add_hex(alloc, tokens, *missing, field, octets),
        ZoneRest::LongHex(field) => add_long_hex(alloc, tokens, field, octets),
        ZoneRest::Base64(field) => add_base64(alloc, tokens, *field, octets),
        ZoneRest::MaybeBase64(field) => put_base64(alloc, tokens, field.wrong, octets),
        ZoneRest::Types(field) => add_types(alloc, tokens, *field, octets),
        ZoneRest::Parameters => put_parameters(alloc, tokens, octets),
    }
}

// Fails if a token is left; otherwise as `add_rest`. So are the functions below.
fn add_nothing(
    tokens: &mut ZoneTokens<'_>,
    surplus: &'static str,
    octets: &mut Vec<u8>,
) -> Result<(), ParseError>
    ensures adds { PutsAll (RestGives NoToken) result octets.old.items octets.new.items tokens.old }
    ensures why { IfErr result (λ e. (e ≡ ParseError.Memory) ⊎ SurplusFault (ParseError.Message surplus.entry) tokens.old e) }
{
    let _octets = octets.len();
    no_more(tokens, surplus)
}

fn add_strings(
    tokens: &mut ZoneTokens<'_>,
    field: &StringField,
    octets: &mut Vec<u8>,
) -> Result<(), ParseError>
    ensures adds { PutsAll (RestGives SomeStrings) result octets.old.items octets.new.items tokens.old }
    ensures why { IfErr result (λ e. (e ≡ ParseError.Memory) ⊎ LacksFirst (ParseError.MissingToken field.now.name) tokens.old e ⊎ AmongFault (StringFault field.now) tokens.old e) }
{
    let first = some_token(tokens, field.name)?;
    put_string(octets, first, field)?;
    'tokens: loop {
        match tokens.next_token()? {
            Some(token) => put_string(octets, token, field)?,
            None => return Ok(()),
        }
    }
}

fn add_maybe_string(
    tokens: &mut ZoneTokens<'_>,
    field: &StringField,
    surplus: &'static str,
    octets: &mut Vec<u8>,
) -> Result<(), ParseError>
    ensures adds { PutsAll (RestGives MaybeString) result octets.old.items octets.new.items tokens.old }
    ensures why { IfErr result (λ e. (e ≡ ParseError.Memory) ⊎ MaybeStringFault field.now (ParseError.Message surplus.entry) tokens.old e) }
{
    match tokens.next_token()? {
        Some(token) => {
            put_string(octets, token, field)?;
            no_more(tokens, surplus)
        }
        None => Ok(()),
    }
}

fn add_long_hex(
    alloc: Global,
    tokens: &mut ZoneTokens<'_>,
    field: &LongHexField,
    octets: &mut Vec<u8>,
) -> Result<(), ParseError>
    ensures adds { PutsAll (RestGives (LongHex field.now.least)) result octets.old.items octets.new.items tokens.old }
    ensures why { IfErr result (λ e. (e ≡ ParseError.Memory) ⊎ LongHexFault field.now tokens.old e) }
{
    let start = octets.len();
    add_hex(alloc, tokens, field.name, &field.digits, octets)?;
    if octets.len() - start < field.least {
        return Err(ParseError::Message(field.few));
    }
    Ok(())
}

fn add_hex(
    alloc: Global,
    tokens: &mut ZoneTokens<'_>,
    missing: &'static str,
    field: &HexField,
    octets: &mut Vec<u8>,
) -> Result<(), ParseError>
    ensures adds { PutsAll (RestGives SomeHex) result octets.old.items octets.new.items tokens.old }
    ensures why { IfErr result (λ e. (e ≡ ParseError.Memory) ⊎ LacksFirst (ParseError.MissingToken missing.entry) tokens.old e ⊎ HexFault field.now tokens.old e) }
{
    ask_some(tokens, missing)?;
    put_hex(alloc, tokens, field, octets)
}

fn add_base64(
    alloc: Global,
    tokens: &mut ZoneTokens<'_>,
    field: Field,
    octets: &mut Vec<u8>,
) -> Result<(), ParseError>
    ensures adds { PutsAll (RestGives SomeBase64) result octets.old.items octets.new.items tokens.old }
    ensures why { IfErr result (λ e. (e ≡ ParseError.Memory) ⊎ LacksFirst (ParseError.MissingToken field.name) tokens.old e ⊎ Base64Fault (ParseError.Message field.wrong) tokens.old e) }
{
    ask_some(tokens, field.name)?;
    put_base64(alloc, tokens, field.wrong, octets)
}

// Fails if no token is left. Takes none.
#[inline]
fn ask_some(tokens: &ZoneTokens<'_>, missing: &'static str) -> Result<(), ParseError>
    ensures some { OnOk result (tokens_at tokens.now ≢ Ok []) }
    ensures refused { IfErr result (LacksFirst (ParseError.MissingToken missing.entry) tokens.now) }
{
    some_token(&mut tokens.again(), missing)?;
    Ok(())
}
