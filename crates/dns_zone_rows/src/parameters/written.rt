//! Tokens that are service parameters (RFC 9460, section 2.1).

ghost use Rattle.std.specs.Prelude.{◌≡◌, ◌≤◌, ◌<◌, ◌⊎◌, [], length, Ok, IfOk, IfErr, IfSome, IfNone, OnErr};
ghost use Rattle.std.specs.List.{position};
ghost use Rattle.dns_tokens.specs.Reads.{Decides};
ghost use Rattle.dns_zone_tokens.specs.{ZoneReads.IsUndividedError, Remaining.NoneOfAll, Tokens.tokens_at};
ghost use Rattle.dns_zone_rows.specs.{ParameterFaults.ParameterFault, ParameterFaults.NextFault, ParameterViews.parameter_value};
ghost use Rattle.dns_zone_rows.specs.Parameters.{is_equals, HasParameter, AreWritten};
ghost use Rattle.dns_zone_rows.specs.ParameterSteps.{NoQuoted, TookQuoted, TookWritten, IsUndivided, ReadsNext};

use crate::parameters::key::key_of_name;
use crate::parameters::parameter::Parameter;
use crate::parameters::values::value_of;
use dns_types::ParseError;
use dns_zone_tokens::{ZoneToken, ZoneTokens};
use std::alloc::Global;

const OTHER_WORD: &str = "service parameter in quotes or directly after another token";

const NO_KEY: &str = "no key of a service parameter";

/// A service parameter as a text has it.
#[derive(Clone, Copy)]
pub struct Written<'a> {
    /// The name of its key.
    pub name: &'a [u8],
    /// Its value, without quotes around it; empty if there is none.
    pub value: &'a [u8],
}

/// Takes the next parameter; `None` if no token is left.
pub fn next_parameter(
    alloc: Global,
    tokens: &mut ZoneTokens<'_>,
) -> Result<Option<Parameter>, ParseError>
    ensures reads { ReadsNext result tokens.old tokens.new }
    ensures why { IfErr result (λ e. (e ≡ ParseError.Memory) ⊎ NextFault (tokens_at tokens.old) e) }
    ensures shorter { IfOk result (λ o. IfSome o (λ _. length tokens.new.text < length tokens.old.text)) }
{
    match next_written(tokens)? {
        Some(written) => Ok(Some(parameter_of(alloc, written)?)),
        None => Ok(None),
    }
}

// The parameter with this name and this text of its value.
fn parameter_of(alloc: Global, written: Written<'_>) -> Result<Parameter, ParseError>
    ensures reads { Decides (HasParameter written.entry.name.now written.entry.value.now) parameter_value result }
    ensures why { IfErr result (λ e. (e ≡ ParseError.Memory) ⊎ ParameterFault written.entry.name.now written.entry.value.now e) }
{
    let Some(key) = key_of_name(written.name) else {
        return Err(ParseError::Message(NO_KEY));
    };
    let value = value_of(alloc, key, written.value)?;
    Ok(Parameter {
        number: key.number(),
        value,
    })
}

// The name of the next parameter and the text of its value.
fn next_written<'a>(tokens: &mut ZoneTokens<'a>) -> Result<Option<Written<'a>>, ParseError>
    ensures took { IfOk result (λ o. IfSome o (λ w. TookWritten w.name.now w.value.now tokens.old tokens.new)) }
    ensures shorter { IfOk result (λ o. IfSome o (λ _. length tokens.new.text < length tokens.old.text)) }
    ensures end { IfOk result (λ o. IfNone o (tokens_at tokens.old ≡ Ok [])) }
    ensures refused { OnErr result (NoneOfAll AreWritten tokens.old) }
    ensures why { IfErr result (NextFault (tokens_at tokens.old)) }
{
    let Some(token) = tokens.next_token()? else {
        return Ok(None);
    };
    if token.quoted || token.joined {
        return Err(ParseError::Message(OTHER_WORD));
    }
    let raw = token.raw;
    let Some(at) = equals_at(raw) else {
        return Ok(Some(Written {
            name: raw,
            value: &raw[raw.len()..],
        }));
    };
    let name = &raw[..at];
    let behind = &raw[at + 1..];
    if behind.len() > 0 {
        return Ok(Some(Written {
            name,
            value: behind,
        }));
    }
    match quoted_value(tokens)? {
        Some(value) => Ok(Some(Written { name, value })),
        None => Ok(Some(Written {
            name,
            value: behind,
        })),
    }
}

// The next token, if it is in quotes and directly follows the one before. Otherwise nothing is taken.
fn quoted_value<'a>(tokens: &mut ZoneTokens<'a>) -> Result<Option<&'a [u8]>, ParseError>
    ensures took { IfOk result (λ o. IfSome o (λ value. TookQuoted value.now tokens.old tokens.new)) }
    ensures shorter { length tokens.new.text ≤ length tokens.old.text }
    ensures none { IfOk result (λ o. IfNone o (NoQuoted tokens.old)) }
    ensures stays { IfOk result (λ o. IfNone o (tokens.new ≡ tokens.old)) }
    ensures refused { OnErr result (IsUndivided tokens.old) }
    ensures why { IfErr result (IsUndividedError tokens.old) }
{
    let mut ahead = tokens.again();
    match ahead.next_token()? {
        Some(token) => {
            if token.quoted && token.joined {
                *tokens = ahead;
                Ok(Some(token.raw))
            } else {
                Ok(None)
            }
        }
        None => Ok(None),
    }
}

// The offset of the first `=` in a token.
fn equals_at(token: &[u8]) -> Option<usize>
    ensures { result ≡ position is_equals token.now }
{
    token.iter().position(|octet| *octet == b'=')
}
