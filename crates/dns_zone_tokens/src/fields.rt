//! Fields that are read from the next token of a text.

ghost use Rattle.std.specs.Prelude.{◌≡◌, ◌≤◌, ◌∷◌, IfOk, IfErr, OnErr};
ghost use Rattle.dns_zone_tokens.specs.{Forms.number, Views.token_value, Tokens.tokens_at, Tokens.seen_at, Tokens.with_token, Tokens.behind_first};
ghost use Rattle.dns_zone_tokens.specs.ZoneReads.{ReadsFirst, LacksFirst, WhyNoField};

use crate::numbers::number_of;
use crate::tokens::{ZoneToken, ZoneTokens};
use dns_tokens::Field;
use dns_types::ParseError;

/// Takes the next token. Returns [`MissingToken`](ParseError::MissingToken) with the text `missing` if none is left,
/// and [`Message`](ParseError::Message) if the text cannot be divided into tokens; nothing is taken then.
#[inline]
pub fn some_token<'a>(
    tokens: &mut ZoneTokens<'a>,
    missing: &'static str,
) -> Result<ZoneToken<'a>, ParseError>
    ensures token { IfOk result (λ w. tokens_at tokens.old ≡ with_token (token_value w) (tokens_at tokens.new)) }
    ensures seen { IfOk result (λ w. seen_at tokens.old ≡ token_value w ∷ seen_at tokens.new) }
    ensures refused { IfErr result (LacksFirst (ParseError.MissingToken missing.entry) tokens.old) }
    ensures unchanged { OnErr result (tokens.new ≡ tokens.old) }
    ensures behind { tokens_at tokens.new ≡ behind_first (tokens_at tokens.old) }
{
    match tokens.next_token()? {
        Some(token) => Ok(token),
        None => Err(ParseError::MissingToken(missing)),
    }
}

/// Reads a decimal number of so many octets, at most four, from the next token. Errors name the field; the token is
/// taken all the same. Allocates nothing.
#[inline]
pub fn next_number(
    tokens: &mut ZoneTokens<'_>,
    octets: u32,
    field: Field,
) -> Result<u32, ParseError>
    requires { octets ≤ 4 }
    ensures reads { ReadsFirst (number octets) (λ n. n) result tokens.old tokens.new }
    ensures why { IfErr result (WhyNoField (number octets) field tokens.old) }
    ensures behind { tokens_at tokens.new ≡ behind_first (tokens_at tokens.old) }
{
    let token = some_token(tokens, field.name)?;
    number_of(token, octets, field.wrong)
}
