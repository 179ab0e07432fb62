//! Items of a text.

ghost use Rattle.std.specs.{Prelude.◌≡◌, Prelude.◌≢◌, Prelude.ℕ, Prelude.List, Prelude.IfOk, Prelude.IfErr, Prelude.IfSome, Prelude.IfNone, Cow.cow_str_bytes};
ghost use Rattle.dns_tokens.specs.{Tokens.TokenValue.char_data, Lists.IsItem, Lists.NoItem, Views.token_value};
ghost use Rattle.dns_types.specs.declared.error.ParseError.TheVariants as parse;
ghost use Rattle.dns_tokens.specs.Messages.{IsMessage};

use crate::text::lexer::Lexer;
use crate::text::token::Token;
use dns_types::ParseError;
use std::alloc::Global;
use std::borrow::CowStr;

/// The word that a token is.
fn token_word(token: Token<'_>) -> Option<CowStr<'_, Global>>
    ensures some { IfSome result (λ word. token_value token.entry ≡ char_data (cow_str_bytes word)) }
    ensures none { IfNone result ((word : List ℕ) → token_value token.entry ≢ char_data word) }
{
    match token {
        Token::CharData(word) => Some(word),
        Token::Blank => None,
        Token::EOL => None,
        Token::At => None,
        Token::List(_) => None,
    }
}

/// Returns the item of a text: its first token, which must be a word. What follows it is not read.
#[tactic(auto, using(crate::proofs::FirstSteps::none_or_first, crate::proofs::FirstSteps::first_one))]
pub fn read_item<'a>(alloc: Global, text: &'a str) -> Result<CowStr<'a, Global>, ParseError>
    ensures ok { IfOk result (λ item. IsItem text.now (cow_str_bytes item)) }
    ensures refused { IfErr result (λ e. e ≢ parse.Memory → NoItem text.now) }
    ensures message { IfErr result IsMessage }
{
    let mut lexer = Lexer::new(alloc, text);
    let Some(token) = lexer.next_token()? else {
        return Err(ParseError::Message("an item is missing"));
    };
    let Some(word) = token_word(token) else {
        return Err(ParseError::Message("an item is not one token"));
    };
    Ok(word)
}
