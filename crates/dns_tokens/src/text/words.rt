//! The words of a whole text.

ghost use Rattle.std.specs.Prelude.{◌≡◌, ◌≢◌, None, IfOk, IfErr};
ghost use Rattle.dns_tokens.specs.{TextWords.token_words, TextWords.TextWords, TextWords.NoTextWords, TextWords.AddsWords, Views.token_value, Views.words_value};
ghost use Rattle.dns_types.specs.declared.error.ParseError.TheVariants as parse;
ghost use Rattle.dns_tokens.specs.Messages.{IsMessage};

use crate::text::lexer::Lexer;
use crate::text::token::Token;
use dns_types::ParseError;
use std::alloc::Global;
use std::borrow::CowStr;

/// Appends the words of a token.
fn add_words<'a>(token: Token<'a>, words: &mut Vec<CowStr<'a, Global>>) -> Result<(), ParseError>
    ensures ok { IfOk result (λ _. AddsWords (token_value token.entry) (words_value words.old) (words_value words.new)) }
    ensures refused { IfErr result (λ e. e ≢ parse.Memory → token_words (token_value token.entry) ≡ None) }
    ensures message { IfErr result IsMessage }
{
    match token {
        Token::Blank => Ok(()),
        Token::EOL => Ok(()),
        Token::At => Err(ParseError::Message("`@` is not a token here")),
        Token::List(mut within) => {
            words.append(&mut within)?;
            Ok(())
        }
        Token::CharData(word) => {
            words.push(word)?;
            Ok(())
        }
    }
}

/// Returns the words of a text: those of each list and of character data; ends of lines and blanks have none. Any other
/// token is an error.
#[tactic(auto, using(crate::proofs::WholeSteps::text_more, crate::proofs::WholeSteps::text_done, crate::proofs::WholeSteps::refused_token, crate::proofs::WholeSteps::refused_text))]
pub fn text_words<'a>(alloc: Global, text: &'a str) -> Result<Vec<CowStr<'a, Global>>, ParseError>
    ensures ok { IfOk result (λ words. TextWords (words_value words) text.now) }
    ensures refused { IfErr result (λ e. e ≢ parse.Memory → NoTextWords text.now) }
    ensures message { IfErr result IsMessage }
{
    let mut words = Vec::new(alloc);
    let mut lexer = Lexer::new(alloc, text);
    'tokens: while let Some(token) = lexer.next_token()? {
        add_words(token, &mut words)?;
    }
    Ok(words)
}
