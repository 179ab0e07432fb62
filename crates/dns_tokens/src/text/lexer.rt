//! Texts divided into tokens (RFC 1035, section 5.1).

ghost use Rattle.std.specs.Prelude.{◌≡◌, ◌≢◌, ◌<◌, true, length, slice_index, IfOk, IfErr, IfSome, IfNone, MatchOption, IsUtf8, ℕ, List};
ghost use Rattle.std.specs.Cow.{cow_str_bytes};
ghost use Rattle.dns_types.specs.declared.error.ParseError.TheVariants as parse;
ghost use Rattle.dns_tokens.specs.{Octets.is_line_end as is_end_octet, Views.token_value, Views.words_value};
ghost use Rattle.dns_tokens.specs.Tokens.{Words, NoWords, LineEnd, FirstToken, NoToken, HasNoTokens, SkipsComment};
ghost use Rattle.dns_tokens.specs.Messages.{IsMessage};

use crate::text::quoted::read_quoted;
use crate::text::spans::{Kind, behind, is_blank, is_gap, is_line_end, octet, split};
use crate::text::token::Token;
use dns_types::ParseError;
use std::alloc::Global;
use std::borrow::CowStr;
use std::marker::Model;

/// After a `(`: the words up to `)`, and what follows that.
#[tactic(auto, using(crate::proofs::WordSteps::words_steps))]
fn read_words<'a>(
    alloc: Global,
    text: &'a str,
) -> Result<(Vec<CowStr<'a, Global>>, &'a str), ParseError>
    ensures utf8 { IfOk result (λ r. IsUtf8 r.1.now) }
    ensures ok { IfOk result (λ r. Words (words_value r.0) text.now r.1.now) }
    ensures refused { IfErr result (λ e. e ≢ parse.Memory → NoWords text.now) }
    ensures message { IfErr result IsMessage }
{
    let mut words = Vec::new(alloc);
    let mut rest = text;
    'words: loop {
        if rest.len() == 0 {
            return Err(ParseError::Message("unclosed list"));
        }
        let first = octet(rest, 0);
        if first == 41 {
            return Ok((words, behind(rest, 1)));
        }
        if first == 40 {
            return Err(ParseError::Message("list within a list"));
        }
        if is_gap(first) {
            rest = behind(rest, 1);
        } else if first == 59 {
            let (_remark, more) = split(Kind::Line, behind(rest, 1));
            rest = more;
        } else if first == 34 {
            let (word, more) = read_quoted(alloc, behind(rest, 1))?;
            words.push(word)?;
            rest = more;
        } else {
            let (word, more) = split(Kind::Run, rest);
            words.push(CowStr::Borrowed(word))?;
            rest = more;
        }
    }
}

/// Returns the text after the comment at its front, if there is one.
#[tactic(auto, using(crate::proofs::TokenSteps::skips_one))]
fn skip_comment(text: &str) -> &str
    ensures { SkipsComment text.now result.now }
{
    if text.len() == 0 || octet(text, 0) != 59 {
        return text;
    }
    let (_remark, more) = split(Kind::Line, behind(text, 1));
    more
}

/// Returns the text after the line end at its front.
#[tactic(auto, using(crate::proofs::TokenSteps::two_octets, crate::proofs::TokenSteps::one_octet))]
fn skip_line_end(text: &str) -> &str
    requires some { 0 < length text.now }
    requires line_end { is_end_octet (slice_index text.now 0) ≡ true }
    ensures { LineEnd text.now result.now }
{
    if octet(text, 0) == 13 && text.len() > 1 && octet(text, 1) == 10 {
        return behind(text, 2);
    }
    behind(text, 1)
}

/// Returns the first token of a text, and what follows it.
#[tactic(auto, using(crate::proofs::FirstSteps::first_token))]
fn read_token<'a>(alloc: Global, text: &'a str) -> Result<Option<(Token<'a>, &'a str)>, ParseError>
    ensures ok { IfOk result (λ o. MatchOption o (NoToken text.now) (λ r. FirstToken (token_value r.0) text.now r.1.now)) }
    ensures refused { IfErr result (λ e. e ≢ parse.Memory → HasNoTokens text.now) }
    ensures message { IfErr result IsMessage }
{
    let text = skip_comment(text);
    if text.len() == 0 {
        return Ok(None);
    }
    let first = octet(text, 0);
    if is_blank(first) {
        let (_blanks, rest) = split(Kind::Blank, text);
        return Ok(Some((Token::Blank, rest)));
    }
    if is_line_end(first) {
        return Ok(Some((Token::EOL, skip_line_end(text))));
    }
    if first == 41 {
        return Err(ParseError::Message("`)` without `(`"));
    }
    if first == 40 {
        let (words, rest) = read_words(alloc, behind(text, 1))?;
        return Ok(Some((Token::List(words), rest)));
    }
    if first == 34 {
        let (word, rest) = read_quoted(alloc, behind(text, 1))?;
        return Ok(Some((Token::CharData(word), rest)));
    }
    let (word, rest) = split(Kind::Run, text);
    if word.len() == 1 && first == 64 {
        return Ok(Some((Token::At, rest)));
    }
    Ok(Some((Token::CharData(CowStr::Borrowed(word)), rest)))
}

/// Divides a text into tokens, one at a time.
#[derive(Drop)]
pub struct Lexer<'a> {
    alloc: Global,
    rest: &'a str,
}

impl<'a> Model for Lexer<'a> {
    ghost Value = { List ℕ };

    ghost view = { λ l. l.rest.now };
}

impl<'a> Lexer<'a> {
    /// Starts at the front of a text.
    pub fn new(alloc: Global, text: &'a str) -> Self
        ensures { result ≡ text.now }
    {
        Lexer { alloc, rest: text }
    }

    /// Returns the next token, or `None` at the end of the text. An error changes nothing.
    #[tactic(auto, using(crate::proofs::FirstSteps::first_shorter))]
    pub fn next_token(&mut self) -> Result<Option<Token<'a>>, ParseError>
        ensures token { IfOk result (λ o. IfSome o (λ t. FirstToken (token_value t) self.old self.new)) }
        ensures shorter { IfOk result (λ o. IfSome o (λ t. length self.new < length self.old)) }
        ensures end { IfOk result (λ o. IfNone o (NoToken self.old)) }
        ensures stays { IfOk result (λ o. IfNone o (self.new ≡ self.old)) }
        ensures refused { IfErr result (λ e. e ≢ parse.Memory → HasNoTokens self.old) }
        ensures message { IfErr result IsMessage }
        ensures unchanged { IfErr result (λ e. self.new ≡ self.old) }
    {
        match read_token(self.alloc, self.rest)? {
            Some((token, rest)) => {
                self.rest = rest;
                Ok(Some(token))
            }
            None => Ok(None),
        }
    }
}
