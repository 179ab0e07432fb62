//! Text in quotes.

ghost use Rattle.std.specs.Prelude.{◌≡◌, ◌≢◌, ◌<◌, length, slice_index, IfOk, IfErr, IfSome, IfNone, IsUtf8};
ghost use Rattle.std.specs.Cow.{cow_str_bytes};
ghost use Rattle.dns_types.specs.declared.error.ParseError.TheVariants as parse;
ghost use Rattle.dns_tokens.specs.Quoted.{Quoted, NotQuoted, First, octets_of};
ghost use Rattle.dns_tokens.specs.Messages.{IsMessage};

use crate::text::spans::{Kind, behind, octet, split};
use dns_types::ParseError;
use std::alloc::Global;
use std::borrow::CowStr;

/// Returns the character of the escape at the front of a text in quotes, and what follows. Before a character outside
/// of ASCII only the `\` is taken.
#[tactic(auto, using(crate::proofs::QuotedSteps::escape_ascii, crate::proofs::QuotedSteps::escape_high, crate::proofs::QuotedSteps::escape_decimal))]
fn read_escape(text: &str) -> Option<(Option<char>, &str)>
    requires some { 0 < length text.now }
    requires slash { slice_index text.now 0 ≡ 92 }
    ensures some { IfSome result (λ r. First Quoted (octets_of r.0) text.now r.1.now) }
    ensures utf8 { IfSome result (λ r. IsUtf8 r.1.now) }
    ensures shorter { IfSome result (λ r. length r.1.now < length text.now) }
    ensures none { IfNone result (NotQuoted text.now) }
{
    if text.len() < 2 {
        return None;
    }
    let second = octet(text, 1);
    if second < 48 || second > 57 {
        if second < 128 {
            return Some((Some(second as char), behind(text, 2)));
        }
        return Some((None, behind(text, 1)));
    }
    if text.len() < 4 {
        return None;
    }
    let third = octet(text, 2);
    let fourth = octet(text, 3);
    if third < 48 || third > 57 || fourth < 48 || fourth > 57 {
        return None;
    }
    let value = (second as u16 - 48) * 100 + (third as u16 - 48) * 10 + (fourth as u16 - 48);
    if value > 255 {
        return None;
    }
    Some((Some(value as u8 as char), behind(text, 4)))
}

/// After a `"`: the text up to the next plain `"`, and what follows that. Without a `\` it borrows the text.
#[tactic(auto, using(crate::proofs::QuotedSteps::quotes))]
pub fn read_quoted<'a>(
    alloc: Global,
    text: &'a str,
) -> Result<(CowStr<'a, Global>, &'a str), ParseError>
    ensures utf8 { IfOk result (λ r. IsUtf8 r.1.now) }
    ensures shorter { IfOk result (λ r. length r.1.now < length text.now) }
    ensures ok { IfOk result (λ r. Quoted (cow_str_bytes r.0) text.now r.1.now) }
    ensures refused { IfErr result (λ e. e ≢ parse.Memory → NotQuoted text.now) }
    ensures message { IfErr result IsMessage }
{
    let (plain, special) = split(Kind::Plain, text);
    if special.len() == 0 {
        return Err(ParseError::Message("unclosed quotes"));
    }
    if octet(special, 0) == 34 {
        return Ok((CowStr::Borrowed(plain), behind(special, 1)));
    }
    let mut word = String::new(alloc);
    let mut rest = text;
    'runs: loop {
        let (plain, special) = split(Kind::Plain, rest);
        word.push_str(plain)?;
        if special.len() == 0 {
            return Err(ParseError::Message("unclosed quotes"));
        }
        if octet(special, 0) == 34 {
            return Ok((CowStr::Owned(word), behind(special, 1)));
        }
        let Some((character, more)) = read_escape(special) else {
            return Err(ParseError::Message("invalid escape in quotes"));
        };
        if let Some(c) = character {
            word.push(c)?;
        }
        rest = more;
    }
}
