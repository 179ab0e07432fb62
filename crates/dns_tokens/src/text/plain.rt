//! The words of a plain text, one by one.

ghost use Rattle.std.specs.Prelude.{◌≡◌, ◌∷◌, ◌<◌, [], length, slice_index, IfSome, IfNone, IsUtf8};
ghost use Rattle.std.specs.{Bool.OnTrue, Iterator.at_most};
ghost use Rattle.dns_tokens.specs.Plain.{IsPlainWord, NoPlainWord, IsPlain, PlainFirst, HasNoWord, GivesWord};

use crate::text::spans::{Kind, behind, octet, split};

/// Returns whether a text is plain: between its words are only blanks and line ends, and each word is a part of the
/// text, either in quotes without a `\` or a run other than a single `@`. Allocates nothing.
pub fn is_plain(text: &str) -> bool
    ensures { OnTrue result (IsPlain text.now) }
{
    let mut rest = text;
    'words: while let Some((_word, more)) = next_word(rest) {
        rest = more;
    }
    let (_gaps, more) = split(Kind::Gap, rest);
    more.len() == 0
}

/// The words of a plain text, one by one. Allocates nothing. Of another text some words may be missing.
#[derive(Drop)]
pub struct PlainWords<'a> {
    rest: &'a str,
}

impl<'a> PlainWords<'a> {
    /// Starts at the front of a text.
    #[inline]
    pub fn new(text: &'a str) -> PlainWords<'a>
        ensures { result.rest.now ≡ text.now }
    {
        PlainWords { rest: text }
    }
}

impl<'a> Iterator for PlainWords<'a> {
    type Item = &'a str;

    ghost next_gives = { GivesWord };

    ghost remaining = { λ s. at_most (length s.rest.now) };

    #[inline]
    fn next(&mut self) -> Option<&'a str> {
        let (word, rest) = next_word(self.rest)?;
        self.rest = rest;
        Some(word)
    }
}

// The first word of a text, and what follows it; `None` if the text is not plain, or has no word.
#[inline]
#[tactic(auto, using(crate::proofs::PlainSteps::word_first, crate::proofs::PlainSteps::word_shorter, crate::proofs::PlainSteps::no_word))]
fn next_word(text: &str) -> Option<(&str, &str)>
    ensures word { IfSome result (λ r. PlainFirst (r.0.now ∷ []) text.now r.1.now) }
    ensures utf8 { IfSome result (λ r. IsUtf8 r.0.now × IsUtf8 r.1.now) }
    ensures shorter { IfSome result (λ r. length r.1.now < length text.now) }
    ensures none { IfNone result (HasNoWord text.now) }
{
    let (_gaps, text) = split(Kind::Gap, text);
    let (word, rest) = plain_word(text)?;
    Some((word, rest))
}

// The same of a text that begins with the word.
fn plain_word(text: &str) -> Option<(&str, &str)>
    ensures word { IfSome result (λ r. IsPlainWord r.0.now text.now r.1.now) }
    ensures utf8 { IfSome result (λ r. IsUtf8 r.0.now × IsUtf8 r.1.now) }
    ensures none { IfNone result (NoPlainWord text.now) }
{
    if text.len() == 0 {
        return None;
    }
    let first = octet(text, 0);
    if first == 34 {
        return quoted_word(text);
    }
    let (word, rest) = split(Kind::Run, text);
    if word.len() == 0 || first == 40 || (word.len() == 1 && first == 64) {
        return None;
    }
    Some((word, rest))
}

// The same of a text that begins with a `"`.
fn quoted_word(text: &str) -> Option<(&str, &str)>
    requires some { 0 < length text.now }
    requires quote { slice_index text.now 0 ≡ 34 }
    ensures word { IfSome result (λ r. IsPlainWord r.0.now text.now r.1.now) }
    ensures utf8 { IfSome result (λ r. IsUtf8 r.0.now × IsUtf8 r.1.now) }
    ensures none { IfNone result (NoPlainWord text.now) }
{
    let (word, more) = split(Kind::Plain, behind(text, 1));
    if more.len() == 0 || octet(more, 0) != 34 {
        return None;
    }
    Some((word, behind(more, 1)))
}
