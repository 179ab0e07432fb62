//! Letters: the octets of a text with their escapes resolved (RFC 1035, section 5.1).

ghost use Rattle.std.specs.Prelude.{◌≡◌, ◌<◌, ◌≤◌, false, [], length, drop, IfSome, IfNone, IfOk, IfErr, OnErr};
ghost use Rattle.dns_zone_tokens.specs.{Letters.escapes_stand, Letters.octet_of, Letters.stands_for, Letters.BeginsWithNone, Views.letter_value, Views.BeginsWith};

use dns_types::ParseError;
use std::marker::Model;

/// An octet of a text, after its escape is resolved.
#[derive(Clone, Copy, Debug, PartialEq, Eq)]
pub enum Letter {
    /// An octet without a `\`, which may have a meaning of its own: `.` between labels, for one.
    Plain(u8),
    /// An octet from `\X` or `\DDD`. It has no meaning of its own.
    Kept(u8),
}

impl Letter {
    /// The octet.
    #[inline]
    pub fn octet(self) -> u8
        ensures { result ≡ octet_of (letter_value self) }
    {
        match self {
            Letter::Plain(octet) => octet,
            Letter::Kept(octet) => octet,
        }
    }

    /// Returns whether it is this octet, without a `\`.
    #[inline]
    pub fn is_plain(self, octet: u8) -> bool
        ensures { result ≡ stands_for octet (letter_value self) }
    {
        match self {
            Letter::Plain(own) => own == octet,
            Letter::Kept(_) => false,
        }
    }
}

/// The octets of a token with their escapes resolved, one by one. Allocates nothing.
///
/// `\` and three digits up to 255 are the octet of that number, and `\` and a character that is no digit is that
/// character (RFC 1035, section 5.1). Any other `\` is an error.
#[derive(Drop)]
pub struct Letters<'a> {
    rest: &'a [u8],
}

impl<'a> Model for Letters<'a> {
    ghost use Rattle.std.specs.Prelude.{ℕ, List};

    ghost Value = { List ℕ };

    ghost view = { λ l. l.rest.now };
}

impl<'a> Letters<'a> {
    /// Starts at the front of a text.
    #[inline]
    pub fn new(text: &'a [u8]) -> Letters<'a>
        ensures { result ≡ text.now }
    {
        Letters { rest: text }
    }

    /// Takes the next octet; `None` at the end of the text. If the next `\` escapes nothing, this returns
    /// [`Message`](ParseError::Message) with the text `wrong` and takes nothing.
    #[inline]
    pub fn next_letter(&mut self, wrong: &'static str) -> Result<Option<Letter>, ParseError>
        ensures letter { IfOk result (λ o. IfSome o (λ x. BeginsWith (letter_value x) self.old self.new)) }
        ensures shorter { IfOk result (λ o. IfSome o (λ _. length self.new < length self.old)) }
        ensures end { IfOk result (λ o. IfNone o (self.old ≡ [])) }
        ensures stays { IfOk result (λ o. IfNone o (self.new ≡ self.old)) }
        ensures refused { IfErr result (λ _. escapes_stand self.old ≡ false) }
        ensures why { IfErr result (λ e. e ≡ ParseError.Message wrong.entry) }
        ensures nothing { OnErr result (BeginsWithNone self.old) }
        ensures unchanged { OnErr result (self.new ≡ self.old) }
    {
        if self.rest.len() == 0 {
            return Ok(None);
        }
        let Some((letter, count)) = first_letter(self.rest) else {
            return Err(ParseError::Message(wrong));
        };
        self.rest = &self.rest[count..];
        Ok(Some(letter))
    }
}

/// Returns the first octet of a text and how many octets it takes there; `None` if a `\` escapes nothing.
#[inline]
#[tactic(auto, using(crate::proofs::LetterSteps::no_third))]
pub(crate) fn first_letter(text: &[u8]) -> Option<(Letter, usize)>
    requires { 0 < length text.now }
    ensures some { IfSome result (λ r. BeginsWith (letter_value r.0) text.now (drop r.1 text.now)) }
    ensures taken { IfSome result (λ r. (1 ≤ r.1) × (r.1 ≤ length text.now)) }
    ensures none { IfNone result (escapes_stand text.now ≡ false) }
    ensures nothing { IfNone result (BeginsWithNone text.now) }
{
    let first = text[0];
    if first != b'\\' {
        return Some((Letter::Plain(first), 1));
    }
    if text.len() < 2 {
        return None;
    }
    let second = text[1];
    if second < 48 || second > 57 {
        return Some((Letter::Kept(second), 2));
    }
    if text.len() < 4 {
        return None;
    }
    let third = text[2];
    let fourth = text[3];
    if third < 48 || third > 57 || fourth < 48 || fourth > 57 {
        return None;
    }
    let value = (second as u16 - 48) * 100 + (third as u16 - 48) * 10 + (fourth as u16 - 48);
    if value > 255 {
        return None;
    }
    Some((Letter::Kept(value as u8), 4))
}
