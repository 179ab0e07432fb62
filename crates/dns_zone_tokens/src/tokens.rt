//! The tokens of a text of a zone file (RFC 1035, section 5.1).

ghost use Rattle.std.specs.Prelude.{◌≡◌, ℕ, ◌<◌, ◌≤◌, ◌∷◌, false, true, [], length, slice_index, Ok, Err, IfSome, IfNone, IfOk, IfErr, OnOk, OnErr};
ghost use Rattle.std.specs.Bool.{OnTrue};
ghost use Rattle.dns_tokens.specs.Quiet.{IsQuiet};
ghost use Rattle.dns_zone_tokens.specs.{Spans.lefts_at, Spans.lefts_from, Views.token_value};
ghost use Rattle.dns_zone_tokens.specs.Tokens.{begins_gap, ends_run, between, comment, over, over_comment, tokens_read_from, tokens_at, seen_from, seen_at};
ghost use Rattle.dns_zone_tokens.specs.Tokens.{quotes, with_token, zone_tokens};
ghost use Rattle.dns_zone_tokens.specs.TokenSteps.{NoGap, RunTaken, QuotesTaken, QuotesRefused};

use crate::letter::Letters;
use crate::tokens_error::TokensError;
use dns_tokens::{is_blank, is_line_end, quiet_len};
use std::marker::Model;

/// A token of a text, as the text has it.
#[derive(Clone, Copy)]
pub struct ZoneToken<'a> {
    /// The token's octets with their escapes, without the quotes around them.
    pub raw: &'a [u8],
    /// Whether it is in quotes.
    pub quoted: bool,
    /// Whether it directly follows another token, as the second does in `alpn="h2"`.
    pub joined: bool,
}

impl<'a> ZoneToken<'a> {
    /// Its octets with their escapes resolved.
    #[inline]
    pub fn letters(&self) -> Letters<'a>
        ensures { result ≡ self.now.raw.now }
    {
        Letters::new(self.raw)
    }
}

/// The tokens of the text of one record's RDATA, one by one. Allocates nothing.
///
/// - Blanks (space, tab), line ends (LF, CR, CR LF), comments (`;` to the end of the line) and parentheses separate
///   tokens. The text ends at the first line end outside of parentheses; after it there may be only blanks, line ends
///   and comments. Parentheses may be nested.
/// - `"` begins a string, which goes on to the next `"` without a `\` before it. It may have any octet but a line feed
///   without a `\` before it.
/// - Any other token goes on to a blank, a line end, `"`, `(`, `)` or `;`. After a `\` none of these but a line end
///   ends it.
#[derive(Drop)]
pub struct ZoneTokens<'a> {
    rest: &'a [u8],
    // how many parentheses are open
    depth: usize,
    // whether a token ends right here
    joined: bool,
}

impl<'a> Model for ZoneTokens<'a> {
    ghost use Rattle.std.specs.Prelude.{◌+◌, ◌<◌, ◌^◌, length};
    ghost use Rattle.dns_zone_tokens.specs.Tokens.{Cursor};

    ghost Value = { Cursor };

    ghost view = { λ w. record { depth = w.depth; joined = w.joined; text = w.rest.now } };

    ghost invariant = { λ w. w.depth + length w.rest.now < 2 ^ 64 };
}

impl<'a> ZoneTokens<'a> {
    /// Starts at the front of a text.
    #[inline]
    pub fn new(text: &'a [u8]) -> ZoneTokens<'a>
        ensures tokens { tokens_at result ≡ zone_tokens text.now }
        ensures seen { seen_at result ≡ seen_from (between 0 false) text.now }
        ensures text { result.text ≡ text.now }
        ensures left { lefts_at result ≡ lefts_from (between 0 false) text.now }
    {
        ZoneTokens {
            rest: text,
            depth: 0,
            joined: false,
        }
    }

    /// Takes the next token; `None` if there is none. An error changes nothing.
    #[inline(always)]
    pub fn next_token(&mut self) -> Result<Option<ZoneToken<'a>>, TokensError>
        ensures token { IfOk result (λ o. IfSome o (λ w. tokens_at self.old ≡ with_token (token_value w) (tokens_at self.new))) }
        ensures seen { IfOk result (λ o. IfSome o (λ w. seen_at self.old ≡ token_value w ∷ seen_at self.new)) }
        ensures shorter { IfOk result (λ o. IfSome o (λ _. length self.new.text < length self.old.text)) }
        ensures end { IfOk result (λ o. IfNone o (tokens_at self.old ≡ Ok [])) }
        ensures end_seen { IfOk result (λ o. IfNone o (seen_at self.old ≡ [])) }
        ensures refused { IfErr result (λ e. tokens_at self.old ≡ Err e) }
        ensures none_seen { OnErr result (seen_at self.old ≡ []) }
        ensures unchanged { OnErr result (self.new ≡ self.old) }
        ensures stays { IfOk result (λ o. IfNone o (self.new ≡ self.old)) }
    {
        if self.is_over() {
            return Ok(None);
        }
        match self.next_near() {
            Some(token) => Ok(Some(token)),
            None => self.next_other(),
        }
    }

    /// Takes the next token if it directly follows the one before or one blank, as most do. `None` says nothing of the
    /// text, and changes nothing.
    #[inline(always)]
    pub fn next_near(&mut self) -> Option<ZoneToken<'a>>
        ensures token { IfSome result (λ w. tokens_at self.old ≡ with_token (token_value w) (tokens_at self.new)) }
        ensures seen { IfSome result (λ w. seen_at self.old ≡ token_value w ∷ seen_at self.new) }
        ensures shorter { IfSome result (λ _. length self.new.text < length self.old.text) }
        ensures stays { IfNone result (self.new ≡ self.old) }
    {
        match near_token(self.rest, self.joined) {
            Some((token, rest)) => {
                self.rest = rest;
                self.joined = true;
                Some(token)
            }
            None => None,
        }
    }

    // Does the same, whatever comes first, and makes all errors.
    #[inline(never)]
    fn next_other(&mut self) -> Result<Option<ZoneToken<'a>>, TokensError>
        ensures token { IfOk result (λ o. IfSome o (λ w. tokens_at self.old ≡ with_token (token_value w) (tokens_at self.new))) }
        ensures seen { IfOk result (λ o. IfSome o (λ w. seen_at self.old ≡ token_value w ∷ seen_at self.new)) }
        ensures shorter { IfOk result (λ o. IfSome o (λ _. length self.new.text < length self.old.text)) }
        ensures end { IfOk result (λ o. IfNone o (tokens_at self.old ≡ Ok [])) }
        ensures end_seen { IfOk result (λ o. IfNone o (seen_at self.old ≡ [])) }
        ensures refused { IfErr result (λ e. tokens_at self.old ≡ Err e) }
        ensures none_seen { OnErr result (seen_at self.old ≡ []) }
        ensures unchanged { OnErr result (self.new ≡ self.old) }
        ensures stays { IfOk result (λ o. IfNone o (self.new ≡ self.old)) }
    {
        let at = self.again().skip_gaps()?;
        if at.rest.len() == 0 {
            return if at.depth > 0 {
                Err(TokensError::OpenParenthesis)
            } else {
                Ok(None)
            };
        }
        let depth = at.depth;
        let (token, rest) = at.first_token()?;
        self.rest = rest;
        self.depth = depth;
        self.joined = true;
        Ok(Some(token))
    }

    /// Takes the next token, and returns how many octets of the text are left where it starts, its opening quote
    /// included, and how many are left after it. `None` if no token is left, or if the rest cannot be divided into
    /// tokens.
    pub fn next_left(&mut self) -> Option<(usize, usize)>
        ensures some { IfSome result (λ left. lefts_at self.old ≡ left ∷ lefts_at self.new) }
        ensures none { IfNone result (lefts_at self.old ≡ []) }
        ensures within { IfSome result (λ left. left.0 ≤ length self.old.text) }
        ensures after { IfSome result (λ left. left.1 ≤ left.0) }
        ensures shorter { length self.new.text ≤ length self.old.text }
    {
        let at = self.again().skip_gaps().ok()?;
        let left = at.rest.len();
        if left == 0 {
            return None;
        }
        let depth = at.depth;
        let (_, rest) = at.first_token().ok()?;
        self.rest = rest;
        self.depth = depth;
        self.joined = true;
        Some((left, rest.len()))
    }

    /// Makes a copy that continues at the same offset.
    #[inline]
    pub fn again(&self) -> ZoneTokens<'a>
        ensures { result ≡ self.now }
    {
        ZoneTokens {
            rest: self.rest,
            depth: self.depth,
            joined: self.joined,
        }
    }

    /// Returns whether no octet is left, outside of parentheses. Then no token is left; `false` says nothing.
    #[inline]
    pub fn is_over(&self) -> bool
        ensures none { OnTrue result (tokens_at self.now ≡ Ok []) }
        ensures none_seen { OnTrue result (seen_at self.now ≡ []) }
    {
        self.rest.len() == 0 && self.depth == 0
    }

    /// Returns how many octets of the text are left.
    #[inline]
    pub fn octets_left(&self) -> usize
        ensures { result ≡ length self.now.text }
    {
        self.rest.len()
    }

    // The remaining tokens, from the first octet of the next one on.
    fn skip_gaps(self) -> Result<ZoneTokens<'a>, TokensError>
        ensures same { IfOk result (λ w. tokens_at w ≡ tokens_at self.entry) }
        ensures same_seen { IfOk result (λ w. seen_at w ≡ seen_at self.entry) }
        ensures same_left { IfOk result (λ w. lefts_at w ≡ lefts_at self.entry) }
        ensures none_seen { OnErr result (seen_at self.entry ≡ []) }
        ensures none_left { OnErr result (lefts_at self.entry ≡ []) }
        ensures at { IfOk result (λ w. NoGap w.text) }
        ensures shorter { IfOk result (λ w. length w.text ≤ length self.entry.text) }
        ensures refused { IfErr result (λ e. tokens_at self.entry ≡ Err e) }
    {
        let ZoneTokens {
            mut rest,
            mut depth,
            mut joined,
        } = self;
        'gaps: while rest.len() > 0 && begins_gap(rest[0]) {
            let first = rest[0];
            rest = &rest[1..];
            joined = false;
            if first == b';' {
                rest = behind_comment(rest);
            } else if first == b'(' {
                depth += 1;
            } else if first == b')' {
                if depth == 0 {
                    return Err(TokensError::NoParenthesis);
                }
                depth -= 1;
            } else if is_line_end(first) && depth == 0 {
                line_is_over(rest)?;
                rest = &rest[rest.len()..];
            }
        }
        Ok(ZoneTokens {
            rest,
            depth,
            joined,
        })
    }

    // The first token, and the text after it.
    fn first_token(self) -> Result<(ZoneToken<'a>, &'a [u8]), TokensError>
        requires some { 0 < length self.text }
        requires no_gap { NoGap self.text }
        ensures token { IfOk result (λ r. tokens_at self.entry ≡ with_token (token_value r.0) (tokens_read_from (between self.entry.depth true) r.1.now)) }
        ensures seen { IfOk result (λ r. seen_at self.entry ≡ token_value r.0 ∷ seen_from (between self.entry.depth true) r.1.now) }
        ensures left { IfOk result (λ r. lefts_at self.entry ≡ (length self.entry.text, length r.1.now) ∷ lefts_from (between self.entry.depth true) r.1.now) }
        ensures shorter { IfOk result (λ r. length r.1.now < length self.entry.text) }
        ensures refused { IfErr result (λ e. tokens_at self.entry ≡ Err e) }
        ensures none_seen { OnErr result (seen_at self.entry ≡ []) }
        ensures none_left { OnErr result (lefts_at self.entry ≡ []) }
    {
        let rest = self.rest;
        if rest[0] == b'"' {
            let behind = &rest[1..];
            let len = quoted_len(behind)?;
            let token = ZoneToken {
                raw: &behind[..len],
                quoted: true,
                joined: self.joined,
            };
            return Ok((token, &behind[len + 1..]));
        }
        let len = run_len(rest);
        let token = ZoneToken {
            raw: &rest[..len],
            quoted: false,
            joined: self.joined,
        };
        Ok((token, &rest[len..]))
    }
}

// Whether an octet separates tokens, or begins what separates them: a blank, a line end, `(`, `)` or `;`.
#[inline]
fn begins_gap(octet: u8) -> bool
    ensures { result ≡ begins_gap octet }
{
    is_blank(octet) || is_line_end(octet) || octet == b'(' || octet == b')' || octet == b';'
}

#[inline]
fn ends_run(octet: u8) -> bool
    ensures { result ≡ ends_run octet }
{
    begins_gap(octet) || octet == b'"'
}

// The text after a comment: the next line end, and all after it.
#[inline]
fn behind_comment(text: &[u8]) -> &[u8]
    ensures within { (depth : ℕ) → tokens_read_from (comment depth) text.now ≡ tokens_read_from (between depth false) result.now }
    ensures seen { (depth : ℕ) → seen_from (comment depth) text.now ≡ seen_from (between depth false) result.now }
    ensures left { (depth : ℕ) → lefts_from (comment depth) text.now ≡ lefts_from (between depth false) result.now }
    ensures over { tokens_read_from over_comment text.now ≡ tokens_read_from over result.now }
    ensures shorter { length result.now ≤ length text.now }
{
    let mut rest = text;
    'octets: while rest.len() > 0 && !is_line_end(rest[0]) {
        rest = &rest[1..];
    }
    rest
}

// The first token and the text after it, if it follows one blank or none, as most do. `None` also where its quotes have no
// end, say: `next_other` then finds the error.
#[inline(always)]
fn near_token<'a>(text: &'a [u8], joined: bool) -> Option<(ZoneToken<'a>, &'a [u8])>
    ensures seen { IfSome result (λ r. (depth : ℕ) → seen_from (between depth joined) text.now ≡ token_value r.0 ∷ seen_from (between depth true) r.1.now) }
    ensures token { IfSome result (λ r. (depth : ℕ) → tokens_read_from (between depth joined) text.now ≡ with_token (token_value r.0) (tokens_read_from (between depth true) r.1.now)) }
    ensures shorter { IfSome result (λ r. length r.1.now < length text.now) }
{
    let (rest, is_joined) = behind_blank(text, joined);
    if rest.len() == 0 {
        return None;
    }
    if rest[0] == b'"' {
        return quoted_token(&rest[1..], is_joined);
    }
    if begins_gap(rest[0]) {
        return None;
    }
    let len = run_len(rest);
    let token = ZoneToken {
        raw: &rest[..len],
        quoted: false,
        joined: is_joined,
    };
    Some((token, &rest[len..]))
}

// The token of the octets before the `"` that closes the quotes, and the text after it; `None` if nothing closes them.
#[inline(always)]
fn quoted_token<'a>(text: &'a [u8], joined: bool) -> Option<(ZoneToken<'a>, &'a [u8])>
    ensures seen { IfSome result (λ r. (depth : ℕ) → seen_from (quotes depth joined []) text.now ≡ token_value r.0 ∷ seen_from (between depth true) r.1.now) }
    ensures token { IfSome result (λ r. (depth : ℕ) → tokens_read_from (quotes depth joined []) text.now ≡ with_token (token_value r.0) (tokens_read_from (between depth true) r.1.now)) }
    ensures shorter { IfSome result (λ r. length r.1.now < length text.now) }
{
    let len = quoted_len(text).ok()?;
    let token = ZoneToken {
        raw: &text[..len],
        quoted: true,
        joined,
    };
    Some((token, &text[len + 1..]))
}

// The text without the blank that it begins with, if it does, and whether a token then ends right there.
#[inline(always)]
fn behind_blank(text: &[u8], joined: bool) -> (&[u8], bool)
    ensures same { (depth : ℕ) → tokens_read_from (between depth joined) text.now ≡ tokens_read_from (between depth result.1) result.0.now }
    ensures same_seen { (depth : ℕ) → seen_from (between depth joined) text.now ≡ seen_from (between depth result.1) result.0.now }
    ensures shorter { length result.0.now ≤ length text.now }
{
    if text.len() > 0 && text[0] == b' ' {
        return (&text[1..], false);
    }
    (text, joined)
}

// How many octets the first token has, if it is not in quotes.
#[inline(always)]
fn run_len(text: &[u8]) -> usize
    requires some { 0 < length text.now }
    requires begins { ends_run (slice_index text.now 0) ≡ false }
    ensures some { 1 ≤ result }
    ensures token { RunTaken text.now result }
    ensures within { result ≤ length text.now }
{
    let at = quiet_run_len(text);
    if at == text.len() || ends_run(text[at]) {
        return at;
    }
    run_len_from(text, at)
}

// How many octets at the front of a token without quotes need no look.
#[inline(always)]
fn quiet_run_len(text: &[u8]) -> usize
    ensures within { result ≤ length text.now }
    ensures quiet { (k : ℕ) → k < result → IsQuiet 41 59 92 (slice_index text.now k) }
{
    if text.len() < 16 {
        return short_quiet_run_len(text);
    }
    // `)` is the greatest octet that ends a token, except `;`.
    quiet_len(b')', b';', b'\\', text)
}

// The same of a text of few octets, in one place.
#[inline(never)]
fn short_quiet_run_len(text: &[u8]) -> usize
    ensures within { result ≤ length text.now }
    ensures quiet { (k : ℕ) → k < result → IsQuiet 41 59 92 (slice_index text.now k) }
{
    quiet_len(b')', b';', b'\\', text)
}

// The same as `run_len`, after octets of the token that need no look.
#[inline(never)]
fn run_len_from(text: &[u8], start: usize) -> usize
    requires some { 0 < length text.now }
    requires begins { ends_run (slice_index text.now 0) ≡ false }
    requires within { start ≤ length text.now }
    requires quiet { (k : ℕ) → k < start → IsQuiet 41 59 92 (slice_index text.now k) }
    ensures some { 1 ≤ result }
    ensures token { RunTaken text.now result }
    ensures within { result ≤ length text.now }
{
    let mut at = start;
    'octets: while at < text.len() && !ends_run(text[at]) {
        let behind = at + 1;
        if text[at] == b'\\' && behind < text.len() && !is_line_end(text[behind]) {
            at += 2;
        } else {
            at += 1;
        }
    }
    at
}

// How many octets are before the `"` that closes the quotes.
fn quoted_len(text: &[u8]) -> Result<usize, TokensError>
    ensures token { IfOk result (QuotesTaken text.now) }
    ensures within { IfOk result (λ n. n < length text.now) }
    ensures refused { IfErr result (QuotesRefused text.now) }
{
    let mut at = quiet_len(b'\n', b'"', b'\\', text);
    'octets: while at < text.len() && text[at] != b'"' {
        if text[at] == 10 {
            return Err(TokensError::LineInQuotes);
        }
        if text[at] == b'\\' && at + 1 < text.len() {
            // After an escaped number another one is likely, and its `\` is near.
            let is_number = text[at + 1].is_ascii_digit();
            at += 2;
            if !is_number {
                at += quiet_behind_escape(&text[at..]);
            }
        } else {
            at += 1;
        }
    }
    if at == text.len() {
        return Err(TokensError::OpenQuotes);
    }
    Ok(at)
}

// How many octets in quotes, after a `\` and a character, need no look. Few strings have such an escape, so this is not
// inlined.
#[inline(never)]
fn quiet_behind_escape(text: &[u8]) -> usize
    ensures within { result ≤ length text.now }
    ensures quiet { (k : ℕ) → k < result → IsQuiet 10 34 92 (slice_index text.now k) }
{
    quiet_len(b'\n', b'"', b'\\', text)
}

// After the end of the line only blanks, line ends and comments may be left.
#[tactic(auto, using(crate::proofs::TokenSteps::further, crate::proofs::TokenSteps::over_left, crate::proofs::TokenSteps::over_seen))]
fn line_is_over(text: &[u8]) -> Result<(), TokensError>
    ensures ok { OnOk result (tokens_read_from over text.now ≡ Ok []) }
    ensures none_seen { seen_from over text.now ≡ [] }
    ensures none_left { lefts_from over text.now ≡ [] }
    ensures refused { IfErr result (λ e. tokens_read_from over text.now ≡ Err e) }
{
    let mut rest = text;
    'gaps: while rest.len() > 0 {
        let first = rest[0];
        rest = &rest[1..];
        if first == b';' {
            rest = behind_comment(rest);
        } else if !is_blank(first) && !is_line_end(first) {
            return Err(TokensError::FurtherLine);
        }
    }
    Ok(())
}
