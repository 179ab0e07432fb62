//! Where runs of octets of one kind end.

ghost use Rattle.std.specs.Prelude.{◌≡◌, ◌-◌, ◌<◌, ◌≤◌, ℕ, true, length, drop, slice_index, IsUtf8};
ghost use Rattle.std.specs.List.{prefix_len};
ghost use Rattle.dns_tokens.specs.{Octets.is_blank, Octets.is_line_end, Octets.is_gap, Octets.ends_run, Octets.Span, Kinds.is_of};

use crate::text::quiet::quiet_len;

/// Whether an octet is a space or a tab.
#[inline]
pub fn is_blank(octet: u8) -> bool
    ensures { result ≡ is_blank octet }
{
    octet == 32 || octet == 9
}

/// Whether an octet ends a line: LF or CR.
#[inline]
pub fn is_line_end(octet: u8) -> bool
    ensures { result ≡ is_line_end octet }
{
    octet == 10 || octet == 13
}

/// Whether an octet separates words: a blank or a line end.
#[inline]
pub fn is_gap(octet: u8) -> bool
    ensures { result ≡ is_gap octet }
{
    is_blank(octet) || is_line_end(octet)
}

/// Whether an octet ends a run: a blank, a line end, `)` or `;`.
#[inline]
fn ends_run(octet: u8) -> bool
    ensures { result ≡ ends_run octet }
{
    is_gap(octet) || octet == 41 || octet == 59
}

/// A kind of octets.
#[derive(Clone, Copy)]
pub enum Kind {
    /// Spaces and tabs.
    Blank,
    /// Blanks and line ends.
    Gap,
    /// `0` to `9`.
    Digit,
    /// All but line ends.
    Line,
    /// All but blanks, line ends, `)` and `;`.
    Run,
    /// All but `"` and `\`.
    Plain,
    /// All but `\` and `,`.
    Segment,
}

// Whether an octet is of this kind.
#[inline(always)]
fn is_of(kind: Kind, octet: u8) -> bool
    ensures { result ≡ is_of kind octet }
{
    match kind {
        Kind::Blank => is_blank(octet),
        Kind::Gap => is_gap(octet),
        Kind::Digit => octet.is_ascii_digit(),
        Kind::Line => !is_line_end(octet),
        Kind::Run => !ends_run(octet),
        Kind::Plain => !(octet == 34 || octet == 92),
        Kind::Segment => !(octet == 92 || octet == 44),
    }
}

// How many octets at the front are of this kind and need no look one by one.
#[inline(always)]
fn quiet_front(kind: Kind, octets: &[u8]) -> usize
    ensures within { result ≤ length octets.now }
    ensures kind { (k : ℕ) → k < result → is_of kind (slice_index octets.now k) ≡ true }
{
    match kind {
        Kind::Line => quiet_len(b'\r', b'\r', b'\r', octets),
        Kind::Run => quiet_len(b')', b';', b';', octets),
        Kind::Plain => quiet_len(0, b'"', b'\\', octets),
        Kind::Segment => quiet_len(0, b'\\', b',', octets),
        _ => 0,
    }
}

// How many octets at the front of a text are of this kind.
#[inline(always)]
fn front_len(kind: Kind, text: &str) -> usize
    ensures { result ≡ prefix_len (is_of kind) text.now }
{
    let octets = text.as_bytes();
    let len = quiet_front(kind, octets);
    len + looked_at(kind, &octets[len..])
}

// The same, octet by octet.
#[inline(always)]
fn looked_at(kind: Kind, octets: &[u8]) -> usize
    ensures len { result ≡ prefix_len (is_of kind) octets.now }
    ensures within { result ≤ length octets.now }
{
    octets.iter().take_while(|c| is_of(kind, **c)).count()
}

/// The octets of this kind that a text begins with, and the rest.
#[inline(always)]
pub fn split(kind: Kind, text: &str) -> (&str, &str)
    ensures span { Span (is_of kind) result.0.now text.now result.1.now }
    ensures utf8 { IsUtf8 result.1.now }
{
    text.split_at(front_len(kind, text))
}

/// The text after its first `n` octets, of which the last is ASCII.
#[inline]
pub fn behind(text: &str, n: usize) -> &str
    requires some { 0 < n }
    requires within { n ≤ length text.now }
    requires ascii { slice_index text.now (n - 1) < 128 }
    ensures { result.now ≡ drop n text.now }
{
    &text[n..]
}

/// The octet of a text at an index.
#[inline]
pub fn octet(text: &str, index: usize) -> u8
    requires { index < length text.now }
    ensures { result ≡ slice_index text.now index }
{
    text.as_bytes()[index]
}
