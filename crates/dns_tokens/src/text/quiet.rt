//! Octets at which a reader of a text need not stop, sixteen at a time.

ghost use Rattle.std.specs.Prelude.{◌≤◌, ◌<◌, ℕ, length, slice_index};
ghost use Rattle.dns_tokens.specs.Quiet.{IsQuiet};

use std::simd::prelude::*;

/// Counts the octets at the front of a text that are more than `most` and neither `b` nor `c`, in blocks of sixteen. The
/// last block has the last sixteen octets, some of which the block before may have, too. A text of fewer octets has blocks
/// of eight.
#[inline]
pub fn quiet_len(most: u8, b: u8, c: u8, text: &[u8]) -> usize
    ensures within { result ≤ length text.now }
    ensures quiet { (k : ℕ) → k < result → IsQuiet most b c (slice_index text.now k) }
{
    if text.len() < 16 {
        return quiet_of_few(most, b, c, text);
    }
    let last = text.len() - 16;
    let mut at = 0usize;
    'parts: while at < last {
        let len = quiet_of_sixteen(most, b, c, &text[at..]);
        at += len;
        if len < 16 {
            return at;
        }
    }
    last + quiet_of_sixteen(most, b, c, &text[last..])
}

// The same of a text of fewer than sixteen octets. One of fewer than eight is looked at octet by octet.
#[inline]
fn quiet_of_few(most: u8, b: u8, c: u8, text: &[u8]) -> usize
    requires { length text.now < 16 }
    ensures within { result ≤ length text.now }
    ensures quiet { (k : ℕ) → k < result → IsQuiet most b c (slice_index text.now k) }
{
    if text.len() < 8 {
        let mut at = 0usize;
        'octets: while at < text.len() && text[at] > most && text[at] != b && text[at] != c {
            at += 1;
        }
        return at;
    }
    let len = quiet_of_eight(most, b, c, text);
    if len < 8 {
        return len;
    }
    let last = text.len() - 8;
    last + quiet_of_eight(most, b, c, &text[last..])
}

// How many of the first sixteen octets are before the first at which a reader stops.
#[inline(always)]
fn quiet_of_sixteen(most: u8, b: u8, c: u8, text: &[u8]) -> usize
    requires { 16 ≤ length text.now }
    ensures within { result ≤ 16 }
    ensures quiet { (k : ℕ) → k < result → IsQuiet most b c (slice_index text.now k) }
{
    let octets = u8x16::from_slice(text);
    let low = octets.simd_le(u8x16::splat(most));
    let others = octets.simd_eq(u8x16::splat(b)) | octets.simd_eq(u8x16::splat(c));
    let marks = (low | others).to_bitmask();
    if marks == 0 {
        return 16;
    }
    marks.trailing_zeros() as usize
}

// How many of the first eight octets are before the first at which a reader stops.
#[inline(always)]
fn quiet_of_eight(most: u8, b: u8, c: u8, text: &[u8]) -> usize
    requires { 8 ≤ length text.now }
    ensures within { result ≤ 8 }
    ensures quiet { (k : ℕ) → k < result → IsQuiet most b c (slice_index text.now k) }
{
    let octets = u8x8::from_slice(text);
    let low = octets.simd_le(u8x8::splat(most));
    let others = octets.simd_eq(u8x8::splat(b)) | octets.simd_eq(u8x8::splat(c));
    let marks = (low | others).to_bitmask();
    if marks == 0 {
        return 8;
    }
    marks.trailing_zeros() as usize
}
