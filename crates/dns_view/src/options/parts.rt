//! Options of EDNS, given by their octets in a message (RFC 6891, 6.1.2): the option at an offset, and its canonical octets.

ghost use Rattle.std.specs.Prelude.{◌≡◌, ◌+◌, ◌^◌, ◌<◌, ◌≤◌, [], ◌∷◌, ◌++◌, length, get_or};
ghost use Rattle.std.specs.Int.{bytes_high_first};
ghost use Rattle.std.specs.{Cmp.Lexicographic.slice_cmp, Ordering.nat_cmp};
ghost use Rattle.dns_view.specs.{Putting.Put, OptionOctets.option_at as octets_at, OptionOctets.own_octets, OptionOctets.is_subnet as has_subnet};
ghost use Rattle.dns_view.specs.OptionOctets.{own_at};

use crate::put::put_octets;
use dns_canonical::order::octets_cmp;
use std::cmp::Ordering;

/// The octets of the option at an offset: code, length and value; none if the octets end inside it.
#[inline]
pub(crate) fn option_at(octets: &[u8], offset: usize) -> &[u8]
    ensures { result.now ≡ octets_at octets.now offset }
{
    let len = octets.len();
    if offset > len {
        return &octets[..0];
    }
    if len - offset < 4 {
        return &octets[..0];
    }
    let size = u16::from_be_bytes([octets[offset + 2], octets[offset + 3]]) as usize;
    if len - offset - 4 < size {
        return &octets[..0];
    }
    &octets[offset..offset + 4 + size]
}

// Returns whether an option is a client subnet (RFC 7871, 6) with all octets that its source prefix asks for.
#[inline]
fn is_subnet(part: &[u8]) -> bool
    ensures { result ≡ has_subnet part.now }
{
    part.len() >= 8 && part[0] == 0 && part[1] == 8 && part.len() >= 8 + (part[6] as usize + 7) / 8
}

// The canonical octets of an option, in two parts: its code and length, and its value.
#[inline]
fn parts_of(part: &[u8]) -> ([u8; 4], &[u8])
    requires { 4 ≤ length part.now }
    ensures octets { own_octets part.now ≡ result.0 ++ result.1.now }
    ensures head { length result.0 ≡ 4 }
    ensures few { 4 + length result.1.now ≤ length part.now }
{
    if is_subnet(part) {
        let size = 4 + (part[6] as usize + 7) / 8;
        return ([0, 8, 0, size as u8], &part[4..4 + size]);
    }
    ([part[0], part[1], part[2], part[3]], &part[4..])
}

// The code of an option.
#[inline]
fn code_of(part: &[u8]) -> u16
    requires { 2 ≤ length part.now }
    ensures { bytes_high_first 2 result ≡ get_or part.now 0 0 ∷ get_or part.now 1 0 ∷ [] }
{
    u16::from_be_bytes([part[0], part[1]])
}

// Orders two options by their canonical octets, whatever their codes are.
#[inline(never)]
fn compare_whole(a: &[u8], b: &[u8]) -> Ordering
    requires first { 4 ≤ length a.now }
    requires second { 4 ≤ length b.now }
    ensures { result ≡ slice_cmp nat_cmp (own_octets a.now) (own_octets b.now) }
{
    let (head, body) = parts_of(a);
    let (other, others) = parts_of(b);
    match octets_cmp(&head, &other) {
        Ordering::Equal => octets_cmp(body, others),
        order => order,
    }
}

// Orders two options by their canonical octets. Most options differ in their codes.
#[inline]
fn compare_parts(a: &[u8], b: &[u8]) -> Ordering
    ensures { result ≡ slice_cmp nat_cmp (own_octets a.now) (own_octets b.now) }
{
    match (a.len() < 4, b.len() < 4) {
        (true, true) => return Ordering::Equal,
        (true, false) => return Ordering::Less,
        (false, true) => return Ordering::Greater,
        (false, false) => {}
    }
    let code = code_of(a);
    let other = code_of(b);
    if code != other {
        return code.cmp(&other);
    }
    compare_whole(a, b)
}

/// Orders the options at two offsets by their canonical octets.
#[inline]
pub(crate) fn compare_at(a: &[u8], i: usize, b: &[u8], j: usize) -> Ordering
    ensures { result ≡ slice_cmp nat_cmp (own_at a.now i) (own_at b.now j) }
{
    compare_parts(option_at(a, i), option_at(b, j))
}

/// Writes the canonical octets of an option, and returns where they end.
pub(crate) fn put_option(out: &mut [u8], at: usize, part: &[u8]) -> usize
    requires room { at + length part.now < 2 ^ 64 }
    ensures put { Put out.old out.new at result (own_octets part.now) }
    ensures few { result ≤ at + length part.now }
{
    if part.len() < 4 {
        return at;
    }
    if !is_subnet(part) {
        return put_octets(out, at, part);
    }
    let (head, body) = parts_of(part);
    let middle = put_octets(out, at, &head);
    put_octets(out, middle, body)
}
