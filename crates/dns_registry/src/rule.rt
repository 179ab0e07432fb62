//! What an RFC asks of a field beyond its kind, as the field is encoded.

ghost use Rattle.std.specs.Prelude.{◌≡◌, ◌↔◌, ◌+◌, ◌≤◌, ℕ, List, true, length};
ghost use Rattle.dns_fields.specs.{declared.Kind.Kind as FieldKind, declared.Kind.TheVariants.Number, Fields.Value, Fields.Field};
ghost use Rattle.dns_fields.specs.declared.Kind.{TheVariants.CharacterString, TheVariants.CharacterStrings, TheVariants.Rest, TheVariants.Name};
ghost use Rattle.std.specs.{List.flat_map, List.list_all, Char.is_ascii_alphanumeric, Char.is_ascii_digit};
ghost use Rattle.dns_fields.specs.{Labels.DomainName, Labels.wire, Names.IsNameIn, Octets.At, Tlvs.string};
ghost use Rattle.dns_fields.specs.declared.Kind.{TheVariants.Bitmap};
ghost use Rattle.dns_view.specs.Shown.{Shows};
ghost use Rattle.dns_registry.specs.FieldRules.{Passes, IsShortestBitmap, IsPrecision, AreOldTypes};

use crate::hosts::is_host_identity;
use crate::keys::{is_key_and_other, is_mac_and_other};
use crate::prefixes::are_prefixes;
use dns_check::bitmap::block_len;
use dns_check::tlvs::are_complete;
use dns_names_wire::name_ends::skip_run;
use dns_view::FieldRef;

/// What an RFC asks of a field beyond its kind, as the field is encoded.
#[derive(Clone, Copy, Debug, PartialEq, Eq)]
pub enum FieldRule {
    /// Nothing.
    Free,
    /// A name that is not compressed: names of types that came after RFC 1035, but for those that RFC 3597, section 4, lists.
    Uncompressed,
    /// A bitmap of types in its shortest form: the windows rise, and none ends with a zero octet (RFC 4034, 4.1.2).
    ShortestBitmap,
    /// The same, and there is a window (NSEC: RFC 4034, 4.1.2).
    SomeTypes,
    /// One bit for each of the types 1 to 127: 1 to 16 octets, of which the first has its highest bit clear, and the last one is not
    /// zero (NXT: RFC 2535, 5.2).
    OldTypes,
    /// Options of EDNS, each whole: a code, a length, and so many octets (RFC 6891, 6.1.2).
    Options,
    /// Address prefixes, each whole: a family, a prefix, one bit, a length, and so many octets (APL: RFC 3123, 4). Those of families 1
    /// and 2 have no more bits and octets than an address, and no zero octet at the end.
    Prefixes,
    /// The RDATA of HIP: two lengths with an algorithm between them, a HIT and a key of these lengths, of at least one octet each, and
    /// uncompressed names (RFC 8005, 5).
    HostIdentity,
    /// The end of TKEY: a key and other data, each after its length in two octets (RFC 2930, 2).
    KeyAndOther,
    /// The end of TSIG: a MAC after its length in two octets, an id, an error, and other data after its length (RFC 8945, 4.2).
    MacAndOther,
    /// At least so many octets.
    AtLeast(u8),
    /// A number from the first to the second.
    Within(u32, u32),
    /// A precision of LOC: a digit and a power of ten, each at most 9, and the power is 0 if the digit is (RFC 1876, 2).
    Precision,
    /// So many character strings, from the first number to the second.
    Count(u16, u16),
    /// At least one letter or digit of ASCII, and nothing else (CAA's tag: RFC 8659, 4.1).
    Letters,
    /// At least four decimal digits, and nothing else (X25's address: RFC 1183, 3.1).
    Digits,
}

// Returns whether the name at an offset, which is encoded there, is not compressed.
fn is_uncompressed(message: &[u8], offset: usize) -> bool
    ensures { (x : DomainName) (q : ℕ) → IsNameIn message.now offset x q →
        (result ≡ true) ↔ (q ≡ offset + length (wire x.labels) + 1) }
{
    if message.len() < offset {
        return false;
    }
    match skip_run(message, offset, 0) {
        Some(run) => match run.next {
            Some(_) => false,
            None => true,
        },
        None => false,
    }
}

// Returns whether octets are a bitmap of types in its shortest form.
fn is_shortest(octets: &[u8]) -> bool
    ensures { (result ≡ true) ↔ IsShortestBitmap octets.now }
{
    let mut rest = octets;
    let mut least = 0;
    'windows: while rest.len() > 0 {
        let Some(len) = block_len(rest) else {
            return false;
        };
        let number = rest[0] as usize;
        if number < least {
            return false;
        }
        if rest[1 + len] == 0 {
            return false;
        }
        least = number + 1;
        rest = &rest[2 + len..];
    }
    true
}

// Returns whether each octet is a letter or a digit of ASCII.
fn are_letters(octets: &[u8]) -> bool
    ensures { result ≡ list_all is_ascii_alphanumeric octets.now }
{
    octets.iter().all(|c| c.is_ascii_alphanumeric())
}

// Returns whether each octet is a digit of ASCII.
fn are_digits(octets: &[u8]) -> bool
    ensures { result ≡ list_all is_ascii_digit octets.now }
{
    octets.iter().all(|c| c.is_ascii_digit())
}

// Returns how many character strings fill the octets.
fn count_strings(octets: &[u8]) -> usize
    ensures { (v : List (List ℕ)) → octets.now ≡ flat_map string v → result ≡ length v }
{
    let mut offset = 0;
    let mut count = 0;
    'strings: while offset < octets.len() {
        offset += octets[offset] as usize + 1;
        count += 1;
    }
    count
}

// Returns whether a number is a precision of LOC.
fn is_precision(number: u32) -> bool
    ensures { (result ≡ true) ↔ IsPrecision number }
{
    let digit = number / 16;
    let power = number % 16;
    if digit > 9 || power > 9 {
        return false;
    }
    digit > 0 || power == 0
}

fn number_passes(rule: FieldRule, number: u32) -> bool
    ensures { (m : List ℕ) (p w q : ℕ) → (result ≡ true) ↔ Passes rule m p (Number w) number q }
{
    match rule {
        FieldRule::Within(low, high) => low <= number && number <= high,
        FieldRule::Precision => is_precision(number),
        _ => true,
    }
}

fn string_passes(rule: FieldRule, text: &[u8]) -> bool
    ensures { (m : List ℕ) (p q : ℕ) → (result ≡ true) ↔ Passes rule m p CharacterString text.now q }
{
    match rule {
        FieldRule::AtLeast(count) => text.len() >= count as usize,
        FieldRule::Letters => {
            if text.len() < 1 {
                return false;
            }
            are_letters(text)
        }
        FieldRule::Digits => {
            if text.len() < 4 {
                return false;
            }
            are_digits(text)
        }
        _ => true,
    }
}

fn strings_pass(rule: FieldRule, octets: &[u8]) -> bool
    ensures { (m : List ℕ) (p : ℕ) (v : List (List ℕ)) (q : ℕ) → octets.now ≡ flat_map string v →
        (result ≡ true) ↔ Passes rule m p CharacterStrings v q }
{
    match rule {
        FieldRule::Count(low, high) => {
            let count = count_strings(octets);
            low as usize <= count && count <= high as usize
        }
        _ => true,
    }
}

// Returns whether octets are the types of NXT.
fn are_old_types(octets: &[u8]) -> bool
    ensures { (result ≡ true) ↔ AreOldTypes octets.now }
{
    if octets.len() < 1 || octets.len() > 16 {
        return false;
    }
    if octets[0] >= 128 {
        return false;
    }
    if octets[octets.len() - 1] == 0 {
        return false;
    }
    true
}

fn rest_passes(rule: FieldRule, octets: &[u8]) -> bool
    ensures { (m : List ℕ) (p q : ℕ) → (result ≡ true) ↔ Passes rule m p Rest octets.now q }
{
    match rule {
        FieldRule::AtLeast(count) => octets.len() >= count as usize,
        FieldRule::OldTypes => are_old_types(octets),
        FieldRule::Options => are_complete(octets),
        FieldRule::Prefixes => are_prefixes(octets),
        FieldRule::KeyAndOther => is_key_and_other(octets),
        FieldRule::MacAndOther => is_mac_and_other(octets),
        FieldRule::HostIdentity => is_host_identity(octets),
        _ => true,
    }
}

fn name_passes(rule: FieldRule, message: &[u8], offset: usize) -> bool
    ensures { (x : DomainName) (q : ℕ) → IsNameIn message.now offset x q →
        (result ≡ true) ↔ Passes rule message.now offset Name x q }
{
    match rule {
        FieldRule::Uncompressed => is_uncompressed(message, offset),
        _ => true,
    }
}

fn bitmap_passes(rule: FieldRule, octets: &[u8]) -> bool
    ensures { (m : List ℕ) (p : ℕ) (v : List ℕ) (q : ℕ) → At m p octets.now q →
        (result ≡ true) ↔ Passes rule m p Bitmap v q }
{
    match rule {
        FieldRule::ShortestBitmap => is_shortest(octets),
        FieldRule::SomeTypes => {
            if octets.len() == 0 {
                return false;
            }
            is_shortest(octets)
        }
        _ => true,
    }
}

/// Returns whether a field of a message that a view shows is encoded as a rule asks.
pub fn passes(message: &[u8], rule: FieldRule, field: &FieldRef<'_>) -> bool
    ensures { (p : ℕ) (k : FieldKind) (v : Value k) (q : ℕ) → Field message.now p k v q → Shows message.now p field.now k v q →
        (result ≡ true) ↔ Passes rule message.now p k v q }
{
    match field {
        FieldRef::Number(number) => number_passes(rule, *number),
        FieldRef::Name(name) => name_passes(rule, message, name.offset()),
        FieldRef::CharacterString(text) => string_passes(rule, *text),
        FieldRef::CharacterStrings(octets) => strings_pass(rule, *octets),
        FieldRef::Rest(octets) => rest_passes(rule, *octets),
        FieldRef::Bitmap(octets) => bitmap_passes(rule, *octets),
        _ => true,
    }
}
