//! Strings, TTLs, addresses and record types in tokens.

ghost use Rattle.std.specs.Prelude.{◌≡◌, ◌≢◌, ◌≤◌, ◌<◌, ◌⊎◌, ℕ, false, length, slice_index, IfErr};
ghost use Rattle.dns_fields.specs.Tlvs.{string as string_octets};
ghost use Rattle.std.specs.Net.Addr.{ipv4_octets, ipv6_octets};
ghost use Rattle.dns_tokens.specs.{Forms.ttl, Forms.ipv4, Forms.ipv6, Reads.Decides, Reads.HoldsOfNone};
ghost use Rattle.dns_zone_tokens.specs.{Letters.escapes_stand, Views.token_value, ZoneReads.ReadsAs, ZoneReads.WrongToken, ZoneReads.PutsAs};
ghost use Rattle.dns_zone_tokens.specs.Forms.{bare, string, text, IsType, StringFault, TextFault};

use crate::field::StringField;
use crate::letter::first_letter;
use crate::numbers::decimal;
use crate::tokens::ZoneToken;
use crate::type_names::type_named;
use dns_tokens::quiet_len;
use dns_tokens::texts::ttl_of as ttl_of_text;
use dns_types::{ParseError, RecordType};
use std::net::{Ipv4Addr, Ipv6Addr};
use std::str;

/// Reads a character string of at most 255 octets, in quotes or not, and appends its length and its octets. Any other
/// token gives [`Message`](ParseError::Message) with the field's text: for a `\` that escapes nothing, or else for more
/// than 255 octets. May allocate, as the vector grows.
pub fn put_string(
    octets: &mut Vec<u8>,
    token: ZoneToken<'_>,
    field: &StringField,
) -> Result<(), ParseError>
    ensures puts { PutsAs string string_octets result octets.old.items octets.new.items (token_value token.entry) }
    ensures why { IfErr result (λ e. (e ≡ ParseError.Memory) ⊎ StringFault field.now (token_value token.entry) e) }
{
    let start = octets.len();
    octets.push(0)?;
    put_text(octets, token, field.escape)?;
    let len = octets.len() - start - 1;
    if len > 255 {
        return Err(ParseError::Message(field.long));
    }
    octets.as_mut_slice()[start] = len as u8;
    Ok(())
}

/// Does the same for any number of octets, without a length. If a `\` escapes nothing, returns
/// [`Message`](ParseError::Message) with the text `wrong`.
pub fn put_text(
    octets: &mut Vec<u8>,
    token: ZoneToken<'_>,
    wrong: &'static str,
) -> Result<(), ParseError>
    ensures puts { PutsAs text (λ x. x) result octets.old.items octets.new.items (token_value token.entry) }
    ensures why { IfErr result (λ e. (e ≡ ParseError.Memory) ⊎ TextFault (ParseError.Message wrong.entry) (token_value token.entry) e) }
{
    let mut rest = token.raw;
    'runs: loop {
        let len = plain_len(rest);
        octets.extend_from_slice(&rest[..len])?;
        let behind = &rest[len..];
        if behind.len() == 0 {
            return Ok(());
        }
        let Some((letter, count)) = first_letter(behind) else {
            return Err(ParseError::Message(wrong));
        };
        octets.push(letter.octet())?;
        rest = &behind[count..];
    }
}

// How many octets are before the first `\`, or before the end of the text.
#[inline]
pub(crate) fn plain_len(text: &[u8]) -> usize
    ensures within { result ≤ length text.now }
    ensures plain { (k : ℕ) → k < result → slice_index text.now k ≢ 92 }
{
    // Often a `\` directly follows another escape.
    if text.len() == 0 || text[0] == b'\\' {
        return 0;
    }
    let mut at = quiet_len(0, b'\\', b'\\', text);
    'octets: while at < text.len() && text[at] != b'\\' {
        at += 1;
    }
    at
}

/// Reads a TTL of 32 bits, without quotes: runs of digits, each followed by `w`, `d`, `h`, `m` or `s` in either case;
/// the last may have no unit and then is in seconds. Any other token gives [`Message`](ParseError::Message) with the
/// text `wrong`. Allocates nothing.
#[tactic(auto, using(crate::proofs::TextSteps::no_ttl))]
pub fn ttl_of(token: ZoneToken<'_>, wrong: &'static str) -> Result<u32, ParseError>
    ensures reads { ReadsAs (bare (ttl 4294967295)) (λ n. n) result (token_value token.entry) }
    ensures why { IfErr result (WrongToken (bare (ttl 4294967295)) (ParseError.Message wrong.entry) (token_value token.entry)) }
{
    if token.quoted {
        return Err(ParseError::Message(wrong));
    }
    // Most have no unit.
    if let Some(seconds) = decimal(token.raw) {
        return Ok(seconds);
    }
    match str::from_utf8(token.raw) {
        Ok(text) => ttl_of_text(text, wrong),
        Err(_) => Err(ParseError::Message(wrong)),
    }
}

/// Reads an IPv4 address, without quotes. Any other token gives [`Message`](ParseError::Message) with the text `wrong`.
/// Allocates nothing.
#[tactic(auto, using(crate::proofs::TextSteps::no_ipv4))]
pub fn ipv4_of(token: ZoneToken<'_>, wrong: &'static str) -> Result<Ipv4Addr, ParseError>
    ensures reads { ReadsAs (bare ipv4) ipv4_octets result (token_value token.entry) }
    ensures why { IfErr result (WrongToken (bare ipv4) (ParseError.Message wrong.entry) (token_value token.entry)) }
{
    if token.quoted {
        return Err(ParseError::Message(wrong));
    }
    match Ipv4Addr::parse_ascii(token.raw) {
        Ok(address) => Ok(address),
        Err(_) => Err(ParseError::Message(wrong)),
    }
}

/// Reads an IPv6 address (RFC 4291, section 2.2), as `ipv4_of` does.
#[tactic(auto, using(crate::proofs::TextSteps::no_ipv6))]
pub fn ipv6_of(token: ZoneToken<'_>, wrong: &'static str) -> Result<Ipv6Addr, ParseError>
    ensures reads { ReadsAs (bare ipv6) ipv6_octets result (token_value token.entry) }
    ensures why { IfErr result (WrongToken (bare ipv6) (ParseError.Message wrong.entry) (token_value token.entry)) }
{
    if token.quoted {
        return Err(ParseError::Message(wrong));
    }
    match Ipv6Addr::parse_ascii(token.raw) {
        Ok(address) => Ok(address),
        Err(_) => Err(ParseError::Message(wrong)),
    }
}

/// Reads a record type, without quotes: its name in either case, or `TYPE` and one to five digits of a number of 16
/// bits ([`type_named`]). Any other token gives [`Message`](ParseError::Message) with the text `wrong`. Allocates
/// nothing.
pub fn type_of(token: ZoneToken<'_>, wrong: &'static str) -> Result<RecordType, ParseError>
    ensures reads { Decides (λ t. IsType t (token_value token.entry)) (λ t. t) result }
    ensures why { IfErr result (λ e. (e ≡ ParseError.Message wrong.entry) × HoldsOfNone (λ t. IsType t (token_value token.entry))) }
{
    if token.quoted {
        return Err(ParseError::Message(wrong));
    }
    match type_named(token.raw) {
        Some(record_type) => Ok(record_type),
        None => Err(ParseError::Message(wrong)),
    }
}
