//! Values read from one token.

ghost use Rattle.std.specs.Prelude.{◌≡◌, ◌⊎◌, IfErr};
ghost use Rattle.std.specs.{Int.cast_unsigned, Int.w32, Net.Addr.ipv4_octets, Net.Addr.ipv6_octets, Option.option_copied};
ghost use Rattle.dns_tokens.specs.Forms.{number, ttl, name, base64, kept, kept_rest, ipv4, ipv6};
ghost use Rattle.dns_tokens.specs.Reads.{ReadsText};

use crate::parse_ttl;
use base64::DecodeAllocError;
use base64::display::Base64Display;
use base64::engine::general_purpose::STANDARD;
use dns_names_wire::{Name, Octets, ParseError};
use std::alloc::Global;
use std::net::{Ipv4Addr, Ipv6Addr};
use std::{fmt, str};

/// Reads a decimal number of 8 bits, with or without a `+`. Any other text gives [`Message`](ParseError::Message) with
/// the text `wrong`. Allocates nothing.
#[inline]
pub fn u8_of(token: &str, wrong: &'static str) -> Result<u8, ParseError>
    ensures reads { ReadsText (number 1) (λ n. n) result token.now }
    ensures why { IfErr result (λ e. e ≡ ParseError.Message wrong.entry) }
{
    token.parse::<u8>().or(Err(ParseError::Message(wrong)))
}

/// Reads a decimal number of 16 bits, as `u8_of` does.
#[inline]
pub fn u16_of(token: &str, wrong: &'static str) -> Result<u16, ParseError>
    ensures reads { ReadsText (number 2) (λ n. n) result token.now }
    ensures why { IfErr result (λ e. e ≡ ParseError.Message wrong.entry) }
{
    token.parse::<u16>().or(Err(ParseError::Message(wrong)))
}

/// Reads a decimal number of 32 bits, as `u8_of` does.
#[inline]
pub fn u32_of(token: &str, wrong: &'static str) -> Result<u32, ParseError>
    ensures reads { ReadsText (number 4) (λ n. n) result token.now }
    ensures why { IfErr result (λ e. e ≡ ParseError.Message wrong.entry) }
{
    token.parse::<u32>().or(Err(ParseError::Message(wrong)))
}

/// Reads a TTL of 32 bits (`parse_ttl`). Any other text gives [`Message`](ParseError::Message) with the text `wrong`.
/// Allocates nothing.
#[inline]
pub fn ttl_of(token: &str, wrong: &'static str) -> Result<u32, ParseError>
    ensures reads { ReadsText (ttl 4294967295) (λ n. n) result token.now }
    ensures why { IfErr result (λ e. e ≡ ParseError.Message wrong.entry) }
{
    parse_ttl(token).or(Err(ParseError::Message(wrong)))
}

/// Reads a TTL of at most 2147483647 seconds, as `ttl_of` does.
#[inline]
pub fn signed_ttl_of(token: &str, wrong: &'static str) -> Result<i32, ParseError>
    ensures reads { ReadsText (ttl 2147483647) (λ z. cast_unsigned w32 z) result token.now }
    ensures why { IfErr result (λ e. e ≡ ParseError.Message wrong.entry) }
{
    let Ok(seconds) = parse_ttl(token) else {
        return Err(ParseError::Message(wrong));
    };
    if seconds > 2147483647 {
        return Err(ParseError::Message(wrong));
    }
    Ok(seconds as i32)
}

/// Reads a name by `Name::parse`, which the origin completes if there is one.
#[inline]
pub fn name_of(alloc: Global, token: &str, origin: Option<&Name>) -> Result<Name, ParseError>
    ensures { ReadsText (name (option_copied origin.entry)) (λ x. x) result token.now }
{
    Ok(Name::parse(alloc, token, origin)?)
}

/// Octets that print as base64: the standard alphabet, with padding (RFC 4648, section 4). Allocates nothing.
#[derive(Clone, Copy)]
pub struct Base64Text<'a>(pub &'a [u8]);

// Up to so many octets are printed in one write, from a small buffer on the stack.
const FEW: usize = 96;

impl fmt::Display for Base64Text<'_> {
    ghost use Rattle.std.specs.Prelude.{Some};
    ghost use Rattle.base64.specs.{Engines.standard, GeneralPurpose.encode_of};

    ghost output = { λ t. Some (encode_of standard t.0.now) };

    fn fmt<W: fmt::Write>(&self, f: &mut fmt::Formatter<W>) -> fmt::Result {
        let engine = STANDARD;
        if self.0.len() > FEW {
            return write!(f, "{}", Base64Display::new(self.0, &engine));
        }
        let mut room = [0u8; 128];
        let Ok(len) = engine.encode_slice(self.0, &mut room) else {
            unreachable!();
        };
        let Ok(text) = str::from_utf8(&room[..len]) else {
            unreachable!();
        };
        f.write_str(text)
    }
}

/// Reads base64: the standard alphabet, with padding. Any other text gives [`Message`](ParseError::Message) with the
/// text `wrong`.
pub fn base64_of(alloc: Global, token: &str, wrong: &'static str) -> Result<Octets, ParseError>
    ensures reads { ReadsText base64 (λ x. x) result token.now }
    ensures why { IfErr result (λ e. (e ≡ ParseError.Memory) ⊎ (e ≡ ParseError.Message wrong.entry)) }
{
    match STANDARD.decode(alloc, token.as_bytes()) {
        Ok(octets) => Ok(Octets::from_vec(octets)),
        Err(DecodeAllocError::OutOfMemory) => Err(ParseError::Memory),
        Err(DecodeAllocError::DecodeError(_)) => Err(ParseError::Message(wrong)),
    }
}

/// Copies the octets of the token. Fails only if an allocation fails.
#[inline]
pub fn kept_of(alloc: Global, token: &str) -> Result<Octets, ParseError>
    ensures text { ReadsText kept (λ x. x) result token.now }
    ensures rest { ReadsText kept_rest (λ x. x) result token.now }
    ensures why { IfErr result (λ e. e ≡ ParseError.Memory) }
{
    Ok(Octets::from_slice(alloc, token.as_bytes())?)
}

/// Reads an IPv4 address. Any other text gives [`AddrParse`](ParseError::AddrParse). Allocates nothing.
#[inline]
#[tactic(auto, using(crate::proofs::Ttls::no_ipv4))]
pub fn ipv4_of(token: &str) -> Result<Ipv4Addr, ParseError>
    ensures reads { ReadsText ipv4 ipv4_octets result token.now }
    ensures why { IfErr result (λ e. e ≡ ParseError.AddrParse) }
{
    token.parse::<Ipv4Addr>().or(Err(ParseError::AddrParse))
}

/// Reads an IPv6 address. Any other text gives [`AddrParse`](ParseError::AddrParse). Allocates nothing.
#[inline]
#[tactic(auto, using(crate::proofs::Ttls::no_ipv6))]
pub fn ipv6_of(token: &str) -> Result<Ipv6Addr, ParseError>
    ensures reads { ReadsText ipv6 ipv6_octets result token.now }
    ensures why { IfErr result (λ e. e ≡ ParseError.AddrParse) }
{
    token.parse::<Ipv6Addr>().or(Err(ParseError::AddrParse))
}
