//! Octets as hexadecimal text.

ghost use Rattle.std.specs.{Prelude.◌≡◌, Prelude.IfOk, String.string_bytes, Prelude.Some};
ghost use Rattle.hex.specs.Hex.{encode_lower};
ghost use Rattle.dns_rdata_certs.specs.HEX.{is_white_space, without_blanks, DecodesHex};

use dns_types::ParseError;
use hex::FromHexError;
use std::alloc::{AllocError, Global};
use std::{fmt, str};

/// Hexadecimal text: two digits for each octet, the higher four bits first.
#[derive(Clone, Copy, Debug)]
pub struct HEX;

impl HEX {
    /// The digits of the octets, in lower case. Fails only if an allocation fails.
    pub fn encode(&self, alloc: Global, octets: &[u8]) -> Result<String, AllocError>
        ensures text { IfOk result (λ text. string_bytes text ≡ encode_lower octets.now) }
    {
        hex::encode(alloc, octets)
    }

    /// The octets of a text of digits in either case, with spaces, tabs, CR and LF anywhere between.
    ///
    /// # Errors
    ///
    /// - [`Message`](ParseError::Message): the number of digits is odd, or another octet is among them; the text says
    ///   which.
    /// - [`Memory`](ParseError::Memory): an allocation failed.
    pub fn decode(&self, alloc: Global, text: &[u8]) -> Result<Vec<u8>, ParseError>
        ensures decodes { DecodesHex text.now result }
    {
        let digits = digits_of(alloc, text)?;
        match hex::decode(alloc, digits.as_slice()) {
            Ok(octets) => Ok(octets),
            Err(FromHexError::OutOfMemory) => Err(ParseError::Memory),
            Err(FromHexError::OddLength) => {
                Err(ParseError::Message("odd number of hexadecimal digits"))
            }
            Err(_) => Err(ParseError::Message("a character that is no hexadecimal digit")),
        }
    }
}

// The text without its blanks.
fn digits_of(alloc: Global, text: &[u8]) -> Result<Vec<u8>, AllocError>
    ensures { IfOk result (λ digits. digits.items ≡ without_blanks text.now) }
{
    let mut digits = Vec::with_capacity(alloc, text.len())?;
    for octet in text {
        if !is_white_space(*octet) {
            digits.push(*octet)?;
        }
    }
    Ok(digits)
}

#[inline]
fn is_white_space(octet: u8) -> bool
    ensures { result ≡ is_white_space octet }
{
    matches!(octet, b' ' | b'\t' | b'\r' | b'\n')
}

/// Octets that print as hexadecimal digits in lower case, 32 at a time. Allocates nothing.
#[derive(Clone, Copy)]
pub struct Hexadecimal<'a>(pub &'a [u8]);

impl fmt::Display for Hexadecimal<'_> {
    ghost output = { λ h. Some (encode_lower h.0.now) };

    /// Two digits for each octet: `3b6b`.
    fn fmt<W: fmt::Write>(&self, f: &mut fmt::Formatter<W>) -> fmt::Result {
        let mut digits = [0u8; 64];
        for chunk in self.0.chunks(32) {
            let text = &mut digits[..2 * chunk.len()];
            let Ok(()) = hex::encode_to_slice(chunk, text) else {
                return Err(fmt::Error);
            };
            let Ok(text) = str::from_utf8(text) else {
                return Err(fmt::Error);
            };
            f.write_str(text)?;
        }
        Ok(())
    }
}
