//! Long runs of digits in tokens of at most 1,020 characters, which every reader accepts.

ghost use Rattle.std.specs.Prelude.{◌≡◌, ◌*◌, Some};
ghost use Rattle.hex.specs.Hex.{encode_lower};
ghost use Rattle.base64.specs.{Engines.standard, GeneralPurpose.encode_of};
ghost use Rattle.dns_rdata_zone.specs.Tokens.{tokens_from, in_tokens, left_after};

use dns_rdata_certs::hexadecimal::Hexadecimal;
use dns_tokens::Base64Text;
use std::fmt;

/// The most octets that a token of hexadecimal digits has.
pub(crate) const HEX_OCTETS: usize = 510;

// How many octets a token of base64 has at most: whole groups of three.
const BASE64_OCTETS: usize = 765;

/// Octets in hexadecimal, in tokens with a space between two. The first token takes `left` more octets.
#[derive(Clone, Copy)]
pub(crate) struct HexTokens<'a> {
    pub octets: &'a [u8],
    pub left: usize,
}

impl<'a> HexTokens<'a> {
    /// The digits from the start of a token on.
    #[inline]
    pub(crate) fn new(octets: &'a [u8]) -> HexTokens<'a>
        ensures octets { result.octets.now ≡ octets.now }
        ensures left { result.left ≡ 510 }
    {
        HexTokens {
            octets,
            left: HEX_OCTETS,
        }
    }
}

impl fmt::Display for HexTokens<'_> {
    ghost output = { λ x. Some (tokens_from (2 * x.left) (encode_lower x.octets.now)) };

    fn fmt<W: fmt::Write>(&self, f: &mut fmt::Formatter<W>) -> fmt::Result {
        let mut rest = self.octets;
        let mut left = self.left;
        'tokens: while rest.len() > left {
            f.write(Hexadecimal(&rest[..left]))?;
            f.write_str(" ")?;
            rest = &rest[left..];
            left = HEX_OCTETS;
        }
        f.write(Hexadecimal(rest))
    }
}

/// Returns how many more octets the token takes after `count` octets, if it took `left` before.
pub(crate) fn left_after(left: usize, count: usize) -> usize
    ensures { 2 * result ≡ left_after (2 * left) (2 * count) }
{
    let mut left = left;
    let mut count = count;
    'tokens: while count > left {
        count -= left;
        left = HEX_OCTETS;
    }
    left - count
}

/// Octets in base64, in tokens with a space between two.
#[derive(Clone, Copy)]
pub(crate) struct Base64Tokens<'a>(pub &'a [u8]);

impl fmt::Display for Base64Tokens<'_> {
    ghost output = { λ x. Some (in_tokens (encode_of standard x.0.now)) };

    fn fmt<W: fmt::Write>(&self, f: &mut fmt::Formatter<W>) -> fmt::Result {
        let mut rest = self.0;
        'tokens: while rest.len() > BASE64_OCTETS {
            let token = &rest[..BASE64_OCTETS];
            f.write(Base64Text(token))?;
            f.write_str(" ")?;
            rest = &rest[BASE64_OCTETS..];
        }
        f.write(Base64Text(rest))
    }
}
