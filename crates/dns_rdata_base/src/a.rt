//! A: an IPv4 address (RFC 1035, 3.4.1).

ghost use Rattle.std.specs.Prelude.{◌≡◌, ◌≢◌, ◌+◌, ◌<◌, ◌≤◌, ◌++◌, ℕ, List, [], ◌∷◌, length, length as list_length, decimal, OnErr, IfErr, Some, take, refl};
ghost use Rattle.std.specs.Net.{Grammar.Parses, Grammar.IsIpv4Text, Addr.ipv4_octets};
ghost use Rattle.dns_names_wire.specs.Terms.{ReadsIf, ReadsBy, Emits, LacksOctets, Always, IsTruncated};
ghost use Rattle.dns_rdata_base.specs.A.{a_shape, a_fields, a_facts, a_text, a_tokens};
ghost use Rattle.dns_tokens.specs.Reads.{ReadsTokenRow};
ghost use Rattle.dns_fields.specs.Fields.{Stands};
ghost use Rattle.dns_types.specs.declared.error.ParseError.TheVariants as parse;

use crate::traits::TakesOctet;
use crate::{OrderedRecord, unless_tied};
use dns_canonical::{AtOnce, Head, Tail, octets_cmp};
use dns_check::{BinDecodable, DecodesFields};
use dns_names_wire::{
    AddrParseError, BinDecoder, BinEncodable, BinEncoder, DecodeError, ParseError, ProtoError,
    Record,
};
use dns_rows::{Part, row};
use dns_tokens::next_ipv4;
use std::cmp::Ordering;
use std::convert::AsStr;
use std::marker::Model;
use std::net::Ipv4Addr;
use std::ops::Deref;
use std::str::FromStr;
use std::{fmt, str};

/// A RDATA (RFC 1035, section 3.4.1): an IPv4 address.
///
///     +--+--+--+--+
///     |  ADDRESS  |   4 octets, network order
///     +--+--+--+--+
///
/// The RDATA `c0000201` is `192.0.2.1`.
#[derive(Clone, Copy, Debug, Eq, Hash, PartialEq)]
pub struct A(pub Ipv4Addr);

impl A {
    /// The address with these octets, `a.b.c.d`.
    pub fn new(a: u8, b: u8, c: u8, d: u8) -> A
        ensures { ipv4_octets result.0 ≡ a ∷ b ∷ c ∷ d ∷ [] }
    {
        A(Ipv4Addr::new(a, b, c, d))
    }

    /// Reads one token, the text of an IPv4 address as `from_str` reads it. Further tokens are not read. Allocates
    /// nothing.
    ///
    /// # Errors
    ///
    /// - [`MissingToken`](ParseError::MissingToken): there is no token.
    /// - [`AddrParse`](ParseError::AddrParse): the token is no address.
    pub fn from_tokens<S: AsStr + Drop, I: Iterator<Item = S>>(
        mut tokens: I,
    ) -> Result<A, ParseError>
        requires can { I.can_next tokens }
        ensures reads { ReadsTokenRow I.next_gives S.text a_tokens a_fields result tokens }
        ensures memory { IfErr result (λ e. e ≢ parse.Memory) }
    {
        Ok(A(next_ipv4(&mut tokens, "A address")?))
    }
}

impl BinDecodable for A {
    ghost stands = { λ m p x q. Stands m p a_shape (a_fields x) q };

    ghost refuses = { IsTruncated 4 };

    /// Reads four octets. Allocates nothing.
    ///
    /// # Errors
    ///
    /// [`InsufficientBytes`](DecodeError::InsufficientBytes): fewer octets are left. The decoder is then at the end of
    /// the message.
    #[inline]
    fn read(decoder: &mut BinDecoder<'_>) -> Result<A, DecodeError>
        ensures reads { ReadsBy (λ m p x q. Stands m p a_shape (a_fields x) q) result decoder.old decoder.new }
        ensures fields { ReadsIf a_shape (Always a_shape) a_fields result decoder.old decoder.new }
        ensures lacking { IfErr result (λ e. (e ≡ DecodeError.InsufficientBytes) × LacksOctets decoder.old 4) }
        ensures stopped { OnErr result (decoder.new.index ≡ length decoder.old.message) }
    {
        let octets = decoder.read_in_steps(4, 1)?.unverified();
        Ok(A::new(octets[0], octets[1], octets[2], octets[3]))
    }
}

impl TakesOctet for A {
    ghost use Rattle.dns_rdata_base.specs.Taking.{octets_take};

    ghost takes = { octets_take 3 a_fields };
}

impl Record for A {
    ghost facts = { a_facts };

    #[inline]
    fn row() -> &'static [Part] {
        &row::A
    }
}

impl DecodesFields for A {
    ghost alone = { record { checked = refl; asked = refl; alone = refl; long = tt } };

    #[inline]
    fn read_fields(decoder: &mut BinDecoder<'_>) -> Result<A, DecodeError> {
        A::read(decoder)
    }
}

impl BinEncodable for A {
    ghost emits = { λ x r old new. Emits a_shape (a_fields x) r old new };

    /// Appends the four octets.
    #[inline]
    fn emit(&self, encoder: &mut BinEncoder<'_>) -> Result<(), ProtoError> {
        encoder.emit_vec(&self.0.octets())
    }
}

impl From<Ipv4Addr> for A {
    ghost from_gives = { λ address a. a.0 ≡ address };

    fn from(address: Ipv4Addr) -> A {
        A(address)
    }
}

impl From<A> for Ipv4Addr {
    ghost from_gives = { λ a address. address ≡ a.0 };

    fn from(a: A) -> Ipv4Addr {
        a.0
    }
}

impl Deref for A {
    type Target = Ipv4Addr;

    ghost deref_gives = { λ a address. address ≡ a.0 };

    #[inline]
    fn deref(&self) -> &Ipv4Addr {
        &self.0
    }
}

/// Reads four numbers of 0 to 255 joined by dots, of one to three digits each, without leading zeros. Any other text is
/// an error. Allocates nothing.
impl FromStr for A {
    type Err = AddrParseError;

    ghost from_str_gives = { Parses (λ text a. IsIpv4Text text a.0) };

    fn from_str(text: &str) -> Result<A, AddrParseError> {
        match text.parse::<Ipv4Addr>() {
            Ok(address) => Ok(A(address)),
            Err(_) => Err(AddrParseError),
        }
    }
}

impl AtOnce for A {
    #[inline]
    #[tactic(auto, unfolding(dns_fields::specs::Fields::field_octets))]
    fn at_once<'a>(&'a self, head: &mut Head) -> Tail<'a> {
        head.octets(&self.0.octets());
        Tail::none()
    }
}

impl OrderedRecord for A {
    #[inline]
    #[tactic(auto, unfolding(dns_fields::specs::Fields::field_octets))]
    fn cmp_canonical_fields(&self, other: &A) -> Option<Ordering> {
        let order = octets_cmp(&self.0.octets(), &other.0.octets());
        unless_tied(order, self, other, true)
    }

    fn cmp_values(&self, other: &A) -> Ordering {
        self.0.octets().as_slice().cmp(other.0.octets().as_slice())
    }
}

impl fmt::Display for A {
    ghost output = { λ a. Some (a_text a) };

    /// Prints the four octets in decimal, with a dot between two: `192.0.2.1`.
    fn fmt<W: fmt::Write>(&self, f: &mut fmt::Formatter<W>) -> fmt::Result {
        let [a, b, c, d] = self.0.octets();
        let mut text = Dotted::new();
        text.push_decimal(a);
        text.push(b'.');
        text.push_decimal(b);
        text.push(b'.');
        text.push_decimal(c);
        text.push(b'.');
        text.push_decimal(d);
        f.write_str(str::from_utf8(text.as_slice()).map_err(|_| fmt::Error)?)
    }
}

// The text of an address, put together on the stack, so that it is written at once.
#[derive(Drop)]
struct Dotted {
    octets: [u8; 16],
    len: usize,
}

impl Model for Dotted {
    ghost Value = { List ℕ };

    ghost view = { λ t. take t.len t.octets };

    ghost invariant = { λ t. t.len ≤ 16 };
}

impl Dotted {
    #[inline]
    fn new() -> Dotted
        ensures { result ≡ [] }
    {
        Dotted {
            octets: [0; 16],
            len: 0,
        }
    }

    #[inline]
    fn push(&mut self, octet: u8)
        requires { list_length self.old < 16 }
        ensures { self.new ≡ self.old ++ octet ∷ [] }
    {
        self.octets[self.len] = octet;
        self.len += 1;
    }

    // The number in decimal, of one to three digits.
    #[inline]
    fn push_decimal(&mut self, number: u8)
        requires { list_length self.old + 3 ≤ 16 }
        ensures text { self.new ≡ self.old ++ decimal number }
        ensures digits { list_length self.new ≤ list_length self.old + 3 }
    {
        if number < 10 {
            self.push(b'0' + number);
            return;
        }
        if number >= 100 {
            self.push(b'0' + number / 100);
            self.push(b'0' + number / 10 % 10);
        } else {
            self.push(b'0' + number / 10);
        }
        self.push(b'0' + number % 10);
    }

    #[inline]
    fn as_slice(&self) -> &[u8]
        ensures { result.now ≡ self.now }
    {
        &self.octets[..self.len]
    }
}
