//! SSHFP: the fingerprint of a host's key (RFC 4255, 3.1).

ghost use Rattle.std.specs.Prelude.{◌≡◌, IfOk, IsTrue, Some, true, refl};
ghost use Rattle.dns_names_wire.specs.{Terms.Emits};
ghost use Rattle.dns_rdata_certs.specs.SSHFP.{sshfp_shape, sshfp_fields, sshfp_facts, sshfp_key_shape, sshfp_keys, sshfp_text, IsReadSshfp};
ghost use Rattle.dns_rdata_certs.specs.{Enums.fingerprint_type_number, Enums.sshfp_algorithm_number, TokenRows.hex_digits, TokenRows.sshfp_tokens};
ghost use Rattle.dns_tokens.specs.Reads.{ReadsText, ReadsToken, ReadsTokenRow, GoesOn};

mod algorithm;
mod fingerprint_type;

use crate::hexadecimal::{HEX, Hexadecimal};
pub use algorithm::Algorithm;
use dns_canonical::{AtOnce, Head, Tail, one_behind, rest_behind};
use dns_check::DecodesRow;
use dns_names_wire::{
    BinDecoder, BinEncodable, BinEncoder, DecodeError, ParseError, ProtoError, Record, Restrict,
    SmallOctets,
};
use dns_rdata_base::rest::rest_order;
use dns_rdata_base::{OrderedRecord, cmp_each_field};
use dns_rows::{Part, row};
use dns_tokens::{Field, next_token, next_u8, no_more, number_field};
pub use fingerprint_type::FingerprintType;
use std::alloc::Global;
use std::cmp::Ordering;
use std::convert::AsStr;
use std::fmt;

const SSHFP_ALGORITHM: Field = number_field!("SSHFP algorithm");

const FINGERPRINT_TYPE: Field = number_field!("SSHFP fingerprint type");

/// SSHFP RDATA (RFC 4255, section 3.1): the fingerprint of a host's key.
///
///     +----+----+-------------+
///     |ALG |TYPE| FINGERPRINT /   an octet each, and the rest
///     +----+----+-------------+
///
/// The length of the fingerprint is not tested. The RDATA `02013b6b` is `2 1 3b6b`.
#[derive(Clone, Debug, Drop, Eq, Hash, PartialEq)]
pub struct SSHFP {
    /// The algorithm of the key.
    pub algorithm: Algorithm,
    /// How the fingerprint is made.
    pub fingerprint_type: FingerprintType,
    /// The fingerprint.
    pub fingerprint: SmallOctets<64>,
}

impl SSHFP {
    /// Makes a record of these fields, which are moved: up to 64 octets are kept in the value.
    pub fn new(
        algorithm: Algorithm,
        fingerprint_type: FingerprintType,
        fingerprint: Vec<u8>,
    ) -> SSHFP
        ensures algorithm { result.algorithm ≡ algorithm }
        ensures kind { result.fingerprint_type ≡ fingerprint_type }
        ensures fingerprint { result.fingerprint ≡ fingerprint.items }
    {
        SSHFP {
            algorithm,
            fingerprint_type,
            fingerprint: SmallOctets::from_vec(fingerprint),
        }
    }

    /// Reads three tokens: algorithm and fingerprint type, decimal numbers of 8 bits, and the fingerprint, hexadecimal
    /// digits in either case ([`HEX`]) in a token that is not empty.
    ///
    /// # Errors
    ///
    /// - [`MissingToken`](ParseError::MissingToken): a token is missing.
    /// - [`Message`](ParseError::Message): a token is no such number, empty, or no digits; or there is a further one.
    /// - [`Memory`](ParseError::Memory): an allocation failed.
    pub fn from_tokens<S: AsStr + Drop, I: Iterator<Item = S>>(
        alloc: Global,
        mut tokens: I,
    ) -> Result<SSHFP, ParseError>
        requires can { I.can_next tokens }
        ensures reads { ReadsTokenRow I.next_gives S.text sshfp_tokens sshfp_fields result tokens }
        ensures enums { IfOk result IsReadSshfp }
    {
        let algorithm = Algorithm::from(next_u8(&mut tokens, SSHFP_ALGORITHM)?);
        let fingerprint_type = FingerprintType::from(next_u8(&mut tokens, FINGERPRINT_TYPE)?);
        let fingerprint = next_hex(alloc, &mut tokens)?;
        no_more(&mut tokens, "a token after the SSHFP fingerprint")?;
        Ok(SSHFP {
            algorithm,
            fingerprint_type,
            fingerprint,
        })
    }
}

// The octets of hexadecimal digits. An empty token is rejected.
fn hex_of(alloc: Global, token: &str) -> Result<SmallOctets<64>, ParseError>
    ensures { ReadsText hex_digits (λ x. x) result token.now }
{
    if token.len() == 0 {
        return Err(ParseError::Message("no hexadecimal digits in SSHFP fingerprint token"));
    }
    let octets = HEX.decode(alloc, token.as_bytes())?;
    Ok(SmallOctets::from_vec(octets))
}

// The octets of the next token, hexadecimal digits.
fn next_hex<S: AsStr + Drop, I: Iterator<Item = S>>(
    alloc: Global,
    tokens: &mut I,
) -> Result<SmallOctets<64>, ParseError>
    requires can { I.can_next tokens.old }
    ensures reads { ReadsToken I.next_gives S.text hex_digits (λ x. x) result tokens.old tokens.new }
    ensures goes { GoesOn I.can_next I.remaining result tokens.old tokens.new }
{
    let token = next_token(tokens, "SSHFP fingerprint")?;
    hex_of(alloc, token.as_str())
}

impl Record for SSHFP {
    ghost facts = { sshfp_facts };

    #[inline]
    fn row() -> &'static [Part] {
        &row::SSHFP
    }
}

impl DecodesRow for SSHFP {
    ghost checked = { refl };

    /// Reads two octets of numbers, and the rest of RDLENGTH. Allocates once if the rest is more than 64 octets.
    #[inline]
    fn read_row(decoder: &mut BinDecoder<'_>, length: Restrict<u16>) -> Result<SSHFP, DecodeError> {
        let start = decoder.index();
        let algorithm = Algorithm::from(decoder.read_u8()?.unverified());
        let fingerprint_type = FingerprintType::from(decoder.read_u8()?.unverified());
        let read = decoder.index() - start;
        let len = length.unverified() as usize;
        if len < read {
            return Err(DecodeError::IncorrectRDataLengthRead { read, len });
        }
        let fingerprint = decoder.read_small(len - read)?.unverified();
        Ok(SSHFP {
            algorithm,
            fingerprint_type,
            fingerprint,
        })
    }
}

impl BinEncodable for SSHFP {
    ghost emits = { λ x r old new. Emits sshfp_shape (sshfp_fields x) r old new };

    /// Appends the two numbers and the fingerprint.
    fn emit(&self, encoder: &mut BinEncoder<'_>) -> Result<(), ProtoError> {
        let algorithm = u8::from(self.algorithm);
        let kind = u8::from(self.fingerprint_type);
        encoder.emit_both(&[algorithm, kind], self.fingerprint.as_slice())
    }
}

impl AtOnce for SSHFP {
    #[inline]
    fn at_once<'a>(&'a self, head: &mut Head) -> Tail<'a> {
        head.one(u8::from(self.algorithm));
        head.one(u8::from(self.fingerprint_type));
        Tail::rest(self.fingerprint.as_slice())
    }
}

// Whether two SSHFP have equal fields before the fingerprint.
#[inline]
fn is_sshfp_front_same(a: &SSHFP, b: &SSHFP) -> bool
    ensures numbers { IsTrue result → (sshfp_algorithm_number a.now.algorithm ≡ sshfp_algorithm_number b.now.algorithm) × (fingerprint_type_number a.now.fingerprint_type ≡ fingerprint_type_number b.now.fingerprint_type) }
    ensures equal { IsTrue result → a.now.fingerprint ≡ b.now.fingerprint → ⟦<SSHFP as PartialEq>⟧.eq a.now b.now ≡ true }
{
    a.algorithm == b.algorithm && a.fingerprint_type == b.fingerprint_type
}

impl OrderedRecord for SSHFP {
    /// By the octets of the fingerprint if the fields before it are equal.
    #[inline]
    #[tactic(auto, using(crate::proofs::Fronts::sshfp_tied, crate::proofs::Fronts::differ, dns_rdata_base::proofs::QuickOrders::no_difference))]
    fn cmp_canonical_fields(&self, other: &SSHFP) -> Option<Ordering> {
        if is_sshfp_front_same(self, other) {
            return Some(rest_order(self.fingerprint.as_slice(), other.fingerprint.as_slice()));
        }
        let algorithm = u8::from(self.algorithm);
        let algorithms = one_behind(Ordering::Equal, algorithm, u8::from(other.algorithm));
        let kind = u8::from(self.fingerprint_type);
        let kinds = one_behind(algorithms, kind, u8::from(other.fingerprint_type));
        let (data, other_data) = (self.fingerprint.as_slice(), other.fingerprint.as_slice());
        let order = rest_behind(kinds, data, other_data);
        if order.is_ne() { Some(order) } else { None }
    }

    fn cmp_values(&self, other: &SSHFP) -> Ordering {
        cmp_each_field!((self, other) algorithm fingerprint_type fingerprint)
    }
}

impl fmt::Display for SSHFP {
    ghost output = { λ x. Some (sshfp_text x) };

    /// Prints the two numbers in decimal and the fingerprint in hexadecimal, with a blank between: `2 1 3b6b`.
    fn fmt<W: fmt::Write>(&self, f: &mut fmt::Formatter<W>) -> fmt::Result {
        let algorithm = u8::from(self.algorithm);
        let fingerprint_type = u8::from(self.fingerprint_type);
        let fingerprint = Hexadecimal(self.fingerprint.as_slice());
        write!(f, "{algorithm} {fingerprint_type} {fingerprint}")
    }
}
