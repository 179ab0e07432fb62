//! CERT: a certificate (RFC 4398, 2).

ghost use Rattle.std.specs.Prelude.{◌≡◌, ◌<◌, ◌⊎◌, refl, IsTrue, length as list_length, true, IfErr, IfOk, Some};
ghost use Rattle.std.specs.String.{string_bytes};
ghost use Rattle.dns_names_wire.specs.Terms.{Emits, LacksOctets, ReadsTo};
ghost use Rattle.dns_rdata_certs.specs.{Enums.cert_algorithm_number, Enums.cert_type_number, CERT.ReadsWholeCert, CERT.IsWholeCertError, TokenRows.cert_tokens};
ghost use Rattle.dns_rdata_certs.specs.CERT.{MeetsCertCondition, cert_shape, cert_fields, cert_facts, cert_key_shape, cert_keys, IsReadCert, cert_text, cert_data_text};
ghost use Rattle.dns_tokens.specs.{Reads.ReadsToken, Reads.ReadsTokenRow, Reads.GoesOn, Forms.base64};

mod enums;

use base64::engine::general_purpose::STANDARD;
use dns_canonical::{AtOnce, Head, Tail, one_behind, rest_behind, two_behind};
use dns_check::DecodesRow;
use dns_names_wire::{
    BinDecoder, BinEncodable, BinEncoder, DecodeError, ParseError, ProtoError, Record, Restrict,
    SmallOctets,
};
use dns_rdata_base::rest::rest_order;
use dns_rdata_base::{OrderedRecord, cmp_each_field};
use dns_rows::{Part, row};
use dns_tokens::{Base64Text, Field, base64_field, next_base64, next_u8, next_u16};
pub use enums::{Algorithm, CertType};
use std::alloc::{AllocError, Global};
use std::cmp::Ordering;
use std::convert::AsStr;
use std::fmt;

const CERT_TYPE: Field = Field {
    name: "CERT cert_type",
    wrong: "Invalid digit found in cert_type token",
};

const KEY_TAG: Field = Field {
    name: "CERT key_tag",
    wrong: "Invalid digit found in key_tag token",
};

const CERT_ALGORITHM: Field = Field {
    name: "CERT algorithm",
    wrong: "Invalid digit found in algorithm token",
};

const CERT_DATA: Field = base64_field!("CERT data");

/// CERT RDATA (RFC 4398, section 2): a certificate.
///
///     +----+----+----+----+----+--------------+
///     |  TYPE   | KEY TAG | ALG| CERTIFICATE  /   two u16, an octet, and the rest, not empty
///     +----+----+----+----+----+--------------+
///
/// A value without certificate data can be built and emitted, and is not read. The RDATA `000130390841514944` is
/// `PKIX 12345 RSASHA256 QVFJRA==`.
#[derive(Clone, Debug, Drop, Eq, Hash, PartialEq)]
pub struct CERT {
    /// The type of the certificate.
    pub cert_type: CertType,
    /// The tag of its key (RFC 4034, B), or 0.
    pub key_tag: u16,
    /// The algorithm of its key.
    pub algorithm: Algorithm,
    /// The certificate.
    pub cert_data: SmallOctets<64>,
}

impl CERT {
    /// Makes a record of these fields, which are moved: up to 64 octets are kept in the value.
    pub fn new(cert_type: CertType, key_tag: u16, algorithm: Algorithm, cert_data: Vec<u8>) -> CERT
        ensures kind { result.cert_type ≡ cert_type }
        ensures tag { result.key_tag ≡ key_tag }
        ensures algorithm { result.algorithm ≡ algorithm }
        ensures data { result.cert_data ≡ cert_data.items }
    {
        CERT {
            cert_type,
            key_tag,
            algorithm,
            cert_data: SmallOctets::from_vec(cert_data),
        }
    }

    /// The certificate in base64 (RFC 4648, section 4). Fails only if an allocation fails.
    pub fn cert_base64(&self) -> Result<String, AllocError>
        ensures { IfOk result (λ text. string_bytes text ≡ cert_data_text self.now) }
    {
        STANDARD.encode(self.cert_data.allocator(), self.cert_data.as_slice())
    }

    /// Reads the record that all these octets are.
    ///
    /// # Errors
    ///
    /// - [`IncorrectRDataLengthRead`](DecodeError::IncorrectRDataLengthRead): there are fewer than 6 octets (their
    ///   number and 6), or more than 65535 (their number and 65535).
    /// - [`Memory`](DecodeError::Memory): an allocation failed.
    #[tactic(auto, using(crate::proofs::Values::whole_cert))]
    pub fn try_from(alloc: Global, octets: &[u8]) -> Result<CERT, DecodeError>
        ensures reads { ReadsWholeCert octets.now result }
        ensures enums { IfOk result IsReadCert }
        ensures refused { IfErr result (λ e. IsWholeCertError (list_length octets.now) e) }
    {
        let read = octets.len();
        if read > 65535 {
            return Err(DecodeError::IncorrectRDataLengthRead { read, len: 65535 });
        }
        if read < 6 {
            return Err(DecodeError::IncorrectRDataLengthRead { read, len: 6 });
        }
        let mut decoder = BinDecoder::new(alloc, octets);
        CERT::read_filled(&mut decoder, read)
    }

    // Reads the fields that fill so many octets.
    #[inline]
    fn read_filled(decoder: &mut BinDecoder<'_>, len: usize) -> Result<CERT, DecodeError>
        requires { 5 < len }
        ensures fields { ReadsTo cert_shape MeetsCertCondition len cert_fields result decoder.old decoder.new }
        ensures enums { IfOk result IsReadCert }
        ensures lacking { IfErr result (λ e. (e ≡ DecodeError.Memory) ⊎ LacksOctets decoder.old len) }
    {
        let cert_type = CertType::from(decoder.read_u16()?.unverified());
        let key_tag = decoder.read_u16()?.unverified();
        let algorithm = Algorithm::from(decoder.read_u8()?.unverified());
        let cert_data = decoder.read_small(len - 5)?.unverified();
        Ok(CERT {
            cert_type,
            key_tag,
            algorithm,
            cert_data,
        })
    }

    /// Reads four tokens: type and key tag, decimal numbers of 16 bits; algorithm, one of 8 bits; and the certificate
    /// in base64, which may be an empty token. Further tokens are not read.
    ///
    /// # Errors
    ///
    /// - [`MissingToken`](ParseError::MissingToken): a token is missing.
    /// - [`Message`](ParseError::Message): a token is no such number, or not base64.
    /// - [`Memory`](ParseError::Memory): an allocation failed.
    pub fn from_tokens<S: AsStr + Drop, I: Iterator<Item = S>>(
        alloc: Global,
        mut tokens: I,
    ) -> Result<CERT, ParseError>
        requires can { I.can_next tokens }
        ensures reads { ReadsTokenRow I.next_gives S.text cert_tokens cert_fields result tokens }
        ensures enums { IfOk result IsReadCert }
    {
        let cert_type = CertType::from(next_u16(&mut tokens, CERT_TYPE)?);
        let key_tag = next_u16(&mut tokens, KEY_TAG)?;
        let algorithm = Algorithm::from(next_u8(&mut tokens, CERT_ALGORITHM)?);
        let cert_data = next_data(alloc, &mut tokens)?;
        Ok(CERT {
            cert_type,
            key_tag,
            algorithm,
            cert_data,
        })
    }
}

// The octets of the next token, base64.
fn next_data<S: AsStr + Drop, I: Iterator<Item = S>>(
    alloc: Global,
    tokens: &mut I,
) -> Result<SmallOctets<64>, ParseError>
    requires can { I.can_next tokens.old }
    ensures reads { ReadsToken I.next_gives S.text base64 (λ x. x) result tokens.old tokens.new }
    ensures goes { GoesOn I.can_next I.remaining result tokens.old tokens.new }
{
    let octets = next_base64(alloc, tokens, CERT_DATA)?;
    Ok(SmallOctets::from_vec(octets.into_vec()))
}

impl Record for CERT {
    ghost facts = { cert_facts };

    #[inline]
    fn row() -> &'static [Part] {
        &row::CERT
    }
}

impl DecodesRow for CERT {
    ghost checked = { refl };

    /// Reads five octets of numbers, and the rest of RDLENGTH. Allocates once if the rest is more than 64 octets.
    #[inline]
    fn read_row(decoder: &mut BinDecoder<'_>, length: Restrict<u16>) -> Result<CERT, DecodeError> {
        // For the proof: brings in that the message is octets and the index is at most its length.
        let _start = decoder.index();
        let len = length.unverified() as usize;
        if len < 6 {
            return Err(DecodeError::InsufficientBytes);
        }
        CERT::read_filled(decoder, len)
    }
}

impl BinEncodable for CERT {
    ghost emits = { λ x r old new. Emits cert_shape (cert_fields x) r old new };

    /// Appends the three numbers and the certificate.
    fn emit(&self, encoder: &mut BinEncoder<'_>) -> Result<(), ProtoError> {
        let kind = u16::from(self.cert_type).to_be_bytes();
        let tag = self.key_tag.to_be_bytes();
        let algorithm = u8::from(self.algorithm);
        let numbers = [kind[0], kind[1], tag[0], tag[1], algorithm];
        encoder.emit_both(&numbers, self.cert_data.as_slice())
    }
}

impl AtOnce for CERT {
    #[inline]
    fn at_once<'a>(&'a self, head: &mut Head) -> Tail<'a> {
        head.two(u16::from(self.cert_type));
        head.two(self.key_tag);
        head.one(u8::from(self.algorithm));
        Tail::rest(self.cert_data.as_slice())
    }
}

// Whether two CERT have equal fields before the certificate.
#[inline]
fn is_cert_front_same(a: &CERT, b: &CERT) -> bool
    ensures numbers { IsTrue result → (cert_type_number a.now.cert_type ≡ cert_type_number b.now.cert_type) × (a.now.key_tag ≡ b.now.key_tag) × (cert_algorithm_number a.now.algorithm ≡ cert_algorithm_number b.now.algorithm) }
    ensures equal { IsTrue result → a.now.cert_data ≡ b.now.cert_data → ⟦<CERT as PartialEq>⟧.eq a.now b.now ≡ true }
{
    a.cert_type == b.cert_type && a.key_tag == b.key_tag && a.algorithm == b.algorithm
}

impl OrderedRecord for CERT {
    /// By the octets of the certificate if the fields before it are equal.
    #[inline]
    #[tactic(auto, using(crate::proofs::Fronts::cert_tied, crate::proofs::Fronts::differ, dns_rdata_base::proofs::QuickOrders::no_difference))]
    fn cmp_canonical_fields(&self, other: &CERT) -> Option<Ordering> {
        if is_cert_front_same(self, other) {
            return Some(rest_order(self.cert_data.as_slice(), other.cert_data.as_slice()));
        }
        let kind = u16::from(self.cert_type);
        let kinds = two_behind(Ordering::Equal, kind, u16::from(other.cert_type));
        let tags = two_behind(kinds, self.key_tag, other.key_tag);
        let algorithms = one_behind(tags, u8::from(self.algorithm), u8::from(other.algorithm));
        let (data, other_data) = (self.cert_data.as_slice(), other.cert_data.as_slice());
        let order = rest_behind(algorithms, data, other_data);
        if order.is_ne() { Some(order) } else { None }
    }

    fn cmp_values(&self, other: &CERT) -> Ordering {
        cmp_each_field!((self, other) cert_type key_tag algorithm cert_data)
    }
}

impl fmt::Display for CERT {
    ghost output = { λ x. Some (cert_text x) };

    /// The type, the key tag in decimal, the algorithm and the certificate in base64, a blank between:
    /// `PKIX 12345 RSASHA256 QVFJRA==`.
    fn fmt<W: fmt::Write>(&self, f: &mut fmt::Formatter<W>) -> fmt::Result {
        let cert_type = self.cert_type;
        let key_tag = self.key_tag;
        let algorithm = self.algorithm;
        let data = Base64Text(self.cert_data.as_slice());
        write!(f, "{cert_type} {key_tag} {algorithm} {data}")
    }
}
