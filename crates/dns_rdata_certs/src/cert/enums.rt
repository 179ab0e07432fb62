//! The type of a certificate in CERT, and the algorithm of its key (RFC 4398, 2 and 2.1).

ghost use Rattle.std.specs.Prelude.{◌≡◌, refl, IfErr, OnErr, Some};
ghost use Rattle.std.specs.Hash as fed;
ghost use Rattle.dns_rdata_base.specs.Numbered.{numbered_eq, numbered_cmp, numbered_partial_cmp, numbered_hash, NumberedAt};
ghost use Rattle.dns_rdata_base.proofs.NumberedLaws.{numbered_equiv, numbered_partial, numbered_total, numbered_order, numbered_ties, numbered_alike};
ghost use Rattle.dns_names_wire.specs.Terms.{ReadsBy, LacksOctets, IsTruncated};
ghost use Rattle.dns_rdata_certs.specs.Enums.{cert_type_number, cert_type_variant, cert_type_of, cert_type_text, cert_algorithm_number};
ghost use Rattle.dns_rdata_certs.specs.Enums.{cert_algorithm_variant, cert_algorithm_of, cert_algorithm_text};

use dns_check::BinDecodable;
use dns_names_wire::{BinDecoder, DecodeError};
use std::cmp::Ordering;
use std::fmt;
use std::hash::{Hash, Hasher};

/// The type of a certificate (RFC 4398, 2.1). Types are ordered by number, and then as declared here.
#[derive(Clone, Copy, Debug)]
pub enum CertType {
    /// Reserved (0).
    Reserved0,
    /// X.509 as in PKIX (1).
    PKIX,
    /// An SPKI certificate (2).
    SPKI,
    /// An OpenPGP packet (3).
    PGP,
    /// The URL of an X.509 object (4).
    IPKIX,
    /// The URL of an SPKI certificate (5).
    ISPKI,
    /// The fingerprint and the URL of an OpenPGP packet (6).
    IPGP,
    /// An attribute certificate (7).
    ACPKIX,
    /// The URL of an attribute certificate (8).
    IACPKIX,
    /// Private by a URI (253).
    URI,
    /// Private by an object identifier (254).
    OID,
    /// Reserved (255).
    Reserved255,
    /// A number that is given to no type: `from` gives it for 9 to 252 and 256 to 65279.
    Unassigned(u16),
    /// For experiments: `from` gives it for 65280 to 65534.
    Experimental(u16),
    /// Reserved (65535).
    Reserved65535,
}

// The variants, as the macros of the crate take them.
macro_rules! cert_types {
    ($macro:ident, $arguments:tt) => {
        $macro!(
            $arguments CertType
            (Reserved0 0 0) (PKIX 1 1) (SPKI 2 2) (PGP 3 3) (IPKIX 4 4) (ISPKI 5 5) (IPGP 6 6)
            (ACPKIX 7 7) (IACPKIX 8 8) (URI 253 9) (OID 254 10) (Reserved255 255 11)
            (Reserved65535 65535 14) [Unassigned 12] [Experimental 13]
        )
    };
}

#[tactic(auto, unfolding(crate::specs::Enums::cert_type_of))]
impl From<u16> for CertType {
    ghost from_gives = { λ n e. (e ≡ cert_type_of n) × (cert_type_number e ≡ n) };

    #[inline]
    fn from(value: u16) -> CertType {
        cert_types!(of_number, (value,
            65280..=65534 => CertType::Experimental(value),
            _ => CertType::Unassigned(value),
        ))
    }
}

impl From<CertType> for u16 {
    ghost from_gives = { λ e n. n ≡ cert_type_number e };

    #[inline]
    fn from(value: CertType) -> u16 {
        cert_types!(number_of, (value))
    }
}

impl CertType {
    /// The number on the wire.
    #[inline]
    pub fn number(self) -> u16
        ensures { result ≡ cert_type_number self }
    {
        u16::from(self)
    }

    // The rank in the declaration.
    #[inline]
    fn variant(self) -> u8
        ensures { result ≡ cert_type_variant self }
    {
        cert_types!(rank_of, (self))
    }
}

impl PartialEq for CertType {
    ghost eq = { numbered_eq cert_type_number cert_type_variant };

    ghost laws = { numbered_partial cert_type_number cert_type_variant };

    #[inline]
    fn eq(&self, other: &CertType) -> bool {
        cert_types!(are_same, (*self, *other))
    }
}

impl Eq for CertType {
    ghost laws = { numbered_equiv cert_type_number cert_type_variant };
}

impl Hash for CertType {
    ghost hash_input = { numbered_hash fed.u16 cert_type_number cert_type_variant };

    ghost respects_eq = { numbered_alike fed.u16 cert_type_number cert_type_variant };

    #[inline]
    fn hash<H: Hasher>(&self, state: &mut H) {
        u16::from(*self).hash(state);
        self.variant().hash(state);
    }
}

impl PartialOrd for CertType {
    ghost partial_cmp = { numbered_partial_cmp cert_type_number cert_type_variant };

    ghost laws = { numbered_order cert_type_number cert_type_variant };

    #[inline]
    fn partial_cmp(&self, other: &CertType) -> Option<Ordering> {
        Some(self.cmp(other))
    }
}

impl Ord for CertType {
    ghost cmp = { numbered_cmp cert_type_number cert_type_variant };

    ghost total = { numbered_total cert_type_number cert_type_variant };

    ghost matches_partial_cmp = { λ _ _. refl };

    ghost matches_eq = { numbered_ties cert_type_number cert_type_variant };

    #[inline]
    fn cmp(&self, other: &CertType) -> Ordering {
        let numbers = u16::from(*self).cmp(&u16::from(*other));
        numbers.then(self.variant().cmp(&other.variant()))
    }
}

impl BinDecodable for CertType {
    ghost stands = { NumberedAt 2 cert_type_number cert_type_of };

    ghost refuses = { IsTruncated 2 };

    /// Reads the number in two octets, the higher one first. If fewer are left, this returns
    /// [`InsufficientBytes`](DecodeError::InsufficientBytes) and reads none.
    #[inline]
    fn read(decoder: &mut BinDecoder<'_>) -> Result<CertType, DecodeError>
        ensures reads { ReadsBy (NumberedAt 2 cert_type_number cert_type_of) result decoder.old decoder.new }
        ensures lacking { IfErr result (λ e. (e ≡ DecodeError.InsufficientBytes) × LacksOctets decoder.old 2) }
        ensures unchanged { OnErr result (decoder.new ≡ decoder.old) }
    {
        let number = decoder.read_u16()?.unverified();
        Ok(CertType::from(number))
    }
}

impl fmt::Display for CertType {
    ghost output = { λ e. Some (cert_type_text e) };

    /// The variant's name, and its number in parentheses where it has one inside: `PKIX`, `Unassigned(9)`.
    #[tactic(auto, unfolding(crate::specs::Enums::cert_type_text))]
    fn fmt<W: fmt::Write>(&self, f: &mut fmt::Formatter<W>) -> fmt::Result {
        cert_types!(write_name, (*self, f,
            CertType::Unassigned(number) => write!(f, "Unassigned({number})"),
            CertType::Experimental(number) => write!(f, "Experimental({number})"),
        ))
    }
}

/// The algorithm of a certificate, with the numbers of DNSSEC's algorithms (RFC 4398, 2; RFC 4034, A.1). Algorithms are
/// ordered by number, and then as declared here.
#[derive(Clone, Copy, Debug)]
pub enum Algorithm {
    /// Reserved: `from` gives it for 0, 9 and 11.
    Reserved(u8),
    /// RSA and MD5 (1).
    RSAMD5,
    /// Diffie-Hellman (2).
    DH,
    /// DSA and SHA-1 (3).
    DSA,
    /// Elliptic curves (4).
    ECC,
    /// RSA and SHA-1 (5).
    RSASHA1,
    /// Indirect keys (252).
    INDIRECT,
    /// Private by a domain name (253).
    PRIVATEDNS,
    /// Private by an object identifier (254).
    PRIVATEOID,
    /// DSA and SHA-1, with NSEC3 (6).
    DSANSEC3SHA1,
    /// RSA and SHA-1, with NSEC3 (7).
    RSASHA1NSEC3SHA1,
    /// RSA and SHA-256 (8).
    RSASHA256,
    /// RSA and SHA-512 (10).
    RSASHA512,
    /// GOST R 34.10-2001 (12).
    ECCGOST,
    /// ECDSA on P-256 and SHA-256 (13).
    ECDSAP256SHA256,
    /// ECDSA on P-384 and SHA-384 (14).
    ECDSAP384SHA384,
    /// Ed25519 (15).
    ED25519,
    /// Ed448 (16).
    ED448,
    /// SM2 and SM3 (17).
    SM2SM3,
    /// GOST R 34.10-2012 (23).
    ECCGOST12,
    /// A number that is given to no algorithm: `from` gives it for every other number.
    Unassigned(u8),
}

// The variants, as the macros of the crate take them.
macro_rules! algorithms {
    ($macro:ident, $arguments:tt) => {
        $macro!(
            $arguments Algorithm
            (RSAMD5 1 1) (DH 2 2) (DSA 3 3) (ECC 4 4) (RSASHA1 5 5) (INDIRECT 252 6)
            (PRIVATEDNS 253 7) (PRIVATEOID 254 8) (DSANSEC3SHA1 6 9) (RSASHA1NSEC3SHA1 7 10)
            (RSASHA256 8 11) (RSASHA512 10 12) (ECCGOST 12 13) (ECDSAP256SHA256 13 14)
            (ECDSAP384SHA384 14 15) (ED25519 15 16) (ED448 16 17) (SM2SM3 17 18) (ECCGOST12 23 19)
            [Reserved 0] [Unassigned 20]
        )
    };
}

#[tactic(auto, unfolding(crate::specs::Enums::cert_algorithm_of))]
impl From<u8> for Algorithm {
    ghost from_gives = { λ n e. (e ≡ cert_algorithm_of n) × (cert_algorithm_number e ≡ n) };

    #[inline]
    fn from(value: u8) -> Algorithm {
        algorithms!(of_number, (value,
            0 | 9 | 11 => Algorithm::Reserved(value),
            _ => Algorithm::Unassigned(value),
        ))
    }
}

impl From<Algorithm> for u8 {
    ghost from_gives = { λ e n. n ≡ cert_algorithm_number e };

    #[inline]
    fn from(value: Algorithm) -> u8 {
        algorithms!(number_of, (value))
    }
}

impl Algorithm {
    /// The number on the wire.
    #[inline]
    pub fn number(self) -> u8
        ensures { result ≡ cert_algorithm_number self }
    {
        u8::from(self)
    }

    // The rank in the declaration.
    #[inline]
    fn variant(self) -> u8
        ensures { result ≡ cert_algorithm_variant self }
    {
        algorithms!(rank_of, (self))
    }
}

impl PartialEq for Algorithm {
    ghost eq = { numbered_eq cert_algorithm_number cert_algorithm_variant };

    ghost laws = { numbered_partial cert_algorithm_number cert_algorithm_variant };

    #[inline]
    fn eq(&self, other: &Algorithm) -> bool {
        algorithms!(are_same, (*self, *other))
    }
}

impl Eq for Algorithm {
    ghost laws = { numbered_equiv cert_algorithm_number cert_algorithm_variant };
}

impl Hash for Algorithm {
    ghost hash_input = { numbered_hash fed.u8 cert_algorithm_number cert_algorithm_variant };

    ghost respects_eq = { numbered_alike fed.u8 cert_algorithm_number cert_algorithm_variant };

    #[inline]
    fn hash<H: Hasher>(&self, state: &mut H) {
        u8::from(*self).hash(state);
        self.variant().hash(state);
    }
}

impl PartialOrd for Algorithm {
    ghost partial_cmp = { numbered_partial_cmp cert_algorithm_number cert_algorithm_variant };

    ghost laws = { numbered_order cert_algorithm_number cert_algorithm_variant };

    #[inline]
    fn partial_cmp(&self, other: &Algorithm) -> Option<Ordering> {
        Some(self.cmp(other))
    }
}

impl Ord for Algorithm {
    ghost cmp = { numbered_cmp cert_algorithm_number cert_algorithm_variant };

    ghost total = { numbered_total cert_algorithm_number cert_algorithm_variant };

    ghost matches_partial_cmp = { λ _ _. refl };

    ghost matches_eq = { numbered_ties cert_algorithm_number cert_algorithm_variant };

    #[inline]
    fn cmp(&self, other: &Algorithm) -> Ordering {
        let numbers = u8::from(*self).cmp(&u8::from(*other));
        numbers.then(self.variant().cmp(&other.variant()))
    }
}

impl BinDecodable for Algorithm {
    ghost stands = { NumberedAt 1 cert_algorithm_number cert_algorithm_of };

    ghost refuses = { IsTruncated 1 };

    /// Reads the number in one octet. If none is left, this returns
    /// [`InsufficientBytes`](DecodeError::InsufficientBytes).
    #[inline]
    fn read(decoder: &mut BinDecoder<'_>) -> Result<Algorithm, DecodeError>
        ensures reads { ReadsBy (NumberedAt 1 cert_algorithm_number cert_algorithm_of) result decoder.old decoder.new }
        ensures lacking { IfErr result (λ e. (e ≡ DecodeError.InsufficientBytes) × LacksOctets decoder.old 1) }
        ensures unchanged { OnErr result (decoder.new ≡ decoder.old) }
    {
        let number = decoder.read_u8()?.unverified();
        Ok(Algorithm::from(number))
    }
}

impl fmt::Display for Algorithm {
    ghost output = { λ e. Some (cert_algorithm_text e) };

    /// The variant's name, and its number in parentheses where it has one inside: `RSASHA256`, `Unassigned(18)`.
    #[tactic(auto, unfolding(crate::specs::Enums::cert_algorithm_text))]
    fn fmt<W: fmt::Write>(&self, f: &mut fmt::Formatter<W>) -> fmt::Result {
        algorithms!(write_name, (*self, f,
            Algorithm::Reserved(number) => write!(f, "Reserved({number})"),
            Algorithm::Unassigned(number) => write!(f, "Unassigned({number})"),
        ))
    }
}
