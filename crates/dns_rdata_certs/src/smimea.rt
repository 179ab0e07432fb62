//! SMIMEA: a certificate of a mail user (RFC 8162, 2).

ghost use Rattle.std.specs.{Prelude.◌≡◌, Prelude.IfOk, Prelude.Some, Iterator.IsFinite, Prelude.refl};
ghost use Rattle.dns_names_wire.specs.{Terms.Emits};
ghost use Rattle.dns_rdata_certs.specs.{SMIMEA.smimea_facts, TLSA.tlsa_shape, TLSA.tlsa_fields, TLSA.tlsa_text, TLSA.IsReadTlsa, TokenRows.tlsa_tokens};
ghost use Rattle.dns_tokens.specs.Reads.{ReadsTokenRow};

use crate::tlsa::{CertUsage, Matching, Selector, TLSA};
use dns_canonical::{AtOnce, Head, Tail};
use dns_check::DecodesRow;
use dns_names_wire::{
    BinDecoder, BinEncodable, BinEncoder, DecodeError, ParseError, ProtoError, Record, Restrict,
};
use dns_rdata_base::OrderedRecord;
use dns_rows::{Part, row};
use std::alloc::Global;
use std::cmp::Ordering;
use std::convert::AsStr;
use std::fmt;
use std::ops::Deref;

/// SMIMEA RDATA (RFC 8162, section 2): a certificate of a mail user, with the fields of [`TLSA`].
///
/// The RDATA `030101abcd` is `3 1 1 abcd`.
#[derive(Clone, Debug, Drop, Eq, Hash, PartialEq)]
pub struct SMIMEA(pub TLSA);

impl SMIMEA {
    /// Makes a record of these fields, which are moved: up to 64 octets are kept in the value.
    pub fn new(
        cert_usage: CertUsage,
        selector: Selector,
        matching: Matching,
        cert_data: Vec<u8>,
    ) -> SMIMEA
        ensures usage { result.0.cert_usage ≡ cert_usage }
        ensures selector { result.0.selector ≡ selector }
        ensures matching { result.0.matching ≡ matching }
        ensures data { result.0.cert_data ≡ cert_data.items }
    {
        SMIMEA(TLSA::new(cert_usage, selector, matching, cert_data))
    }

    /// Reads the tokens of TLSA, and fails as that does.
    pub fn from_tokens<S: AsStr + Drop, I: Iterator<Item = S>>(
        alloc: Global,
        tokens: I,
    ) -> Result<SMIMEA, ParseError>
        requires can { I.can_next tokens }
        requires ends { IsFinite (I.remaining tokens) }
        ensures reads { ReadsTokenRow I.next_gives S.text tlsa_tokens (λ x. tlsa_fields x.0) result tokens }
        ensures enums { IfOk result (λ x. IsReadTlsa x.0) }
    {
        match TLSA::from_tokens(alloc, tokens) {
            Ok(certificate) => Ok(SMIMEA(certificate)),
            Err(e) => Err(e),
        }
    }
}

impl Record for SMIMEA {
    ghost facts = { smimea_facts };

    #[inline]
    fn row() -> &'static [Part] {
        &row::TLSA
    }
}

impl DecodesRow for SMIMEA {
    ghost checked = { refl };

    /// Reads the fields of TLSA.
    #[inline]
    fn read_row(
        decoder: &mut BinDecoder<'_>,
        length: Restrict<u16>,
    ) -> Result<SMIMEA, DecodeError> {
        match TLSA::read_row(decoder, length) {
            Ok(certificate) => Ok(SMIMEA(certificate)),
            Err(e) => Err(e),
        }
    }
}

impl BinEncodable for SMIMEA {
    ghost emits = { λ x r old new. Emits tlsa_shape (tlsa_fields x.0) r old new };

    /// Appends the fields of TLSA.
    #[inline]
    fn emit(&self, encoder: &mut BinEncoder<'_>) -> Result<(), ProtoError> {
        self.0.emit(encoder)
    }
}

impl Deref for SMIMEA {
    type Target = TLSA;

    ghost deref_gives = { λ x certificate. certificate ≡ x.0 };

    #[inline]
    fn deref(&self) -> &TLSA {
        &self.0
    }
}

impl AtOnce for SMIMEA {
    #[inline]
    fn at_once<'a>(&'a self, head: &mut Head) -> Tail<'a> {
        self.0.at_once(head)
    }
}

impl OrderedRecord for SMIMEA {
    #[inline]
    fn cmp_canonical_fields(&self, other: &SMIMEA) -> Option<Ordering> {
        self.0.cmp_canonical_fields(&other.0)
    }

    fn cmp_values(&self, other: &SMIMEA) -> Ordering {
        self.0.cmp_values(&other.0)
    }
}

impl fmt::Display for SMIMEA {
    ghost output = { λ x. Some (tlsa_text x.0) };

    /// Prints as TLSA: `3 1 1 abcd`.
    fn fmt<W: fmt::Write>(&self, f: &mut fmt::Formatter<W>) -> fmt::Result {
        let certificate = &self.0;
        write!(f, "{certificate}")
    }
}
