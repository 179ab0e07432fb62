//! OPENPGPKEY: a public key (RFC 7929, 2.1).

ghost use Rattle.std.specs.Prelude.{◌≡◌, Some, refl};
ghost use Rattle.dns_names_wire.specs.{Terms.Emits};
ghost use Rattle.dns_rdata_base.specs.OPENPGPKEY.{openpgpkey_shape, openpgpkey_fields, openpgpkey_facts, openpgpkey_text, openpgpkey_tokens};
ghost use Rattle.dns_tokens.specs.Reads.{ReadsTokenRow};

use crate::OrderedRecord;
use crate::rest::rest_cmp_canonical;
use dns_check::DecodesRow;
use dns_names_wire::{
    BinDecoder, BinEncodable, BinEncoder, DecodeError, ParseError, ProtoError, Record, Restrict,
    SmallOctets,
};
use dns_rows::{Part, row};
use dns_tokens::{Base64Text, base64_field, next_base64, no_more};
use std::alloc::Global;
use std::cmp::Ordering;
use std::convert::AsStr;
use std::fmt;

/// OPENPGPKEY RDATA (RFC 7929, section 2.1): a public key in the format of OpenPGP, all octets of RDLENGTH.
///
/// The RDATA `abcd` is `q80=` (base64).
#[derive(Clone, Debug, Drop, Eq, Hash, PartialEq)]
pub struct OPENPGPKEY {
    /// The key's octets.
    pub public_key: SmallOctets<64>,
}

impl OPENPGPKEY {
    /// Makes a record of this key, which is moved: up to 64 octets are kept in the value.
    pub fn new(public_key: Vec<u8>) -> OPENPGPKEY
        ensures { result.public_key ≡ public_key.items }
    {
        OPENPGPKEY {
            public_key: SmallOctets::from_vec(public_key),
        }
    }

    /// Reads one token, the key in base64.
    ///
    /// # Errors
    ///
    /// - [`MissingToken`](ParseError::MissingToken): there is no token.
    /// - [`Message`](ParseError::Message): the token is not base64, or there is a further one.
    /// - [`Memory`](ParseError::Memory): an allocation failed.
    pub fn from_tokens<S: AsStr + Drop, I: Iterator<Item = S>>(
        alloc: Global,
        mut tokens: I,
    ) -> Result<OPENPGPKEY, ParseError>
        requires can { I.can_next tokens }
        ensures { ReadsTokenRow I.next_gives S.text openpgpkey_tokens openpgpkey_fields result tokens }
    {
        let public_key = next_base64(alloc, &mut tokens, base64_field!("OPENPGPKEY public key"))?;
        no_more(&mut tokens, "a token after the OPENPGPKEY public key")?;
        Ok(OPENPGPKEY {
            public_key: SmallOctets::from_vec(public_key.into_vec()),
        })
    }
}

impl Record for OPENPGPKEY {
    ghost facts = { openpgpkey_facts };

    #[inline]
    fn row() -> &'static [Part] {
        &row::OPENPGPKEY
    }
}

impl DecodesRow for OPENPGPKEY {
    ghost checked = { refl };

    /// Reads all octets of RDLENGTH. Allocates once if they are more than 64.
    #[inline]
    fn read_row(
        decoder: &mut BinDecoder<'_>,
        length: Restrict<u16>,
    ) -> Result<OPENPGPKEY, DecodeError> {
        // For the proof: brings in that the message is octets and the index is at most its length.
        let _start = decoder.index();
        let octets = decoder.read_small(length.unverified() as usize)?;
        Ok(OPENPGPKEY {
            public_key: octets.unverified(),
        })
    }
}

impl BinEncodable for OPENPGPKEY {
    ghost emits = { λ x r old new. Emits openpgpkey_shape (openpgpkey_fields x) r old new };

    /// Appends the key's octets.
    #[inline]
    fn emit(&self, encoder: &mut BinEncoder<'_>) -> Result<(), ProtoError> {
        encoder.emit_vec(self.public_key.as_slice())
    }
}

impl OrderedRecord for OPENPGPKEY {
    #[inline]
    fn cmp_canonical_fields(&self, other: &OPENPGPKEY) -> Option<Ordering> {
        rest_cmp_canonical(&self.public_key, &other.public_key)
    }

    fn cmp_values(&self, other: &OPENPGPKEY) -> Ordering {
        self.public_key.cmp(&other.public_key)
    }
}

impl fmt::Display for OPENPGPKEY {
    ghost output = { λ x. Some (openpgpkey_text x) };

    /// Prints the octets in base64 (RFC 4648, section 4).
    fn fmt<W: fmt::Write>(&self, f: &mut fmt::Formatter<W>) -> fmt::Result {
        write!(f, "{}", Base64Text(self.public_key.as_slice()))
    }
}
