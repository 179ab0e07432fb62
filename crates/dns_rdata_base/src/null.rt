//! NULL: any octets (RFC 1035, section 3.3.10).

ghost use Rattle.std.specs.Prelude.{◌≡◌, ◌≢◌, [], Some, refl};
ghost use Rattle.dns_names_wire.specs.{Terms.Emits};
ghost use Rattle.dns_rdata_base.specs.NULL.{null_shape, null_fields, null_facts, null_text};

use crate::OrderedRecord;
use crate::rest::rest_cmp_canonical;
use dns_check::DecodesRow;
use dns_names_wire::{
    BinDecoder, BinEncodable, BinEncoder, DecodeError, ProtoError, Record, Restrict, SmallOctets,
};
use dns_rows::{Part, row};
use dns_tokens::Base64Text;
use std::alloc::Global;
use std::cmp::Ordering;
use std::fmt;

/// NULL RDATA (RFC 1035, section 3.3.10): any octets, all of RDLENGTH.
///
/// The RDATA `abcd` is `q80=` (base64).
#[derive(Clone, Debug, Drop, Eq, Hash, PartialEq)]
pub struct NULL {
    /// The octets.
    pub anything: SmallOctets<64>,
}

impl NULL {
    /// Without an octet.
    pub fn new(alloc: Global) -> NULL
        ensures { result.anything ≡ [] }
    {
        NULL {
            anything: SmallOctets::new(alloc),
        }
    }

    /// Without an octet.
    pub fn default(alloc: Global) -> NULL
        ensures { result.anything ≡ [] }
    {
        NULL::new(alloc)
    }

    /// Makes a record of these octets. There must be at least one.
    pub fn with(anything: Vec<u8>) -> NULL
        requires { anything.items ≢ [] }
        ensures { result.anything ≡ anything.items }
    {
        NULL {
            anything: SmallOctets::from_vec(anything),
        }
    }
}

impl Record for NULL {
    ghost facts = { null_facts };

    #[inline]
    fn row() -> &'static [Part] {
        &row::NULL
    }
}

impl DecodesRow for NULL {
    ghost checked = { refl };

    /// Reads all octets of RDLENGTH. Allocates once if they are more than 64.
    #[inline]
    fn read_row(decoder: &mut BinDecoder<'_>, length: Restrict<u16>) -> Result<NULL, DecodeError> {
        // For the proof: brings in that the message is octets and the index is at most its length.
        let _start = decoder.index();
        let octets = decoder.read_small(length.unverified() as usize)?;
        Ok(NULL {
            anything: octets.unverified(),
        })
    }
}

impl BinEncodable for NULL {
    ghost emits = { λ x r old new. Emits null_shape (null_fields x) r old new };

    /// Appends the octets.
    #[inline]
    fn emit(&self, encoder: &mut BinEncoder<'_>) -> Result<(), ProtoError> {
        encoder.emit_vec(self.anything.as_slice())
    }
}

impl OrderedRecord for NULL {
    #[inline]
    fn cmp_canonical_fields(&self, other: &NULL) -> Option<Ordering> {
        rest_cmp_canonical(&self.anything, &other.anything)
    }

    fn cmp_values(&self, other: &NULL) -> Ordering {
        self.anything.cmp(&other.anything)
    }
}

impl fmt::Display for NULL {
    ghost output = { λ x. Some (null_text x) };

    /// Prints the octets in base64 (RFC 4648, section 4).
    fn fmt<W: fmt::Write>(&self, f: &mut fmt::Formatter<W>) -> fmt::Result {
        write!(f, "{}", Base64Text(self.anything.as_slice()))
    }
}
