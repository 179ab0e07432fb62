//! The path of DNS queries over HTTPS.

ghost use Rattle.std.specs.{Prelude.◌≡◌, Prelude.drop, Prelude.IfErr, Prelude.IfOk, String.string_bytes};
ghost use Rattle.dns_names_wire.specs.Terms.{ReadsBy};
ghost use Rattle.dns_rdata_service.specs.SvcParamValue.{doh_path_value, DohPathAt, IsPathError, EmitsValue};

use crate::svcb::unknown::emit_octets;
use bstr::BStr;
use dns_check::BinDecodable;
use dns_check::parameter_values::is_text;
use dns_names_wire::{BinDecoder, BinEncodable, BinEncoder, DecodeError, ProtoError, SmallOctets};
use std::alloc::AllocError;
use std::fmt;

/// The template of the path to which DNS queries are sent over HTTPS (RFC 9461, section 5), such as `/dns-query{?dns}`:
/// UTF-8, of which nothing else is checked. A path of up to 16 octets is kept without an allocation.
#[derive(Debug, Drop, PartialEq, Eq, Hash)]
pub struct DohPath(pub SmallOctets<16>);

impl DohPath {
    /// Makes a path of this text. Allocates nothing.
    pub fn new(path: String) -> DohPath
        ensures { result.0 ≡ string_bytes path }
    {
        DohPath(SmallOctets::from_vec(path.into_bytes()))
    }
}

impl BinDecodable for DohPath {
    ghost stands = { DohPathAt };

    ghost refuses = { λ old e _. IsPathError (drop old.index old.message) e };

    /// Reads to the end of the decoder's octets. Returns [`Utf8`](DecodeError::Utf8) if they are not UTF-8.
    #[inline]
    fn read(decoder: &mut BinDecoder<'_>) -> Result<DohPath, DecodeError>
        ensures reads { ReadsBy DohPathAt result decoder.old decoder.new }
        ensures refused { IfErr result (IsPathError (drop decoder.old.index decoder.old.message)) }
    {
        let left = decoder.len();
        let path = decoder.read_slice(left)?.unverified();
        if !is_text(path) {
            return Err(DecodeError::Utf8);
        }
        Ok(DohPath(SmallOctets::from_slice(decoder.allocator(), path)?))
    }
}

impl BinEncodable for DohPath {
    ghost emits = { λ x r old new. EmitsValue (doh_path_value x) r old new };

    /// Appends the octets.
    #[inline]
    fn emit(&self, encoder: &mut BinEncoder<'_>) -> Result<(), ProtoError> {
        emit_octets(self.0.as_slice(), encoder)
    }
}

impl Clone for DohPath {
    ghost is_clone = { λ a b. b ≡ a };

    /// Copies the path.
    #[inline]
    fn clone(&self) -> Result<DohPath, AllocError>
        ensures { IfOk result (λ copy. copy ≡ self.now) }
    {
        Ok(DohPath(self.0.clone()?))
    }
}

impl fmt::Display for DohPath {
    ghost use Rattle.std.specs.Prelude.{Some};
    ghost use Rattle.dns_rdata_service.specs.SvcParamValue.{doh_path_text};

    ghost output = { λ x. Some (doh_path_text x) };

    /// Writes the path in quotes: `"/dns-query{?dns}"`. Octets that are not UTF-8 become U+FFFD; a path that was read
    /// has none.
    #[tactic(auto, unfolding(dns_rdata_base::specs::Lossy::lossy))]
    fn fmt<W: fmt::Write>(&self, f: &mut fmt::Formatter<W>) -> fmt::Result {
        let text = BStr::new(self.0.as_slice());
        write!(f, "\"{text}\"")
    }
}
