//! Values of keys without a format of their own.

ghost use Rattle.std.specs.Prelude.{◌≡◌, drop, IfErr, IfOk};
ghost use Rattle.dns_fields.specs.Tlvs.{AnyOctets, Opaque};
ghost use Rattle.dns_names_wire.specs.Terms.{Extends, ReadsBy};
ghost use Rattle.dns_rdata_service.specs.SvcParamValue.{unknown_value, UnknownAt, IsValueError, EmitsValue};

use bstr::BStr;
use dns_check::BinDecodable;
use dns_names_wire::{BinDecoder, BinEncodable, BinEncoder, DecodeError, Octets, ProtoError};
use std::alloc::AllocError;
use std::fmt;

/// The value of a key without a format of its own: any octets (RFC 9460, section 2.1).
#[derive(Debug, Drop, PartialEq, Eq, Hash)]
pub struct Unknown(pub Octets);

impl BinDecodable for Unknown {
    ghost stands = { UnknownAt };

    ghost refuses = { λ old e _. IsValueError AnyOctets (drop old.index old.message) e };

    /// Reads to the end of the decoder's octets. Allocates once.
    #[inline]
    fn read(decoder: &mut BinDecoder<'_>) -> Result<Unknown, DecodeError>
        ensures reads { ReadsBy UnknownAt result decoder.old decoder.new }
        ensures refused { IfErr result (λ e. IsValueError AnyOctets (drop decoder.old.index decoder.old.message) e) }
    {
        let left = decoder.len();
        let octets = decoder.read_vec(left)?.unverified();
        Ok(Unknown(Octets::from_vec(octets)))
    }
}

impl BinEncodable for Unknown {
    ghost emits = { λ x r old new. EmitsValue (unknown_value x) r old new };

    /// Appends the octets.
    #[inline]
    fn emit(&self, encoder: &mut BinEncoder<'_>) -> Result<(), ProtoError> {
        emit_octets(self.0.as_slice(), encoder)
    }
}

// Appends the octets of a value that is octets.
#[inline]
#[tactic(auto, using(crate::proofs::EachEmits::rest_emits, crate::proofs::EachEmits::rest_extends))]
pub(super) fn emit_octets(octets: &[u8], encoder: &mut BinEncoder<'_>) -> Result<(), ProtoError>
    ensures emits { EmitsValue (Opaque octets.now) result encoder.old encoder.new }
    ensures extends { Extends encoder.old encoder.new }
{
    encoder.emit_vec(octets)
}

impl Clone for Unknown {
    ghost is_clone = { λ a b. b ≡ a };

    /// Copies the octets.
    #[inline]
    fn clone(&self) -> Result<Unknown, AllocError>
        ensures { IfOk result (λ copy. copy ≡ self.now) }
    {
        Ok(Unknown(self.0.clone()?))
    }
}

impl fmt::Display for Unknown {
    ghost use Rattle.std.specs.Prelude.{Some};
    ghost use Rattle.dns_rdata_service.specs.SvcParamValue.{unknown_text};

    ghost output = { λ x. Some (unknown_text x) };

    /// Writes the octets as text in quotes, and a comma: `"a",`. Octets that are not UTF-8 become U+FFFD.
    #[tactic(auto, unfolding(dns_rdata_base::specs::Lossy::lossy))]
    fn fmt<W: fmt::Write>(&self, f: &mut fmt::Formatter<W>) -> fmt::Result {
        let text = BStr::new(self.0.as_slice());
        write!(f, "\"{text}\",")
    }
}
