//! A configuration of Encrypted ClientHello.

ghost use Rattle.std.specs.Prelude.{◌≡◌, drop, IfErr, IfOk};
ghost use Rattle.dns_fields.specs.Tlvs.{AnyOctets};
ghost use Rattle.dns_names_wire.specs.Terms.{ReadsBy};
ghost use Rattle.dns_rdata_service.specs.SvcParamValue.{ech_value, EchConfigListAt, IsValueError, EmitsValue};

use crate::svcb::unknown::emit_octets;
use dns_check::BinDecodable;
use dns_names_wire::{BinDecoder, BinEncodable, BinEncoder, DecodeError, Octets, ProtoError};
use dns_tokens::Base64Text;
use std::alloc::AllocError;
use std::fmt;

/// The ECHConfigList of a service for Encrypted ClientHello, which begins with its length (RFC 9848): any octets.
#[derive(Drop, PartialEq, Eq, Hash)]
pub struct EchConfigList(pub Octets);

impl BinDecodable for EchConfigList {
    ghost stands = { EchConfigListAt };

    ghost refuses = { λ old e _. IsValueError AnyOctets (drop old.index old.message) e };

    /// Reads to the end of the decoder's octets. Allocates once.
    #[inline]
    fn read(decoder: &mut BinDecoder<'_>) -> Result<EchConfigList, DecodeError>
        ensures reads { ReadsBy EchConfigListAt result decoder.old decoder.new }
        ensures refused { IfErr result (λ e. IsValueError AnyOctets (drop decoder.old.index decoder.old.message) e) }
    {
        let left = decoder.len();
        let octets = decoder.read_vec(left)?.unverified();
        Ok(EchConfigList(Octets::from_vec(octets)))
    }
}

impl BinEncodable for EchConfigList {
    ghost emits = { λ x r old new. EmitsValue (ech_value x) r old new };

    /// Appends the octets.
    #[inline]
    fn emit(&self, encoder: &mut BinEncoder<'_>) -> Result<(), ProtoError> {
        emit_octets(self.0.as_slice(), encoder)
    }
}

impl Clone for EchConfigList {
    ghost is_clone = { λ a b. b ≡ a };

    /// Copies the octets.
    #[inline]
    fn clone(&self) -> Result<EchConfigList, AllocError>
        ensures { IfOk result (λ copy. copy ≡ self.now) }
    {
        Ok(EchConfigList(self.0.clone()?))
    }
}

impl fmt::Display for EchConfigList {
    ghost use Rattle.std.specs.Prelude.{Some};
    ghost use Rattle.dns_rdata_service.specs.SvcParamValue.{ech_text};

    ghost output = { λ x. Some (ech_text x) };

    /// Writes base64 in quotes (RFC 4648, section 4): `"AAEC"`.
    fn fmt<W: fmt::Write>(&self, f: &mut fmt::Formatter<W>) -> fmt::Result {
        let octets = Base64Text(self.0.as_slice());
        write!(f, "\"{octets}\"")
    }
}

impl fmt::Debug for EchConfigList {
    /// Writes base64 in parentheses, in quotes: `"EchConfig (AAEC)"`.
    fn fmt<W: fmt::Write>(&self, f: &mut fmt::Formatter<W>) -> fmt::Result {
        let octets = Base64Text(self.0.as_slice());
        write!(f, "\"EchConfig ({octets})\"")
    }
}
