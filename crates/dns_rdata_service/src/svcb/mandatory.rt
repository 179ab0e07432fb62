//! The keys that a client of a service must know.

ghost use Rattle.std.specs.Prelude.{◌≡◌, drop, IfErr, IfOk};
ghost use Rattle.dns_fields.specs.Tlvs.{Keys};
ghost use Rattle.dns_names_wire.specs.Terms.{ReadsBy};
ghost use Rattle.dns_rdata_service.specs.SvcParamValue.{mandatory_value, MandatoryAt, IsValueError, EmitsValue};

use crate::items::Items;
use crate::svcb::ip_hint::emit_each;
use crate::svcb::key::SvcParamKey;
use dns_check::BinDecodable;
use dns_names_wire::{BinDecoder, BinEncodable, BinEncoder, DecodeError, ProtoError};
use std::alloc::AllocError;
use std::fmt;

/// The keys that a client must know to use a service (RFC 9460, section 8): one or more, in two octets each.
#[derive(Debug, Drop, PartialEq, Eq, Hash)]
pub struct Mandatory(pub Items<SvcParamKey>);

impl Mandatory {
    /// Makes a list of these keys, in this order. Allocates nothing. An empty list cannot be emitted.
    #[inline]
    pub fn new(keys: Vec<SvcParamKey>) -> Mandatory
        ensures { result.0 ≡ keys.items }
    {
        Mandatory(Items::from_vec(keys))
    }
}

impl BinDecodable for Mandatory {
    ghost stands = { MandatoryAt };

    ghost refuses = { λ old e _. IsValueError Keys (drop old.index old.message) e };

    /// Reads keys to the end of the decoder's octets. Allocates once. Returns
    /// [`SvcParamMissingValue`](DecodeError::SvcParamMissingValue) if there are no octets, and
    /// [`InsufficientBytes`](DecodeError::InsufficientBytes) if their number is odd.
    #[tactic(auto, using(crate::proofs::ValueReads::each_more, crate::proofs::ValueReads::keys_read, crate::proofs::ValueReads::keys_odd, crate::proofs::ValueReads::keys_refused, crate::proofs::ValueReads::keys_missing, dns_check::proofs::Splits::stays_then))]
    fn read(decoder: &mut BinDecoder<'_>) -> Result<Mandatory, DecodeError>
        ensures reads { ReadsBy MandatoryAt result decoder.old decoder.new }
        ensures refused { IfErr result (λ e. IsValueError Keys (drop decoder.old.index decoder.old.message) e) }
    {
        if decoder.len() == 0 {
            return Err(DecodeError::SvcParamMissingValue);
        }
        let mut keys = Items::with_capacity(decoder.allocator(), decoder.len() / 2)?;
        'keys: while decoder.len() > 0 {
            keys.push(SvcParamKey::read(decoder)?)?;
        }
        Ok(Mandatory(keys))
    }
}

impl BinEncodable for Mandatory {
    ghost emits = { λ x r old new. EmitsValue (mandatory_value x) r old new };

    /// Appends the keys' numbers. Returns [`Message`](ProtoError::Message) if there are no keys.
    #[tactic(auto, using(crate::proofs::EachEmits::keys_emit))]
    fn emit(&self, encoder: &mut BinEncoder<'_>) -> Result<(), ProtoError> {
        if self.0.len() == 0 {
            return Err(ProtoError::Message("no mandatory keys"));
        }
        emit_each(self.0.as_slice(), encoder)
    }
}

impl Clone for Mandatory {
    ghost is_clone = { λ a b. b ≡ a };

    /// Copies the keys.
    #[inline]
    fn clone(&self) -> Result<Mandatory, AllocError>
        ensures { IfOk result (λ copy. copy ≡ self.now) }
    {
        Ok(Mandatory(self.0.clone()?))
    }
}

impl fmt::Display for Mandatory {
    ghost use Rattle.std.specs.Prelude.{Some};
    ghost use Rattle.dns_rdata_service.specs.SvcParamValue.{mandatory_text};

    ghost output = { λ x. Some (mandatory_text x) };

    /// Writes each key and a comma: `alpn,ipv4hint,`.
    fn fmt<W: fmt::Write>(&self, f: &mut fmt::Formatter<W>) -> fmt::Result {
        for key in self.0.as_slice() {
            write!(f, "{key},")?;
        }
        Ok(())
    }
}
