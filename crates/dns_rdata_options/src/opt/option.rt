//! The options of EDNS (RFC 6891, 6.1.2).

ghost use Rattle.std.specs.Prelude.{◌≡◌, ◌⊎◌, ◌≤◌, ◌<◌, ◌↔◌, length, IsTrue, IfOk, IfErr, ℕ, []};
ghost use Rattle.dns_fields.specs.Tlvs.{option_octets, IsEmittableOption};
ghost use Rattle.dns_names_wire.specs.Terms.{EmitsFitting, IsMessage};
ghost use Rattle.dns_rdata_options.specs.EdnsOption.{option_value, option_len, code_of, ReadsOption};

use crate::opt::code::EdnsCode;
use crate::opt::payload::NSIDPayload;
use crate::opt::subnet::ClientSubnet;
use dns_names_wire::{BinEncodable, BinEncoder, DecodeError, Octets, ProtoError};
use std::alloc::{AllocError, Global};

/// An EDNS option (RFC 6891, section 6.1.2). Options are ordered by variant, and then by their data.
#[derive(Debug, PartialEq, Eq, PartialOrd, Ord, Hash, Drop)]
pub enum EdnsOption {
    /// The subnet of a client (RFC 7871).
    Subnet(ClientSubnet),
    /// The name server's identifier (RFC 5001).
    NSID(NSIDPayload),
    /// Any other option: the number of its code, and its octets.
    Unknown(u16, Octets),
}

impl EdnsOption {
    /// Returns how many octets it has on the wire.
    #[inline]
    pub fn len(&self) -> u16
        requires { option_len self.now ≤ 65535 }
        ensures { result ≡ option_len self.now }
    {
        self.octets_len() as u16
    }

    // How many octets it has on the wire.
    #[inline]
    pub(crate) fn octets_len(&self) -> usize
        ensures { result ≡ option_len self.now }
    {
        match self {
            EdnsOption::Subnet(subnet) => subnet.len() as usize,
            EdnsOption::NSID(payload) => payload.as_ref().len(),
            EdnsOption::Unknown(_, octets) => octets.len(),
        }
    }

    /// Returns whether it has no octets on the wire.
    #[inline]
    pub fn is_empty(&self) -> bool
        ensures { IsTrue result ↔ (option_len self.now ≡ 0) }
    {
        self.octets_len() == 0
    }

    /// Makes the option of this code from its octets. The variant of the code decides: `EdnsCode::Unknown` gives
    /// `Unknown`, whatever its number. Allocates once for the octets; for a subnet nothing.
    ///
    /// # Errors
    ///
    /// For `Subnet` those of `ClientSubnet::read`, for `NSID` those of `NSIDPayload::try_from`; for all others only
    /// [`Memory`](DecodeError::Memory), if an allocation fails.
    pub fn try_from(alloc: Global, value: (EdnsCode, &[u8])) -> Result<EdnsOption, DecodeError>
        ensures { ReadsOption value.entry.0 value.entry.1.now result }
    {
        let (code, octets) = value;
        match code {
            EdnsCode::Subnet => Ok(EdnsOption::Subnet(ClientSubnet::try_from(octets)?)),
            EdnsCode::NSID => Ok(EdnsOption::NSID(NSIDPayload::try_from(alloc, octets)?)),
            code => Ok(EdnsOption::Unknown(u16::from(code), Octets::from_slice(alloc, octets)?)),
        }
    }

    /// Returns the octets that `emit` appends to a fresh encoder. The errors are those of `emit`.
    pub fn to_vec(&self, alloc: Global) -> Result<Vec<u8>, ProtoError>
        ensures ok { IfOk result (λ octets. (octets.items ≡ option_octets (option_value self.now))
            × IsEmittableOption (option_value self.now)) }
        ensures refused { IfErr result (λ e. (e ≡ ProtoError.Memory)
            ⊎ ((IsMessage e × (IsEmittableOption (option_value self.now) → ⊥))
            ⊎ ((e ≡ ProtoError.MaxBufferSizeExceeded) × (65535 < length (option_octets (option_value self.now)))))) }
    {
        let mut octets = Vec::with_capacity(alloc, self.octets_len().min(65535))?;
        let mut encoder = BinEncoder::new(alloc, &mut octets);
        self.emit(&mut encoder)?;
        let _octets = encoder.into_bytes();
        Ok(octets)
    }
}

impl BinEncodable for EdnsOption {
    ghost emits = { λ x r old new. EmitsFitting (IsEmittableOption (option_value x)) (option_octets (option_value x)) r old new };

    /// Appends the octets, without code and length. The errors of a subnet are those of its own `emit`. No other option
    /// gives [`Message`](ProtoError::Message).
    fn emit(&self, encoder: &mut BinEncoder<'_>) -> Result<(), ProtoError> {
        match self {
            EdnsOption::Subnet(subnet) => subnet.emit(encoder),
            EdnsOption::NSID(payload) => emit_octets(encoder, payload.as_ref()),
            EdnsOption::Unknown(_, octets) => emit_octets(encoder, octets.as_slice()),
        }
    }
}

// Appends the octets of an option of any form.
#[tactic(auto, unfolding(dns_fields::specs::Fields::field_octets))]
fn emit_octets(encoder: &mut BinEncoder<'_>, octets: &[u8]) -> Result<(), ProtoError>
    ensures { EmitsFitting (Unit {0}) octets.now result encoder.old encoder.new }
{
    encoder.emit_vec(octets)?;
    Ok(())
}

impl Clone for EdnsOption {
    ghost is_clone = { λ a b. b ≡ a };

    /// Copies the option.
    #[inline]
    fn clone(&self) -> Result<EdnsOption, AllocError> {
        match self {
            EdnsOption::Subnet(subnet) => Ok(EdnsOption::Subnet(*subnet)),
            EdnsOption::NSID(payload) => Ok(EdnsOption::NSID(payload.clone()?)),
            EdnsOption::Unknown(number, octets) => Ok(EdnsOption::Unknown(
                *number,
                octets.clone()?,
            )),
        }
    }
}

impl From<&EdnsOption> for EdnsCode {
    ghost from_gives = { λ option code. code ≡ code_of option.now };

    /// Returns the option's own code. For `Unknown` it is the one that `EdnsCode::from` gives for the number.
    fn from(option: &EdnsOption) -> EdnsCode {
        match option {
            EdnsOption::Subnet(_) => EdnsCode::Subnet,
            EdnsOption::NSID(_) => EdnsCode::NSID,
            EdnsOption::Unknown(number, _) => EdnsCode::from(*number),
        }
    }
}
