//! The payload of an NSID option (RFC 5001, 2.3).

ghost use Rattle.std.specs.Prelude.{◌≡◌, ◌⊎◌, ◌<◌, ◌≤◌, All, length, IfOk, IfErr, ℕ, List};
ghost use Rattle.dns_names_wire.specs.Terms.{IsMessage};

use dns_names_wire::{DecodeError, Octets, ProtoError};
use std::alloc::{AllocError, Global};
use std::clone::Clone;
use std::marker::Model;

// The most octets that an option has.
const MOST: usize = 65535;

/// The payload of an NSID option (RFC 5001, section 2.3): at most 65535 octets of any form. Contracts see the list of
/// them. Payloads are ordered octet by octet; a proper prefix is less.
#[derive(Debug, Drop, PartialEq, Eq, PartialOrd, Ord, Hash)]
pub struct NSIDPayload {
    octets: Octets,
}

impl Model for NSIDPayload {
    ghost Value = { List ℕ };

    ghost view = { λ p. p.octets };

    ghost invariant = { λ p. length p.octets ≤ 65535 };

    ghost inverse = { λ octets. record { octets = octets } };
}

impl NSIDPayload {
    /// Makes a payload of these octets. More than 65535 give [`Message`](ProtoError::Message). Allocates nothing.
    pub fn new(payload: Vec<u8>) -> Result<NSIDPayload, ProtoError>
        ensures ok { IfOk result (λ p. (p ≡ payload.items) × (length payload.items ≤ 65535)) }
        ensures refused { IfErr result (λ e. IsMessage e × (65535 < length payload.items)) }
    {
        if payload.len() > MOST {
            return Err(ProtoError::Message("NSID payload past 65535 octets"));
        }
        Ok(NSIDPayload {
            octets: Octets::from_vec(payload),
        })
    }

    /// Copies the octets. Allocates once. More than 65535 give
    /// [`IncorrectRDataLengthRead`](DecodeError::IncorrectRDataLengthRead) with their number and 65535.
    pub fn try_from(alloc: Global, payload: &[u8]) -> Result<NSIDPayload, DecodeError>
        ensures ok { IfOk result (λ p. (p ≡ payload.now) × (length payload.now ≤ 65535)) }
        ensures refused { IfErr result (λ e. (e ≡ DecodeError.Memory)
            ⊎ ((e ≡ DecodeError.IncorrectRDataLengthRead (length payload.now) 65535) × (65535 < length payload.now))) }
    {
        let read = payload.len();
        if read > MOST {
            return Err(DecodeError::IncorrectRDataLengthRead { read, len: MOST });
        }
        Ok(NSIDPayload {
            octets: Octets::from_slice(alloc, payload)?,
        })
    }

    /// The octets.
    #[inline]
    pub fn as_ref(&self) -> &[u8]
        ensures value { result.now ≡ self.now }
        ensures octets { All (λ octet. octet < 256) self.now }
        ensures most { length self.now ≤ 65535 }
    {
        self.octets.as_slice()
    }
}

impl Clone for NSIDPayload {
    ghost is_clone = { λ a b. b ≡ a };

    /// Copies the payload.
    #[inline]
    fn clone(&self) -> Result<NSIDPayload, AllocError> {
        Ok(NSIDPayload {
            octets: self.octets.clone()?,
        })
    }
}
