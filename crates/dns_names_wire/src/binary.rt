//! What is written to a message.

ghost use Rattle.std.specs.Prelude.{◌≡◌, Result, OnErr};
ghost use Rattle.dns_types.specs.{RecordTypes.number_of, declared.error.ProtoError.ProtoError as ProtoErrorValue};
ghost use Rattle.dns_fields.specs.declared.Kind.{TheVariants.Number};
ghost use Rattle.dns_names_wire.specs.{State.Writing, Terms.EmitsField, Terms.Extends};

use crate::encoder::BinEncoder;
use dns_types::{ProtoError, RecordType};

/// A value that is appended to a message.
pub trait BinEncodable {
    /// What emitting the value returns, and what the encoder is afterwards.
    ghost emits: { Self → Result (Unit {0}) ProtoErrorValue → Writing → Writing → Type 0 };

    /// Appends the value's octets. On error the octets that were there before are unchanged.
    ///
    /// # Errors
    ///
    /// - [`MaxBufferSizeExceeded`](ProtoError::MaxBufferSizeExceeded): the octets would pass the limit.
    /// - [`Memory`](ProtoError::Memory): an allocation failed.
    /// - [`Message`](ProtoError::Message): the value cannot be emitted.
    fn emit(&self, encoder: &mut BinEncoder<'_>) -> Result<(), ProtoError>
        ensures emits { emits self.now result encoder.old encoder.new }
        // The octets that were there, the limit, the mode and the vector are unchanged, and no octet that was appended
        // is past the limit.
        ensures extends { Extends encoder.old encoder.new };
}

impl BinEncodable for RecordType {
    ghost emits = { λ t r old new. EmitsField (Number 2) (number_of t) r old new };

    /// Appends the type's number, two octets (RFC 1035, 3.2.1).
    #[inline]
    fn emit(&self, encoder: &mut BinEncoder<'_>) -> Result<(), ProtoError>
        ensures emits { EmitsField (Number 2) (number_of self.now) result encoder.old encoder.new }
        ensures extends { Extends encoder.old encoder.new }
        ensures whole { OnErr result (encoder.new ≡ encoder.old) }
    {
        encoder.emit_u16(self.number())
    }
}
