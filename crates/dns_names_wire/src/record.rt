//! What the data of a record is, said once for its reader, its emitter and its comparison.

ghost use Rattle.std.specs.Prelude.{◌≡◌};
ghost use Rattle.dns_fields.specs.declared.RDataEncoding.{RDataEncoding as RDataEncodingValue};
ghost use Rattle.dns_rows.specs.Table.{kinds_of};
ghost use Rattle.dns_names_wire.specs.Facts.{Facts, RecordEmits};
ghost use Rattle.dns_names_wire.specs.Terms.{Emits, EmitsAs, Extends, Keeps};

use crate::binary::BinEncodable;
use crate::encoder::BinEncoder;
use dns_fields::RDataEncoding;
use dns_rows::Part;
use dns_types::ProtoError;

/// The RDATA of one type.
pub trait Record: Sized {
    /// Its row and its fields, and what is true of a value that was read.
    ghost facts: { Facts Self };

    /// The row of the type: its fields and what is asked of them.
    fn row() -> &'static [Part]
        ensures { result.now ≡ Self.facts.row };
}

/// A record that is emitted field by field.
pub trait EncodesFields: Record {
    /// How the type's names are written.
    const MODE: RDataEncoding;

    ghost MODE: { RDataEncodingValue };

    /// Appends the fields, names in the encoder's mode.
    fn emit_fields(&self, encoder: &mut BinEncoder<'_>) -> Result<(), ProtoError>
        ensures emits { Emits (kinds_of Self.facts.row) (Self.facts.fields self.now) result encoder.old encoder.new };
}

/// Appends the fields, names in this mode. Afterwards, also on error, the encoder is in its earlier mode.
#[inline(always)]
pub fn emit_in<T: EncodesFields>(
    mode: RDataEncoding,
    value: &T,
    encoder: &mut BinEncoder<'_>,
) -> Result<(), ProtoError>
    ensures emits { EmitsAs mode (kinds_of T.facts.row) (T.facts.fields value.now) result encoder.old encoder.new }
    ensures extends { Extends encoder.old encoder.new }
    ensures keeps { Keeps encoder.old encoder.new }
{
    let earlier = encoder.with_rdata_behavior(mode);
    // Each way out returns by itself, so that the usual one makes no result of the other.
    if let Err(e) = value.emit_fields(encoder) {
        encoder.with_rdata_behavior(earlier);
        return Err(e);
    }
    encoder.with_rdata_behavior(earlier);
    Ok(())
}

impl<T: EncodesFields> BinEncodable for T {
    ghost emits = { RecordEmits T.MODE T.facts };

    /// Appends the fields in order, names in the type's mode: with compression pointers (RFC 1035, section 4.1.4) or
    /// uncompressed. Afterwards, also on error, the encoder is in its earlier mode.
    ///
    /// # Errors
    ///
    /// - [`MaxBufferSizeExceeded`](ProtoError::MaxBufferSizeExceeded): the octets would pass the limit.
    /// - [`Memory`](ProtoError::Memory): an allocation failed.
    /// - [`Message`](ProtoError::Message): a field cannot be emitted. The fields before it may have been appended.
    #[inline]
    fn emit(&self, encoder: &mut BinEncoder<'_>) -> Result<(), ProtoError> {
        emit_in(T::MODE, self, encoder)
    }
}
