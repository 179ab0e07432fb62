//! What is read from a message.

ghost use Rattle.std.specs.Prelude.{◌≡◌, ◌⊎◌, ℕ, List, IfErr, OnErr};
ghost use Rattle.dns_types.specs.{RecordTypes.number_of, RecordTypes.record_type_of};
ghost use Rattle.dns_types.specs.declared.error.DecodeError.{DecodeError as DecodeErrorValue};
ghost use Rattle.dns_fields.specs.{Fields.Field, Names.IsNameIn};
ghost use Rattle.dns_fields.specs.declared.Kind.{TheVariants.Name as NameKind, TheVariants.Number};
ghost use Rattle.dns_names_wire.specs.{State.Reading, Terms.IsNoName, Terms.IsTruncated, Terms.LacksField, Terms.LacksOctets, Terms.ReadsBy, Terms.ReadsField};

use dns_names_wire::{BinDecoder, Name};
use dns_types::{DecodeError, RecordType};

/// A value whose octets in a message tell where it ends.
pub trait BinDecodable: Sized {
    /// In the message the value is encoded from one offset to another.
    ghost stands: { List ℕ → ℕ → Self → ℕ → Type 0 };

    /// Why no value is read, and where the decoder is afterwards.
    ghost refuses: { Reading → DecodeErrorValue → Reading → Type 0 };

    /// Reads a value, if one is encoded at the offset. On error the message is unchanged, and the offset is not before
    /// the one where the call began.
    fn read(decoder: &mut BinDecoder<'_>) -> Result<Self, DecodeError>
        ensures reads { ReadsBy stands result decoder.old decoder.new }
        ensures why { IfErr result (λ e. refuses decoder.old e decoder.new) };
}

impl BinDecodable for RecordType {
    ghost stands = { λ m p t q. Field m p (Number 2) (number_of t) q × (t ≡ record_type_of (number_of t)) };

    ghost refuses = { IsTruncated 2 };

    /// Reads a type's number, two octets (RFC 1035, section 3.2.1). If fewer are left, this returns
    /// [`InsufficientBytes`](DecodeError::InsufficientBytes) and reads none.
    #[inline]
    fn read(decoder: &mut BinDecoder<'_>) -> Result<RecordType, DecodeError>
        ensures reads { ReadsBy (λ m p t q. Field m p (Number 2) (number_of t) q × (t ≡ record_type_of (number_of t))) result decoder.old decoder.new }
        ensures lacking { IfErr result (λ e. (e ≡ DecodeError.InsufficientBytes) × LacksOctets decoder.old 2) }
        ensures unchanged { OnErr result (decoder.new ≡ decoder.old) }
    {
        // For the proof: brings in that the message is octets and the index is at most its length.
        let _start = decoder.index();
        let number = decoder.read_u16()?.unverified();
        Ok(RecordType::from(number))
    }
}

impl BinDecodable for Name {
    ghost stands = { IsNameIn };

    ghost refuses = { IsNoName };

    /// Reads a name, as [`Name::read`] without this trait.
    #[inline]
    fn read(decoder: &mut BinDecoder<'_>) -> Result<Name, DecodeError>
        ensures reads { ReadsBy IsNameIn result decoder.old decoder.new }
        ensures field { ReadsField NameKind (λ x. x) result decoder.old decoder.new }
        ensures lacking { IfErr result (λ e. (e ≡ DecodeError.Memory) ⊎ ((e ≡ DecodeError.NameInvalid) × LacksField decoder.old NameKind)) }
        ensures unchanged { OnErr result (decoder.new ≡ decoder.old) }
    {
        Name::read(decoder)
    }
}
