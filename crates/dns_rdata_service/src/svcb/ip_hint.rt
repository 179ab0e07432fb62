//! Addresses of a service.

ghost use Rattle.std.specs.{Prelude.◌≡◌, Prelude.◌⊎◌, Prelude.◌∷◌, Prelude.IfOk, Prelude.IfErr, List.AllZip};
ghost use Rattle.dns_names_wire.specs.Terms.{Extends};
ghost use Rattle.dns_rdata_service.specs.Hints.{ReadsEach, RefusedBehind, EmitsEach};

use crate::items::Items;
use dns_names_wire::{BinDecoder, BinEncodable, BinEncoder, DecodeError, ProtoError};
use dns_rdata_base::TakesOctet;
use std::alloc::AllocError;
use std::fmt;

/// Addresses of a service, one after the other; there may be none (RFC 9460, section 7.3).
#[derive(Debug, Drop, PartialEq, Eq, Hash)]
pub struct IpHint<T>(pub Items<T>);

impl<T> IpHint<T> {
    /// Makes a list of these addresses, in this order. Allocates nothing.
    #[inline]
    pub fn new(addresses: Vec<T>) -> IpHint<T>
        ensures { result.0 ≡ addresses.items }
    {
        IpHint(Items::from_vec(addresses))
    }
}

impl<T: TakesOctet + Drop> IpHint<T> {
    /// Reads addresses to the end of the decoder's octets. If each has as many octets as the first, this allocates
    /// once, besides what reading each address allocates. The errors are those of reading an address, and
    /// [`Memory`](DecodeError::Memory) if an allocation fails.
    #[tactic(auto, using(crate::proofs::ValueReads::each_more))]
    pub fn read(decoder: &mut BinDecoder<'_>) -> Result<IpHint<T>, DecodeError>
        ensures reads { ReadsEach T.stands (λ x. x.0) result decoder.old decoder.new }
        ensures refused { IfErr result (λ e. (e ≡ DecodeError.Memory) ⊎ RefusedBehind T.stands T.refuses decoder.old e decoder.new) }
    {
        let mut items = Items::new(decoder.allocator());
        'items: while decoder.len() > 0 {
            let start = decoder.index();
            let item = T::read(decoder)?;
            let taken = decoder.index() - start;
            items.reserve(1 + decoder.len() / taken)?;
            items.push(item)?;
        }
        Ok(IpHint(items))
    }
}

impl<T: BinEncodable> BinEncodable for IpHint<T> {
    ghost emits = { λ x r old new. EmitsEach T.emits x.0 r old new };

    /// Appends the addresses.
    fn emit(&self, encoder: &mut BinEncoder<'_>) -> Result<(), ProtoError> {
        emit_each(self.0.as_slice(), encoder)
    }
}

// Appends values one after the other.
#[inline]
#[tactic(auto, using(crate::proofs::EachEmits::emits_refused, crate::proofs::EachEmits::extends_on))]
pub(super) fn emit_each<T: BinEncodable>(
    items: &[T],
    encoder: &mut BinEncoder<'_>,
) -> Result<(), ProtoError>
    ensures emits { EmitsEach T.emits items.now result encoder.old encoder.new }
    ensures extends { Extends encoder.old encoder.new }
{
    for item in items {
        item.emit(encoder)?;
    }
    Ok(())
}

impl<T: Clone> Clone for IpHint<T> {
    ghost is_clone = { λ a b. AllZip T.is_clone a.0 b.0 };

    /// Clones the addresses. Allocates once, besides what cloning each address allocates. If clones of addresses are
    /// equal to them, so is the result.
    #[inline]
    fn clone(&self) -> Result<IpHint<T>, AllocError>
        ensures clones { IfOk result (λ copy. AllZip T.is_clone self.now.0 copy.0) }
        ensures same { ((x y : T) → T.is_clone x y → y ≡ x) → IfOk result (λ copy. copy ≡ self.now) }
    {
        Ok(IpHint(self.0.clone()?))
    }
}

impl<T: fmt::Display> fmt::Display for IpHint<T> {
    ghost use Rattle.dns_rdata_service.specs.Hints.{each_text};

    ghost output = { λ x. each_text T.output x.0 };

    /// Writes each address and a comma: `192.0.2.1,192.0.2.2,`.
    fn fmt<W: fmt::Write>(&self, f: &mut fmt::Formatter<W>) -> fmt::Result {
        for item in self.0.as_slice() {
            write!(f, "{item},")?;
        }
        Ok(())
    }
}
