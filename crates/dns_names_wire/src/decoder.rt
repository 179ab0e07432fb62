//! Reads a message.

ghost use Rattle.std.specs.Prelude.{◌≡◌, true, ◌+◌, ◌*◌, ◌-◌, ◌/◌, ◌^◌, ◌<◌, ◌≤◌, ◌⊎◌, ◌↔◌, IsTrue, length, drop, slice_get, IfOk, IfErr, OnOk, OnErr};
ghost use Rattle.std.specs.Int.{cast_unsigned, w32};
ghost use Rattle.dns_fields.specs.{declared.Kind.TheVariants.Number, declared.Kind.TheVariants.Octets};
ghost use Rattle.dns_fields.specs.{declared.Kind.TheVariants.CharacterString, declared.Kind.TheVariants.Name};
ghost use Rattle.dns_fields.specs.{Octets.AreOctets};
ghost use Rattle.dns_names_wire.specs.{Terms.TookField, Terms.LacksField, Terms.ReadsField, Terms.LacksOctets, Terms.LacksText};
ghost use Rattle.dns_labels.specs.Labels.{AreNameOctets, name_of};

use crate::walk::Walk;
use dns_labels::reading::read_octets;
use dns_labels::{NameError, NameOctets};
use dns_types::{DecodeError, Restrict, SmallOctets};
use std::alloc::Global;
use std::marker::Model;

/// Reads a message (RFC 1035, section 4.1): the message, and the offset of the octet that is read next.
///
/// On error the message is unchanged and the decoder is not before the offset where the call began; use
/// [`BinDecoder::at`] or [`clone`](BinDecoder::clone) to go on elsewhere.
///
/// ```rust
/// fn count_answers(alloc: Global, message: &[u8]) -> Result<u16, DecodeError> {
///     let mut decoder = BinDecoder::new(alloc, message);
///     decoder.read_slice(6)?;
///     let answers = decoder.read_u16()?.unverified();
///     Ok(answers)
/// }
/// ```
#[derive(Drop)]
pub struct BinDecoder<'a> {
    alloc: Global,
    walk: Walk<'a>,
}

impl<'a> Model for BinDecoder<'a> {
    ghost use Rattle.dns_names_wire.specs.State.{Reading};

    ghost Value = { Reading };

    ghost view = { λ d. d.walk };
}

impl<'a> BinDecoder<'a> {
    /// A decoder at the first octet of a message. Values that are read later are allocated from `alloc`; this call
    /// allocates nothing.
    #[inline]
    pub fn new(alloc: Global, message: &'a [u8]) -> BinDecoder<'a>
        ensures { result ≡ record { message = message.now; index = 0 } }
    {
        BinDecoder {
            alloc,
            walk: Walk::at(message, 0),
        }
    }

    /// A decoder at an offset of a message, so that a reader can go on after a record that was rejected. Values that
    /// are read later are allocated from `alloc`; this call allocates nothing.
    ///
    /// # Errors
    ///
    /// [`InsufficientBytes`](DecodeError::InsufficientBytes): the offset is past the message's end.
    ///
    /// ```rust
    /// fn read_address_at(
    ///     alloc: Global,
    ///     message: &[u8],
    ///     offset: usize,
    /// ) -> Result<RData, DecodeError> {
    ///     let mut decoder = BinDecoder::at(alloc, message, offset)?;
    ///     RData::read(&mut decoder, RecordType::A, Restrict::new(4))
    /// }
    /// ```
    #[inline]
    pub fn at(
        alloc: Global,
        message: &'a [u8],
        offset: usize,
    ) -> Result<BinDecoder<'a>, DecodeError>
        ensures there { IfOk result (λ d. d ≡ record { message = message.now; index = offset }) }
        ensures inside { OnOk result (offset ≤ length message.now) }
        ensures outside { IfErr result (λ e. (e ≡ DecodeError.InsufficientBytes) × (length message.now < offset)) }
    {
        if offset > message.len() {
            return Err(DecodeError::InsufficientBytes);
        }
        Ok(BinDecoder {
            alloc,
            walk: Walk::at(message, offset),
        })
    }

    /// Another decoder of the same message, at this offset; this one stays where it is. Allocates nothing.
    ///
    /// # Errors
    ///
    /// [`InsufficientBytes`](DecodeError::InsufficientBytes): the offset is past the message's end.
    #[inline]
    pub fn clone(&self, index_at: usize) -> Result<BinDecoder<'a>, DecodeError>
        ensures there { IfOk result (λ d. d ≡ record { message = self.now.message; index = index_at }) }
        ensures inside { OnOk result (index_at ≤ length self.now.message) }
        ensures outside { IfErr result (λ e. (e ≡ DecodeError.InsufficientBytes) × (length self.now.message < index_at)) }
    {
        BinDecoder::at(self.alloc, self.message(), index_at)
    }

    /// The allocator of the values that are read.
    #[inline]
    pub fn allocator(&self) -> Global {
        self.alloc
    }

    /// The whole message.
    #[inline]
    pub fn message(&self) -> &'a [u8]
        ensures { result.now ≡ self.now.message }
    {
        self.walk.message()
    }

    /// The offset of the next octet, counted from the first octet of the message.
    #[inline]
    pub fn index(&self) -> usize
        ensures offset { result ≡ self.now.index }
        ensures inside { self.now.index ≤ length self.now.message }
        ensures octets { AreOctets self.now.message }
        ensures small { result < 2 ^ 63 }
    {
        self.walk.index()
    }

    /// The decoder without its allocator, at this offset. This one stays where it is; [`follow`](BinDecoder::follow) moves
    /// it to where the walk went.
    #[inline]
    pub fn walk(&self) -> Walk<'a>
        ensures { result ≡ self.now }
    {
        Walk::at(self.message(), self.index())
    }

    /// Goes to where a walk over the same message is.
    #[inline]
    pub fn follow(&mut self, walk: &Walk<'a>)
        requires { walk.now.message ≡ self.old.message }
        ensures { self.new ≡ walk.now }
    {
        self.walk.move_to(walk.index());
    }

    /// How many octets of the message are left.
    #[inline]
    pub fn len(&self) -> usize
        ensures left { self.now.index + result ≡ length self.now.message }
    {
        self.message().len() - self.index()
    }

    /// Whether no octet is left.
    #[inline]
    pub fn is_empty(&self) -> bool
        ensures { IsTrue result ↔ (self.now.index ≡ length self.now.message) }
    {
        self.index() == self.message().len()
    }

    /// The octets that are left. The decoder stays where it is.
    #[inline]
    pub fn unread(&self) -> Restrict<&'a [u8]>
        ensures { result.now ≡ drop self.now.index self.now.message }
    {
        Restrict::new(self.walk.unread())
    }

    /// The next octet, or `None` at the end of the message. The decoder stays where it is.
    #[inline]
    pub fn peek(&self) -> Option<Restrict<u8>>
        ensures { result ≡ slice_get self.now.message self.now.index }
    {
        match self.message().get(self.index()) {
            Some(octet) => Some(Restrict::new(*octet)),
            None => None,
        }
    }

    /// Reads the next `len` octets, as a part of the message. Allocates nothing.
    ///
    /// # Errors
    ///
    /// [`InsufficientBytes`](DecodeError::InsufficientBytes): fewer octets are left. Nothing is read then.
    #[inline]
    pub fn read_slice(&mut self, len: usize) -> Result<Restrict<&'a [u8]>, DecodeError>
        ensures taken { IfOk result (λ octets. TookField self.old (Octets len) octets.now self.new) }
        ensures lacking { IfErr result (λ e. (e ≡ DecodeError.InsufficientBytes) × LacksOctets self.old len) }
        ensures unchanged { OnErr result (self.new ≡ self.old) }
    {
        Ok(Restrict::new(self.walk.read_slice(len)?))
    }

    /// Reads the next `len` octets into a vector. Allocates once.
    ///
    /// # Errors
    ///
    /// Nothing is read then.
    ///
    /// - [`InsufficientBytes`](DecodeError::InsufficientBytes): fewer octets are left.
    /// - [`Memory`](DecodeError::Memory): the allocation failed.
    #[inline]
    pub fn read_vec(&mut self, len: usize) -> Result<Restrict<Vec<u8>>, DecodeError>
        ensures taken { IfOk result (λ octets. TookField self.old (Octets len) octets.items self.new) }
        ensures refused { IfErr result (λ e. (e ≡ DecodeError.Memory)
            ⊎ ((e ≡ DecodeError.InsufficientBytes) × LacksOctets self.old len)) }
        ensures unchanged { OnErr result (self.new ≡ self.old) }
    {
        let mut ahead = self.walk();
        let octets = Vec::from_slice(self.alloc, ahead.read_slice(len)?)?;
        self.follow(&ahead);
        Ok(Restrict::new(octets))
    }

    /// Reads the next `len` octets into a value. Allocates once if they are more than `N`.
    ///
    /// # Errors
    ///
    /// Nothing is read then.
    ///
    /// - [`InsufficientBytes`](DecodeError::InsufficientBytes): fewer octets are left.
    /// - [`Memory`](DecodeError::Memory): the allocation failed.
    #[inline(always)]
    pub fn read_small<const N: usize>(
        &mut self,
        len: usize,
    ) -> Result<Restrict<SmallOctets<N>>, DecodeError>
        ensures taken { IfOk result (λ octets. TookField self.old (Octets len) octets self.new) }
        ensures refused { IfErr result (λ e. (e ≡ DecodeError.Memory)
            ⊎ ((e ≡ DecodeError.InsufficientBytes) × LacksOctets self.old len)) }
        ensures unchanged { OnErr result (self.new ≡ self.old) }
    {
        let mut ahead = self.walk();
        let octets = SmallOctets::from_slice(self.alloc, ahead.read_slice(len)?)?;
        self.follow(&ahead);
        Ok(Restrict::new(octets))
    }

    /// Reads the next `len` octets, `step` by `step`. Allocates nothing.
    ///
    /// # Errors
    ///
    /// [`InsufficientBytes`](DecodeError::InsufficientBytes): fewer octets are left. The whole steps that are there are
    /// read then.
    #[inline]
    pub fn read_in_steps(
        &mut self,
        len: usize,
        step: usize,
    ) -> Result<Restrict<&'a [u8]>, DecodeError>
        requires { 0 < step }
        ensures taken { IfOk result (λ octets. TookField self.old (Octets len) octets.now self.new) }
        ensures lacking { IfErr result (λ e. (e ≡ DecodeError.InsufficientBytes) × LacksOctets self.old len) }
        ensures inside { self.old.index ≤ length self.old.message }
        ensures message { self.new.message ≡ self.old.message }
        ensures stopped { OnErr result (self.new.index ≡ self.old.index + (length self.old.message - self.old.index) / step * step) }
    {
        Ok(Restrict::new(self.walk.read_in_steps(len, step)?))
    }

    /// Reads the next octet, as [`read_u8`](BinDecoder::read_u8).
    #[inline]
    pub fn pop(&mut self) -> Result<Restrict<u8>, DecodeError>
        ensures taken { ReadsField (Number 1) (λ n. n) result self.old self.new }
        ensures lacking { IfErr result (λ e. (e ≡ DecodeError.InsufficientBytes) × LacksOctets self.old 1) }
        ensures unchanged { OnErr result (self.new ≡ self.old) }
    {
        self.read_u8()
    }

    /// Reads a number of one octet. Allocates nothing.
    ///
    /// # Errors
    ///
    /// [`InsufficientBytes`](DecodeError::InsufficientBytes): no octet is left.
    #[inline]
    pub fn read_u8(&mut self) -> Result<Restrict<u8>, DecodeError>
        ensures taken { ReadsField (Number 1) (λ n. n) result self.old self.new }
        ensures lacking { IfErr result (λ e. (e ≡ DecodeError.InsufficientBytes) × LacksOctets self.old 1) }
        ensures unchanged { OnErr result (self.new ≡ self.old) }
    {
        Ok(Restrict::new(self.walk.read_u8()?))
    }

    /// Reads a number of two octets in network order. Allocates nothing.
    ///
    /// # Errors
    ///
    /// [`InsufficientBytes`](DecodeError::InsufficientBytes): fewer octets are left. Nothing is read then.
    #[inline]
    pub fn read_u16(&mut self) -> Result<Restrict<u16>, DecodeError>
        ensures taken { ReadsField (Number 2) (λ n. n) result self.old self.new }
        ensures lacking { IfErr result (λ e. (e ≡ DecodeError.InsufficientBytes) × LacksOctets self.old 2) }
        ensures unchanged { OnErr result (self.new ≡ self.old) }
    {
        Ok(Restrict::new(self.walk.read_u16()?))
    }

    /// Reads a number of four octets in network order. Fails as [`read_u16`](BinDecoder::read_u16). Allocates nothing.
    #[inline]
    pub fn read_u32(&mut self) -> Result<Restrict<u32>, DecodeError>
        ensures taken { ReadsField (Number 4) (λ n. n) result self.old self.new }
        ensures lacking { IfErr result (λ e. (e ≡ DecodeError.InsufficientBytes) × LacksOctets self.old 4) }
        ensures unchanged { OnErr result (self.new ≡ self.old) }
    {
        Ok(Restrict::new(self.walk.read_u32()?))
    }

    /// Reads a signed number of four octets in network order, in two's complement. Fails as
    /// [`read_u16`](BinDecoder::read_u16). Allocates nothing.
    #[inline]
    pub fn read_i32(&mut self) -> Result<Restrict<i32>, DecodeError>
        ensures taken { ReadsField (Number 4) (λ n. cast_unsigned w32 n) result self.old self.new }
        ensures lacking { IfErr result (λ e. (e ≡ DecodeError.InsufficientBytes) × LacksOctets self.old 4) }
        ensures unchanged { OnErr result (self.new ≡ self.old) }
    {
        Ok(Restrict::new(self.walk.read_u32()?.cast_signed()))
    }

    /// Reads a character string (RFC 1035, section 3.3): a length octet, and so many octets, which are returned as a
    /// part of the message. Allocates nothing.
    ///
    /// # Errors
    ///
    /// [`InsufficientBytes`](DecodeError::InsufficientBytes): octets are missing. The length octet is read if it is
    /// there.
    #[inline]
    pub fn read_character_data(&mut self) -> Result<Restrict<&'a [u8]>, DecodeError>
        ensures taken { ReadsField CharacterString (λ s. s.now) result self.old self.new }
        ensures lacking { IfErr result (λ e. (e ≡ DecodeError.InsufficientBytes) × LacksText self.old self.new) }
    {
        Ok(Restrict::new(self.walk.read_character_data()?))
    }

    /// Reads a name (RFC 1035, sections 3.1 and 4.1.4), and returns its octets without the final zero octet.
    pub(crate) fn read_name(&mut self) -> Result<NameOctets, DecodeError>
        ensures taken { ReadsField Name (λ octets. name_of octets true) result self.old self.new }
        ensures octets { IfOk result AreNameOctets }
        ensures lacking { IfErr result (λ e. (e ≡ DecodeError.Memory) ⊎ ((e ≡ DecodeError.NameInvalid) × LacksField self.old Name)) }
        ensures unchanged { OnErr result (self.new ≡ self.old) }
    {
        match read_octets(self.alloc, self.message(), self.index()) {
            Ok((octets, end)) => {
                self.walk.move_to(end);
                Ok(octets)
            }
            Err(NameError::Memory) => Err(DecodeError::Memory),
            Err(NameError::Invalid) => Err(DecodeError::NameInvalid),
        }
    }
}
