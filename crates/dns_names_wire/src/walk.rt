//! A decoder without an allocator.

ghost use Rattle.std.specs.Prelude.{◌≡◌, ◌+◌, ◌*◌, ◌-◌, ◌/◌, ◌^◌, ◌<◌, ◌≤◌, length, drop, IfOk, IfErr, OnErr, OnOk};
ghost use Rattle.dns_fields.specs.{declared.Kind.TheVariants.Number, declared.Kind.TheVariants.Octets, declared.Kind.TheVariants.CharacterString, declared.Kind.TheVariants.Name, Octets.AreOctets};
ghost use Rattle.dns_names_wire.specs.Terms.{TookField, LacksField, ReadsField, LacksOctets, LacksText};
ghost use Rattle.dns_names_wire.specs.{Terms.TookSome, Terms.moved, Steps.NameSteps, Steps.Leaves};

use crate::name_ends::pass_name;
use dns_types::DecodeError;
use std::marker::Model;

/// Reads a message as `BinDecoder` does, but has no allocator: what is read is a part of the message.
#[derive(Drop)]
pub struct Walk<'a> {
    message: &'a [u8],
    index: usize,
}

impl<'a> Model for Walk<'a> {
    ghost use Rattle.std.specs.Prelude.{◌≤◌, length};
    ghost use Rattle.dns_fields.specs.Octets.{AreOctets};
    ghost use Rattle.dns_names_wire.specs.State.{Reading};

    ghost Value = { Reading };

    ghost view = { λ d. record { message = d.message.now; index = d.index } };

    ghost invariant = { λ d. (d.index ≤ length d.message.now) × AreOctets d.message.now };
}

impl<'a> Walk<'a> {
    /// A decoder at an offset of a message, which is at most the message's length.
    #[inline]
    pub fn at(message: &'a [u8], index: usize) -> Walk<'a>
        requires { index ≤ length message.now }
        ensures { result ≡ record { message = message.now; index = index } }
    {
        Walk { message, index }
    }

    /// The message.
    #[inline]
    pub fn message(&self) -> &'a [u8]
        ensures { result.now ≡ self.now.message }
    {
        self.message
    }

    /// The offset of the next octet.
    #[inline]
    pub fn index(&self) -> usize
        ensures offset { result ≡ self.now.index }
        ensures inside { self.now.index ≤ length self.now.message }
        ensures octets { AreOctets self.now.message }
        ensures small { result < 2 ^ 63 }
    {
        self.index
    }

    /// The octets that are left. The decoder stays where it is.
    #[inline]
    pub fn unread(&self) -> &'a [u8]
        ensures { result.now ≡ drop self.now.index self.now.message }
    {
        &self.message[self.index..]
    }

    /// Goes to an offset of the message.
    #[inline]
    pub fn move_to(&mut self, index: usize)
        requires { index ≤ length self.old.message }
        ensures { self.new ≡ moved self.old index }
    {
        self.index = index;
    }

    /// Reads the next `len` octets.
    ///
    /// # Errors
    ///
    /// [`InsufficientBytes`](DecodeError::InsufficientBytes): fewer octets are left. Nothing is read then.
    #[inline]
    pub fn read_slice(&mut self, len: usize) -> Result<&'a [u8], DecodeError>
        ensures taken { IfOk result (λ octets. TookField self.old (Octets len) octets.now self.new) }
        ensures lacking { IfErr result (λ e. (e ≡ DecodeError.InsufficientBytes) × LacksOctets self.old len) }
        ensures unchanged { OnErr result (self.new ≡ self.old) }
        ensures octets { AreOctets self.old.message }
    {
        let message = self.message;
        let start = self.index;
        if message.len() - start < len {
            return Err(DecodeError::InsufficientBytes);
        }
        self.index = start + len;
        Ok(&message[start..start + len])
    }

    /// Reads the next `len` octets, `step` by `step`.
    ///
    /// # Errors
    ///
    /// [`InsufficientBytes`](DecodeError::InsufficientBytes): fewer octets are left. The whole steps that are there are
    /// read then.
    #[inline]
    pub fn read_in_steps(&mut self, len: usize, step: usize) -> Result<&'a [u8], DecodeError>
        requires { 0 < step }
        ensures taken { IfOk result (λ octets. TookField self.old (Octets len) octets.now self.new) }
        ensures lacking { IfErr result (λ e. (e ≡ DecodeError.InsufficientBytes) × LacksOctets self.old len) }
        ensures inside { self.old.index ≤ length self.old.message }
        ensures message { self.new.message ≡ self.old.message }
        ensures stopped { OnErr result (self.new.index ≡ self.old.index + (length self.old.message - self.old.index) / step * step) }
    {
        let message = self.message;
        let start = self.index;
        let left = message.len() - start;
        if left < len {
            self.index = start + left / step * step;
            return Err(DecodeError::InsufficientBytes);
        }
        self.index = start + len;
        Ok(&message[start..start + len])
    }

    /// Reads a number of one octet.
    ///
    /// # Errors
    ///
    /// [`InsufficientBytes`](DecodeError::InsufficientBytes): no octet is left.
    #[inline]
    pub fn read_u8(&mut self) -> Result<u8, DecodeError>
        ensures taken { ReadsField (Number 1) (λ n. n) result self.old self.new }
        ensures lacking { IfErr result (λ e. (e ≡ DecodeError.InsufficientBytes) × LacksOctets self.old 1) }
        ensures unchanged { OnErr result (self.new ≡ self.old) }
    {
        let octets = self.read_slice(1)?;
        Ok(octets[0])
    }

    /// Reads a number of two octets in network order.
    ///
    /// # Errors
    ///
    /// [`InsufficientBytes`](DecodeError::InsufficientBytes): fewer octets are left. Nothing is read then.
    #[inline]
    pub fn read_u16(&mut self) -> Result<u16, DecodeError>
        ensures taken { ReadsField (Number 2) (λ n. n) result self.old self.new }
        ensures lacking { IfErr result (λ e. (e ≡ DecodeError.InsufficientBytes) × LacksOctets self.old 2) }
        ensures unchanged { OnErr result (self.new ≡ self.old) }
    {
        let octets = self.read_slice(2)?;
        Ok(u16::from_be_bytes([octets[0], octets[1]]))
    }

    /// Reads a number of four octets in network order. Fails as [`read_u16`](Walk::read_u16).
    #[inline]
    pub fn read_u32(&mut self) -> Result<u32, DecodeError>
        ensures taken { ReadsField (Number 4) (λ n. n) result self.old self.new }
        ensures lacking { IfErr result (λ e. (e ≡ DecodeError.InsufficientBytes) × LacksOctets self.old 4) }
        ensures unchanged { OnErr result (self.new ≡ self.old) }
    {
        let octets = self.read_slice(4)?;
        Ok(u32::from_be_bytes([octets[0], octets[1], octets[2], octets[3]]))
    }

    /// Reads a character string (RFC 1035, 3.3): a length octet, and so many octets, which are returned.
    ///
    /// # Errors
    ///
    /// [`InsufficientBytes`](DecodeError::InsufficientBytes): octets are missing. The length octet is read if it is
    /// there.
    #[inline]
    pub fn read_character_data(&mut self) -> Result<&'a [u8], DecodeError>
        ensures taken { ReadsField CharacterString (λ s. s.now) result self.old self.new }
        ensures lacking { IfErr result (λ e. (e ≡ DecodeError.InsufficientBytes) × LacksText self.old self.new) }
    {
        let len = self.read_u8()?;
        let octets = self.read_slice(len as usize)?;
        Ok(octets)
    }

    /// Reads over a name (RFC 1035, 3.1 and 4.1.4), and subtracts from `left` how many steps are taken,
    /// whether a name is encoded there or not; it stops at 0.
    ///
    /// # Errors
    ///
    /// [`NameInvalid`](DecodeError::NameInvalid): no name is encoded there. Nothing is read then.
    #[inline]
    pub fn pass_name(&mut self, left: &mut usize) -> Result<(), DecodeError>
        ensures taken { OnOk result (TookSome self.old Name self.new) }
        ensures lacking { IfErr result (λ e. (e ≡ DecodeError.NameInvalid) × LacksField self.old Name) }
        ensures unchanged { OnErr result (self.new ≡ self.old) }
        ensures steps { Leaves (NameSteps self.old.message self.old.index) left.old left.new }
    {
        match pass_name(self.message, self.index, left) {
            Some(end) => {
                self.index = end;
                Ok(())
            }
            None => Err(DecodeError::NameInvalid),
        }
    }
}
