//! A message at the end of a vector, after octets that do not belong to it.

ghost use Rattle.std.specs.Prelude.{◌≡◌, ◌+◌, ◌++◌, ◌^◌, ◌<◌, ◌≤◌, ◌↔◌, IsTrue, [], length, take, drop, OnOk, OnErr};
ghost use Rattle.std.specs.{Int.bytes_high_first, Vec.vec_capacity};
ghost use Rattle.dns_fields.specs.Octets.{AreOctets};
ghost use Rattle.dns_labels.specs.Messages.{StaysInVector, Written};

use std::alloc::AllocError;
use std::marker::Model;

/// The octets of a vector from an offset on: the message, whose offsets compression pointers count from. The octets
/// before it, such as the length that precedes a message over TCP (RFC 1035, section 4.2.2), never change.
#[derive(Drop)]
pub struct MessageOctets<'a> {
    octets: &'a mut Vec<u8>,
    start: usize,
}

impl<'a> Model for MessageOctets<'a> {
    ghost Value = { Written };

    ghost view = { λ m. record { before = take m.start m.octets.now.items; items = drop m.start m.octets.now.items; capacity = vec_capacity m.octets.now; vector = m.octets.ghost_name } };

    ghost invariant = { λ m. (m.start ≤ length m.octets.now.items) × AreOctets m.octets.now.items };
}

impl<'a> MessageOctets<'a> {
    /// Makes the message that begins at this offset of the vector.
    #[inline]
    pub fn new(start: usize, octets: &'a mut Vec<u8>) -> MessageOctets<'a>
        requires { start ≤ length octets.old.items }
        ensures { result ≡ record { before = take start octets.old.items; items = drop start octets.old.items; capacity = vec_capacity octets.old; vector = octets.entry.ghost_name } }
    {
        MessageOctets { octets, start }
    }

    /// The vector, with the octets before the message and the message.
    #[inline]
    pub fn into_vec(self) -> &'a mut Vec<u8>
        ensures same { result.ghost_name ≡ self.entry.vector }
        ensures items { result.now.items ≡ self.entry.before ++ self.entry.items }
    {
        let MessageOctets { octets, .. } = self;
        octets
    }

    /// Returns how many octets the message has.
    #[inline]
    pub fn len(&self) -> usize
        ensures value { result ≡ length self.now.items }
        ensures small { result < 2 ^ 63 }
        ensures octets { AreOctets self.now.items }
    {
        self.octets.len() - self.start
    }

    /// Returns whether the message has no octets.
    #[inline]
    pub fn is_empty(&self) -> bool
        ensures { IsTrue result ↔ (self.now.items ≡ []) }
    {
        self.octets.len() == self.start
    }

    /// The message.
    #[inline]
    pub fn as_slice(&self) -> &[u8]
        ensures value { result.now ≡ self.now.items }
    {
        &self.octets.as_slice()[self.start..]
    }

    /// Makes room for further octets. On error the octets are unchanged.
    #[inline]
    pub fn reserve(&mut self, additional: usize) -> Result<(), AllocError>
        ensures items { self.new.items ≡ self.old.items }
        ensures stays { StaysInVector self.old self.new }
        ensures ok { OnOk result (length self.new.before + length self.new.items + additional ≤ self.new.capacity) }
    {
        self.octets.reserve(additional)
    }

    /// Appends octets. On error the octets are unchanged.
    #[inline]
    pub fn extend_from_slice(&mut self, other: &[u8]) -> Result<(), AllocError>
        ensures ok { OnOk result (self.new.items ≡ self.old.items ++ other.now) }
        ensures err { OnErr result (self.new.items ≡ self.old.items) }
        ensures stays { StaysInVector self.old self.new }
        ensures octets { AreOctets self.new.items }
        ensures capacity { self.old.capacity ≤ self.new.capacity }
        ensures full { OnErr result (self.old.capacity < length self.old.before + length self.old.items + length other.now) }
    {
        self.octets.extend_from_slice(other)
    }

    /// Truncates the message to its first octets.
    #[inline]
    pub fn truncate(&mut self, len: usize)
        requires { len ≤ length self.old.items }
        ensures items { self.new.items ≡ take len self.old.items }
        ensures stays { StaysInVector self.old self.new }
    {
        self.octets.truncate(self.start + len);
    }

    /// Replaces two octets of the message by a number in network order (RFC 1035, section 2.3.2).
    pub fn replace_u16(&mut self, index: usize, number: u16)
        requires { index + 2 ≤ length self.old.items }
        ensures items { self.new.items ≡ take index self.old.items ++ (bytes_high_first 2 number ++ drop (index + 2) self.old.items) }
        ensures stays { StaysInVector self.old self.new }
    {
        let at = self.start + index;
        self.octets[at..at + 2].copy_from_slice(&number.to_be_bytes());
    }
}
