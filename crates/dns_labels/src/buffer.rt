//! A name's octets while they are read, without a request for memory.

ghost use Rattle.std.specs.Prelude.{◌≡◌, ◌+◌, ◌-◌, ◌<◌, ◌≤◌, [], ◌++◌, ◌∷◌, length, take, slice_set, ℕ, List};
ghost use Rattle.std.specs.Bool.{OnTrue};
ghost use Rattle.dns_labels.specs.Text.{label_text};

use crate::text::is_plain;
use arrayvec::ArrayVec;
use std::marker::Model;

/// The most octets that a name has before its last one, the 0 of the root (RFC 1035, section 3.1).
pub(crate) const MAX_OCTETS: usize = 254;

/// A buffer for the octets of one name.
#[derive(Drop)]
pub(crate) struct NameBuffer {
    octets: ArrayVec<u8, MAX_OCTETS>,
}

impl Model for NameBuffer {
    ghost Value = { List ℕ };

    ghost view = { λ b. b.octets.items };
}

impl NameBuffer {
    /// Makes an empty buffer.
    pub(crate) fn new() -> Self
        ensures { result ≡ [] }
    {
        NameBuffer {
            octets: ArrayVec::new(),
        }
    }

    /// Returns how many octets there are.
    pub(crate) fn len(&self) -> usize
        ensures value { result ≡ length self.now }
        ensures room { length self.now ≤ 254 }
    {
        self.octets.len()
    }

    /// Appends octets.
    pub(crate) fn extend(&mut self, part: &[u8])
        requires { length self.old + length part.now ≤ 254 }
        ensures { self.new ≡ self.old ++ part.now }
    {
        let _ = self.octets.try_extend_from_slice(part);
    }

    /// Appends octets, and returns whether each is written as it is in a label's text. If one is not, the buffer holds
    /// nothing of use afterwards.
    pub(crate) fn extend_plain(&mut self, part: &[u8]) -> bool
        requires { length self.old + length part.now ≤ 254 }
        ensures added { OnTrue result (self.new ≡ self.old ++ part.now) }
        ensures plain { OnTrue result (label_text part.now ≡ part.now) }
    {
        for octet in part {
            if !is_plain(*octet) {
                return false;
            }
            self.octets.push(*octet);
        }
        true
    }

    /// Appends an octet.
    pub(crate) fn push(&mut self, octet: u8)
        requires { length self.old < 254 }
        ensures { self.new ≡ self.old ++ octet ∷ [] }
    {
        self.octets.push(octet);
    }

    /// Takes all octets away.
    pub(crate) fn clear(&mut self)
        ensures { self.new ≡ [] }
    {
        self.octets.clear();
    }

    /// Takes the last octet away.
    pub(crate) fn pop(&mut self)
        ensures { self.new ≡ take (length self.old - 1) self.old }
    {
        let _ = self.octets.pop();
    }

    /// Sets the octet at an index.
    pub(crate) fn set(&mut self, index: usize, octet: u8)
        requires { index < length self.old }
        ensures { self.new ≡ slice_set self.old index octet }
    {
        self.octets.as_mut_slice()[index] = octet;
    }

    /// The octets.
    pub(crate) fn as_slice(&self) -> &[u8]
        ensures { result.now ≡ self.now }
    {
        self.octets.as_slice()
    }
}
