//! A few octets that are kept.

ghost use Rattle.std.specs.Prelude.{◌≡◌, ◌+◌, ◌<◌, ◌≤◌, [], ◌++◌, length, ℕ, List};
ghost use Rattle.dns_fields.specs.Fields.{field_octets};
ghost use Rattle.dns_fields.specs.declared.Kind.{TheVariants.Number, TheVariants.CharacterString};

use crate::tail::Tail;
use arrayvec::ArrayVec;
use std::marker::Model;

/// A few octets, which a cursor keeps: numbers, and the length of a string.
#[derive(Drop)]
pub struct Head {
    octets: ArrayVec<u8, 34>,
}

impl Model for Head {
    ghost Value = { List ℕ };

    ghost view = { λ b. b.octets.items };
}

impl Head {
    #[inline]
    pub fn new() -> Head
        ensures { result ≡ [] }
    {
        Head {
            octets: ArrayVec::new(),
        }
    }

    /// Removes all octets.
    #[inline]
    pub fn clear(&mut self)
        ensures { self.new ≡ [] }
    {
        self.octets.clear();
    }

    /// The octets.
    #[inline]
    pub fn as_slice(&self) -> &[u8]
        ensures value { result.now ≡ self.now }
        ensures few { length self.now ≤ 34 }
    {
        self.octets.as_slice()
    }

    /// Returns how many octets there are.
    #[inline]
    pub fn len(&self) -> usize
        ensures value { result ≡ length self.now }
        ensures few { result ≤ 34 }
    {
        self.octets.len()
    }

    #[inline]
    pub fn octets(&mut self, part: &[u8])
        requires { length self.old + length part.now ≤ 34 }
        ensures value { self.new ≡ self.old ++ part.now }
        ensures count { length self.new ≡ length self.old + length part.now }
    {
        let _ = self.octets.try_extend_from_slice(part);
    }

    #[inline]
    #[tactic(auto, unfolding(dns_fields::specs::Fields::field_octets))]
    pub fn one(&mut self, n: u8)
        requires { length self.old + 1 ≤ 34 }
        ensures value { self.new ≡ self.old ++ field_octets (Number 1) n }
        ensures count { length self.new ≡ length self.old + 1 }
    {
        self.octets(&n.to_be_bytes());
    }

    #[inline]
    #[tactic(auto, unfolding(dns_fields::specs::Fields::field_octets))]
    pub fn two(&mut self, n: u16)
        requires { length self.old + 2 ≤ 34 }
        ensures value { self.new ≡ self.old ++ field_octets (Number 2) n }
        ensures count { length self.new ≡ length self.old + 2 }
    {
        self.octets(&n.to_be_bytes());
    }

    #[inline]
    #[tactic(auto, unfolding(dns_fields::specs::Fields::field_octets))]
    pub fn four(&mut self, n: u32)
        requires { length self.old + 4 ≤ 34 }
        ensures value { self.new ≡ self.old ++ field_octets (Number 4) n }
        ensures count { length self.new ≡ length self.old + 4 }
    {
        self.octets(&n.to_be_bytes());
    }

    /// Appends a string's length; its octets are the tail.
    #[inline]
    #[tactic(auto, unfolding(dns_fields::specs::Fields::field_octets))]
    pub fn text<'a>(&mut self, text: &'a [u8]) -> Tail<'a>
        requires room { length self.old + 1 ≤ 34 }
        requires short { length text.now < 256 }
        ensures value { self.new ++ result ≡ self.old ++ field_octets CharacterString text.now }
        ensures count { length self.new ≡ length self.old + 1 }
    {
        self.one(text.len() as u8);
        Tail::rest(text)
    }
}
