//! A slice, or the labels of a name.

ghost use Rattle.std.specs.Prelude.{◌≡◌, ◌+◌, ◌<◌, ◌^◌, [], ◌∷◌, ◌++◌, length as size, take, drop, map, min, MatchOption, ℕ, List};
ghost use Rattle.std.specs.{Cmp.Lexicographic.slice_cmp, Char.to_ascii_lowercase, Ordering.nat_cmp};
ghost use Rattle.dns_fields.specs.Fields.{field_octets};
ghost use Rattle.dns_fields.specs.declared.Kind.{TheVariants.Name as NameKind, TheVariants.Rest};
ghost use Rattle.dns_canonical.specs.Runs.{Shares, Copies, tail_octets};

use crate::common::{common_beginning, common_lowered};
use crate::order::next_order;
use dns_names_wire::Name;
use std::cmp::Ordering;
use std::marker::Model;

/// A slice, or the octets of a name's labels in lower case and a 0 after them.
#[derive(Drop)]
pub struct Tail<'a> {
    octets: &'a [u8],
    is_name: bool,
}

impl<'a> Model for Tail<'a> {
    ghost Value = { List ℕ };

    ghost view = { λ t. tail_octets t.octets.now t.is_name };
}

impl Tail<'static> {
    #[inline]
    pub fn none() -> Tail<'static>
        ensures { result ≡ [] }
    {
        Tail {
            octets: b"".as_slice(),
            is_name: false,
        }
    }
}

impl<'a> Tail<'a> {
    #[inline]
    #[tactic(auto, unfolding(dns_fields::specs::Fields::field_octets))]
    pub fn rest(octets: &'a [u8]) -> Tail<'a>
        ensures { result ≡ field_octets Rest octets.now }
    {
        Tail {
            octets,
            is_name: false,
        }
    }

    #[inline]
    #[tactic(auto, unfolding(dns_fields::specs::Fields::field_octets))]
    pub fn name(name: &'a Name) -> Tail<'a>
        ensures { result ≡ field_octets NameKind name.now }
    {
        Tail {
            octets: name.label_octets(),
            is_name: true,
        }
    }

    /// Returns the next octet.
    #[inline]
    pub fn next(&mut self) -> Option<u8>
        ensures { MatchOption result ((self.old ≡ []) × (self.new ≡ [])) (λ x. self.old ≡ x ∷ self.new) }
    {
        let octets = self.octets;
        if octets.len() > 0 {
            let octet = octets[0];
            self.octets = &octets[1..];
            return Some(if self.is_name {
                octet.to_ascii_lowercase()
            } else {
                octet
            });
        }
        if self.is_name {
            self.is_name = false;
            return Some(0);
        }
        None
    }

    /// If both are names or neither is, takes octets that are equal at the front of both, and returns how many it took.
    #[inline]
    #[tactic(auto, using(crate::proofs::Sharing::same_mark, crate::proofs::Sharing::names_share, crate::proofs::Sharing::rests_share))]
    pub fn skip_common(&mut self, other: &mut Tail<'_>) -> usize
        ensures shares { Shares result self.old self.new other.old other.new }
        ensures room { result + 34 < 2 ^ 64 }
    {
        if self.is_name != other.is_name {
            return 0;
        }
        let octets = self.octets;
        let other_octets = other.octets;
        let n = if self.is_name {
            common_lowered(octets, other_octets)
        } else {
            common_beginning(octets, other_octets)
        };
        self.octets = &octets[n..];
        other.octets = &other_octets[n..];
        n
    }

    /// Copies as many octets as there are and fit to the front of the buffer, and returns their number.
    #[inline]
    pub fn copy_to(&mut self, buffer: &mut [u8]) -> usize
        ensures { Copies result self.old self.new buffer.old buffer.new }
    {
        let octets = self.octets;
        if !self.is_name {
            let n = copy_front(octets, buffer);
            self.octets = &octets[n..];
            return n;
        }
        let n = copy_lowered(octets, buffer);
        self.octets = &octets[n..];
        if n == buffer.len() {
            return n;
        }
        buffer[n] = 0;
        self.is_name = false;
        n + 1
    }

    /// Compares the two by the first octet that differs; a proper prefix is less.
    #[inline]
    pub fn compare(&mut self, other: &mut Tail<'_>) -> Ordering
        ensures { result ≡ slice_cmp nat_cmp self.old other.old }
    {
        self.skip_common(other);
        self.compare_next(other)
    }

    // The order of the two where their next octets mostly differ, so that these are compared first.
    #[tactic(auto, using(crate::proofs::Comparing::told_at))]
    fn compare_next(&mut self, other: &mut Tail<'_>) -> Ordering
        ensures { result ≡ slice_cmp nat_cmp self.old other.old }
    {
        'octets: loop {
            match next_order(self.next(), other.next()) {
                Some(order) => return order,
                None => self.skip_common(other),
            };
        }
    }
}

// Copies octets to the front of a buffer, as many as fit, and returns how many these are.
#[inline]
pub(crate) fn copy_front(octets: &[u8], buffer: &mut [u8]) -> usize
    ensures count { result ≡ min (size octets.now) (size buffer.old) }
    ensures front { buffer.new ≡ take result octets.now ++ drop result buffer.old }
{
    let n = octets.len().min(buffer.len());
    buffer[..n].copy_from_slice(&octets[..n]);
    n
}

// Copies octets to the front of a buffer in lower case, as many as fit, and returns how many these are.
#[inline]
fn copy_lowered(octets: &[u8], buffer: &mut [u8]) -> usize
    ensures count { result ≡ min (size octets.now) (size buffer.old) }
    ensures front { buffer.new ≡ map to_ascii_lowercase (take result octets.now) ++ drop result buffer.old }
{
    let n = copy_front(octets, buffer);
    buffer[..n].make_ascii_lowercase();
    n
}
