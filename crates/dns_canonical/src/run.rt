//! Octets at hand: a few that are kept, and then a tail.

ghost use Rattle.std.specs.Prelude.{◌≡◌, ◌+◌, ◌<◌, ◌≤◌, ◌^◌, [], ◌++◌, ◌∷◌, MatchOption, ℕ, List, drop, length};
ghost use Rattle.std.specs.{Cmp.Lexicographic.slice_cmp, Ordering.nat_cmp};
ghost use Rattle.dns_canonical.specs.Runs.{Shares, Copies};

use crate::common::common_few;
use crate::head::Head;
use crate::order::next_order;
use crate::tail::{Tail, copy_front};
use std::cmp::Ordering;
use std::marker::Model;

/// Octets at hand.
#[derive(Drop)]
pub struct Run<'a> {
    pub head: Head,
    pub at: usize,
    pub tail: Tail<'a>,
}

impl<'a> Model for Run<'a> {
    ghost Value = { List ℕ };

    ghost view = { λ r. drop r.at r.head ++ r.tail };

    ghost invariant = { λ r. r.at ≤ length r.head };
}

impl Run<'static> {
    #[inline]
    pub fn new() -> Run<'static>
        ensures { result ≡ [] }
    {
        Run {
            head: Head::new(),
            at: 0,
            tail: Tail::none(),
        }
    }
}

impl<'a> Run<'a> {
    /// Returns the next octet.
    #[inline]
    pub fn next(&mut self) -> Option<u8>
        ensures { MatchOption result ((self.old ≡ []) × (self.new ≡ [])) (λ x. self.old ≡ x ∷ self.new) }
    {
        if self.at < self.head.len() {
            let octet = self.head.as_slice()[self.at];
            self.at += 1;
            return Some(octet);
        }
        self.tail.next()
    }

    /// Takes octets that are equal at the front of both and contiguous, and returns how many it took.
    #[inline]
    #[tactic(auto, using(crate::proofs::Sharing::shares_both))]
    pub fn skip_common(&mut self, other: &mut Run<'_>) -> usize
        ensures { Shares result self.old self.new other.old other.new }
    {
        let heads = self.skip_heads(other);
        let tails = self.skip_tails(other);
        heads + tails
    }

    // Takes the octets that the kept ones have in common.
    #[inline]
    #[tactic(auto, using(crate::proofs::Sharing::heads_share))]
    fn skip_heads(&mut self, other: &mut Run<'_>) -> usize
        ensures few { result ≤ 34 }
        ensures shares { Shares result self.old self.new other.old other.new }
    {
        let n = common_few(
            &self.head.as_slice()[self.at..],
            &other.head.as_slice()[other.at..],
        );
        self.at += n;
        other.at += n;
        n
    }

    // Takes the octets that the tails have in common, if no head octets are left before them.
    #[inline]
    fn skip_tails(&mut self, other: &mut Run<'_>) -> usize
        ensures shares { Shares result self.old self.new other.old other.new }
        ensures room { result + 34 < 2 ^ 64 }
    {
        if self.at < self.head.len() || other.at < other.head.len() {
            return 0;
        }
        self.tail.skip_common(&mut other.tail)
    }

    /// Copies as many octets as there are and fit to the front of the buffer, and returns their number.
    #[inline]
    pub fn copy_to(&mut self, buffer: &mut [u8]) -> usize
        ensures { Copies result self.old self.new buffer.old buffer.new }
    {
        let kept = copy_front(&self.head.as_slice()[self.at..], buffer);
        self.at += kept;
        kept + self.tail.copy_to(&mut buffer[kept..])
    }

    /// Compares the two by the first octet that differs; a proper prefix is less.
    #[tactic(auto, using(crate::proofs::Comparing::told_at))]
    pub fn compare(&mut self, other: &mut Run<'_>) -> Ordering
        ensures { result ≡ slice_cmp nat_cmp self.old other.old }
    {
        'octets: loop {
            match next_order(self.next(), other.next()) {
                Some(order) => return order,
                None => self.skip_common(other),
            };
        }
    }
}
