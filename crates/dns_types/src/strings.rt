//! Lists of octet strings that a value owns.
ghost use Rattle.std.specs.Prelude.{◌≡◌, ◌==◌, ◌<◌, ◌^◌, ◌++◌, ◌∷◌, ◌↔◌, ℕ, List, [], length, slice_get, OnOk, OnErr, IfOk, IsTrue};
ghost use Rattle.std.specs.{Option.option_copied, Cmp.partial_order_from_agreeing_total, Cmp.unsigned_Decides, Cmp.Rules.comparing, Ordering.nat_cmp};
ghost use Rattle.std.specs.{Ordering.as_partial_cmp, Slice.Iter.iter_rest, Global.Global, Vec.Iter.into_iter_items, Vec.Iter.into_iter_len};
ghost use Rattle.std.specs.{Vec.Iter.into_iter_steps, Iterator.Adapters.IterYieldsInOrder, Iterator.Runs.EveryRun, Iterator.Runs.ItemsAre};
ghost use Rattle.std.specs.Cmp.Lexicographic.{pointwise, slice_cmp, texts_ties, lists_ties, lists_total, nat_list_cmp_total, pointwise_decides};
ghost use Rattle.std.specs.Hash as fed;
ghost use Rattle.std.proofs.Common.{rules, refl, ap};

use crate::comparing::same_octets;
use crate::octets::Octets;
use std::alloc::{AllocError, Global};
use std::cmp::Ordering;
use std::hash::{Hash, Hasher};
use std::marker::Model;
use std::ops::DerefSlice;
use std::{slice, vec};

/// Strings of octets that a value owns, which contracts see as the list of their lists. They are
/// ordered by the first string that differs, and a beginning of others comes before them.
///
/// They have the methods of a slice of [`Octets`], as `iter` and `first`, and an index. `eq_slice`
/// compares them with a slice.
#[derive(Debug, Drop)]
pub struct Strings {
    items: Vec<Octets>,
}

impl Model for Strings {
    ghost Value = { List (List ℕ) };

    ghost view = { λ s. s.items.items };
}

impl Strings {
    /// No strings. Allocates nothing.
    #[inline]
    pub fn new(alloc: Global) -> Strings
        ensures { result ≡ [] }
    {
        Strings {
            items: Vec::new(alloc),
        }
    }

    /// No strings, and memory for so many. Fails only if the allocation fails.
    #[inline]
    pub fn with_capacity(alloc: Global, capacity: usize) -> Result<Strings, AllocError>
        ensures { IfOk result (λ s. s ≡ []) }
    {
        Ok(Strings {
            items: Vec::with_capacity(alloc, capacity)?,
        })
    }

    /// The strings of the list, which is moved.
    #[inline]
    pub fn from_vec(items: Vec<Octets>) -> Strings
        ensures { result ≡ items.items }
    {
        Strings { items }
    }

    /// The strings as a list. They are moved.
    #[inline]
    pub fn into_vec(self) -> Vec<Octets>
        ensures { result.items ≡ self }
    {
        let Strings { items } = self;
        items
    }

    /// Appends the string. Fails only if an allocation fails; the others are unchanged then, and the
    /// string is dropped.
    #[inline]
    pub fn push(&mut self, string: Octets) -> Result<(), AllocError>
        ensures ok { OnOk result (self.new ≡ self.old ++ string ∷ []) }
        ensures err { OnErr result (self.new ≡ self.old) }
    {
        self.items.push(string)?;
        Ok(())
    }

    /// The strings, lent.
    #[inline]
    pub fn as_slice(&self) -> &[Octets]
        ensures { result.now ≡ self.now }
    {
        self.items.as_slice()
    }

    /// The octets of the string at the index, from 0 on.
    #[inline]
    pub fn get(&self, index: usize) -> Option<&[u8]>
        ensures { option_copied result ≡ slice_get self.now index }
    {
        let string = self.as_slice().get(index)?;
        Some(string.as_slice())
    }

    /// How many strings there are.
    #[inline]
    pub fn len(&self) -> usize
        ensures { result ≡ length self.now }
    {
        self.as_slice().len()
    }

    /// Whether there are none.
    #[inline]
    pub fn is_empty(&self) -> bool
        ensures { IsTrue result ↔ (self.now ≡ []) }
    {
        self.as_slice().is_empty()
    }

    /// Whether these are the strings of the slice, in its order.
    #[inline]
    pub fn eq_slice(&self, strings: &[Octets]) -> bool
        ensures { IsTrue result ↔ (self.now ≡ strings.now) }
    {
        same_strings(self.as_slice(), strings)
    }

    /// The allocator of the list.
    #[inline]
    pub fn allocator(&self) -> Global {
        *self.items.allocator()
    }
}

impl From<Vec<Octets>> for Strings {
    ghost from_gives = { λ items strings. strings ≡ items.items };

    #[inline]
    fn from(items: Vec<Octets>) -> Strings {
        Strings::from_vec(items)
    }
}

impl From<Strings> for Vec<Octets> {
    ghost from_gives = { λ strings items. items.items ≡ strings };

    #[inline]
    fn from(strings: Strings) -> Vec<Octets> {
        strings.into_vec()
    }
}

impl DerefSlice for Strings {
    type Elem = Octets;

    ghost deref_gives = { λ strings items. items ≡ strings };

    /// The strings, lent: what the methods of a slice and an index go through.
    #[inline]
    fn deref(&self) -> &[Octets] {
        self.as_slice()
    }
}

/// The strings in their order.
impl<'a> IntoIterator for &'a Strings {
    type Item = &'a Octets;

    type IntoIter = slice::Iter<'a, Octets>;

    ghost into_iter_gives = { λ strings it. (iter_rest it ≡ strings.now) × (length (iter_rest it) < 2 ^ 64)
        × IterYieldsInOrder (List ℕ) };

    #[inline]
    fn into_iter(self) -> slice::Iter<'a, Octets> {
        self.as_slice().iter()
    }
}

/// The strings in their order. They are moved.
impl IntoIterator for Strings {
    type Item = Octets;

    type IntoIter = vec::IntoIter<Octets>;

    ghost into_iter_gives = { λ strings it. (into_iter_items it ≡ strings) × (into_iter_len it ≡ length strings) × (into_iter_len it < 2 ^ 64)
        × EveryRun (into_iter_steps {X = List ℕ} {Z = Global}) (λ p. ItemsAre p (into_iter_items p.from)) };

    #[inline]
    fn into_iter(self) -> vec::IntoIter<Octets> {
        self.into_vec().into_iter()
    }
}

// Whether the strings are the same, one by one.
#[inline]
fn same_strings(a: &[Octets], b: &[Octets]) -> bool
    ensures { IsTrue result ↔ (a.now ≡ b.now) }
{
    if a.len() != b.len() {
        return false;
    }
    let mut at = 0usize;
    'strings: while at < a.len() {
        if !same_octets(a[at].as_slice(), b[at].as_slice()) {
            return false;
        }
        at += 1;
    }
    true
}

impl PartialEq for Strings {
    ghost eq = { pointwise (pointwise ◌==◌) };

    ghost laws = { Prim.search (comparing, rules) };

    #[inline]
    fn eq(&self, other: &Strings) -> bool
        ensures value { result ≡ pointwise (pointwise ◌==◌) self.now other.now }
        ensures exact { IsTrue result ↔ (self.now ≡ other.now) }
    {
        same_strings(self.as_slice(), other.as_slice())
    }
}

impl Eq for Strings {
    ghost laws = { Prim.search (comparing, rules) };
}

impl Hash for Strings {
    ghost hash_input = { fed.slice (fed.slice fed.u8) };

    ghost respects_eq = { λ a b same. ap (fed.slice (fed.slice fed.u8))
        ((pointwise_decides (pointwise_decides unsigned_Decides) a b).0 same) };

    fn hash<H: Hasher>(&self, state: &mut H) {
        self.as_slice().hash(state);
    }
}

impl PartialOrd for Strings {
    ghost partial_cmp = { as_partial_cmp (slice_cmp (slice_cmp nat_cmp)) };

    ghost laws = { partial_order_from_agreeing_total (slice_cmp (slice_cmp nat_cmp))
        (lists_total nat_list_cmp_total) (λ _ _. refl) (lists_ties (slice_cmp nat_cmp) texts_ties) };

    fn partial_cmp(&self, other: &Strings) -> Option<Ordering> {
        Some(self.cmp(other))
    }
}

impl Ord for Strings {
    ghost cmp = { slice_cmp (slice_cmp nat_cmp) };

    ghost total = { lists_total nat_list_cmp_total };

    ghost matches_partial_cmp = { λ _ _. refl };

    ghost matches_eq = { lists_ties (slice_cmp nat_cmp) texts_ties };

    fn cmp(&self, other: &Strings) -> Ordering {
        self.as_slice().cmp(other.as_slice())
    }
}

impl Clone for Strings {
    ghost is_clone = { λ a b. b ≡ a };

    #[inline]
    fn clone(&self) -> Result<Strings, AllocError> {
        Ok(Strings {
            items: self.items.clone()?,
        })
    }
}
