//! Octets that a value owns, a few of them in the value itself.
ghost use Rattle.std.specs.Prelude.{◌≡◌, ◌==◌, ◌<◌, ◌≤◌, ◌^◌, ◌↔◌, ℕ, List, [], length, All, IfOk, IsTrue};
ghost use Rattle.std.specs.{Box.boxed_slice_items, Cmp.partial_order_from_agreeing_total, Cmp.Rules.comparing, Cmp.Rules.hashing, Ordering.nat_cmp};
ghost use Rattle.std.specs.{Ordering.as_partial_cmp, Slice.Iter.iter_rest, Iterator.Adapters.IterYieldsInOrder};
ghost use Rattle.std.specs.Cmp.Lexicographic.{pointwise, slice_cmp, texts_ties, nat_list_cmp_total};
ghost use Rattle.std.specs.Hash as fed;
ghost use Rattle.std.proofs.Common.{rules, refl};

use crate::comparing::{same_arrays, same_octets};
use crate::octets::bounded;
use std::alloc::{AllocError, Global};
use std::boxed::BoxedSlice;
use std::cmp::Ordering;
use std::convert::AsSlice;
use std::hash::{Hash, Hasher};
use std::marker::Model;
use std::ops::DerefSlice;
use std::{fmt, slice};

/// Up to `N` octets, in the value itself.
#[derive(Drop)]
struct Inline<const N: usize> {
    // The length fills a machine token. `Heap` has a part of its vector at this offset: a load of that token then follows
    // one store, and the processor need not join two.
    len: u64,
    // Zeros follow the first `len` octets, so that two arrays are compared as a whole.
    octets: [u8; N],
}

impl<const N: usize> Model for Inline<N> {
    ghost use Rattle.std.specs.Prelude.{◌≡◌, ◌≤◌, ◌-◌, ℕ, List, take, drop, replicate};

    ghost Value = { List ℕ };

    ghost view = { λ s. take s.len s.octets };

    ghost invariant = { λ s. (s.len ≤ N) × (drop s.len s.octets ≡ replicate (N - s.len) 0) };
}

impl<const N: usize> Inline<N> {
    // A copy of the octets.
    #[inline]
    fn from_slice(octets: &[u8]) -> Inline<N>
        requires few { length octets.now ≤ N }
        requires small { N ≤ 65535 }
        ensures { result ≡ octets.now }
    {
        let len = octets.len();
        let mut kept = [0u8; N];
        kept[..len].copy_from_slice(octets);
        Inline {
            len: len as u64,
            octets: kept,
        }
    }

    #[inline]
    fn as_slice(&self) -> &[u8]
        ensures { result.now ≡ self.now }
    {
        &self.octets[..self.len as usize]
    }

    // A copy of the whole array: its size is known, so it needs no loop and no call.
    #[inline]
    fn copied(&self) -> Inline<N>
        ensures { result ≡ self.now }
    {
        Inline {
            len: self.len,
            octets: self.octets,
        }
    }

    // Whether both have the same octets. The arrays are compared as a whole, without a branch.
    #[inline(always)]
    fn is_same(&self, other: &Inline<N>) -> bool
        ensures { IsTrue result ↔ (self.now ≡ other.now) }
    {
        (self.len == other.len) & same_arrays(&self.octets, &other.octets)
    }
}

/// What the octets are kept in.
#[derive(Drop)]
enum Kept<const N: usize> {
    Inline(Inline<N>),
    Heap(Vec<u8>),
}

/// Octets that a value owns, which contracts see as their list: up to `N` of them are kept in the value itself, and
/// more in a vector. They are ordered by the first difference, and a beginning of others comes before them.
///
/// They have the methods of a slice, as `iter`, `get` and `first`, and an index. `eq_slice` compares them with a slice.
pub struct SmallOctets<const N: usize> {
    alloc: Global,
    kept: Kept<N>,
}

impl<const N: usize> Model for SmallOctets<N> {
    ghost use Rattle.std.specs.Prelude.{ℕ, List};
    ghost use Rattle.dns_types.specs.SmallOctets.{kept_octets};

    ghost Value = { List ℕ };

    ghost view = { λ n. kept_octets n.kept };
}

impl<const N: usize> SmallOctets<N> {
    /// No octets. Allocates nothing.
    #[inline]
    pub fn new(alloc: Global) -> SmallOctets<N>
        ensures { result ≡ [] }
    {
        SmallOctets {
            alloc,
            kept: Kept::Inline(Inline {
                len: 0,
                octets: [0; N],
            }),
        }
    }

    /// A copy of the octets. Allocates once if they are more than `N`, and fails only if that fails.
    #[inline(always)]
    pub fn from_slice(alloc: Global, octets: &[u8]) -> Result<SmallOctets<N>, AllocError>
        ensures { IfOk result (λ kept. kept ≡ octets.now) }
    {
        let kept = if octets.len() <= N && N <= 65535 {
            Kept::Inline(Inline::from_slice(octets))
        } else {
            Kept::Heap(Vec::from_slice(alloc, octets)?)
        };
        Ok(SmallOctets { alloc, kept })
    }

    /// The octets of the vector, which is moved, or dropped if they are few.
    pub fn from_vec(octets: Vec<u8>) -> SmallOctets<N>
        ensures { result ≡ octets.items }
    {
        let alloc = *octets.allocator();
        if octets.len() <= N && N <= 65535 {
            return SmallOctets {
                alloc,
                kept: Kept::Inline(Inline::from_slice(octets.as_slice())),
            };
        }
        SmallOctets {
            alloc,
            kept: Kept::Heap(octets),
        }
    }

    /// The octets of the box, which is moved, or dropped if they are few.
    #[inline]
    pub fn from_boxed(octets: BoxedSlice<u8>) -> SmallOctets<N>
        ensures { result ≡ boxed_slice_items octets }
    {
        SmallOctets::from_vec(octets.into_vec())
    }

    /// The octets as a vector, which may still grow. Allocates if they are few.
    pub fn into_vec(self) -> Result<Vec<u8>, AllocError>
        ensures { IfOk result (λ octets. octets.items ≡ self.entry) }
    {
        let SmallOctets { alloc, kept } = self;
        match kept {
            Kept::Inline(octets) => Vec::from_slice(alloc, octets.as_slice()),
            Kept::Heap(octets) => Ok(octets),
        }
    }

    /// The octets, lent.
    #[inline]
    pub fn as_slice(&self) -> &[u8]
        ensures value { result.now ≡ self.now }
        ensures octets { All (λ octet. octet < 256) self.now }
    {
        match &self.kept {
            Kept::Inline(octets) => bounded(octets.as_slice()),
            Kept::Heap(octets) => bounded(octets.as_slice()),
        }
    }

    /// How many octets there are.
    #[inline]
    pub fn len(&self) -> usize
        ensures { result ≡ length self.now }
    {
        self.as_slice().len()
    }

    /// Whether there are none.
    #[inline]
    pub fn is_empty(&self) -> bool
        ensures { IsTrue result ↔ (self.now ≡ []) }
    {
        self.as_slice().is_empty()
    }

    /// Whether these are the octets of the slice.
    #[inline]
    pub fn eq_slice(&self, octets: &[u8]) -> bool
        ensures { IsTrue result ↔ (self.now ≡ octets.now) }
    {
        same_octets(self.as_slice(), octets)
    }

    // Whether the octets are the same, wherever each value keeps them.
    #[inline(never)]
    fn is_same_far(&self, other: &SmallOctets<N>) -> bool
        ensures { IsTrue result ↔ (self.now ≡ other.now) }
    {
        same_octets(self.as_slice(), other.as_slice())
    }

    /// The allocator of more octets than `N`.
    #[inline]
    pub fn allocator(&self) -> Global {
        self.alloc
    }
}

// By hand, so that a drop is one call for the proofs of the values that hold octets.
impl<const N: usize> Drop for SmallOctets<N> {
    #[inline]
    fn drop(self) {
        let SmallOctets {
            alloc: _,
            kept: _kept,
        } = self;
    }
}

impl<const N: usize> From<Vec<u8>> for SmallOctets<N> {
    ghost from_gives = { λ items octets. octets ≡ items.items };

    #[inline]
    fn from(items: Vec<u8>) -> SmallOctets<N> {
        SmallOctets::from_vec(items)
    }
}

impl<const N: usize> From<BoxedSlice<u8>> for SmallOctets<N> {
    ghost from_gives = { λ items octets. octets ≡ boxed_slice_items items };

    #[inline]
    fn from(items: BoxedSlice<u8>) -> SmallOctets<N> {
        SmallOctets::from_boxed(items)
    }
}

impl<const N: usize> DerefSlice for SmallOctets<N> {
    type Elem = u8;

    ghost deref_gives = { λ octets items. items ≡ octets };

    /// The octets, lent: what the methods of a slice and an index go through.
    #[inline]
    fn deref(&self) -> &[u8]
        ensures value { result.now ≡ self.now }
        ensures octets { All (λ octet. octet < 256) self.now }
    {
        self.as_slice()
    }
}

/// The octets in their order.
impl<'a, const N: usize> IntoIterator for &'a SmallOctets<N> {
    type Item = &'a u8;

    type IntoIter = slice::Iter<'a, u8>;

    ghost into_iter_gives = { λ octets it. (iter_rest it ≡ octets.now) × (length (iter_rest it) < 2 ^ 64)
        × IterYieldsInOrder ℕ };

    #[inline]
    fn into_iter(self) -> slice::Iter<'a, u8> {
        self.as_slice().iter()
    }
}

impl<const N: usize> AsSlice<u8> for SmallOctets<N> {
    ghost items = { λ octets. octets };

    #[inline]
    fn as_slice(&self) -> &[u8] {
        SmallOctets::as_slice(self)
    }
}

/// As a byte string: `b"a\x00b"`.
impl<const N: usize> fmt::Debug for SmallOctets<N> {
    fn fmt<W: fmt::Write>(&self, f: &mut fmt::Formatter<W>) -> fmt::Result {
        write!(f, "b\"{}\"", self.as_slice().escape_ascii())
    }
}

impl<const N: usize> PartialEq for SmallOctets<N> {
    ghost eq = { λ a b. pointwise ◌==◌ a b };

    ghost laws = { Prim.search (comparing, rules) };

    #[inline(always)]
    fn eq(&self, other: &SmallOctets<N>) -> bool
        ensures value { result ≡ pointwise ◌==◌ self.now other.now }
        ensures exact { IsTrue result ↔ (self.now ≡ other.now) }
    {
        match (&self.kept, &other.kept) {
            (Kept::Inline(a), Kept::Inline(b)) => a.is_same(b),
            _ => self.is_same_far(other),
        }
    }
}

impl<const N: usize> Eq for SmallOctets<N> {
    ghost laws = { Prim.search (comparing, rules) };
}

impl<const N: usize> Hash for SmallOctets<N> {
    ghost hash_input = { λ o. fed.slice fed.u8 o };

    ghost respects_eq = { Prim.search (hashing, rules) };

    #[inline]
    fn hash<H: Hasher>(&self, state: &mut H) {
        self.as_slice().hash(state);
    }
}

impl<const N: usize> PartialOrd for SmallOctets<N> {
    ghost partial_cmp = { as_partial_cmp (slice_cmp nat_cmp) };

    ghost laws = { partial_order_from_agreeing_total (slice_cmp nat_cmp) nat_list_cmp_total
        (λ _ _. refl) texts_ties };

    #[inline]
    fn partial_cmp(&self, other: &SmallOctets<N>) -> Option<Ordering> {
        Some(self.cmp(other))
    }
}

impl<const N: usize> Ord for SmallOctets<N> {
    ghost cmp = { slice_cmp nat_cmp };

    ghost total = { nat_list_cmp_total };

    ghost matches_partial_cmp = { λ _ _. refl };

    ghost matches_eq = { texts_ties };

    #[inline]
    fn cmp(&self, other: &SmallOctets<N>) -> Ordering {
        self.as_slice().cmp(other.as_slice())
    }
}

impl<const N: usize> Clone for SmallOctets<N> {
    ghost is_clone = { λ a b. b ≡ a };

    /// The same octets. Allocates once if they are more than `N`.
    #[inline]
    fn clone(&self) -> Result<SmallOctets<N>, AllocError> {
        let kept = match &self.kept {
            Kept::Inline(octets) => Kept::Inline(octets.copied()),
            Kept::Heap(octets) => Kept::Heap(Vec::from_slice(self.alloc, octets.as_slice())?),
        };
        Ok(SmallOctets {
            alloc: self.alloc,
            kept,
        })
    }
}
