//! Lists of values that a value owns.
ghost use Rattle.std.specs.Prelude.{◌≡◌, ◌<◌, ◌^◌, ◌++◌, ◌∷◌, ◌↔◌, [], IfOk, IsTrue, OnOk, OnErr, length};
ghost use Rattle.std.specs.{List.AllZip, Global.Global, Slice.Iter.iter_rest, Vec.Iter.into_iter_items, Vec.Iter.into_iter_len};
ghost use Rattle.std.specs.{Vec.Iter.into_iter_steps, Iterator.Adapters.IterYieldsInOrder, Iterator.Runs.EveryRun, Iterator.Runs.ItemsAre};
ghost use Rattle.std.specs.{Cmp.Lexicographic.pointwise, Cmp.Lexicographic.lists_equiv, Cmp.Lexicographic.lists_per, Hash.items_Alike};
ghost use Rattle.std.specs.Hash as fed;

use std::alloc::{AllocError, Global};
use std::hash::{Hash, Hasher};
use std::marker::Model;
use std::ops::DerefSlice;
use std::{slice, vec};

/// The values of a list, which contracts see as that list.
///
/// They have the methods of a slice, such as `iter`, `get` and `first`, and can be indexed.
#[derive(Debug, Drop)]
pub struct Items<T> {
    items: Vec<T>,
}

impl<T> Model for Items<T> {
    ghost use Rattle.std.specs.Prelude.{List};

    ghost Value = { List T };

    ghost view = { λ o. o.items.items };
}

impl<T> Items<T> {
    /// Makes an empty list. Allocates nothing.
    #[inline]
    pub fn new(alloc: Global) -> Items<T>
        ensures { result ≡ [] }
    {
        Items {
            items: Vec::new(alloc),
        }
    }

    /// Makes an empty list with room for `capacity` values. Fails only if an allocation fails.
    #[inline]
    pub fn with_capacity(alloc: Global, capacity: usize) -> Result<Items<T>, AllocError>
        ensures { IfOk result (λ o. o ≡ []) }
    {
        Ok(Items {
            items: Vec::with_capacity(alloc, capacity)?,
        })
    }

    /// Makes a list of these values. Allocates nothing.
    #[inline]
    pub fn from_vec(items: Vec<T>) -> Items<T>
        ensures { result ≡ items.items }
    {
        Items { items }
    }

    /// Returns the values as a `Vec`. Allocates nothing.
    #[inline]
    pub fn into_vec(self) -> Vec<T>
        ensures { result.items ≡ self }
    {
        let Items { items } = self;
        items
    }

    /// The values as a slice.
    #[inline]
    pub fn as_slice(&self) -> &[T]
        ensures { result.now ≡ self.now }
    {
        self.items.as_slice()
    }

    /// Returns how many values there are.
    #[inline]
    pub fn len(&self) -> usize
        ensures { result ≡ length self.now }
    {
        self.items.len()
    }

    /// Returns whether there are none.
    #[inline]
    pub fn is_empty(&self) -> bool
        ensures { IsTrue result ↔ (self.now ≡ []) }
    {
        self.items.is_empty()
    }

    /// Returns the allocator of the list.
    #[inline]
    pub fn allocator(&self) -> Global {
        *self.items.allocator()
    }
}

impl<T: Drop> Items<T> {
    /// Makes room for `additional` further values. Fails only if an allocation fails.
    #[inline]
    pub fn reserve(&mut self, more: usize) -> Result<(), AllocError>
        ensures { self.new ≡ self.old }
    {
        self.items.reserve(more)
    }

    /// Appends the value. Fails only if an allocation fails; the list is unchanged then, and the value is dropped.
    #[inline]
    pub fn push(&mut self, value: T) -> Result<(), AllocError>
        ensures ok { OnOk result (self.new ≡ self.old ++ value ∷ []) }
        ensures err { OnErr result (self.new ≡ self.old) }
    {
        self.items.push(value)?;
        Ok(())
    }
}

impl<T: PartialEq> Items<T> {
    /// Returns whether these are the values of the slice, one by one.
    #[inline]
    pub fn eq_slice(&self, values: &[T]) -> bool
        ensures { result ≡ pointwise T.eq self.now values.now }
    {
        same_items(self.as_slice(), values)
    }
}

impl<T> From<Vec<T>> for Items<T> {
    ghost from_gives = { λ values items. items ≡ values.items };

    #[inline]
    fn from(values: Vec<T>) -> Items<T> {
        Items::from_vec(values)
    }
}

impl<T> From<Items<T>> for Vec<T> {
    ghost from_gives = { λ items values. values.items ≡ items };

    #[inline]
    fn from(items: Items<T>) -> Vec<T> {
        items.into_vec()
    }
}

impl<T> DerefSlice for Items<T> {
    type Elem = T;

    ghost deref_gives = { λ items values. values ≡ items };

    /// The values as a slice, on which the methods of slices and indexing work.
    #[inline]
    fn deref(&self) -> &[T] {
        self.as_slice()
    }
}

/// Iterates over the values in order.
impl<'a, T> IntoIterator for &'a Items<T> {
    type Item = &'a T;

    type IntoIter = slice::Iter<'a, T>;

    ghost into_iter_gives = { λ items it. (iter_rest it ≡ items.now) × (length (iter_rest it) < 2 ^ 64) × IterYieldsInOrder T };

    #[inline]
    fn into_iter(self) -> slice::Iter<'a, T> {
        self.as_slice().iter()
    }
}

/// Iterates over the values in order, by value.
impl<T: Drop> IntoIterator for Items<T> {
    type Item = T;

    type IntoIter = vec::IntoIter<T>;

    ghost into_iter_gives = { λ items it. (into_iter_items it ≡ items) × (into_iter_len it ≡ length items) × (into_iter_len it < 2 ^ 64)
        × EveryRun (into_iter_steps {X = T} {Z = Global}) (λ p. ItemsAre p (into_iter_items p.from)) };

    #[inline]
    fn into_iter(self) -> vec::IntoIter<T> {
        self.into_vec().into_iter()
    }
}

// Whether the values are equal, one by one.
#[inline]
fn same_items<T: PartialEq>(a: &[T], b: &[T]) -> bool
    ensures { result ≡ pointwise T.eq a.now b.now }
{
    if a.len() != b.len() {
        return false;
    }
    let mut at = 0usize;
    'items: while at < a.len() {
        if a[at] != b[at] {
            return false;
        }
        at += 1;
    }
    true
}

impl<T: PartialEq> PartialEq for Items<T> {
    ghost eq = { pointwise T.eq };

    ghost laws = { lists_per T.laws };

    #[inline]
    fn eq(&self, other: &Items<T>) -> bool {
        same_items(self.as_slice(), other.as_slice())
    }
}

impl<T: Eq> Eq for Items<T> {
    ghost laws = { lists_equiv T.Eq.laws };
}

impl<T: Hash> Hash for Items<T> {
    ghost hash_input = { fed.slice T.hash_input };

    ghost respects_eq = { (items_Alike (record { fed = T.respects_eq })).fed };

    fn hash<H: Hasher>(&self, state: &mut H) {
        self.as_slice().hash(state);
    }
}

impl<T: Clone> Clone for Items<T> {
    ghost is_clone = { AllZip T.is_clone };

    /// Clones the values. Allocates once, besides what cloning each value allocates.
    #[inline]
    fn clone(&self) -> Result<Items<T>, AllocError> {
        Ok(Items {
            items: self.items.clone()?,
        })
    }
}
