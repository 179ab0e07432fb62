//! Sets of record types, as bitmaps of their numbers (RFC 4034, 4.1.2).
ghost use Rattle.std.specs.Prelude.{◌≡◌, ◌==◌, ◌↔◌, ℕ, List, [], map, length as list_length, IsTrue, IfOk, IfErr};
ghost use Rattle.std.specs.{List.Sorted.IsStrictlyIncreasing, Cmp.Lexicographic.pointwise, Cmp.Rules.comparing, Cmp.Rules.hashing};
ghost use Rattle.std.specs.Iterator.{Drains, IsFinite, YieldsFirst, item_count};
ghost use Rattle.std.specs.Hash as fed;
ghost use Rattle.std.proofs.Common.{rules};
ghost use Rattle.dns_types.specs.{RecordTypes.number_of, RecordTypes.record_type_of, declared.record_type.RecordType.RecordType as RecordTypeValue};
ghost use Rattle.dns_fields.specs.{Bitmaps.IsTypeSet, Bitmaps.contains, declared.Kind.TheVariants.Bitmap};
ghost use Rattle.dns_names_wire.specs.Terms.{ReadsTo, EmitsField};
ghost use Rattle.dns_rdata_policy.specs.RecordTypeSet.{IsSetOf, set_shape, set_fields, IsBitmapError};

mod marking;
mod reading;
mod windows;
mod writing;

use dns_names_wire::{
    BinDecoder, BinEncodable, BinEncoder, DecodeError, ProtoError, RecordType, Restrict,
};
use std::alloc::{AllocError, Global};
use std::hash::{Hash, Hasher};
use std::marker::Model;
pub(crate) use windows::next_window;

/// A set of record types. Contracts see the list of their numbers, each once, in rising order.
///
/// On the wire it is a bitmap (RFC 4034, section 4.1.2): windows of 256 types, each with its number, a length of 1 to
/// 32, and so many octets; type 0 of the window is 0x80 of the first octet.
#[derive(Debug, Drop)]
pub struct RecordTypeSet {
    // rising, each once
    numbers: Vec<u16>,
}

impl Model for RecordTypeSet {
    ghost Value = { List ℕ };

    ghost view = { λ s. s.numbers.items };

    ghost invariant = { λ s. IsTypeSet s.numbers.items };
}

impl RecordTypeSet {
    /// The set of these types, in any order; a type may come repeatedly. Fails only if an allocation fails. The
    /// iterator must end.
    pub fn new<I: Iterator<Item = RecordType> + Drop>(
        alloc: Global,
        types: I,
    ) -> Result<RecordTypeSet, AllocError>
        requires can { I.can_next types }
        requires ends { IsFinite (I.remaining types) }
        ensures { IfOk result (λ set. (kinds : List RecordTypeValue)
            × Drains I.next_gives types kinds × IsSetOf (map number_of kinds) set) }
    {
        let mut numbers = Vec::new(alloc);
        for kind in types {
            numbers.push(u16::from(kind))?;
        }
        Ok(RecordTypeSet::of_numbers(numbers))
    }

    /// The set of the types with these numbers, in any order; a number may come repeatedly. Allocates nothing.
    pub fn of_numbers(mut numbers: Vec<u16>) -> RecordTypeSet
        ensures { IsSetOf numbers.items result }
    {
        if !rises(numbers.as_slice()) {
            numbers.sort_unstable();
            numbers.dedup();
        }
        RecordTypeSet { numbers }
    }

    /// Reads the bitmap that has exactly this length. Windows may be in any order and may repeat, and bits that are all
    /// 0 are read too. Linear in the octets. Allocates for the types of the set; once, if the windows do not rise.
    ///
    /// # Errors
    ///
    /// - [`InsufficientBytes`](DecodeError::InsufficientBytes): octets are missing. Nothing is read.
    /// - [`BitmapInvalid`](DecodeError::BitmapInvalid): the octets are no bitmap. They are read.
    /// - [`Memory`](DecodeError::Memory): an allocation failed.
    pub fn read_data(
        decoder: &mut BinDecoder<'_>,
        length: Restrict<u16>,
    ) -> Result<RecordTypeSet, DecodeError>
        ensures fields { ReadsTo set_shape (λ _. Unit {0}) length set_fields result decoder.old decoder.new }
        ensures refused { IfErr result (λ e. IsBitmapError length decoder.old e decoder.new) }
    {
        let octets = decoder
            .read_slice(length.unverified() as usize)?
            .unverified();
        let numbers = reading::read_blocks(decoder.allocator(), octets)?;
        Ok(RecordTypeSet::of_numbers(numbers))
    }

    /// The types in rising order by number, each once. Allocates nothing.
    #[inline]
    pub fn iter(&self) -> RecordTypes<'_>
        ensures { result ≡ map record_type_of self.now }
    {
        RecordTypes {
            numbers: self.numbers.as_slice(),
        }
    }

    /// Whether a type of this number is in the set. Allocates nothing.
    #[inline]
    pub fn contains(&self, kind: RecordType) -> bool
        ensures { result ≡ contains (number_of kind) self.now }
    {
        self.numbers.binary_search(&u16::from(kind)).is_ok()
    }

    /// How many types there are.
    #[inline]
    pub fn len(&self) -> usize
        ensures count { result ≡ list_length self.now }
        ensures set { IsTypeSet self.now }
    {
        self.numbers.len()
    }

    /// Whether there are none.
    #[inline]
    pub fn is_empty(&self) -> bool
        ensures { IsTrue result ↔ (self.now ≡ []) }
    {
        self.numbers.is_empty()
    }

    /// The allocator of the set.
    #[inline]
    pub fn allocator(&self) -> Global {
        *self.numbers.allocator()
    }
}

// Whether each number is below the next.
#[inline]
fn rises(numbers: &[u16]) -> bool
    ensures { IsTrue result ↔ IsStrictlyIncreasing numbers.now }
{
    for i in 1..numbers.len() {
        if numbers[i - 1] >= numbers[i] {
            return false;
        }
    }
    true
}

impl BinEncodable for RecordTypeSet {
    ghost emits = { λ set r old new. EmitsField Bitmap set r old new };

    /// Appends the shortest bitmap of the set: rising windows, none of them empty, none that ends with a zero octet.
    /// The empty set has no octet.
    #[inline(always)]
    fn emit(&self, encoder: &mut BinEncoder<'_>) -> Result<(), ProtoError> {
        // For the proof: brings in that the numbers rise.
        let _set = self.len();
        writing::emit_blocks(encoder, self.numbers.as_slice())
    }
}

impl PartialEq for RecordTypeSet {
    ghost eq = { λ a b. pointwise ◌==◌ a b };

    ghost laws = { Prim.search (comparing, rules) };

    #[inline]
    fn eq(&self, other: &RecordTypeSet) -> bool
        ensures value { result ≡ pointwise ◌==◌ self.now other.now }
        ensures exact { IsTrue result ↔ (self.now ≡ other.now) }
    {
        self.numbers == other.numbers
    }
}

impl Eq for RecordTypeSet {
    ghost laws = { Prim.search (comparing, rules) };
}

impl Hash for RecordTypeSet {
    ghost hash_input = { λ s. fed.slice fed.u16 s };

    ghost respects_eq = { Prim.search (hashing, rules) };

    #[inline]
    fn hash<H: Hasher>(&self, state: &mut H) {
        self.numbers.as_slice().hash(state);
    }
}

impl Clone for RecordTypeSet {
    ghost is_clone = { λ a b. b ≡ a };

    /// The same types in memory of their own. Allocates once.
    #[inline]
    fn clone(&self) -> Result<RecordTypeSet, AllocError>
        ensures { IfOk result (λ copy. copy ≡ self.now) }
    {
        let numbers = Vec::from_slice(self.allocator(), self.numbers.as_slice())?;
        Ok(RecordTypeSet { numbers })
    }
}

/// The types of a set, in rising order by number.
#[derive(Drop)]
pub struct RecordTypes<'a> {
    numbers: &'a [u16],
}

impl<'a> Model for RecordTypes<'a> {
    ghost Value = { List RecordTypeValue };

    ghost view = { λ s. map record_type_of s.numbers.now };
}

impl<'a> Iterator for RecordTypes<'a> {
    type Item = RecordType;

    ghost next_gives = { YieldsFirst (λ s. s) };

    ghost remaining = { item_count (λ s. s) };

    #[inline]
    fn next(&mut self) -> Option<RecordType> {
        let numbers = self.numbers;
        if numbers.len() == 0 {
            return None;
        }
        self.numbers = &numbers[1..];
        Some(RecordType::from(numbers[0]))
    }
}
