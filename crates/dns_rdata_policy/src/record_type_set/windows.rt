//! The windows of a set, one after the other.

ghost use Rattle.std.specs.Prelude.{◌≡◌, ◌<◌, ◌≤◌, ◌+◌, ◌∷◌, drop, length, take};
ghost use Rattle.dns_fields.specs.Bitmaps.{IsTypeSet, minimal};

use crate::record_type_set::RecordTypeSet;
use crate::record_type_set::writing::{as_octets, mark_window, run_len};
use dns_canonical::Count;

/// A window of numbers: its number, how many of its 32 octets count, and how many numbers it has.
#[derive(Drop)]
pub struct Window {
    pub number: u8,
    pub len: usize,
    pub count: usize,
}

impl RecordTypeSet {
    /// The numbers of the types, rising, each once. Allocates nothing.
    #[inline]
    pub fn numbers(&self) -> &[u16]
        ensures value { result.now ≡ self.now }
        ensures set { IsTypeSet self.now }
    {
        self.numbers.as_slice()
    }
}

/// Returns the first window of numbers that rise, by one pass over them. Its octets, and then zeros, replace the 32
/// that are given.
#[inline]
pub fn first_window(numbers: &[u16], octets: &mut [u8; 32]) -> Window
    requires some { 0 < length numbers.now }
    requires set { IsTypeSet numbers.now }
    ensures len { result.len ≤ 32 }
    ensures next { minimal numbers.now ≡ (result.number, take result.len octets.new) ∷ minimal (drop result.count numbers.now) }
    ensures count { (0 < result.count) × (result.count ≤ length numbers.now) }
{
    let count = run_len(numbers);
    let run = &numbers[..count];
    mark_window(octets, run);
    let _octets = as_octets(octets);
    Window {
        number: (run[0] / 256) as u8,
        len: run[run.len() - 1] as usize % 256 / 8 + 1,
        count,
    }
}

/// Does the same as `first_window`, and counts the pass. Canonical octets are made by this function alone.
#[inline]
pub(crate) fn next_window(numbers: &[u16], octets: &mut [u8; 32], passes: &mut Count) -> Window
    requires some { 0 < length numbers.now }
    requires set { IsTypeSet numbers.now }
    ensures pass { passes.new.n ≡ passes.old.n + 1 }
    ensures number { result.number < 256 }
    ensures room { length octets.new ≡ 32 }
    ensures len { result.len ≤ 32 }
    ensures next { minimal numbers.now ≡ (result.number, take result.len octets.new) ∷ minimal (drop result.count numbers.now) }
    ensures count { (0 < result.count) × (result.count ≤ length numbers.now) }
{
    passes.tick();
    first_window(numbers, octets)
}
