//! The types of a bitmap, one after the other (RFC 4034, 4.1.2).

ghost use Rattle.std.specs.Prelude.{◌≡◌, ◌+◌, ◌-◌, ◌*◌, ◌<◌, ◌≤◌, ◌↔◌, ◌∷◌, List, [], IsTrue, length, slice_index, IfSome, IfNone};
ghost use Rattle.std.specs.{List.flat_map, List.AllByRecursion, Int.bit_at, Iterator.YieldsFirstBy, Iterator.item_count};
ghost use Rattle.dns_types.specs.RecordTypes.{number_of};
ghost use Rattle.dns_fields.specs.Bitmaps.{Block, block, IsBlock};
ghost use Rattle.dns_view.specs.TypeList.{block_types, types_left, listed};

use dns_check::bitmap::block_len;
use dns_types::RecordType;
use std::marker::Model;

// A type: the number of its window, the octets of the window, its bit in them, and the octets after the window.
#[derive(Clone, Copy)]
struct Step<'a> {
    number: u8,
    window: &'a [u8],
    bit: usize,
    rest: &'a [u8],
}

// Whether a bit of an octet is set, counted from the highest.
#[inline]
fn is_set(octet: u8, bit: usize) -> bool
    requires { bit < 8 }
    ensures { IsTrue result ↔ (bit_at octet (7 - bit) ≡ 1) }
{
    octet >> (7 - bit) & 1 == 1
}

// Returns the first bit from `from` on that is set in the octets of a window, counted from the highest bit of the first.
#[inline]
fn next_bit(number: u8, window: &[u8], from: usize) -> Option<usize>
    requires few { length window.now ≤ 32 }
    ensures some { IfSome result (λ i. types_left (number, window.now) from
        ≡ (256 * number + i) ∷ types_left (number, window.now) (i + 1)) }
    ensures inside { IfSome result (λ i. i < 8 * length window.now) }
    ensures none { IfNone result (types_left (number, window.now) from ≡ []) }
{
    let mut bit = from;
    'bits: while bit < 8 * window.len() {
        if is_set(window[bit / 8], bit % 8) {
            return Some(bit);
        }
        bit += 1;
    }
    None
}

// Returns the first type from a bit of a window on, or in the blocks after it.
#[inline]
fn next_type<'a>(number: u8, window: &'a [u8], from: usize, after: &'a [u8]) -> Option<Step<'a>>
    requires few { length window.now ≤ 32 }
    ensures some { IfSome result (λ s. listed (number, window.now) from after.now
        ≡ (256 * s.number + s.bit) ∷ listed (s.number, s.window.now) (s.bit + 1) s.rest.now) }
    ensures few { IfSome result (λ s. length s.window.now ≤ 32) }
    ensures inside { IfSome result (λ s. s.bit < 8 * length s.window.now) }
    ensures none { IfNone result (listed (number, window.now) from after.now ≡ []) }
{
    let mut current = number;
    let mut octets = window;
    let mut at = from;
    let mut rest = after;
    'windows: loop {
        if let Some(bit) = next_bit(current, octets, at) {
            return Some(Step {
                number: current,
                window: octets,
                bit,
                rest,
            });
        }
        let len = block_len(rest)?;
        current = rest[0];
        octets = &rest[2..2 + len];
        at = 0;
        rest = &rest[2 + len..];
    }
}

/// The types of a bitmap, in the order of its windows, and in rising order in each. Allocates nothing.
///
/// Ends at the first window that is not whole. A type comes twice only if two windows have the same number.
#[derive(Drop)]
pub struct TypesRef<'a> {
    number: u8,
    window: &'a [u8],
    bit: usize,
    rest: &'a [u8],
}

impl<'a> Model for TypesRef<'a> {
    ghost use Rattle.std.specs.Prelude.{List, ℕ, ◌≤◌, length};
    ghost use Rattle.dns_view.specs.TypeList.{listed};

    ghost Value = { List ℕ };

    ghost view = { λ s. listed (s.number, s.window.now) s.bit s.rest.now };

    ghost invariant = { λ s. length s.window.now ≤ 32 };
}

impl<'a> TypesRef<'a> {
    /// The types that these blocks list. Allocates nothing.
    #[inline]
    pub fn of(octets: &'a [u8]) -> TypesRef<'a>
        ensures { (blocks : List Block) → AllByRecursion IsBlock blocks → octets.now ≡ flat_map block blocks
            → result ≡ flat_map block_types blocks }
    {
        TypesRef {
            number: 0,
            window: &octets[..0],
            bit: 0,
            rest: octets,
        }
    }
}

impl<'a> Iterator for TypesRef<'a> {
    type Item = RecordType;

    ghost next_gives = { YieldsFirstBy number_of (λ s. s) };

    ghost remaining = { item_count (λ s. s) };

    #[inline]
    fn next(&mut self) -> Option<RecordType> {
        let step = next_type(self.number, self.window, self.bit, self.rest)?;
        self.number = step.number;
        self.window = step.window;
        self.bit = step.bit + 1;
        self.rest = step.rest;
        Some(RecordType::from(step.number as u16 * 256 + step.bit as u16))
    }
}
