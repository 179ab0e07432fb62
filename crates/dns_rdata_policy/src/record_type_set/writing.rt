//! The shortest bitmap of numbers.

ghost use Rattle.std.specs.Prelude.{◌≡◌, ◌≢◌, ◌+◌, ◌-◌, ◌*◌, ◌/◌, ◌%◌, ◌<◌, ◌≤◌, ◌==◌, ◌++◌, ℕ, if◌then◌else◌, length, take, drop, slice_index};
ghost use Rattle.std.specs.Int.{bit_at, bytes_high_first};
ghost use Rattle.dns_fields.specs.{Octets.AreOctets, Bitmaps.IsTypeSet, Bitmaps.mark, declared.Kind.TheVariants.Bitmap};
ghost use Rattle.dns_names_wire.specs.Terms.{EmitsField};
ghost use Rattle.dns_rdata_policy.specs.RecordTypeSet.{AreOfWindow, first_window};

use crate::record_type_set::windows::first_window;
use dns_names_wire::{BinEncoder, ProtoError};

// Appends the blocks of a set's numbers, which rise.
#[inline(always)]
#[tactic(auto, using(crate::proofs::WindowSteps::left_first))]
pub(super) fn emit_blocks(encoder: &mut BinEncoder<'_>, numbers: &[u16]) -> Result<(), ProtoError>
    requires { IsTypeSet numbers.now }
    ensures { EmitsField Bitmap numbers.now result encoder.old encoder.new }
{
    let mut rest = numbers;
    while rest.len() > 0 {
        let mut octets = [0; 32];
        let window = first_window(rest, &mut octets);
        let head = [window.number, window.len as u8];
        encoder.emit_both(&head, &octets[..window.len])?;
        rest = rest.split_at(window.count).1;
    }
    Ok(())
}

// How many of the first numbers are of the first one's window.
#[inline]
pub(crate) fn run_len(numbers: &[u16]) -> usize
    requires { 0 < length numbers.now }
    ensures some { 0 < result }
    ensures within { result ≤ length numbers.now }
    ensures run { AreOfWindow (first_window numbers.now) (take result numbers.now) }
    ensures next { result < length numbers.now → slice_index numbers.now result / 256 ≢ first_window numbers.now }
{
    let window = numbers[0] / 256;
    let mut end = 1;
    while end < numbers.len() && numbers[end] / 256 == window {
        end += 1;
    }
    end
}

// The slice as it is, with what its type says of each item.
#[inline]
pub(super) fn as_octets(octets: &[u8]) -> &[u8]
    ensures value { result.now ≡ octets.now }
    ensures octets { AreOctets octets.now }
{
    octets
}

// Makes of 32 octets those of a window whose types these are, zeros at the end too.
#[tactic(auto, using(crate::proofs::Windows::marks_more))]
pub(super) fn mark_window(octets: &mut [u8; 32], run: &[u16])
    requires some { 0 < length run.now }
    requires run { AreOfWindow (first_window run.now) run.now }
    ensures { (n : ℕ) → n < 256 → bit_at (slice_index octets.new (n / 8)) (7 - n % 8) ≡ mark run.now (256 * first_window run.now + n) }
{
    let (token, count) = first_token(run);
    *octets = [0; 32];
    put_token(octets, 0, token);
    for at in count..run.len() {
        mark_bit(octets, (run[at] % 256) as usize);
    }
}

// The bits of the first numbers that are below 64 in their window, as most are, the first one highest, and how many
// these numbers are. Octets that are stored one by one are slow to load together, so these are put together in one
// number.
#[inline]
#[tactic(auto, using(crate::proofs::Windows::front_more))]
fn first_token(run: &[u16]) -> (u64, usize)
    requires { AreOfWindow (first_window run.now) run.now }
    ensures count { result.1 ≤ length run.now }
    ensures low { (n : ℕ) → n < 64 → bit_at result.0 (63 - n) ≡ mark (take result.1 run.now) (256 * first_window run.now + n) }
    ensures high { (n : ℕ) → 64 ≤ n → n < 256 → mark (take result.1 run.now) (256 * first_window run.now + n) ≡ 0 }
{
    let mut token = 0u64;
    let mut count = 0usize;
    while count < run.len() && run[count] % 256 < 64 {
        token |= 1 << (63 - run[count] % 256);
        count += 1;
    }
    (token, count)
}

// Writes the octets of a number at an index, the highest first.
#[inline]
fn put_token(octets: &mut [u8], at: usize, token: u64)
    requires { at + 8 ≤ length octets.old }
    ensures { octets.new ≡ take at octets.old ++ (bytes_high_first 8 token ++ drop (at + 8) octets.old) }
{
    octets[at..at + 8].copy_from_slice(&token.to_be_bytes());
}

// Sets bit b of a window, the highest of its octet first.
#[inline]
#[tactic(auto, using(crate::proofs::Windows::marked))]
fn mark_bit(octets: &mut [u8; 32], b: usize)
    requires bit { b < 256 }
    ensures { (n : ℕ) → n < 256 → bit_at (slice_index octets.new (n / 8)) (7 - n % 8)
        ≡ (if b == n then 1 else bit_at (slice_index octets.old (n / 8)) (7 - n % 8)) }
{
    octets[b / 8] |= 1 << (7 - b % 8);
}
