//! Names read from a message.

ghost use Rattle.std.specs.Prelude.{◌≡◌, ℕ, ◌+◌, ◌≤◌, List, [], length, IfOk, IfSome, IfNone, Option, Err, true};
ghost use Rattle.dns_fields.specs.{Labels.DomainName, Labels.FitsName, Labels.wire, Names.LabelsStand, Names.IsNameIn};
ghost use Rattle.dns_labels.specs.{Labels.AreNameOctets, Labels.name_of, Reading.IsRun, Reading.AddsRun, Reading.IsNameAt};

use crate::NameOctets;
use crate::buffer::{MAX_OCTETS, NameBuffer};
use crate::error::NameError;
use std::alloc::Global;

/// How a run of labels ends: with a 0, or with a compression pointer to the further labels.
#[derive(Clone, Copy)]
struct Run {
    end: usize,
    next: Option<usize>,
}

/// Reads labels up to a 0 or a compression pointer.
#[tactic(auto, using(crate::proofs::ReadingSteps::at_pointer, crate::proofs::ReadingSteps::so_far_none))]
fn read_run(message: &[u8], offset: usize, octets: &mut NameBuffer) -> Option<Run>
    requires { offset ≤ length message.now }
    ensures some { IfSome result (λ r. AddsRun message.now offset r.next r.end octets.old octets.new) }
    ensures end { IfSome result (λ r. r.end ≤ length message.now) }
    ensures room { length octets.new ≤ 254 }
    ensures none { IfNone result ((front : List (List ℕ)) (stop : Option ℕ) (end : ℕ) →
        IsRun message.now offset front stop end → length octets.old + length (wire front) ≤ 254 → ⊥) }
{
    let mut at = offset;
    let mut len = octets.len();
    'labels: loop {
        if at >= message.len() {
            return None;
        }
        let first = message[at];
        let count = first as usize;
        if count == 0 {
            return Some(Run {
                end: at + 1,
                next: None,
            });
        }
        if count >= 192 {
            if message.len() - at < 2 {
                return None;
            }
            let second = message[at + 1];
            return Some(Run {
                end: at + 2,
                next: Some((count - 192) * 256 + second as usize),
            });
        }
        if count >= 64 || message.len() - at <= count || len + count >= MAX_OCTETS {
            return None;
        }
        octets.extend(&message[at..at + count + 1]);
        at += count + 1;
        len += count + 1;
    }
}

/// Reads the octets of a name, and returns where it ends.
#[tactic(auto, using(crate::proofs::ReadingRuns::first_run, crate::proofs::ReadingRuns::next_run, crate::proofs::ReadingRuns::not_before))]
fn read_runs(message: &[u8], start: usize, octets: &mut NameBuffer) -> Option<usize>
    requires start { start ≤ length message.now }
    requires empty { octets.old ≡ [] }
    ensures some { IfSome result (λ end. IsNameAt message.now start octets.new end) }
    ensures end { IfSome result (λ end. end ≤ length message.now) }
    ensures none { IfNone result ((labels : List (List ℕ)) (end : ℕ) →
        LabelsStand message.now start labels end → FitsName labels → ⊥) }
{
    let first = read_run(message, start, octets)?;
    let end = first.end;
    let mut region = message;
    let mut offset = start;
    let mut next = first.next;
    'runs: while let Some(target) = next {
        if target >= offset {
            return None;
        }
        region = &region[..offset];
        let run = read_run(region, target, octets)?;
        offset = target;
        next = run.next;
    }
    Some(end)
}

/// Returns the octets of an uncompressed name; `None` if it has a pointer, or if no name is there.
#[inline]
fn uncompressed_octets(message: &[u8], start: usize) -> Option<&[u8]>
    requires { start ≤ length message.now }
    ensures some { IfSome result (λ octets. IsNameAt message.now start octets.now (start + length octets.now + 1)) }
    ensures end { IfSome result (λ octets. start + length octets.now + 1 ≤ length message.now) }
{
    let mut at = start;
    'labels: loop {
        if at >= message.len() {
            return None;
        }
        let count = message[at] as usize;
        if count == 0 {
            return Some(&message[start..at]);
        }
        if count >= 64 || message.len() - at <= count || at - start + count >= MAX_OCTETS {
            return None;
        }
        at += count + 1;
    }
}

/// Reads the name at an offset of a message, and returns its octets and the offset after it there.
///
/// The case of letters is preserved. A name is labels, each a length of 1 to 63 and its octets, and then a 0; or,
/// instead of the 0, a compression pointer: two octets with the two highest bits set, whose other 14 bits are the
/// offset of the rest, which must be before this part of the name (RFC 1035, section 4.1.4). Uncompressed it has at
/// most 255 octets. If no name is there, this returns [`Invalid`](NameError::Invalid) and allocates nothing; otherwise
/// it allocates at most once.
#[tactic(auto, using(crate::proofs::Found::octets_found, crate::proofs::Found::name_found))]
pub fn read_octets(
    alloc: Global,
    message: &[u8],
    start: usize,
) -> Result<(NameOctets, usize), NameError>
    requires { start ≤ length message.now }
    ensures ok { IfOk result (λ r. IsNameIn message.now start (name_of r.0 true) r.1) }
    ensures octets { IfOk result (λ r. AreNameOctets r.0) }
    ensures end { IfOk result (λ r. r.1 ≤ length message.now) }
    ensures refused { result ≡ Err NameError.Invalid → (name : DomainName) (end : ℕ) →
        IsNameIn message.now start name end → ⊥ }
{
    if let Some(octets) = uncompressed_octets(message, start) {
        let end = start + octets.len() + 1;
        return Ok((NameOctets::from_slice(alloc, octets)?, end));
    }
    let mut octets = NameBuffer::new();
    let Some(end) = read_runs(message, start, &mut octets) else {
        return Err(NameError::Invalid);
    };
    let octets = NameOctets::from_slice(alloc, octets.as_slice())?;
    Ok((octets, end))
}
