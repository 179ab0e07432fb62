//! Whether a message has a given name at an offset.

ghost use Rattle.std.specs.Prelude.{◌≡◌, ℕ, List, ◌≤◌, ◌↔◌, [], IsTrue, length, take, IfSome};
ghost use Rattle.std.specs.Bool.{OnTrue};
ghost use Rattle.dns_labels.specs.{Reading.AddsRun, Emission.StandsFor, Emission.CutAt};
ghost use Rattle.dns_fields.specs.Labels.{AreLabels, wire};

use dns_types::comparing::{same_middle, same_octets};

/// Returns how many of the octets the message has there as labels, up to a 0 or a compression pointer, and the
/// pointer's target.
#[tactic(auto, using(crate::proofs::WritingSteps::one_matched))]
fn match_run(message: &[u8], offset: usize, octets: &[u8]) -> Option<(usize, Option<usize>)>
    requires offset { offset ≤ length message.now }
    requires short { length octets.now ≤ 254 }
    ensures { IfSome result (λ r. (end : ℕ) × AddsRun message.now offset r.1 end [] (take r.0 octets.now) × (r.0 ≤ length octets.now)) }
{
    let mut at = offset;
    let mut taken = 0usize;
    'labels: loop {
        if at >= message.len() {
            return None;
        }
        let first = message[at];
        let count = first as usize;
        if count == 0 {
            return Some((taken, None));
        }
        if count >= 192 {
            if message.len() - at < 2 {
                return None;
            }
            let second = message[at + 1];
            return Some((taken, Some((count - 192) * 256 + second as usize)));
        }
        if count >= 64 || message.len() - at <= count || octets.len() - taken <= count {
            return None;
        }
        let (label, other) = (
            &message[at..at + count + 1],
            &octets[taken..taken + count + 1],
        );
        if !same_octets(label, other) {
            return None;
        }
        at += count + 1;
        taken += count + 1;
    }
}

/// Returns whether the message has these octets, which are labels, at that offset, followed by a 0. Most suffixes that
/// are found are of this form.
#[inline]
#[tactic(auto, using(crate::proofs::Tails::tail_whole))]
pub(crate) fn stands_whole(message: &[u8], offset: usize, octets: &[u8]) -> bool
    requires { (labels : List (List ℕ)) × AreLabels labels × (octets.now ≡ wire labels) }
    ensures { OnTrue result (StandsFor message.now offset octets.now) }
{
    let len = octets.len();
    if offset >= message.len() || message.len() - offset <= len {
        return false;
    }
    if message[offset + len] != 0 {
        return false;
    }
    if !same_labels(&message[offset..offset + len], octets) {
        return false;
    }
    true
}

/// Returns whether these octets are the same, without a call for lengths that are usual.
#[inline]
fn same_labels(a: &[u8], b: &[u8]) -> bool
    requires { length a.now ≡ length b.now }
    ensures { IsTrue result ↔ (a.now ≡ b.now) }
{
    if a.len() >= 8 && a.len() <= 32 {
        return same_middle(a, b);
    }
    same_octets(a, b)
}

/// Returns whether the message has the first of these octets, which are labels, at that offset, followed by a pointer
/// to where the others are uncompressed. Most names that share a suffix are of this form.
#[inline]
pub(crate) fn stands_in_two(message: &[u8], offset: usize, octets: &[u8], front: usize) -> bool
    requires short { length octets.now ≤ 254 }
    requires labels { (labels : List (List ℕ)) × AreLabels labels × (octets.now ≡ wire labels) }
    ensures { OnTrue result (StandsFor message.now offset octets.now) }
{
    if front >= octets.len() || offset >= message.len() || message.len() - offset < front + 2 {
        return false;
    }
    let first = message[offset + front] as usize;
    let second = message[offset + front + 1] as usize;
    if first < 192 || (first - 192) * 256 + second >= offset {
        return false;
    }
    if !same_labels(&message[offset..offset + front], &octets[..front]) {
        return false;
    }
    if !is_cut(octets, front) {
        return false;
    }
    stands_whole(
        &message[..offset],
        (first - 192) * 256 + second,
        &octets[front..],
    )
}

/// Returns whether a label ends after so many of the octets, which are labels.
#[inline]
#[tactic(auto, using(crate::proofs::CutSteps::cut_start, crate::proofs::CutSteps::cut_more))]
fn is_cut(octets: &[u8], front: usize) -> bool
    requires within { front ≤ length octets.now }
    requires short { length octets.now ≤ 254 }
    requires labels { (labels : List (List ℕ)) × AreLabels labels × (octets.now ≡ wire labels) }
    ensures { OnTrue result (CutAt octets.now front) }
{
    let mut cut = 0usize;
    'labels: while cut < front {
        cut += octets[cut] as usize + 1;
    }
    cut == front
}

/// Returns whether these labels are the name at that offset of the message.
pub(crate) fn stands_at(message: &[u8], offset: usize, octets: &[u8]) -> bool
    requires { length octets.now ≤ 254 }
    ensures { OnTrue result (StandsFor message.now offset octets.now) }
{
    if offset >= message.len() {
        return false;
    }
    let mut region = message;
    let mut begin = offset;
    let mut matched = 0usize;
    'runs: loop {
        let Some((taken, stop)) = match_run(region, begin, &octets[matched..]) else {
            return false;
        };
        matched += taken;
        let Some(target) = stop else {
            return matched == octets.len();
        };
        if target >= begin {
            return false;
        }
        region = &region[..begin];
        begin = target;
    }
}
