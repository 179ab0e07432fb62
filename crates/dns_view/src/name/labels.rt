//! The labels of a name in a message (RFC 1035, 3.1 and 4.1.4).

ghost use Rattle.std.specs.Prelude.{◌≡◌, ◌≤◌, ◌∷◌, [], length, IfSome, IfNone};
ghost use Rattle.std.specs.{Iterator.YieldsFirstRef, Iterator.item_count};
ghost use Rattle.dns_view.specs.LabelList.{labels_left};

use std::marker::Model;

// A label, and where the labels after it are: the octets that compression pointers may still lead to, where the run of
// labels starts in them, and where the label ends.
#[derive(Clone, Copy)]
struct Step<'a> {
    label: &'a [u8],
    region: &'a [u8],
    start: usize,
    end: usize,
}

// Returns the label at an offset, in the run of labels that starts at `start`, or `None` after the last one. A compression
// pointer leads to an offset before the start of the run that it ends.
#[inline]
fn next_label(message: &[u8], start: usize, offset: usize) -> Option<Step<'_>>
    requires { start ≤ length message.now }
    ensures some { IfSome result (λ s. labels_left message.now start offset ≡ s.label.now ∷ labels_left s.region.now s.start s.end) }
    ensures inside { IfSome result (λ s. s.start ≤ length s.region.now) }
    ensures none { IfNone result (labels_left message.now start offset ≡ []) }
{
    let mut region = message;
    let mut first = start;
    let mut at = offset;
    'runs: while at < region.len() {
        let size = region[at] as usize;
        let left = region.len() - at - 1;
        if size < 64 {
            if size == 0 || left < size {
                return None;
            }
            return Some(Step {
                label: &region[at + 1..at + 1 + size],
                region,
                start: first,
                end: at + 1 + size,
            });
        }
        if size < 192 || left == 0 {
            return None;
        }
        let target = (size - 192) * 256 + region[at + 1] as usize;
        if target >= first {
            return None;
        }
        region = &region[..first];
        first = target;
        at = target;
    }
    None
}

/// The labels of a name in a message, without their length octets, from the first to the last one before the root.
///
/// Compression pointers are followed. Each leads to an earlier offset, so the labels end. Allocates nothing.
#[derive(Drop)]
pub struct Labels<'a> {
    message: &'a [u8],
    start: usize,
    offset: usize,
}

impl<'a> Model for Labels<'a> {
    ghost use Rattle.std.specs.Prelude.{List, ℕ, ◌≤◌, length};
    ghost use Rattle.dns_view.specs.LabelList.{labels_left};

    ghost Value = { List (List ℕ) };

    ghost view = { λ s. labels_left s.message.now s.start s.offset };

    ghost invariant = { λ s. s.start ≤ length s.message.now };
}

impl<'a> Labels<'a> {
    ghost use Rattle.std.specs.Prelude.{ℕ};
    ghost use Rattle.dns_fields.specs.{Labels.DomainName, Names.IsNameIn};
    ghost use Rattle.dns_view.specs.LabelList.{labels_at};

    /// The labels of the name at an offset. Allocates nothing.
    #[inline]
    pub(crate) fn at(message: &'a [u8], offset: usize) -> Labels<'a>
        requires { offset ≤ length message.now }
        ensures all { result ≡ labels_at message.now offset }
        ensures name { (x : DomainName) (q : ℕ) → IsNameIn message.now offset x q → result ≡ x.labels }
    {
        Labels {
            message,
            start: offset,
            offset,
        }
    }
}

impl<'a> Iterator for Labels<'a> {
    type Item = &'a [u8];

    ghost next_gives = { YieldsFirstRef (λ s. s) };

    ghost remaining = { item_count (λ s. s) };

    #[inline]
    fn next(&mut self) -> Option<&'a [u8]> {
        let step = next_label(self.message, self.start, self.offset)?;
        self.message = step.region;
        self.start = step.start;
        self.offset = step.end;
        Some(step.label)
    }
}
