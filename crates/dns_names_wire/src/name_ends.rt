//! Names in a message: where they end (RFC 1035, 3.1 and 4.1.4).

ghost use Rattle.std.specs.Prelude.{◌≡◌, ℕ, ◌+◌, ◌≤◌, List, length, IfSome, IfNone, Option};
ghost use Rattle.dns_fields.specs.{Labels.DomainName, Labels.wire, Names.IsNameIn};
ghost use Rattle.dns_labels.specs.Reading.{IsRun};
ghost use Rattle.dns_names_wire.specs.NameEnds.{NameEnds, SkipsRun};
ghost use Rattle.dns_names_wire.specs.Steps.{NameSteps, Leaves, OneCount, PassesLabels, StepExamples};

// The most octets that a name has before the 0 at its end (RFC 1035, 3.1).
const MAX_OCTETS: usize = 254;

/// Labels one after the other, up to an octet 0 or a compression pointer.
#[derive(Clone, Copy)]
pub struct Run {
    /// The offset after the octet 0 or the pointer.
    pub end: usize,
    /// The target of the pointer; `None` after an octet 0.
    pub next: Option<usize>,
    /// How many octets the name has with these labels, without the octet 0 at its end.
    pub octets: usize,
}

// Labels that were gone over, and how many were passed, to their end or to the damage.
#[derive(Clone, Copy)]
struct PassedRun {
    run: Option<Run>,
    labels: usize,
}

// Goes over labels up to an octet 0 or a compression pointer, and counts them.
//
// The name has at most 254 octets with them, so whatever ends them is encoded before `most`. One comparison with it finds
// both damage and a name that is too long.
#[inline]
#[tactic(auto, using(crate::proofs::NameSteps::pointer_skips, crate::proofs::NameSteps::zero_skips, crate::proofs::NameSteps::skipped_none))]
fn pass_run(message: &[u8], offset: usize, before: usize) -> PassedRun
    requires offset { offset ≤ length message.now }
    requires few { before ≤ 254 }
    ensures some { IfSome result.run (λ r. SkipsRun message.now offset r.next r.end before r.octets) }
    ensures end { IfSome result.run (λ r. (r.end ≤ length message.now) × (before + result.labels ≤ r.octets)) }
    ensures none { IfNone result.run ((front : List (List ℕ)) (stop : Option ℕ) (end : ℕ) →
        IsRun message.now offset front stop end → before + length (wire front) ≤ 254 → ⊥) }
    ensures labels { PassesLabels result.labels message.now offset before }
    ensures few { before + result.labels ≤ 254 }
{
    if offset == message.len() {
        return PassedRun {
            run: None,
            labels: 0,
        };
    }
    let most = message.len().min(offset + (MAX_OCTETS - before) + 1);
    let mut at = offset;
    let mut first = message[at] as usize;
    let mut labels = 0;
    'labels: while first != 0 && first < 64 {
        let next = at + (first + 1);
        if next >= most {
            return PassedRun { run: None, labels };
        }
        at = next;
        first = message[at] as usize;
        labels += 1;
    }
    let octets = before + (at - offset);
    if first == 0 {
        return PassedRun {
            run: Some(Run {
                end: at + 1,
                next: None,
                octets,
            }),
            labels,
        };
    }
    if first < 192 || message.len() - at < 2 {
        return PassedRun { run: None, labels };
    }
    let second = message[at + 1];
    PassedRun {
        run: Some(Run {
            end: at + 2,
            next: Some((first - 192) * 256 + second as usize),
            octets,
        }),
        labels,
    }
}

/// Goes over labels from an offset up to an octet 0 or a compression pointer. The name has `before` octets already. `None` if
/// they are not there, or if the name has more than 254 octets with them.
#[inline]
pub fn skip_run(message: &[u8], offset: usize, before: usize) -> Option<Run>
    requires offset { offset ≤ length message.now }
    requires few { before ≤ 254 }
    ensures some { IfSome result (λ r. SkipsRun message.now offset r.next r.end before r.octets) }
    ensures end { IfSome result (λ r. r.end ≤ length message.now) }
    ensures none { IfNone result ((front : List (List ℕ)) (stop : Option ℕ) (end : ℕ) →
        IsRun message.now offset front stop end → before + length (wire front) ≤ 254 → ⊥) }
{
    pass_run(message, offset, before).run
}

// Where the encoding of a name ends, if one is there, and how many steps were taken.
#[derive(Clone, Copy)]
struct Followed {
    end: Option<usize>,
    steps: usize,
}

// Goes over a name: its labels, and the compression pointers up to its end or to the damage.
#[inline]
#[tactic(auto, using(crate::proofs::NameSteps::going_first, crate::proofs::NameSteps::going_next))]
fn follow_name(message: &[u8], start: usize) -> Followed
    requires { start ≤ length message.now }
    ensures some { IfSome result.end (λ end. NameEnds message.now start end) }
    ensures end { IfSome result.end (λ end. end ≤ length message.now) }
    ensures none { IfNone result.end ((name : DomainName) (end : ℕ) → IsNameIn message.now start name end → ⊥) }
    ensures steps { NameSteps message.now start result.steps }
{
    let passed = pass_run(message, start, 0);
    let mut steps = passed.labels;
    let first = match passed.run {
        Some(first) => first,
        None => return Followed { end: None, steps },
    };
    let end = first.end;
    let mut region = message;
    let mut offset = start;
    let mut octets = first.octets;
    let mut next = first.next;
    'runs: while let Some(target) = next {
        if target >= offset {
            return Followed { end: None, steps };
        }
        region = &region[..offset];
        let passed = pass_run(region, target, octets);
        steps += 1 + passed.labels;
        let run = match passed.run {
            Some(run) => run,
            None => return Followed { end: None, steps },
        };
        offset = target;
        octets = run.octets;
        next = run.next;
    }
    Followed {
        end: Some(end),
        steps,
    }
}

/// Returns where the encoding of a name ends, or `None` if no name is encoded there.
pub fn skip_name(message: &[u8], start: usize) -> Option<usize>
    requires { start ≤ length message.now }
    ensures some { IfSome result (λ end. NameEnds message.now start end) }
    ensures end { IfSome result (λ end. end ≤ length message.now) }
    ensures none { IfNone result ((name : DomainName) (end : ℕ) → IsNameIn message.now start name end → ⊥) }
{
    follow_name(message, start).end
}

/// Returns where the encoding of a name ends, or `None` if no name is encoded there, and subtracts from `left` how many
/// steps that takes; it stops at 0. A step is a label or a compression pointer. If no name is encoded there, the steps are
/// those up to the damage.
pub fn pass_name(message: &[u8], start: usize, left: &mut usize) -> Option<usize>
    requires { start ≤ length message.now }
    ensures some { IfSome result (λ end. NameEnds message.now start end) }
    ensures end { IfSome result (λ end. end ≤ length message.now) }
    ensures none { IfNone result ((name : DomainName) (end : ℕ) → IsNameIn message.now start name end → ⊥) }
    ensures steps { Leaves (NameSteps message.now start) left.old left.new }
{
    let followed = follow_name(message, start);
    *left = left.saturating_sub(followed.steps);
    followed.end
}

/// Returns where the encoding of a name ends, and subtracts from `left` how many labels and compression pointers it has; it
/// stops at 0. If no name is encoded there, it returns `None` and leaves `left` as it is.
#[inline]
pub fn near_name(message: &[u8], start: usize, left: &mut usize) -> Option<usize>
    requires { start ≤ length message.now }
    ensures some { IfSome result (λ end. NameEnds message.now start end) }
    ensures steps { IfSome result (λ end. Leaves (NameSteps message.now start) left.old left.new) }
    ensures none { IfNone result (left.new ≡ left.old) }
{
    let followed = follow_name(message, start);
    let end = followed.end?;
    *left = left.saturating_sub(followed.steps);
    Some(end)
}

/// The steps of a name are one number; and examples: no compression pointer, one and two, one to damage, and one to itself.
pub fn name_steps_hold()
    ensures one { OneCount }
    ensures examples { StepExamples }
{}
