//! Canonical octets, one after the other.

ghost use Rattle.std.specs.Prelude.{◌≡◌, ◌+◌, ◌≤◌, IsTrue, [], ◌∷◌, if◌then◌else◌, is_some, Some, None, IfNone, IfSome, MatchOption, ◌++◌};
ghost use Rattle.std.specs.{Ordering.nat_cmp, Option.option_copied, Cmp.Lexicographic.slice_cmp, Iterator.YieldsFirstBy, Iterator.item_count};
ghost use Rattle.dns_canonical.specs.{Runs.common, Runs.Copies, Steps.GivesStep, Steps.CountsPasses, Steps.CountsChoices, Cursor.Course, Cursor.Remaining};
ghost use Rattle.dns_canonical.specs.Cursor.{course_of, begins, Chooses, Advances, RefillsBy, Skips};

use crate::count::Count;
use crate::head::Head;
use crate::order::next_order;
use crate::run::Run;
use crate::step::Step;
use crate::tail::Tail;
use std::cmp::Ordering;
use std::marker::Model;

/// Data whose canonical octets come in steps.
pub trait Stepped {
    /// What a cursor keeps from one step to the next.
    type Kept: Drop;

    /// What a cursor meets in the data.
    ghost course: { Self → Course Self.Kept };

    /// Returns the step after a position in the data.
    fn step<'a>(
        &'a self,
        step: usize,
        part: usize,
        item: usize,
        kept: &mut Option<Self::Kept>,
        head: &mut Head,
        choices: &mut Count,
        passes: &mut Count,
    ) -> Option<Step<'a>>
        requires empty { head.old ≡ [] }
        requires at { (course self.now).at step part item }
        requires kept { (course self.now).keeps step part kept.old }
        ensures octets { GivesStep (course self.now).left step part item head.new result }
        ensures choices { CountsChoices choices.old.n choices.new.n (course self.now).all_options (course self.now).options step part item head.new result }
        ensures passes { CountsPasses passes.old.n passes.new.n (course self.now).windows step part head.new result }
        ensures at { IfSome result (λ s. (course self.now).at s.step s.part s.item) }
        ensures kept { IfSome result (λ s. (course self.now).keeps s.step s.part kept.new) }
        ensures end { IfNone result ((course self.now).keeps step part kept.new) };
}

/// An iterator over the canonical octets of a value. It keeps its position and never allocates.
#[derive(Drop)]
pub struct Cursor<'a, T: Stepped> {
    data: Option<&'a T>,
    run: Run<'a>,
    step: usize,
    part: usize,
    item: usize,
    kept: Option<T::Kept>,
    taken: Count,
    choices: Count,
    passes: Count,
}

impl<'a, T: Stepped> Model for Cursor<'a, T> {
    ghost Value = { Remaining };

    ghost view = { λ c. let w = course_of T.course (option_copied c.data) in record {
      octets = c.run ++ w.left c.step c.part c.item;
      taken = c.taken.n;
      choices = c.choices.n;
      options = w.options c.step c.part c.item;
      all_options = w.all_options;
      passes = c.passes.n;
      windows = w.windows c.step c.part;
    } };

    ghost invariant = { λ c. let w = course_of T.course (option_copied c.data) in (c.step ≤ 8) × w.at c.step c.part c.item × w.keeps c.step c.part c.kept };
}

// Brings the octets of the next step to hand, and returns the position after them.
#[inline]
fn refill<'a, T: Stepped>(
    run: &mut Run<'a>,
    source: Option<&'a T>,
    step: usize,
    part: usize,
    item: usize,
    kept: &mut Option<T::Kept>,
    choices: &mut Count,
    passes: &mut Count,
) -> Option<(usize, usize, usize)>
    requires at { (course_of T.course (option_copied source)).at step part item }
    requires kept { (course_of T.course (option_copied source)).keeps step part kept.old }
    ensures kept { IfSome result (λ q. (course_of T.course (option_copied source.entry)).keeps q.0 q.1 kept.new) }
    ensures end { IfNone result ((course_of T.course (option_copied source.entry)).keeps step part kept.new) }
    ensures steps { RefillsBy (course_of T.course (option_copied source.entry)) step part item run.new choices.old.n choices.new.n passes.old.n passes.new.n result }
{
    run.head.clear();
    run.at = 0;
    let Some(data) = source else {
        run.tail = Tail::none();
        return None;
    };
    match data.step(step, part, item, kept, &mut run.head, choices, passes) {
        None => {
            run.tail = Tail::none();
            None
        }
        Some(next) => {
            run.tail = next.tail;
            Some((next.step, next.part, next.item))
        }
    }
}

// Brings the next step of a cursor to hand and moves its position; if there is none, returns the answer.
macro_rules! refill_or {
    ($cursor:expr, $answer:expr) => {
        match refill(
            &mut $cursor.run,
            $cursor.data,
            $cursor.step,
            $cursor.part,
            $cursor.item,
            &mut $cursor.kept,
            &mut $cursor.choices,
            &mut $cursor.passes,
        ) {
            None => return $answer,
            Some((step, part, item)) => {
                $cursor.step = step;
                $cursor.part = part;
                $cursor.item = item;
            }
        }
    };
}

impl<'a, T: Stepped> Cursor<'a, T> {
    /// Starts at the first octet. A value that cannot be emitted has no canonical octets.
    #[inline]
    pub fn new(value: &'a T, can_emit: bool) -> Cursor<'a, T>
        requires at { IsTrue can_emit → (T.course value.now).at 0 0 0 }
        requires kept { IsTrue can_emit → (T.course value.now).keeps 0 0 None }
        ensures { result ≡ begins (course_of T.course (if can_emit then Some value.now else None)) }
    {
        let data = if can_emit { Some(value) } else { None };
        Cursor {
            data,
            run: Run::new(),
            step: 0,
            part: 0,
            item: 0,
            kept: None,
            taken: Count::new(),
            choices: Count::new(),
            passes: Count::new(),
        }
    }

    /// Returns the next octet, or `None` at the end. Only where an option begins are options compared, at most twice as
    /// often as there are options; only where a window of a type bitmap begins is the set of types read, once.
    pub fn next(&mut self) -> Option<u8>
        ensures octets { MatchOption result ((self.old.octets ≡ []) × (self.new.octets ≡ [])) (λ x. self.old.octets ≡ x ∷ self.new.octets) }
        ensures few { self.new.taken ≤ self.old.taken + 1 }
        ensures taken { self.new.taken ≡ self.old.taken + (if is_some result then 1 else 0) }
        ensures choices { Chooses self.old self.new }
        ensures option { self.old.options ≤ self.new.options + 1 }
        ensures passes { self.old.passes + self.old.windows ≡ self.new.passes + self.new.windows }
        ensures once { self.new.passes ≤ self.old.passes + 1 }
    {
        'steps: loop {
            if let Some(octet) = self.run.next() {
                self.taken.tick();
                return Some(octet);
            }
            refill_or!(self, None);
        }
    }

    /// Copies as many of the next octets as fit to the front of the buffer, and returns their number. The rest of the
    /// buffer is unchanged, and the cursor is after what was copied: if the buffer is full, there may be more. Octets
    /// that are contiguous are copied at once.
    pub fn copy_to(&mut self, buffer: &mut [u8]) -> usize
        ensures octets { Copies result self.old.octets self.new.octets buffer.old buffer.new }
        ensures taken { self.new.taken ≡ self.old.taken + result }
        ensures choices { Chooses self.old self.new }
        ensures passes { self.old.passes + self.old.windows ≡ self.new.passes + self.new.windows }
    {
        let mut filled = 0usize;
        'steps: loop {
            let n = self.run.copy_to(&mut buffer[filled..]);
            self.taken.add(n);
            filled += n;
            if filled == buffer.len() {
                return filled;
            }
            refill_or!(self, filled);
        }
    }

    // Takes from both the octets that both begin with, of those at hand in one step.
    #[inline]
    fn skip_common(&mut self, other: &mut Cursor<'_, T>)
        ensures { Skips self.old self.new other.old other.new }
    {
        let n = self.run.skip_common(&mut other.run);
        self.taken.add(n);
        other.taken.add(n);
    }

    /// Compares the octets that are left in both, by the first that differs; a proper prefix is less. From each at most
    /// one octet after their common prefix is taken. Both cursors can be used afterwards.
    #[tactic(auto, using(crate::proofs::Cursors::chooses_both))]
    pub fn compare(&mut self, other: &mut Cursor<'_, T>) -> Ordering
        ensures order { result ≡ slice_cmp nat_cmp self.old.octets other.old.octets }
        ensures self_taken { self.new.taken ≤ self.old.taken + common self.old.octets other.old.octets + 1 }
        ensures other_taken { other.new.taken ≤ other.old.taken + common self.old.octets other.old.octets + 1 }
        ensures self_rest { Advances self.old self.new }
        ensures other_rest { Advances other.old other.new }
        ensures self_choices { Chooses self.old self.new }
        ensures other_choices { Chooses other.old other.new }
        ensures self_passes { self.old.passes + self.old.windows ≡ self.new.passes + self.new.windows }
        ensures other_passes { other.old.passes + other.old.windows ≡ other.new.passes + other.new.windows }
    {
        'octets: loop {
            match next_order(self.next(), other.next()) {
                Some(order) => return order,
                None => self.skip_common(other),
            }
        }
    }
}

impl<'a, T: Stepped> Iterator for Cursor<'a, T> {
    type Item = u8;

    ghost next_gives = { YieldsFirstBy (λ x. x) (λ c. c.octets) };

    ghost remaining = { item_count (λ c. c.octets) };

    /// Returns the next octet, as the method `next` of the cursor itself does.
    #[inline]
    fn next(&mut self) -> Option<u8> {
        Cursor::next(self)
    }
}
