//! A step of a cursor.

ghost use Rattle.dns_rows.specs.Table.{kinds_of};
ghost use Rattle.std.specs.Prelude.{◌≡◌, ◌++◌, ℕ, []};
ghost use Rattle.dns_fields.specs.Fields.{canonical};
ghost use Rattle.dns_canonical.specs.Steps.{GivesStep, at_once, field_steps};

use crate::head::Head;
use crate::tail::Tail;
use dns_names_wire::Record;

/// What follows the octets of a head, and the position after that.
#[derive(Drop)]
pub struct Step<'a> {
    pub tail: Tail<'a>,
    pub step: usize,
    pub part: usize,
    pub item: usize,
}

impl<'a> Step<'a> {
    /// Makes a step of this tail, after which the step with this number comes.
    #[inline]
    pub fn to(tail: Tail<'a>, step: usize) -> Step<'a>
        ensures { result ≡ record { tail = tail.entry; step = step; part = 0; item = 0 } }
    {
        Step {
            tail,
            step,
            part: 0,
            item: 0,
        }
    }
}

/// A record whose canonical octets are a few that are kept, and then a tail.
pub trait AtOnce: Record {
    /// Appends the octets before the tail to an empty head, and returns the tail.
    fn at_once<'a>(&'a self, head: &mut Head) -> Tail<'a>
        requires empty { head.old ≡ [] }
        ensures { canonical (kinds_of Self.facts.row) (Self.facts.fields self.now) ≡ head.new ++ result };
}

/// The whole record in one step, the first.
#[inline]
pub fn whole_step<'a, T: AtOnce>(x: &'a T, step: usize, head: &mut Head) -> Option<Step<'a>>
    requires empty { head.old ≡ [] }
    ensures { (i j : ℕ) → GivesStep (field_steps at_once (kinds_of T.facts.row) (T.facts.fields x.now)) step i j head.new result }
{
    match step {
        0 => Some(Step::to(x.at_once(head), 1)),
        _ => None,
    }
}
