//! RDATA of any octets: its step, and its order.

ghost use Rattle.std.specs.Prelude.{◌≡◌, ◌∷◌, ℕ, []};
ghost use Rattle.dns_fields.specs.declared.Kind.{TheVariants.Rest};
ghost use Rattle.dns_canonical.specs.{Fronts.canonical_cmp, Steps.GivesStep, Steps.at_once, Steps.field_steps};
ghost use Rattle.dns_rdata_base.specs.Ordered.{IfSomeOrder};

use dns_canonical::{Head, Step, Tail, octets_cmp};
use dns_names_wire::SmallOctets;
use std::cmp::Ordering;

/// The order of NULL, OPENPGPKEY and unknown types: by their octets.
#[inline]
#[tactic(auto, unfolding(dns_fields::specs::Fields::field_octets))]
pub fn rest_order(a: &[u8], b: &[u8]) -> Ordering
    ensures { result ≡ canonical_cmp (Rest ∷ []) (a.now, tt) (b.now, tt) }
{
    octets_cmp(a, b)
}

// The order of two records of any octets, which are equal if they tie.
#[inline]
pub(crate) fn rest_cmp_canonical(a: &SmallOctets<64>, b: &SmallOctets<64>) -> Option<Ordering>
    ensures { IfSomeOrder (Rest ∷ []) (a.now, tt) (b.now, tt) (⟦<SmallOctets<64> as PartialEq>⟧.eq a.now b.now) result }
{
    Some(rest_order(a.as_slice(), b.as_slice()))
}

/// The step of NULL, OPENPGPKEY and unknown types: all their octets.
#[inline]
pub fn rest_step<'a>(octets: &'a [u8], step: usize, head: &mut Head) -> Option<Step<'a>>
    requires empty { head.old ≡ [] }
    ensures { (i j : ℕ) → GivesStep (field_steps at_once (Rest ∷ []) (octets.now, tt)) step i j head.new result }
{
    let _ = &head;
    match step {
        0 => Some(Step::to(Tail::rest(octets), 1)),
        _ => None,
    }
}
