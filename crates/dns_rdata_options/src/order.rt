//! Records of options ordered by their canonical octets, without a cursor.

ghost use Rattle.std.specs.Prelude.{◌≡◌, true, IfSome, Some};
ghost use Rattle.dns_canonical.specs.Fronts.{canonical_cmp};
ghost use Rattle.dns_rdata_options.specs.{OPT.opt_shape, OPT.opt_fields, Order.opt_eq, Steps.pairs_emittable};

use crate::opt::OPT;
use crate::opt::walks::cmp_in_order;
use crate::steps::{Tlvs, opt_is_emittable};
use dns_rdata_base::OrderedRecord;
use std::cmp::Ordering;

impl OrderedRecord for OPT {
    /// A record without options comes first. Otherwise the options decide, in rising order.
    #[inline]
    #[tactic(auto, using(crate::proofs::NoOptions::opt_orders, crate::proofs::NoOptions::none_first, crate::proofs::NoOptions::some_last))]
    fn cmp_canonical_fields(&self, other: &OPT) -> Option<Ordering> {
        if !opt_is_emittable(self) || !opt_is_emittable(other) {
            return None;
        }
        match (self.as_ref().is_empty(), other.as_ref().is_empty()) {
            (true, false) => Some(Ordering::Less),
            (false, true) => Some(Ordering::Greater),
            _ => opt_order(self, other),
        }
    }

    fn cmp_values(&self, other: &OPT) -> Ordering {
        self.cmp(other)
    }
}

/// Orders two lists by the canonical octets of all their options in rising order, without a cursor. `None` for lists
/// with the same octets that are not equal.
pub fn opt_order(a: &OPT, b: &OPT) -> Option<Ordering>
    requires first { pairs_emittable a.now ≡ true }
    requires second { pairs_emittable b.now ≡ true }
    ensures order { IfSome result (λ o. o ≡ canonical_cmp opt_shape (opt_fields a.now) (opt_fields b.now)) }
    ensures equal { result ≡ Some Ordering.Equal → opt_eq a.now b.now ≡ true }
{
    let options = a.as_ref();
    let others = b.as_ref();
    let (order, same) = cmp_in_order(&Tlvs { options }, &Tlvs { options: others });
    if order.is_ne() || same || a == b {
        return Some(order);
    }
    None
}
