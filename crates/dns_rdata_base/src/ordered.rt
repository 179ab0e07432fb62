//! Records that are ordered by their fields.

ghost use Rattle.dns_rows.specs.Table.{kinds_of};
ghost use Rattle.std.specs.{declared.cmp.Ordering.TheVariants.Equal, Prelude.◌≡◌, Prelude.true};
ghost use Rattle.dns_fields.specs.Fields.{all_emittable};
ghost use Rattle.dns_canonical.specs.Fronts.{AllEndAlike, fields_cmp};
ghost use Rattle.dns_rdata_base.specs.Ordered.{IfSomeOrder};

use dns_names_wire::Record;
use std::cmp::Ordering;

/// A record that is ordered by its fields, and by what it is compared by.
pub trait OrderedRecord: Record + PartialEq {
    /// The order of the canonical octets, where the fields tell it without a cursor. `Equal` only of equal records.
    fn cmp_canonical_fields(&self, other: &Self) -> Option<Ordering>
        ensures { IfSomeOrder (kinds_of Self.facts.row) (Self.facts.fields self.now) (Self.facts.fields other.now) (Self.eq self.now other.now) result };

    /// The order by the fields in turn, each by its value.
    fn cmp_values(&self, other: &Self) -> Ordering
        ensures { result ≡ Self.facts.order self.now other.now };
}

/// The first of these orders that is not `Equal`; if all are, that.
#[macro_export]
macro_rules! in_order {
    ($order:expr) => {
        $order
    };
    ($order:expr, $($rest:expr),+) => {
        $order.then($crate::in_order!($($rest),+))
    };
}

/// The order of two records by the first of these fields that differs.
#[macro_export]
macro_rules! cmp_each_field {
    (($a:expr, $b:expr) $($field:ident)+) => {
        $crate::in_order!($($a.$field.cmp(&$b.$field)),+)
    };
}

/// Whether two records are equal: a call.
#[inline(never)]
pub fn is_equal<T: PartialEq>(a: &T, b: &T) -> bool
    ensures { result ≡ T.eq a.now b.now }
{
    *a == *b
}

/// The order of two records that can be emitted, as it was found field by field. `None` where it ties two that are not
/// equal. They are compared inline (`in_place`), or by a call.
#[inline]
#[tactic(auto, using(dns_canonical::proofs::Fronts::ordered))]
pub fn unless_tied<T: Record + PartialEq>(
    order: Ordering,
    a: &T,
    b: &T,
    in_place: bool,
) -> Option<Ordering>
    requires order { order ≡ fields_cmp Equal (kinds_of T.facts.row) (T.facts.fields a.now) (T.facts.fields b.now) }
    requires ends { AllEndAlike (kinds_of T.facts.row) (T.facts.fields a.now) (T.facts.fields b.now) }
    requires first { all_emittable (kinds_of T.facts.row) (T.facts.fields a.now) ≡ true }
    requires second { all_emittable (kinds_of T.facts.row) (T.facts.fields b.now) ≡ true }
    ensures { IfSomeOrder (kinds_of T.facts.row) (T.facts.fields a.now) (T.facts.fields b.now) (T.eq a.now b.now) result }
{
    let is_found = order.is_ne() || if in_place { a == b } else { is_equal(a, b) };
    if is_found { Some(order) } else { None }
}
