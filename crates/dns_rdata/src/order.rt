//! The order of RDATA.

ghost use Rattle.std.specs.Prelude.{◌≡◌, ◌≢◌, ◌&&◌, true, refl, IfSome, IfNone};
ghost use Rattle.std.specs.{Cmp.Lexicographic.slice_cmp, Ordering.nat_cmp, Ordering.ordering_then};
ghost use Rattle.dns_rdata.specs.{Data.data_octets, Order.fields_by, Data.fields_of, Equal.equal, Order.rank, Order.rdata_cmp, Order.variants_cmp};
ghost use Rattle.dns_rdata.specs.{Order.Differ, Order.OrdersRead, Order.rdata_total, QuickOrders.TellsOrder, Ties.rdata_ties};

use crate::each::with_records;
use crate::record_data::RData;
use crate::traits::RecordData;
use dns_rdata_base::ordered::OrderedRecord;
use std::cmp::Ordering;

// The order of two records, which is that of the values that hold them.
#[inline(always)]
fn of_values<T: OrderedRecord + RecordData>(a: &T, b: &T) -> Option<Ordering>
    requires first { fields_of (T.wrapped a.now) ≡ fields_by T.facts a.now }
    requires second { fields_of (T.wrapped b.now) ≡ fields_by T.facts b.now }
    requires equal { equal (T.wrapped a.now) (T.wrapped b.now) ≡ (T.eq a.now b.now && true) }
    ensures { TellsOrder result (T.wrapped a.now) (T.wrapped b.now) }
{
    a.cmp_canonical_fields(b)
}

// Matches two values: one arm for two records of each type, all with the same body, then the given arms.
macro_rules! each_two {
    (($values:expr, $a:ident, $b:ident => $body:expr, $($pattern:pat => $other:expr,)+) $(($record:ident $rank:literal))+) => {
        match $values {
            $((RData::$record($a), RData::$record($b)) => $body,)+
            $($pattern => $other,)+
        }
    };
    ($($arguments:tt)+) => {
        with_records!(each_two, ($($arguments)+))
    };
}

// The rank of the variant.
macro_rules! rank_of {
    (($value:expr) $(($record:ident $rank:literal))+) => {
        match $value {
            $(RData::$record(_) => $rank,)+
            RData::Unknown { .. } => 23,
            RData::Update0(_) => 24,
            RData::ZERO => 25,
        }
    };
}

// The first of two orders that is not `Equal`.
#[inline]
fn first_of(octets: Ordering, types: Ordering) -> Option<Ordering>
    ensures some { IfSome result (λ order. (order ≢ Ordering.Equal) × ((rest : Ordering) → order ≡ ordering_then octets (ordering_then types rest))) }
    ensures none { IfNone result ((octets ≡ Ordering.Equal) × (types ≡ Ordering.Equal)) }
{
    if octets.is_ne() {
        return Some(octets);
    }
    if types.is_ne() {
        return Some(types);
    }
    None
}

impl RData {
    // The rank of the variant.
    #[inline]
    fn rank(&self) -> u8
        ensures { result ≡ rank self.now }
    {
        with_records!(rank_of, (self))
    }

    // The order of two values of one variant, if their fields tell it without a cursor.
    #[inline]
    #[tactic(auto, unfolding(crate::specs::QuickOrders::TellsOrder))]
    fn cmp_canonical_fields(&self, other: &RData) -> Option<Ordering>
        ensures { TellsOrder result self.now other.now }
    {
        each_two!((self, other), a, b => of_values(a, b), _ => None,)
    }

    // The order of two values by variant, and then by their fields; of unknown data by octets and then by type.
    #[tactic(auto, using(dns_canonical::proofs::Comparing::then_equal))]
    fn cmp_values(&self, other: &RData) -> Ordering
        ensures { result ≡ variants_cmp self.now other.now }
    {
        each_two!((self, other), a, b => OrderedRecord::cmp_values(a, b),
            (
                RData::Unknown { code, rdata },
                RData::Unknown { code: other_code, rdata: other_rdata },
            ) => rdata.anything.cmp(&other_rdata.anything).then(code.cmp(other_code)),
            (RData::Update0(a), RData::Update0(b)) => a.cmp(b),
            (RData::ZERO, RData::ZERO) => Ordering::Equal,
            _ => self.cmp_ranks(other),
        )
    }

    // The order of two values of different variants, by rank.
    fn cmp_ranks(&self, other: &RData) -> Ordering
        requires { Differ self.now other.now }
        ensures { result ≡ variants_cmp self.now other.now }
    {
        self.rank().cmp(&other.rank())
    }

    // The order of two values whose fields do not tell it without a cursor: by canonical octets, then by type, then by
    // variant, then by fields. Not inlined, so that only such values need stack for two cursors.
    #[inline(never)]
    fn cmp_octets(&self, other: &RData) -> Ordering
        ensures { result ≡ rdata_cmp self.now other.now }
    {
        // `==` finds equal values sooner than two cursors do.
        if self == other {
            return Ordering::Equal;
        }
        let octets = self
            .canonical_octets()
            .compare(&mut other.canonical_octets());
        let types = self.record_type().cmp(&other.record_type());
        match first_of(octets, types) {
            Some(order) => order,
            None => self.cmp_values(other),
        }
    }

    // The order of any two values.
    #[tactic(auto, unfolding(crate::specs::QuickOrders::TellsOrder))]
    fn cmp_all(&self, other: &RData) -> Ordering
        ensures { result ≡ rdata_cmp self.now other.now }
    {
        if let Some(order) = self.cmp_canonical_fields(other) {
            return order;
        }
        self.cmp_octets(other)
    }
}

impl PartialOrd for RData {
    ghost use Rattle.std.specs.{Cmp.partial_order_from_agreeing_total, Ordering.as_partial_cmp};

    ghost partial_cmp = { as_partial_cmp rdata_cmp };

    ghost laws = { partial_order_from_agreeing_total rdata_cmp rdata_total (λ _ _. refl) rdata_ties };

    #[inline]
    fn partial_cmp(&self, other: &RData) -> Option<Ordering> {
        Some(self.cmp(other))
    }
}

impl Ord for RData {
    ghost cmp = { rdata_cmp };

    ghost total = { rdata_total };

    ghost matches_partial_cmp = { λ _ _. refl };

    ghost matches_eq = { rdata_ties };

    /// By the canonical octets: the first one that differs decides, and a beginning of others comes first. Then by
    /// type, by variant as declared, and by the fields as declared. `Equal` exactly if `==` holds. Allocates nothing.
    fn cmp(&self, other: &RData) -> Ordering
        ensures value { result ≡ rdata_cmp self.now other.now }
        // Two values that were read under one type are ordered by their canonical octets.
        ensures canonical { OrdersRead self.now other.now result }
    {
        self.cmp_all(other)
    }
}
