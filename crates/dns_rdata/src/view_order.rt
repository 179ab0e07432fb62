//! Equality, order and hash of views.

ghost use Rattle.std.specs.Prelude.{◌≡◌, ℕ, List, length, take};
ghost use Rattle.dns_types.specs.declared.record_type.RecordType.{RecordType};
ghost use Rattle.dns_rdata.specs.{Data.Fills, Views.IsViewOf, declared.record_data.RData.RData, ViewOrder.octets_shown};

use crate::view::RDataRef;
use std::cmp::Ordering;
use std::hash::{Hash, Hasher};

// How many canonical octets are fed to a hasher at most.
const HASHED: usize = 1024;

// So many octets at the front, or all if there are fewer.
#[inline]
fn front_of(octets: &[u8], count: usize) -> &[u8]
    ensures { result.now ≡ take count octets.now }
{
    match octets.get(..count) {
        Some(front) => front,
        None => octets,
    }
}

impl<'a> RDataRef<'a> {
    ghost use Rattle.dns_rdata.specs.ViewOrder.{view_cmp};

    // Writes the first canonical octets at the front of a buffer, and returns how many octets there are in all.
    fn put_front(&self, out: &mut [u8; 1024]) -> usize
        ensures count { result ≡ length (octets_shown self.now) }
        ensures front { take result out.new ≡ take 1024 (octets_shown self.now) }
    {
        self.view.put_canonical(out)
    }

    // Orders views by type, and of one type by canonical octets.
    fn order(&self, other: &RDataRef<'_>) -> Ordering
        ensures { result ≡ view_cmp self.now other.now }
    {
        let types = self.view.record_type.cmp(&other.view.record_type);
        if types.is_ne() {
            return types;
        }
        self.view.compare(&other.view)
    }
}

impl<'a> PartialEq for RDataRef<'a> {
    ghost use Rattle.std.specs.Prelude.{◌↔◌, IsTrue};
    ghost use Rattle.std.specs.Cmp.{partial_equiv_from_equiv};
    ghost use Rattle.dns_rdata.specs.{Equal.equal, ViewOrder.view_eq, ViewOrder.view_equiv};

    ghost eq = { view_eq };

    ghost laws = { partial_equiv_from_equiv view_equiv };

    /// Whether both are of one type and have the same canonical octets: whether their values are equal. Allocates nothing.
    fn eq(&self, other: &RDataRef<'a>) -> bool
        ensures value { result ≡ view_eq self.now other.now }
        ensures exact { IsTrue result ↔ ((self.now.view.record_type ≡ other.now.view.record_type) × (octets_shown self.now ≡ octets_shown other.now)) }
        // It is `==` of the values.
        ensures values { (m : List ℕ) (p n : ℕ) (t : RecordType) (v : RData) (l : List ℕ) (q k : ℕ) (u : RecordType) (w : RData) →
            IsViewOf m p n t self.now → Fills m p n t v → IsViewOf l q k u other.now → Fills l q k u w → result ≡ equal v w }
    {
        self.order(other).is_eq()
    }
}

impl<'a> Eq for RDataRef<'a> {
    ghost use Rattle.dns_rdata.specs.ViewOrder.{view_equiv};

    ghost laws = { view_equiv };
}

impl<'a> PartialOrd for RDataRef<'a> {
    ghost use Rattle.std.specs.Prelude.{refl};
    ghost use Rattle.std.specs.{Cmp.partial_order_from_agreeing_total, Ordering.as_partial_cmp};
    ghost use Rattle.dns_rdata.specs.ViewOrder.{view_cmp, view_total, view_ties};

    ghost partial_cmp = { as_partial_cmp view_cmp };

    ghost laws = { partial_order_from_agreeing_total view_cmp view_total (λ _ _. refl) view_ties };

    #[inline]
    fn partial_cmp(&self, other: &RDataRef<'a>) -> Option<Ordering> {
        Some(self.cmp(other))
    }
}

impl<'a> Ord for RDataRef<'a> {
    ghost use Rattle.std.specs.Prelude.{refl};
    ghost use Rattle.dns_rdata.specs.{Order.rdata_cmp, ViewOrder.view_cmp, ViewOrder.view_total, ViewOrder.view_ties};

    ghost cmp = { view_cmp };

    ghost total = { view_total };

    ghost matches_partial_cmp = { λ _ _. refl };

    ghost matches_eq = { view_ties };

    /// By type, as types are ordered, and of one type by canonical octets. `Equal` exactly if `==` holds. Allocates nothing.
    ///
    /// Of one type it is the order of the values. Values of two types are ordered by their canonical octets first, and views
    /// by type; [`compare`](RDataRef::compare) returns `None` there.
    fn cmp(&self, other: &RDataRef<'a>) -> Ordering
        ensures value { result ≡ view_cmp self.now other.now }
        // Of one type it is `cmp` of the values.
        ensures values { (m : List ℕ) (p n : ℕ) (t : RecordType) (v : RData) (l : List ℕ) (q k : ℕ) (u : RecordType) (w : RData) →
            IsViewOf m p n t self.now → Fills m p n t v → IsViewOf l q k u other.now → Fills l q k u w → t ≡ u → result ≡ rdata_cmp v w }
    {
        self.order(other)
    }
}

impl<'a> Hash for RDataRef<'a> {
    ghost use Rattle.dns_rdata.specs.ViewOrder.{view_fed, view_fed_same};

    ghost hash_input = { view_fed };

    ghost respects_eq = { view_fed_same };

    /// Feeds the type, how many canonical octets there are, and the first 1,024 of them. Allocates nothing.
    ///
    /// Views that differ only after those have one hash. RDATA has at most two names, which have 510 octets uncompressed; so RDATA
    /// with more than 1,024 canonical octets has more than 500 of its own in its message, and one message holds few of them.
    fn hash<H: Hasher>(&self, state: &mut H) {
        let mut octets = [0; HASHED];
        let count = self.put_front(&mut octets);
        self.view.record_type.hash(state);
        count.hash(state);
        state.write(front_of(&octets, count));
    }
}
