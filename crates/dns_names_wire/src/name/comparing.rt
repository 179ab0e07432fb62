//! Names compared without ASCII case.

ghost use Rattle.std.specs.{Prelude.◌≡◌, Prelude.◌↔◌, Prelude.IsTrue, Prelude.map, Cmp.Rules.comparing, Cmp.Rules.hashing, Cmp.partial_order_from_own_ties};
ghost use Rattle.std.specs.{Char.to_ascii_lowercase, Ordering.as_partial_cmp};
ghost use Rattle.std.proofs.Common.{rules};
ghost use Rattle.dns_names_wire.specs.NameValues.{IsInZone};
ghost use Rattle.dns_fields.specs.{Comparing.name_cmp, Comparing.name_eq, Comparing.name_fed, Labels.lowname};

use crate::name::Name;
use crate::name::building::without_first;
use dns_labels::NameOctets;
use dns_labels::comparing::{compare_lowered, equal_lowered, hash_lowered};
use std::cmp::Ordering;
use std::hash::{Hash, Hasher};

impl PartialEq for Name {
    ghost eq = { name_eq };

    ghost laws = { Prim.search (comparing, rules) };

    /// Whether both are fully qualified or both relative, and have the same labels without ASCII case.
    #[inline]
    fn eq(&self, other: &Name) -> bool
        ensures value { result ≡ name_eq self.now other.now }
        ensures exact { IsTrue result ↔ ((lowname self.now ≡ lowname other.now) × (self.now.fully_qualified ≡ other.now.fully_qualified)) }
    {
        let mark = self.is_fqdn.get();
        let other_mark = other.is_fqdn.get();
        mark == other_mark && is_same(&self.octets, &other.octets)
    }
}

// Whether two names have the same octets but for the case of letters. Most names that are equal have the same octets in
// the same case, which is tested first.
#[inline]
fn is_same(a: &NameOctets, b: &NameOctets) -> bool
    ensures { IsTrue result ↔ (map to_ascii_lowercase a.now ≡ map to_ascii_lowercase b.now) }
{
    *a == *b || is_same_lowered(a, b)
}

// Whether two names have the same octets but for the case of letters, tested octet by octet.
#[inline(never)]
fn is_same_lowered(a: &NameOctets, b: &NameOctets) -> bool
    ensures { IsTrue result ↔ (map to_ascii_lowercase a.now ≡ map to_ascii_lowercase b.now) }
{
    equal_lowered(a.as_slice(), b.as_slice())
}

impl Eq for Name {
    ghost laws = { Prim.search (comparing, rules) };
}

impl PartialOrd for Name {
    ghost partial_cmp = { as_partial_cmp name_cmp };

    ghost laws = { partial_order_from_own_ties (Prim.search (comparing, rules)) (Prim.search (comparing, rules)) };

    #[inline]
    fn partial_cmp(&self, other: &Name) -> Option<Ordering> {
        Some(self.cmp(other))
    }
}

impl Ord for Name {
    ghost cmp = { name_cmp };

    ghost total = { Prim.search (comparing, rules) };

    ghost matches_partial_cmp = { Prim.search (comparing, rules) };

    ghost matches_eq = { Prim.search (comparing, rules) };

    /// By the first octet in which the canonical octets differ: labels from the first one on, each after its length, in
    /// lower case. Of two names that differ in nothing else the relative one comes first. This is not the order of names
    /// in a zone (RFC 4034, section 6.1), which begins at the root.
    fn cmp(&self, other: &Name) -> Ordering {
        compare_lowered(self.octets.as_slice(), other.octets.as_slice()).then(
            self.is_fqdn.get().cmp(&other.is_fqdn.get()),
        )
    }
}

impl Hash for Name {
    ghost hash_input = { name_fed };

    ghost respects_eq = { Prim.search (hashing, rules) };

    /// Feeds the canonical octets at once, and whether the name is fully qualified.
    fn hash<H: Hasher>(&self, state: &mut H) {
        hash_lowered(self.octets.as_slice(), state);
        self.is_fqdn.get().hash(state);
    }
}

impl Name {
    /// Whether it is the same name, by every octet, so that letters of another case differ.
    #[inline]
    pub fn eq_case(&self, other: &Name) -> bool
        ensures { IsTrue result ↔ (self.now ≡ other.now) }
    {
        other.is_fqdn.get() == self.is_fqdn.get()
            && self.octets.as_slice() == other.octets.as_slice()
    }

    /// Whether the other name is this one or below it, without ASCII case: its last labels are the labels of this one,
    /// fully qualified or not. Allocates nothing.
    pub fn zone_of(&self, name: &Name) -> bool
        ensures { IsTrue result ↔ IsInZone name.now self.now }
    {
        let zone = self.octets.as_slice();
        let mut rest = name.octets.as_slice();
        'labels: while rest.len() > zone.len() {
            rest = without_first(rest);
        }
        equal_lowered(rest, zone)
    }
}
