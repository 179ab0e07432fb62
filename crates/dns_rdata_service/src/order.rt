//! The order of service bindings by canonical octets, up to the first parameters whose order only a cursor tells.

ghost use Rattle.std.specs.Prelude.{◌≡◌, ◌≤◌, drop, length, map, true, IfSome, IsTrue};
ghost use Rattle.std.specs.{Ordering.nat_cmp, Ordering.ordering_then, declared.cmp.Ordering.TheVariants.Equal, Cmp.Lexicographic.slice_cmp};
ghost use Rattle.dns_fields.specs.{Tlvs.Alpn as Names, Tlvs.Opaque, Tlvs.Port, Equal.values_eq};
ghost use Rattle.dns_canonical.specs.Fronts.{canonical_cmp};
ghost use Rattle.dns_rdata_service.specs.{SVCB.svcb_shape, SVCB.svcb_fields, SVCB.svcb_key_shape, SVCB.svcb_keys, Parameters.own_parameter};
ghost use Rattle.dns_rdata_service.specs.{SvcParamValue.sized, SvcParamValue.value_key, SvcParamValue.value_of, Steps.parameters_from};
ghost use Rattle.dns_rdata_service.specs.ParameterOrder.{OrderFirst, parameter_octets_of};

use crate::field_order::svcb_cmp;
use crate::hints::hints_order;
use crate::https::HTTPS;
use crate::items::Items;
use crate::steps::{names_size, octets_size, svcb_is_emittable};
use crate::svcb::{Parameter, SVCB, SvcParamValue, each_value, with_octets};
use dns_canonical::order::slices_behind;
use dns_canonical::{name_behind, two_behind};
use dns_names_wire::SmallOctets;
use dns_rdata_base::OrderedRecord;
use std::cmp::Ordering;

impl OrderedRecord for HTTPS {
    #[inline]
    fn cmp_canonical_fields(&self, other: &HTTPS) -> Option<Ordering> {
        self.0.cmp_canonical_fields(&other.0)
    }

    fn cmp_values(&self, other: &HTTPS) -> Ordering {
        self.0.cmp_values(&other.0)
    }
}

impl OrderedRecord for SVCB {
    /// The order is known if the first parameters that differ decide it, or if none differ.
    #[inline]
    fn cmp_canonical_fields(&self, other: &SVCB) -> Option<Ordering> {
        let (order, alike) = svcb_front(self, other);
        if order.is_eq() {
            return if is_all(self, other, alike) {
                Some(order)
            } else {
                None
            };
        }
        if !svcb_is_emittable(self) || !svcb_is_emittable(other) {
            return None;
        }
        Some(order)
    }

    fn cmp_values(&self, other: &SVCB) -> Ordering {
        svcb_cmp(self, other)
    }
}

// Whether both have exactly this many parameters, and both targets are relative or neither is.
#[inline]
fn is_all(a: &SVCB, b: &SVCB, count: usize) -> bool
    ensures { IsTrue result → (count ≡ length a.now.svc_params) × (count ≡ length b.now.svc_params) × (a.now.target_name.fully_qualified ≡ b.now.target_name.fully_qualified) }
{
    count == a.svc_params.len()
        && count == b.svc_params.len()
        && a.target_name.is_fqdn() == b.target_name.is_fqdn()
}

/// Compares two service bindings by priority, target and the parameters before an index, and returns that index too.
/// The order is `Equal` if all before the index is the same; then the parameters from the index on decide.
#[tactic(auto, using(crate::proofs::SvcbFronts::parameters_behind, crate::proofs::SvcbFronts::ne_no, crate::proofs::SvcbFronts::all_alike, crate::proofs::SvcbFronts::none_behind, crate::proofs::SvcbFronts::ne_yes))]
pub fn svcb_front(a: &SVCB, b: &SVCB) -> (Ordering, usize)
    ensures order { canonical_cmp svcb_shape (svcb_fields a.now) (svcb_fields b.now) ≡ ordering_then result.0 (slice_cmp nat_cmp (parameters_from a.now.svc_params result.1) (parameters_from b.now.svc_params result.1)) }
    ensures first { result.1 ≤ length a.now.svc_params }
    ensures second { result.1 ≤ length b.now.svc_params }
    // If no parameters differ, the records are equal if both targets are relative or neither is.
    ensures equal { result.0 ≡ Equal → result.1 ≡ length a.now.svc_params → result.1 ≡ length b.now.svc_params → a.now.target_name.fully_qualified ≡ b.now.target_name.fully_qualified → values_eq svcb_key_shape (svcb_keys a.now) (svcb_keys b.now) ≡ true }
{
    let priority = two_behind(Ordering::Equal, a.svc_priority, b.svc_priority);
    let order = name_behind(priority, &a.target_name, &b.target_name);
    if order.is_ne() {
        return (order, 0);
    }
    parameters_front(a.svc_params.as_slice(), b.svc_params.as_slice())
}

// The order of two lists by the parameters before an index, and that index. The order is `Equal` if all before the
// index are the same; then the parameters from the index on decide.
fn parameters_front(a: &[Parameter], b: &[Parameter]) -> (Ordering, usize)
    ensures order { slice_cmp nat_cmp (parameters_from a.now 0) (parameters_from b.now 0) ≡ ordering_then result.0 (slice_cmp nat_cmp (parameters_from a.now result.1) (parameters_from b.now result.1)) }
    ensures first { result.1 ≤ length a.now }
    ensures second { result.1 ≤ length b.now }
    ensures alike { map own_parameter (drop result.1 a.now) ≡ map own_parameter (drop result.1 b.now) → map own_parameter a.now ≡ map own_parameter b.now }
{
    let shorter = a.len().min(b.len());
    for at in 0..shorter {
        let Some(order) = pair_order(&a[at], &b[at]) else {
            return (Ordering::Equal, at);
        };
        if order.is_ne() {
            return (order, at);
        }
    }
    (Ordering::Equal, shorter)
}

// The order of two parameters by key, length and value, if others follow. `Equal` only if both are the same.
#[inline]
fn pair_order(a: &Parameter, b: &Parameter) -> Option<Ordering>
    ensures order { IfSome result (λ o. OrderFirst o (parameter_octets_of a.now) (parameter_octets_of b.now)) }
    ensures alike { IfSome result (λ o. o ≡ Equal → own_parameter a.now ≡ own_parameter b.now) }
{
    if a.0 == b.0 {
        return value_order(&a.1, &b.1);
    }
    let keys = u16::from(a.0).cmp(&u16::from(b.0));
    if keys.is_ne() { Some(keys) } else { None }
}

// The order of two values after their lengths, if others follow. `Equal` only if both are the same.
#[inline]
#[tactic(auto, using(crate::proofs::SvcbFronts::equal_values, crate::proofs::SvcbFronts::equal_first))]
fn value_order(a: &SvcParamValue, b: &SvcParamValue) -> Option<Ordering>
    ensures order { IfSome result (λ o. OrderFirst o (sized (value_of a.now)) (sized (value_of b.now))) }
    ensures alike { IfSome result (λ o. o ≡ Equal → value_key a.now ≡ value_key b.now) }
{
    with_octets!(each_value, ((a, b), x, y => octets_order(x.0.as_slice(), y.0.as_slice()),
        (SvcParamValue::Alpn(x), SvcParamValue::Alpn(y)) => names_order(&x.0, &y.0),
        (SvcParamValue::Port(x), SvcParamValue::Port(y)) => Some(port_order(*x, *y)),
        (SvcParamValue::Ipv4Hint(x), SvcParamValue::Ipv4Hint(y)) => hints_order(&x.0, &y.0),
        (SvcParamValue::Ipv6Hint(x), SvcParamValue::Ipv6Hint(y)) => hints_order(&x.0, &y.0),
        _ => if a == b { Some(Ordering::Equal) } else { None },
    ))
}

// The order of two ports after their length.
#[inline]
#[tactic(auto, using(crate::proofs::SvcbFronts::port_first))]
fn port_order(a: u16, b: u16) -> Ordering
    ensures order { OrderFirst result (sized (Port a)) (sized (Port b)) }
    ensures alike { result ≡ Equal → a ≡ b }
{
    a.cmp(&b)
}

// The order of octets after their length.
#[inline]
#[tactic(auto, using(crate::proofs::SvcbFronts::octets_first, crate::proofs::SvcbFronts::octets_tie, crate::proofs::SvcbFronts::then_ties))]
fn octets_order(a: &[u8], b: &[u8]) -> Option<Ordering>
    ensures order { IfSome result (λ o. OrderFirst o (sized (Opaque a.now)) (sized (Opaque b.now))) }
    ensures alike { IfSome result (λ o. o ≡ Equal → a.now ≡ b.now) }
{
    let sizes = octets_size(a)?.cmp(&octets_size(b)?);
    Some(slices_behind(sizes, a, b))
}

// The order of protocol names after their length, if both lists are the same or their lengths differ. Otherwise `None`.
#[tactic(auto, using(crate::proofs::SvcbFronts::names_same, crate::proofs::SvcbFronts::names_alike, crate::proofs::SvcbFronts::names_differ))]
fn names_order(a: &Items<SmallOctets<16>>, b: &Items<SmallOctets<16>>) -> Option<Ordering>
    ensures order { IfSome result (λ o. OrderFirst o (sized (Names a.now)) (sized (Names b.now))) }
    ensures alike { IfSome result (λ o. o ≡ Equal → a.now ≡ b.now) }
{
    if *a == *b {
        return Some(Ordering::Equal);
    }
    let sizes = names_size(a.as_slice())?.cmp(&names_size(b.as_slice())?);
    if sizes.is_ne() { Some(sizes) } else { None }
}
