//! The order of service bindings by their fields.

ghost use Rattle.std.specs.{Cmp.Lexicographic.slice_cmp, Prelude.◌≡◌, Prelude.map, Ordering.nat_cmp};
ghost use Rattle.dns_fields.specs.{Equal.key_cmp, Equal.parameter_keys, Order.values_cmp};
ghost use Rattle.dns_rdata_service.specs.{ParameterOrder.parameter_order, SvcParamValue.value_rank, SvcParamValue.Differ, SVCB.svcb_key_shape, SVCB.svcb_keys};
ghost use Rattle.dns_rdata_service.specs.{SvcParamValue.key_numbers, SvcParamValue.value_key, Parameters.own_parameter};

use crate::hints::hints_cmp;
use crate::svcb::{Parameter, SVCB, SvcParamKey, SvcParamValue, each_value, with_octets};
use std::cmp::Ordering;

// The order of two lists of keys: key by key, each by number and then by variant.
#[tactic(auto, using(crate::proofs::SvcbFronts::keys_order))]
fn keys_cmp(a: &[SvcParamKey], b: &[SvcParamKey]) -> Ordering
    ensures { result ≡ slice_cmp (slice_cmp nat_cmp) (map key_numbers a.now) (map key_numbers b.now) }
{
    a.cmp(b)
}

// The order of two values of different variants: by rank.
#[inline]
#[tactic(auto, using(crate::proofs::SvcbFronts::differ_order))]
fn places_cmp(a: &SvcParamValue, b: &SvcParamValue) -> Ordering
    requires { Differ a.now b.now }
    ensures { result ≡ slice_cmp (slice_cmp nat_cmp) (value_key a.now) (value_key b.now) }
{
    a.rank().cmp(&b.rank())
}

// The order of two values: by variant, and then by what both hold.
fn value_cmp(a: &SvcParamValue, b: &SvcParamValue) -> Ordering
    ensures { result ≡ slice_cmp (slice_cmp nat_cmp) (value_key a.now) (value_key b.now) }
{
    with_octets!(each_value, ((a, b), x, y => x.0.cmp(&y.0),
        (SvcParamValue::Mandatory(x), SvcParamValue::Mandatory(y)) => keys_cmp(&x.0, &y.0),
        (SvcParamValue::Alpn(x), SvcParamValue::Alpn(y)) => x.0.as_slice().cmp(y.0.as_slice()),
        (SvcParamValue::Port(m), SvcParamValue::Port(n)) => m.cmp(n),
        (SvcParamValue::Ipv4Hint(x), SvcParamValue::Ipv4Hint(y)) => hints_cmp(&x.0, &y.0),
        (SvcParamValue::Ipv6Hint(x), SvcParamValue::Ipv6Hint(y)) => hints_cmp(&x.0, &y.0),
        _ => places_cmp(a, b),
    ))
}

// The order of two parameters: by key, and then by value.
fn parameter_cmp(a: &Parameter, b: &Parameter) -> Ordering
    ensures { result ≡ parameter_order a.now b.now }
{
    a.0.cmp(&b.0).then(value_cmp(&a.1, &b.1))
}

// The order of two lists of parameters: parameter by parameter. If one list is the beginning of the other, it comes
// first.
fn parameters_cmp(a: &[Parameter], b: &[Parameter]) -> Ordering
    ensures { result ≡ slice_cmp key_cmp (parameter_keys (map own_parameter a.now)) (parameter_keys (map own_parameter b.now)) }
{
    let shorter = a.len().min(b.len());
    for i in 0..shorter {
        let order = parameter_cmp(&a[i], &b[i]);
        if order.is_ne() {
            return order;
        }
    }
    a.len().cmp(&b.len())
}

/// By priority, target and parameters: each by its key's number and variant, its value's variant, and its data.
#[tactic(auto, using(dns_canonical::proofs::Comparing::then_equal))]
pub fn svcb_cmp(a: &SVCB, b: &SVCB) -> Ordering
    ensures { result ≡ values_cmp svcb_key_shape (svcb_keys a.now) (svcb_keys b.now) }
{
    let parameters = parameters_cmp(a.svc_params.as_slice(), b.svc_params.as_slice());
    let target = a.target_name.cmp(&b.target_name).then(parameters);
    a.svc_priority.cmp(&b.svc_priority).then(target)
}
