//! Parameters compared by their canonical octets.

ghost use Rattle.std.specs.Prelude.{◌≡◌, ◌+◌, ◌-◌, ◌≤◌, ℕ, List, ◌++◌, length, drop};
ghost use Rattle.std.specs.{Cmp.Lexicographic.slice_cmp, Ordering.nat_cmp, Int.bytes_high_first};
ghost use Rattle.dns_fields.specs.Fields.{Value, Field, field_octets};
ghost use Rattle.dns_fields.specs.declared.Kind.TheVariants.{Parameters};
ghost use Rattle.dns_fields.specs.Tlvs.{ParameterValue, ParameterHeld, IsTlv, tlv, parameter_octets};

use crate::parameters::put::has_surplus;
use dns_canonical::order::octets_cmp;
use dns_check::tlvs::end_of;
use std::cmp::Ordering;

// Key and length of a parameter as its canonical octets have them.
#[inline]
fn head_of(part: &[u8]) -> [u8; 4]
    requires { 4 ≤ length part.now }
    ensures { (key : ℕ) (body : List ℕ) (v : ParameterValue) → part.now ≡ tlv (key, body) → IsTlv (key, body) →
        ParameterHeld key body v → result ≡ bytes_high_first 2 key ++ bytes_high_first 2 (length (parameter_octets v)) }
{
    if has_surplus(part) {
        return [0, 3, 0, 2];
    }
    [part[0], part[1], part[2], part[3]]
}

// A parameter's value as its canonical octets have it.
#[inline]
fn body_of(part: &[u8]) -> &[u8]
    requires { 4 ≤ length part.now }
    ensures { (key : ℕ) (body : List ℕ) (v : ParameterValue) → part.now ≡ tlv (key, body) → IsTlv (key, body) →
        ParameterHeld key body v → result.now ≡ parameter_octets v }
{
    if has_surplus(part) {
        return &part[4..6];
    }
    &part[4..]
}

/// Orders two lists of parameters by their canonical octets, given by their octets in messages.
pub fn compare_parameters(a: &[u8], b: &[u8]) -> Ordering
    ensures { (u : Value Parameters) (v : Value Parameters) → Field a.now 0 Parameters u (length a.now) →
        Field b.now 0 Parameters v (length b.now) → result ≡ slice_cmp nat_cmp (field_octets Parameters u) (field_octets Parameters v) }
{
    let mut i = 0;
    let mut j = 0;
    'tlvs: while let Some(p) = end_of(a, i) {
        let q = match end_of(b, j) {
            Some(q) => q,
            None => return Ordering::Greater,
        };
        let first = &a[i..p];
        let second = &b[j..q];
        match octets_cmp(&head_of(first), &head_of(second)) {
            Ordering::Equal => {}
            order => return order,
        }
        match octets_cmp(body_of(first), body_of(second)) {
            Ordering::Equal => {}
            other => return other,
        }
        i = p;
        j = q;
    }
    match end_of(b, j) {
        Some(_) => Ordering::Less,
        None => Ordering::Equal,
    }
}
