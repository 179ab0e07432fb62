//! The canonical octets of service bindings, step by step.

ghost use Rattle.std.specs.Prelude.{◌≡◌, ◌+◌, ◌<◌, ◌≤◌, ◌^◌, ◌++◌, [], true, IfSome, length, map, nat_le};
ghost use Rattle.std.specs.{List.list_all, Int.bytes_high_first};
ghost use Rattle.dns_fields.specs.Tlvs.{string, parameter_emittable, parameters_emittable, rising, Mandatory as MandatoryKeys, Alpn as Names, Opaque};
ghost use Rattle.dns_rdata_service.specs.{Parameters.parameter_of, SvcParamKey.key_number, SvcParamValue.value_of, Steps.IsSizeOf};
ghost use Rattle.dns_rdata_service.specs.Steps.{value_front, value_items, svcb_left, AreEmittable, each_fits, GivesItem, GivesParameter};
ghost use Rattle.dns_canonical.specs.Steps.{GivesStep};

use crate::hints::{Address, hints_size};
use crate::https::HTTPS;
use crate::svcb::{Parameter, SVCB, SvcParamKey, SvcParamValue, each_value, is_above, with_octets};
use dns_canonical::{Head, Step, Tail};
use dns_names_wire::SmallOctets;

// How many octets the keys have. `None` if there are no keys, or more than 65535 octets.
#[tactic(auto, using(crate::proofs::ParameterSteps::keys_then, crate::proofs::ParameterSteps::keys_size))]
fn keys_size(keys: &[SvcParamKey]) -> Option<u16>
    ensures { IsSizeOf (MandatoryKeys (map key_number keys.now)) result }
{
    if keys.len() == 0 || keys.len() > 32767 {
        return None;
    }
    Some((2 * keys.len()) as u16)
}

/// Returns how many octets the names have with their lengths, if that is at most 65535, there are any, and each has at
/// most 255 octets.
pub(crate) fn names_size(names: &[SmallOctets<16>]) -> Option<u16>
    ensures { IsSizeOf (Names names.now) result }
{
    let mut size = 0;
    for name in names {
        let len = name.len();
        if len > 255 {
            return None;
        }
        size += 1 + len;
        if size > 65535 {
            return None;
        }
    }
    if size == 0 { None } else { Some(size as u16) }
}

/// Returns how many octets there are, if at most 65535.
#[inline]
pub(crate) fn octets_size(octets: &[u8]) -> Option<u16>
    ensures { IsSizeOf (Opaque octets.now) result }
{
    u16::try_from(octets.len()).ok()
}

// How many octets a value has, if it can be emitted.
fn value_size(value: &SvcParamValue) -> Option<u16>
    ensures { IsSizeOf (value_of value.now) result }
{
    with_octets!(each_value, (value, octets => octets_size(octets.0.as_slice()),
        SvcParamValue::Mandatory(keys) => keys_size(keys.0.as_slice()),
        SvcParamValue::Alpn(names) => names_size(names.0.as_slice()),
        SvcParamValue::NoDefaultAlpn => Some(0),
        SvcParamValue::Port(_) => Some(2),
        SvcParamValue::Ipv4Hint(addresses) => hints_size(addresses.0.as_slice()),
        SvcParamValue::Ipv6Hint(addresses) => hints_size(addresses.0.as_slice()),
    ))
}

// The key with this index.
#[tactic(auto, using(crate::proofs::ParameterSteps::key_gives), unfolding(dns_fields::specs::Fields::field_octets))]
fn key_item<'a>(keys: &'a [SvcParamKey], item: usize, head: &mut Head) -> Option<Tail<'a>>
    requires empty { head.old ≡ [] }
    ensures item { GivesItem (map (bytes_high_first 2) (map key_number keys.now)) item head.new result }
    ensures room { IfSome result (λ _. item + 2 < 2 ^ 64) }
{
    if item >= keys.len() {
        return None;
    }
    head.two(u16::from(keys[item]));
    Some(Tail::none())
}

// The name with this index.
#[tactic(auto, using(crate::proofs::ParameterSteps::item_gives), unfolding(dns_fields::specs::Fields::field_octets))]
fn name_item<'a>(names: &'a [SmallOctets<16>], item: usize, head: &mut Head) -> Option<Tail<'a>>
    requires empty { head.old ≡ [] }
    requires short { list_all (λ s. nat_le (length s) 255) names.now ≡ true }
    ensures item { GivesItem (map string names.now) item head.new result }
    ensures room { IfSome result (λ _. item + 2 < 2 ^ 64) }
{
    if item < names.len() {
        Some(head.text(names[item].as_slice()))
    } else {
        None
    }
}

// The address with this index.
#[tactic(auto, using(crate::proofs::ParameterSteps::item_gives))]
fn hint_item<'a, const N: usize, T: Address<N>>(
    addresses: &'a [T],
    item: usize,
    head: &mut Head,
) -> Option<Tail<'a>>
    requires empty { head.old ≡ [] }
    requires some { (0 < N) × (N ≤ 16) }
    ensures item { GivesItem (map T.octets addresses.now) item head.new result }
    ensures room { IfSome result (λ _. item < length addresses.now) }
{
    if item >= addresses.len() {
        return None;
    }
    head.octets(&addresses[item].to_octets());
    Some(Tail::none())
}

// The item of a value with this index.
fn put_item<'a>(value: &'a SvcParamValue, item: usize, head: &mut Head) -> Option<Tail<'a>>
    requires empty { head.old ≡ [] }
    requires emittable { parameter_emittable (value_of value.now) ≡ true }
    ensures item { GivesItem (value_items (value_of value.now)) item head.new result }
    ensures room { IfSome result (λ _. item + 2 < 2 ^ 64) }
{
    match value {
        SvcParamValue::Mandatory(keys) => return key_item(keys.0.as_slice(), item, head),
        SvcParamValue::Alpn(names) => return name_item(names.0.as_slice(), item, head),
        SvcParamValue::Ipv4Hint(addresses) => return hint_item(addresses.0.as_slice(), item, head),
        SvcParamValue::Ipv6Hint(addresses) => return hint_item(addresses.0.as_slice(), item, head),
        _ => return None,
    }
}

// Adds the value to the head if it is a number, or returns it as a tail if it is one run of octets.
#[tactic(auto, unfolding(dns_fields::specs::Fields::field_octets))]
fn put_front<'a>(value: &'a SvcParamValue, head: &mut Head) -> Tail<'a>
    requires { length head.old ≤ 4 }
    ensures { head.new ++ result ≡ head.old ++ value_front (value_of value.now) }
{
    with_octets!(each_value, (value, octets => return Tail::rest(octets.0.as_slice()),
        SvcParamValue::Port(port) => {
            head.two(*port);
            return Tail::none();
        }
        _ => return Tail::none(),
    ))
}

// The head of the parameter with this index: its key, the length of its value, and the value if it is one run of
// octets.
#[tactic(auto, using(crate::proofs::ParameterSteps::fits_at, crate::proofs::ParameterSteps::head_given), unfolding(dns_fields::specs::Fields::field_octets))]
fn head_step<'a>(parameters: &'a [Parameter], part: usize, head: &mut Head) -> Option<Step<'a>>
    requires empty { head.old ≡ [] }
    requires emittable { AreEmittable parameters.now }
    ensures { GivesParameter parameters.now part 0 head.new result }
{
    if part >= parameters.len() {
        return None;
    }
    let (key, value) = &parameters[part];
    let size = value_size(value)?;
    head.two(u16::from(*key));
    head.two(size);
    Some(Step {
        tail: put_front(value, head),
        step: 1,
        part,
        item: 1,
    })
}

// The next step of the parameters: the head of the one with this index, an item of it, or after its last item the head
// of the next one.
#[tactic(auto, using(crate::proofs::ParameterSteps::emittable_at, crate::proofs::ParameterSteps::past_items))]
fn parameter_step<'a>(
    parameters: &'a [Parameter],
    part: usize,
    item: usize,
    head: &mut Head,
) -> Option<Step<'a>>
    requires empty { head.old ≡ [] }
    requires emittable { AreEmittable parameters.now }
    ensures { GivesParameter parameters.now part item head.new result }
{
    if item == 0 {
        return head_step(parameters, part, head);
    }
    if part >= parameters.len() {
        return None;
    }
    match put_item(&parameters[part].1, item - 1, head) {
        Some(tail) => Some(Step {
            tail,
            step: 1,
            part,
            item: item + 1,
        }),
        None => head_step(parameters, part + 1, head),
    }
}

/// Priority and target, and then each parameter: its key, its length and the part of its value that is one run of
/// octets, and then the items of its value.
pub fn svcb_step<'a>(
    x: &'a SVCB,
    step: usize,
    part: usize,
    item: usize,
    head: &mut Head,
) -> Option<Step<'a>>
    requires empty { head.old ≡ [] }
    requires emittable { AreEmittable x.now.svc_params }
    ensures { GivesStep (svcb_left x.now) step part item head.new result }
{
    match step {
        0 => {
            head.two(x.svc_priority);
            Some(Step::to(Tail::name(&x.target_name), 1))
        }
        1 => parameter_step(x.svc_params.as_slice(), part, item, head),
        _ => None,
    }
}

/// As for SVCB.
#[inline]
pub fn https_step<'a>(
    x: &'a HTTPS,
    step: usize,
    part: usize,
    item: usize,
    head: &mut Head,
) -> Option<Step<'a>>
    requires empty { head.old ≡ [] }
    requires emittable { AreEmittable x.now.0.svc_params }
    ensures { GivesStep (svcb_left x.now.0) step part item head.new result }
{
    svcb_step(&x.0, step, part, item, head)
}

// Whether each value can be emitted.
fn values_fit(parameters: &[Parameter]) -> bool
    ensures { result ≡ each_fits parameters.now }
{
    for (_, value) in parameters {
        if value_size(value).is_none() {
            return false;
        }
    }
    true
}

// Whether the numbers of the keys rise.
#[tactic(auto, using(dns_check::proofs::ParameterLists::goes_on, dns_check::proofs::ParameterLists::ends_there))]
fn keys_rise(parameters: &[Parameter]) -> bool
    ensures { result ≡ rising (map parameter_of parameters.now) }
{
    let mut last = None;
    for (key, _) in parameters {
        let number = u16::from(*key);
        if !is_above(last, number) {
            return false;
        }
        last = Some(number);
    }
    true
}

/// Returns whether the keys strictly rise and each value can be emitted: lists of keys and of protocols are not empty,
/// no protocol has more than 255 octets, and no value more than 65535.
pub fn svcb_is_emittable(x: &SVCB) -> bool
    ensures { result ≡ parameters_emittable (map parameter_of x.now.svc_params) }
{
    let parameters = x.svc_params.as_slice();
    values_fit(parameters) && keys_rise(parameters)
}
