//! Service parameters that are inserted into a record, or removed from it, one by one.

ghost use Rattle.std.specs.Prelude.{◌≡◌, ◌≢◌, ◌⊎◌, ◌≤◌, ◌+◌, ◌++◌, ◌∷◌, ℕ, List, drop, length, take, Some, None, IfErr, IfOk, IsTrue, OnErr, OnOk, if◌then◌else◌};
ghost use Rattle.dns_rdata_service.specs.{Parameters.Parameter, SVCB.number_of_parameter, SVCB.value_at, SvcParamKey.key_number};
ghost use Rattle.dns_rdata_service.specs.{SvcParamValue.own_key, Changing.inserted, Changing.removed, Changing.RisesIn};

use crate::items::Items;
use crate::svcb::key::SvcParamKey;
use crate::svcb::value::SvcParamValue;
use crate::svcb::{Parameter, SVCB};
use dns_names_wire::ProtoError;
use std::alloc::AllocError;
use std::mem;

impl SVCB {
    /// Inserts a value under its own key, before the first parameter whose key has a greater number (RFC 9460, section
    /// 2.2), and replaces an earlier value of that key. Keys that were in order stay in order. May allocate.
    ///
    /// # Errors
    ///
    /// The record is unchanged then.
    ///
    /// - [`Message`](ProtoError::Message): the value is [`Unknown`](SvcParamValue::Unknown) octets, which have no key
    ///   of their own: see [`insert_as`](SVCB::insert_as).
    /// - [`Memory`](ProtoError::Memory): an allocation failed.
    pub fn insert(&mut self, value: SvcParamValue) -> Result<(), ProtoError>
        ensures inserted { (k : SvcParamKey) → own_key value ≡ Some k → OnOk result (self.new.svc_params ≡ inserted (k, value) self.old.svc_params) }
        ensures keyed { OnOk result (own_key value ≢ None) }
        ensures refused { IfErr result (λ e. (e ≡ ProtoError.Memory) ⊎ (own_key value ≡ None)) }
        ensures unchanged { OnErr result (self.new.svc_params ≡ self.old.svc_params) }
        ensures priority { self.new.svc_priority ≡ self.old.svc_priority }
        ensures target { self.new.target_name ≡ self.old.target_name }
    {
        match value.key() {
            Some(key) => {
                self.insert_as(key, value)?;
                Ok(())
            }
            None => Err(ProtoError::Message("octets without a key of their own")),
        }
    }

    /// Inserts a value under this key, before the first parameter whose key has a greater number, and replaces an
    /// earlier value of a key with the same number. Keys that were in order stay in order. Fails only if an allocation
    /// fails; the record is unchanged then.
    #[tactic(auto, using(crate::proofs::Changes::inserted_finds, crate::proofs::Changes::inserted_others, crate::proofs::Changes::inserted_rises))]
    pub fn insert_as(&mut self, key: SvcParamKey, value: SvcParamValue) -> Result<(), AllocError>
        ensures inserted { OnOk result (self.new.svc_params ≡ inserted (key, value) self.old.svc_params) }
        // The key has the value, and every other key has its earlier one.
        ensures found { OnOk result (value_at (key_number key) self.new.svc_params ≡ Some value) }
        ensures others { OnOk result ((n : ℕ) → n ≢ key_number key → value_at n self.new.svc_params ≡ value_at n self.old.svc_params) }
        ensures rises { OnOk result (RisesIn self.old.svc_params → RisesIn self.new.svc_params) }
        ensures unchanged { OnErr result (self.new.svc_params ≡ self.old.svc_params) }
        ensures priority { self.new.svc_priority ≡ self.old.svc_priority }
        ensures target { self.new.target_name ≡ self.old.target_name }
    {
        let (at, replaces) = index_for(self.svc_params.as_slice(), key.number());
        let alloc = self.svc_params.allocator();
        let params = mem::replace(&mut self.svc_params, Items::new(alloc));
        let mut params = params.into_vec();
        let outcome = put_at(&mut params, at, replaces, (key, value));
        self.svc_params = Items::from_vec(params);
        outcome
    }

    /// Removes every parameter whose key has this key's number. The others keep their order. Allocates nothing.
    pub fn remove(&mut self, key: SvcParamKey)
        ensures removed { self.new.svc_params ≡ removed (key_number key) self.old.svc_params }
        ensures priority { self.new.svc_priority ≡ self.old.svc_priority }
        ensures target { self.new.target_name ≡ self.old.target_name }
    {
        let number = key.number();
        let alloc = self.svc_params.allocator();
        let params = mem::replace(&mut self.svc_params, Items::new(alloc));
        let mut params = params.into_vec();
        params.retain(|parameter| parameter.0.number() != number);
        self.svc_params = Items::from_vec(params);
    }
}

// The index at which a parameter with this key number is inserted, and whether it replaces the one that is there.
#[tactic(auto, using(crate::proofs::Changes::inserted_last, crate::proofs::Changes::inserted_before, crate::proofs::Changes::inserted_there))]
fn index_for(params: &[Parameter], number: u16) -> (usize, bool)
    ensures within { result.0 ≤ length params.now }
    ensures taken { IsTrue result.1 → result.0 + 1 ≤ length params.now }
    ensures there { (p : Parameter) → number_of_parameter p ≡ number
        → inserted p params.now ≡ take result.0 params.now ++ p ∷ drop (if result.1 then result.0 + 1 else result.0) params.now }
{
    let mut at = 0usize;
    'params: while at < params.len() {
        let other = params[at].0.number();
        if number <= other {
            return (at, number == other);
        }
        at += 1;
    }
    (at, false)
}

// Puts a parameter at an index: it replaces the one that is there, or goes before it.
fn put_at(
    params: &mut Vec<Parameter>,
    at: usize,
    replaces: bool,
    parameter: Parameter,
) -> Result<(), AllocError>
    requires within { at ≤ length params.old.items }
    requires taken { IsTrue replaces → at + 1 ≤ length params.old.items }
    ensures ok { OnOk result (params.new.items ≡ take at params.old.items ++ parameter ∷ drop (if replaces then at + 1 else at) params.old.items) }
    ensures err { OnErr result (params.new.items ≡ params.old.items) }
{
    if replaces {
        params[at] = parameter;
        return Ok(());
    }
    params.insert(at, parameter)?;
    Ok(())
}
