//! SVCB: how a service is reached (RFC 9460).

ghost use Rattle.std.specs.{List.Sorted.IsPermutation, List.Sorted.IsNonDecreasingBy, List.Sorted.IsStableByKey, Cmp.Lexicographic.pointwise};
ghost use Rattle.dns_rows.specs.declared.row.TheConstants as rows;
ghost use Rattle.dns_names_wire.specs.Terms.{moved};
ghost use Rattle.dns_check.specs.ByRow.{RowThere, RowRejected};
ghost use Rattle.std.specs.{Prelude.◌≡◌, Prelude.◌≤◌, Prelude.length, Prelude.length as length_of, Prelude.refl, Prelude.IfOk, Prelude.OnErr, Option.option_copied, Ordering.nat_cmp};
ghost use Rattle.dns_names_wire.specs.Facts.{same, same_equiv, same_partial};
ghost use Rattle.dns_rdata_service.specs.SVCB.{svcb_facts, svcb_key_shape, svcb_keys, number_of_parameter, value_at};
ghost use Rattle.dns_rdata_service.specs.{OwnKeys.parameter_eq, SvcParamKey.key_number};

mod alpn;
mod changing;
mod doh_path;
mod ech_config_list;
mod ip_hint;
mod key;
mod mandatory;
mod parameter_token;
mod parameters;
mod unknown;
mod value;

use crate::items::Items;
pub use alpn::Alpn;
use dns_check::lists::near_parameters;
use dns_check::{DecodesRow, row_end};
use dns_names_wire::{
    BinDecoder, BinEncodable, BinEncoder, DecodeError, EncodesFields, Name, ProtoError,
    RDataEncoding, Record, Restrict,
};
use dns_rows::{Part, row};
pub use doh_path::DohPath;
pub use ech_config_list::EchConfigList;
pub use ip_hint::IpHint;
pub use key::SvcParamKey;
pub use mandatory::Mandatory;
pub(crate) use parameter_token::parameter_of;
pub(crate) use parameters::is_above;
use std::alloc::AllocError;
use std::hash::{Hash, Hasher};
use std::{fmt, mem};
pub use unknown::Unknown;
pub use value::SvcParamValue;
use value::same_value;
pub(crate) use value::{each_value, with_octets};

// A key and its value.
pub(crate) type Parameter = (SvcParamKey, SvcParamValue);

/// How a service is reached (RFC 9460, section 2.2).
///
/// ```text
/// +--+--+--+--+  +-- .. --+  +--+--+--+--+  +--+--+--+--+  +-- ..
/// |SvcPriority|  |  Target|  |SvcParamKey|  | length    |  | SvcParamValue   .. and so on, to the end of RDLENGTH
/// +--+--+--+--+  +-- .. --+  +--+--+--+--+  +--+--+--+--+  +-- ..
/// ```
///
/// Priority, key and length have two octets each; the target is an uncompressed name; the keys strictly rise.
///
/// ```rust
/// fn port_of(service: &SVCB) -> Option<u16> {
///     match service.get(SvcParamKey::Port)? {
///         SvcParamValue::Port(port) => Some(*port),
///         _ => None,
///     }
/// }
/// ```
#[derive(Debug, Drop)]
pub struct SVCB {
    /// 0 for an alias of the target. Otherwise lower values are tried first.
    pub svc_priority: u16,
    /// The target name. The root means the record's owner name.
    pub target_name: Name,
    /// The parameters, in the order of the message.
    pub svc_params: Items<(SvcParamKey, SvcParamValue)>,
}

impl SVCB {
    /// Makes a record of these fields, with the parameters in this order. Allocates nothing.
    pub fn new(
        svc_priority: u16,
        target_name: Name,
        svc_params: Vec<(SvcParamKey, SvcParamValue)>,
    ) -> SVCB
        ensures priority { result.svc_priority ≡ svc_priority }
        ensures target { result.target_name ≡ target_name }
        ensures parameters { result.svc_params ≡ svc_params.items }
    {
        SVCB {
            svc_priority,
            target_name,
            svc_params: Items::from_vec(svc_params),
        }
    }

    /// Returns the value of the first parameter with this key, or `None`. Keys are compared by number alone.
    #[inline]
    pub fn get(&self, key: SvcParamKey) -> Option<&SvcParamValue>
        ensures { option_copied result ≡ value_at (key_number key) self.now.svc_params }
    {
        let number = key.number();
        for (other, value) in self.svc_params.as_slice() {
            if other.number() == number {
                return Some(value);
            }
        }
        None
    }

    /// Sorts the parameters by the numbers of their keys, as a message must have them (RFC 9460, section 2.2).
    /// Allocates nothing. If a number occurs twice, `emit` returns an error; up to 20 parameters then keep their order.
    pub fn sort_params(&mut self)
        ensures permutation { IsPermutation self.old.svc_params self.new.svc_params }
        ensures order { IsNonDecreasingBy number_of_parameter self.new.svc_params }
        ensures stable { length self.old.svc_params ≤ 20 →
            IsStableByKey number_of_parameter nat_cmp self.old.svc_params self.new.svc_params }
        ensures priority { self.new.svc_priority ≡ self.old.svc_priority }
        ensures target { self.new.target_name ≡ self.old.target_name }
    {
        let alloc = self.svc_params.allocator();
        let params = mem::replace(&mut self.svc_params, Items::new(alloc));
        let mut params = params.into_vec();
        parameters::sort_by_number(alloc, params.as_mut_slice());
        self.svc_params = Items::from_vec(params);
    }
}

impl Record for SVCB {
    ghost facts = { svcb_facts };

    #[inline]
    fn row() -> &'static [Part] {
        &row::SVCB
    }
}

impl DecodesRow for SVCB {
    ghost checked = { refl };

    /// Checks priority, target, and parameters while at least four octets of RDLENGTH are left, and then reads them. One to
    /// three octets that are left over are not read. Allocates once for the list, and for what the values hold.
    #[inline(always)]
    fn read_row(decoder: &mut BinDecoder<'_>, length: Restrict<u16>) -> Result<SVCB, DecodeError> {
        let found = match parameters_end(decoder, length) {
            Ok(found) => found,
            Err(e) => return Err(e),
        };
        let svc_priority = decoder.read_u16()?.unverified();
        let target_name = Name::read(decoder)?;
        let octets = decoder.read_slice(found.0 - decoder.index())?.unverified();
        let svc_params = parameters::parameters_in(decoder.allocator(), octets, found.1)?;
        Ok(SVCB {
            svc_priority,
            target_name,
            svc_params,
        })
    }
}

// Where the fields end, and for how many parameters memory is taken at once. RDATA that is damaged, or has octets left over after its
// parameters, is gone over by its row.
#[inline]
fn parameters_end(
    decoder: &BinDecoder<'_>,
    length: Restrict<u16>,
) -> Result<(usize, usize), DecodeError>
    ensures there { IfOk result (λ r. RowThere rows.SVCB length decoder.now (moved decoder.now r.0)) }
    ensures inside { IfOk result (λ r. (decoder.now.index ≤ r.0) × (r.0 ≤ length_of decoder.now.message)) }
    ensures rejected { OnErr result (RowRejected rows.SVCB length decoder.now) }
{
    match near_parameters(decoder, length) {
        Some(count) => Ok((decoder.index() + length.unverified() as usize, count)),
        None => match row_end(decoder, &row::SVCB, length) {
            Ok(end) => Ok((end, 0)),
            Err(e) => Err(e),
        },
    }
}

impl EncodesFields for SVCB {
    ghost use Rattle.dns_fields.specs.declared.RDataEncoding.TheVariants as modes;

    /// The target name is written uncompressed, its case preserved.
    const MODE: RDataEncoding = RDataEncoding::Other;

    ghost MODE = { modes.Other };

    /// Appends priority, target and parameters in their order.
    ///
    /// # Errors
    ///
    /// - [`Message`](ProtoError::Message): keys do not strictly rise; there are no mandatory keys, or no protocols; or
    ///   a protocol has more than 255 octets.
    /// - [`MaxBufferSizeExceeded`](ProtoError::MaxBufferSizeExceeded): the octets pass the encoder's limit, as those of
    ///   a value of more than 65535 octets always do.
    /// - [`Memory`](ProtoError::Memory): an allocation failed.
    #[tactic(auto, using(dns_names_wire::proofs::FieldWrites::writing))]
    fn emit_fields(&self, encoder: &mut BinEncoder<'_>) -> Result<(), ProtoError> {
        encoder.emit_u16(self.svc_priority)?;
        self.target_name.emit(encoder)?;
        parameters::emit_parameters(encoder, self.svc_params.as_slice())?;
        Ok(())
    }
}

// Whether the parameters are equal, one by one.
#[inline]
fn same_parameters(a: &[Parameter], b: &[Parameter]) -> bool
    ensures { result ≡ pointwise parameter_eq a.now b.now }
{
    if a.len() != b.len() {
        return false;
    }
    let mut at = 0usize;
    'parameters: while at < a.len() {
        let ((key, value), (other_key, other_value)) = (&a[at], &b[at]);
        if *key != *other_key || !same_value(value, other_value) {
            return false;
        }
        at += 1;
    }
    true
}

impl PartialEq for SVCB {
    ghost eq = { same svcb_key_shape svcb_keys };

    ghost laws = { same_partial svcb_key_shape svcb_keys };

    #[inline(never)]
    #[tactic(auto, using(crate::specs::OwnKeys::parameters_same))]
    fn eq(&self, other: &SVCB) -> bool {
        self.svc_priority == other.svc_priority
            && self.target_name == other.target_name
            && same_parameters(self.svc_params.as_slice(), other.svc_params.as_slice())
    }
}

impl Eq for SVCB {
    ghost laws = { same_equiv svcb_key_shape svcb_keys };
}

impl Hash for SVCB {
    ghost use Rattle.dns_rdata_service.specs.Hashing.{svcb_fed, svcb_fed_same};

    ghost hash_input = { svcb_fed };

    ghost respects_eq = { svcb_fed_same };

    fn hash<H: Hasher>(&self, state: &mut H) {
        self.svc_priority.hash(state);
        self.target_name.hash(state);
        self.svc_params.hash(state);
    }
}

impl Clone for SVCB {
    ghost is_clone = { λ a b. b ≡ a };

    /// Copies the record.
    #[inline(always)]
    fn clone(&self) -> Result<SVCB, AllocError>
        ensures { IfOk result (λ copy. copy ≡ self.now) }
    {
        Ok(SVCB {
            svc_priority: self.svc_priority,
            target_name: self.target_name.clone()?,
            svc_params: self.svc_params.clone()?,
        })
    }
}

impl fmt::Display for SVCB {
    ghost use Rattle.std.specs.Prelude.{Some};
    ghost use Rattle.dns_rdata_service.specs.SVCB.{svcb_text};

    ghost output = { λ x. Some (svcb_text x) };

    /// Writes priority, a space and the target, and for each parameter a space, the key, an equals sign and the value:
    /// `1 . alpn=h2, port=443`.
    fn fmt<W: fmt::Write>(&self, f: &mut fmt::Formatter<W>) -> fmt::Result {
        write!(f, "{} {}", self.svc_priority, self.target_name)?;
        for (key, value) in self.svc_params.as_slice() {
            write!(f, " {key}={value}")?;
        }
        Ok(())
    }
}
