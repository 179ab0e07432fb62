//! OPT: the options of EDNS (RFC 6891).

ghost use Rattle.std.specs.Prelude.{◌≡◌, ◌↔◌, ◌+◌, ◌^◌, ◌<◌, ◌++◌, ◌∷◌, [], length, map, slice_get, IfOk, IsTrue, OnOk, OnErr, List, count_by, refl};
ghost use Rattle.std.specs.{Cmp.partial_equiv_from_equiv, Cmp.partial_order_from_agreeing_total, Iterator.Adapters.IterYieldsInOrder, Ordering.as_partial_cmp};
ghost use Rattle.std.specs.{List.Sorted.IsPermutation, Option.option_copied, Slice.Iter.iter_rest};
ghost use Rattle.dns_fields.specs.Tlvs.{tlv, as_tlv, option_octets, OptionFits};
ghost use Rattle.dns_names_wire.specs.Terms.{Emits, EmitsFitting};
ghost use Rattle.dns_rdata_options.specs.{OPT.opt_shape, OPT.opt_fields, OPT.opt_facts, OPT.pair_value, OPT.options_of, OPT.without, EdnsCode.edns_code_number};
ghost use Rattle.dns_rdata_options.specs.{OrderLaws.opt_equiv, OrderLaws.opt_total, OrderLaws.opt_ties, Order.pair_eq, Order.opt_cmp, EdnsOption.code_of};
ghost use Rattle.dns_rdata_options.specs.{declared.opt.code.EdnsCode.EdnsCode as Code, declared.opt.option.EdnsOption.EdnsOption as Content, OPT.Pair, Order.opt_eq};

mod code;
mod net;
mod net_text;
mod option;
pub(crate) mod order;
mod payload;
mod reading;
mod subnet;
mod text;
pub(crate) mod walks;

pub use code::EdnsCode;
use dns_check::DecodesRow;
use dns_check::lists::take_options;
use dns_names_wire::{
    BinDecoder, BinEncodable, BinEncoder, DecodeError, ProtoError, Record, Restrict,
};
use dns_rows::{Part, row};
pub use net::IpNet;
pub use option::EdnsOption;
use order::{hash_sorted, sorted_cmp};
pub use payload::NSIDPayload;
use std::alloc::{AllocError, Global};
use std::cmp::Ordering;
use std::hash::{Hash, Hasher};
use std::marker::Model;
use std::slice;
pub use subnet::ClientSubnet;

/// The options of EDNS with their codes (RFC 6891, section 6.1.2). Contracts see the record as the list of these pairs.
///
/// ```text
/// +--+--+--+--+  +--+--+--+--+  +-- ..
/// |OPTION-CODE|  |OPTION-LEN |  | OPTION-DATA     .. and so on, to the end of RDLENGTH
/// +--+--+--+--+  +--+--+--+--+  +-- ..
/// ```
///
/// Code and length have two octets each. Two records are equal if each pair occurs equally often in both, in any order.
///
/// ```rust
/// fn server_of(options: &OPT) -> Option<&[u8]> {
///     match options.get(EdnsCode::NSID) {
///         Some(EdnsOption::NSID(payload)) => Some(payload.as_ref()),
///         _ => None,
///     }
/// }
/// ```
#[derive(Debug, Drop)]
pub struct OPT {
    /// The options in order. A code may occur more than once.
    pub options: Vec<(EdnsCode, EdnsOption)>,
}

impl Model for OPT {
    ghost Value = { List (Code × Content) };

    ghost view = { λ o. o.options.items };
}

impl OPT {
    ghost use Rattle.std.specs.Borrow.{sem};
    ghost use Rattle.dns_rdata_options.specs.Lent.{LendsOptions};

    /// Makes a record of these options. Allocates nothing.
    #[inline]
    pub fn new(options: Vec<(EdnsCode, EdnsOption)>) -> OPT
        ensures { result ≡ options.items }
    {
        OPT { options }
    }

    /// Makes a record without options. Allocates nothing.
    #[inline]
    pub fn default(alloc: Global) -> OPT
        ensures { result ≡ [] }
    {
        OPT {
            options: Vec::new(alloc),
        }
    }

    /// Returns the first option with this code, or `None`. Allocates nothing.
    pub fn get(&self, code: EdnsCode) -> Option<&EdnsOption>
        ensures { option_copied result ≡ slice_get (options_of code self.now) 0 }
    {
        for pair in self.options.as_slice() {
            if code == pair.0 {
                return Some(&pair.1);
            }
        }
        None
    }

    /// Returns all options with this code, in order. Fails only if an allocation fails.
    pub fn get_all(&self, code: EdnsCode) -> Result<Vec<&EdnsOption>, AllocError>
        ensures { IfOk result (λ found. map (λ option. option.now) found.items ≡ options_of code self.now) }
    {
        let mut found = Vec::new(*self.options.allocator());
        for pair in self.options.as_slice() {
            if code == pair.0 {
                found.push(&pair.1)?;
            }
        }
        Ok(found)
    }

    /// Appends an option under its own code. Fails only if an allocation fails; the options are unchanged then.
    pub fn insert(&mut self, option: EdnsOption) -> Result<(), AllocError>
        ensures ok { OnOk result (self.new ≡ self.old ++ (code_of option, option) ∷ []) }
        ensures err { OnErr result (self.new ≡ self.old) }
    {
        let code = EdnsCode::from(&option);
        self.options.push((code, option))?;
        Ok(())
    }

    /// Iterates over the codes and options, in order. Allocates nothing.
    #[inline]
    pub fn iter(&self) -> slice::Iter<'_, (EdnsCode, EdnsOption)>
        ensures items { iter_rest result ≡ self.now }
        ensures few { length (iter_rest result) < 2 ^ 64 }
        ensures order { IterYieldsInOrder (Code × Content) }
    {
        self.options.as_slice().iter()
    }

    /// Returns whether there is an option with this code. Allocates nothing.
    pub fn contains(&self, code: EdnsCode) -> bool
        ensures { IsTrue result ↔ (0 < length (options_of code self.now)) }
    {
        self.get(code).is_some()
    }

    /// Appends an option under its own code and removes every earlier option with that code. Fails only if an
    /// allocation fails; the options are unchanged then.
    pub fn replace(&mut self, option: EdnsOption) -> Result<(), AllocError>
        ensures ok { OnOk result (self.new ≡ without (code_of option) self.old ++ (code_of option, option) ∷ []) }
        ensures err { OnErr result (self.new ≡ self.old) }
    {
        let code = EdnsCode::from(&option);
        self.options.reserve(1)?;
        self.options.retain(|pair| code != pair.0);
        // Unreachable: the room is reserved.
        self.options.push((code, option))?;
        Ok(())
    }

    /// Removes all options with this code. The others keep their order. Allocates nothing.
    pub fn remove(&mut self, code: EdnsCode)
        ensures { self.new ≡ without code self.old }
    {
        self.options.retain(|pair| code != pair.0);
    }

    /// The codes and options as a slice.
    #[inline]
    pub fn as_ref(&self) -> &[(EdnsCode, EdnsOption)]
        ensures { result.now ≡ self.now }
    {
        self.options.as_slice()
    }

    /// The list of codes and options, to be changed in place.
    #[inline]
    pub fn as_mut(&mut self) -> &mut Vec<(EdnsCode, EdnsOption)>
        ensures* writes_back { sem 𝓛 (LendsOptions self.entry result) }
        ensures value { result.now.items ≡ self.old }
    {
        &mut self.options
    }
}

impl Record for OPT {
    ghost facts = { record opt_facts { order = opt_cmp } };

    #[inline]
    fn row() -> &'static [Part] {
        &row::OPT
    }
}

impl DecodesRow for OPT {
    ghost checked = { refl };

    /// Checks the options up to RDLENGTH, and then keeps them in order. If RDLENGTH ends right after a code, or within the octets
    /// of an option whose length is at most RDLENGTH, the record is truncated: the result has no options, and nothing is
    /// allocated. Otherwise this allocates once for the list, and once for each option that is not a client subnet.
    #[inline(always)]
    fn read_row(decoder: &mut BinDecoder<'_>, length: Restrict<u16>) -> Result<OPT, DecodeError> {
        match take_options(decoder, length) {
            Some((octets, count)) => Ok(reading::whole_options(
                decoder.allocator(),
                octets,
                count,
            )?),
            None => reading::read_cut(decoder, length),
        }
    }
}

// Appends code, length and octets of an option.
fn emit_pair(
    encoder: &mut BinEncoder<'_>,
    code: EdnsCode,
    option: &EdnsOption,
) -> Result<(), ProtoError>
    ensures small { edns_code_number code < 65536 }
    ensures emits { EmitsFitting (OptionFits (pair_value (code, option.now))) (tlv (as_tlv option_octets (pair_value (code, option.now)))) result
        encoder.old encoder.new }
{
    let len = option.octets_len();
    if len > 65535 {
        return Err(ProtoError::Message("option past 65535 octets"));
    }
    let [code_high, code_low] = u16::from(code).to_be_bytes();
    let [len_high, len_low] = (len as u16).to_be_bytes();
    encoder.emit_vec(&[code_high, code_low, len_high, len_low])?;
    option.emit(encoder)?;
    Ok(())
}

impl BinEncodable for OPT {
    ghost emits = { λ x r old new. Emits opt_shape (opt_fields x) r old new };

    /// Appends the options in their order: for each its code, its length and its octets.
    ///
    /// # Errors
    ///
    /// Options before the one that fails may then be in the encoder.
    ///
    /// - [`Message`](ProtoError::Message): an option has more than 65535 octets, or the source prefix of a subnet needs
    ///   more octets than its address has.
    /// - [`MaxBufferSizeExceeded`](ProtoError::MaxBufferSizeExceeded): the octets pass the encoder's limit.
    /// - [`Memory`](ProtoError::Memory): an allocation failed.
    fn emit(&self, encoder: &mut BinEncoder<'_>) -> Result<(), ProtoError> {
        for pair in self.options.as_slice() {
            emit_pair(encoder, pair.0, &pair.1)?;
        }
        Ok(())
    }
}

impl PartialEq for OPT {
    ghost eq = { opt_eq };

    ghost laws = { partial_equiv_from_equiv opt_equiv };

    /// Returns whether each pair occurs equally often in both. Allocates nothing. Linear if both have the same order.
    #[inline(never)]
    fn eq(&self, other: &OPT) -> bool
        ensures answer { result ≡ opt_eq self.now other.now }
        ensures permutation { IsTrue result ↔ IsPermutation self.now other.now }
        ensures multiset { IsTrue result ↔ ((p : Pair) → count_by (pair_eq p) self.now ≡ count_by (pair_eq p) other.now) }
    {
        // Most lists that are equal have the same order, and this test is quick.
        if self.options.as_slice() == other.options.as_slice() {
            return true;
        }
        self.cmp(other).is_eq()
    }
}

impl Eq for OPT {
    ghost laws = { opt_equiv };
}

impl PartialOrd for OPT {
    ghost partial_cmp = { as_partial_cmp opt_cmp };

    ghost laws = { partial_order_from_agreeing_total opt_cmp opt_total (λ _ _. refl) opt_ties };

    #[inline]
    fn partial_cmp(&self, other: &OPT) -> Option<Ordering> {
        Some(self.cmp(other))
    }
}

impl Ord for OPT {
    ghost cmp = { opt_cmp };

    ghost total = { opt_total };

    ghost matches_partial_cmp = { λ _ _. refl };

    ghost matches_eq = { opt_ties };

    /// Compares the sorted lists of pairs, by the first pair that differs. Allocates nothing.
    fn cmp(&self, other: &OPT) -> Ordering {
        sorted_cmp(self.as_ref(), other.as_ref())
    }
}

impl Hash for OPT {
    ghost use Rattle.std.specs.Hash.{slice, on_Alike, items_Alike, and-Alike};
    ghost use Rattle.dns_rdata_options.specs.{OPT.Pair, Order.risen, contracts.opt.code.EdnsCodeHash.TheImpl.Laws.respects_eq-law as code_fed};
    ghost use Rattle.dns_rdata_options.specs.{contracts.opt.option.EdnsOptionHash.TheImpl.Laws.respects_eq-law as option_fed};

    ghost hash_input = { λ o. slice ⟦<(EdnsCode, EdnsOption) as Hash>⟧.hash_input (risen o) };

    ghost respects_eq = { (on_Alike risen (items_Alike
        (and-Alike (on_Alike (λ (t : Pair). t.0) (record { fed = code_fed })) (on_Alike (λ (t : Pair). t.1) (record { fed = option_fed }))))).fed };

    /// Feeds the number of pairs and then the pairs, sorted. Allocates nothing.
    fn hash<H: Hasher>(&self, state: &mut H) {
        hash_sorted(self.options.as_slice(), state);
    }
}

impl Clone for OPT {
    ghost is_clone = { λ a b. b ≡ a };

    /// Copies the options, in the same order.
    #[inline]
    fn clone(&self) -> Result<OPT, AllocError>
        ensures { IfOk result (λ copy. copy ≡ self.now) }
    {
        Ok(OPT {
            options: self.options.clone()?,
        })
    }
}
