//! Canonical octets, one after the other.

ghost use Rattle.std.specs.Prelude.{◌≡◌, ◌↔◌, ℕ, IsTrue, [], if◌then◌else◌, slice_get};
ghost use Rattle.dns_canonical.specs.{Steps.GivesStep};
ghost use Rattle.dns_view.specs.Putting.{key_of};
ghost use Rattle.dns_rdata.specs.Data.{data_octets, IsEmittable};
ghost use Rattle.dns_rdata.specs.Cursor.{can_emit, data_left, data_windows, data_options, data_course, IsUncounted, DataAt};

use crate::record_data::RData;
use crate::traits::RecordData;
use dns_canonical::{Count, Cursor, Head, Step, Stepped, whole_step};
use dns_rdata_base::rest::rest_step;
use dns_rdata_base::{
    hinfo_is_emittable, hinfo_step, name_step, naptr_is_emittable, naptr_step, soa_step,
    txt_is_emittable, txt_step,
};
use dns_rdata_options::heads::Heads;
use dns_rdata_options::steps::{opt_is_emittable, opt_step_kept};
use dns_rdata_policy::{caa_is_emittable, caa_step, csync_step};
use dns_rdata_service::steps::{https_step, svcb_is_emittable, svcb_step};

// For the proof: the step of a record is the step of the value that holds it.
#[inline(always)]
fn of_value<'a, T: RecordData>(
    value: &T,
    found: Option<Step<'a>>,
    step: usize,
    part: usize,
    item: usize,
    head: &Head,
) -> Option<Step<'a>>
    requires { (i j : ℕ) → GivesStep (data_left (T.wrapped value.now)) step i j head.now found }
    ensures { GivesStep (data_left (T.wrapped value.now)) step part item head.now result }
{
    let _ = value;
    let _ = (step, part, item);
    let _ = head;
    found
}

impl RData {
    // The step after a position of a record whose steps are not counted.
    fn uncounted_step<'a>(
        &'a self,
        step: usize,
        part: usize,
        item: usize,
        head: &mut Head,
    ) -> Option<Step<'a>>
        requires empty { head.old ≡ [] }
        requires uncounted { IsUncounted self.now }
        requires at { DataAt self.now step part item }
        ensures { GivesStep (data_left self.now) step part item head.new result }
    {
        match self {
            RData::A(x) => of_value(x, whole_step(x, step, head), step, part, item, head),
            RData::AAAA(x) => of_value(x, whole_step(x, step, head), step, part, item, head),
            RData::ANAME(x) => of_value(x, name_step(&x.0, step, head), step, part, item, head),
            RData::CAA(x) => of_value(x, caa_step(x, step, head), step, part, item, head),
            RData::CERT(x) => of_value(x, whole_step(x, step, head), step, part, item, head),
            RData::CNAME(x) => of_value(x, name_step(&x.0, step, head), step, part, item, head),
            RData::HINFO(x) => of_value(x, hinfo_step(x, step, head), step, part, item, head),
            RData::MX(x) => of_value(x, whole_step(x, step, head), step, part, item, head),
            RData::NAPTR(x) => of_value(x, naptr_step(x, step, head), step, part, item, head),
            RData::NS(x) => of_value(x, name_step(&x.0, step, head), step, part, item, head),
            RData::PTR(x) => of_value(x, name_step(&x.0, step, head), step, part, item, head),
            RData::SMIMEA(x) => of_value(x, whole_step(x, step, head), step, part, item, head),
            RData::SOA(x) => of_value(x, soa_step(x, step, head), step, part, item, head),
            RData::SRV(x) => of_value(x, whole_step(x, step, head), step, part, item, head),
            RData::SSHFP(x) => of_value(x, whole_step(x, step, head), step, part, item, head),
            RData::TLSA(x) => of_value(x, whole_step(x, step, head), step, part, item, head),
            RData::HTTPS(x) => https_step(x, step, part, item, head),
            RData::NULL(x) => rest_step(x.anything.as_slice(), step, head),
            RData::OPENPGPKEY(x) => rest_step(x.public_key.as_slice(), step, head),
            RData::SVCB(x) => svcb_step(x, step, part, item, head),
            RData::TXT(x) => txt_step(x, step, part, head),
            RData::Unknown { rdata, .. } => rest_step(rdata.anything.as_slice(), step, head),
            RData::CSYNC(_) | RData::OPT(_) | RData::Update0(_) | RData::ZERO => None,
        }
    }

    /// Returns whether [`emit`](BinEncodable::emit) can encode the value. Each value that was read can be emitted. One that a
    /// caller built cannot if a character string, a tag of CAA or a protocol has more than 255 octets, an option or a parameter
    /// has more than 65,535, the keys of parameters do not rise, or a source prefix needs more octets than its address has. Room
    /// is not looked at: RDATA of more than 65,535 octets passes here, and does not fit RDLENGTH. Allocates nothing.
    pub fn is_emittable(&self) -> bool
        ensures { IsTrue result ↔ IsEmittable self.now }
    {
        match self {
            RData::CAA(x) => caa_is_emittable(x),
            RData::HINFO(x) => hinfo_is_emittable(x),
            RData::HTTPS(x) => svcb_is_emittable(&x.0),
            RData::NAPTR(x) => naptr_is_emittable(x),
            RData::OPT(x) => opt_is_emittable(x),
            RData::SVCB(x) => svcb_is_emittable(x),
            RData::TXT(x) => txt_is_emittable(x),
            _ => true,
        }
    }

    /// A cursor at the first of the canonical octets: this library's own form, for equality, order and hashing. All
    /// names are lowercased, options are sorted, and a set of types is in its shortest form. They are **not for
    /// DNSSEC**: a signer starts from the uncompressed octets with case preserved, which
    /// [`emit_whole`](RData::emit_whole) appends. Of a value that cannot be emitted, of `Update0` and of `ZERO` there
    /// are none. Allocates nothing.
    ///
    /// ```rust
    /// fn canonical_start(data: &RData, buffer: &mut [u8]) -> usize {
    ///     data.canonical_octets().copy_to(buffer)
    /// }
    /// ```
    pub fn canonical_octets(&self) -> CanonicalOctets<'_>
        ensures octets { result.octets ≡ data_octets self.now }
        ensures taken { result.taken ≡ 0 }
        ensures choices { result.choices ≡ 0 }
        ensures passes { result.passes ≡ 0 }
        // Its options and its bitmap windows, if it can be emitted.
        ensures options { result.options ≡ (if can_emit self.now then data_options self.now else 0) }
        ensures all { result.all_options ≡ (if can_emit self.now then data_options self.now else 0) }
        ensures windows { result.windows ≡ (if can_emit self.now then data_windows self.now 0 0 else 0) }
    {
        Cursor::new(self, self.is_emittable())
    }

    /// The canonical octet at an offset, and `None` from their number on. Allocates nothing. It goes over the octets
    /// before the offset one by one, so a loop over all octets is for [`RData::canonical_octets`]. The time is linear
    /// in the offset; where the options of a record are in no order, each option before the offset takes up to some
    /// hundred comparisons more, and up to 190 where there are fewer than 96 options.
    pub fn octet_at(&self, index: u128) -> Option<u8>
        ensures { result ≡ slice_get (data_octets self.now) index }
    {
        let mut octets = self.canonical_octets();
        let mut left = index;
        'octets: while let Some(octet) = octets.next() {
            if left == 0 {
                return Some(octet);
            }
            left -= 1;
        }
        None
    }

    /// The first eight canonical octets as a number, high octet first; octets that are missing are 0. Of two values of one
    /// type that were read, the one with the lesser key comes first in `cmp`. So records are sorted by their keys, and
    /// `cmp` is only asked where two keys are the same. Allocates nothing.
    pub fn order_key(&self) -> u64
        ensures { result ≡ key_of (data_octets self.now) }
    {
        let mut front = [0; 8];
        let _count = self.canonical_octets().copy_to(&mut front);
        u64::from_be_bytes(front)
    }
}

impl Stepped for RData {
    type Kept = Heads;

    ghost course = { data_course };

    #[inline]
    fn step<'a>(
        &'a self,
        step: usize,
        part: usize,
        item: usize,
        heads: &mut Option<Heads>,
        head: &mut Head,
        choices: &mut Count,
        passes: &mut Count,
    ) -> Option<Step<'a>> {
        match self {
            RData::CSYNC(x) => return csync_step(x, step, part, head, passes),
            RData::OPT(x) => return opt_step_kept(x, step, part, item, heads, head, choices),
            _ => return self.uncounted_step(step, part, item, head),
        }
    }
}

/// What is left of the canonical octets of a value ([`RData::canonical_octets`]). It keeps its offset, and allocates
/// nothing.
pub type CanonicalOctets<'a> = Cursor<'a, RData>;
