//! The options of OPT and the parameters of SVCB and HTTPS: one by its index, or all one after the other.

ghost use Rattle.std.specs.Prelude.{◌≡◌, ◌≢◌, ◌↔◌, ◌+◌, ◌<◌, ◌≤◌, ◌⊎◌, ℕ, Some, None, length as size, take, drop, IfOk, IfErr, MatchOption, IsTrue, true};
ghost use Rattle.dns_types.specs.{RecordTypes.record_type_of, declared.record_type.RecordType.RecordType as RecordTypeValue};
ghost use Rattle.dns_types.specs.declared.record_type.RecordType.TheVariants as types;
ghost use Rattle.dns_fields.specs.Tlvs.{IsTruncated};
ghost use Rattle.dns_view.specs.TlvList.{NoTlv};
ghost use Rattle.dns_rdata.specs.{Data.Fills, Data.NoValue, declared.record_data.RData.RData};
ghost use Rattle.dns_rdata_c.specs.Reading.{Of};
ghost use Rattle.dns_rdata_c.specs.Parts.{is_partless as partless_type, after_name, after_front, IsPartAt, AreBetween, AreLeft, IsPartOf};
ghost use Rattle.dns_rdata_c.specs.Parts.{AreFewParts, AreCutOptions, AreNoParts, HasNoFront, HasPart, HasFirstPart, LacksPart, IsBefore, parts_in, IsPartIn};

use crate::rdata::Rdata;
use crate::status::{ABSENT, LENGTH, MISSING_OCTETS, NAME, OK, REFUSED};
use dns_rdata::RecordType;

// An option or a parameter: its code or key, where its octets begin, and how many they are.
#[derive(Clone, Copy)]
struct Part {
    number: u16,
    begin: usize,
    count: usize,
}

/// Where the next part of RDATA is in its message. The caller holds it; any numbers in it are safe.
#[repr(C)]
#[derive(Clone, Copy)]
pub struct PartsCursor {
    /// The offset of the next part.
    pub next: usize,
    /// The offset where the RDATA ends.
    pub end: usize,
}

// Whether RDATA of the type has no parts.
fn is_partless(record_type: RecordType) -> bool
    ensures { result ≡ partless_type record_type }
{
    match record_type {
        RecordType::OPT | RecordType::HTTPS | RecordType::SVCB => false,
        _ => true,
    }
}

// Where the parameters of a service binding begin: after a priority and the name of the target.
#[tactic(auto, using(crate::proofs::PartOctets::name_begins, crate::proofs::PartOctets::name_points, crate::proofs::PartOctets::name_goes_on))]
fn service_end(octets: &[u8], begin: usize) -> Option<usize>
    requires { begin ≤ size octets.now }
    ensures { MatchOption result (after_name 2 (drop begin octets.now) ≡ None) (λ end. after_name 2 (drop begin octets.now) ≡ Some (drop end octets.now)) }
{
    let mut at = begin + 2;
    'labels: while at < octets.len() {
        let octet = octets[at] as usize;
        if octet == 0 {
            return Some(at + 1);
        }
        if octet >= 192 {
            let left = octets.len() - at;
            return if left >= 2 { Some(at + 2) } else { None };
        }
        if octet >= 64 {
            return None;
        }
        at += octet + 1;
    }
    None
}

// Where the parts begin.
fn front_end(record_type: RecordType, octets: &[u8], begin: usize) -> Option<usize>
    requires { begin ≤ size octets.now }
    ensures { MatchOption result (after_front record_type (drop begin octets.now) ≡ None) (λ end. after_front record_type (drop begin octets.now) ≡ Some (drop end octets.now)) }
{
    match record_type {
        RecordType::OPT => Some(begin),
        RecordType::HTTPS | RecordType::SVCB => service_end(octets, begin),
        _ => None,
    }
}

// The part at an offset, which may be any number.
#[tactic(auto, using(crate::proofs::PartOctets::no_part))]
fn part_at(octets: &[u8], at: usize) -> Option<Part>
    ensures { MatchOption result (NoTlv (drop at octets.now)) (λ part. IsPartAt octets.now at part.number part.begin part.count) }
{
    let rest = octets.get(at..)?;
    if rest.len() < 4 {
        return None;
    }
    let count = rest[2] as usize * 256 + rest[3] as usize;
    if count > rest.len() - 4 {
        return None;
    }
    Some(Part {
        number: rest[0] as u16 * 256 + rest[1] as u16,
        begin: at + 4,
        count,
    })
}

// The part of this number among those that follow each other from an offset on, and where they end.
fn walk_parts(octets: &[u8], first: usize, index: usize) -> (Option<Part>, usize)
    ensures parts { AreBetween octets.now first result.1 }
    ensures none { NoTlv (drop result.1 octets.now) }
    ensures part { (p : ℕ) (t : RecordTypeValue) → AreLeft octets.now p t 0 first → MatchOption result.0 (AreFewParts t (drop p octets.now) index)
        (λ part. IsPartOf octets.now p t index part.number part.begin part.count) }
{
    let mut found = None;
    let mut i = 0;
    let mut end = first;
    'parts: while let Some(part) = part_at(octets, end) {
        if i == index {
            found = Some(part);
        }
        i += 1;
        end = part.begin + part.count;
    }
    (found, end)
}

// Whether these octets are a truncated option, in RDATA of so many octets.
#[tactic(auto, using(crate::proofs::PartOctets::code_alone, crate::proofs::PartOctets::cut_length))]
fn is_cut(octets: &[u8], most: u16) -> bool
    ensures { IsTrue result ↔ IsTruncated most octets.now }
{
    let len = octets.len();
    if len < 4 {
        return len == 2;
    }
    let count = octets[2] as usize * 256 + octets[3] as usize;
    count <= most as usize && count > len - 4
}

// The status if options or parameters are truncated. Truncated OPT RDATA has no options, and that is no error.
fn stub_status(record_type: RecordType, stub: &[u8], length: u16) -> u32
    ensures cut { result ≡ ABSENT → (record_type ≡ types.OPT) × IsTruncated length stub.now }
    ensures damaged { result ≡ LENGTH → record_type ≡ types.OPT → ¬ (IsTruncated length stub.now) }
    ensures status { (result ≡ ABSENT) ⊎ (result ≡ LENGTH) }
{
    match record_type {
        RecordType::OPT if is_cut(stub, length) => ABSENT,
        _ => LENGTH,
    }
}

// The message up to the end of the RDATA.
fn data_end(message: &[u8], offset: usize, length: u16) -> Option<&[u8]>
    ensures { MatchOption result (size message.now < offset + length)
        (λ octets. (offset + length ≤ size message.now) × (octets.now ≡ take (offset + length) message.now) × (length ≡ size (drop offset octets.now))) }
{
    message.get(..offset.saturating_add(length as usize))
}

/// Finds an option of OPT, or a parameter of SVCB or HTTPS: sets its code or key, the offset of its octets in the
/// message, and how many they are. Parts are counted from 0, in the order of the message. If there is none of this
/// number, the status is `ABSENT`, as for every type without parts. Only the lengths are looked at, and no value is
/// read, so parts are also found in octets that are not RDATA of the type. Allocates nothing.
#[unsafe(no_mangle)]
pub extern "C" fn dns_rdata_part(
    rdata: &Rdata<'_>,
    index: usize,
    number: &mut u16,
    begin: &mut usize,
    count: &mut usize,
) -> u32
    ensures ok { result ≡ OK → Of rdata.now (λ m p n t. HasPart m p n t index number.new begin.new count.new) }
    ensures absent { result ≡ ABSENT → Of rdata.now (λ m p n t. LacksPart m p n t index) }
    ensures partless { partless_type (record_type_of rdata.now.type_number) ≡ true → result ≡ ABSENT }
    ensures short { result ≡ MISSING_OCTETS → size rdata.now.message.now < rdata.now.offset + rdata.now.length }
    ensures name { result ≡ NAME → Of rdata.now (λ m p n t. HasNoFront t (drop p (take (p + n) m))) }
    ensures damaged { result ≡ LENGTH → Of rdata.now (λ m p n t. AreNoParts t (drop p (take (p + n) m))) }
    // Missing octets are told first, and then that no name follows the priority.
    ensures within { result ≡ NAME → rdata.now.offset + rdata.now.length ≤ size rdata.now.message.now }
    ensures whole { result ≡ LENGTH → rdata.now.offset + rdata.now.length ≤ size rdata.now.message.now }
    ensures front { result ≡ LENGTH → Of rdata.now (λ m p n t. HasNoFront t (drop p (take (p + n) m)) → ⊥) }
    ensures status { (result ≡ OK) ⊎ (result ≡ ABSENT) ⊎ (result ≡ MISSING_OCTETS) ⊎ (result ≡ NAME) ⊎ (result ≡ LENGTH) }
    // For the proof: if the octets are the RDATA of a value, the parts are those of the value.
    ensures same { result ≡ OK → Of rdata.now (λ m p n t. (v : RData) → Fills m p n t v → IsPartIn m p n t v index number.new begin.new count.new) }
    ensures none { result ≡ ABSENT → Of rdata.now (λ m p n t. (v : RData) → Fills m p n t v → parts_in t v ≤ index) }
    ensures refused { REFUSED ≤ result → Of rdata.now NoValue }
    ensures untold { result ≢ OK → (number.new ≡ number.old) × (begin.new ≡ begin.old) × (count.new ≡ count.old) }
{
    let record_type = RecordType::from(rdata.type_number);
    if is_partless(record_type) {
        return ABSENT;
    }
    let Some(octets) = data_end(rdata.message, rdata.offset, rdata.length) else {
        return MISSING_OCTETS;
    };
    let Some(first) = front_end(record_type, octets, rdata.offset) else {
        return NAME;
    };
    let (found, end) = walk_parts(octets, first, index);
    if end < octets.len() {
        return stub_status(record_type, &octets[end..], rdata.length);
    }
    let Some(part) = found else {
        return ABSENT;
    };
    *number = part.number;
    *begin = part.begin;
    *count = part.count;
    OK
}

/// Sets a cursor to the first option or parameter. It looks at each length once, as `dns_rdata_part` does, and returns
/// what that call returns for index 0. With a status other than `OK` the cursor has no parts. Does not allocate.
#[unsafe(no_mangle)]
pub extern "C" fn dns_rdata_parts_begin(rdata: &Rdata<'_>, parts: &mut PartsCursor) -> u32
    ensures ok { result ≡ OK → Of rdata.now (λ m p n t. IsBefore m p n t 0 parts.new) }
    ensures first { result ≡ OK → Of rdata.now HasFirstPart }
    ensures absent { result ≡ ABSENT → Of rdata.now (λ m p n t. LacksPart m p n t 0) }
    ensures partless { partless_type (record_type_of rdata.now.type_number) ≡ true → result ≡ ABSENT }
    ensures short { result ≡ MISSING_OCTETS → size rdata.now.message.now < rdata.now.offset + rdata.now.length }
    ensures name { result ≡ NAME → Of rdata.now (λ m p n t. HasNoFront t (drop p (take (p + n) m))) }
    ensures damaged { result ≡ LENGTH → Of rdata.now (λ m p n t. AreNoParts t (drop p (take (p + n) m))) }
    // Missing octets are told first, and then that no name follows the priority.
    ensures within { result ≡ NAME → rdata.now.offset + rdata.now.length ≤ size rdata.now.message.now }
    ensures whole { result ≡ LENGTH → rdata.now.offset + rdata.now.length ≤ size rdata.now.message.now }
    ensures front { result ≡ LENGTH → Of rdata.now (λ m p n t. HasNoFront t (drop p (take (p + n) m)) → ⊥) }
    ensures status { (result ≡ OK) ⊎ (result ≡ ABSENT) ⊎ (result ≡ MISSING_OCTETS) ⊎ (result ≡ NAME) ⊎ (result ≡ LENGTH) }
    ensures none { result ≡ ABSENT → Of rdata.now (λ m p n t. (v : RData) → Fills m p n t v → parts_in t v ≤ 0) }
    ensures refused { REFUSED ≤ result → Of rdata.now NoValue }
    ensures emptied { result ≢ OK → (parts.new.next ≡ 0) × (parts.new.end ≡ 0) }
{
    *parts = PartsCursor { next: 0, end: 0 };
    let (mut number, mut begin, mut count) = (0, 0, 0);
    let status = dns_rdata_part(rdata, 0, &mut number, &mut begin, &mut count);
    if status == OK {
        parts.next = begin - 4;
        parts.end = rdata.offset + rdata.length as usize;
    }
    status
}

/// Returns the part at the cursor, as `dns_rdata_part` returns it, and moves the cursor to the next one. After the last
/// part it returns `ABSENT`. The data is that with which the cursor began. Each call takes the same time. Does not
/// allocate.
#[unsafe(no_mangle)]
pub extern "C" fn dns_rdata_parts_next(
    rdata: &Rdata<'_>,
    parts: &mut PartsCursor,
    number: &mut u16,
    begin: &mut usize,
    count: &mut usize,
) -> u32
    // Of a cursor before part number i: that part, and the cursor is before the next one.
    ensures ok { result ≡ OK → (p : ℕ) → (n : ℕ) → (t : RecordTypeValue) → (i : ℕ) → IsBefore rdata.now.message.now p n t i parts.old
        → HasPart rdata.now.message.now p n t i number.new begin.new count.new × IsBefore rdata.now.message.now p n t (i + 1) parts.new }
    ensures absent { result ≡ ABSENT → (p : ℕ) → (n : ℕ) → (t : RecordTypeValue) → (i : ℕ) → IsBefore rdata.now.message.now p n t i parts.old
        → LacksPart rdata.now.message.now p n t i }
    ensures status { (result ≡ OK) ⊎ (result ≡ ABSENT) }
    // Whatever the cursor was, the part is in the message.
    ensures within { result ≡ OK → begin.new + count.new ≤ size rdata.now.message.now }
    ensures unmoved { result ≡ ABSENT → parts.new ≡ parts.old }
    ensures untold { result ≡ ABSENT → (number.new ≡ number.old) × (begin.new ≡ begin.old) × (count.new ≡ count.old) }
{
    if parts.end > rdata.message.len() {
        return ABSENT;
    }
    let Some(part) = part_at(&rdata.message[..parts.end], parts.next) else {
        return ABSENT;
    };
    *number = part.number;
    *begin = part.begin;
    *count = part.count;
    parts.next = part.begin + part.count;
    OK
}
