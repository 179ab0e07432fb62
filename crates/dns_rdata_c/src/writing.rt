//! What is written of RDATA to buffers of the caller: its octets and its zone file text.

ghost use Rattle.std.specs.Prelude.{◌≡◌, ◌≢◌, ◌<◌, ◌≤◌, ◌⊎◌, length as size};
ghost use Rattle.dns_types.specs.RecordTypes.{record_type_of};
ghost use Rattle.dns_rdata.specs.{Data.data_octets, Laws.ReadsCanonical, WholeOctets.whole_data};
ghost use Rattle.dns_rdata_zone.specs.ZoneTexts.{zone_text};
ghost use Rattle.dns_rdata_c.specs.{Reading.Filled, Reading.Rejected, Buffers.IsPut, Buffers.HoldsFirst, Buffers.IsTextPut, Buffers.IsTextTooLong, Calls.PutsWire, Calls.LacksRoomForWire};

use crate::rdata::{Rdata, view_at};
use crate::status::{BUFFER, MEMORY, OK, REFUSED, TOO_LONG};
use dns_rdata_zone::ZoneText;
use std::alloc::Global;

/// The greatest RDLENGTH (RFC 1035, section 3.2.1).
const MAX_OCTETS: usize = 65535;

/// The status of so many octets in a buffer with so much room, and sets their number if they are at most 65535.
pub fn told(len: usize, room: usize, count: &mut usize) -> u32
    ensures ok { result ≡ OK → (len ≤ room) × (len ≤ 65535) × (count.new ≡ len) }
    ensures buffer { result ≡ BUFFER → (room < len) × (len ≤ 65535) × (count.new ≡ len) }
    ensures too_long { result ≡ TOO_LONG → 65535 < len }
    ensures status { (result ≡ OK) ⊎ (result ≡ BUFFER) ⊎ (result ≡ TOO_LONG) }
    ensures untold { result ≢ OK → result ≢ BUFFER → count.new ≡ count.old }
{
    if len > MAX_OCTETS {
        return TOO_LONG;
    }
    *count = len;
    if len > room { BUFFER } else { OK }
}

/// Writes the text and a 0 after it to the front of the buffer if both fit, and sets the length of the text.
pub fn put_text(text: &[u8], out: &mut [u8], count: &mut usize) -> u32
    ensures ok { result ≡ OK → IsTextPut text.now out.old out.new count.new }
    ensures buffer { result ≡ BUFFER → IsTextTooLong text.now out.old out.new count.new }
    ensures status { (result ≡ OK) ⊎ (result ≡ BUFFER) }
{
    let len = text.len();
    *count = len;
    if len >= out.len() {
        return BUFFER;
    }
    out[..len].copy_from_slice(text);
    out[len] = 0;
    OK
}

/// Puts the uncompressed RDATA into a buffer, names with their case preserved, and sets `count` to the number of
/// octets. These octets mean the same in every message. A DNSSEC signer or validator starts from them. Allocates
/// nothing.
#[unsafe(no_mangle)]
pub extern "C" fn dns_rdata_wire(
    alloc: Global,
    rdata: &Rdata<'_>,
    out: &mut [u8],
    count: &mut usize,
) -> u32
    ensures ok { result ≡ OK → Filled rdata.now (λ v. PutsWire v out.old out.new count.new) }
    ensures buffer { result ≡ BUFFER → Filled rdata.now (λ v. LacksRoomForWire v out.old out.new count.new) }
    ensures too_long { result ≡ TOO_LONG → Filled rdata.now (λ v. 65535 < size (whole_data v)) }
    ensures cause { REFUSED ≤ result → Rejected rdata.now result }
    ensures status { (result ≡ OK) ⊎ (result ≡ BUFFER) ⊎ (result ≡ TOO_LONG) ⊎ (REFUSED ≤ result) }
    ensures kept { result ≢ OK → out.new ≡ out.old }
    ensures untold { result ≢ OK → result ≢ BUFFER → count.new ≡ count.old }
{
    let data = match view_at(alloc, rdata) {
        Ok(data) => data,
        Err(status) => return status,
    };
    let status = told(data.put_whole(&mut []), out.len(), count);
    if status != OK {
        return status;
    }
    let _len = data.put_whole(out);
    OK
}

/// Puts the canonical octets of the RDATA into a buffer, and sets `count` to their number. They are this library's own
/// form, for equality, order and hashing: names uncompressed and lowercased (of SVCB, HTTPS and ANAME, too), the
/// options of OPT sorted, the bitmap of CSYNC minimal. Values of one type are equal exactly if these octets are the
/// same, and are ordered as they are. They are not for DNSSEC: a signer starts from `dns_rdata_wire`. With `BUFFER` and
/// `TOO_LONG` the buffer holds as many as fit. Allocates nothing.
#[unsafe(no_mangle)]
pub extern "C" fn dns_rdata_canonical(
    alloc: Global,
    rdata: &Rdata<'_>,
    out: &mut [u8],
    count: &mut usize,
) -> u32
    ensures ok { result ≡ OK → Filled rdata.now
        (λ v. IsPut (data_octets v) out.old out.new count.new × ReadsCanonical (record_type_of rdata.now.type_number) v) }
    ensures buffer { result ≡ BUFFER → Filled rdata.now
        (λ v. (size out.old < size (data_octets v)) × (count.new ≡ size (data_octets v)) × HoldsFirst (data_octets v) out.old out.new) }
    ensures too_long { result ≡ TOO_LONG → Filled rdata.now
        (λ v. (65535 < size (data_octets v)) × HoldsFirst (data_octets v) out.old out.new) }
    ensures cause { REFUSED ≤ result → Rejected rdata.now result }
    ensures status { (result ≡ OK) ⊎ (result ≡ BUFFER) ⊎ (result ≡ TOO_LONG) ⊎ (REFUSED ≤ result) }
    ensures kept { result ≢ OK → result ≢ BUFFER → result ≢ TOO_LONG → out.new ≡ out.old }
    ensures untold { result ≢ OK → result ≢ BUFFER → count.new ≡ count.old }
{
    match view_at(alloc, rdata) {
        Err(status) => status,
        Ok(data) => told(data.put_canonical(out), out.len(), count),
    }
}

/// Puts the zone file text of the RDATA into a buffer, followed by a zero octet, and sets `count` to its length without
/// that octet: the presentation format of zone files (RFC 1035, section 5.1; RFC 9460, section 2.1), or
/// that of unknown RDATA (RFC 3597, section 5). RDATA of more than 65535 octets once names are uncompressed is rejected
/// with `TOO_LONG`, since no reader accepts its text.
#[unsafe(no_mangle)]
pub extern "C" fn dns_rdata_text(
    alloc: Global,
    rdata: &Rdata<'_>,
    out: &mut [u8],
    count: &mut usize,
) -> u32
    ensures ok { result ≡ OK → Filled rdata.now (λ v. (size (whole_data v) ≤ 65535) × IsTextPut (zone_text v) out.old out.new count.new) }
    ensures buffer { result ≡ BUFFER → Filled rdata.now (λ v. (size (whole_data v) ≤ 65535) × IsTextTooLong (zone_text v) out.old out.new count.new) }
    ensures too_long { result ≡ TOO_LONG → Filled rdata.now (λ v. 65535 < size (whole_data v)) }
    ensures cause { REFUSED ≤ result → Rejected rdata.now result }
    ensures status { (result ≡ OK) ⊎ (result ≡ MEMORY) ⊎ (result ≡ BUFFER) ⊎ (result ≡ TOO_LONG) ⊎ (REFUSED ≤ result) }
    ensures kept { result ≢ OK → out.new ≡ out.old }
    ensures untold { result ≢ OK → result ≢ BUFFER → count.new ≡ count.old }
{
    let data = match view_at(alloc, rdata) {
        Ok(data) => data,
        Err(status) => return status,
    };
    if data.put_whole(&mut []) > MAX_OCTETS {
        return TOO_LONG;
    }
    let Ok(value) = data.to_rdata(alloc) else {
        return MEMORY;
    };
    match ZoneText::new(&value).to_string(alloc) {
        Err(_) => MEMORY,
        Ok(text) => put_text(text.as_bytes(), out, count),
    }
}
