//! Domain names in a message, in RDATA and in text, and the names of the types of records.

ghost use Rattle.std.specs.{Prelude.◌≡◌, Prelude.◌≢◌, Prelude.◌+◌, Prelude.◌<◌, Prelude.◌≤◌, Prelude.◌⊎◌, Prelude.length as size, Str.IsUtf8};
ghost use Rattle.dns_types.specs.RecordTypes.{record_type_of, number_of, type_text};
ghost use Rattle.dns_zone_tokens.specs.TypeNames.{IsZoneType};
ghost use Rattle.dns_names_wire.specs.NameEnds.{NameEnds};
ghost use Rattle.dns_view.specs.NameFields.{names_in};
ghost use Rattle.dns_rdata.specs.{Data.fields_of, WholeOctets.name_octets};
ghost use Rattle.dns_rdata_zone.specs.Names.{zone_name};
ghost use Rattle.dns_rdata_c.specs.{Buffers.IsPut, Buffers.IsTooMany, Buffers.IsTextPut, Buffers.IsTextTooLong, Calls.IsNoOrigin};
ghost use Rattle.dns_rdata_c.specs.{Reading.Filled, Reading.Rejected, Names.Named, Names.NameAt, Names.NoNameAt, Names.NameOfText, Names.IsRefusedName};

use crate::parse::origin_of;
use crate::rdata::{Rdata, view_at};
use crate::status::{
    ABSENT, BUFFER, MEMORY, MISSING_OCTETS, NAME, NO_DATA_TEXT, NO_TYPE, NOT_UTF8, OK, ORIGIN,
    REFUSED, status_of_text,
};
use crate::writing::put_text;
use dns_names_wire::name_ends::skip_name;
use dns_rdata::{BinDecoder, DecodeError, Name, RecordType};
use dns_rdata_zone::{ZoneName, name_from_zone_text, type_named};
use std::alloc::Global;

/// Writes a name of the RDATA to a buffer, uncompressed and case preserved, and sets the number of octets and the
/// offset of the name in the message. Names are counted from 0, in the order of the fields. If there is no name of this
/// number, the status is `ABSENT`. Allocates nothing.
#[unsafe(no_mangle)]
pub extern "C" fn dns_rdata_name(
    alloc: Global,
    rdata: &Rdata<'_>,
    index: usize,
    out: &mut [u8],
    count: &mut usize,
    begin: &mut usize,
) -> u32
    ensures ok { result ≡ OK → Named rdata.now index
        (λ q x. IsPut (name_octets x) out.old out.new count.new × (begin.new ≡ q)) }
    ensures buffer { result ≡ BUFFER → Named rdata.now index
        (λ q x. IsTooMany (name_octets x) out.old out.new count.new × (begin.new ≡ q)) }
    ensures absent { result ≡ ABSENT → Filled rdata.now (λ v. names_in (fields_of v).kinds ≤ index) }
    ensures cause { REFUSED ≤ result → Rejected rdata.now result }
    ensures status { (result ≡ OK) ⊎ (result ≡ BUFFER) ⊎ (result ≡ ABSENT) ⊎ (REFUSED ≤ result) }
    ensures kept { result ≢ OK → out.new ≡ out.old }
    ensures untold { result ≢ OK → result ≢ BUFFER → (count.new ≡ count.old) }
    ensures unplaced { result ≢ OK → result ≢ BUFFER → (begin.new ≡ begin.old) }
{
    let data = match view_at(alloc, rdata) {
        Ok(data) => data,
        Err(status) => return status,
    };
    let Some(name) = data.name(index) else {
        return ABSENT;
    };
    *begin = name.offset();
    *count = name.put(false, &mut []);
    if *count > out.len() {
        return BUFFER;
    }
    let _len = name.put(false, out);
    OK
}

/// Sets `count` to the number of octets that the name at an offset of the message takes there, with the octet 0 or the
/// compression pointer at its end. Allocates nothing.
#[unsafe(no_mangle)]
pub extern "C" fn dns_rdata_name_length(message: &[u8], offset: usize, count: &mut usize) -> u32
    ensures ok { result ≡ OK → NameEnds message.now offset (offset + count.new) }
    ensures refused { result ≡ NAME → NoNameAt message.now offset }
    ensures outside { result ≡ MISSING_OCTETS → size message.now < offset }
    ensures status { (result ≡ OK) ⊎ (result ≡ MISSING_OCTETS) ⊎ (result ≡ NAME) }
    ensures untold { result ≢ OK → count.new ≡ count.old }
{
    if offset > message.len() {
        return MISSING_OCTETS;
    }
    let Some(end) = skip_name(message, offset) else {
        return NAME;
    };
    *count = end.saturating_sub(offset);
    OK
}

/// Writes the text of the name at an offset of the message to a buffer, followed by a zero octet, and sets `count` to
/// its length without that octet: the presentation format (RFC 1035, section 5.1), fully qualified and case preserved.
#[unsafe(no_mangle)]
pub extern "C" fn dns_rdata_name_text(
    alloc: Global,
    message: &[u8],
    offset: usize,
    out: &mut [u8],
    count: &mut usize,
) -> u32
    ensures ok { result ≡ OK → NameAt message.now offset (λ x. IsTextPut (zone_name x) out.old out.new count.new) }
    ensures buffer { result ≡ BUFFER → NameAt message.now offset (λ x. IsTextTooLong (zone_name x) out.old out.new count.new) }
    ensures refused { result ≡ NAME → NoNameAt message.now offset }
    ensures outside { result ≡ MISSING_OCTETS → size message.now < offset }
    ensures status { (result ≡ OK) ⊎ (result ≡ MEMORY) ⊎ (result ≡ BUFFER) ⊎ (result ≡ MISSING_OCTETS) ⊎ (result ≡ NAME) }
    ensures kept { result ≢ OK → out.new ≡ out.old }
    ensures untold { result ≢ OK → result ≢ BUFFER → count.new ≡ count.old }
{
    let Ok(mut decoder) = BinDecoder::at(alloc, message, offset) else {
        return MISSING_OCTETS;
    };
    match Name::read(&mut decoder) {
        Err(DecodeError::Memory) => MEMORY,
        Err(_) => NAME,
        Ok(name) => match ZoneName(&name).to_string(alloc) {
            Err(_) => MEMORY,
            Ok(text) => put_text(text.as_bytes(), out, count),
        },
    }
}

// Writes the uncompressed octets of a name to a buffer, and sets the count of octets.
fn put_name(name: &Name, out: &mut [u8], count: &mut usize) -> u32
    ensures ok { result ≡ OK → IsPut (name_octets name.now) out.old out.new count.new }
    ensures buffer { result ≡ BUFFER → IsTooMany (name_octets name.now) out.old out.new count.new }
    ensures status { (result ≡ OK) ⊎ (result ≡ BUFFER) }
    ensures kept { result ≢ OK → out.new ≡ out.old }
{
    // The octet 0 at the end is the one that follows a text.
    let status = put_text(name.label_octets(), out, count);
    *count += 1;
    status
}

/// Reads a name from text (RFC 1035, section 5.1), and writes its octets to a buffer, uncompressed and case preserved.
/// A relative name is completed by the origin, whose octets are given; with no octets of an origin it is taken as fully
/// qualified.
#[unsafe(no_mangle)]
pub extern "C" fn dns_rdata_name_from_text(
    alloc: Global,
    text: &[u8],
    origin: &[u8],
    out: &mut [u8],
    count: &mut usize,
) -> u32
    ensures ok { result ≡ OK → NameOfText origin.now text.now (λ x. IsPut (name_octets x) out.old out.new count.new) }
    ensures buffer { result ≡ BUFFER → NameOfText origin.now text.now (λ x. IsTooMany (name_octets x) out.old out.new count.new) }
    ensures origin { result ≡ ORIGIN → IsNoOrigin origin.now }
    ensures refused { NO_DATA_TEXT ≤ result → IsRefusedName origin.now text.now result }
    ensures status { (result ≡ OK) ⊎ (result ≡ MEMORY) ⊎ (result ≡ BUFFER) ⊎ (result ≡ ORIGIN) ⊎ (NO_DATA_TEXT ≤ result) }
    ensures kept { result ≢ OK → out.new ≡ out.old }
    ensures untold { result ≢ OK → result ≢ BUFFER → count.new ≡ count.old }
{
    let origin = match origin_of(alloc, origin) {
        Ok(origin) => origin,
        Err(status) => return status,
    };
    match name_from_zone_text(alloc, text, origin.as_ref()) {
        Err(error) => status_of_text(error),
        Ok(name) => put_name(&name, out, count),
    }
}

/// Writes the name of the type of this number to a buffer, with a 0 after it, and sets its length: the name in
/// capitals, or `TYPE` and the number (RFC 3597, section 5).
#[unsafe(no_mangle)]
pub extern "C" fn dns_rdata_type_text(
    alloc: Global,
    type_number: u16,
    out: &mut [u8],
    count: &mut usize,
) -> u32
    ensures ok { result ≡ OK → IsTextPut (type_text (record_type_of type_number)) out.old out.new count.new }
    ensures buffer { result ≡ BUFFER → IsTextTooLong (type_text (record_type_of type_number)) out.old out.new count.new }
    ensures status { (result ≡ OK) ⊎ (result ≡ MEMORY) ⊎ (result ≡ BUFFER) }
    ensures kept { result ≢ OK → out.new ≡ out.old }
    ensures untold { result ≢ OK → result ≢ BUFFER → count.new ≡ count.old }
{
    match RecordType::from(type_number).to_string(alloc) {
        Err(_) => MEMORY,
        Ok(text) => put_text(text.as_bytes(), out, count),
    }
}

/// Tells the number of the type that a text names: a name of IANA's registry in either case, a name that
/// `dns_rdata_type_text` writes, or `TYPE` in capitals and a number. Allocates nothing.
#[unsafe(no_mangle)]
pub extern "C" fn dns_rdata_type_number(text: &[u8], type_number: &mut u16) -> u32
    ensures ok { result ≡ OK → (t : _) × IsZoneType text.now t × (type_number.new ≡ number_of t) }
    ensures refused { result ≡ NO_TYPE → (t : _) → ¬ (IsZoneType text.now t) }
    ensures not_utf8 { result ≡ NOT_UTF8 → ¬ (IsUtf8 text.now) }
    ensures utf8 { result ≢ NOT_UTF8 → IsUtf8 text.now }
    ensures status { (result ≡ OK) ⊎ (result ≡ NOT_UTF8) ⊎ (result ≡ NO_TYPE) }
    ensures untold { result ≢ OK → type_number.new ≡ type_number.old }
{
    if str::from_utf8(text).is_err() {
        return NOT_UTF8;
    }
    let Some(record_type) = type_named(text) else {
        return NO_TYPE;
    };
    *type_number = u16::from(record_type);
    OK
}
