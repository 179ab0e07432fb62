//! RDATA from zone file texts, and why a text gives none.

ghost use Rattle.std.specs.Prelude.{◌≡◌, ◌≢◌, ◌<◌, ◌≤◌, ◌⊎◌, ℕ, List, length as size, IfOk, IfErr};
ghost use Rattle.std.specs.Option.{option_copied};
ghost use Rattle.dns_types.specs.{RecordTypes.record_type_of, Errors.IsAbout};
ghost use Rattle.dns_rdata.specs.{Data.IsEmittable, WholeOctets.whole_data};
ghost use Rattle.dns_rdata_zone.specs.ZoneGives.{AreDataOf, GivesValue};
ghost use Rattle.dns_rdata_c.specs.{Buffers.IsPut, Buffers.IsTextPut, Buffers.IsTextTooLong, Calls.IsOrigin, Calls.IsNoOrigin, Calls.IsNoZoneText, Calls.OfZoneText};
ghost use Rattle.dns_rdata_c.specs.{Calls.HasZoneData, Calls.IsRefusedZoneText, Calls.PutsWire, Calls.LacksRoomForWire};
ghost use Rattle.dns_rdata_c.specs.Why.{reason_text, cause_in, IsFieldAt, IsTextFault, IsWhyNone};

use crate::status::{
    ABSENT, BUFFER, MEMORY, NO_DATA_TEXT, OK, ORIGIN, TOO_LONG, status_of, status_of_text,
};
use crate::writing::{put_text, told};
use dns_rdata::{
    BinDecodable, BinDecoder, BinEncoder, DecodeError, Name, ParseError, ProtoError, RData,
    RecordType,
};
use dns_rdata_zone::{from_zone_text, token_at_fault};
use std::alloc::Global;

// The name of these octets, or none where there are none.
pub(crate) fn origin_of(alloc: Global, octets: &[u8]) -> Result<Option<Name>, u32>
    ensures found { IfOk result (λ x. IsOrigin octets.now x) }
    ensures refused { IfErr result (λ s. (s ≡ MEMORY) ⊎ ((s ≡ ORIGIN) × IsNoOrigin octets.now)) }
{
    if octets.is_empty() {
        return Ok(None);
    }
    let mut decoder = BinDecoder::new(alloc, octets);
    match Name::read(&mut decoder) {
        Err(DecodeError::Memory) => Err(MEMORY),
        Err(_) => Err(ORIGIN),
        Ok(name) if decoder.is_empty() => Ok(Some(name)),
        Ok(_) => Err(ORIGIN),
    }
}

// Writes the uncompressed octets of a value to a buffer, and sets the count of octets. `RData::emit` would compress the
// names of CNAME, MX, NS, PTR and SOA, by pointers into the encoder's own message.
#[tactic(auto, using(dns_rdata_zone::proofs::Again::same_length))]
fn put_wire(alloc: Global, value: &RData, out: &mut [u8], count: &mut usize) -> u32
    requires { IsEmittable value.now }
    ensures ok { result ≡ OK → PutsWire value.now out.old out.new count.new }
    ensures buffer { result ≡ BUFFER → LacksRoomForWire value.now out.old out.new count.new }
    ensures too_long { result ≡ TOO_LONG → 65535 < size (whole_data value.now) }
    ensures status { (result ≡ OK) ⊎ (result ≡ MEMORY) ⊎ (result ≡ BUFFER) ⊎ (result ≡ TOO_LONG) }
    ensures kept { result ≢ OK → out.new ≡ out.old }
    ensures untold { result ≢ OK → result ≢ BUFFER → count.new ≡ count.old }
{
    // Most RDATA needs no second allocation.
    let Ok(mut octets) = Vec::with_capacity(alloc, 512) else {
        return MEMORY;
    };
    let mut encoder = BinEncoder::new(alloc, &mut octets);
    let outcome = value.emit_whole(&mut encoder);
    let octets = encoder.into_bytes().as_slice();
    match outcome {
        Ok(()) => {
            let status = told(octets.len(), out.len(), count);
            if status == OK {
                out[..octets.len()].copy_from_slice(octets);
            }
            status
        }
        Err(ProtoError::MaxBufferSizeExceeded) => TOO_LONG,
        // Memory ran out: the value can be emitted.
        Err(_) => MEMORY,
    }
}

// The value of a text in a zone file, relative names in it completed by the origin, or the status of the error.
fn read_zone_text(
    alloc: Global,
    record_type: RecordType,
    text: &[u8],
    origin: Option<&Name>,
) -> Result<RData, u32>
    ensures found { IfOk result (GivesValue (option_copied origin.entry) record_type text.now) }
    ensures emittable { IfOk result IsEmittable }
    ensures refused { IfErr result (λ s. (s ≡ 1) ⊎ ((48 ≤ s) × IsNoZoneText (option_copied origin.entry) record_type text.now s)) }
{
    match from_zone_text(alloc, record_type, text, origin) {
        Ok(value) => Ok(value),
        Err(error) => Err(status_of_text(error)),
    }
}

/// Reads the RDATA of a line of a zone file, which follows the type there (RFC 1035, section 5.1; RFC 3597, section 5;
/// RFC 9460, section 2.1), and writes its octets to a buffer, names uncompressed and case preserved. A relative name is
/// completed by the origin, whose octets are given. With no octets of an origin it is taken as fully qualified. The
/// text need not be UTF-8.
#[unsafe(no_mangle)]
pub extern "C" fn dns_rdata_parse(
    alloc: Global,
    text: &[u8],
    type_number: u16,
    origin: &[u8],
    out: &mut [u8],
    count: &mut usize,
) -> u32
    ensures ok { result ≡ OK → HasZoneData origin.now (record_type_of type_number) text.now (λ v. PutsWire v out.old out.new count.new) }
    // For the proof: these octets are the RDATA of the value.
    ensures reads { result ≡ OK → HasZoneData origin.now (record_type_of type_number) text.now (λ v. AreDataOf (whole_data v) (record_type_of type_number) v) }
    ensures buffer { result ≡ BUFFER → HasZoneData origin.now (record_type_of type_number) text.now (λ v. LacksRoomForWire v out.old out.new count.new) }
    ensures too_long { result ≡ TOO_LONG → HasZoneData origin.now (record_type_of type_number) text.now (λ v. 65535 < size (whole_data v)) }
    ensures origin { result ≡ ORIGIN → IsNoOrigin origin.now }
    ensures refused { NO_DATA_TEXT ≤ result → IsRefusedZoneText origin.now (record_type_of type_number) text.now result }
    ensures status { (result ≡ OK) ⊎ (result ≡ MEMORY) ⊎ (result ≡ BUFFER) ⊎ (result ≡ TOO_LONG) ⊎ (result ≡ ORIGIN) ⊎ (NO_DATA_TEXT ≤ result) }
    // For the proof: zone text that was printed from RDATA gives the octets of that RDATA, and is never rejected.
    ensures again { result ≡ OK → OfZoneText (record_type_of type_number) text.now (λ octets. IsPut octets out.old out.new count.new) }
    ensures never { NO_DATA_TEXT ≤ result → OfZoneText (record_type_of type_number) text.now (λ octets. ⊥) }
    ensures kept { result ≢ OK → out.new ≡ out.old }
    ensures untold { result ≢ OK → result ≢ BUFFER → count.new ≡ count.old }
{
    let origin = match origin_of(alloc, origin) {
        Ok(origin) => origin,
        Err(status) => return status,
    };
    match read_zone_text(alloc, RecordType::from(type_number), text, origin.as_ref()) {
        Err(status) => status,
        Ok(value) => put_wire(alloc, &value, out, count),
    }
}

/// What the error of a text is about. Numbers that it does not have are 0.
#[repr(C)]
#[derive(Clone, Copy)]
pub struct TextFault {
    /// The offset in the text where the token starts that the error is about. `end` is 0 if there is no such token.
    pub begin: usize,
    /// The offset where it ends.
    pub end: usize,
    /// The offset in the reason where the name of the field starts that the error is about.
    pub field: usize,
    /// How many octets the name has: 0 if the error is about no field.
    pub field_length: usize,
    /// The status with which the octets of the text are rejected, if that is the error.
    pub cause: u32,
}

// The text that an error has: the name of the field of a missing token, or what is wrong. Other errors have none.
fn reason_of(error: &ParseError) -> &'static str
    ensures { result.now ≡ reason_text error.now }
{
    match error {
        ParseError::MissingToken(text) | ParseError::Message(text) => *text,
        _ => "",
    }
}

// Where the name of the field is in the text of an error, and how many octets it has.
fn field_of(error: &ParseError) -> (usize, usize)
    ensures { IsFieldAt error.now result }
{
    let Some(name) = error.field() else {
        return (0, 0);
    };
    let len = name.len();
    match error {
        // ` token` follows the name.
        ParseError::Message(text) => (text.len().saturating_sub(len + 6), len),
        _ => (0, len),
    }
}

// The numbers of the error of a text.
fn fault_of(record_type: RecordType, text: &[u8], error: &ParseError) -> TextFault
    ensures { IsTextFault record_type text.now error.now result }
{
    let (begin, end) = match token_at_fault(record_type, text, error) {
        Some(token) => (token.start, token.end),
        None => (0, 0),
    };
    let (field, field_length) = field_of(error);
    let cause = match error {
        ParseError::Proto(ProtoError::Decode(cause)) => status_of(*cause),
        _ => OK,
    };
    TextFault {
        begin,
        end,
        field,
        field_length,
        cause,
    }
}

/// Writes why a text gives no RDATA to a buffer, with a 0 after it, and sets `count` to the length: the name of the
/// field of a missing token, or what is wrong; nothing if the status of `dns_rdata_parse` says all. Sets the token and
/// the field that the error is about. If the text gives RDATA, the status is `ABSENT`.
#[unsafe(no_mangle)]
pub extern "C" fn dns_rdata_parse_why(
    alloc: Global,
    text: &[u8],
    type_number: u16,
    origin: &[u8],
    out: &mut [u8],
    count: &mut usize,
    fault: &mut TextFault,
) -> u32
    ensures ok { result ≡ OK → IsWhyNone origin.now (record_type_of type_number) text.now
        (λ e. IsTextPut (reason_text e) out.old out.new count.new × IsTextFault (record_type_of type_number) text.now e fault.new) }
    ensures buffer { result ≡ BUFFER → IsWhyNone origin.now (record_type_of type_number) text.now
        (λ e. IsTextTooLong (reason_text e) out.old out.new count.new × IsTextFault (record_type_of type_number) text.now e fault.new) }
    ensures absent { result ≡ ABSENT → HasZoneData origin.now (record_type_of type_number) text.now (λ v. Unit {0}) }
    ensures origin { result ≡ ORIGIN → IsNoOrigin origin.now }
    ensures status { (result ≡ OK) ⊎ (result ≡ MEMORY) ⊎ (result ≡ BUFFER) ⊎ (result ≡ ORIGIN) ⊎ (result ≡ ABSENT) }
    ensures kept { result ≢ OK → out.new ≡ out.old }
    ensures untold { result ≢ OK → result ≢ BUFFER → (count.new ≡ count.old) × (fault.new ≡ fault.old) }
{
    let origin = match origin_of(alloc, origin) {
        Ok(origin) => origin,
        Err(status) => return status,
    };
    let record_type = RecordType::from(type_number);
    match from_zone_text(alloc, record_type, text, origin.as_ref()) {
        Ok(_) => ABSENT,
        Err(error) => {
            if status_of_text(error) == MEMORY {
                return MEMORY;
            }
            *fault = fault_of(record_type, text, &error);
            put_text(reason_of(&error).as_bytes(), out, count)
        }
    }
}
