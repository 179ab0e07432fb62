//! The result of a request.

ghost use Rattle.std.specs.Prelude.{◌≡◌, ◌≢◌, ◌≤◌, ◌<◌, ◌⊎◌, ℕ, List, [], codes, length as size, string_bytes, IfOk, IfErr, OnOk, MatchOption};
ghost use Rattle.std.specs.Io.KnownBytes.{Appends};
ghost use Rattle.dns_types.specs.declared.error.DecodeError.{DecodeError as DecodeErrorValue};
ghost use Rattle.dns_names_wire.specs.Terms.{UnlessMemory};
ghost use Rattle.dns_rdata.specs.Data.{Fills, NoValue, data_octets};
ghost use Rattle.rdata_command.specs.Report.{EmitsFresh, EmitsNothing, IsEmittedText, IsReport, Printed, printed_text, octets_text};

use crate::request::Request;
use dns_rdata::{
    BinDecoder, BinEncodable, BinEncoder, DecodeError, ProtoError, RData, RecordType, Restrict,
};
use held_data::Held;
use std::alloc::{AllocError, Global};
use std::io;

// Reads the data of a record at an offset of a message.
fn value_at(
    alloc: Global,
    message: &[u8],
    offset: usize,
    record_type: RecordType,
    length: u16,
) -> Result<RData, DecodeError>
    requires { offset ≤ size message.now }
    ensures found { IfOk result (λ v. Fills message.now offset length record_type v) }
    ensures refused { IfErr result (λ e. UnlessMemory e (NoValue message.now offset length record_type)) }
{
    let mut decoder = BinDecoder::new(alloc, message);
    let _before = decoder.read_slice(offset)?;
    RData::read(&mut decoder, record_type, Restrict::new(length))
}

/// Reads the RDATA of a record at an offset of a message, and holds it.
pub fn read_at(
    alloc: Global,
    message: &[u8],
    offset: usize,
    record_type: RecordType,
    length: u16,
) -> Result<Held, DecodeError>
    requires { offset ≤ size message.now }
    ensures found { IfOk result (λ v. Fills message.now offset length record_type v.0) }
    ensures refused { IfErr result (λ e. UnlessMemory e (NoValue message.now offset length record_type)) }
{
    Ok(Held(value_at(alloc, message, offset, record_type, length)?))
}

/// Reads the RDATA that is asked for, and holds it.
pub fn read_request(alloc: Global, request: &Request) -> Result<Held, DecodeError>
    requires { request.now.offset ≤ size request.now.message.items }
    ensures found { IfOk result (λ v. Fills request.now.message.items request.now.offset request.now.length request.now.record_type v.0) }
    ensures refused { IfErr result (λ e. UnlessMemory e
        (NoValue request.now.message.items request.now.offset request.now.length request.now.record_type)) }
{
    read_at(
        alloc,
        request.message.as_slice(),
        request.offset,
        request.record_type,
        request.length,
    )
}

// Writes the octets of a value to an empty vector.
fn emit_to(alloc: Global, octets: &mut Vec<u8>, value: &RData) -> Result<(), ProtoError>
    requires { octets.old.items ≡ [] }
    ensures ok { OnOk result (EmitsFresh value.now octets.new.items) }
    ensures refused { IfErr result (λ e. e ≢ ProtoError.Memory → EmitsNothing value.now) }
{
    let mut encoder = BinEncoder::new(alloc, octets);
    let outcome = value.emit(&mut encoder);
    let _written = encoder.into_bytes();
    outcome
}

// The octets of a value at the front of a message; none where it is rejected for another cause than memory.
fn emitted(alloc: Global, value: &RData) -> Result<Option<Vec<u8>>, AllocError>
    ensures { IfOk result (λ found. MatchOption found (EmitsNothing value.now) (λ octets. EmitsFresh value.now octets.items)) }
{
    let mut octets = Vec::new(alloc);
    match emit_to(alloc, &mut octets, value) {
        Ok(()) => Ok(Some(octets)),
        Err(ProtoError::Memory) => Err(AllocError),
        Err(_) => Ok(None),
    }
}

// Octets in hexadecimal, or a dash.
fn spelled(alloc: Global, octets: &[u8]) -> Result<String, AllocError>
    ensures { IfOk result (λ text. string_bytes text ≡ octets_text octets.now) }
{
    if octets.is_empty() {
        String::from_str(alloc, "-")
    } else {
        hex::encode(alloc, octets)
    }
}

fn emitted_text(alloc: Global, value: &RData) -> Result<String, AllocError>
    ensures { IfOk result (λ text. IsEmittedText value.now (string_bytes text)) }
{
    match emitted(alloc, value)? {
        None => String::from_str(alloc, "none"),
        Some(octets) => spelled(alloc, octets.as_slice()),
    }
}

// The canonical octets of a value.
fn canonical(alloc: Global, value: &RData) -> Result<Vec<u8>, AllocError>
    ensures { IfOk result (λ octets. octets.items ≡ data_octets value.now) }
{
    let mut octets = Vec::new(alloc);
    let mut left = value.canonical_octets();
    'octets: while let Some(octet) = left.next() {
        octets.push(octet)?;
    }
    Ok(octets)
}

fn canonical_text(alloc: Global, value: &RData) -> Result<String, AllocError>
    ensures { IfOk result (λ text. string_bytes text ≡ octets_text (data_octets value.now)) }
{
    let octets = canonical(alloc, value)?;
    spelled(alloc, octets.as_slice())
}

fn value_text(alloc: Global, value: &RData) -> Result<String, AllocError>
    ensures { IfOk result (λ text. string_bytes text ≡ printed_text value.now) }
{
    match value {
        RData::OPT(_) => String::from_str(alloc, "none"),
        value => value.to_string(alloc),
    }
}

/// Returns the four lines that are printed for a value. Fails only if an allocation fails.
#[tactic(auto, using(std::proofs::Common::append_assoc))]
pub fn lines(alloc: Global, record_type: RecordType, value: &RData) -> Result<String, AllocError>
    ensures { IfOk result (λ lines. IsReport record_type value.now (string_bytes lines)) }
{
    let number = u16::from(record_type);
    let text = value_text(alloc, value)?;
    let canonical = canonical_text(alloc, value)?;
    let emitted = emitted_text(alloc, value)?;
    format!(in alloc; "type {number}\ntext {text}\ncanonical {canonical}\nemitted {emitted}\n")
}

/// Writes a text, and returns the status; 4 if writing fails.
pub fn say<W: io::Write>(out: &mut W, text: &str, status: u8) -> u8
    ensures { (result ≡ 4) ⊎ ((result ≡ status) × Appends (W.contents out.old) (W.contents out.new) text.now) }
{
    match out.write_all(text.as_bytes()) {
        Ok(()) => status,
        Err(_) => 4,
    }
}

/// Writes `refused`, and returns the status.
pub fn reject<W: io::Write>(out: &mut W) -> u8
    ensures { (result ≡ 4) ⊎ ((result ≡ 1) × Appends (W.contents out.old) (W.contents out.new) (codes "refused\n")) }
{
    say(out, "refused\n", 1)
}

/// Reads what is asked for, writes the result, and returns the status: 0 with four lines if a value fills the octets, 1
/// if none does, 3 if an allocation fails, 4 if writing fails.
pub fn serve<W: io::Write>(alloc: Global, request: &Request, out: &mut W) -> u8
    requires { request.now.offset ≤ size request.now.message.items }
    ensures status { (result ≡ 0) ⊎ (result ≡ 1) ⊎ (result ≡ 3) ⊎ (result ≡ 4) }
    ensures printed { result ≡ 0 → Printed request.now.message.items request.now.offset request.now.length request.now.record_type (W.contents out.old)
        (W.contents out.new) }
    ensures refused { result ≡ 1 → NoValue request.now.message.items request.now.offset request.now.length request.now.record_type
        × Appends (W.contents out.old) (W.contents out.new) (codes "refused\n") }
    ensures memory { result ≡ 3 → Appends (W.contents out.old) (W.contents out.new) (codes "memory\n") }
{
    match read_request(alloc, request) {
        Err(DecodeError::Memory) => say(out, "memory\n", 3),
        Err(_) => reject(out),
        Ok(value) => match lines(alloc, request.record_type, &value.0) {
            Err(_) => say(out, "memory\n", 3),
            Ok(text) => say(out, text.as_str(), 0),
        },
    }
}
