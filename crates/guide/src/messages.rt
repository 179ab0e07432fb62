//! A message of a header and two records, written and read again.

ghost use Rattle.std.specs.Prelude.{◌≡◌, []};

use anyhow::Result;
use dns_rdata::{
    A, BinDecodable, BinDecoder, BinEncodable, BinEncoder, CNAME, DecodeError, Name, ProtoResult,
    RData, RecordType,
};
use held_data::Held;
use std::alloc::Global;

// The class of the internet (RFC 1035, 3.2.4).
const IN: u16 = 1;

/// Appends a record: owner, type, class, time to live, and the data after its length (RFC 1035, 4.1.3).
fn emit_record(
    encoder: &mut BinEncoder<'_>,
    owner: &Name,
    ttl: u32,
    rdata: &RData,
) -> ProtoResult<()> {
    owner.emit(encoder)?;
    rdata.record_type().emit(encoder)?;
    encoder.emit_u16(IN)?;
    encoder.emit_u32(ttl)?;
    let place = encoder.place()?;
    rdata.emit(encoder)?;
    let length = encoder.len_since_place(&place);
    encoder.replace(place, length as u16);
    Ok(())
}

fn emit_alias(encoder: &mut BinEncoder<'_>, owner: &Name, host: Name) -> ProtoResult<()> {
    let alias = Held(RData::CNAME(CNAME(host)));
    emit_record(encoder, owner, 300, &alias.0)
}

fn emit_address(encoder: &mut BinEncoder<'_>, owner: &Name) -> ProtoResult<()> {
    let address = Held(RData::A(A::new(192, 0, 2, 1)));
    emit_record(encoder, owner, 300, &address.0)
}

/// An alias and the address of its host, after a header (RFC 1035, 4.1.1). The second owner and the end of the
/// alias's data are pointers to names that are in the message already.
pub fn write_message(alloc: Global, octets: &mut Vec<u8>) -> ProtoResult<()>
    requires { octets.old.items ≡ [] }
{
    let owner = Name::from_ascii(alloc, "www.example.com.")?;
    let host = Name::from_ascii(alloc, "host.example.com.")?;
    let mut encoder = BinEncoder::new(alloc, octets);
    for number in [1, 0x8400, 0, 2, 0, 0] {
        encoder.emit_u16(number)?;
    }
    emit_alias(&mut encoder, &owner, host.clone()?)?;
    emit_address(&mut encoder, &host)?;
    encoder.into_bytes();
    Ok(())
}

/// The number of answers that the header of a message gives (RFC 1035, 4.1.1).
pub fn count_answers(alloc: Global, message: &[u8]) -> Result<u16, DecodeError> {
    let mut decoder = BinDecoder::new(alloc, message);
    decoder.read_slice(6)?;
    let answers = decoder.read_u16()?.unverified();
    Ok(answers)
}

/// Prints the records after the header, as many as it says.
pub fn print_records(rt: &(impl AllocGlobal + Print), message: &[u8]) -> Result<()> {
    let answers = count_answers(rt.alloc(), message)?;
    let mut decoder = BinDecoder::new(rt.alloc(), message);
    decoder.read_slice(12)?;
    for _ in 0..answers {
        let owner = Name::read(&mut decoder)?;
        let kind = RecordType::read(&mut decoder)?;
        decoder.read_slice(6)?;
        let length = decoder.read_u16()?;
        let rdata = Held(RData::read(&mut decoder, kind, length)?);
        println!(rt; "{owner} {kind} {}", rdata.0)?;
    }
    Ok(())
}
