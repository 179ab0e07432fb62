//! Copies records into another message, with names compressed there, after the two octets of its length for TCP.

use anyhow::Result;
use dns_rdata::{BinEncodable, BinEncoder, Name, ProtoResult, RData, RecordType};
use dns_rdata_zone::from_zone_text;
use std::alloc::Global;

const ANSWERS: [&str; 2] = ["10 mail.example.com.", "20 mail2.example.com."];

// A record: owner, type, class IN, TTL, RDLENGTH and RDATA (RFC 1035, section 4.1.3).
fn emit_record(encoder: &mut BinEncoder<'_>, owner: &Name, data: &RData) -> ProtoResult<()> {
    owner.emit(encoder)?;
    data.record_type().emit(encoder)?;
    encoder.emit_u16(1)?;
    encoder.emit_u32(3600)?;
    let length = encoder.place()?;
    data.emit(encoder)?;
    let count = encoder.len_since_place(&length);
    encoder.replace(length, count as u16);
    Ok(())
}

fn emit_answers(alloc: Global, encoder: &mut BinEncoder<'_>) -> Result<()> {
    let owner = Name::from_ascii(alloc, "example.com.")?;
    for number in [1234, 0x8400, 0, 2, 0, 0] {
        encoder.emit_u16(number)?;
    }
    for text in ANSWERS.iter() {
        let data = from_zone_text(alloc, RecordType::MX, text.as_bytes(), None)?;
        emit_record(encoder, &owner, &data)?;
    }
    Ok(())
}

/// The program.
pub fn main(rt: &(impl AllocGlobal + Print)) -> Result<()> {
    let mut octets = Vec::new(rt.alloc());
    octets.extend_from_slice(&[0, 0])?;
    // The message begins where the vector ends, so pointers count from its first octet.
    let mut encoder = BinEncoder::new(rt.alloc(), &mut octets);
    emit_answers(rt.alloc(), &mut encoder)?;
    let length = encoder.len();
    encoder.into_bytes();
    if octets.len() >= 2 {
        octets[..2].copy_from_slice(&(length as u16).to_be_bytes());
    }
    println!(rt; "{}", hex::encode(rt.alloc(), octets.as_slice())?)?;
    Ok(())
}
