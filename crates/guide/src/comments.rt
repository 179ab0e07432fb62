//! The examples in the library's comments: a message that is written and read again, and record data read, emitted,
//! parsed and compared.

use crate::again::reads_again;
use crate::messages::{print_records, write_message};
use crate::parts::{is_in_zone, only_issuer, port_of, server_of};
use crate::record_data::{
    canonical_start, emit_mail, host_of, octets_of, parse_alias, parse_mail, parse_mail_of,
    read_address, read_address_at, sort_records,
};
use crate::zone_files::{print_zone_text, read_zone_mail};
use anyhow::Result;
use dns_rdata::{
    BinDecoder, Name, OPT, Octets, RData, RecordDataDecodable, RecordType, Restrict, SVCB, Strings,
    TXT,
};
use held_data::{Held, HeldList};
use std::alloc::Global;

fn print_message(rt: &(impl AllocGlobal + Print)) -> Result<()> {
    let mut octets = Vec::new(rt.alloc());
    write_message(rt.alloc(), &mut octets)?;
    println!(rt; "{}", hex::encode(rt.alloc(), octets.as_slice())?)?;
    print_records(rt, octets.as_slice())
}

fn print_text(rt: &(impl AllocGlobal + Print)) -> Result<()> {
    let mut txt_data = Strings::new(rt.alloc());
    txt_data.push(Octets::from_slice(rt.alloc(), b"v=spf1 -all")?)?;
    let text = Held(RData::TXT(TXT { txt_data }));
    println!(rt;
        "{} {} {}",
        text.0.record_type(),
        text.0.record_type().number(),
        text.0
    )?;
    Ok(())
}

fn print_mail(rt: &(impl AllocGlobal + Print)) -> Result<()> {
    let mut octets = Vec::new(rt.alloc());
    let exchange = Name::from_ascii(rt.alloc(), "mail.example.com.")?;
    emit_mail(rt.alloc(), exchange, &mut octets)?;
    println!(rt; "{}", hex::encode(rt.alloc(), octets.as_slice())?)?;
    Ok(())
}

fn print_record(rt: &impl Print, record: &RData) -> Result<()> {
    println!(rt; "{} {record}", record.record_type())?;
    if let Some(host) = host_of(record) {
        println!(rt; "host {host}")?;
    }
    Ok(())
}

// Records of three types, of which one is twice.
fn some_records(alloc: Global) -> Result<HeldList> {
    let origin = Name::from_ascii(alloc, "example.com.")?;
    let mut records = HeldList(Vec::new(alloc));
    records.0.push(parse_mail(alloc)?)?;
    records.0.push(parse_alias(alloc, &origin)?)?;
    records.0.push(read_address(alloc, &[192, 0, 2, 1])?)?;
    records
        .0
        .push(read_address_at(alloc, &[0, 192, 0, 2, 1], 1)?)?;
    records.0.push(parse_mail(alloc)?)?;
    Ok(records)
}

fn print_sorted(rt: &(impl AllocGlobal + Print)) -> Result<()> {
    let mut records = some_records(rt.alloc())?;
    sort_records(&mut records.0);
    for record in &records.0 {
        print_record(rt, record)?;
    }
    Ok(())
}

fn print_parts(rt: &(impl AllocGlobal + Print)) -> Result<()> {
    let alloc = rt.alloc();
    println!(rt;
        "{}",
        is_in_zone(alloc, "example.com.", "WWW.Example.COM.")?
    )?;
    let mut decoder = BinDecoder::new(alloc, b"\x00\x03\x00\x02ns");
    let options = OPT::read_data(&mut decoder, Restrict::new(6))?;
    println!(rt; "{:?}", server_of(&options))?;
    let mut decoder = BinDecoder::new(alloc, b"\x00\x01\x00\x00\x03\x00\x02\x01\xbb");
    let service = SVCB::read_data(&mut decoder, Restrict::new(9))?;
    println!(rt; "{:?}", port_of(&service))?;
    let issuer = Name::from_ascii(alloc, "ca.example.")?;
    println!(rt; "{}", only_issuer(alloc, issuer)?)?;
    Ok(())
}

fn print_again(rt: &(impl AllocGlobal + Print)) -> Result<()> {
    let message = b"\x00\x0a\x04mail\x07example\x03com\x00";
    let same = reads_again(rt.alloc(), message, RecordType::MX, 20)?;
    println!(rt; "{same}")?;
    Ok(())
}

fn print_zone(rt: &(impl AllocGlobal + Print)) -> Result<()> {
    let origin = Name::from_ascii(rt.alloc(), "example.com.")?;
    let mail = Held(read_zone_mail(rt.alloc(), &origin)?);
    print_zone_text(rt, &mail.0)?;
    let mail = Held(parse_mail_of(rt.alloc(), &origin)?);
    print_octets(rt, &mail)
}

// Whole, and the first four of the canonical ones.
fn print_octets(rt: &(impl AllocGlobal + Print), record: &Held) -> Result<()> {
    let mut octets = Vec::new(rt.alloc());
    octets_of(rt.alloc(), &record.0, &mut octets)?;
    println!(rt; "{}", hex::encode(rt.alloc(), octets.as_slice())?)?;
    let mut start = [0u8; 4];
    let count = canonical_start(&record.0, &mut start);
    println!(rt; "{count} {}", hex::encode(rt.alloc(), &start)?)?;
    Ok(())
}

/// Runs the examples one after the other.
pub fn main(rt: &(impl AllocGlobal + Print)) -> Result<()> {
    print_message(rt)?;
    print_text(rt)?;
    print_mail(rt)?;
    print_sorted(rt)?;
    print_parts(rt)?;
    print_again(rt)?;
    print_zone(rt)
}
