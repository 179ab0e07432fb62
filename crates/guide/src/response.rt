//! Prints every record of a DNS response, and goes on after a record whose RDATA is damaged.

use anyhow::Result;
use dns_message::{MessageRef, RecordRef};
use dns_rdata_zone::ZoneText;

// A response to `example.com. IN MX` with three answers. The second one has an MX record of three octets, which is damaged.
pub const RESPONSE: [u8; 87] = *b"\x04\xd2\x81\x80\x00\x01\x00\x03\x00\x00\x00\x00\
    \x07example\x03com\x00\x00\x0f\x00\x01\
    \xc0\x0c\x00\x0f\x00\x01\x00\x00\x0e\x10\x00\x09\x00\x0a\x04mail\xc0\x0c\
    \xc0\x0c\x00\x0f\x00\x01\x00\x00\x0e\x10\x00\x03\x00\x14\x05\
    \xc0\x0c\x00\x0f\x00\x01\x00\x00\x0e\x10\x00\x0a\x00\x1e\x05mail2\xc0\x0c";

// Prints a record. It borrows from the message, which allocates nothing; `to_rdata` makes a value, which may.
fn print_record(rt: &(impl AllocGlobal + Print), record: &RecordRef<'_>) -> Result<()> {
    let (owner, ttl, record_type) = (record.owner, record.ttl, record.record_type);
    match record.rdata {
        Some(view) => {
            let data = view.to_rdata(rt.alloc())?;
            println!(rt; "{owner} {ttl} {record_type} {}", ZoneText::new(&data))?;
        }
        None => println!(rt; "{owner} {ttl} {record_type} without data")?,
    }
    Ok(())
}

/// The program.
pub fn main(rt: &(impl AllocGlobal + Print)) -> Result<()> {
    let message = MessageRef::read(&RESPONSE)?;
    for item in message.records()? {
        match item {
            Ok(record) => print_record(rt, &record)?,
            Err(error) => println!(rt; "rejected: {error}")?,
        }
    }
    Ok(())
}
