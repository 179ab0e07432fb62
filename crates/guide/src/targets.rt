//! Prints the name that each of some records points to, and whether it is in a zone.

use anyhow::Result;
use dns_rdata::{Name, RData, RecordType};
use dns_rdata_zone::from_zone_text;

const RECORDS: [(RecordType, &str); 5] = [
    (RecordType::NS, "ns1.example.com."),
    (RecordType::MX, "10 mail"),
    (RecordType::SRV, "0 5 5060 sip.example.net."),
    (RecordType::HTTPS, "1 www alpn=h2"),
    (RecordType::A, "192.0.2.1"),
];

// A name is in a zone if it is the zone's name or below it, whatever the case of its letters.
fn print_target(rt: &impl Print, zone: &Name, data: &RData) -> Result<()> {
    match data.target() {
        Some(target) if zone.zone_of(target) => println!(rt; "{target}, in the zone")?,
        Some(target) => println!(rt; "{target}, elsewhere")?,
        None => println!(rt; "{} points to no name", data.record_type())?,
    }
    Ok(())
}

/// The program.
pub fn main(rt: &(impl AllocGlobal + Print)) -> Result<()> {
    let zone = Name::from_ascii(rt.alloc(), "Example.COM.")?;
    for (record_type, text) in RECORDS.iter() {
        let data = from_zone_text(rt.alloc(), *record_type, text.as_bytes(), Some(&zone))?;
        print_target(rt, &zone, &data)?;
    }
    Ok(())
}
