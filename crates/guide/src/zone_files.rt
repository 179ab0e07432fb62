//! Record data as zone files have it.

use dns_rdata::{Name, ParseError, RData, RecordType};
use dns_rdata_zone::{ZoneText, from_zone_text};
use std::alloc::Global;

/// The data of an MX record from its text in a zone file, with a name that is relative to the origin.
pub fn read_zone_mail(alloc: Global, origin: &Name) -> Result<RData, ParseError> {
    from_zone_text(alloc, RecordType::MX, b"10 mail", Some(origin))
}

/// Prints record data as a zone file has it.
pub fn print_zone_text(rt: &impl Print, data: &RData) -> anyhow::Result<()> {
    println!(rt; "{}", ZoneText::new(data))?;
    Ok(())
}
