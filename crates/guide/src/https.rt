//! Builds an HTTPS record (RFC 9460), and prints it as in a zone file.

use anyhow::Result;
use dns_rdata::a::A;
use dns_rdata::svcb::{Alpn, IpHint, SvcParamValue};
use dns_rdata::{HTTPS, Items, Name, RData, SVCB};
use dns_rdata_zone::ZoneText;
use std::alloc::Global;

// The parameters may be inserted in any order: each goes to the index of its key.
fn service(alloc: Global) -> Result<SVCB> {
    let target = Name::from_ascii(alloc, "www.example.com.")?;
    let mut service = SVCB::new(1, target, Vec::new(alloc));
    let mut addresses = Items::new(alloc);
    addresses.push(A::new(192, 0, 2, 1))?;
    service.insert(SvcParamValue::Ipv4Hint(IpHint(addresses)))?;
    service.insert(SvcParamValue::Port(8443))?;
    service.insert(SvcParamValue::Alpn(Alpn::from_strs(alloc, &["h2", "h3"])?))?;
    Ok(service)
}

/// The program.
pub fn main(rt: &(impl AllocGlobal + Print)) -> Result<()> {
    let data = RData::from(HTTPS(service(rt.alloc())?));
    println!(rt; "{}", ZoneText::new(&data))?;
    Ok(())
}
