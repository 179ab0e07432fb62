//! Reads the options of an OPT record (RFC 6891), changes them, and writes them again.

use anyhow::Result;
use dns_rdata::opt::{ClientSubnet, EdnsCode, EdnsOption, OPT};
use dns_rdata::{BinDecoder, BinEncodable, BinEncoder, RecordDataDecodable, Restrict};
use std::alloc::Global;
use std::net::{IpAddr, Ipv4Addr};

// A cookie of a client (RFC 7873), and a subnet of 24 bits (RFC 7871).
const RDATA: [u8; 23] =
    *b"\x00\x0a\x00\x08\x0b\x64\xb4\xdc\xd7\xb0\xcc\x8f\x00\x08\x00\x07\x00\x01\x18\x00\xc0\x00\x02";

fn print_options(rt: &impl Print, options: &OPT) -> Result<()> {
    for (code, option) in options.iter() {
        match option {
            EdnsOption::Subnet(subnet) => {
                println!(rt; "subnet {}/{}", subnet.addr(), subnet.source_prefix())?
            }
            _ => println!(rt; "{code:?}")?,
        }
    }
    Ok(())
}

fn emitted(alloc: Global, options: &OPT) -> Result<Vec<u8>> {
    let mut octets = Vec::new(alloc);
    let mut encoder = BinEncoder::new(alloc, &mut octets);
    options.emit(&mut encoder)?;
    encoder.into_bytes();
    Ok(octets)
}

/// The program.
pub fn main(rt: &(impl AllocGlobal + Print)) -> Result<()> {
    let mut decoder = BinDecoder::new(rt.alloc(), &RDATA);
    let mut options = OPT::read_data(&mut decoder, Restrict::new(23))?;
    print_options(rt, &options)?;

    // What a resolver sends on: fewer bits of the client's subnet (RFC 7871, section 7.1.1), and no cookie.
    let subnet = ClientSubnet::new(IpAddr::V4(Ipv4Addr::new(192, 0, 0, 0)), 20, 0);
    options.replace(EdnsOption::Subnet(subnet))?;
    options.remove(EdnsCode::Cookie);
    println!(rt; "cookie: {}", options.contains(EdnsCode::Cookie))?;
    println!(rt; "{options}")?;
    let octets = emitted(rt.alloc(), &options)?;
    println!(rt; "{}", hex::encode(rt.alloc(), octets.as_slice())?)?;
    Ok(())
}
