//! Record data read from octets and from texts, emitted and compared.

ghost use Rattle.std.specs.Prelude.{◌≡◌, []};

use anyhow::Result;
use dns_rdata::{
    BinDecoder, BinEncodable, BinEncoder, CNAME, DecodeError, MX, NS, Name, PTR, ParseError,
    ProtoResult, RData, RecordType, Restrict,
};
use std::alloc::Global;

/// The address of a record of type A that begins a message.
pub fn read_address(alloc: Global, message: &[u8]) -> Result<RData, DecodeError> {
    let mut decoder = BinDecoder::new(alloc, message);
    RData::read(&mut decoder, RecordType::A, Restrict::new(4))
}

/// The address of a record of type A that begins at an offset of a message.
pub(crate) fn read_address_at(
    alloc: Global,
    message: &[u8],
    offset: usize,
) -> Result<RData, DecodeError> {
    let mut decoder = BinDecoder::at(alloc, message, offset)?;
    RData::read(&mut decoder, RecordType::A, Restrict::new(4))
}

/// Emits the data of an MX record.
pub fn emit_mail(alloc: Global, exchange: Name, octets: &mut Vec<u8>) -> ProtoResult<()> {
    let mut encoder = BinEncoder::new(alloc, octets);
    RData::MX(MX::new(10, exchange)).emit(&mut encoder)?;
    encoder.into_bytes();
    Ok(())
}

/// The data of an MX record from its text in a zone file.
pub fn parse_mail(alloc: Global) -> Result<RData, ParseError> {
    RData::try_from_str(alloc, RecordType::MX, "10 mail.example.com.")
}

/// The data of a CNAME record from words, with a name that is relative to the origin.
pub fn parse_alias(alloc: Global, origin: &Name) -> Result<RData, ParseError> {
    RData::from_tokens(alloc, RecordType::CNAME, "www".split(' '), Some(origin))
}

/// The host that record data names, if it names one.
pub fn host_of(data: &RData) -> Option<&Name> {
    match data {
        RData::CNAME(CNAME(host)) | RData::NS(NS(host)) | RData::PTR(PTR(host)) => Some(host),
        RData::MX(mail) => Some(&mail.exchange),
        RData::SRV(service) => Some(&service.target),
        _ => None,
    }
}

/// Puts record data in the order of its canonical octets, and drops what is twice.
pub fn sort_records(records: &mut Vec<RData>) {
    records.sort_unstable();
    records.dedup();
}

/// The same, with a name that is relative to the origin.
pub fn parse_mail_of(alloc: Global, origin: &Name) -> Result<RData, ParseError> {
    RData::try_from_str_with_origin(alloc, RecordType::MX, "10 mail", Some(origin))
}

/// The octets of record data, without pointers.
pub fn octets_of(alloc: Global, data: &RData, octets: &mut Vec<u8>) -> ProtoResult<()> {
    let mut encoder = BinEncoder::new(alloc, octets);
    data.emit_whole(&mut encoder)?;
    encoder.into_bytes();
    Ok(())
}

/// Fills a buffer with the first canonical octets, and returns how many there were.
pub fn canonical_start(data: &RData, buffer: &mut [u8]) -> usize {
    data.canonical_octets().copy_to(buffer)
}
