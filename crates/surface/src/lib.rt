//! A client that names `dns_rdata` alone, by which the gate shows what is reachable through that one crate: the numbers
//! of every enum, the items of every list, addresses, contracts that name a record, and how large values are.
#![tactic(auto)]

ghost use Rattle.std.specs.Prelude.{◌≡◌, ℕ, length};

use dns_rdata::cert::{Algorithm as CertAlgorithm, CertType};
use dns_rdata::opt::EdnsCode;
use dns_rdata::sshfp::{Algorithm as SshAlgorithm, FingerprintType};
use dns_rdata::svcb::{Alpn, SvcParamKey};
use dns_rdata::tlsa::{CertUsage, Matching, Selector};
use dns_rdata::{
    A, AAAA, BinDecoder, DecodeError, MX, Name, RData, RDataRef, RecordType, RecordTypeSet,
    Restrict, SVCB, TXT,
};
use std::alloc::AllocError;
use std::collections::HashSet;
use std::net::{Ipv4Addr, Ipv6Addr};

// A value is moved at each call, so its size is part of the time of each.
const _: () = prove!(size_of::<RData>() <= 144);

const _: () = prove!(size_of::<Name>() <= 56);

/// The numbers of the enums of 16 bits.
pub fn wide_numbers(
    cert_type: CertType,
    code: EdnsCode,
    key: SvcParamKey,
    record_type: RecordType,
) -> [u16; 4] {
    [
        cert_type.number(),
        code.number(),
        key.number(),
        record_type.number(),
    ]
}

/// The numbers of the enums of 8 bits.
pub fn small_numbers(
    cert: CertAlgorithm,
    ssh: SshAlgorithm,
    fingerprint: FingerprintType,
    usage: CertUsage,
    selector: Selector,
    matching: Matching,
) -> [u8; 6] {
    [
        cert.number(),
        ssh.number(),
        fingerprint.number(),
        usage.number(),
        selector.number(),
        matching.number(),
    ]
}

/// The octets of RDATA in a message, which is not built.
pub fn looked_at<'a>(
    decoder: &mut BinDecoder<'a>,
    record_type: RecordType,
    length: u16,
) -> Result<&'a [u8], DecodeError> {
    let data = RDataRef::read(decoder, record_type, Restrict::new(length))?;
    Ok(data.octets())
}

/// Sorts views by type, and of one type as their values. Allocates nothing.
pub fn sort_views(views: &mut [RDataRef<'_>]) {
    views.sort_unstable();
}

/// Whether no earlier view is equal. Keeps the view, and makes no value.
pub fn is_new<'a>(
    seen: &mut HashSet<RDataRef<'a>>,
    view: RDataRef<'a>,
) -> Result<bool, AllocError> {
    Ok(seen.insert(view)?)
}

/// An IPv4 address.
pub fn address(a: A) -> Ipv4Addr {
    a.0
}

/// An IPv6 address.
pub fn wide_address(a: AAAA) -> Ipv6Addr {
    a.0
}

/// How many strings a text has that are not empty.
pub fn strings_in(text: &TXT) -> usize {
    let mut count = 0usize;
    for string in text.txt_data.as_slice() {
        if string.len() > 0 && count < 65535 {
            count += 1;
        }
    }
    count
}

/// How many parameters a service has.
pub fn parameters_in(service: &SVCB) -> usize {
    let mut count = 0usize;
    for _parameter in service.svc_params.as_slice() {
        if count < 65535 {
            count += 1;
        }
    }
    count
}

/// How many protocols there are.
pub fn protocols_in(alpn: &Alpn) -> usize {
    let mut count = 0usize;
    for _name in alpn.0.as_slice() {
        if count < 65535 {
            count += 1;
        }
    }
    count
}

/// How many types a set has.
pub fn types_in(set: &RecordTypeSet) -> usize {
    let mut count = 0usize;
    for _record_type in set.iter() {
        if count < 65535 {
            count += 1;
        }
    }
    count
}

/// The preference of a mail exchange.
pub fn preference(mail: &MX) -> u16
    ensures { result ≡ mail.now.preference }
{
    mail.preference
}

/// The data of a mail exchange.
pub fn exchange(preference: u16, exchange: Name) -> MX
    ensures first { result.preference ≡ preference }
    ensures second { result.exchange ≡ exchange }
{
    MX::new(preference, exchange)
}
