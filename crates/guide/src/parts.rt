//! Names, options, service bindings and issuers.

use dns_rdata::caa::CAA;
use dns_rdata::opt::{EdnsCode, EdnsOption};
use dns_rdata::svcb::{SvcParamKey, SvcParamValue};
use dns_rdata::{Name, OPT, ProtoResult, SVCB};
use std::alloc::{AllocError, Global};

/// Whether a host is in a zone, whatever the case of the letters.
pub fn is_in_zone(alloc: Global, zone: &str, host: &str) -> ProtoResult<bool> {
    let zone = Name::from_ascii(alloc, zone)?;
    let host = Name::from_ascii(alloc, host)?;
    Ok(zone.zone_of(&host))
}

/// The identifier of the name server (RFC 5001), where it is among the options.
pub fn server_of(options: &OPT) -> Option<&[u8]> {
    match options.get(EdnsCode::NSID) {
        Some(EdnsOption::NSID(payload)) => Some(payload.as_ref()),
        _ => None,
    }
}

/// The port of a service (RFC 9460, 7.2), where the binding names one.
pub fn port_of(service: &SVCB) -> Option<u16> {
    match service.get(SvcParamKey::Port)? {
        SvcParamValue::Port(port) => Some(*port),
        _ => None,
    }
}

/// No one but this issuer may issue certificates for the domain (RFC 8659, 4.2).
pub fn only_issuer(alloc: Global, issuer: Name) -> Result<CAA, AllocError> {
    CAA::new_issue(true, Some(issuer), Vec::new(alloc))
}
