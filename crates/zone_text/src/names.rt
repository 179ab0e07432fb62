//! Names of numbers in a message: classes, types, opcodes, response codes and flags.

use dns_rdata::RecordType;
use std::fmt;

/// A class by its name, or `CLASS` and its number (RFC 3597, section 5).
#[derive(Clone, Copy)]
pub(crate) struct Class(pub(crate) u16);

impl fmt::Display for Class {
    fn fmt<W: fmt::Write>(&self, f: &mut fmt::Formatter<W>) -> fmt::Result {
        match self.0 {
            1 => f.write_str("IN"),
            3 => f.write_str("CH"),
            4 => f.write_str("HS"),
            254 => f.write_str("NONE"),
            255 => f.write_str("ANY"),
            number => write!(f, "CLASS{number}"),
        }
    }
}

/// A type as zone files have it: its name, or `TYPE` and its number (RFC 3597, section 5).
#[derive(Clone, Copy)]
pub(crate) struct Type(pub(crate) RecordType);

impl fmt::Display for Type {
    fn fmt<W: fmt::Write>(&self, f: &mut fmt::Formatter<W>) -> fmt::Result {
        match self.0 {
            RecordType::ZERO => f.write_str("TYPE0"),
            RecordType::ANAME => f.write_str("TYPE65305"),
            kind => write!(f, "{kind}"),
        }
    }
}

/// OPCODE of a header by the name in IANA's registry "DNS OpCodes", or its number.
#[derive(Clone, Copy)]
pub(crate) struct Opcode(pub(crate) u8);

impl fmt::Display for Opcode {
    fn fmt<W: fmt::Write>(&self, f: &mut fmt::Formatter<W>) -> fmt::Result {
        match self.0 {
            0 => f.write_str("QUERY"),
            1 => f.write_str("IQUERY"),
            2 => f.write_str("STATUS"),
            4 => f.write_str("NOTIFY"),
            5 => f.write_str("UPDATE"),
            6 => f.write_str("DSO"),
            number => write!(f, "{number}"),
        }
    }
}

// The name of a response code in IANA's registry "DNS RCODEs".
fn response_name(code: u8) -> Option<&'static str> {
    match code {
        0 => Some("NOERROR"),
        1 => Some("FORMERR"),
        2 => Some("SERVFAIL"),
        3 => Some("NXDOMAIN"),
        4 => Some("NOTIMP"),
        5 => Some("REFUSED"),
        6 => Some("YXDOMAIN"),
        7 => Some("YXRRSET"),
        8 => Some("NXRRSET"),
        9 => Some("NOTAUTH"),
        10 => Some("NOTZONE"),
        11 => Some("DSOTYPENI"),
        _ => None,
    }
}

/// RCODE of a header by its name, or its number.
#[derive(Clone, Copy)]
pub(crate) struct ResponseCode(pub(crate) u8);

impl fmt::Display for ResponseCode {
    fn fmt<W: fmt::Write>(&self, f: &mut fmt::Formatter<W>) -> fmt::Result {
        match response_name(self.0) {
            Some(name) => f.write_str(name),
            None => write!(f, "{}", self.0),
        }
    }
}

/// A text that is written if a flag is set.
#[derive(Clone, Copy)]
pub(crate) struct Flag(pub(crate) &'static str, pub(crate) bool);

impl fmt::Display for Flag {
    fn fmt<W: fmt::Write>(&self, f: &mut fmt::Formatter<W>) -> fmt::Result {
        if self.1 { f.write_str(self.0) } else { Ok(()) }
    }
}
