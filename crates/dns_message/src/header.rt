//! The header of a message.

ghost use Rattle.std.specs.Prelude.{◌≤◌, length};
ghost use Rattle.dns_message.specs.Headers.{IsHeader};

use crate::numbers::{is_set, number_at};

// How many octets the header has.
pub(crate) const HEADER_OCTETS: usize = 12;

/// The header of a message (RFC 1035, section 4.1.1). The bits AD and CD are those of RFC 4035, section 3.2.
///
///       0  1  2  3  4  5  6  7  8  9  0  1  2  3  4  5
///     +--+--+--+--+--+--+--+--+--+--+--+--+--+--+--+--+
///     |                      ID                       |
///     +--+--+--+--+--+--+--+--+--+--+--+--+--+--+--+--+
///     |QR|   OPCODE  |AA|TC|RD|RA| Z|AD|CD|   RCODE   |
///     +--+--+--+--+--+--+--+--+--+--+--+--+--+--+--+--+
///     |                    QDCOUNT                    |
///     +--+--+--+--+--+--+--+--+--+--+--+--+--+--+--+--+
///     |                    ANCOUNT                    |
///     +--+--+--+--+--+--+--+--+--+--+--+--+--+--+--+--+
///     |                    NSCOUNT                    |
///     +--+--+--+--+--+--+--+--+--+--+--+--+--+--+--+--+
///     |                    ARCOUNT                    |
///     +--+--+--+--+--+--+--+--+--+--+--+--+--+--+--+--+
///
/// The bit Z is not looked at.
#[derive(Clone, Copy, Debug, PartialEq, Eq)]
pub struct Header {
    /// ID: the number that a response repeats from its query.
    pub id: u16,
    /// QR: the message is a response.
    pub response: bool,
    /// OPCODE, 0 to 15: the kind of query.
    pub opcode: u8,
    /// AA: the server is an authority for the name.
    pub authoritative: bool,
    /// TC: the message was truncated.
    pub truncated: bool,
    /// RD: recursion is desired.
    pub recursion_desired: bool,
    /// RA: recursion is available.
    pub recursion_available: bool,
    /// AD: the data is authentic (RFC 4035, section 3.2.3).
    pub authentic_data: bool,
    /// CD: checking is disabled (RFC 4035, section 3.2.2).
    pub checking_disabled: bool,
    /// RCODE, 0 to 15: the response code, or its low four bits if the message has EDNS.
    pub rcode: u8,
    /// QDCOUNT: how many questions the message has.
    pub question_count: u16,
    /// ANCOUNT: how many answers it has. UPDATE calls them prerequisites (RFC 2136, section 2.4).
    pub answer_count: u16,
    /// NSCOUNT: how many authorities it has. UPDATE calls them updates (RFC 2136, section 2.5).
    pub authority_count: u16,
    /// ARCOUNT: how many additional records it has.
    pub additional_count: u16,
}

// The header that a message begins with.
#[inline]
pub(crate) fn header_of(message: &[u8]) -> Header
    requires { 12 ≤ length message.now }
    ensures { IsHeader message.now result }
{
    let id = number_at(message, 0);
    let flags = number_at(message, 2);
    let bits = flags as u32;
    let response = is_set(bits, 15);
    let opcode = (flags >> 11 & 0xf) as u8;
    let authoritative = is_set(bits, 10);
    let truncated = is_set(bits, 9);
    let recursion_desired = is_set(bits, 8);
    let recursion_available = is_set(bits, 7);
    let authentic_data = is_set(bits, 5);
    let checking_disabled = is_set(bits, 4);
    let rcode = (flags & 0xf) as u8;
    let question_count = number_at(message, 4);
    let answer_count = number_at(message, 6);
    let authority_count = number_at(message, 8);
    let additional_count = number_at(message, 10);
    Header {
        id,
        response,
        opcode,
        authoritative,
        truncated,
        recursion_desired,
        recursion_available,
        authentic_data,
        checking_disabled,
        rcode,
        question_count,
        answer_count,
        authority_count,
        additional_count,
    }
}
