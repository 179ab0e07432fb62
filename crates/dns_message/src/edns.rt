//! EDNS: what an OPT record says besides its options.

ghost use Rattle.dns_message.specs.OptRecords.{IsEdns};

use crate::numbers::is_set;

/// What an OPT record has in place of class and TTL (RFC 6891, sections 6.1.2 and 6.1.3).
///
///     +--+--+--+--+--+--+--+--+
///     |    UDP PAYLOAD SIZE   |   the class, u16
///     +--+--+--+--+--+--+--+--+
///     |    EXTENDED RCODE     |   the TTL from its highest bit: 8 bits
///     +--+--+--+--+--+--+--+--+
///     |        VERSION        |   8 bits
///     +--+--+--+--+--+--+--+--+
///     |DO|         Z          |   1 bit and 15 bits
///     +--+--+--+--+--+--+--+--+
#[derive(Clone, Copy, Debug, PartialEq, Eq)]
pub struct Edns {
    /// How many octets of a UDP message the sender can take. Values below 512 mean 512 (RFC 6891, section 6.2.3).
    pub udp_payload_size: u16,
    /// The high eight bits of the response code, whose low four are RCODE of the header.
    pub extended_rcode: u8,
    /// The version, 0 for that of RFC 6891.
    pub version: u8,
    /// DO: DNSSEC records are wanted (RFC 3225).
    pub dnssec_ok: bool,
    /// The other 15 bits, Z of RFC 6891, as they are encoded. The highest, 0x4000, is CO (RFC 9824); IANA's registry "EDNS
    /// Header Flags" lists those with a meaning.
    pub reserved: u16,
}

// What a class and a TTL say of an OPT record.
pub(crate) fn edns_of(class: u16, ttl: u32) -> Edns
    ensures { IsEdns class ttl result }
{
    let dnssec_ok = is_set(ttl, 15);
    Edns {
        udp_payload_size: class,
        extended_rcode: (ttl >> 24) as u8,
        version: (ttl >> 16 & 0xff) as u8,
        dnssec_ok,
        reserved: (ttl & 0x7fff) as u16,
    }
}
