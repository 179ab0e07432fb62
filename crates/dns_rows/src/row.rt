//! The row of each type: its fields in order.
//!
//! The definitions read these very statics (`specs/Table.antt`), so that code and definition have one table.

ghost use Rattle.std.specs.Prelude.{◌≡◌};
ghost use Rattle.dns_rows.specs.{Fronts.HasFront, Table.row_value, Table.table};

use dns_fields::Kind;
use dns_types::RecordType;

/// What is asked of a field beyond its kind.
#[derive(Clone, Copy, Debug, PartialEq, Eq)]
pub enum Rule {
    /// Nothing.
    Free,
    /// Octets that are read by so many at a time: an octet after another (A), or two (AAAA). It tells how far a decoder
    /// gets if the message ends within them.
    Steps(u8),
    /// The RDATA has at least so many octets, which is tested before anything is read (CERT).
    AtLeast(u8),
    /// A character string of letters and digits (NAPTR's flags: RFC 3403, 4.1).
    Letters,
    /// A character string of 1 to 15 letters and digits (CAA's tag: RFC 6844, 5.1, which names the limit).
    Tag,
    /// A number of two octets that has none of the bits 2 to 7 (CSYNC's flags: RFC 7477, 2.1.1.2).
    KnownFlags,
    /// At least one octet (CERT's certificate).
    Some,
    /// Parameters in which the path of DNS queries is UTF-8 (RFC 9461, 5).
    Paths,
}

/// A field of a row.
#[derive(Clone, Copy, Debug, PartialEq, Eq)]
pub struct Part {
    /// How its octets are laid out.
    pub kind: Kind,
    /// What is asked of it besides.
    pub rule: Rule,
}

/// The numbers at the front of a row that nothing more is asked of.
#[derive(Clone, Copy, Debug, PartialEq, Eq)]
pub struct Front {
    /// How many they are.
    pub count: u8,
    /// How many octets they have.
    pub octets: u8,
}

/// What the RDATA of a type is.
#[derive(Clone, Copy, Debug)]
pub enum Row {
    /// RDATA is never read: a type that only questions have (RFC 1035, 3.2.3; RFC 1995, 2).
    Unread,
    /// A type without a format of its own: any octets (RFC 3597, 4).
    Formatless,
    /// These fields, one after the other.
    Fields(&'static [Part], Front),
}

macro_rules! part {
    ($kind:ident) => { part!(Kind::$kind, Free) };
    ($kind:ident, $rule:ident) => { part!(Kind::$kind, $rule) };
    ($kind:ident ( $size:expr )) => { part!(Kind::$kind($size), Free) };
    ($kind:ident ( $size:expr ), $rule:ident) => { part!(Kind::$kind($size), $rule) };
    ($kind:ident ( $size:expr ), $rule:ident ( $number:expr )) => {
        Part { kind: Kind::$kind($size), rule: Rule::$rule($number) }
    };
    ($kind:expr, $rule:ident) => { Part { kind: $kind, rule: Rule::$rule } };
}

// The fields of a row, and how many numbers that nothing more is asked of are at its front, of how many octets together.
macro_rules! fields {
    ($row:ident) => { fields!($row, 0, 0) };
    ($row:ident, $count:expr, $octets:expr) => { Row::Fields(&$row, Front { count: $count, octets: $octets }) };
}

/// A: an IPv4 address (RFC 1035, 3.4.1).
pub static A: [Part; 1] = [part!(Octets(4), Steps(1))];

/// AAAA: an IPv6 address (RFC 3596, 2.2).
pub static AAAA: [Part; 1] = [part!(Octets(16), Steps(2))];

/// CAA: flags, tag, value (RFC 8659, 4.1).
pub static CAA: [Part; 3] = [part!(Number(1)), part!(CharacterString, Tag), part!(Rest)];

/// CERT: type, key tag, algorithm, certificate (RFC 4398, 2).
pub static CERT: [Part; 4] = [
    part!(Number(2), AtLeast(6)),
    part!(Number(2)),
    part!(Number(1)),
    part!(Rest, Some),
];

/// CSYNC: serial, flags, types (RFC 7477, 2.1).
pub static CSYNC: [Part; 3] = [
    part!(Number(4)),
    part!(Number(2), KnownFlags),
    part!(Bitmap),
];

/// HINFO: machine, system (RFC 1035, 3.3.2).
pub static HINFO: [Part; 2] = [part!(CharacterString), part!(CharacterString)];

/// MX: preference, exchange (RFC 1035, 3.3.9).
pub static MX: [Part; 2] = [part!(Number(2)), part!(Name)];

/// CNAME, NS, PTR (RFC 1035, 3.3.1, 3.3.11 and 3.3.12) and ANAME: a name.
pub static NAME: [Part; 1] = [part!(Name)];

/// NAPTR: order, preference, flags, services, regexp, replacement (RFC 3403, 4.1).
pub static NAPTR: [Part; 6] = [
    part!(Number(2)),
    part!(Number(2)),
    part!(CharacterString, Letters),
    part!(CharacterString),
    part!(CharacterString),
    part!(Name),
];

/// NULL: octets without a form (RFC 1035, 3.3.10).
pub static NULL: [Part; 1] = [part!(Rest)];

/// OPENPGPKEY: a key (RFC 7929, 2.1).
pub static OPENPGPKEY: [Part; 1] = [part!(Rest)];

/// OPT: options (RFC 6891, 6.1.2).
pub static OPT: [Part; 1] = [part!(Options)];

/// SOA: mname, rname, serial, refresh, retry, expire, minimum (RFC 1035, 3.3.13).
pub static SOA: [Part; 7] = [
    part!(Name),
    part!(Name),
    part!(Number(4)),
    part!(Number(4)),
    part!(Number(4)),
    part!(Number(4)),
    part!(Number(4)),
];

/// SRV: priority, weight, port, target (RFC 2782).
pub static SRV: [Part; 4] = [
    part!(Number(2)),
    part!(Number(2)),
    part!(Number(2)),
    part!(Name),
];

/// SSHFP: algorithm, fingerprint type, fingerprint (RFC 4255, 3.1).
pub static SSHFP: [Part; 3] = [part!(Number(1)), part!(Number(1)), part!(Rest)];

/// SVCB and HTTPS: priority, target name, parameters (RFC 9460, 2.2).
pub static SVCB: [Part; 3] = [part!(Number(2)), part!(Name), part!(Parameters, Paths)];

/// TLSA (RFC 6698, 2.1) and SMIMEA (RFC 8162, 2): usage, selector, matching type, data.
pub static TLSA: [Part; 4] = [
    part!(Number(1)),
    part!(Number(1)),
    part!(Number(1)),
    part!(Rest),
];

/// TXT: character strings (RFC 1035, 3.3.14).
pub static TXT: [Part; 1] = [part!(CharacterStrings)];

/// The type 0: no octets.
pub static ZERO: [Part; 0] = [];

/// Returns the row of a type: of each type number there is one.
pub fn row_of(record_type: RecordType) -> Row
    ensures row { row_value result ≡ table record_type }
    ensures front { HasFront result }
{
    match record_type {
        RecordType::A => fields!(A),
        RecordType::AAAA => fields!(AAAA),
        RecordType::ANAME => fields!(NAME),
        RecordType::ANY => Row::Unread,
        RecordType::AXFR => Row::Unread,
        RecordType::CAA => fields!(CAA, 1, 1),
        RecordType::CERT => fields!(CERT, 3, 5),
        RecordType::CNAME => fields!(NAME),
        RecordType::CSYNC => fields!(CSYNC, 1, 4),
        RecordType::HINFO => fields!(HINFO),
        RecordType::HTTPS => fields!(SVCB, 1, 2),
        RecordType::IXFR => Row::Unread,
        RecordType::MX => fields!(MX, 1, 2),
        RecordType::NAPTR => fields!(NAPTR, 2, 4),
        RecordType::NS => fields!(NAME),
        RecordType::NULL => fields!(NULL),
        RecordType::OPENPGPKEY => fields!(OPENPGPKEY),
        RecordType::OPT => fields!(OPT),
        RecordType::PTR => fields!(NAME),
        RecordType::SMIMEA => fields!(TLSA, 3, 3),
        RecordType::SOA => fields!(SOA),
        RecordType::SRV => fields!(SRV, 3, 6),
        RecordType::SSHFP => fields!(SSHFP, 2, 2),
        RecordType::SVCB => fields!(SVCB, 1, 2),
        RecordType::TLSA => fields!(TLSA, 3, 3),
        RecordType::TXT => fields!(TXT),
        RecordType::ZERO => fields!(ZERO),
        _ => Row::Formatless,
    }
}
