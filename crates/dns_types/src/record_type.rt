//! The types of records, their numbers and their texts.
ghost use Rattle.std.specs.Prelude.{refl, ◌≡◌, ◌==◌, ◌↔◌, Some, IsTrue, find, MatchOption};
ghost use Rattle.std.specs.{Ordering.on, Ordering.nat_cmp, Ordering.as_partial_cmp, Cmp.Rules.comparing, Cmp.Rules.hashing};
ghost use Rattle.std.specs.Cmp.{partial_order_from_agreeing_total, unsigned_ties, on_total, nat_cmp_total};
ghost use Rattle.std.specs.Hash as fed;
ghost use Rattle.std.proofs.Common.{rules};
ghost use Rattle.dns_types.specs.RecordTypes.{number_of, record_type_of, code_of, is_named, type_text, has_name, named_types, IsNumberText};
ghost use Rattle.dns_types.specs.RecordTypes.{ReadsType, ReadsPrinted};

use crate::error::DecodeError;
use std::cmp::Ordering;
use std::fmt;
use std::hash::{Hash, Hasher};
use std::str::FromStr;

/// The type of a resource record (RFC 1035, section 3.2.2, and IANA's list of types). Its text is the
/// variant's name in capitals, and `TYPE` and the number of `Unknown`. Types are ordered by number, and
/// `Unknown` comes after the named type of the same number.
#[derive(Clone, Copy, Debug)]
pub enum RecordType {
    /// 0, of no records: the type whose data is none.
    ZERO,
    /// 1, an IPv4 address (RFC 1035, 3.4.1).
    A,
    /// 2, a name server (RFC 1035, 3.3.11).
    NS,
    /// 5, the canonical name of an alias (RFC 1035, 3.3.1).
    CNAME,
    /// 6, the start of a zone of authority (RFC 1035, 3.3.13).
    SOA,
    /// 10, octets without a format (RFC 1035, 3.3.10).
    NULL,
    /// 12, a name that is pointed to (RFC 1035, 3.3.12).
    PTR,
    /// 13, a machine and its system (RFC 1035, 3.3.2).
    HINFO,
    /// 15, a mail exchange (RFC 1035, 3.3.9).
    MX,
    /// 16, character strings (RFC 1035, 3.3.14).
    TXT,
    /// 24, a signature (RFC 2535, 4).
    SIG,
    /// 25, a public key (RFC 2535, 3).
    KEY,
    /// 28, an IPv6 address (RFC 3596, 2.1).
    AAAA,
    /// 33, a host of a service (RFC 2782).
    SRV,
    /// 35, a rule that rewrites a name (RFC 3403, 4).
    NAPTR,
    /// 37, a certificate (RFC 4398, 2).
    CERT,
    /// 39, another name for a subtree (RFC 6672, 2.1).
    DNAME,
    /// 41, options of EDNS (RFC 6891, 6.1).
    OPT,
    /// 43, the signer of a delegation (RFC 4034, 5).
    DS,
    /// 44, the fingerprint of a host's key (RFC 4255, 3).
    SSHFP,
    /// 46, a signature of a record set (RFC 4034, 3).
    RRSIG,
    /// 47, the next name of a zone (RFC 4034, 4).
    NSEC,
    /// 48, a public key of a zone (RFC 4034, 2).
    DNSKEY,
    /// 50, the next hashed name of a zone (RFC 5155, 3).
    NSEC3,
    /// 51, how a zone hashes its names (RFC 5155, 4).
    NSEC3PARAM,
    /// 52, a certificate of a service (RFC 6698, 2.1).
    TLSA,
    /// 53, a certificate of a mail user (RFC 8162, 2).
    SMIMEA,
    /// 59, the DS that a child wants (RFC 7344, 3.1).
    CDS,
    /// 60, the DNSKEY that a child wants (RFC 7344, 3.2).
    CDNSKEY,
    /// 61, a public key of OpenPGP (RFC 7929, 2).
    OPENPGPKEY,
    /// 62, what a parent copies from a child zone (RFC 7477, 2.1).
    CSYNC,
    /// 64, an endpoint of a service (RFC 9460, 2).
    SVCB,
    /// 65, an endpoint of HTTPS (RFC 9460, 9).
    HTTPS,
    /// 250, the signature of a message (RFC 8945, 4.2).
    TSIG,
    /// 251, asks for the changes of a zone (RFC 1995).
    IXFR,
    /// 252, asks for a whole zone (RFC 5936).
    AXFR,
    /// 255, asks for all records (RFC 1035, 3.2.3, where it is `*`).
    ANY,
    /// 257, a property of a domain's issuers of certificates (RFC 8659, 4.1).
    CAA,
    /// 65305, of private use: the name whose addresses the owner has.
    ANAME,
    /// A number on the wire. `from` gives it only for numbers that no type above has.
    Unknown(u16),
}

// The types that have a name, and their numbers, of which the macros below make a match or a list.
macro_rules! named_types {
    ($macro:ident $(, $value:ident)?) => {
        $macro!(
            $($value)?
            (ZERO 0) (A 1) (NS 2) (CNAME 5) (SOA 6) (NULL 10) (PTR 12) (HINFO 13) (MX 15)
            (TXT 16) (SIG 24) (KEY 25) (AAAA 28) (SRV 33) (NAPTR 35) (CERT 37) (DNAME 39)
            (OPT 41) (DS 43) (SSHFP 44) (RRSIG 46) (NSEC 47) (DNSKEY 48) (NSEC3 50)
            (NSEC3PARAM 51) (TLSA 52) (SMIMEA 53) (CDS 59) (CDNSKEY 60) (OPENPGPKEY 61)
            (CSYNC 62) (SVCB 64) (HTTPS 65) (TSIG 250) (IXFR 251) (AXFR 252) (ANY 255) (CAA 257)
            (ANAME 65305)
        )
    };
}

// The type of a number.
macro_rules! of_number {
    ($value:ident $(($name:ident $number:literal))+) => {
        match $value {
            $($number => RecordType::$name,)+
            _ => RecordType::Unknown($value),
        }
    };
}

// The number of a type.
macro_rules! number_of {
    ($value:ident $(($name:ident $number:literal))+) => {
        match $value {
            $(RecordType::$name => $number,)+
            RecordType::Unknown(number) => number,
        }
    };
}

// The name of a type that has one.
macro_rules! name_of {
    ($value:ident $(($name:ident $number:literal))+) => {
        match $value {
            $(RecordType::$name => Some(stringify!($name)),)+
            RecordType::Unknown(_) => None,
        }
    };
}

// The types themselves.
macro_rules! array_of {
    ($(($name:ident $number:literal))+) => {
        [$(RecordType::$name,)+]
    };
}

/// The named type of the number, or `Unknown` if none has it.
impl From<u16> for RecordType {
    ghost from_gives = { λ number kind. (kind ≡ record_type_of number) × (number_of kind ≡ number) };

    #[inline]
    fn from(value: u16) -> RecordType {
        named_types!(of_number, value)
    }
}

/// The number on the wire.
impl From<RecordType> for u16 {
    ghost from_gives = { λ kind number. number ≡ number_of kind };

    #[inline]
    fn from(value: RecordType) -> u16 {
        named_types!(number_of, value)
    }
}

// The types that have a name.
const NAMED: [RecordType; 39] = named_types!(array_of);

impl RecordType {
    /// The number on the wire.
    #[inline]
    pub fn number(self) -> u16
        ensures { result ≡ number_of self }
    {
        u16::from(self)
    }

    // A number of its own for each value, in their order.
    #[inline]
    fn code(self) -> u32
        ensures { result ≡ code_of self }
    {
        match self {
            RecordType::Unknown(number) => 2 * u32::from(number) + 1,
            named => 2 * u32::from(u16::from(named)),
        }
    }

    // The name in capitals, of a type that has one.
    fn name(self) -> Option<&'static str>
        ensures { MatchOption result (self ≡ RecordType.Unknown (number_of self))
            (λ name. IsTrue (is_named self) × (name.now ≡ type_text self)) }
    {
        named_types!(name_of, self)
    }

    // Whether the text is the type's name.
    fn has_name(self, text: &str) -> bool
        ensures { result ≡ has_name text.now self }
    {
        match self.name() {
            Some(name) => name == text,
            None => false,
        }
    }
}

impl PartialEq for RecordType {
    ghost eq = { on code_of ◌==◌ };

    ghost laws = { Prim.search (comparing, rules) };

    #[inline]
    fn eq(&self, other: &RecordType) -> bool
        ensures value { result ≡ (code_of self.now == code_of other.now) }
        ensures exact { IsTrue result ↔ (self.now ≡ other.now) }
    {
        self.code() == other.code()
    }
}

impl Eq for RecordType {
    ghost laws = { Prim.search (comparing, rules) };
}

impl Hash for RecordType {
    ghost hash_input = { λ t. fed.u32 (code_of t) };

    ghost respects_eq = { Prim.search (hashing, rules) };

    #[inline]
    fn hash<H: Hasher>(&self, state: &mut H) {
        self.code().hash(state);
    }
}

impl PartialOrd for RecordType {
    ghost partial_cmp = { as_partial_cmp (on code_of nat_cmp) };

    ghost laws = { partial_order_from_agreeing_total (on code_of nat_cmp)
        (on_total code_of nat_cmp_total) (λ _ _. refl)
        (λ a b. unsigned_ties (code_of a) (code_of b)) };

    #[inline]
    fn partial_cmp(&self, other: &RecordType) -> Option<Ordering> {
        Some(self.cmp(other))
    }
}

impl Ord for RecordType {
    ghost cmp = { on code_of nat_cmp };

    ghost total = { Prim.search (comparing, rules) };

    ghost matches_partial_cmp = { Prim.search (comparing, rules) };

    ghost matches_eq = { λ a b. unsigned_ties (code_of a) (code_of b) };

    #[inline]
    fn cmp(&self, other: &RecordType) -> Ordering {
        self.code().cmp(&other.code())
    }
}

/// The name in capitals, or `TYPE` and the number in decimal (RFC 3597, 5).
impl fmt::Display for RecordType {
    ghost output = { λ t. Some (type_text t) };

    fn fmt<W: fmt::Write>(&self, f: &mut fmt::Formatter<W>) -> fmt::Result {
        match self.name() {
            Some(name) => f.write_str(name),
            None => {
                let number = u16::from(*self);
                write!(f, "TYPE{number}")
            }
        }
    }
}

/// The type whose name the text is, in capitals, or the type of the number after `TYPE`, in one to
/// five decimal digits (RFC 3597, section 5). Any other text fails with
/// `DecodeError::UnknownRecordTypeStr`. Allocates nothing.
impl FromStr for RecordType {
    type Err = DecodeError;

    ghost from_str_gives = { λ text r. ReadsType text r × ReadsPrinted text r };

    fn from_str(text: &str) -> Result<RecordType, DecodeError> {
        match named(text) {
            Some(kind) => Ok(kind),
            None => numbered(text).ok_or(DecodeError::UnknownRecordTypeStr),
        }
    }
}

// The type of which the text is the name.
fn named(text: &str) -> Option<RecordType>
    ensures { result ≡ find (has_name text.now) named_types }
{
    NAMED.iter().copied().find(|kind| kind.has_name(text))
}

// The type of the number that follows TYPE in the text.
fn numbered(text: &str) -> Option<RecordType>
    ensures { MatchOption result ((t : _) → ¬ (IsNumberText text.now t)) (IsNumberText text.now) }
{
    let digits = text.strip_prefix("TYPE")?;
    if digits.len() > 5 || digits.starts_with('+') {
        return None;
    }
    match digits.parse::<u16>() {
        Ok(number) => Some(RecordType::from(number)),
        Err(_) => None,
    }
}
