//! Names of record types.

ghost use Rattle.std.specs.Prelude.{◌≡◌, IfSome, IfNone};
ghost use Rattle.dns_types.specs.RecordTypes.{IsTypeText};
ghost use Rattle.dns_zone_tokens.specs.{Mnemonics.number_named, TypeNames.registry, TypeNames.IsZoneType};

use crate::mnemonics::{Mnemonic, number_named};
use crate::named;
use dns_types::RecordType;
use std::str;

// IANA's registry "Resource Record (RR) TYPEs", and `ANY` for its `*`.
static REGISTRY: [Mnemonic; 98] = [
    named!("A" = 1),
    named!("NS" = 2),
    named!("MD" = 3),
    named!("MF" = 4),
    named!("CNAME" = 5),
    named!("SOA" = 6),
    named!("MB" = 7),
    named!("MG" = 8),
    named!("MR" = 9),
    named!("NULL" = 10),
    named!("WKS" = 11),
    named!("PTR" = 12),
    named!("HINFO" = 13),
    named!("MINFO" = 14),
    named!("MX" = 15),
    named!("TXT" = 16),
    named!("RP" = 17),
    named!("AFSDB" = 18),
    named!("X25" = 19),
    named!("ISDN" = 20),
    named!("RT" = 21),
    named!("NSAP" = 22),
    named!("NSAP-PTR" = 23),
    named!("SIG" = 24),
    named!("KEY" = 25),
    named!("PX" = 26),
    named!("GPOS" = 27),
    named!("AAAA" = 28),
    named!("LOC" = 29),
    named!("NXT" = 30),
    named!("EID" = 31),
    named!("NIMLOC" = 32),
    named!("SRV" = 33),
    named!("ATMA" = 34),
    named!("NAPTR" = 35),
    named!("KX" = 36),
    named!("CERT" = 37),
    named!("A6" = 38),
    named!("DNAME" = 39),
    named!("SINK" = 40),
    named!("OPT" = 41),
    named!("APL" = 42),
    named!("DS" = 43),
    named!("SSHFP" = 44),
    named!("IPSECKEY" = 45),
    named!("RRSIG" = 46),
    named!("NSEC" = 47),
    named!("DNSKEY" = 48),
    named!("DHCID" = 49),
    named!("NSEC3" = 50),
    named!("NSEC3PARAM" = 51),
    named!("TLSA" = 52),
    named!("SMIMEA" = 53),
    named!("HIP" = 55),
    named!("NINFO" = 56),
    named!("RKEY" = 57),
    named!("TALINK" = 58),
    named!("CDS" = 59),
    named!("CDNSKEY" = 60),
    named!("OPENPGPKEY" = 61),
    named!("CSYNC" = 62),
    named!("ZONEMD" = 63),
    named!("SVCB" = 64),
    named!("HTTPS" = 65),
    named!("DSYNC" = 66),
    named!("HHIT" = 67),
    named!("BRID" = 68),
    named!("SPF" = 99),
    named!("UINFO" = 100),
    named!("UID" = 101),
    named!("GID" = 102),
    named!("UNSPEC" = 103),
    named!("NID" = 104),
    named!("L32" = 105),
    named!("L64" = 106),
    named!("LP" = 107),
    named!("EUI48" = 108),
    named!("EUI64" = 109),
    named!("NXNAME" = 128),
    named!("TKEY" = 249),
    named!("TSIG" = 250),
    named!("IXFR" = 251),
    named!("AXFR" = 252),
    named!("MAILB" = 253),
    named!("MAILA" = 254),
    named!("ANY" = 255),
    named!("*" = 255),
    named!("URI" = 256),
    named!("CAA" = 257),
    named!("AVC" = 258),
    named!("DOA" = 259),
    named!("AMTRELAY" = 260),
    named!("RESINFO" = 261),
    named!("WALLET" = 262),
    named!("CLA" = 263),
    named!("IPN" = 264),
    named!("TA" = 32768),
    named!("DLV" = 32769),
];

/// The record type that a text names: a name of IANA's registry "Resource Record (RR) TYPEs" in either case, a name
/// that [`RecordType`] prints, or `TYPE` in capitals and one to five digits of a number of 16 bits (RFC 3597, section
/// 5). `None` for every other text. Allocates nothing.
///
/// `type_named(b"loc")` is `RecordType::Unknown(29)`, which prints as `TYPE29`.
#[tactic(auto, using(crate::proofs::TextSteps::registered))]
pub fn type_named(text: &[u8]) -> Option<RecordType>
    ensures some { IfSome result (IsZoneType text.now) }
    ensures none { IfNone result ((t : _) → IsZoneType text.now t → ⊥) }
{
    match printed_type(text) {
        Some(record_type) => Some(record_type),
        None => match registered(text) {
            Some(number) => Some(RecordType::from(number)),
            None => None,
        },
    }
}

// The record type that prints as this text, or whose number the text has after `TYPE`.
fn printed_type(text: &[u8]) -> Option<RecordType>
    ensures some { IfSome result (IsTypeText text.now) }
    ensures none { IfNone result ((t : _) → IsTypeText text.now t → ⊥) }
{
    match str::from_utf8(text) {
        Ok(text) => match text.parse::<RecordType>() {
            Ok(record_type) => Some(record_type),
            Err(_) => None,
        },
        Err(_) => None,
    }
}

// The number that a name has in the registry.
fn registered(text: &[u8]) -> Option<u16>
    ensures { result ≡ number_named registry text.now }
{
    number_named(&REGISTRY, text)
}
