//! The format of each type: the kinds of its fields, their names, and what is asked of each.
//!
//! The definitions read these very statics (`specs/Registry.antt`), so that code and definition have one table.

ghost use Rattle.std.specs.Prelude.{◌≡◌, true, get_or, IfSome, IfNone, Some, None, length};
ghost use Rattle.dns_rows.specs.Fronts.{IsFront};
ghost use Rattle.dns_check.specs.Rows.{is_row};
ghost use Rattle.dns_registry.specs.{Formats.row_of_format, Registry.registry, Registry.prefix_row, Registry.suffix_row, Registry.key_row, Registry.gateway_row, Registry.relay_row, Registry.row_among};
ghost use Rattle.dns_registry.specs.Registry.{first_rows, second_rows, third_rows, fourth_rows, fifth_rows, last_rows};

use crate::rule::FieldRule;
use dns_fields::Kind;
use dns_rows::row::{
    A, AAAA, HINFO, MX, NAME, NAPTR, NULL, OPENPGPKEY, SOA, SRV, SSHFP, SVCB, TLSA, TXT, ZERO,
};
use dns_rows::{Front, Part, Rule};

/// The fields of RDATA.
#[derive(Clone, Copy, Debug)]
pub struct Format {
    /// The kinds of the fields, in order.
    pub parts: &'static [Part],
    /// How many numbers the fields begin with.
    pub front: Front,
    /// What is asked of each field beyond its kind, in the same order. Nothing is asked of fields after the last rule.
    pub rules: &'static [FieldRule],
    /// The name of each field: that of the RFC in lower case, or that of the struct's field where the type has a struct.
    pub names: &'static [&'static str],
}

macro_rules! part {
    ($kind:ident) => { Part { kind: Kind::$kind, rule: Rule::Free } };
    ($kind:ident ( $size:expr )) => { Part { kind: Kind::$kind($size), rule: Rule::Free } };
}

macro_rules! fields_of {
    ($parts:ident, $rules:ident, $names:ident) => { fields_of!($parts, $rules, $names, 0, 0) };
    ($parts:ident, $rules:ident, $names:ident, $count:expr, $octets:expr) => {
        Some(Format { parts: &$parts, front: Front { count: $count, octets: $octets }, rules: &$rules, names: &$names })
    };
}

// ---- kinds of fields

/// A number and sixteen octets.
pub static A6_WHOLE_PARTS: [Part; 2] = [part!(Number(1)), part!(Octets(16))];

/// A number and a name.
pub static A6_SUFFIX0_PARTS: [Part; 3] = [part!(Number(1)), part!(Octets(0)), part!(Name)];

/// A number, one octet and a name.
pub static A6_SUFFIX1_PARTS: [Part; 3] = [part!(Number(1)), part!(Octets(1)), part!(Name)];

/// A number, 2 octets and a name.
pub static A6_SUFFIX2_PARTS: [Part; 3] = [part!(Number(1)), part!(Octets(2)), part!(Name)];

/// A number, 3 octets and a name.
pub static A6_SUFFIX3_PARTS: [Part; 3] = [part!(Number(1)), part!(Octets(3)), part!(Name)];

/// A number, 4 octets and a name.
pub static A6_SUFFIX4_PARTS: [Part; 3] = [part!(Number(1)), part!(Octets(4)), part!(Name)];

/// A number, 5 octets and a name.
pub static A6_SUFFIX5_PARTS: [Part; 3] = [part!(Number(1)), part!(Octets(5)), part!(Name)];

/// A number, 6 octets and a name.
pub static A6_SUFFIX6_PARTS: [Part; 3] = [part!(Number(1)), part!(Octets(6)), part!(Name)];

/// A number, 7 octets and a name.
pub static A6_SUFFIX7_PARTS: [Part; 3] = [part!(Number(1)), part!(Octets(7)), part!(Name)];

/// A number, 8 octets and a name.
pub static A6_SUFFIX8_PARTS: [Part; 3] = [part!(Number(1)), part!(Octets(8)), part!(Name)];

/// A number, 9 octets and a name.
pub static A6_SUFFIX9_PARTS: [Part; 3] = [part!(Number(1)), part!(Octets(9)), part!(Name)];

/// A number, 10 octets and a name.
pub static A6_SUFFIX10_PARTS: [Part; 3] = [part!(Number(1)), part!(Octets(10)), part!(Name)];

/// A number, 11 octets and a name.
pub static A6_SUFFIX11_PARTS: [Part; 3] = [part!(Number(1)), part!(Octets(11)), part!(Name)];

/// A number, 12 octets and a name.
pub static A6_SUFFIX12_PARTS: [Part; 3] = [part!(Number(1)), part!(Octets(12)), part!(Name)];

/// A number, 13 octets and a name.
pub static A6_SUFFIX13_PARTS: [Part; 3] = [part!(Number(1)), part!(Octets(13)), part!(Name)];

/// A number, 14 octets and a name.
pub static A6_SUFFIX14_PARTS: [Part; 3] = [part!(Number(1)), part!(Octets(14)), part!(Name)];

/// A number, 15 octets and a name.
pub static A6_SUFFIX15_PARTS: [Part; 3] = [part!(Number(1)), part!(Octets(15)), part!(Name)];

/// A number, 16 octets and a name.
pub static A6_SUFFIX16_PARTS: [Part; 3] = [part!(Number(1)), part!(Octets(16)), part!(Name)];

/// Two names.
pub static NAMES_PARTS: [Part; 2] = [part!(Name), part!(Name)];

/// A number and two names.
pub static PX_PARTS: [Part; 3] = [part!(Number(2)), part!(Name), part!(Name)];

/// An IPv4 address, a number, and the rest.
pub static WKS_PARTS: [Part; 3] = [part!(Octets(4)), part!(Number(1)), part!(Rest)];

/// A character string.
pub static STRING_PARTS: [Part; 1] = [part!(CharacterString)];

/// Three character strings.
pub static GPOS_PARTS: [Part; 3] = [
    part!(CharacterString),
    part!(CharacterString),
    part!(CharacterString),
];

/// Numbers, a name, and the rest.
pub static RRSIG_PARTS: [Part; 9] = [
    part!(Number(2)),
    part!(Number(1)),
    part!(Number(1)),
    part!(Number(4)),
    part!(Number(4)),
    part!(Number(4)),
    part!(Number(2)),
    part!(Name),
    part!(Rest),
];

/// Numbers of two, one and one octets, and the rest.
pub static KEYS_PARTS: [Part; 4] = [
    part!(Number(2)),
    part!(Number(1)),
    part!(Number(1)),
    part!(Rest),
];

/// Seven numbers.
pub static LOC_PARTS: [Part; 7] = [
    part!(Number(1)),
    part!(Number(1)),
    part!(Number(1)),
    part!(Number(1)),
    part!(Number(4)),
    part!(Number(4)),
    part!(Number(4)),
];

/// Numbers of two, two and one octets, and the rest.
pub static CERTIFICATE_PARTS: [Part; 4] = [
    part!(Number(2)),
    part!(Number(2)),
    part!(Number(1)),
    part!(Rest),
];

/// A name and the rest.
pub static NXT_PARTS: [Part; 2] = [part!(Name), part!(Rest)];

/// A number and the rest.
pub static ATMA_PARTS: [Part; 2] = [part!(Number(1)), part!(Rest)];

/// A name and a bitmap of types.
pub static NSEC_PARTS: [Part; 2] = [part!(Name), part!(Bitmap)];

/// Numbers, two character strings, and a bitmap of types.
pub static NSEC3_PARTS: [Part; 6] = [
    part!(Number(1)),
    part!(Number(1)),
    part!(Number(2)),
    part!(CharacterString),
    part!(CharacterString),
    part!(Bitmap),
];

/// Numbers and a character string.
pub static NSEC3PARAM_PARTS: [Part; 4] = [
    part!(Number(1)),
    part!(Number(1)),
    part!(Number(2)),
    part!(CharacterString),
];

/// Numbers of four and two octets, and a bitmap of types.
pub static CSYNC_PARTS: [Part; 3] = [part!(Number(4)), part!(Number(2)), part!(Bitmap)];

/// Numbers of two, one and one octets.
pub static NO_KEY_PARTS: [Part; 3] = [part!(Number(2)), part!(Number(1)), part!(Number(1))];

/// Numbers of four, one and one octets, and the rest.
pub static ZONEMD_PARTS: [Part; 4] = [
    part!(Number(4)),
    part!(Number(1)),
    part!(Number(1)),
    part!(Rest),
];

/// Numbers of two, one and two octets, and a name.
pub static DSYNC_PARTS: [Part; 4] = [
    part!(Number(2)),
    part!(Number(1)),
    part!(Number(2)),
    part!(Name),
];

/// A number, and four octets.
pub static LOCATOR32_PARTS: [Part; 2] = [part!(Number(2)), part!(Octets(4))];

/// A number, and eight octets.
pub static LOCATOR64_PARTS: [Part; 2] = [part!(Number(2)), part!(Octets(8))];

/// Six octets.
pub static OCTETS6_PARTS: [Part; 1] = [part!(Octets(6))];

/// Eight octets.
pub static OCTETS8_PARTS: [Part; 1] = [part!(Octets(8))];

/// Two numbers, and the rest.
pub static URI_PARTS: [Part; 3] = [part!(Number(2)), part!(Number(2)), part!(Rest)];

/// A number, a character string, and the rest.
pub static CAA_PARTS: [Part; 3] = [part!(Number(1)), part!(CharacterString), part!(Rest)];

/// Numbers of four, four and one octets, a character string, and the rest.
pub static DOA_PARTS: [Part; 5] = [
    part!(Number(4)),
    part!(Number(4)),
    part!(Number(1)),
    part!(CharacterString),
    part!(Rest),
];

/// A name, four numbers, and the rest.
pub static TKEY_PARTS: [Part; 6] = [
    part!(Name),
    part!(Number(4)),
    part!(Number(4)),
    part!(Number(2)),
    part!(Number(2)),
    part!(Rest),
];

/// A name, six octets, a number, and the rest.
pub static TSIG_PARTS: [Part; 4] = [part!(Name), part!(Octets(6)), part!(Number(2)), part!(Rest)];

/// Three numbers, an IPv4 address, and the rest.
pub static GATEWAY_IPV4_PARTS: [Part; 5] = [
    part!(Number(1)),
    part!(Number(1)),
    part!(Number(1)),
    part!(Octets(4)),
    part!(Rest),
];

/// Three numbers, an IPv6 address, and the rest.
pub static GATEWAY_IPV6_PARTS: [Part; 5] = [
    part!(Number(1)),
    part!(Number(1)),
    part!(Number(1)),
    part!(Octets(16)),
    part!(Rest),
];

/// Three numbers, a name, and the rest.
pub static GATEWAY_NAME_PARTS: [Part; 5] = [
    part!(Number(1)),
    part!(Number(1)),
    part!(Number(1)),
    part!(Name),
    part!(Rest),
];

/// Two numbers.
pub static NO_RELAY_PARTS: [Part; 2] = [part!(Number(1)), part!(Number(1))];

/// Two numbers, and an IPv4 address.
pub static RELAY_IPV4_PARTS: [Part; 3] = [part!(Number(1)), part!(Number(1)), part!(Octets(4))];

/// Two numbers, and an IPv6 address.
pub static RELAY_IPV6_PARTS: [Part; 3] = [part!(Number(1)), part!(Number(1)), part!(Octets(16))];

/// Two numbers, and a name.
pub static RELAY_NAME_PARTS: [Part; 3] = [part!(Number(1)), part!(Number(1)), part!(Name)];

// ---- what is asked of fields

/// Nothing is asked.
pub static NO_RULES: [FieldRule; 0] = [];

/// NSAP-PTR (RFC 1348; not in the list of RFC 3597, 4): a name that is not compressed.
pub static OWNER_RULES: [FieldRule; 1] = [FieldRule::Uncompressed];

/// EID, NIMLOC, DHCID (RFC 4701, 3.1), HHIT and BRID (RFC 9886, 5): octets, and at least one.
pub static SOME_DATA_RULES: [FieldRule; 1] = [FieldRule::AtLeast(1)];

/// TXT (RFC 1035, 3.3.14), NINFO, SPF (RFC 4408, 3.1.1), AVC, RESINFO (RFC 9606, 4), WALLET and CLA: character strings, and at least one.
pub static STRINGS_RULES: [FieldRule; 1] = [FieldRule::Count(1, 65535)];

/// X25 (RFC 1183, 3.1).
pub static X25_RULES: [FieldRule; 1] = [FieldRule::Digits];

/// ISDN (RFC 1183, 3.2): an address, and perhaps a subaddress.
pub static ISDN_RULES: [FieldRule; 1] = [FieldRule::Count(1, 2)];

/// SIG (RFC 2535, 4.1): its signer may be compressed (RFC 3597, 4).
pub static SIG_RULES: [FieldRule; 9] = [
    FieldRule::Free,
    FieldRule::Free,
    FieldRule::Free,
    FieldRule::Free,
    FieldRule::Free,
    FieldRule::Free,
    FieldRule::Free,
    FieldRule::Free,
    FieldRule::AtLeast(1),
];

/// RRSIG (RFC 4034, 3.1).
pub static RRSIG_RULES: [FieldRule; 9] = [
    FieldRule::Free,
    FieldRule::Free,
    FieldRule::Free,
    FieldRule::Free,
    FieldRule::Free,
    FieldRule::Free,
    FieldRule::Free,
    FieldRule::Uncompressed,
    FieldRule::AtLeast(1),
];

/// DNSKEY (RFC 4034, 2.1), RKEY and CDNSKEY (RFC 7344, 3.2).
pub static DNSKEY_RULES: [FieldRule; 4] = [
    FieldRule::Free,
    FieldRule::Free,
    FieldRule::Free,
    FieldRule::AtLeast(1),
];

/// LOC (RFC 1876, 2): latitude and longitude are in thousandths of a second, 2^31 is the equator and the prime meridian.
pub static LOC_RULES: [FieldRule; 6] = [
    FieldRule::Within(0, 0),
    FieldRule::Precision,
    FieldRule::Precision,
    FieldRule::Precision,
    FieldRule::Within(1823483648, 2471483648),
    FieldRule::Within(1499483648, 2795483648),
];

/// NXT (RFC 2535, 5.2): its next name may be compressed (RFC 3597, 4).
pub static NXT_RULES: [FieldRule; 2] = [FieldRule::Free, FieldRule::OldTypes];

/// ATMA: a format and an address.
pub static ATMA_RULES: [FieldRule; 2] = [FieldRule::Free, FieldRule::AtLeast(1)];

/// KX (RFC 2230, 3).
pub static KX_RULES: [FieldRule; 2] = [FieldRule::Free, FieldRule::Uncompressed];

/// OPT (RFC 6891, 6.1.2).
pub static OPT_RULES: [FieldRule; 1] = [FieldRule::Options];

/// APL (RFC 3123, 4): address prefixes, and perhaps none.
pub static APL_RULES: [FieldRule; 1] = [FieldRule::Prefixes];

/// HIP (RFC 8005, 5): a host identity.
pub static HIP_RULES: [FieldRule; 1] = [FieldRule::HostIdentity];

/// NSEC (RFC 4034, 4.1).
pub static NSEC_RULES: [FieldRule; 2] = [FieldRule::Uncompressed, FieldRule::SomeTypes];

/// NSEC3 (RFC 5155, 3.2).
pub static NSEC3_RULES: [FieldRule; 6] = [
    FieldRule::Free,
    FieldRule::Free,
    FieldRule::Free,
    FieldRule::Free,
    FieldRule::AtLeast(1),
    FieldRule::ShortestBitmap,
];

/// TALINK.
pub static TALINK_RULES: [FieldRule; 2] = [FieldRule::Uncompressed, FieldRule::Uncompressed];

/// CSYNC (RFC 7477, 2.1).
pub static CSYNC_RULES: [FieldRule; 3] = [
    FieldRule::Free,
    FieldRule::Free,
    FieldRule::ShortestBitmap,
];

/// ZONEMD (RFC 8976, 2.2).
pub static ZONEMD_RULES: [FieldRule; 4] = [
    FieldRule::Free,
    FieldRule::Free,
    FieldRule::Free,
    FieldRule::AtLeast(12),
];

/// DSYNC (RFC 9859, 2.1).
pub static DSYNC_RULES: [FieldRule; 4] = [
    FieldRule::Free,
    FieldRule::Free,
    FieldRule::Free,
    FieldRule::Uncompressed,
];

/// TKEY (RFC 2930, 2): key and other data are one field, each after its length.
pub static TKEY_RULES: [FieldRule; 6] = [
    FieldRule::Uncompressed,
    FieldRule::Free,
    FieldRule::Free,
    FieldRule::Free,
    FieldRule::Free,
    FieldRule::KeyAndOther,
];

/// TSIG (RFC 8945, 4.2): what follows the fudge is one field: MAC, original id, error and other data.
pub static TSIG_RULES: [FieldRule; 4] = [
    FieldRule::Uncompressed,
    FieldRule::Free,
    FieldRule::Free,
    FieldRule::MacAndOther,
];

/// URI (RFC 7553, 4.5).
pub static URI_RULES: [FieldRule; 3] = [FieldRule::Free, FieldRule::Free, FieldRule::AtLeast(1)];

/// CAA (RFC 8659, 4.1).
pub static CAA_RULES: [FieldRule; 2] = [FieldRule::Free, FieldRule::Letters];

/// A6 with the name of its prefix.
pub static PREFIXED_RULES: [FieldRule; 3] = [
    FieldRule::Free,
    FieldRule::Free,
    FieldRule::Uncompressed,
];

/// A6 with a prefix of more than 128 bits, which no RFC has.
pub static LONG_PREFIX_RULES: [FieldRule; 1] = [FieldRule::Within(0, 128)];

/// IPSECKEY (RFC 4025, 2.1) without a gateway, or of a gateway type that no RFC has.
pub static NO_GATEWAY_RULES: [FieldRule; 2] = [FieldRule::Free, FieldRule::Within(0, 3)];

// ---- names of fields

/// A (RFC 1035, 3.4.1) and AAAA (RFC 3596, 2.2).
pub static ADDRESS_NAMES: [&str; 1] = ["address"];

/// NS, MD, MF, CNAME, MB, MG, MR and PTR (RFC 1035, 3.3): a name.
pub static TARGET_NAMES: [&str; 1] = ["target"];

/// NSAP-PTR (RFC 1348; not in the list of RFC 3597, 4): a name that is not compressed.
pub static OWNER_NAMES: [&str; 1] = ["owner"];

/// DNAME (RFC 6672, 2.1) and ANAME: a name that is not compressed.
pub static NEW_TARGET_NAMES: [&str; 1] = ["target"];

/// SOA (RFC 1035, 3.3.13).
pub static SOA_NAMES: [&str; 7] = [
    "mname", "rname", "serial", "refresh", "retry", "expire", "minimum",
];

/// WKS (RFC 1035, 3.4.2).
pub static WKS_NAMES: [&str; 3] = ["address", "protocol", "bitmap"];

/// HINFO (RFC 1035, 3.3.2).
pub static HINFO_NAMES: [&str; 2] = ["cpu", "os"];

/// MINFO (RFC 1035, 3.3.7).
pub static MINFO_NAMES: [&str; 2] = ["rmailbx", "emailbx"];

/// MX (RFC 1035, 3.3.9).
pub static MX_NAMES: [&str; 2] = ["preference", "exchange"];

/// Type 0 and NXNAME (RFC 9824, 3.1): no octets.
pub static NO_NAMES: [&str; 0] = [];

/// NULL (RFC 1035, 3.3.10): any octets.
pub static DATA_NAMES: [&str; 1] = ["data"];

/// EID, NIMLOC, DHCID (RFC 4701, 3.1), HHIT and BRID (RFC 9886, 5): octets, and at least one.
pub static SOME_DATA_NAMES: [&str; 1] = ["data"];

/// TXT (RFC 1035, 3.3.14), NINFO, SPF (RFC 4408, 3.1.1), AVC, RESINFO (RFC 9606, 4), WALLET and CLA: character strings, and at least one.
pub static STRINGS_NAMES: [&str; 1] = ["data"];

/// RP (RFC 1183, 2.2).
pub static RP_NAMES: [&str; 2] = ["mbox", "txt"];

/// AFSDB (RFC 1183, 1).
pub static AFSDB_NAMES: [&str; 2] = ["subtype", "hostname"];

/// X25 (RFC 1183, 3.1).
pub static X25_NAMES: [&str; 1] = ["address"];

/// ISDN (RFC 1183, 3.2): an address, and perhaps a subaddress.
pub static ISDN_NAMES: [&str; 1] = ["address"];

/// RT (RFC 1183, 3.3).
pub static RT_NAMES: [&str; 2] = ["preference", "intermediate_host"];

/// NSAP (RFC 1706, 5).
pub static NSAP_NAMES: [&str; 1] = ["address"];

/// SIG (RFC 2535, 4.1): its signer may be compressed (RFC 3597, 4).
pub static SIG_NAMES: [&str; 9] = [
    "type_covered",
    "algorithm",
    "labels",
    "original_ttl",
    "expiration",
    "inception",
    "key_tag",
    "signer",
    "signature",
];

/// RRSIG (RFC 4034, 3.1).
pub static RRSIG_NAMES: [&str; 9] = [
    "type_covered",
    "algorithm",
    "labels",
    "original_ttl",
    "expiration",
    "inception",
    "key_tag",
    "signer",
    "signature",
];

/// DNSKEY (RFC 4034, 2.1), RKEY and CDNSKEY (RFC 7344, 3.2).
pub static DNSKEY_NAMES: [&str; 4] = ["flags", "protocol", "algorithm", "public_key"];

/// DS (RFC 4034, 5.1), CDS (RFC 7344, 3.1), TA and DLV (RFC 4431, 2).
pub static DS_NAMES: [&str; 4] = ["key_tag", "algorithm", "digest_type", "digest"];

/// PX (RFC 2163, 4).
pub static PX_NAMES: [&str; 3] = ["preference", "map822", "mapx400"];

/// GPOS (RFC 1712, 3).
pub static GPOS_NAMES: [&str; 3] = ["longitude", "latitude", "altitude"];

/// LOC (RFC 1876, 2): latitude and longitude are in thousandths of a second, 2^31 is the equator and the prime meridian.
pub static LOC_NAMES: [&str; 7] = [
    "version",
    "size",
    "horizontal_precision",
    "vertical_precision",
    "latitude",
    "longitude",
    "altitude",
];

/// NXT (RFC 2535, 5.2): its next name may be compressed (RFC 3597, 4).
pub static NXT_NAMES: [&str; 2] = ["next", "types"];

/// SRV (RFC 2782): its target may be compressed (RFC 3597, 4).
pub static SRV_NAMES: [&str; 4] = ["priority", "weight", "port", "target"];

/// ATMA: a format and an address.
pub static ATMA_NAMES: [&str; 2] = ["format", "address"];

/// NAPTR (RFC 3403, 4.1): its replacement may be compressed (RFC 3597, 4).
pub static NAPTR_NAMES: [&str; 6] = [
    "order",
    "preference",
    "flags",
    "services",
    "regexp",
    "replacement",
];

/// KX (RFC 2230, 3).
pub static KX_NAMES: [&str; 2] = ["preference", "exchanger"];

/// CERT (RFC 4398, 2).
pub static CERT_NAMES: [&str; 4] = ["cert_type", "key_tag", "algorithm", "cert_data"];

/// SINK.
pub static SINK_NAMES: [&str; 4] = ["meaning", "coding", "subcoding", "data"];

/// OPT (RFC 6891, 6.1.2).
pub static OPT_NAMES: [&str; 1] = ["options"];

/// APL (RFC 3123, 4): address prefixes, and perhaps none.
pub static APL_NAMES: [&str; 1] = ["items"];

/// HIP (RFC 8005, 5): a host identity.
pub static HIP_NAMES: [&str; 1] = ["identity"];

/// SSHFP (RFC 4255, 3.1).
pub static SSHFP_NAMES: [&str; 3] = ["algorithm", "fingerprint_type", "fingerprint"];

/// NSEC (RFC 4034, 4.1).
pub static NSEC_NAMES: [&str; 2] = ["next", "types"];

/// NSEC3 (RFC 5155, 3.2).
pub static NSEC3_NAMES: [&str; 6] = [
    "hash_algorithm",
    "flags",
    "iterations",
    "salt",
    "next_hashed_owner",
    "types",
];

/// NSEC3PARAM (RFC 5155, 4.2).
pub static NSEC3PARAM_NAMES: [&str; 4] = ["hash_algorithm", "flags", "iterations", "salt"];

/// TLSA (RFC 6698, 2.1) and SMIMEA (RFC 8162, 2).
pub static TLSA_NAMES: [&str; 4] = ["cert_usage", "selector", "matching", "cert_data"];

/// TALINK.
pub static TALINK_NAMES: [&str; 2] = ["start", "end"];

/// OPENPGPKEY (RFC 7929, 2.1).
pub static OPENPGPKEY_NAMES: [&str; 1] = ["public_key"];

/// CSYNC (RFC 7477, 2.1).
pub static CSYNC_NAMES: [&str; 3] = ["soa_serial", "flags", "types"];

/// ZONEMD (RFC 8976, 2.2).
pub static ZONEMD_NAMES: [&str; 4] = ["serial", "scheme", "hash_algorithm", "digest"];

/// SVCB and HTTPS (RFC 9460, 2.2).
pub static SVCB_NAMES: [&str; 3] = ["priority", "target", "params"];

/// DSYNC (RFC 9859, 2.1).
pub static DSYNC_NAMES: [&str; 4] = ["rrtype", "scheme", "port", "target"];

/// NID (RFC 6742, 2.1).
pub static NID_NAMES: [&str; 2] = ["preference", "node_id"];

/// L32 (RFC 6742, 2.2).
pub static L32_NAMES: [&str; 2] = ["preference", "locator"];

/// L64 (RFC 6742, 2.3).
pub static L64_NAMES: [&str; 2] = ["preference", "locator"];

/// LP (RFC 6742, 2.4).
pub static LP_NAMES: [&str; 2] = ["preference", "fqdn"];

/// EUI48 (RFC 7043, 3.1) and EUI64 (RFC 7043, 4.1).
pub static EUI_NAMES: [&str; 1] = ["address"];

/// TKEY (RFC 2930, 2): key and other data are one field, each after its length.
pub static TKEY_NAMES: [&str; 6] = [
    "algorithm",
    "inception",
    "expiration",
    "mode",
    "error",
    "key_and_other",
];

/// TSIG (RFC 8945, 4.2): what follows the fudge is one field: MAC, original id, error and other data.
pub static TSIG_NAMES: [&str; 4] = ["algorithm", "time_signed", "fudge", "mac_and_other"];

/// URI (RFC 7553, 4.5).
pub static URI_NAMES: [&str; 3] = ["priority", "weight", "target"];

/// CAA (RFC 8659, 4.1).
pub static CAA_NAMES: [&str; 3] = ["flags", "tag", "value"];

/// DOA.
pub static DOA_NAMES: [&str; 5] = ["enterprise", "type", "location", "media_type", "data"];

/// IPN.
pub static IPN_NAMES: [&str; 1] = ["node"];

/// A6 (RFC 2874, 3.1) without a prefix.
pub static ADDRESS_SUFFIX_NAMES: [&str; 2] = ["prefix_length", "suffix"];

/// A6 with the name of its prefix.
pub static PREFIXED_NAMES: [&str; 3] = ["prefix_length", "suffix", "prefix_name"];

/// A6 with a prefix of more than 128 bits, which no RFC has.
pub static LONG_PREFIX_NAMES: [&str; 2] = ["prefix_length", "suffix"];

/// KEY (RFC 2535, 3.1.2) whose flags say that it has no key.
pub static NO_KEY_NAMES: [&str; 3] = ["flags", "protocol", "algorithm"];

/// KEY with a key.
pub static KEY_NAMES: [&str; 4] = ["flags", "protocol", "algorithm", "public_key"];

/// IPSECKEY (RFC 4025, 2.1) without a gateway, or of a gateway type that no RFC has.
pub static NO_GATEWAY_NAMES: [&str; 4] = ["precedence", "gateway_type", "algorithm", "public_key"];

/// IPSECKEY with an address of a gateway.
pub static GATEWAY_NAMES: [&str; 5] = [
    "precedence",
    "gateway_type",
    "algorithm",
    "gateway",
    "public_key",
];

/// IPSECKEY with the name of a gateway.
pub static NAMED_GATEWAY_NAMES: [&str; 5] = [
    "precedence",
    "gateway_type",
    "algorithm",
    "gateway",
    "public_key",
];

/// AMTRELAY (RFC 8777, 4.2) without a relay: the discovery bit, and the type 0.
pub static NO_RELAY_NAMES: [&str; 2] = ["precedence", "discovery_and_type"];

/// AMTRELAY with an address of a relay.
pub static RELAY_NAMES: [&str; 3] = ["precedence", "discovery_and_type", "relay"];

/// AMTRELAY with the name of a relay.
pub static NAMED_RELAY_NAMES: [&str; 3] = ["precedence", "discovery_and_type", "relay"];

/// AMTRELAY of a relay type that no RFC has.
pub static UNKNOWN_RELAY_NAMES: [&str; 2] = ["precedence", "discovery_and_type"];

// The octet of this index, or 255 if there are not so many.
#[inline]
fn octet_at(octets: &[u8], index: usize) -> u8
    ensures { result ≡ get_or octets.now index 255 }
{
    if index < octets.len() {
        octets[index]
    } else {
        255
    }
}

// A6 with a prefix by how many octets its suffix has (RFC 2874, 3.1).
#[inline]
fn suffix_format(size: u8) -> Option<Format>
    ensures some { IfSome result (λ f. row_of_format f ≡ suffix_row size) }
    ensures front { IfSome result (λ f. IsFront f.parts.now f.front) }
    ensures checked { IfSome result (λ f. is_row f.parts.now ≡ true) }
    ensures names { IfSome result (λ f. length f.names.now ≡ length f.parts.now) }
    ensures none { IfNone result ⊥ }
{
    match size {
        0 => fields_of!(A6_SUFFIX0_PARTS, PREFIXED_RULES, PREFIXED_NAMES, 1, 1),
        1 => fields_of!(A6_SUFFIX1_PARTS, PREFIXED_RULES, PREFIXED_NAMES, 1, 1),
        2 => fields_of!(A6_SUFFIX2_PARTS, PREFIXED_RULES, PREFIXED_NAMES, 1, 1),
        3 => fields_of!(A6_SUFFIX3_PARTS, PREFIXED_RULES, PREFIXED_NAMES, 1, 1),
        4 => fields_of!(A6_SUFFIX4_PARTS, PREFIXED_RULES, PREFIXED_NAMES, 1, 1),
        5 => fields_of!(A6_SUFFIX5_PARTS, PREFIXED_RULES, PREFIXED_NAMES, 1, 1),
        6 => fields_of!(A6_SUFFIX6_PARTS, PREFIXED_RULES, PREFIXED_NAMES, 1, 1),
        7 => fields_of!(A6_SUFFIX7_PARTS, PREFIXED_RULES, PREFIXED_NAMES, 1, 1),
        8 => fields_of!(A6_SUFFIX8_PARTS, PREFIXED_RULES, PREFIXED_NAMES, 1, 1),
        9 => fields_of!(A6_SUFFIX9_PARTS, PREFIXED_RULES, PREFIXED_NAMES, 1, 1),
        10 => fields_of!(A6_SUFFIX10_PARTS, PREFIXED_RULES, PREFIXED_NAMES, 1, 1),
        11 => fields_of!(A6_SUFFIX11_PARTS, PREFIXED_RULES, PREFIXED_NAMES, 1, 1),
        12 => fields_of!(A6_SUFFIX12_PARTS, PREFIXED_RULES, PREFIXED_NAMES, 1, 1),
        13 => fields_of!(A6_SUFFIX13_PARTS, PREFIXED_RULES, PREFIXED_NAMES, 1, 1),
        14 => fields_of!(A6_SUFFIX14_PARTS, PREFIXED_RULES, PREFIXED_NAMES, 1, 1),
        15 => fields_of!(A6_SUFFIX15_PARTS, PREFIXED_RULES, PREFIXED_NAMES, 1, 1),
        _ => fields_of!(A6_SUFFIX16_PARTS, PREFIXED_RULES, PREFIXED_NAMES, 1, 1),
    }
}

// A6 by the length of its prefix (RFC 2874, 3.1).
#[inline]
fn prefix_format(prefix_length: u8) -> Option<Format>
    ensures some { IfSome result (λ f. row_of_format f ≡ prefix_row prefix_length) }
    ensures front { IfSome result (λ f. IsFront f.parts.now f.front) }
    ensures checked { IfSome result (λ f. is_row f.parts.now ≡ true) }
    ensures names { IfSome result (λ f. length f.names.now ≡ length f.parts.now) }
    ensures none { IfNone result ⊥ }
{
    if prefix_length == 0 {
        return fields_of!(A6_WHOLE_PARTS, NO_RULES, ADDRESS_SUFFIX_NAMES, 1, 1);
    }
    if prefix_length > 128 {
        return fields_of!(ATMA_PARTS, LONG_PREFIX_RULES, LONG_PREFIX_NAMES, 1, 1);
    }
    suffix_format((128 - prefix_length + 7) / 8)
}

// KEY by the two highest bits of its flags, which say that it has no key if both are set (RFC 2535, 3.1.2).
#[inline]
fn key_format(key_bits: u8) -> Option<Format>
    ensures some { IfSome result (λ f. row_of_format f ≡ key_row key_bits) }
    ensures front { IfSome result (λ f. IsFront f.parts.now f.front) }
    ensures checked { IfSome result (λ f. is_row f.parts.now ≡ true) }
    ensures names { IfSome result (λ f. length f.names.now ≡ length f.parts.now) }
    ensures none { IfNone result ⊥ }
{
    match key_bits {
        3 => fields_of!(NO_KEY_PARTS, NO_RULES, NO_KEY_NAMES, 3, 4),
        _ => fields_of!(KEYS_PARTS, DNSKEY_RULES, KEY_NAMES, 3, 4),
    }
}

// IPSECKEY by its gateway type (RFC 4025, 2.3).
#[inline]
fn gateway_format(gateway_type: u8) -> Option<Format>
    ensures some { IfSome result (λ f. row_of_format f ≡ gateway_row gateway_type) }
    ensures front { IfSome result (λ f. IsFront f.parts.now f.front) }
    ensures checked { IfSome result (λ f. is_row f.parts.now ≡ true) }
    ensures names { IfSome result (λ f. length f.names.now ≡ length f.parts.now) }
    ensures none { IfNone result ⊥ }
{
    match gateway_type {
        1 => fields_of!(GATEWAY_IPV4_PARTS, NO_RULES, GATEWAY_NAMES, 3, 3),
        2 => fields_of!(GATEWAY_IPV6_PARTS, NO_RULES, GATEWAY_NAMES, 3, 3),
        3 => fields_of!(GATEWAY_NAME_PARTS, DSYNC_RULES, NAMED_GATEWAY_NAMES, 3, 3),
        _ => fields_of!(TLSA, NO_GATEWAY_RULES, NO_GATEWAY_NAMES, 3, 3),
    }
}

// AMTRELAY by its relay type without the discovery bit (RFC 8777, 4.2.3).
#[inline]
fn relay_format(relay_type: u8) -> Option<Format>
    ensures some { IfSome result (λ f. row_of_format f ≡ relay_row relay_type) }
    ensures front { IfSome result (λ f. IsFront f.parts.now f.front) }
    ensures checked { IfSome result (λ f. is_row f.parts.now ≡ true) }
    ensures names { IfSome result (λ f. length f.names.now ≡ length f.parts.now) }
    ensures none { IfNone result ⊥ }
{
    match relay_type {
        0 => fields_of!(NO_RELAY_PARTS, NO_RULES, NO_RELAY_NAMES, 2, 2),
        1 => fields_of!(RELAY_IPV4_PARTS, NO_RULES, RELAY_NAMES, 2, 2),
        2 => fields_of!(RELAY_IPV6_PARTS, NO_RULES, RELAY_NAMES, 2, 2),
        3 => fields_of!(RELAY_NAME_PARTS, PREFIXED_RULES, NAMED_RELAY_NAMES, 2, 2),
        _ => fields_of!(NO_RELAY_PARTS, NO_GATEWAY_RULES, UNKNOWN_RELAY_NAMES, 2, 2),
    }
}

// The formats of types with numbers below 16, but for those that depend on the RDATA.
fn first_formats(number: u16) -> Option<Format>
    ensures some { IfSome result (λ f. row_among first_rows number ≡ Some (row_of_format f)) }
    ensures front { IfSome result (λ f. IsFront f.parts.now f.front) }
    ensures checked { IfSome result (λ f. is_row f.parts.now ≡ true) }
    ensures names { IfSome result (λ f. length f.names.now ≡ length f.parts.now) }
    ensures none { IfNone result (row_among first_rows number ≡ None) }
{
    match number {
        0 => fields_of!(ZERO, NO_RULES, NO_NAMES),
        1 => fields_of!(A, NO_RULES, ADDRESS_NAMES),
        2 => fields_of!(NAME, NO_RULES, TARGET_NAMES),
        3 => fields_of!(NAME, NO_RULES, TARGET_NAMES),
        4 => fields_of!(NAME, NO_RULES, TARGET_NAMES),
        5 => fields_of!(NAME, NO_RULES, TARGET_NAMES),
        6 => fields_of!(SOA, NO_RULES, SOA_NAMES),
        7 => fields_of!(NAME, NO_RULES, TARGET_NAMES),
        8 => fields_of!(NAME, NO_RULES, TARGET_NAMES),
        9 => fields_of!(NAME, NO_RULES, TARGET_NAMES),
        10 => fields_of!(NULL, NO_RULES, DATA_NAMES),
        11 => fields_of!(WKS_PARTS, NO_RULES, WKS_NAMES),
        12 => fields_of!(NAME, NO_RULES, TARGET_NAMES),
        13 => fields_of!(HINFO, NO_RULES, HINFO_NAMES),
        14 => fields_of!(NAMES_PARTS, NO_RULES, MINFO_NAMES),
        15 => fields_of!(MX, NO_RULES, MX_NAMES, 1, 2),
        _ => None,
    }
}

// The formats of types with numbers from 16 to 31, but for those that depend on the RDATA.
fn second_formats(number: u16) -> Option<Format>
    ensures some { IfSome result (λ f. row_among second_rows number ≡ Some (row_of_format f)) }
    ensures front { IfSome result (λ f. IsFront f.parts.now f.front) }
    ensures checked { IfSome result (λ f. is_row f.parts.now ≡ true) }
    ensures names { IfSome result (λ f. length f.names.now ≡ length f.parts.now) }
    ensures none { IfNone result (row_among second_rows number ≡ None) }
{
    match number {
        16 => fields_of!(TXT, STRINGS_RULES, STRINGS_NAMES),
        17 => fields_of!(NAMES_PARTS, NO_RULES, RP_NAMES),
        18 => fields_of!(MX, NO_RULES, AFSDB_NAMES, 1, 2),
        19 => fields_of!(STRING_PARTS, X25_RULES, X25_NAMES),
        20 => fields_of!(TXT, ISDN_RULES, ISDN_NAMES),
        21 => fields_of!(MX, NO_RULES, RT_NAMES, 1, 2),
        22 => fields_of!(NULL, SOME_DATA_RULES, NSAP_NAMES),
        23 => fields_of!(NAME, OWNER_RULES, OWNER_NAMES),
        24 => fields_of!(RRSIG_PARTS, SIG_RULES, SIG_NAMES, 7, 18),
        26 => fields_of!(PX_PARTS, NO_RULES, PX_NAMES, 1, 2),
        27 => fields_of!(GPOS_PARTS, NO_RULES, GPOS_NAMES),
        28 => fields_of!(AAAA, NO_RULES, ADDRESS_NAMES),
        29 => fields_of!(LOC_PARTS, LOC_RULES, LOC_NAMES, 7, 16),
        30 => fields_of!(NXT_PARTS, NXT_RULES, NXT_NAMES),
        31 => fields_of!(NULL, SOME_DATA_RULES, SOME_DATA_NAMES),
        _ => None,
    }
}

// The formats of types with numbers from 32 to 47, but for those that depend on the RDATA.
fn third_formats(number: u16) -> Option<Format>
    ensures some { IfSome result (λ f. row_among third_rows number ≡ Some (row_of_format f)) }
    ensures front { IfSome result (λ f. IsFront f.parts.now f.front) }
    ensures checked { IfSome result (λ f. is_row f.parts.now ≡ true) }
    ensures names { IfSome result (λ f. length f.names.now ≡ length f.parts.now) }
    ensures none { IfNone result (row_among third_rows number ≡ None) }
{
    match number {
        32 => fields_of!(NULL, SOME_DATA_RULES, SOME_DATA_NAMES),
        33 => fields_of!(SRV, NO_RULES, SRV_NAMES, 3, 6),
        34 => fields_of!(ATMA_PARTS, ATMA_RULES, ATMA_NAMES, 1, 1),
        35 => fields_of!(NAPTR, NO_RULES, NAPTR_NAMES, 2, 4),
        36 => fields_of!(MX, KX_RULES, KX_NAMES, 1, 2),
        37 => fields_of!(CERTIFICATE_PARTS, NO_RULES, CERT_NAMES, 3, 5),
        39 => fields_of!(NAME, OWNER_RULES, NEW_TARGET_NAMES),
        40 => fields_of!(TLSA, NO_RULES, SINK_NAMES, 3, 3),
        41 => fields_of!(NULL, OPT_RULES, OPT_NAMES),
        42 => fields_of!(NULL, APL_RULES, APL_NAMES),
        43 => fields_of!(KEYS_PARTS, DNSKEY_RULES, DS_NAMES, 3, 4),
        44 => fields_of!(SSHFP, NO_RULES, SSHFP_NAMES, 2, 2),
        46 => fields_of!(RRSIG_PARTS, RRSIG_RULES, RRSIG_NAMES, 7, 18),
        47 => fields_of!(NSEC_PARTS, NSEC_RULES, NSEC_NAMES),
        _ => None,
    }
}

// The formats of types with numbers from 48 to 63, but for those that depend on the RDATA.
fn fourth_formats(number: u16) -> Option<Format>
    ensures some { IfSome result (λ f. row_among fourth_rows number ≡ Some (row_of_format f)) }
    ensures front { IfSome result (λ f. IsFront f.parts.now f.front) }
    ensures checked { IfSome result (λ f. is_row f.parts.now ≡ true) }
    ensures names { IfSome result (λ f. length f.names.now ≡ length f.parts.now) }
    ensures none { IfNone result (row_among fourth_rows number ≡ None) }
{
    match number {
        48 => fields_of!(KEYS_PARTS, DNSKEY_RULES, DNSKEY_NAMES, 3, 4),
        49 => fields_of!(NULL, SOME_DATA_RULES, SOME_DATA_NAMES),
        50 => fields_of!(NSEC3_PARTS, NSEC3_RULES, NSEC3_NAMES, 3, 4),
        51 => fields_of!(NSEC3PARAM_PARTS, NO_RULES, NSEC3PARAM_NAMES, 3, 4),
        52 => fields_of!(TLSA, NO_RULES, TLSA_NAMES, 3, 3),
        53 => fields_of!(TLSA, NO_RULES, TLSA_NAMES, 3, 3),
        55 => fields_of!(NULL, HIP_RULES, HIP_NAMES),
        56 => fields_of!(TXT, STRINGS_RULES, STRINGS_NAMES),
        57 => fields_of!(KEYS_PARTS, DNSKEY_RULES, DNSKEY_NAMES, 3, 4),
        58 => fields_of!(NAMES_PARTS, TALINK_RULES, TALINK_NAMES),
        59 => fields_of!(KEYS_PARTS, DNSKEY_RULES, DS_NAMES, 3, 4),
        60 => fields_of!(KEYS_PARTS, DNSKEY_RULES, DNSKEY_NAMES, 3, 4),
        61 => fields_of!(OPENPGPKEY, NO_RULES, OPENPGPKEY_NAMES),
        62 => fields_of!(CSYNC_PARTS, CSYNC_RULES, CSYNC_NAMES, 2, 6),
        63 => fields_of!(ZONEMD_PARTS, ZONEMD_RULES, ZONEMD_NAMES, 3, 6),
        _ => None,
    }
}

// The formats of types with numbers from 64 to 255, but for those that depend on the RDATA.
fn fifth_formats(number: u16) -> Option<Format>
    ensures some { IfSome result (λ f. row_among fifth_rows number ≡ Some (row_of_format f)) }
    ensures front { IfSome result (λ f. IsFront f.parts.now f.front) }
    ensures checked { IfSome result (λ f. is_row f.parts.now ≡ true) }
    ensures names { IfSome result (λ f. length f.names.now ≡ length f.parts.now) }
    ensures none { IfNone result (row_among fifth_rows number ≡ None) }
{
    match number {
        64 => fields_of!(SVCB, KX_RULES, SVCB_NAMES, 1, 2),
        65 => fields_of!(SVCB, KX_RULES, SVCB_NAMES, 1, 2),
        66 => fields_of!(DSYNC_PARTS, DSYNC_RULES, DSYNC_NAMES, 3, 5),
        67 => fields_of!(NULL, SOME_DATA_RULES, SOME_DATA_NAMES),
        68 => fields_of!(NULL, SOME_DATA_RULES, SOME_DATA_NAMES),
        99 => fields_of!(TXT, STRINGS_RULES, STRINGS_NAMES),
        104 => fields_of!(LOCATOR64_PARTS, NO_RULES, NID_NAMES, 1, 2),
        105 => fields_of!(LOCATOR32_PARTS, NO_RULES, L32_NAMES, 1, 2),
        106 => fields_of!(LOCATOR64_PARTS, NO_RULES, L64_NAMES, 1, 2),
        107 => fields_of!(MX, KX_RULES, LP_NAMES, 1, 2),
        108 => fields_of!(OCTETS6_PARTS, NO_RULES, EUI_NAMES),
        109 => fields_of!(OCTETS8_PARTS, NO_RULES, EUI_NAMES),
        128 => fields_of!(ZERO, NO_RULES, NO_NAMES),
        249 => fields_of!(TKEY_PARTS, TKEY_RULES, TKEY_NAMES),
        250 => fields_of!(TSIG_PARTS, TSIG_RULES, TSIG_NAMES),
        _ => None,
    }
}

// The formats of types with numbers from 256 on, but for those that depend on the RDATA.
fn last_formats(number: u16) -> Option<Format>
    ensures some { IfSome result (λ f. row_among last_rows number ≡ Some (row_of_format f)) }
    ensures front { IfSome result (λ f. IsFront f.parts.now f.front) }
    ensures checked { IfSome result (λ f. is_row f.parts.now ≡ true) }
    ensures names { IfSome result (λ f. length f.names.now ≡ length f.parts.now) }
    ensures none { IfNone result (row_among last_rows number ≡ None) }
{
    match number {
        256 => fields_of!(URI_PARTS, URI_RULES, URI_NAMES, 2, 4),
        257 => fields_of!(CAA_PARTS, CAA_RULES, CAA_NAMES, 1, 1),
        258 => fields_of!(TXT, STRINGS_RULES, STRINGS_NAMES),
        259 => fields_of!(DOA_PARTS, NO_RULES, DOA_NAMES, 3, 9),
        261 => fields_of!(TXT, STRINGS_RULES, STRINGS_NAMES),
        262 => fields_of!(TXT, STRINGS_RULES, STRINGS_NAMES),
        263 => fields_of!(TXT, STRINGS_RULES, STRINGS_NAMES),
        264 => fields_of!(OCTETS8_PARTS, NO_RULES, IPN_NAMES),
        32768 => fields_of!(KEYS_PARTS, DNSKEY_RULES, DS_NAMES, 3, 4),
        32769 => fields_of!(KEYS_PARTS, DNSKEY_RULES, DS_NAMES, 3, 4),
        65305 => fields_of!(NAME, OWNER_RULES, NEW_TARGET_NAMES),
        _ => None,
    }
}

/// Returns the format of a type by its number, for RDATA that begins with these octets: the formats of KEY and A6 depend on
/// their first octet, and those of IPSECKEY and AMTRELAY on their second one. `None` if the type has no format here, or its RDATA is never read.
pub fn format_of(number: u16, octets: &[u8]) -> Option<Format>
    ensures some { IfSome result (λ f. registry number octets.now ≡ Some (row_of_format f)) }
    ensures front { IfSome result (λ f. IsFront f.parts.now f.front) }
    ensures checked { IfSome result (λ f. is_row f.parts.now ≡ true) }
    ensures names { IfSome result (λ f. length f.names.now ≡ length f.parts.now) }
    ensures none { IfNone result (registry number octets.now ≡ None) }
{
    if number == 38 {
        return prefix_format(octet_at(octets, 0));
    }
    if number == 25 {
        return key_format(octet_at(octets, 0) / 64);
    }
    if number == 45 {
        return gateway_format(octet_at(octets, 1));
    }
    if number == 260 {
        return relay_format(octet_at(octets, 1) % 128);
    }
    if number < 16 {
        return first_formats(number);
    }
    if number < 32 {
        return second_formats(number);
    }
    if number < 48 {
        return third_formats(number);
    }
    if number < 64 {
        return fourth_formats(number);
    }
    if number < 256 {
        return fifth_formats(number);
    }
    last_formats(number)
}
