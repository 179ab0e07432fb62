//! The zone row of each type of record.

ghost use Rattle.std.specs.Prelude.{◌≡◌, ◌∷◌, ◌++◌, [], map, Some, IfSome};
ghost use Rattle.std.specs.Option.{option_map};
ghost use Rattle.dns_zone_rows.specs.{RowFaults.kind_of, RowFaults.rest_kind_of, RowFaults.row_value, RowTable.zone_row, RowTable.zone_row_of, Rows.NoToken};
ghost use Rattle.dns_zone_rows.specs.RowTexts.{row_texts, texts_of, texts_of_field, texts_of_rest};
ghost use Rattle.dns_zone_rows.specs.RegistryTexts.{no_more};

use crate::registry::registry_row_of;
use crate::zone_row::{ZoneField, ZoneRest, ZoneRow};
use dns_tokens::{number_field, time_field};
use dns_types::RecordType;
use dns_zone_tokens::{
    Field, HexField, StringField, address_field, base64_field, hex_field, name_field, string_field,
    text_field,
};

pub(crate) const SURPLUS: &str = "surplus token after the RDATA";

const CERT_DATA: Field = base64_field!("CERT data");

const CSYNC_TYPES: Field = Field {
    name: "CSYNC types",
    wrong: "no record type in CSYNC types token",
};

const PUBLIC_KEY: Field = base64_field!("OPENPGPKEY public key");

const CERTIFICATE: &str = "certificate association data";

const CERTIFICATE_DATA: HexField = hex_field!("certificate association data");

const FINGERPRINT: &str = "SSHFP fingerprint";

const FINGERPRINT_DATA: HexField = hex_field!("SSHFP fingerprint");

const TXT_DATA: StringField = string_field!("TXT data");

static A: [ZoneField; 1] = [ZoneField::Ipv4(address_field!("A address"))];

static AAAA: [ZoneField; 1] = [ZoneField::Ipv6(address_field!("AAAA address"))];

static CAA: [ZoneField; 3] = [
    ZoneField::U8(number_field!("CAA flags")),
    ZoneField::Tag(Field {
        name: "CAA tag",
        wrong: "not 1 to 255 octets in CAA tag token",
    }),
    ZoneField::RawText(text_field!("CAA value")),
];

static CERT: [ZoneField; 3] = [
    ZoneField::CertType(number_field!("CERT cert_type")),
    ZoneField::U16(number_field!("CERT key_tag")),
    ZoneField::Algorithm(number_field!("CERT algorithm")),
];

static CNAME: [ZoneField; 1] = [ZoneField::Name(name_field!("CNAME name"))];

static CSYNC: [ZoneField; 2] = [
    ZoneField::U32(number_field!("CSYNC soa_serial")),
    ZoneField::U16(number_field!("CSYNC flags")),
];

static HINFO: [ZoneField; 2] = [
    ZoneField::String(string_field!("HINFO cpu")),
    ZoneField::String(string_field!("HINFO os")),
];

static MX: [ZoneField; 2] = [
    ZoneField::U16(number_field!("MX preference")),
    ZoneField::Name(name_field!("MX exchange")),
];

static NAPTR: [ZoneField; 6] = [
    ZoneField::U16(number_field!("NAPTR order")),
    ZoneField::U16(number_field!("NAPTR preference")),
    ZoneField::String(string_field!("NAPTR flags")),
    ZoneField::String(string_field!("NAPTR services")),
    ZoneField::String(string_field!("NAPTR regexp")),
    ZoneField::Name(name_field!("NAPTR replacement")),
];

static NS: [ZoneField; 1] = [ZoneField::Name(name_field!("NS name"))];

// Records that have no fields of one token.
static NO_FIELDS: [ZoneField; 0] = [];

static PTR: [ZoneField; 1] = [ZoneField::Name(name_field!("PTR name"))];

static SOA: [ZoneField; 7] = [
    ZoneField::Name(name_field!("SOA mname")),
    ZoneField::Name(name_field!("SOA rname")),
    ZoneField::U32(number_field!("SOA serial")),
    ZoneField::Ttl(time_field!("SOA refresh", "4294967295")),
    ZoneField::Ttl(time_field!("SOA retry", "4294967295")),
    ZoneField::Ttl(time_field!("SOA expire", "4294967295")),
    ZoneField::Ttl(time_field!("SOA minimum", "4294967295")),
];

static SRV: [ZoneField; 4] = [
    ZoneField::U16(number_field!("SRV priority")),
    ZoneField::U16(number_field!("SRV weight")),
    ZoneField::U16(number_field!("SRV port")),
    ZoneField::Name(name_field!("SRV target")),
];

static SSHFP: [ZoneField; 2] = [
    ZoneField::U8(number_field!("SSHFP algorithm")),
    ZoneField::U8(number_field!("SSHFP fingerprint type")),
];

// The fields of SVCB, which HTTPS has too.
static SVCB: [ZoneField; 2] = [
    ZoneField::U16(number_field!("service priority")),
    ZoneField::Name(name_field!("service target")),
];

// The fields of TLSA, which SMIMEA has too.
static TLSA: [ZoneField; 3] = [
    ZoneField::U8(number_field!("certificate usage")),
    ZoneField::U8(number_field!("selector")),
    ZoneField::U8(number_field!("matching type")),
];

// A match over the types whose zone row has fields and nothing after them, and other arms.
macro_rules! match_alone {
    ($record_type:expr, $fields:path, $($others:tt)*) => {
        match $record_type {
            RecordType::A => $fields(&A),
            RecordType::AAAA => $fields(&AAAA),
            RecordType::CAA => $fields(&CAA),
            RecordType::CNAME => $fields(&CNAME),
            RecordType::HINFO => $fields(&HINFO),
            RecordType::MX => $fields(&MX),
            RecordType::NAPTR => $fields(&NAPTR),
            RecordType::NS => $fields(&NS),
            RecordType::PTR => $fields(&PTR),
            RecordType::SOA => $fields(&SOA),
            RecordType::SRV => $fields(&SRV),
            $($others)*
        }
    };
}

/// Returns the fields of a type whose zone row has nothing after them; `None` for all others.
#[inline]
pub fn fields_alone_of(record_type: RecordType) -> Option<&'static [ZoneField]>
    ensures { IfSome result (λ fields. zone_row_of record_type ≡ zone_row (map kind_of fields.now) NoToken) }
{
    match_alone!(record_type, Some, _ => None)
}

/// Returns the zone row of a type; `None` if a zone file has only the unknown-data form for it (RFC 3597, section
/// 5).
pub fn zone_row_of(record_type: RecordType) -> Option<ZoneRow>
    ensures zone_rows { option_map row_value result ≡ zone_row_of record_type }
    // The texts of errors about its fields.
    ensures texts { option_map row_texts result ≡ texts_of record_type }
{
    match_alone!(
        record_type,
        fields_alone,
        RecordType::CERT => fields_and(&CERT, ZoneRest::Base64(CERT_DATA)),
        RecordType::CSYNC => fields_and(&CSYNC, ZoneRest::Types(CSYNC_TYPES)),
        RecordType::HTTPS => fields_and(&SVCB, ZoneRest::Parameters),
        RecordType::OPENPGPKEY => fields_and(&NO_FIELDS, ZoneRest::Base64(PUBLIC_KEY)),
        RecordType::SMIMEA => fields_and(&TLSA, ZoneRest::Hex(CERTIFICATE, CERTIFICATE_DATA)),
        RecordType::SSHFP => fields_and(&SSHFP, ZoneRest::Hex(FINGERPRINT, FINGERPRINT_DATA)),
        RecordType::SVCB => fields_and(&SVCB, ZoneRest::Parameters),
        RecordType::TLSA => fields_and(&TLSA, ZoneRest::Hex(CERTIFICATE, CERTIFICATE_DATA)),
        RecordType::TXT => fields_and(&NO_FIELDS, ZoneRest::Strings(TXT_DATA)),
        // A type without a struct.
        other => registry_row_of(u16::from(other))
    )
}

// The zone row of fields that no token follows.
#[inline]
fn fields_alone(fields: &'static [ZoneField]) -> Option<ZoneRow>
    ensures zone_rows { option_map row_value result ≡ zone_row (map kind_of fields.now) NoToken }
    ensures texts { option_map row_texts result ≡ Some (map texts_of_field fields.now ++ no_more ∷ []) }
{
    fields_and(fields, ZoneRest::Nothing(SURPLUS))
}

// The zone row of fields that other tokens follow.
#[inline]
fn fields_and(fields: &'static [ZoneField], rest: ZoneRest) -> Option<ZoneRow>
    ensures zone_rows { option_map row_value result ≡ zone_row (map kind_of fields.now) (rest_kind_of rest) }
    ensures texts { option_map row_texts result ≡ Some (map texts_of_field fields.now ++ texts_of_rest rest ∷ []) }
{
    Some(ZoneRow { fields, rest })
}
