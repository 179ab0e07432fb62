//! The zone rows of types without a struct, by number (IANA's registry "Resource Record (RR) TYPEs").

ghost use Rattle.std.specs.Prelude.{◌≡◌, map};
ghost use Rattle.std.specs.Option.{option_map};
ghost use Rattle.dns_zone_rows.specs.{Registry.registered, Registry.registry, Registry.shape_of, RegistrySteps.first_row, RegistrySteps.numbered, RegistrySteps.listed_as};
ghost use Rattle.dns_zone_rows.specs.Registry.{types_to_9, types_to_19, types_to_24, types_to_32, types_to_46, types_to_51, types_to_60, types_to_99, types_to_109, types_above_109};
ghost use Rattle.dns_zone_rows.specs.{RegistryTexts.registered_texts, RowFaults.row_value, RowTexts.row_texts};

use crate::table::SURPLUS;
use crate::zone_row::{LongHexField, ZoneField, ZoneRest, ZoneRow};
use dns_tokens::{number_field, time_field};
use dns_zone_tokens::{Field, address_field, base64_field, hex_field, name_field, string_field};

/// A number of a type, and the type's zone row.
#[derive(Clone, Copy)]
pub struct NumberedRow {
    pub number: u16,
    pub zone_row: ZoneRow,
}

const NOTHING: ZoneRest = ZoneRest::Nothing(SURPLUS);

macro_rules! registered {
    ($number:literal, [$($field:expr),*], $rest:expr) => {
        NumberedRow {
            number: $number,
            zone_row: ZoneRow {
                fields: &[$($field),*],
                rest: $rest,
            },
        }
    };
}

// Texts for decimal digits that are a character string.
macro_rules! digits_field {
    ($name:literal) => {
        Field {
            name: $name,
            wrong: concat!("not 4 to 255 digits in ", $name, " token"),
        }
    };
}

// Texts for a text in quotes, of one octet or more.
macro_rules! quoted_field {
    ($name:literal) => {
        Field {
            name: $name,
            wrong: concat!("no text in quotes in ", $name, " token"),
        }
    };
}

// Texts for a type and for a list of types.
macro_rules! types_field {
    ($name:literal) => {
        Field {
            name: $name,
            wrong: concat!("no record type in ", $name, " token"),
        }
    };
}

// Texts for a time.
macro_rules! date_field {
    ($name:literal) => {
        Field {
            name: $name,
            wrong: concat!("no time in ", $name, " token"),
        }
    };
}

// Texts for a salt.
macro_rules! salt_field {
    ($name:literal) => {
        Field {
            name: $name,
            wrong: concat!("no salt in ", $name, " token"),
        }
    };
}

// Texts for base32.
macro_rules! base32_field {
    ($name:literal) => {
        Field {
            name: $name,
            wrong: concat!("Invalid base32 in ", $name, " token"),
        }
    };
}

// Texts for groups of hexadecimal digits.
macro_rules! groups_field {
    ($name:literal) => {
        Field {
            name: $name,
            wrong: concat!("no groups of hexadecimal digits in ", $name, " token"),
        }
    };
}

// Texts for hexadecimal digits of a least number of octets.
macro_rules! long_hex_field {
    ($name:literal, $least:literal) => {
        LongHexField {
            name: $name,
            digits: hex_field!($name),
            least: $least,
            few: concat!("too few octets in ", $name, " token"),
        }
    };
}

static TYPES_TO_9: [NumberedRow; 5] = [
    registered!(3, [ZoneField::Name(name_field!("MD target"))], NOTHING),
    registered!(4, [ZoneField::Name(name_field!("MF target"))], NOTHING),
    registered!(7, [ZoneField::Name(name_field!("MB target"))], NOTHING),
    registered!(8, [ZoneField::Name(name_field!("MG target"))], NOTHING),
    registered!(9, [ZoneField::Name(name_field!("MR target"))], NOTHING),
];

static TYPES_TO_19: [NumberedRow; 4] = [
    registered!(
        14,
        [
            ZoneField::Name(name_field!("MINFO rmailbx")),
            ZoneField::Name(name_field!("MINFO emailbx"))
        ],
        NOTHING
    ),
    registered!(
        17,
        [
            ZoneField::Name(name_field!("RP mbox")),
            ZoneField::Name(name_field!("RP txt"))
        ],
        NOTHING
    ),
    registered!(
        18,
        [
            ZoneField::U16(number_field!("AFSDB subtype")),
            ZoneField::Name(name_field!("AFSDB hostname"))
        ],
        NOTHING
    ),
    registered!(
        19,
        [ZoneField::Digits(digits_field!("X25 address"))],
        NOTHING
    ),
];

static TYPES_TO_24: [NumberedRow; 4] = [
    registered!(
        20,
        [ZoneField::String(string_field!("ISDN address"))],
        ZoneRest::MaybeString(string_field!("ISDN subaddress"), SURPLUS)
    ),
    registered!(
        21,
        [
            ZoneField::U16(number_field!("RT preference")),
            ZoneField::Name(name_field!("RT intermediate_host"))
        ],
        NOTHING
    ),
    registered!(
        23,
        [ZoneField::Name(name_field!("NSAP-PTR owner"))],
        NOTHING
    ),
    registered!(
        24,
        [
            ZoneField::Type(types_field!("SIG type_covered")),
            ZoneField::Algorithm(number_field!("SIG algorithm")),
            ZoneField::U8(number_field!("SIG labels")),
            ZoneField::Ttl(time_field!("SIG original_ttl", "4294967295")),
            ZoneField::Time(date_field!("SIG expiration")),
            ZoneField::Time(date_field!("SIG inception")),
            ZoneField::U16(number_field!("SIG key_tag")),
            ZoneField::Name(name_field!("SIG signer"))
        ],
        ZoneRest::Base64(base64_field!("SIG signature"))
    ),
];

static TYPES_TO_32: [NumberedRow; 5] = [
    registered!(
        25,
        [
            ZoneField::U16(number_field!("KEY flags")),
            ZoneField::U8(number_field!("KEY protocol")),
            ZoneField::Algorithm(number_field!("KEY algorithm"))
        ],
        ZoneRest::MaybeBase64(base64_field!("KEY public_key"))
    ),
    registered!(
        26,
        [
            ZoneField::U16(number_field!("PX preference")),
            ZoneField::Name(name_field!("PX map822")),
            ZoneField::Name(name_field!("PX mapx400"))
        ],
        NOTHING
    ),
    registered!(
        27,
        [
            ZoneField::String(string_field!("GPOS longitude")),
            ZoneField::String(string_field!("GPOS latitude")),
            ZoneField::String(string_field!("GPOS altitude"))
        ],
        NOTHING
    ),
    registered!(31, [], ZoneRest::Hex("EID data", hex_field!("EID data"))),
    registered!(
        32,
        [],
        ZoneRest::Hex("NIMLOC data", hex_field!("NIMLOC data"))
    ),
];

static TYPES_TO_46: [NumberedRow; 5] = [
    registered!(
        36,
        [
            ZoneField::U16(number_field!("KX preference")),
            ZoneField::Name(name_field!("KX exchanger"))
        ],
        NOTHING
    ),
    registered!(39, [ZoneField::Name(name_field!("DNAME target"))], NOTHING),
    registered!(
        40,
        [
            ZoneField::U8(number_field!("SINK meaning")),
            ZoneField::U8(number_field!("SINK coding")),
            ZoneField::U8(number_field!("SINK subcoding"))
        ],
        ZoneRest::MaybeBase64(base64_field!("SINK data"))
    ),
    registered!(
        43,
        [
            ZoneField::U16(number_field!("DS key_tag")),
            ZoneField::Algorithm(number_field!("DS algorithm")),
            ZoneField::U8(number_field!("DS digest_type"))
        ],
        ZoneRest::Hex("DS digest", hex_field!("DS digest"))
    ),
    registered!(
        46,
        [
            ZoneField::Type(types_field!("RRSIG type_covered")),
            ZoneField::Algorithm(number_field!("RRSIG algorithm")),
            ZoneField::U8(number_field!("RRSIG labels")),
            ZoneField::Ttl(time_field!("RRSIG original_ttl", "4294967295")),
            ZoneField::Time(date_field!("RRSIG expiration")),
            ZoneField::Time(date_field!("RRSIG inception")),
            ZoneField::U16(number_field!("RRSIG key_tag")),
            ZoneField::Name(name_field!("RRSIG signer"))
        ],
        ZoneRest::Base64(base64_field!("RRSIG signature"))
    ),
];

static TYPES_TO_51: [NumberedRow; 5] = [
    registered!(
        47,
        [ZoneField::Name(name_field!("NSEC next"))],
        ZoneRest::Types(types_field!("NSEC types"))
    ),
    registered!(
        48,
        [
            ZoneField::U16(number_field!("DNSKEY flags")),
            ZoneField::U8(number_field!("DNSKEY protocol")),
            ZoneField::Algorithm(number_field!("DNSKEY algorithm"))
        ],
        ZoneRest::Base64(base64_field!("DNSKEY public_key"))
    ),
    registered!(49, [], ZoneRest::Base64(base64_field!("DHCID data"))),
    registered!(
        50,
        [
            ZoneField::U8(number_field!("NSEC3 hash_algorithm")),
            ZoneField::U8(number_field!("NSEC3 flags")),
            ZoneField::U16(number_field!("NSEC3 iterations")),
            ZoneField::Salt(salt_field!("NSEC3 salt")),
            ZoneField::Base32(base32_field!("NSEC3 next_hashed_owner"))
        ],
        ZoneRest::Types(types_field!("NSEC3 types"))
    ),
    registered!(
        51,
        [
            ZoneField::U8(number_field!("NSEC3PARAM hash_algorithm")),
            ZoneField::U8(number_field!("NSEC3PARAM flags")),
            ZoneField::U16(number_field!("NSEC3PARAM iterations")),
            ZoneField::Salt(salt_field!("NSEC3PARAM salt"))
        ],
        NOTHING
    ),
];

static TYPES_TO_60: [NumberedRow; 5] = [
    registered!(56, [], ZoneRest::Strings(string_field!("NINFO data"))),
    registered!(
        57,
        [
            ZoneField::U16(number_field!("RKEY flags")),
            ZoneField::U8(number_field!("RKEY protocol")),
            ZoneField::Algorithm(number_field!("RKEY algorithm"))
        ],
        ZoneRest::Base64(base64_field!("RKEY public_key"))
    ),
    registered!(
        58,
        [
            ZoneField::Name(name_field!("TALINK start")),
            ZoneField::Name(name_field!("TALINK end"))
        ],
        NOTHING
    ),
    registered!(
        59,
        [
            ZoneField::U16(number_field!("CDS key_tag")),
            ZoneField::Algorithm(number_field!("CDS algorithm")),
            ZoneField::U8(number_field!("CDS digest_type"))
        ],
        ZoneRest::Hex("CDS digest", hex_field!("CDS digest"))
    ),
    registered!(
        60,
        [
            ZoneField::U16(number_field!("CDNSKEY flags")),
            ZoneField::U8(number_field!("CDNSKEY protocol")),
            ZoneField::Algorithm(number_field!("CDNSKEY algorithm"))
        ],
        ZoneRest::Base64(base64_field!("CDNSKEY public_key"))
    ),
];

static TYPES_TO_99: [NumberedRow; 5] = [
    registered!(
        63,
        [
            ZoneField::U32(number_field!("ZONEMD serial")),
            ZoneField::U8(number_field!("ZONEMD scheme")),
            ZoneField::U8(number_field!("ZONEMD hash_algorithm"))
        ],
        ZoneRest::LongHex(long_hex_field!("ZONEMD digest", 12))
    ),
    registered!(
        66,
        [
            ZoneField::Type(types_field!("DSYNC rrtype")),
            ZoneField::Scheme(number_field!("DSYNC scheme")),
            ZoneField::U16(number_field!("DSYNC port")),
            ZoneField::Name(name_field!("DSYNC target"))
        ],
        NOTHING
    ),
    registered!(67, [], ZoneRest::Base64(base64_field!("HHIT data"))),
    registered!(68, [], ZoneRest::Base64(base64_field!("BRID data"))),
    registered!(99, [], ZoneRest::Strings(string_field!("SPF data"))),
];

static TYPES_TO_109: [NumberedRow; 6] = [
    registered!(
        104,
        [
            ZoneField::U16(number_field!("NID preference")),
            ZoneField::Groups(groups_field!("NID node_id"))
        ],
        NOTHING
    ),
    registered!(
        105,
        [
            ZoneField::U16(number_field!("L32 preference")),
            ZoneField::Ipv4(address_field!("L32 locator"))
        ],
        NOTHING
    ),
    registered!(
        106,
        [
            ZoneField::U16(number_field!("L64 preference")),
            ZoneField::Groups(groups_field!("L64 locator"))
        ],
        NOTHING
    ),
    registered!(
        107,
        [
            ZoneField::U16(number_field!("LP preference")),
            ZoneField::Name(name_field!("LP fqdn"))
        ],
        NOTHING
    ),
    registered!(
        108,
        [ZoneField::Eui48(groups_field!("EUI48 address"))],
        NOTHING
    ),
    registered!(
        109,
        [ZoneField::Eui64(groups_field!("EUI64 address"))],
        NOTHING
    ),
];

static TYPES_ABOVE_109: [NumberedRow; 7] = [
    registered!(
        256,
        [
            ZoneField::U16(number_field!("URI priority")),
            ZoneField::U16(number_field!("URI weight")),
            ZoneField::QuotedText(quoted_field!("URI target"))
        ],
        NOTHING
    ),
    registered!(258, [], ZoneRest::Strings(string_field!("AVC data"))),
    registered!(261, [], ZoneRest::Strings(string_field!("RESINFO data"))),
    registered!(262, [], ZoneRest::Strings(string_field!("WALLET data"))),
    registered!(263, [], ZoneRest::Strings(string_field!("CLA data"))),
    registered!(
        32768,
        [
            ZoneField::U16(number_field!("TA key_tag")),
            ZoneField::Algorithm(number_field!("TA algorithm")),
            ZoneField::U8(number_field!("TA digest_type"))
        ],
        ZoneRest::Hex("TA digest", hex_field!("TA digest"))
    ),
    registered!(
        32769,
        [
            ZoneField::U16(number_field!("DLV key_tag")),
            ZoneField::Algorithm(number_field!("DLV algorithm")),
            ZoneField::U8(number_field!("DLV digest_type"))
        ],
        ZoneRest::Hex("DLV digest", hex_field!("DLV digest"))
    ),
];

/// The zone row of a type without a struct, by the type's number. `None` if the type has the unknown-data form alone.
pub fn registry_row_of(number: u16) -> Option<ZoneRow>
    ensures zone_rows { option_map row_value result ≡ option_map shape_of (registered number) }
    // The texts of errors about its fields.
    ensures texts { option_map row_texts result ≡ option_map registered_texts (registered number) }
{
    first_row(rows_near(number), number)
}

// The types among which a number is.
fn rows_near(number: u16) -> &'static [NumberedRow]
    ensures zone_rows { map (numbered row_value) result.now ≡ map (listed_as shape_of) (registry number) }
    ensures texts { map (numbered row_texts) result.now ≡ map (listed_as registered_texts) (registry number) }
{
    if number <= 9 {
        return types_to_9();
    }
    if number <= 19 {
        return types_to_19();
    }
    if number <= 24 {
        return types_to_24();
    }
    if number <= 32 {
        return types_to_32();
    }
    if number <= 46 {
        return types_to_46();
    }
    if number <= 51 {
        return types_to_51();
    }
    if number <= 60 {
        return types_to_60();
    }
    if number <= 99 {
        return types_to_99();
    }
    if number <= 109 {
        return types_to_109();
    }
    types_above_109()
}

fn types_to_9() -> &'static [NumberedRow]
    ensures zone_rows { map (numbered row_value) result.now ≡ map (listed_as shape_of) types_to_9 }
    ensures texts { map (numbered row_texts) result.now ≡ map (listed_as registered_texts) types_to_9 }
{
    &TYPES_TO_9
}

fn types_to_19() -> &'static [NumberedRow]
    ensures zone_rows { map (numbered row_value) result.now ≡ map (listed_as shape_of) types_to_19 }
    ensures texts { map (numbered row_texts) result.now ≡ map (listed_as registered_texts) types_to_19 }
{
    &TYPES_TO_19
}

fn types_to_24() -> &'static [NumberedRow]
    ensures zone_rows { map (numbered row_value) result.now ≡ map (listed_as shape_of) types_to_24 }
    ensures texts { map (numbered row_texts) result.now ≡ map (listed_as registered_texts) types_to_24 }
{
    &TYPES_TO_24
}

fn types_to_32() -> &'static [NumberedRow]
    ensures zone_rows { map (numbered row_value) result.now ≡ map (listed_as shape_of) types_to_32 }
    ensures texts { map (numbered row_texts) result.now ≡ map (listed_as registered_texts) types_to_32 }
{
    &TYPES_TO_32
}

fn types_to_46() -> &'static [NumberedRow]
    ensures zone_rows { map (numbered row_value) result.now ≡ map (listed_as shape_of) types_to_46 }
    ensures texts { map (numbered row_texts) result.now ≡ map (listed_as registered_texts) types_to_46 }
{
    &TYPES_TO_46
}

fn types_to_51() -> &'static [NumberedRow]
    ensures zone_rows { map (numbered row_value) result.now ≡ map (listed_as shape_of) types_to_51 }
    ensures texts { map (numbered row_texts) result.now ≡ map (listed_as registered_texts) types_to_51 }
{
    &TYPES_TO_51
}

fn types_to_60() -> &'static [NumberedRow]
    ensures zone_rows { map (numbered row_value) result.now ≡ map (listed_as shape_of) types_to_60 }
    ensures texts { map (numbered row_texts) result.now ≡ map (listed_as registered_texts) types_to_60 }
{
    &TYPES_TO_60
}

fn types_to_99() -> &'static [NumberedRow]
    ensures zone_rows { map (numbered row_value) result.now ≡ map (listed_as shape_of) types_to_99 }
    ensures texts { map (numbered row_texts) result.now ≡ map (listed_as registered_texts) types_to_99 }
{
    &TYPES_TO_99
}

fn types_to_109() -> &'static [NumberedRow]
    ensures zone_rows { map (numbered row_value) result.now ≡ map (listed_as shape_of) types_to_109 }
    ensures texts { map (numbered row_texts) result.now ≡ map (listed_as registered_texts) types_to_109 }
{
    &TYPES_TO_109
}

fn types_above_109() -> &'static [NumberedRow]
    ensures zone_rows { map (numbered row_value) result.now ≡ map (listed_as shape_of) types_above_109 }
    ensures texts { map (numbered row_texts) result.now ≡ map (listed_as registered_texts) types_above_109 }
{
    &TYPES_ABOVE_109
}

// The first zone row with this number.
fn first_row(rows: &'static [NumberedRow], number: u16) -> Option<ZoneRow>
    ensures { result ≡ first_row rows.now number }
{
    for row in rows {
        if row.number == number {
            return Some(row.zone_row);
        }
    }
    None
}
