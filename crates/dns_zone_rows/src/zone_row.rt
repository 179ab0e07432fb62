//! Zone rows: the fields of a type in a zone file.

use dns_zone_tokens::{Field, HexField, NameField, StringField};

/// A field of RDATA that is one token in a zone file, with the texts of its errors. All texts are static, so that an
/// error allocates nothing.
#[derive(Clone, Copy)]
pub enum ZoneField {
    /// A number of 8 bits: one octet.
    U8(Field),
    /// A number of 16 bits: two octets in network order.
    U16(Field),
    /// A number of 32 bits: four octets in network order.
    U32(Field),
    /// A TTL of 32 bits, in seconds or with units: four octets.
    Ttl(Field),
    /// An IPv4 address: four octets.
    Ipv4(Field),
    /// An IPv6 address: sixteen octets.
    Ipv6(Field),
    /// A domain name, which the origin completes: uncompressed, its case preserved.
    Name(NameField),
    /// A character string: its length and at most 255 octets.
    String(StringField),
    /// A token of 1 to 255 octets without quotes and escapes: its length and its octets (RFC 8659, section 4.1).
    Tag(Field),
    /// A certificate type, by its name or its number: two octets (RFC 4398, section 2.1).
    CertType(Field),
    /// A DNSSEC algorithm, by its name or its number: one octet (RFC 4034, appendix A.1).
    Algorithm(Field),
    /// A character string of any number of octets, without a length.
    RawText(Field),
    /// The same in quotes, of one octet or more (RFC 7553, section 4.4).
    QuotedText(Field),
    /// A record type, by its name or as `TYPE` and its number: two octets (RFC 4034, section 3.2).
    Type(Field),
    /// A scheme of DSYNC, by its name or its number: one octet (RFC 9859, section 2.1).
    Scheme(Field),
    /// A time, as YYYYMMDDHHmmSS or in seconds since 1970: four octets (RFC 4034, section 3.2).
    Time(Field),
    /// Hexadecimal digits, or `-` for none: a length and at most 255 octets (RFC 5155, section 3.3).
    Salt(Field),
    /// Base32 with the extended hexadecimal alphabet, without padding: a length and 1 to 255 octets (RFC 5155, section 3.3).
    Base32(Field),
    /// Four groups of hexadecimal digits with colons between them: eight octets (RFC 6742, section 2.1).
    Groups(Field),
    /// Six octets in hexadecimal digits with hyphens between them (RFC 7043, section 3.2).
    Eui48(Field),
    /// Eight octets in hexadecimal digits with hyphens between them (RFC 7043, section 4.2).
    Eui64(Field),
    /// A character string of 4 to 255 decimal digits: its length and the digits (RFC 1183, section 3.1).
    Digits(Field),
}

/// Hexadecimal digits of a least number of octets to the end of a text, with the texts of their errors, which are static.
#[derive(Clone, Copy)]
pub struct LongHexField {
    /// The text if no token is left.
    pub name: &'static str,
    /// The texts for what are no digits.
    pub digits: HexField,
    /// The least number of octets.
    pub least: usize,
    /// The text for fewer octets.
    pub few: &'static str,
}

/// What all tokens after the fields of a zone row are.
#[derive(Clone, Copy)]
pub enum ZoneRest {
    /// No token may be there; this is the text of the error.
    Nothing(&'static str),
    /// One character string or more, each after its length.
    Strings(StringField),
    /// One character string after its length, or no token; the text is the error of a token after it.
    MaybeString(StringField, &'static str),
    /// Hexadecimal digits, in one token or more; the text names the field if there is none.
    Hex(&'static str, HexField),
    /// The same, of a least number of octets.
    LongHex(LongHexField),
    /// Base64, in one token or more (RFC 4648, section 4).
    Base64(Field),
    /// Base64, or no token.
    MaybeBase64(Field),
    /// Record types, none or more, in any order: the shortest bitmap of them (RFC 4034, section 4.1.2; RFC 7477,
    /// section 2.1.2).
    Types(Field),
    /// Service parameters, none or more, in any order: key, length and value of each, sorted by key (RFC 9460, sections
    /// 2.1 and 2.2).
    Parameters,
}

/// RDATA as a zone file has it: fields of one token each, and what the tokens after them are.
#[derive(Clone, Copy)]
pub struct ZoneRow {
    pub fields: &'static [ZoneField],
    pub rest: ZoneRest,
}
