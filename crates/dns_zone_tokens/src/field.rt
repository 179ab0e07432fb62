//! The texts of errors about a field's token.
//!
//! Each text about a token ends with ` in `, the field's name and ` token`. So
//! [`ParseError::field`](dns_types::ParseError::field) returns the name.

/// A field that is a character string, with the texts of its errors. All texts are static, so that an error allocates
/// nothing.
#[derive(Clone, Copy, Debug, PartialEq, Eq)]
pub struct StringField {
    /// The text if no token is left, such as `HINFO cpu`.
    pub name: &'static str,
    /// The text for a `\` that escapes nothing.
    pub escape: &'static str,
    /// The text for more than 255 octets.
    pub long: &'static str,
}

/// A field that is a domain name, with the texts of its errors. All texts are static, so that an error allocates
/// nothing.
#[derive(Clone, Copy, Debug, PartialEq, Eq)]
pub struct NameField {
    /// The text if no token is left, such as `MX exchange`.
    pub name: &'static str,
    /// The text for a token in quotes.
    pub quoted: &'static str,
    /// The text for `@` if there is no origin.
    pub no_origin: &'static str,
    /// The text for a `\` that escapes nothing.
    pub escape: &'static str,
    /// The text for an empty label.
    pub empty_label: &'static str,
    /// The text for a label of more than 63 octets.
    pub long_label: &'static str,
    /// The text for a name of more than 255 octets.
    pub long_name: &'static str,
}

/// Hexadecimal digits to the end of a text, with the texts of their errors, which are static.
#[derive(Clone, Copy, Debug, PartialEq, Eq)]
pub struct HexField {
    /// The text for a token in quotes.
    pub quoted: &'static str,
    /// The text for an odd number of digits.
    pub odd: &'static str,
    /// The text for any other character among them.
    pub digit: &'static str,
}

// Texts for a field that is a character string.
#[macro_export]
macro_rules! string_field {
    ($name:literal) => {
        $crate::StringField {
            name: $name,
            escape: concat!("`\\` without a meaning in ", $name, " token"),
            long: concat!("character data past 255 octets in ", $name, " token"),
        }
    };
}

// Texts for a field of any number of octets.
#[macro_export]
macro_rules! text_field {
    ($name:literal) => {
        $crate::Field {
            name: $name,
            wrong: concat!("`\\` without a meaning in ", $name, " token"),
        }
    };
}

// Texts for a field that is a domain name.
#[macro_export]
macro_rules! name_field {
    ($name:literal) => {
        $crate::NameField {
            name: $name,
            quoted: concat!("domain name in quotes in ", $name, " token"),
            no_origin: concat!("`@` without an origin in ", $name, " token"),
            escape: concat!("`\\` without a meaning in ", $name, " token"),
            empty_label: concat!("empty label in a domain name in ", $name, " token"),
            long_label: concat!("label past 63 octets in a domain name in ", $name, " token"),
            long_name: concat!("domain name past 255 octets in ", $name, " token"),
        }
    };
}

// Texts for hexadecimal digits.
#[macro_export]
macro_rules! hex_field {
    ($name:literal) => {
        $crate::HexField {
            quoted: concat!("hexadecimal digits in quotes in ", $name, " token"),
            odd: concat!("odd number of hexadecimal digits in ", $name, " token"),
            digit: concat!("Invalid hexadecimal digit found in ", $name, " token"),
        }
    };
}

// Texts for base64.
#[macro_export]
macro_rules! base64_field {
    ($name:literal) => {
        $crate::Field {
            name: $name,
            wrong: concat!("Invalid base64 in ", $name, " token"),
        }
    };
}

// Texts for a field that is an address.
#[macro_export]
macro_rules! address_field {
    ($name:literal) => {
        $crate::Field {
            name: $name,
            wrong: concat!("no address in ", $name, " token"),
        }
    };
}
