//! Service parameters printed for zone files (RFC 9460, sections 2.1 and 7, and appendix A; RFC 9461, section 5).

ghost use Rattle.std.specs.{Prelude.◌≡◌, Prelude.Some, Prelude.flat_map, Prelude.map, Prelude.true, List.list_all};
ghost use Rattle.dns_rdata_base.specs.{A.a_text, AAAA.aaaa_text};
ghost use Rattle.dns_rdata_service.specs.SvcParamKey.{is_unnamed, key_number, key_of};
ghost use Rattle.dns_rdata_zone.specs.Spellings.{protocol_octet};
ghost use Rattle.dns_rdata_zone.specs.Parameters.{key_name, named_key, protocol, zone_value, zone_parameter, rises_from, has_text, are_some};

use crate::lists::{Commas, ListItem};
use crate::spelling::{Spelled, Spelling};
use crate::strings::{InQuotes, Quoted};
use dns_rdata::svcb::{SvcParamKey, SvcParamValue};
use dns_rdata::{A, AAAA, SmallOctets};
use dns_tokens::Base64Text;
use std::fmt;

/// The name of a key, by its number alone: `key` and the number if it has no name, and for key 7 too, since readers
/// from before RFC 9461 do not know its name.
#[derive(Clone, Copy)]
struct KeyName(u16);

impl fmt::Display for KeyName {
    ghost output = { λ k. Some (key_name k.0) };

    fn fmt<W: fmt::Write>(&self, f: &mut fmt::Formatter<W>) -> fmt::Result {
        let number = self.0;
        if number < 7 {
            f.write(SvcParamKey::from(number))
        } else {
            write!(f, "key{number}")
        }
    }
}

/// In a list `,` and `\` are escaped by a `\` (RFC 9460, appendix A.1), and each `\` of that once more in the quoted
/// string that the list is.
#[derive(Clone, Copy)]
struct InList;

impl Spelling for InList {
    ghost spelled = { protocol_octet };

    #[inline]
    fn is_plain(&self, octet: u8) -> bool {
        octet != 44 && InQuotes.is_plain(octet)
    }

    fn write_octet<W: fmt::Write>(&self, octet: u8, f: &mut fmt::Formatter<W>) -> fmt::Result {
        match octet {
            44 => f.write_str("\\\\,"),
            92 => f.write_str("\\\\\\\\"),
            octet => InQuotes.write_octet(octet, f),
        }
    }
}

impl ListItem for SvcParamKey {
    ghost item_text = { named_key };

    fn write_item<W: fmt::Write>(&self, f: &mut fmt::Formatter<W>) -> fmt::Result {
        f.write(KeyName(self.number()))
    }
}

impl ListItem for SmallOctets<16> {
    ghost item_text = { protocol };

    fn write_item<W: fmt::Write>(&self, f: &mut fmt::Formatter<W>) -> fmt::Result {
        f.write(Spelled(self.as_slice(), InList))
    }
}

impl ListItem for A {
    ghost item_text = { a_text };

    fn write_item<W: fmt::Write>(&self, f: &mut fmt::Formatter<W>) -> fmt::Result {
        write!(f, "{self}")
    }
}

impl ListItem for AAAA {
    ghost item_text = { aaaa_text };

    fn write_item<W: fmt::Write>(&self, f: &mut fmt::Formatter<W>) -> fmt::Result {
        write!(f, "{self}")
    }
}

/// What follows a key: an equals sign and the value, or nothing.
#[derive(Clone, Copy)]
struct ZoneValue<'a>(&'a SvcParamValue);

impl fmt::Display for ZoneValue<'_> {
    ghost output = { λ v. Some (zone_value v.0.now) };

    fn fmt<W: fmt::Write>(&self, f: &mut fmt::Formatter<W>) -> fmt::Result {
        match self.0 {
            SvcParamValue::Mandatory(keys) => {
                let keys = Commas(keys.0.as_slice());
                write!(f, "={keys}")
            }
            SvcParamValue::Alpn(names) => {
                let names = Commas(names.0.as_slice());
                write!(f, "=\"{names}\"")
            }
            SvcParamValue::NoDefaultAlpn => Ok(()),
            SvcParamValue::Port(port) => write!(f, "={port}"),
            SvcParamValue::Ipv4Hint(hint) => {
                let hint = Commas(hint.0.as_slice());
                write!(f, "={hint}")
            }
            SvcParamValue::EchConfigList(config) => {
                let config = Base64Text(config.0.as_slice());
                write!(f, "=\"{config}\"")
            }
            SvcParamValue::Ipv6Hint(hint) => {
                let hint = Commas(hint.0.as_slice());
                write!(f, "={hint}")
            }
            SvcParamValue::DohPath(path) => {
                let path = Quoted(path.0.as_slice());
                write!(f, "={path}")
            }
            SvcParamValue::Unknown(octets) => {
                if octets.0.is_empty() {
                    return Ok(());
                }
                let octets = Quoted(octets.0.as_slice());
                write!(f, "={octets}")
            }
        }
    }
}

/// A service parameter as a zone file has it (RFC 9460, section 2.1): the key's name and, if there is a value, `=` and
/// the value. Lists of protocols, base64, paths and values of keys without a format are in quotes. Allocates nothing.
///
/// Name servers read this text if [`has_text`] returns `true`.
#[derive(Clone, Copy)]
pub struct ZoneParameter<'a>(pub &'a (SvcParamKey, SvcParamValue));

impl fmt::Display for ZoneParameter<'_> {
    ghost output = { λ p. Some (zone_parameter p.0.now) };

    /// Writes `alpn="h2,h3"`, `port=443`, `key667="hello"`.
    fn fmt<W: fmt::Write>(&self, f: &mut fmt::Formatter<W>) -> fmt::Result {
        let key = KeyName(self.0.0.number());
        let value = ZoneValue(&self.0.1);
        write!(f, "{key}{value}")
    }
}

// Whether the keys strictly rise and are greater than 0 and less than 65535 (RFC 9460, section 8).
fn keys_rise(keys: &[SvcParamKey]) -> bool
    ensures { result ≡ rises_from 0 (map key_number keys.now) }
{
    let mut last = 0u16;
    for key in keys {
        let number = key.number();
        if number <= last || number == 65535 {
            return false;
        }
        last = number;
    }
    true
}

// Whether no name is empty.
fn are_some(names: &[SmallOctets<16>]) -> bool
    ensures { result ≡ are_some names.now }
{
    names.iter().all(|name| name.len() != 0)
}

// Whether no key with a name of its own has the number.
fn is_unnamed(number: u16) -> bool
    ensures { result ≡ is_unnamed (key_of number) }
{
    match SvcParamKey::from(number) {
        SvcParamKey::Key(_) | SvcParamKey::Key65535 | SvcParamKey::Unknown(_) => true,
        _ => false,
    }
}

/// Returns whether the parameter has a text: its value is the variant of its key, and none of these, which no text can
/// give: no addresses, an empty ECHConfigList or path, an empty protocol name, mandatory keys that do not strictly rise
/// or have a 0, and the key 65535.
pub fn has_text(parameter: &(SvcParamKey, SvcParamValue)) -> bool
    ensures { result ≡ has_text parameter.now }
{
    let number = parameter.0.number();
    match &parameter.1 {
        SvcParamValue::Mandatory(keys) => number == 0 && keys_rise(keys.0.as_slice()),
        SvcParamValue::Alpn(names) => number == 1 && are_some(names.0.as_slice()),
        SvcParamValue::NoDefaultAlpn => number == 2,
        SvcParamValue::Port(_) => number == 3,
        SvcParamValue::Ipv4Hint(hint) => number == 4 && hint.0.len() != 0,
        SvcParamValue::EchConfigList(config) => number == 5 && config.0.len() != 0,
        SvcParamValue::Ipv6Hint(hint) => number == 6 && hint.0.len() != 0,
        SvcParamValue::DohPath(path) => number == 7 && path.0.len() != 0,
        SvcParamValue::Unknown(_) => is_unnamed(number) && number < 65535,
    }
}

/// Returns whether each parameter has a text.
pub(crate) fn have_text(parameters: &[(SvcParamKey, SvcParamValue)]) -> bool
    ensures { result ≡ list_all has_text parameters.now }
{
    for parameter in parameters {
        if !has_text(parameter) {
            return false;
        }
    }
    true
}
