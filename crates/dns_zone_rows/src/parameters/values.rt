//! Values of service parameters (RFC 9460, sections 2.1, 7 and 8; RFC 9461, section 5).

ghost use Rattle.std.specs.Prelude.{◌≡◌, ◌≢◌, ◌⊎◌, ◌↔◌, IsTrue, IfErr, EachIndex, slice_index};
ghost use Rattle.dns_tokens.specs.Reads.{Decides};
ghost use Rattle.dns_zone_tokens.specs.Errors.{Says};
ghost use Rattle.dns_zone_rows.specs.{ParameterFaults.ValueFault, ParameterSteps.HasMeant};
ghost use Rattle.dns_zone_rows.specs.ParameterValues.{forbids_escapes, wrong_value, HasOctets, IsPort, IsValue};

use crate::parameters::lists::{ListItem, key_list_of, list_of};
use base64::DecodeAllocError;
use base64::engine::general_purpose::STANDARD;
use dns_rdata_service::svcb::SvcParamKey;
use dns_types::{Octets, ParseError};
use dns_zone_tokens::{ZoneToken, number_of, put_text};
use std::alloc::Global;

const NO_ESCAPE: &str = "`\\` without a meaning in a service parameter";

const LONG_VALUE: &str = "service parameter of more than 65535 octets";

/// Returns the octets on the wire of a value of the key, from its text with escapes. If the key forbids escapes, a `\`
/// is the same error as any other wrong value of the key (RFC 9460, sections 7.2, 7.3 and 8; RFC 9848, section 3).
pub fn value_of(alloc: Global, key: SvcParamKey, text: &[u8]) -> Result<Octets, ParseError>
    ensures reads { Decides (IsValue key text.now) (λ x. x) result }
    ensures why { IfErr result (λ e. (e ≡ ParseError.Memory) ⊎ ValueFault key text.now e) }
{
    let octets = meant_octets(alloc, key, text)?;
    if octets.len() > 65535 {
        return Err(ParseError::Message(LONG_VALUE));
    }
    Ok(octets)
}

// The octets that a value in tokens stands for, of any number.
fn meant_octets(alloc: Global, key: SvcParamKey, text: &[u8]) -> Result<Octets, ParseError>
    ensures reads { Decides (HasMeant key text.now) (λ x. x) result }
    ensures why { IfErr result (λ e. (e ≡ ParseError.Memory) ⊎ ValueFault key text.now e) }
{
    if has_no_escape(text) {
        return octets_of(alloc, key, text);
    }
    if takes_no_escapes(key) {
        return Err(ParseError::Message(wrong_value(key)));
    }
    let token = ZoneToken {
        raw: text,
        quoted: true,
        joined: true,
    };
    let mut meant = Vec::with_capacity(alloc, text.len())?;
    put_text(&mut meant, token, NO_ESCAPE)?;
    octets_of(alloc, key, meant.as_slice())
}

// Whether a value of the key may have no escape.
fn takes_no_escapes(key: SvcParamKey) -> bool
    ensures { result ≡ forbids_escapes key }
{
    match key {
        SvcParamKey::Mandatory | SvcParamKey::Port | SvcParamKey::EchConfigList => true,
        SvcParamKey::Ipv4Hint | SvcParamKey::Ipv6Hint => true,
        _ => false,
    }
}

// Whether the text has no `\`.
fn has_no_escape(text: &[u8]) -> bool
    ensures { IsTrue result ↔ EachIndex text.now (λ k. slice_index text.now k ≢ 92) }
{
    text.iter().all(|octet| *octet != b'\\')
}

// The octets on the wire, of the octets of the text.
fn octets_of(alloc: Global, key: SvcParamKey, text: &[u8]) -> Result<Octets, ParseError>
    ensures reads { Decides (HasOctets key text.now) (λ x. x) result }
    ensures why { IfErr result (λ e. (e ≡ ParseError.Memory) ⊎ Says (wrong_value key) e) }
{
    let wrong = wrong_value(key);
    match key {
        SvcParamKey::Mandatory => key_list_of(alloc, text, wrong),
        SvcParamKey::Alpn => list_of(alloc, ListItem::Protocol, text, wrong),
        SvcParamKey::NoDefaultAlpn => nothing_of(alloc, text, wrong),
        SvcParamKey::Port => port_of(alloc, text, wrong),
        SvcParamKey::Ipv4Hint => list_of(alloc, ListItem::Ipv4, text, wrong),
        SvcParamKey::EchConfigList => ech_of(alloc, text, wrong),
        SvcParamKey::Ipv6Hint => list_of(alloc, ListItem::Ipv6, text, wrong),
        SvcParamKey::DohPath => path_of(alloc, text, wrong),
        SvcParamKey::Key(_) | SvcParamKey::Key65535 | SvcParamKey::Unknown(_) => Ok(
            Octets::from_slice(alloc, text)?,
        ),
    }
}

// The text of the error for a value that does not have the format of the key.
fn wrong_value(key: SvcParamKey) -> &'static str
    ensures { result.now ≡ wrong_value key }
{
    match key {
        SvcParamKey::Mandatory => "no list of different keys in mandatory",
        SvcParamKey::Alpn => "no list of protocols in alpn",
        SvcParamKey::NoDefaultAlpn => "value of no-default-alpn",
        SvcParamKey::Port => "no number of 16 bits in port",
        SvcParamKey::Ipv4Hint => "no list of addresses in ipv4hint",
        SvcParamKey::EchConfigList => "no base64 in ech",
        SvcParamKey::Ipv6Hint => "no list of addresses in ipv6hint",
        SvcParamKey::DohPath => "no path in dohpath",
        SvcParamKey::Key(_) | SvcParamKey::Key65535 | SvcParamKey::Unknown(_) =>
            "no value of a service parameter",
    }
}

// No octets, the value of no-default-alpn.
fn nothing_of(alloc: Global, text: &[u8], wrong: &'static str) -> Result<Octets, ParseError>
    ensures reads { Decides (HasOctets SvcParamKey.NoDefaultAlpn text.now) (λ x. x) result }
    ensures why { IfErr result (λ e. e ≡ ParseError.Message wrong.entry) }
{
    if text.len() > 0 {
        return Err(ParseError::Message(wrong));
    }
    Ok(Octets::new(alloc))
}

// A path of one octet or more.
fn path_of(alloc: Global, text: &[u8], wrong: &'static str) -> Result<Octets, ParseError>
    ensures reads { Decides (HasOctets SvcParamKey.DohPath text.now) (λ x. x) result }
    ensures why { IfErr result (λ e. (e ≡ ParseError.Memory) ⊎ (e ≡ ParseError.Message wrong.entry)) }
{
    if text.len() == 0 {
        return Err(ParseError::Message(wrong));
    }
    Ok(Octets::from_slice(alloc, text)?)
}

// The two octets of a port.
fn port_of(alloc: Global, text: &[u8], wrong: &'static str) -> Result<Octets, ParseError>
    ensures reads { Decides (IsPort text.now) (λ x. x) result }
    ensures why { IfErr result (λ e. (e ≡ ParseError.Memory) ⊎ (e ≡ ParseError.Message wrong.entry)) }
{
    let token = ZoneToken {
        raw: text,
        quoted: false,
        joined: false,
    };
    let port = number_of(token, 2, wrong)? as u16;
    Ok(Octets::from_slice(alloc, &port.to_be_bytes())?)
}

// The octets of base64.
fn ech_of(alloc: Global, text: &[u8], wrong: &'static str) -> Result<Octets, ParseError>
    ensures reads { Decides (HasOctets SvcParamKey.EchConfigList text.now) (λ x. x) result }
    ensures why { IfErr result (λ e. (e ≡ ParseError.Memory) ⊎ (e ≡ ParseError.Message wrong.entry)) }
{
    match STANDARD.decode(alloc, text) {
        Ok(octets) if octets.len() > 0 => Ok(Octets::from_vec(octets)),
        Err(DecodeAllocError::OutOfMemory) => Err(ParseError::Memory),
        _ => Err(ParseError::Message(wrong)),
    }
}
