//! Values that are lists (RFC 9460, sections 7.1.1, 7.3 and 8, and appendix A.1).

ghost use Rattle.std.specs.Prelude.{◌≡◌, ◌≤◌, ◌<◌, ◌++◌, ◌⊎◌, ◌↔◌, true, false, IsTrue, IfSome, IfNone, IfErr, OnOk, length};
ghost use Rattle.std.specs.{List.AllZip, Option.option_copied, List.Sorted.IsStrictlyIncreasing};
ghost use Rattle.dns_tokens.specs.Reads.{Decides};
ghost use Rattle.dns_zone_rows.specs.ParameterLists.{items_in, IsList, IsKeyList, IsListedKey, unescaped_from, escapes_end_from};
ghost use Rattle.dns_zone_rows.specs.ParameterSteps.{IsFirstFall, DividesItem, ItemTaken, PushesItem};

use crate::parameters::key::key_of_name;
use dns_types::{Octets, ParseError};
use dns_zone_tokens::{ZoneToken, ipv4_of, ipv6_of};
use std::alloc::{AllocError, Global};

/// What the items of a list are.
#[derive(Clone, Copy, Debug, PartialEq, Eq)]
pub enum ListItem {
    /// Names of protocols, each after its length of one octet.
    Protocol,
    /// IPv4 addresses.
    Ipv4,
    /// IPv6 addresses.
    Ipv6,
}

/// Returns the octets of the items of a list, one after the other. A list has one item or more. Any other text gives
/// [`Message`](ParseError::Message) with the text `wrong`.
pub fn list_of(
    alloc: Global,
    item: ListItem,
    text: &[u8],
    wrong: &'static str,
) -> Result<Octets, ParseError>
    ensures reads { Decides (IsList item text.now) (λ x. x) result }
    ensures why { IfErr result (λ e. (e ≡ ParseError.Memory) ⊎ (e ≡ ParseError.Message wrong.entry)) }
{
    let mut octets = Vec::with_capacity(alloc, text.len() + 1)?;
    let mut rest = text;
    'items: loop {
        let (text, behind) = first_item(rest);
        push_item(&mut octets, item, text, wrong)?;
        match behind {
            Some(more) => rest = more,
            None => return Ok(Octets::from_vec(octets)),
        }
    }
}

/// Returns the numbers of the keys of a list, sorted. A list has one key or more, none twice, and not `mandatory`. Any
/// other text gives [`Message`](ParseError::Message) with the text `wrong`.
pub fn key_list_of(alloc: Global, text: &[u8], wrong: &'static str) -> Result<Octets, ParseError>
    ensures reads { Decides (IsKeyList text.now) (λ x. x) result }
    ensures why { IfErr result (λ e. (e ≡ ParseError.Memory) ⊎ (e ≡ ParseError.Message wrong.entry)) }
{
    let mut keys = keys_in(alloc, text, wrong)?;
    keys.sort_unstable();
    if !is_rising(keys.as_slice()) {
        return Err(ParseError::Message(wrong));
    }
    let mut octets = Vec::with_capacity(alloc, 2 * keys.len())?;
    for key in &keys {
        octets.extend_from_slice(&key.to_be_bytes())?;
    }
    Ok(Octets::from_vec(octets))
}

// The numbers of the keys of a list, in its order.
fn keys_in(alloc: Global, text: &[u8], wrong: &'static str) -> Result<Vec<u16>, ParseError>
    ensures reads { Decides (AllZip IsListedKey (items_in text.now)) (λ keys. keys.items) result }
    ensures why { IfErr result (λ e. (e ≡ ParseError.Memory) ⊎ (e ≡ ParseError.Message wrong.entry)) }
{
    let mut keys = Vec::new(alloc);
    let mut rest = text;
    'items: loop {
        let (item, behind) = first_item(rest);
        let key = listed_key(item, wrong)?;
        keys.push(key)?;
        match behind {
            Some(more) => rest = more,
            None => return Ok(keys),
        }
    }
}

// The number of the key that an item names.
fn listed_key(item: &[u8], wrong: &'static str) -> Result<u16, ParseError>
    ensures reads { Decides (IsListedKey item.now) (λ n. n) result }
    ensures why { IfErr result (λ e. e ≡ ParseError.Message wrong.entry) }
{
    let Some(key) = key_of_name(item) else {
        return Err(ParseError::Message(wrong));
    };
    let number = key.number();
    if number == 0 {
        return Err(ParseError::Message(wrong));
    }
    Ok(number)
}

// Whether each number is less than the next.
fn is_rising(numbers: &[u16]) -> bool
    ensures { IsTrue result ↔ IsStrictlyIncreasing numbers.now }
{
    first_fall(numbers).is_none()
}

/// Returns the first number that is not less than the next one; `None` if each is.
pub(crate) fn first_fall(numbers: &[u16]) -> Option<u16>
    ensures some { IfSome result (λ n. IsFirstFall n numbers.now) }
    ensures none { IfNone result (IsStrictlyIncreasing numbers.now) }
{
    for i in 1..numbers.len() {
        let number = numbers[i - 1];
        if number >= numbers[i] {
            return Some(number);
        }
    }
    None
}

// The first item of a list, and the rest after its comma, if a comma ends it.
fn first_item(text: &[u8]) -> (&[u8], Option<&[u8]>)
    ensures divided { DividesItem text.now result.0.now (option_copied result.1) }
    ensures shorter { IfSome result.1 (λ rest. length rest.now < length text.now) }
{
    let len = item_len(text);
    let item = &text[..len];
    if len == text.len() {
        (item, None)
    } else {
        (item, Some(&text[len + 1..]))
    }
}

// How many octets the first item of a list has.
fn item_len(text: &[u8]) -> usize
    ensures within { result ≤ length text.now }
    ensures item { ItemTaken text.now result }
{
    let mut at = 0usize;
    'octets: while at < text.len() && text[at] != b',' {
        if text[at] == b'\\' && at + 1 < text.len() {
            at += 2;
        } else {
            at += 1;
        }
    }
    at
}

// Appends the octets of an item.
fn push_item(
    octets: &mut Vec<u8>,
    item: ListItem,
    text: &[u8],
    wrong: &'static str,
) -> Result<(), ParseError>
    ensures reads { PushesItem item text.now result octets.old.items octets.new.items }
    ensures why { IfErr result (λ e. (e ≡ ParseError.Memory) ⊎ (e ≡ ParseError.Message wrong.entry)) }
{
    let token = ZoneToken {
        raw: text,
        quoted: false,
        joined: false,
    };
    match item {
        ListItem::Protocol => push_protocol(octets, text, wrong),
        ListItem::Ipv4 => {
            let address = ipv4_of(token, wrong)?;
            octets.extend_from_slice(&address.octets())?;
            Ok(())
        }
        ListItem::Ipv6 => {
            let address = ipv6_of(token, wrong)?;
            octets.extend_from_slice(&address.octets())?;
            Ok(())
        }
    }
}

// Appends the name of a protocol, after its length.
fn push_protocol(octets: &mut Vec<u8>, text: &[u8], wrong: &'static str) -> Result<(), ParseError>
    ensures reads { PushesItem ListItem.Protocol text.now result octets.old.items octets.new.items }
    ensures why { IfErr result (λ e. (e ≡ ParseError.Memory) ⊎ (e ≡ ParseError.Message wrong.entry)) }
{
    let len = match protocol_len(text) {
        Some(len) if len > 0 && len < 256 => len as u8,
        _ => return Err(ParseError::Message(wrong)),
    };
    octets.push(len)?;
    push_name(octets, text)?;
    Ok(())
}

// How many octets the name has that an item means. `None` if no octet follows a `\`.
fn protocol_len(item: &[u8]) -> Option<usize>
    ensures some { IfSome result (λ len. (escapes_end_from false item.now ≡ true) × (len ≡ length (unescaped_from false item.now))) }
    ensures none { IfNone result (escapes_end_from false item.now ≡ false) }
{
    let mut len = 0usize;
    let mut rest = item;
    'octets: while rest.len() > 0 {
        if rest[0] == b'\\' {
            rest = &rest[1..];
            if rest.len() == 0 {
                return None;
            }
        }
        len += 1;
        rest = &rest[1..];
    }
    Some(len)
}

// Appends the octets that an item means: for a `\` the octet after it.
fn push_name(octets: &mut Vec<u8>, item: &[u8]) -> Result<(), AllocError>
    requires { escapes_end_from false item.now ≡ true }
    ensures { OnOk result (octets.new.items ≡ octets.old.items ++ unescaped_from false item.now) }
{
    let mut rest = item;
    'octets: while rest.len() > 0 {
        if rest[0] == b'\\' {
            rest = &rest[1..];
        }
        octets.push(rest[0])?;
        rest = &rest[1..];
    }
    Ok(())
}
