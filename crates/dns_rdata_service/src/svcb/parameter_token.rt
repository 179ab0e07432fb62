//! Parameters read from tokens (RFC 9460, section 2.1 and appendix A; RFC 9461, section 5).

ghost use Rattle.std.specs.Prelude.{◌≡◌, ◌≢◌, ◌∷◌, ℕ, [], List, IfErr, IfNone, IfOk, IfSome, IsUtf8};
ghost use Rattle.dns_types.specs.declared.error.ParseError.TheVariants as parse;
ghost use Rattle.dns_rdata_service.specs.{declared.svcb.value.SvcParamValue.SvcParamValue as Value, Parameters.Parameter, ParameterTokens.IsKeyText};
ghost use Rattle.dns_rdata_service.specs.ParameterTokens.{ItemOf, ListOf, IsValueAlone, IsValueText, IsUnquoted, HasValue, IsParameterToken};

use crate::items::Items;
use crate::svcb::Parameter;
use crate::svcb::alpn::Alpn;
use crate::svcb::doh_path::DohPath;
use crate::svcb::ech_config_list::EchConfigList;
use crate::svcb::ip_hint::IpHint;
use crate::svcb::key::SvcParamKey;
use crate::svcb::mandatory::Mandatory;
use crate::svcb::unknown::Unknown;
use crate::svcb::value::SvcParamValue;
use crate::with_named_keys;
use base64::DecodeAllocError;
use base64::engine::general_purpose::STANDARD;
use dns_names_wire::{Octets, ParseError, SmallOctets};
use dns_rdata_base::{A, AAAA};
use dns_tokens::{next_segment, read_item};
use std::alloc::Global;

// The parameter of a token, as `SVCB::from_tokens` says. In a list a `\` is dropped and the next character is kept. Any
// other comma ends an item, and the rest is the last item. Of each item the first token is read, which must be a
// character string. The values of `port`, `ech` and `dohpath` are one such item. Allocates for the value, and for an
// item with a `\`.
pub(crate) fn parameter_of(alloc: Global, token: &str) -> Result<Parameter, ParseError>
    ensures ok { IfOk result (IsParameterToken token.now) }
    ensures refused { IfErr result (λ e. e ≢ parse.Memory → (p : Parameter) → IsParameterToken token.now p → ⊥) }
{
    match token.split_once('=') {
        Some((key, value)) => with_value(alloc, key, value),
        None => alone(alloc, token),
    }
}

// The parameter of a key alone.
fn alone(alloc: Global, token: &str) -> Result<Parameter, ParseError>
    ensures ok { IfOk result (λ p. IsKeyText token.now p.0 × IsValueAlone p.0 p.1) }
    ensures refused { IfErr result (λ e. e ≢ parse.Memory → (p : Parameter) → IsKeyText token.now p.0 × IsValueAlone p.0 p.1 → ⊥) }
{
    let key = token.parse::<SvcParamKey>()?;
    Ok((key, value_alone(alloc, key)?))
}

// The parameter of a key and the text after `=`.
fn with_value(alloc: Global, key: &str, value: &str) -> Result<Parameter, ParseError>
    ensures ok { IfOk result (λ p. IsKeyText key.now p.0 × HasValue value.now p) }
    ensures refused { IfErr result (λ e. e ≢ parse.Memory → (p : Parameter) → IsKeyText key.now p.0 × HasValue value.now p → ⊥) }
{
    let Some(text) = unquoted(value) else {
        return Err(ParseError::Message("one quote alone as the value of a parameter"));
    };
    let key = key.parse::<SvcParamKey>()?;
    Ok((key, value_of(alloc, key, text)?))
}

// The text between the quotes, or the whole text if it is not in quotes. A text with only one quote is rejected.
fn unquoted(value: &str) -> Option<&str>
    ensures some { IfSome result (λ text. IsUnquoted value.now text.now) }
    ensures none { IfNone result ((text : List ℕ) → IsUnquoted value.now text → ⊥) }
    ensures utf8 { IfSome result (λ text. IsUtf8 text.now) }
{
    let Some(inner) = value.strip_prefix('"') else {
        return Some(value);
    };
    match inner.strip_suffix('"') {
        Some(text) => Some(text),
        None => if inner.len() == 0 { None } else { Some(value) },
    }
}

// The value of a key that nothing follows.
fn value_alone(alloc: Global, key: SvcParamKey) -> Result<SvcParamValue, ParseError>
    ensures ok { IfOk result (IsValueAlone key) }
    ensures refused { IfErr result (λ e. (v : Value) → IsValueAlone key v → ⊥) }
{
    match key {
        SvcParamKey::NoDefaultAlpn => Ok(SvcParamValue::NoDefaultAlpn),
        SvcParamKey::Key(_) => Ok(SvcParamValue::Unknown(Unknown(Octets::new(alloc)))),
        _ => Err(ParseError::Message(without_value(key))),
    }
}

macro_rules! missing_value {
    (($value:expr) $(($key:ident $number:literal $rank:literal $name:literal))+) => {
        match $value {
            $(SvcParamKey::$key => concat!("value of the parameter ", $name, " missing"),)+
            _ => "no parameter has the key key65535",
        }
    };
}

// The error of a key without a value.
fn without_value(key: SvcParamKey) -> &'static str {
    with_named_keys!(missing_value, (key))
}

// The value of a key with this text after `=`.
fn value_of(alloc: Global, key: SvcParamKey, text: &str) -> Result<SvcParamValue, ParseError>
    ensures ok { IfOk result (IsValueText key text.now) }
    ensures refused { IfErr result (λ e. e ≢ parse.Memory → (v : Value) → IsValueText key text.now v → ⊥) }
{
    match key {
        SvcParamKey::Mandatory => Ok(SvcParamValue::Mandatory(Mandatory(items_of(alloc, text)?))),
        SvcParamKey::Alpn => Ok(SvcParamValue::Alpn(Alpn(items_of(alloc, text)?))),
        SvcParamKey::Port => Ok(SvcParamValue::Port(item_of(alloc, text)?)),
        SvcParamKey::Ipv4Hint => Ok(SvcParamValue::Ipv4Hint(IpHint(items_of(alloc, text)?))),
        SvcParamKey::EchConfigList => Ok(SvcParamValue::EchConfigList(item_of(alloc, text)?)),
        SvcParamKey::Ipv6Hint => Ok(SvcParamValue::Ipv6Hint(IpHint(items_of(alloc, text)?))),
        SvcParamKey::DohPath => Ok(SvcParamValue::DohPath(DohPath(item_of(alloc, text)?))),
        SvcParamKey::Key(_) => {
            let octets = Octets::from_slice(alloc, text.as_bytes())?;
            Ok(SvcParamValue::Unknown(Unknown(octets)))
        }
        SvcParamKey::NoDefaultAlpn => {
            Err(ParseError::Message("the parameter no-default-alpn has no value"))
        }
        SvcParamKey::Key65535 | SvcParamKey::Unknown(_) => {
            Err(ParseError::Message("no parameter has the key key65535"))
        }
    }
}

// A value whose text is an item.
trait FromItem: Sized {
    ghost is_text: { List ℕ → Self → Type 0 };

    // The value of an item. Fails exactly if there is none, or if an allocation fails.
    fn from_item(alloc: Global, item: &str) -> Result<Self, ParseError>
        ensures ok { IfOk result (is_text item.now) }
        ensures refused { IfErr result (λ e. e ≢ parse.Memory → (x : Self) → is_text item.now x → ⊥) };
}

impl FromItem for A {
    ghost use Rattle.std.specs.Net.Grammar.{IsIpv4Text};

    ghost is_text = { λ item a. IsIpv4Text item a.0 };

    #[inline]
    fn from_item(_alloc: Global, item: &str) -> Result<A, ParseError> {
        match item.parse::<A>() {
            Ok(address) => Ok(address),
            Err(e) => Err(ParseError::from(e)),
        }
    }
}

impl FromItem for AAAA {
    ghost use Rattle.std.specs.Net.Grammar.{IsIpv6Text};

    ghost is_text = { λ item a. IsIpv6Text item a.0 };

    #[inline]
    fn from_item(_alloc: Global, item: &str) -> Result<AAAA, ParseError> {
        match item.parse::<AAAA>() {
            Ok(address) => Ok(address),
            Err(e) => Err(ParseError::from(e)),
        }
    }
}

impl FromItem for SvcParamKey {
    ghost use Rattle.dns_rdata_service.specs.ParameterTokens.{IsKeyText};

    ghost is_text = { IsKeyText };

    #[inline]
    fn from_item(_alloc: Global, item: &str) -> Result<SvcParamKey, ParseError> {
        Ok(item.parse::<SvcParamKey>()?)
    }
}

impl FromItem for SmallOctets<16> {
    ghost use Rattle.dns_rdata_service.specs.ParameterTokens.{IsItself};

    ghost is_text = { IsItself };

    #[inline]
    fn from_item(alloc: Global, item: &str) -> Result<SmallOctets<16>, ParseError> {
        Ok(SmallOctets::from_slice(alloc, item.as_bytes())?)
    }
}

// A number of 16 bits.
impl FromItem for u16 {
    ghost use Rattle.dns_tokens.specs.Forms.{IsNumberToken};

    ghost is_text = { λ item n. IsNumberToken 16 n item };

    #[inline]
    fn from_item(_alloc: Global, item: &str) -> Result<u16, ParseError> {
        match item.parse::<u16>() {
            Ok(number) => Ok(number),
            Err(_) => Err(ParseError::Message("Invalid digit found in the parameter port")),
        }
    }
}

// Base64 (RFC 4648, section 4).
impl FromItem for EchConfigList {
    ghost use Rattle.std.specs.Prelude.{◌≡◌, Ok};
    ghost use Rattle.base64.specs.{Engines.standard, GeneralPurpose.decode_of};

    ghost is_text = { λ item config. decode_of standard item ≡ Ok config.0 };

    #[inline]
    fn from_item(alloc: Global, item: &str) -> Result<EchConfigList, ParseError> {
        match STANDARD.decode(alloc, item.as_bytes()) {
            Ok(octets) => Ok(EchConfigList(Octets::from_vec(octets))),
            Err(DecodeAllocError::OutOfMemory) => Err(ParseError::Memory),
            Err(DecodeAllocError::DecodeError(_)) => Err(ParseError::Message(
                "Invalid base64 in the parameter ech",
            )),
        }
    }
}

// The value of the item of a text.
fn item_of<T: FromItem>(alloc: Global, text: &str) -> Result<T, ParseError>
    ensures ok { IfOk result (ItemOf T.is_text text.now) }
    ensures refused { IfErr result (λ e. e ≢ parse.Memory → (x : T) → ItemOf T.is_text text.now x → ⊥) }
{
    let item = read_item(alloc, text)?;
    T::from_item(alloc, item.as_str())
}

// The values of the items of a list. Allocates for the list, for the values, and for items with a `\`.
#[tactic(auto, using(crate::proofs::ItemLists::so_far_more))]
fn items_of<T: FromItem + Drop>(alloc: Global, text: &str) -> Result<Items<T>, ParseError>
    ensures ok { IfOk result (ListOf T.is_text text.now) }
    ensures refused { IfErr result (λ e. e ≢ parse.Memory → (xs : List T) → ListOf T.is_text text.now xs → ⊥) }
{
    let mut values = Items::new(alloc);
    let mut rest = text;
    'segments: while let Some((segment, more)) = next_segment(alloc, rest)? {
        values.push(item_of(alloc, segment.as_str())?)?;
        rest = more;
    }
    Ok(values)
}
