//! The values of issuer properties (RFC 8659, 4.2).

ghost use Rattle.std.specs.Prelude.{◌≡◌, ◌↔◌, ◌++◌, ◌∷◌, ◌==◌, ◌⊎◌, ℕ, List, not, IsTrue, IfOk, IfErr, OnOk, MatchResult, Option, ◌&&◌};
ghost use Rattle.std.specs.{List.list_all, List.AllByRecursion, Option.option_copied, Str.IsUtf8, Char.is_ascii_alphanumeric, String.string_bytes};
ghost use Rattle.std.specs.{Cmp.Lexicographic.pointwise, Cmp.Rules.comparing, Cmp.Rules.hashing};
ghost use Rattle.std.specs.Hash as fed;
ghost use Rattle.std.proofs.Common.{rules};
ghost use Rattle.dns_types.specs.declared.error.DecodeError.TheVariants as decode;
ghost use Rattle.dns_types.specs.declared.error.ProtoError.TheVariants as proto;
ghost use Rattle.dns_fields.specs.Labels.{DomainName};
ghost use Rattle.dns_names_wire.specs.NameValues.{IsTextError};
ghost use Rattle.dns_rdata_policy.specs.Issuer.{Parameter, is_blank, is_key_octet, is_value_octet, is_no_semicolon, IsKey, IsParameter};
ghost use Rattle.dns_tokens.specs.Octets.{AllOf, Span};
ghost use Rattle.dns_rdata_policy.specs.Issuer.{parameter_octets, AreParameters, IsIssuerName, IsNameError, IsIssuer, IsIssuerError, IsNamed};
ghost use Rattle.dns_rdata_policy.specs.Issuer.{IsWritable, issuer_name_text, parameters_text, issuer_value};

use dns_names_wire::{DecodeError, Name, ProtoError, ProtoResult};
use std::alloc::{AllocError, Global};
use std::hash::{Hash, Hasher};
use std::marker::Model;

/// A parameter of an issuer: a key and its value (RFC 8659, 4.2). Any texts can be given; those that are read are in
/// the grammar.
#[derive(Debug, Drop)]
pub struct KeyValue {
    key: String,
    value: String,
}

impl Model for KeyValue {
    ghost Value = { Parameter };

    ghost view = { λ x. record { key = string_bytes x.key; value = string_bytes x.value } };
}

impl KeyValue {
    /// Makes a parameter of these texts, which are moved.
    #[inline]
    pub fn new(key: String, value: String) -> KeyValue
        ensures { result ≡ record { key = string_bytes key; value = string_bytes value } }
    {
        KeyValue { key, value }
    }

    /// The key.
    #[inline]
    pub fn key(&self) -> &str
        ensures { result.now ≡ self.now.key }
    {
        self.key.as_str()
    }

    /// The value.
    #[inline]
    pub fn value(&self) -> &str
        ensures { result.now ≡ self.now.value }
    {
        self.value.as_str()
    }
}

impl PartialEq for KeyValue {
    ghost eq = { λ a b. pointwise ◌==◌ a.key b.key && pointwise ◌==◌ a.value b.value };

    ghost laws = { Prim.search (comparing, rules) };

    #[inline]
    fn eq(&self, other: &KeyValue) -> bool
        ensures { IsTrue result ↔ (self.now ≡ other.now) }
    {
        self.key() == other.key() && self.value() == other.value()
    }
}

impl Eq for KeyValue {
    ghost laws = { Prim.search (comparing, rules) };
}

impl Hash for KeyValue {
    ghost hash_input = { λ x. fed.str x.key ++ fed.str x.value };

    ghost respects_eq = { Prim.search (hashing, rules) };

    fn hash<H: Hasher>(&self, state: &mut H) {
        self.key().hash(state);
        self.value().hash(state);
    }
}

impl Clone for KeyValue {
    ghost is_clone = { λ a b. b ≡ a };

    #[inline]
    fn clone(&self) -> Result<KeyValue, AllocError> {
        Ok(KeyValue {
            key: self.key.clone()?,
            value: self.value.clone()?,
        })
    }
}

const MALFORMED: ProtoError = ProtoError::Message("not the value of an issuer property");

fn is_blank_octet(octet: u8) -> bool
    ensures { result ≡ is_blank octet }
{
    matches!(octet, b';' | b' ' | b'\t')
}

// The blanks at the beginning, and what follows them.
fn cut_blanks(octets: &[u8]) -> (&[u8], &[u8])
    ensures { Span is_blank result.0.now octets.now result.1.now }
{
    let mut len = 0;
    for octet in octets {
        if !is_blank_octet(*octet) {
            break;
        }
        len += 1;
    }
    octets.split_at(len)
}

// The octets before the first such octet, and those from it on.
fn cut_at(octets: &[u8], stop: u8) -> (&[u8], &[u8])
    ensures { Span (λ c. not (c == stop)) result.0.now octets.now result.1.now }
{
    let mut len = 0;
    for octet in octets {
        if *octet == stop {
            break;
        }
        len += 1;
    }
    octets.split_at(len)
}

fn are_key_octets(octets: &[u8]) -> bool
    ensures { result ≡ list_all is_key_octet octets.now }
{
    octets
        .iter()
        .all(|c| c.is_ascii_alphanumeric() || *c == b'-')
}

fn are_value_octets(octets: &[u8]) -> bool
    ensures { result ≡ list_all is_value_octet octets.now }
{
    octets
        .iter()
        .all(|c| matches!(*c, 0x21..=0x3a | 0x3c..=0x7e))
}

fn is_key(octets: &[u8]) -> bool
    ensures { IsTrue result ↔ IsKey octets.now }
{
    match octets {
        [] => false,
        [first] => first.is_ascii_alphanumeric(),
        [first, second, others @ ..] => {
            first.is_ascii_alphanumeric()
                && second.is_ascii_alphanumeric()
                && are_key_octets(others)
        }
    }
}

// The pair that all these octets are.
fn read_pair(alloc: Global, octets: &[u8]) -> ProtoResult<KeyValue>
    ensures read { IfOk result (λ x. (octets.now ≡ parameter_octets x) × IsParameter x) }
    ensures refused { IfErr result (λ e. IsTextError e ((x : Parameter) → octets.now ≡ parameter_octets x → IsParameter x → ⊥)) }
{
    let (key, rest) = cut_at(octets, b'=');
    let Some((_, value)) = rest.split_first() else {
        return Err(MALFORMED);
    };
    if !is_key(key) {
        return Err(MALFORMED);
    }
    if !are_value_octets(value) {
        return Err(MALFORMED);
    }
    // both are ASCII
    let key = String::from_utf8_lossy(alloc, key)?;
    let value = String::from_utf8_lossy(alloc, value)?;
    Ok(KeyValue { key, value })
}

// The pairs after the name and its semicolon.
fn read_pairs(alloc: Global, octets: &[u8]) -> ProtoResult<Vec<KeyValue>>
    ensures read { IfOk result (λ v. AreParameters octets.now v.items) }
    ensures refused { IfErr result (λ e. IsTextError e ((xs : List Parameter) → AreParameters octets.now xs → ⊥)) }
{
    let mut pairs = Vec::new(alloc);
    let mut rest = cut_blanks(octets).1;
    'pairs: while rest.len() > 0 {
        let (pair, behind) = cut_at(rest, b';');
        pairs.push(read_pair(alloc, pair)?)?;
        rest = cut_blanks(behind).1;
    }
    Ok(pairs)
}

// The name that all these octets are the text of, or none.
fn read_name(alloc: Global, octets: &[u8]) -> ProtoResult<Option<Name>>
    ensures read { IfOk result (λ x. IsIssuerName octets.now x) }
    ensures refused { IfErr result (λ e. IsNameError octets.now e) }
{
    if octets.len() == 0 {
        return Ok(None);
    }
    match str::from_utf8(octets) {
        Ok(text) => Ok(Some(Name::from_ascii(alloc, text)?)),
        Err(_) => Err(ProtoError::Decode(DecodeError::Utf8)),
    }
}

/// The name and the parameters that the value of an issuer property has (RFC 8659, 4.2).
///
/// The octets before the first `;`, or all if there is none, are a name by `Name::from_ascii`; no octets are no name.
/// After that `;` are blanks, which are any number of `;`, spaces and tabs; or blanks and a parameter; or blanks, a
/// parameter, a `;`, and again such octets. A parameter is a key, `=` and a value: a key is one ASCII letter or digit,
/// or two and then any number of letters, digits and `-`; a value is any number of octets 0x21 to 0x3A and 0x3C to
/// 0x7E.
///
/// # Errors
///
/// - [`Decode`](ProtoError::Decode) of `Utf8`: the octets of the name are not UTF-8.
/// - [`Message`](ProtoError::Message): there is no such name or parameter.
/// - [`Memory`](ProtoError::Memory): an allocation failed.
#[tactic(auto, using(crate::proofs::Issuers::issuer_read))]
pub fn read_issuer(alloc: Global, octets: &[u8]) -> ProtoResult<(Option<Name>, Vec<KeyValue>)>
    ensures read { IfOk result (λ x. IsIssuer octets.now x.0 x.1.items) }
    ensures refused { IfErr result (λ e. IsIssuerError octets.now e) }
    // the value of a name and parameters is read as these
    ensures reads_back { (name : Option DomainName) (xs : List Parameter) → IsIssuer octets.now name xs →
        MatchResult result (λ x. (x.0 ≡ name) × (x.1.items ≡ xs)) (λ e. e ≡ ProtoError.Memory) }
{
    let (name, rest) = cut_at(octets, b';');
    let name = read_name(alloc, name)?;
    let pairs = read_pairs(alloc, rest)?;
    Ok((name, pairs))
}

/// The text of a URL for incident reports (RFC 8659, section 4.4), as it is. Fails with [`Decode`](ProtoError::Decode)
/// of `Utf8` exactly if it is not UTF-8. Allocates nothing.
pub fn read_iodef(url: &[u8]) -> ProtoResult<&str>
    ensures read { IfOk result (λ text. (text.now ≡ url.now) × IsUtf8 url.now) }
    ensures refused { IfErr result (λ e. (e ≡ proto.Decode decode.Utf8) × (IsUtf8 url.now → ⊥)) }
{
    match str::from_utf8(url) {
        Ok(text) => Ok(text),
        Err(_) => Err(ProtoError::Decode(DecodeError::Utf8)),
    }
}

// The printed text of a name, or nothing.
fn name_octets(alloc: Global, name: Option<&Name>) -> Result<Vec<u8>, AllocError>
    ensures text { IfOk result (λ v. v.items ≡ issuer_name_text (option_copied name.entry)) }
    ensures name { IsNamed (option_copied name.entry) }
{
    match name {
        Some(name) => {
            // For the proof: brings in that the labels are octets.
            let _len = name.len();
            Ok(name.to_ascii()?.into_bytes())
        }
        None => Ok(Vec::new(alloc)),
    }
}

// Appends each parameter after a semicolon and a space.
fn append_pairs(out: &mut Vec<u8>, pairs: &[KeyValue]) -> Result<(), AllocError>
    ensures { OnOk result (out.new.items ≡ out.old.items ++ parameters_text pairs.now) }
{
    for pair in pairs {
        out.extend_from_slice(b"; ")?;
        out.extend_from_slice(pair.key().as_bytes())?;
        out.push(b'=')?;
        out.extend_from_slice(pair.value().as_bytes())?;
    }
    Ok(())
}

// The value of an issuer property.
pub(super) fn issuer_octets(
    alloc: Global,
    name: Option<&Name>,
    pairs: &[KeyValue],
) -> Result<Vec<u8>, AllocError>
    ensures value { IfOk result (λ v. v.items ≡ issuer_value (option_copied name.entry) pairs.now) }
    ensures name { IsNamed (option_copied name.entry) }
{
    let mut out = name_octets(alloc, name)?;
    if name.is_none() && pairs.len() == 0 {
        out.push(b';')?;
        return Ok(out);
    }
    append_pairs(&mut out, pairs)?;
    Ok(out)
}
