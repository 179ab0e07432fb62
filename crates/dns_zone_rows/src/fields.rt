//! Fields of one token, appended to the octets of those before them.
#![tactic(auto, using(crate::proofs::Adding::exit_puts, crate::proofs::Adding::puts_field))]

ghost use Rattle.std.specs.Prelude.{◌≡◌, ◌≤◌, ◌⊎◌, ◌++◌, IfErr, OnOk};
ghost use Rattle.std.specs.{Int.bytes_high_first, List.list_all, Option.option_copied};
ghost use Rattle.dns_fields.specs.Tlvs.{string as string_octets};
ghost use Rattle.dns_tokens.specs.Forms.{ttl, ipv4, ipv6};
ghost use Rattle.dns_zone_tokens.specs.{Forms.bare, Forms.number, Letters.is_digit, Mnemonics.named_values, Views.token_value, ZoneReads.PutsAs, ZoneReads.WrongToken};
ghost use Rattle.dns_zone_rows.specs.{Mnemonics.named_number, RowFaults.kind_of, RowFaults.TokenFault, RowFaults.FieldFault, RowSteps.AddsFirst};
ghost use Rattle.dns_zone_rows.specs.{RowSteps.PutsField, Rows.FieldGives, Rows.digits, Rows.grouped, Rows.quoted_text, Rows.tag, Rows.type_number, Times.time};

use crate::digits::{put_base32, put_salt};
use crate::groups::{Groups, put_groups};
use crate::mnemonics::{algorithm_names, cert_type_names, named_of, scheme_names};
use crate::times::time_of;
use crate::zone_row::ZoneField;
use dns_names_wire::Name;
use dns_types::ParseError;
use dns_zone_tokens::{
    Mnemonic, ZoneToken, ZoneTokens, ipv4_of, ipv6_of, number_of, put_name, put_string, put_text,
    some_token, ttl_of, type_of,
};

const COLONS: Groups = Groups {
    separator: b':',
    least: 1,
    width: 2,
    total: 8,
};

const EUI48: Groups = Groups {
    separator: b'-',
    least: 2,
    width: 1,
    total: 6,
};

const EUI64: Groups = Groups {
    separator: b'-',
    least: 2,
    width: 1,
    total: 8,
};

// Takes the next token and appends the octets that it gives for the field.
#[tactic(auto, using(crate::proofs::Adding::adds_first, crate::proofs::Adding::field_why))]
pub(crate) fn add_field(
    tokens: &mut ZoneTokens<'_>,
    origin: Option<&Name>,
    field: &ZoneField,
    octets: &mut Vec<u8>,
) -> Result<(), ParseError>
    ensures adds { AddsFirst (FieldGives (option_copied origin.entry) (kind_of field.now)) result octets.old.items octets.new.items tokens.old tokens.new }
    ensures why { IfErr result (λ e. (e ≡ ParseError.Memory) ⊎ FieldFault (option_copied origin.entry) field.now tokens.old e) }
{
    let token = match tokens.next_near() {
        Some(token) => token,
        None => some_token(tokens, field.name())?,
    };
    put_field(octets, token, origin, field)
}

// Appends the octets that a token gives for the field.
fn put_field(
    octets: &mut Vec<u8>,
    token: ZoneToken<'_>,
    origin: Option<&Name>,
    field: &ZoneField,
) -> Result<(), ParseError>
    ensures puts { PutsField (FieldGives (option_copied origin.entry) (kind_of field.now)) result octets.old.items octets.new.items (token_value token.entry) }
    ensures why { IfErr result (λ e. (e ≡ ParseError.Memory) ⊎ TokenFault (option_copied origin.entry) field.now (token_value token.entry) e) }
{
    match field {
        ZoneField::U8(field) => put_number(octets, token, 1, field.wrong),
        ZoneField::U16(field) => put_number(octets, token, 2, field.wrong),
        ZoneField::U32(field) => put_number(octets, token, 4, field.wrong),
        ZoneField::Ttl(field) => put_ttl(octets, token, field.wrong),
        ZoneField::Ipv4(field) => put_ipv4(octets, token, field.wrong),
        ZoneField::Ipv6(field) => put_ipv6(octets, token, field.wrong),
        ZoneField::Name(field) => put_name(octets, token, origin, field),
        ZoneField::String(field) => put_string(octets, token, field),
        ZoneField::Tag(field) => put_tag(octets, token, field.wrong),
        ZoneField::CertType(field) => put_named(octets, token, 2, cert_type_names(), field.wrong),
        ZoneField::Algorithm(field) => put_named(octets, token, 1, algorithm_names(), field.wrong),
        ZoneField::RawText(field) => put_text(octets, token, field.wrong),
        ZoneField::QuotedText(field) => put_quoted(octets, token, field.wrong),
        ZoneField::Digits(field) => put_digits(octets, token, field.wrong),
        ZoneField::Type(field) => put_type(octets, token, field.wrong),
        ZoneField::Scheme(field) => put_named(octets, token, 1, scheme_names(), field.wrong),
        ZoneField::Time(field) => put_time(octets, token, field.wrong),
        ZoneField::Salt(field) => put_salt(octets, token, field.wrong),
        ZoneField::Base32(field) => put_base32(octets, token, field.wrong),
        ZoneField::Groups(field) => put_grouped(octets, token, COLONS, field.wrong),
        ZoneField::Eui48(field) => put_grouped(octets, token, EUI48, field.wrong),
        ZoneField::Eui64(field) => put_grouped(octets, token, EUI64, field.wrong),
    }
}

// Appends a number of so many octets, at most four. Any other token gives the error with the text `wrong`, here and
// below.
#[inline(always)]
fn put_number(
    octets: &mut Vec<u8>,
    token: ZoneToken<'_>,
    count: u32,
    wrong: &'static str,
) -> Result<(), ParseError>
    requires { count ≤ 4 }
    ensures puts { PutsAs (number count) (bytes_high_first count) result octets.old.items octets.new.items (token_value token.entry) }
    ensures why { IfErr result (λ e. (e ≡ ParseError.Memory) ⊎ WrongToken (number count) (ParseError.Message wrong.entry) (token_value token.entry) e) }
{
    let value = number_of(token, count, wrong)?;
    add_number(octets, value, count)
}

// Appends a number that may have one of these names.
#[inline(always)]
fn put_named(
    octets: &mut Vec<u8>,
    token: ZoneToken<'_>,
    count: u32,
    names: &[Mnemonic],
    wrong: &'static str,
) -> Result<(), ParseError>
    requires { count ≤ 4 }
    ensures puts { PutsAs (named_number count (named_values names.now)) (bytes_high_first count) result octets.old.items octets.new.items (token_value token.entry) }
    ensures why { IfErr result (λ e. (e ≡ ParseError.Memory) ⊎ WrongToken (named_number count (named_values names.now)) (ParseError.Message wrong.entry) (token_value token.entry) e) }
{
    let value = named_of(token, count, names, wrong)?;
    add_number(octets, value, count)
}

fn put_ttl(
    octets: &mut Vec<u8>,
    token: ZoneToken<'_>,
    wrong: &'static str,
) -> Result<(), ParseError>
    ensures puts { PutsAs (bare (ttl 4294967295)) (bytes_high_first 4) result octets.old.items octets.new.items (token_value token.entry) }
    ensures why { IfErr result (λ e. (e ≡ ParseError.Memory) ⊎ WrongToken (bare (ttl 4294967295)) (ParseError.Message wrong.entry) (token_value token.entry) e) }
{
    let seconds = ttl_of(token, wrong)?;
    add_octets(octets, &seconds.to_be_bytes())
}

fn put_ipv4(
    octets: &mut Vec<u8>,
    token: ZoneToken<'_>,
    wrong: &'static str,
) -> Result<(), ParseError>
    ensures puts { PutsAs (bare ipv4) (λ s. s) result octets.old.items octets.new.items (token_value token.entry) }
    ensures why { IfErr result (λ e. (e ≡ ParseError.Memory) ⊎ WrongToken (bare ipv4) (ParseError.Message wrong.entry) (token_value token.entry) e) }
{
    let address = ipv4_of(token, wrong)?;
    add_octets(octets, &address.octets())
}

fn put_ipv6(
    octets: &mut Vec<u8>,
    token: ZoneToken<'_>,
    wrong: &'static str,
) -> Result<(), ParseError>
    ensures puts { PutsAs (bare ipv6) (λ s. s) result octets.old.items octets.new.items (token_value token.entry) }
    ensures why { IfErr result (λ e. (e ≡ ParseError.Memory) ⊎ WrongToken (bare ipv6) (ParseError.Message wrong.entry) (token_value token.entry) e) }
{
    let address = ipv6_of(token, wrong)?;
    add_octets(octets, &address.octets())
}

// Appends the length and the octets of a token, of 1 to 255 octets and without quotes, as it is.
fn put_tag(
    octets: &mut Vec<u8>,
    token: ZoneToken<'_>,
    wrong: &'static str,
) -> Result<(), ParseError>
    ensures puts { PutsAs tag string_octets result octets.old.items octets.new.items (token_value token.entry) }
    ensures why { IfErr result (λ e. (e ≡ ParseError.Memory) ⊎ WrongToken tag (ParseError.Message wrong.entry) (token_value token.entry) e) }
{
    let tag = token.raw;
    if token.quoted || tag.len() == 0 || tag.len() > 255 {
        return Err(ParseError::Message(wrong));
    }
    octets.push(tag.len() as u8)?;
    add_octets(octets, tag)
}

// Appends the number of a type.
fn put_type(
    octets: &mut Vec<u8>,
    token: ZoneToken<'_>,
    wrong: &'static str,
) -> Result<(), ParseError>
    ensures puts { PutsAs type_number (bytes_high_first 2) result octets.old.items octets.new.items (token_value token.entry) }
    ensures why { IfErr result (λ e. (e ≡ ParseError.Memory) ⊎ WrongToken type_number (ParseError.Message wrong.entry) (token_value token.entry) e) }
{
    let record_type = type_of(token, wrong)?;
    add_octets(octets, &u16::from(record_type).to_be_bytes())
}

fn put_time(
    octets: &mut Vec<u8>,
    token: ZoneToken<'_>,
    wrong: &'static str,
) -> Result<(), ParseError>
    ensures puts { PutsAs time (bytes_high_first 4) result octets.old.items octets.new.items (token_value token.entry) }
    ensures why { IfErr result (λ e. (e ≡ ParseError.Memory) ⊎ WrongToken time (ParseError.Message wrong.entry) (token_value token.entry) e) }
{
    let seconds = time_of(token, wrong)?;
    add_octets(octets, &seconds.to_be_bytes())
}

// Appends the octets of groups of digits.
fn put_grouped(
    octets: &mut Vec<u8>,
    token: ZoneToken<'_>,
    form: Groups,
    wrong: &'static str,
) -> Result<(), ParseError>
    requires { form.width ≤ 2 }
    ensures puts { PutsAs (grouped form) (λ s. s) result octets.old.items octets.new.items (token_value token.entry) }
    ensures why { IfErr result (λ e. (e ≡ ParseError.Memory) ⊎ WrongToken (grouped form) (ParseError.Message wrong.entry) (token_value token.entry) e) }
{
    if token.quoted {
        return Err(ParseError::Message(wrong));
    }
    if !put_groups(octets, token.raw, form)? {
        return Err(ParseError::Message(wrong));
    }
    Ok(())
}

// Appends the octets of a text in quotes, one or more.
fn put_quoted(
    octets: &mut Vec<u8>,
    token: ZoneToken<'_>,
    wrong: &'static str,
) -> Result<(), ParseError>
    ensures puts { PutsAs quoted_text (λ s. s) result octets.old.items octets.new.items (token_value token.entry) }
    ensures why { IfErr result (λ e. (e ≡ ParseError.Memory) ⊎ WrongToken quoted_text (ParseError.Message wrong.entry) (token_value token.entry) e) }
{
    if !token.quoted {
        return Err(ParseError::Message(wrong));
    }
    let start = octets.len();
    put_text(octets, token, wrong)?;
    if octets.len() == start {
        return Err(ParseError::Message(wrong));
    }
    Ok(())
}

// Appends the length and the octets of a token of 4 to 255 decimal digits.
fn put_digits(
    octets: &mut Vec<u8>,
    token: ZoneToken<'_>,
    wrong: &'static str,
) -> Result<(), ParseError>
    ensures puts { PutsAs digits string_octets result octets.old.items octets.new.items (token_value token.entry) }
    ensures why { IfErr result (λ e. (e ≡ ParseError.Memory) ⊎ WrongToken digits (ParseError.Message wrong.entry) (token_value token.entry) e) }
{
    let digits = token.raw;
    if digits.len() < 4 || digits.len() > 255 || !are_digits(digits) {
        return Err(ParseError::Message(wrong));
    }
    octets.push(digits.len() as u8)?;
    add_octets(octets, digits)
}

// Whether all octets are decimal digits.
fn are_digits(text: &[u8]) -> bool
    ensures { result ≡ list_all is_digit text.now }
{
    for octet in text {
        if !octet.is_ascii_digit() {
            return false;
        }
    }
    true
}

// Appends the last octets of a number, the highest first.
#[inline]
#[tactic(auto, using(crate::proofs::Adding::last_octets))]
pub(crate) fn add_number(octets: &mut Vec<u8>, value: u32, count: u32) -> Result<(), ParseError>
    requires { count ≤ 4 }
    ensures added { OnOk result (octets.new.items ≡ octets.old.items ++ bytes_high_first count value) }
    ensures memory { IfErr result (λ e. e ≡ ParseError.Memory) }
{
    add_octets(octets, &value.to_be_bytes()[4 - count as usize..])
}

// Appends octets.
#[inline]
pub(crate) fn add_octets(octets: &mut Vec<u8>, more: &[u8]) -> Result<(), ParseError>
    ensures added { OnOk result (octets.new.items ≡ octets.old.items ++ more.now) }
    ensures memory { IfErr result (λ e. e ≡ ParseError.Memory) }
{
    octets.extend_from_slice(more)?;
    Ok(())
}
