//! RDATA of few octets, read without an allocation.
//!
//! This serves texts as most are written: short ones, without escapes, with a blank before each token. `false` says nothing
//! of a text, and [`row_octets`](crate::row_octets) then reads it and makes all errors.

ghost use Rattle.std.specs.Prelude.{◌≡◌, ◌≤◌, ◌++◌, [], false, map};
ghost use Rattle.std.specs.{Bool.OnTrue, Int.bytes_high_first, Option.option_copied};
ghost use Rattle.dns_fields.specs.Tlvs.{string as string_octets};
ghost use Rattle.dns_tokens.specs.Forms.{ttl, ipv4, ipv6};
ghost use Rattle.dns_zone_tokens.specs.{Forms.bare, Forms.number, Remaining.TookAll, Views.token_value, ZoneReads.PutAs};
ghost use Rattle.dns_zone_rows.specs.{RowFaults.kind_of, RowSteps.PutField, Rows.FieldGives, Rows.NoToken, Rows.RowGives, Rows.tag};

use crate::zone_row::ZoneField;
use dns_names_wire::Name;
use dns_zone_tokens::{
    ShortOctets, ZoneToken, ZoneTokens, ipv4_of, ipv6_of, number_of, put_after, put_near_name,
    put_near_string, put_near_text, put_octets, ttl_of,
};

/// Reads a text as these fields and no token after them, and appends their octets to an empty buffer. Returns whether it
/// has: `false` says nothing of the text. Allocates nothing.
#[inline]
pub fn put_near_row(
    octets: &mut ShortOctets,
    text: &[u8],
    origin: Option<&Name>,
    fields: &'static [ZoneField],
) -> bool
    requires { octets.old.items ≡ [] }
    ensures { OnTrue result (TookAll (RowGives (option_copied origin.entry) (record { fields = map kind_of fields.now; rest = NoToken })) octets.new.items (record { depth = 0; joined = false; text = text.now })) }
{
    let mut tokens = ZoneTokens::new(text);
    for field in fields {
        match tokens.next_near() {
            Some(token) => {
                if !put_near_field(octets, token, origin, field) {
                    return false;
                }
            }
            None => return false,
        }
    }
    tokens.is_over()
}

// Appends the octets that a token gives for the field.
#[inline]
#[tactic(auto, using(crate::proofs::Adding::near_field))]
fn put_near_field(
    octets: &mut ShortOctets,
    token: ZoneToken<'_>,
    origin: Option<&Name>,
    field: &ZoneField,
) -> bool
    ensures { OnTrue result (PutField (FieldGives (option_copied origin.entry) (kind_of field.now)) octets.old.items octets.new.items (token_value token.entry)) }
{
    match field {
        ZoneField::U8(_) => put_near_number(octets, token, 1),
        ZoneField::U16(_) => put_near_number(octets, token, 2),
        ZoneField::U32(_) => put_near_number(octets, token, 4),
        ZoneField::Ttl(_) => put_near_ttl(octets, token),
        ZoneField::Ipv4(_) => put_near_ipv4(octets, token),
        ZoneField::Ipv6(_) => put_near_ipv6(octets, token),
        ZoneField::Name(_) => put_near_name(octets, token, origin),
        ZoneField::String(_) => put_near_string(octets, token),
        ZoneField::Tag(_) => put_near_tag(octets, token),
        ZoneField::RawText(_) => put_near_text(octets, token),
        _ => false,
    }
}

// Appends a number of so many octets, at most four.
#[inline]
fn put_near_number(octets: &mut ShortOctets, token: ZoneToken<'_>, count: u32) -> bool
    requires { count ≤ 4 }
    ensures { OnTrue result (PutAs (number count) (bytes_high_first count) octets.old.items octets.new.items (token_value token.entry)) }
{
    match number_of(token, count, "") {
        Ok(value) => put_value(octets, value, count),
        Err(_) => false,
    }
}

// Appends the last octets of a number, the highest first.
#[inline]
#[tactic(auto, using(crate::proofs::Adding::last_octets))]
fn put_value(octets: &mut ShortOctets, value: u32, count: u32) -> bool
    requires { count ≤ 4 }
    ensures { OnTrue result (octets.new.items ≡ octets.old.items ++ bytes_high_first count value) }
{
    put_octets(octets, &value.to_be_bytes()[4 - count as usize..])
}

#[inline]
fn put_near_ttl(octets: &mut ShortOctets, token: ZoneToken<'_>) -> bool
    ensures { OnTrue result (PutAs (bare (ttl 4294967295)) (bytes_high_first 4) octets.old.items octets.new.items (token_value token.entry)) }
{
    match ttl_of(token, "") {
        Ok(seconds) => put_octets(octets, &seconds.to_be_bytes()),
        Err(_) => false,
    }
}

#[inline]
fn put_near_ipv4(octets: &mut ShortOctets, token: ZoneToken<'_>) -> bool
    ensures { OnTrue result (PutAs (bare ipv4) (λ s. s) octets.old.items octets.new.items (token_value token.entry)) }
{
    match ipv4_of(token, "") {
        Ok(address) => put_octets(octets, &address.octets()),
        Err(_) => false,
    }
}

#[inline]
fn put_near_ipv6(octets: &mut ShortOctets, token: ZoneToken<'_>) -> bool
    ensures { OnTrue result (PutAs (bare ipv6) (λ s. s) octets.old.items octets.new.items (token_value token.entry)) }
{
    match ipv6_of(token, "") {
        Ok(address) => put_octets(octets, &address.octets()),
        Err(_) => false,
    }
}

// Appends the length and the octets of a token without quotes.
#[inline]
fn put_near_tag(octets: &mut ShortOctets, token: ZoneToken<'_>) -> bool
    ensures { OnTrue result (PutAs tag string_octets octets.old.items octets.new.items (token_value token.entry)) }
{
    let tag = token.raw;
    if token.quoted || tag.len() == 0 || tag.len() > 127 {
        return false;
    }
    put_after(octets, tag.len() as u8, tag)
}
