//! Numbers that tokens have by name.

ghost use Rattle.std.specs.Prelude.{◌≡◌, ◌≤◌, IfErr, IfSome, IfNone};
ghost use Rattle.dns_zone_rows.specs.Mnemonics.{named_number, cert_types, algorithms, schemes, IsByName, IsNotByName};
ghost use Rattle.dns_zone_tokens.specs.{Mnemonics.named_values, Views.token_value, ZoneReads.ReadsAs, ZoneReads.WrongToken};

use dns_types::ParseError;
use dns_zone_tokens::{Mnemonic, ZoneToken, named, number_named, number_of};

static CERT_TYPES: [Mnemonic; 10] = [
    named!("PKIX" = 1),
    named!("SPKI" = 2),
    named!("PGP" = 3),
    named!("IPKIX" = 4),
    named!("ISPKI" = 5),
    named!("IPGP" = 6),
    named!("ACPKIX" = 7),
    named!("IACPKIX" = 8),
    named!("URI" = 253),
    named!("OID" = 254),
];

static ALGORITHMS: [Mnemonic; 21] = [
    named!("RSAMD5" = 1),
    named!("DH" = 2),
    named!("DSA" = 3),
    named!("RSASHA1" = 5),
    named!("DSA-NSEC3-SHA1" = 6),
    named!("NSEC3DSA" = 6),
    named!("RSASHA1-NSEC3-SHA1" = 7),
    named!("NSEC3RSASHA1" = 7),
    named!("RSASHA256" = 8),
    named!("RSASHA512" = 10),
    named!("ECC-GOST" = 12),
    named!("ECCGOST" = 12),
    named!("ECDSAP256SHA256" = 13),
    named!("ECDSA256" = 13),
    named!("ECDSAP384SHA384" = 14),
    named!("ECDSA384" = 14),
    named!("ED25519" = 15),
    named!("ED448" = 16),
    named!("INDIRECT" = 252),
    named!("PRIVATEDNS" = 253),
    named!("PRIVATEOID" = 254),
];

static SCHEMES: [Mnemonic; 1] = [named!("NOTIFY" = 1)];

/// The names of schemes of DSYNC (RFC 9859, section 2.1).
#[inline]
pub fn scheme_names() -> &'static [Mnemonic]
    ensures { named_values result.now ≡ schemes }
{
    &SCHEMES
}

/// The names of certificate types (RFC 4398, section 2.1).
#[inline]
pub fn cert_type_names() -> &'static [Mnemonic]
    ensures { named_values result.now ≡ cert_types }
{
    &CERT_TYPES
}

/// The names of DNSSEC algorithms (RFC 4034, appendix A.1, and later ones of IANA), with the shorter names that BIND
/// has.
#[inline]
pub fn algorithm_names() -> &'static [Mnemonic]
    ensures { named_values result.now ≡ algorithms }
{
    &ALGORITHMS
}

// The number that a token without quotes has by name.
#[inline]
fn number_by_name(token: ZoneToken<'_>, names: &[Mnemonic]) -> Option<u16>
    ensures some { IfSome result (λ value. IsByName (named_values names.now) value (token_value token.entry)) }
    ensures none { IfNone result (IsNotByName (named_values names.now) (token_value token.entry)) }
{
    if token.quoted {
        return None;
    }
    number_named(names, token.raw)
}

/// Reads a number by one of these names, or by a number of so many octets, at most four, without quotes. Any other token
/// gives [`Message`](ParseError::Message) with the text `wrong`. Allocates nothing.
pub fn named_of(
    token: ZoneToken<'_>,
    octets: u32,
    names: &[Mnemonic],
    wrong: &'static str,
) -> Result<u32, ParseError>
    requires { octets ≤ 4 }
    ensures reads { ReadsAs (named_number octets (named_values names.now)) (λ n. n) result (token_value token.entry) }
    ensures why { IfErr result (WrongToken (named_number octets (named_values names.now)) (ParseError.Message wrong.entry) (token_value token.entry)) }
{
    match number_by_name(token, names) {
        Some(value) => Ok(value as u32),
        None => number_of(token, octets, wrong),
    }
}
