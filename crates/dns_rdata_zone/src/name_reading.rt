//! Domain names read from texts of zone files.

ghost use Rattle.std.specs.{Prelude.◌≡◌, Prelude.◌⊎◌, Prelude.IfOk, Prelude.IfErr, Option.option_copied};
ghost use Rattle.dns_fields.specs.Labels.{IsName, full_name};
ghost use Rattle.dns_tokens.specs.Reads.{UnlessParseMemory};
ghost use Rattle.dns_zone_tokens.specs.NameTokens.{name_octets};
ghost use Rattle.dns_rdata_zone.specs.NameTexts.{IsZoneName, IsNoZoneName, ZoneNameFault};

use dns_rdata::{BinDecoder, Name, ParseError};
use dns_zone_rows::{ZoneField, ZoneRest, ZoneRow, row_octets};
use dns_zone_tokens::{ZoneTokens, name_field};
use std::alloc::Global;

static NAME: [ZoneField; 1] = [ZoneField::Name(name_field!("name"))];

const SURPLUS: &str = "surplus token after the RDATA";

/// The domain name that a text of a zone file is (RFC 1035, section 5.1).
///
/// The text is one token without quotes. `@` alone is the origin and `.` the root. Labels are joined by dots; `\DDD` is
/// the octet of that number and `\X` the character X, even a dot within a label. If no dot ends the text, the origin's
/// labels follow; without an origin none do. The result is fully qualified in each case, as in
/// [`from_zone_text`](crate::from_zone_text); [`Name::parse`] leaves such a name relative, and reads `@` as a label.
///
/// # Errors
///
/// - [`MissingToken`](ParseError::MissingToken): the text has no token.
/// - [`Message`](ParseError::Message): the text cannot be divided into tokens, there is a second token, or the token is
///   no name: it is in quotes, is `@` without an origin, has a `\` that escapes nothing, an empty label, a label of
///   more than 63 octets, or has more than 255 octets in all.
/// - [`Memory`](ParseError::Memory): an allocation fails.
///
/// With the origin `example.com.` the text `mail` is `mail.example.com.`, `mail.` is `mail.`, and `a\.b` is one label
/// and the origin.
pub fn name_from_zone_text(
    alloc: Global,
    text: &[u8],
    origin: Option<&Name>,
) -> Result<Name, ParseError>
    // A name is returned exactly if the text is one, and it is that name.
    ensures found { IfOk result (IsZoneName (option_copied origin.entry) text.now) }
    ensures refused { IfErr result (λ e. UnlessParseMemory e (IsNoZoneName (option_copied origin.entry) text.now)) }
    // The error says what is wrong.
    ensures why { IfErr result (λ e. (e ≡ ParseError.Memory) ⊎ ZoneNameFault (option_copied origin.entry) text.now e) }
{
    let zone_row = ZoneRow {
        fields: &NAME,
        rest: ZoneRest::Nothing(SURPLUS),
    };
    let octets = row_octets(alloc, &mut ZoneTokens::new(text), origin, &zone_row)?;
    whole_name(alloc, octets.as_slice())
}

// The name whose uncompressed octets these are.
fn whole_name(alloc: Global, octets: &[u8]) -> Result<Name, ParseError>
    ensures found { IfOk result (λ x. (y : _) → octets.now ≡ name_octets y → IsName y → x ≡ full_name y) }
    ensures memory { IfErr result (λ e. e ≡ ParseError.Memory) }
{
    let mut decoder = BinDecoder::new(alloc, octets);
    match Name::read(&mut decoder) {
        Ok(name) => Ok(name),
        // Unreachable unless an allocation fails: the octets of a zone row of one name are a name.
        Err(_) => Err(ParseError::Memory),
    }
}
