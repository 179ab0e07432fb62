//! RDATA of a zone file as octets.

ghost use Rattle.std.specs.{Prelude.◌≡◌, Prelude.◌⊎◌, Prelude.IfErr, Option.option_copied};
ghost use Rattle.dns_zone_tokens.specs.Remaining.{ReadsAll};
ghost use Rattle.dns_zone_rows.specs.{RowFaults.row_value, RowFaults.RowFault, Rows.RowGives};

use crate::fields::add_field;
use crate::remaining::add_rest;
use crate::zone_row::ZoneRow;
use dns_names_wire::Name;
use dns_types::{Octets, ParseError};
use dns_zone_tokens::ZoneTokens;
use std::alloc::Global;

/// Reads all remaining tokens as the fields of a zone row and returns their octets, one field after the other, as on
/// the wire, with names uncompressed and their case preserved. The origin completes names that do not end with a dot,
/// and `@` is the origin. Allocates for the octets, and for a time for each name, string, hexadecimal and base64 field.
///
/// # Errors
///
/// How many tokens are taken then is not said.
///
/// - [`MissingToken`](ParseError::MissingToken): a token is missing; the text is the name of its field.
/// - [`Message`](ParseError::Message): a token is no value of its field, there is a token too many, or the text cannot
///   be divided into tokens. The text is that of the first field at fault.
/// - [`Memory`](ParseError::Memory): an allocation failed.
pub fn row_octets(
    alloc: Global,
    tokens: &mut ZoneTokens<'_>,
    origin: Option<&Name>,
    zone_row: &ZoneRow,
) -> Result<Octets, ParseError>
    ensures reads { ReadsAll (RowGives (option_copied origin.entry) (row_value zone_row.now)) (λ x. x) result tokens.old }
    ensures why { IfErr result (λ e. (e ≡ ParseError.Memory) ⊎ RowFault (option_copied origin.entry) zone_row.now tokens.old e) }
{
    // A single name or string without quotes gives one octet more than it has characters.
    let letters = tokens.octets_left();
    let mut octets = Vec::with_capacity(alloc, letters.saturating_add(letters.min(1)))?;
    for field in zone_row.fields {
        add_field(tokens, origin, field, &mut octets)?;
    }
    add_rest(alloc, tokens, &zone_row.rest, &mut octets)?;
    Ok(Octets::from_vec(octets))
}
