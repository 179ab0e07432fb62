//! Which token an error is about.

ghost use Rattle.std.specs.Prelude.{ℕ, ◌≤◌, length, IfSome, IfNone};
ghost use Rattle.dns_zone_rows.specs.TokenFaults.{IsTokenAtFault};

use crate::table::zone_row_of;
use dns_types::{ParseError, RecordType};
use dns_zone_tokens::token_span;
use std::ops::Range;

/// The offsets at which the token that an error is about starts and ends in the text, its quotes included. Call it with
/// the type and the text that `from_zone_text` of `dns_rdata_zone` was called with, and its error. Allocates nothing.
///
/// The token is found by the name of the error's field ([`ParseError::field`]): it is the token with the index that
/// this field has in the type's zone row. `None` if there is no such token:
///
/// - The error is about no field: the text cannot be divided into tokens, there is a token too many, or it is about the
///   octets.
/// - The field's token is missing.
/// - The field is a list at the end of the zone row, whose tokens the error does not tell apart: the strings of TXT,
///   the types of CSYNC, hexadecimal digits, base64 and service parameters.
/// - The text is in the unknown-data form, `\#`, a length and octets.
///
/// ```rust
/// if let Some(token) = token_at_fault(record_type, text.as_bytes(), error) {
///     println!(rt; "  octets {} to {}", token.start, token.end)?;
/// }
/// ```
pub fn token_at_fault(
    record_type: RecordType,
    text: &[u8],
    error: &ParseError,
) -> Option<Range<usize>>
    ensures some { IfSome result (λ span. IsTokenAtFault record_type text.now error.now (span.start, span.end)) }
    ensures within { IfSome result (λ span. (span.start ≤ span.end) × (span.end ≤ length text.now)) }
    ensures none { IfNone result ((span : ℕ × ℕ) → IsTokenAtFault record_type text.now error.now span → ⊥) }
{
    let name = error.field()?;
    let zone_row = zone_row_of(record_type)?;
    let index = zone_row.field_index(name)?;
    token_span(text, index)
}
