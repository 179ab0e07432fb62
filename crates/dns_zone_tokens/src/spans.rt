//! Where the tokens of a text are.

ghost use Rattle.std.specs.Prelude.{◌≡◌, ◌≤◌, length, slice_get, IfSome};
ghost use Rattle.std.specs.Option.{option_map};
ghost use Rattle.dns_zone_tokens.specs.Spans.{spans};

use crate::tokens::ZoneTokens;
use std::ops::Range;

/// Returns the offsets at which the token with this index starts and ends in a text of a zone file, its quotes
/// included. `None` if the text has no such token before its end or before the first octet that cannot be part of a
/// token. Allocates nothing.
///
/// In `10 "a b"` the token with index 1 starts at the offset 3 and ends at 8.
pub fn token_span(text: &[u8], index: usize) -> Option<Range<usize>>
    ensures span { option_map (λ span. (span.start, span.end)) result ≡ slice_get (spans text.now) index }
    ensures within { IfSome result (λ span. (span.start ≤ span.end) × (span.end ≤ length text.now)) }
{
    let mut tokens = ZoneTokens::new(text);
    for _ in 0..index {
        let _earlier = tokens.next_left()?;
    }
    let (start, end) = tokens.next_left()?;
    Some(text.len() - start..text.len() - end)
}
