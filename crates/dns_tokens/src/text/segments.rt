//! The segments of a list, one by one: the texts between its commas.

ghost use Rattle.std.specs.Prelude.{◌≡◌, ◌∷◌, ◌<◌, [], length, IfNone, IfOk, IfSome, IsUtf8};
ghost use Rattle.std.specs.Cow.{cow_str_bytes};
ghost use Rattle.dns_tokens.specs.Lists.{segments_of};

use crate::text::spans::{Kind, behind, octet, split};
use std::alloc::{AllocError, Global};
use std::borrow::CowStr;

/// Returns the first segment of a list and the text after its comma; `None` if the list is empty. A `\` is dropped and
/// the next character kept, any other comma ends a segment, and what is left at the end is one more segment. Allocates
/// only for a segment with a `\`.
pub fn next_segment<'a>(
    alloc: Global,
    text: &'a str,
) -> Result<Option<(CowStr<'a, Global>, &'a str)>, AllocError>
    ensures segment { IfOk result (λ o. IfSome o (λ r. segments_of text.now ≡ cow_str_bytes r.0 ∷ segments_of r.1.now)) }
    ensures none { IfOk result (λ o. IfNone o (segments_of text.now ≡ [])) }
    ensures utf8 { IfOk result (λ o. IfSome o (λ r. IsUtf8 r.1.now)) }
    ensures shorter { IfOk result (λ o. IfSome o (λ r. length r.1.now < length text.now)) }
{
    let (plain, more) = split(Kind::Segment, text);
    if more.len() == 0 {
        if plain.len() == 0 {
            return Ok(None);
        }
        return Ok(Some((CowStr::Borrowed(plain), more)));
    }
    if octet(more, 0) == 44 {
        return Ok(Some((CowStr::Borrowed(plain), behind(more, 1))));
    }
    escaped_segment(alloc, text)
}

// The same for a segment that may have a `\`, and is copied therefore.
fn escaped_segment<'a>(
    alloc: Global,
    text: &'a str,
) -> Result<Option<(CowStr<'a, Global>, &'a str)>, AllocError>
    requires { 0 < length text.now }
    ensures segment { IfOk result (λ o. IfSome o (λ r. segments_of text.now ≡ cow_str_bytes r.0 ∷ segments_of r.1.now)) }
    ensures none { IfOk result (λ o. IfNone o (segments_of text.now ≡ [])) }
    ensures utf8 { IfOk result (λ o. IfSome o (λ r. IsUtf8 r.1.now)) }
    ensures shorter { IfOk result (λ o. IfSome o (λ r. length r.1.now < length text.now)) }
{
    let mut segment = String::new(alloc);
    let mut rest = text;
    'runs: while rest.len() > 0 {
        let (plain, more) = split(Kind::Segment, rest);
        segment.push_str(plain)?;
        if more.len() == 0 {
            rest = more;
        } else if octet(more, 0) == 44 {
            return Ok(Some((CowStr::Owned(segment), behind(more, 1))));
        } else if more.len() > 1 && octet(more, 1) < 128 {
            segment.push(octet(more, 1) as char)?;
            rest = behind(more, 2);
        } else {
            rest = behind(more, 1);
        }
    }
    if segment.len() == 0 {
        return Ok(None);
    }
    Ok(Some((CowStr::Owned(segment), rest)))
}
