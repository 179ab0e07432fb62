//! Values of one token, appended to a buffer without an allocation.
//!
//! These readers serve texts as most are written. Each returns whether it has appended the value; `false` says nothing of
//! the token, and leaves any octets after the earlier ones. The readers that make errors then read the text from its start.

ghost use Rattle.std.specs.Prelude.{◌≡◌, ◌≤◌, ◌<◌, ◌++◌, ◌∷◌, [], length, slice_set, IfSome};
ghost use Rattle.std.specs.{Bool.OnTrue, Option.option_copied};
ghost use Rattle.dns_fields.specs.Tlvs.{string as string_octets};
ghost use Rattle.dns_zone_tokens.specs.{Forms.string, Forms.text, NameSteps.LabelsPut, NameTokens.name, NameTokens.name_octets, Views.token_value, ZoneReads.PutAs};

use crate::names::{is_alone, plain_len};
use crate::texts;
use crate::tokens::ZoneToken;
use arrayvec::ArrayVec;
use dns_names_wire::Name;

/// A buffer for RDATA of few octets.
pub type ShortOctets = ArrayVec<u8, 128>;

/// Appends the length and the octets of a character string without a `\`, if they fit. Allocates nothing.
#[inline]
pub fn put_near_string(octets: &mut ShortOctets, token: ZoneToken<'_>) -> bool
    ensures { OnTrue result (PutAs string string_octets octets.old.items octets.new.items (token_value token.entry)) }
{
    let text = token.raw;
    if text.len() > 127 || texts::plain_len(text) < text.len() {
        return false;
    }
    put_after(octets, text.len() as u8, text)
}

/// Appends the octets of a text without a `\`, if they fit. Allocates nothing.
#[inline]
pub fn put_near_text(octets: &mut ShortOctets, token: ZoneToken<'_>) -> bool
    ensures { OnTrue result (PutAs text (λ x. x) octets.old.items octets.new.items (token_value token.entry)) }
{
    if texts::plain_len(token.raw) < token.raw.len() {
        return false;
    }
    put_octets(octets, token.raw)
}

/// Appends octets, if they fit. Allocates nothing.
#[inline]
pub fn put_octets(octets: &mut ShortOctets, more: &[u8]) -> bool
    ensures { OnTrue result (octets.new.items ≡ octets.old.items ++ more.now) }
{
    octets.try_extend_from_slice(more).is_ok()
}

/// Appends one octet and others, if they fit. Allocates nothing.
#[inline]
pub fn put_after(octets: &mut ShortOctets, first: u8, more: &[u8]) -> bool
    ensures { OnTrue result (octets.new.items ≡ octets.old.items ++ first ∷ more.now) }
{
    octets.try_push(first).is_ok() && octets.try_extend_from_slice(more).is_ok()
}

/// Appends the octets of a name without a `\`, uncompressed and with its case preserved, if they fit. Allocates nothing.
#[inline]
pub fn put_near_name(octets: &mut ShortOctets, token: ZoneToken<'_>, origin: Option<&Name>) -> bool
    ensures { OnTrue result (PutAs (name (option_copied origin.entry)) name_octets octets.old.items octets.new.items (token_value token.entry)) }
{
    if token.quoted {
        return false;
    }
    if is_alone(b'@', token.raw) {
        return match origin {
            Some(origin) => end_name(octets, origin.label_octets()),
            None => false,
        };
    }
    if is_alone(b'.', token.raw) {
        return end_name(octets, &[]);
    }
    match put_labels(octets, token.raw) {
        Some(true) => true,
        Some(false) => match origin {
            Some(origin) => end_name(octets, origin.label_octets()),
            None => end_name(octets, &[]),
        },
        None => false,
    }
}

// Appends labels and a 0, if they fit.
#[inline]
fn end_name(octets: &mut ShortOctets, labels: &[u8]) -> bool
    ensures put { OnTrue result (octets.new.items ≡ octets.old.items ++ (labels.now ++ 0 ∷ [])) }
    ensures fits { OnTrue result (length octets.new.items ≤ 128) }
{
    octets.try_extend_from_slice(labels).is_ok() && octets.try_push(0).is_ok()
}

// Appends the labels of a text, and a 0 if a dot ends them, and returns whether one does. The text is appended after one
// octet; then each label's length takes the place of the dot before it, and of that octet.
#[inline]
fn put_labels(octets: &mut ShortOctets, text: &[u8]) -> Option<bool>
    ensures { IfSome result (λ dot. LabelsPut text.now dot octets.old.items octets.new.items) }
{
    let mut start = octets.len();
    if !put_after(octets, 0, text) {
        return None;
    }
    let mut rest = text;
    'labels: loop {
        let len = plain_len(rest);
        if len == 0 || len > 63 {
            return None;
        }
        set_octet(octets, start, len as u8);
        let behind = &rest[len..];
        if behind.len() == 0 {
            return Some(false);
        }
        if behind[0] == b'\\' {
            return None;
        }
        rest = &behind[1..];
        start += len + 1;
        if rest.len() == 0 {
            set_octet(octets, start, 0);
            return Some(true);
        }
    }
}

// Sets the octet at an index.
#[inline]
fn set_octet(octets: &mut ShortOctets, index: usize, octet: u8)
    requires { index < length octets.old.items }
    ensures set { octets.new.items ≡ slice_set octets.old.items index octet }
    ensures fits { length octets.new.items ≤ 128 }
{
    octets.as_mut_slice()[index] = octet;
}
