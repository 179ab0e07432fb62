//! Domain names in tokens (RFC 1035, section 5.1).

ghost use Rattle.std.specs.Prelude.{◌≡◌, ◌≢◌, ◌≤◌, ◌<◌, ◌+◌, ◌⊎◌, ◌∷◌, ◌++◌, ℕ, List, [], length, slice_index, IfOk, IfErr, OnOk};
ghost use Rattle.std.specs.Option.{option_copied};
ghost use Rattle.dns_fields.specs.Labels.{IsLabel, IsName, lowname};
ghost use Rattle.dns_zone_tokens.specs.{NameSteps.ReadSoFar, NameSteps.LabelsRead, NameSteps.NotClosed, Views.token_value, ZoneReads.PutsAs};
ghost use Rattle.dns_zone_tokens.specs.NameTokens.{name, name_octets, is_alone, NameFault, LabelsFault};

use crate::field::NameField;
use crate::letter::Letters;
use crate::tokens::ZoneToken;
use arrayvec::ArrayVec;
use dns_names_wire::Name;
use dns_tokens::quiet_len;
use dns_types::ParseError;

/// Reads a name and appends its octets, uncompressed and with its case preserved (RFC 1035, section 3.1). The token is
/// labels joined by dots, without quotes; the origin completes it if no dot ends it. `@` alone is the origin, and a dot
/// the root. `\X` and `\DDD` are octets of their label, whatever they are. Any other token gives
/// [`Message`](ParseError::Message) with the field's text for the first fault: quotes; `@` without an origin; label by
/// label a `\` that escapes nothing, an empty label, one of more than 63 octets, or one that makes a name of more than
/// 255 octets; or too many labels with the origin's. After 63 octets of a label it is too long, whatever follows.
pub fn put_name(
    octets: &mut Vec<u8>,
    token: ZoneToken<'_>,
    origin: Option<&Name>,
    field: &NameField,
) -> Result<(), ParseError>
    ensures puts { PutsAs (name (option_copied origin.entry)) name_octets result octets.old.items octets.new.items (token_value token.entry) }
    ensures why { IfErr result (λ e. (e ≡ ParseError.Memory) ⊎ NameFault field.now (option_copied origin.entry) (token_value token.entry) e) }
{
    let mut name = ArrayVec::new();
    read_name(&mut name, token, origin, field)?;
    octets.extend_from_slice(name.as_slice())?;
    Ok(())
}

// Appends the octets of a name, its 0 included, to none.
fn read_name(
    wire: &mut ArrayVec<u8, 255>,
    token: ZoneToken<'_>,
    origin: Option<&Name>,
    field: &NameField,
) -> Result<(), ParseError>
    requires { wire.old.items ≡ [] }
    ensures puts { PutsAs (name (option_copied origin.entry)) name_octets result [] wire.new.items (token_value token.entry) }
    ensures why { IfErr result (λ e. (e ≡ ParseError.Memory) ⊎ NameFault field.now (option_copied origin.entry) (token_value token.entry) e) }
{
    if token.quoted {
        return Err(ParseError::Message(field.quoted));
    }
    if is_alone(b'@', token.raw) {
        return match origin {
            Some(origin) => end_name(wire, origin.label_octets()),
            None => Err(ParseError::Message(field.no_origin)),
        };
    }
    if is_alone(b'.', token.raw) {
        return end_name(wire, &[]);
    }
    let is_fqdn = read_labels(token.raw, wire, field)?;
    if is_fqdn {
        return end_name(wire, &[]);
    }
    match origin {
        Some(origin) => complete_name(wire, origin, field),
        None => end_name(wire, &[]),
    }
}

// Appends labels and a 0. Fails only where there is no room, which a name of at most 255 octets has.
#[inline]
fn end_name(wire: &mut ArrayVec<u8, 255>, labels: &[u8]) -> Result<(), ParseError>
    ensures put { OnOk result (wire.new.items ≡ wire.old.items ++ (labels.now ++ 0 ∷ [])) }
    ensures memory { IfErr result (λ e. e ≡ ParseError.Memory) }
{
    if wire.try_extend_from_slice(labels).is_err() || wire.try_push(0).is_err() {
        return Err(ParseError::Memory);
    }
    Ok(())
}

// Appends the labels of the origin and a 0, if the name then has at most 255 octets.
fn complete_name(
    wire: &mut ArrayVec<u8, 255>,
    origin: &Name,
    field: &NameField,
) -> Result<(), ParseError>
    requires { length wire.old.items ≤ 254 }
    ensures put { OnOk result (wire.new.items ≡ wire.old.items ++ name_octets origin.now) }
    ensures fits { OnOk result (length wire.old.items + length (lowname origin.now) ≤ 255) }
    ensures name { IsName origin.now }
    ensures refused { IfErr result (λ e. (e ≡ ParseError.Memory) ⊎ ((e ≡ ParseError.Message field.now.long_name) × (255 < length wire.old.items + length (lowname origin.now)))) }
{
    if wire.len() + origin.len() > 255 {
        return Err(ParseError::Message(field.long_name));
    }
    end_name(wire, origin.label_octets())
}

#[inline]
pub(crate) fn is_alone(octet: u8, text: &[u8]) -> bool
    ensures { result ≡ is_alone octet text.now }
{
    text.len() == 1 && text[0] == octet
}

// Appends the labels of a text, each after its length, and returns whether a dot ends them.
fn read_labels(
    text: &[u8],
    wire: &mut ArrayVec<u8, 255>,
    field: &NameField,
) -> Result<bool, ParseError>
    requires { wire.old.items ≡ [] }
    ensures ok { IfOk result (λ mark. LabelsRead text.now mark wire.new.items) }
    ensures refused { IfErr result (LabelsFault field.now text.now) }
{
    let mut rest = text;
    'labels: loop {
        let len = plain_len(rest);
        let label = &rest[..len];
        let behind = &rest[len..];
        if behind.len() == 0 {
            return last_label(wire, label, field);
        }
        if behind[0] == b'\\' {
            return read_letters(rest, wire, field);
        }
        close_label(wire, label, field)?;
        rest = &behind[1..];
    }
}

// How many octets are before the first dot or `\`, or before the end of the text.
#[inline]
pub(crate) fn plain_len(text: &[u8]) -> usize
    ensures within { result ≤ length text.now }
    ensures plain { (k : ℕ) → k < result → (slice_index text.now k ≢ 46) × (slice_index text.now k ≢ 92) }
    ensures stops { result < length text.now → (slice_index text.now result ≡ 46) ⊎ (slice_index text.now result ≡ 92) }
{
    let mut at = quiet_len(0, b'.', b'\\', text);
    'octets: while at < text.len() && text[at] != b'.' && text[at] != b'\\' {
        at += 1;
    }
    at
}

// Appends the last label of a text if it has an octet, and returns whether it has none.
fn last_label(
    wire: &mut ArrayVec<u8, 255>,
    label: &[u8],
    field: &NameField,
) -> Result<bool, ParseError>
    ensures ok { IfOk result (λ mark. (text : List ℕ) → ReadSoFar text [] wire.old.items label.now → LabelsRead text mark wire.new.items) }
    ensures refused { IfErr result (λ e. (text : List ℕ) → ReadSoFar text [] wire.old.items label.now → LabelsFault field.now text e) }
{
    if label.len() == 0 {
        return Ok(true);
    }
    close_label(wire, label, field)?;
    Ok(false)
}

// Reads the rest of a text letter by letter, otherwise as `read_labels`.
fn read_letters(
    rest: &[u8],
    wire: &mut ArrayVec<u8, 255>,
    field: &NameField,
) -> Result<bool, ParseError>
    ensures ok { IfOk result (λ mark. (text : List ℕ) → ReadSoFar text rest.now wire.old.items [] → LabelsRead text mark wire.new.items) }
    ensures refused { IfErr result (λ e. (text : List ℕ) → ReadSoFar text rest.now wire.old.items [] → LabelsFault field.now text e) }
{
    let mut label: ArrayVec<u8, 63> = ArrayVec::new();
    let mut letters = Letters::new(rest);
    'letters: loop {
        match letters.next_letter(field.escape)? {
            Some(letter) => {
                if letter.is_plain(b'.') {
                    close_label(wire, label.as_slice(), field)?;
                    label.clear();
                } else if label.len() == 63 {
                    return Err(ParseError::Message(field.long_label));
                } else {
                    label.push(letter.octet());
                }
            }
            None => return last_label(wire, label.as_slice(), field),
        }
    }
}

// Appends a label after its length, if it has an octet and the name has room for it and a 0.
fn close_label(
    wire: &mut ArrayVec<u8, 255>,
    label: &[u8],
    field: &NameField,
) -> Result<(), ParseError>
    ensures put { OnOk result (wire.new.items ≡ wire.old.items ++ length label.now ∷ label.now) }
    ensures label { OnOk result (IsLabel label.now) }
    ensures fits { OnOk result (length wire.old.items + length label.now ≤ 253) }
    ensures refused { IfErr result (NotClosed field.now wire.old.items label.now) }
{
    if label.is_empty() {
        return Err(ParseError::Message(field.empty_label));
    }
    if label.len() > 63 {
        return Err(ParseError::Message(field.long_label));
    }
    if wire.len() + label.len() > 253 {
        return Err(ParseError::Message(field.long_name));
    }
    wire.push(label.len() as u8);
    let _ = wire.try_extend_from_slice(label);
    Ok(())
}
