//! Fields that are checked, one after the other.

ghost use Rattle.std.specs.Prelude.{◌≡◌, ◌<◌, ◌+◌, ◌≤◌, ℕ, true, false, take, length, get_or, IfSome, IfNone, Ok};
ghost use Rattle.std.specs.{Char.is_ascii_alphanumeric, List.list_all};
ghost use Rattle.dns_fields.specs.declared.Kind.TheVariants.{Number, Octets, Name, CharacterString, CharacterStrings, Rest, Bitmap};
ghost use Rattle.dns_rows.specs.Rules.{AreLetters};
ghost use Rattle.dns_check.specs.Parts.{Skips, Asks, Ends, IsCovered, IsUnasked, step_of as octet_step};
ghost use Rattle.dns_names_wire.specs.Terms.{moved};
ghost use Rattle.dns_rows.specs.Fronts.{IsFront, is_front};
ghost use Rattle.dns_check.specs.Rows.{IsRowChecked, SkipsRow, asked_length as row_asks};
ghost use Rattle.dns_names_wire.specs.{NameEnds.NameEnds, Steps.NameSteps, Steps.Leaves};
ghost use Rattle.dns_check.specs.RowSteps.{FieldSteps, NearRow, RowSteps};

use crate::bitmap::check_blocks;
use crate::options::{options_end, skip_options};
use crate::parameters::skip_parameters;
use dns_fields::Kind;
use dns_names_wire::name_ends::near_name;
use dns_names_wire::walk::Walk;
use dns_rows::{Front, Part, Rule};
use dns_types::DecodeError;

/// Takes a field exactly if one is there that is as its rule asks, of `len` octets of RDATA from `start`.
///
/// On error the decoder may be at any offset from the one where the call began.
#[inline(never)]
#[tactic(auto, using(crate::proofs::Skips::skips_as))]
pub fn skip_field(
    walk: &mut Walk<'_>,
    kind: Kind,
    rule: Rule,
    start: usize,
    len: usize,
) -> Result<(), DecodeError>
    requires covered { IsCovered kind rule }
    requires short { len < 65536 }
    requires before { start ≤ walk.old.index }
    ensures { Skips rule kind start len result walk.old walk.new }
{
    match kind {
        Kind::Number(width) => match rule {
            Rule::KnownFlags => skip_flags(walk, start, len),
            _ => skip_number(walk, width, rule, start, len),
        },
        Kind::Octets(count) => skip_octets(walk, count, rule, start, len),
        Kind::Name => pass_one_name(walk, rule, start, len, &mut 0),
        Kind::CharacterString => match rule {
            Rule::Letters => skip_letters(walk, start, len),
            Rule::Tag => skip_tag(walk, start, len),
            _ => skip_string(walk, rule, start, len),
        },
        Kind::CharacterStrings => skip_strings(walk, rule, start, len),
        Kind::Rest => skip_rest(walk, rule, start, len),
        Kind::Options => skip_options(walk, rule, start, len),
        Kind::Parameters => skip_parameters(walk, start, len),
        Kind::Bitmap => skip_bitmap(walk, rule, start, len),
    }
}

// The offset after the next `size` octets, if the message has so many.
#[inline]
fn octets_end(walk: &Walk<'_>, size: usize) -> Option<usize>
    ensures { IfSome result (λ end. (end ≡ walk.now.index + size) × (end ≤ length walk.now.message)) }
{
    let at = walk.index();
    if walk.message().len() - at < size {
        return None;
    }
    Some(at + size)
}

// The offset after the character string that is next, if the message has all of it.
#[inline]
fn string_end(walk: &Walk<'_>) -> Option<usize>
    ensures { IfSome result (λ end. (end ≡ walk.now.index + (get_or walk.now.message walk.now.index 0 + 1))
        × (end ≤ length walk.now.message)) }
{
    let len = *walk.message().get(walk.index())?;
    octets_end(walk, len as usize + 1)
}

// The offset after the character string at an offset, if the message has all of it and it is letters and digits: NAPTR's
// flags, or the 1 to 15 of a tag (RFC 6844, 5.1), which must end within the RDATA. `None` for other rules.
#[inline]
fn letters_end(message: &[u8], at: usize, rule: Rule, start: usize, len: usize) -> Option<usize>
    requires within { at ≤ length message.now }
    requires short { len < 65536 }
    requires before { start ≤ at }
    ensures { IfSome result (λ end. Skips rule CharacterString start len (Ok tt) (record { message = message.now; index = at })
        (record { message = message.now; index = end })) }
{
    let end = string_end(&Walk::at(message, at))?;
    let text = &message[at + 1..end];
    if is_asked(text, rule, end, start + len) {
        Some(end)
    } else {
        None
    }
}

// Returns whether a string that ends at an offset is letters and digits as its rule asks.
#[inline]
fn is_asked(text: &[u8], rule: Rule, end: usize, data_end: usize) -> bool
    ensures asked { result ≡ true → Asks rule CharacterString text.now }
    ensures ends { result ≡ true → Ends CharacterString rule data_end text.now end }
{
    match rule {
        Rule::Letters => are_letters(text),
        Rule::Tag => end <= data_end && 0 < text.len() && text.len() <= 15 && are_letters(text),
        _ => false,
    }
}

// The offset after a field at an offset, if it is there and as its rule asks. `None` says nothing about the field. It is
// a call, so that the loop over a row keeps what it needs in registers.
#[inline(never)]
fn other_end(message: &[u8], at: usize, part: &Part, start: usize, len: usize) -> Option<usize>
    requires covered { IsCovered part.now.kind part.now.rule }
    requires within { at ≤ length message.now }
    requires short { len < 65536 }
    requires before { start ≤ at }
    ensures { IfSome result (λ end. Skips part.now.rule part.now.kind start len (Ok tt) (record { message = message.now; index = at })
        (record { message = message.now; index = end })) }
{
    if let Kind::CharacterString = part.kind {
        return letters_end(message, at, part.rule, start, len);
    }
    if let Kind::Options = part.kind {
        if let Some(end) = options_end(message, at, start, len) {
            return Some(end);
        }
    }
    let mut walk = Walk::at(message, at);
    match skip_field(&mut walk, part.kind, part.rule, start, len) {
        Ok(()) => Some(walk.index()),
        Err(_) => None,
    }
}

// The offset after the next field, if it is no name, is there and is as its rule asks. `None` says nothing about the
// field. Nothing is returned in memory.
#[inline]
fn field_end(walk: &Walk<'_>, part: &Part, start: usize, len: usize) -> Option<usize>
    requires covered { IsCovered part.now.kind part.now.rule }
    requires short { len < 65536 }
    requires before { start ≤ walk.now.index }
    ensures { IfSome result (λ end. Skips part.now.rule part.now.kind start len (Ok tt) walk.now (moved walk.now end)
        × FieldSteps part.now.kind walk.now 0) }
{
    let at = walk.index();
    match part.kind {
        Kind::Number(width) => match part.rule {
            Rule::KnownFlags => other_end(walk.message(), at, part, start, len),
            _ => octets_end(walk, width as usize),
        },
        Kind::Octets(count) => octets_end(walk, count as usize),
        Kind::Name => None,
        Kind::CharacterString => match part.rule {
            Rule::Letters | Rule::Tag => other_end(walk.message(), at, part, start, len),
            _ => string_end(walk),
        },
        Kind::Rest => {
            if at < start + len {
                octets_end(walk, start + len - at)
            } else {
                None
            }
        }
        _ => other_end(walk.message(), at, part, start, len),
    }
}

// The same for a field that may be a name. If the name is there, it subtracts from `left` how many steps it has;
// `left` stops at 0.
#[inline]
fn near_end(
    walk: &Walk<'_>,
    part: &Part,
    start: usize,
    len: usize,
    left: &mut usize,
) -> Option<usize>
    requires covered { IsCovered part.now.kind part.now.rule }
    requires short { len < 65536 }
    requires before { start ≤ walk.now.index }
    ensures skips { IfSome result (λ end. Skips part.now.rule part.now.kind start len (Ok tt) walk.now (moved walk.now end)) }
    ensures steps { IfSome result (λ end. Leaves (FieldSteps part.now.kind walk.now) left.old left.new) }
    ensures none { IfNone result (left.new ≡ left.old) }
{
    match part.kind {
        Kind::Name => near_name(walk.message(), walk.index(), left),
        _ => field_end(walk, part, start, len),
    }
}

// Takes a field as `skip_field` does, and subtracts from `left` how many steps are taken, which are those of
// a name, whether it is there or not; `left` stops at 0.
#[inline]
fn pass_field(
    walk: &mut Walk<'_>,
    kind: Kind,
    rule: Rule,
    start: usize,
    len: usize,
    left: &mut usize,
) -> Result<(), DecodeError>
    requires covered { IsCovered kind rule }
    requires short { len < 65536 }
    requires before { start ≤ walk.old.index }
    ensures skips { Skips rule kind start len result walk.old walk.new }
    ensures steps { Leaves (FieldSteps kind walk.old) left.old left.new }
{
    match kind {
        Kind::Name => pass_one_name(walk, rule, start, len, left),
        _ => skip_field(walk, kind, rule, start, len),
    }
}

#[inline]
#[tactic(auto, using(crate::proofs::Skips::number_skips, crate::proofs::Skips::number_refused))]
fn skip_number(
    walk: &mut Walk<'_>,
    width: u8,
    rule: Rule,
    start: usize,
    len: usize,
) -> Result<(), DecodeError>
    requires { IsUnasked rule (Number width) }
    ensures { Skips rule (Number width) start len result walk.old walk.new }
{
    match walk.read_slice(width as usize) {
        Ok(_) => Ok(()),
        Err(e) => Err(e),
    }
}

// CSYNC's flags: they are taken, and then none of the bits 2 to 7 may be set (RFC 7477, 2.1.1.2).
#[inline]
#[tactic(auto, using(crate::proofs::Skips::flags_skip, crate::proofs::Skips::flags_refused, crate::proofs::Skips::flags_wrong))]
fn skip_flags(walk: &mut Walk<'_>, start: usize, len: usize) -> Result<(), DecodeError>
    ensures { Skips Rule.KnownFlags (Number 2) start len result walk.old walk.new }
{
    match walk.read_u16() {
        Ok(flags) => {
            if flags & 252 == 0 {
                Ok(())
            } else {
                Err(DecodeError::UnrecognizedCsyncFlags(flags))
            }
        }
        Err(e) => Err(e),
    }
}

#[inline]
fn step_of(rule: Rule) -> usize
    ensures value { result ≡ octet_step rule }
    ensures some { 0 < result }
{
    match rule {
        Rule::Steps(n) => 1.max(n as usize),
        _ => 1,
    }
}

#[inline]
#[tactic(auto, using(crate::proofs::Skips::octets_skip, crate::proofs::Skips::octets_refused))]
fn skip_octets(
    walk: &mut Walk<'_>,
    count: u8,
    rule: Rule,
    start: usize,
    len: usize,
) -> Result<(), DecodeError>
    ensures { Skips rule (Octets count) start len result walk.old walk.new }
{
    match walk.read_in_steps(count as usize, step_of(rule)) {
        Ok(_) => Ok(()),
        Err(e) => Err(e),
    }
}

#[inline]
#[tactic(auto, using(crate::proofs::Skips::name_skips, crate::proofs::Skips::name_refused))]
fn pass_one_name(
    walk: &mut Walk<'_>,
    rule: Rule,
    start: usize,
    len: usize,
    left: &mut usize,
) -> Result<(), DecodeError>
    ensures skips { Skips rule Name start len result walk.old walk.new }
    ensures steps { Leaves (FieldSteps Name walk.old) left.old left.new }
{
    match walk.pass_name(left) {
        Ok(()) => Ok(()),
        Err(e) => Err(e),
    }
}

// Returns whether each octet is a digit or a letter of ASCII.
#[inline]
fn are_letters(octets: &[u8]) -> bool
    ensures { result ≡ list_all is_ascii_alphanumeric octets.now }
{
    octets.iter().all(|c| c.is_ascii_alphanumeric())
}

#[inline]
#[tactic(auto, using(crate::proofs::Skips::string_skips, crate::proofs::Skips::string_refused))]
fn skip_string(walk: &mut Walk<'_>, rule: Rule, start: usize, len: usize) -> Result<(), DecodeError>
    requires { IsUnasked rule CharacterString }
    ensures { Skips rule CharacterString start len result walk.old walk.new }
{
    match walk.read_character_data() {
        Ok(_) => Ok(()),
        Err(e) => Err(e),
    }
}

#[inline]
#[tactic(auto, using(crate::proofs::Skips::letters_skip, crate::proofs::Skips::letters_refused, crate::proofs::Skips::letters_wrong))]
fn skip_letters(walk: &mut Walk<'_>, start: usize, len: usize) -> Result<(), DecodeError>
    ensures { Skips Rule.Letters CharacterString start len result walk.old walk.new }
{
    match walk.read_character_data() {
        Ok(text) => {
            if are_letters(text) {
                Ok(())
            } else {
                Err(DecodeError::NaptrFlagsInvalid)
            }
        }
        Err(e) => Err(e),
    }
}

// Returns how many letters and digits of ASCII are in front.
fn count_letters(octets: &[u8]) -> usize
    ensures within { result ≤ length octets.now }
    ensures letters { AreLetters (take result octets.now) }
    ensures stops { result < length octets.now → is_ascii_alphanumeric (get_or octets.now result 0) ≡ false }
{
    let mut count = 0;
    for octet in octets {
        if !octet.is_ascii_alphanumeric() {
            break;
        }
        count += 1;
    }
    count
}

// CAA's tag (RFC 8659, 4.1; RFC 6844, 5.1, has the limit of 15): its length is tested first, and then octet by octet.
fn skip_tag(walk: &mut Walk<'_>, start: usize, len: usize) -> Result<(), DecodeError>
    requires short { len < 65536 }
    requires before { start ≤ walk.old.index }
    ensures { Skips Rule.Tag CharacterString start len result walk.old walk.new }
{
    let size = match walk.read_u8() {
        Ok(n) => n as usize,
        Err(e) => return Err(e),
    };
    let used = walk.index() - start;
    if len < size + used {
        return Err(DecodeError::IncorrectRDataLengthRead {
            read: len,
            len: size + used,
        });
    }
    if size == 0 || size > 15 {
        return Err(DecodeError::CaaTagInvalid);
    }
    let left = walk.unread();
    let there = &left[..size.min(left.len())];
    let letters = count_letters(there);
    if letters < there.len() {
        match walk.read_slice(letters + 1) {
            Ok(bad) => return Err(DecodeError::CaaTagInvalid),
            Err(lack) => return Err(DecodeError::CaaTagInvalid),
        }
    }
    match walk.read_in_steps(size, 1) {
        Ok(_) => Ok(()),
        Err(e) => Err(e),
    }
}

#[inline]
#[tactic(auto, using(crate::proofs::Strings::on_none, crate::proofs::Strings::on_more, crate::proofs::Strings::strings_skip, crate::proofs::Strings::strings_refused))]
fn skip_strings(
    walk: &mut Walk<'_>,
    rule: Rule,
    start: usize,
    len: usize,
) -> Result<(), DecodeError>
    requires short { len < 65536 }
    requires before { start ≤ walk.old.index }
    ensures { Skips rule CharacterStrings start len result walk.old walk.new }
{
    // For the proof: brings in that the index is small.
    let _index = walk.index();
    let end = start + len;
    'strings: while walk.index() < end {
        if let Err(e) = walk.read_character_data() {
            return Err(e);
        }
    }
    Ok(())
}

#[inline]
#[tactic(auto, using(crate::proofs::Skips::rest_skips, crate::proofs::Skips::rest_refused, crate::proofs::Skips::rest_passed))]
fn skip_rest(walk: &mut Walk<'_>, rule: Rule, start: usize, len: usize) -> Result<(), DecodeError>
    requires short { len < 65536 }
    requires before { start ≤ walk.old.index }
    ensures { Skips rule Rest start len result walk.old walk.new }
{
    let read = walk.index() - start;
    if len < read {
        return Err(DecodeError::IncorrectRDataLengthRead { read, len });
    }
    if let Rule::Some = rule
        && len == read
    {
        return Err(DecodeError::IncorrectRDataLengthRead {
            read: len,
            len: len + 1,
        });
    }
    match walk.read_slice(len - read) {
        Ok(_) => Ok(()),
        Err(e) => Err(e),
    }
}

// CSYNC's types: the octets up to the end are taken, and then they must be blocks of a bitmap (RFC 4034, 4.1.2).
#[inline]
#[tactic(auto, using(crate::proofs::Skips::bitmap_skips, crate::proofs::Skips::bitmap_wrong, crate::proofs::Skips::bitmap_refused, crate::proofs::Skips::bitmap_passed))]
fn skip_bitmap(walk: &mut Walk<'_>, rule: Rule, start: usize, len: usize) -> Result<(), DecodeError>
    requires before { start ≤ walk.old.index }
    ensures { Skips rule Bitmap start len result walk.old walk.new }
{
    let read = walk.index() - start;
    if len < read {
        return Err(DecodeError::IncorrectRDataLengthRead { read, len });
    }
    match walk.read_slice(len - read) {
        Ok(octets) => match check_blocks(octets) {
            Ok(()) => Ok(()),
            Err(wrong) => Err(wrong),
        },
        Err(e) => Err(e),
    }
}

// Returns how many octets the row asks of the RDATA before anything is read.
#[inline]
fn asked_length(row: &[Part]) -> usize
    ensures { result ≡ row_asks row.now }
{
    match row.first() {
        Some(part) => match part.rule {
            Rule::AtLeast(n) => n as usize,
            _ => 0,
        },
        None => 0,
    }
}

/// Returns whether fields of the row fill the `len` octets of RDATA from an offset, each as its rule asks, and then
/// subtracts from `left` how many steps their names follow; it stops at 0. `false` says nothing about them:
/// [`skip_row`] tells. It is the quick way for RDATA that is not damaged. `front` are the numbers at the front of the row,
/// which are taken at once.
#[inline]
pub fn is_near(
    message: &[u8],
    start: usize,
    row: &[Part],
    front: Front,
    len: usize,
    left: &mut usize,
) -> bool
    requires row { IsRowChecked row.now }
    requires front { IsFront row.now front }
    requires short { len < 65536 }
    requires within { start ≤ length message.now }
    ensures near { result ≡ true → NearRow row.now len start message.now left.old left.new }
    ensures unchanged { result ≡ false → left.new ≡ left.old }
{
    let first = front.count as usize;
    let octets = front.octets as usize;
    if row.len() == first + 1 {
        is_last_near(message, start, row, first, octets, len, left)
    } else {
        are_near(message, start, row, first, octets, len, left)
    }
}

// The same of a row of one field after its front. Each arm returns by itself, and nothing is returned in memory.
#[inline]
fn is_last_near(
    message: &[u8],
    start: usize,
    row: &[Part],
    first: usize,
    octets: usize,
    len: usize,
    left: &mut usize,
) -> bool
    requires row { IsRowChecked row.now }
    requires front { is_front first octets row.now ≡ true }
    requires small { octets < 256 }
    requires last { length row.now ≡ first + 1 }
    requires short { len < 65536 }
    requires within { start ≤ length message.now }
    ensures near { result ≡ true → NearRow row.now len start message.now left.old left.new }
    ensures unchanged { result ≡ false → left.new ≡ left.old }
{
    // For the proof: brings in that the message is octets.
    let there = message.len() - Walk::at(message, start).index();
    let part = &row[first];
    match part.kind {
        Kind::Octets(count) => octets + count as usize == len && len <= there,
        Kind::Rest => octets < len && len <= there,
        Kind::Name => octets <= there && is_name_near(message, start + octets, start + len, left),
        _ => octets <= there && is_other_near(message, start + octets, part, start, len),
    }
}

// Returns whether a field at an offset that is no name ends with the RDATA and is as its rule asks.
#[inline]
fn is_other_near(message: &[u8], at: usize, part: &Part, start: usize, len: usize) -> bool
    requires covered { IsCovered part.now.kind part.now.rule }
    requires within { at ≤ length message.now }
    requires short { len < 65536 }
    requires before { start ≤ at }
    ensures { result ≡ true → Skips part.now.rule part.now.kind start len (Ok tt) (record { message = message.now; index = at })
        (record { message = message.now; index = start + len }) }
{
    match other_end(message, at, part, start, len) {
        Some(end) => end == start + len,
        None => false,
    }
}

/// Returns whether a name is encoded at an offset and ends at another one, and then subtracts from `left` how many compression
/// pointers it follows; it stops at 0.
#[inline]
pub fn is_name_near(message: &[u8], at: usize, end: usize, left: &mut usize) -> bool
    requires within { at ≤ length message.now }
    ensures name { result ≡ true → NameEnds message.now at end }
    ensures steps { result ≡ true → Leaves (NameSteps message.now at) left.old left.new }
    ensures unchanged { result ≡ false → left.new ≡ left.old }
{
    let mut unfollowed = *left;
    match near_name(message, at, &mut unfollowed) {
        Some(there) => {
            if there != end {
                return false;
            }
            *left = unfollowed;
            true
        }
        None => false,
    }
}

// The same of any row, as a call: the way of most types keeps no registers for it.
#[inline(never)]
fn are_near(
    message: &[u8],
    start: usize,
    row: &[Part],
    first: usize,
    octets: usize,
    len: usize,
    left: &mut usize,
) -> bool
    requires row { IsRowChecked row.now }
    requires front { is_front first octets row.now ≡ true }
    requires short { len < 65536 }
    requires within { start ≤ length message.now }
    ensures near { result ≡ true → NearRow row.now len start message.now left.old left.new }
    ensures unchanged { result ≡ false → left.new ≡ left.old }
{
    let mut near = Walk::at(message, start);
    let at = near.index();
    if message.len() - at < octets {
        return false;
    }
    near.move_to(at + octets);
    let mut unfollowed = *left;
    let mut count = first;
    'near: while count < row.len() {
        match near_end(&near, &row[count], start, len, &mut unfollowed) {
            Some(end) => near.move_to(end),
            None => return false,
        }
        count += 1;
    }
    if near.index() - start != len {
        return false;
    }
    *left = unfollowed;
    true
}

/// Takes the fields of a row, of `len` octets of RDATA from the index of the decoder.
///
/// On error the decoder may be at any offset from the one where the call began. Subtracts from `left` how many compression
/// pointers are followed; it stops at 0. They are those of the names up to and including a field that is rejected.
#[inline(never)]
pub fn skip_row(
    walk: &mut Walk<'_>,
    row: &[Part],
    len: usize,
    left: &mut usize,
) -> Result<(), DecodeError>
    requires row { IsRowChecked row.now }
    requires short { len < 65536 }
    ensures skips { SkipsRow row.now len result walk.old walk.new }
    ensures steps { Leaves (RowSteps row.now len walk.old) left.old left.new }
{
    let asked = asked_length(row);
    if len < asked {
        return Err(DecodeError::IncorrectRDataLengthRead {
            read: len,
            len: asked,
        });
    }
    let start = walk.index();
    let mut count = 0;
    'fields: while count < row.len() {
        if let Err(e) = pass_field(walk, row[count].kind, row[count].rule, start, len, left) {
            return Err(e);
        }
        count += 1;
    }
    Ok(())
}
