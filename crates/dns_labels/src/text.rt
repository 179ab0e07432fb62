//! Texts of names (RFC 1035, 5.1).

ghost use Rattle.std.specs.Prelude.{◌≡◌, ℕ, ◌+◌, ◌<◌, ◌≤◌, List, [], ◌∷◌, ◌++◌, length, take, drop, ◌⊎◌, IfSome, IfNone, IfOk, IfErr, MatchResult, Some};
ghost use Rattle.std.specs.{Fmt.DisplaysOnOk, Bool.OnTrue};
ghost use Rattle.dns_fields.specs.{Labels.DomainName, Labels.IsLabel, Labels.IsName, Octets.AreOctets};
ghost use Rattle.dns_labels.specs.{Text.printed, Text.label_text, Text.name_text, Labels.AreNameOctets, Labels.name_of};
ghost use Rattle.dns_labels.specs.declared.error.NameTextError.TheVariants as text_error;
ghost use Rattle.dns_labels.specs.TextFaults.{LabelFault, NameTextFault, IsTextFault};
ghost use Rattle.dns_labels.specs.Text.{OctetText as IsOctetText, LabelText as IsLabelText, IsNameText, IsLabelEnd, AddsOctets, AddsLabel, HasOctets};

use crate::NameOctets;
use crate::buffer::{MAX_OCTETS, NameBuffer};
use crate::error::NameTextError;
use crate::labels::LabelIter;
use std::alloc::Global;
use std::marker::Model;
use std::{fmt, str};

/// The most octets of a label (RFC 1035, section 3.1).
const MAX_LABEL: usize = 63;

const EMPTY_LABEL: &str = "empty label in a domain name";

const LONG_LABEL: &str = "label past 63 octets in a domain name";

const LONG_NAME: &str = "domain name past 255 octets";

const CHARACTER: &str = "character or escape that no label of a domain name has";

/// Returns the first octet of a text and how many characters it takes there.
#[tactic(auto, using(crate::proofs::TextSteps::read_plain, crate::proofs::TextSteps::read_quoted, crate::proofs::TextSteps::read_decimal))]
fn read_octet(text: &[u8]) -> Option<(u8, usize)>
    ensures length { IfSome result (λ r. (1 ≤ r.1) × (r.1 ≤ length text.now)) }
    ensures found { IfSome result (λ r. IsOctetText r.0 (take r.1 text.now)) }
    ensures none { IfNone result ((n : ℕ) (t rest : List ℕ) → IsOctetText n t → text.now ≡ t ++ rest → ⊥) }
{
    if text.len() == 0 {
        return None;
    }
    let first = text[0];
    if first != 92 {
        if first < 33 || first > 126 || first == 46 {
            return None;
        }
        return Some((first, 1));
    }
    if text.len() < 2 {
        return None;
    }
    let second = text[1];
    if second < 48 || second > 57 {
        if second < 33 || second > 126 {
            return None;
        }
        return Some((second, 2));
    }
    if text.len() < 4 {
        return None;
    }
    let third = text[2];
    let fourth = text[3];
    if third < 48 || third > 57 || fourth < 48 || fourth > 57 {
        return None;
    }
    let value = (second as u16 - 48) * 100 + (third as u16 - 48) * 10 + (fourth as u16 - 48);
    if value > 255 {
        return None;
    }
    Some((value as u8, 4))
}

/// Reads the octets of a label up to a dot or the end of the text, and returns how many characters they take, or why it
/// is not a label.
#[tactic(auto, using(crate::proofs::LabelSteps::label_none))]
fn read_octets(text: &[u8], octets: &mut NameBuffer) -> Result<usize, &'static str>
    ensures some { IfOk result (λ taken. AddsOctets text.now taken octets.old octets.new) }
    ensures short { length octets.new ≤ length octets.old + 63 }
    ensures room { length octets.new ≤ 254 }
    ensures none { IfErr result (λ _. (label t rest : List ℕ) → IsLabelText label t → text.now ≡ t ++ rest →
        IsLabelEnd rest → length label ≤ 63 → length octets.old + length label ≤ 254 → ⊥) }
    ensures why { IfErr result (λ why. (size : ℕ) → length octets.old ≡ size + 1 → LabelFault size text.now why.now) }
{
    let most = MAX_LABEL.min(MAX_OCTETS - octets.len());
    let mut left = most;
    let mut at = 0usize;
    'octets: while at < text.len() && text[at] != 46 {
        if left == 0 {
            if most < MAX_LABEL {
                return Err(LONG_NAME);
            }
            return Err(LONG_LABEL);
        }
        let Some((octet, taken)) = read_octet(&text[at..]) else {
            return Err(CHARACTER);
        };
        octets.push(octet);
        left -= 1;
        at += taken;
    }
    Ok(at)
}

/// Reads a label up to a dot or the end of the text, with its length octet, and returns how many characters it takes,
/// or why it is not a label.
#[tactic(auto, using(crate::proofs::NameSteps::label_set, crate::proofs::NameSteps::label_empty))]
fn read_label(text: &[u8], octets: &mut NameBuffer) -> Result<usize, &'static str>
    ensures some { IfOk result (λ taken. AddsLabel text.now taken octets.old octets.new) }
    ensures room { length octets.new ≤ 254 }
    ensures none { IfErr result (λ _. (label t rest : List ℕ) → IsLabelText label t → text.now ≡ t ++ rest →
        IsLabelEnd rest → IsLabel label → length octets.old + (1 + length label) ≤ 254 → ⊥) }
    ensures why { IfErr result (λ why. LabelFault (length octets.old) text.now why.now) }
{
    let start = octets.len();
    if start >= MAX_OCTETS {
        return Err(LONG_NAME);
    }
    octets.push(0);
    let taken = match read_octets(text, octets) {
        Ok(taken) => taken,
        Err(why) => return Err(why),
    };
    let count = octets.len() - start - 1;
    if count == 0 {
        return Err(EMPTY_LABEL);
    }
    octets.set(start, count as u8);
    Ok(taken)
}

// Reads the octets of a name label by label, and returns whether it is fully qualified, or why the text is not a name.
#[tactic(auto, using(crate::proofs::NameSteps::name_none, crate::proofs::NameSteps::reads_begun, crate::proofs::NameSteps::reads_nothing, crate::proofs::NameSteps::reads_root))]
fn read_each_label(text: &[u8], octets: &mut NameBuffer) -> Result<bool, &'static str>
    requires { octets.old ≡ [] }
    ensures some { IfOk result (λ mark. AreNameOctets octets.new × IsNameText (name_of octets.new mark) text.now) }
    ensures none { IfErr result (λ _. (name : DomainName) → IsNameText name text.now → ⊥) }
    ensures why { IfErr result (λ why. NameTextFault text.now why.now) }
{
    if text.len() == 0 {
        return Ok(false);
    }
    if text.len() == 1 && text[0] == 46 {
        return Ok(true);
    }
    let mut at = 0usize;
    'labels: loop {
        let taken = match read_label(&text[at..], octets) {
            Ok(taken) => taken,
            Err(why) => return Err(why),
        };
        at += taken;
        if at == text.len() {
            return Ok(false);
        }
        at += 1;
        if at == text.len() {
            return Ok(true);
        }
    }
}

// The label up to a dot or the end of the text, if each of its octets is written as it is.
#[inline]
fn plain_label(text: &[u8]) -> Option<&[u8]>
    ensures within { IfSome result (λ label. length label.now ≤ length text.now) }
    ensures front { IfSome result (λ label. label.now ≡ take (length label.now) text.now) }
    ensures label { IfSome result (λ label. (old : List ℕ) → AddsOctets text.now (length label.now) old (old ++ label.now)) }
{
    let len = plain_len(text);
    if len < text.len() && text[len] != 46 {
        return None;
    }
    Some(&text[..len])
}

// Reads a name without escapes, and returns whether it is fully qualified. The text is copied as a whole, and then each
// label's length takes the place of the dot before it. `None` says nothing of the text.
fn read_plain_name(text: &[u8], octets: &mut NameBuffer) -> Option<bool>
    requires { octets.old ≡ [] }
    ensures { IfSome result (λ mark. AreNameOctets octets.new × IsNameText (name_of octets.new mark) text.now) }
{
    if text.len() == 0 || text.len() >= MAX_OCTETS {
        return None;
    }
    octets.push(0);
    octets.extend(text);
    let mut at = 0usize;
    'labels: loop {
        let label = plain_label(&text[at..])?;
        let count = label.len();
        if count == 0 || count > MAX_LABEL {
            return None;
        }
        octets.set(at, count as u8);
        at += count;
        if at == text.len() {
            return Some(false);
        }
        at += 1;
        if at == text.len() {
            octets.pop();
            return Some(true);
        }
    }
}

// Reads the octets of a name, and returns whether it is fully qualified, or why the text is not a name.
fn read_name(text: &[u8], octets: &mut NameBuffer) -> Result<bool, &'static str>
    requires { octets.old ≡ [] }
    ensures some { IfOk result (λ mark. AreNameOctets octets.new × IsNameText (name_of octets.new mark) text.now) }
    ensures none { IfErr result (λ _. (name : DomainName) → IsNameText name text.now → ⊥) }
    ensures why { IfErr result (λ why. NameTextFault text.now why.now) }
{
    if let Some(is_fqdn) = read_plain_name(text, octets) {
        return Ok(is_fqdn);
    }
    octets.clear();
    read_each_label(text, octets)
}

/// Reads a name from its text, and returns its octets and whether it is fully qualified.
///
/// A dot is the root, and an empty text the relative name without labels. Every other text is labels joined by dots,
/// with a dot at the end if the name is fully qualified. In a label an octet is a graphic character of ASCII other than
/// `.` and `\`, or `\` and three digits up to 255, or `\` and a graphic character that is no digit. A label has 1 to 63
/// octets, and a name at most 255 on the wire. For any other text this returns [`Invalid`](NameTextError::Invalid) with
/// the reason and allocates nothing; otherwise it allocates once if the name has more than 32 octets
/// before its final zero octet.
#[tactic(auto, using(crate::proofs::NameTexts::one_name, crate::proofs::NameTexts::name_reads))]
pub fn parse_octets(alloc: Global, text: &[u8]) -> Result<(NameOctets, bool), NameTextError>
    ensures ok { IfOk result (λ r. IsNameText (name_of r.0 r.1) text.now) }
    ensures octets { IfOk result (λ r. AreNameOctets r.0) }
    ensures refused { IfErr result (λ e. (e ≡ text_error.Memory) ⊎ ((name : DomainName) → IsNameText name text.now → ⊥)) }
    // the reason is that of the first label at fault
    ensures why { IfErr result (IsTextFault text.now) }
    // a name's printed text reads back as that name
    ensures reads_back { (name : DomainName) → IsName name → HasOctets name → text.now ≡ name_text name →
        MatchResult result (λ r. name_of r.0 r.1 ≡ name) (λ e. e ≡ text_error.Memory) }
{
    let mut octets = NameBuffer::new();
    let is_fqdn = match read_name(text, &mut octets) {
        Ok(is_fqdn) => is_fqdn,
        Err(why) => return Err(NameTextError::Invalid(why)),
    };
    let octets = NameOctets::from_slice(alloc, octets.as_slice())?;
    Ok((octets, is_fqdn))
}

/// Returns whether an octet is written as it is in a label's text: a graphic character of ASCII other than `.` and `\`.
#[inline]
pub(crate) fn is_plain(octet: u8) -> bool
    ensures { OnTrue result (printed octet ≡ octet ∷ []) }
{
    33 <= octet && octet <= 126 && octet != 46 && octet != 92
}

// How many octets in front are written as they are in a label's text.
#[inline]
fn plain_len(text: &[u8]) -> usize
    ensures within { result ≤ length text.now }
    ensures plain { label_text (take result text.now) ≡ take result text.now }
    ensures octets { AreOctets text.now }
{
    let mut len = 0usize;
    'octets: while len < text.len() && is_plain(text[len]) {
        len += 1;
    }
    len
}

/// Returns whether each of a label's octets is written as it is in its text.
#[inline]
pub(crate) fn is_plain_label(label: &[u8]) -> bool
    ensures { OnTrue result (label_text label.now ≡ label.now) }
{
    plain_len(label) == label.len()
}

/// A label's octets, as they are printed.
#[derive(Clone, Copy)]
struct LabelText<'a>(&'a [u8]);

impl fmt::Display for LabelText<'_> {
    ghost output = { λ l. Some (label_text l.0.now) };

    fn fmt<W: fmt::Write>(&self, f: &mut fmt::Formatter<W>) -> fmt::Result {
        let label = self.0;
        if is_plain_label(label) {
            return f.write_str(str::from_utf8(label).map_err(|_| fmt::Error)?);
        }
        for octet in label {
            f.write(OctetText(*octet))?;
        }
        Ok(())
    }
}

/// An octet of a label, as it is printed.
#[derive(Clone, Copy)]
struct OctetText(u8);

impl fmt::Display for OctetText {
    ghost output = { λ o. Some (printed o.0) };

    fn fmt<W: fmt::Write>(&self, f: &mut fmt::Formatter<W>) -> fmt::Result {
        let octet = self.0;
        if octet == 46 || octet == 92 {
            f.write_char('\\')?;
            return f.write_char(octet as char);
        }
        if 33 <= octet && octet <= 126 {
            return f.write_char(octet as char);
        }
        f.write_char('\\')?;
        f.write_char((48 + octet / 100) as char)?;
        f.write_char((48 + octet / 10 % 10) as char)?;
        f.write_char((48 + octet % 10) as char)
    }
}

/// A name that prints as its text: its labels joined by dots, with a dot at the end if it is fully qualified.
///
/// In a label `.` and `\` are escaped by a `\`, and an octet that is not a graphic character of ASCII is `\` and three
/// digits. The root prints as a dot, the relative name without labels as nothing. The text is read back as that name.
#[derive(Drop)]
pub struct NameText<'a> {
    octets: &'a [u8],
    is_fqdn: bool,
}

impl<'a> Model for NameText<'a> {
    ghost Value = { DomainName };

    ghost view = { λ t. name_of t.octets.now t.is_fqdn };

    ghost invariant = { λ t. AreNameOctets t.octets.now };
}

impl<'a> NameText<'a> {
    /// Makes a value that prints the name of these octets.
    pub fn new(octets: &'a [u8], is_fqdn: bool) -> Self
        requires { AreNameOctets octets.now }
        ensures { result ≡ name_of octets.now is_fqdn }
    {
        NameText { octets, is_fqdn }
    }
}

// Writes the text of a name whose octets need no escape. Returns `false` if one needs an escape or there is no room;
// the text written so far is then of no use.
fn write_plain(octets: &[u8], is_fqdn: bool, text: &mut NameBuffer) -> bool
    requires octets { AreNameOctets octets.now }
    requires empty { text.old ≡ [] }
    ensures { OnTrue result (text.new ≡ name_text (name_of octets.now is_fqdn)) }
{
    let mut labels = LabelIter::new(octets);
    if let Some(first) = labels.next() {
        if first.len() > MAX_LABEL || !text.extend_plain(first) {
            return false;
        }
    }
    for label in labels {
        if text.len() + label.len() > MAX_OCTETS - 2 {
            return false;
        }
        text.push(46);
        if !text.extend_plain(label) {
            return false;
        }
    }
    if is_fqdn {
        text.push(46);
    }
    true
}

impl NameText<'_> {
    // Writes label by label.
    fn write_labels<W: fmt::Write>(&self, f: &mut fmt::Formatter<W>) -> fmt::Result
        ensures { DisplaysOnOk W.write_str_gives f.old result (Some (name_text self.now)) f.new }
    {
        let mut labels = LabelIter::new(self.octets);
        if let Some(first) = labels.next() {
            f.write(LabelText(first))?;
        }
        for label in labels {
            f.write_str(".")?;
            f.write(LabelText(label))?;
        }
        if self.is_fqdn {
            f.write_str(".")?;
        }
        Ok(())
    }
}

impl fmt::Display for NameText<'_> {
    ghost output = { λ t. Some (name_text t) };

    fn fmt<W: fmt::Write>(&self, f: &mut fmt::Formatter<W>) -> fmt::Result {
        let mut text = NameBuffer::new();
        if write_plain(self.octets, self.is_fqdn, &mut text) {
            return f.write_str(str::from_utf8(text.as_slice()).map_err(|_| fmt::Error)?);
        }
        self.write_labels(f)
    }
}
