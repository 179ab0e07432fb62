//! TXT: character strings (RFC 1035, 3.3.14).

ghost use Rattle.std.specs.Prelude.{◌≡◌, ℕ, List, [], map, length as list_length, IfOk, Some, refl};
ghost use Rattle.std.specs.{Cmp.Lexicographic.slice_cmp, String.string_bytes, Iterator.IsFinite, Ordering.nat_cmp, List.flat_map};
ghost use Rattle.dns_fields.specs.{declared.Kind.TheVariants.CharacterStrings, Fields.Field, Fields.all_emittable};
ghost use Rattle.dns_fields.specs.{Tlvs.string};
ghost use Rattle.dns_names_wire.specs.Terms.{Emits};
ghost use Rattle.dns_canonical.specs.{Steps.AllShort, Steps.GivesStep, Fronts.canonical_cmp};
ghost use Rattle.dns_rdata_base.specs.{TXT.txt_shape, TXT.txt_fields, TXT.txt_facts, TXT.txt_text, TXT.txt_tokens, Steps.texts_left};
ghost use Rattle.dns_tokens.specs.Reads.{ReadsTokenRow};

use crate::OrderedRecord;
use bstr::BStr;
use dns_canonical::{Head, Step, text_behind};
use dns_check::DecodesRow;
use dns_check::lists::take_strings;
use dns_names_wire::{
    BinDecoder, BinEncodable, BinEncoder, DecodeError, Octets, ParseError, ProtoError, Record,
    Restrict,
};
use dns_rows::{Part, row};
use dns_tokens::all_texts;
use dns_types::Strings;
use std::alloc::{AllocError, Global};
use std::cmp::Ordering;
use std::convert::AsStr;
use std::fmt;

/// TXT RDATA (RFC 1035, section 3.3.14): character strings, none or more.
///
///     +------+--------+
///     |LENGTH/ STRING /   none or more, to the end of the RDATA
///     +------+--------+
///
/// The RDATA `03616263` is `abc`.
#[derive(Clone, Debug, Drop, Eq, Hash, PartialEq)]
pub struct TXT {
    /// The strings in order, each of at most 255 octets on emit.
    pub txt_data: Strings,
}

impl TXT {
    /// Makes a record of these texts, which are moved. Allocates once, for the list.
    pub fn new(txt_data: Vec<String>) -> Result<TXT, AllocError>
        ensures { IfOk result (λ x. x.txt_data ≡ map string_bytes txt_data.items) }
    {
        let mut strings = Vec::with_capacity(*txt_data.allocator(), txt_data.len())?;
        for string in txt_data {
            strings.push(Octets::from_vec(string.into_bytes()))?;
        }
        Ok(TXT {
            txt_data: Strings::from_vec(strings),
        })
    }

    /// Makes a record of copies of these octets. Allocates once for the list, and once for each string.
    pub fn from_bytes(txt_data: Vec<&[u8]>) -> Result<TXT, AllocError>
        ensures { IfOk result (λ x. x.txt_data ≡ map (λ s. s.now) txt_data.entry.items) }
    {
        let alloc = *txt_data.allocator();
        let mut strings = Vec::with_capacity(alloc, txt_data.len())?;
        for string in txt_data {
            strings.push(Octets::from_slice(alloc, string)?)?;
        }
        Ok(TXT {
            txt_data: Strings::from_vec(strings),
        })
    }

    /// Reads all tokens, or none: each is a string, octet by octet. Fails only if an allocation fails. The iterator
    /// must end.
    pub fn from_tokens<S: AsStr + Drop, I: Iterator<Item = S>>(
        alloc: Global,
        tokens: I,
    ) -> Result<TXT, ParseError>
        requires can { I.can_next tokens }
        requires ends { IsFinite (I.remaining tokens) }
        ensures { ReadsTokenRow I.next_gives S.text txt_tokens txt_fields result tokens }
    {
        let txt_data = all_texts(alloc, tokens)?;
        Ok(TXT { txt_data })
    }
}

impl Record for TXT {
    ghost facts = { txt_facts };

    #[inline]
    fn row() -> &'static [Part] {
        &row::TXT
    }
}

impl DecodesRow for TXT {
    ghost checked = { refl };

    /// Checks character strings until RDLENGTH is reached or passed, and then keeps them. If it is passed, the strings do not
    /// fill the RDATA, and the value has the strings that were read. Allocates once for the list, and once for each string.
    fn read_row(decoder: &mut BinDecoder<'_>, length: Restrict<u16>) -> Result<TXT, DecodeError> {
        match take_strings(decoder, length) {
            Some((octets, count)) => Ok(TXT {
                txt_data: strings_in(decoder.allocator(), octets, count)?,
            }),
            None => Err(DecodeError::InsufficientBytes),
        }
    }
}

// The strings that fill the octets, which were checked and counted.
fn strings_in(alloc: Global, octets: &[u8], count: usize) -> Result<Strings, AllocError>
    ensures { IfOk result (λ strings. (v : List (List ℕ)) → Field octets.now 0 CharacterStrings v (list_length octets.now) → strings ≡ v) }
{
    let mut strings = Strings::with_capacity(alloc, count)?;
    let mut offset = 0;
    while offset < octets.len() {
        let end = octets.len().min(offset + 1 + octets[offset] as usize);
        strings.push(Octets::from_slice(alloc, &octets[offset + 1..end])?)?;
        offset = end;
    }
    Ok(strings)
}

impl BinEncodable for TXT {
    ghost emits = { λ x r old new. Emits txt_shape (txt_fields x) r old new };

    /// Appends the character strings. Fails with [`Message`](ProtoError::Message) if a string has more than 255 octets;
    /// those before it may have been appended.
    fn emit(&self, encoder: &mut BinEncoder<'_>) -> Result<(), ProtoError> {
        for string in self.txt_data.as_slice() {
            encoder.emit_character_data(string.as_slice())?;
        }
        Ok(())
    }
}

/// Whether TXT can be emitted: no string has more than 255 octets.
#[inline]
pub fn txt_is_emittable(x: &TXT) -> bool
    ensures { result ≡ all_emittable txt_shape (txt_fields x.now) }
{
    for text in x.txt_data.as_slice() {
        if text.len() > 255 {
            return false;
        }
    }
    true
}

/// The steps of TXT: a string each, the one with this index.
#[inline]
pub fn txt_step<'a>(x: &'a TXT, step: usize, part: usize, head: &mut Head) -> Option<Step<'a>>
    requires empty { head.old ≡ [] }
    requires short { AllShort txt_shape (txt_fields x.now) }
    ensures { (j : ℕ) → GivesStep (texts_left x.now.txt_data) step part j head.new result }
{
    let texts = x.txt_data.as_slice();
    if step > 0 {
        return None;
    }
    if part >= texts.len() {
        return None;
    }
    Some(Step {
        tail: head.text(texts[part].as_slice()),
        step: 0,
        part: part + 1,
        item: 0,
    })
}

// String by string, each after its length octet.
#[inline]
fn texts_cmp(a: &[Octets], b: &[Octets]) -> Ordering
    ensures { result ≡ slice_cmp nat_cmp (flat_map string a.now) (flat_map string b.now) }
{
    let shorter = a.len().min(b.len());
    for at in 0..shorter {
        let order = text_behind(Ordering::Equal, a[at].as_slice(), b[at].as_slice());
        if order.is_ne() {
            return order;
        }
    }
    a.len().cmp(&b.len())
}

// String by string.
#[tactic(auto, unfolding(dns_fields::specs::Fields::field_octets))]
fn txt_order(a: &TXT, b: &TXT) -> Ordering
    ensures { result ≡ canonical_cmp txt_shape (txt_fields a.now) (txt_fields b.now) }
{
    texts_cmp(a.txt_data.as_slice(), b.txt_data.as_slice())
}

impl OrderedRecord for TXT {
    #[inline]
    #[tactic(auto, using(crate::proofs::QuickOrders::txt_orders, crate::proofs::QuickOrders::tie))]
    fn cmp_canonical_fields(&self, other: &TXT) -> Option<Ordering> {
        let order = txt_order(self, other);
        if order.is_eq() {
            return Some(order);
        }
        if !txt_is_emittable(self) || !txt_is_emittable(other) {
            return None;
        }
        Some(order)
    }

    fn cmp_values(&self, other: &TXT) -> Ordering {
        self.txt_data.cmp(&other.txt_data)
    }
}

impl fmt::Display for TXT {
    ghost output = { λ x. Some (txt_text x) };

    /// Prints the strings, with nothing between, and U+FFFD for octets that are not UTF-8.
    #[tactic(auto, unfolding(crate::specs::Lossy::lossy))]
    fn fmt<W: fmt::Write>(&self, f: &mut fmt::Formatter<W>) -> fmt::Result {
        for string in self.txt_data.as_slice() {
            f.write(BStr::new(string.as_slice()))?;
        }
        Ok(())
    }
}
