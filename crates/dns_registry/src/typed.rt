//! RDATA in a message that is looked at by the format of its type.

ghost use Rattle.std.specs.Prelude.{◌≡◌, ◌↔◌, ◌+◌, ◌≤◌, ◌<◌, ℕ, List, true, false, length, take, drop, IfOk, IfErr, OnOk, IfSome, IfNone, MatchOption, slice_get, Some};
ghost use Rattle.dns_registry.specs.declared.rule.FieldRule.{FieldRule as RuleValue};
ghost use Rattle.dns_types.specs.RecordTypes.{number_of};
ghost use Rattle.dns_names_wire.specs.Terms.{StaysBehind};
ghost use Rattle.dns_rows.specs.{Fronts.IsFront, Table.kinds_of};
ghost use Rattle.dns_check.specs.{Rows.is_row, Rows.HasRow, Checks.NoFill, Checks.IsRowError};
ghost use Rattle.dns_view.specs.ViewOf.{IsViewOf};
ghost use Rattle.dns_registry.specs.{Formats.row_of_format, Formats.AllPass, Registry.registry};
ghost use Rattle.dns_registry.specs.Typed.{FirstPass, PassesAt, IsQuestionType, IsTypedError, NotTyped, format_for};

use crate::format::{DATA_NAMES, Format, NO_RULES, format_of};
use crate::rule::{FieldRule, passes};
use dns_names_wire::walk::Walk;
use dns_rows::Front;
use dns_rows::row::NULL;
use dns_types::{DecodeError, RecordType, Restrict};
use dns_view::{FieldRef, NameRef, RowView};
use thiserror::Error;

/// Why octets are no RDATA of a type by the format of its RFC.
#[derive(Clone, Copy, Debug, PartialEq, Eq, Error)]
pub enum TypedError {
    /// The octets are not the fields of the type, as a [`RowView`] tells.
    #[error("{0}")]
    Decode(DecodeError),
    /// The octets are the fields of the type, and this is the first field that is not as its RFC asks ([`FieldRule`]).
    #[error("the field {name} is not as its type asks")]
    Field {
        /// Its index among the fields.
        index: usize,
        /// Its name.
        name: &'static str,
    },
}

/// RDATA in a message, of a type of any kind, that was checked by the format of the type's RFC.
///
/// It knows the fields of every type that IANA lists with a format, also of those that this library has no struct for. A type
/// without a format is one field of any octets (RFC 3597, section 4). It is stricter than
/// hickory's rules where the RFC is, and laxer where hickory is stricter than the RFC. A copy is cheap, and nothing is allocated.
#[derive(Clone, Copy)]
pub struct TypedRef<'a> {
    view: RowView<'a>,
    rules: &'static [FieldRule],
    names: &'static [&'static str],
}

// The name of a field, or none if there are fewer.
#[inline]
fn name_at(names: &'static [&'static str], index: usize) -> &'static str {
    if index < names.len() {
        names[index]
    } else {
        ""
    }
}

// Returns whether only questions have this type.
fn is_question_type(number: u16) -> bool
    ensures { (result ≡ true) ↔ IsQuestionType number }
{
    number >= 251 && number <= 255
}

// The format of RDATA that begins with these octets.
fn format_for_type(number: u16, octets: &[u8]) -> Format
    ensures row { (t : RecordType) → number_of t ≡ number → row_of_format result ≡ format_for t octets.now }
    ensures front { IsFront result.parts.now result.front }
    ensures checked { is_row result.parts.now ≡ true }
{
    match format_of(number, octets) {
        Some(format) => format,
        None => Format {
            parts: &NULL,
            front: Front {
                count: 0,
                octets: 0,
            },
            rules: &NO_RULES,
            names: &DATA_NAMES,
        },
    }
}

// The first octets, or all if there are not so many.
#[inline]
fn front_of(octets: &[u8], count: usize) -> &[u8]
    ensures { result.now ≡ take count octets.now }
{
    if count <= octets.len() {
        &octets[..count]
    } else {
        octets
    }
}

// The view of the next octets by a format.
fn view_by<'a>(
    walk: &mut Walk<'a>,
    record_type: RecordType,
    format: &Format,
    length: Restrict<u16>,
) -> Result<RowView<'a>, DecodeError>
    requires front { IsFront format.now.parts.now format.now.front }
    requires row { is_row format.now.parts.now ≡ true }
    ensures found { IfOk result (λ r. IsViewOf walk.old length format.now.parts.now r × (r.record_type ≡ record_type)) }
    ensures after { OnOk result (walk.new.index ≡ walk.old.index + length) }
    ensures refused { IfErr result (λ e. NoFill walk.old.message walk.old.index length format.now.parts.now) }
    ensures why { IfErr result (λ e. IsRowError format.now.parts.now length walk.old e walk.new) }
    ensures behind { StaysBehind walk.old walk.new }
{
    let len = length.unverified();
    if let Some(view) = RowView::near(
        walk.message(),
        walk.index(),
        record_type,
        format.parts,
        format.front,
        len,
        &mut usize::MAX,
    ) {
        let _taken = walk.read_slice(len as usize);
        return Ok(view);
    }
    RowView::read(walk, record_type, format.parts, length, &mut usize::MAX)
}

// Returns whether the field of this index is as a rule asks, or there are fewer fields.
fn field_passes(view: &RowView<'_>, index: usize, rule: FieldRule) -> bool
    ensures { (h : HasRow view.now.message.now view.now.offset view.now.row.now (view.now.offset + view.now.len)) →
        (result ≡ true) ↔ PassesAt index rule view.now.message.now view.now.offset view.now.row.now h.values (view.now.offset + view.now.len) h.stands }
{
    if let FieldRule::Free = rule {
        return true;
    }
    match view.field(index) {
        Some(field) => passes(view.message(), rule, &field),
        None => true,
    }
}

// Returns the index of the first field that is not as its rule asks, if there is one.
fn first_rejected(view: &RowView<'_>, rules: &[FieldRule]) -> Option<usize>
    ensures none { IfNone result ((h : HasRow view.now.message.now view.now.offset view.now.row.now (view.now.offset + view.now.len)) →
        AllPass view.now.message.now view.now.offset view.now.row.now rules.now h.values (view.now.offset + view.now.len) h.stands) }
    ensures before { IfSome result (λ i. (h : HasRow view.now.message.now view.now.offset view.now.row.now (view.now.offset + view.now.len)) →
        FirstPass i rules.now view.now.message.now view.now.offset view.now.row.now h.values (view.now.offset + view.now.len) h.stands) }
    ensures fails { IfSome result (λ i. (rule : RuleValue) → slice_get rules.now i ≡ Some rule →
        (h : HasRow view.now.message.now view.now.offset view.now.row.now (view.now.offset + view.now.len)) →
        PassesAt i rule view.now.message.now view.now.offset view.now.row.now h.values (view.now.offset + view.now.len) h.stands → ⊥) }
    ensures inside { IfSome result (λ i. i < length rules.now) }
{
    let mut index = 0;
    'rules: while index < rules.len() {
        if !field_passes(view, index, rules[index]) {
            return Some(index);
        }
        index += 1;
    }
    None
}

impl<'a> TypedRef<'a> {
    ghost use Rattle.dns_fields.specs.Fields.{canonical};
    ghost use Rattle.dns_view.specs.{Putting.Put, Putting.all_form, Putting.key_of, Shown.ShowsAt, NameFields.names_in, NameFields.ShowsNameAt};
    ghost use Rattle.dns_registry.specs.Typed.{IsTypedViewOf, FillsFormat, format_at};

    /// Checks that the next `length` octets are RDATA of this type by its RFC, and takes them. Allocates nothing.
    ///
    /// # Errors
    ///
    /// - [`Decode`](TypedError::Decode) with
    ///   [`UnknownRecordTypeValue`](DecodeError::UnknownRecordTypeValue): only questions have the type (251 to 255). Nothing is taken.
    /// - [`Decode`](TypedError::Decode): the octets are not the fields of the type. The error inside says why, and the decoder may be
    ///   at any offset from the one where the call began.
    /// - [`Field`](TypedError::Field): a field is not as its RFC asks. The decoder is at the end of the RDATA.
    pub fn read(
        walk: &mut Walk<'a>,
        record_type: RecordType,
        length: Restrict<u16>,
    ) -> Result<TypedRef<'a>, TypedError>
        ensures found { IfOk result (IsTypedViewOf walk.old.message walk.old.index length record_type) }
        ensures after { OnOk result (walk.new.index ≡ walk.old.index + length) }
        ensures refused { IfErr result (λ e. NotTyped walk.old.message walk.old.index length record_type) }
        ensures why { IfErr result (λ e. IsTypedError record_type length walk.old e walk.new) }
        ensures behind { StaysBehind walk.old walk.new }
    {
        let number = u16::from(record_type);
        if is_question_type(number) {
            return Err(TypedError::Decode(DecodeError::UnknownRecordTypeValue(number)));
        }
        let unread = walk.unread();
        let format = format_for_type(number, front_of(unread, length.unverified() as usize));
        let view = match view_by(walk, record_type, &format, length) {
            Ok(view) => view,
            Err(e) => return Err(TypedError::Decode(e)),
        };
        match first_rejected(&view, format.rules) {
            None => Ok(TypedRef {
                view,
                rules: format.rules,
                names: format.names,
            }),
            Some(index) => Err(TypedError::Field {
                index,
                name: name_at(format.names, index),
            }),
        }
    }

    /// The type of the record.
    #[inline]
    pub fn record_type(&self) -> RecordType
        ensures { (m : List ℕ) (p n : ℕ) (t : RecordType) → IsTypedViewOf m p n t self.now → result ≡ t }
    {
        self.view.record_type
    }

    /// The offset of the RDATA in its message.
    #[inline]
    pub fn offset(&self) -> usize
        ensures { (m : List ℕ) (p n : ℕ) (t : RecordType) → IsTypedViewOf m p n t self.now → result ≡ p }
    {
        self.view.offset()
    }

    /// The octets of the RDATA, as they are encoded in the message: names may end with a compression pointer.
    #[inline]
    pub fn octets(&self) -> &'a [u8]
        ensures { (m : List ℕ) (p n : ℕ) (t : RecordType) → IsTypedViewOf m p n t self.now → result.now ≡ take n (drop p m) }
    {
        self.view.octets()
    }

    /// The names of the fields, in order: those of the RFC in lower case. Allocates nothing.
    #[inline]
    pub fn names_of_fields(&self) -> &'static [&'static str]
        ensures { result.now ≡ self.now.names.now }
    {
        self.names
    }

    /// The field of this index, or `None` if the type has fewer fields. Allocates nothing.
    pub fn field(&self, index: usize) -> Option<FieldRef<'a>>
        ensures { (m : List ℕ) (p n : ℕ) (t : RecordType) → IsTypedViewOf m p n t self.now → (h : HasRow m p (format_at m p n t).parts (p + n)) →
            MatchOption result (length (format_at m p n t).parts ≤ index)
            (λ f. ShowsAt m p index (kinds_of (format_at m p n t).parts) h.values (p + n) f) }
    {
        self.view.field(index)
    }

    /// The name of this index among the fields that are names, or `None` if the type has fewer names. Allocates nothing.
    pub fn name(&self, index: usize) -> Option<NameRef<'a>>
        ensures { (m : List ℕ) (p n : ℕ) (t : RecordType) → IsTypedViewOf m p n t self.now → (h : HasRow m p (format_at m p n t).parts (p + n)) →
            MatchOption result (names_in (kinds_of (format_at m p n t).parts) ≤ index)
            (λ r. ShowsNameAt m p (kinds_of (format_at m p n t).parts) h.values index r) }
    {
        self.view.name(index)
    }

    /// Writes the octets with names uncompressed and their case preserved at the front of a buffer, and returns how many they
    /// are. If they are more than the buffer has, as many as fit are written, and the number is still theirs. Allocates nothing.
    pub fn put_uncompressed(&self, out: &mut [u8]) -> usize
        ensures { (m : List ℕ) (p n : ℕ) (t : RecordType) → IsTypedViewOf m p n t self.now → (h : HasRow m p (format_at m p n t).parts (p + n)) →
            Put out.old out.new 0 result (all_form false (kinds_of (format_at m p n t).parts) h.values) }
    {
        self.view.put_uncompressed(out)
    }

    /// Writes the canonical octets at the front of a buffer, and returns how many they are: this library's own form for equality
    /// and order, not that of DNSSEC. All names are uncompressed and lowercased. Allocates nothing.
    ///
    /// If they are more than the buffer has, as many as fit are written, and the number is still theirs.
    pub fn put_canonical(&self, out: &mut [u8]) -> usize
        ensures { (m : List ℕ) (p n : ℕ) (t : RecordType) → IsTypedViewOf m p n t self.now → (h : HasRow m p (format_at m p n t).parts (p + n)) →
            Put out.old out.new 0 result (canonical (kinds_of (format_at m p n t).parts) h.values) }
    {
        self.view.put_canonical(out)
    }

    /// The first eight canonical octets as a number, high octet first; octets that are missing are 0. Allocates nothing.
    pub fn order_key(&self) -> u64
        ensures { (m : List ℕ) (p n : ℕ) (t : RecordType) → IsTypedViewOf m p n t self.now → (h : HasRow m p (format_at m p n t).parts (p + n)) →
            result ≡ key_of (canonical (kinds_of (format_at m p n t).parts) h.values) }
    {
        self.view.order_key()
    }
}
