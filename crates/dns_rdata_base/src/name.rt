//! Records of one name: CNAME, NS, PTR (RFC 1035, 3.3) and ANAME.

ghost use Rattle.std.specs.{Prelude.◌≡◌, Prelude.ℕ, Prelude.[], Prelude.Some, Option.option_copied, Prelude.refl};
ghost use Rattle.dns_fields.specs.declared.RDataEncoding.TheVariants as modes;
ghost use Rattle.dns_canonical.specs.Steps.{GivesStep, at_once, field_steps};
ghost use Rattle.dns_rdata_base.specs.NameRecords.{name_shape, name_fields, cname_fields, cname_facts, ns_fields, ns_facts, ptr_fields, ptr_facts, aname_fields, aname_facts};
ghost use Rattle.dns_tokens.specs.{Reads.ReadsTokenRow, Straight.straight_tokens, Straight.straight_text};

use crate::{OrderedRecord, unless_tied};
use dns_canonical::{Head, Step, Tail, name_behind};
use dns_check::DecodesFields;
use dns_names_wire::{
    BinDecoder, BinEncodable, BinEncoder, DecodeError, EncodesFields, Name, ParseError, ProtoError,
    RDataEncoding, Record,
};
use dns_rows::{Part, row};
use dns_tokens::next_name;
use std::alloc::Global;
use std::cmp::Ordering;
use std::convert::AsStr;
use std::fmt;
use std::ops::Deref;

/// The only step of ANAME, CNAME, NS and PTR: the name.
#[inline]
pub fn name_step<'a>(name: &'a Name, step: usize, head: &mut Head) -> Option<Step<'a>>
    requires empty { head.old ≡ [] }
    ensures { (i j : ℕ) → GivesStep (field_steps at_once name_shape (name_fields name.now)) step i j head.new result }
{
    let _ = &head;
    match step {
        0 => Some(Step::to(Tail::name(name), 1)),
        _ => None,
    }
}

/// CNAME RDATA (RFC 1035, section 3.3.1): the canonical name of an alias.
///
///     /   CNAME   /   a domain name, compressed on emit
///
/// The RDATA `03777777076578616d706c6503636f6d00` is `www.example.com.`.
#[derive(Clone, Debug, Drop, Eq, Hash, PartialEq)]
pub struct CNAME(pub Name);

impl CNAME {
    /// Reads one token, the text of a name; a relative name is completed with the origin. Further tokens are not read.
    ///
    /// # Errors
    ///
    /// - [`MissingToken`](ParseError::MissingToken): there is no token.
    /// - [`Proto`](ParseError::Proto): the token is no name.
    /// - [`Memory`](ParseError::Memory): an allocation failed.
    pub fn from_tokens<S: AsStr + Drop, I: Iterator<Item = S>>(
        alloc: Global,
        mut tokens: I,
        origin: Option<&Name>,
    ) -> Result<CNAME, ParseError>
        requires can { I.can_next tokens }
        ensures { ReadsTokenRow I.next_gives S.text (straight_tokens (option_copied origin.entry) name_shape) cname_fields result tokens }
    {
        Ok(CNAME(next_name(alloc, &mut tokens, origin, "CNAME name")?))
    }
}

impl Record for CNAME {
    ghost facts = { cname_facts };

    #[inline]
    fn row() -> &'static [Part] {
        &row::NAME
    }
}

impl DecodesFields for CNAME {
    ghost alone = { record { checked = refl; asked = refl; alone = refl; long = tt } };

    fn read_fields(decoder: &mut BinDecoder<'_>) -> Result<CNAME, DecodeError> {
        Ok(CNAME(Name::read(decoder)?))
    }
}

impl EncodesFields for CNAME {
    /// Appends the name, compressed against earlier names of the message (RFC 1035, section 4.1.4).
    const MODE: RDataEncoding = RDataEncoding::StandardRecord;

    ghost MODE = { modes.StandardRecord };

    fn emit_fields(&self, encoder: &mut BinEncoder<'_>) -> Result<(), ProtoError> {
        self.0.emit(encoder)
    }
}

impl Deref for CNAME {
    type Target = Name;

    ghost deref_gives = { λ x n. n ≡ x.0 };

    fn deref(&self) -> &Name {
        &self.0
    }
}

impl OrderedRecord for CNAME {
    #[inline]
    fn cmp_canonical_fields(&self, other: &CNAME) -> Option<Ordering> {
        let order = name_behind(Ordering::Equal, &self.0, &other.0);
        unless_tied(order, self, other, false)
    }

    fn cmp_values(&self, other: &CNAME) -> Ordering {
        self.0.cmp(&other.0)
    }
}

impl fmt::Display for CNAME {
    ghost output = { λ x. Some (straight_text cname_facts x) };

    /// Prints the name.
    fn fmt<W: fmt::Write>(&self, f: &mut fmt::Formatter<W>) -> fmt::Result {
        write!(f, "{}", self.0)
    }
}

/// NS RDATA (RFC 1035, section 3.3.11): a name server of the zone.
///
///     /   NSDNAME   /   a domain name, compressed on emit
///
/// The RDATA `036e7331076578616d706c6503636f6d00` is `ns1.example.com.`.
#[derive(Clone, Debug, Drop, Eq, Hash, PartialEq)]
pub struct NS(pub Name);

impl NS {
    /// Reads one token, the text of a name; a relative name is completed with the origin. Further tokens are not read.
    ///
    /// # Errors
    ///
    /// - [`MissingToken`](ParseError::MissingToken): there is no token.
    /// - [`Proto`](ParseError::Proto): the token is no name.
    /// - [`Memory`](ParseError::Memory): an allocation failed.
    pub fn from_tokens<S: AsStr + Drop, I: Iterator<Item = S>>(
        alloc: Global,
        mut tokens: I,
        origin: Option<&Name>,
    ) -> Result<NS, ParseError>
        requires can { I.can_next tokens }
        ensures { ReadsTokenRow I.next_gives S.text (straight_tokens (option_copied origin.entry) name_shape) ns_fields result tokens }
    {
        Ok(NS(next_name(alloc, &mut tokens, origin, "NS name")?))
    }
}

impl Record for NS {
    ghost facts = { ns_facts };

    #[inline]
    fn row() -> &'static [Part] {
        &row::NAME
    }
}

impl DecodesFields for NS {
    ghost alone = { record { checked = refl; asked = refl; alone = refl; long = tt } };

    fn read_fields(decoder: &mut BinDecoder<'_>) -> Result<NS, DecodeError> {
        Ok(NS(Name::read(decoder)?))
    }
}

impl EncodesFields for NS {
    /// Appends the name, compressed against earlier names of the message (RFC 1035, section 4.1.4).
    const MODE: RDataEncoding = RDataEncoding::StandardRecord;

    ghost MODE = { modes.StandardRecord };

    fn emit_fields(&self, encoder: &mut BinEncoder<'_>) -> Result<(), ProtoError> {
        self.0.emit(encoder)
    }
}

impl Deref for NS {
    type Target = Name;

    ghost deref_gives = { λ x n. n ≡ x.0 };

    fn deref(&self) -> &Name {
        &self.0
    }
}

impl OrderedRecord for NS {
    #[inline]
    fn cmp_canonical_fields(&self, other: &NS) -> Option<Ordering> {
        let order = name_behind(Ordering::Equal, &self.0, &other.0);
        unless_tied(order, self, other, false)
    }

    fn cmp_values(&self, other: &NS) -> Ordering {
        self.0.cmp(&other.0)
    }
}

impl fmt::Display for NS {
    ghost output = { λ x. Some (straight_text ns_facts x) };

    /// Prints the name.
    fn fmt<W: fmt::Write>(&self, f: &mut fmt::Formatter<W>) -> fmt::Result {
        write!(f, "{}", self.0)
    }
}

/// PTR RDATA (RFC 1035, section 3.3.12): the name that an address or a name points to.
///
///     /   PTRDNAME   /   a domain name, compressed on emit
///
/// The RDATA `04686f7374076578616d706c6503636f6d00` is `host.example.com.`.
#[derive(Clone, Debug, Drop, Eq, Hash, PartialEq)]
pub struct PTR(pub Name);

impl PTR {
    /// Reads one token, the text of a name; a relative name is completed with the origin. Further tokens are not read.
    ///
    /// # Errors
    ///
    /// - [`MissingToken`](ParseError::MissingToken): there is no token.
    /// - [`Proto`](ParseError::Proto): the token is no name.
    /// - [`Memory`](ParseError::Memory): an allocation failed.
    pub fn from_tokens<S: AsStr + Drop, I: Iterator<Item = S>>(
        alloc: Global,
        mut tokens: I,
        origin: Option<&Name>,
    ) -> Result<PTR, ParseError>
        requires can { I.can_next tokens }
        ensures { ReadsTokenRow I.next_gives S.text (straight_tokens (option_copied origin.entry) name_shape) ptr_fields result tokens }
    {
        Ok(PTR(next_name(alloc, &mut tokens, origin, "PTR name")?))
    }
}

impl Record for PTR {
    ghost facts = { ptr_facts };

    #[inline]
    fn row() -> &'static [Part] {
        &row::NAME
    }
}

impl DecodesFields for PTR {
    ghost alone = { record { checked = refl; asked = refl; alone = refl; long = tt } };

    fn read_fields(decoder: &mut BinDecoder<'_>) -> Result<PTR, DecodeError> {
        Ok(PTR(Name::read(decoder)?))
    }
}

impl EncodesFields for PTR {
    /// Appends the name, compressed against earlier names of the message (RFC 1035, section 4.1.4).
    const MODE: RDataEncoding = RDataEncoding::StandardRecord;

    ghost MODE = { modes.StandardRecord };

    fn emit_fields(&self, encoder: &mut BinEncoder<'_>) -> Result<(), ProtoError> {
        self.0.emit(encoder)
    }
}

impl Deref for PTR {
    type Target = Name;

    ghost deref_gives = { λ x n. n ≡ x.0 };

    fn deref(&self) -> &Name {
        &self.0
    }
}

impl OrderedRecord for PTR {
    #[inline]
    fn cmp_canonical_fields(&self, other: &PTR) -> Option<Ordering> {
        let order = name_behind(Ordering::Equal, &self.0, &other.0);
        unless_tied(order, self, other, false)
    }

    fn cmp_values(&self, other: &PTR) -> Ordering {
        self.0.cmp(&other.0)
    }
}

impl fmt::Display for PTR {
    ghost output = { λ x. Some (straight_text ptr_facts x) };

    /// Prints the name.
    fn fmt<W: fmt::Write>(&self, f: &mut fmt::Formatter<W>) -> fmt::Result {
        write!(f, "{}", self.0)
    }
}

/// ANAME RDATA (draft-ietf-dnsop-aname, type 65305 of private use): the name whose addresses the owner has.
///
///     /   TARGET   /   a domain name, uncompressed on emit
///
/// The RDATA `03777777076578616d706c6503636f6d00` is `www.example.com.`.
#[derive(Clone, Debug, Drop, Eq, Hash, PartialEq)]
pub struct ANAME(pub Name);

impl ANAME {
    /// Reads one token, the text of a name; a relative name is completed with the origin. Further tokens are not read.
    ///
    /// # Errors
    ///
    /// - [`MissingToken`](ParseError::MissingToken): there is no token.
    /// - [`Proto`](ParseError::Proto): the token is no name.
    /// - [`Memory`](ParseError::Memory): an allocation failed.
    pub fn from_tokens<S: AsStr + Drop, I: Iterator<Item = S>>(
        alloc: Global,
        mut tokens: I,
        origin: Option<&Name>,
    ) -> Result<ANAME, ParseError>
        requires can { I.can_next tokens }
        ensures { ReadsTokenRow I.next_gives S.text (straight_tokens (option_copied origin.entry) name_shape) aname_fields result tokens }
    {
        Ok(ANAME(next_name(alloc, &mut tokens, origin, "ANAME name")?))
    }
}

impl Record for ANAME {
    ghost facts = { aname_facts };

    #[inline]
    fn row() -> &'static [Part] {
        &row::NAME
    }
}

impl DecodesFields for ANAME {
    ghost alone = { record { checked = refl; asked = refl; alone = refl; long = tt } };

    fn read_fields(decoder: &mut BinDecoder<'_>) -> Result<ANAME, DecodeError> {
        Ok(ANAME(Name::read(decoder)?))
    }
}

impl EncodesFields for ANAME {
    /// Appends the name uncompressed, with case preserved.
    const MODE: RDataEncoding = RDataEncoding::Other;

    ghost MODE = { modes.Other };

    fn emit_fields(&self, encoder: &mut BinEncoder<'_>) -> Result<(), ProtoError> {
        self.0.emit(encoder)
    }
}

impl Deref for ANAME {
    type Target = Name;

    ghost deref_gives = { λ x n. n ≡ x.0 };

    fn deref(&self) -> &Name {
        &self.0
    }
}

impl OrderedRecord for ANAME {
    #[inline]
    fn cmp_canonical_fields(&self, other: &ANAME) -> Option<Ordering> {
        let order = name_behind(Ordering::Equal, &self.0, &other.0);
        unless_tied(order, self, other, false)
    }

    fn cmp_values(&self, other: &ANAME) -> Ordering {
        self.0.cmp(&other.0)
    }
}

impl fmt::Display for ANAME {
    ghost output = { λ x. Some (straight_text aname_facts x) };

    /// Prints the name.
    fn fmt<W: fmt::Write>(&self, f: &mut fmt::Formatter<W>) -> fmt::Result {
        write!(f, "{}", self.0)
    }
}
