//! RDATA read from a text of a zone file.

ghost use Rattle.std.specs.Prelude.{◌≡◌, ◌↔◌, ◌⊎◌, [], IsTrue, IfSome, IfNone, IfOk, IfErr, length};
ghost use Rattle.std.specs.{Bool.OnTrue, Option.option_copied};
ghost use Rattle.dns_rdata.specs.Data.{shape, type_of, IsEmittable, data_octets};
ghost use Rattle.dns_tokens.specs.Reads.{UnlessParseMemory};
ghost use Rattle.dns_zone_rows.specs.RowTable.{zone_row_of};
ghost use Rattle.dns_zone_tokens.specs.{Remaining.ReadsAll, Remaining.TookAll, ZoneReads.IsUndividedError};
ghost use Rattle.dns_rdata_zone.specs.ZoneFaults.{OctetsFault, IsBehindMark, BehindMarkFault, HasNoMark, LacksRow, TokensFault, ByRowFault, ZoneFault};
ghost use Rattle.dns_rdata_zone.specs.ZoneGives.{GiveByRow, has_name, AreDataOf, GivesValue, GivesNone, at_start};
ghost use Rattle.dns_rdata_zone.specs.ZoneSteps.{AreNoData, UnknownIs, UnknownIsNone, RowIs, RowIsNone};

use crate::services::count_octets;
use dns_rdata::{BinDecoder, Name, ParseError, RData, RecordType, Restrict};
use dns_types::Octets;
use dns_zone_rows::{fields_alone_of, put_near_row, row_octets, zone_row_of};
use dns_zone_tokens::{ShortOctets, ZoneTokens, is_unknown_mark, unknown_data};
use std::alloc::Global;

const TOO_LONG: &str = "record data past 65535 octets";

const POINTER: &str = "pointer in a domain name of unknown data";

/// Reads the RDATA of a type from its text in a zone file (RFC 1035, section 5.1; RFC 3597, section 5; RFC 9460,
/// section 2.1; the RFCs of the types).
///
/// The text is the RDATA of one record, as it follows the type. It is octets and need not be UTF-8: `\DDD` is the octet
/// of that number, `\X` the character X, and any other octet is itself. Tokens, parentheses, comments and line ends are
/// as [`ZoneTokens`](dns_zone_tokens::ZoneTokens) has them; each type has the fields of its zone row
/// ([`zone_row_of`](dns_zone_rows::zone_row_of)).
///
/// - `@` alone is the origin, and a name without a dot at its end is completed with the origin. If there is no origin,
///   such a name counts as fully qualified ([`Name::parse`] leaves it relative), and `@` is an error.
/// - Service parameters may come in any order, none twice.
/// - `\#` without quotes as the first token begins the unknown-data form, which every type has: a length, and as many
///   octets in hexadecimal digits. They are read as by [`RData::read`], and a name among them has no compression
///   pointer.
///
/// # Errors
///
/// - [`MissingToken`](ParseError::MissingToken): a token is missing; the text names its field.
/// - [`Message`](ParseError::Message): the text cannot be divided into tokens, a token is no value of its field, there
///   is a token too many, the unknown-data form is malformed, or there are more than 65535 octets. The text names
///   the field or the cause.
/// - [`Proto`](ParseError::Proto): the octets are not RDATA of the type.
/// - [`UnsupportedRecordType`](ParseError::UnsupportedRecordType): the type has no zone row, and the text is not in the
///   unknown-data form. `\#`, a length and octets are read for every type.
/// - [`Memory`](ParseError::Memory): an allocation fails.
///
/// ```rust
/// fn read_zone_mail(alloc: Global, origin: &Name) -> Result<RData, ParseError> {
///     from_zone_text(alloc, RecordType::MX, b"10 mail", Some(origin))
/// }
/// ```
pub fn from_zone_text(
    alloc: Global,
    record_type: RecordType,
    text: &[u8],
    origin: Option<&Name>,
) -> Result<RData, ParseError>
    // A value is returned exactly if the text gives it.
    ensures found { IfOk result (GivesValue (option_copied origin.entry) record_type text.now) }
    ensures kind { IfOk result (λ v. type_of v ≡ record_type) }
    // It can be emitted.
    ensures emittable { IfOk result IsEmittable }
    // After an error other than `Memory`, the text gives no value.
    ensures refused { IfErr result (λ e. UnlessParseMemory e (GivesNone (option_copied origin.entry) record_type text.now)) }
    // The error says the cause, and which field it is about.
    ensures why { IfErr result (λ e. (e ≡ ParseError.Memory) ⊎ ZoneFault (option_copied origin.entry) record_type text.now e) }
{
    match behind_mark(text)? {
        Some(mut tokens) => from_unknown_data(alloc, record_type, &mut tokens),
        None => from_row(alloc, record_type, text, origin),
    }
}

// The tokens after `\#`, if this is the first token and not in quotes.
fn behind_mark(text: &[u8]) -> Result<Option<ZoneTokens<'_>>, ParseError>
    ensures marked { IfOk result (λ o. IfSome o (IsBehindMark text.now)) }
    ensures unmarked { IfOk result (λ o. IfNone o (HasNoMark text.now)) }
    ensures refused { IfErr result (IsUndividedError (at_start text.now)) }
{
    if begins_unmarked(text) {
        return Ok(None);
    }
    let mut tokens = ZoneTokens::new(text);
    match tokens.next_token()? {
        Some(first) if is_unknown_mark(first) => Ok(Some(tokens)),
        _ => Ok(None),
    }
}

// Whether the first octet begins a token and is not `\`. Most texts begin so, and their first token needs no look.
#[inline]
fn begins_unmarked(text: &[u8]) -> bool
    ensures { OnTrue result (HasNoMark text.now) }
{
    if text.len() == 0 {
        return false;
    }
    let first = text[0];
    if first == b'"' {
        return true;
    }
    if first <= b')' || first == b';' || first == b'\\' {
        return false;
    }
    true
}

// The value that the tokens of a text give by the zone row of the type. Most texts are short and plain: their octets need no
// allocation.
fn from_row(
    alloc: Global,
    record_type: RecordType,
    text: &[u8],
    origin: Option<&Name>,
) -> Result<RData, ParseError>
    ensures found { IfOk result (RowIs (option_copied origin.entry) record_type text.now) }
    ensures kind { IfOk result (λ v. type_of v ≡ record_type) }
    ensures emittable { IfOk result IsEmittable }
    ensures refused { IfErr result (λ e. UnlessParseMemory e (RowIsNone (option_copied origin.entry) record_type text.now)) }
    ensures why { IfErr result (λ e. (e ≡ ParseError.Memory) ⊎ ByRowFault (option_copied origin.entry) record_type text.now e) }
{
    let mut octets = ShortOctets::new();
    if put_near_data(&mut octets, record_type, text, origin) {
        return read_octets(alloc, record_type, octets.as_slice());
    }
    from_long_row(alloc, record_type, text, origin)
}

// The octets that the tokens of a text give by the zone row of the type, in a buffer that is empty before. `false` says
// nothing of the text.
#[inline]
fn put_near_data(
    octets: &mut ShortOctets,
    record_type: RecordType,
    text: &[u8],
    origin: Option<&Name>,
) -> bool
    requires { octets.old.items ≡ [] }
    ensures { OnTrue result (TookAll (GiveByRow (option_copied origin.entry) (zone_row_of record_type)) octets.new.items (at_start text.now)) }
{
    match fields_alone_of(record_type) {
        Some(fields) => put_near_row(octets, text, origin, fields),
        None => false,
    }
}

// The same of any text.
fn from_long_row(
    alloc: Global,
    record_type: RecordType,
    text: &[u8],
    origin: Option<&Name>,
) -> Result<RData, ParseError>
    ensures found { IfOk result (RowIs (option_copied origin.entry) record_type text.now) }
    ensures kind { IfOk result (λ v. type_of v ≡ record_type) }
    ensures emittable { IfOk result IsEmittable }
    ensures refused { IfErr result (λ e. UnlessParseMemory e (RowIsNone (option_copied origin.entry) record_type text.now)) }
    ensures why { IfErr result (λ e. (e ≡ ParseError.Memory) ⊎ ByRowFault (option_copied origin.entry) record_type text.now e) }
{
    let octets = row_data(alloc, record_type, text, origin)?;
    read_octets(alloc, record_type, octets.as_slice())
}

// The octets that the tokens of a text give by the zone row of the type.
fn row_data(
    alloc: Global,
    record_type: RecordType,
    text: &[u8],
    origin: Option<&Name>,
) -> Result<Octets, ParseError>
    ensures reads { ReadsAll (GiveByRow (option_copied origin.entry) (zone_row_of record_type)) (λ x. x) result (at_start text.now) }
    ensures why { IfErr result (λ e. (e ≡ ParseError.Memory) ⊎ LacksRow record_type e ⊎ TokensFault (option_copied origin.entry) record_type text.now e) }
{
    match zone_row_of(record_type) {
        Some(zone_row) => row_octets(alloc, &mut ZoneTokens::new(text), origin, &zone_row),
        None => Err(ParseError::UnsupportedRecordType(record_type)),
    }
}

// The value of the octets after `\#`.
fn from_unknown_data(
    alloc: Global,
    record_type: RecordType,
    tokens: &mut ZoneTokens<'_>,
) -> Result<RData, ParseError>
    ensures found { IfOk result (λ v. UnknownIs record_type v tokens.old) }
    ensures kind { IfOk result (λ v. type_of v ≡ record_type) }
    ensures emittable { IfOk result IsEmittable }
    ensures refused { IfErr result (λ e. UnlessParseMemory e (UnknownIsNone record_type tokens.old)) }
    ensures why { IfErr result (λ e. (e ≡ ParseError.Memory) ⊎ BehindMarkFault record_type tokens.old e) }
{
    let octets = unknown_data(alloc, tokens)?;
    let value = read_octets(alloc, record_type, octets.as_slice())?;
    if has_names(record_type) && !is_as_long(&value, octets.len()) {
        return Err(ParseError::Message(POINTER));
    }
    Ok(value)
}

// The value whose RDATA the octets are.
fn read_octets(alloc: Global, record_type: RecordType, octets: &[u8]) -> Result<RData, ParseError>
    ensures found { IfOk result (AreDataOf octets.now record_type) }
    ensures kind { IfOk result (λ v. type_of v ≡ record_type) }
    ensures emittable { IfOk result IsEmittable }
    ensures refused { IfErr result (λ e. UnlessParseMemory e (AreNoData octets.now record_type)) }
    ensures why { IfErr result (λ e. (e ≡ ParseError.Memory) ⊎ OctetsFault octets.now record_type e) }
{
    if octets.len() > 65535 {
        return Err(ParseError::Message(TOO_LONG));
    }
    let mut decoder = BinDecoder::new(alloc, octets);
    let length = Restrict::new(octets.len() as u16);
    Ok(RData::read(&mut decoder, record_type, length)?)
}

// Whether a value has n canonical octets.
fn is_as_long(value: &RData, n: usize) -> bool
    ensures { IsTrue result ↔ (length (data_octets value.now) ≡ n) }
{
    match count_octets(value) {
        Some(count) => count == n as u64,
        None => false,
    }
}

// Whether RDATA of the type has domain names.
fn has_names(record_type: RecordType) -> bool
    ensures { result ≡ has_name (shape record_type) }
{
    match record_type {
        RecordType::ANAME
        | RecordType::CNAME
        | RecordType::HTTPS
        | RecordType::MX
        | RecordType::NAPTR
        | RecordType::NS
        | RecordType::PTR
        | RecordType::SOA
        | RecordType::SRV
        | RecordType::SVCB => true,
        _ => false,
    }
}
