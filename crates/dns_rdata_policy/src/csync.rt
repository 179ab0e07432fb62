//! CSYNC: which records of a child zone its parent copies (RFC 7477, 2.1).

ghost use Rattle.std.specs.Prelude.{◌≡◌, ◌≢◌, ◌+◌, ◌++◌, ℕ, List, [], map, refl, IfErr, IfOk, Some};
ghost use Rattle.std.specs.{Iterator.Drains, Iterator.IsFinite, Int.bytes_high_first};
ghost use Rattle.dns_names_wire.specs.Terms.{Emits};
ghost use Rattle.dns_rdata_policy.specs.{CSYNC.csync_text, CSYNC.csync_key_shape, CSYNC.csync_keys, CSYNC.IsReadCsync, Steps.csync_left};
ghost use Rattle.dns_rdata_policy.specs.{RecordTypeSet.IsSetOf, TokenRows.known_flags, TokenRows.type_tokens, TokenRows.csync_tokens, Steps.csync_windows};
ghost use Rattle.dns_rdata_policy.specs.CSYNC.{csync_numbers_shape, csync_numbers, csync_shape, csync_flags, csync_fields, csync_facts};
ghost use Rattle.dns_canonical.specs.Steps.{CountsPasses, GivesStep};
ghost use Rattle.dns_tokens.specs.Reads.{ReadsText, ReadsToken, ReadsTokenRow, GoesOn};
ghost use Rattle.dns_types.specs.{RecordTypes.IsTypeText, RecordTypes.number_of, declared.record_type.RecordType.RecordType as RecordTypeValue};
ghost use Rattle.dns_types.specs.declared.error.ParseError.TheVariants as parse;

use crate::record_type_set::{RecordTypeSet, next_window};
use dns_canonical::{Count, Head, Step, Tail, four_behind, two_behind};
use dns_check::DecodesRow;
use dns_names_wire::{
    BinDecoder, BinEncodable, BinEncoder, DecodeError, ParseError, ProtoError, Record, RecordType,
    Restrict,
};
use dns_rdata_base::OrderedRecord;
use dns_rdata_base::ordered::is_equal;
use dns_rows::{Part, row};
use dns_tokens::texts::u16_of;
use dns_tokens::{Field, next_token, next_u32, number_field};
use std::alloc::{AllocError, Global};
use std::cmp::Ordering;
use std::convert::AsStr;
use std::fmt;

const IMMEDIATE: u16 = 1;

const SOA_MINIMUM: u16 = 2;
// The bits of flags that have no field of their own.
const RESERVED: u16 = 0xFFFC;

// The flags that are rejected (RFC 7477, 2.1.1.2).
const UNKNOWN: u16 = 252;

const SOA_SERIAL: Field = number_field!("CSYNC soa_serial");

const CSYNC_FLAGS: Field = number_field!("CSYNC flags");

/// CSYNC RDATA (RFC 7477, section 2.1): what a parent copies from a child zone.
///
///     +----+----+----+----+----+----+-------------+
///     |      SOA SERIAL   |  FLAGS  | TYPE BITMAP /   u32, u16, and a bitmap (RFC 4034, section 4.1.2)
///     +----+----+----+----+----+----+-------------+
///
/// The RDATA `0000007b0003000460000008` is `123 3 A NS AAAA`.
#[derive(Clone, Debug, Drop, Eq, Hash, PartialEq)]
pub struct CSYNC {
    /// A serial of the child zone: where `soa_minimum` is set, nothing is copied while the zone has a lower one.
    pub soa_serial: u32,
    /// Whether the parent copies without waiting for another approval: 0x0001 of the flags.
    pub immediate: bool,
    /// Whether the child's serial must be at least `soa_serial`: 0x0002 of the flags.
    pub soa_minimum: bool,
    /// The other flags. Their 0x0003 is not used.
    pub reserved_flags: u16,
    /// The types that are copied.
    pub type_bit_maps: RecordTypeSet,
}

impl CSYNC {
    /// Makes a record of these fields, no reserved flags, and the set of these types. Fails only if an allocation
    /// fails. The iterator must end.
    pub fn new<I: Iterator<Item = RecordType> + Drop>(
        alloc: Global,
        soa_serial: u32,
        immediate: bool,
        soa_minimum: bool,
        types: I,
    ) -> Result<CSYNC, AllocError>
        requires can { I.can_next types }
        requires ends { IsFinite (I.remaining types) }
        ensures serial { IfOk result (λ x. x.soa_serial ≡ soa_serial) }
        ensures immediate { IfOk result (λ x. x.immediate ≡ immediate) }
        ensures soa_minimum { IfOk result (λ x. x.soa_minimum ≡ soa_minimum) }
        ensures reserved { IfOk result (λ x. x.reserved_flags ≡ 0) }
        ensures types { IfOk result (λ x. (kinds : List RecordTypeValue)
            × Drains I.next_gives types kinds × IsSetOf (map number_of kinds) x.type_bit_maps) }
    {
        Ok(CSYNC {
            soa_serial,
            immediate,
            soa_minimum,
            reserved_flags: 0,
            type_bit_maps: RecordTypeSet::new(alloc, types)?,
        })
    }

    /// The flags as a number: those that are reserved without their 0x0003, and the two that have fields.
    #[inline]
    pub fn flags(&self) -> u16
        ensures { result ≡ csync_flags self.now }
    {
        let reserved = self.reserved_flags & RESERVED;
        reserved + SOA_MINIMUM * u16::from(self.soa_minimum) + IMMEDIATE * u16::from(self.immediate)
    }

    // With the flags as a number.
    #[inline]
    #[tactic(auto, using(crate::proofs::CsyncValues::flags_again))]
    pub(crate) fn with_flags(soa_serial: u32, flags: u16, type_bit_maps: RecordTypeSet) -> CSYNC
        ensures fields { csync_fields result ≡ (soa_serial, (flags, (type_bit_maps, tt))) }
        ensures read { IsReadCsync result }
    {
        CSYNC {
            soa_serial,
            immediate: flags & IMMEDIATE == IMMEDIATE,
            soa_minimum: flags & SOA_MINIMUM == SOA_MINIMUM,
            reserved_flags: flags & RESERVED,
            type_bit_maps,
        }
    }

    // Appends serial and flags at once.
    #[inline]
    fn emit_numbers(&self, encoder: &mut BinEncoder<'_>) -> Result<(), ProtoError>
        ensures { Emits csync_numbers_shape (csync_numbers self.now) result encoder.old encoder.new }
    {
        let flags = self.flags();
        encoder.emit_vec(&six_octets(self.soa_serial, flags))
    }

    /// Reads two tokens and more: serial, a decimal number of 32 bits; flags, one of 16 bits, of which 0x0003 is kept;
    /// and in every further token the text of a record type. The iterator must end.
    ///
    /// # Errors
    ///
    /// - [`MissingToken`](ParseError::MissingToken): serial or flags are missing.
    /// - [`Message`](ParseError::Message): serial or flags are no such number.
    /// - [`Proto`](ParseError::Proto) of `UnknownRecordTypeStr`: a token is the text of no type.
    /// - [`Memory`](ParseError::Memory): an allocation failed.
    pub fn from_tokens<S: AsStr + Drop, I: Iterator<Item = S>>(
        alloc: Global,
        mut tokens: I,
    ) -> Result<CSYNC, ParseError>
        requires can { I.can_next tokens }
        requires ends { IsFinite (I.remaining tokens) }
        ensures reads { ReadsTokenRow I.next_gives S.text csync_tokens csync_fields result tokens }
        ensures flags { IfOk result IsReadCsync }
    {
        let soa_serial = next_u32(&mut tokens, SOA_SERIAL)?;
        let flags = next_flags(&mut tokens)?;
        let types = all_types(alloc, tokens)?;
        Ok(CSYNC::with_flags(soa_serial, flags, types))
    }
}

// 0x0003 of a decimal number.
fn flags_of(token: &str) -> Result<u16, ParseError>
    ensures { ReadsText known_flags (λ n. n) result token.now }
{
    let flags = u16_of(token, CSYNC_FLAGS.wrong)?;
    Ok(flags % 4)
}

// 0x0003 of the next token.
fn next_flags<S: AsStr + Drop, I: Iterator<Item = S>>(tokens: &mut I) -> Result<u16, ParseError>
    requires can { I.can_next tokens.old }
    ensures reads { ReadsToken I.next_gives S.text known_flags (λ n. n) result tokens.old tokens.new }
    ensures goes { GoesOn I.can_next I.remaining result tokens.old tokens.new }
{
    let token = next_token(tokens, CSYNC_FLAGS.name)?;
    flags_of(token.as_str())
}

// The type that a token is the text of.
fn type_of(token: &str) -> Result<RecordType, ParseError>
    ensures found { IfOk result (λ t. IsTypeText token.now t) }
    ensures refused { IfErr result (λ e. (t : _) → IsTypeText token.now t → ⊥) }
    ensures memory { IfErr result (λ e. e ≢ parse.Memory) }
{
    match token.parse::<RecordType>() {
        Ok(kind) => Ok(kind),
        Err(_) => Err(ParseError::Proto(ProtoError::Decode(DecodeError::UnknownRecordTypeStr))),
    }
}

// The set of the types that all further tokens are the texts of.
fn all_types<S: AsStr + Drop, I: Iterator<Item = S>>(
    alloc: Global,
    tokens: I,
) -> Result<RecordTypeSet, ParseError>
    requires can { I.can_next tokens }
    requires ends { IsFinite (I.remaining tokens) }
    ensures { ReadsTokenRow I.next_gives S.text type_tokens (λ x. (x, tt)) result tokens }
{
    let mut numbers = Vec::new(alloc);
    for token in tokens {
        let kind = type_of(token.as_str())?;
        numbers.push(u16::from(kind))?;
    }
    Ok(RecordTypeSet::of_numbers(numbers))
}

impl Record for CSYNC {
    ghost facts = { csync_facts };

    #[inline]
    fn row() -> &'static [Part] {
        &row::CSYNC
    }
}

impl DecodesRow for CSYNC {
    ghost checked = { refl };

    /// Reads serial and flags, and the types to the end of RDLENGTH. Allocates for the types of the set, after all of them are checked.
    #[inline]
    fn read_row(decoder: &mut BinDecoder<'_>, length: Restrict<u16>) -> Result<CSYNC, DecodeError> {
        // For the proof: brings in that the message is octets.
        let _start = decoder.index();
        let len = length.unverified() as usize;
        let soa_serial = decoder.read_u32()?.unverified();
        let flags = decoder.read_u16()?.unverified();
        if flags & UNKNOWN != 0 || len < 6 {
            return Err(DecodeError::UnrecognizedCsyncFlags(flags));
        }
        let left = Restrict::new((len - 6) as u16);
        let type_bit_maps = RecordTypeSet::read_data(decoder, left)?;
        Ok(CSYNC::with_flags(soa_serial, flags, type_bit_maps))
    }
}

// The octets of a serial and of flags, put there number by number: each is then stored at once, and not octet by octet.
#[inline(always)]
fn six_octets(serial: u32, flags: u16) -> [u8; 6]
    ensures { result ≡ bytes_high_first 4 serial ++ bytes_high_first 2 flags }
{
    let mut octets = [0u8; 6];
    octets[..4].copy_from_slice(&serial.to_be_bytes());
    octets[4..].copy_from_slice(&flags.to_be_bytes());
    octets
}

impl BinEncodable for CSYNC {
    ghost emits = { λ x r old new. Emits csync_shape (csync_fields x) r old new };

    /// Appends serial, flags and the shortest bitmap of the types.
    fn emit(&self, encoder: &mut BinEncoder<'_>) -> Result<(), ProtoError> {
        self.emit_numbers(encoder)?;
        self.type_bit_maps.emit(encoder)?;
        Ok(())
    }
}

/// The steps of CSYNC: serial and flags, and then a window each, made by one pass over its types.
#[inline]
#[tactic(auto, unfolding(dns_fields::specs::Fields::field_octets))]
pub fn csync_step<'a>(
    x: &'a CSYNC,
    step: usize,
    part: usize,
    head: &mut Head,
    passes: &mut Count,
) -> Option<Step<'a>>
    requires empty { head.old ≡ [] }
    ensures octets { (j : ℕ) → GivesStep (csync_left x.now) step part j head.new result }
    ensures passes { CountsPasses passes.old.n passes.new.n (csync_windows x.now) step part head.new result }
{
    match step {
        0 => {
            head.four(x.soa_serial);
            head.two(x.flags());
            Some(Step::to(Tail::none(), 1))
        }
        1 => window_step(x, part, head, passes),
        _ => None,
    }
}

// The step of the window that begins with the number at the index `part`.
#[inline]
fn window_step<'a>(
    x: &'a CSYNC,
    part: usize,
    head: &mut Head,
    passes: &mut Count,
) -> Option<Step<'a>>
    requires empty { head.old ≡ [] }
    ensures octets { (j : ℕ) → GivesStep (csync_left x.now) 1 part j head.new result }
    ensures passes { CountsPasses passes.old.n passes.new.n (csync_windows x.now) 1 part head.new result }
{
    let numbers = x.type_bit_maps.numbers();
    if part >= numbers.len() {
        return None;
    }
    let mut octets = [0; 32];
    let window = next_window(numbers.split_at(part).1, &mut octets, passes);
    head.one(window.number);
    head.one(window.len as u8);
    head.octets(&octets[..window.len]);
    Some(Step {
        tail: Tail::none(),
        step: 1,
        part: part + window.count,
        item: 0,
    })
}

impl OrderedRecord for CSYNC {
    /// The order is known if serial or flags decide it, or if the records are equal.
    #[inline]
    #[tactic(auto, using(crate::proofs::CsyncValues::numbers_decide))]
    fn cmp_canonical_fields(&self, other: &CSYNC) -> Option<Ordering> {
        let serial = four_behind(Ordering::Equal, self.soa_serial, other.soa_serial);
        let order = two_behind(serial, self.flags(), other.flags());
        if order.is_ne() || is_equal(self, other) {
            Some(order)
        } else {
            None
        }
    }

    fn cmp_values(&self, other: &CSYNC) -> Ordering {
        let types = self
            .type_bit_maps
            .numbers()
            .cmp(other.type_bit_maps.numbers());
        let reserved = self.reserved_flags.cmp(&other.reserved_flags).then(types);
        let minimum = u8::from(self.soa_minimum)
            .cmp(&u8::from(other.soa_minimum))
            .then(reserved);
        let immediate = u8::from(self.immediate)
            .cmp(&u8::from(other.immediate))
            .then(minimum);
        self.soa_serial.cmp(&other.soa_serial).then(immediate)
    }
}

impl fmt::Display for CSYNC {
    ghost output = { λ x. Some (csync_text x) };

    /// Serial and flags in decimal, and each type in rising order by number, a blank between: `123 3 A NS AAAA`.
    fn fmt<W: fmt::Write>(&self, f: &mut fmt::Formatter<W>) -> fmt::Result {
        let serial = self.soa_serial;
        let flags = self.flags();
        write!(f, "{serial} {flags}")?;
        for kind in self.type_bit_maps.iter() {
            write!(f, " {kind}")?;
        }
        Ok(())
    }
}
