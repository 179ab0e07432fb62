//! NAPTR: a rule that rewrites a name (RFC 3403, 4).

ghost use Rattle.std.specs.{Prelude.◌≡◌, Prelude.ℕ, Prelude.[], Prelude.Some, Option.option_copied, Box.boxed_slice_items, Char.is_ascii_alphanumeric, List.list_all, Prelude.refl};
ghost use Rattle.dns_names_wire.specs.{Terms.Emits};
ghost use Rattle.dns_rdata_base.specs.NAPTR.{naptr_numbers_shape, naptr_numbers, naptr_rest_shape, naptr_rest, naptr_shape, naptr_fields};
ghost use Rattle.dns_fields.specs.Fields.{all_emittable};
ghost use Rattle.dns_canonical.specs.Steps.{AllShort, GivesStep, field_steps};
ghost use Rattle.dns_rdata_base.specs.Steps.{naptr_begins};
ghost use Rattle.dns_rdata_base.specs.NAPTR.{naptr_facts, naptr_text, flags_token, naptr_tokens};
ghost use Rattle.dns_tokens.specs.Reads.{ReadsTokenRow, ReadsText, ReadsToken, GoesOn};
ghost use Rattle.dns_fields.specs.declared.RDataEncoding.TheVariants as modes;

use crate::{OrderedRecord, cmp_each_field, unless_tied};
use bstr::BStr;
use dns_canonical::{Head, Step, Tail, name_behind, text_behind, two_behind};
use dns_check::DecodesFields;
use dns_names_wire::{
    BinDecoder, BinEncodable, BinEncoder, DecodeError, EncodesFields, Name, Octets, ParseError,
    ProtoError, RDataEncoding, Record,
};
use dns_rows::{Part, row};
use dns_tokens::{next_kept, next_name, next_token, next_u16, number_field};
use std::alloc::Global;
use std::boxed::BoxedSlice;
use std::cmp::Ordering;
use std::convert::AsStr;
use std::fmt;

/// NAPTR RDATA (RFC 3403, section 4.1): a rule that rewrites a name.
///
///     +----+----+----+----+-------+---------+--------+-------------+
///     |  ORDER  |PREFERENCE/ FLAGS / SERVICES / REGEXP / REPLACEMENT /
///     +----+----+----+----+-------+---------+--------+-------------+
///        u16       u16     three character strings     a domain name, uncompressed on emit
///
/// The RDATA `0008001001610000016200` is `8 16 "a" "" "" b.`.
#[derive(Clone, Debug, Drop, Eq, Hash, PartialEq)]
pub struct NAPTR {
    /// Lower values are tried first; 16 bits.
    pub order: u16,
    /// Lower values are tried first among those of one order; 16 bits.
    pub preference: u16,
    /// Letters and digits that say what comes next; at most 255 octets are emitted.
    pub flags: Octets,
    /// The services; at most 255 octets are emitted.
    pub services: Octets,
    /// The substitution, a regular expression; at most 255 octets are emitted.
    pub regexp: Octets,
    /// The name that is asked for next.
    pub replacement: Name,
}

/// Whether each octet is a digit or a letter of ASCII.
pub fn verify_flags(flags: &[u8]) -> bool
    ensures { result ≡ list_all is_ascii_alphanumeric flags.now }
{
    flags.iter().all(|c| c.is_ascii_alphanumeric())
}

impl NAPTR {
    /// Makes a record of these fields, which are moved.
    pub fn new(
        order: u16,
        preference: u16,
        flags: BoxedSlice<u8>,
        services: BoxedSlice<u8>,
        regexp: BoxedSlice<u8>,
        replacement: Name,
    ) -> NAPTR
        ensures { result ≡ record {
          order = order;
          preference = preference;
          flags = boxed_slice_items flags;
          services = boxed_slice_items services;
          regexp =
              boxed_slice_items regexp;
          replacement = replacement;
        } }
    {
        NAPTR {
            order,
            preference,
            flags: Octets::from_boxed(flags),
            services: Octets::from_boxed(services),
            regexp: Octets::from_boxed(regexp),
            replacement,
        }
    }

    /// Reads six tokens: order and preference, decimal numbers of 16 bits; flags, digits and letters; services and
    /// regexp, octet by octet; and replacement, a name, which is completed with the origin if it is relative. Further
    /// tokens are not read.
    ///
    /// # Errors
    ///
    /// - [`MissingToken`](ParseError::MissingToken): a token is missing.
    /// - [`Message`](ParseError::Message): a token is no such number, or has a character that is no flag.
    /// - [`Proto`](ParseError::Proto): the last token is no name.
    /// - [`Memory`](ParseError::Memory): an allocation failed.
    pub fn from_tokens<S: AsStr + Drop, I: Iterator<Item = S>>(
        alloc: Global,
        mut tokens: I,
        origin: Option<&Name>,
    ) -> Result<NAPTR, ParseError>
        requires can { I.can_next tokens }
        ensures { ReadsTokenRow I.next_gives S.text (naptr_tokens (option_copied origin.entry)) naptr_fields result tokens }
    {
        let order = next_u16(&mut tokens, number_field!("NAPTR order"))?;
        let preference = next_u16(&mut tokens, number_field!("NAPTR preference"))?;
        let flags = next_flags(alloc, &mut tokens)?;
        let services = next_kept(alloc, &mut tokens, "NAPTR services")?;
        let regexp = next_kept(alloc, &mut tokens, "NAPTR regexp")?;
        let replacement = next_name(alloc, &mut tokens, origin, "NAPTR replacement")?;
        Ok(NAPTR {
            order,
            preference,
            flags,
            services,
            regexp,
            replacement,
        })
    }
}

// The octets of a token of digits and letters.
fn flags_of(alloc: Global, token: &str) -> Result<Octets, ParseError>
    ensures { ReadsText flags_token (λ x. x) result token.now }
{
    if !verify_flags(token.as_bytes()) {
        return Err(ParseError::Message("NAPTR flags are letters and digits"));
    }
    let octets = Octets::from_slice(alloc, token.as_bytes())?;
    Ok(octets)
}

// The octets of the next token, which are digits and letters.
fn next_flags<S: AsStr + Drop, I: Iterator<Item = S>>(
    alloc: Global,
    tokens: &mut I,
) -> Result<Octets, ParseError>
    requires can { I.can_next tokens.old }
    ensures reads { ReadsToken I.next_gives S.text flags_token (λ x. x) result tokens.old tokens.new }
    ensures goes { GoesOn I.can_next I.remaining result tokens.old tokens.new }
{
    let token = next_token(tokens, "NAPTR flags")?;
    flags_of(alloc, token.as_str())
}

impl Record for NAPTR {
    ghost facts = { naptr_facts };

    #[inline]
    fn row() -> &'static [Part] {
        &row::NAPTR
    }
}

impl DecodesFields for NAPTR {
    ghost alone = { record { checked = refl; asked = refl; alone = refl; long = tt } };

    /// Reads the fields. The flags are tested as soon as they are read: if one of their octets is no letter and no
    /// digit, it fails with [`NaptrFlagsInvalid`](DecodeError::NaptrFlagsInvalid).
    fn read_fields(decoder: &mut BinDecoder<'_>) -> Result<NAPTR, DecodeError> {
        let alloc = decoder.allocator();
        let order = decoder.read_u16()?.unverified();
        let preference = decoder.read_u16()?.unverified();
        let flags = decoder.read_character_data()?.unverified();
        if !verify_flags(flags) {
            return Err(DecodeError::NaptrFlagsInvalid);
        }
        let services = decoder.read_character_data()?.unverified();
        let regexp = decoder.read_character_data()?.unverified();
        let replacement = Name::read(decoder)?;
        let flags = Octets::from_slice(alloc, flags)?;
        let services = Octets::from_slice(alloc, services)?;
        let regexp = Octets::from_slice(alloc, regexp)?;
        Ok(NAPTR {
            order,
            preference,
            flags,
            services,
            regexp,
            replacement,
        })
    }
}

impl NAPTR {
    // Appends order and preference at once.
    #[inline]
    fn emit_numbers(&self, encoder: &mut BinEncoder<'_>) -> Result<(), ProtoError>
        ensures { Emits naptr_numbers_shape (naptr_numbers self.now) result encoder.old encoder.new }
    {
        let order = self.order.to_be_bytes();
        let preference = self.preference.to_be_bytes();
        encoder.emit_vec(&[order[0], order[1], preference[0], preference[1]])
    }

    // Appends the strings and the name.
    fn emit_rest(&self, encoder: &mut BinEncoder<'_>) -> Result<(), ProtoError>
        ensures emits { Emits naptr_rest_shape (naptr_rest self.now) result encoder.old encoder.new }
    {
        encoder.emit_character_data(self.flags.as_slice())?;
        encoder.emit_character_data(self.services.as_slice())?;
        encoder.emit_character_data(self.regexp.as_slice())?;
        self.replacement.emit(encoder)?;
        Ok(())
    }
}

impl EncodesFields for NAPTR {
    /// The name is appended uncompressed, with case preserved.
    const MODE: RDataEncoding = RDataEncoding::Canonical;

    ghost MODE = { modes.Canonical };

    /// Appends the fields. Fails with [`Message`](ProtoError::Message) if a string has more than 255 octets; the fields
    /// before it may have been appended.
    fn emit_fields(&self, encoder: &mut BinEncoder<'_>) -> Result<(), ProtoError> {
        self.emit_numbers(encoder)?;
        self.emit_rest(encoder)
    }
}

/// Whether NAPTR can be emitted: no string has more than 255 octets.
#[inline]
pub fn naptr_is_emittable(x: &NAPTR) -> bool
    ensures { result ≡ all_emittable naptr_shape (naptr_fields x.now) }
{
    x.flags.len() <= 255 && x.services.len() <= 255 && x.regexp.len() <= 255
}

/// The steps of NAPTR: numbers and flags, the services, the substitution, the name.
#[inline]
pub fn naptr_step<'a>(x: &'a NAPTR, step: usize, head: &mut Head) -> Option<Step<'a>>
    requires empty { head.old ≡ [] }
    requires short { AllShort naptr_shape (naptr_fields x.now) }
    ensures { (i j : ℕ) → GivesStep (field_steps naptr_begins naptr_shape (naptr_fields x.now)) step i j head.new result }
{
    match step {
        0 => {
            head.two(x.order);
            head.two(x.preference);
            Some(Step::to(head.text(x.flags.as_slice()), 1))
        }
        1 => Some(Step::to(head.text(x.services.as_slice()), 2)),
        2 => Some(Step::to(head.text(x.regexp.as_slice()), 3)),
        3 => Some(Step::to(Tail::name(&x.replacement), 4)),
        _ => None,
    }
}

impl OrderedRecord for NAPTR {
    #[inline]
    fn cmp_canonical_fields(&self, other: &NAPTR) -> Option<Ordering> {
        if !naptr_is_emittable(self) || !naptr_is_emittable(other) {
            return None;
        }
        let order = two_behind(Ordering::Equal, self.order, other.order);
        let preference = two_behind(order, self.preference, other.preference);
        let flags = text_behind(preference, self.flags.as_slice(), other.flags.as_slice());
        let services = text_behind(flags, self.services.as_slice(), other.services.as_slice());
        let regexp = text_behind(services, self.regexp.as_slice(), other.regexp.as_slice());
        let whole = name_behind(regexp, &self.replacement, &other.replacement);
        unless_tied(whole, self, other, false)
    }

    fn cmp_values(&self, other: &NAPTR) -> Ordering {
        cmp_each_field!((self, other) order preference flags services regexp replacement)
    }
}

impl fmt::Display for NAPTR {
    ghost output = { λ x. Some (naptr_text x) };

    /// Prints the fields in order with a blank between, the strings in quotes, and U+FFFD for octets that are not
    /// UTF-8.
    #[tactic(auto, unfolding(crate::specs::Lossy::lossy))]
    fn fmt<W: fmt::Write>(&self, f: &mut fmt::Formatter<W>) -> fmt::Result {
        let flags = BStr::new(self.flags.as_slice());
        let services = BStr::new(self.services.as_slice());
        let regexp = BStr::new(self.regexp.as_slice());
        write!(
            f,
            "{} {} \"{flags}\" \"{services}\" \"{regexp}\" {}",
            self.order, self.preference, self.replacement
        )
    }
}
