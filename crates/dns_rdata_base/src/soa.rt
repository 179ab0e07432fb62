//! SOA: the start of a zone of authority (RFC 1035, 3.3.13).

ghost use Rattle.std.specs.Prelude.{◌≡◌, ◌+◌, ◌++◌, ◌%◌, ℕ, [], IfErr, IfOk, Some, refl};
ghost use Rattle.std.specs.{Int.bytes_high_first, Int.cast_unsigned, Int.w32, Ordering.nat_cmp, Ordering.ordering_then, Cmp.Lexicographic.slice_cmp};
ghost use Rattle.std.specs.{declared.cmp.Ordering.TheVariants.Equal, Option.option_copied};
ghost use Rattle.dns_names_wire.specs.{Facts.same, Facts.same_equiv, Facts.same_partial, Terms.ReadsIf, Terms.Emits, Terms.Always};
ghost use Rattle.dns_rdata_base.specs.SOA.{soa_shape, soa_fields, soa_facts, soa_numbers_shape, soa_numbers, soa_numbers_of, soa_text, soa_tokens, HasSeconds};
ghost use Rattle.dns_rdata_base.specs.{Steps.soa_begins};
ghost use Rattle.dns_tokens.specs.Reads.{ReadsTokenRow};
ghost use Rattle.dns_fields.specs.Fields.{canonical, field_octets};
ghost use Rattle.dns_fields.specs.declared.Kind.{TheVariants.Number};
ghost use Rattle.dns_canonical.specs.{Fronts.AllEndAlike, Fronts.fields_cmp, Steps.GivesStep, Steps.field_steps};
ghost use Rattle.dns_fields.specs.declared.RDataEncoding.TheVariants as modes;

use crate::{OrderedRecord, in_order, unless_tied};
use dns_canonical::{Head, Step, Tail, four_behind, name_behind};
use dns_check::DecodesFields;
use dns_names_wire::{
    BinDecoder, BinEncodable, BinEncoder, DecodeError, EncodesFields, Name, ParseError, ProtoError,
    RDataEncoding, Record,
};
use dns_rows::{Part, row};
use dns_tokens::{next_name, next_signed_ttl, next_ttl, time_field};
use std::alloc::Global;
use std::cmp::Ordering;
use std::convert::AsStr;
use std::fmt;

/// SOA RDATA (RFC 1035, section 3.3.13): the start of a zone of authority.
///
///     +-------+-------+--------+---------+-------+--------+---------+
///     / MNAME / RNAME / SERIAL | REFRESH | RETRY | EXPIRE | MINIMUM |
///     +-------+-------+--------+---------+-------+--------+---------+
///      two domain names,         five numbers of 4 octets; refresh, retry and
///      compressed on emit        expire are signed, in two's complement
///
/// The RDATA `016d000172000000000100000002000000030000000400000005` is `m. r. 1 2 3 4 5`.
#[derive(Clone, Debug, Drop, Hash)]
pub struct SOA {
    /// The name server that the zone came from.
    pub mname: Name,
    /// The mailbox of who is responsible, with a dot instead of the `@`.
    pub rname: Name,
    /// The version of the zone, 32 bits, compared as a circle (RFC 1982).
    pub serial: u32,
    /// Seconds until the zone is asked for again; 32 bits, signed.
    pub refresh: i32,
    /// Seconds until a refresh that failed is tried again; 32 bits, signed.
    pub retry: i32,
    /// Seconds until the zone is no longer authoritative; 32 bits, signed.
    pub expire: i32,
    /// Seconds for which a negative answer is valid (RFC 2308, section 4); 32 bits.
    pub minimum: u32,
}

impl SOA {
    /// Makes a record of these fields.
    pub fn new(
        mname: Name,
        rname: Name,
        serial: u32,
        refresh: i32,
        retry: i32,
        expire: i32,
        minimum: u32,
    ) -> SOA
        ensures { result ≡ record { mname = mname; rname = rname; serial = serial; refresh = refresh; retry = retry; expire = expire; minimum = minimum } }
    {
        SOA {
            mname,
            rname,
            serial,
            refresh,
            retry,
            expire,
            minimum,
        }
    }

    /// Adds one to the serial; 0 follows 4294967295.
    pub fn increment_serial(&mut self)
        ensures { self.new ≡ record self.old { serial = (self.old.serial + 1) % 4294967296 } }
    {
        self.serial = self.serial.wrapping_add(1);
    }

    /// Reads seven tokens: mname and rname, names, which are completed with the origin if they are relative; and
    /// serial, refresh, retry, expire and minimum, times to live (`parse_ttl`), of which refresh, retry and expire are
    /// at most
    /// 2147483647. Further tokens are not read.
    ///
    /// # Errors
    ///
    /// - [`MissingToken`](ParseError::MissingToken): a token is missing.
    /// - [`Message`](ParseError::Message): a token is no such time.
    /// - [`Proto`](ParseError::Proto): one of the first two tokens is no name.
    /// - [`Memory`](ParseError::Memory): an allocation failed.
    pub fn from_tokens<S: AsStr + Drop, I: Iterator<Item = S>>(
        alloc: Global,
        mut tokens: I,
        origin: Option<&Name>,
    ) -> Result<SOA, ParseError>
        requires can { I.can_next tokens }
        ensures reads { ReadsTokenRow I.next_gives S.text (soa_tokens (option_copied origin.entry)) soa_fields result tokens }
        ensures seconds { IfOk result HasSeconds }
    {
        let mname = next_name(alloc, &mut tokens, origin, "SOA mname")?;
        let rname = next_name(alloc, &mut tokens, origin, "SOA rname")?;
        let serial = next_ttl(&mut tokens, time_field!("SOA serial", "4294967295"))?;
        let refresh = next_signed_ttl(&mut tokens, time_field!("SOA refresh", "2147483647"))?;
        let retry = next_signed_ttl(&mut tokens, time_field!("SOA retry", "2147483647"))?;
        let expire = next_signed_ttl(&mut tokens, time_field!("SOA expire", "2147483647"))?;
        let minimum = next_ttl(&mut tokens, time_field!("SOA minimum", "4294967295"))?;
        Ok(SOA {
            mname,
            rname,
            serial,
            refresh,
            retry,
            expire,
            minimum,
        })
    }
}

impl SOA {
    // Reads serial, refresh, retry, expire and minimum.
    fn read_numbers(decoder: &mut BinDecoder<'_>) -> Result<(u32, i32, i32, i32, u32), DecodeError>
        ensures fields { ReadsIf soa_numbers_shape (Always soa_numbers_shape) soa_numbers result decoder.old decoder.new }
    {
        let serial = decoder.read_u32()?.unverified();
        let refresh = decoder.read_i32()?.unverified();
        let retry = decoder.read_i32()?.unverified();
        let expire = decoder.read_i32()?.unverified();
        let minimum = decoder.read_u32()?.unverified();
        Ok((serial, refresh, retry, expire, minimum))
    }

    // Appends serial, refresh, retry, expire and minimum at once.
    fn emit_numbers(&self, encoder: &mut BinEncoder<'_>) -> Result<(), ProtoError>
        ensures emits { Emits soa_numbers_shape (soa_numbers_of self.now) result encoder.old encoder.new }
    {
        encoder.emit_vec(&five_numbers(
            self.serial,
            self.refresh.cast_unsigned(),
            self.retry.cast_unsigned(),
            self.expire.cast_unsigned(),
            self.minimum,
        ))
    }
}

// The octets of five numbers, put there number by number: each is then stored at once, and not octet by octet.
#[inline(always)]
fn five_numbers(a: u32, b: u32, c: u32, d: u32, e: u32) -> [u8; 20]
    ensures { result ≡ bytes_high_first 4 a ++ (bytes_high_first 4 b ++ (bytes_high_first 4 c ++ (bytes_high_first 4 d ++ bytes_high_first 4 e))) }
{
    let mut octets = [0u8; 20];
    octets[..4].copy_from_slice(&a.to_be_bytes());
    octets[4..8].copy_from_slice(&b.to_be_bytes());
    octets[8..12].copy_from_slice(&c.to_be_bytes());
    octets[12..16].copy_from_slice(&d.to_be_bytes());
    octets[16..].copy_from_slice(&e.to_be_bytes());
    octets
}

impl Record for SOA {
    ghost facts = { soa_facts };

    #[inline]
    fn row() -> &'static [Part] {
        &row::SOA
    }
}

impl DecodesFields for SOA {
    ghost alone = { record { checked = refl; asked = refl; alone = refl; long = tt } };

    fn read_fields(decoder: &mut BinDecoder<'_>) -> Result<SOA, DecodeError> {
        let mname = Name::read(decoder)?;
        let rname = Name::read(decoder)?;
        let (serial, refresh, retry, expire, minimum) = SOA::read_numbers(decoder)?;
        Ok(SOA {
            mname,
            rname,
            serial,
            refresh,
            retry,
            expire,
            minimum,
        })
    }
}

impl EncodesFields for SOA {
    /// Appends the fields, with names compressed against earlier names of the message (RFC 1035, section 4.1.4).
    const MODE: RDataEncoding = RDataEncoding::StandardRecord;

    ghost MODE = { modes.StandardRecord };

    fn emit_fields(&self, encoder: &mut BinEncoder<'_>) -> Result<(), ProtoError> {
        self.mname.emit(encoder)?;
        self.rname.emit(encoder)?;
        self.emit_numbers(encoder)
    }
}

impl PartialEq for SOA {
    ghost eq = { same soa_shape soa_fields };

    ghost laws = { same_partial soa_shape soa_fields };

    #[inline(never)]
    fn eq(&self, other: &SOA) -> bool {
        self.mname == other.mname
            && self.rname == other.rname
            && self.serial == other.serial
            && self.refresh == other.refresh
            && self.retry == other.retry
            && self.expire == other.expire
            && self.minimum == other.minimum
    }
}

impl Eq for SOA {
    ghost laws = { same_equiv soa_shape soa_fields };
}

// The order by earlier fields, which are compared already, and then by a number in two's complement.
#[inline]
fn seconds_behind(first: Ordering, a: &i32, b: &i32) -> Ordering
    ensures { result ≡ ordering_then first (slice_cmp nat_cmp (field_octets (Number 4) (cast_unsigned w32 a.now)) (field_octets (Number 4) (cast_unsigned w32 b.now))) }
{
    four_behind(first, a.cast_unsigned(), b.cast_unsigned())
}

// Serial, refresh, retry, expire and minimum.
#[inline]
fn soa_numbers_head(x: &SOA, head: &mut Head)
    requires { head.old ≡ [] }
    ensures { head.new ≡ canonical soa_numbers_shape (soa_numbers_of x.now) }
{
    head.four(x.serial);
    head.four(x.refresh.cast_unsigned());
    head.four(x.retry.cast_unsigned());
    head.four(x.expire.cast_unsigned());
    head.four(x.minimum);
}

/// The steps of SOA: the two names, and then the numbers.
#[inline]
pub fn soa_step<'a>(x: &'a SOA, step: usize, head: &mut Head) -> Option<Step<'a>>
    requires empty { head.old ≡ [] }
    ensures { (i j : ℕ) → GivesStep (field_steps soa_begins soa_shape (soa_fields x.now)) step i j head.new result }
{
    match step {
        0 => Some(Step::to(Tail::name(&x.mname), 1)),
        1 => Some(Step::to(Tail::name(&x.rname), 2)),
        2 => {
            soa_numbers_head(x, head);
            Some(Step::to(Tail::none(), 3))
        }
        _ => None,
    }
}

// The two names, and then the numbers, field by field.
fn soa_order(a: &SOA, b: &SOA) -> Ordering
    ensures order { result ≡ fields_cmp Equal soa_shape (soa_fields a.now) (soa_fields b.now) }
    ensures ends { AllEndAlike soa_shape (soa_fields a.now) (soa_fields b.now) }
{
    let mname = name_behind(Ordering::Equal, &a.mname, &b.mname);
    let rname = name_behind(mname, &a.rname, &b.rname);
    let serial = four_behind(rname, a.serial, b.serial);
    let refresh = seconds_behind(serial, &a.refresh, &b.refresh);
    let retry = seconds_behind(refresh, &a.retry, &b.retry);
    let expire = seconds_behind(retry, &a.expire, &b.expire);
    four_behind(expire, a.minimum, b.minimum)
}

impl OrderedRecord for SOA {
    #[inline]
    fn cmp_canonical_fields(&self, other: &SOA) -> Option<Ordering> {
        unless_tied(soa_order(self, other), self, other, true)
    }

    fn cmp_values(&self, other: &SOA) -> Ordering {
        in_order!(
            self.mname.cmp(&other.mname),
            self.rname.cmp(&other.rname),
            self.serial.cmp(&other.serial),
            self.refresh
                .cast_unsigned()
                .cmp(&other.refresh.cast_unsigned()),
            self.retry.cast_unsigned().cmp(&other.retry.cast_unsigned()),
            self.expire
                .cast_unsigned()
                .cmp(&other.expire.cast_unsigned()),
            self.minimum.cmp(&other.minimum)
        )
    }
}

impl fmt::Display for SOA {
    ghost output = { λ x. Some (soa_text x) };

    /// Prints the fields in order, with a blank between.
    fn fmt<W: fmt::Write>(&self, f: &mut fmt::Formatter<W>) -> fmt::Result {
        write!(
            f,
            "{} {} {} {} {} {} {}",
            self.mname, self.rname, self.serial, self.refresh, self.retry, self.expire, self.minimum
        )
    }
}
