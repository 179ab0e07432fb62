//! RDATA of any type.

ghost use Rattle.dns_rows.specs.Table.{kinds_of};
ghost use Rattle.std.specs.Prelude.{◌≡◌, ◌≢◌, ◌&&◌, ◌+◌, ◌-◌, ◌<◌, ◌++◌, ◌↔◌, ℕ, List, length as size, IsTrue, Some, None, Result, Err, IfOk, IfErr, OnOk};
ghost use Rattle.std.specs.{Cmp.partial_equiv_from_equiv, Fmt.DisplaysOnOk, Fmt.DisplaysStyledOnOk};
ghost use Rattle.dns_fields.specs.Equal.{values_eq};
ghost use Rattle.dns_types.specs.{RecordTypes.number_of, declared.error.ProtoError.ProtoError as ProtoErrorValue};
ghost use Rattle.dns_names_wire.specs.{State.Writing, Terms.StaysBehind, Terms.UnlessMemory, Terms.EmitsAs, Terms.Extends, Terms.Keeps, Terms.IsMessage};
ghost use Rattle.dns_rdata_base.specs.NULL.{null_shape, null_fields};
ghost use Rattle.dns_rdata.specs.Data.{Fills, HasValue, NoValue, EmitsData, IsEmittable, IsNeverRead, data_octets, fields_of, mode_for, type_of};
ghost use Rattle.dns_rdata.specs.{Equal.equal, Equal.equal_equiv, Equal.record_type_eq, Hashing.data_fed, Hashing.fed_same, Laws.ReadsBack, Laws.ReadsCanonical};
ghost use Rattle.std.specs.Option.{option_copied};
ghost use Rattle.dns_rdata.specs.ReadErrors.{IsReadError, OwnResult};
ghost use Rattle.dns_rdata.specs.{Laws.TellsApart, Laws.address_of, Laws.target_of, Texts.HasText, Texts.data_text, WholeOctets.whole_data};
ghost use Rattle.dns_rdata.specs.declared.record_data.RData.TheVariants as rdata;

use crate::each::{clone_each, each, equal_each, read_each, with_records};
use crate::traits::RecordData;
use crate::view::RDataRef;
use crate::{
    A, AAAA, ANAME, CAA, CERT, CNAME, CSYNC, HINFO, HTTPS, MX, NAPTR, NS, NULL, OPENPGPKEY, OPT,
    PTR, SMIMEA, SOA, SRV, SSHFP, SVCB, TLSA, TXT,
};
use dns_check::reading::{read_whole, whole_error};
use dns_names_wire::{
    BinDecoder, BinEncodable, BinEncoder, DecodeError, EncodesFields, Name, ProtoError,
    RDataEncoding, RecordType, Restrict, emit_in,
};
use dns_rdata_base::ordered::is_equal;
use dns_rows::row;
use std::alloc::AllocError;
use std::fmt;
use std::hash::{Hash, Hasher};
use std::net::{IpAddr, Ipv4Addr, Ipv6Addr};

/// The data of a record (RFC 1035, sections 3.2.1 and 3.3). [`RData::read`] reads it from a message, and
/// [`emit`](BinEncodable::emit) appends it to one; [`RData::try_from_str`] and [`RData::from_tokens`] read its text,
/// which `Display` writes.
///
/// ```rust
/// fn host_of(data: &RData) -> Option<&Name> {
///     match data {
///         RData::CNAME(CNAME(host)) | RData::NS(NS(host)) | RData::PTR(PTR(host)) => Some(host),
///         RData::MX(mail) => Some(&mail.exchange),
///         RData::SRV(service) => Some(&service.target),
///         _ => None,
///     }
/// }
/// ```
#[derive(Debug, Drop)]
pub enum RData {
    /// An IPv4 address.
    A(A),
    /// An IPv6 address.
    AAAA(AAAA),
    /// The name whose addresses the owner has.
    ANAME(ANAME),
    /// A property of a domain's issuers of certificates.
    CAA(CAA),
    /// A certificate.
    CERT(CERT),
    /// The canonical name of an alias.
    CNAME(CNAME),
    /// What a parent copies from a child zone.
    CSYNC(CSYNC),
    /// A machine and its system.
    HINFO(HINFO),
    /// Where a service over HTTPS is to be found.
    HTTPS(HTTPS),
    /// A mail exchange.
    MX(MX),
    /// A rule that rewrites a name.
    NAPTR(NAPTR),
    /// Octets without a format.
    NULL(NULL),
    /// A name server.
    NS(NS),
    /// A public key of OpenPGP.
    OPENPGPKEY(OPENPGPKEY),
    /// Options of EDNS.
    OPT(OPT),
    /// A name that is pointed to.
    PTR(PTR),
    /// A certificate of a mail user.
    SMIMEA(SMIMEA),
    /// The start of a zone of authority.
    SOA(SOA),
    /// A host of a service.
    SRV(SRV),
    /// The fingerprint of a host's key.
    SSHFP(SSHFP),
    /// Where a service is to be found.
    SVCB(SVCB),
    /// A certificate of a service.
    TLSA(TLSA),
    /// Character strings.
    TXT(TXT),
    /// Octets of a type without a format of its own here.
    Unknown {
        /// The type.
        code: RecordType,
        /// The octets.
        rdata: NULL,
    },
    /// No data, of a record of this type in an update (RFC 2136, sections 2.4 and 2.5).
    Update0(RecordType),
    /// No data, of type 0.
    ZERO,
}

impl RData {
    /// The type of the record that has this data.
    pub fn record_type(&self) -> RecordType
        ensures { result ≡ type_of self.now }
    {
        each!(self, x => RecordData::record_type(x),
            RData::Unknown { code, .. } => *code,
            RData::Update0(record_type) => *record_type,
            RData::ZERO => RecordType::ZERO,
        )
    }

    /// The address of A and AAAA; `None` for other types. Allocates nothing.
    pub fn ip_addr(&self) -> Option<IpAddr>
        ensures { result ≡ address_of self.now }
    {
        match self {
            RData::A(a) => Some(IpAddr::V4(a.0)),
            RData::AAAA(a) => Some(IpAddr::V6(a.0)),
            _ => None,
        }
    }

    /// The name that the data points to: that of ANAME, CNAME, NS and PTR, the exchange of MX, the target of SRV, SVCB
    /// and HTTPS, and the replacement of NAPTR. `None` for other types. Allocates nothing.
    pub fn target(&self) -> Option<&Name>
        ensures { option_copied result ≡ target_of self.now }
    {
        match self {
            RData::ANAME(x) => Some(&x.0),
            RData::CNAME(x) => Some(&x.0),
            RData::HTTPS(x) => Some(&x.0.target_name),
            RData::MX(x) => Some(&x.exchange),
            RData::NAPTR(x) => Some(&x.replacement),
            RData::NS(x) => Some(&x.0),
            RData::PTR(x) => Some(&x.0),
            RData::SRV(x) => Some(&x.target),
            RData::SVCB(x) => Some(&x.target_name),
            _ => None,
        }
    }

    /// Reads RDATA of this type: all of the `length` octets (RDLENGTH) from the decoder's offset.
    ///
    /// # Errors
    ///
    /// The first of these that applies:
    ///
    /// - [`UnknownRecordTypeValue`](DecodeError::UnknownRecordTypeValue): the type is ANY, AXFR or IXFR, of which no
    ///   data is read.
    /// - [`Memory`](DecodeError::Memory): an allocation failed.
    /// - [`IncorrectRDataLengthRead`](DecodeError::IncorrectRDataLengthRead): another number of octets was taken than
    ///   the length says.
    /// - The record's own error: [`InsufficientBytes`](DecodeError::InsufficientBytes) (octets are missing),
    ///   [`NameInvalid`](DecodeError::NameInvalid), [`BitmapInvalid`](DecodeError::BitmapInvalid) (CSYNC),
    ///   [`CaaTagInvalid`](DecodeError::CaaTagInvalid), [`NaptrFlagsInvalid`](DecodeError::NaptrFlagsInvalid),
    ///   [`UnrecognizedCsyncFlags`](DecodeError::UnrecognizedCsyncFlags),
    ///   [`UnknownAddressFamily`](DecodeError::UnknownAddressFamily) (OPT), `IncorrectRDataLengthRead` (a part has a
    ///   length that it can't have), [`SvcParamMissingValue`](DecodeError::SvcParamMissingValue),
    ///   [`SvcParamsOutOfOrder`](DecodeError::SvcParamsOutOfOrder) or [`Utf8`](DecodeError::Utf8) (SVCB and HTTPS).
    ///
    /// After success the decoder is at the end of the RDATA. On error it may be anywhere from the offset on where the
    /// call began; use [`BinDecoder::at`] or [`BinDecoder::clone`] to go on with the next record.
    ///
    /// ```rust
    /// fn read_address(alloc: Global, message: &[u8]) -> Result<RData, DecodeError> {
    ///     let mut decoder = BinDecoder::new(alloc, message);
    ///     RData::read(&mut decoder, RecordType::A, Restrict::new(4))
    /// }
    /// ```
    // Each arm compares the number of octets with RDLENGTH and returns by itself. If all arms met in one statement, or
    // if another function returned the value, the value would be copied once more.
    #[inline(never)]
    pub fn read(
        decoder: &mut BinDecoder<'_>,
        record_type: RecordType,
        length: Restrict<u16>,
    ) -> Result<RData, DecodeError>
        // The fields of the value fill the RDATA region by the grammar of the type.
        ensures found { IfOk result (λ v. Fills decoder.old.message decoder.old.index length record_type v) }
        ensures after { OnOk result (decoder.new.index ≡ decoder.old.index + length) }
        ensures kind { IfOk result (λ v. type_of v ≡ record_type) }
        // After an error other than `Memory`, no value fills the region.
        ensures refused { IfErr result (λ e. UnlessMemory e (NoValue decoder.old.message decoder.old.index length record_type)) }
        // Which error it is, by the row of the type, and where the decoder is then.
        ensures why { IfErr result (IsReadError record_type length decoder.old decoder.new) }
        ensures never { IsNeverRead record_type → (decoder.new ≡ decoder.old)
            × (result ≡ Err (DecodeError.UnknownRecordTypeValue (number_of record_type))) }
        ensures behind { StaysBehind decoder.old decoder.new }
        // Reading the canonical octets of the value gives an equal value.
        ensures canonical { IfOk result (ReadsCanonical record_type) }
        // The value can be emitted: that fails only if memory or buffer space runs out.
        ensures emittable { IfOk result IsEmittable }
    {
        let start = decoder.index();
        read_each!(record_type, decoder, length,
            RecordType::ZERO => {
                if length.unverified() == 0 {
                    return Ok(RData::ZERO);
                }
                return Err(whole_error(decoder, start, &row::ZERO, length));
            },
            RecordType::ANY | RecordType::AXFR | RecordType::IXFR => {
                return Err(DecodeError::UnknownRecordTypeValue(record_type.into()));
            };
            code => {
                let rdata = read_whole::<NULL>(decoder, length)?;
                return Ok(RData::Unknown { code, rdata });
            }
        )
    }

    /// The record's own result for RDATA of this type, before its octets are counted. Allocates nothing.
    ///
    /// It is `Ok` if the record reads a value, wherever that ends, and the record's own error otherwise. The decoder is
    /// then where reading stopped. [`read`](RData::read) compares the number of octets with `length` before it returns
    /// an error of the record, so it rejects most damaged RDATA with
    /// [`IncorrectRDataLengthRead`](DecodeError::IncorrectRDataLengthRead). This call tells the error that the record
    /// has: [`CaaTagInvalid`](DecodeError::CaaTagInvalid) for a bad CAA tag with a value after it. `read` accepts the
    /// RDATA exactly if this call returns `Ok` and moves the decoder by `length`.
    ///
    /// # Errors
    ///
    /// - [`UnknownRecordTypeValue`](DecodeError::UnknownRecordTypeValue): the type is ANY, AXFR or IXFR, of which no
    ///   data is read. The decoder has not moved.
    /// - The record's own errors, which [`read`](RData::read) lists.
    #[inline]
    pub fn own_result(
        decoder: &mut BinDecoder<'_>,
        record_type: RecordType,
        length: Restrict<u16>,
    ) -> Result<(), DecodeError>
        // The record's own value or error, and where its reader stops.
        ensures own { OwnResult record_type length decoder.old decoder.new result }
        // If the reader stops at the end of the region, the value is that of the octets. If it stops elsewhere, they
        // have none.
        ensures whole { OnOk result (decoder.new.index ≡ decoder.old.index + length →
            HasValue decoder.old.message decoder.old.index length record_type) }
        ensures elsewhere { OnOk result (decoder.new.index ≢ decoder.old.index + length →
            NoValue decoder.old.message decoder.old.index length record_type) }
        // After an error other than `Memory` they have none either.
        ensures refused { IfErr result (λ e. UnlessMemory e (
            NoValue decoder.old.message decoder.old.index length record_type)) }
        ensures allocates_nothing { IfErr result (λ e. e ≢ DecodeError.Memory) }
        ensures never { IsNeverRead record_type → (decoder.new ≡ decoder.old)
            × (result ≡ Err (DecodeError.UnknownRecordTypeValue (number_of record_type))) }
        ensures behind { StaysBehind decoder.old decoder.new }
    {
        RDataRef::own_result(decoder, record_type, length)
    }

    /// Appends the RDATA with names uncompressed and case preserved, whatever the mode of the encoder, so the octets
    /// mean the same at any offset of any message. Fails as [`emit`](BinEncodable::emit). The encoder is in its earlier
    /// mode afterwards; on error the octets that were there before are unchanged.
    ///
    /// They are the octets of the value. What reading leaves out is not among them: options of a truncated OPT record, octets
    /// after the address of a client subnet or a port of SVCB and HTTPS, and zeros of a bitmap of CSYNC that is not minimal.
    ///
    /// ```rust
    /// fn octets_of(alloc: Global, data: &RData, octets: &mut Vec<u8>) -> ProtoResult<()> {
    ///     let mut encoder = BinEncoder::new(alloc, octets);
    ///     data.emit_whole(&mut encoder)?;
    ///     encoder.into_bytes();
    ///     Ok(())
    /// }
    /// ```
    #[tactic(auto, unfolding(crate::specs::Data::EmitsData))]
    pub fn emit_whole(&self, encoder: &mut BinEncoder<'_>) -> Result<(), ProtoError>
        ensures emits { EmitsAs RDataEncoding.Other (fields_of self.now).kinds (fields_of self.now).values result encoder.old encoder.new }
        // The appended octets depend only on the value.
        ensures whole { OnOk result (encoder.new.octets ≡ encoder.old.octets ++ whole_data self.now) }
        ensures keeps { Keeps encoder.old encoder.new }
        // If the value was read, reading the appended octets gives an equal value, whatever octets are before them.
        ensures again { OnOk result (ReadsBack self.now encoder.old encoder.new) }
        ensures extends { Extends encoder.old encoder.new }
        ensures fits { OnOk result (IsEmittable self.now) }
        ensures unfit { IfErr result (λ e. IsMessage e → ¬ (IsEmittable self.now)) }
    {
        let earlier = encoder.with_rdata_behavior(RDataEncoding::Other);
        let outcome = self.emit_other(encoder);
        encoder.with_rdata_behavior(earlier);
        // For the proof: brings in that what was written is octets.
        let _written = encoder.len();
        outcome
    }

    // Appends the octets of the value, its names uncompressed, in the mode of its type.
    fn emit_other(&self, encoder: &mut BinEncoder<'_>) -> Result<(), ProtoError>
        requires { encoder.old.mode ≡ RDataEncoding.Other }
        ensures { EmitsData RDataEncoding.Other self.now result encoder.old encoder.new }
    {
        match self {
            RData::CNAME(x) => return emit_whole_record(x, encoder),
            RData::MX(x) => return emit_whole_record(x, encoder),
            RData::NAPTR(x) => return emit_whole_record(x, encoder),
            RData::NS(x) => return emit_whole_record(x, encoder),
            RData::PTR(x) => return emit_whole_record(x, encoder),
            RData::SOA(x) => return emit_whole_record(x, encoder),
            RData::SRV(x) => return emit_whole_record(x, encoder),
            _ => return self.emit_by_type(encoder),
        }
    }

    // Appends the octets of the value.
    fn emit_by_type(&self, encoder: &mut BinEncoder<'_>) -> Result<(), ProtoError>
        ensures { EmitsData (mode_for encoder.old.mode self.now) self.now result encoder.old encoder.new }
    {
        each!(self, x => return emit_record(x, encoder),
            RData::Unknown { rdata, .. } => return rdata.emit(encoder),
            RData::Update0(_) | RData::ZERO => return Ok(()),
        )
    }

    // Whether both are octets of one unknown type, and the same. Not inlined, so that `is_same` keeps nothing across a
    // call.
    #[inline(never)]
    fn is_same_unknown(
        code: RecordType,
        rdata: &NULL,
        other_code: RecordType,
        other_rdata: &NULL,
    ) -> bool
        ensures { result ≡ values_eq null_shape (null_fields rdata.now) (null_fields other_rdata.now) && record_type_eq code other_code }
    {
        *rdata == *other_rdata && code == other_code
    }

    // Whether both are of one variant, and equal.
    fn is_same(&self, other: &RData) -> bool
        ensures { result ≡ equal self.now other.now }
    {
        // Only a few types are compared inline, so that this function needs hardly any stack.
        equal_each!(
            (self, other),
            [ANAME CERT CNAME CSYNC HINFO MX NAPTR NS PTR SRV SSHFP TXT],
            [A AAAA CAA HTTPS OPT SMIMEA SOA SVCB TLSA],
            (RData::NULL(a), RData::NULL(b)) => a.anything == b.anything,
            (RData::OPENPGPKEY(a), RData::OPENPGPKEY(b)) => a.public_key == b.public_key,
            (
                RData::Unknown { code, rdata },
                RData::Unknown { code: other_code, rdata: other_rdata },
            ) => RData::is_same_unknown(*code, rdata, *other_code, other_rdata),
            (RData::Update0(a), RData::Update0(b)) => *a == *b,
            (RData::ZERO, RData::ZERO) => true;
            false
        )
    }
}

impl BinEncodable for RData {
    ghost emits = { λ v r old new. EmitsAs (mode_for old.mode v) (fields_of v).kinds (fields_of v).values r old new };

    /// Appends the RDATA, with names compressed or not as the type says. If the value was read, reading the RDATA again gives an
    /// equal value. RDATA of a value that a caller built may be rejected, such as that of a CERT record without certificate data.
    ///
    /// # Errors
    ///
    /// The octets that were there before are unchanged then, and the encoder is in its earlier mode.
    ///
    /// - [`Message`](ProtoError::Message): the value cannot be encoded ([`is_emittable`](RData::is_emittable)), such as a string
    ///   of more than 255 octets, or parameters whose keys do not rise.
    /// - [`MaxBufferSizeExceeded`](ProtoError::MaxBufferSizeExceeded): the octets would pass the encoder's limit.
    /// - [`Memory`](ProtoError::Memory): an allocation failed.
    ///
    /// ```rust
    /// fn emit_mail(alloc: Global, exchange: Name, octets: &mut Vec<u8>) -> ProtoResult<()> {
    ///     let mut encoder = BinEncoder::new(alloc, octets);
    ///     RData::MX(MX::new(10, exchange)).emit(&mut encoder)?;
    ///     encoder.into_bytes();
    ///     Ok(())
    /// }
    /// ```
    #[tactic(auto, unfolding(crate::specs::Data::EmitsData))]
    fn emit(&self, encoder: &mut BinEncoder<'_>) -> Result<(), ProtoError>
        ensures emits { EmitsAs (mode_for encoder.old.mode self.now) (fields_of self.now).kinds (fields_of self.now).values result encoder.old encoder.new }
        ensures keeps { Keeps encoder.old encoder.new }
        // If the value was read, reading the appended octets gives an equal value, whatever octets are before them.
        ensures again { OnOk result (ReadsBack self.now encoder.old encoder.new) }
        // The earlier octets are unchanged, and no appended octet is past the limit.
        ensures extends { Extends encoder.old encoder.new }
        // After `Ok` the value is emittable, and after the error `Message` it is not.
        ensures fits { OnOk result (IsEmittable self.now) }
        ensures unfit { IfErr result (λ e. IsMessage e → ¬ (IsEmittable self.now)) }
    {
        self.emit_by_type(encoder)?;
        // For the proof: brings in that what was written is octets.
        let _written = encoder.len();
        Ok(())
    }
}

// Appends the octets of a record, which are those of the value that holds it.
#[inline(always)]
#[tactic(auto, unfolding(crate::specs::Data::EmitsData))]
fn emit_record<T: BinEncodable + RecordData>(
    value: &T,
    encoder: &mut BinEncoder<'_>,
) -> Result<(), ProtoError>
    requires { (r : Result (Unit {0}) ProtoErrorValue) (old new : Writing) → T.emits value.now r old new
        → EmitsAs (mode_for old.mode (T.wrapped value.now)) (fields_of (T.wrapped value.now)).kinds (fields_of (T.wrapped value.now)).values r old new }
    ensures { EmitsData (mode_for encoder.old.mode (T.wrapped value.now)) (T.wrapped value.now) result encoder.old encoder.new }
{
    value.emit(encoder)
}

// Appends the octets of a record, its names uncompressed.
#[inline(always)]
#[tactic(auto, unfolding(crate::specs::Data::EmitsData))]
fn emit_whole_record<T: EncodesFields + RecordData>(
    value: &T,
    encoder: &mut BinEncoder<'_>,
) -> Result<(), ProtoError>
    requires { (r : Result (Unit {0}) ProtoErrorValue) (old new : Writing) → EmitsAs RDataEncoding.Other (kinds_of T.facts.row) (T.facts.fields value.now) r old new
        → EmitsAs RDataEncoding.Other (fields_of (T.wrapped value.now)).kinds (fields_of (T.wrapped value.now)).values r old new }
    ensures { EmitsData RDataEncoding.Other (T.wrapped value.now) result encoder.old encoder.new }
{
    emit_in(RDataEncoding::Other, value, encoder)
}

impl PartialEq for RData {
    ghost eq = { equal };

    ghost laws = { partial_equiv_from_equiv equal_equiv };

    /// Returns whether both are of one variant with equal fields. Names are compared without ASCII case, options of OPT in any
    /// order, and types of CSYNC as a set.
    fn eq(&self, other: &RData) -> bool
        ensures value { result ≡ equal self.now other.now }
        // Two values that were read under one type are equal exactly if their canonical octets are the same.
        ensures canonical { TellsApart self.now other.now result }
    {
        self.is_same(other)
    }
}

impl Eq for RData {
    ghost laws = { equal_equiv };
}

impl Hash for RData {
    ghost hash_input = { data_fed };

    ghost respects_eq = { fed_same };

    /// Feeds the type, and then the data.
    fn hash<H: Hasher>(&self, state: &mut H) {
        self.record_type().hash(state);
        each!(self, x => x.hash(state),
            RData::Unknown { rdata, .. } => rdata.hash(state),
            RData::Update0(_) | RData::ZERO => (),
        )
    }
}

impl Clone for RData {
    ghost is_clone = { λ a b. b ≡ a };

    /// The same value, in memory of its own. Allocates as reading does.
    // Each arm returns by itself, so that the value is written directly into the caller's result and is not copied
    // where the arms meet.
    #[inline(never)]
    fn clone(&self) -> Result<RData, AllocError>
        ensures { IfOk result (λ copy. copy ≡ self.now) }
    {
        clone_each!(self,
            RData::Unknown { code, rdata } => {
                return Ok(RData::Unknown { code: *code, rdata: rdata.clone()? });
            },
            RData::Update0(record_type) => return Ok(RData::Update0(*record_type)),
            RData::ZERO => return Ok(RData::ZERO),
        )
    }
}

impl fmt::Display for RData {
    ghost output = { data_text };

    /// Prints the text of the record; `UPDATE` for an update without data, and nothing for type 0. OPT has no text:
    /// printing fails.
    ///
    /// It is for people, as in `hickory-proto`; `dns_rdata_zone::ZoneText` prints the form that name servers read. Some
    /// texts, read again, are rejected or silently give another value: of TXT and HINFO whose strings are empty or have
    /// blanks, `"`, `;`, `(` or `\`; of CAA and NAPTR with `"` and `\`; of SVCB and HTTPS with keys of no name
    /// (`key667=`), `no-default-alpn=` or `dohpath=""`; of CERT whose type or algorithm prints a name; of names with a
    /// `;` in a label. To keep a value, keep its octets (`emit`); `from_tokens` says which texts read back.
    fn fmt<W: fmt::Write>(&self, f: &mut fmt::Formatter<W>) -> fmt::Result
        ensures writes { DisplaysOnOk W.write_str_gives f.old result (data_text self.now) f.new }
        ensures styled { DisplaysStyledOnOk W.write_str_gives f.old result None f.new }
        ensures has_text { OnOk result (HasText self.now) }
    {
        if let RData::OPT(_) = self {
            return Err(fmt::Error);
        }
        each!(self, x => write!(f, "{x}"),
            RData::Unknown { rdata, .. } => write!(f, "{rdata}"),
            RData::Update0(_) => write!(f, "UPDATE"),
            RData::ZERO => Ok(()),
        )
    }
}

impl From<IpAddr> for RData {
    ghost from_gives = { λ address v. address_of v ≡ Some address };

    fn from(address: IpAddr) -> RData {
        match address {
            IpAddr::V4(address) => RData::A(A(address)),
            IpAddr::V6(address) => RData::AAAA(AAAA(address)),
        }
    }
}

impl From<Ipv4Addr> for RData {
    ghost from_gives = { λ address v. v ≡ rdata.A (record { 0 = address }) };

    fn from(address: Ipv4Addr) -> RData {
        RData::A(A(address))
    }
}

impl From<Ipv6Addr> for RData {
    ghost from_gives = { λ address v. v ≡ rdata.AAAA (record { 0 = address }) };

    fn from(address: Ipv6Addr) -> RData {
        RData::AAAA(AAAA(address))
    }
}
