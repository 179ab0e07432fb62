//! RDATA as it is encoded in a message.

ghost use Rattle.std.specs.Prelude.{◌≡◌, ◌≢◌, ◌+◌, ℕ, List, length, Some, take, drop, IfOk, IfErr, IfSome, IfNone, OnOk};
ghost use Rattle.std.specs.{Net.Addr.ipv4_octets, Net.Addr.ipv6_octets, declared.net.ip_addr.IpAddr.TheVariants.V4, declared.net.ip_addr.IpAddr.TheVariants.V6};
ghost use Rattle.dns_types.specs.RecordTypes.{number_of};
ghost use Rattle.dns_rows.specs.{Fronts.IsFront, Table.table};
ghost use Rattle.dns_check.specs.Rows.{is_row};
ghost use Rattle.dns_names_wire.specs.Terms.{StaysBehind};
ghost use Rattle.dns_rdata.specs.{Data.parts_of, Data.Fills, Data.HasValue, Data.NoValue, Data.IsNeverRead, ReadErrors.IsReadError, ReadErrors.OwnResult};
ghost use Rattle.dns_names_wire.specs.Steps.{Leaves};
ghost use Rattle.dns_rdata.specs.Steps.{RDataSteps};

use crate::record_data::RData;
use dns_check::fields::{is_near, skip_row};
use dns_names_wire::{BinDecoder, DecodeError, RecordType, Restrict, Walk};
use dns_rows::row::NULL;
use dns_rows::{Front, Part, Row, row_of};
use dns_view::{FieldRef, NameRef, RowView, StringsRef, Tlvs, TypesRef};
use std::alloc::{AllocError, Global};
use std::cmp::Ordering;
use std::net::{IpAddr, Ipv4Addr, Ipv6Addr};

/// A view of the RDATA of one record in a message, which was checked.
///
/// [`read`](RDataRef::read) succeeds exactly where [`RData::read`] returns a value, and never fails for memory, since it
/// allocates nothing. A copy is cheap.
///
/// `==`, `Ord` and `Hash` go by the type and the canonical octets and allocate nothing, so views can be sorted and can be the
/// keys of sets and maps. `==` is that of the values; of two views of one type, so is the order.
#[derive(Clone, Copy)]
pub struct RDataRef<'a> {
    pub(crate) view: RowView<'a>,
    // The row is that of the type.
    ghost row: { ∥ view.row.now ≡ parts_of (table view.record_type) ∥₁ },
}

// The row of a type and its front; `None` if RDATA of the type is never read.
#[inline]
pub(crate) fn parts_of_type(record_type: RecordType) -> Option<(&'static [Part], Front)>
    ensures some { IfSome result (λ r. r.0.now ≡ parts_of (table record_type)) }
    ensures front { IfSome result (λ r. IsFront r.0.now r.1) }
    ensures read { IfSome result (λ r. IsNeverRead record_type → ⊥) }
    ensures none { IfNone result (IsNeverRead record_type) }
{
    match row_of(record_type) {
        Row::Unread => None,
        Row::Formatless => Some((
            &NULL,
            Front {
                count: 0,
                octets: 0,
            },
        )),
        Row::Fields(parts, front) => Some((parts, front)),
    }
}

// The IPv4 address of four octets.
#[inline]
fn ipv4_of(octets: &[u8]) -> Option<IpAddr>
    ensures { (a : Ipv4Addr) → length octets.now ≡ 4 → octets.now ≡ ipv4_octets a → result ≡ Some (V4 a) }
{
    match octets.as_array::<4>() {
        Some(octets) => Some(IpAddr::V4(Ipv4Addr::from(*octets))),
        None => None,
    }
}

// The IPv6 address of sixteen octets.
#[inline]
fn ipv6_of(octets: &[u8]) -> Option<IpAddr>
    ensures { (a : Ipv6Addr) → length octets.now ≡ 16 → octets.now ≡ ipv6_octets a → result ≡ Some (V6 a) }
{
    match octets.as_array::<16>() {
        Some(octets) => Some(IpAddr::V6(Ipv6Addr::from(*octets))),
        None => None,
    }
}

impl<'a> RDataRef<'a> {
    ghost use Rattle.dns_rdata.specs.Views.{IsViewOf};
    ghost use Rattle.dns_view.specs.Putting.{Put, key_of};
    ghost use Rattle.dns_rdata.specs.{WholeOctets.whole_data, Data.data_octets, Equal.equal, declared.record_data.RData.RData};
    ghost use Rattle.dns_rdata.specs.Views.{ComparesAs};
    ghost use Rattle.std.specs.Prelude.{◌≤◌, MatchOption};
    ghost use Rattle.dns_view.specs.NameFields.{names_in, ShowsNameAt};
    ghost use Rattle.dns_rdata.specs.{Data.fields_of, Laws.address_of, ViewFields.ShowsField, ViewLists.strings_in, ViewLists.options_in, ViewLists.parameters_in, ViewLists.types_in, ViewLists.TypesInOrder};
    ghost use Rattle.dns_fields.specs.Tlvs.{AllHeld, OptionHeld, ParameterHeld};
    ghost use Rattle.dns_view.specs.TypeList.{ListsTypes};

    /// Checks that the next `length` octets are the RDATA of a record of this type. The decoder is then at their end.
    /// Allocates nothing.
    ///
    /// # Errors
    ///
    /// Those of [`RData::read`], which are listed there, with the same numbers, and the decoder is where that leaves it;
    /// but never [`Memory`](DecodeError::Memory).
    pub fn read(
        decoder: &mut BinDecoder<'a>,
        record_type: RecordType,
        length: Restrict<u16>,
    ) -> Result<RDataRef<'a>, DecodeError>
        // The fields of a value fill the RDATA region by the grammar of the type.
        ensures found { IfOk result (IsViewOf decoder.old.message decoder.old.index length record_type) }
        ensures after { OnOk result (decoder.new.index ≡ decoder.old.index + length) }
        // After an error no value fills the region.
        ensures refused { IfErr result (λ e. NoValue decoder.old.message decoder.old.index length record_type) }
        ensures why { IfErr result (IsReadError record_type length decoder.old decoder.new) }
        ensures allocates_nothing { IfErr result (λ e. e ≢ DecodeError.Memory) }
        ensures never { IsNeverRead record_type → (decoder.new ≡ decoder.old)
            × (result ≡ Err (DecodeError.UnknownRecordTypeValue (number_of record_type))) }
        ensures behind { StaysBehind decoder.old decoder.new }
    {
        let start = decoder.index();
        let Some((parts, front)) = parts_of_type(record_type) else {
            return Err(DecodeError::UnknownRecordTypeValue(record_type.into()));
        };
        let len = length.unverified();
        // RDATA that is not damaged is mostly checked without a `Result`, which is passed in memory, and its view is returned here.
        if let Some(view) = RowView::near(
            decoder.message(),
            start,
            record_type,
            parts,
            front,
            len,
            &mut usize::MAX,
        ) {
            let _taken = decoder.read_slice(len as usize);
            return Ok(RDataRef { view });
        }
        RDataRef::read_row(decoder, record_type, parts, length)
    }

    // The same by the row of the type, with the error of RDATA that is damaged. What it keeps is apart from `read`, which
    // clears no room for it then.
    #[inline(always)]
    pub(crate) fn read_row(
        decoder: &mut BinDecoder<'a>,
        record_type: RecordType,
        parts: &'static [Part],
        length: Restrict<u16>,
    ) -> Result<RDataRef<'a>, DecodeError>
        requires parts { parts.now ≡ parts_of (table record_type) }
        requires read { IsNeverRead record_type → ⊥ }
        ensures found { IfOk result (IsViewOf decoder.old.message decoder.old.index length record_type) }
        ensures after { OnOk result (decoder.new.index ≡ decoder.old.index + length) }
        ensures refused { IfErr result (λ e. NoValue decoder.old.message decoder.old.index length record_type) }
        ensures why { IfErr result (IsReadError record_type length decoder.old decoder.new) }
        ensures allocates_nothing { IfErr result (λ e. e ≢ DecodeError.Memory) }
        ensures behind { StaysBehind decoder.old decoder.new }
    {
        let start = decoder.index();
        let mut walk = Walk::at(decoder.message(), start);
        let mut unlimited = usize::MAX;
        let outcome = RowView::read(&mut walk, record_type, parts, length, &mut unlimited);
        let _taken = decoder.read_slice(walk.index() - start);
        match outcome {
            Ok(view) => Ok(RDataRef { view }),
            Err(e) => Err(e),
        }
    }

    /// The same by a decoder without an allocator: checks that the next `length` octets are the RDATA of a record of this type.
    /// The decoder is then at their end. Allocates nothing.
    ///
    /// Subtracts from `left` how many steps the names of the RDATA follow (RFC 1035, section 4.1.4); it stops at
    /// 0. If the RDATA is rejected, these are the names up to and including the field that is rejected.
    ///
    /// # Errors
    ///
    /// Those of [`read`](RDataRef::read), and the decoder is where that leaves it.
    pub fn read_in(
        walk: &mut Walk<'a>,
        record_type: RecordType,
        length: Restrict<u16>,
        left: &mut usize,
    ) -> Result<RDataRef<'a>, DecodeError>
        ensures found { IfOk result (IsViewOf walk.old.message walk.old.index length record_type) }
        ensures after { OnOk result (walk.new.index ≡ walk.old.index + length) }
        ensures refused { IfErr result (λ e. NoValue walk.old.message walk.old.index length record_type) }
        ensures why { IfErr result (IsReadError record_type length walk.old walk.new) }
        ensures allocates_nothing { IfErr result (λ e. e ≢ DecodeError.Memory) }
        ensures behind { StaysBehind walk.old walk.new }
        ensures steps { Leaves (RDataSteps record_type length walk.old) left.old left.new }
    {
        let start = walk.index();
        let Some((parts, front)) = parts_of_type(record_type) else {
            return Err(DecodeError::UnknownRecordTypeValue(record_type.into()));
        };
        let len = length.unverified();
        if let Some(view) = RowView::near(
            walk.message(),
            start,
            record_type,
            parts,
            front,
            len,
            left,
        ) {
            let _taken = walk.read_slice(len as usize);
            return Ok(RDataRef { view });
        }
        match RowView::read(walk, record_type, parts, length, left) {
            Ok(view) => Ok(RDataRef { view }),
            Err(e) => Err(e),
        }
    }

    /// The record's own result for RDATA of this type, before its octets are counted: that of
    /// [`RData::own_result`]. Allocates nothing.
    ///
    /// # Errors
    ///
    /// Those of [`RData::own_result`], and the decoder is where that leaves it.
    pub fn own_result(
        decoder: &mut BinDecoder<'a>,
        record_type: RecordType,
        length: Restrict<u16>,
    ) -> Result<(), DecodeError>
        // The record's own value or error, and where its reader stops.
        ensures own { OwnResult record_type length decoder.old decoder.new result }
        // If the reader stops at the end of the region, there is a value. If it stops elsewhere, there is none.
        ensures whole { OnOk result (decoder.new.index ≡ decoder.old.index + length →
            HasValue decoder.old.message decoder.old.index length record_type) }
        ensures elsewhere { OnOk result (decoder.new.index ≢ decoder.old.index + length →
            NoValue decoder.old.message decoder.old.index length record_type) }
        ensures refused { IfErr result (λ e. NoValue decoder.old.message decoder.old.index length record_type) }
        ensures allocates_nothing { IfErr result (λ e. e ≢ DecodeError.Memory) }
        ensures never { IsNeverRead record_type → (decoder.new ≡ decoder.old)
            × (result ≡ Err (DecodeError.UnknownRecordTypeValue (number_of record_type))) }
        ensures behind { StaysBehind decoder.old decoder.new }
    {
        let start = decoder.index();
        let Some((parts, front)) = parts_of_type(record_type) else {
            return Err(DecodeError::UnknownRecordTypeValue(record_type.into()));
        };
        let len = length.unverified() as usize;
        if is_near(decoder.message(), start, parts, front, len, &mut usize::MAX) {
            let _taken = decoder.read_slice(len);
            return Ok(());
        }
        let mut walk = Walk::at(decoder.message(), start);
        let mut unlimited = usize::MAX;
        let own = skip_row(&mut walk, parts, len, &mut unlimited);
        let _taken = decoder.read_slice(walk.index() - start);
        own
    }

    /// The type of the record.
    #[inline]
    pub fn record_type(&self) -> RecordType
        ensures { (m : List ℕ) (p n : ℕ) (t : RecordType) → IsViewOf m p n t self.now → result ≡ t }
    {
        self.view.record_type
    }

    /// The offset of the RDATA in its message.
    #[inline]
    pub fn offset(&self) -> usize
        ensures { (m : List ℕ) (p n : ℕ) (t : RecordType) → IsViewOf m p n t self.now → result ≡ p }
    {
        self.view.offset()
    }

    /// The octets of the RDATA, as they are encoded in the message: names may end with a compression pointer.
    #[inline]
    pub fn octets(&self) -> &'a [u8]
        ensures { (m : List ℕ) (p n : ℕ) (t : RecordType) → IsViewOf m p n t self.now → result.now ≡ take n (drop p m) }
    {
        self.view.octets()
    }

    /// Writes the uncompressed octets at the front of a buffer, and returns how many they are: names uncompressed with
    /// case preserved, options in their order. They are what `emit_whole` appends for the value.
    ///
    /// They are the octets of the value: options of a truncated OPT record, and what follows the address of a client subnet or a
    /// port of SVCB and HTTPS, are left out, and the bitmap of CSYNC is in its shortest form.
    ///
    /// If they are more than the buffer has, as many as fit are written, and the number is still theirs. Allocates nothing.
    pub fn put_whole(&self, out: &mut [u8]) -> usize
        ensures { (m : List ℕ) (p n : ℕ) (t : RecordType) (v : RData) → IsViewOf m p n t self.now → Fills m p n t v → Put out.old out.new 0 result (whole_data v) }
    {
        self.view.put_uncompressed(out)
    }

    /// Writes the canonical octets at the front of a buffer, and returns how many they are: this library's own form for
    /// equality, order and hashing, and not that of DNSSEC. They are those of the value
    /// ([`RData::canonical_octets`]): names uncompressed and lowercased, options sorted.
    ///
    /// If they are more than the buffer has, as many as fit are written, and the number is still theirs. Allocates nothing.
    pub fn put_canonical(&self, out: &mut [u8]) -> usize
        ensures { (m : List ℕ) (p n : ℕ) (t : RecordType) (v : RData) → IsViewOf m p n t self.now → Fills m p n t v → Put out.old out.new 0 result (data_octets v) }
    {
        self.view.put_canonical(out)
    }

    /// The first eight canonical octets as a number, high octet first; octets that are missing are 0. It is
    /// [`RData::order_key`] of the value: of two records of one type, the one with the lesser key comes first, and where
    /// the keys are the same [`compare`](RDataRef::compare) tells. Allocates nothing.
    pub fn order_key(&self) -> u64
        ensures { (m : List ℕ) (p n : ℕ) (t : RecordType) (v : RData) → IsViewOf m p n t self.now → Fills m p n t v → result ≡ key_of (data_octets v) }
    {
        self.view.order_key()
    }

    /// Orders the RDATA of two records of one type as `cmp` orders their values: by canonical octets. `None` if the types
    /// differ. Allocates nothing.
    pub fn compare(&self, other: &RDataRef<'_>) -> Option<Ordering>
        ensures { (m : List ℕ) (p n : ℕ) (t : RecordType) (v : RData) (l : List ℕ) (q k : ℕ) (u : RecordType) (w : RData) →
            IsViewOf m p n t self.now → Fills m p n t v → IsViewOf l q k u other.now → Fills l q k u w → ComparesAs t u v w result }
    {
        if self.view.record_type == other.view.record_type {
            return Some(self.view.compare(&other.view));
        }
        None
    }

    /// Returns whether the values of two records are equal: the types are the same, and the canonical octets. Allocates
    /// nothing.
    pub fn equals(&self, other: &RDataRef<'_>) -> bool
        ensures { (m : List ℕ) (p n : ℕ) (t : RecordType) (v : RData) (l : List ℕ) (q k : ℕ) (u : RecordType) (w : RData) →
            IsViewOf m p n t self.now → Fills m p n t v → IsViewOf l q k u other.now → Fills l q k u w → result ≡ equal v w }
    {
        match self.compare(other) {
            Some(order) => order.is_eq(),
            None => false,
        }
    }

    /// Makes the value of the record. Fails only if memory runs out, for what [`RData::read`] allocates.
    pub fn to_rdata(&self, alloc: Global) -> Result<RData, AllocError>
        ensures { (m : List ℕ) (p n : ℕ) (t : RecordType) → IsViewOf m p n t self.now → IfOk result (λ v. Fills m p n t v) }
    {
        let Ok(mut decoder) = BinDecoder::at(alloc, self.view.message(), self.view.offset()) else {
            // Unreachable: the RDATA is inside the message.
            return Err(AllocError);
        };
        match RData::read(
            &mut decoder,
            self.view.record_type,
            Restrict::new(self.view.len()),
        ) {
            Ok(value) => Ok(value),
            Err(_) => Err(AllocError),
        }
    }

    /// The field of this index, or `None` if the type has fewer fields. Allocates nothing.
    pub fn field(&self, index: usize) -> Option<FieldRef<'a>>
        ensures { (m : List ℕ) (p n : ℕ) (t : RecordType) (v : RData) → IsViewOf m p n t self.now → Fills m p n t v →
            MatchOption result (length (fields_of v).kinds ≤ index) (λ f. ShowsField m p n v index f) }
    {
        self.view.field(index)
    }

    /// The name of this index among the fields that are names, or `None` if the type has fewer names. Allocates nothing.
    ///
    /// SOA has two names, MNAME and RNAME (RFC 1035, 3.3.13); the other types have one or none.
    pub fn name(&self, index: usize) -> Option<NameRef<'a>>
        ensures { (m : List ℕ) (p n : ℕ) (t : RecordType) (v : RData) → IsViewOf m p n t self.now → Fills m p n t v →
            MatchOption result (names_in (fields_of v).kinds ≤ index)
            (λ r. ShowsNameAt m p (fields_of v).kinds (fields_of v).values index r) }
    {
        self.view.name(index)
    }

    /// The character strings of TXT (RFC 1035, 3.3.14), each without its length octet. Other types have none. Allocates
    /// nothing.
    pub fn strings(&self) -> StringsRef<'a>
        ensures { (m : List ℕ) (p n : ℕ) (t : RecordType) (v : RData) → IsViewOf m p n t self.now → Fills m p n t v → result ≡ strings_in v }
    {
        match self.view.record_type {
            RecordType::TXT => StringsRef::of(self.octets()),
            _ => StringsRef::of(&[]),
        }
    }

    /// The options of OPT in their order (RFC 6891, 6.1.2), each with its code and its octets. Truncated options have none,
    /// as in [`RData::read`], and other types have none. Allocates nothing.
    pub fn options(&self) -> Tlvs<'a>
        ensures { (m : List ℕ) (p n : ℕ) (t : RecordType) (v : RData) → IsViewOf m p n t self.now → Fills m p n t v → AllHeld OptionHeld result (options_in v) }
    {
        match self.view.record_type {
            RecordType::OPT => Tlvs::of_options(self.octets()),
            _ => Tlvs::of(&[]),
        }
    }

    /// The parameters of SVCB and HTTPS in rising order (RFC 9460, 2.2), each with its key and its octets. Other types have
    /// none. Allocates nothing.
    pub fn params(&self) -> Tlvs<'a>
        ensures { (m : List ℕ) (p n : ℕ) (t : RecordType) (v : RData) → IsViewOf m p n t self.now → Fills m p n t v → AllHeld ParameterHeld result (parameters_in v) }
    {
        match self.field(2) {
            Some(field) => match field {
                FieldRef::Parameters(octets) => Tlvs::of(octets),
                _ => Tlvs::of(&[]),
            },
            None => Tlvs::of(&[]),
        }
    }

    /// The types of CSYNC's bitmap (RFC 7477, 2.1.1; RFC 4034, 4.1.2) in the order in which they are encoded: window by
    /// window, and in rising order in each. Other types of records have none. Allocates nothing.
    ///
    /// They are the types of the value's set. If the windows are in rising order, as RFC 4034 asks, each type comes once, and in
    /// rising order. A bitmap whose windows are in another order is read too: its types come window by window, and a type comes
    /// again if its window does.
    pub fn types(&self) -> TypesRef<'a>
        ensures set { (m : List ℕ) (p n : ℕ) (t : RecordType) (v : RData) → IsViewOf m p n t self.now → Fills m p n t v → ListsTypes result (types_in v) }
        ensures order { (m : List ℕ) (p n : ℕ) (t : RecordType) → IsViewOf m p n t self.now → TypesInOrder m p n t result }
    {
        match self.view.record_type {
            RecordType::CSYNC => match self.octets().get(6..) {
                Some(bitmap) => TypesRef::of(bitmap),
                // Unreachable: serial and flags are six octets.
                None => TypesRef::of(&[]),
            },
            _ => TypesRef::of(&[]),
        }
    }

    /// The address of A and AAAA, as [`RData::ip_addr`]; `None` for other types. Allocates nothing.
    pub fn ip_addr(&self) -> Option<IpAddr>
        ensures { (m : List ℕ) (p n : ℕ) (t : RecordType) (v : RData) → IsViewOf m p n t self.now → Fills m p n t v → result ≡ address_of v }
    {
        match self.view.record_type {
            RecordType::A => ipv4_of(self.octets()),
            RecordType::AAAA => ipv6_of(self.octets()),
            _ => None,
        }
    }
}
