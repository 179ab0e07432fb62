//! A view of RDATA.

ghost use Rattle.std.specs.Prelude.{◌≡◌, ◌+◌, ◌<◌, ◌≤◌, true, false, length, take, drop, IfSome, IfNone, IfOk, IfErr, OnOk};
ghost use Rattle.dns_fields.specs.Fields.{canonical};
ghost use Rattle.dns_names_wire.specs.Terms.{StaysBehind};
ghost use Rattle.dns_rows.specs.{Fronts.IsFront, Table.kinds_of};
ghost use Rattle.dns_check.specs.Rows.{HasRow, is_row};
ghost use Rattle.dns_view.specs.{Putting.Put, Putting.all_form, Putting.key_of};
ghost use Rattle.dns_check.specs.Checks.{FillsRow, NoFill, IsRowError};
ghost use Rattle.dns_names_wire.specs.Steps.{Leaves};
ghost use Rattle.dns_check.specs.RowSteps.{RowSteps};

use crate::name::name_ref::NameRef;
use crate::row::canonical::put_row;
use crate::row::field::{FieldRef, field_of, name_field_of};
use crate::row::order::compare_rows;
use dns_check::check::check_data;
use dns_check::fields::is_near;
use dns_names_wire::walk::Walk;
use dns_rows::{Front, Part};
use dns_types::{DecodeError, RecordType, Restrict};
use std::cmp::Ordering;

/// RDATA that was checked, as it is encoded in a message: the type of the record, RDLENGTH, the message, the offset of the
/// RDATA, and the row of the type, in 48 octets. A copy is cheap, and nothing is allocated.
#[derive(Clone, Copy)]
pub struct RowView<'a> {
    /// The type of the record.
    pub record_type: RecordType,
    len: u16,
    message: &'a [u8],
    offset: usize,
    row: &'static [Part],
    ghost fills: { ∥ FillsRow message.now offset len row.now ∥₁ },
    ghost checked: { is_row row.now ≡ true },
    ghost inside: { offset + len ≤ length message.now },
    ghost short: { len < 65536 },
}

impl<'a> RowView<'a> {
    ghost use Rattle.std.specs.Prelude.{MatchOption};
    ghost use Rattle.std.specs.{Cmp.Lexicographic.slice_cmp, Ordering.nat_cmp};
    ghost use Rattle.dns_view.specs.{ViewOf.IsViewOf, Shown.ShowsAt, NameFields.names_in, NameFields.ShowsNameAt};

    /// Checks that the next `length` octets are RDATA of the row of this type, and takes them. Subtracts from `left` how many
    /// steps are taken; it stops at 0. They are those of the names up to and including a field that is
    /// rejected. Allocates nothing.
    ///
    /// # Errors
    ///
    /// Those of [`check_data`].
    #[inline]
    pub fn read(
        walk: &mut Walk<'a>,
        record_type: RecordType,
        row: &'static [Part],
        length: Restrict<u16>,
        left: &mut usize,
    ) -> Result<RowView<'a>, DecodeError>
        requires row { is_row row.now ≡ true }
        ensures found { IfOk result (λ r. IsViewOf walk.old length row.now r × (r.record_type ≡ record_type)) }
        ensures after { OnOk result (walk.new.index ≡ walk.old.index + length) }
        ensures refused { IfErr result (λ e. NoFill walk.old.message walk.old.index length row.now) }
        ensures why { IfErr result (λ e. IsRowError row.now length walk.old e walk.new) }
        ensures behind { StaysBehind walk.old walk.new }
        ensures steps { Leaves (RowSteps row.now length walk.old) left.old left.new }
    {
        let message = walk.message();
        let offset = walk.index();
        let len = length.unverified();
        match check_data(walk, row, len as usize, left) {
            Ok(()) => Ok(RowView {
                record_type,
                len,
                message,
                offset,
                row,
            }),
            Err(e) => Err(e),
        }
    }

    /// The view of the `len` octets of RDATA at an offset of a message, if the quick way tells that fields of the row fill
    /// them ([`is_near`]). Then it subtracts from `left` how many steps their names follow; it stops at 0.
    /// `None` says nothing about them: [`read`](RowView::read) tells. Allocates nothing.
    #[inline]
    pub fn near(
        message: &'a [u8],
        offset: usize,
        record_type: RecordType,
        row: &'static [Part],
        front: Front,
        len: u16,
        left: &mut usize,
    ) -> Option<RowView<'a>>
        requires row { is_row row.now ≡ true }
        requires front { IsFront row.now front }
        requires within { offset ≤ length message.now }
        ensures found { IfSome result (λ r. IsViewOf (record { message = message.now; index = offset }) len row.now r × (r.record_type ≡ record_type)) }
        ensures steps { IfSome result (λ r. Leaves (RowSteps row.now len (record { message = message.now; index = offset })) left.old left.new) }
        ensures unchanged { IfNone result (left.new ≡ left.old) }
    {
        // For the proof: brings in that the message is octets.
        let _offset = Walk::at(message, offset).index();
        if !is_near(message, offset, row, front, len as usize, left) {
            return None;
        }
        Some(RowView {
            record_type,
            len,
            message,
            offset,
            row,
        })
    }

    /// The whole message.
    #[inline]
    pub fn message(&self) -> &'a [u8]
        ensures { result.now ≡ self.now.message.now }
    {
        self.message
    }

    /// The offset of the RDATA in the message.
    #[inline]
    pub fn offset(&self) -> usize
        ensures { result ≡ self.now.offset }
    {
        self.offset
    }

    /// RDLENGTH: how many octets the RDATA has.
    #[inline]
    pub fn len(&self) -> u16
        ensures { result ≡ self.now.len }
    {
        self.len
    }

    /// The octets of the RDATA, as they are encoded.
    pub fn octets(&self) -> &'a [u8]
        ensures { result.now ≡ take self.now.len (drop self.now.offset self.now.message.now) }
    {
        &self.message[self.offset..self.offset + self.len as usize]
    }

    /// Writes the canonical octets at the front of a buffer, and returns how many they are: this library's own form for
    /// equality and order, not that of DNSSEC. All names are uncompressed and lowercased. Options are sorted.
    /// Allocates nothing.
    ///
    /// They are the octets of the value: options of a truncated OPT record, and what follows the address of a client subnet
    /// or a port of SVCB and HTTPS, are left out, and the bitmap of CSYNC is in its shortest form.
    ///
    /// If they are more than the buffer has, as many as fit are written, and the number is still theirs.
    pub fn put_canonical(&self, out: &mut [u8]) -> usize
        ensures { (h : HasRow self.now.message.now self.now.offset self.now.row.now (self.now.offset + self.now.len)) →
            Put out.old out.new 0 result (canonical (kinds_of self.now.row.now) h.values) }
    {
        let len = self.len as usize;
        match put_row(self.message, self.offset, self.row, len, true, out) {
            Some(count) => count,
            None => 0,
        }
    }

    /// Writes the octets with names uncompressed and their case preserved at the front of a buffer, and returns how many they
    /// are. Allocates nothing.
    ///
    /// They are the octets of the value: options of a truncated OPT record, and what follows the address of a client subnet
    /// or a port of SVCB and HTTPS, are left out, and the bitmap of CSYNC is in its shortest form.
    ///
    /// If they are more than the buffer has, as many as fit are written, and the number is still theirs.
    pub fn put_uncompressed(&self, out: &mut [u8]) -> usize
        ensures { (h : HasRow self.now.message.now self.now.offset self.now.row.now (self.now.offset + self.now.len)) →
            Put out.old out.new 0 result (all_form false (kinds_of self.now.row.now) h.values) }
    {
        let len = self.len as usize;
        match put_row(self.message, self.offset, self.row, len, false, out) {
            Some(count) => count,
            None => 0,
        }
    }

    /// The first eight canonical octets as a number, high octet first; octets that are missing are 0. Of two RDATA of one row
    /// with different numbers the one with the lesser number comes first. Allocates nothing.
    pub fn order_key(&self) -> u64
        ensures { (h : HasRow self.now.message.now self.now.offset self.now.row.now (self.now.offset + self.now.len)) →
            result ≡ key_of (canonical (kinds_of self.now.row.now) h.values) }
    {
        let mut front = [0; 8];
        let _count = self.put_canonical(&mut front);
        u64::from_be_bytes(front)
    }

    /// The field of this index in the row, or `None` if the row has fewer fields. Allocates nothing.
    pub fn field(&self, number: usize) -> Option<FieldRef<'a>>
        ensures { (h : HasRow self.now.message.now self.now.offset self.now.row.now (self.now.offset + self.now.len)) →
            MatchOption result (length self.now.row.now ≤ number) (λ f. ShowsAt self.now.message.now self.now.offset number
            (kinds_of self.now.row.now) h.values (self.now.offset + self.now.len) f) }
    {
        field_of(
            self.message,
            self.offset,
            self.row,
            self.len as usize,
            number,
        )
    }

    /// The name of this index among the fields that are names, or `None` if the row has fewer names. Allocates nothing.
    pub fn name(&self, index: usize) -> Option<NameRef<'a>>
        ensures { (h : HasRow self.now.message.now self.now.offset self.now.row.now (self.now.offset + self.now.len)) →
            MatchOption result (names_in (kinds_of self.now.row.now) ≤ index)
            (λ r. ShowsNameAt self.now.message.now self.now.offset (kinds_of self.now.row.now) h.values index r) }
    {
        name_field_of(
            self.message,
            self.offset,
            self.row,
            self.len as usize,
            index,
        )
    }

    /// Orders RDATA of one row by canonical octets, this library's own form. Allocates nothing.
    pub fn compare(&self, other: &RowView<'_>) -> Ordering
        ensures { self.now.row.now ≡ other.now.row.now →
            (h : HasRow self.now.message.now self.now.offset self.now.row.now (self.now.offset + self.now.len))
            (k : HasRow other.now.message.now other.now.offset self.now.row.now (other.now.offset + other.now.len)) →
            result ≡ slice_cmp nat_cmp (canonical (kinds_of self.now.row.now) h.values) (canonical (kinds_of self.now.row.now) k.values) }
    {
        compare_rows(
            self.message,
            self.offset,
            self.len as usize,
            other.message,
            other.offset,
            other.len as usize,
            self.row,
        )
    }
}
