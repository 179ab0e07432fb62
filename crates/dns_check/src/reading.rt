//! Records that are read by the rows of their types. A record's reader returns whether there is a value, and takes it; the error of
//! RDATA that is rejected is made by its row, so that no error is defined twice.

ghost use Rattle.std.specs.Prelude.{◌≡◌, ◌≤◌, ◌↔◌, ◌-◌, IsTrue, true, ℕ, length as size, take, drop, IfOk, IfErr, OnOk, OnErr};
ghost use Rattle.dns_rows.specs.{Table.kinds_of, Rules.MeetsRow};
ghost use Rattle.dns_names_wire.specs.Terms.{moved, ReadsBy, ReadsIf, ReadsRegion, StaysBehind, UnlessMemory};
ghost use Rattle.dns_names_wire.specs.Facts.{RecordStands};
ghost use Rattle.dns_check.specs.Rows.{is_row, RowError, SkipsRow};
ghost use Rattle.dns_check.specs.Checks.{FillsRow, IsRowError, NoFill};
ghost use Rattle.dns_check.specs.ByRow.{IsAlone, ReadsRow, RecordRefuses, RowRejected, RowThere, TookWhole};

use crate::binary::BinDecodable;
use crate::check::check_data;
use crate::fields::skip_row;
use dns_names_wire::{BinDecoder, EncodesFields, Record, Walk};
use dns_rows::Part;
use dns_types::{DecodeError, Restrict};

/// A record whose reader takes the fields of its row.
pub trait DecodesRow: Record {
    /// Takes the fields, of RDATA of this length. Of what is rejected only `Memory` is told: the error of the RDATA is made by
    /// its row.
    fn read_row(decoder: &mut BinDecoder<'_>, length: Restrict<u16>) -> Result<Self, DecodeError>
        ensures reads { ReadsRow Self.facts length result decoder.old decoder.new }
        ensures after_read { IfOk result (λ x. Self.facts.after_read length x decoder.old decoder.new) };

    /// The row can be checked.
    ghost checked: { is_row Self.Record.facts.row ≡ true };
}

/// RDATA that is read from RDLENGTH octets of a message.
pub trait RecordDataDecodable: Record {
    /// Reads RDATA of this length. If the decoder moves by exactly this length, the call returns a value exactly if the
    /// fields fill the region; if it moves by another number of octets, the fields do not fill it. On error the message
    /// is unchanged, and the offset is not before the one where the call began.
    ///
    /// # Errors
    ///
    /// `Memory` if an allocation failed, and otherwise the error of the first field that is missing or breaks a rule of the
    /// type's row, as `RData::own_result` returns it.
    fn read_data(decoder: &mut BinDecoder<'_>, length: Restrict<u16>) -> Result<Self, DecodeError>
        ensures region { ReadsRegion (kinds_of Self.facts.row) (MeetsRow Self.facts.row) Self.facts.fields length result decoder.old decoder.new }
        ensures refused { IfErr result (λ e. UnlessMemory e (RowError Self.facts.row length decoder.old e decoder.new)) }
        ensures after_read { IfOk result (λ x. Self.facts.after_read length x decoder.old decoder.new) };
}

/// A record that is read field by field, where the octets of each field tell where it ends.
pub trait DecodesFields: Record {
    /// Reads the fields. Of what is rejected only `Memory` is told.
    fn read_fields(decoder: &mut BinDecoder<'_>) -> Result<Self, DecodeError>
        ensures fields { ReadsIf (kinds_of Self.facts.row) (λ vs _. MeetsRow Self.facts.row vs) Self.facts.fields result decoder.old decoder.new }
        ensures after_read { IfOk result (λ x. (n : ℕ) → Self.facts.after_read n x decoder.old decoder.new) };

    /// The row can be checked, and each of its fields tells where it ends, so that nothing depends on RDLENGTH.
    ghost alone: { IsAlone Self.Record.facts.row };
}

impl<T: DecodesFields> DecodesRow for T {
    ghost checked = { T.alone.checked };

    /// Reads the fields, whatever RDLENGTH is: if they end elsewhere, the value is that of the fields that are there.
    #[inline]
    fn read_row(decoder: &mut BinDecoder<'_>, length: Restrict<u16>) -> Result<T, DecodeError>
        ensures reads { ReadsRow T.facts length result decoder.old decoder.new }
        ensures after_read { IfOk result (λ x. T.facts.after_read length x decoder.old decoder.new) }
    {
        let _ = length;
        // For the proof: brings in that the message is octets and the index is at most its length.
        let _start = decoder.index();
        T::read_fields(decoder)
    }
}

// Goes over the row of RDATA of this length from an offset. The decoder is then where that stops. Never inlined, so that reading
// a value keeps little for it.
#[cold]
#[inline(never)]
fn row_result(
    decoder: &mut BinDecoder<'_>,
    start: usize,
    row: &[Part],
    length: Restrict<u16>,
) -> Result<(), DecodeError>
    requires row { is_row row.now ≡ true }
    requires inside { start ≤ size decoder.old.message }
    ensures { SkipsRow row.now length result (moved decoder.old start) decoder.new }
{
    let mut walk = Walk::at(decoder.message(), start);
    let own = skip_row(
        &mut walk,
        row,
        length.unverified() as usize,
        &mut usize::MAX,
    );
    decoder.follow(&walk);
    own
}

impl<T: DecodesRow> RecordDataDecodable for T {
    #[inline]
    fn read_data(decoder: &mut BinDecoder<'_>, length: Restrict<u16>) -> Result<T, DecodeError>
        ensures region { ReadsRegion (kinds_of T.facts.row) (MeetsRow T.facts.row) T.facts.fields length result decoder.old decoder.new }
        ensures refused { IfErr result (λ e. UnlessMemory e (RowError T.facts.row length decoder.old e decoder.new)) }
        ensures after_read { IfOk result (λ x. T.facts.after_read length x decoder.old decoder.new) }
    {
        let start = decoder.index();
        match T::read_row(decoder, length) {
            Ok(x) => Ok(x),
            Err(DecodeError::Memory) => Err(DecodeError::Memory),
            Err(_) => match row_result(decoder, start, T::row(), length) {
                Err(e) => Err(e),
                // Unreachable: the reader found no fields in the same octets.
                Ok(()) => Err(DecodeError::Memory),
            },
        }
    }
}

/// The error of RDATA that does not fill this length from an offset: the octets that were taken are counted before an error of the
/// row. Never inlined, so that reading a value keeps little for it.
#[cold]
#[inline(never)]
#[tactic(auto, using(crate::proofs::ByRow::unless_given))]
pub fn whole_error(
    decoder: &mut BinDecoder<'_>,
    start: usize,
    row: &[Part],
    length: Restrict<u16>,
) -> DecodeError
    requires row { is_row row.now ≡ true }
    requires inside { start ≤ size decoder.old.message }
    ensures refused { UnlessMemory result (NoFill decoder.old.message start length row.now) }
    ensures why { UnlessMemory result (IsRowError row.now length (moved decoder.old start) result decoder.new) }
    // It is not `Memory`, unless the fields do fill the octets.
    ensures memory { result ≡ DecodeError.Memory → FillsRow decoder.old.message start length row.now }
    ensures behind { StaysBehind (moved decoder.old start) decoder.new }
{
    let mut walk = Walk::at(decoder.message(), start);
    let outcome = check_data(
        &mut walk,
        row,
        length.unverified() as usize,
        &mut usize::MAX,
    );
    decoder.follow(&walk);
    match outcome {
        Err(e) => e,
        // Unreachable: the record's reader found no value in the same octets.
        Ok(()) => DecodeError::Memory,
    }
}

// The value that a reader returned that began at this offset, if it took exactly this length. It is a function of its own, so that the
// value is not copied on its way.
#[inline]
fn of_length<T: DecodesRow + Drop>(
    outcome: Result<T, DecodeError>,
    decoder: &mut BinDecoder<'_>,
    start: usize,
    length: Restrict<u16>,
) -> Result<T, DecodeError>
    requires before { start ≤ decoder.old.index }
    requires inside { start ≤ size decoder.old.message }
    ensures whole { IfOk result (λ x. (outcome ≡ Ok x) × (decoder.new ≡ decoder.old) × (decoder.old.index - start ≡ length)) }
    ensures refused { IfErr result (λ e. UnlessMemory e (NoFill decoder.old.message start length T.facts.row)) }
    ensures why { IfErr result (λ e. UnlessMemory e (IsRowError T.facts.row length (moved decoder.old start) e decoder.new)) }
    ensures behind { IfErr result (λ e. StaysBehind (moved decoder.old start) decoder.new) }
{
    match outcome {
        Err(DecodeError::Memory) => Err(DecodeError::Memory),
        Err(_) => Err(whole_error(decoder, start, T::row(), length)),
        outcome => {
            if decoder.index() - start == length.unverified() as usize {
                return outcome;
            }
            Err(whole_error(decoder, start, T::row(), length))
        }
    }
}

/// Reads RDATA that fills exactly this length.
///
/// # Errors
///
/// `Memory` if an allocation failed. Otherwise `IncorrectRDataLengthRead`, with both numbers, if another number of octets than
/// RDLENGTH was taken, or else the error of the first field that is missing or breaks a rule of the type's row.
#[inline(always)]
pub fn read_whole<T: DecodesRow + Drop>(
    decoder: &mut BinDecoder<'_>,
    length: Restrict<u16>,
) -> Result<T, DecodeError>
    ensures found { IfOk result (λ x. TookWhole decoder.old length T.facts.row (T.facts.fields x) decoder.new) }
    ensures refused { IfErr result (λ e. UnlessMemory e (NoFill decoder.old.message decoder.old.index length T.facts.row)) }
    ensures why { IfErr result (λ e. UnlessMemory e (IsRowError T.facts.row length decoder.old e decoder.new)) }
    ensures behind { StaysBehind decoder.old decoder.new }
    ensures after_read { IfOk result (λ x. T.facts.after_read length x decoder.old decoder.new) }
{
    let start = decoder.index();
    let outcome = T::read_row(decoder, length);
    of_length(outcome, decoder, start, length)
}

impl<T: DecodesFields + EncodesFields> BinDecodable for T {
    ghost stands = { RecordStands T.facts };

    ghost refuses = { RecordRefuses T.facts };

    /// Reads the fields in order.
    ///
    /// # Errors
    ///
    /// - [`Memory`](DecodeError::Memory): an allocation failed.
    /// - Otherwise the error of the first field that is missing or breaks a rule of the type's row. The fields before it are
    ///   read.
    #[inline]
    fn read(decoder: &mut BinDecoder<'_>) -> Result<T, DecodeError>
        ensures reads { ReadsBy (RecordStands T.facts) result decoder.old decoder.new }
        ensures why { IfErr result (λ e. RecordRefuses T.facts decoder.old e decoder.new) }
        ensures after_read { IfOk result (λ x. (n : ℕ) → T.facts.after_read n x decoder.old decoder.new) }
    {
        read_alone::<T>(decoder)
    }
}

/// Reads a record whose octets tell where it ends, as [`BinDecodable::read`] does.
#[inline]
pub fn read_alone<T: DecodesFields>(decoder: &mut BinDecoder<'_>) -> Result<T, DecodeError>
    ensures reads { ReadsBy (RecordStands T.facts) result decoder.old decoder.new }
    ensures why { IfErr result (λ e. RecordRefuses T.facts decoder.old e decoder.new) }
    ensures after_read { IfOk result (λ x. (n : ℕ) → T.facts.after_read n x decoder.old decoder.new) }
{
    let start = decoder.index();
    match T::read_fields(decoder) {
        Ok(x) => Ok(x),
        Err(e) if is_memory(&e) => Err(e),
        Err(_) => match row_result(decoder, start, T::row(), Restrict::new(0)) {
            Err(e) => Err(e),
            // Unreachable: the reader found no fields in the same octets.
            Ok(()) => Err(DecodeError::Memory),
        },
    }
}

// Whether memory ran out.
fn is_memory(e: &DecodeError) -> bool
    ensures { IsTrue result ↔ (e.now ≡ DecodeError.Memory) }
{
    matches!(e, DecodeError::Memory)
}

// ---- lists: their octets are checked before a value is made of them

/// Goes over the row of RDATA of this length, and returns where its fields end. The decoder stays where it is. Allocates nothing.
///
/// # Errors
///
/// That of the first field that is missing or breaks a rule of the row.
#[inline(never)]
pub fn row_end(
    decoder: &BinDecoder<'_>,
    row: &[Part],
    length: Restrict<u16>,
) -> Result<usize, DecodeError>
    requires row { is_row row.now ≡ true }
    ensures there { IfOk result (λ end. RowThere row.now length decoder.now (moved decoder.now end)) }
    ensures inside { IfOk result (λ end. (decoder.now.index ≤ end) × (end ≤ size decoder.now.message)) }
    ensures rejected { OnErr result (RowRejected row.now length decoder.now) }
{
    let mut walk = Walk::at(decoder.message(), decoder.index());
    match skip_row(
        &mut walk,
        row,
        length.unverified() as usize,
        &mut usize::MAX,
    ) {
        Ok(()) => Ok(walk.index()),
        Err(e) => Err(e),
    }
}

/// Takes the fields of a row, and returns their octets. Allocates nothing.
///
/// # Errors
///
/// That of the first field that is missing or breaks a rule of the row. The decoder is unchanged then.
#[inline]
pub fn take_row<'a>(
    decoder: &mut BinDecoder<'a>,
    row: &[Part],
    length: Restrict<u16>,
) -> Result<&'a [u8], DecodeError>
    requires row { is_row row.now ≡ true }
    ensures there { OnOk result (RowThere row.now length decoder.old decoder.new) }
    ensures octets { IfOk result (λ octets. octets.now ≡ take (decoder.new.index - decoder.old.index) (drop decoder.old.index decoder.old.message)) }
    ensures rejected { OnErr result (RowRejected row.now length decoder.old) }
    ensures unchanged { OnErr result (decoder.new ≡ decoder.old) }
{
    let start = decoder.index();
    let end = match row_end(decoder, row, length) {
        Ok(end) => end,
        Err(e) => return Err(e),
    };
    let mut walk = decoder.walk();
    walk.move_to(end);
    decoder.follow(&walk);
    Ok(&walk.message()[start..end])
}
