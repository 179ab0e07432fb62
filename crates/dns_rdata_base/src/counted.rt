//! The number of octets that a reader took, compared with RDLENGTH.

ghost use Rattle.std.specs.Prelude.{◌≡◌, ◌-◌};
ghost use Rattle.dns_rdata_base.specs.Counted.{by_length as answer_by_length};

use dns_names_wire::{BinDecoder, DecodeError, Restrict};

/// Returns what a reader returned that began at this offset, if it took RDLENGTH octets or memory ran out, or if the
/// type of its value is unknown; otherwise [`IncorrectRDataLengthRead`](DecodeError::IncorrectRDataLengthRead).
#[inline]
pub fn by_length<T: Drop>(
    outcome: Result<T, DecodeError>,
    decoder: &BinDecoder<'_>,
    start: usize,
    length: Restrict<u16>,
) -> Result<T, DecodeError>
    ensures { result ≡ answer_by_length outcome (decoder.now.index - start) length }
{
    match outcome {
        Err(DecodeError::Memory) => Err(DecodeError::Memory),
        Err(DecodeError::UnknownRecordTypeValue(number)) => {
            Err(DecodeError::UnknownRecordTypeValue(number))
        }
        outcome => {
            let read = decoder.index().saturating_sub(start);
            let len = length.unverified() as usize;
            if read == len {
                outcome
            } else {
                Err(DecodeError::IncorrectRDataLengthRead { read, len })
            }
        }
    }
}
