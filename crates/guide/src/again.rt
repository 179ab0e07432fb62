//! What is read, emitted and read again is equal: a client's own promise, from the library's.

ghost use Rattle.std.specs.Prelude.{◌≡◌, true, IfOk};

use anyhow::Result;
use dns_rdata::{BinDecoder, BinEncodable, BinEncoder, RData, RecordType, Restrict};
use dns_rdata_laws::regions_hold;
use held_data::Held;
use std::alloc::Global;

/// Reads data at the front of a message, emits it as a message of its own, reads that again, and returns whether both
/// values are equal, which they always are.
pub fn reads_again(
    alloc: Global,
    message: &[u8],
    record_type: RecordType,
    length: u16,
) -> Result<bool>
    ensures { IfOk result (λ same. same ≡ true) }
{
    regions_hold();
    let mut decoder = BinDecoder::new(alloc, message);
    let first = Held(RData::read(&mut decoder, record_type, Restrict::new(length))?);
    let mut octets = Vec::new(alloc);
    let mut encoder = BinEncoder::new(alloc, &mut octets);
    first.0.emit(&mut encoder)?;
    let length = encoder.len();
    let written = encoder.into_bytes();
    let mut decoder = BinDecoder::new(alloc, written.as_slice());
    let again = Held(RData::read(&mut decoder, record_type, Restrict::new(length as u16))?);
    Ok(first.0 == again.0)
}
