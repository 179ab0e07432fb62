//! Record data that is held. A drop of `RData` is a case for each type, which a proof has at each way out of a function
//! that holds one. A `Held` is dropped by one call, so that programs that go by it never drop an `RData` themselves.
#![tactic(auto)]

use dns_rdata::{BinDecoder, DecodeError, RData, RDataRef, RecordType, Restrict};
use std::alloc::{AllocError, Global};

/// A value of record data.
pub struct Held(pub RData);

impl Drop for Held {
    fn drop(self) {
        let Held(_value) = self;
    }
}

/// Values of record data.
pub struct HeldList(pub Vec<RData>);

impl Drop for HeldList {
    fn drop(self) {
        let HeldList(_values) = self;
    }
}

impl Held {
    /// Reads RDATA at the decoder's offset.
    pub fn read(
        decoder: &mut BinDecoder<'_>,
        record_type: RecordType,
        length: u16,
    ) -> Result<Held, DecodeError> {
        let value = RData::read(decoder, record_type, Restrict::new(length))?;
        Ok(Held(value))
    }

    /// Makes the value of RDATA that is looked at in its message.
    pub fn of_view(alloc: Global, view: &RDataRef<'_>) -> Result<Held, AllocError> {
        Ok(Held(view.to_rdata(alloc)?))
    }
}
