//! Whether octets of a message are the RDATA of a type: what reading needs, for views and for values. RDATA is gone over by
//! its row of fields. Nothing here allocates but the records' readers that [`reading`] calls.
//!
//! - [`check::check_data`] checks RDATA by a row, and makes the error of RDATA that is rejected.
//! - [`reading`] reads a record by the row of its type; [`lists`] checks and counts a list before a value is made of it.
//! - [`fields`] goes over the fields of a row; [`options`], [`parameters`] and [`bitmap`] over the lists that a field may be.
#![tactic(auto)]

pub mod binary;
pub mod bitmap;
pub mod check;
pub mod fields;
pub mod lists;
mod options;
pub mod parameter_values;
mod parameters;
pub mod reading;
pub mod tlvs;

pub use binary::BinDecodable;
pub use reading::{
    DecodesFields, DecodesRow, RecordDataDecodable, read_alone, read_whole, row_end, take_row,
};
