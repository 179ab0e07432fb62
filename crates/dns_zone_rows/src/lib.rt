//! RDATA in zone files: zone rows of fields, and the octets that the tokens of a text give by them.
#![tactic(auto)]

mod digits;
mod faults;
mod fields;
mod groups;
pub mod laws;
pub mod mnemonics;
pub mod names;
mod near;
pub mod parameters;
pub mod reading;
pub mod registry;
mod remaining;
pub mod table;
mod times;
mod types;
pub mod zone_row;

pub use dns_zone_tokens::Mnemonic;
pub use faults::token_at_fault;
pub use near::put_near_row;
pub use reading::row_octets;
pub use table::{fields_alone_of, zone_row_of};
pub use zone_row::{LongHexField, ZoneField, ZoneRest, ZoneRow};
