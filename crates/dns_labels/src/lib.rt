//! Domain names as octets: each label's length and its octets in one list, without the 0 at the end.
#![tactic(auto)]

mod buffer;
pub mod building;
pub mod comparing;
pub mod error;
mod hashes;
pub mod labels;
pub mod laws;
mod matching;
pub mod message;
pub mod name_offsets;
pub mod reading;
pub mod text;
pub mod writing;

use dns_types::SmallOctets;
pub use error::{NameError, NameTextError, WriteError};
pub use message::MessageOctets;
pub use name_offsets::NameOffsets;

/// The octets of one name. Up to 32 are kept in the value itself, without an allocation.
pub type NameOctets = SmallOctets<32>;
