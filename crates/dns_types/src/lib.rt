//! Small types below the rest of the workspace: types of records, errors, values that are still to
//! be looked at, and octets that a value owns.
#![tactic(auto)]

pub mod comparing;
pub mod error;
pub mod octets;
pub mod record_type;
pub mod restrict;
pub mod small_octets;
pub mod strings;

pub use error::{AddrParseError, DecodeError, ParseError, ProtoError, ProtoResult};
pub use octets::Octets;
pub use record_type::RecordType;
pub use restrict::Restrict;
pub use small_octets::SmallOctets;
pub use strings::Strings;
