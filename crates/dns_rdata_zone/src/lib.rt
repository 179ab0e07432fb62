//! Zone text: RDATA as it is written in a zone file (RFC 1035, section 5.1; RFC 3597, section 5; RFC 9460, section
//! 2.1).
#![tactic(auto)]

mod certificates;
mod generic;
pub mod laws;
mod lists;
mod name_reading;
mod names;
mod options;
mod parameters;
mod reading;
mod records;
mod services;
mod spelling;
mod strings;
mod tokens;
mod zone_text;

pub use dns_tokens::parse_ttl;
pub use dns_zone_rows::token_at_fault;
pub use dns_zone_tokens::type_named;
pub use generic::Generic;
pub use name_reading::name_from_zone_text;
pub use names::ZoneName;
pub use parameters::{ZoneParameter, has_text};
pub use reading::from_zone_text;
pub use strings::Quoted;
pub use zone_text::ZoneText;
