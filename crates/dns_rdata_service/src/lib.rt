//! The data of DNS records that bind a service to its endpoints: SVCB, HTTPS.
#![tactic(auto)]

pub mod field_order;
mod hints;
pub mod https;
pub mod items;
pub mod order;
pub mod steps;
pub mod svcb;
mod tokens;

pub use https::HTTPS;
pub use items::Items;
pub use svcb::SVCB;
