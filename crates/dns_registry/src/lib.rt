//! The format of the RDATA of every type, by the RFC of the type, and RDATA in a message that is looked at by it.
//!
//! A format is a row of fields: the kind of each, its name, and what the RFC asks of it as it is encoded. [`format_of`] has the
//! format of each type by its number, also of the types that have no struct in this library (DS, RRSIG, NSEC3, LOC ..).
//! [`TypedRef`] is RDATA that was checked by the format of its type. Nothing here allocates.
#![tactic(auto)]

mod format;
mod hosts;
mod keys;
mod prefixes;
mod rule;
mod typed;

pub use format::{Format, format_of};
pub use rule::FieldRule;
pub use typed::{TypedError, TypedRef};
