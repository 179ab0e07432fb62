//! Names in a message.

pub mod labels;
pub mod name_ref;
pub mod order;
