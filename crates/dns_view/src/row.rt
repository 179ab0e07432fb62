//! RDATA by its row of fields.

pub mod canonical;
mod ends;
pub mod field;
pub mod order;
pub mod view;
