//! Service parameters: their order, and their canonical octets.

pub mod order;
pub mod put;
