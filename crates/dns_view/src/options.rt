//! Options of EDNS: their canonical order, and their octets in it.

pub mod order;
mod parts;
pub mod put;
