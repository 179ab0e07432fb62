//! Texts of records: tokens of a text, the items of a list, times to live.

pub mod laws;
pub mod lexer;
pub mod list;
pub mod plain;
pub mod quiet;
mod quoted;
pub mod segments;
pub mod spans;
pub mod token;
pub mod ttl;
pub mod words;
