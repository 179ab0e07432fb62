//! The data of DNS resource records (RDATA) for programs in C: the calls check and compare it, write its canonical and
//! its uncompressed octets, print it and read it from text.
//!
//! Each call takes octets, writes its result to buffers of the caller, keeps no pointer, and returns a status
//! (`status`). `c/include/dns_rdata.h` declares the calls and is their document for C.
#![tactic(auto)]

pub mod names;
pub mod parse;
pub mod parts;
pub mod rdata;
pub mod records;
pub mod status;
pub mod writing;
