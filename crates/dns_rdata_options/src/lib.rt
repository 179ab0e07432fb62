//! The data of OPT records: the options of EDNS.
#![tactic(auto)]

pub mod heads;
pub mod laws;
pub mod opt;
pub mod order;
pub mod steps;

pub use opt::OPT;
