//! RDATA of CAA, with its issuer values, and of CSYNC, with sets of record types.
#![tactic(auto, using(dns_names_wire::proofs::FieldReads::reading, dns_names_wire::proofs::FieldWrites::writing, dns_check::proofs::ByRow::exact_row, dns_tokens::proofs::Steps::reading, dns_canonical::proofs::Comparing::then_equal, dns_canonical::proofs::Comparing::then_assoc))]

pub mod caa;
pub mod csync;
pub mod laws;
pub mod record_type_set;

pub use caa::{CAA, caa_is_emittable, caa_step};
pub use csync::{CSYNC, csync_step};
pub use record_type_set::RecordTypeSet;
