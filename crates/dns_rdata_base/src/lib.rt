//! RDATA of addresses, names, strings and any octets.
#![tactic(auto, using(dns_names_wire::proofs::FieldReads::reading, dns_names_wire::proofs::FieldWrites::writing, dns_check::proofs::ByRow::exact_row, dns_tokens::proofs::Steps::reading, dns_canonical::proofs::Comparing::then_equal, dns_canonical::proofs::Comparing::then_assoc))]

pub mod a;
pub mod aaaa;
pub mod counted;
pub mod hinfo;
pub mod mx;
pub mod name;
pub mod naptr;
pub mod null;
pub mod openpgpkey;
pub mod ordered;
pub mod rest;
pub mod soa;
pub mod srv;
pub mod traits;
pub mod txt;

pub use a::A;
pub use aaaa::AAAA;
pub use hinfo::{HINFO, hinfo_is_emittable, hinfo_step};
pub use mx::MX;
pub use name::{ANAME, CNAME, NS, PTR, name_step};
pub use naptr::{NAPTR, naptr_is_emittable, naptr_step, verify_flags};
pub use null::NULL;
pub use openpgpkey::OPENPGPKEY;
pub use ordered::{OrderedRecord, unless_tied};
pub use soa::{SOA, soa_step};
pub use srv::SRV;
pub use traits::TakesOctet;
pub use txt::{TXT, txt_is_emittable, txt_step};
