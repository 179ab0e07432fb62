//! The questions and records of a DNS message, as they are encoded in it (RFC 1035, section 4.1). Nothing here allocates.
//!
//! - [`MessageRef`] is a message with a whole [`Header`]. It gives [`Questions`] and [`Records`], which are iterators.
//! - [`RecordRef`] is a record: its owner, type, class and TTL, and its RDATA as an
//!   [`RDataRef`](dns_rdata::RDataRef), all lent from the message. [`Edns`] is what an OPT record has in place of class
//!   and TTL.
//! - A record whose RDATA is rejected gives a [`RecordError`], and the walk goes on after it, since RDLENGTH says where it
//!   ends. A record whose owner, fixed fields or RDLENGTH are damaged gives one error and ends the walk.
#![tactic(auto)]

ghost use Rattle.dns_message.specs.Examples.{MessageExamples};

mod common;
pub mod edns;
pub mod error;
pub mod header;
pub mod message;
mod numbers;
pub mod progress;
pub mod question;
pub mod reading;
pub mod record_ref;
pub mod records;
mod sections;
pub mod step;

pub use edns::Edns;
pub use error::{Fault, MessageError, RecordError, Section};
pub use header::Header;
pub use message::MessageRef;
pub use progress::Progress;
pub use question::{QuestionRef, Questions};
pub use reading::FixedFields;
pub use record_ref::RecordRef;
pub use records::Records;
pub use step::PassedRecord;

/// The definitions at work: the query and the response of RFC 8484, sections 4.1.1 and 4.2.2, and the response of RFC 1034,
/// section 6.2.1; RDLENGTH that passes the end of the message, sections, records without data, and EDNS.
pub fn messages_hold()
    ensures { MessageExamples }
{}
