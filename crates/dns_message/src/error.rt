//! Why a message, a question or a record is rejected.

use dns_types::DecodeError;
use std::fmt;
use thiserror::Error;

/// Why octets are no message.
#[derive(Clone, Copy, Debug, PartialEq, Eq, Error)]
pub enum MessageError {
    /// The octets end inside the header, which has twelve (RFC 1035, section 4.1.1). The number is how many there are.
    #[error("{0} octets, and the header of a message has 12")]
    Truncated(usize),
}

/// A section of a message (RFC 1035, section 4.1).
#[derive(Clone, Copy, Debug, PartialEq, Eq)]
pub enum Section {
    /// The questions.
    Question,
    /// The records that answer the question.
    Answer,
    /// The records that point toward an authority.
    Authority,
    /// The records with additional information.
    Additional,
}

impl fmt::Display for Section {
    fn fmt<W: fmt::Write>(&self, f: &mut fmt::Formatter<W>) -> fmt::Result {
        f.write_str(match self {
            Section::Question => "question",
            Section::Answer => "answer",
            Section::Authority => "authority",
            Section::Additional => "additional",
        })
    }
}

/// What is wrong with a question or a record.
#[derive(Clone, Copy, Debug, PartialEq, Eq, Error)]
pub enum Fault {
    /// No domain name is encoded where the question or the record starts (RFC 1035, sections 3.1 and 4.1.4). It is also the
    /// fault if the message ends there or inside the name, as a truncated one often does.
    #[error("invalid domain name")]
    Name,
    /// The message ends after the name and before the end of the fields that follow it: four octets in a question, ten in a
    /// record. If it ends inside the name or before it, the fault is [`Name`](Fault::Name).
    #[error("unexpected end of the message")]
    Truncated,
    /// RDLENGTH passes the end of the message.
    #[error("RDLENGTH is {length}, and {left} octets are left")]
    Length {
        /// RDLENGTH.
        length: u16,
        /// How many octets of the message follow RDLENGTH.
        left: usize,
    },
    /// The names of the walk have more labels and steps (RFC 1035, section 4.1.4) than its limit allows. See
    /// [`with_limit`](crate::MessageRef::with_limit).
    #[error("more labels and compression pointers than the limit")]
    Limit,
    /// The RDATA is rejected, for this reason.
    #[error("{0}")]
    RData(DecodeError),
}

/// Why a question or a record is rejected, and where it is.
#[derive(Clone, Copy, Debug, PartialEq, Eq, Error)]
#[error("{section} {index} at offset {offset}: {fault}")]
pub struct RecordError {
    /// The section of the question or the record.
    pub section: Section,
    /// Its index in the section, counted from 0.
    pub index: usize,
    /// The offset in the message where it starts.
    pub offset: usize,
    /// What is wrong with it.
    pub fault: Fault,
}
