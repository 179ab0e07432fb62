//! What is read of one question and of one record.

ghost use Rattle.std.specs.Prelude.{◌≡◌, ◌+◌, ◌≤◌, length, IfOk, IfErr, IfSome, IfNone, OnOk};
ghost use Rattle.dns_names_wire.specs.{NameEnds.NameEnds, Steps.NameSteps};
ghost use Rattle.dns_message.specs.{Steps.Takes, Stops.IsQuestionStop, Stops.IsOwnerStop};
ghost use Rattle.dns_message.specs.Questions.{NoQuestion, IsQuestionFault};
ghost use Rattle.dns_message.specs.Records.{NoRecord, IsRecordFault};
ghost use Rattle.dns_message.specs.Readings.{IsAsked, IsFound};

use crate::error::Fault;
use crate::numbers::{long_at, number_at};
use dns_names_wire::name_ends::{pass_name, skip_name};

// How many octets follow the name of a question (RFC 1035, section 4.1.2).
const AFTER_NAME: usize = 4;

// How many octets are between the owner of a record and its RDATA (RFC 1035, section 4.1.3).
const AFTER_OWNER: usize = 10;

// What follows the name of a question, and where the question ends.
#[derive(Clone, Copy)]
pub(crate) struct Asked {
    pub(crate) query_type: u16,
    pub(crate) class: u16,
    pub(crate) end: usize,
}

/// The fields between the owner and the RDATA of a record (RFC 1035, section 4.1.3), and where it ends.
#[derive(Clone, Copy, Debug, PartialEq, Eq)]
pub struct FixedFields {
    /// The number of the type.
    pub record_type: u16,
    /// The class.
    pub class: u16,
    /// The TTL in seconds, as it is encoded.
    pub ttl: u32,
    /// RDLENGTH: the number of octets of RDATA.
    pub rdlength: u16,
    /// The offset in the message where the RDATA starts.
    pub rdata: usize,
    /// The offset where the record ends.
    pub end: usize,
}

// Reads the fields after the name of a question, which ends at `end`.
fn read_asked(message: &[u8], offset: usize, end: usize) -> Result<Asked, Fault>
    requires name { NameEnds message.now offset end }
    requires inside { end ≤ length message.now }
    ensures found { IfOk result (IsAsked message.now offset) }
    ensures inside { IfOk result (λ q. q.end ≤ length message.now) }
    ensures none { IfErr result (λ e. NoQuestion message.now offset) }
    ensures fault { IfErr result (IsQuestionFault message.now offset) }
{
    let left = message.len() - end;
    if left < AFTER_NAME {
        return Err(Fault::Truncated);
    }
    let query_type = number_at(message, end);
    let class = number_at(message, end + 2);
    Ok(Asked {
        query_type,
        class,
        end: end + AFTER_NAME,
    })
}

// Reads the question at an offset (RFC 1035, section 4.1.2), and subtracts the steps of its name from
// `left`, which stops at 0.
pub(crate) fn read_question(message: &[u8], offset: usize, left: &mut usize) -> Result<Asked, Fault>
    requires { offset ≤ length message.now }
    ensures found { IfOk result (IsAsked message.now offset) }
    ensures inside { IfOk result (λ q. q.end ≤ length message.now) }
    ensures within { OnOk result (Takes (NameSteps message.now offset) left.old left.new) }
    ensures stopped { IfErr result (IsQuestionStop message.now offset left.old) }
{
    let name = pass_name(message, offset, left);
    if *left == 0 {
        return Err(Fault::Limit);
    }
    match name {
        Some(end) => read_asked(message, offset, end),
        None => Err(Fault::Name),
    }
}

// Reads the fields after the owner of a record, which ends at `end`.
fn read_fixed(message: &[u8], offset: usize, end: usize) -> Result<FixedFields, Fault>
    requires name { NameEnds message.now offset end }
    requires inside { end ≤ length message.now }
    ensures found { IfOk result (IsFound message.now offset) }
    ensures inside { IfOk result (λ r. (r.rdata ≤ length message.now) × (r.end ≤ length message.now)) }
    ensures none { IfErr result (λ e. NoRecord message.now offset) }
    ensures fault { IfErr result (IsRecordFault message.now offset) }
{
    let after = message.len() - end;
    if after < AFTER_OWNER {
        return Err(Fault::Truncated);
    }
    let record_type = number_at(message, end);
    let class = number_at(message, end + 2);
    let ttl = long_at(message, end + 4);
    let rdlength = number_at(message, end + 8);
    let rdata = end + AFTER_OWNER;
    let left = message.len() - rdata;
    if left < rdlength as usize {
        return Err(Fault::Length {
            length: rdlength,
            left,
        });
    }
    Ok(FixedFields {
        record_type,
        class,
        ttl,
        rdlength,
        rdata,
        end: rdata + rdlength as usize,
    })
}

// Reads the record at an offset (RFC 1035, section 4.1.3), all but its RDATA, of which it only tells where it is. Subtracts
// the steps of its owner from `left`, which stops at 0.
pub(crate) fn read_record(
    message: &[u8],
    offset: usize,
    left: &mut usize,
) -> Result<FixedFields, Fault>
    requires { offset ≤ length message.now }
    ensures found { IfOk result (IsFound message.now offset) }
    ensures inside { IfOk result (λ r. (r.rdata ≤ length message.now) × (r.end ≤ length message.now)) }
    ensures within { OnOk result (Takes (NameSteps message.now offset) left.old left.new) }
    ensures stopped { IfErr result (IsOwnerStop message.now offset left.old) }
{
    let owner = pass_name(message, offset, left);
    if *left == 0 {
        return Err(Fault::Limit);
    }
    match owner {
        Some(end) => read_fixed(message, offset, end),
        None => Err(Fault::Name),
    }
}

// The fixed fields of the record at an offset, or `None` if no record is encoded there.
pub(crate) fn fixed_at(message: &[u8], offset: usize) -> Option<FixedFields>
    requires { offset ≤ length message.now }
    ensures some { IfSome result (IsFound message.now offset) }
    ensures none { IfNone result (NoRecord message.now offset) }
{
    let end = skip_name(message, offset)?;
    match read_fixed(message, offset, end) {
        Ok(fixed) => Some(fixed),
        Err(_) => None,
    }
}
