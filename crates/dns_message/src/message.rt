//! A message that is looked at where it is.

ghost use Rattle.std.specs.Prelude.{◌≡◌, ◌+◌, ◌≤◌, ◌<◌, ℕ, List, length, IfOk, IfErr, IfSome, IfNone, OnOk};
ghost use Rattle.std.specs.Iterator.{Drains};
ghost use Rattle.dns_message.specs.Headers.{IsHeader, HasHeader, record_count};
ghost use Rattle.dns_message.specs.Starts.{Begins, BreaksIn, BeginsAsking, Resumes, NoResume};
ghost use Rattle.dns_message.specs.{Readings.IsFound, Records.NoRecord, Passing.StepsTo};
ghost use Rattle.dns_message.specs.{Items.Item, Walks.NextRecord, Walks.WalkGives};
ghost use Rattle.dns_message.specs.Asks.{AskedItem, NextQuestion, AsksGive};

use crate::error::{Fault, MessageError, RecordError};
use crate::header::{HEADER_OCTETS, Header, header_of};
use crate::progress::Progress;
use crate::question::{Questions, questions_of};
use crate::reading::{FixedFields, fixed_at};
use crate::records::{Records, records_between, resume_at};
use crate::sections::{position_of, records_in};
use crate::step::{PassedRecord, pass_record};
use std::marker::Model;

// How many steps a walk takes at most, if the caller sets no other limit.
const DEFAULT_LIMIT: u32 = 262_144;

/// A message with a whole header. What follows the header is looked at by the iterators.
#[derive(Drop)]
pub struct MessageRef<'a> {
    octets: &'a [u8],
    limit: u32,
}

impl<'a> Model for MessageRef<'a> {
    ghost use Rattle.std.specs.Prelude.{◌≤◌, length};
    ghost use Rattle.dns_message.specs.State.{Message};

    ghost Value = { Message };

    ghost view = { λ m. record { octets = m.octets.now; limit = m.limit } };

    ghost invariant = { λ m. 12 ≤ length m.octets.now };
}

impl<'a> MessageRef<'a> {
    /// Looks at octets as a message (RFC 1035, section 4.1). Allocates nothing.
    ///
    /// # Errors
    ///
    /// [`Truncated`](MessageError::Truncated): the octets are fewer than the twelve of the header.
    pub fn read(octets: &'a [u8]) -> Result<MessageRef<'a>, MessageError>
        ensures found { IfOk result (λ m. m ≡ record { octets = octets.now; limit = 262144 }) }
        ensures header { OnOk result (HasHeader octets.now) }
        ensures refused { IfErr result (λ e. (e ≡ MessageError.Truncated (length octets.now)) × (length octets.now < 12)) }
        ensures none { IfErr result (λ e. HasHeader octets.now → ⊥) }
    {
        if octets.len() < HEADER_OCTETS {
            return Err(MessageError::Truncated(octets.len()));
        }
        // For the proof: brings in that a header is there.
        let _header = header_of(octets);
        Ok(MessageRef {
            octets,
            limit: DEFAULT_LIMIT,
        })
    }

    /// The same message with another limit: how many steps one walk over its questions or records may take. A step is a label
    /// or a compression pointer of a name (RFC 1035, sections 3.1 and 4.1.4). The limit of a message that was read is 262,144.
    ///
    /// The names in a hostile message of 64 KiB can follow the same 8,000 pointers, or lead to the same 127 labels, some 4,000
    /// times. A walk counts labels and pointers each time that another name goes over them, and ends with
    /// [`Limit`](crate::Fault::Limit) at the record with which the count passes the limit. Names in RDATA that is rejected are
    /// gone over up to three times ([`step`](MessageRef::step)) and counted once. So a walk takes at most three times the limit,
    /// and three times the steps of one record.
    #[inline]
    pub fn with_limit(&self, limit: u32) -> MessageRef<'a>
        ensures { result ≡ record { octets = self.now.octets; limit = limit } }
    {
        MessageRef {
            octets: self.octets,
            limit,
        }
    }

    /// How many steps one walk may take: see [`with_limit`](MessageRef::with_limit).
    #[inline]
    pub fn limit(&self) -> u32
        ensures { result ≡ self.now.limit }
    {
        self.limit
    }

    /// The octets of the message.
    #[inline]
    pub fn octets(&self) -> &'a [u8]
        ensures { result.now ≡ self.now.octets }
    {
        self.octets
    }

    /// The header. Allocates nothing.
    pub fn header(&self) -> Header
        ensures { IsHeader self.now.octets result }
    {
        header_of(self.octets)
    }

    /// The questions, as many as the header says (RFC 1035, section 4.1.2). Allocates nothing.
    ///
    /// A question that is damaged gives one error, and it is the last item. So does one with which the names of the
    /// questions take more steps than the limit.
    pub fn questions(&self) -> Questions<'a>
        ensures begins { BeginsAsking self.now result }
        ensures all { (xs : List AskedItem) → Drains NextQuestion result xs → AsksGive result xs }
    {
        let header = header_of(self.octets);
        questions_of(self.octets, self.limit, header.question_count as usize)
    }

    /// All records: answers, authorities, and additional records, as many as the header says (RFC 1035, section 4.1.3).
    /// Allocates nothing.
    ///
    /// The call goes over the questions, and the iterator begins after them.
    ///
    /// # Errors
    ///
    /// A question is damaged, or the names of the questions take more steps than the limit: the
    /// section, index and offset of the question, and what is wrong.
    pub fn records(&self) -> Result<Records<'a>, RecordError>
        ensures begins { IfOk result (Begins self.now (λ h. 0) record_count) }
        ensures all { IfOk result (λ s. (xs : List Item) → Drains NextRecord s xs → WalkGives s xs) }
        ensures damaged { IfErr result (BreaksIn self.now (λ h. 0)) }
    {
        let header = header_of(self.octets);
        let until = records_in(&header);
        records_between(self.octets, self.limit, header, 0, until)
    }

    /// The answers. Allocates nothing.
    ///
    /// The call goes over the questions, and the iterator begins after them.
    ///
    /// # Errors
    ///
    /// As [`records`](MessageRef::records).
    pub fn answers(&self) -> Result<Records<'a>, RecordError>
        ensures begins { IfOk result (Begins self.now (λ h. 0) (λ h. h.answer_count)) }
        ensures all { IfOk result (λ s. (xs : List Item) → Drains NextRecord s xs → WalkGives s xs) }
        ensures damaged { IfErr result (BreaksIn self.now (λ h. 0)) }
    {
        let header = header_of(self.octets);
        records_between(
            self.octets,
            self.limit,
            header,
            0,
            header.answer_count as usize,
        )
    }

    /// The authorities. Allocates nothing.
    ///
    /// The call goes over the questions and the answers, whatever their RDATA is, and the iterator begins after them.
    ///
    /// # Errors
    ///
    /// A question is damaged, or the owner, the fixed fields or RDLENGTH of an answer; or the names of the questions
    /// and the owners of the answers take more steps than the limit: the section, index and offset
    /// where that is, and what is wrong.
    pub fn authorities(&self) -> Result<Records<'a>, RecordError>
        ensures begins { IfOk result (Begins self.now (λ h. h.answer_count) (λ h. h.answer_count + h.authority_count)) }
        ensures all { IfOk result (λ s. (xs : List Item) → Drains NextRecord s xs → WalkGives s xs) }
        ensures damaged { IfErr result (BreaksIn self.now (λ h. h.answer_count)) }
    {
        let header = header_of(self.octets);
        let from = header.answer_count as usize;
        records_between(
            self.octets,
            self.limit,
            header,
            from,
            from + header.authority_count as usize,
        )
    }

    /// The additional records. Allocates nothing.
    ///
    /// The call goes over the questions, the answers and the authorities, whatever their RDATA is, and the iterator
    /// begins after them.
    ///
    /// # Errors
    ///
    /// A question is damaged, or the owner, the fixed fields or RDLENGTH of an answer or an authority; or the names of
    /// the questions and the owners of these records take more steps than the limit: the section,
    /// index and offset where that is, and what is wrong.
    pub fn additionals(&self) -> Result<Records<'a>, RecordError>
        ensures begins { IfOk result (Begins self.now (λ h. h.answer_count + h.authority_count) record_count) }
        ensures all { IfOk result (λ s. (xs : List Item) → Drains NextRecord s xs → WalkGives s xs) }
        ensures damaged { IfErr result (BreaksIn self.now (λ h. h.answer_count + h.authority_count)) }
    {
        let header = header_of(self.octets);
        let from = header.answer_count as usize + header.authority_count as usize;
        let until = records_in(&header);
        records_between(self.octets, self.limit, header, from, until)
    }

    /// Goes on with a walk over the records of this message, where [`Records::progress`] said that it was. Allocates
    /// nothing.
    ///
    /// Returns `None` if no walk over the records can be there: the offset is past the end of the message, or `until`
    /// is more than the records that the header counts. The limit of the message is not looked at: `left` says how much
    /// of it is left.
    pub fn resume(&self, progress: Progress) -> Option<Records<'a>>
        ensures some { IfSome result (Resumes self.now.octets progress) }
        ensures none { IfNone result (NoResume self.now.octets progress) }
        ensures all { IfSome result (λ s. progress.passed ≤ progress.until →
            (xs : List Item) → Drains NextRecord s xs → WalkGives s xs) }
    {
        let header = header_of(self.octets);
        resume_at(self.octets, header, progress)
    }

    /// Passes the record where a walk over the records of this message is, and moves `progress` after it: what
    /// [`resume`](MessageRef::resume) and a call of `next` do, for callers that keep numbers alone. Allocates nothing.
    ///
    /// Returns `None` if no record is left, or if no walk can be there, as for `resume`; `progress` is then unchanged. A
    /// record whose RDATA is rejected is passed. The names in its RDATA are then gone over twice, and the name of a CNAME, MX,
    /// NS or PTR record up to three times; their steps are counted once.
    ///
    /// # Errors
    ///
    /// The owner, the fixed fields or RDLENGTH of the record are damaged, or it takes more steps than
    /// are left. The walk has ended: `until` is set to `passed`, and all else is unchanged.
    pub fn step(&self, progress: &mut Progress) -> Option<Result<PassedRecord, Fault>>
        ensures { StepsTo self.now.octets progress.old result progress.new }
    {
        let octets = self.octets;
        let offset = progress.offset;
        let passed = progress.passed;
        let until = progress.until;
        let header = header_of(octets);
        if offset > octets.len() || until > records_in(&header) || passed >= until {
            return None;
        }
        let position = position_of(&header, passed);
        let mut left = progress.left;
        match pass_record(octets, offset, &mut left) {
            Ok((fields, content)) => {
                *progress = Progress {
                    offset: fields.end,
                    passed: passed + 1,
                    until,
                    left,
                };
                Some(Ok(PassedRecord {
                    section: position.section,
                    index: position.index,
                    fields,
                    content,
                }))
            }
            Err(fault) => {
                progress.until = passed;
                Some(Err(fault))
            }
        }
    }

    /// The fields of the record at an offset, such as that of an error, or `None` if no record is encoded there: its owner, its
    /// fixed fields or RDLENGTH are damaged, or the offset is past the end of the message. Allocates nothing.
    pub fn fields_at(&self, offset: usize) -> Option<FixedFields>
        ensures some { IfSome result (IsFound self.now.octets offset) }
        ensures none { IfNone result (NoRecord self.now.octets offset) }
    {
        if offset > self.octets.len() {
            return None;
        }
        fixed_at(self.octets, offset)
    }
}
