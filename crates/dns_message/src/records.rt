//! Records, one after the other.

ghost use Rattle.std.specs.Prelude.{◌≡◌, ◌+◌, ◌-◌, ◌≤◌, ◌^◌, ◌<◌, length, drop, IfOk, IfErr, IfSome, IfNone, MatchOption};
ghost use Rattle.std.specs.Iterator.{at_most};
ghost use Rattle.dns_message.specs.{Headers.record_count, Starts.FoundWithin, Starts.Breaks, Starts.BreaksFound, Starts.BeginsAt};
ghost use Rattle.dns_message.specs.{Starts.ResumesAt, Starts.NoResumeAt};

use crate::error::RecordError;
use crate::header::Header;
use crate::progress::Progress;
use crate::question::skip_questions;
use crate::reading::read_record;
use crate::record_ref::{RecordRef, read_entry};
use crate::sections::{position_of, records_in};
use std::marker::Model;

/// Records of a message, one after the other. Allocates nothing.
///
/// An item is a record, or why its RDATA is rejected; the walk goes on after both, since RDLENGTH says where the record
/// ends. A record whose owner, fixed fields or RDLENGTH are damaged gives one error, and it is the last item. There are
/// at most as many items as the counts of the header say.
///
/// The walk counts the steps that it takes, which are the labels and the steps (RFC 1035, sections 3.1 and
/// 4.1.4) of the names of the questions, of the owners of records, and of RDATA, up to the damage where there is one. A record with which they are
/// more than the limit of the message is not given: the item is an error with [`Limit`](crate::Fault::Limit), and
/// it is the last one.
///
/// [`MessageRef`](crate::MessageRef) makes it, for all records or those of a section.
#[derive(Drop)]
pub struct Records<'a> {
    message: &'a [u8],
    header: Header,
    offset: usize,
    passed: usize,
    until: usize,
    left: usize,
}

impl<'a> Model for Records<'a> {
    ghost use Rattle.std.specs.Prelude.{◌≤◌, length};
    ghost use Rattle.dns_message.specs.{State.Walking, Headers.record_count};

    ghost Value = { Walking };

    ghost view = { λ s. record {
      message = s.message.now;
      header = s.header;
      offset = s.offset;
      passed = s.passed;
      until = s.until;
      left = s.left;
    } };

    ghost invariant = { λ s. (s.offset ≤ length s.message.now) × (s.until ≤ record_count s.header) };
}

impl<'a> Records<'a> {
    /// The octets after the last record of the message, or `None` if the walk has not passed all records: some are left, in its
    /// own section or a later one, or it ended with an error in an owner, in fixed fields or RDLENGTH, or with
    /// [`Limit`](crate::Fault::Limit). Allocates nothing.
    pub fn trailing(&self) -> Option<&'a [u8]>
        ensures { MatchOption result (self.now.passed < record_count self.now.header)
            (λ s. (record_count self.now.header ≤ self.now.passed) × (s.now ≡ drop self.now.offset self.now.message)) }
    {
        let count = records_in(&self.header);
        if self.passed < count {
            return None;
        }
        Some(&self.message[self.offset..])
    }

    /// Where the walk is, for [`MessageRef::resume`](crate::MessageRef::resume).
    #[inline]
    pub fn progress(&self) -> Progress
        ensures { result ≡ record {
          offset = self.now.offset;
          passed = self.now.passed;
          until = self.now.until;
          left = self.now.left;
        } }
    {
        Progress {
            offset: self.offset,
            passed: self.passed,
            until: self.until,
            left: self.left,
        }
    }
}

impl<'a> Iterator for Records<'a> {
    type Item = Result<RecordRef<'a>, RecordError>;

    ghost use Rattle.dns_message.specs.Walks.{NextRecord};

    ghost next_gives = { NextRecord };

    ghost remaining = { λ s. at_most (s.until - s.passed) };

    fn next(&mut self) -> Option<Result<RecordRef<'a>, RecordError>> {
        let passed = self.passed;
        if passed >= self.until {
            return None;
        }
        let message = self.message;
        let offset = self.offset;
        let position = position_of(&self.header, passed);
        let mut left = self.left;
        match read_entry(message, position, offset, &mut left) {
            Ok(entry) => {
                let item = entry.item;
                let fixed = entry.fixed;
                self.offset = fixed.end;
                self.passed = passed + 1;
                self.left = left;
                Some(item)
            }
            Err(fault) => {
                self.until = passed;
                Some(Err(RecordError {
                    section: position.section,
                    index: position.index,
                    offset,
                    fault,
                }))
            }
        }
    }
}

// Goes over so many records from an offset on, whatever their RDATA is, and returns the offset where they end. Subtracts
// the steps of their owners from `left`, which stops at 0.
fn skip_records(
    message: &[u8],
    header: &Header,
    start: usize,
    count: usize,
    left: &mut usize,
) -> Result<usize, RecordError>
    requires inside { start ≤ length message.now }
    requires few { count ≤ record_count header.now }
    requires some { 0 < left.old }
    ensures found { IfOk result (FoundWithin message.now start count left.old left.new) }
    ensures inside { IfOk result (λ p. p ≤ length message.now) }
    ensures damaged { IfErr result (BreaksFound message.now header.now start count left.old) }
{
    let mut offset = start;
    for passed in 0..count {
        let fixed = match read_record(message, offset, left) {
            Ok(fixed) => fixed,
            Err(fault) => {
                let position = position_of(header, passed);
                return Err(RecordError {
                    section: position.section,
                    index: position.index,
                    offset,
                    fault,
                });
            }
        };
        offset = fixed.end;
    }
    Ok(offset)
}

// A walk over records, of which so many are passed when it begins, and so many when it ends.
pub(crate) fn records_between<'a>(
    message: &'a [u8],
    limit: u32,
    header: Header,
    from: usize,
    until: usize,
) -> Result<Records<'a>, RecordError>
    requires long { 12 ≤ length message.now }
    requires order { from ≤ until }
    requires few { until ≤ record_count header }
    ensures begins { IfOk result (BeginsAt message.now (limit + 1) header from until) }
    ensures damaged { IfErr result (Breaks message.now header from (limit + 1)) }
{
    let mut left = limit as usize + 1;
    let first = match skip_questions(message, header.question_count as usize, &mut left) {
        Ok(first) => first,
        Err(error) => return Err(error),
    };
    match skip_records(message, &header, first, from, &mut left) {
        Ok(offset) => Ok(Records {
            message,
            header,
            offset,
            passed: from,
            until,
            left,
        }),
        Err(error) => Err(error),
    }
}

// The walk over records that is where `progress` says, if one can be.
pub(crate) fn resume_at<'a>(
    message: &'a [u8],
    header: Header,
    progress: Progress,
) -> Option<Records<'a>>
    ensures some { IfSome result (ResumesAt message.now header progress) }
    ensures none { IfNone result (NoResumeAt message.now header progress) }
{
    let count = records_in(&header);
    if progress.offset > message.len() || progress.until > count {
        return None;
    }
    Some(Records {
        message,
        header,
        offset: progress.offset,
        passed: progress.passed,
        until: progress.until,
        left: progress.left,
    })
}
