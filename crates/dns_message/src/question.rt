//! Questions, one after the other.

ghost use Rattle.std.specs.Prelude.{◌≡◌, ◌+◌, ◌-◌, ◌<◌, ◌≤◌, length, IfOk, IfErr};
ghost use Rattle.std.specs.Iterator.{at_most};
ghost use Rattle.dns_message.specs.{Readings.IsAsked, Questions.GivesQuestion, Starts.AskedWithin, Starts.BreaksAsked};

use crate::error::{RecordError, Section};
use crate::header::HEADER_OCTETS;
use crate::reading::{Asked, read_question};
use dns_types::RecordType;
use dns_view::NameRef;
use std::marker::Model;

/// A question, lent from a message (RFC 1035, section 4.1.2). A copy is cheap.
///
///     +--+--+--+--+--+--+--+--+
///     /         QNAME         /   a domain name, compressed or not
///     +--+--+--+--+--+--+--+--+
///     |         QTYPE         |   u16
///     +--+--+--+--+--+--+--+--+
///     |         QCLASS        |   u16
///     +--+--+--+--+--+--+--+--+
#[derive(Clone, Copy)]
pub struct QuestionRef<'a> {
    /// The index of the question, counted from 0.
    pub index: usize,
    /// The offset in the message where the question starts.
    pub offset: usize,
    /// QNAME.
    pub name: NameRef<'a>,
    /// QTYPE.
    pub query_type: RecordType,
    /// QCLASS: the class, or 255 for any.
    pub class: u16,
}

// The question whose fields were read.
#[inline]
fn question_at<'a>(message: &'a [u8], index: usize, offset: usize, asked: Asked) -> QuestionRef<'a>
    requires inside { offset ≤ length message.now }
    requires found { IsAsked message.now offset asked }
    ensures { GivesQuestion message.now index offset asked.end result }
{
    let name = NameRef::at(message, offset);
    let query_type = RecordType::from(asked.query_type);
    QuestionRef {
        index,
        offset,
        name,
        query_type,
        class: asked.class,
    }
}

/// The questions of a message, one after the other. Allocates nothing.
///
/// A question that is damaged gives one error, and it is the last item. So does one whose name has more labels and
/// steps than the limit of the message leaves.
#[derive(Drop)]
pub struct Questions<'a> {
    message: &'a [u8],
    offset: usize,
    passed: usize,
    until: usize,
    left: usize,
}

impl<'a> Model for Questions<'a> {
    ghost use Rattle.std.specs.Prelude.{◌≤◌, length};
    ghost use Rattle.dns_message.specs.State.{Asking};

    ghost Value = { Asking };

    ghost view = { λ s. record {
      message = s.message.now;
      offset = s.offset;
      passed = s.passed;
      until = s.until;
      left = s.left;
    } };

    ghost invariant = { λ s. s.offset ≤ length s.message.now };
}

// The questions of a message that begin after its header.
pub(crate) fn questions_of<'a>(message: &'a [u8], limit: u32, until: usize) -> Questions<'a>
    requires { 12 ≤ length message.now }
    ensures { result ≡ record { message = message.now; offset = 12; passed = 0; until = until; left = limit + 1 } }
{
    Questions {
        message,
        offset: HEADER_OCTETS,
        passed: 0,
        until,
        left: limit as usize + 1,
    }
}

impl<'a> Iterator for Questions<'a> {
    type Item = Result<QuestionRef<'a>, RecordError>;

    ghost use Rattle.dns_message.specs.Asks.{NextQuestion};

    ghost next_gives = { NextQuestion };

    ghost remaining = { λ s. at_most (s.until - s.passed) };

    fn next(&mut self) -> Option<Result<QuestionRef<'a>, RecordError>> {
        let passed = self.passed;
        if passed >= self.until {
            return None;
        }
        let message = self.message;
        let offset = self.offset;
        let mut left = self.left;
        match read_question(message, offset, &mut left) {
            Ok(asked) => {
                self.offset = asked.end;
                self.passed = passed + 1;
                self.left = left;
                Some(Ok(question_at(message, passed, offset, asked)))
            }
            Err(fault) => {
                self.until = passed;
                Some(Err(RecordError {
                    section: Section::Question,
                    index: passed,
                    offset,
                    fault,
                }))
            }
        }
    }
}

// Goes over the questions of a message, and returns the offset where they end. Subtracts the steps of
// their names from `left`, which stops at 0.
pub(crate) fn skip_questions(
    message: &[u8],
    count: usize,
    left: &mut usize,
) -> Result<usize, RecordError>
    requires long { 12 ≤ length message.now }
    requires some { 0 < left.old }
    ensures found { IfOk result (AskedWithin message.now count left.old left.new) }
    ensures inside { IfOk result (λ p. p ≤ length message.now) }
    ensures damaged { IfErr result (BreaksAsked message.now count left.old) }
{
    let mut offset = HEADER_OCTETS;
    for index in 0..count {
        let asked = match read_question(message, offset, left) {
            Ok(asked) => asked,
            Err(fault) => {
                return Err(RecordError {
                    section: Section::Question,
                    index,
                    offset,
                    fault,
                });
            }
        };
        offset = asked.end;
    }
    Ok(offset)
}
