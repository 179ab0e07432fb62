//! The sections of a message, and where a record is among them.

ghost use Rattle.std.specs.Prelude.{◌≡◌, ◌<◌};
ghost use Rattle.dns_message.specs.Headers.{record_count, IsPlace};

use crate::error::Section;
use crate::header::Header;

// The section of a record, and its index there.
#[derive(Clone, Copy)]
pub(crate) struct Position {
    pub(crate) section: Section,
    pub(crate) index: usize,
}

// How many records a message has by its header.
#[inline]
pub(crate) fn records_in(header: &Header) -> usize
    ensures { result ≡ record_count header.now }
{
    header.answer_count as usize
        + header.authority_count as usize
        + header.additional_count as usize
}

// The position of the record that so many precede.
#[inline]
pub(crate) fn position_of(header: &Header, passed: usize) -> Position
    requires { passed < record_count header.now }
    ensures { IsPlace header.now passed result.section result.index }
{
    let answers = header.answer_count as usize;
    if passed < answers {
        return Position {
            section: Section::Answer,
            index: passed,
        };
    }
    let authorities = header.authority_count as usize;
    if passed - answers < authorities {
        return Position {
            section: Section::Authority,
            index: passed - answers,
        };
    }
    // For the proof: brings in that the count is small.
    let _additionals = header.additional_count;
    Position {
        section: Section::Additional,
        index: passed - answers - authorities,
    }
}
