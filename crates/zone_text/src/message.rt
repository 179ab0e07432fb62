//! The records of a message as lines of a zone file, and the rest of the message as comments.

use crate::names::{Class, Flag, Opcode, ResponseCode, Type};
use anyhow::{Result, bail};
use dns_message::{Header, MessageRef, QuestionRef, RecordError, RecordRef, Records, Section};
use dns_rdata::{RDataRef, Tlv};
use dns_rdata_zone::{ZoneName, ZoneText};
use held_data::Held;
use hex::FromHexError;
use std::alloc::Global;
use std::fmt::Display;
use std::io::Write;
use std::str;

// Writes why something is rejected, and returns that it is.
fn refuse<W: Write, E: Display + Drop>(reason: E, out: &mut W) -> Result<bool> {
    writeln!(out, "; refused: {reason}")?;
    Ok(true)
}

// The octets that hexadecimal digits are, or `-` for none. `None` if they are no digits of octets.
fn octets_of(alloc: Global, digits: &[u8]) -> Result<Option<Vec<u8>>> {
    let Ok(digits) = str::from_utf8(digits) else {
        return Ok(None);
    };
    match hex::decode(alloc, digits.trim().trim_matches('-')) {
        Ok(octets) => Ok(Some(octets)),
        Err(FromHexError::OutOfMemory) => bail!("out of memory"),
        Err(_) => Ok(None),
    }
}

// Writes the line of the header.
fn write_header<W: Write>(header: &Header, out: &mut W) -> Result<()> {
    let (id, opcode, rcode) = (header.id, Opcode(header.opcode), ResponseCode(header.rcode));
    write!(out, "; id {id}; opcode {opcode}; rcode {rcode}; flags:")?;
    write_flags(header, out)?;
    let (questions, answers) = (header.question_count, header.answer_count);
    let (authorities, additionals) = (header.authority_count, header.additional_count);
    writeln!(
        out,
        "; question {questions}, answer {answers}, authority {authorities}, additional {additionals}"
    )?;
    Ok(())
}

// Writes the short names of the flags that are set.
fn write_flags<W: Write>(header: &Header, out: &mut W) -> Result<()> {
    write!(
        out,
        "{}{}{}{}{}{}{}",
        Flag(" qr", header.response),
        Flag(" aa", header.authoritative),
        Flag(" tc", header.truncated),
        Flag(" rd", header.recursion_desired),
        Flag(" ra", header.recursion_available),
        Flag(" ad", header.authentic_data),
        Flag(" cd", header.checking_disabled)
    )?;
    Ok(())
}

// Writes the line of a question.
fn write_question<W: Write>(alloc: Global, question: &QuestionRef<'_>, out: &mut W) -> Result<()> {
    let name = question.name.to_name(alloc)?;
    let (class, kind) = (Class(question.class), Type(question.query_type));
    writeln!(out, "; question: {} {class} {kind}", ZoneName(&name))?;
    Ok(())
}

// Writes an option of EDNS: its code and its octets.
fn write_option<W: Write>(alloc: Global, option: &Tlv<'_>, out: &mut W) -> Result<()> {
    let digits = hex::encode(alloc, option.octets)?;
    write!(out, " {}:{digits}", option.number)?;
    Ok(())
}

// Writes the options of EDNS, if there are some.
fn write_options<W: Write>(alloc: Global, view: &RDataRef<'_>, out: &mut W) -> Result<()> {
    if view.options().next().is_some() {
        out.write_all(b", options")?;
    }
    for option in view.options() {
        write_option(alloc, &option, out)?;
    }
    Ok(())
}

// Writes the line of an OPT record, and returns whether the record is one.
fn write_edns<W: Write>(alloc: Global, record: &RecordRef<'_>, out: &mut W) -> Result<bool> {
    let Some(edns) = record.edns() else {
        return Ok(false);
    };
    let (version, size) = (edns.version, edns.udp_payload_size);
    write!(out, "; EDNS: version {version}, udp {size}")?;
    if edns.extended_rcode != 0 {
        write!(out, ", extended rcode {}", edns.extended_rcode)?;
    }
    write!(out, "{}", Flag(", do", edns.dnssec_ok))?;
    if edns.reserved != 0 {
        write!(out, ", z {}", edns.reserved)?;
    }
    if let Some(view) = record.rdata {
        write_options(alloc, &view, out)?;
    }
    out.write_all(b"\n")?;
    Ok(true)
}

// Writes the text of RDATA, and ends the line.
fn write_rdata<W: Write>(alloc: Global, view: &RDataRef<'_>, out: &mut W) -> Result<()> {
    let held = Held::of_view(alloc, view)?;
    writeln!(out, " {}", ZoneText::new(&held.0))?;
    Ok(())
}

// Writes the line of a record: a line of a zone file, or a comment for OPT and for a record without data.
fn write_record<W: Write>(alloc: Global, record: &RecordRef<'_>, out: &mut W) -> Result<()> {
    if write_edns(alloc, record, out)? {
        return Ok(());
    }
    let owner = record.owner.to_name(alloc)?;
    let (ttl, class, kind) = (record.ttl, Class(record.class), Type(record.record_type));
    if record.rdata.is_none() {
        out.write_all(b"; no data: ")?;
    }
    write!(out, "{} {ttl} {class} {kind}", ZoneName(&owner))?;
    match record.rdata {
        Some(view) => write_rdata(alloc, &view, out),
        None => Ok(out.write_all(b"\n")?),
    }
}

// Writes the line of a section where it begins, and returns the section.
fn enter<W: Write>(old: Section, new: Section, out: &mut W) -> Result<Section> {
    if new != old {
        writeln!(out, "; {new} section")?;
    }
    Ok(new)
}

// Writes all records, and returns whether one is rejected.
fn write_records<W: Write>(alloc: Global, records: &mut Records<'_>, out: &mut W) -> Result<bool> {
    let mut section = Section::Question;
    let mut some_refused = false;
    for item in records {
        match item {
            Ok(record) => {
                section = enter(section, record.section, out)?;
                write_record(alloc, &record, out)?;
            }
            Err(error) => {
                section = enter(section, error.section, out)?;
                some_refused = refuse(error, out)?;
            }
        }
    }
    Ok(some_refused)
}

// Writes the octets after the last record, if there are some.
fn write_trailing<W: Write>(alloc: Global, records: &Records<'_>, out: &mut W) -> Result<()> {
    if let Some(octets) = records.trailing() {
        if !octets.is_empty() {
            writeln!(out, "; trailing octets: {}", hex::encode(alloc, octets)?)?;
        }
    }
    Ok(())
}

// Writes all questions, and returns the error of the one that is damaged.
fn write_questions<W: Write>(
    alloc: Global,
    message: &MessageRef<'_>,
    out: &mut W,
) -> Result<Option<RecordError>> {
    for item in message.questions() {
        match item {
            Ok(question) => write_question(alloc, &question, out)?,
            Err(error) => return Ok(Some(error)),
        }
    }
    Ok(None)
}

// Writes a whole message, and returns whether something of it is rejected.
fn write_whole<W: Write>(alloc: Global, octets: &[u8], out: &mut W) -> Result<bool> {
    let message = match MessageRef::read(octets) {
        Ok(message) => message,
        Err(error) => return refuse(error, out),
    };
    write_header(&message.header(), out)?;
    if let Some(error) = write_questions(alloc, &message, out)? {
        return refuse(error, out);
    }
    let mut records = match message.records() {
        Ok(records) => records,
        // Unreachable: no question is damaged.
        Err(error) => return refuse(error, out),
    };
    let some_refused = write_records(alloc, &mut records, out)?;
    write_trailing(alloc, &records, out)?;
    Ok(some_refused)
}

/// Writes the message that hexadecimal digits are, and returns whether something of it is rejected.
pub(crate) fn write_message<W: Write>(alloc: Global, digits: &[u8], out: &mut W) -> Result<bool> {
    match octets_of(alloc, digits)? {
        Some(octets) => write_whole(alloc, octets.as_slice(), out),
        None => refuse(crate::NO_OCTETS, out),
    }
}
