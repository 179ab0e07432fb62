//! Texts of record data in zone files, thousands of lines a second.
//!
//! Each line of standard input is a record, and has one line of output:
//!
//! - Without arguments a line is `TYPE PLACE LENGTH OCTETS`, where OCTETS are the message's hexadecimal digits, or `-` for
//!   none. Its result is the text of the RDATA, LENGTH octets at the offset PLACE.
//! - `read`: a line is `TYPE TEXT`, with blanks or tabs between the two. TEXT is octets and need not be UTF-8. Its result
//!   is the octets of the RDATA in hexadecimal digits, names uncompressed and with case preserved, or `-` for none.
//! - `read ORIGIN`: the same, and relative names are completed with this origin.
//! - `message`: a line is a whole message in hexadecimal digits. Its result is the records, as lines of a zone file, and
//!   the rest of the message as comments. A blank line follows.
//! - `message OCTETS`: the same for this message, without the blank line. Standard input is not read.
//!
//! TYPE is the name of a type in either case, its number, or `TYPE` and its number.
//!
//! A line that cannot be used has the result `refused: ` and the reason, and the next line follows. If one token of
//! TEXT is at fault, `, at octet ` and the offset in the line at which this token starts follow the reason. At the end
//! of the input the exit status is 1 if some line was rejected, and 0 otherwise. Of a message that is so if some record
//! or question was. Only if memory runs out, or if standard input or output fails, the program ends earlier: with status
//! 1, and without a result for the line. Other words end it with status 2.
#![tactic(auto)]

mod message;
mod names;

use anyhow::{Result, bail};
use dns_rdata::{BinDecoder, BinEncoder, DecodeError, Name, ParseError, RecordType};
use dns_rdata_zone::{ZoneText, from_zone_text, token_at_fault, type_named};
use held_data::Held;
use hex::FromHexError;
use message::write_message;
use std::alloc::Global;
use std::io::{BufRead, BufReader, BufWriter, Write};
use std::process::ExitCode;
use std::str;

const USAGE: &str = "usage: zone_text [read [ORIGIN] | message [OCTETS]]";

const NO_TYPE: &str = "no record type";

// The same, where people often paste a line of a zone file.
const NO_TYPE_FIRST: &str =
    "no record type; a line is a type and its data, as `A 192.0.2.1`, without owner, TTL and class";

const NO_PLACE: &str = "no offset of the RDATA";

const NO_LENGTH: &str = "no length of 16 bits";

const NO_OCTETS: &str = "no hexadecimal digits of octets";

const OUTSIDE: &str = "offset after the end of the message";

// Writes the result of a line that cannot be used; the value says that it was rejected.
fn refuse<W: Write>(out: &mut W, reason: &str) -> Result<bool> {
    writeln!(out, "refused: {reason}")?;
    Ok(true)
}

// The record type that a word names or gives the number of.
fn type_of(word: &[u8]) -> Option<RecordType> {
    if let Some(kind) = type_named(word) {
        return Some(kind);
    }
    let number = str::from_utf8(word).ok()?.parse::<u16>().ok()?;
    Some(RecordType::from(number))
}

// The first word of a line, and what follows it.
fn first_word(line: &[u8]) -> (&[u8], &[u8]) {
    let line = line.trim_ascii_start();
    let len = line
        .iter()
        .position(|c| matches!(*c, b' ' | b'\t' | b'\r'))
        .unwrap_or(line.len());
    (&line[..len], &line[len..])
}

// Writes the result of a line `TYPE PLACE LENGTH OCTETS`, and returns whether it is rejected.
fn write_text<W: Write>(alloc: Global, line: &[u8], out: &mut W) -> Result<bool> {
    let Ok(line) = str::from_utf8(line) else {
        return refuse(out, "octets that are not UTF-8");
    };
    let mut words = line.split_whitespace();
    let Some(kind) = type_of(words.next().unwrap_or("").as_bytes()) else {
        return refuse(out, NO_TYPE);
    };
    let Ok(offset) = words.next().unwrap_or("").parse::<usize>() else {
        return refuse(out, NO_PLACE);
    };
    let Ok(length) = words.next().unwrap_or("").parse::<u16>() else {
        return refuse(out, NO_LENGTH);
    };
    let Some(octets) = words.next() else {
        return refuse(out, NO_OCTETS);
    };
    if words.next().is_some() {
        return refuse(out, "surplus token after the octets");
    }
    let message = match hex::decode(alloc, octets.trim_matches('-')) {
        Ok(message) => message,
        Err(FromHexError::OutOfMemory) => bail!("out of memory"),
        Err(_) => return refuse(out, NO_OCTETS),
    };
    write_data(alloc, message.as_slice(), offset, kind, length, out)
}

// Writes the text of RDATA in a message, and returns whether there is none.
fn write_data<W: Write>(
    alloc: Global,
    message: &[u8],
    offset: usize,
    kind: RecordType,
    length: u16,
    out: &mut W,
) -> Result<bool> {
    let mut decoder = BinDecoder::new(alloc, message);
    if decoder.read_slice(offset).is_err() {
        return refuse(out, OUTSIDE);
    }
    match Held::read(&mut decoder, kind, length) {
        Err(DecodeError::Memory) => bail!("out of memory"),
        Err(e) => {
            writeln!(out, "refused: {e}")?;
            Ok(true)
        }
        Ok(held) => {
            writeln!(out, "{}", ZoneText::new(&held.0))?;
            Ok(false)
        }
    }
}

// Writes why a text is rejected, which follows `before` octets of its line. A type without fields here has the form of
// unknown data alone.
fn refuse_text<W: Write>(
    out: &mut W,
    kind: RecordType,
    before: usize,
    text: &[u8],
    e: ParseError,
) -> Result<bool> {
    write!(out, "refused: {e}")?;
    if let ParseError::UnsupportedRecordType(_) = e {
        write!(out, "; its data is read as `\\#`, a length and octets")?;
    }
    if let Some(token) = token_at_fault(kind, text, &e) {
        write!(out, ", at octet {}", before.saturating_add(token.start))?;
    }
    out.write_all(b"\n")?;
    Ok(true)
}

// Writes the result of a line `TYPE TEXT`, and returns whether it is rejected.
fn write_octets<W: Write>(
    alloc: Global,
    line: &[u8],
    origin: Option<&Name>,
    out: &mut W,
) -> Result<bool> {
    let (word, text) = first_word(line);
    let Some(kind) = type_of(word) else {
        return refuse(out, NO_TYPE_FIRST);
    };
    let held = match from_zone_text(alloc, kind, text, origin) {
        Ok(value) => Held(value),
        Err(ParseError::Memory) => bail!("out of memory"),
        Err(e) => {
            let before = line.len().saturating_sub(text.len());
            return refuse_text(out, kind, before, text, e);
        }
    };
    let mut octets = Vec::new(alloc);
    let mut encoder = BinEncoder::new(alloc, &mut octets);
    held.0.emit_whole(&mut encoder)?;
    encoder.into_bytes();
    if octets.is_empty() {
        out.write_all(b"-\n")?;
    } else {
        writeln!(out, "{}", hex::encode(alloc, octets.as_slice())?)?;
    }
    Ok(false)
}

// What is done with a line of standard input.
#[derive(Clone, Copy)]
enum Mode {
    Print,
    Read,
    Message,
}

// The mode that the first word asks for.
fn mode_of(word: Option<&str>) -> Option<Mode> {
    match word {
        None => Some(Mode::Print),
        Some("read") => Some(Mode::Read),
        Some("message") => Some(Mode::Message),
        Some(_) => None,
    }
}

// Writes the result of a line, and returns whether it is rejected.
fn write_line<W: Write>(
    alloc: Global,
    mode: Mode,
    line: &[u8],
    origin: Option<&Name>,
    out: &mut W,
) -> Result<bool> {
    match mode {
        Mode::Print => write_text(alloc, line, out),
        Mode::Read => write_octets(alloc, line, origin, out),
        Mode::Message => {
            let is_refused = write_message(alloc, line, out)?;
            out.write_all(b"\n")?;
            Ok(is_refused)
        }
    }
}

// Writes the results of all lines, and returns whether one is rejected.
fn write_lines<R: BufRead + Drop, W: Write>(
    alloc: Global,
    mode: Mode,
    origin: Option<&Name>,
    reader: R,
    out: &mut W,
) -> Result<bool> {
    let mut some_refused = false;
    for line in reader.split(alloc, b'\n') {
        let line = line?;
        let is_refused = write_line(alloc, mode, line.as_slice(), origin, out)?;
        some_refused = some_refused || is_refused;
    }
    Ok(some_refused)
}

// The origin that a word names.
fn origin_of(alloc: Global, word: Option<&str>) -> Result<Option<Name>> {
    match word {
        Some(name) => Ok(Some(Name::from_ascii(alloc, name)?)),
        None => Ok(None),
    }
}

fn main(rt: HostRuntime) -> Result<ExitCode> {
    let alloc = rt.alloc();
    let mut words = std::env::args(&rt)?.skip(1);
    let (first, second, surplus) = (words.next(), words.next(), words.next());
    let mode = match surplus {
        None => mode_of(first.as_ref().map(|word| word.as_str())),
        Some(_) => None,
    };
    let Some(mode) = mode else {
        eprintln!(rt; "{USAGE}")?;
        return Ok(ExitCode::from(2));
    };
    let word = second.as_ref().map(|word| word.as_str());
    let mut out = BufWriter::new(alloc, std::io::writer(&rt))?;
    if let (Mode::Message, Some(digits)) = (mode, word) {
        let is_refused = write_message(alloc, digits.as_bytes(), &mut out)?;
        out.flush()?;
        return Ok(ExitCode::from(is_refused as u8));
    }
    let origin = origin_of(alloc, word)?;
    let reader = BufReader::new(alloc, rt.reader())?;
    let some_refused = write_lines(alloc, mode, origin.as_ref(), reader, &mut out)?;
    out.flush()?;
    if some_refused {
        bail!("some lines were refused");
    }
    Ok(ExitCode::from(0))
}
