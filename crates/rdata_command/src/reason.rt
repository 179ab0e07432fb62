//! What is told to people beside the result.

ghost use Rattle.std.specs.Prelude.{◌≡◌, ◌≤◌, ◌<◌, ◌⊎◌, length as size};
ghost use Rattle.dns_rdata.specs.Data.{NoValue};
ghost use Rattle.rdata_command.specs.{Request.texts, Reasons.Refuses, Parsing.NoDataText, Comparing.NoOrder};

use crate::comparing::{Pair, order_of, order_request};
use crate::parsing::{parsed, text_request};
use crate::report::read_request;
use crate::request::{Request, parse};
use dns_rdata::{DecodeError, ParseError, RecordType};
use std::alloc::Global;
use std::{fmt, io};

// Writes a line. Whether it can be written changes nothing: standard error may be closed.
fn tell<W: io::Write, T: fmt::Display>(out: &mut W, reason: &T) {
    let _ = writeln!(out, "{reason}");
}

// Writes why the octets are rejected, if they are.
fn explain_value<W: io::Write>(alloc: Global, request: &Request, out: &mut W)
    requires { request.now.offset ≤ size request.now.message.items }
    ensures { (W.contents out.new ≡ W.contents out.old)
        ⊎ NoValue request.now.message.items request.now.offset request.now.length request.now.record_type }
{
    match read_request(alloc, request) {
        Ok(_) | Err(DecodeError::Memory) => (),
        Err(e) => tell(out, &e),
    }
}

// Writes why the text is rejected, if it is.
fn explain_text<W: io::Write>(alloc: Global, record_type: RecordType, text: &str, out: &mut W)
    ensures { (W.contents out.new ≡ W.contents out.old) ⊎ NoDataText record_type text.now }
{
    match parsed(alloc, record_type, text) {
        Ok(_) | Err(ParseError::Memory) => (),
        Err(e) => tell(out, &e),
    }
}

// Writes why two RDATA have no order, if they have none.
fn explain_order<W: io::Write>(alloc: Global, pair: &Pair, out: &mut W)
    requires left { size pair.now.left.items < 65536 }
    requires right { size pair.now.right.items < 65536 }
    ensures { (W.contents out.new ≡ W.contents out.old) ⊎ NoOrder pair.now.record_type pair.now.left.items pair.now.right.items }
{
    match order_of(alloc, pair) {
        Ok(_) | Err(DecodeError::Memory) => (),
        Err(e) => tell(out, &e),
    }
}

/// Writes a line with the library's reason, if it rejects what the words ask for. Otherwise, and if an allocation fails,
/// nothing is written. The words are read once more for that; what [`run`](crate::run) writes is not touched.
pub fn explain<W: io::Write>(alloc: Global, words: &[String], out: &mut W)
    ensures { (W.contents out.new ≡ W.contents out.old) ⊎ Refuses (texts words.now) }
{
    if let Some((record_type, text)) = text_request(words) {
        return explain_text(alloc, record_type, text, out);
    }
    if let Ok(Some(pair)) = order_request(alloc, words) {
        return explain_order(alloc, &pair, out);
    }
    if let Ok(Some(request)) = parse(alloc, words) {
        explain_value(alloc, &request, out);
    }
}

// Whether the texts are of values that are equal.
fn gives_the_same(alloc: Global, record_type: RecordType, text: &str, other: &str) -> bool {
    match (
        parsed(alloc, record_type, text),
        parsed(alloc, record_type, other),
    ) {
        (Ok(value), Ok(less)) => value.0 == less.0,
        _ => false,
    }
}

/// Returns whether the words ask for a text whose last word changes nothing: hickory's readers of texts leave out words
/// after the last field. `false` says nothing, if an allocation fails or the text has a comment.
pub fn is_longer(alloc: Global, words: &[String]) -> bool {
    let Some((record_type, text)) = text_request(words) else {
        return false;
    };
    let whole = text.trim_ascii_end();
    match whole.rsplit_once(' ') {
        Some((less, _)) => !whole.contains(';') && gives_the_same(alloc, record_type, whole, less),
        None => false,
    }
}
