//! The result on a terminal.

use std::alloc::{AllocError, Global};
use std::fmt::Write;

// How many line feeds are in a text.
fn line_feeds(text: &str) -> usize {
    text.bytes().filter(|octet| *octet == b'\n').count()
}

/// Returns what [`run`](crate::run) has written, with its control characters made visible as `\xNN`: those of ASCII and
/// those from U+0080 to U+009F. Text in RDATA comes from strangers, and a terminal acts on such characters.
///
/// A value's report has four lines, of which the second is the text, so of its line feeds the first and the last three stay
/// and all others are in the text.
pub fn visible(alloc: Global, written: &str) -> Result<String, AllocError> {
    let lines = line_feeds(written);
    let mut shown = String::new(alloc);
    let mut line = 0usize;
    for character in written.chars() {
        let ends = character == '\n';
        if ends {
            line = line.saturating_add(1);
        }
        if character.is_control() && !(ends && (line == 1 || line.saturating_add(3) > lines)) {
            write!(shown, "\\x{:02x}", character as u32)?;
        } else {
            shown.push(character)?;
        }
    }
    Ok(shown)
}
