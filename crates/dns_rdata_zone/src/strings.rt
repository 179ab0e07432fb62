//! Character strings in quotes (RFC 1035, section 5.1).

ghost use Rattle.std.specs.Prelude.{Some, flat_map};
ghost use Rattle.dns_rdata_zone.specs.{Spellings.escaped, Strings.quoted, Strings.spaced};

use crate::spelling::{Spelled, Spelling, write_digits, write_escaped};
use dns_rdata::Octets;
use std::fmt;

/// Within quotes: `"` and `\` are escaped by a `\`, other characters of ASCII from the space to `~` are written as they
/// are, and any other octet is `\` and three digits.
#[derive(Clone, Copy)]
pub(crate) struct InQuotes;

impl Spelling for InQuotes {
    ghost spelled = { escaped };

    #[inline]
    fn is_plain(&self, octet: u8) -> bool {
        32 <= octet && octet <= 126 && octet != 34 && octet != 92
    }

    fn write_octet<W: fmt::Write>(&self, octet: u8, f: &mut fmt::Formatter<W>) -> fmt::Result {
        if octet == 34 || octet == 92 {
            return write_escaped(octet, f);
        }
        if 32 <= octet && octet <= 126 {
            return f.write_char(octet as char);
        }
        write_digits(octet, f)
    }
}

/// A character string in quotes (RFC 1035, section 5.1), whatever its octets: `"` and `\` are escaped by a `\`, and
/// octets other than ASCII from the space to `~` are `\` and three digits. Allocates nothing.
#[derive(Clone, Copy)]
pub struct Quoted<'a>(pub &'a [u8]);

impl fmt::Display for Quoted<'_> {
    ghost output = { λ q. Some (quoted q.0.now) };

    /// Writes `"a\"b\\c\009"`.
    fn fmt<W: fmt::Write>(&self, f: &mut fmt::Formatter<W>) -> fmt::Result {
        let octets = Spelled(self.0, InQuotes);
        write!(f, "\"{octets}\"")
    }
}

/// Strings, with a space before each.
#[derive(Clone, Copy)]
pub(crate) struct Spaced<'a>(pub &'a [Octets]);

impl fmt::Display for Spaced<'_> {
    ghost output = { λ z. Some (spaced z.0.now) };

    fn fmt<W: fmt::Write>(&self, f: &mut fmt::Formatter<W>) -> fmt::Result {
        let strings = self.0;
        for string in strings {
            let quoted = Quoted(string.as_slice());
            write!(f, " {quoted}")?;
        }
        Ok(())
    }
}
