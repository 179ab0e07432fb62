//! Domain names printed for zone files (RFC 1035, section 5.1).

ghost use Rattle.std.specs.{Prelude.◌≡◌, Prelude.◌<◌, Prelude.Some, Bool.OnTrue};
ghost use Rattle.dns_rdata_zone.specs.{Spellings.name_octet, Spellings.needs_backslash, Names.zone_label, Names.zone_name};

use crate::spelling::{Spelled, Spelling, write_digits, write_escaped};
use dns_rdata::Name;
use std::fmt;

/// Within a label: characters with a meaning in zone files are escaped by a `\`, other graphic characters of ASCII are
/// written as they are, and any other octet is `\` and three digits.
#[derive(Clone, Copy)]
struct InName;

// Whether the octet has a meaning of its own in a zone file: `"`, `$`, `(`, `)`, `.`, `;`, `@` and `\`.
#[inline]
fn needs_backslash(octet: u8) -> bool
    ensures value { result ≡ needs_backslash octet }
    ensures low { OnTrue result (octet < 128) }
{
    matches!(
        octet,
        b'"' | b'$' | b'(' | b')' | b'.' | b';' | b'@' | b'\\'
    )
}

impl Spelling for InName {
    ghost spelled = { name_octet };

    #[inline]
    fn is_plain(&self, octet: u8) -> bool {
        33 <= octet && octet <= 126 && !needs_backslash(octet)
    }

    fn write_octet<W: fmt::Write>(&self, octet: u8, f: &mut fmt::Formatter<W>) -> fmt::Result {
        if needs_backslash(octet) {
            return write_escaped(octet, f);
        }
        if 33 <= octet && octet <= 126 {
            return f.write_char(octet as char);
        }
        write_digits(octet, f)
    }
}

/// A label, and the dot after it.
#[derive(Clone, Copy)]
struct ZoneLabel<'a>(&'a [u8]);

impl fmt::Display for ZoneLabel<'_> {
    ghost output = { λ l. Some (zone_label l.0.now) };

    fn fmt<W: fmt::Write>(&self, f: &mut fmt::Formatter<W>) -> fmt::Result {
        let label = Spelled(self.0, InName);
        write!(f, "{label}.")
    }
}

/// Labels, with a dot after each.
#[derive(Clone, Copy)]
struct ZoneLabels<'a>(&'a Name);

impl fmt::Display for ZoneLabels<'_> {
    ghost use Rattle.std.specs.Prelude.{flat_map};

    ghost output = { λ n. Some (flat_map zone_label n.0.now.labels) };

    fn fmt<W: fmt::Write>(&self, f: &mut fmt::Formatter<W>) -> fmt::Result {
        for label in self.0.iter() {
            f.write(ZoneLabel(label))?;
        }
        Ok(())
    }
}

/// A domain name as a zone file has it, with a dot after each label; the root is a dot (RFC 1035, section 5.1). It is
/// written as fully qualified even if it is not marked so. In a label the characters `"`, `$`, `(`, `)`, `.`, `;`, `@`
/// and `\` are escaped by a `\`, and what is not a graphic character of ASCII is `\` and three digits. Allocates
/// nothing.
#[derive(Clone, Copy)]
pub struct ZoneName<'a>(pub &'a Name);

impl fmt::Display for ZoneName<'_> {
    ghost output = { λ n. Some (zone_name n.0.now) };

    /// Writes `host.example.`.
    fn fmt<W: fmt::Write>(&self, f: &mut fmt::Formatter<W>) -> fmt::Result {
        if self.0.iter().next().is_none() {
            return f.write_str(".");
        }
        f.write(ZoneLabels(self.0))
    }
}
