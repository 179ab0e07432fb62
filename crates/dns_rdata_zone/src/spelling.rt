//! Octets in texts of zone files (RFC 1035, section 5.1): as they are, after a `\`, or as `\` and three digits.

ghost use Rattle.std.specs.Prelude.{◌≡◌, ◌<◌, ℕ, List, [], ◌∷◌, Some, flat_map};
ghost use Rattle.std.specs.{Bool.OnTrue, Fmt.DisplaysOnOk};
ghost use Rattle.dns_rdata_zone.specs.Spellings.{three_digits};

use std::{fmt, str};

/// How each octet is spelled in a part of a zone file.
pub(crate) trait Spelling {
    /// The characters of an octet.
    ghost spelled: { ℕ → List ℕ };

    /// Whether the octet is written as it is.
    fn is_plain(&self, octet: u8) -> bool
        ensures itself { OnTrue result (spelled octet ≡ octet ∷ []) };

    /// Writes the characters of the octet.
    fn write_octet<W: fmt::Write>(&self, octet: u8, f: &mut fmt::Formatter<W>) -> fmt::Result
        ensures writes { DisplaysOnOk W.write_str_gives f.old result (Some (spelled octet)) f.new };
}

/// Octets that print in a spelling. If each is written as it is, one write does it.
#[derive(Clone, Copy)]
pub(crate) struct Spelled<'a, S>(pub &'a [u8], pub S);

// Whether each octet is written as it is.
#[inline]
fn are_plain<S: Spelling>(octets: &[u8], spelling: &S) -> bool
    ensures { OnTrue result (flat_map S.spelled octets.now ≡ octets.now) }
{
    for octet in octets {
        if !spelling.is_plain(*octet) {
            return false;
        }
    }
    true
}

impl<S: Spelling> fmt::Display for Spelled<'_, S> {
    ghost output = { λ x. Some (flat_map S.spelled x.0.now) };

    fn fmt<W: fmt::Write>(&self, f: &mut fmt::Formatter<W>) -> fmt::Result {
        let octets = self.0;
        if are_plain(octets, &self.1) {
            return f.write_str(str::from_utf8(octets).map_err(|_| fmt::Error)?);
        }
        for octet in octets {
            self.1.write_octet(*octet, f)?;
        }
        Ok(())
    }
}

/// Writes a character of ASCII after a `\`.
pub(crate) fn write_escaped<W: fmt::Write>(octet: u8, f: &mut fmt::Formatter<W>) -> fmt::Result
    requires { octet < 128 }
    ensures { DisplaysOnOk W.write_str_gives f.old result (Some (92 ∷ octet ∷ [])) f.new }
{
    f.write_char('\\')?;
    f.write_char(octet as char)
}

/// Writes an octet as `\` and three digits.
pub(crate) fn write_digits<W: fmt::Write>(octet: u8, f: &mut fmt::Formatter<W>) -> fmt::Result
    ensures { DisplaysOnOk W.write_str_gives f.old result (Some (three_digits octet)) f.new }
{
    f.write_char('\\')?;
    f.write_char((48 + octet / 100) as char)?;
    f.write_char((48 + octet / 10 % 10) as char)?;
    f.write_char((48 + octet % 10) as char)
}
