//! The unknown-data form (RFC 3597, section 5).

ghost use Rattle.std.specs.Prelude.{Some};
ghost use Rattle.hex.specs.Hex.{encode_lower};
ghost use Rattle.dns_rdata_zone.specs.Generic.{generic};
ghost use Rattle.dns_rdata.specs.WholeOctets.{name_octets};

use crate::tokens::HexTokens;
use dns_rdata::Name;
use dns_rdata_certs::hexadecimal::Hexadecimal;
use std::fmt;

/// Octets in the unknown-data form (RFC 3597, section 5): `\#`, their number, and their hexadecimal digits in
/// lower case, in tokens of at most 1,020 characters with a space between. Allocates nothing.
#[derive(Clone, Copy)]
pub struct Generic<'a>(pub &'a [u8]);

impl fmt::Display for Generic<'_> {
    ghost output = { λ g. Some (generic g.0.now) };

    /// Writes `\# 3 0a000a`, and `\# 0` if there are none.
    fn fmt<W: fmt::Write>(&self, f: &mut fmt::Formatter<W>) -> fmt::Result {
        let octets = self.0;
        let count = octets.len();
        if count == 0 {
            return f.write_str("\\# 0");
        }
        let digits = HexTokens::new(octets);
        write!(f, "\\# {count} {digits}")
    }
}

/// A name's octets in hexadecimal, uncompressed, its case preserved.
#[derive(Clone, Copy)]
pub(crate) struct NameDigits<'a>(pub &'a Name);

impl fmt::Display for NameDigits<'_> {
    ghost output = { λ n. Some (encode_lower (name_octets n.0.now)) };

    fn fmt<W: fmt::Write>(&self, f: &mut fmt::Formatter<W>) -> fmt::Result {
        let digits = Hexadecimal(self.0.label_octets());
        write!(f, "{digits}00")
    }
}

/// A name in the unknown-data form.
#[derive(Clone, Copy)]
pub(crate) struct GenericName<'a>(pub &'a Name);

impl fmt::Display for GenericName<'_> {
    ghost output = { λ n. Some (generic (name_octets n.0.now)) };

    fn fmt<W: fmt::Write>(&self, f: &mut fmt::Formatter<W>) -> fmt::Result {
        let count = self.0.len();
        let digits = NameDigits(self.0);
        write!(f, "\\# {count} {digits}")
    }
}
