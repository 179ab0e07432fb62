//! The text of options, for people.

ghost use Rattle.std.specs.Prelude.{Some, flat_map};
ghost use Rattle.dns_rdata_options.specs.OptText.{code_name, hex_text, content_text, pair_text, further_text, opt_text};

use crate::opt::OPT;
use crate::opt::code::EdnsCode;
use crate::opt::option::EdnsOption;
use std::fmt;

/// The name of an option by its code.
#[derive(Clone, Copy)]
struct CodeName(EdnsCode);

impl fmt::Display for CodeName {
    ghost output = { λ c. Some (code_name c.0) };

    fn fmt<W: fmt::Write>(&self, f: &mut fmt::Formatter<W>) -> fmt::Result {
        match self.0 {
            EdnsCode::Zero => f.write_str("option0"),
            EdnsCode::LLQ => f.write_str("llq"),
            EdnsCode::UL => f.write_str("ul"),
            EdnsCode::NSID => f.write_str("nsid"),
            EdnsCode::DAU => f.write_str("dau"),
            EdnsCode::DHU => f.write_str("dhu"),
            EdnsCode::N3U => f.write_str("n3u"),
            EdnsCode::Subnet => f.write_str("ecs"),
            EdnsCode::Expire => f.write_str("expire"),
            EdnsCode::Cookie => f.write_str("cookie"),
            EdnsCode::Keepalive => f.write_str("keepalive"),
            EdnsCode::Padding => f.write_str("padding"),
            EdnsCode::Chain => f.write_str("chain"),
            EdnsCode::Unknown(number) => write!(f, "option{number}"),
        }
    }
}

/// Octets in hexadecimal digits, in lower case.
#[derive(Clone, Copy)]
struct HexDigits<'a>(&'a [u8]);

impl fmt::Display for HexDigits<'_> {
    ghost output = { λ x. Some (hex_text x.0.now) };

    fn fmt<W: fmt::Write>(&self, f: &mut fmt::Formatter<W>) -> fmt::Result {
        let octets = self.0;
        for octet in octets {
            let high = *octet / 16;
            let low = *octet % 16;
            write!(f, "{high:x}{low:x}")?;
        }
        Ok(())
    }
}

/// What an option holds.
#[derive(Clone, Copy)]
struct Content<'a>(&'a EdnsOption);

impl fmt::Display for Content<'_> {
    ghost output = { λ x. Some (content_text x.0.now) };

    fn fmt<W: fmt::Write>(&self, f: &mut fmt::Formatter<W>) -> fmt::Result {
        match self.0 {
            EdnsOption::Subnet(subnet) => {
                let address = subnet.address;
                write!(
                    f,
                    "{address}/{}/{}",
                    subnet.source_prefix, subnet.scope_prefix
                )
            }
            EdnsOption::NSID(payload) => f.write(HexDigits(payload.as_ref())),
            EdnsOption::Unknown(_, octets) => f.write(HexDigits(octets.as_slice())),
        }
    }
}

/// An option with its code.
#[derive(Clone, Copy)]
struct Pair<'a>(&'a (EdnsCode, EdnsOption));

impl fmt::Display for Pair<'_> {
    ghost output = { λ p. Some (pair_text p.0.now) };

    fn fmt<W: fmt::Write>(&self, f: &mut fmt::Formatter<W>) -> fmt::Result {
        let name = CodeName(self.0.0);
        let content = Content(&self.0.1);
        write!(f, "{name}={content}")
    }
}

/// Options, a blank before each.
#[derive(Clone, Copy)]
struct Further<'a>(&'a [(EdnsCode, EdnsOption)]);

impl fmt::Display for Further<'_> {
    ghost output = { λ x. Some (flat_map further_text x.0.now) };

    fn fmt<W: fmt::Write>(&self, f: &mut fmt::Formatter<W>) -> fmt::Result {
        let pairs = self.0;
        for pair in pairs {
            let pair = Pair(pair);
            write!(f, " {pair}")?;
        }
        Ok(())
    }
}

impl fmt::Display for OPT {
    ghost output = { λ x. Some (opt_text x) };

    /// The options in their order, with one blank between two, for people: `nsid=6e7331 ecs=192.0.2.0/24/0 cookie=`.
    /// There is no text without options. Allocates nothing.
    ///
    /// An option is its name, `=` and what it holds:
    ///
    /// - The name is that of IANA's registry "DNS EDNS0 Option Codes (OPT)" in lower case, with `ecs` for a client subnet
    ///   and `keepalive` for edns-tcp-keepalive. A code that is not in [`EdnsCode`] is `option` and the number:
    ///   `option65001=00ff`.
    /// - A client subnet is the address, the source prefix and the scope prefix, with a `/` between two of them. Any other
    ///   option is its octets in hexadecimal digits, in lower case; without octets nothing follows the `=`.
    ///
    /// An OPT record is in no zone file. So an `RData` with options does not print: its `fmt` returns
    /// [`Error`](fmt::Error).
    fn fmt<W: fmt::Write>(&self, f: &mut fmt::Formatter<W>) -> fmt::Result {
        let Some((first, others)) = self.as_ref().split_first() else {
            return Ok(());
        };
        let first = Pair(first);
        let others = Further(others);
        write!(f, "{first}{others}")
    }
}
