//! Why a text cannot be divided into tokens.

ghost use Rattle.std.specs.Prelude.{◌≡◌};
ghost use Rattle.dns_zone_tokens.specs.Errors.{Says, undivided_text};

use dns_types::ParseError;
use std::fmt;
use thiserror::Error;

/// Why the text of a zone file cannot be divided into tokens.
#[derive(Clone, Copy, Debug, PartialEq, Eq, Error)]
pub enum TokensError {
    /// A `(` is not closed.
    OpenParenthesis,
    /// A `)` closes nothing.
    NoParenthesis,
    /// A `"` is not closed.
    OpenQuotes,
    /// A line ends within quotes, without a `\` before its end.
    LineInQuotes,
    /// After the end of the line there is more than blanks, line ends and comments.
    FurtherLine,
}

impl TokensError {
    /// Returns the error as a text.
    pub fn text(self) -> &'static str
        ensures { result.now ≡ undivided_text self }
    {
        match self {
            TokensError::OpenParenthesis => "`(` without `)`",
            TokensError::NoParenthesis => "`)` without `(`",
            TokensError::OpenQuotes => "quotes without an end",
            TokensError::LineInQuotes => "line end within quotes",
            TokensError::FurtherLine => "more than one line",
        }
    }
}

impl fmt::Display for TokensError {
    fn fmt<W: fmt::Write>(&self, f: &mut fmt::Formatter<W>) -> fmt::Result {
        f.write_str(self.text())
    }
}

/// Makes a message of the same text.
impl From<TokensError> for ParseError {
    ghost from_gives = { λ why e. Says (undivided_text why) e };

    fn from(e: TokensError) -> ParseError {
        ParseError::Message(e.text())
    }
}
