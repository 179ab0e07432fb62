//! The command `parse`: record data from a text.

ghost use Rattle.std.specs.Prelude.{◌≡◌, ◌≢◌, ◌⊎◌, [], ◌∷◌, codes, IfOk, IfErr, MatchOption};
ghost use Rattle.std.specs.Io.KnownBytes.{Appends};
ghost use Rattle.rdata_command.specs.Request.{texts};
ghost use Rattle.rdata_command.specs.Parsing.{NotParse, AsksText, NoTextRequest, PrintedText, NoDataText};
ghost use Rattle.dns_rdata.specs.DataTokens.{IsDataText};

use crate::report::{lines, reject, say};
use crate::request::record_type;
use dns_rdata::{ParseError, RData, RecordType};
use held_data::Held;
use std::alloc::Global;
use std::io;

// The two words after the command `parse`.
fn parse_words(words: &[String]) -> Option<(&str, &str)>
    ensures { MatchOption result (NotParse (texts words.now))
        (λ w. texts words.now ≡ codes "parse" ∷ w.0.now ∷ w.1.now ∷ []) }
{
    let [command, record_type, text] = words else {
        return None;
    };
    if command.as_str() != "parse" {
        return None;
    }
    Some((record_type.as_str(), text.as_str()))
}

/// Reads the type and the text from the arguments.
pub fn text_request(words: &[String]) -> Option<(RecordType, &str)>
    ensures { MatchOption result (NoTextRequest (texts words.now)) (λ r. AsksText (texts words.now) r.0 r.1.now) }
{
    let Some((type_word, text)) = parse_words(words) else {
        return None;
    };
    let Some(record_type) = record_type(type_word) else {
        return None;
    };
    Some((record_type, text))
}

/// Reads the RDATA of a text, and holds it.
pub fn parsed(alloc: Global, record_type: RecordType, text: &str) -> Result<Held, ParseError>
    ensures found { IfOk result (λ v. IsDataText record_type text.now v.0) }
    ensures refused { IfErr result (λ e. e ≢ ParseError.Memory → NoDataText record_type text.now) }
{
    Ok(Held(RData::try_from_str(alloc, record_type, text)?))
}

/// Reads the text, writes the result, and returns the status: 0 with four lines if the text is of a value of the type,
/// 1 if it is of none, 3 if an allocation fails, 4 if writing fails.
pub fn serve_text<W: io::Write>(
    alloc: Global,
    record_type: RecordType,
    text: &str,
    out: &mut W,
) -> u8
    ensures status { (result ≡ 0) ⊎ (result ≡ 1) ⊎ (result ≡ 3) ⊎ (result ≡ 4) }
    ensures printed { result ≡ 0 → PrintedText record_type text.now (W.contents out.old) (W.contents out.new) }
    ensures refused { result ≡ 1 → NoDataText record_type text.now
        × Appends (W.contents out.old) (W.contents out.new) (codes "refused\n") }
    ensures memory { result ≡ 3 → Appends (W.contents out.old) (W.contents out.new) (codes "memory\n") }
{
    match parsed(alloc, record_type, text) {
        Err(ParseError::Memory) => say(out, "memory\n", 3),
        Err(_) => reject(out),
        Ok(value) => match lines(alloc, record_type, &value.0) {
            Err(_) => say(out, "memory\n", 3),
            Ok(text) => say(out, text.as_str(), 0),
        },
    }
}
