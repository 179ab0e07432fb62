//! The commands of the program `rdata`.
#![tactic(auto)]

ghost use Rattle.std.specs.{Prelude.◌≡◌, Prelude.◌≤◌, Prelude.◌⊎◌, Prelude.codes, Io.KnownBytes.Appends};
ghost use Rattle.rdata_command.specs.{Request.texts, Request.NoRequest, Report.PrintsValue, Comparing.NoOrderRequest};
ghost use Rattle.rdata_command.specs.{Comparing.PrintsOrder, Parsing.NoTextRequest, Parsing.PrintsText, Reasons.Refuses};

mod comparing;
mod parsing;
mod reason;
mod report;
mod request;
mod terminal;

pub use reason::{explain, is_longer};
pub use report::say;
use std::alloc::Global;
use std::io;
pub use terminal::visible;

/// Does what the words ask for, writes the whole result to `out`, and returns the status.
///
/// - `read TYPE PLACE LENGTH OCTETS` reads RDATA: 0 and four lines if a value fills the octets, 1 and `refused` if not.
/// - `parse TYPE TEXT` reads RDATA from a text: 0 and four lines if the text is of a value, 1 and `refused` if not.
/// - `cmp TYPE OCTETS OCTETS` reads two whole messages of at most 65535 octets: 0 and `less`, `equal` or `greater`, the
///   order of the values; 1 and `refused` if one is no RDATA of the type.
/// - Other words: 2 and `usage`. If an allocation fails: 3 and `memory`. If writing to `out` fails: 4.
///
/// Why something is rejected is not written: [`explain`] tells.
pub fn run<W: io::Write>(alloc: Global, words: &[String], out: &mut W) -> u8
    ensures status { result ≤ 4 }
    ensures printed { result ≡ 0 → PrintsValue (texts words.now) (W.contents out.old) (W.contents out.new)
        ⊎ PrintsText (texts words.now) (W.contents out.old) (W.contents out.new)
        ⊎ PrintsOrder (texts words.now) (W.contents out.old) (W.contents out.new) }
    ensures refused { result ≡ 1 → Refuses (texts words.now) × Appends (W.contents out.old) (W.contents out.new) (codes "refused\n") }
    ensures usage { result ≡ 2 → NoRequest (texts words.now) × NoTextRequest (texts words.now) × NoOrderRequest (texts words.now)
        × Appends (W.contents out.old) (W.contents out.new) (codes "usage\n") }
    ensures memory { result ≡ 3 → Appends (W.contents out.old) (W.contents out.new) (codes "memory\n") }
{
    if let Some((record_type, text)) = parsing::text_request(words) {
        return parsing::serve_text(alloc, record_type, text, out);
    }
    match comparing::order_request(alloc, words) {
        Err(_) => return report::say(out, "memory\n", 3),
        Ok(Some(pair)) => return comparing::serve_order(alloc, &pair, out),
        Ok(None) => (),
    }
    match request::parse(alloc, words) {
        Err(_) => report::say(out, "memory\n", 3),
        Ok(None) => report::say(out, "usage\n", 2),
        Ok(Some(request)) => report::serve(alloc, &request, out),
    }
}
