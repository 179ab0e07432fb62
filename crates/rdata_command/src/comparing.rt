//! The command `cmp`: the order of two records' data.

ghost use Rattle.std.specs.Prelude.{◌≡◌, ◌⊎◌, ◌<◌, [], ◌∷◌, codes, length as size, IfOk, IfErr, MatchOption};
ghost use Rattle.dns_names_wire.specs.Terms.{UnlessMemory};
ghost use Rattle.std.specs.Io.KnownBytes.{Appends};
ghost use Rattle.rdata_command.specs.Request.{texts};
ghost use Rattle.rdata_command.specs.Comparing.{NotCompare, AsksOrder, NoOrderRequest, HasOrder, PrintedOrder, NoOrder, order_line};

use crate::report::{read_at, reject, say};
use crate::request::{octets, record_type};
use dns_rdata::{DecodeError, RecordType};
use std::alloc::{AllocError, Global};
use std::cmp::Ordering;
use std::io;

/// The RDATA of two records of one type, each a whole message.
#[derive(Drop)]
pub struct Pair {
    /// The type of both records.
    pub record_type: RecordType,
    /// The RDATA of the first record.
    pub left: Vec<u8>,
    /// The RDATA of the second record.
    pub right: Vec<u8>,
}

// The three words after the command `cmp`.
fn order_words(words: &[String]) -> Option<(&str, &str, &str)>
    ensures { MatchOption result (NotCompare (texts words.now))
        (λ w. texts words.now ≡ codes "cmp" ∷ w.0.now ∷ w.1.now ∷ w.2.now ∷ []) }
{
    let [command, record_type, left, right] = words else {
        return None;
    };
    if command.as_str() != "cmp" {
        return None;
    }
    Some((record_type.as_str(), left.as_str(), right.as_str()))
}

/// Reads the request from the arguments. Fails only if an allocation fails.
pub fn order_request(alloc: Global, words: &[String]) -> Result<Option<Pair>, AllocError>
    ensures { IfOk result (λ found. MatchOption found (NoOrderRequest (texts words.now))
        (λ r. AsksOrder (texts words.now) r.record_type r.left.items r.right.items)) }
{
    let Some((type_word, left_word, right_word)) = order_words(words) else {
        return Ok(None);
    };
    let Some(record_type) = record_type(type_word) else {
        return Ok(None);
    };
    let Some(left) = octets(alloc, left_word)? else {
        return Ok(None);
    };
    let Some(right) = octets(alloc, right_word)? else {
        return Ok(None);
    };
    if left.len() > 65535 || right.len() > 65535 {
        return Ok(None);
    }
    Ok(Some(Pair {
        record_type,
        left,
        right,
    }))
}

// The line that tells an order.
fn order_text(order: Ordering) -> &'static str
    ensures { result.now ≡ order_line order }
{
    match order {
        Ordering::Less => "less\n",
        Ordering::Equal => "equal\n",
        Ordering::Greater => "greater\n",
    }
}

/// Returns the order of the values, of which the left one is read first.
pub fn order_of(alloc: Global, pair: &Pair) -> Result<Ordering, DecodeError>
    requires left { size pair.now.left.items < 65536 }
    requires right { size pair.now.right.items < 65536 }
    ensures found { IfOk result (λ o. HasOrder pair.now.record_type pair.now.left.items pair.now.right.items o) }
    ensures refused { IfErr result (λ e. UnlessMemory e (NoOrder pair.now.record_type pair.now.left.items pair.now.right.items)) }
{
    let (left, right) = (pair.left.as_slice(), pair.right.as_slice());
    let value = read_at(alloc, left, 0, pair.record_type, left.len() as u16)?;
    let other = read_at(alloc, right, 0, pair.record_type, right.len() as u16)?;
    Ok(value.0.cmp(&other.0))
}

/// Reads both, the left one first, writes their order, and returns the status: 0 if both are RDATA of the type, 1 if
/// one is not, 3 if an allocation fails, 4 if writing fails.
pub fn serve_order<W: io::Write>(alloc: Global, pair: &Pair, out: &mut W) -> u8
    requires left { size pair.now.left.items < 65536 }
    requires right { size pair.now.right.items < 65536 }
    ensures status { (result ≡ 0) ⊎ (result ≡ 1) ⊎ (result ≡ 3) ⊎ (result ≡ 4) }
    ensures printed { result ≡ 0 → PrintedOrder pair.now.record_type pair.now.left.items pair.now.right.items (W.contents out.old) (W.contents out.new) }
    ensures refused { result ≡ 1 → NoOrder pair.now.record_type pair.now.left.items pair.now.right.items
        × Appends (W.contents out.old) (W.contents out.new) (codes "refused\n") }
    ensures memory { result ≡ 3 → Appends (W.contents out.old) (W.contents out.new) (codes "memory\n") }
{
    match order_of(alloc, pair) {
        Err(DecodeError::Memory) => say(out, "memory\n", 3),
        Err(_) => reject(out),
        Ok(order) => say(out, order_text(order), 0),
    }
}
