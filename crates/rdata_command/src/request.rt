//! What the words of a command ask for.

ghost use Rattle.std.specs.Prelude.{◌≡◌, ◌<◌, ◌≤◌, ℕ, List, [], ◌∷◌, codes, vec_len, IfOk, MatchOption};
ghost use Rattle.rdata_command.specs.Request.{texts, IsDecimalWord, IsTypeWord, IsOctetsWord, NotRead, Asks, NoRequest};

use dns_rdata::RecordType;
use hex::FromHexError;
use std::alloc::{AllocError, Global};

/// RDATA in a message.
#[derive(Drop)]
pub struct Request {
    /// The type of the record.
    pub record_type: RecordType,
    /// The message.
    pub message: Vec<u8>,
    /// The offset of the RDATA in the message.
    pub offset: usize,
    /// RDLENGTH.
    pub length: u16,
}

// The number that one to five decimal digits are.
fn number(word: &str) -> Option<u32>
    ensures { MatchOption result ((n : ℕ) → ¬ (IsDecimalWord word.now n)) (λ n. IsDecimalWord word.now n) }
{
    if word.len() > 5 || word.starts_with('+') {
        return None;
    }
    word.parse::<u32>().ok()
}

// The number of sixteen bits that one to five decimal digits are.
fn short_number(word: &str) -> Option<u16>
    ensures { MatchOption result ((n : ℕ) → IsDecimalWord word.now n → n < 65536 → ⊥) (λ n. IsDecimalWord word.now n) }
{
    u16::try_from(number(word)?).ok()
}

/// Returns the type that an argument names, or whose number it is.
pub fn record_type(word: &str) -> Option<RecordType>
    ensures { MatchOption result ((t : _) → ¬ (IsTypeWord word.now t)) (λ t. IsTypeWord word.now t) }
{
    match short_number(word) {
        Some(number) => Some(RecordType::from(number)),
        None => word.parse::<RecordType>().ok(),
    }
}

/// Reads octets in hexadecimal. Fails only if an allocation fails.
pub fn octets(alloc: Global, word: &str) -> Result<Option<Vec<u8>>, AllocError>
    ensures { IfOk result (λ found. MatchOption found ((m : List ℕ) → ¬ (IsOctetsWord word.now m)) (λ octets. IsOctetsWord word.now octets.items)) }
{
    if word == "-" {
        return Ok(Some(Vec::new(alloc)));
    }
    if word.len() == 0 {
        return Ok(None);
    }
    match hex::decode(alloc, word) {
        Ok(octets) => Ok(Some(octets)),
        Err(FromHexError::OutOfMemory) => Err(AllocError),
        Err(_) => Ok(None),
    }
}

// The four words after the command `read`.
fn read_words(words: &[String]) -> Option<(&str, &str, &str, &str)>
    ensures { MatchOption result (NotRead (texts words.now))
        (λ w. texts words.now ≡ codes "read" ∷ w.0.now ∷ w.1.now ∷ w.2.now ∷ w.3.now ∷ []) }
{
    let [command, record_type, offset, length, octets] = words else {
        return None;
    };
    if command.as_str() != "read" {
        return None;
    }
    Some((
        record_type.as_str(),
        offset.as_str(),
        length.as_str(),
        octets.as_str(),
    ))
}

/// Reads the request from the arguments, all of them before any RDATA. Fails only if an allocation fails.
pub fn parse(alloc: Global, words: &[String]) -> Result<Option<Request>, AllocError>
    ensures { IfOk result (λ found. MatchOption found (NoRequest (texts words.now))
        (λ r. Asks (texts words.now) r.record_type r.offset r.length r.message.items)) }
{
    let Some((type_word, offset_word, length_word, octets_word)) = read_words(words) else {
        return Ok(None);
    };
    let Some(record_type) = record_type(type_word) else {
        return Ok(None);
    };
    let Some(offset) = number(offset_word) else {
        return Ok(None);
    };
    let Some(length) = short_number(length_word) else {
        return Ok(None);
    };
    let Some(message) = octets(alloc, octets_word)? else {
        return Ok(None);
    };
    let offset = offset as usize;
    if offset > message.len() {
        return Ok(None);
    }
    Ok(Some(Request {
        record_type,
        message,
        offset,
        length,
    }))
}
