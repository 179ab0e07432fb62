//! Names appended to a message, with a compression pointer for a suffix that the message already has.

ghost use Rattle.std.specs.Prelude.{◌≡◌, ◌≢◌, ℕ, ◌+◌, ◌++◌, ◌<◌, ◌≤◌, Bool, [], ◌∷◌, None, Err, length, IfOk, OnOk, OnErr};
ghost use Rattle.dns_fields.specs.{Octets.AreOctets, Names.NameWrote, Names.pointer};
ghost use Rattle.dns_labels.specs.{Messages.StaysInVector, Labels.AreNameOctets, Labels.name_of, Reading.stop_octets, Emission.IsNameCut, Emission.StandsFor};

use crate::error::WriteError;
use crate::hashes::name_hash;
use crate::message::MessageOctets;
use crate::name_offsets::NameOffsets;
use dns_fields::RDataEncoding;
use std::alloc::AllocError;

/// How a name is noted.
#[derive(Clone, Copy)]
enum Note {
    /// Not at all: it is at an earlier offset that was noted, and so are its suffixes, and the least offset is used.
    Nothing,
    /// As the first one, which waits until another is sought.
    First,
    /// With this hash.
    Hash(u64),
}

/// How many of a name's octets are written, where the message already has the rest, and how the name is noted.
#[derive(Clone, Copy)]
struct Cut {
    written: usize,
    target: Option<usize>,
    note: Note,
}

/// Decides where a name is cut: only `StandardRecord` omits a suffix. Fails only if an allocation to note the first
/// name fails.
#[inline]
#[tactic(auto, using(crate::proofs::CutSteps::cut_whole))]
fn cut_for(
    name_offsets: &mut NameOffsets,
    mode: RDataEncoding,
    message: &[u8],
    name: &[u8],
) -> Result<Cut, AllocError>
    requires { AreNameOctets name.now }
    ensures cut { IfOk result (λ c. IsNameCut message.now name.now c.written c.target) }
    ensures whole { mode ≢ RDataEncoding.StandardRecord → IfOk result (λ c. (c.written ≡ length name.now) × (c.target ≡ None)) }
{
    if name_offsets.is_empty() {
        return Ok(Cut {
            written: name.len(),
            target: None,
            note: Note::First,
        });
    }
    name_offsets.note_deferred(message)?;
    let hash = name_hash(name);
    match mode {
        RDataEncoding::StandardRecord => {
            let (written, target) = name_offsets.longest_tail(message, name, hash);
            Ok(Cut {
                written,
                target,
                note: Note::Hash(hash),
            })
        }
        RDataEncoding::Canonical | RDataEncoding::Other => {
            let note = if name_offsets.stands(message, name, hash) {
                Note::Nothing
            } else {
                Note::Hash(hash)
            };
            Ok(Cut {
                written: name.len(),
                target: None,
                note,
            })
        }
    }
}

/// Returns how many octets end the labels: one, or a pointer's two.
fn stop_len(target: Option<usize>) -> usize
    ensures { result ≡ length (stop_octets target) }
{
    match target {
        None => 1,
        Some(_) => 2,
    }
}

/// Appends octets. Most often there are none, since the message already has all of a name.
#[inline]
fn append_front(out: &mut MessageOctets<'_>, front: &[u8]) -> Result<(), AllocError>
    ensures items { OnOk result (out.new.items ≡ out.old.items ++ front.now) }
    ensures err { OnErr result (out.new.items ≡ out.old.items) }
    ensures stays { StaysInVector out.old out.new }
    ensures capacity { out.old.capacity ≤ out.new.capacity }
    ensures full { OnErr result (out.old.capacity < length out.old.before + length out.old.items + length front.now) }
{
    if front.len() == 0 {
        return Ok(());
    }
    out.extend_from_slice(front)?;
    Ok(())
}

/// Appends a name's octets, and notes where.
///
/// It is written as labels, each a length octet and its octets, and a 0 (RFC 1035, section 3.1). In the mode
/// `StandardRecord` the longest non-empty suffix that was noted with the same octets at an offset below 16384 is
/// replaced by a compression pointer to the least such offset (section 4.1.4); only if dozens of names were chosen to
/// share one hash, a suffix may be written again. Returns [`Buffer`](WriteError::Buffer) if what is to be written
/// passes the limit, and the uncompressed name does so too. After an error the octets are unchanged.
#[inline(never)]
pub fn write_name(
    name_offsets: &mut NameOffsets,
    out: &mut MessageOctets<'_>,
    mode: RDataEncoding,
    limit: usize,
    name: &[u8],
) -> Result<(), WriteError>
    requires { AreNameOctets name.now }
    ensures ok { OnOk result ((mark : Bool) → NameWrote mode out.old.items (name_of name.now mark) out.new.items) }
    ensures within { OnOk result (length out.new.items ≤ limit) }
    ensures stays { StaysInVector out.old out.new }
    ensures octets { AreOctets out.new.items }
    ensures err { OnErr result (out.new.items ≡ out.old.items) }
    ensures full { result ≡ Err WriteError.Buffer → limit < length out.old.items + (length name.now + 1) }
{
    match name_offsets.stands_recently(out.as_slice(), name) {
        Some(offset) => write_again(out, mode, limit, name, offset),
        None => write_new(name_offsets, out, mode, limit, name),
    }
}

/// Does the same for a name that is at this offset, which was noted as were its suffixes. The least offset is used, so
/// nothing is noted.
#[inline]
#[tactic(auto, using(crate::proofs::Wrote::pointer_wrote))]
fn write_again(
    out: &mut MessageOctets<'_>,
    mode: RDataEncoding,
    limit: usize,
    name: &[u8],
    offset: usize,
) -> Result<(), WriteError>
    requires name { AreNameOctets name.now }
    requires some { 0 < length name.now }
    requires offset { offset < 16384 }
    requires stands { StandsFor out.old.items offset name.now }
    ensures ok { OnOk result ((mark : Bool) → NameWrote mode out.old.items (name_of name.now mark) out.new.items) }
    ensures within { OnOk result (length out.new.items ≤ limit) }
    ensures stays { StaysInVector out.old out.new }
    ensures octets { AreOctets out.new.items }
    ensures err { OnErr result (out.new.items ≡ out.old.items) }
    ensures full { result ≡ Err WriteError.Buffer → limit < length out.old.items + (length name.now + 1) }
{
    match mode {
        RDataEncoding::StandardRecord => {
            if out.len() + 2 > limit {
                return Err(WriteError::Buffer);
            }
            out.extend_from_slice(&[(192 + offset / 256) as u8, (offset % 256) as u8])?;
            Ok(())
        }
        RDataEncoding::Canonical | RDataEncoding::Other => {
            let len = name.len() + 1;
            if out.len() + len > limit {
                return Err(WriteError::Buffer);
            }
            out.reserve(len)?;
            out.extend_from_slice(name)?;
            out.extend_from_slice(&[0])?;
            Ok(())
        }
    }
}

/// Does the same as `write_name` for a name that is at neither of the two offsets that are tried first.
#[inline(never)]
#[tactic(auto, using(crate::proofs::Wrote::cut_wrote))]
fn write_new(
    name_offsets: &mut NameOffsets,
    out: &mut MessageOctets<'_>,
    mode: RDataEncoding,
    limit: usize,
    name: &[u8],
) -> Result<(), WriteError>
    requires { AreNameOctets name.now }
    ensures ok { OnOk result ((mark : Bool) → NameWrote mode out.old.items (name_of name.now mark) out.new.items) }
    ensures within { OnOk result (length out.new.items ≤ limit) }
    ensures stays { StaysInVector out.old out.new }
    ensures octets { AreOctets out.new.items }
    ensures err { OnErr result (out.new.items ≡ out.old.items) }
    ensures full { result ≡ Err WriteError.Buffer → limit < length out.old.items + (length name.now + 1) }
{
    let start = out.len();
    let cut = cut_for(name_offsets, mode, out.as_slice(), name)?;
    let front = &name[..cut.written];
    let len = front.len() + stop_len(cut.target);
    if start > limit || limit - start < len {
        return Err(WriteError::Buffer);
    }
    out.reserve(len)?;
    match cut.note {
        Note::Nothing => {}
        Note::First => name_offsets.defer(start, cut.written),
        Note::Hash(hash) => name_offsets.note(start, name, cut.written, hash)?,
    }
    append_front(out, front)?;
    match cut.target {
        None => out.extend_from_slice(&[0])?,
        Some(offset) => {
            out.extend_from_slice(&[(192 + offset / 256) as u8, (offset % 256) as u8])?
        }
    }
    Ok(())
}
