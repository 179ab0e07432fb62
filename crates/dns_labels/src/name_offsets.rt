//! Where names were written in a message.

ghost use Rattle.std.specs.Prelude.{◌≡◌, ℕ, List, ◌+◌, ◌/◌, ◌<◌, ◌≤◌, length, IfSome};
ghost use Rattle.std.specs.Bool.{OnTrue};
ghost use Rattle.dns_fields.specs.Labels.{AreLabels, wire};
ghost use Rattle.dns_labels.specs.{Labels.AreNameOctets, Emission.StandsFor, Emission.IsNameCut};

use crate::hashes::{bucket_of, label_hash, name_hash, short_hash};
use crate::matching::{stands_at, stands_in_two, stands_whole};
use smallvec::SmallVec;
use std::alloc::{AllocError, Global};

/// A compression pointer has 14 bits for an offset (RFC 1035, section 4.1.4).
const OFFSET_LIMIT: usize = 16384;

// No entry, and no offset.
const NONE: u16 = 65535;

// Up to so many entries are one chain, and have no buckets.
const FEW: usize = 16;

// At most so many entries of a chain are looked at. Only names that were chosen for it make a longer chain.
const TRIES: usize = 64;

/// An offset where a label begins, a hash of the name's octets from there on, and the next entry of its
/// bucket.
#[derive(Clone, Copy, Default)]
struct Entry {
    hash: u32,
    offset: u16,
    next: u16,
}

/// The first and the last entry of a bucket.
#[derive(Clone, Copy)]
struct Bucket {
    first: u16,
    last: u16,
}

/// The offset of a name, and how many of its octets are there: all, or some that a pointer follows; 0 if that is not
/// known.
#[derive(Clone, Copy)]
struct NotedName {
    offset: u16,
    front: u16,
}

const NOWHERE: NotedName = NotedName {
    offset: NONE,
    front: 0,
};

impl NotedName {
    // Whether the message has the name of these octets, which are labels, at the offset.
    #[inline]
    fn has(self, message: &[u8], octets: &[u8]) -> bool
        requires short { length octets.now ≤ 254 }
        requires labels { (labels : List (List ℕ)) × AreLabels labels × (octets.now ≡ wire labels) }
        ensures offset { OnTrue result (self.offset < 16384) }
        ensures stands { OnTrue result (StandsFor message.now self.offset octets.now) }
    {
        let offset = self.offset as usize;
        let front = self.front as usize;
        if offset >= OFFSET_LIMIT {
            return false;
        }
        if front == octets.len() {
            return stands_whole(message, offset, octets);
        }
        if !begins_alike(message, offset, octets) {
            return false;
        }
        if stands_in_two(message, offset, octets, front) {
            return true;
        }
        stands_at(message, offset, octets)
    }
}

// Whether the label at the offset has the length and the last octet of the first label. Names of one zone that follow
// one another mostly differ in one of these.
#[inline]
fn begins_alike(message: &[u8], offset: usize, octets: &[u8]) -> bool {
    if octets.len() == 0 || offset >= message.len() || message[offset] != octets[0] {
        return false;
    }
    let last = octets[0] as usize;
    last < octets.len() && last < message.len() - offset && message[offset + last] == octets[last]
}

/// The offsets below 16384 where labels of written names begin, from the least to the greatest.
///
/// They are hints: an offset is used only if the octets there are the name's.
#[derive(Drop)]
pub struct NameOffsets {
    // The first eight entries are in the value itself.
    entries: SmallVec<Entry, 8>,
    // There are no buckets while the entries are few.
    buckets: Vec<Bucket>,
    // The names that were noted or found last and before that. The next name is often one of these. At first there are
    // none.
    recent: NotedName,
    earlier: NotedName,
    // The offset of the message's first name and how many octets it has; 0 octets once it is noted. It is noted only
    // when another name is sought, since many a message has no other.
    deferred: u16,
    deferred_len: u16,
}

impl NameOffsets {
    /// Makes an empty list. Allocates nothing.
    pub fn new(alloc: Global) -> Self {
        NameOffsets {
            entries: SmallVec::new(alloc),
            buckets: Vec::new(alloc),
            recent: NOWHERE,
            earlier: NOWHERE,
            deferred: 0,
            deferred_len: 0,
        }
    }

    /// Returns whether no name is noted, and none is deferred.
    #[inline]
    pub(crate) fn is_empty(&self) -> bool {
        self.entries.len() == 0 && self.deferred_len == 0
    }

    #[inline]
    fn remember(&mut self, noted: NotedName) {
        self.earlier = self.recent;
        self.recent = noted;
    }

    /// Returns the offset of one of the two names that were noted or found last, if the octets are there. Records often
    /// have the names of the record before them.
    #[inline]
    pub(crate) fn stands_recently(&self, message: &[u8], octets: &[u8]) -> Option<usize>
        requires short { length octets.now ≤ 254 }
        requires labels { (labels : List (List ℕ)) × AreLabels labels × (octets.now ≡ wire labels) }
        ensures offset { IfSome result (λ q. (q < 16384) × StandsFor message.now q octets.now) }
        ensures some { IfSome result (λ _. 0 < length octets.now) }
    {
        let offset = self.recent.offset as usize;
        if octets.len() == 0 || offset >= OFFSET_LIMIT {
            return None;
        }
        // The last name is compared without a call if it is uncompressed.
        if self.recent.front as usize == octets.len() && stands_whole(message, offset, octets) {
            return Some(offset);
        }
        self.stands_in_part(message, octets)
    }

    // The offset of the last name, if a compression pointer follows some of its labels, or of the name before it; in
    // both cases if the octets are there.
    #[inline(never)]
    fn stands_in_part(&self, message: &[u8], octets: &[u8]) -> Option<usize>
        requires short { length octets.now ≤ 254 }
        requires labels { (labels : List (List ℕ)) × AreLabels labels × (octets.now ≡ wire labels) }
        ensures { IfSome result (λ q. (q < 16384) × StandsFor message.now q octets.now) }
    {
        if self.recent.front as usize != octets.len() && self.recent.has(message, octets) {
            return Some(self.recent.offset as usize);
        }
        if self.earlier.has(message, octets) {
            return Some(self.earlier.offset as usize);
        }
        None
    }

    /// Returns the entry with which a search for this hash begins.
    fn first(&self, hash: u32) -> usize {
        let count = self.buckets.len();
        if count == 0 {
            return 0;
        }
        self.buckets[bucket_of(hash, count)].first as usize
    }

    /// Returns the least of the offsets looked at where the octets are a name.
    #[inline]
    fn find(&self, message: &[u8], octets: &[u8], hash: u32) -> Option<NotedName>
        requires short { length octets.now ≤ 254 }
        requires labels { (labels : List (List ℕ)) × AreLabels labels × (octets.now ≡ wire labels) }
        ensures { IfSome result (λ q. (q.offset < 16384) × StandsFor message.now q.offset octets.now) }
    {
        let mut at = self.first(hash);
        let entries = self.entries.as_slice();
        for _ in 0..TRIES {
            if at >= entries.len() {
                return None;
            }
            let entry = entries[at];
            let offset = entry.offset as usize;
            if entry.hash == hash && offset < OFFSET_LIMIT {
                if stands_whole(message, offset, octets) {
                    return Some(NotedName {
                        offset: entry.offset,
                        front: octets.len() as u16,
                    });
                }
                if stands_at(message, offset, octets) {
                    return Some(NotedName {
                        offset: entry.offset,
                        front: 0,
                    });
                }
            }
            at = entry.next as usize;
        }
        None
    }

    /// Returns where the longest suffix of a name begins that the message already has, and its offset there.
    #[inline]
    #[tactic(auto, using(crate::proofs::CutSteps::cut_whole, crate::proofs::CutSteps::whole_found))]
    pub(crate) fn longest_tail(
        &mut self,
        message: &[u8],
        octets: &[u8],
        hash: u64,
    ) -> (usize, Option<usize>)
        requires { AreNameOctets octets.now }
        ensures { IsNameCut message.now octets.now result.0 result.1 }
    {
        // Most often the message has the whole name already, or nothing of it.
        if self.entries.len() > 0 && octets.len() > 0 {
            if let Some(target) = self.find(message, octets, short_hash(hash)) {
                self.remember(target);
                return (0, Some(target.offset as usize));
            }
            return self.shorter_tail(message, octets, hash);
        }
        (octets.len(), None)
    }

    // Where the longest suffix after the first label begins that the message already has, and its offset there.
    #[inline(never)]
    #[tactic(auto, using(crate::proofs::CutSteps::cut_none, crate::proofs::CutSteps::cut_more))]
    fn shorter_tail(&self, message: &[u8], octets: &[u8], hash: u64) -> (usize, Option<usize>)
        requires { AreNameOctets octets.now }
        ensures { IsNameCut message.now octets.now result.0 result.1 }
    {
        let mut hash = hash;
        let mut cut = 0usize;
        'labels: while cut < octets.len() {
            if cut > 0 {
                if let Some(target) = self.find(message, &octets[cut..], short_hash(hash)) {
                    return (cut, Some(target.offset as usize));
                }
            }
            let count = octets[cut] as usize + 1;
            hash = hash.wrapping_sub(label_hash(octets, cut, cut + count));
            cut += count;
        }
        (cut, None)
    }

    /// Remembers where the first name was written, without a hash. `note_deferred` notes it later.
    #[inline]
    pub(crate) fn defer(&mut self, start: usize, written: usize) {
        if start < OFFSET_LIMIT && written > 0 && written < 256 {
            self.remember(NotedName {
                offset: start as u16,
                front: written as u16,
            });
            self.deferred = start as u16;
            self.deferred_len = written as u16;
        }
    }

    /// Notes the first name, if that was deferred, so that it is found.
    #[inline]
    pub(crate) fn note_deferred(&mut self, message: &[u8]) -> Result<(), AllocError> {
        if self.deferred_len > 0 {
            self.note_first(message)?;
        }
        Ok(())
    }

    #[inline(never)]
    fn note_first(&mut self, message: &[u8]) -> Result<(), AllocError> {
        let (start, len) = (self.deferred as usize, self.deferred_len as usize);
        self.deferred_len = 0;
        if start < message.len() && len <= message.len() - start {
            let name = &message[start..start + len];
            self.note_labels(start, name, len, name_hash(name))?;
        }
        Ok(())
    }

    /// Notes the labels that were written from an offset on: the first octets of the name of this hash.
    pub(crate) fn note(
        &mut self,
        start: usize,
        name: &[u8],
        written: usize,
        hash: u64,
    ) -> Result<(), AllocError>
        requires { written ≤ length name.now }
    {
        if written > 0 && written < 256 && start < OFFSET_LIMIT {
            self.remember(NotedName {
                offset: start as u16,
                front: written as u16,
            });
        }
        self.note_labels(start, name, written, hash)
    }

    fn note_labels(
        &mut self,
        start: usize,
        name: &[u8],
        written: usize,
        hash: u64,
    ) -> Result<(), AllocError>
        requires { written ≤ length name.now }
    {
        let mut hash = hash;
        let mut at = 0usize;
        'labels: while at < written {
            if at >= OFFSET_LIMIT || start >= OFFSET_LIMIT - at {
                return Ok(());
            }
            self.push((start + at) as u16, short_hash(hash))?;
            let end = written.min(at + name[at] as usize + 1);
            // After the last label no hash is needed.
            if end >= written {
                return Ok(());
            }
            hash = hash.wrapping_sub(label_hash(name, at, end));
            at = end;
        }
        Ok(())
    }

    /// Returns whether the name with this hash is at an offset that was noted.
    pub(crate) fn stands(&mut self, message: &[u8], name: &[u8], hash: u64) -> bool
        requires { AreNameOctets name.now }
    {
        match self.find(message, name, short_hash(hash)) {
            Some(noted) => {
                self.remember(noted);
                true
            }
            None => false,
        }
    }

    /// Appends an offset.
    fn push(&mut self, offset: u16, hash: u32) -> Result<(), AllocError> {
        let count = self.entries.len();
        if count >= NONE as usize {
            return Ok(());
        }
        if count >= FEW && count >= self.buckets.len() {
            self.grow(count)?;
        }
        let next = if self.buckets.len() == 0 {
            count as u16 + 1
        } else {
            NONE
        };
        self.entries.push(Entry { hash, offset, next })?;
        self.link(count);
        Ok(())
    }

    /// Makes twice as many buckets as there are entries, and links the entries.
    fn grow(&mut self, count: usize) -> Result<(), AllocError>
        requires { count < 65535 }
    {
        let empty = Bucket {
            first: NONE,
            last: NONE,
        };
        self.buckets.resize(2 * count, empty)?;
        for bucket in self.buckets.as_mut_slice() {
            *bucket = empty;
        }
        for at in 0..count {
            self.link(at);
        }
        Ok(())
    }

    /// Puts an entry at the end of its bucket, if there are buckets.
    fn link(&mut self, at: usize) {
        let count = self.buckets.len();
        let entries = self.entries.as_mut_slice();
        if count == 0 || at >= entries.len() || at >= NONE as usize {
            return;
        }
        entries[at].next = NONE;
        let hash = entries[at].hash;
        let bucket = &mut self.buckets[bucket_of(hash, count)];
        let last = bucket.last as usize;
        bucket.last = at as u16;
        if bucket.first == NONE {
            bucket.first = at as u16;
        } else if last < entries.len() {
            entries[last].next = at as u16;
        }
    }
}
