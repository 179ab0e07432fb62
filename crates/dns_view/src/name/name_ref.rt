//! A name in a message (RFC 1035, 3.1 and 4.1.4).

ghost use Rattle.std.specs.Prelude.{◌≡◌, ◌+◌, ◌≤◌, ℕ, true, false, length, take, drop, IfOk, IfSome, IfNone};
ghost use Rattle.std.specs.{Cmp.Lexicographic.slice_cmp, Ordering.nat_cmp};
ghost use Rattle.dns_fields.specs.{Labels.DomainName, Labels.lowname, Names.IsNameIn};
ghost use Rattle.dns_labels.specs.Labels.{AreNameOctets, labels_of};
ghost use Rattle.dns_names_wire.specs.NameEnds.{IsNamed, NameEnds};
ghost use Rattle.dns_view.specs.{Putting.Put, Putting.name_form, LabelList.low_octets};

use crate::name::labels::Labels;
use crate::name::order::compare_names;
use crate::put::put_name;
use dns_labels::text::NameText;
use dns_names_wire::name_ends::skip_name;
use dns_names_wire::{BinDecoder, Name};
use std::alloc::{AllocError, Global};
use std::cmp::Ordering;
use std::fmt;
use std::hash::{Hash, Hasher};

// The most octets that a name has (RFC 1035, 3.1).
const NAME_OCTETS: usize = 255;

/// A name that is encoded at an offset of a message, perhaps with compression pointers. A copy is cheap.
///
/// Names are compared and hashed without ASCII case, by their uncompressed octets with A to Z lowercased. Nothing here
/// allocates but [`to_name`](NameRef::to_name).
#[derive(Clone, Copy)]
pub struct NameRef<'a> {
    pub(crate) message: &'a [u8],
    pub(crate) offset: usize,
    ghost inside: { offset ≤ length message.now },
    ghost named: { ∥ IsNamed message.now offset ∥₁ },
}

// Writes the canonical octets of a name at the front of a buffer, and returns how many they are.
fn lowered_octets(message: &[u8], offset: usize, out: &mut [u8; 255]) -> usize
    requires { offset ≤ length message.now }
    ensures lowered { (x : DomainName) (q : ℕ) → IsNameIn message.now offset x q → take result out.new ≡ lowname x }
    ensures few { result ≤ 255 }
{
    match put_name(message, offset, true, out, 0) {
        Some((_, count)) => count,
        None => 0,
    }
}

// The same of a name that is encoded there.
fn low_octets_of(message: &[u8], offset: usize, out: &mut [u8; 255]) -> usize
    requires inside { offset ≤ length message.now }
    requires named { ∥ IsNamed message.now offset ∥₁ }
    ensures octets { take result out.new ≡ low_octets message.now offset }
    ensures few { result ≤ 255 }
{
    lowered_octets(message, offset, out)
}

// Writes the labels of a name at the front of a buffer, each after its length, and returns how many octets they have.
fn plain_octets(message: &[u8], offset: usize, out: &mut [u8; 255]) -> usize
    requires { offset ≤ length message.now }
    ensures octets { AreNameOctets (take result out.new) }
    ensures labels { (x : DomainName) (q : ℕ) → IsNameIn message.now offset x q → labels_of (take result out.new) ≡ x.labels }
    ensures few { result ≤ 254 }
{
    match put_name(message, offset, false, out, 0) {
        Some((_, count)) => count - 1,
        None => 0,
    }
}

impl<'a> NameRef<'a> {
    ghost use Rattle.dns_fields.specs.Comparing.{name_eq};
    ghost use Rattle.dns_view.specs.LabelList.{labels_at};

    /// The name at an offset of a message, where the caller knows that one is encoded. [`read`](NameRef::read) finds out.
    #[inline]
    pub fn at(message: &'a [u8], offset: usize) -> NameRef<'a>
        requires inside { offset ≤ length message.now }
        requires named { IsNamed message.now offset }
        ensures message { result.message.now ≡ message.now }
        ensures offset { result.offset ≡ offset }
    {
        NameRef { message, offset }
    }

    /// Returns the name that is encoded at an offset of a message, and the offset after its encoding, or `None` if no name is
    /// encoded there. Allocates nothing.
    pub fn read(message: &'a [u8], offset: usize) -> Option<(NameRef<'a>, usize)>
        ensures message { IfSome result (λ r. r.0.message.now ≡ message.now) }
        ensures offset { IfSome result (λ r. r.0.offset ≡ offset) }
        ensures ends { IfSome result (λ r. NameEnds message.now offset r.1) }
        ensures none { IfNone result ((name : DomainName) (end : ℕ) → IsNameIn message.now offset name end → ⊥) }
    {
        if message.len() < offset {
            return None;
        }
        let end = skip_name(message, offset)?;
        Some((NameRef { message, offset }, end))
    }

    /// The offset in the message where the name is encoded.
    #[inline]
    pub fn offset(&self) -> usize
        ensures { result ≡ self.now.offset }
    {
        self.offset
    }

    /// The labels of the name, from the first to the last one before the root, each without its length octet and lent from
    /// the message. Compression pointers are followed. Allocates nothing.
    #[inline]
    pub fn labels(&self) -> Labels<'a>
        ensures all { result ≡ labels_at self.now.message.now self.now.offset }
        ensures name { (x : DomainName) (q : ℕ) → IsNameIn self.now.message.now self.now.offset x q → result ≡ x.labels }
    {
        Labels::at(self.message, self.offset)
    }

    /// Writes the name's octets, uncompressed, at the front of a buffer, with A to Z lowercased if `low` is set, and returns
    /// how many they are. Allocates nothing.
    ///
    /// If they are more than the buffer has, as many as fit are written, and the number is still theirs.
    pub fn put(&self, low: bool, out: &mut [u8]) -> usize
        ensures { (x : DomainName) (q : ℕ) → IsNameIn self.now.message.now self.now.offset x q →
            Put out.old out.new 0 result (name_form low x) }
    {
        match put_name(self.message, self.offset, low, out, 0) {
            Some((_, count)) => count,
            None => 0,
        }
    }

    /// Makes the name, with case preserved. Allocates once if it has more than 33 octets without pointers, and fails only if
    /// that fails.
    pub fn to_name(&self, alloc: Global) -> Result<Name, AllocError>
        ensures { (x : DomainName) (q : ℕ) → IsNameIn self.now.message.now self.now.offset x q → IfOk result (λ name. name ≡ x) }
    {
        let Ok(mut decoder) = BinDecoder::at(alloc, self.message, self.offset) else {
            // Unreachable: the offset is inside the message.
            return Err(AllocError);
        };
        match Name::read(&mut decoder) {
            Ok(name) => Ok(name),
            Err(_) => Err(AllocError),
        }
    }

    /// Orders two names by their uncompressed octets in lower case: by their labels from the first one on, each after its
    /// length. This is not the order of names in a zone (RFC 4034, section 6.1), which begins at the root. Allocates nothing.
    pub fn compare(&self, other: &NameRef<'_>) -> Ordering
        ensures names { (u : DomainName) (q : ℕ) (v : DomainName) (r : ℕ) → IsNameIn self.now.message.now self.now.offset u q →
            IsNameIn other.now.message.now other.now.offset v r → result ≡ slice_cmp nat_cmp (lowname u) (lowname v) }
        ensures octets { result ≡ slice_cmp nat_cmp (low_octets self.now.message.now self.now.offset) (low_octets other.now.message.now other.now.offset) }
    {
        compare_names(self.message, self.offset, other.message, other.offset)
    }

    /// Whether it is this name: `name` is fully qualified and has the same labels without ASCII case. It is `==` of the
    /// name that [`to_name`](NameRef::to_name) makes. Allocates nothing.
    pub fn is_name(&self, name: &Name) -> bool
        ensures { (x : DomainName) (q : ℕ) → IsNameIn self.now.message.now self.now.offset x q → result ≡ name_eq x name.now }
    {
        if !name.is_fqdn() {
            return false;
        }
        let mut octets = [0; NAME_OCTETS];
        let count = plain_octets(self.message, self.offset, &mut octets);
        octets[..count].eq_ignore_ascii_case(name.label_octets())
    }
}

impl<'a> PartialEq for NameRef<'a> {
    ghost use Rattle.std.specs.Prelude.{◌≡◌, ◌==◌, ◌↔◌, IsTrue};
    ghost use Rattle.std.specs.{Cmp.Lexicographic.pointwise, Cmp.Rules.comparing, Ordering.on};
    ghost use Rattle.std.proofs.Common.{rules};
    ghost use Rattle.dns_view.specs.NamesShown.{octets_shown};

    ghost eq = { on octets_shown (pointwise ◌==◌) };

    ghost laws = { Prim.search (comparing, rules) };

    /// Whether both have the same labels, without ASCII case. Allocates nothing.
    #[inline]
    fn eq(&self, other: &NameRef<'a>) -> bool
        ensures value { result ≡ pointwise ◌==◌ (octets_shown self.now) (octets_shown other.now) }
        ensures exact { IsTrue result ↔ (octets_shown self.now ≡ octets_shown other.now) }
    {
        self.compare(other).is_eq()
    }
}

impl<'a> Eq for NameRef<'a> {
    ghost use Rattle.std.specs.Cmp.Rules.{comparing};
    ghost use Rattle.std.proofs.Common.{rules};

    ghost laws = { Prim.search (comparing, rules) };
}

impl<'a> PartialOrd for NameRef<'a> {
    ghost use Rattle.std.specs.{Cmp.Lexicographic.slice_cmp, Cmp.Rules.comparing, Cmp.partial_order_from_own_ties};
    ghost use Rattle.std.specs.Ordering.{nat_cmp, on, as_partial_cmp};
    ghost use Rattle.std.proofs.Common.{rules};
    ghost use Rattle.dns_view.specs.NamesShown.{octets_shown};

    ghost partial_cmp = { as_partial_cmp (on octets_shown (slice_cmp nat_cmp)) };

    ghost laws = { partial_order_from_own_ties (Prim.search (comparing, rules)) (Prim.search (comparing, rules)) };

    #[inline]
    fn partial_cmp(&self, other: &NameRef<'a>) -> Option<Ordering> {
        Some(self.cmp(other))
    }
}

impl<'a> Ord for NameRef<'a> {
    ghost use Rattle.std.specs.{Cmp.Lexicographic.slice_cmp, Cmp.Rules.comparing};
    ghost use Rattle.std.specs.Ordering.{nat_cmp, on};
    ghost use Rattle.std.proofs.Common.{rules};
    ghost use Rattle.dns_view.specs.NamesShown.{octets_shown};

    ghost cmp = { on octets_shown (slice_cmp nat_cmp) };

    ghost total = { Prim.search (comparing, rules) };

    ghost matches_partial_cmp = { Prim.search (comparing, rules) };

    ghost matches_eq = { Prim.search (comparing, rules) };

    /// The same as [`compare`](NameRef::compare). Allocates nothing.
    #[inline]
    fn cmp(&self, other: &NameRef<'a>) -> Ordering {
        self.compare(other)
    }
}

impl<'a> Hash for NameRef<'a> {
    ghost use Rattle.std.specs.Prelude.{◌∷◌, []};
    ghost use Rattle.std.specs.Cmp.Rules.{hashing};
    ghost use Rattle.std.proofs.Common.{rules};
    ghost use Rattle.dns_view.specs.NamesShown.{octets_shown};

    ghost hash_input = { λ r. octets_shown r ∷ [] };

    ghost respects_eq = { Prim.search (hashing, rules) };

    /// Feeds the uncompressed octets in lower case at once. Allocates nothing.
    fn hash<H: Hasher>(&self, state: &mut H) {
        let mut octets = [0; NAME_OCTETS];
        let count = low_octets_of(self.message, self.offset, &mut octets);
        state.write(&octets[..count]);
    }
}

impl<'a> fmt::Display for NameRef<'a> {
    ghost use Rattle.std.specs.Prelude.{Some};
    ghost use Rattle.dns_labels.specs.Text.{name_text};
    ghost use Rattle.dns_view.specs.NamesShown.{name_shown};

    ghost output = { λ r. Some (name_text (name_shown r)) };

    /// Prints the name as [`Name`] does: its labels, each with a dot after it, and the root as a dot. In a label `.` and `\`
    /// are preceded by `\`, and an octet that is no graphic character of ASCII is `\` and three digits. Allocates nothing.
    fn fmt<W: fmt::Write>(&self, f: &mut fmt::Formatter<W>) -> fmt::Result {
        let mut octets = [0; NAME_OCTETS];
        let count = plain_octets(self.message, self.offset, &mut octets);
        f.write(NameText::new(&octets[..count], true))
    }
}
