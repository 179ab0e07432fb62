//! Domain names (RFC 1035, section 3.1).

ghost use Rattle.std.specs.Prelude.{◌≡◌, ◌≤◌, ◌<◌, ◌↔◌, ◌⊎◌, ℕ, Bool, true, false, [], length, slice_get, IsTrue, IfOk, IfErr, IfSome, OnOk, OnErr};
ghost use Rattle.dns_fields.specs.{Labels.IsName, Labels.lowname, Labels.wire, Names.IsNameIn, Octets.AreOctets};
ghost use Rattle.dns_fields.specs.{declared.Kind.TheVariants.Name as NameKind, Labels.DomainName};
ghost use Rattle.dns_labels.specs.{Comparing.lowered_octets, Labels.AreNameOctets, Labels.name_of, Text.HasOctets};
ghost use Rattle.dns_names_wire.specs.Terms.{ReadsField, ReadsBy, LacksField, EmitsField, Extends};
ghost use Rattle.dns_names_wire.specs.NameValues.{root_name, label_count, has_asterisk};

mod building;
mod comparing;
mod fqdn_flag;
mod texts;

use crate::binary::BinEncodable;
use crate::decoder::BinDecoder;
use crate::encoder::BinEncoder;
use dns_labels::NameOctets;
use dns_labels::labels::LabelIter;
use dns_types::{DecodeError, ProtoError};
use fqdn_flag::FqdnFlag;
use std::alloc::{AllocError, Global};
use std::marker::Model;

/// A domain name (RFC 1035, section 3.1): labels of 1 to 63 octets, and whether it is fully qualified. With a length
/// octet for each label and a final zero octet it has at most 255 octets.
///
/// `==`, `Hash` and `Ord` ignore the case of ASCII letters, tell a relative name from a fully qualified one, and
/// allocate nothing.
///
/// ```rust
/// fn is_in_zone(alloc: Global, zone: &str, host: &str) -> ProtoResult<bool> {
///     let zone = Name::from_ascii(alloc, zone)?;
///     let host = Name::from_ascii(alloc, host)?;
///     Ok(zone.zone_of(&host))
/// }
/// ```
#[derive(Drop)]
pub struct Name {
    // each label's length and its octets, without the 0 at the end
    octets: NameOctets,
    is_fqdn: FqdnFlag,
}

impl Model for Name {
    ghost Value = { DomainName };

    ghost view = { λ n. name_of n.octets n.is_fqdn };

    ghost invariant = { λ n. AreNameOctets n.octets × AreOctets n.octets };
}

impl Name {
    // The name of these octets.
    #[inline]
    fn from_octets(octets: NameOctets, is_fqdn: bool) -> Name
        requires { AreNameOctets octets }
        ensures { result ≡ name_of octets is_fqdn }
    {
        are_octets(octets.as_slice());
        Name {
            octets,
            is_fqdn: FqdnFlag::new(is_fqdn),
        }
    }

    /// The relative name without labels. Allocates nothing.
    #[inline]
    pub fn new(alloc: Global) -> Name
        ensures { result ≡ record { labels = []; fully_qualified = false } }
    {
        Name::from_octets(NameOctets::new(alloc), false)
    }

    /// The root: the fully qualified name without labels. Allocates nothing.
    #[inline]
    pub fn root(alloc: Global) -> Name
        ensures { result ≡ root_name }
    {
        Name::from_octets(NameOctets::new(alloc), true)
    }

    /// Whether it is the root: without labels, and fully qualified.
    #[inline]
    pub fn is_root(&self) -> bool
        ensures { IsTrue result ↔ (self.now ≡ root_name) }
    {
        self.octets.len() == 0 && self.is_fqdn.get()
    }

    /// Whether it is fully qualified.
    #[inline]
    pub fn is_fqdn(&self) -> bool
        ensures { result ≡ self.now.fully_qualified }
    {
        // A look at a field gives what holds of all of them.
        let _ = &self.octets;
        self.is_fqdn.get()
    }

    /// Reads a name (RFC 1035, sections 3.1 and 4.1.4) with case preserved: labels, and then a zero octet, or a
    /// compression pointer to an earlier offset where the rest is. Allocates once if the name has more than 33 octets
    /// without pointers.
    ///
    /// # Errors
    ///
    /// The decoder stays where it was.
    ///
    /// - [`NameInvalid`](DecodeError::NameInvalid): the name is damaged.
    /// - [`Memory`](DecodeError::Memory): the allocation failed.
    pub fn read(decoder: &mut BinDecoder<'_>) -> Result<Name, DecodeError>
        ensures reads { ReadsBy IsNameIn result decoder.old decoder.new }
        ensures field { ReadsField NameKind (λ x. x) result decoder.old decoder.new }
        ensures lacking { IfErr result (λ e. (e ≡ DecodeError.Memory) ⊎ ((e ≡ DecodeError.NameInvalid) × LacksField decoder.old NameKind)) }
        ensures unchanged { OnErr result (decoder.new ≡ decoder.old) }
    {
        let octets = decoder.read_name()?;
        Ok(Name::from_octets(octets, true))
    }

    /// Makes it fully qualified, or relative; the labels stay.
    #[inline]
    pub fn set_fqdn(&mut self, is_fqdn: bool)
        ensures { self.new ≡ record self.old { fully_qualified = is_fqdn } }
    {
        self.is_fqdn = FqdnFlag::new(is_fqdn);
    }

    /// The labels from the left, each without its length octet. Allocates nothing.
    #[inline]
    pub fn iter(&self) -> LabelIter<'_>
        ensures labels { result ≡ self.now.labels }
        ensures few { length self.now.labels ≤ 127 }
    {
        LabelIter::new(self.octets.as_slice())
    }

    /// Whether its first label is an asterisk (RFC 4592, section 2.1.1).
    #[inline]
    pub fn is_wildcard(&self) -> bool
        ensures { result ≡ has_asterisk self.now.labels }
    {
        match self.iter().next() {
            Some(label) => label == b"*".as_slice(),
            None => false,
        }
    }

    /// How many labels there are, without a first label that is an asterisk (RFC 4034, section 3.1.3).
    pub fn num_labels(&self) -> u8
        ensures { result ≡ label_count self.now.labels }
    {
        let count = self.iter().count() as u8;
        if self.is_wildcard() { count - 1 } else { count }
    }

    /// How many octets it has on the wire, uncompressed, with the final zero octet: 1 to 255.
    #[inline]
    pub fn len(&self) -> usize
        ensures value { result ≡ length (lowname self.now) }
        ensures some { 1 ≤ result }
        ensures room { result ≤ 255 }
        ensures name { IsName self.now }
        ensures octets { HasOctets self.now }
    {
        self.octets.len() + 1
    }

    /// Always false: even the root has an octet.
    #[inline]
    pub fn is_empty(&self) -> bool
        ensures { result ≡ false }
    {
        self.len() == 0
    }

    /// The octet at an index of the canonical octets: uncompressed, with A to Z lowercased.
    #[inline]
    pub fn octet(&self, index: usize) -> Option<u8>
        ensures value { result ≡ slice_get (lowname self.now) index }
        ensures room { IfSome result (λ _. index < 255) }
    {
        let octets = self.octets.as_slice();
        let len = octets.len();
        if index < len {
            Some(octets[index].to_ascii_lowercase())
        } else if index == len {
            Some(0)
        } else {
            None
        }
    }

    /// The octets of the labels, each after its length octet, with case preserved. With a final zero octet they are the
    /// uncompressed octets, and lowercased the canonical octets. Allocates nothing.
    #[inline]
    pub fn label_octets(&self) -> &[u8]
        ensures lowercased { lowname self.now ≡ lowered_octets result.now }
        ensures uncompressed { result.now ≡ wire self.now.labels }
        ensures name { IsName self.now }
    {
        self.octets.as_slice()
    }

    /// The allocator of its octets.
    #[inline]
    pub fn allocator(&self) -> Global {
        self.octets.allocator()
    }
}

// What a slice holds are numbers of 0 to 255.
#[inline]
fn are_octets(octets: &[u8])
    ensures { AreOctets octets.now }
{
    let _ = octets;
}

impl BinEncodable for Name {
    ghost emits = { EmitsField NameKind };

    /// Appends the name in the encoder's mode, with case preserved: labels and a zero octet (RFC 1035, section 3.1),
    /// or, in the mode `StandardRecord`, with a compression pointer instead of the longest suffix that the encoder
    /// wrote before (section 4.1.4).
    #[inline(always)]
    fn emit(&self, encoder: &mut BinEncoder<'_>) -> Result<(), ProtoError>
        ensures emits { EmitsField NameKind self.now result encoder.old encoder.new }
        ensures extends { Extends encoder.old encoder.new }
        ensures room { OnOk result (length encoder.new.octets ≤ encoder.old.limit) }
        ensures whole { OnErr result (encoder.new ≡ encoder.old) }
    {
        encoder.emit_name(self.octets.as_slice(), self.is_fqdn.get())?;
        Ok(())
    }
}

impl Clone for Name {
    ghost is_clone = { λ a b. b ≡ a };

    /// The same name, with case preserved. Allocates once if the name has more than 33 octets on the wire.
    #[inline]
    fn clone(&self) -> Result<Name, AllocError> {
        Ok(Name {
            octets: self.octets.clone()?,
            is_fqdn: FqdnFlag::new(self.is_fqdn.get()),
        })
    }
}
