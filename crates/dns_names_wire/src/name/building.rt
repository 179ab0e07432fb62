//! Names made of labels, texts and other names.

ghost use Rattle.std.specs.Prelude.{◌≡◌, ◌≤◌, ◌<◌, map, drop, length, IfOk, IfErr, Err};
ghost use Rattle.std.specs.Option.{option_copied};
ghost use Rattle.dns_fields.specs.Labels.{DomainName, IsName};
ghost use Rattle.dns_labels.specs.Labels.{labels_of, name_of, AreNameOctets};
ghost use Rattle.dns_names_wire.specs.NameValues.{IsTextError, IsParsed, with_label, joined_name, completed, qualified, in_lowercase, parent_name};

use crate::name::Name;
use dns_labels::{NameError, NameOctets, building};
use dns_types::{ProtoError, ProtoResult};
use std::alloc::{AllocError, Global};

impl Name {
    /// The fully qualified name of these labels, from the left.
    ///
    /// # Errors
    ///
    /// - [`Message`](ProtoError::Message): a label has no octet or more than 63, or the name would have more than 255.
    /// - [`Memory`](ProtoError::Memory): an allocation failed.
    pub fn from_labels(alloc: Global, labels: &[&[u8]]) -> ProtoResult<Name>
        ensures ok { IfOk result (λ x. x ≡ qualified (map (λ label. label.now) labels.now)) }
        ensures refused { IfErr result (λ e. IsTextError e (IsName (qualified (map (λ label. label.now) labels.now)) → ⊥)) }
    {
        match join_labels(alloc, labels) {
            Ok(octets) => Ok(Name::from_octets(NameOctets::from_vec(octets), true)),
            Err(NameError::Memory) => Err(ProtoError::Memory),
            Err(NameError::Invalid) => Err(ProtoError::Message("not the labels of a domain name")),
        }
    }

    /// The name with one label more, after the others, and as qualified as before. Fails as
    /// [`from_labels`](Name::from_labels).
    pub fn append_label(self, label: &[u8]) -> ProtoResult<Name>
        ensures ok { IfOk result (λ x. x ≡ with_label self label.now) }
        ensures refused { IfErr result (λ e. IsTextError e (IsName (with_label self label.now) → ⊥)) }
    {
        let Name { octets, is_fqdn } = self;
        let mut octets = octets.into_vec()?;
        match building::append_label(&mut octets, label) {
            Ok(()) => Ok(Name::from_octets(NameOctets::from_vec(octets), is_fqdn.get())),
            Err(NameError::Memory) => Err(ProtoError::Memory),
            Err(NameError::Invalid) => Err(ProtoError::Message("label does not fit a domain name")),
        }
    }

    /// The labels of both names, as qualified as the second.
    ///
    /// # Errors
    ///
    /// - [`Message`](ProtoError::Message): there would be more than 255 octets.
    /// - [`Memory`](ProtoError::Memory): an allocation failed.
    pub fn append_name(self, other: &Name) -> ProtoResult<Name>
        ensures ok { IfOk result (λ x. x ≡ joined_name self other.now) }
        ensures refused { IfErr result (λ e. IsTextError e (IsName (joined_name self other.now) → ⊥)) }
    {
        let Name { octets, .. } = self;
        let mut octets = octets.into_vec()?;
        match building::append_octets(&mut octets, other.octets.as_slice()) {
            Ok(()) => Ok(Name::from_octets(NameOctets::from_vec(octets), other.is_fqdn.get())),
            Err(NameError::Memory) => Err(ProtoError::Memory),
            Err(NameError::Invalid) => Err(ProtoError::Message("domain name past 255 octets")),
        }
    }

    /// The labels of both names, fully qualified. Fails as [`append_name`](Name::append_name).
    pub fn append_domain(self, domain: &Name) -> ProtoResult<Name>
        ensures ok { IfOk result (λ x. x ≡ qualified (joined_name self domain.now).labels) }
        ensures refused { IfErr result (λ e. IsTextError e (IsName (joined_name self domain.now) → ⊥)) }
    {
        let mut name = self.append_name(domain)?;
        name.set_fqdn(true);
        Ok(name)
    }

    // Appends the labels of the origin to a relative name, and takes over whether it is fully qualified.
    fn complete(self, origin: Option<&Name>) -> ProtoResult<Name>
        ensures ok { IfOk result (λ x. x ≡ completed self (option_copied origin.entry)) }
        ensures refused { IfErr result (λ e. IsTextError e (IsName (completed self (option_copied origin.entry)) → ⊥)) }
    {
        if self.is_fqdn() {
            return Ok(self);
        }
        match origin {
            Some(origin) => self.append_name(origin),
            None => Ok(self),
        }
    }

    /// The name of a text, by `from_str`. A relative name is completed with the origin; without an origin it stays
    /// relative. `@` is a label.
    ///
    /// # Errors
    ///
    /// - [`Message`](ProtoError::Message): the text is no name, or there would be more than 255 octets.
    /// - [`Memory`](ProtoError::Memory): an allocation failed.
    pub fn parse(alloc: Global, text: &str, origin: Option<&Name>) -> ProtoResult<Name>
        ensures found { IfOk result (λ x. IsParsed text.now (option_copied origin.entry) x) }
        ensures refused { IfErr result (λ e. IsTextError e ((x : DomainName) → IsParsed text.now (option_copied origin.entry) x → ⊥)) }
    {
        Name::from_str(alloc, text)?.complete(origin)
    }

    /// The name with A to Z lowercased. Fails only if an allocation fails.
    pub fn to_lowercase(&self) -> Result<Name, AllocError>
        ensures { IfOk result (λ x. x ≡ in_lowercase self.now) }
    {
        let mut octets = Vec::from_slice(self.allocator(), self.octets.as_slice())?;
        octets.as_mut_slice().make_ascii_lowercase();
        Ok(Name::from_octets(NameOctets::from_vec(octets), self.is_fqdn.get()))
    }

    /// The name without its first label, as qualified as before; of a name without labels that name. Fails only if an
    /// allocation fails.
    pub fn base_name(&self) -> Result<Name, AllocError>
        ensures { IfOk result (λ x. x ≡ parent_name self.now) }
    {
        let rest = without_first(self.octets.as_slice());
        let octets = NameOctets::from_slice(self.allocator(), rest)?;
        Ok(Name::from_octets(octets, self.is_fqdn.get()))
    }
}

// The octets after the first label.
pub(super) fn without_first(octets: &[u8]) -> &[u8]
    requires { AreNameOctets octets.now }
    ensures labels { labels_of result.now ≡ drop 1 (labels_of octets.now) }
    ensures octets { AreNameOctets result.now }
    ensures shorter { 1 ≤ length octets.now → length result.now < length octets.now }
{
    if octets.len() == 0 {
        return octets;
    }
    &octets[octets[0] as usize + 1..]
}

// The octets of labels, one after the other.
fn join_labels(alloc: Global, labels: &[&[u8]]) -> Result<Vec<u8>, NameError>
    ensures ok { IfOk result (λ octets. labels_of octets.items ≡ map (λ label. label.now) labels.now) }
    ensures octets { IfOk result (λ octets. AreNameOctets octets.items) }
    ensures refused { result ≡ Err NameError.Invalid → IsName (qualified (map (λ label. label.now) labels.now)) → ⊥ }
{
    let mut octets = Vec::new(alloc);
    for label in labels {
        building::append_label(&mut octets, label)?;
    }
    Ok(octets)
}
