//! Texts of names (RFC 1035, section 5.1).

ghost use Rattle.std.specs.Prelude.{◌≡◌, ◌⊎◌, string_bytes, IfOk, IfErr, MatchResult, Some};
ghost use Rattle.dns_fields.specs.Labels.{DomainName, IsName};
ghost use Rattle.dns_labels.specs.Text.{IsNameText, HasOctets, name_text};
ghost use Rattle.dns_names_wire.specs.NameValues.{IsTextError, IsNameFault};

use crate::name::Name;
use dns_labels::NameTextError;
use dns_labels::text::{NameText, parse_octets};
use dns_types::{ProtoError, ProtoResult};
use std::alloc::{AllocError, Global};
use std::fmt;

impl Name {
    /// The name of a text.
    ///
    /// A dot is the root, and no text the relative name without labels. Every other text is labels joined by dots, with
    /// a dot at the end if the name is fully qualified. An octet of a label is a graphic character of ASCII but `.` and
    /// `\`, or `\` and three digits up to 255, or `\` and a graphic character that is no digit. Allocates once if the
    /// name has more than 33 octets on the wire.
    ///
    /// # Errors
    ///
    /// - [`Message`](ProtoError::Message): any other text; the message says why, by the first label at fault.
    /// - [`Memory`](ProtoError::Memory): an allocation failed.
    pub fn from_ascii(alloc: Global, text: &str) -> ProtoResult<Name>
        ensures found { IfOk result (λ x. IsNameText x text.now) }
        ensures refused { IfErr result (λ e. IsTextError e ((x : DomainName) → IsNameText x text.now → ⊥)) }
        ensures why { IfErr result (IsNameFault text.now) }
        // a name's printed text reads back as that name
        ensures reads_back { (x : DomainName) → IsName x → HasOctets x → text.now ≡ name_text x →
            MatchResult result (λ n. n ≡ x) (λ e. e ≡ ProtoError.Memory) }
    {
        match parse_octets(alloc, text.as_bytes()) {
            Ok((octets, is_fqdn)) => Ok(Name::from_octets(octets, is_fqdn)),
            Err(NameTextError::Memory) => Err(ProtoError::Memory),
            Err(NameTextError::Invalid(why)) => Err(ProtoError::Message(why)),
        }
    }

    /// The name of a text, as `from_ascii`.
    pub fn from_str(alloc: Global, text: &str) -> ProtoResult<Name>
        ensures found { IfOk result (λ x. IsNameText x text.now) }
        ensures refused { IfErr result (λ e. IsTextError e ((x : DomainName) → IsNameText x text.now → ⊥)) }
        ensures why { IfErr result (IsNameFault text.now) }
        ensures reads_back { (x : DomainName) → IsName x → HasOctets x → text.now ≡ name_text x →
            MatchResult result (λ n. n ≡ x) (λ e. e ≡ ProtoError.Memory) }
    {
        Name::from_ascii(alloc, text)
    }

    /// The text, as it is printed. Fails only if an allocation fails.
    pub fn to_ascii(&self) -> Result<String, AllocError>
        ensures { IfOk result (λ text. string_bytes text ≡ name_text self.now) }
    {
        NameText::new(self.octets.as_slice(), self.is_fqdn.get()).to_string(self.allocator())
    }
}

impl fmt::Display for Name {
    ghost output = { λ n. Some (name_text n) };

    /// Prints the labels joined by dots, with a dot at the end if the name is fully qualified. In a label `.` and `\`
    /// are preceded by `\`, and an octet that is no graphic character of ASCII is `\` and three digits. Allocates
    /// nothing.
    fn fmt<W: fmt::Write>(&self, f: &mut fmt::Formatter<W>) -> fmt::Result {
        f.write(NameText::new(self.octets.as_slice(), self.is_fqdn.get()))
    }
}

impl fmt::Debug for Name {
    fn fmt<W: fmt::Write>(&self, f: &mut fmt::Formatter<W>) -> fmt::Result {
        write!(f, "Name(\"{self}\")")
    }
}
