//! Values of CAA by their tags (RFC 8659, 4.2 to 4.4).

ghost use Rattle.std.specs.Prelude.{◌≡◌, ◌↔◌, codes, IsTrue, IfOk, IfErr, OnOk, OnErr};
ghost use Rattle.std.specs.{List.AllByRecursion, Option.option_copied, Str.IsUtf8, String.string_bytes};
ghost use Rattle.dns_names_wire.specs.NameValues.{IsTextError};
ghost use Rattle.dns_rdata_policy.specs.CAA.{IsIssuerTag, IsIodefTag, IsIssuerValueError, IsIodefValueError};
ghost use Rattle.dns_rdata_policy.specs.Issuer.{IsParameter, IsIssuer, IsWritable, issuer_value};

use crate::caa::CAA;
use crate::caa::issuer::{KeyValue, issuer_octets, read_iodef, read_issuer};
use dns_names_wire::{Name, ProtoError, ProtoResult, SmallOctets};
use std::alloc::AllocError;

const NO_ISSUER_TAG: ProtoError = ProtoError::Message("CAA tag is not 'issue' or 'issuewild'");

const NO_IODEF_TAG: ProtoError = ProtoError::Message("CAA tag is not 'iodef'");

// Whether the tag is `issue` or `issuewild`, but for the case of ASCII letters.
fn is_issuer_tag(tag: &[u8]) -> bool
    ensures { IsTrue result ↔ IsIssuerTag tag.now }
{
    tag.eq_ignore_ascii_case(b"issue") || tag.eq_ignore_ascii_case(b"issuewild")
}

// Whether the tag is `iodef`, but for the case of ASCII letters.
fn is_iodef_tag(tag: &[u8]) -> bool
    ensures { IsTrue result ↔ IsIodefTag tag.now }
{
    tag.eq_ignore_ascii_case(b"iodef")
}

impl CAA {
    /// The issuer that may issue certificates for the domain, and its parameters: tag `issue`, reserved flags 0. The
    /// value is the name's `to_ascii`, and `; `, key, `=` and value of each parameter; `;` if there is neither. Fails
    /// only if an allocation fails.
    pub fn new_issue(
        issuer_critical: bool,
        name: Option<Name>,
        options: Vec<KeyValue>,
    ) -> Result<CAA, AllocError>
        ensures made { IfOk result (λ x. x ≡ record
            { issuer_critical = issuer_critical; reserved_flags = 0; tag = codes "issue"; value = issuer_value name options.items }) }
        // the value reads back as this name and these parameters, where they are in the grammar
        ensures reads_back { IsWritable name → AllByRecursion IsParameter options.items → IfOk result (λ x. IsIssuer x.value name options.items) }
    {
        CAA::with_issuer(issuer_critical, b"issue", name, options)
    }

    /// As `new_issue`, for certificates with wildcards: tag `issuewild`.
    pub fn new_issuewild(
        issuer_critical: bool,
        name: Option<Name>,
        options: Vec<KeyValue>,
    ) -> Result<CAA, AllocError>
        ensures made { IfOk result (λ x. x ≡ record
            { issuer_critical = issuer_critical; reserved_flags = 0; tag = codes "issuewild"; value = issuer_value name options.items }) }
        ensures reads_back { IsWritable name → AllByRecursion IsParameter options.items → IfOk result (λ x. IsIssuer x.value name options.items) }
    {
        CAA::with_issuer(issuer_critical, b"issuewild", name, options)
    }

    // A property of issuers with this tag.
    #[tactic(auto, using(crate::proofs::Issuers::issuer_written))]
    fn with_issuer(
        issuer_critical: bool,
        tag: &[u8],
        name: Option<Name>,
        options: Vec<KeyValue>,
    ) -> Result<CAA, AllocError>
        ensures made { IfOk result (λ x. x ≡ record
            { issuer_critical = issuer_critical; reserved_flags = 0; tag = tag.now; value = issuer_value name options.items }) }
        ensures reads_back { IsWritable name → AllByRecursion IsParameter options.items → IfOk result (λ x. IsIssuer x.value name options.items) }
    {
        let alloc = *options.allocator();
        let value = issuer_octets(alloc, name.as_ref(), options.as_slice())?;
        Ok(CAA {
            issuer_critical,
            reserved_flags: 0,
            tag: SmallOctets::from_slice(alloc, tag)?,
            value: SmallOctets::from_vec(value),
        })
    }

    /// Where incidents are reported: tag `iodef`, reserved flags 0, and the URL's octets, which are moved. Fails only
    /// if an allocation fails.
    pub fn new_iodef(issuer_critical: bool, url: String) -> Result<CAA, AllocError>
        ensures made { IfOk result (λ x. x ≡ record { issuer_critical = issuer_critical; reserved_flags = 0; tag = codes "iodef"; value = string_bytes url }) }
    {
        let alloc = *url.allocator();
        Ok(CAA {
            issuer_critical,
            reserved_flags: 0,
            tag: SmallOctets::from_slice(alloc, b"iodef")?,
            value: SmallOctets::from_vec(url.into_bytes()),
        })
    }

    /// Sets the value of an issuer, as `new_issue` makes it.
    ///
    /// # Errors
    ///
    /// The record is unchanged then.
    ///
    /// - [`Message`](ProtoError::Message): the tag is not `issue` or `issuewild`, in any case.
    /// - [`Memory`](ProtoError::Memory): an allocation failed.
    #[tactic(auto, using(crate::proofs::Issuers::issuer_written))]
    pub fn set_issuer_value(
        &mut self,
        name: Option<&Name>,
        key_values: &[KeyValue],
    ) -> ProtoResult<()>
        ensures set { OnOk result (self.new ≡ record self.old { value = issuer_value (option_copied name.entry) key_values.now }) }
        ensures tag { OnOk result (IsIssuerTag self.old.tag) }
        ensures unchanged { OnErr result (self.new ≡ self.old) }
        ensures refused { IfErr result (λ e. IsTextError e (IsIssuerTag self.old.tag → ⊥)) }
        ensures reads_back { IsWritable (option_copied name.entry) → AllByRecursion IsParameter key_values.now
            → OnOk result (IsIssuer self.new.value (option_copied name.entry) key_values.now) }
    {
        if !is_issuer_tag(self.tag.as_slice()) {
            return Err(NO_ISSUER_TAG);
        }
        let value = issuer_octets(self.tag.allocator(), name, key_values)?;
        self.value = SmallOctets::from_vec(value);
        Ok(())
    }

    /// Sets the URL where incidents are reported.
    ///
    /// # Errors
    ///
    /// The record is unchanged then.
    ///
    /// - [`Message`](ProtoError::Message): the tag is not `iodef`, in any case.
    /// - [`Memory`](ProtoError::Memory): an allocation failed.
    pub fn set_iodef_value(&mut self, url: &str) -> ProtoResult<()>
        ensures set { OnOk result (self.new ≡ record self.old { value = url.now }) }
        ensures tag { OnOk result (IsIodefTag self.old.tag) }
        ensures unchanged { OnErr result (self.new ≡ self.old) }
        ensures refused { IfErr result (λ e. IsTextError e (IsIodefTag self.old.tag → ⊥)) }
    {
        if !is_iodef_tag(self.tag.as_slice()) {
            return Err(NO_IODEF_TAG);
        }
        let value = SmallOctets::from_slice(self.tag.allocator(), url.as_bytes())?;
        self.value = value;
        Ok(())
    }

    /// The issuer's name and parameters, by `read_issuer`. Fails also with [`Message`](ProtoError::Message) if the tag
    /// is not `issue` or `issuewild`, in any case.
    pub fn value_as_issue(&self) -> ProtoResult<(Option<Name>, Vec<KeyValue>)>
        ensures read { IfOk result (λ x. IsIssuer self.now.value x.0 x.1.items) }
        ensures tag { OnOk result (IsIssuerTag self.now.tag) }
        ensures refused { IfErr result (λ e. IsIssuerValueError self.now e) }
    {
        if !is_issuer_tag(self.tag.as_slice()) {
            return Err(NO_ISSUER_TAG);
        }
        read_issuer(self.value.allocator(), self.value.as_slice())
    }

    /// The URL where incidents are reported, by `read_iodef`. Fails also with [`Message`](ProtoError::Message) if the
    /// tag is not `iodef`, in any case. Allocates nothing.
    pub fn value_as_iodef(&self) -> ProtoResult<&str>
        ensures read { IfOk result (λ text. (text.now ≡ self.now.value) × IsUtf8 self.now.value) }
        ensures tag { OnOk result (IsIodefTag self.now.tag) }
        ensures refused { IfErr result (λ e. IsIodefValueError self.now e) }
    {
        if !is_iodef_tag(self.tag.as_slice()) {
            return Err(NO_IODEF_TAG);
        }
        read_iodef(self.value.as_slice())
    }
}
