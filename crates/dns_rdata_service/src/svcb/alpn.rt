//! The protocols of a service.

ghost use Rattle.std.specs.Prelude.{◌≡◌, ◌≤◌, drop, length, map, IfErr, IfOk};
ghost use Rattle.dns_fields.specs.{Tlvs.Names};
ghost use Rattle.std.specs.String.{string_bytes};
ghost use Rattle.dns_names_wire.specs.Terms.{ReadsBy};
ghost use Rattle.dns_rdata_service.specs.SvcParamValue.{alpn_value, AlpnAt, IsValueError, EmitsValue};

use crate::items::Items;
use bstr::BStr;
use dns_check::BinDecodable;
use dns_check::parameter_values::is_text;
use dns_names_wire::{BinDecoder, BinEncodable, BinEncoder, DecodeError, ProtoError, SmallOctets};
use std::alloc::{AllocError, Global};
use std::fmt;

/// The names of the protocols that a service speaks besides its scheme's default (RFC 9460, section 7.1): one or more
/// character strings of UTF-8. A name of up to 16 octets is kept without an allocation of its own.
#[derive(Debug, Drop, PartialEq, Eq, Hash)]
pub struct Alpn(pub Items<SmallOctets<16>>);

impl Alpn {
    /// Makes a list of these names. Allocates once, for the list. Short names are copied into it.
    pub fn new(names: Vec<String>) -> Result<Alpn, AllocError>
        ensures { IfOk result (λ x. x.0 ≡ map string_bytes names.items) }
    {
        let mut strings = Vec::with_capacity(*names.allocator(), names.len())?;
        for name in names {
            strings.push(SmallOctets::from_vec(name.into_bytes()))?;
        }
        Ok(Alpn(Items::from_vec(strings)))
    }
}

impl Alpn {
    /// Copies these names: `Alpn::from_strs(alloc, &["h2", "h3"])`. Allocates once for the list, and once for each name
    /// of more than 16 octets.
    pub fn from_strs(alloc: Global, names: &[&str]) -> Result<Alpn, AllocError>
        ensures { IfOk result (λ x. x.0 ≡ map (λ name. name.now) names.now) }
    {
        let mut strings = Vec::with_capacity(alloc, names.len())?;
        for name in names {
            strings.push(SmallOctets::from_slice(alloc, name.as_bytes())?)?;
        }
        Ok(Alpn(Items::from_vec(strings)))
    }
}

impl BinDecodable for Alpn {
    ghost stands = { AlpnAt };

    ghost refuses = { λ old e _. IsValueError Names (drop old.index old.message) e };

    /// Reads names to the end of the decoder's octets. Allocates once for the list, and once for each name of more than
    /// 16 octets.
    ///
    /// # Errors
    ///
    /// - [`SvcParamMissingValue`](DecodeError::SvcParamMissingValue): there are no octets.
    /// - [`InsufficientBytes`](DecodeError::InsufficientBytes): the octets end within a name.
    /// - [`Utf8`](DecodeError::Utf8): a name is not UTF-8.
    #[tactic(auto, using(crate::proofs::ValueReads::each_more, crate::proofs::ValueReads::names_read, crate::proofs::ValueReads::names_missing, crate::proofs::ValueReads::text_behind))]
    fn read(decoder: &mut BinDecoder<'_>) -> Result<Alpn, DecodeError>
        ensures reads { ReadsBy AlpnAt result decoder.old decoder.new }
        ensures refused { IfErr result (λ e. IsValueError Names (drop decoder.old.index decoder.old.message) e) }
    {
        if decoder.len() == 0 {
            return Err(DecodeError::SvcParamMissingValue);
        }
        let alloc = decoder.allocator();
        let mut names = Items::with_capacity(alloc, strings_in(decoder.unread().unverified()))?;
        'names: while decoder.len() > 0 {
            let name = decoder.read_character_data()?.unverified();
            if !is_text(name) {
                return Err(DecodeError::Utf8);
            }
            names.push(SmallOctets::from_slice(alloc, name)?)?;
        }
        Ok(Alpn(names))
    }
}

// How many strings begin in the octets. If strings fill the octets, this is their number.
fn strings_in(octets: &[u8]) -> usize
    ensures { result ≤ length octets.now }
{
    let mut count = 0;
    let mut offset = 0;
    while offset < octets.len() {
        offset += 1 + octets[offset] as usize;
        count += 1;
    }
    count
}

impl BinEncodable for Alpn {
    ghost emits = { λ x r old new. EmitsValue (alpn_value x) r old new };

    /// Appends the names as character strings. Returns [`Message`](ProtoError::Message) if there are none, or if one
    /// has more than 255 octets.
    fn emit(&self, encoder: &mut BinEncoder<'_>) -> Result<(), ProtoError> {
        if self.0.len() == 0 {
            return Err(ProtoError::Message("no protocols"));
        }
        for name in self.0.as_slice() {
            encoder.emit_character_data(name.as_slice())?;
        }
        Ok(())
    }
}

impl Clone for Alpn {
    ghost is_clone = { λ a b. b ≡ a };

    /// Copies the names.
    #[inline]
    fn clone(&self) -> Result<Alpn, AllocError>
        ensures { IfOk result (λ copy. copy ≡ self.now) }
    {
        Ok(Alpn(self.0.clone()?))
    }
}

impl fmt::Display for Alpn {
    ghost use Rattle.std.specs.Prelude.{Some};
    ghost use Rattle.dns_rdata_service.specs.SvcParamValue.{alpn_text};

    ghost output = { λ x. Some (alpn_text x) };

    /// Writes each name and a comma: `h2,h3,`. Octets that are not UTF-8 become U+FFFD; a name that was read has none.
    #[tactic(auto, unfolding(dns_rdata_base::specs::Lossy::lossy))]
    fn fmt<W: fmt::Write>(&self, f: &mut fmt::Formatter<W>) -> fmt::Result {
        for name in self.0.as_slice() {
            let name = BStr::new(name.as_slice());
            write!(f, "{name},")?;
        }
        Ok(())
    }
}
