//! The keys of service parameters (RFC 9460, section 14.3.2; RFC 9461, section 5).

ghost use Rattle.std.specs.Prelude.{◌≡◌, ◌≢◌, ℕ, refl, IfErr, MatchOption, OnErr};
ghost use Rattle.std.specs.Hash as fed;
ghost use Rattle.dns_rdata_base.specs.Numbered.{NumberedAt, numbered_eq, numbered_cmp, numbered_partial_cmp, numbered_hash};
ghost use Rattle.dns_rdata_base.proofs.NumberedLaws.{numbered_equiv, numbered_partial, numbered_total, numbered_order, numbered_ties, numbered_alike};
ghost use Rattle.dns_fields.specs.declared.Kind.{TheVariants.Number};
ghost use Rattle.dns_names_wire.specs.Terms.{ReadsBy, EmitsField, LacksOctets, IsTruncated};
ghost use Rattle.dns_types.specs.declared.error.ProtoError.TheVariants as proto;
ghost use Rattle.dns_rdata_service.specs.{SvcParamKey.key_number, SvcParamKey.key_variant, SvcParamKey.key_of, ParameterTokens.IsNumberedKey};

use dns_check::BinDecodable;
use dns_names_wire::{BinDecoder, BinEncodable, BinEncoder, DecodeError, ProtoError};
use std::cmp::Ordering;
use std::fmt;
use std::hash::{Hash, Hasher};
use std::str::FromStr;

/// The key of a service parameter (RFC 9460, section 14.3.2). Keys are ordered by number, and then as declared here.
#[derive(Clone, Copy, Debug)]
pub enum SvcParamKey {
    /// Keys that a client must know (0; RFC 9460, 8).
    Mandatory,
    /// Protocols (1; 7.1).
    Alpn,
    /// The scheme's default protocol is not supported (2; 7.1).
    NoDefaultAlpn,
    /// A port (3; 7.2).
    Port,
    /// IPv4 addresses (4; 7.3).
    Ipv4Hint,
    /// An ECHConfigList for Encrypted ClientHello (5).
    EchConfigList,
    /// IPv6 addresses (6; 7.3).
    Ipv6Hint,
    /// The template of the path of DNS queries over HTTPS (7; RFC 9461, section 5).
    DohPath,
    /// For private use: `from` returns it for 65280 to 65534.
    Key(u16),
    /// Reserved, an invalid key (65535).
    Key65535,
    /// A number that no key has: `from` returns it for every other number.
    Unknown(u16),
}

/// Calls a macro with the arguments, and after them each key that has a name of its own: the variant, its number, its
/// rank and its name.
#[macro_export]
macro_rules! with_named_keys {
    ($macro:ident, $arguments:tt) => {
        $macro!(
            $arguments (Mandatory 0 0 "mandatory") (Alpn 1 1 "alpn")
            (NoDefaultAlpn 2 2 "no-default-alpn") (Port 3 3 "port") (Ipv4Hint 4 4 "ipv4hint")
            (EchConfigList 5 5 "ech") (Ipv6Hint 6 6 "ipv6hint") (DohPath 7 7 "dohpath")
        )
    };
}

// Matches a number, a key or a text: an arm for each key with a name, and then the given arms.
macro_rules! each_key {
    ((of_number $value:expr, $($rest:tt)+) $(($key:ident $number:literal $rank:literal $name:literal))+) => {
        match $value { $($number => SvcParamKey::$key,)+ $($rest)+ }
    };
    ((number $value:expr, $($rest:tt)+) $(($key:ident $number:literal $rank:literal $name:literal))+) => {
        match $value { $(SvcParamKey::$key => $number,)+ $($rest)+ }
    };
    ((rank $value:expr, $($rest:tt)+) $(($key:ident $number:literal $rank:literal $name:literal))+) => {
        match $value { $(SvcParamKey::$key => $rank,)+ $($rest)+ }
    };
    ((write $value:expr, $f:ident, $($rest:tt)+) $(($key:ident $number:literal $rank:literal $name:literal))+) => {
        match $value { $(SvcParamKey::$key => $f.write_str($name),)+ $($rest)+ }
    };
    ((of_text $value:expr, $($rest:tt)+) $(($key:ident $number:literal $rank:literal $name:literal))+) => {
        match $value { $($name => Ok(SvcParamKey::$key),)+ $($rest)+ }
    };
}

#[tactic(auto, unfolding(crate::specs::SvcParamKey::key_of))]
impl From<u16> for SvcParamKey {
    ghost from_gives = { λ n e. (e ≡ key_of n) × (key_number e ≡ n) };

    #[inline]
    fn from(value: u16) -> SvcParamKey {
        with_named_keys!(each_key, (of_number value,
            65280..=65534 => SvcParamKey::Key(value),
            65535 => SvcParamKey::Key65535,
            _ => SvcParamKey::Unknown(value),
        ))
    }
}

impl From<SvcParamKey> for u16 {
    ghost from_gives = { λ e n. n ≡ key_number e };

    #[inline]
    fn from(value: SvcParamKey) -> u16 {
        with_named_keys!(each_key, (number value,
            SvcParamKey::Key(number) => number,
            SvcParamKey::Key65535 => 65535,
            SvcParamKey::Unknown(number) => number,
        ))
    }
}

impl SvcParamKey {
    /// Returns the number on the wire.
    #[inline]
    pub fn number(self) -> u16
        ensures { result ≡ key_number self }
    {
        u16::from(self)
    }

    // The rank of the variant.
    #[inline]
    fn variant(self) -> u8
        ensures { result ≡ key_variant self }
    {
        with_named_keys!(each_key, (rank self,
            SvcParamKey::Key(_) => 8,
            SvcParamKey::Key65535 => 9,
            SvcParamKey::Unknown(_) => 10,
        ))
    }
}

impl PartialEq for SvcParamKey {
    ghost eq = { numbered_eq key_number key_variant };

    ghost laws = { numbered_partial key_number key_variant };

    #[inline]
    fn eq(&self, other: &SvcParamKey) -> bool {
        if self.variant() != other.variant() {
            return false;
        }
        match (*self, *other) {
            (SvcParamKey::Key(a), SvcParamKey::Key(b)) => a == b,
            (SvcParamKey::Unknown(a), SvcParamKey::Unknown(b)) => a == b,
            _ => true,
        }
    }
}

impl Eq for SvcParamKey {
    ghost laws = { numbered_equiv key_number key_variant };
}

impl Hash for SvcParamKey {
    ghost hash_input = { numbered_hash fed.u16 key_number key_variant };

    ghost respects_eq = { numbered_alike fed.u16 key_number key_variant };

    #[inline]
    fn hash<H: Hasher>(&self, state: &mut H) {
        u16::from(*self).hash(state);
        self.variant().hash(state);
    }
}

impl PartialOrd for SvcParamKey {
    ghost partial_cmp = { numbered_partial_cmp key_number key_variant };

    ghost laws = { numbered_order key_number key_variant };

    #[inline]
    fn partial_cmp(&self, other: &SvcParamKey) -> Option<Ordering> {
        Some(self.cmp(other))
    }
}

impl Ord for SvcParamKey {
    ghost cmp = { numbered_cmp key_number key_variant };

    ghost total = { numbered_total key_number key_variant };

    ghost matches_partial_cmp = { λ _ _. refl };

    ghost matches_eq = { numbered_ties key_number key_variant };

    #[inline]
    fn cmp(&self, other: &SvcParamKey) -> Ordering {
        let numbers = u16::from(*self).cmp(&u16::from(*other));
        numbers.then(self.variant().cmp(&other.variant()))
    }
}

impl BinDecodable for SvcParamKey {
    ghost stands = { NumberedAt 2 key_number key_of };

    ghost refuses = { IsTruncated 2 };

    /// Reads the number in two octets, the higher one first. If fewer are left, this returns an error, and the decoder
    /// is unchanged.
    #[inline]
    fn read(decoder: &mut BinDecoder<'_>) -> Result<SvcParamKey, DecodeError>
        ensures reads { ReadsBy (NumberedAt 2 key_number key_of) result decoder.old decoder.new }
        ensures lacking { IfErr result (λ e. (e ≡ DecodeError.InsufficientBytes) × LacksOctets decoder.old 2) }
        ensures unchanged { OnErr result (decoder.new ≡ decoder.old) }
    {
        let number = decoder.read_u16()?.unverified();
        Ok(SvcParamKey::from(number))
    }
}

impl BinEncodable for SvcParamKey {
    ghost emits = { λ x r old new. EmitsField (Number 2) (key_number x) r old new };

    /// Appends the number in two octets, the higher one first.
    #[inline]
    fn emit(&self, encoder: &mut BinEncoder<'_>) -> Result<(), ProtoError> {
        encoder.emit_u16(u16::from(*self))
    }
}

impl fmt::Display for SvcParamKey {
    ghost use Rattle.std.specs.Prelude.{Some};
    ghost use Rattle.dns_rdata_service.specs.SvcParamKey.{key_text};

    ghost output = { λ e. Some (key_text e) };

    /// Writes the key's name: `alpn`. For numbers without a name it is `key` or `unknown`, by the variant, and the
    /// number.
    #[tactic(auto, unfolding(crate::specs::SvcParamKey::key_text))]
    fn fmt<W: fmt::Write>(&self, f: &mut fmt::Formatter<W>) -> fmt::Result {
        with_named_keys!(each_key, (write *self, f,
            SvcParamKey::Key(number) => write!(f, "key{number}"),
            SvcParamKey::Key65535 => f.write_str("key65535"),
            SvcParamKey::Unknown(number) => write!(f, "unknown{number}"),
        ))
    }
}

// The number after `key`.
fn numbered(text: &str) -> Option<u16>
    ensures { MatchOption result ((n : ℕ) → ¬ (IsNumberedKey text.now n)) (IsNumberedKey text.now) }
{
    let digits = text.strip_prefix("key")?;
    digits.parse::<u16>().ok()
}

/// Reads `mandatory`, `alpn`, `no-default-alpn`, `port`, `ipv4hint`, `ech`, `ipv6hint`, `dohpath`, `key65535`; or
/// `key`, perhaps a `+`, and a decimal number of 16 bits, which gives `Key` of that number even if it has a name. Any
/// other text gives `Message`. Allocates nothing.
impl FromStr for SvcParamKey {
    type Err = ProtoError;

    ghost use Rattle.std.specs.Net.Grammar.{Parses};
    ghost use Rattle.dns_rdata_service.specs.ParameterTokens.{IsKeyText};

    ghost from_str_gives = { λ text r. Parses IsKeyText text r × IfErr r (λ e. e ≢ proto.Memory) };

    #[tactic(auto, using(crate::proofs::ParameterTokens::no_key, crate::proofs::ParameterTokens::not_memory), unfolding(crate::specs::SvcParamKey::key_text))]
    fn from_str(text: &str) -> Result<SvcParamKey, ProtoError> {
        with_named_keys!(each_key, (of_text text,
            "key65535" => Ok(SvcParamKey::Key65535),
            _ => match numbered(text) {
                Some(number) => Ok(SvcParamKey::Key(number)),
                None => Err(ProtoError::Message("no key of a service parameter")),
            },
        ))
    }
}
