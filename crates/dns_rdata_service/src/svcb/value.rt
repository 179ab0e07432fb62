//! The values of service parameters.

ghost use Rattle.std.specs.Prelude.{◌≡◌, IfOk};
ghost use Rattle.dns_fields.specs.Tlvs.{IsEmittable, IsBody};
ghost use Rattle.dns_rdata_service.specs.{SvcParamValue.own_key, SvcParamValue.value_rank, OwnKeys.value_eq};
ghost use Rattle.dns_rdata_service.specs.SvcParamValue.{value_of, hint4_value, hint6_value, IsValueOf, EmitsValue};
ghost use Rattle.dns_rdata_service.specs.{SvcParamKey.key_number, SvcParamKey.key_of, SvcParamValue.EmitsSized};

use crate::svcb::alpn::Alpn;
use crate::svcb::doh_path::DohPath;
use crate::svcb::ech_config_list::EchConfigList;
use crate::svcb::ip_hint::IpHint;
use crate::svcb::key::SvcParamKey;
use crate::svcb::mandatory::Mandatory;
use crate::svcb::unknown::Unknown;
use dns_check::BinDecodable;
use dns_names_wire::{BinDecoder, BinEncodable, BinEncoder, DecodeError, ProtoError};
use dns_rdata_base::{A, AAAA};
use std::alloc::{AllocError, Global};
use std::fmt;

/// The value of a service parameter (RFC 9460, sections 7 and 8; RFC 9461, section 5). A read makes the variant of the
/// key; a caller may put any variant under any key.
#[derive(Debug, Drop, PartialEq, Eq, Hash)]
pub enum SvcParamValue {
    /// Keys that a client must know. In a token: a list of keys.
    Mandatory(Mandatory),
    /// Protocols. In a token: a list of names.
    Alpn(Alpn),
    /// The scheme's default protocol is not supported. A token has no value and no `=`.
    NoDefaultAlpn,
    /// A port. In a token: a decimal number of 16 bits.
    Port(u16),
    /// IPv4 addresses. In a token: a list of addresses.
    Ipv4Hint(IpHint<A>),
    /// An ECHConfigList for Encrypted ClientHello. In a token: base64 (RFC 4648, section 4).
    EchConfigList(EchConfigList),
    /// IPv6 addresses. In a token: a list of addresses.
    Ipv6Hint(IpHint<AAAA>),
    /// The template of the path of DNS queries over HTTPS (RFC 9461, section 5). In a token: the path.
    DohPath(DohPath),
    /// The octets of any other key.
    Unknown(Unknown),
}

// Calls a macro with the arguments, and after them each variant of a type of its own that is the value of the key with
// its name, with the rank of the variant.
macro_rules! with_values {
    ($macro:ident, $arguments:tt) => {
        $macro!(
            $arguments (Mandatory 0) (Alpn 1) (Ipv4Hint 4) (EchConfigList 5) (Ipv6Hint 6) (DohPath 7)
        )
    };
}

// The same for each variant that is octets.
macro_rules! with_octets {
    ($macro:ident, $arguments:tt) => {
        $macro!($arguments (EchConfigList 5) (DohPath 7) (Unknown 8))
    };
}

// Matches a value or two: an arm for each variant, all with the same body, and then the given arms.
macro_rules! each_value {
    ((clone $value:expr, $($rest:tt)+) $(($variant:ident $rank:literal))+) => {
        match $value { $(SvcParamValue::$variant(x) => Ok(SvcParamValue::$variant(x.clone()?)),)+ $($rest)+ }
    };
    ((key $value:expr, $($rest:tt)+) $(($variant:ident $rank:literal))+) => {
        match $value { $(SvcParamValue::$variant(_) => Some(SvcParamKey::$variant),)+ $($rest)+ }
    };
    ((rank $value:expr, $($rest:tt)+) $(($variant:ident $rank:literal))+) => {
        match $value { $(SvcParamValue::$variant(_) => $rank,)+ $($rest)+ }
    };
    ((($a:expr, $b:expr), $x:ident, $y:ident => $body:expr, $($rest:tt)+) $(($variant:ident $rank:literal))+) => {
        match ($a, $b) { $((SvcParamValue::$variant($x), SvcParamValue::$variant($y)) => $body,)+ $($rest)+ }
    };
    (($value:expr, $x:ident => $body:expr, $($rest:tt)+) $(($variant:ident $rank:literal))+) => {
        match $value { $(SvcParamValue::$variant($x) => $body,)+ $($rest)+ }
    };
}

pub(crate) use each_value;
pub(crate) use with_octets;

impl SvcParamValue {
    // The value of this key that these octets are. Its errors are told by the row of the record.
    #[tactic(auto, using(crate::proofs::SvcbValues::hint4_back, crate::proofs::SvcbValues::hint6_back), unfolding(crate::specs::SvcParamKey::key_of))]
    pub(super) fn of_octets(
        alloc: Global,
        key: SvcParamKey,
        octets: &[u8],
    ) -> Result<SvcParamValue, DecodeError>
        requires { key ≡ key_of (key_number key) }
        ensures { IfOk result (λ v. IsValueOf (key_number key) octets.now v) }
    {
        let mut decoder = BinDecoder::new(alloc, octets);
        match key {
            SvcParamKey::Mandatory => Ok(Self::Mandatory(Mandatory::read(&mut decoder)?)),
            SvcParamKey::Alpn => Ok(Self::Alpn(Alpn::read(&mut decoder)?)),
            SvcParamKey::NoDefaultAlpn => {
                if octets.len() != 0 {
                    return Err(DecodeError::IncorrectRDataLengthRead {
                        read: octets.len(),
                        len: 0,
                    });
                }
                Ok(Self::NoDefaultAlpn)
            }
            SvcParamKey::Port => Ok(Self::Port(decoder.read_u16()?.unverified())),
            SvcParamKey::Ipv4Hint => Ok(Self::Ipv4Hint(hint4(alloc, octets)?)),
            SvcParamKey::EchConfigList => Ok(Self::EchConfigList(EchConfigList::read(
                &mut decoder,
            )?)),
            SvcParamKey::Ipv6Hint => Ok(Self::Ipv6Hint(hint6(alloc, octets)?)),
            SvcParamKey::DohPath => Ok(Self::DohPath(DohPath::read(&mut decoder)?)),
            SvcParamKey::Key(_) | SvcParamKey::Key65535 | SvcParamKey::Unknown(_) => {
                Ok(SvcParamValue::Unknown(Unknown::read(&mut decoder)?))
            }
        }
    }

    // Appends the octets without their length.
    #[tactic(auto, using(crate::proofs::EachEmits::number_emits))]
    fn emit_octets(&self, encoder: &mut BinEncoder<'_>) -> Result<(), ProtoError>
        ensures { EmitsValue (value_of self.now) result encoder.old encoder.new }
    {
        with_values!(each_value, (self, value => value.emit(encoder),
            SvcParamValue::NoDefaultAlpn => Ok(()),
            SvcParamValue::Port(port) => encoder.emit_u16(*port),
            SvcParamValue::Unknown(value) => value.emit(encoder),
        ))
    }

    /// Returns the key whose values have this form; `None` for [`Unknown`](SvcParamValue::Unknown) octets, which go
    /// with any other key.
    pub fn key(&self) -> Option<SvcParamKey>
        ensures { result ≡ own_key self.now }
    {
        with_values!(each_value, (key self,
            SvcParamValue::NoDefaultAlpn => Some(SvcParamKey::NoDefaultAlpn),
            SvcParamValue::Port(_) => Some(SvcParamKey::Port),
            SvcParamValue::Unknown(_) => None,
        ))
    }

    // The rank of the variant.
    #[inline]
    pub(crate) fn rank(&self) -> u8
        ensures { result ≡ value_rank self.now }
    {
        with_values!(each_value, (rank self,
            SvcParamValue::NoDefaultAlpn => 2,
            SvcParamValue::Port(_) => 3,
            SvcParamValue::Unknown(_) => 8,
        ))
    }
}

// Whether both values are of one variant, and equal. Inlined, so that a list is compared without a call for each value.
#[inline(always)]
pub(super) fn same_value(a: &SvcParamValue, b: &SvcParamValue) -> bool
    ensures { result ≡ value_eq a.now b.now }
{
    with_values!(each_value, ((a, b), x, y => *x == *y,
        (SvcParamValue::NoDefaultAlpn, SvcParamValue::NoDefaultAlpn) => true,
        (SvcParamValue::Port(x), SvcParamValue::Port(y)) => *x == *y,
        (SvcParamValue::Unknown(x), SvcParamValue::Unknown(y)) => *x == *y,
        _ => false,
    ))
}

// Addresses of four octets.
fn hint4(alloc: Global, octets: &[u8]) -> Result<IpHint<A>, DecodeError>
    ensures fit { IfOk result (λ x. IsEmittable (hint4_value x)) }
    ensures body { IfOk result (λ x. IsBody octets.now (hint4_value x)) }
{
    IpHint::<A>::read(&mut BinDecoder::new(alloc, octets))
}

// Addresses of sixteen octets.
fn hint6(alloc: Global, octets: &[u8]) -> Result<IpHint<AAAA>, DecodeError>
    ensures fit { IfOk result (λ x. IsEmittable (hint6_value x)) }
    ensures body { IfOk result (λ x. IsBody octets.now (hint6_value x)) }
{
    IpHint::<AAAA>::read(&mut BinDecoder::new(alloc, octets))
}

impl BinEncodable for SvcParamValue {
    ghost emits = { λ x r old new. EmitsSized (value_of x) r old new };

    /// Appends the value's length in two octets, and its octets. Returns [`Message`](ProtoError::Message) for an empty
    /// list of keys or protocols and for a protocol of more than 255 octets. A value of more than 65535 octets fits in
    /// no message: it returns [`MaxBufferSizeExceeded`](ProtoError::MaxBufferSizeExceeded).
    #[tactic(auto, using(crate::proofs::EachEmits::length_refused, crate::proofs::EachEmits::sized_refused))]
    fn emit(&self, encoder: &mut BinEncoder<'_>) -> Result<(), ProtoError> {
        let place = encoder.place()?;
        self.emit_octets(encoder)?;
        let size = encoder.len_since_place(&place);
        encoder.replace(place, size as u16);
        Ok(())
    }
}

impl Clone for SvcParamValue {
    ghost is_clone = { λ a b. b ≡ a };

    /// Copies the value.
    #[inline]
    fn clone(&self) -> Result<SvcParamValue, AllocError>
        ensures { IfOk result (λ copy. copy ≡ self.now) }
    {
        with_values!(each_value, (clone self,
            SvcParamValue::NoDefaultAlpn => Ok(SvcParamValue::NoDefaultAlpn),
            SvcParamValue::Port(port) => Ok(SvcParamValue::Port(*port)),
            SvcParamValue::Unknown(value) => Ok(SvcParamValue::Unknown(value.clone()?)),
        ))
    }
}

impl fmt::Display for SvcParamValue {
    ghost use Rattle.std.specs.Prelude.{Some};
    ghost use Rattle.dns_rdata_service.specs.SvcParamValue.{value_text};

    ghost output = { λ x. Some (value_text x) };

    /// Writes the value as in a zone file, with a comma after each key, protocol and address: `h2,`. Writes nothing for
    /// `NoDefaultAlpn`.
    fn fmt<W: fmt::Write>(&self, f: &mut fmt::Formatter<W>) -> fmt::Result {
        with_values!(each_value, (self, value => write!(f, "{value}"),
            SvcParamValue::NoDefaultAlpn => Ok(()),
            SvcParamValue::Port(port) => write!(f, "{port}"),
            SvcParamValue::Unknown(value) => write!(f, "{value}"),
        ))
    }
}
