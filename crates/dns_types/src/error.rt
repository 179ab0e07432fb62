//! The errors: why octets, values or texts are rejected.
ghost use Rattle.std.specs.Prelude.{◌≡◌, ℕ, List, IfSome, IfNone};
ghost use Rattle.dns_types.specs.Errors.{decode_error, proto_error, IsAbout, NamesField};
ghost use Rattle.dns_types.specs.declared.error.DecodeError.TheVariants as decode;
ghost use Rattle.dns_types.specs.declared.error.ProtoError.TheVariants as proto;
ghost use Rattle.dns_types.specs.declared.error.ParseError.TheVariants as parse;

use crate::record_type::RecordType;
use std::alloc::{AllocError, AllocFailed};
use thiserror::Error;

/// Why octets were not read.
#[derive(Clone, Copy, Debug, PartialEq, Eq, Error)]
pub enum DecodeError {
    /// Octets were missing at the end of the message.
    #[error("unexpected end of input")]
    InsufficientBytes,
    /// Reading took another number of octets than the record's length gives, or a part has a length
    /// that it can't have.
    #[error("incorrect length of record data: read {read}, length {len}")]
    IncorrectRDataLengthRead {
        /// The octets that were read.
        read: usize,
        /// The octets that there should have been.
        len: usize,
    },
    /// Data of the type with this number is never read.
    #[error("no data is read for record type {0}")]
    UnknownRecordTypeValue(u16),
    /// A text is the text of no record type.
    #[error("unknown record type text")]
    UnknownRecordTypeStr,
    /// A domain name is damaged (RFC 1035, 3.1 and 4.1.4).
    #[error("invalid domain name")]
    NameInvalid,
    /// A bitmap of types is damaged (RFC 4034, 4.1.2).
    #[error("invalid type bitmap")]
    BitmapInvalid,
    /// A tag of CAA is not one to 15 ASCII letters and digits (RFC 6844, 5.1).
    #[error("invalid CAA tag")]
    CaaTagInvalid,
    /// A flag of NAPTR is no ASCII letter and no digit (RFC 3403, 4.1).
    #[error("invalid NAPTR flags")]
    NaptrFlagsInvalid,
    /// These flags of CSYNC have bits that are not known (RFC 7477, 2.1.1.2).
    #[error("unrecognized CSYNC flags: {0}")]
    UnrecognizedCsyncFlags(u16),
    /// An address family other than those of IPv4 and IPv6 (RFC 7871, 6).
    #[error("unknown address family: {0}")]
    UnknownAddressFamily(u16),
    /// A parameter that must have a value has none (RFC 9460, 7.1.1 and 8).
    #[error("missing value of a service parameter")]
    SvcParamMissingValue,
    /// The keys of service parameters don't strictly rise (RFC 9460, 2.2).
    #[error("service parameters out of order")]
    SvcParamsOutOfOrder,
    /// Octets are not UTF-8.
    #[error("invalid UTF-8")]
    Utf8,
    /// Memory ran out.
    #[error("out of memory")]
    Memory,
}

impl From<AllocError> for DecodeError {
    ghost from_gives = { λ _ e. e ≡ decode.Memory };

    fn from(_e: AllocError) -> DecodeError {
        DecodeError::Memory
    }
}

impl<T: Drop> From<AllocFailed<T>> for DecodeError {
    ghost from_gives = { λ _ e. e ≡ decode.Memory };

    fn from(_e: AllocFailed<T>) -> DecodeError {
        DecodeError::Memory
    }
}

/// Why a value was not emitted or a message not handled.
#[derive(Clone, Copy, Debug, PartialEq, Eq, Error)]
pub enum ProtoError {
    /// The octets would pass the encoder's limit.
    #[error("maximum buffer size exceeded")]
    MaxBufferSizeExceeded,
    /// Octets were not read.
    #[error("decoding error: {0}")]
    Decode(DecodeError),
    /// A value that has no octets; the text says why.
    #[error("{0}")]
    Message(&'static str),
    /// Memory ran out.
    #[error("out of memory")]
    Memory,
}

/// The outcome of what fails by a [`ProtoError`].
pub type ProtoResult<T> = Result<T, ProtoError>;

impl From<AllocError> for ProtoError {
    ghost from_gives = { λ _ e. e ≡ proto.Memory };

    fn from(_e: AllocError) -> ProtoError {
        ProtoError::Memory
    }
}

impl<T: Drop> From<AllocFailed<T>> for ProtoError {
    ghost from_gives = { λ _ e. e ≡ proto.Memory };

    fn from(_e: AllocFailed<T>) -> ProtoError {
        ProtoError::Memory
    }
}

/// `Memory` stays `Memory`; any other error becomes a `Decode`.
impl From<DecodeError> for ProtoError {
    ghost from_gives = { λ inner e. e ≡ decode_error inner };

    fn from(e: DecodeError) -> ProtoError {
        match e {
            DecodeError::Memory => ProtoError::Memory,
            other => ProtoError::Decode(other),
        }
    }
}

/// A text is no address, or no net.
#[derive(Clone, Copy, Debug, PartialEq, Eq, Error)]
#[error("invalid address syntax")]
pub struct AddrParseError;

/// Why a text was not read.
#[derive(Clone, Copy, Debug, PartialEq, Eq, Error)]
pub enum ParseError {
    /// A token is missing; the text names its field.
    #[error("{0} missing")]
    MissingToken(&'static str),
    /// A token or the whole text is wrong; the text says how.
    #[error("{0}")]
    Message(&'static str),
    /// No text is read for this type.
    #[error("unsupported record type: {0}")]
    UnsupportedRecordType(RecordType),
    /// A token is not an address.
    #[error("invalid address")]
    AddrParse,
    /// The lower layer rejected a name or a value.
    #[error("proto error: {0}")]
    Proto(ProtoError),
    /// Memory ran out.
    #[error("out of memory")]
    Memory,
}

impl ParseError {
    /// The name of the field that the error is about, as `MX preference`. `None` if it is about no field, as when a
    /// quote is not closed. Allocates nothing.
    ///
    /// [`MissingToken`](ParseError::MissingToken) has the name. A [`Message`](ParseError::Message) names a field if its
    /// text ends with ` token`: the name is what follows the last ` in ` before that.
    ///
    /// ```rust
    /// if let Some(field) = error.field() {
    ///     println!(rt; "  field {field}")?;
    /// }
    /// ```
    pub fn field(&self) -> Option<&'static str>
        ensures some { IfSome result (λ name. IsAbout self.now name.now) }
        ensures none { IfNone result ((name : List ℕ) → IsAbout self.now name → ⊥) }
    {
        match self {
            ParseError::MissingToken(name) => Some(*name),
            ParseError::Message(text) => field_in(*text),
            _ => None,
        }
    }
}

// The name of the field in a text about a token.
fn field_in(text: &'static str) -> Option<&'static str>
    ensures some { IfSome result (λ name. NamesField text.entry.now name.now) }
    ensures none { IfNone result ((name : List ℕ) → NamesField text.entry.now name → ⊥) }
{
    let front = text.strip_suffix(" token")?;
    let (_, name) = front.rsplit_once(" in ")?;
    Some(name)
}

impl From<AllocError> for ParseError {
    ghost from_gives = { λ _ e. e ≡ parse.Memory };

    fn from(_e: AllocError) -> ParseError {
        ParseError::Memory
    }
}

impl<T: Drop> From<AllocFailed<T>> for ParseError {
    ghost from_gives = { λ _ e. e ≡ parse.Memory };

    fn from(_e: AllocFailed<T>) -> ParseError {
        ParseError::Memory
    }
}

impl From<AddrParseError> for ParseError {
    ghost from_gives = { λ _ e. e ≡ parse.AddrParse };

    fn from(_e: AddrParseError) -> ParseError {
        ParseError::AddrParse
    }
}

/// `Memory`, at any depth, becomes `Memory`; any other error becomes a `Proto`.
impl From<ProtoError> for ParseError {
    ghost from_gives = { λ inner e. e ≡ proto_error inner };

    fn from(e: ProtoError) -> ParseError {
        match e {
            ProtoError::Memory | ProtoError::Decode(DecodeError::Memory) => ParseError::Memory,
            other => ParseError::Proto(other),
        }
    }
}

/// As through [`ProtoError`].
impl From<DecodeError> for ParseError {
    ghost from_gives = { λ inner e. e ≡ proto_error (decode_error inner) };

    fn from(e: DecodeError) -> ParseError {
        ParseError::from(ProtoError::from(e))
    }
}
