//! Domain names and the wire format of DNS messages: decoders and an encoder.
#![tactic(auto)]

pub mod binary;
pub mod decoder;
pub mod encoder;
pub mod name;
pub mod name_ends;
pub mod record;
pub mod walk;

pub use binary::BinEncodable;
pub use decoder::BinDecoder;
pub use dns_fields::RDataEncoding;
pub use dns_labels::labels::LabelIter;
pub use dns_types::{
    AddrParseError, DecodeError, Octets, ParseError, ProtoError, ProtoResult, RecordType, Restrict,
    SmallOctets, error, octets, record_type, restrict,
};
pub use encoder::{BinEncoder, Place};
pub use name::Name;
pub use record::{EncodesFields, Record, emit_in};
pub use walk::Walk;
