//! The data of DNS resource records: read, emitted, printed and compared.
#![tactic(auto)]

pub mod canonical;
mod each;
pub mod order;
pub mod record_data;
mod tokens;
pub mod traits;
pub mod view;
pub mod view_fields;
mod view_order;

pub use canonical::CanonicalOctets;
pub use dns_check::{BinDecodable, RecordDataDecodable};
pub use dns_names_wire::{
    AddrParseError, BinDecoder, BinEncodable, BinEncoder, DecodeError, LabelIter, Name, Octets,
    ParseError, Place, ProtoError, ProtoResult, RDataEncoding, RecordType, Restrict, SmallOctets,
    decoder, encoder, error, record_type, restrict,
};
pub use dns_rdata_base::{
    A, AAAA, ANAME, CNAME, HINFO, MX, NAPTR, NS, NULL, OPENPGPKEY, PTR, SOA, SRV, TXT, TakesOctet,
    a, aaaa, mx, null, openpgpkey, srv, verify_flags,
};
pub use dns_rdata_certs::{CERT, HEX, SMIMEA, SSHFP, TLSA, cert, smimea, sshfp, tlsa};
pub use dns_rdata_options::{OPT, opt};
pub use dns_rdata_policy::{CAA, CSYNC, RecordTypeSet, record_type_set};
pub use dns_rdata_service::{HTTPS, Items, SVCB, https, items, svcb};
pub use dns_tokens::{FromTokens, Lexer, Token, TokenList};
pub use dns_types::Strings;
pub use dns_view::{FieldRef, Labels, NameRef, StringsRef, Tlv, Tlvs, TypesRef};
pub use record_data::RData;
pub use traits::RecordData;
pub use view::RDataRef;
pub use view_fields::{Fields, Names};

// Modules of records that share their file with functions for this crate alone.

/// What is read from a message and written to one.
pub mod binary {
    pub use dns_check::BinDecodable;
    pub use dns_names_wire::BinEncodable;
}

/// CAA and the values of its properties.
pub mod caa {
    pub use dns_rdata_policy::caa::{CAA, KeyValue, read_iodef, read_issuer};
}

/// CSYNC.
pub mod csync {
    pub use dns_rdata_policy::CSYNC;
}

/// HINFO.
pub mod hinfo {
    pub use dns_rdata_base::HINFO;
}

/// The records that are a name.
pub mod name {
    pub use dns_rdata_base::{ANAME, CNAME, NS, PTR};
}

/// NAPTR.
pub mod naptr {
    pub use dns_rdata_base::{NAPTR, verify_flags};
}

/// SOA.
pub mod soa {
    pub use dns_rdata_base::SOA;
}

/// TXT.
pub mod txt {
    pub use dns_rdata_base::TXT;
}
