//! Tokens of zone files: a text is divided into tokens, a token into letters, and fields are read from tokens.
#![tactic(auto)]

pub mod field;
pub mod fields;
pub mod letter;
pub mod mnemonics;
pub mod names;
pub mod near;
pub mod numbers;
pub mod remaining;
pub mod spans;
pub mod texts;
pub mod tokens;
pub mod tokens_error;
pub mod type_names;

pub use dns_tokens::{Field, number_field};
pub use field::{HexField, NameField, StringField};
pub use fields::{next_number, some_token};
pub use letter::{Letter, Letters};
pub use mnemonics::{Mnemonic, number_named};
pub use names::put_name;
pub use near::{ShortOctets, put_after, put_near_name, put_near_string, put_near_text, put_octets};
pub use numbers::number_of;
pub use remaining::{
    all_base64, all_hex, is_unknown_mark, no_more, put_base64, put_hex, unknown_data,
};
pub use spans::token_span;
pub use texts::{ipv4_of, ipv6_of, put_string, put_text, ttl_of, type_of};
pub use tokens::{ZoneToken, ZoneTokens};
pub use tokens_error::TokensError;
pub use type_names::type_named;
