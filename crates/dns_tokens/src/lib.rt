//! The display texts of records: text cut into tokens, and values read from tokens.
//!
//! A reader takes its tokens one by one from an iterator of `&str`, `String` or another type that is seen as a text,
//! and keeps no list of them. `text.split_whitespace()`, `strings.iter()` of a `&[String]`, `Vec<String>::into_iter()`
//! and `TokenList` of a `&[&str]` serve.
#![tactic(auto)]

pub mod field;
pub mod from_tokens;
pub mod reading;
pub mod text;
pub mod texts;
pub mod token_list;

pub use field::Field;
pub use from_tokens::FromTokens;
pub use reading::{
    all_texts, join_tokens, next_base64, next_ipv4, next_ipv6, next_kept, next_name,
    next_signed_ttl, next_token, next_ttl, next_u8, next_u16, next_u32, no_more,
};
pub use text::lexer::Lexer;
pub use text::list::read_item;
pub use text::plain::{PlainWords, is_plain};
pub use text::quiet::quiet_len;
pub use text::segments::next_segment;
pub use text::spans::{is_blank, is_line_end};
pub use text::token::Token;
pub use text::ttl::parse_ttl;
pub use text::words::text_words;
pub use texts::Base64Text;
pub use token_list::TokenList;
