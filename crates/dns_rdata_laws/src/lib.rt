//! Laws of RDATA that a client's own proofs may cite: functions without a body, whose contracts say what is true of all
//! values. A program does not call them.
#![tactic(auto)]

ghost use Rattle.dns_rdata.specs.Laws.{OneValue, EachRegion, KeysTell};

pub use dns_fields::{comparing_holds, fields_hold};
pub use dns_labels::laws::{names_hold, texts_hold as name_texts_hold};
pub use dns_rdata_options::laws::{options_hold, orders_hold};
pub use dns_rdata_policy::laws::issuers_hold;
pub use dns_tokens::text::laws::{texts_hold, tokens_hold};

/// Octets as the RDATA of a record type.
pub fn regions_hold()
    // Octets are the RDATA of at most one value of a type.
    ensures one { OneValue }
    // They are the RDATA of one if the fields of the type fill them.
    ensures each { EachRegion }
{}

/// The first eight canonical octets as a number ([`order_key`](dns_rdata::RData::order_key)).
pub fn keys_hold()
    // Of two values of one type that were read, the one with the lesser key comes first.
    ensures { KeysTell }
{}
