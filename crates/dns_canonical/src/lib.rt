//! Canonical octets in steps: each step is a head of a few fixed octets, and then a tail: a slice or a name's labels. A
//! cursor goes over the steps of a record.
#![tactic(auto)]

pub mod common;
pub mod count;
pub mod cursor;
pub mod head;
pub mod order;
pub mod run;
pub mod step;
pub mod tail;

pub use count::Count;
pub use cursor::{Cursor, Stepped};
pub use head::Head;
pub use order::{
    four_behind, name_behind, octets_cmp, one_behind, rest_behind, text_behind, two_behind,
};
pub use run::Run;
pub use step::{AtOnce, Step, whole_step};
pub use tail::Tail;
