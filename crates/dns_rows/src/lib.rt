//! The grammar of each type of record as data: its fields in order, and what is asked of a field beyond its kind.
#![tactic(auto)]

pub mod row;

ghost use Rattle.dns_rows.specs.Written.{RowsLaw};

pub use row::{Front, Part, Row, Rule, row_of};

/// The rows are the fields that the RFCs list. They are written out once more in the definition, so that a change of a
/// row by mistake is no proof.
pub fn rows_hold()
    ensures { RowsLaw }
{}
