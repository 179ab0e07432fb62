//! RDATA that is checked.

ghost use Rattle.std.specs.Prelude.{◌≡◌, ◌+◌, ◌<◌, IfErr, OnOk};
ghost use Rattle.dns_names_wire.specs.Terms.{StaysBehind};
ghost use Rattle.dns_check.specs.Checks.{FillsRow, NoFill, IsRowError};
ghost use Rattle.dns_check.specs.Rows.{IsRowChecked};
ghost use Rattle.dns_names_wire.specs.Steps.{Leaves};
ghost use Rattle.dns_check.specs.RowSteps.{RowSteps};

use crate::fields::skip_row;
use dns_names_wire::walk::Walk;
use dns_rows::Part;
use dns_types::DecodeError;

/// Checks that the next `len` octets are RDATA of this row, and takes them. Allocates nothing.
///
/// # Errors
///
/// The error is the one that reading the record returns. On error the decoder may be at any offset from the one where the
/// call began.
///
/// - [`IncorrectRDataLengthRead`](DecodeError::IncorrectRDataLengthRead): reading ended, after the last field or where a
///   field was rejected, after another number of octets than `len`, with both numbers.
/// - Otherwise the error of the first field that is missing or breaks the rule of its row.
///
/// Subtracts from `left` how many steps are taken; it stops at 0. They are those of the names up to and
/// including a field that is rejected.
#[inline]
pub fn check_data(
    walk: &mut Walk<'_>,
    row: &[Part],
    len: usize,
    left: &mut usize,
) -> Result<(), DecodeError>
    requires row { IsRowChecked row.now }
    requires short { len < 65536 }
    ensures found { OnOk result (FillsRow walk.old.message walk.old.index len row.now) }
    ensures after { OnOk result (walk.new.index ≡ walk.old.index + len) }
    ensures refused { IfErr result (λ e. NoFill walk.old.message walk.old.index len row.now) }
    ensures why { IfErr result (λ e. IsRowError row.now len walk.old e walk.new) }
    ensures behind { StaysBehind walk.old walk.new }
    ensures steps { Leaves (RowSteps row.now len walk.old) left.old left.new }
{
    let start = walk.index();
    let own = skip_row(walk, row, len, left);
    let read = walk.index() - start;
    if read == len {
        own
    } else {
        Err(DecodeError::IncorrectRDataLengthRead { read, len })
    }
}
