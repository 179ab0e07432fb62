//! RDATA of the types that most records have, for which a few comparisons tell that it is there.

ghost use Rattle.std.specs.Prelude.{◌≡◌, ◌+◌, ◌≤◌, length};
ghost use Rattle.std.specs.Bool.{OnTrue, OnFalse};
ghost use Rattle.dns_names_wire.specs.{NameEnds.NameEnds, Steps.NameSteps, Steps.Leaves};
ghost use Rattle.dns_message.specs.Passing.{PassesRData};

use crate::reading::FixedFields;
use dns_check::fields::is_name_near;
use dns_names_wire::Walk;

// The numbers of these types (RFC 1035, section 3.2.2; RFC 3596, section 2.1).
const A: u16 = 1;

const NS: u16 = 2;

const CNAME: u16 = 5;

const PTR: u16 = 12;

const MX: u16 = 15;

const AAAA: u16 = 28;

// Returns `true` if the type of a record is a common one and its RDATA is as the type asks, and subtracts from `left` how many
// steps the RDATA has; it stops at 0. `false` leaves `left` unchanged, and says nothing about the record.
#[inline]
pub(crate) fn has_common_rdata(message: &[u8], fields: &FixedFields, left: &mut usize) -> bool
    requires { fields.now.rdata + fields.now.rdlength ≤ length message.now }
    ensures there { OnTrue result (PassesRData message.now fields.now left.old left.new) }
    ensures unchanged { OnFalse result (left.new ≡ left.old) }
{
    // For the proof: brings in that the message is octets.
    let _start = Walk::at(message, fields.rdata).index();
    let start = fields.rdata;
    let len = fields.rdlength as usize;
    match fields.record_type {
        A => len == 4,
        AAAA => len == 16,
        NS | CNAME | PTR if len > 0 => is_name_near(message, start, start + len, left),
        MX if len > 2 => is_name_near(message, start + 2, start + len, left),
        _ => false,
    }
}
