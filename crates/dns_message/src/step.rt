//! A step of a walk over records, for callers that keep numbers alone.

ghost use Rattle.std.specs.Prelude.{◌+◌, ◌≤◌, length, IfOk, IfErr, OnOk};
ghost use Rattle.dns_names_wire.specs.Steps.{Leaves};
ghost use Rattle.dns_message.specs.{Passing.TellsContent, Steps.DataSteps, Steps.RecordSteps, Steps.Takes};
ghost use Rattle.dns_message.specs.{Readings.IsFound, Stops.IsRecordStop};

use crate::common::has_common_rdata;
use crate::error::{Fault, Section};
use crate::reading::{FixedFields, read_record};
use crate::record_ref::rdata_of;
use dns_types::DecodeError;

/// A record that a walk has passed, as numbers. [`MessageRef::step`](crate::MessageRef::step) returns it.
#[derive(Clone, Copy, Debug, PartialEq, Eq)]
pub struct PassedRecord {
    /// The section that the record is in.
    pub section: Section,
    /// The index of the record in its section, counted from 0.
    pub index: usize,
    /// The fields between its owner and its RDATA, and where the RDATA is.
    pub fields: FixedFields,
    /// `true` if it has RDATA, `false` if it has none ([`RecordRef::rdata`](crate::RecordRef::rdata)), or why its RDATA is
    /// rejected.
    pub content: Result<bool, DecodeError>,
}

// Returns whether a record has RDATA, or why that is rejected. Subtracts the steps of the RDATA from `left`,
// which stops at 0.
#[inline]
fn content_of(message: &[u8], fields: &FixedFields, left: &mut usize) -> Result<bool, DecodeError>
    requires { fields.now.rdata + fields.now.rdlength ≤ length message.now }
    ensures told { TellsContent message.now fields.now result }
    ensures steps { Leaves
        (DataSteps message.now fields.now.record_type fields.now.class fields.now.rdlength fields.now.rdata)
        left.old left.new }
{
    if has_common_rdata(message, fields, left) {
        return Ok(true);
    }
    match rdata_of(message, fields, left) {
        Ok(Some(_)) => Ok(true),
        Ok(None) => Ok(false),
        Err(reason) => Err(reason),
    }
}

// Returns the fields of the record at an offset, and whether it has RDATA, or why that is rejected. Subtracts its steps
// from `left`, which stops at 0. If it is 0 then, the record is not passed.
#[inline]
pub(crate) fn pass_record(
    message: &[u8],
    offset: usize,
    left: &mut usize,
) -> Result<(FixedFields, Result<bool, DecodeError>), Fault>
    requires { offset ≤ length message.now }
    ensures found { IfOk result (λ x. IsFound message.now offset x.0) }
    ensures told { IfOk result (λ x. TellsContent message.now x.0 x.1) }
    ensures within { OnOk result (Takes (RecordSteps message.now offset) left.old left.new) }
    ensures stopped { IfErr result (IsRecordStop message.now offset left.old) }
{
    match read_record(message, offset, left) {
        Ok(fields) => {
            let content = content_of(message, &fields, left);
            if *left == 0 {
                return Err(Fault::Limit);
            }
            Ok((fields, content))
        }
        Err(fault) => Err(fault),
    }
}
