//! One record of a message.

ghost use Rattle.std.specs.Prelude.{◌≡◌, ◌≢◌, ◌≤◌, ◌↔◌, IsTrue, length, IfOk, IfErr, OnOk, MatchOption};
ghost use Rattle.dns_rdata.specs.{Views.IsViewOf};
ghost use Rattle.dns_message.specs.OptRecords.{IsEdns};
ghost use Rattle.dns_names_wire.specs.Steps.{Leaves};
ghost use Rattle.dns_rdata.specs.Steps.{RDataSteps};
ghost use Rattle.dns_message.specs.{Steps.DataSteps, Steps.RecordSteps, Steps.Takes, Stops.IsRecordStop};
ghost use Rattle.dns_message.specs.{Readings.IsFound, Records.HasNoData, Items.IsDataOf, Items.IsRefusedAt, Items.IsRejected, Items.GivesRecord};

use crate::edns::{Edns, edns_of};
use crate::error::{Fault, RecordError, Section};
use crate::reading::{FixedFields, read_record};
use crate::sections::Position;
use dns_names_wire::Walk;
use dns_rdata::RDataRef;
use dns_types::{DecodeError, RecordType, Restrict};
use dns_view::NameRef;

// The classes of records of UPDATE that have no data (RFC 2136, sections 2.4 and 2.5).
const NONE: u16 = 254;

const ANY: u16 = 255;

// The number of OPT.
const OPT: u16 = 41;

/// A record, lent from a message (RFC 1035, section 4.1.3). A copy is cheap.
///
///     +--+--+--+--+--+--+--+--+
///     /         NAME          /   the owner, a domain name, compressed or not
///     +--+--+--+--+--+--+--+--+
///     |         TYPE          |   u16
///     +--+--+--+--+--+--+--+--+
///     |         CLASS         |   u16
///     +--+--+--+--+--+--+--+--+
///     |          TTL          |   u32
///     +--+--+--+--+--+--+--+--+
///     |       RDLENGTH        |   u16: the number of octets of RDATA
///     +--+--+--+--+--+--+--+--+
///     /         RDATA         /   as its type asks
///     +--+--+--+--+--+--+--+--+
#[derive(Clone, Copy)]
pub struct RecordRef<'a> {
    /// The section that the record is in.
    pub section: Section,
    /// The index of the record in its section, counted from 0.
    pub index: usize,
    /// The offset in the message where the record starts.
    pub offset: usize,
    /// The owner.
    pub owner: NameRef<'a>,
    /// The type.
    pub record_type: RecordType,
    /// The class: 1 for IN. Of OPT it is the UDP payload size: see [`edns`](RecordRef::edns).
    pub class: u16,
    /// The TTL in seconds, as it is encoded. RFC 2181, section 8, takes a value of 2^31 or more as 0; RFC 8767, section 4,
    /// takes it as positive and caps it. Neither is done here. Of OPT it is more: see [`edns`](RecordRef::edns).
    pub ttl: u32,
    /// The RDATA, or `None` if the class is NONE or ANY, RDLENGTH is 0 and the type is not OPT. UPDATE has such records (RFC
    /// 2136, sections 2.4 and 2.5). The OPCODE of the message is not looked at, so a caller that expects no UPDATE must reject
    /// them.
    pub rdata: Option<RDataRef<'a>>,
}

impl<'a> RecordRef<'a> {
    /// What an OPT record says in place of class and TTL, or `None` for another type. Allocates nothing.
    pub fn edns(&self) -> Option<Edns>
        ensures { MatchOption result (self.now.record_type ≢ RecordType.OPT)
            (λ e. (self.now.record_type ≡ RecordType.OPT) × IsEdns self.now.class self.now.ttl e) }
    {
        match self.record_type {
            RecordType::OPT => Some(edns_of(self.class, self.ttl)),
            _ => None,
        }
    }
}

// Returns whether a record has no data, as records of UPDATE may.
fn has_no_data(record_type: u16, class: u16, rdlength: u16) -> bool
    ensures { IsTrue result ↔ HasNoData record_type class rdlength }
{
    if rdlength != 0 || record_type == OPT {
        return false;
    }
    match class {
        NONE | ANY => true,
        _ => false,
    }
}

// Checks the RDATA at an offset, and subtracts its steps from `left`, which stops at 0.
fn read_rdata<'a>(
    message: &'a [u8],
    record_type: RecordType,
    rdlength: u16,
    rdata: usize,
    left: &mut usize,
) -> Result<RDataRef<'a>, DecodeError>
    requires { rdata ≤ length message.now }
    ensures found { IfOk result (IsViewOf message.now rdata rdlength record_type) }
    ensures refused { IfErr result (IsRefusedAt message.now rdata rdlength record_type) }
    ensures steps { Leaves (RDataSteps record_type rdlength (record { message = message.now; index = rdata }))
        left.old left.new }
{
    let mut walk = Walk::at(message, rdata);
    RDataRef::read_in(&mut walk, record_type, Restrict::new(rdlength), left)
}

// The RDATA of a record, or none if it has no data.
pub(crate) fn rdata_of<'a>(
    message: &'a [u8],
    fixed: &FixedFields,
    left: &mut usize,
) -> Result<Option<RDataRef<'a>>, DecodeError>
    requires { fixed.now.rdata ≤ length message.now }
    ensures found { IfOk result (IsDataOf message.now fixed.now.record_type fixed.now.class fixed.now.rdlength fixed.now.rdata) }
    ensures refused { IfErr result (IsRejected message.now fixed.now.record_type fixed.now.class fixed.now.rdlength fixed.now.rdata) }
    ensures steps { Leaves
        (DataSteps message.now fixed.now.record_type fixed.now.class fixed.now.rdlength fixed.now.rdata)
        left.old left.new }
{
    if has_no_data(fixed.record_type, fixed.class, fixed.rdlength) {
        return Ok(None);
    }
    match read_rdata(
        message,
        RecordType::from(fixed.record_type),
        fixed.rdlength,
        fixed.rdata,
        left,
    ) {
        Ok(rdata) => Ok(Some(rdata)),
        Err(reason) => Err(reason),
    }
}

// Returns the item for the record at an offset, whose fixed fields were read. Subtracts the steps of its RDATA
// from `left`, which stops at 0.
fn record_at<'a>(
    message: &'a [u8],
    position: Position,
    offset: usize,
    fixed: FixedFields,
    left: &mut usize,
) -> Result<RecordRef<'a>, RecordError>
    requires inside { offset ≤ length message.now }
    requires rdata { fixed.rdata ≤ length message.now }
    requires found { IsFound message.now offset fixed }
    ensures gives { GivesRecord message.now position.section position.index offset fixed.end result }
    ensures steps { Leaves (DataSteps message.now fixed.record_type fixed.class fixed.rdlength fixed.rdata)
        left.old left.new }
{
    let owner = NameRef::at(message, offset);
    let record_type = RecordType::from(fixed.record_type);
    match rdata_of(message, &fixed, left) {
        Ok(rdata) => Ok(RecordRef {
            section: position.section,
            index: position.index,
            offset,
            owner,
            record_type,
            class: fixed.class,
            ttl: fixed.ttl,
            rdata,
        }),
        Err(reason) => Err(RecordError {
            section: position.section,
            index: position.index,
            offset,
            fault: Fault::RData(reason),
        }),
    }
}

// The item for a record, and its fixed fields.
#[derive(Clone, Copy)]
pub(crate) struct Entry<'a> {
    pub(crate) item: Result<RecordRef<'a>, RecordError>,
    pub(crate) fixed: FixedFields,
}

// Returns the item for the record at an offset. Subtracts its steps, those of its owner and of its RDATA, from
// `left`, which stops at 0. If it is 0 then, the record is not returned.
pub(crate) fn read_entry<'a>(
    message: &'a [u8],
    position: Position,
    offset: usize,
    left: &mut usize,
) -> Result<Entry<'a>, Fault>
    requires { offset ≤ length message.now }
    ensures gives { IfOk result
        (λ e. GivesRecord message.now position.section position.index offset e.fixed.end e.item) }
    ensures inside { IfOk result (λ e. e.fixed.end ≤ length message.now) }
    ensures within { OnOk result (Takes (RecordSteps message.now offset) left.old left.new) }
    ensures stopped { IfErr result (IsRecordStop message.now offset left.old) }
{
    match read_record(message, offset, left) {
        Ok(fixed) => {
            let item = record_at(message, position, offset, fixed, left);
            if *left == 0 {
                return Err(Fault::Limit);
            }
            Ok(Entry { item, fixed })
        }
        Err(fault) => Err(fault),
    }
}
