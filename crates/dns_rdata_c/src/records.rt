//! The records of a message, one after the other.

ghost use Rattle.std.specs.Prelude.{◌≡◌, ◌≢◌, ◌≤◌, ◌<◌, ◌⊎◌, length as size};
ghost use Rattle.dns_message.specs.{Headers.HasHeader};
ghost use Rattle.dns_rdata_c.specs.RecordWalks.{BeginsWalk, NeverBegins, Passes, HasContent, HasRejected, EndsAtDamage, EndsAtLimit, IsAtEnd};
ghost use Rattle.dns_rdata_c.specs.RecordWalks.{cursor, told_of};

use crate::status::{ABSENT, DAMAGED, HEADER, LIMIT, OK, QUESTION, RECORD, REFUSED, status_of};
use dns_message::{Fault, MessageRef, PassedRecord, Progress};

/// Where a walk over the records of a message is. The caller holds it; any numbers in it are safe.
#[repr(C)]
#[derive(Clone, Copy, Default)]
pub struct RecordsCursor {
    /// The offset of the next record.
    pub next: usize,
    /// How many records precede it.
    pub passed: usize,
    /// How many there are.
    pub until: usize,
    /// One more than the steps that may still be taken.
    pub left: usize,
}

/// A record, but for its RDATA.
#[repr(C)]
#[derive(Clone, Copy)]
pub struct Record {
    /// The offset of the record, where its owner is encoded.
    pub owner: usize,
    /// The offset of its RDATA.
    pub rdata: usize,
    /// The index in its section, counted from 0.
    pub index: usize,
    /// The section: 1 for answers, 2 for authorities, 3 for additional records.
    pub section: u32,
    /// The TTL, as it is encoded.
    pub ttl: u32,
    /// The number of the type.
    pub type_number: u16,
    /// The class.
    pub class: u16,
    /// RDLENGTH.
    pub length: u16,
    /// 0 for a record of UPDATE that has no data (RFC 2136, sections 2.4 and 2.5), and otherwise 1.
    pub has_data: u16,
}

fn cursor_of(place: Progress) -> RecordsCursor
    ensures { result ≡ cursor place }
{
    RecordsCursor {
        next: place.offset,
        passed: place.passed,
        until: place.until,
        left: place.left,
    }
}

// The numbers of a record at an offset, which was passed.
fn record_of(offset: usize, step: &PassedRecord) -> Record
    ensures { result ≡ told_of offset step.now }
{
    Record {
        owner: offset,
        rdata: step.fields.rdata,
        index: step.index,
        section: step.section as u32,
        ttl: step.fields.ttl,
        type_number: step.fields.record_type,
        class: step.fields.class,
        length: step.fields.rdlength,
        has_data: match step.content {
            Ok(false) => 0,
            _ => 1,
        },
    }
}

/// Sets a cursor before the first record of a message, after its questions. The walk may take 262,144 steps: a step is a label
/// or a compression pointer of a name. Allocates nothing.
#[unsafe(no_mangle)]
pub extern "C" fn dns_rdata_records_begin(message: &[u8], records: &mut RecordsCursor) -> u32
    ensures ok { result ≡ OK → BeginsWalk message.now records.new }
    ensures header { result ≡ HEADER → HasHeader message.now → ⊥ }
    ensures question { result ≡ QUESTION → NeverBegins message.now (λ fault. fault ≢ Fault.Limit) }
    ensures steps { result ≡ LIMIT → NeverBegins message.now (λ fault. fault ≡ Fault.Limit) }
    ensures status { (result ≡ OK) ⊎ (result ≡ HEADER) ⊎ (result ≡ QUESTION) ⊎ (result ≡ LIMIT) }
    ensures emptied { result ≢ OK → records.new ≡ record { next = 0; passed = 0; until = 0; left = 0 } }
{
    *records = RecordsCursor::default();
    let Ok(message) = MessageRef::read(message) else {
        return HEADER;
    };
    match message.records() {
        Ok(walk) => {
            *records = cursor_of(walk.progress());
            OK
        }
        Err(error) => match error.fault {
            Fault::Limit => LIMIT,
            _ => QUESTION,
        },
    }
}

/// Returns the record at the cursor, and moves the cursor to the next one. After the last record it returns `ABSENT`.
/// The message is the one with which the cursor began. Allocates nothing.
///
/// If the RDATA is rejected, the status is its error, as `dns_rdata_check` returns it; the record is told, and the walk
/// goes on. With `RECORD` no record is encoded there, and with `LIMIT` the record takes more steps
/// than the walk may; the walk has ended.
#[unsafe(no_mangle)]
pub extern "C" fn dns_rdata_records_next(
    message: &[u8],
    records: &mut RecordsCursor,
    told: &mut Record,
) -> u32
    ensures ok { result ≡ OK → Passes message.now records.old records.new told.new (λ r. HasContent message.now r told.new.has_data) }
    ensures rejected { REFUSED ≤ result → result < DAMAGED
        → Passes message.now records.old records.new told.new (λ r. HasRejected message.now r result told.new.has_data) }
    ensures damaged { result ≡ RECORD → EndsAtDamage message.now records.old records.new }
    ensures steps { result ≡ LIMIT → EndsAtLimit message.now records.old records.new }
    ensures absent { result ≡ ABSENT → IsAtEnd message.now records.old }
    ensures status { (result ≡ OK) ⊎ (result ≡ ABSENT) ⊎ (result ≡ RECORD) ⊎ (result ≡ LIMIT) ⊎ ((REFUSED ≤ result) × (result < DAMAGED)) }
    ensures unmoved { result ≡ ABSENT → records.new ≡ records.old }
    ensures untold { (result ≡ ABSENT) ⊎ (result ≡ RECORD) ⊎ (result ≡ LIMIT) → told.new ≡ told.old }
{
    let Ok(message) = MessageRef::read(message) else {
        return ABSENT;
    };
    let owner = records.next;
    let mut progress = Progress {
        offset: records.next,
        passed: records.passed,
        until: records.until,
        left: records.left,
    };
    let Some(step) = message.step(&mut progress) else {
        return ABSENT;
    };
    *records = cursor_of(progress);
    match step {
        Ok(step) => {
            *told = record_of(owner, &step);
            match step.content {
                Ok(_) => OK,
                Err(reason) => status_of(reason),
            }
        }
        Err(Fault::Limit) => LIMIT,
        Err(_) => RECORD,
    }
}
