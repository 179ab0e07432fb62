//! RDATA as calls take it: it is looked at, checked and compared.

ghost use Rattle.std.specs.Prelude.{◌≡◌, ◌≢◌, ◌≤◌, ◌⊎◌, Err, IfOk, IfErr};
ghost use Rattle.dns_rdata.specs.Data.{HasValue, NoValue};
ghost use Rattle.dns_rdata_c.specs.{Reading.Of, Reading.Viewed, Reading.Rejected, Reading.RejectedAfter, Status.decode_status};
ghost use Rattle.dns_rdata_c.specs.Calls.{IsWhy, numbers_of, own_number, HasOrder, HasEquality, order_number, octets_order};

use crate::status::{MISSING_OCTETS, OK, OTHER_TYPE, REFUSED, status_of};
use dns_rdata::{BinDecoder, DecodeError, RDataRef, RecordType, Restrict};
use dns_rdata_base::counted::by_length;
use std::alloc::Global;
use std::cmp::Ordering;

/// RDATA that is encoded in a message: `struct dns_rdata` of C. Any octets and any numbers in it are safe.
#[repr(C)]
#[derive(Clone, Copy)]
pub struct Rdata<'a> {
    /// The whole message, into which compression pointers of names lead.
    pub message: &'a [u8],
    /// The offset of the RDATA in the message. It may be past the end of the message.
    pub offset: usize,
    /// RDLENGTH.
    pub length: u16,
    /// The number of the type.
    pub type_number: u16,
}

/// Looks at RDATA in its message. The error is the status. Allocates nothing.
pub fn view_at<'a>(alloc: Global, rdata: &Rdata<'a>) -> Result<RDataRef<'a>, u32>
    ensures found { IfOk result (Viewed rdata.now) }
    ensures refused { IfErr result (λ s. REFUSED ≤ s) }
    ensures cause { IfErr result (Rejected rdata.now) }
{
    let Ok(mut decoder) = BinDecoder::at(alloc, rdata.message, rdata.offset) else {
        return Err(MISSING_OCTETS);
    };
    let record_type = RecordType::from(rdata.type_number);
    RDataRef::read(&mut decoder, record_type, Restrict::new(rdata.length)).map_err(status_of)
}

/// The numbers of an error. Those that the status does not use are 0.
#[repr(C)]
#[derive(Clone, Copy)]
pub struct Reason {
    /// Octets that were read, of `LENGTH`.
    pub read: usize,
    /// Octets that there should have been, of `LENGTH`.
    pub len: usize,
    /// The number of the type of `NEVER`, the flags of `CSYNC_FLAGS`, the family of `ADDRESS_FAMILY`, by the cause.
    pub number: u32,
    /// The status of the record's own error, which is returned if the record takes exactly `length` octets; `OK` if it
    /// has none.
    pub cause: u32,
    /// The offset in the message where reading stopped.
    pub offset: usize,
}

// Tells the numbers of an error, of the record's own result, and of the offset where reading stopped, and returns the
// status.
fn tell(error: DecodeError, own: Result<(), DecodeError>, offset: usize, why: &mut Reason) -> u32
    ensures numbers { why.new ≡ numbers_of error own offset }
    ensures status { result ≡ decode_status error }
    ensures refused { error ≢ DecodeError.Memory → REFUSED ≤ result }
{
    let (read, len, offset) = match error {
        DecodeError::Memory => (0, 0, 0),
        DecodeError::IncorrectRDataLengthRead { read, len } => (read, len, offset),
        _ => (0, 0, offset),
    };
    let (number, cause) = match own {
        Ok(()) => (0, OK),
        Err(own) => (number_in(own), status_of(own)),
    };
    *why = Reason {
        read,
        len,
        number,
        cause,
        offset,
    };
    status_of(error)
}

// The number that the record's own error has.
fn number_in(own: DecodeError) -> u32
    ensures { result ≡ own_number (Err own) }
{
    match own {
        DecodeError::UnknownRecordTypeValue(number)
        | DecodeError::UnrecognizedCsyncFlags(number)
        | DecodeError::UnknownAddressFamily(number) => u32::from(number),
        _ => 0,
    }
}

/// Tells whether the octets are RDATA of their type, and, if they are not, the first reason with its numbers, the
/// record's own error, and the offset where reading stopped. Allocates nothing.
#[unsafe(no_mangle)]
pub extern "C" fn dns_rdata_check(alloc: Global, rdata: &Rdata<'_>, why: &mut Reason) -> u32
    // A value of the type fills the octets.
    ensures ok { result ≡ OK → Of rdata.now HasValue }
    // None does.
    ensures refused { REFUSED ≤ result → Of rdata.now NoValue }
    ensures why { result ≢ OK → Of rdata.now (λ m p n t. IsWhy m p n t result why.new) }
    ensures status { (result ≡ OK) ⊎ (REFUSED ≤ result) }
    ensures untold { result ≡ OK → why.new ≡ why.old }
{
    let offset = rdata.offset;
    let Ok(mut decoder) = BinDecoder::at(alloc, rdata.message, offset) else {
        let error = DecodeError::InsufficientBytes;
        return tell(error, Err(error), offset, why);
    };
    let length = Restrict::new(rdata.length);
    let own = RDataRef::own_result(&mut decoder, RecordType::from(rdata.type_number), length);
    match by_length(own, &decoder, offset, length) {
        Ok(()) => OK,
        Err(error) => tell(error, own, decoder.index(), why),
    }
}

// The number of an order: -1, 0 or 1.
fn number_of(order: Ordering) -> i32
    ensures { result ≡ order_number order }
{
    order as i32
}

/// Tells the order of the RDATA of two records of one type: -1, 0 or 1, by their canonical octets. Allocates nothing.
#[unsafe(no_mangle)]
pub extern "C" fn dns_rdata_compare(
    alloc: Global,
    rdata: &Rdata<'_>,
    other: &Rdata<'_>,
    order: &mut i32,
) -> u32
    ensures ok { result ≡ OK → Of rdata.now (λ m p n t. Of other.now (λ l q k u. HasOrder t m p n l q k order.new)) }
    // The types are told first, then what is wrong with the first RDATA, and then with the second.
    ensures types { result ≡ OTHER_TYPE → rdata.now.type_number ≢ other.now.type_number }
    ensures first { rdata.now.type_number ≢ other.now.type_number → result ≡ OTHER_TYPE }
    ensures cause { REFUSED ≤ result → Rejected rdata.now result ⊎ RejectedAfter rdata.now other.now result }
    ensures status { (result ≡ OK) ⊎ (result ≡ OTHER_TYPE) ⊎ (REFUSED ≤ result) }
    ensures untold { result ≢ OK → order.new ≡ order.old }
{
    if rdata.type_number != other.type_number {
        return OTHER_TYPE;
    }
    let data = match view_at(alloc, rdata) {
        Ok(data) => data,
        Err(status) => return status,
    };
    match view_at(alloc, other) {
        Err(status) => status,
        Ok(other) => match data.compare(&other) {
            Some(first) => {
                *order = number_of(first);
                OK
            }
            // Unreachable: the types are the same.
            None => OTHER_TYPE,
        },
    }
}

/// Tells whether the RDATA of two records of one type is equal: 1 if their canonical octets are the same, and 0
/// otherwise. Allocates nothing.
#[unsafe(no_mangle)]
pub extern "C" fn dns_rdata_equal(
    alloc: Global,
    rdata: &Rdata<'_>,
    other: &Rdata<'_>,
    equal: &mut i32,
) -> u32
    ensures ok { result ≡ OK → Of rdata.now (λ m p n t. Of other.now (λ l q k u. HasEquality t m p n l q k equal.new)) }
    // The types are told first, then what is wrong with the first RDATA, and then with the second.
    ensures types { result ≡ OTHER_TYPE → rdata.now.type_number ≢ other.now.type_number }
    ensures first { rdata.now.type_number ≢ other.now.type_number → result ≡ OTHER_TYPE }
    ensures cause { REFUSED ≤ result → Rejected rdata.now result ⊎ RejectedAfter rdata.now other.now result }
    ensures status { (result ≡ OK) ⊎ (result ≡ OTHER_TYPE) ⊎ (REFUSED ≤ result) }
    ensures untold { result ≢ OK → equal.new ≡ equal.old }
{
    let mut order = 0;
    let status = dns_rdata_compare(alloc, rdata, other, &mut order);
    if status == OK {
        *equal = if order == 0 { 1 } else { 0 };
    }
    status
}

/// The order of two lists of octets: -1, 0 or 1, a proper beginning before what goes on. Of canonical octets it is the
/// order of the data. Allocates nothing.
#[unsafe(no_mangle)]
pub extern "C" fn dns_rdata_compare_canonical(octets: &[u8], other: &[u8]) -> i32
    ensures { result ≡ octets_order octets.now other.now }
{
    number_of(octets.cmp(&other))
}
