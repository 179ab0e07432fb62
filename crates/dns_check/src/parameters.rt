//! The parameters of a service binding, one after the other (RFC 9460, 2.2).

ghost use Rattle.std.specs.Prelude.{◌≡◌, ◌<◌, ◌≤◌, ◌↔◌, IsTrue, IfOk, IfErr, IfSome, length};
ghost use Rattle.dns_fields.specs.declared.Kind.TheVariants.{Parameters};
ghost use Rattle.dns_check.specs.Parts.{Skips};
ghost use Rattle.dns_check.specs.Parameters.{IsAbove, TookParameter, IsParameterError};
ghost use Rattle.dns_check.specs.Lists.{ParametersThere};

use crate::parameter_values::check_value;
use crate::tlvs::end_of;
use dns_names_wire::walk::Walk;
use dns_rows::Rule;
use dns_types::DecodeError;

// The octets of a key and a length.
const HEAD: usize = 4;

// Takes a key, a length and a value, and returns the key.
#[tactic(auto, using(crate::proofs::ParameterSteps::one_taken, crate::proofs::ParameterSteps::one_refused, crate::proofs::ParameterSteps::one_truncated))]
fn skip_parameter(walk: &mut Walk<'_>) -> Result<u16, DecodeError>
    ensures taken { IfOk result (λ key. TookParameter walk.old key walk.new) }
    ensures refused { IfErr result (λ e. IsParameterError walk.old e walk.new) }
{
    let key = match walk.read_u16() {
        Ok(key) => key,
        Err(e) => return Err(e),
    };
    let size = match walk.read_u16() {
        Ok(size) => size as usize,
        Err(lack) => return Err(lack),
    };
    let left = walk.unread().len();
    if left < size {
        return Err(DecodeError::IncorrectRDataLengthRead {
            read: left,
            len: size,
        });
    }
    match walk.read_slice(size) {
        Ok(octets) => match check_value(key, octets) {
            Ok(()) => Ok(key),
            Err(wrong) => Err(wrong),
        },
        // Unreachable: so many octets are left.
        Err(none) => Err(none),
    }
}

// Returns whether a key's number is greater than the last one.
#[inline]
fn is_above(last: Option<u16>, number: u16) -> bool
    ensures { IsTrue result ↔ IsAbove last number }
{
    match last {
        None => true,
        Some(last) => last < number,
    }
}

/// Takes the parameters up to the end of `len` octets of RDATA from `start`. If fewer than four octets are left then, it
/// stops before them.
pub(crate) fn skip_parameters(
    walk: &mut Walk<'_>,
    start: usize,
    len: usize,
) -> Result<(), DecodeError>
    requires short { len < 65536 }
    requires before { start ≤ walk.old.index }
    ensures { Skips Rule.Paths Parameters start len result walk.old walk.new }
{
    let read = walk.index() - start;
    if len < read {
        return Err(DecodeError::IncorrectRDataLengthRead { read, len });
    }
    let end = start + len;
    let mut last = None;
    'parameters: while walk.index() + HEAD <= end {
        let key = match skip_parameter(walk) {
            Ok(key) => key,
            Err(e) => return Err(e),
        };
        if !is_above(last, key) {
            return Err(DecodeError::SvcParamsOutOfOrder);
        }
        last = Some(key);
        let taken = walk.index() - start;
        if len < taken {
            return Err(DecodeError::IncorrectRDataLengthRead { read: taken, len });
        }
    }
    Ok(())
}

/// Returns how many parameters there are from an offset to the end of RDATA, whose keys rise. `None` says nothing about them.
pub(crate) fn count_parameters(message: &[u8], at: usize, end: usize) -> Option<usize>
    requires within { at ≤ length message.now }
    requires inside { end ≤ length message.now }
    ensures { IfSome result (λ count. ParametersThere message.now at end count) }
{
    if end < at {
        return None;
    }
    let mut offset = at;
    let mut count = 0;
    let mut last = None;
    'parameters: while offset < end {
        let next = match end_of(message, offset) {
            Some(next) => next,
            None => return None,
        };
        let key = u16::from_be_bytes([message[offset], message[offset + 1]]);
        if end < next {
            return None;
        }
        if !is_above(last, key) {
            return None;
        }
        match check_value(key, &message[offset + 4..next]) {
            Ok(()) => {}
            Err(_) => return None,
        }
        last = Some(key);
        offset = next;
        count += 1;
    }
    Some(count)
}
