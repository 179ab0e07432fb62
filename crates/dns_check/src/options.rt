//! The options of EDNS, one after the other (RFC 6891, 6.1.2).

ghost use Rattle.std.specs.Prelude.{◌≡◌, ◌+◌, ◌<◌, ◌≤◌, true, length, Ok, IfSome, IfNone, OnOk, IfErr};
ghost use Rattle.dns_fields.specs.declared.Kind.TheVariants.{Options};
ghost use Rattle.dns_check.specs.Parts.{Skips};
ghost use Rattle.dns_check.specs.Tlvs.{CompleteBy};
ghost use Rattle.dns_check.specs.Options.{HasOption, HasOptions, IsFamily, IsSubnetError, ReadsTlv, family_octets};

use crate::tlvs::end_of;
use dns_names_wire::walk::Walk;
use dns_rows::Rule;
use dns_types::DecodeError;

// The code of client subnets (RFC 7871, 6).
const SUBNET: u16 = 8;

// Returns how many octets an address of the family has, or `None` if such addresses are not known.
#[inline]
fn octets_of_family(family: u16) -> Option<usize>
    ensures known { IfSome result (λ most. IsFamily family × (most ≡ family_octets family)) }
    ensures unknown { IfNone result (IsFamily family → ⊥) }
{
    match family {
        1 => Some(4),
        2 => Some(16),
        _ => None,
    }
}

/// Checks that octets begin with a client subnet (RFC 7871, 6), whatever follows. Allocates nothing.
///
/// # Errors
///
/// They are looked for in this order.
///
/// - [`InsufficientBytes`](DecodeError::InsufficientBytes): there are fewer than two octets.
/// - [`UnknownAddressFamily`](DecodeError::UnknownAddressFamily): the family is neither 1 nor 2.
/// - [`InsufficientBytes`](DecodeError::InsufficientBytes): there are fewer than four octets.
/// - [`IncorrectRDataLengthRead`](DecodeError::IncorrectRDataLengthRead): the source prefix is longer than an address. `read`
///   is the length of an address, 4 or 16, and `len` how many octets the prefix needs.
/// - [`InsufficientBytes`](DecodeError::InsufficientBytes): the address ends before its source prefix.
pub fn check_subnet(octets: &[u8]) -> Result<(), DecodeError>
    ensures found { OnOk result (HasOption 8 octets.now) }
    ensures refused { IfErr result (λ e. IsSubnetError octets.now e) }
{
    if octets.len() < 2 {
        return Err(DecodeError::InsufficientBytes);
    }
    let family = u16::from_be_bytes([octets[0], octets[1]]);
    let most = match octets_of_family(family) {
        Some(most) => most,
        None => return Err(DecodeError::UnknownAddressFamily(family)),
    };
    if octets.len() < 4 {
        return Err(DecodeError::InsufficientBytes);
    }
    let size = (octets[2] as usize + 7) / 8;
    if most < size {
        return Err(DecodeError::IncorrectRDataLengthRead {
            read: most,
            len: size,
        });
    }
    if octets.len() - 4 < size {
        return Err(DecodeError::InsufficientBytes);
    }
    Ok(())
}

// Takes code and octets of the next option. `None` if the RDATA ends right after the code, or inside the octets of an option
// whose length is at most RDLENGTH; then all of the RDATA is taken.
#[tactic(auto, using(dns_names_wire::proofs::FieldReads::took_number))]
fn next_option<'a>(
    walk: &mut Walk<'a>,
    start: usize,
    len: usize,
) -> Result<Option<(u16, &'a [u8])>, DecodeError>
    requires behind { start ≤ walk.old.index }
    requires before { walk.old.index < start + len }
    requires short { len < 65536 }
    ensures { ReadsTlv (λ x. (x.0, x.1.now)) start len result walk.old walk.new }
{
    // For the proof: brings in that the index is small.
    let _index = walk.index();
    let end = start + len;
    let code = match walk.read_u16() {
        Ok(code) => code,
        Err(e) => return Err(e),
    };
    if walk.index() == end {
        return Ok(None);
    }
    if end < walk.index() {
        return Err(DecodeError::IncorrectRDataLengthRead {
            read: walk.index() - start,
            len,
        });
    }
    let size = match walk.read_u16() {
        Ok(size) => size as usize,
        Err(lack) => return Err(lack),
    };
    if end < walk.index() {
        return Err(DecodeError::IncorrectRDataLengthRead {
            read: walk.index() - start,
            len,
        });
    }
    if len < size {
        return Err(DecodeError::IncorrectRDataLengthRead {
            read: len,
            len: size,
        });
    }
    let left = end - walk.index();
    if left < size {
        match walk.read_in_steps(left, 1) {
            Ok(_) => return Ok(None),
            Err(cut) => return Err(cut),
        }
    }
    match walk.read_in_steps(size, 1) {
        Ok(octets) => Ok(Some((code, octets))),
        Err(missing) => Err(missing),
    }
}

/// Takes the options up to the end of `len` octets of RDATA from `start`. The last one may be cut off ([`next_option`]).
pub(crate) fn skip_options(
    walk: &mut Walk<'_>,
    rule: Rule,
    start: usize,
    len: usize,
) -> Result<(), DecodeError>
    requires short { len < 65536 }
    requires before { start ≤ walk.old.index }
    ensures { Skips rule Options start len result walk.old walk.new }
{
    let read = walk.index() - start;
    if len < read {
        return Err(DecodeError::IncorrectRDataLengthRead { read, len });
    }
    let from = walk.index();
    let size = len - read;
    let end = from + size;
    'tlvs: while walk.index() < end {
        match next_option(walk, from, size) {
            Ok(Some((code, octets))) => {
                if code == SUBNET {
                    match check_subnet(octets) {
                        Ok(()) => {}
                        Err(wrong) => return Err(wrong),
                    }
                }
            }
            Ok(None) => return Ok(()),
            Err(e) => return Err(e),
        }
    }
    Ok(())
}

/// Returns how many whole options fill the octets. `None` says nothing about them.
pub(crate) fn count_options(octets: &[u8]) -> Option<usize>
    ensures options { IfSome result (λ count. HasOptions octets.now) }
    ensures count { IfSome result (λ count. CompleteBy octets.now count) }
{
    let mut offset = 0;
    let mut count = 0;
    'tlvs: while offset < octets.len() {
        let end = match end_of(octets, offset) {
            Some(end) => end,
            None => return None,
        };
        count += 1;
        let code = u16::from_be_bytes([octets[offset], octets[offset + 1]]);
        if code == SUBNET {
            match check_subnet(&octets[offset + 4..end]) {
                Ok(()) => {}
                Err(_) => return None,
            }
        }
        offset = end;
    }
    Some(count)
}

/// Returns the end of the RDATA if whole options fill it from an offset on. `None` says nothing about them. Nothing is
/// returned in memory.
pub(crate) fn options_end(message: &[u8], at: usize, start: usize, len: usize) -> Option<usize>
    requires within { at ≤ length message.now }
    requires short { len < 65536 }
    requires before { start ≤ at }
    ensures { IfSome result (λ end. (rule : _) → Skips rule Options start len (Ok tt) (record { message = message.now; index = at })
        (record { message = message.now; index = end })) }
{
    let end = start + len;
    if end < at || message.len() < end {
        return None;
    }
    match count_options(&message[at..end]) {
        Some(_) => Some(end),
        None => None,
    }
}
