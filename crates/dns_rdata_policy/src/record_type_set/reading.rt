//! The numbers of a bitmap.

ghost use Rattle.std.specs.Prelude.{◌≡◌, ◌*◌, ◌<◌, length, IfOk, IfErr, IfNone, OnOk};
ghost use Rattle.dns_types.specs.declared.error.DecodeError.TheVariants as decode;
ghost use Rattle.dns_fields.specs.Bitmaps.{has_type};
ghost use Rattle.dns_rdata_policy.specs.RecordTypeSet.{held, Adds, octet_has, FitsBlock, TookBlock, NoBlock, AreBlocks, NoBlocks, IsBlockError};

use crate::record_type_set::marking::read_marked;
use dns_names_wire::DecodeError;
use std::alloc::{AllocError, Global};

// The most octets of a block (RFC 4034, 4.1.2).
pub(super) const MOST: usize = 32;

// The numbers of the types of blocks: in the order of the bits where the windows rise, as in every bitmap that is
// written as the RFC asks; else by marking them, so that a repeated window allocates nothing.
#[tactic(auto, using(crate::proofs::Marks::left_all, crate::proofs::Marks::left_shorter, crate::proofs::Marks::are_blocks))]
pub(super) fn read_blocks(alloc: Global, octets: &[u8]) -> Result<Vec<u16>, DecodeError>
    ensures read { IfOk result (λ numbers. AreBlocks octets.now (held numbers.items)) }
    ensures refused { IfErr result (λ e. IsBlockError e (NoBlocks octets.now)) }
{
    match windows_rise(octets) {
        None => return Err(DecodeError::BitmapInvalid),
        Some(false) => return read_marked(alloc, octets),
        Some(true) => {}
    }
    let mut numbers = Vec::with_capacity(alloc, octets.len())?;
    let mut rest = octets;
    while rest.len() > 0 {
        rest = read_block(rest, &mut numbers)?;
    }
    Ok(numbers)
}

// Whether the window of each block is greater than the one before. `None` if the octets are no blocks; a window that is not greater is
// found before blocks after it are looked at.
#[inline]
#[tactic(auto, using(crate::proofs::Marks::left_shorter))]
fn windows_rise(octets: &[u8]) -> Option<bool>
    ensures { IfNone result (NoBlocks octets.now) }
{
    let mut rest = octets;
    let mut least = 0;
    while rest.len() > 0 {
        let len = match block_len(rest) {
            Ok(len) => len,
            Err(_) => return None,
        };
        let window = rest[0] as usize;
        if window < least {
            return Some(false);
        }
        least = window + 1;
        rest = &rest[2 + len..];
    }
    Some(true)
}

// How many octets the window of the first block has.
#[inline]
pub(super) fn block_len(octets: &[u8]) -> Result<usize, DecodeError>
    ensures fits { IfOk result (λ n. FitsBlock octets.now n) }
    ensures refused { IfErr result (λ e. (e ≡ decode.BitmapInvalid) × NoBlock octets.now) }
{
    if octets.len() < 2 {
        return Err(DecodeError::BitmapInvalid);
    }
    let len = octets[1] as usize;
    if len < 1 || len > MOST || octets.len() - 2 < len {
        return Err(DecodeError::BitmapInvalid);
    }
    Ok(len)
}

// Adds the types of the first block, and returns the octets after it.
fn read_block<'a>(octets: &'a [u8], numbers: &mut Vec<u16>) -> Result<&'a [u8], DecodeError>
    ensures read { IfOk result (λ rest. TookBlock octets.now rest.now
        (λ b. Adds (λ t. has_type t b) (held numbers.old.items) (held numbers.new.items))) }
    ensures refused { IfErr result (λ e. IsBlockError e (NoBlock octets.now)) }
{
    let len = block_len(octets)?;
    add_octets(numbers, octets[0], &octets[2..2 + len])?;
    Ok(&octets[2 + len..])
}

// Adds the types of a window's octets.
#[tactic(auto, using(std::proofs::lemmas::List::take_all))]
pub(super) fn add_octets(
    numbers: &mut Vec<u16>,
    window: u8,
    octets: &[u8],
) -> Result<(), AllocError>
    requires { length octets.now < 33 }
    ensures { OnOk result (Adds (λ t. has_type t (window, octets.now)) (held numbers.old.items) (held numbers.new.items)) }
{
    for (i, octet) in octets.iter().enumerate() {
        add_octet(numbers, window as usize * MOST + i, *octet)?;
    }
    Ok(())
}

// Adds the types of octet g of all.
#[inline]
#[tactic(auto, using(crate::proofs::Marks::bit_within, crate::proofs::Marks::bit_taken))]
fn add_octet(numbers: &mut Vec<u16>, g: usize, octet: u8) -> Result<(), AllocError>
    requires { g < 8192 }
    ensures { OnOk result (Adds (octet_has g octet) (held numbers.old.items) (held numbers.new.items)) }
{
    let mut left = octet;
    while left != 0 {
        let bit = left.leading_zeros();
        numbers.push((g * 8 + bit as usize) as u16)?;
        left -= 1 << (7 - bit);
    }
    Ok(())
}
