//! The blocks of a bitmap of type numbers (RFC 4034, 4.1.2).

ghost use Rattle.std.specs.Prelude.{◌≡◌, IfSome, IfNone, OnOk, IfErr};
ghost use Rattle.dns_check.specs.Blocks.{FitsBlock, NoFit, NoBlock, AreBlocks, NoBlocks};

use dns_types::DecodeError;

// The most octets of a block after its number and its length (RFC 4034, 4.1.2).
const MOST: usize = 32;

/// Returns how many octets the window of the first block has, or `None` if there is no first block.
#[inline]
#[tactic(auto, using(crate::proofs::Bitmaps::no_head, crate::proofs::Bitmaps::no_octets, crate::proofs::Bitmaps::many_octets, crate::proofs::Bitmaps::few_octets))]
pub fn block_len(octets: &[u8]) -> Option<usize>
    ensures fits { IfSome result (λ n. FitsBlock octets.now n) }
    ensures unfit { IfNone result (NoFit octets.now) }
    ensures none { IfNone result (NoBlock octets.now) }
{
    if octets.len() < 2 {
        return None;
    }
    let len = octets[1] as usize;
    if len < 1 {
        return None;
    }
    if len > MOST {
        return None;
    }
    if octets.len() - 2 < len {
        return None;
    }
    Some(len)
}

/// Checks that octets are blocks of a bitmap, in any order. Allocates nothing.
///
/// # Errors
///
/// [`BitmapInvalid`](DecodeError::BitmapInvalid): they are not.
#[tactic(auto, using(crate::proofs::Bitmaps::left_all, crate::proofs::Bitmaps::are_blocks, crate::proofs::Bitmaps::no_blocks))]
pub fn check_blocks(octets: &[u8]) -> Result<(), DecodeError>
    ensures found { OnOk result (AreBlocks octets.now) }
    ensures refused { IfErr result (λ e. (e ≡ DecodeError.BitmapInvalid) × NoBlocks octets.now) }
{
    let mut rest = octets;
    'windows: while rest.len() > 0 {
        match block_len(rest) {
            None => return Err(DecodeError::BitmapInvalid),
            Some(len) => rest = &rest[2 + len..],
        }
    }
    Ok(())
}
