//! Options that are made of octets.

ghost use Rattle.std.specs.Prelude.{◌≡◌, IfOk};
ghost use Rattle.dns_check.specs.Tlvs.{AreComplete};
ghost use Rattle.dns_check.specs.ByRow.{ReadsRow};
ghost use Rattle.dns_rdata_options.specs.OPT.{HasOptionsOf, IsReadOpt, opt_facts};

use crate::opt::OPT;
use crate::opt::code::EdnsCode;
use crate::opt::option::EdnsOption;
use dns_check::take_row;
use dns_check::tlvs::{count_parts, end_of};
use dns_names_wire::{BinDecoder, DecodeError, Restrict};
use dns_rows::row;
use std::alloc::{AllocError, Global};

// The options of octets that were checked. Where they end inside an option there are none, and no memory is taken.
#[tactic(auto, using(crate::proofs::OptionLists::made_cut))]
fn options_in(alloc: Global, octets: &[u8]) -> Result<OPT, AllocError>
    ensures made { IfOk result (HasOptionsOf octets.now) }
    ensures read { IfOk result IsReadOpt }
{
    match count_parts(octets) {
        Some(count) => whole_options(alloc, octets, count),
        None => Ok(OPT::default(alloc)),
    }
}

// The options that fill the octets, of which there are so many.
pub(crate) fn whole_options(alloc: Global, octets: &[u8], count: usize) -> Result<OPT, AllocError>
    requires { AreComplete octets.now }
    ensures made { IfOk result (HasOptionsOf octets.now) }
    ensures read { IfOk result IsReadOpt }
{
    let mut options = Vec::with_capacity(alloc, count)?;
    let mut offset = 0;
    'tlvs: while let Some(end) = end_of(octets, offset) {
        let code = EdnsCode::from(u16::from_be_bytes([octets[offset], octets[offset + 1]]));
        match EdnsOption::try_from(alloc, (code, &octets[offset + 4..end])) {
            Ok(option) => options.push((code, option))?,
            // An allocation failed: octets that were checked hold a value.
            Err(_) => return Err(AllocError),
        }
        offset = end;
    }
    Ok(OPT::new(options))
}

/// Reads options that do not fill RDLENGTH: the options are checked by the row, and none of a truncated record is kept. Never inlined, so
/// that reading other options keeps little for it.
#[cold]
#[inline(never)]
pub(crate) fn read_cut(
    decoder: &mut BinDecoder<'_>,
    length: Restrict<u16>,
) -> Result<OPT, DecodeError>
    ensures reads { ReadsRow opt_facts length result decoder.old decoder.new }
    ensures after_read { IfOk result (λ x. opt_facts.after_read length x decoder.old decoder.new) }
{
    match take_row(decoder, &row::OPT, length) {
        Ok(octets) => Ok(options_in(decoder.allocator(), octets)?),
        Err(e) => Err(e),
    }
}
