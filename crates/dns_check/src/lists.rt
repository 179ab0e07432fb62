//! Lists that are checked and counted in one pass, before a value is made of them. Nothing here allocates.

ghost use Rattle.std.specs.Prelude.{◌≡◌, IfSome, IfNone};
ghost use Rattle.dns_rows.specs.declared.row.TheConstants as rows;
ghost use Rattle.dns_check.specs.{ByRow.RowRejected, Lists.TookStrings, Lists.TookOptions, Lists.HasParameters};

use crate::options::count_options;
use crate::parameters::count_parameters;
use dns_names_wire::name_ends::near_name;
use dns_names_wire::{BinDecoder, Walk};
use dns_types::Restrict;

/// Takes character strings until RDLENGTH is reached or passed. Returns their octets, and how many there are. `None` if octets are
/// missing; the decoder is unchanged then.
#[inline]
pub fn take_strings<'a>(
    decoder: &mut BinDecoder<'a>,
    length: Restrict<u16>,
) -> Option<(&'a [u8], usize)>
    ensures took { IfSome result (λ r. TookStrings length decoder.old r.0.now r.1 decoder.new) }
    ensures rejected { IfNone result (RowRejected rows.TXT length decoder.old) }
    ensures unchanged { IfNone result (decoder.new ≡ decoder.old) }
{
    let mut walk = decoder.walk();
    let start = walk.index();
    let end = start + length.unverified() as usize;
    let mut count = 0;
    'strings: while walk.index() < end {
        match walk.read_character_data() {
            Ok(_) => count += 1,
            Err(_) => return None,
        }
    }
    decoder.follow(&walk);
    Some((&walk.message()[start..walk.index()], count))
}

/// Takes options, if whole ones fill RDLENGTH. Returns their octets, and how many there are. `None` says nothing about them; the
/// decoder is unchanged then.
#[inline]
pub fn take_options<'a>(
    decoder: &mut BinDecoder<'a>,
    length: Restrict<u16>,
) -> Option<(&'a [u8], usize)>
    ensures took { IfSome result (λ r. TookOptions length decoder.old r.0.now r.1 decoder.new) }
    ensures unchanged { IfNone result (decoder.new ≡ decoder.old) }
{
    let mut walk = decoder.walk();
    let start = walk.index();
    let len = length.unverified() as usize;
    if walk.message().len() - start < len {
        return None;
    }
    let octets = &walk.message()[start..start + len];
    match count_options(octets) {
        Some(count) => {
            walk.move_to(start + len);
            decoder.follow(&walk);
            Some((octets, count))
        }
        None => None,
    }
}

/// Returns how many parameters SVCB RDATA of this length has, if it is not damaged: priority, target and parameters fill RDLENGTH.
/// `None` says nothing about it. The decoder stays where it is.
#[inline]
pub fn near_parameters(decoder: &BinDecoder<'_>, length: Restrict<u16>) -> Option<usize>
    ensures { IfSome result (λ count. HasParameters length decoder.now count) }
{
    let message = decoder.message();
    let start = decoder.index();
    let end = start + length.unverified() as usize;
    if message.len() < end {
        return None;
    }
    if message.len() - start < 2 {
        return None;
    }
    let at = match near_name(message, start + 2, &mut usize::MAX) {
        Some(at) => at,
        None => return None,
    };
    match count_parameters(message, at, end) {
        Some(count) => Some(count),
        None => None,
    }
}
