//! Hashes of names and of their tails.

ghost use Rattle.std.specs.Prelude.{◌≡◌, ◌+◌, ◌/◌, ◌<◌, ◌≤◌, length};

use byteorder::{ByteOrder, LittleEndian};

// The weights of a hash: odd numbers without a pattern, one for each eight octets from the end of a name.
const WEIGHTS: [u64; 32] = [
    0x2cb0_f69f_4abe_a221,
    0x9417_0347_2314_8989,
    0xdd55_5950_609d_fe03,
    0xdbaf_b150_deb1_2801,
    0x7e78_9b2e_6c44_2cb7,
    0xf41e_5636_c7e4_f8c5,
    0x0959_d150_f8fb_a7e5,
    0xa973_16f1_3cdb_9eeb,
    0x74cd_8258_f952_0069,
    0x55c7_4a62_e116_868b,
    0xd2f4_c799_a202_3cbd,
    0xdf98_cb79_a37b_51b9,
    0x396f_5885_524f_3905,
    0xaf1d_5638_6ca3_b277,
    0xa9ff_be6b_5104_e85b,
    0x6bd0_c51b_9fd5_33b3,
    0x980c_e91c_50ab_4b57,
    0x28ac_3957_80fe_62c5,
    0x7689_12e3_a6bc_edc7,
    0x50b3_e8c9_332c_7c89,
    0xce3b_bfe5_20bd_47db,
    0xcba6_c8e8_e0bb_7c4f,
    0xbf19_4db8_434a_346d,
    0x7d8f_2a7b_6041_6d7f,
    0x0849_d1f6_e0e1_0a5f,
    0x7654_b590_d064_e22f,
    0x16d1_da95_07df_3af3,
    0xf63a_ef10_89ea_30e5,
    0x9ade_6673_cc6c_522b,
    0x4c75_bc27_4e37_087d,
    0xd35e_12b4_9f51_f27b,
    0x22dd_f2ff_cee4_81eb,
];

// The factor by which a hash is mixed before 32 bits of it are kept.
const FACTOR: u64 = 0x9e37_79b9_7f4a_7c15;

/// The hash of a name's octets.
///
/// It is a sum of numbers, each of eight octets counted from the name's end and times a weight of its distance from
/// there; up to seven octets at the front are one more. So the hash of a suffix is that of the name minus a part that
/// only the octets before it decide, and no product waits for another.
pub(crate) fn name_hash(name: &[u8]) -> u64 {
    eights_hash(name, 0, name.len() / 8).wrapping_add(front_hash(name, 0))
}

/// Returns by how much the hash of the octets from the first offset on is greater than that from the second.
#[inline]
pub(crate) fn label_hash(name: &[u8], start: usize, end: usize) -> u64
    requires order { start ≤ end }
    requires within { end ≤ length name.now }
{
    let len = name.len();
    eights_hash(name, (len - end) / 8, (len - start) / 8)
        .wrapping_add(front_hash(name, start))
        .wrapping_sub(front_hash(name, end))
}

/// The part of a hash that whole groups of eight have, counted from the name's end.
#[inline]
fn eights_hash(name: &[u8], first: usize, last: usize) -> u64
    requires { last ≤ length name.now / 8 }
{
    let mut hash = 0u64;
    for count in first..last {
        let at = name.len() - 8 * count - 8;
        let weight = WEIGHTS[count % 32];
        hash = hash.wrapping_add(weight.wrapping_mul(LittleEndian::read_u64(&name[at..at + 8])));
    }
    hash
}

/// The part of a hash that the octets from an offset on have which are no whole group of eight.
#[inline]
fn front_hash(name: &[u8], at: usize) -> u64
    requires { at ≤ length name.now }
{
    let len = name.len() - at;
    if len % 8 == 0 {
        return 0;
    }
    WEIGHTS[len / 8 % 32].wrapping_mul(token_at(name, at, len % 8))
}

/// Up to eight octets from an offset on as a number, the first one lowest.
#[inline]
fn token_at(name: &[u8], at: usize, count: usize) -> u64
    requires count { (0 < count) × (count ≤ 8) }
    requires within { at + count ≤ length name.now }
{
    let len = name.len();
    let token = if len - at >= 8 {
        LittleEndian::read_u64(&name[at..at + 8])
    } else if len >= 8 {
        LittleEndian::read_u64(&name[len - 8..]) >> (8 * (8 - (len - at)) as u32)
    } else {
        name[at..]
            .iter()
            .rev()
            .fold(0u64, |token, octet| (token << 8) | *octet as u64)
    };
    token & (u64::MAX >> (8 * (8 - count) as u32))
}

#[inline]
pub(crate) fn short_hash(hash: u64) -> u32 {
    ((hash ^ (hash >> 32)).wrapping_mul(FACTOR) >> 32) as u32
}

// Which of so many buckets a hash is in. Their number is a power of two, so that the last bits of the hash are the
// answer, without a division.
#[inline]
pub(crate) fn bucket_of(hash: u32, count: usize) -> usize
    requires { 0 < count }
    ensures { result < count }
{
    hash as usize & (count - 1)
}
