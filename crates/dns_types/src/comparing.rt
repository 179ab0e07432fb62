//! Octets compared by blocks of one size.

ghost use Rattle.std.specs.{Prelude.◌≡◌, Prelude.◌<◌, Prelude.◌≤◌, Prelude.◌↔◌, Prelude.IsTrue, Prelude.length, Int.from_le_bytes, Int.w32, Int.w64};

/// Whether the octets are the same. It returns what `==` of slices returns, and is quicker for few octets.
#[inline]
pub fn same_octets(a: &[u8], b: &[u8]) -> bool
    ensures { IsTrue result ↔ (a.now ≡ b.now) }
{
    let len = a.len();
    if len != b.len() {
        return false;
    }
    // Few octets are compared inline, many by a call.
    if len < 8 {
        return same_few(a, b);
    }
    if len > 64 {
        return same_many(a, b);
    }
    if len <= 32 {
        return same_middle(a, b);
    }
    let last = len - 32;
    same_block(&a[..32], &b[..32]) & same_block(&a[last..], &b[last..])
}

/// Whether eight to thirty-two octets are the same, as most names have.
#[inline(always)]
pub fn same_middle(a: &[u8], b: &[u8]) -> bool
    requires many { 8 ≤ length a.now }
    requires few { length a.now ≤ 32 }
    requires length { length a.now ≡ length b.now }
    ensures { IsTrue result ↔ (a.now ≡ b.now) }
{
    let len = a.len();
    // A block from the beginning and one up to the end are compared without a branch between; they may lap.
    if len <= 16 {
        let last = len - 8;
        return same_token(&a[..8], &b[..8]) & same_token(&a[last..], &b[last..]);
    }
    let last = len - 16;
    same_pair(&a[..16], &b[..16]) & same_pair(&a[last..], &b[last..])
}

/// Whether the arrays are the same. Arrays of 32 or 64 octets are compared as a whole, without a branch.
#[inline(always)]
pub fn same_arrays<const N: usize>(a: &[u8; N], b: &[u8; N]) -> bool
    ensures { IsTrue result ↔ (a.now ≡ b.now) }
{
    let a = &a[..];
    let b = &b[..];
    if N == 64 {
        return same_block(&a[..32], &b[..32]) & same_block(&a[32..], &b[32..]);
    }
    if N == 32 {
        return same_block(a, b);
    }
    same_octets(a, b)
}

// Whether thirty-two octets or more are the same, by blocks of thirty-two.
#[inline]
fn same_many(a: &[u8], b: &[u8]) -> bool
    requires many { 32 ≤ length a.now }
    requires length { length a.now ≡ length b.now }
    ensures { IsTrue result ↔ (a.now ≡ b.now) }
{
    let last = a.len() - 32;
    let mut at = 0usize;
    'each_block: while at < last {
        if !same_block(&a[at..at + 32], &b[at..at + 32]) {
            return false;
        }
        at += 32;
    }
    // The last block may lap over octets that are known to be the same.
    same_block(&a[last..], &b[last..])
}

// Whether fewer than eight octets are the same.
#[inline]
fn same_few(a: &[u8], b: &[u8]) -> bool
    requires few { length a.now < 8 }
    requires length { length a.now ≡ length b.now }
    ensures { IsTrue result ↔ (a.now ≡ b.now) }
{
    if a.len() < 4 {
        return same_fewest(a, b);
    }
    let last = a.len() - 4;
    same_half(&a[..4], &b[..4]) & same_half(&a[last..], &b[last..])
}

// Whether up to three octets are the same.
#[inline]
fn same_fewest(a: &[u8], b: &[u8]) -> bool
    requires few { length a.now < 4 }
    requires length { length a.now ≡ length b.now }
    ensures { IsTrue result ↔ (a.now ≡ b.now) }
{
    let len = a.len();
    len == 0 || (a[0] == b[0] && a[len / 2] == b[len / 2] && a[len - 1] == b[len - 1])
}

// Whether thirty-two octets are the same.
#[inline]
fn same_block(a: &[u8], b: &[u8]) -> bool
    requires { (length a.now ≡ 32) × (length b.now ≡ 32) }
    ensures { IsTrue result ↔ (a.now ≡ b.now) }
{
    same_pair(&a[..16], &b[..16]) & same_pair(&a[16..], &b[16..])
}

// Whether sixteen octets are the same.
#[inline]
fn same_pair(a: &[u8], b: &[u8]) -> bool
    requires { (length a.now ≡ 16) × (length b.now ≡ 16) }
    ensures { IsTrue result ↔ (a.now ≡ b.now) }
{
    same_token(&a[..8], &b[..8]) & same_token(&a[8..], &b[8..])
}

// Whether eight octets are the same, as one number.
#[inline]
fn same_token(a: &[u8], b: &[u8]) -> bool
    requires { (length a.now ≡ 8) × (length b.now ≡ 8) }
    ensures { IsTrue result ↔ (a.now ≡ b.now) }
{
    token(a) == token(b)
}

#[inline]
fn same_half(a: &[u8], b: &[u8]) -> bool
    requires { (length a.now ≡ 4) × (length b.now ≡ 4) }
    ensures { IsTrue result ↔ (a.now ≡ b.now) }
{
    half(a) == half(b)
}

#[inline]
fn token(octets: &[u8]) -> u64
    requires { length octets.now ≡ 8 }
    ensures { result ≡ from_le_bytes w64 octets.now }
{
    u64::from_le_bytes([
        octets[0], octets[1], octets[2], octets[3], octets[4], octets[5], octets[6], octets[7],
    ])
}

#[inline]
fn half(octets: &[u8]) -> u32
    requires { length octets.now ≡ 4 }
    ensures { result ≡ from_le_bytes w32 octets.now }
{
    u32::from_le_bytes([octets[0], octets[1], octets[2], octets[3]])
}
