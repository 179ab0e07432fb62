//! How many octets two slices begin with alike.

ghost use Rattle.std.specs.{Prelude.◌≡◌, Prelude.◌≤◌, Prelude.length, Prelude.take, Prelude.map, Char.to_ascii_lowercase};

// How many octets both begin with.
#[inline]
pub(crate) fn common_few(a: &[u8], b: &[u8]) -> usize
    ensures left { result ≤ length a.now }
    ensures right { result ≤ length b.now }
    ensures same { take result a.now ≡ take result b.now }
{
    let shorter = a.len().min(b.len());
    let mut n = 0;
    while n < shorter && a[n] == b[n] {
        n += 1;
    }
    n
}

// How many octets both begin with.
#[inline]
pub(crate) fn common_beginning(a: &[u8], b: &[u8]) -> usize
    ensures left { result ≤ length a.now }
    ensures right { result ≤ length b.now }
    ensures same { take result a.now ≡ take result b.now }
{
    let shorter = a.len().min(b.len());
    if a[..shorter] == b[..shorter] {
        return shorter;
    }
    common_in_blocks(a, b)
}

// How many octets both begin with, found by sixteen at once and then one by one.
#[tactic(auto, using(crate::proofs::Sharing::more_same))]
fn common_in_blocks(a: &[u8], b: &[u8]) -> usize
    ensures left { result ≤ length a.now }
    ensures right { result ≤ length b.now }
    ensures same { take result a.now ≡ take result b.now }
{
    let shorter = a.len().min(b.len());
    let mut n = 0;
    while n + 16 <= shorter && a[n..n + 16] == b[n..n + 16] {
        n += 16;
    }
    while n < shorter && a[n] == b[n] {
        n += 1;
    }
    n
}

// How many octets both begin with, but for ASCII case.
#[inline]
pub(crate) fn common_lowered(a: &[u8], b: &[u8]) -> usize
    ensures left { result ≤ length a.now }
    ensures right { result ≤ length b.now }
    ensures same { map to_ascii_lowercase (take result a.now) ≡ map to_ascii_lowercase (take result b.now) }
{
    let shorter = a.len().min(b.len());
    let mut n = common_beginning(a, b);
    while n < shorter && a[n].to_ascii_lowercase() == b[n].to_ascii_lowercase() {
        n += 1;
    }
    n
}
