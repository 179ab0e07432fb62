//! Octets that are written into a buffer.

ghost use Rattle.std.specs.Prelude.{◌≡◌, ℕ, ◌+◌, ◌^◌, ◌<◌, ◌≤◌, [], ◌∷◌, length, map, IfSome, IfNone};
ghost use Rattle.std.specs.Char.{to_ascii_lowercase};
ghost use Rattle.dns_fields.specs.{Labels.DomainName, Names.IsNameIn};
ghost use Rattle.dns_view.specs.Putting.{Put, PutName, cased};

use dns_names_wire::name_ends::skip_run;

/// Writes octets at an offset of the buffer, as many as fit, and returns where they end.
#[inline]
pub fn put_octets(out: &mut [u8], at: usize, octets: &[u8]) -> usize
    requires { at + length octets.now < 2 ^ 64 }
    ensures { Put out.old out.new at result octets.now }
{
    if octets.is_empty() {
        return at;
    }
    let end = at + octets.len();
    let size = out.len();
    if end <= size {
        out[at..end].copy_from_slice(octets);
    } else if at < size {
        out[at..size].copy_from_slice(&octets[..size - at]);
    }
    end
}

// Writes the 0 that ends a name, if it fits, and returns the offset after it.
#[inline]
fn put_zero(out: &mut [u8], at: usize) -> usize
    requires { at + 1 < 2 ^ 64 }
    ensures { Put out.old out.new at result (0 ∷ []) }
{
    if at < out.len() {
        out[at] = 0;
    }
    at + 1
}

#[inline]
fn copy_lowered(to: &mut [u8], from: &[u8])
    requires { length to.old ≡ length from.now }
    ensures { to.new ≡ map to_ascii_lowercase from.now }
{
    to.copy_from_slice(from);
    to.make_ascii_lowercase();
}

/// The same, with A to Z lowercased if `low` is set.
#[inline]
pub fn put_cased(out: &mut [u8], at: usize, octets: &[u8], low: bool) -> usize
    requires { at + length octets.now < 2 ^ 64 }
    ensures put { Put out.old out.new at result (cased low octets.now) }
    ensures ends { result ≡ at + length octets.now }
{
    if !low {
        return put_octets(out, at, octets);
    }
    let end = at + octets.len();
    let size = out.len();
    if end <= size {
        copy_lowered(&mut out[at..end], octets);
    } else if at < size {
        copy_lowered(&mut out[at..size], &octets[..size - at]);
    }
    end
}

/// Writes the name that is encoded in a message, uncompressed, and returns where its encoding ends and where its octets end;
/// or `None` if no name is encoded there.
pub fn put_name(
    message: &[u8],
    start: usize,
    low: bool,
    out: &mut [u8],
    begin: usize,
) -> Option<(usize, usize)>
    requires offset { start ≤ length message.now }
    requires room { begin + 255 < 2 ^ 64 }
    ensures some { IfSome result (λ r. PutName message.now start r.0 low out.old out.new begin r.1) }
    ensures end { IfSome result (λ r. r.0 ≤ length message.now) }
    ensures few { IfSome result (λ r. r.1 ≤ begin + 255) }
    ensures none { IfNone result ((name : DomainName) (end : ℕ) → IsNameIn message.now start name end → ⊥) }
{
    let first = skip_run(message, start, 0)?;
    let end = first.end;
    let mut at = put_cased(out, begin, &message[start..start + first.octets], low);
    let mut region = message;
    let mut offset = start;
    let mut octets = first.octets;
    let mut next = first.next;
    'runs: while let Some(target) = next {
        if target >= offset {
            return None;
        }
        region = &region[..offset];
        let run = skip_run(region, target, octets)?;
        at = put_cased(
            out,
            at,
            &region[target..target + (run.octets - octets)],
            low,
        );
        offset = target;
        octets = run.octets;
        next = run.next;
    }
    Some((end, put_zero(out, at)))
}
