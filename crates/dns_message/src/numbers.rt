//! Numbers in network order, and bits of numbers.

ghost use Rattle.std.specs.Prelude.{◌≡◌, ◌+◌, ◌<◌, ◌≤◌, ◌↔◌, IsTrue, length};
ghost use Rattle.std.specs.Int.{bit_at};
ghost use Rattle.dns_fields.specs.{Fields.Field, declared.Kind.TheVariants.Number};

use dns_names_wire::Walk;

// The number of two octets at an offset.
#[inline]
pub(crate) fn number_at(message: &[u8], offset: usize) -> u16
    requires { offset + 2 ≤ length message.now }
    ensures { Field message.now offset (Number 2) result (offset + 2) }
{
    let mut walk = Walk::at(&message[offset..offset + 2], 0);
    match walk.read_u16() {
        Ok(number) => number,
        // Unreachable: two octets are there.
        Err(_) => 0,
    }
}

// The number of four octets at an offset.
#[inline]
pub(crate) fn long_at(message: &[u8], offset: usize) -> u32
    requires { offset + 4 ≤ length message.now }
    ensures { Field message.now offset (Number 4) result (offset + 4) }
{
    let mut walk = Walk::at(&message[offset..offset + 4], 0);
    match walk.read_u32() {
        Ok(number) => number,
        // Unreachable: four octets are there.
        Err(_) => 0,
    }
}

// Whether a bit of a number is set, counted from the lowest.
#[inline]
pub(crate) fn is_set(number: u32, bit: u32) -> bool
    requires { bit < 32 }
    ensures { IsTrue result ↔ (bit_at number bit ≡ 1) }
{
    number >> bit & 1 == 1
}
