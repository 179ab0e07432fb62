//! Octets in groups of hexadecimal digits.

ghost use Rattle.std.specs.Prelude.{◌≡◌, ◌<◌, ◌≤◌, [], IfOk, IfErr, IfSome};
ghost use Rattle.dns_zone_rows.specs.{Decoding.Appended, Groups.groups_from, Groups.hex_digit};

use crate::fields::add_number;
use dns_types::ParseError;

/// How octets are written in groups of hexadecimal digits.
#[derive(Clone, Copy)]
pub struct Groups {
    /// The character between two groups.
    pub separator: u8,
    /// The least number of digits of a group.
    pub least: u32,
    /// The octets of a group: one or two. It has at most twice as many digits.
    pub width: u32,
    /// The octets of all groups.
    pub total: usize,
}

// Appends the octets of groups, and returns whether the text has them.
pub(crate) fn put_groups(
    octets: &mut Vec<u8>,
    text: &[u8],
    form: Groups,
) -> Result<bool, ParseError>
    requires { form.width ≤ 2 }
    ensures appends { IfOk result (λ b. Appended b (groups_from form [] 0 0 text.now) octets.old.items octets.new.items) }
    ensures memory { IfErr result (λ e. e ≡ ParseError.Memory) }
{
    let start = octets.len();
    let mut value = 0u32;
    let mut count = 0u32;
    for c in text {
        if *c == form.separator {
            if count < form.least {
                return Ok(false);
            }
            add_number(octets, value, form.width)?;
            value = 0;
            count = 0;
        } else {
            let Some(digit) = hex_digit(*c) else {
                return Ok(false);
            };
            if count + 1 > 2 * form.width {
                return Ok(false);
            }
            value = 16 * value + digit;
            count += 1;
        }
    }
    if count < form.least || octets.len() - start + form.width as usize != form.total {
        return Ok(false);
    }
    add_number(octets, value, form.width)?;
    Ok(true)
}

// The value of a digit.
pub(crate) fn hex_digit(c: u8) -> Option<u32>
    ensures value { result ≡ hex_digit c }
    ensures small { IfSome result (λ d. d < 16) }
{
    if c >= b'0' && c <= b'9' {
        return Some(c as u32 - 48);
    }
    if c >= b'A' && c <= b'F' {
        return Some(c as u32 - 55);
    }
    if c >= b'a' && c <= b'f' {
        return Some(c as u32 - 87);
    }
    None
}
