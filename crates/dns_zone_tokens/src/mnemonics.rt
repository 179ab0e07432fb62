//! Numbers that have names.

ghost use Rattle.std.specs.{Prelude.◌≡◌, Str.str_eq_ignore_ascii_case};
ghost use Rattle.dns_zone_tokens.specs.Mnemonics.{named_values, number_named};

/// A mnemonic and its number.
#[derive(Clone, Copy)]
pub struct Mnemonic {
    pub name: &'static str,
    pub value: u16,
}

// The number with this name.
#[macro_export]
macro_rules! named {
    ($name:literal = $value:literal) => {
        $crate::Mnemonic {
            name: $name,
            value: $value,
        }
    };
}

/// Returns the number of the first of the names that equals the text, in either case.
pub fn number_named(names: &[Mnemonic], text: &[u8]) -> Option<u16>
    ensures { result ≡ number_named (named_values names.now) text.now }
{
    for name in names {
        if is_same_name(text, name.name.as_bytes()) {
            return Some(name.value);
        }
    }
    None
}

#[inline]
fn is_same_name(text: &[u8], name: &[u8]) -> bool
    ensures { result ≡ str_eq_ignore_ascii_case text.now name.now }
{
    // Most names differ in their length, which is told without a call.
    text.len() == name.len() && text.eq_ignore_ascii_case(name)
}
