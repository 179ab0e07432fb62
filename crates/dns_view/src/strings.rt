//! Character strings, one after the other.

ghost use Rattle.std.specs.Prelude.{◌≡◌, ◌++◌, List, ℕ};
ghost use Rattle.std.specs.{List.flat_map, Iterator.YieldsFirstRef, Iterator.item_count};
ghost use Rattle.dns_fields.specs.Tlvs.{string};
ghost use Rattle.dns_view.specs.StringList.{NoString};

use std::marker::Model;

/// The character strings (RFC 1035, 3.3.14) that octets begin with, each without its length octet.
///
/// Ends at the first string that is not whole. Allocates nothing.
#[derive(Drop)]
pub struct StringsRef<'a> {
    octets: &'a [u8],
}

impl<'a> Model for StringsRef<'a> {
    ghost use Rattle.std.specs.Prelude.{List, ℕ};
    ghost use Rattle.dns_view.specs.StringList.{strings_after};

    ghost Value = { List (List ℕ) };

    ghost view = { λ s. strings_after 0 s.octets.now };
}

impl<'a> StringsRef<'a> {
    /// The strings that these octets begin with.
    #[inline]
    pub fn of(octets: &'a [u8]) -> StringsRef<'a>
        ensures { (v : List (List ℕ)) (rest : List ℕ) → octets.now ≡ flat_map string v ++ rest → NoString rest → result ≡ v }
    {
        StringsRef { octets }
    }
}

impl<'a> Iterator for StringsRef<'a> {
    type Item = &'a [u8];

    ghost next_gives = { YieldsFirstRef (λ s. s) };

    ghost remaining = { item_count (λ s. s) };

    #[inline]
    fn next(&mut self) -> Option<&'a [u8]> {
        let octets = self.octets;
        if octets.len() == 0 {
            return None;
        }
        let size = octets[0] as usize;
        if octets.len() - 1 < size {
            return None;
        }
        self.octets = &octets[1 + size..];
        Some(&octets[1..1 + size])
    }
}
