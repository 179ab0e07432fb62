//! Options of EDNS and parameters of a service binding, one after the other (RFC 6891, 6.1.2; RFC 9460, 2.2).

ghost use Rattle.std.specs.Prelude.{◌≡◌, ◌∷◌, ◌++◌, List, [], ℕ, IfSome, IfNone};
ghost use Rattle.std.specs.{Iterator.YieldsFirstBy, Iterator.item_count};
ghost use Rattle.dns_fields.specs.Tlvs.{Numbered, tlvs, AreTlvs};
ghost use Rattle.dns_view.specs.TlvList.{tlvs_after, NoTlv};
ghost use Rattle.dns_check.specs.Tlvs.{AreComplete};

use dns_check::tlvs::{are_complete, end_of};
use std::marker::Model;

/// An option or a parameter: its number, and its octets, lent from the message.
///
///     +--+--+--+--+--+--+--+--+
///     |        NUMBER         |   u16: OPTION-CODE, SvcParamKey
///     +--+--+--+--+--+--+--+--+
///     |        LENGTH         |   u16: the number of octets
///     +--+--+--+--+--+--+--+--+
///     /        OCTETS         /
///     +--+--+--+--+--+--+--+--+
#[derive(Clone, Copy)]
pub struct Tlv<'a> {
    /// The code of the option, or the key of the parameter.
    pub number: u16,
    /// The octets after the length.
    pub octets: &'a [u8],
}

// Splits octets after the first option or parameter, or returns `None` if it is not whole.
#[inline]
fn split_first(octets: &[u8]) -> Option<(Tlv<'_>, &[u8])>
    ensures some { IfSome result (λ r. tlvs_after 0 octets.now ≡ (r.0.number, r.0.octets.now) ∷ tlvs_after 0 r.1.now) }
    ensures none { IfNone result (tlvs_after 0 octets.now ≡ []) }
{
    let end = end_of(octets, 0)?;
    let first = Tlv {
        number: u16::from_be_bytes([octets[0], octets[1]]),
        octets: &octets[4..end],
    };
    Some((first, &octets[end..]))
}

/// The options or parameters that octets begin with.
///
/// Ends at the first one that is not whole. Allocates nothing.
#[derive(Drop)]
pub struct Tlvs<'a> {
    octets: &'a [u8],
}

impl<'a> Model for Tlvs<'a> {
    ghost use Rattle.std.specs.Prelude.{List, ℕ};
    ghost use Rattle.dns_fields.specs.Tlvs.{Numbered};
    ghost use Rattle.dns_view.specs.TlvList.{tlvs_after};

    ghost Value = { List (Numbered (List ℕ)) };

    ghost view = { λ s. tlvs_after 0 s.octets.now };
}

impl<'a> Tlvs<'a> {
    /// Those that these octets begin with. Allocates nothing.
    #[inline]
    pub fn of(octets: &'a [u8]) -> Tlvs<'a>
        ensures { (xs : List (Numbered (List ℕ))) (rest : List ℕ) → AreTlvs xs → octets.now ≡ tlvs xs ++ rest → NoTlv rest → result ≡ xs }
    {
        Tlvs { octets }
    }

    /// The options that fill these octets. Octets that end inside an option are truncated, and have no options. Allocates
    /// nothing.
    #[inline]
    pub fn of_options(octets: &'a [u8]) -> Tlvs<'a>
        ensures complete { (xs : List (Numbered (List ℕ))) → AreTlvs xs → octets.now ≡ tlvs xs → result ≡ xs }
        ensures truncated { (AreComplete octets.now → ⊥) → result ≡ [] }
    {
        if are_complete(octets) {
            Tlvs::of(octets)
        } else {
            Tlvs::of(&octets[..0])
        }
    }
}

impl<'a> Iterator for Tlvs<'a> {
    type Item = Tlv<'a>;

    ghost next_gives = { YieldsFirstBy (λ x. (x.number, x.octets.now)) (λ s. s) };

    ghost remaining = { item_count (λ s. s) };

    #[inline]
    fn next(&mut self) -> Option<Tlv<'a>> {
        let (first, others) = split_first(self.octets)?;
        self.octets = others;
        Some(first)
    }
}
