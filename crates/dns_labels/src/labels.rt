//! The labels of a name's octets.

ghost use Rattle.std.specs.{Prelude.◌≡◌, Prelude.◌≤◌, Prelude.length, Prelude.ℕ, Prelude.List, Iterator.YieldsFirstBy, Iterator.item_count};
ghost use Rattle.dns_labels.specs.Labels.{labels_of, AreNameOctets};

use std::marker::Model;

/// The labels of a name, from the left, each without its length octet.
#[derive(Drop)]
pub struct LabelIter<'a> {
    octets: &'a [u8],
}

impl<'a> Model for LabelIter<'a> {
    ghost Value = { List (List ℕ) };

    ghost view = { λ s. labels_of s.octets.now };

    ghost invariant = { λ s. AreNameOctets s.octets.now };
}

impl<'a> LabelIter<'a> {
    /// Iterates over the labels of a name's octets.
    #[tactic(auto, using(crate::proofs::Octets::count_labels))]
    pub fn new(octets: &'a [u8]) -> Self
        requires { AreNameOctets octets.now }
        ensures labels { result ≡ labels_of octets.now }
        ensures few { length result ≤ 127 }
    {
        LabelIter { octets }
    }
}

impl<'a> Iterator for LabelIter<'a> {
    type Item = &'a [u8];

    ghost next_gives = { YieldsFirstBy (λ x. x.now) (λ s. s) };

    ghost remaining = { item_count (λ s. s) };

    fn next(&mut self) -> Option<&'a [u8]> {
        let octets = self.octets;
        if octets.is_empty() {
            return None;
        }
        let end = octets[0] as usize + 1;
        self.octets = &octets[end..];
        Some(&octets[1..end])
    }
}

/// Returns how many labels a name's octets are.
pub fn count_labels(octets: &[u8]) -> usize
    requires { AreNameOctets octets.now }
    ensures { result ≡ length (labels_of octets.now) }
{
    LabelIter::new(octets).count()
}
