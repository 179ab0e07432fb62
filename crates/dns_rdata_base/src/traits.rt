//! Types whose values always take at least one octet.

ghost use Rattle.std.specs.Prelude.{ℕ, List, ◌<◌};

use dns_check::BinDecodable;

/// A type whose values take at least one octet each.
pub trait TakesOctet: BinDecodable {
    /// A value ends after the offset where it begins.
    ghost takes: { (m : List ℕ) (p : ℕ) (x : Self) (q : ℕ) → Self.stands m p x q → p < q };
}
