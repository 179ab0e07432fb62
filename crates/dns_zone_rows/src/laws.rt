//! Laws of zone rows.

ghost use Rattle.std.specs.Prelude.{◌≡◌, ℕ, List, Option};
ghost use Rattle.dns_fields.specs.Labels.{DomainName};
ghost use Rattle.dns_zone_tokens.specs.Tokens.{Token};
ghost use Rattle.dns_zone_rows.specs.Rows.{RowShape, RowGives};

/// Tokens give at most one list of octets by a zone row.
pub fn rows_hold()
    ensures { (origin : Option DomainName) (zone_row : RowShape) (a b : List ℕ) (tokens : List Token) → RowGives origin zone_row a tokens → RowGives origin zone_row b tokens → a ≡ b }
{}
