//! Laws of all issuer values. A law is a call without a body, whose contract the proofs of clients may cite.

ghost use Rattle.std.specs.{Prelude.◌≡◌, Prelude.ℕ, Prelude.List, Prelude.Option, List.AllByRecursion};
ghost use Rattle.dns_fields.specs.Labels.{DomainName};
ghost use Rattle.dns_rdata_policy.specs.Issuer.{IsIssuer, IsNamed, IsWritable, IsParameter, Parameter, issuer_value};

/// Octets are the value of an issuer property in at most one way, and what is written reads back.
pub fn issuers_hold()
    ensures one { (octets : List ℕ) (a b : Option DomainName) (xs ys : List Parameter) →
        IsIssuer octets a xs → IsIssuer octets b ys → (a ≡ b) × (xs ≡ ys) }
    ensures written { (name : Option DomainName) (xs : List Parameter) →
        IsNamed name → IsWritable name → AllByRecursion IsParameter xs → IsIssuer (issuer_value name xs) name xs }
{}
