//! Values that are read from the tokens of a text.

ghost use Rattle.std.specs.Prelude.{List, [], ◌∷◌, Option};
ghost use Rattle.std.specs.Option.{option_copied};
ghost use Rattle.dns_fields.specs.{declared.Kind.Kind, declared.Kind.TheVariants.Name as NameKind, Fields.Values};
ghost use Rattle.dns_fields.specs.{Labels.DomainName};
ghost use Rattle.dns_tokens.specs.{Forms.TokenRow, Forms.name, Forms.token, Forms.ignored, Reads.ReadsTokenRow};

use crate::reading::next_name;
use dns_names_wire::{Name, ParseError};
use std::alloc::Global;
use std::convert::AsStr;

/// A value that is read from tokens. [`Name`] has it too, so that `Name::from_tokens` reads a name as records do.
pub trait FromTokens: Sized {
    /// The kinds of its fields, in order.
    ghost kinds: { List Kind };

    /// Which fields a list of tokens gives, where the origin completes names.
    ghost token_row: { Option DomainName → TokenRow kinds };

    /// Its fields.
    ghost fields: { Self → Values kinds };

    /// Reads a value if the tokens are its fields. Takes tokens one by one, and none after its last.
    fn from_tokens<S: AsStr + Drop, I: Iterator<Item = S>>(
        alloc: Global,
        tokens: I,
        origin: Option<&Name>,
    ) -> Result<Self, ParseError>
        requires can { I.can_next tokens }
        ensures reads { ReadsTokenRow I.next_gives S.text (token_row (option_copied origin.entry)) fields result tokens };
}

impl FromTokens for Name {
    ghost kinds = { NameKind ∷ [] };

    ghost token_row = { λ origin. token (name origin) ignored };

    ghost fields = { λ x. (x, tt) };

    /// Reads the name of the first token by `Name::parse`. Further tokens are not read.
    #[tactic(auto, using(crate::proofs::Steps::reading))]
    fn from_tokens<S: AsStr + Drop, I: Iterator<Item = S>>(
        alloc: Global,
        mut tokens: I,
        origin: Option<&Name>,
    ) -> Result<Name, ParseError>
        requires can { I.can_next tokens }
        ensures reads { ReadsTokenRow I.next_gives S.text (token (name (option_copied origin.entry)) ignored) (λ x. (x, tt)) result tokens }
    {
        Ok(next_name(alloc, &mut tokens, origin, "domain name")?)
    }
}
