//! Records read from tokens (RFC 9460, section 2.1).

ghost use Rattle.std.specs.{Prelude.map, Prelude.IfOk, Iterator.IsFinite};
ghost use Rattle.dns_tokens.specs.Reads.{ReadsTokenRow, TookTokens};
ghost use Rattle.dns_rdata_service.specs.TokenRows.{these_parameters, parameter_tokens, svcb_tokens, AreTokensOf};
ghost use Rattle.dns_rdata_service.specs.{Parameters.parameter_of, SVCB.svcb_fields};

use crate::https::HTTPS;
use crate::items::Items;
use crate::svcb::{Parameter, SVCB, parameter_of};
use dns_names_wire::ParseError;
use dns_tokens::{Field, next_name, next_u16, number_field};
use std::alloc::Global;
use std::convert::AsStr;

const SVC_PRIORITY: Field = number_field!("SvcPriority");

// The parameters of all further tokens.
#[tactic(auto, using(crate::proofs::ItemLists::parameters_took))]
fn all_parameters<S: AsStr + Drop, I: Iterator<Item = S>>(
    alloc: Global,
    tokens: I,
) -> Result<Items<Parameter>, ParseError>
    requires can { I.can_next tokens }
    requires ends { IsFinite (I.remaining tokens) }
    ensures reads { ReadsTokenRow I.next_gives S.text parameter_tokens (λ ps. (map parameter_of ps, tt)) result tokens }
    ensures own { IfOk result (λ ps. TookTokens I.next_gives S.text (these_parameters ps) tt tokens) }
{
    let mut parameters = Items::new(alloc);
    for token in tokens {
        let parameter = parameter_of(alloc, token.as_str())?;
        parameters.push(parameter)?;
    }
    Ok(parameters)
}

impl SVCB {
    /// Reads a record from its tokens: the priority, a decimal number of 16 bits; the target, a name, which is relative
    /// if it does not end with a dot; and then one parameter in each token. Keys may come in any order, and repeatedly:
    /// `sort_params` puts them in order, and `emit` returns an error if they do not strictly rise.
    ///
    /// A parameter is a key, and perhaps a `=` and a value; the first `=` divides them. The key is a text of
    /// [`SvcParamKey`]. Quotes around the value are dropped; a single quote alone is an error. The variants of
    /// [`SvcParamValue`] say what the rest is for each key; for `key` with a number it is the value's octets, which are
    /// none without a `=`.
    ///
    /// The iterator must end.
    ///
    /// # Errors
    ///
    /// - [`MissingToken`](ParseError::MissingToken): there is no priority or no target.
    /// - [`Message`](ParseError::Message): the priority is not a number; or a parameter's value is missing, may not be
    ///   there, or is not a number or not base64. The text names the parameter by its key.
    /// - [`AddrParse`](ParseError::AddrParse): a hint is not an address.
    /// - [`Proto`](ParseError::Proto): the target is not a name, or the text of a key is not one.
    /// - [`Memory`](ParseError::Memory): an allocation failed.
    #[tactic(auto, using(dns_tokens::proofs::Steps::reading))]
    pub fn from_tokens<S: AsStr + Drop, I: Iterator<Item = S>>(
        alloc: Global,
        mut tokens: I,
    ) -> Result<SVCB, ParseError>
        requires can { I.can_next tokens }
        requires ends { IsFinite (I.remaining tokens) }
        ensures reads { ReadsTokenRow I.next_gives S.text svcb_tokens svcb_fields result tokens }
        ensures own { IfOk result (λ x. AreTokensOf I.next_gives S.text x tokens) }
    {
        let svc_priority = next_u16(&mut tokens, SVC_PRIORITY)?;
        let target_name = next_name(alloc, &mut tokens, None, "TargetName")?;
        let svc_params = all_parameters(alloc, tokens)?;
        Ok(SVCB {
            svc_priority,
            target_name,
            svc_params,
        })
    }
}

impl HTTPS {
    /// Reads the tokens of an SVCB. The errors are those of `SVCB`.
    pub fn from_tokens<S: AsStr + Drop, I: Iterator<Item = S>>(
        alloc: Global,
        tokens: I,
    ) -> Result<HTTPS, ParseError>
        requires can { I.can_next tokens }
        requires ends { IsFinite (I.remaining tokens) }
        ensures reads { ReadsTokenRow I.next_gives S.text svcb_tokens (λ x. svcb_fields x.0) result tokens }
        ensures own { IfOk result (λ x. AreTokensOf I.next_gives S.text x.0 tokens) }
    {
        Ok(HTTPS(SVCB::from_tokens(alloc, tokens)?))
    }
}
