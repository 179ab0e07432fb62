//! Service parameters (SVCB, HTTPS) in a text of a zone file, as octets on the wire.

pub mod key;
pub mod laws;
mod lists;
mod parameter;
mod values;
mod written;

ghost use Rattle.std.specs.Prelude.{◌≡◌, ◌⊎◌, ◌++◌, map, IfOk, IfErr, OnOk};
ghost use Rattle.dns_fields.specs.Tlvs.{tlvs};
ghost use Rattle.dns_zone_tokens.specs.Remaining.{PutsAll};
ghost use Rattle.dns_zone_rows.specs.{Parameters.AreParameters, ParameterSteps.ReadsParameters, ParameterViews.parameter_value};
ghost use Rattle.dns_zone_rows.specs.ParameterFaults.{FaultBehind, ParametersFault, twice_text};

pub use crate::parameters::key::key_of_name;
use crate::parameters::lists::first_fall;
use crate::parameters::parameter::Parameter;
use crate::parameters::written::next_parameter;
use dns_rdata_service::svcb::SvcParamKey;
use dns_rdata_service::with_named_keys;
use dns_types::ParseError;
use dns_zone_tokens::ZoneTokens;
use std::alloc::{AllocError, Global};

/// Reads all remaining tokens as service parameters and appends their octets as on the wire: sorted by key, each as
/// key, length and value (RFC 9460, section 2.2). Without tokens it appends nothing. There may be more than 65535
/// octets.
///
/// A parameter is a token without quotes: `key`, which has an empty value, `key=value`, or `key=` directly followed by
/// a token in quotes. Parameters may come in any order, no key twice.
///
/// The key is a name in lower case, or `key` and a number up to 65534 without leading zeros (RFC 9460, section 2.1). In
/// a value escapes are resolved first; the key then decides how its octets are read (RFC 9460, sections 7 and 8; RFC
/// 9461, section 5):
///
/// - `mandatory`: a list of keys, none twice and not `mandatory`; on the wire they are sorted by number.
/// - `alpn`: a list of names of 1 to 255 octets. In it `\` escapes the next octet, a comma or a `\` too (RFC 9460,
///   appendix A.1).
/// - `no-default-alpn`: nothing.
/// - `port`: a decimal number of 16 bits.
/// - `ipv4hint`, `ipv6hint`: a list of addresses.
/// - `ech`: base64 (RFC 4648, section 4) of one octet or more.
/// - a key whose value is text, such as `dohpath`: one octet or more, as they are.
/// - `key` and a number, even that of a key above: the octets as they are.
///
/// Lists have one item or more, with a comma between two. A value has at most 65535 octets. A value of `mandatory`,
/// `port`, `ipv4hint`, `ech` or `ipv6hint` has no `\` (RFC 9460, sections 7.2, 7.3 and 8; RFC 9848, section 3).
///
/// # Errors
///
/// - [`Message`](ParseError::Message): a token is not such a parameter. The text names the key or the cause.
/// - [`Memory`](ParseError::Memory): an allocation failed.
pub fn put_parameters(
    alloc: Global,
    tokens: &mut ZoneTokens<'_>,
    octets: &mut Vec<u8>,
) -> Result<(), ParseError>
    ensures puts { PutsAll AreParameters result octets.old.items octets.new.items tokens.old }
    ensures why { IfErr result (λ e. (e ≡ ParseError.Memory) ⊎ ParametersFault tokens.old e) }
{
    let mut parameters = parameters_in(alloc, tokens)?;
    parameters.sort_unstable_by_key(|parameter| parameter.number);
    let numbers = numbers_of(alloc, parameters.as_slice())?;
    if let Some(number) = first_fall(numbers.as_slice()) {
        return Err(ParseError::Message(twice_text(number)));
    }
    put_wire(octets, parameters.as_slice())?;
    Ok(())
}

macro_rules! twice {
    (($value:expr) $(($key:ident $number:literal $rank:literal $name:literal))+) => {
        match $value {
            $(SvcParamKey::$key => concat!("service parameter ", $name, " twice"),)+
            SvcParamKey::Key(_) | SvcParamKey::Key65535 | SvcParamKey::Unknown(_) => {
                "key of a service parameter twice"
            }
        }
    };
}

// The text of the error for a key that comes twice, by its number.
#[tactic(auto, unfolding(dns_rdata_service::specs::SvcParamKey::key_text))]
fn twice_text(key: u16) -> &'static str
    ensures { result.now ≡ twice_text key }
{
    with_named_keys!(twice, (SvcParamKey::from(key)))
}

// The parameters in the order of the tokens.
fn parameters_in(alloc: Global, tokens: &mut ZoneTokens<'_>) -> Result<Vec<Parameter>, ParseError>
    ensures reads { ReadsParameters (λ v. v.items) result tokens.old }
    ensures why { IfErr result (λ e. (e ≡ ParseError.Memory) ⊎ FaultBehind tokens.old e) }
{
    let mut parameters = Vec::new(alloc);
    'tokens: loop {
        match next_parameter(alloc, tokens)? {
            Some(parameter) => parameters.push(parameter)?,
            None => return Ok(parameters),
        }
    }
}

// The numbers of their keys.
fn numbers_of(alloc: Global, parameters: &[Parameter]) -> Result<Vec<u16>, AllocError>
    ensures { IfOk result (λ numbers. numbers.items ≡ map (λ p. p.number) parameters.now) }
{
    parameters
        .iter()
        .map(|parameter| parameter.number)
        .collect(alloc)
}

// Appends key, length and value of each.
fn put_wire(octets: &mut Vec<u8>, parameters: &[Parameter]) -> Result<(), AllocError>
    ensures { OnOk result (octets.new.items ≡ octets.old.items ++ tlvs (map parameter_value parameters.now)) }
{
    for parameter in parameters {
        octets.extend_from_slice(&parameter.number.to_be_bytes())?;
        octets.extend_from_slice(&(parameter.value.len() as u16).to_be_bytes())?;
        octets.extend_from_slice(parameter.value.as_slice())?;
    }
    Ok(())
}
