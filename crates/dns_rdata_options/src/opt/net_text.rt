//! Texts of nets: an address, `/`, and how many of its bits are a prefix.

ghost use Rattle.std.specs.{Prelude.ℕ, Prelude.◌^◌, Prelude.◌<◌, Prelude.IfNone, Prelude.IfSome, Net.Grammar.Parses};
ghost use Rattle.dns_rdata_options.specs.NetText.{IsPrefixText, IsNetText, IsSubnetText};

use crate::opt::net::IpNet;
use crate::opt::subnet::ClientSubnet;
use dns_names_wire::AddrParseError;
use std::net::IpAddr;
use std::str::FromStr;

// The number of a prefix, in one to three decimal digits.
fn prefix_of(digits: &str) -> Option<u8>
    ensures some { IfSome result (IsPrefixText digits.now) }
    ensures none { IfNone result ((n : ℕ) → n < 2 ^ 8 → ¬ (IsPrefixText digits.now n)) }
{
    if digits.len() > 3 || digits.starts_with('+') {
        return None;
    }
    digits.parse::<u8>().ok()
}

/// Reads an address as `IpAddr` does, a `/`, and the prefix in one to three decimal digits, leading zeros allowed: at
/// most 32 for IPv4 and 128 for IPv6. Any other text gives [`AddrParseError`]. Allocates nothing.
impl FromStr for IpNet {
    type Err = AddrParseError;

    ghost from_str_gives = { Parses IsNetText };

    fn from_str(text: &str) -> Result<IpNet, AddrParseError> {
        let Some((address, digits)) = text.rsplit_once('/') else {
            return Err(AddrParseError);
        };
        let Some(prefix_len) = prefix_of(digits) else {
            return Err(AddrParseError);
        };
        let Ok(addr) = address.parse::<IpAddr>() else {
            return Err(AddrParseError);
        };
        IpNet::new(addr, prefix_len).ok_or(AddrParseError)
    }
}

/// Reads the text of a net. Its prefix becomes the source prefix; the scope prefix is 0. Any other text gives
/// [`AddrParseError`]. Allocates nothing.
impl FromStr for ClientSubnet {
    type Err = AddrParseError;

    ghost from_str_gives = { Parses IsSubnetText };

    fn from_str(text: &str) -> Result<ClientSubnet, AddrParseError> {
        match text.parse::<IpNet>() {
            Ok(net) => Ok(ClientSubnet::from(net)),
            Err(e) => Err(e),
        }
    }
}
