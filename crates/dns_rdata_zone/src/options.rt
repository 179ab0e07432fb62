//! EDNS options in the unknown-data form (RFC 3597, section 5): OPT has no other text in a zone file.

ghost use Rattle.std.specs.Prelude.{◌≡◌, ◌+◌, ◌*◌, ◌≤◌, Some, IfSome, length, take};
ghost use Rattle.std.specs.Fmt.{DisplaysOnOk};
ghost use Rattle.hex.specs.Hex.{encode_lower};
ghost use Rattle.dns_fields.specs.Tlvs.{option_octets};
ghost use Rattle.dns_rdata_options.specs.{ClientSubnet.prefix_octets, ClientSubnet.subnet_value, EdnsOption.option_value};
ghost use Rattle.dns_rdata_zone.specs.Options.{subnet_octets, pair_octets, options_octets, zone_options};
ghost use Rattle.dns_rdata_zone.specs.Tokens.{tokens_from, in_tokens};

use crate::tokens::{HEX_OCTETS, HexTokens, left_after};
use dns_canonical::Head;
use dns_rdata::OPT;
use dns_rdata::opt::{ClientSubnet, EdnsCode, EdnsOption};
use std::fmt;
use std::net::IpAddr;

// The octets of an address that the source prefix of a subnet needs.
fn asked_octets(address: &[u8], source: u8) -> &[u8]
    ensures value { result.now ≡ take (prefix_octets source) address.now }
    ensures few { length result.now ≤ length address.now }
{
    let len = (source as usize + 7) / 8;
    if len > address.len() {
        return address;
    }
    &address[..len]
}

// How many octets a subnet with these octets of an address has.
fn subnet_len(address: &[u8], source: u8) -> usize
    requires { length address.now ≤ 16 }
    ensures { result ≡ 4 + length (take (prefix_octets source) address.now) }
{
    4 + asked_octets(address, source).len()
}

// How many octets an option has after its code and its length.
fn option_len(option: &EdnsOption) -> usize
    ensures { result ≡ length (option_octets (option_value option.now)) }
{
    match option {
        EdnsOption::Subnet(subnet) => match subnet.address {
            IpAddr::V4(ip) => subnet_len(ip.octets().as_slice(), subnet.source_prefix),
            IpAddr::V6(ip) => subnet_len(ip.octets().as_slice(), subnet.source_prefix),
        },
        EdnsOption::NSID(payload) => payload.as_ref().len(),
        EdnsOption::Unknown(_, octets) => octets.len(),
    }
}

// Writes family, prefixes and the octets of the address that the source prefix needs, in hexadecimal. The token takes
// `left` more octets, here and below.
fn write_subnet<W: fmt::Write>(
    family: u16,
    source: u8,
    scope: u8,
    address: &[u8],
    left: usize,
    f: &mut fmt::Formatter<W>,
) -> fmt::Result
    requires { length address.now ≤ 16 }
    ensures { DisplaysOnOk W.write_str_gives f.old result (Some (tokens_from (2 * left) (encode_lower (subnet_octets family source scope address.now)))) f.new }
{
    let mut head = Head::new();
    head.two(family);
    head.one(source);
    head.one(scope);
    head.octets(asked_octets(address, source));
    let octets = head.as_slice();
    f.write(HexTokens { octets, left })
}

/// A subnet in hexadecimal.
#[derive(Clone, Copy)]
struct SubnetDigits<'a>(&'a ClientSubnet, usize);

impl fmt::Display for SubnetDigits<'_> {
    ghost output = { λ s. Some (tokens_from (2 * s.1) (encode_lower (option_octets (subnet_value s.0.now)))) };

    fn fmt<W: fmt::Write>(&self, f: &mut fmt::Formatter<W>) -> fmt::Result {
        let source = self.0.source_prefix;
        let scope = self.0.scope_prefix;
        match self.0.address {
            IpAddr::V4(ip) => write_subnet(1, source, scope, ip.octets().as_slice(), self.1, f),
            IpAddr::V6(ip) => write_subnet(2, source, scope, ip.octets().as_slice(), self.1, f),
        }
    }
}

/// The data of an option in hexadecimal.
#[derive(Clone, Copy)]
struct ValueDigits<'a>(&'a EdnsOption, usize);

impl fmt::Display for ValueDigits<'_> {
    ghost output = { λ x. Some (tokens_from (2 * x.1) (encode_lower (option_octets (option_value x.0.now)))) };

    fn fmt<W: fmt::Write>(&self, f: &mut fmt::Formatter<W>) -> fmt::Result {
        let left = self.1;
        match self.0 {
            EdnsOption::Subnet(subnet) => f.write(SubnetDigits(subnet, left)),
            EdnsOption::NSID(payload) => f.write(HexTokens {
                octets: payload.as_ref(),
                left,
            }),
            EdnsOption::Unknown(_, octets) => f.write(HexTokens {
                octets: octets.as_slice(),
                left,
            }),
        }
    }
}

/// Code, length and data of an option in hexadecimal.
#[derive(Clone, Copy)]
struct OptionDigits<'a>(&'a (EdnsCode, EdnsOption), usize);

impl fmt::Display for OptionDigits<'_> {
    ghost output = { λ p. Some (tokens_from (2 * p.1) (encode_lower (pair_octets p.0.now))) };

    fn fmt<W: fmt::Write>(&self, f: &mut fmt::Formatter<W>) -> fmt::Result {
        let len = option_len(&self.0.1);
        if len > 65535 {
            return Err(fmt::Error);
        }
        let mut head = Head::new();
        head.two(u16::from(self.0.0));
        head.two(len as u16);
        let left = self.1;
        let value = ValueDigits(&self.0.1, left_after(left, 4));
        let octets = head.as_slice();
        f.write(HexTokens { octets, left })?;
        f.write(value)
    }
}

/// Options in their order, in hexadecimal.
#[derive(Clone, Copy)]
struct OptionsDigits<'a>(&'a [(EdnsCode, EdnsOption)]);

impl fmt::Display for OptionsDigits<'_> {
    ghost output = { λ x. Some (in_tokens (encode_lower (options_octets x.0.now))) };

    fn fmt<W: fmt::Write>(&self, f: &mut fmt::Formatter<W>) -> fmt::Result {
        let pairs = self.0;
        let mut left = HEX_OCTETS;
        for pair in pairs {
            let len = option_len(&pair.1);
            if len > 65535 {
                return Err(fmt::Error);
            }
            f.write(OptionDigits(pair, left))?;
            left = left_after(left, 4 + len);
        }
        Ok(())
    }
}

// How many octets the options have. `None` if one is too long for its length, or if 64 bits do not hold the number.
fn count_octets(pairs: &[(EdnsCode, EdnsOption)]) -> Option<u64>
    ensures { IfSome result (λ n. n ≡ length (options_octets pairs.now)) }
{
    let mut count = 0u64;
    for pair in pairs {
        let len = option_len(&pair.1);
        if len > 65535 {
            return None;
        }
        count = count.checked_add(4 + len as u64)?;
    }
    Some(count)
}

/// Options in their order, in the unknown-data form.
#[derive(Clone, Copy)]
pub(crate) struct ZoneOptions<'a>(pub &'a OPT);

impl fmt::Display for ZoneOptions<'_> {
    ghost output = { λ x. Some (zone_options x.0.now) };

    fn fmt<W: fmt::Write>(&self, f: &mut fmt::Formatter<W>) -> fmt::Result {
        let pairs = self.0.as_ref();
        let Some(count) = count_octets(pairs) else {
            return Err(fmt::Error);
        };
        if count == 0 {
            return f.write_str("\\# 0");
        }
        let digits = OptionsDigits(pairs);
        write!(f, "\\# {count} {digits}")
    }
}
