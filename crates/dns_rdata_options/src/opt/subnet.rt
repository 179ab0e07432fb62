//! The subnet of a client (RFC 7871, 6).

ghost use Rattle.std.specs.Prelude.{◌≡◌, ◌+◌, ◌<◌, ◌≤◌, ◌/◌, ◌⊎◌, IfSome, IfNone, false, length, drop, take, Result, IfOk, IfErr, OnErr, Bool};
ghost use Rattle.dns_fields.specs.Tlvs.{option_octets, IsEmittableOption, IsAddress, Subnet as SubnetValue};
ghost use Rattle.dns_names_wire.specs.Terms.{ReadsBy, EmitsFitting, IsMessage};
ghost use Rattle.dns_rdata_options.specs.{IpNet.masked_address, ClientSubnet.address_of, ClientSubnet.IsFamily};
ghost use Rattle.dns_rdata_options.specs.ClientSubnet.{subnet_value, SubnetAt, IsSubnetError, ReadsSubnet, prefix_octets, family_octets};

use crate::opt::net::{IpNet, masked_address};
use dns_check::BinDecodable;
use dns_names_wire::{BinDecoder, BinEncodable, BinEncoder, DecodeError, ProtoError};
use std::alloc::Global;
use std::net::{IpAddr, Ipv4Addr, Ipv6Addr};

/// The subnet of a client (RFC 7871, section 6).
///
/// ```text
/// +--+--+--+--+  +--------+  +--------+  +-- ..
/// |   FAMILY  |  | SOURCE |  | SCOPE  |  | ADDRESS
/// |           |  | PREFIX |  | PREFIX |  |
/// +--+--+--+--+  +--------+  +--------+  +-- ..
/// ```
///
/// FAMILY has two octets: 1 for IPv4, 2 for IPv6. Each prefix has one. ADDRESS has as many octets as the source prefix
/// needs: its bits divided by 8 and rounded up. Bits of the last octet after the prefix are kept as they are.
///
/// Subnets are ordered by their fields: IPv4 before IPv6, then address, source prefix and scope prefix.
#[derive(Clone, Copy, Debug, PartialEq, Eq, PartialOrd, Ord, Hash)]
pub struct ClientSubnet {
    /// The address. After a read, the octets that the source prefix does not need are 0.
    pub address: IpAddr,
    /// How many bits of the address the client gives.
    pub source_prefix: u8,
    /// How many bits of the address an answer is for; 0 in a query.
    pub scope_prefix: u8,
}

impl ClientSubnet {
    /// Makes a subnet of these fields, whatever they are. If the source prefix needs more than the 4 octets of IPv4 or
    /// the 16 of IPv6, `emit` returns an error.
    #[inline]
    pub fn new(address: IpAddr, source_prefix: u8, scope_prefix: u8) -> ClientSubnet
        ensures { result ≡ record { address = address; source_prefix = source_prefix; scope_prefix = scope_prefix } }
    {
        ClientSubnet {
            address,
            source_prefix,
            scope_prefix,
        }
    }

    /// Returns how many octets it has on the wire: 4, and those of the address that the source prefix needs.
    #[inline]
    pub fn len(&self) -> u16
        ensures { result ≡ 4 + prefix_octets self.now.source_prefix }
    {
        4 + (u16::from(self.source_prefix) + 7) / 8
    }

    /// Returns `false`: it always has octets on the wire.
    #[inline]
    pub fn is_empty(&self) -> bool
        ensures { result ≡ false }
    {
        false
    }

    /// The address.
    #[inline]
    pub fn addr(&self) -> IpAddr
        ensures { result ≡ self.now.address }
    {
        self.address
    }

    /// Sets the address.
    #[inline]
    pub fn set_addr(&mut self, addr: IpAddr)
        ensures { self.new ≡ record self.old { address = addr } }
    {
        self.address = addr;
    }

    /// The source prefix.
    #[inline]
    pub fn source_prefix(&self) -> u8
        ensures { result ≡ self.now.source_prefix }
    {
        self.source_prefix
    }

    /// Sets the source prefix.
    #[inline]
    pub fn set_source_prefix(&mut self, source_prefix: u8)
        ensures { self.new ≡ record self.old { source_prefix = source_prefix } }
    {
        self.source_prefix = source_prefix;
    }

    /// The scope prefix.
    #[inline]
    pub fn scope_prefix(&self) -> u8
        ensures { result ≡ self.now.scope_prefix }
    {
        self.scope_prefix
    }

    /// Sets the scope prefix.
    #[inline]
    pub fn set_scope_prefix(&mut self, scope_prefix: u8)
        ensures { self.new ≡ record self.old { scope_prefix = scope_prefix } }
    {
        self.scope_prefix = scope_prefix;
    }

    /// Returns the subnet with the bits of its address after the source prefix set to 0 and with the same prefixes. If
    /// the source prefix has at least as many bits as the address, the address is unchanged.
    #[inline]
    pub fn masked(self) -> ClientSubnet
        ensures { result ≡ record self { address = masked_address self.source_prefix self.address } }
    {
        ClientSubnet {
            address: masked_address(self.address, self.source_prefix),
            source_prefix: self.source_prefix,
            scope_prefix: self.scope_prefix,
        }
    }
}

impl ClientSubnet {
    /// Returns the octets that `emit` appends to a fresh encoder. Allocates once. The errors are those of `emit`.
    pub fn to_vec(&self, alloc: Global) -> Result<Vec<u8>, ProtoError>
        ensures ok { IfOk result (λ octets. (octets.items ≡ option_octets (subnet_value self.now)) × IsEmittableOption (subnet_value self.now)) }
        ensures refused { IfErr result (λ e. (e ≡ ProtoError.Memory) ⊎ (IsMessage e × (IsEmittableOption (subnet_value self.now) → ⊥))) }
    {
        let mut octets = Vec::with_capacity(alloc, self.len() as usize)?;
        let mut encoder = BinEncoder::new(alloc, &mut octets);
        self.emit(&mut encoder)?;
        let _octets = encoder.into_bytes();
        Ok(octets)
    }
}

impl From<IpNet> for ClientSubnet {
    ghost from_gives = { λ net x. x ≡ record { address = net.0; source_prefix = net.1; scope_prefix = 0 } };

    /// Makes a subnet of the net's address, with its prefix as the source prefix and 0 as the scope prefix.
    fn from(net: IpNet) -> ClientSubnet {
        ClientSubnet::new(net.addr(), net.prefix_len(), 0)
    }
}

// The address of a family that begins with these octets and goes on with octets 0.
fn address_of(family: u16, octets: &[u8]) -> IpAddr
    requires { length octets.now ≤ family_octets family }
    ensures { result ≡ address_of family octets.now }
{
    if family == 1 {
        let mut all = [0; 4];
        all[..octets.len()].copy_from_slice(octets);
        IpAddr::V4(Ipv4Addr::from_octets(all))
    } else {
        let mut all = [0; 16];
        all[..octets.len()].copy_from_slice(octets);
        IpAddr::V6(Ipv6Addr::from_octets(all))
    }
}

// How many octets an address of the family has, if such addresses are known.
#[inline]
fn octets_of_family(family: u16) -> Option<usize>
    ensures known { IfSome result (λ read. IsFamily family × (read ≡ family_octets family)) }
    ensures unknown { IfNone result (IsFamily family → ⊥) }
{
    match family {
        1 => Some(4),
        2 => Some(16),
        _ => None,
    }
}

// The subnet that begins the octets, and how many octets it has.
#[tactic(auto, using(dns_check::proofs::Subnets::family_first))]
fn read_front(octets: &[u8]) -> Result<(ClientSubnet, usize), DecodeError>
    ensures read { IfOk result (λ x. SubnetAt octets.now 0 x.0 x.1) }
    ensures refused { IfErr result (λ e. IsSubnetError octets.now e) }
{
    if octets.len() < 2 {
        return Err(DecodeError::InsufficientBytes);
    }
    let family = u16::from_be_bytes([octets[0], octets[1]]);
    let Some(read) = octets_of_family(family) else {
        return Err(DecodeError::UnknownAddressFamily(family));
    };
    if octets.len() < 4 {
        return Err(DecodeError::InsufficientBytes);
    }
    let len = (octets[2] as usize + 7) / 8;
    if read < len {
        return Err(DecodeError::IncorrectRDataLengthRead { read, len });
    }
    if octets.len() - 4 < len {
        return Err(DecodeError::InsufficientBytes);
    }
    let address = address_of(family, &octets[4..4 + len]);
    Ok((ClientSubnet::new(address, octets[2], octets[3]), 4 + len))
}

impl BinDecodable for ClientSubnet {
    ghost stands = { SubnetAt };

    ghost refuses = { λ old e _. IsSubnetError (drop old.index old.message) e };

    /// Reads a subnet and leaves what follows it. Octets of the address that are not sent are 0.
    ///
    /// # Errors
    ///
    /// The first of these. The decoder is unchanged then.
    ///
    /// - [`UnknownAddressFamily`](DecodeError::UnknownAddressFamily): the family is neither 1 nor 2.
    /// - [`IncorrectRDataLengthRead`](DecodeError::IncorrectRDataLengthRead), with 4 or 16 and the octets that the
    ///   source prefix needs: these are more.
    /// - [`InsufficientBytes`](DecodeError::InsufficientBytes): the message ends first.
    fn read(decoder: &mut BinDecoder<'_>) -> Result<ClientSubnet, DecodeError>
        ensures reads { ReadsBy SubnetAt result decoder.old decoder.new }
        ensures refused { IfErr result (λ e. IsSubnetError (drop decoder.old.index decoder.old.message) e) }
        ensures unchanged { OnErr result (decoder.new ≡ decoder.old) }
    {
        let _start = decoder.index();
        let (subnet, len) = read_front(decoder.unread().unverified())?;
        let _taken = decoder.read_slice(len)?;
        Ok(subnet)
    }
}

impl TryFrom<&[u8]> for ClientSubnet {
    type Error = DecodeError;

    ghost try_from_gives = { λ octets r. ReadsSubnet octets.now r };

    /// Reads the subnet at the front of the octets, whatever follows. The errors are those of `read`.
    fn try_from(octets: &[u8]) -> Result<ClientSubnet, DecodeError> {
        let (subnet, _len) = read_front(octets)?;
        Ok(subnet)
    }
}

// Appends family, prefixes and the first octets of an address of this many.
fn emit_parts(
    encoder: &mut BinEncoder<'_>,
    family: u16,
    subnet: &ClientSubnet,
    address: &[u8],
) -> Result<(), ProtoError>
    requires { IsFamily family × (length address.now ≡ family_octets family) }
    ensures { EmitsFitting (IsAddress family subnet.now.source_prefix (take (prefix_octets subnet.now.source_prefix) address.now))
        (option_octets (SubnetValue family subnet.now.source_prefix subnet.now.scope_prefix (take (prefix_octets subnet.now.source_prefix) address.now)))
        result encoder.old encoder.new }
{
    let len = (subnet.source_prefix as usize + 7) / 8;
    if len > address.len() {
        return Err(ProtoError::Message("prefix past the octets of an address"));
    }
    let [high, low] = family.to_be_bytes();
    encoder.emit_vec(&[high, low, subnet.source_prefix, subnet.scope_prefix])?;
    encoder.emit_vec(&address[..len])?;
    Ok(())
}

impl BinEncodable for ClientSubnet {
    ghost emits = { λ x r old new. EmitsFitting (IsEmittableOption (subnet_value x)) (option_octets (subnet_value x)) r old new };

    /// Appends family, prefixes, and the octets of the address that the source prefix needs. Returns
    /// [`Message`](ProtoError::Message) if these are more than the address has.
    fn emit(&self, encoder: &mut BinEncoder<'_>) -> Result<(), ProtoError> {
        match self.address {
            IpAddr::V4(ip) => emit_parts(encoder, 1, self, &ip.octets()),
            IpAddr::V6(ip) => emit_parts(encoder, 2, self, &ip.octets()),
        }
    }
}
