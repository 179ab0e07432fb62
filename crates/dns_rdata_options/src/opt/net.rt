//! An address with the length of a prefix.

ghost use Rattle.std.specs.Prelude.{◌≡◌, ◌<◌, ◌≤◌, IfSome, IfNone, ℕ};
ghost use Rattle.dns_rdata_options.specs.IpNet.{address_bits, masked_octet, masked_octets, masked_address};
ghost use Rattle.std.specs.declared.net.ip_addr.IpAddr.{IpAddr as IpAddrValue};

use std::marker::Model;
use std::net::{IpAddr, Ipv4Addr, Ipv6Addr};

/// An address and how many bits of it are a prefix: at most 32 of IPv4, at most 128 of IPv6. Contracts see the pair.
#[derive(Clone, Copy, Debug, PartialEq, Eq, Hash)]
pub struct IpNet {
    addr: IpAddr,
    prefix_len: u8,
}

impl Model for IpNet {
    ghost Value = { IpAddrValue × ℕ };

    ghost view = { λ n. (n.addr, n.prefix_len) };

    ghost invariant = { λ n. n.prefix_len ≤ address_bits n.addr };

    ghost inverse = { λ n. record { addr = n.0; prefix_len = n.1 } };
}

impl IpNet {
    /// Makes a net of this address and prefix; `None` if the prefix has more bits than the address.
    pub fn new(addr: IpAddr, prefix_len: u8) -> Option<IpNet>
        ensures some { IfSome result (λ n. (n ≡ (addr, prefix_len)) × (prefix_len ≤ address_bits addr)) }
        ensures none { IfNone result (address_bits addr < prefix_len) }
    {
        let most = match addr {
            IpAddr::V4(_) => 32,
            IpAddr::V6(_) => 128,
        };
        if prefix_len > most {
            return None;
        }
        Some(IpNet { addr, prefix_len })
    }

    /// The address, with all of its bits as given.
    #[inline]
    pub fn addr(&self) -> IpAddr
        ensures { result ≡ self.now.0 }
    {
        self.addr
    }

    /// How many bits are the prefix.
    #[inline]
    pub fn prefix_len(&self) -> u8
        ensures value { result ≡ self.now.1 }
        ensures most { result ≤ address_bits self.now.0 }
    {
        self.prefix_len
    }

    /// Returns the net with the bits of its address after the prefix set to 0.
    pub fn masked(self) -> IpNet
        ensures { result ≡ (masked_address self.1 self.0, self.1) }
    {
        IpNet {
            addr: masked_address(self.addr, self.prefix_len),
            prefix_len: self.prefix_len,
        }
    }
}

/// The address with its first `bits` bits, and 0 for the others.
pub(crate) fn masked_address(addr: IpAddr, bits: u8) -> IpAddr
    ensures { result ≡ masked_address bits addr }
{
    match addr {
        IpAddr::V4(ip) => {
            let mut octets = ip.octets();
            mask_octets(&mut octets, bits);
            IpAddr::V4(Ipv4Addr::from_octets(octets))
        }
        IpAddr::V6(ip) => {
            let mut octets = ip.octets();
            mask_octets(&mut octets, bits);
            IpAddr::V6(Ipv6Addr::from_octets(octets))
        }
    }
}

// Clears the bits after so many.
#[tactic(auto, using(crate::proofs::Masks::masked_all))]
fn mask_octets(octets: &mut [u8], bits: u8)
    ensures { octets.new ≡ masked_octets bits octets.old }
{
    let mut left = bits;
    for i in 0..octets.len() {
        octets[i] = masked_octet(octets[i], left);
        left = left.saturating_sub(8);
    }
}

// An octet with its first bits as they are, so many of its eight, and 0 for the others.
#[inline]
fn masked_octet(octet: u8, bits: u8) -> u8
    ensures { result ≡ masked_octet bits octet }
{
    let unit = 1u16 << 8u8.saturating_sub(bits);
    (u16::from(octet) / unit * unit) as u8
}
