//! Addresses, and ranges of them.
ghost use Rattle.std.specs.Prelude.{◌≡◌, ◌≤◌, ◌↔◌, ◌<◌, ◌^◌, IsTrue};
ghost use Rattle.iam_value.specs.Reading.{IsReading, IsOnly};
ghost use Rattle.iam_value.specs.Address.{bits_of, IsAddress, IsHost, IsNetwork, IsRange, Holds, first_bits, AddressBits, Block};

use crate::pieces::octet;
use std::marker::Model;
use std::net::IpAddr;

/// An IPv4 or an IPv6 address. A contract sees how many bits its family has, 32 or 128, and the number that they make.
#[derive(Debug, Drop)]
pub struct Address {
    width: u32,
    number: u128,
}

impl Model for Address {
    ghost Value = { AddressBits };

    ghost view = { λ a. record { width = a.width; number = a.number } };

    ghost invariant = { λ a. (a.width ≤ 128) × (a.number < 2 ^ a.width) };
}

impl Address {
    /// The address that the text writes: four decimal numbers of 0 to 255 without leading zeros, joined by dots, or one of the
    /// forms of RFC 4291 section 2.2. `None` for any other text, and so for a zone or a prefix length.
    pub fn read(text: &str) -> Option<Address>
        ensures value { IsReading result (IsAddress text.now) }
        ensures only { IsOnly result (IsAddress text.now) }
    {
        text.parse::<IpAddr>().ok().map(Address::of)
    }

    fn of(ip: IpAddr) -> Address
        ensures { result ≡ bits_of ip }
    {
        match ip {
            IpAddr::V4(ip) => Address {
                width: 32,
                number: u128::from(ip.to_bits()),
            },
            IpAddr::V6(ip) => Address {
                width: 128,
                number: ip.to_bits(),
            },
        }
    }

    /// The first bits, as a number.
    fn first_bits(&self, count: u32) -> u128
        requires { count ≤ self.now.width }
        ensures { result ≡ first_bits count self.now }
    {
        let number = self.number;
        if count == 0 {
            return 0;
        }
        number >> (self.width - count)
    }
}

/// An address, and how many of its first bits count. A contract sees both.
#[derive(Debug, Drop)]
pub struct Range {
    address: Address,
    prefix: u32,
}

impl Model for Range {
    ghost Value = { Block };

    ghost view = { λ r. record { address = r.address; prefix = r.prefix } };

    ghost invariant = { λ r. r.prefix ≤ r.address.width };
}

impl Range {
    /// The range that the text writes: an address, whose bits all count, or an address, `/` and a number of bits
    /// without leading zeros, at most 32 or 128. `None` for any other text.
    pub fn read(text: &str) -> Option<Range>
        ensures value { IsReading result (IsRange text.now) }
        ensures only { IsOnly result (IsRange text.now) }
    {
        match text.split_once('/') {
            None => Range::all_of(text),
            Some((address, prefix)) => Range::first_of(address, octet(prefix.as_bytes())?),
        }
    }

    /// The range of an address alone.
    fn all_of(text: &str) -> Option<Range>
        ensures { IsReading result (IsHost text.now) }
    {
        let address = Address::read(text)?;
        let prefix = address.width;
        Some(Range { address, prefix })
    }

    /// The range of the addresses that agree with the one of the text in that many bits.
    fn first_of(text: &str, prefix: u32) -> Option<Range>
        ensures { IsReading result (IsNetwork text.now prefix) }
    {
        let address = Address::read(text)?;
        if prefix > address.width {
            return None;
        }
        Some(Range { address, prefix })
    }

    /// How many bits the addresses of its family have, 32 or 128.
    pub fn width(&self) -> u32
        ensures { result ≡ self.now.address.width }
    {
        self.address.width
    }

    /// The number that the bits of its address make.
    pub fn number(&self) -> u128
        ensures { result ≡ self.now.address.number }
    {
        self.address.number
    }

    /// How many of the first bits of its address count.
    pub fn prefix(&self) -> u32
        ensures { result ≡ self.now.prefix }
    {
        self.prefix
    }

    /// Whether the address is of the range's family and agrees with it in the bits that count.
    pub fn holds(&self, address: &Address) -> bool
        ensures { IsTrue result ↔ Holds self.now address.now }
    {
        let own = &self.address;
        if own.width != address.width {
            return false;
        }
        own.first_bits(self.prefix) == address.first_bits(self.prefix)
    }
}
