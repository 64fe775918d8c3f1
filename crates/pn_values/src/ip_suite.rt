// An IP suite: address, subnet mask and gateway.
ghost use Rattle.std.specs.Prelude.{◌≡◌, ◌↔◌, IsTrue, IsSome, IfSome, is_some, length};
ghost use Rattle.pn_values.specs.IpSuite.{IsMask, IsSuite, is_suite, zero_suite};

use std::marker::Model;

/// The IP suite of a station (IEC 61158-6-10, 4.3.1.4.11): address, subnet mask and gateway, each four octets in
/// network order. Clauses see them as three lists.
#[derive(Clone, Copy)]
pub struct IpSuite {
    address: [u8; 4],
    mask: [u8; 4],
    gateway: [u8; 4],
}

impl Model for IpSuite {
    ghost use Rattle.pn_values.specs.IpSuite.{Suite, IsSuite};

    ghost Value = { Suite };

    ghost view = { λ suite. record { address = suite.address; mask = suite.mask; gateway = suite.gateway } };

    ghost invariant = { λ suite. IsSuite (record { address = suite.address; mask = suite.mask; gateway = suite.gateway }) };

    ghost inverse = { λ suite. record { address = suite.address; mask = suite.mask; gateway = suite.gateway } };
}

impl IpSuite {
    /// The suite of a station that has no address yet: twelve zeros.
    pub fn zero() -> IpSuite
        ensures { result ≡ zero_suite }
    {
        IpSuite {
            address: [0; 4],
            mask: [0; 4],
            gateway: [0; 4],
        }
    }

    /// The suite with these parts, or `None` if a station may not have it. The mask must be ones and then zeros. All
    /// three must be zero, or the address must begin with a byte from 1 to 126 or from 128 to 223. The gateway is not
    /// checked.
    pub fn new(address: [u8; 4], mask: [u8; 4], gateway: [u8; 4]) -> Option<IpSuite>
        // A suite is returned if and only if a station may have one with these parts.
        ensures valid { IsSome result ↔ IsSuite (record { address = address; mask = mask; gateway = gateway }) }
        // The result agrees with `is_suite`, the test by which a Set is judged.
        ensures test { is_some result ≡ is_suite (record { address = address; mask = mask; gateway = gateway }) }
        // The suite has these parts.
        ensures value { IfSome result (λ suite. suite ≡ record { address = address; mask = mask; gateway = gateway }) }
    {
        suite_of(address, mask, gateway)
    }

    /// The IP address. Zeros mean no address.
    pub fn address(&self) -> [u8; 4]
        // The result is the address of the suite.
        ensures value { result ≡ self.now.address }
        // The suite is one that a station may have.
        ensures valid { IsSuite self.now }
        // The address has four octets.
        ensures length { length self.now.address ≡ 4 }
    {
        self.address
    }

    /// The subnet mask.
    pub fn mask(&self) -> [u8; 4]
        // The result is the subnet mask of the suite.
        ensures value { result ≡ self.now.mask }
        // The subnet mask has four octets.
        ensures length { length self.now.mask ≡ 4 }
    {
        self.mask
    }

    /// The default gateway. The address itself, or zeros, mean no gateway.
    pub fn gateway(&self) -> [u8; 4]
        // The result is the default gateway of the suite.
        ensures value { result ≡ self.now.gateway }
        // The default gateway has four octets.
        ensures length { length self.now.gateway ≡ 4 }
    {
        self.gateway
    }
}

/// The suite with these parts, or `None` if a station may not have it.
fn suite_of(address: [u8; 4], mask: [u8; 4], gateway: [u8; 4]) -> Option<IpSuite>
    ensures valid { IsSome result ↔ IsSuite (record { address = address; mask = mask; gateway = gateway }) }
    ensures value { IfSome result (λ suite. suite ≡ record { address = address; mask = mask; gateway = gateway }) }
{
    let host = matches!(address[0], 1..=126 | 128..=223);
    let none = address == [0; 4] && mask == [0; 4] && gateway == [0; 4];
    if is_mask(mask) && (host || none) {
        Some(IpSuite {
            address,
            mask,
            gateway,
        })
    } else {
        None
    }
}

/// Whether a mask is ones and then zeros.
fn is_mask(mask: [u8; 4]) -> bool
    ensures { IsTrue result ↔ IsMask mask }
{
    let number = u64::from(u32::from_be_bytes(mask));
    for zeros in 0..33u32 {
        if number + (1u64 << zeros) == 1 << 32 {
            return true;
        }
    }
    false
}
