//! The addresses of the station and of the controller.
ghost use Rattle.std.specs.Prelude.{◌≡◌, ℕ, true, List, IfSome, IfNone};
ghost use Rattle.std.specs.Net.Grammar.{IsDotted};
ghost use Rattle.pn_values.specs.IpSuite.{Suite, is_host};
ghost use Rattle.configurator.specs.Addresses.{AreAddresses, IsHostOf, IsMacOf, IsSuiteOf, digits_of, is_parted, mac_of};

use catalogue::{ControllerItem, Project, StationItem};
use hex::FromHex;
use pn_values::{IpSuite, Mac};
use std::net::Ipv4Addr;

/// The addresses of a project, as octets.
#[derive(Clone, Copy)]
pub(crate) struct Addresses {
    /// The station's IP suite.
    pub suite: IpSuite,
    /// The controller's Ethernet address.
    pub mac: Mac,
    /// The controller's IP address.
    pub address: [u8; 4],
}

/// The four octets of an IP address in dotted decimal. `None` if the text is not one.
fn octets_of(text: &str) -> Option<[u8; 4]>
    ensures some { IfSome result (λ octets. IsDotted text.now octets) }
    ensures none { IfNone result ((octets : List ℕ) → ¬ IsDotted text.now octets) }
{
    match Ipv4Addr::parse_ascii(text.as_bytes()) {
        Ok(address) => Some(address.octets()),
        Err(_) => None,
    }
}

/// The station's IP suite. `None` if one of the texts is not an address, or the three are not a valid suite.
fn suite_of(station: &StationItem) -> Option<IpSuite>
    ensures some { IfSome result (λ suite. IsSuiteOf station.now suite) }
    ensures none { IfNone result ((suite : Suite) → ¬ IsSuiteOf station.now suite) }
{
    let address = octets_of(station.address.as_str())?;
    let mask = octets_of(station.mask.as_str())?;
    let gateway = octets_of(station.gateway.as_str())?;
    IpSuite::new(address, mask, gateway)
}

/// Whether a text has 17 octets and the five hyphens of an Ethernet address.
fn is_parted(text: &[u8]) -> bool
    ensures { result ≡ is_parted text.now }
{
    text.len() == 17
        && text[2] == b'-'
        && text[5] == b'-'
        && text[8] == b'-'
        && text[11] == b'-'
        && text[14] == b'-'
}

/// The twelve digits between the hyphens.
fn digits_of(text: &[u8]) -> [u8; 12]
    requires { is_parted text.now ≡ true }
    ensures { result ≡ digits_of text.now }
{
    [
        text[0], text[1], text[3], text[4], text[6], text[7], text[9], text[10], text[12],
        text[13], text[15], text[16],
    ]
}

/// The six octets of an Ethernet address: six pairs of hex digits, with hyphens between them. `None` if the text is not one.
fn mac_of(text: &[u8]) -> Option<[u8; 6]>
    ensures { result ≡ mac_of text.now }
{
    if !is_parted(text) {
        return None;
    }
    let digits = digits_of(text);
    let octets = <[u8; 6] as FromHex>::from_hex(digits.as_slice());
    octets.ok()
}

/// The controller's Ethernet address. `None` if the text is not one, or is the address of a group: its first octet is odd.
fn station_mac_of(controller: &ControllerItem) -> Option<Mac>
    ensures some { IfSome result (λ mac. IsMacOf controller.now mac.octets) }
    ensures none { IfNone result ((octets : List ℕ) → ¬ IsMacOf controller.now octets) }
{
    let octets = mac_of(controller.mac.as_bytes())?;
    // An odd first octet is the address of a group, which no station has as its own.
    if octets[0] % 2 == 0 {
        Some(Mac { octets })
    } else {
        None
    }
}

/// Whether an IP address with this first octet is that of a host.
fn is_host(octet: u8) -> bool
    ensures { result ≡ is_host octet }
{
    (1..=126).contains(&octet) || (128..=223).contains(&octet)
}

/// The controller's IP address. `None` if the text is not an address, or not that of a host.
fn host_of(controller: &ControllerItem) -> Option<[u8; 4]>
    ensures some { IfSome result (λ address. IsHostOf controller.now address) }
    ensures none { IfNone result ((address : List ℕ) → ¬ IsHostOf controller.now address) }
{
    let address = octets_of(controller.address.as_str())?;
    // No host on a wire has an address of the networks 0 and 127 or of those from 224 on.
    if is_host(address[0]) {
        Some(address)
    } else {
        None
    }
}

/// The addresses of a project. `None` if one of them is not valid.
pub(crate) fn addresses_of(project: &Project) -> Option<Addresses>
    ensures some { IfSome result (λ found. AreAddresses project.now found) }
    ensures none { IfNone result ((found : Addresses) → ¬ AreAddresses project.now found) }
{
    let suite = suite_of(&project.station)?;
    let mac = station_mac_of(&project.controller)?;
    let address = host_of(&project.controller)?;
    Some(Addresses {
        suite,
        mac,
        address,
    })
}
