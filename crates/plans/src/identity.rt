//! What a controller says of itself to tools.
ghost use Rattle.std.specs.Prelude.{◌≡◌, ◌≤◌, true, Some, None, if◌then◌else◌, length};
ghost use Rattle.std.specs.List.{list_all};
ghost use Rattle.plans.specs.Identity.{are_printable, is_printable, is_station_type};

use arrayvec::ArrayVec;
use std::marker::Model;

/// What a controller says of itself to tools by DCP: VendorID, DeviceID and its type of station (DeviceVendorValue), which has 1 to 25
/// printable octets. Clauses see the three.
#[derive(Drop)]
pub struct ControllerIdentity {
    vendor_id: u16,
    device_id: u16,
    station_type: ArrayVec<u8, 25>,
}

impl Model for ControllerIdentity {
    ghost use Rattle.std.specs.Prelude.{◌≡◌, true};
    ghost use Rattle.plans.specs.Identity.{OwnIdentity, is_station_type};

    ghost Value = { OwnIdentity };

    ghost view = { λ own. record { vendor_id = own.vendor_id; device_id = own.device_id; station_type = own.station_type.items } };

    ghost invariant = { λ own. is_station_type own.station_type.items ≡ true };
}

impl ControllerIdentity {
    /// The identity with these parts. `None` if the type of station does not have 1 to 25 octets, or one of them is not printable.
    pub fn new(vendor_id: u16, device_id: u16, station_type: &[u8]) -> Option<ControllerIdentity>
        ensures { result ≡ (if is_station_type station_type.now
            then Some (record { vendor_id = vendor_id; device_id = device_id; station_type = station_type.now }) else None) }
    {
        if !is_station_type(station_type) {
            return None;
        }
        Some(ControllerIdentity {
            vendor_id,
            device_id,
            station_type: octets_of(station_type),
        })
    }

    /// VendorID.
    pub fn vendor_id(&self) -> u16
        ensures { result ≡ self.now.vendor_id }
    {
        self.vendor_id
    }

    /// DeviceID.
    pub fn device_id(&self) -> u16
        ensures { result ≡ self.now.device_id }
    {
        self.device_id
    }

    /// The type of station.
    pub fn station_type(&self) -> &[u8]
        ensures value { result.now ≡ self.now.station_type }
        // It has 1 to 25 octets, and each is printable.
        ensures valid { is_station_type self.now.station_type ≡ true }
        ensures few { length result.now ≤ 25 }
        ensures some { 1 ≤ length result.now }
    {
        self.station_type.as_slice()
    }

    /// A copy of the identity. It needs no memory.
    pub fn copy(&self) -> ControllerIdentity
        ensures { result ≡ self.now }
    {
        ControllerIdentity {
            vendor_id: self.vendor_id,
            device_id: self.device_id,
            station_type: octets_of(self.station_type.as_slice()),
        }
    }
}

/// Whether these octets are a type of station: 1 to 25 printable octets.
fn is_station_type(octets: &[u8]) -> bool
    ensures value { result ≡ is_station_type octets.now }
    ensures few { result ≡ true → length octets.now ≤ 25 }
{
    !octets.is_empty() && octets.len() <= 25 && are_printable(octets)
}

/// Whether each octet is printable.
fn are_printable(octets: &[u8]) -> bool
    ensures { result ≡ are_printable octets.now }
{
    octets.iter().all(|octet| is_printable(*octet))
}

/// Whether an octet is a printable character of ASCII: 0x20 to 0x7E.
fn is_printable(octet: u8) -> bool
    ensures { result ≡ is_printable octet }
{
    (0x20..=0x7E).contains(&octet)
}

/// A buffer with these octets.
fn octets_of(octets: &[u8]) -> ArrayVec<u8, 25>
    requires { length octets.now ≤ 25 }
    ensures { result.items ≡ octets.now }
{
    let mut copy = ArrayVec::new();
    copy.try_extend_from_slice(octets).unwrap();
    copy
}
