//! The stations that exist.
ghost use Rattle.frame_codec.specs.Sendable.{IsMac};
ghost use Rattle.rpc_core.specs.Sendable.{IsUuid};
ghost use Rattle.end_laws.specs.hearing.Stations.{IsAddress, IsDevice, IsSetup};

use controller_messages::Setup;
use pn_values::{Identity, Mac};
use uuid::Uuid;

/// A MAC address has six octets.
fn has_six(mac: &Mac)
    ensures { IsMac mac.now }
{
    let _octets: &[u8] = &mac.octets;
}

/// An IPv4 address has four octets.
fn has_four(address: &[u8; 4])
    ensures { IsAddress address.now }
{
    let _octets: &[u8] = address;
}

/// An identifier has 16 octets.
fn has_sixteen(uuid: &Uuid)
    ensures { IsUuid uuid.now }
{
    let bytes = uuid.into_bytes();
    let _octets: &[u8] = &bytes;
}

/// The law of stations: each set-up and each identity meets what the other laws require of it.
pub fn stations_are_real(setup: &Setup, identity: &Identity)
    // The plan of a set-up is valid, and its addresses and identifiers have their sizes.
    ensures setup { IsSetup setup.now }
    // The device's MAC address has its size.
    ensures device { IsDevice identity.now }
{
    let controller = setup.plan.controller();
    has_six(&controller.mac);
    has_four(&controller.address);
    let station = setup.plan.station();
    let _address = station.suite.address();
    let _mask = station.suite.mask();
    let _gateway = station.suite.gateway();
    has_sixteen(&setup.ar);
    has_sixteen(&setup.activity);
    has_six(&identity.mac);
}
