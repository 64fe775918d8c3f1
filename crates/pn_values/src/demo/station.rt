// The identity of the demo station.
ghost use Rattle.std.specs.Prelude.{◌≡◌, codes};
ghost use Rattle.pn_values.specs.demo.Demo.{demo};

use crate::{Identity, Mac};
use arrayvec::ArrayVec;

/// The identity of a station 'pn-demo' of vendor 0x0123, version V0.0.0.
#[tactic(auto, unfolding(crate::specs::demo::Demo::demo))]
pub fn demo_identity() -> Identity
    ensures { result ≡ demo }
{
    Identity {
        mac: Mac {
            octets: [2, 0, 0, 0, 0, 1],
        },
        station_type: station_type(),
        vendor_id: 0x0123,
        device_id: 0x0456,
        instance: 1,
        order_id: [b' '; 20],
        serial_number: [b' '; 16],
        hardware_revision: 0,
        software_revision: [b'V', 0, 0, 0],
        profile_id: 0,
        profile_specific_type: 0,
    }
}

/// The station type.
fn station_type() -> ArrayVec<u8, 25>
    ensures { result ≡ record { items = codes "pn-demo" } }
{
    let mut text = ArrayVec::new();
    let _ = text.try_extend_from_slice(b"pn-demo");
    text
}
