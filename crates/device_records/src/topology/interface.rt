//! PDInterfaceDataReal.
ghost use Rattle.std.specs.Prelude.{◌≡◌, ◌+◌, ◌≤◌, ◌++◌, length};
ghost use Rattle.arrayvec.specs.ArrayVec.{array_vec_len};
ghost use Rattle.device_records.specs.topology.Port.{interface_body, interface_bytes};

use crate::topology::blocks::{align, put_block, put_counted};
use arrayvec::ArrayVec;
use lldp::own_chassis;
use pn_values::{Identity, Settings};
use wire::append;

/// BlockType of PDInterfaceDataReal.
const INTERFACE: u16 = 0x0240;

/// The octets after the header: at most 262.
type Body = ArrayVec<u8, 264>;

/// The octets after the header.
fn body_of(identity: &Identity, settings: &Settings) -> Body
    ensures { result.items ≡ interface_body identity.now settings.now }
{
    let mut body = ArrayVec::new();
    put_counted(
        &mut body,
        own_chassis(identity.mac, &settings.name).as_slice(),
    );
    align(&mut body);
    append(&mut body, &identity.mac.octets);
    append(&mut body, &[0, 0]);
    append(&mut body, &settings.suite.address());
    append(&mut body, &settings.suite.mask());
    append(&mut body, &settings.suite.gateway());
    body
}

/// Appends PDInterfaceDataReal: who the station is. There must be room.
#[inline(never)]
#[tactic(auto, unfolding(crate::specs::topology::Port::interface_bytes))]
pub fn put_interface<const N: usize>(
    out: &mut ArrayVec<u8, N>,
    identity: &Identity,
    settings: &Settings,
)
    requires { array_vec_len out.old + 270 ≤ N }
    // Each octet of the record is given.
    ensures items { out.new.items ≡ out.old.items ++ interface_bytes identity.now settings.now }
    // The record has at most 270 octets.
    ensures len { array_vec_len out.new ≤ array_vec_len out.old + 270 }
{
    put_block(out, INTERFACE, body_of(identity, settings).as_slice());
}
