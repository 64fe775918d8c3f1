//! PDRealData.
ghost use Rattle.std.specs.Prelude.{◌≡◌, ◌+◌, ◌≤◌, ◌++◌, length, option_map};
ghost use Rattle.arrayvec.specs.ArrayVec.{array_vec_len};
ghost use Rattle.lldp.specs.Views.{peer_as};
ghost use Rattle.device_records.specs.topology.Port.{multiple, network_bytes, where_plugged};

use crate::topology::blocks::put_block;
use crate::topology::interface::put_interface;
use crate::topology::port::put_port;
use arrayvec::ArrayVec;
use im_records::is_real;
use lldp::Neighbour;
use pn_values::{Identity, Real, Settings};
use wire::{append, append_u16};

/// BlockType of a MultipleBlockHeader.
const MULTIPLE: u16 = 0x0400;

/// The subslot of the interface.
const INTERFACE: u16 = 0x8000;

/// The subslot of the port.
const PORT: u16 = 0x8001;

/// Appends a block of a subslot in a MultipleBlockHeader. There must be room.
fn put_multiple<const N: usize>(out: &mut ArrayVec<u8, N>, subslot: u16, octets: &[u8])
    requires size { length octets.now ≤ 574 }
    requires room { array_vec_len out.old + 16 + length octets.now ≤ N }
    ensures items { out.new.items ≡ out.old.items ++ multiple subslot octets.now }
    ensures len { array_vec_len out.new ≡ array_vec_len out.old + 16 + length octets.now }
{
    let mut body: ArrayVec<u8, 584> = ArrayVec::new();
    append(&mut body, &[0; 8]);
    append_u16(&mut body, subslot);
    append(&mut body, octets);
    put_block(out, MULTIPLE, body.as_slice());
}

/// Appends a block of a subslot of slot 0, if a submodule is plugged there. There must be room.
fn put_where_plugged<const N: usize>(
    out: &mut ArrayVec<u8, N>,
    real: &Real,
    subslot: u16,
    octets: &[u8],
)
    requires size { length octets.now ≤ 574 }
    requires room { array_vec_len out.old + 16 + length octets.now ≤ N }
    ensures items { out.new.items ≡ out.old.items ++ where_plugged real.now subslot octets.now }
    ensures len { array_vec_len out.new ≤ array_vec_len out.old + 16 + length octets.now }
{
    if is_real(real, 0, subslot) {
        put_multiple(out, subslot, octets);
    }
}

/// Appends PDRealData: the interface and the port, each if its submodule is plugged. There must be room.
#[inline(never)]
#[tactic(auto, unfolding(crate::specs::topology::Port::network_bytes))]
pub fn put_network<const N: usize>(
    out: &mut ArrayVec<u8, N>,
    identity: &Identity,
    real: &Real,
    settings: &Settings,
    neighbour: Option<&Neighbour>,
)
    requires { array_vec_len out.old + 876 ≤ N }
    // Each octet of the record is given.
    ensures items { out.new.items ≡ out.old.items
        ++ network_bytes identity.now real.now settings.now (option_map (λ n. peer_as n.now) neighbour.entry) }
    // The record has at most 876 octets.
    ensures len { array_vec_len out.new ≤ array_vec_len out.old + 876 }
{
    let mut interface: ArrayVec<u8, 270> = ArrayVec::new();
    put_interface(&mut interface, identity, settings);
    put_where_plugged(out, real, INTERFACE, interface.as_slice());
    let mut port: ArrayVec<u8, 574> = ArrayVec::new();
    put_port(&mut port, neighbour);
    put_where_plugged(out, real, PORT, port.as_slice());
}
