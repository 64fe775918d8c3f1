//! PDPortDataReal.
ghost use Rattle.std.specs.Prelude.{◌≡◌, ◌+◌, ◌≤◌, ◌++◌, [], length, option_map};
ghost use Rattle.arrayvec.specs.ArrayVec.{array_vec_len};
ghost use Rattle.lldp.specs.Views.{peer_as};
ghost use Rattle.device_records.specs.topology.Port.{port_body, port_bytes, port_front, with_peer};

use crate::topology::blocks::{align, put_block, put_counted};
use arrayvec::ArrayVec;
use lldp::{Neighbour, PORT_NAME};
use wire::append;

/// BlockType of PDPortDataReal.
const PORT: u16 = 0x020F;

/// What follows the neighbours: the link is up, and nothing else is reported of it.
const END: [u8; 20] = [0, 0, 0, 0, 0, 0, 0, 0, 0, 0, 0, 0, 0, 1, 0, 0, 0, 0, 0, 0];

/// The octets after the header: at most 562.
type Body = ArrayVec<u8, 568>;

/// Appends the place and the name of the port, and the number of its neighbours, to an empty list.
fn put_front(body: &mut Body, neighbours: u8)
    requires { body.old.items ≡ [] }
    ensures items { body.new.items ≡ port_front neighbours }
    ensures len { array_vec_len body.new ≤ 19 }
{
    append(body, &[0, 0, 0, 0, 0x80, 0x01]);
    put_counted(body, &PORT_NAME);
    append(body, &[neighbours]);
    align(body);
}

/// Appends a neighbour. There must be room.
fn put_peer(body: &mut Body, neighbour: &Neighbour)
    requires { array_vec_len body.old ≤ 19 }
    ensures items { body.new.items ≡ with_peer body.old.items (peer_as neighbour.now) }
    ensures len { array_vec_len body.new ≤ 548 }
{
    put_counted(body, neighbour.port.as_slice());
    put_counted(body, neighbour.chassis.as_slice());
    align(body);
    append(body, &[0, 0, 0, 0]);
    append(body, &neighbour.mac.octets);
    align(body);
}

/// The octets after the header.
fn body_of(neighbour: Option<&Neighbour>) -> Body
    ensures { result.items ≡ port_body (option_map (λ n. peer_as n.now) neighbour.entry) }
{
    let mut body = ArrayVec::new();
    match neighbour {
        Some(neighbour) => {
            put_front(&mut body, 1);
            put_peer(&mut body, neighbour);
        }
        None => put_front(&mut body, 0),
    }
    append(&mut body, &END);
    body
}

/// Appends PDPortDataReal: the port, and its neighbour if one is known. There must be room.
#[inline(never)]
#[tactic(auto, unfolding(crate::specs::topology::Port::port_bytes))]
pub fn put_port<const N: usize>(out: &mut ArrayVec<u8, N>, neighbour: Option<&Neighbour>)
    requires { array_vec_len out.old + 574 ≤ N }
    // Each octet of the record is given.
    ensures items { out.new.items ≡ out.old.items ++ port_bytes (option_map (λ n. peer_as n.now) neighbour.entry) }
    // The record has at most 574 octets.
    ensures len { array_vec_len out.new ≤ array_vec_len out.old + 574 }
{
    put_block(out, PORT, body_of(neighbour).as_slice());
}
