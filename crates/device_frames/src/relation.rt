// What a device sends for its relation: ApplicationReady, and the ERR that ends it (IEC 61158-6-10, 5.2.4.5 and 5.2.6).
ghost use Rattle.std.specs.Prelude.{◌≡◌, ◌<◌, ◌≤◌, ◌+◌, ◌++◌, ◌∷◌, [], None, length, map};
ghost use Rattle.arrayvec.specs.ArrayVec.{array_vec_len};
ghost use Rattle.device_frames.specs.Sendable.{AreSendable, IsSendable};
ghost use Rattle.device_frames.specs.Sent.{Ends, bytes_of, call_content, call_frame, farewell_frame};
ghost use Rattle.device_frames.specs.Relation.{plug_calls, ready_calls, where_due};
ghost use Rattle.frame_codec.specs.Outbox.{boxed};
ghost use Rattle.frame_codec.specs.Sendable.{CanBeSent, carrying};

use crate::sizes::{can_be_sent, can_be_sent_in};
use arrayvec::ArrayVec;
use frame_codec::{Endpoint, Layered, Outbox, Payload, Pieces, Udp};
use pn_alarms::pdu_front;
use pn_values::Identity;
use relations::{Farewell, Partner, Relation};
use rpc_core::{Call, CallHeader, Datagram, write_request};

/// The maximum number of octets of blocks in the answer to a call of this device.
const ARGS_MAXIMUM: u32 = 1_372;

/// Appends the ERR that ends the relation to the outbox.
pub fn send_farewell(identity: &Identity, farewell: &Farewell, outbox: &mut Outbox)
    requires room { array_vec_len outbox.old < 4 }
    ensures frames { boxed outbox.new ≡ boxed outbox.old ++ farewell_frame identity.now farewell.now ∷ [] }
    ensures sendable { IsSendable identity.now (Ends farewell.now) }
    ensures len { array_vec_len outbox.new ≡ array_vec_len outbox.old + 1 }
{
    let pdu = farewell.pdu();
    let pieces = Pieces {
        destination: farewell.initiator,
        source: identity.mac,
        tag: Some(farewell.tag),
        frame_id: pdu.header.kind.frame_id(),
        front: &pdu_front(&pdu),
        behind: pdu.body,
    };
    can_be_sent_in(&pieces);
    outbox.put_pieces(&pieces);
}

/// Appends ApplicationReady of the relation, if there is one, to the outbox.
pub fn send_ready(identity: &Identity, address: [u8; 4], relation: &Relation, outbox: &mut Outbox)
    requires room { array_vec_len outbox.old < 4 }
    ensures frames { boxed outbox.new
        ≡ boxed outbox.old ++ map (bytes_of identity.now) (ready_calls address relation.now) }
    ensures sendable { AreSendable identity.now (ready_calls address relation.now) }
    ensures few { array_vec_len outbox.new ≤ array_vec_len outbox.old + 1 }
{
    let Some(ready) = relation.ready() else {
        return;
    };
    let mut blocks: ArrayVec<u8, 32> = ArrayVec::new();
    ready.put_blocks(&mut blocks);
    send_call(
        identity,
        address,
        &ready.partner,
        ready.header,
        blocks.as_slice(),
        outbox,
    );
}

/// Appends the active ApplicationReady of a plug to the outbox, if it is due and there is one.
#[inline(never)]
pub fn send_plug_ready(
    identity: &Identity,
    address: [u8; 4],
    is_due: bool,
    relation: &Relation,
    outbox: &mut Outbox,
)
    requires room { array_vec_len outbox.old < 4 }
    ensures frames { boxed outbox.new
        ≡ boxed outbox.old ++ map (bytes_of identity.now) (where_due is_due (plug_calls address relation.now)) }
    ensures sendable { AreSendable identity.now (where_due is_due (plug_calls address relation.now)) }
    ensures few { array_vec_len outbox.new ≤ array_vec_len outbox.old + 1 }
{
    if !is_due {
        return;
    }
    let Some(ready) = relation.plug_ready() else {
        return;
    };
    let mut blocks: ArrayVec<u8, 32> = ArrayVec::new();
    ready.put_blocks(&mut blocks);
    send_call(
        identity,
        address,
        &ready.partner,
        ready.header,
        blocks.as_slice(),
        outbox,
    );
}

/// Appends a call of the relation with this header and these blocks to the outbox.
fn send_call(
    identity: &Identity,
    address: [u8; 4],
    partner: &Partner,
    header: CallHeader,
    blocks: &[u8],
    outbox: &mut Outbox,
)
    requires room { array_vec_len outbox.old < 4 }
    requires short { length blocks.now ≤ 1372 }
    ensures frames { boxed outbox.new ≡ boxed outbox.old ++ call_frame identity.now address partner.now header blocks.now ∷ [] }
    ensures sendable { CanBeSent (carrying partner.now.mac identity.now.mac None (call_content address partner.now header blocks.now)) }
    ensures one { array_vec_len outbox.new ≡ array_vec_len outbox.old + 1 }
{
    let mut datagram = Datagram::new();
    write_request(
        &Call {
            header,
            args_maximum: ARGS_MAXIMUM,
            blocks: Some(blocks),
        },
        &mut datagram,
    );
    let layered = Layered {
        // To the station that the Connect came from, at the port of calls: a controller serves its interface there,
        // from whichever port it called.
        destination: partner.mac,
        source: identity.mac,
        tag: None,
        payload: Payload::Udp(Udp {
            source: Endpoint::of_calls(address),
            destination: Endpoint::of_calls(partner.address),
            body: datagram.as_slice(),
        }),
    };
    can_be_sent(&layered);
    outbox.put(&layered);
}
