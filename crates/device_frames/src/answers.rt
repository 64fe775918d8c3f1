//! The answers of a device to a DCP request, to an ARP packet, and to a call.
ghost use Rattle.std.specs.Prelude.{◌≡◌, ◌<◌, ◌≤◌, ◌+◌, [], ◌∷◌, ◌++◌, None, length};
ghost use Rattle.arrayvec.specs.ArrayVec.{array_vec_len};
ghost use Rattle.rpc_core.specs.Response.{answered};
ghost use Rattle.device_frames.specs.Sendable.{IsSendable};
ghost use Rattle.device_frames.specs.Sent.{ArpReply, CallAnswer, answer_frame, reply_frame, response_frame};
ghost use Rattle.frame_codec.specs.Meaning.{RealTime};
ghost use Rattle.frame_codec.specs.Sendable.{CanBeSent, carrying};
ghost use Rattle.frame_codec.specs.Outbox.{boxed};

use crate::Caller;
use crate::sizes::{can_be_answered, can_be_sent, can_be_sent_in};
use dcp_core::Answer;
use frame_codec::{Arp, ArpOperation, Endpoint, Holder, Layered, Outbox, Payload, Pieces, Udp};
use pn_values::{Identity, Mac};
use rpc_core::{Datagram, Response, write_response};

/// Appends a DCP answer, addressed to the station that asked, to the outbox.
#[inline(never)]
pub fn send_dcp_answer(
    identity: &Identity,
    asker: Mac,
    frame_id: u16,
    answer: &Answer,
    outbox: &mut Outbox,
)
    requires { array_vec_len outbox.old < 4 }
    ensures frames { boxed outbox.new ≡ boxed outbox.old ++ answer_frame identity.now asker frame_id answer.now.items ∷ [] }
    ensures sendable { CanBeSent (carrying asker identity.now.mac None (RealTime frame_id answer.now.items)) }
{
    let pieces = Pieces {
        destination: asker,
        source: identity.mac,
        tag: None,
        frame_id,
        front: &[],
        behind: answer.as_slice(),
    };
    can_be_sent_in(&pieces);
    outbox.put_pieces(&pieces);
}

/// Appends an ARP reply, which says that the device holds this address, to the outbox.
pub fn send_arp_reply(
    identity: &Identity,
    asker: Mac,
    address: [u8; 4],
    target: Holder,
    outbox: &mut Outbox,
)
    requires room { array_vec_len outbox.old < 4 }
    ensures frames { boxed outbox.new ≡ boxed outbox.old ++ reply_frame identity.now asker address target ∷ [] }
    ensures sendable { IsSendable identity.now (ArpReply asker address target) }
{
    let sender = Holder {
        mac: identity.mac,
        address,
    };
    let layered = Layered {
        destination: asker,
        source: identity.mac,
        tag: None,
        payload: Payload::Arp(Arp {
            operation: ArpOperation::Reply,
            sender,
            target,
        }),
    };
    can_be_sent(&layered);
    outbox.put(&layered);
}

/// Appends the response to a call, addressed to its caller, to the outbox.
pub fn send_response(
    identity: &Identity,
    address: [u8; 4],
    caller: &Caller,
    response: &Response<'_>,
    outbox: &mut Outbox,
)
    requires room { array_vec_len outbox.old < 4 }
    requires blocks { length response.now.blocks.now ≤ 1372 }
    ensures one { array_vec_len outbox.new ≡ array_vec_len outbox.old + 1 }
    ensures frames { boxed outbox.new
        ≡ boxed outbox.old ++ response_frame identity.now caller.now address (answered response.now) ∷ [] }
    ensures sendable { IsSendable identity.now (CallAnswer caller.now address (answered response.now)) }
{
    let mut datagram = Datagram::new();
    write_response(response, &mut datagram);
    can_be_answered(response);
    let layered = Layered {
        // To the station that the call came from, without looking up who has that address: a wrong address table
        // misleads nobody.
        destination: caller.mac,
        source: identity.mac,
        tag: None,
        payload: Payload::Udp(Udp {
            source: Endpoint::of_calls(address),
            destination: caller.endpoint,
            body: datagram.as_slice(),
        }),
    };
    can_be_sent(&layered);
    outbox.put(&layered);
}
