//! Responses of a device, as a controller hears them.
ghost use Rattle.std.specs.Prelude.{◌≡◌, ◌≤◌, List, ℕ, length, Ok, Err};
ghost use Rattle.rpc_core.specs.declared.fault.RpcFault.{RpcFault};
ghost use Rattle.rpc_core.specs.declared.interface.Interface.{Interface as Served};
ghost use Rattle.rpc_core.specs.Call.{call_of};
ghost use Rattle.rpc_core.specs.Response.{Answered, answered, response_of};
ghost use Rattle.controller_messages.specs.Heard.{Responds, heard_of};
ghost use Rattle.device_frames.specs.Sent.{response_frame};
ghost use Rattle.both_ends.specs.startup.answer.Answer.{caller_of};

use frame_codec::{Endpoint, Layered, Outbox, Payload, RPC_PORT, Udp};
use plans::Controller;
use pn_values::Identity;
use rpc_core::{Datagram, Response, write_response};

/// A response is not a call, to either interface. This is a law of the definitions by which both are read. No code is
/// involved.
pub fn responses_are_no_calls()
    // Octets that are a response are read with a fault as a call, at either interface.
    ensures apart { (interface : Served) (bytes : List ℕ) (answer : Answered) → response_of bytes ≡ Ok answer
        → (fault : RpcFault) × (call_of interface bytes ≡ Err fault) }
{}

/// Each response of a device to a controller is heard as that response, whatever its status and its blocks, if these
/// have at most 1,372 octets. This is a law of the definitions by which the device responds and the controller hears.
pub fn answers_are_read(
    controller: &Controller,
    identity: &Identity,
    address: [u8; 4],
    response: &Response<'_>,
)
    requires room { length response.now.blocks.now ≤ 1372 }
    // The controller hears the response that the device sent.
    ensures heard { heard_of controller.now (response_frame identity.now (caller_of controller.now) address (answered response.now))
        ≡ Responds (answered response.now) }
{
    responses_are_no_calls();
    let mut datagram = Datagram::new();
    write_response(response, &mut datagram);
    let mut outbox = Outbox::new();
    outbox.put(&Layered {
        destination: controller.mac,
        source: identity.mac,
        tag: None,
        payload: Payload::Udp(Udp {
            source: Endpoint {
                address,
                port: RPC_PORT,
            },
            destination: Endpoint {
                address: controller.address,
                port: RPC_PORT,
            },
            body: datagram.as_slice(),
        }),
    });
}
