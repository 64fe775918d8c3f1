//! The answer to ApplicationReady.
ghost use Rattle.std.specs.Prelude.{◌≡◌, ◌+◌, ◌<◌, ◌≤◌, ◌++◌, ◌∷◌, [], length};
ghost use Rattle.arrayvec.specs.ArrayVec.{array_vec_len};
ghost use Rattle.rpc_core.specs.Call.{asked};
ghost use Rattle.block_codec.specs.Block.{block_bytes};
ghost use Rattle.rpc_core.specs.Response.{answer_to};
ghost use Rattle.controller_messages.specs.Sent.{Agrees, bytes_of, done as no_error, ready_answer, ready_done};
ghost use Rattle.frame_codec.specs.Outbox.{boxed};

use crate::setup::Setup;
use arrayvec::ArrayVec;
use block_codec::{Block, ControlBlock, write_block};
use connect_blocks::control_len;
use frame_codec::{Caller, Endpoint, Layered, Outbox, Payload, Udp};
use rpc_core::{Call, Datagram, Status, write_response};

/// ControlCommand Done.
pub(crate) const DONE: u16 = 8;

/// The status without an error.
const NO_ERROR: Status = Status {
    code: 0,
    decode: 0,
    code1: 0,
    code2: 0,
};

/// The block of the answer to this block.
#[tactic(auto, unfolding(block_codec::specs::Block::block_size, block_codec::specs::Block::fields_of, wire::specs::blocks::Fields::body, wire::specs::blocks::Fields::version))]
fn done_block(block: &ControlBlock) -> ArrayVec<u8, 32>
    ensures { result.items ≡ block_bytes (Block.ApplicationReadyRes (ready_done block.now)) }
{
    let done = ControlBlock {
        control_command: DONE,
        ..*block
    };
    // The function that counts its octets guarantees that there is room for them.
    let _size = control_len(&done);
    let mut octets = ArrayVec::new();
    write_block(&mut octets, &Block::ApplicationReadyRes(done));
    octets
}

/// Appends the answer to the call ApplicationReady with this block to the outbox. It goes to the station, the address
/// and the port that the call came from. ControlBlockProperties is repeated.
pub fn send_ready_answer(
    setup: &Setup,
    caller: &Caller,
    call: &Call<'_>,
    block: &ControlBlock,
    outbox: &mut Outbox,
)
    requires room { array_vec_len outbox.old < 4 }
    ensures frames { boxed outbox.new
        ≡ boxed outbox.old ++ bytes_of setup.now (Agrees caller.now (ready_answer (asked call.now) block.now)) ∷ [] }
    ensures len { array_vec_len outbox.new ≡ array_vec_len outbox.old + 1 }
{
    send_answer(setup, caller, call, done_block(block).as_slice(), outbox);
}

/// Appends the positive answer to a call, with these blocks, to the outbox.
pub(crate) fn send_answer(
    setup: &Setup,
    caller: &Caller,
    call: &Call<'_>,
    blocks: &[u8],
    outbox: &mut Outbox,
)
    requires room { array_vec_len outbox.old < 4 }
    requires short { length blocks.now ≤ 32 }
    ensures frames { boxed outbox.new
        ≡ boxed outbox.old ++ bytes_of setup.now (Agrees caller.now (answer_to (asked call.now) no_error blocks.now)) ∷ [] }
    ensures len { array_vec_len outbox.new ≡ array_vec_len outbox.old + 1 }
{
    let mut datagram = Datagram::new();
    write_response(&call.response(NO_ERROR, blocks), &mut datagram);
    outbox.put(&Layered {
        // To the address and port that the call came from: a device may call from another port than the one at which it
        // listens.
        destination: caller.mac,
        source: setup.plan.controller().mac,
        tag: None,
        payload: Payload::Udp(Udp {
            source: Endpoint::of_calls(setup.plan.controller().address),
            destination: caller.endpoint,
            body: datagram.as_slice(),
        }),
    });
}
