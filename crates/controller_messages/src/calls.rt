// The calls of a start-up, and their blocks (IEC 61158-6-10, 5.2).
ghost use Rattle.std.specs.Prelude.{◌≡◌, ◌+◌, ◌<◌, ◌≤◌, ◌++◌, ◌∷◌, [], Some, length};
ghost use Rattle.arrayvec.specs.ArrayVec.{array_vec_len};
ghost use Rattle.block_codec.specs.Block.{block_bytes};
ghost use Rattle.controller_messages.specs.Requests.{blocks_of, call_for, control_of, header_of, object_of};
ghost use Rattle.controller_messages.specs.Sent.{call_frame};
ghost use Rattle.frame_codec.specs.Outbox.{boxed};

use crate::request::Request;
use crate::setup::Setup;
use crate::writes::put_write;
use arrayvec::ArrayVec;
use block_codec::{Block, ControlBlock, write_block};
use connect_blocks::control_len;
use frame_codec::{Endpoint, Layered, Outbox, Payload, Udp};
use plans::{SESSION_KEY, Station};
use pn_values::Mac;
use rpc_core::{Call, CallHeader, Datagram, Interface, Uuid, write_request};

/// The maximum number of octets of blocks in the response to a call.
const ARGS_MAXIMUM: u32 = 1_372;

/// ControlCommand of PrmEnd.
pub(crate) const PRM_END: u16 = 1;

/// ControlCommand of Release.
const RELEASE: u16 = 4;

/// The object that is called: with instance 1, and DeviceID and VendorID of the plan.
#[tactic(auto, unfolding(crate::specs::Requests::object_of))]
pub(crate) fn object_of(station: &Station) -> Uuid
    ensures { result ≡ object_of station.now }
{
    let device = station.device_id.to_be_bytes();
    let vendor = station.vendor_id.to_be_bytes();
    Uuid::from_bytes([
        0xDE, 0xA0, 0x00, 0x00, 0x6C, 0x97, 0x11, 0xD1, 0x82, 0x71, 0x00, 0x01, device[0],
        device[1], vendor[0], vendor[1],
    ])
}

/// The header of the call for this request: with the object, the activity and the number.
pub fn header_of(setup: &Setup, request: Request) -> CallHeader
    ensures { result ≡ header_of setup.now request }
{
    CallHeader {
        object: object_of(setup.plan.station()),
        interface: Interface::Device.uuid(),
        activity: setup.activity,
        sequence: request.sequence(&setup.plan),
        operation: request.operation(),
    }
}

/// The block of a control with this ControlCommand.
fn control_of(setup: &Setup, command: u16) -> ControlBlock
    ensures { result ≡ control_of setup.now command }
{
    ControlBlock {
        ar_uuid: setup.ar,
        session_key: SESSION_KEY,
        control_command: command,
        control_block_properties: 0,
    }
}

/// Appends the block of PrmEnd. There must be room.
#[tactic(auto, unfolding(block_codec::specs::Block::block_size, block_codec::specs::Block::fields_of, wire::specs::blocks::Fields::body, wire::specs::blocks::Fields::version))]
fn put_prm_end(setup: &Setup, blocks: &mut ArrayVec<u8, 1372>)
    requires empty { blocks.old.items ≡ [] }
    ensures { blocks.new.items ≡ block_bytes (Block.PrmEnd (control_of setup.now 1)) }
{
    let block = control_of(setup, PRM_END);
    // The function that counts its octets guarantees that there is room for them.
    let _size = control_len(&block);
    write_block(blocks, &Block::PrmEnd(block));
}

/// Appends the block of a Release. There must be room.
#[tactic(auto, unfolding(block_codec::specs::Block::block_size, block_codec::specs::Block::fields_of, wire::specs::blocks::Fields::body, wire::specs::blocks::Fields::version))]
fn put_release(setup: &Setup, blocks: &mut ArrayVec<u8, 1372>)
    requires empty { blocks.old.items ≡ [] }
    ensures { blocks.new.items ≡ block_bytes (Block.Release (control_of setup.now 4)) }
{
    let block = control_of(setup, RELEASE);
    // The function that counts its octets guarantees that there is room for them.
    let _size = control_len(&block);
    write_block(blocks, &Block::Release(block));
}

/// Writes the blocks of the call for this request into an empty list.
fn put_blocks(setup: &Setup, request: Request, blocks: &mut ArrayVec<u8, 1372>)
    requires empty { blocks.old.items ≡ [] }
    ensures { blocks.new.items ≡ blocks_of setup.now request }
{
    match request {
        Request::Identify | Request::Address => {}
        Request::Connect => *blocks = setup.plan.connect(&setup.ar),
        Request::Write(number) | Request::WriteAfter(number, _) => put_write(setup, number, blocks),
        Request::PrmEnd | Request::PrmEndAfter(_) => put_prm_end(setup, blocks),
        Request::Release(_) => put_release(setup, blocks),
    }
}

/// Appends a call with these blocks, addressed to the device, to the outbox.
pub(crate) fn send_blocks(
    setup: &Setup,
    device: Mac,
    header: &CallHeader,
    blocks: &ArrayVec<u8, 1372>,
    outbox: &mut Outbox,
)
    requires room { array_vec_len outbox.old < 4 }
    ensures frames { boxed outbox.new
        ≡ boxed outbox.old
        ++ call_frame setup.now device (record { header = header.now; args_maximum = 1372; blocks = Some blocks.now.items }) ∷ [] }
    ensures len { array_vec_len outbox.new ≡ array_vec_len outbox.old + 1 }
{
    let mut datagram = Datagram::new();
    write_request(
        &Call {
            header: *header,
            args_maximum: ARGS_MAXIMUM,
            blocks: Some(blocks.as_slice()),
        },
        &mut datagram,
    );
    outbox.put(&Layered {
        destination: device,
        source: setup.plan.controller().mac,
        tag: None,
        payload: Payload::Udp(Udp {
            source: Endpoint::of_calls(setup.plan.controller().address),
            destination: Endpoint::of_calls(setup.plan.station().suite.address()),
            body: datagram.as_slice(),
        }),
    });
}

/// Appends a call of the start-up, addressed to the device, to the outbox.
pub(crate) fn send_call(setup: &Setup, device: Mac, request: Request, outbox: &mut Outbox)
    requires room { array_vec_len outbox.old < 4 }
    ensures frames { boxed outbox.new
        ≡ boxed outbox.old ++ call_frame setup.now device (call_for setup.now request) ∷ [] }
    ensures len { array_vec_len outbox.new ≡ array_vec_len outbox.old + 1 }
{
    let mut blocks: ArrayVec<u8, 1372> = ArrayVec::new();
    put_blocks(setup, request, &mut blocks);
    send_blocks(setup, device, &header_of(setup, request), &blocks, outbox);
}
