//! The requests of the application while data is exchanged: records that are read or written (IEC 61158-6-10, 5.2.3).
ghost use Rattle.std.specs.Prelude.{◌≡◌, ◌+◌, ◌<◌, ◌≤◌, ◌++◌, ◌∷◌, [], length};
ghost use Rattle.arrayvec.specs.ArrayVec.{array_vec_len};
ghost use Rattle.block_codec.specs.Block.{block_bytes};
ghost use Rattle.controller_messages.specs.RecordRequests.{read_of, record_blocks, record_header, record_place, service_operation, written_of};
ghost use Rattle.controller_messages.specs.Sent.{Accesses, bytes_of};
ghost use Rattle.frame_codec.specs.Outbox.{boxed};

use crate::calls::{object_of, send_blocks};
use crate::setup::Setup;
use arrayvec::ArrayVec;
use block_codec::{Block, IodReadReq, IodWriteReq, RecordHeader, write_block};
use frame_codec::Outbox;
use pn_values::Mac;
use record_blocks::{iod_read_req_len, iod_write_req_len};
use rpc_core::{CallHeader, Interface, Uuid};
use wire::append;

/// The maximum number of octets of a record: with them a call fills a frame.
pub const MOST_RECORD_OCTETS: usize = 1_308;

/// The service of a request for a record.
#[derive(Clone, Copy, Debug, PartialEq, Eq)]
pub enum RecordService {
    /// Read: the device sends the record.
    Read,
    /// Write: the device gets the record.
    Write,
}

impl RecordService {
    /// The operation of its call (IEC 61158-6-10, 4.10.3.2.13).
    fn operation(self) -> u16
        ensures { result ≡ service_operation self }
    {
        match self {
            RecordService::Read => 2,
            RecordService::Write => 3,
        }
    }
}

/// A request of the application: to read or to write a record of a submodule.
#[derive(Clone, Copy, Debug, PartialEq, Eq)]
pub struct RecordRequest {
    /// The number of its call.
    pub sequence: u32,
    /// Whether the record is read or written.
    pub service: RecordService,
    /// The slot of the submodule.
    pub slot: u16,
    /// Its subslot.
    pub subslot: u16,
    /// The index of the record.
    pub index: u16,
}

/// The header of the call: with the object, the activity and the number.
fn header_of(setup: &Setup, request: &RecordRequest) -> CallHeader
    ensures { result ≡ record_header setup.now request.now }
{
    CallHeader {
        object: object_of(setup.plan.station()),
        interface: Interface::Device.uuid(),
        activity: setup.activity,
        sequence: request.sequence,
        operation: request.service.operation(),
    }
}

/// The fields that both blocks have: a record of this many octets.
fn place_of(setup: &Setup, request: &RecordRequest, octets: usize) -> RecordHeader
    requires few { octets ≤ 1308 }
    ensures { result ≡ record_place setup.now request.now octets }
{
    RecordHeader {
        // SeqNumber has the low half of the call's number.
        seq_number: (request.sequence % 65_536) as u16,
        ar_uuid: setup.ar,
        api: 0,
        slot_number: request.slot,
        subslot_number: request.subslot,
        index: request.index,
        record_data_length: octets as u32,
    }
}

/// Appends the block of a Read. There must be room.
#[tactic(auto, unfolding(block_codec::specs::Block::block_size, block_codec::specs::Block::fields_of, wire::specs::blocks::Fields::body, wire::specs::blocks::Fields::version))]
fn put_read(setup: &Setup, request: &RecordRequest, blocks: &mut ArrayVec<u8, 1372>)
    requires empty { blocks.old.items ≡ [] }
    ensures { blocks.new.items ≡ block_bytes (Block.IodReadReq (read_of setup.now request.now)) }
{
    let block = IodReadReq {
        header: place_of(setup, request, MOST_RECORD_OCTETS),
        target_ar_uuid: Uuid::nil(),
    };
    // The function that counts its octets guarantees that there is room for them.
    let _size = iod_read_req_len(&block);
    write_block(blocks, &Block::IodReadReq(block));
}

/// Appends the block of a Write, and the record after it. There must be room.
#[tactic(auto, unfolding(block_codec::specs::Block::block_size, block_codec::specs::Block::fields_of, wire::specs::blocks::Fields::body, wire::specs::blocks::Fields::version))]
pub(crate) fn put_written(
    setup: &Setup,
    request: &RecordRequest,
    octets: &[u8],
    blocks: &mut ArrayVec<u8, 1372>,
)
    requires empty { blocks.old.items ≡ [] }
    requires few { length octets.now ≤ 1308 }
    ensures { blocks.new.items
        ≡ block_bytes (Block.IodWriteReq (written_of setup.now request.now (length octets.now))) ++ octets.now }
{
    let block = IodWriteReq {
        header: place_of(setup, request, octets.len()),
    };
    // The function that counts its octets guarantees that there is room for them.
    let _size = iod_write_req_len(&block);
    write_block(blocks, &Block::IodWriteReq(block));
    append(blocks, octets);
}

/// Appends the blocks of a request. There must be room.
fn put_blocks(
    setup: &Setup,
    request: &RecordRequest,
    octets: &[u8],
    blocks: &mut ArrayVec<u8, 1372>,
)
    requires empty { blocks.old.items ≡ [] }
    requires few { length octets.now ≤ 1308 }
    ensures { blocks.new.items ≡ record_blocks setup.now request.now octets.now request.now.service }
{
    match request.service {
        RecordService::Read => put_read(setup, request, blocks),
        RecordService::Write => put_written(setup, request, octets, blocks),
    }
}

/// Appends this request of the application, addressed to the device, to the outbox. The octets are those of a record that
/// is written.
pub fn send_record_request(
    setup: &Setup,
    device: Mac,
    request: &RecordRequest,
    octets: &[u8],
    outbox: &mut Outbox,
)
    requires room { array_vec_len outbox.old < 4 }
    requires few { length octets.now ≤ 1308 }
    ensures frames { boxed outbox.new
        ≡ boxed outbox.old ++ bytes_of setup.now (Accesses device request.now octets.now) ∷ [] }
    ensures len { array_vec_len outbox.new ≡ array_vec_len outbox.old + 1 }
{
    let mut blocks: ArrayVec<u8, 1372> = ArrayVec::new();
    put_blocks(setup, request, octets, &mut blocks);
    send_blocks(setup, device, &header_of(setup, request), &blocks, outbox);
}
