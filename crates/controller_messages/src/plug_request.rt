//! The requests of a controller after a plug: the records of the plan for the place, and then PrmEnd (IEC 61158-6-10, 5.2.3
//! and 5.2.4.5); and the answer to the ApplicationReady that follows.
ghost use Rattle.std.specs.Prelude.{◌≡◌, ◌+◌, ◌<◌, ◌≤◌, ◌++◌, ◌∷◌, [], length, option_map};
ghost use Rattle.arrayvec.specs.ArrayVec.{array_vec_len};
ghost use Rattle.rpc_core.specs.Call.{asked};
ghost use Rattle.connect_blocks.specs.PlugControl.{plug_control};
ghost use Rattle.controller_messages.specs.PlugRequests.{is_plug_answer, is_plug_ready, plug_answer, plug_blocks, plug_done, plug_end, plug_header, plug_operation, plug_ready_in, plug_write};
ghost use Rattle.controller_messages.specs.Sent.{Agrees, Parametrizes, bytes_of};
ghost use Rattle.frame_codec.specs.Outbox.{boxed};

use crate::answers::{DONE, send_answer};
use crate::calls::{PRM_END, object_of, send_blocks};
use crate::plug_blocks::{plug_ready_at, put_plug_prm_end, put_plug_ready_res};
use crate::record_request::{RecordRequest, RecordService, put_written};
use crate::setup::Setup;
use arrayvec::ArrayVec;
use connect_blocks::PlugControlBlock;
use frame_codec::{Caller, Outbox};
use plans::{PlanRecord, SESSION_KEY};
use pn_values::Mac;
use rpc_core::{Call, CallHeader, Interface, Uuid};

/// Operation of Control.
const CONTROL: u16 = 4;

/// Operation of Write.
const WRITE: u16 = 3;

/// ControlCommand of ApplicationReady.
const READY: u16 = 2;

/// What is asked of a place after its plug.
#[derive(Clone, Copy, Debug, PartialEq, Eq)]
pub enum PlugStep {
    /// Write the record with this number of the plan, from 0.
    Record(u16),
    /// PrmEnd: all records are written.
    PrmEnd,
}

impl PlugStep {
    /// The operation of its call (IEC 61158-6-10, 4.10.3.2.13).
    fn operation(self) -> u16
        ensures { result ≡ plug_operation self }
    {
        match self {
            PlugStep::Record(_) => WRITE,
            PlugStep::PrmEnd => CONTROL,
        }
    }
}

/// A request after the plug of a submodule.
#[derive(Clone, Copy, Debug, PartialEq, Eq)]
pub struct PlugRequest {
    /// The number of its call.
    pub sequence: u32,
    /// The slot of the submodule.
    pub slot: u16,
    /// Its subslot.
    pub subslot: u16,
    /// SequenceNumber of the alarm that reported the plug.
    pub number: u16,
    /// What is asked.
    pub step: PlugStep,
}

impl PlugRequest {
    /// Whether a response or a refusal of this activity and this number is the one of the call for this request.
    pub fn is_answered(&self, setup: &Setup, activity: &Uuid, sequence: u32) -> bool
        ensures { result ≡ is_plug_answer setup.now self.now activity.now sequence }
    {
        *activity == setup.activity && sequence == self.sequence
    }

    /// The Write of this record of the plan.
    fn write(&self, entry: &PlanRecord) -> RecordRequest
        ensures { result ≡ plug_write self.now entry.now }
    {
        RecordRequest {
            sequence: self.sequence,
            service: RecordService::Write,
            slot: self.slot,
            subslot: self.subslot,
            index: entry.index,
        }
    }
}

/// The header of the call: with the object, the activity and the number.
fn header_of(setup: &Setup, request: &PlugRequest) -> CallHeader
    ensures { result ≡ plug_header setup.now request.now }
{
    CallHeader {
        object: object_of(setup.plan.station()),
        interface: Interface::Device.uuid(),
        activity: setup.activity,
        sequence: request.sequence,
        operation: request.step.operation(),
    }
}

/// The block of PrmEnd after the plug with this number.
fn end_of(setup: &Setup, number: u16) -> PlugControlBlock
    ensures { result ≡ plug_end setup.now number }
{
    PlugControlBlock {
        ar_uuid: setup.ar,
        session_key: SESSION_KEY,
        alarm_sequence_number: number,
        control_command: PRM_END,
        control_block_properties: 0,
    }
}

/// Writes the blocks of the call for this request into an empty list. It has none for a record that the plan does not have.
fn put_blocks(setup: &Setup, request: &PlugRequest, blocks: &mut ArrayVec<u8, 1372>)
    requires empty { blocks.old.items ≡ [] }
    ensures { blocks.new.items ≡ plug_blocks setup.now request.now request.now.step }
{
    match request.step {
        PlugStep::Record(number) => {
            if let Some(entry) = setup.plan.records().get(usize::from(number)) {
                let write = request.write(entry);
                put_written(setup, &write, entry.data.as_slice(), blocks);
            }
        }
        PlugStep::PrmEnd => put_plug_prm_end(blocks, &end_of(setup, request.number)),
    }
}

/// Appends this request, addressed to the device, to the outbox.
#[inline(never)]
pub fn send_plug_request(setup: &Setup, device: Mac, request: &PlugRequest, outbox: &mut Outbox)
    requires room { array_vec_len outbox.old < 4 }
    ensures frames { boxed outbox.new
        ≡ boxed outbox.old ++ bytes_of setup.now (Parametrizes device request.now) ∷ [] }
    ensures len { array_vec_len outbox.new ≡ array_vec_len outbox.old + 1 }
{
    let mut blocks: ArrayVec<u8, 1372> = ArrayVec::new();
    put_blocks(setup, request, &mut blocks);
    send_blocks(setup, device, &header_of(setup, request), &blocks, outbox);
}

/// The block of an ApplicationReady for a plug, if a call is one. What follows the block is ignored.
pub fn plug_ready_in(call: &Call<'_>) -> Option<PlugControlBlock>
    ensures { result ≡ plug_ready_in (asked call.now) }
{
    if call.header.operation != CONTROL {
        return None;
    }
    match plug_ready_at(call.blocks.unwrap_or(&[])) {
        Ok((block, _behind)) => Some(block),
        Err(_) => None,
    }
}

/// Whether an ApplicationReady for a plug belongs to the relation.
pub fn is_plug_ready(setup: &Setup, block: &PlugControlBlock) -> bool
    ensures { result ≡ is_plug_ready setup.now block.now }
{
    block.ar_uuid == setup.ar && block.session_key == SESSION_KEY && block.control_command == READY
}

/// The block of the answer to this block.
fn done_block(block: &PlugControlBlock) -> ArrayVec<u8, 32>
    ensures { result.items ≡ (plug_control 0x8113).write (plug_done block.now) [] }
{
    let done = PlugControlBlock {
        control_command: DONE,
        ..*block
    };
    let mut octets = ArrayVec::new();
    put_plug_ready_res(&mut octets, &done);
    octets
}

/// Appends the positive answer to the call ApplicationReady for a plug with this block to the outbox. It goes to the station, the
/// address and the port that the call came from.
#[inline(never)]
pub fn send_plug_answer(
    setup: &Setup,
    caller: &Caller,
    call: &Call<'_>,
    block: &PlugControlBlock,
    outbox: &mut Outbox,
)
    requires room { array_vec_len outbox.old < 4 }
    ensures frames { boxed outbox.new
        ≡ boxed outbox.old ++ bytes_of setup.now (Agrees caller.now (plug_answer (asked call.now) block.now)) ∷ [] }
    ensures len { array_vec_len outbox.new ≡ array_vec_len outbox.old + 1 }
{
    send_answer(setup, caller, call, done_block(block).as_slice(), outbox);
}
