//! Records of a station that exchanges no data with this tool: Read Implicit (IEC 61158-6-10, 5.2.3).
ghost use Rattle.std.specs.Prelude.{◌≡◌, None, IfSome, option_map, if◌then◌else◌};
ghost use Rattle.block_codec.specs.Block.{block_bytes};
ghost use Rattle.rpc_core.specs.Response.{answered};
ghost use Rattle.commissioning.specs.Record.{IsCallTo, IsShort, header_of as header_for, is_of as is_of_by, object_of as object_for, read_asked, read_of, record_by, record_heard, told_as};

use arrayvec::ArrayVec;
use block_codec::{Block, IodReadReq, RecordHeader, write_block};
use controller_messages::{Hearing, MOST_RECORD_OCTETS, heard, record_in};
use frame_codec::{Bytes, Endpoint, Frame, Layered, Payload, Udp, write};
use plans::Controller;
use pn_values::Mac;
use record_blocks::iod_read_req_len;
use rpc_core::{Call, CallHeader, Datagram, Interface, Response, Status, Uuid, write_request};

/// The operation Read Implicit.
const READ_IMPLICIT: u16 = 5;

/// The maximum number of octets of blocks in the response.
const ARGS_MAXIMUM: u32 = 1_372;

/// The station whose record is read.
#[derive(Clone, Copy, Debug, PartialEq, Eq)]
pub struct Target {
    pub mac: Mac,
    pub address: [u8; 4],
    pub vendor_id: u16,
    pub device_id: u16,
}

/// A record of a submodule.
#[derive(Clone, Copy, Debug, PartialEq, Eq)]
pub struct RecordPlace {
    pub slot: u16,
    pub subslot: u16,
    pub index: u16,
}

/// The object that is called: with instance 1, and DeviceID and VendorID of the station.
#[tactic(auto, unfolding(crate::specs::Record::object_of))]
fn object_of(target: &Target) -> Uuid
    ensures { result ≡ object_for target.now }
{
    let device = target.device_id.to_be_bytes();
    let vendor = target.vendor_id.to_be_bytes();
    Uuid::from_bytes([
        0xDE, 0xA0, 0x00, 0x00, 0x6C, 0x97, 0x11, 0xD1, 0x82, 0x71, 0x00, 0x01, device[0],
        device[1], vendor[0], vendor[1],
    ])
}

/// The header of the only call of an activity.
fn header_of(target: &Target, activity: Uuid) -> CallHeader
    ensures { result ≡ header_for target.now activity }
{
    CallHeader {
        object: object_of(target),
        interface: Interface::Device.uuid(),
        activity,
        sequence: 0,
        operation: READ_IMPLICIT,
    }
}

/// The block of the Read, which names no relation.
#[tactic(auto, unfolding(block_codec::specs::Block::block_size, block_codec::specs::Block::fields_of, wire::specs::blocks::Fields::body, wire::specs::blocks::Fields::version))]
fn read_block_of(place: &RecordPlace) -> ArrayVec<u8, 64>
    ensures { result.items ≡ block_bytes (Block.IodReadReq (read_of place.now)) }
{
    let block = IodReadReq {
        header: RecordHeader {
            seq_number: 0,
            ar_uuid: Uuid::nil(),
            api: 0,
            slot_number: place.slot,
            subslot_number: place.subslot,
            index: place.index,
            record_data_length: MOST_RECORD_OCTETS as u32,
        },
        target_ar_uuid: Uuid::nil(),
    };
    // The function that counts its octets guarantees that there is room for them.
    let _size = iod_read_req_len(&block);
    let mut octets = ArrayVec::new();
    write_block(&mut octets, &Block::IodReadReq(block));
    octets
}

/// The frame by which this tool reads a record of a station. The activity is a number that no other call has.
pub fn read_record(tool: &Controller, target: &Target, activity: Uuid, place: &RecordPlace) -> Frame
    // The station reads the frame as a call of Read Implicit for this record.
    ensures { IsCallTo result.items tool.now target.now (read_asked target.now activity place.now) }
{
    let blocks = read_block_of(place);
    let mut datagram = Datagram::new();
    write_request(
        &Call {
            header: header_of(target, activity),
            args_maximum: ARGS_MAXIMUM,
            blocks: Some(blocks.as_slice()),
        },
        &mut datagram,
    );
    write(&Layered {
        destination: target.mac,
        source: tool.mac,
        tag: None,
        payload: Payload::Udp(Udp {
            source: Endpoint::of_calls(tool.address),
            destination: Endpoint::of_calls(target.address),
            body: datagram.as_slice(),
        }),
    })
}

/// What a station answers to a Read.
#[derive(Clone, Copy, Debug, PartialEq, Eq)]
pub enum RecordTold<'a> {
    /// The record, at most 1,308 octets.
    Record(&'a [u8]),
    /// The status with which it was refused.
    Refused(Status),
}

/// What a frame answers to the Read with this activity. Other frames answer nothing.
pub fn record_told<'a>(
    tool: &Controller,
    activity: Uuid,
    bytes: &'a Bytes,
) -> Option<RecordTold<'a>>
    ensures value { option_map told_as result ≡ record_heard tool.now activity bytes.now.items }
    ensures few { IfSome result IsShort }
{
    match heard(tool, bytes) {
        Hearing::Responds(response) => answer_in(activity, &response),
        Hearing::Refuses(refusal) => {
            if refusal.activity == activity {
                Some(RecordTold::Refused(refusal.status))
            } else {
                None
            }
        }
        _ => None,
    }
}

/// The same of a response.
fn answer_in<'a>(activity: Uuid, response: &Response<'a>) -> Option<RecordTold<'a>>
    ensures value { option_map told_as result ≡ (if is_of_by activity (answered response.now) then record_by (answered response.now) else None) }
    ensures few { IfSome result IsShort }
{
    if response.header.activity != activity {
        return None;
    }
    if !response.status.is_done() {
        return Some(RecordTold::Refused(response.status));
    }
    let blocks = response.blocks;
    match record_in(blocks) {
        Some(octets) => Some(RecordTold::Record(octets)),
        None => None,
    }
}
