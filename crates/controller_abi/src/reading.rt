//! Records of a station.
ghost use Rattle.std.specs.Prelude.{◌≡◌, take};
ghost use Rattle.c_layout.specs.Places.{place_in};
ghost use Rattle.commissioning.specs.Record.{IsShort, record_heard, told_as};
ghost use Rattle.controller_abi.specs.Tool.{IsRead, IsReadAt, IsRecord, index_in, status_number as status_number_in, target_in, tool_in, with_record};

use crate::asking::NO_ANSWER;
use crate::tool::{WrittenTool, first_of, tool_of};
use c_layout::{NO_SLOT, Op, place_of, put};
use commissioning::{RecordPlace, RecordTold, Target, read_record, record_told};
use pn_values::Mac;
use rpc_core::Status;
use uuid::Uuid;

/// The station whose record is read.
#[repr(C)]
#[derive(Drop)]
pub struct WrittenTarget {
    pub mac: [u8; 6],
    pub address: [u8; 4],
    pub vendor_id: u16,
    pub device_id: u16,
}

// The station.
fn target_of(written: &WrittenTarget) -> Target
    ensures { result ≡ target_in written.now }
{
    let octets = written.mac;
    let address = written.address;
    Target {
        mac: Mac { octets },
        address,
        vendor_id: written.vendor_id,
        device_id: written.device_id,
    }
}

/// Writes the frame that reads a record of a station: that of the slot, the subslot and the index of the
/// operation. Returns 0, or that these are no numbers of 16 bits.
pub fn read(tool: &WrittenTool, target: &WrittenTarget, activity: &[u8; 16], op: &mut Op) -> u32
    ensures { IsRead (place_in op.old.slot op.old.subslot) (index_in op.old.index) tool.now target.now activity.now op.old result op.new }
{
    match (place_of(op), index_of(op)) {
        (Some(place), Some(index)) => {
            let place = RecordPlace {
                slot: place.0,
                subslot: place.1,
                index,
            };
            write_read(tool, target, activity, &place, op);
            0
        }
        _ => NO_SLOT,
    }
}

// Writes the frame that reads this record.
fn write_read(
    tool: &WrittenTool,
    target: &WrittenTarget,
    activity: &[u8; 16],
    place: &RecordPlace,
    op: &mut Op,
)
    ensures { IsReadAt place.now tool.now target.now activity.now op.old op.new }
{
    let frame = read_record(
        &tool_of(tool),
        &target_of(target),
        Uuid::from_bytes(*activity),
        place,
    );
    put(op, frame.as_slice());
}

// The index of a record that is asked for, if it is a number of 16 bits.
fn index_of(op: &Op) -> Option<u16>
    ensures { result ≡ index_in op.now.index }
{
    if op.index < 65536 {
        Some(op.index as u16)
    } else {
        None
    }
}

/// What a received frame answers to the read with this activity: the record, with 0 in `status`, or the status of the refusal. Returns 0, or that it answers nothing.
pub fn record(tool: &WrittenTool, activity: &[u8; 16], given: &[u8], op: &mut Op) -> u32
    ensures { IsRecord (record_heard (tool_in tool.now) activity.now (take 1519 given.now)) op.old result op.new }
{
    match record_told(
        &tool_of(tool),
        Uuid::from_bytes(*activity),
        &first_of(given),
    ) {
        Some(told) => {
            tell(&told, op);
            0
        }
        None => NO_ANSWER,
    }
}

// Reports an answer.
fn tell(told: &RecordTold<'_>, op: &mut Op)
    requires { IsShort told.now }
    ensures { op.new ≡ with_record (told_as told.now) op.old }
{
    match told {
        RecordTold::Record(octets) => {
            op.status = 0;
            put(op, octets);
        }
        RecordTold::Refused(status) => op.status = status_number(*status),
    }
}

// A status as a number.
fn status_number(status: Status) -> u32
    ensures { result ≡ status_number_in status }
{
    let kind = u32::from(status.code) * 256 + u32::from(status.decode);
    (kind * 256 + u32::from(status.code1)) * 256 + u32::from(status.code2)
}
