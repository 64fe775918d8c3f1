//! ARData: the relations of a device, with the last frames of each.
ghost use Rattle.std.specs.Prelude.{◌≡◌, ◌+◌, ◌<◌, ◌≤◌, ◌++◌, [], length};
ghost use Rattle.arrayvec.specs.ArrayVec.{array_vec_len};
ghost use Rattle.connect_blocks.specs.Iocr.{number_of_class};
ghost use Rattle.relations.specs.RelationState.{parts_of};
ghost use Rattle.device_records.specs.ArData.{alarm_bytes, ar_bytes, ar_data, iocr_bytes, iocrs_bytes, last_sent, relation_bytes, sent_tail};

use crate::elements::put_header;
use crate::own::Own;
use block_codec::RtClass;
use connects::{ConnectRequest, Iocr};
use cyclic_data::{CyclicTail, DataStatus, Route, StationState};
use relations::{Relation, RelationParts};
use wire::{append, append_u16, append_u32};

/// BlockType of ARData.
const AR_DATA: u16 = 0x0018;

/// The octets of the relation, but for its station name: ARUUID to CMInitiatorObjectUUID, StationNameLength, NumberOfIOCRs,
/// both communication relations of cyclic frames, and that of alarms.
const RELATION_LENGTH: u16 = 104;

/// CycleCounter of the last frame of inputs, if one was sent.
fn last_sent(began: u64, units: u64, interval: u64) -> Option<u16>
    requires { 0 < interval }
    ensures { result ≡ last_sent began units interval }
{
    let passed = units.saturating_sub(began);
    if passed < interval {
        return None;
    }
    Some(((units - passed % interval) % 65_536) as u16)
}

/// The fields after the data of the last frame of inputs.
fn sent_tail(counter: Option<u16>, state_sent: StationState) -> CyclicTail
    ensures { result ≡ sent_tail counter state_sent }
{
    match counter {
        Some(counter) => CyclicTail::of(counter, state_sent),
        None => CyclicTail {
            counter: 0,
            data_status: DataStatus(0),
            transfer_status: 0,
        },
    }
}

/// The number of a class in IOCRProperties.
fn number_of_class(class: RtClass) -> u32
    ensures { result ≡ number_of_class class }
{
    match class {
        RtClass::Class1 => 1,
        RtClass::Class2 => 2,
    }
}

/// Appends a communication relation of cyclic frames, 16 octets. There must be room.
fn put_iocr(out: &mut Own, iocr_type: u16, iocr: &Iocr, frame_id: u16, tail: CyclicTail)
    requires { array_vec_len out.old + 16 ≤ 2912 }
    ensures items { out.new.items ≡ out.old.items ++ iocr_bytes iocr_type iocr.now frame_id tail }
    ensures len { array_vec_len out.new ≡ array_vec_len out.old + 16 }
{
    append_u16(out, iocr_type);
    append_u32(out, number_of_class(iocr.class));
    append_u16(out, frame_id);
    append(out, tail.octets().as_slice());
    append(out, &[0x88, 0x92, 0x88, 0x92]);
}

/// Appends both communication relations of cyclic frames, in the order in which they were asked for. There must be room.
fn put_iocrs(
    out: &mut Own,
    request: &ConnectRequest,
    route: &Route,
    sent: CyclicTail,
    taken: CyclicTail,
)
    requires { array_vec_len out.old + 32 ≤ 2912 }
    ensures items { out.new.items ≡ out.old.items ++ iocrs_bytes request.now route.now sent taken }
    ensures len { array_vec_len out.new ≡ array_vec_len out.old + 32 }
{
    if request.input_first() {
        put_iocr(out, 1, request.input(), route.sent_id, sent);
        put_iocr(out, 2, request.output(), route.taken_id, taken);
    } else {
        put_iocr(out, 2, request.output(), route.taken_id, taken);
        put_iocr(out, 1, request.input(), route.sent_id, sent);
    }
}

/// Appends who asked for the relation: 40 octets, and the station name. There must be room.
fn put_ar(out: &mut Own, request: &ConnectRequest)
    requires { array_vec_len out.old + 40 + length request.now.ar.name.items ≤ 2912 }
    ensures items { out.new.items ≡ out.old.items ++ ar_bytes request.now }
    ensures len { array_vec_len out.new ≡ array_vec_len out.old + 40 + length request.now.ar.name.items }
{
    let ar = request.ar();
    append(out, &ar.uuid.into_bytes());
    append_u16(out, 1);
    append_u32(out, ar.properties);
    append(out, &ar.object.into_bytes());
    append_u16(out, ar.name.len() as u16);
    append(out, ar.name.as_slice());
}

/// Appends the communication relation of alarms and what follows it, 30 octets. There must be room.
fn put_alarm(out: &mut Own, request: &ConnectRequest, endpoint: u16)
    requires { array_vec_len out.old + 30 ≤ 2912 }
    ensures { out.new.items ≡ out.old.items ++ alarm_bytes request.now endpoint }
{
    append_u16(out, 1);
    append_u16(out, endpoint);
    append_u16(out, request.alarm().reference);
    append(out, &[0; 18]);
    append(out, &[0, 1, 0, 0, 0, 0]);
}

/// Appends a relation. There must be room.
fn put_relation(out: &mut Own, units: u64, parts: RelationParts<'_>)
    requires room { array_vec_len out.old ≤ 100 }
    requires few { length parts.request.now.ar.name.items ≤ 240 }
    ensures { out.new.items ≡ out.old.items
        ++ relation_bytes units parts.entry.request.now parts.entry.cyclic.now parts.entry.began parts.entry.state_sent parts.entry.endpoint }
{
    let request = parts.request;
    let interval = u64::from(request.input().interval());
    let sent = sent_tail(last_sent(parts.began, units, interval), parts.state_sent);
    put_ar(out, request);
    append_u16(out, 2);
    put_iocrs(
        out,
        request,
        parts.cyclic.route(),
        sent,
        parts.cyclic.taken_tail(),
    );
    put_alarm(out, request, parts.endpoint);
}

/// Puts ARData into an empty list.
#[tactic(auto, unfolding(crate::specs::ArData::ar_data))]
pub(crate) fn put_ar_data(out: &mut Own, units: u64, relation: &Relation)
    requires { out.old.items ≡ [] }
    ensures { out.new.items ≡ ar_data units (parts_of relation.now) }
{
    match relation.parts() {
        Some(parts) => {
            let size = RELATION_LENGTH + parts.request.ar().name.len() as u16;
            put_header(out, AR_DATA, 2 + size);
            append(out, &[0, 1]);
            put_relation(out, units, parts);
        }
        None => {
            put_header(out, AR_DATA, 2);
            append_u16(out, 0);
        }
    }
}
