//! The blocks of the Connect.
ghost use Rattle.std.specs.Prelude.{◌≡◌, ◌+◌, ◌≤◌, ◌++◌, [], ◌∷◌, map, length};
ghost use Rattle.std.specs.List.{AllByRecursion};
ghost use Rattle.arrayvec.specs.ArrayVec.{array_vec_len};
ghost use Rattle.connect_blocks.specs.declared.iocr.IocrType.TheVariants.{Input, Output};
ghost use Rattle.connect_blocks.specs.ArBlock.{IsArBlockReq};
ghost use Rattle.connect_blocks.specs.Iocr.{IsIocrBlockReq};
ghost use Rattle.connect_blocks.specs.AlarmCr.{IsAlarmCrBlockReq};
ghost use Rattle.connect_blocks.specs.Expected.{IsExpectedSubmoduleBlockReq};
ghost use Rattle.block_codec.specs.Block.{block_bytes, block_size};
ghost use Rattle.plans.specs.Packed.{frame_octets};
ghost use Rattle.plans.specs.Connect.{IsRead, alarm_block, ar_block, asked_id, bytes_of, does_connect_fit, expected_block, expected_blocks};
ghost use Rattle.plans.specs.Connect.{iocr_block, left_behind, less, reference_of, size_of};
ghost use Rattle.plans.specs.Parts.{data_of};

use crate::data::{data_of, module_of, submodules_of};
use crate::numbers::{
    ACTIVITY_TIMEOUT_FACTOR, ALARM_REFERENCE, INPUT_FRAME_ID, RTA_RETRIES, RTA_TIMEOUT_FACTOR,
    SESSION_KEY, TAG_HIGH, TAG_LOW,
};
use crate::parts::Parts;
use crate::places::{Places, data_length};
use arrayvec::ArrayVec;
use block_codec::{
    AlarmCrBlockReq, ArBlockReq, Block, ExpectedModule, ExpectedModules, ExpectedSubmoduleBlockReq,
    IoObjects, IocrBlockReq, IocrType, RtClass, block_len, write_block,
};
use cyclic_data::ExpectedData;
use pn_values::{Mac, RealModule, StationName};
use wire::Uuid;

/// CMInitiatorObjectUUID: the controller's own, with instance 1, DeviceID 0 and VendorID 0.
const INITIATOR_OBJECT: [u8; 16] = [
    0xDE, 0xA0, 0x00, 0x00, 0x6C, 0x97, 0x11, 0xD1, 0x82, 0x71, 0x00, 0x01, 0x00, 0x00, 0x00, 0x00,
];

/// A copy of a station name, as a block has it.
fn text_of(name: &StationName) -> ArrayVec<u8, 240>
    ensures { result.items ≡ name.now }
{
    let mut text = ArrayVec::new();
    let _ = text.try_extend_from_slice(name.as_bytes());
    text
}

/// ARBlockReq: the application relation with this ARUUID.
pub(crate) fn ar_block(parts: &Parts, ar: &Uuid) -> ArBlockReq
    ensures { result ≡ ar_block parts.now ar.now }
{
    ArBlockReq {
        ar_uuid: *ar,
        session_key: SESSION_KEY,
        cm_initiator_mac_add: parts.controller.mac,
        cm_initiator_object_uuid: Uuid::from_bytes(INITIATOR_OBJECT),
        ar_properties: 0x11,
        cm_initiator_activity_timeout_factor: ACTIVITY_TIMEOUT_FACTOR,
        cm_initiator_udp_rt_port: 0x8892,
        cm_initiator_station_name: text_of(&parts.controller.name),
    }
}

/// The IOCRReference of a direction.
fn reference_of(direction: IocrType) -> u16
    ensures { result ≡ reference_of direction }
{
    match direction {
        IocrType::Input => 1,
        IocrType::Output => 2,
    }
}

/// The FrameID that the Connect asks for. The device chooses that of outputs.
fn asked_id(direction: IocrType) -> u16
    ensures { result ≡ asked_id direction }
{
    match direction {
        IocrType::Input => INPUT_FRAME_ID,
        IocrType::Output => 0xFFFF,
    }
}

/// IOCRBlockReq: the communication relation of a direction.
pub(crate) fn iocr_block<'a>(
    parts: &Parts,
    direction: IocrType,
    subs: &[ExpectedData],
    places: &'a Places,
) -> IocrBlockReq<'a>
    requires subs { subs.now ≡ data_of parts.now.real.modules.items }
    requires few { length subs.now ≤ 64 }
    requires short { frame_octets direction subs.now ≤ 1440 }
    requires io_data { places.now.io_data_objects.items ≡ (iocr_block parts.now direction).io_data_objects }
    requires iocs { places.now.iocs.items ≡ (iocr_block parts.now direction).iocs }
    ensures { result ≡ iocr_block parts.now direction }
{
    IocrBlockReq {
        iocr_type: direction,
        iocr_reference: reference_of(direction),
        iocr_properties: RtClass::Class1,
        data_length: data_length(direction, subs),
        frame_id: asked_id(direction),
        send_clock_factor: parts.times.send_clock_factor,
        reduction_ratio: parts.times.reduction_ratio,
        phase: 1,
        sequence: 0,
        frame_send_offset: 0xFFFF_FFFF,
        watchdog_factor: parts.times.data_hold_factor,
        data_hold_factor: parts.times.data_hold_factor,
        iocr_tag_header: TAG_HIGH,
        iocr_multicast_mac_add: Mac { octets: [0; 6] },
        io_data_objects: IoObjects::lent(&places.io_data_objects),
        iocs: IoObjects::lent(&places.iocs),
    }
}

/// AlarmCRBlockReq: the communication relation of alarms.
pub(crate) fn alarm_block() -> AlarmCrBlockReq
    ensures { result ≡ alarm_block }
{
    AlarmCrBlockReq {
        alarm_cr_properties: 0,
        rta_timeout_factor: RTA_TIMEOUT_FACTOR,
        rta_retries: RTA_RETRIES,
        local_alarm_reference: ALARM_REFERENCE,
        max_alarm_data_length: 200,
        tag_header_high: TAG_HIGH,
        tag_header_low: TAG_LOW,
    }
}

/// Appends the ExpectedSubmoduleBlockReq of a slot. The buffer must have room for it.
fn write_expected(out: &mut ArrayVec<u8, 1372>, entry: &RealModule)
    requires { array_vec_len out.old + block_size (Block.ExpectedSubmoduleBlockReq (expected_block entry.now)) ≤ 1372 }
    ensures exact { out.new.items ≡ out.old.items ++ block_bytes (Block.ExpectedSubmoduleBlockReq (expected_block entry.now)) }
    ensures len { array_vec_len out.new ≡ array_vec_len out.old + block_size (Block.ExpectedSubmoduleBlockReq (expected_block entry.now)) }
    ensures read { IsExpectedSubmoduleBlockReq (expected_block entry.now) →
        IsRead (Block.ExpectedSubmoduleBlockReq (expected_block entry.now)) }
{
    let modules = one(module_of(entry));
    let submodules = submodules_of(entry);
    let block = ExpectedSubmoduleBlockReq {
        modules: ExpectedModules::lent(&modules, &submodules),
    };
    write_block(out, &Block::ExpectedSubmoduleBlockReq(block));
}

/// The number of octets of that block.
fn expected_len(entry: &RealModule) -> usize
    ensures { result ≡ block_size (Block.ExpectedSubmoduleBlockReq (expected_block entry.now)) }
{
    let modules = one(module_of(entry));
    let submodules = submodules_of(entry);
    let block = ExpectedSubmoduleBlockReq {
        modules: ExpectedModules::lent(&modules, &submodules),
    };
    block_len(&Block::ExpectedSubmoduleBlockReq(block))
}

/// A list with one module.
fn one(entry: ExpectedModule) -> ArrayVec<ExpectedModule, 1>
    ensures { result.items ≡ entry ∷ [] }
{
    let mut modules = ArrayVec::new();
    modules.push(entry);
    modules
}

/// Appends the ExpectedSubmoduleBlockReq of each slot. The buffer must have room for them.
pub(crate) fn write_all_expected(out: &mut ArrayVec<u8, 1372>, modules: &[RealModule])
    requires { array_vec_len out.old + size_of (expected_blocks modules.now) ≤ 1372 }
    ensures exact { out.new.items ≡ out.old.items ++ bytes_of (expected_blocks modules.now) }
    ensures read { AllByRecursion (λ entry. IsExpectedSubmoduleBlockReq (expected_block entry)) modules.now →
        AllByRecursion IsRead (expected_blocks modules.now) }
{
    for entry in modules {
        write_expected(out, entry);
    }
}

/// Appends the IOCRBlockReq of a direction. The buffer must have room for it.
pub(crate) fn write_iocr(out: &mut ArrayVec<u8, 1372>, parts: &Parts, direction: IocrType)
    requires short { frame_octets direction (data_of parts.now.real.modules.items) ≤ 1440 }
    requires room { array_vec_len out.old + block_size (Block.IocrBlockReq (iocr_block parts.now direction)) ≤ 1372 }
    ensures exact { out.new.items ≡ out.old.items ++ block_bytes (Block.IocrBlockReq (iocr_block parts.now direction)) }
    ensures len { array_vec_len out.new ≡ array_vec_len out.old + block_size (Block.IocrBlockReq (iocr_block parts.now direction)) }
    ensures read { IsIocrBlockReq (iocr_block parts.now direction) → IsRead (Block.IocrBlockReq (iocr_block parts.now direction)) }
{
    let subs = data_of(&parts.real);
    let mut places = Places::none();
    places.fill(direction, subs.as_slice());
    let block = iocr_block(parts, direction, subs.as_slice(), &places);
    write_block(out, &Block::IocrBlockReq(block));
}

/// The number of octets of that block.
fn iocr_len(parts: &Parts, direction: IocrType) -> usize
    requires { frame_octets direction (data_of parts.now.real.modules.items) ≤ 1440 }
    ensures { result ≡ block_size (Block.IocrBlockReq (iocr_block parts.now direction)) }
{
    let subs = data_of(&parts.real);
    let mut places = Places::none();
    places.fill(direction, subs.as_slice());
    let block = iocr_block(parts, direction, subs.as_slice(), &places);
    block_len(&Block::IocrBlockReq(block))
}

/// Appends the ARBlockReq. The buffer must have room for it.
pub(crate) fn write_ar(out: &mut ArrayVec<u8, 1372>, parts: &Parts, ar: &Uuid)
    requires { array_vec_len out.old + block_size (Block.ArBlockReq (ar_block parts.now ar.now)) ≤ 1372 }
    ensures exact { out.new.items ≡ out.old.items ++ block_bytes (Block.ArBlockReq (ar_block parts.now ar.now)) }
    ensures len { array_vec_len out.new ≡ array_vec_len out.old + block_size (Block.ArBlockReq (ar_block parts.now ar.now)) }
    ensures read { IsArBlockReq (ar_block parts.now ar.now) → IsRead (Block.ArBlockReq (ar_block parts.now ar.now)) }
{
    write_block(out, &Block::ArBlockReq(ar_block(parts, ar)));
}

/// Appends the AlarmCRBlockReq. The buffer must have room for it.
pub(crate) fn write_alarm(out: &mut ArrayVec<u8, 1372>)
    requires { array_vec_len out.old + block_size (Block.AlarmCrBlockReq alarm_block) ≤ 1372 }
    ensures exact { out.new.items ≡ out.old.items ++ block_bytes (Block.AlarmCrBlockReq alarm_block) }
    ensures len { array_vec_len out.new ≡ array_vec_len out.old + block_size (Block.AlarmCrBlockReq alarm_block) }
    ensures read { IsAlarmCrBlockReq alarm_block → IsRead (Block.AlarmCrBlockReq alarm_block) }
{
    write_block(out, &Block::AlarmCrBlockReq(alarm_block()));
}

/// The remaining octets after a block of that many. `None` if fewer remain.
fn less(left: Option<usize>, octets: usize) -> Option<usize>
    ensures { result ≡ less left octets }
{
    match left {
        Some(left) if octets <= left => Some(left - octets),
        _ => None,
    }
}

/// The remaining octets after the ExpectedSubmoduleBlockReq of each module. `None` if they do not fit.
fn left_behind(left: Option<usize>, modules: &[RealModule]) -> Option<usize>
    ensures { result ≡ left_behind left (expected_blocks modules.now) }
{
    let mut left = left;
    for entry in modules {
        left = less(left, expected_len(entry));
    }
    left
}

/// Whether the blocks of the Connect have at most 1,372 octets.
pub(crate) fn does_connect_fit(parts: &Parts) -> bool
    requires input { frame_octets Input (data_of parts.now.real.modules.items) ≤ 1440 }
    requires output { frame_octets Output (data_of parts.now.real.modules.items) ≤ 1440 }
    ensures { result ≡ does_connect_fit parts.now }
{
    let ar = block_len(&Block::ArBlockReq(ar_block(parts, &Uuid::nil())));
    let left = less(Some(1372), ar);
    let left = less(left, iocr_len(parts, IocrType::Input));
    let left = less(left, iocr_len(parts, IocrType::Output));
    let left = less(left, block_len(&Block::AlarmCrBlockReq(alarm_block())));
    left_behind(left, parts.real.modules.as_slice()).is_some()
}
