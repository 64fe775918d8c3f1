//! The communication relation of cyclic frames: its request and its response.
ghost use Rattle.std.specs.Prelude.{◌≡◌, ◌+◌, ◌≤◌, ◌++◌, List, ℕ};
ghost use Rattle.arrayvec.specs.ArrayVec.{array_vec_len};
ghost use Rattle.wire.specs.Codec.{Gives};
ghost use Rattle.wire.specs.blocks.Fields.{body};
ghost use Rattle.connect_blocks.specs.Iocr.{iocr_type, rt_class, is_frame_id, frame_id, iocr_head, iocr_times, iocr_places, iocr_block_req};
ghost use Rattle.connect_blocks.specs.Iocr.{iocr_block_res, IsIocrBlockReq};

use crate::io_objects::{IoObjects, io_objects_at, io_objects_len, put_io_objects};
use arrayvec::ArrayVec;
use frame_codec::is_cyclic;
use pn_values::Mac;
use wire::blocks::{append_u16, append_u32, u16_at, u32_at};
use wire::{BlockFault, ended, len_fields, put_fields, read_body, read_fields, version_at};

/// IOCRType.
#[derive(Clone, Copy, Debug, PartialEq, Eq)]
pub enum IocrType {
    /// From the device to the controller.
    Input = 1,
    /// From the controller to the device.
    Output = 2,
}

/// The real-time class in IOCRProperties.
#[derive(Clone, Copy, Debug, PartialEq, Eq)]
pub enum RtClass {
    /// RT_CLASS_1.
    Class1 = 1,
    /// RT_CLASS_2.
    Class2 = 2,
}

/// 0x0102: IOCRBlockReq (IEC 61158-6-10, 5.2.4.3), with LT 0x8892 and one API, 0.
#[derive(Drop)]
pub struct IocrBlockReq<'a> {
    /// IOCRType.
    pub iocr_type: IocrType,
    /// IOCRReference.
    pub iocr_reference: u16,
    /// IOCRProperties: the real-time class. The other bits are ignored when read and written as 0.
    pub iocr_properties: RtClass,
    /// DataLength, 40 to 1,440 octets.
    pub data_length: u16,
    /// FrameID of cyclic frames. For an output also 0xFFFF: the device then chooses the FrameID.
    pub frame_id: u16,
    /// SendClockFactor, 1 to 128, in units of 31.25 microseconds.
    pub send_clock_factor: u16,
    /// ReductionRatio, 1 to 512.
    pub reduction_ratio: u16,
    /// Phase.
    pub phase: u16,
    /// Sequence.
    pub sequence: u16,
    /// FrameSendOffset.
    pub frame_send_offset: u32,
    /// WatchdogFactor.
    pub watchdog_factor: u16,
    /// DataHoldFactor, 1 to 7,680.
    pub data_hold_factor: u16,
    /// IOCRTagHeader.
    pub iocr_tag_header: u16,
    /// IOCRMulticastMACAdd.
    pub iocr_multicast_mac_add: Mac,
    /// The IODataObjects.
    pub io_data_objects: IoObjects<'a>,
    /// The IOCS.
    pub iocs: IoObjects<'a>,
}

/// The first fields of an IOCRBlockReq, from IOCRType to FrameID.
#[derive(Clone, Copy)]
struct IocrHead {
    iocr_type: IocrType,
    iocr_reference: u16,
    iocr_properties: RtClass,
    data_length: u16,
    frame_id: u16,
}

macro_rules! iocr_head_fields {
    ($with:ident $args:tt) => {
        $with! { $args IocrHead {
            iocr_type: (iocr_type_at, put_iocr_type, iocr_type_len),
            iocr_reference: u16,
            _: fixed 0x8892 6,
            iocr_properties: (rt_class_at, put_rt_class, rt_class_len),
            data_length: ranged 40 1440 8,
            frame_id: u16 by frame_id_at(iocr_type),
        } }
    };
}

/// The timing of an IOCRBlockReq, from SendClockFactor to DataHoldFactor.
#[derive(Clone, Copy)]
struct IocrTimes {
    send_clock_factor: u16,
    reduction_ratio: u16,
    phase: u16,
    sequence: u16,
    frame_send_offset: u32,
    watchdog_factor: u16,
    data_hold_factor: u16,
}

macro_rules! iocr_times_fields {
    ($with:ident $args:tt) => {
        $with! { $args IocrTimes {
            send_clock_factor: ranged 1 128 10,
            reduction_ratio: ranged 1 512 11,
            phase: u16,
            sequence: u16,
            frame_send_offset: u32,
            watchdog_factor: u16,
            data_hold_factor: ranged 1 7680 16,
        } }
    };
}

/// The last fields of an IOCRBlockReq, from IOCRTagHeader to the IOCS.
#[derive(Drop)]
struct IocrPlaces<'a> {
    iocr_tag_header: u16,
    iocr_multicast_mac_add: Mac,
    io_data_objects: IoObjects<'a>,
    iocs: IoObjects<'a>,
}

macro_rules! iocr_places_fields {
    ($with:ident $args:tt) => {
        $with! { $args IocrPlaces {
            iocr_tag_header: u16,
            iocr_multicast_mac_add: mac,
            _: fixed 1 19,
            _: fixed_four 0 20,
            io_data_objects: (io_objects_at, put_io_objects, io_objects_len),
            iocs: (io_objects_at, put_io_objects, io_objects_len),
        } }
    };
}

/// Reads an IOCRType (field 4).
#[tactic(auto, unfolding(crate::specs::Iocr::iocr_type))]
fn iocr_type_at(bytes: &[u8]) -> Result<(IocrType, &[u8]), BlockFault>
    ensures { Gives (λ x. (x.0, x.1.now)) result (iocr_type.read bytes.now) }
{
    let (number, rest) = u16_at(bytes)?;
    match number {
        1 => Ok((IocrType::Input, rest)),
        2 => Ok((IocrType::Output, rest)),
        _ => Err(BlockFault::Field(4)),
    }
}

/// Appends an IOCRType. There must be room.
#[tactic(auto, unfolding(crate::specs::Iocr::iocr_type))]
fn put_iocr_type<const N: usize>(out: &mut ArrayVec<u8, N>, value: &IocrType)
    requires { array_vec_len out.old + 2 ≤ N }
    ensures items { (tail : List ℕ) → out.new.items ++ tail ≡ out.old.items ++ iocr_type.write value.now tail }
    ensures len { array_vec_len out.new ≡ array_vec_len out.old + 2 }
    ensures size { iocr_type.size value.now ≡ 2 }
    ensures fits { iocr_type.Fits value.now }
{
    match value {
        IocrType::Input => append_u16(out, 1),
        IocrType::Output => append_u16(out, 2),
    }
}

/// The number of octets that an IOCRType takes.
#[tactic(auto, unfolding(crate::specs::Iocr::iocr_type))]
fn iocr_type_len(value: &IocrType) -> usize
    ensures size { result ≡ iocr_type.size value.now }
    ensures two { result ≡ 2 }
{
    // The length is the same for every value. A field list calls this function with one, so it is named here.
    let _any = value;
    2
}

/// Reads the class in IOCRProperties (field 7).
#[tactic(auto, unfolding(crate::specs::Iocr::rt_class))]
fn rt_class_at(bytes: &[u8]) -> Result<(RtClass, &[u8]), BlockFault>
    ensures { Gives (λ x. (x.0, x.1.now)) result (rt_class.read bytes.now) }
{
    let (number, rest) = u32_at(bytes)?;
    match number % 16 {
        1 => Ok((RtClass::Class1, rest)),
        2 => Ok((RtClass::Class2, rest)),
        _ => Err(BlockFault::Field(7)),
    }
}

/// Appends IOCRProperties. There must be room.
#[tactic(auto, unfolding(crate::specs::Iocr::rt_class))]
fn put_rt_class<const N: usize>(out: &mut ArrayVec<u8, N>, value: &RtClass)
    requires { array_vec_len out.old + 4 ≤ N }
    ensures items { (tail : List ℕ) → out.new.items ++ tail ≡ out.old.items ++ rt_class.write value.now tail }
    ensures len { array_vec_len out.new ≡ array_vec_len out.old + 4 }
    ensures size { rt_class.size value.now ≡ 4 }
    ensures fits { rt_class.Fits value.now }
{
    match value {
        RtClass::Class1 => append_u32(out, 1),
        RtClass::Class2 => append_u32(out, 2),
    }
}

/// The number of octets that IOCRProperties takes.
#[tactic(auto, unfolding(crate::specs::Iocr::rt_class))]
fn rt_class_len(value: &RtClass) -> usize
    ensures size { result ≡ rt_class.size value.now }
    ensures four { result ≡ 4 }
{
    // The length is the same for every value. A field list calls this function with one, so it is named here.
    let _any = value;
    4
}

/// Reads a FrameID (field 9): one of cyclic frames, or for an output also 0xFFFF.
#[tactic(auto, unfolding(crate::specs::Iocr::frame_id))]
fn frame_id_at(bytes: &[u8], kind: IocrType) -> Result<(u16, &[u8]), BlockFault>
    ensures { Gives (λ x. (x.0, x.1.now)) result ((frame_id kind).read bytes.now) }
{
    let (number, rest) = u16_at(bytes)?;
    if !is_frame_id(kind, number) {
        return Err(BlockFault::Field(9));
    }
    Ok((number, rest))
}

/// Whether the number is a FrameID of cyclic frames, or 0xFFFF for an output.
fn is_frame_id(kind: IocrType, number: u16) -> bool
    ensures { result ≡ is_frame_id kind number }
{
    match kind {
        IocrType::Input => is_cyclic(number),
        IocrType::Output => is_cyclic(number) || number == 0xFFFF,
    }
}

/// Reads the fields from IOCRType to FrameID. Returns them and the rest.
#[tactic(auto, unfolding(crate::specs::Iocr::iocr_head))]
fn iocr_head_at(bytes: &[u8]) -> Result<(IocrHead, &[u8]), BlockFault>
    ensures { Gives (λ x. (x.0, x.1.now)) result (iocr_head.read bytes.now) }
{
    iocr_head_fields!(read_fields[bytes])
}

/// Reads the fields from SendClockFactor to DataHoldFactor. Returns them and the rest.
#[tactic(auto, unfolding(crate::specs::Iocr::iocr_times))]
fn iocr_times_at(bytes: &[u8]) -> Result<(IocrTimes, &[u8]), BlockFault>
    ensures { Gives (λ x. (x.0, x.1.now)) result (iocr_times.read bytes.now) }
{
    iocr_times_fields!(read_fields[bytes])
}

/// Reads the fields from IOCRTagHeader to the IOCS. Returns them and the rest.
#[tactic(auto, unfolding(crate::specs::Iocr::iocr_places))]
fn iocr_places_at(bytes: &[u8]) -> Result<(IocrPlaces<'_>, &[u8]), BlockFault>
    ensures { Gives (λ x. (x.0, x.1.now)) result (iocr_places.read bytes.now) }
{
    iocr_places_fields!(read_fields[bytes])
}

/// Reads the part of an IOCRBlockReq that BlockLength counts: the version and the fields, to the last octet. A function
/// of its own, so that the reader of all kinds of blocks does not clear its locals for each block.
#[inline(never)]
#[tactic(auto, unfolding(wire::specs::blocks::Fields::body, crate::specs::Iocr::iocr_block_req))]
pub fn iocr_block_req_at(bytes: &[u8]) -> Result<IocrBlockReq<'_>, BlockFault>
    ensures { Gives (λ x. x) result ((body iocr_block_req).read bytes.now) }
{
    let rest = version_at(bytes)?;
    let (head, rest) = iocr_head_at(rest)?;
    let (times, rest) = iocr_times_at(rest)?;
    let (places, rest) = iocr_places_at(rest)?;
    ended(rest)?;
    Ok(IocrBlockReq {
        iocr_type: head.iocr_type,
        iocr_reference: head.iocr_reference,
        iocr_properties: head.iocr_properties,
        data_length: head.data_length,
        frame_id: head.frame_id,
        send_clock_factor: times.send_clock_factor,
        reduction_ratio: times.reduction_ratio,
        phase: times.phase,
        sequence: times.sequence,
        frame_send_offset: times.frame_send_offset,
        watchdog_factor: times.watchdog_factor,
        data_hold_factor: times.data_hold_factor,
        iocr_tag_header: places.iocr_tag_header,
        iocr_multicast_mac_add: places.iocr_multicast_mac_add,
        io_data_objects: places.io_data_objects,
        iocs: places.iocs,
    })
}

/// Appends the fields of an IOCRBlockReq. There must be room.
#[tactic(auto, unfolding(crate::specs::Iocr::iocr_block_req, crate::specs::Iocr::iocr_head, crate::specs::Iocr::iocr_times, crate::specs::Iocr::iocr_places, crate::specs::Iocr::frame_id))]
pub fn put_iocr_block_req<const N: usize>(out: &mut ArrayVec<u8, N>, value: &IocrBlockReq)
    requires { array_vec_len out.old + iocr_block_req.size value.now ≤ N }
    ensures items { (tail : List ℕ) → out.new.items ++ tail ≡ out.old.items ++ iocr_block_req.write value.now tail }
    ensures len { array_vec_len out.new ≡ array_vec_len out.old + iocr_block_req.size value.now }
    ensures fits { IsIocrBlockReq value.now → iocr_block_req.Fits value.now }
{
    iocr_head_fields!(put_fields [out, value]);
    iocr_times_fields!(put_fields [out, value]);
    iocr_places_fields!(put_fields [out, value]);
}

/// The number of octets that the fields of an IOCRBlockReq take.
#[tactic(auto, unfolding(crate::specs::Iocr::iocr_block_req, crate::specs::Iocr::iocr_head, crate::specs::Iocr::iocr_times, crate::specs::Iocr::iocr_places, crate::specs::Iocr::frame_id))]
pub fn iocr_block_req_len(value: &IocrBlockReq) -> usize
    ensures size { result ≡ iocr_block_req.size value.now }
    ensures few { result ≤ 4000 }
{
    let head = iocr_head_fields!(len_fields[value]);
    let times = iocr_times_fields!(len_fields[value]);
    head + times + iocr_places_fields!(len_fields[value])
}

/// 0x8102: IOCRBlockRes (IEC 61158-6-10, 5.2.4.4).
#[derive(Clone, Copy)]
pub struct IocrBlockRes {
    /// IOCRType of the request.
    pub iocr_type: u16,
    /// IOCRReference of the request.
    pub iocr_reference: u16,
    /// FrameID.
    pub frame_id: u16,
}

macro_rules! iocr_block_res_fields {
    ($with:ident $args:tt) => {
        $with! { $args IocrBlockRes {
            iocr_type: u16,
            iocr_reference: u16,
            frame_id: u16,
        } }
    };
}

/// Reads the part of an IOCRBlockRes that BlockLength counts: the version and the fields, to the last octet.
#[tactic(auto, unfolding(wire::specs::blocks::Fields::body, crate::specs::Iocr::iocr_block_res))]
pub fn iocr_block_res_at(bytes: &[u8]) -> Result<IocrBlockRes, BlockFault>
    ensures { Gives (λ x. x) result ((body iocr_block_res).read bytes.now) }
{
    iocr_block_res_fields!(read_body[bytes])
}

/// Appends the fields of an IOCRBlockRes. There must be room.
#[tactic(auto, unfolding(crate::specs::Iocr::iocr_block_res))]
pub fn put_iocr_block_res<const N: usize>(out: &mut ArrayVec<u8, N>, value: &IocrBlockRes)
    requires { array_vec_len out.old + iocr_block_res.size value.now ≤ N }
    ensures items { (tail : List ℕ) → out.new.items ++ tail ≡ out.old.items ++ iocr_block_res.write value.now tail }
    ensures len { array_vec_len out.new ≡ array_vec_len out.old + iocr_block_res.size value.now }
    ensures fits { iocr_block_res.Fits value.now }
{
    iocr_block_res_fields!(put_fields [out, value]);
}

/// The number of octets that the fields of an IOCRBlockRes take.
#[tactic(auto, unfolding(crate::specs::Iocr::iocr_block_res))]
pub fn iocr_block_res_len(value: &IocrBlockRes) -> usize
    ensures size { result ≡ iocr_block_res.size value.now }
    ensures few { result ≡ 6 }
{
    // The length is the same for every value. A field list calls this function with one, so it is named here.
    let _any = value;
    iocr_block_res_fields!(len_fields[value])
}
