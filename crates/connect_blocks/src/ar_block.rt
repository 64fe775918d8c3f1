//! The application relation: its request and its response.
ghost use Rattle.std.specs.Prelude.{◌≡◌, ◌+◌, ◌≤◌, ◌++◌, List, ℕ, true};
ghost use Rattle.arrayvec.specs.ArrayVec.{array_vec_len};
ghost use Rattle.wire.specs.Codec.{Gives};
ghost use Rattle.wire.specs.blocks.Fields.{body, mac};
ghost use Rattle.connect_blocks.specs.ArBlock.{ar_uuid, initiator_mac, station_name, ar_block_req, ar_block_res, IsArBlockReq};

use arrayvec::ArrayVec;
use pn_values::Mac;
use wire::blocks::{append, append_u16, octets_at};
use wire::{BlockFault, Uuid, len_fields, mac_at, put_fields, ranged_at, read_body, slice_at};

/// 0x0101: ARBlockReq (IEC 61158-6-10, 5.2.4.1), with ARType 1, IOCAR_Single.
#[derive(Drop)]
pub struct ArBlockReq {
    /// ARUUID, which is not zero.
    pub ar_uuid: Uuid,
    /// SessionKey.
    pub session_key: u16,
    /// CMInitiatorMacAdd, whose first octet is even.
    pub cm_initiator_mac_add: Mac,
    /// CMInitiatorObjectUUID.
    pub cm_initiator_object_uuid: Uuid,
    /// ARProperties.
    pub ar_properties: u32,
    /// CMInitiatorActivityTimeoutFactor, 1 to 1,000, in units of 100 ms.
    pub cm_initiator_activity_timeout_factor: u16,
    /// CMInitiatorUDPRTPort.
    pub cm_initiator_udp_rt_port: u16,
    /// CMInitiatorStationName, at most 240 octets.
    pub cm_initiator_station_name: ArrayVec<u8, 240>,
}

macro_rules! ar_block_req_fields {
    ($with:ident $args:tt) => {
        $with! { $args ArBlockReq {
            _: fixed 1 4,
            ar_uuid: uuid by ar_uuid_at(),
            session_key: u16,
            cm_initiator_mac_add: mac by initiator_mac_at(),
            cm_initiator_object_uuid: uuid,
            ar_properties: u32,
            cm_initiator_activity_timeout_factor: ranged 1 1000 10,
            cm_initiator_udp_rt_port: u16,
            cm_initiator_station_name: (station_name_at, put_station_name, station_name_len),
        } }
    };
}

/// Reads an ARUUID (field 5), which must not be zero.
#[tactic(auto, unfolding(crate::specs::ArBlock::ar_uuid))]
fn ar_uuid_at(bytes: &[u8]) -> Result<([u8; 16], &[u8]), BlockFault>
    ensures { Gives (λ x. (x.0, x.1.now)) result (ar_uuid.read bytes.now) }
{
    let (octets, rest) = octets_at::<16>(bytes)?;
    if octets == [0; 16] {
        return Err(BlockFault::Field(5));
    }
    Ok((octets, rest))
}

/// Reads a CMInitiatorMacAdd (field 7), whose first octet must be even.
#[tactic(auto, unfolding(crate::specs::ArBlock::initiator_mac))]
fn initiator_mac_at(bytes: &[u8]) -> Result<(Mac, &[u8]), BlockFault>
    ensures { Gives (λ x. (x.0, x.1.now)) result (initiator_mac.read bytes.now) }
{
    let (address, rest) = mac_at(bytes)?;
    if address.octets[0] % 2 == 1 {
        return Err(BlockFault::Field(7));
    }
    Ok((address, rest))
}

/// Reads a StationNameLength (field 12) and the station name after it.
#[tactic(auto, unfolding(crate::specs::ArBlock::station_name))]
fn station_name_at(bytes: &[u8]) -> Result<(ArrayVec<u8, 240>, &[u8]), BlockFault>
    ensures { Gives (λ x. (x.0, x.1.now)) result (station_name.read bytes.now) }
{
    let (length, rest) = ranged_at(bytes, 0, 240, 12)?;
    let (octets, rest) = slice_at(rest, length as usize)?;
    let mut name = ArrayVec::new();
    let _ = name.try_extend_from_slice(octets);
    Ok((name, rest))
}

/// Appends a station name after its length. There must be room.
#[tactic(auto, unfolding(crate::specs::ArBlock::station_name))]
fn put_station_name<const N: usize>(out: &mut ArrayVec<u8, N>, name: &ArrayVec<u8, 240>)
    requires { array_vec_len out.old + station_name.size name.now ≤ N }
    ensures items { (tail : List ℕ) → out.new.items ++ tail ≡ out.old.items ++ station_name.write name.now tail }
    ensures len { array_vec_len out.new ≡ array_vec_len out.old + station_name.size name.now }
    ensures fits { station_name.Fits name.now }
{
    append_u16(out, name.len() as u16);
    append(out, name.as_slice());
}

/// The number of octets that a station name and its length take.
#[tactic(auto, unfolding(crate::specs::ArBlock::station_name))]
fn station_name_len(name: &ArrayVec<u8, 240>) -> usize
    ensures size { result ≡ station_name.size name.now }
    ensures few { result ≤ 242 }
{
    2 + name.len()
}

/// Reads the part of an ARBlockReq that BlockLength counts: the version and the fields, to the last octet.
#[tactic(auto, unfolding(wire::specs::blocks::Fields::body, crate::specs::ArBlock::ar_block_req))]
pub fn ar_block_req_at(bytes: &[u8]) -> Result<ArBlockReq, BlockFault>
    ensures { Gives (λ x. x) result ((body ar_block_req).read bytes.now) }
{
    ar_block_req_fields!(read_body[bytes])
}

/// Appends the fields of an ARBlockReq. There must be room.
#[tactic(auto, unfolding(crate::specs::ArBlock::ar_block_req, crate::specs::ArBlock::ar_uuid, crate::specs::ArBlock::initiator_mac))]
pub fn put_ar_block_req<const N: usize>(out: &mut ArrayVec<u8, N>, value: &ArBlockReq)
    requires { array_vec_len out.old + ar_block_req.size value.now ≤ N }
    ensures items { (tail : List ℕ) → out.new.items ++ tail ≡ out.old.items ++ ar_block_req.write value.now tail }
    ensures len { array_vec_len out.new ≡ array_vec_len out.old + ar_block_req.size value.now }
    ensures fits { IsArBlockReq value.now → ar_block_req.Fits value.now }
{
    ar_block_req_fields!(put_fields [out, value]);
}

/// The number of octets that the fields of an ARBlockReq take.
#[tactic(auto, unfolding(crate::specs::ArBlock::ar_block_req, crate::specs::ArBlock::ar_uuid, crate::specs::ArBlock::initiator_mac))]
pub fn ar_block_req_len(value: &ArBlockReq) -> usize
    ensures size { result ≡ ar_block_req.size value.now }
    ensures few { result ≤ 294 }
{
    ar_block_req_fields!(len_fields[value])
}

/// 0x8101: ARBlockRes (IEC 61158-6-10, 5.2.4.2). ARType is written as 1 and ResponderUDPRTPort as 0x8892; both are
/// ignored when read.
#[derive(Clone, Copy)]
pub struct ArBlockRes {
    /// ARUUID.
    pub ar_uuid: Uuid,
    /// SessionKey.
    pub session_key: u16,
    /// CMResponderMacAdd.
    pub cm_responder_mac_add: Mac,
}

macro_rules! ar_block_res_fields {
    ($with:ident $args:tt) => {
        $with! { $args ArBlockRes {
            _: unchecked 1,
            ar_uuid: uuid,
            session_key: u16,
            cm_responder_mac_add: mac,
            _: unchecked 0x8892,
        } }
    };
}

/// Reads the part of an ARBlockRes that BlockLength counts: the version and the fields, to the last octet.
#[tactic(auto, unfolding(wire::specs::blocks::Fields::body, crate::specs::ArBlock::ar_block_res))]
pub fn ar_block_res_at(bytes: &[u8]) -> Result<ArBlockRes, BlockFault>
    ensures { Gives (λ x. x) result ((body ar_block_res).read bytes.now) }
{
    ar_block_res_fields!(read_body[bytes])
}

/// Appends the fields of an ARBlockRes. There must be room.
#[tactic(auto, unfolding(crate::specs::ArBlock::ar_block_res))]
pub fn put_ar_block_res<const N: usize>(out: &mut ArrayVec<u8, N>, value: &ArBlockRes)
    requires { array_vec_len out.old + ar_block_res.size value.now ≤ N }
    ensures items { (tail : List ℕ) → out.new.items ++ tail ≡ out.old.items ++ ar_block_res.write value.now tail }
    ensures len { array_vec_len out.new ≡ array_vec_len out.old + ar_block_res.size value.now }
    ensures fits { ar_block_res.Fits value.now }
{
    ar_block_res_fields!(put_fields [out, value]);
}

/// The number of octets that the fields of an ARBlockRes take.
#[tactic(auto, unfolding(crate::specs::ArBlock::ar_block_res))]
pub fn ar_block_res_len(value: &ArBlockRes) -> usize
    ensures size { result ≡ ar_block_res.size value.now }
    ensures few { result ≡ 28 }
{
    ar_block_res_fields!(len_fields[value])
}
