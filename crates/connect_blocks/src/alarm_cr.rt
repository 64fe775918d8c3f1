//! The alarm communication relation: its request and its response.
ghost use Rattle.std.specs.Prelude.{◌≡◌, ◌+◌, ◌≤◌, ◌++◌, List, ℕ};
ghost use Rattle.arrayvec.specs.ArrayVec.{array_vec_len};
ghost use Rattle.wire.specs.Codec.{Gives};
ghost use Rattle.wire.specs.blocks.Fields.{body};
ghost use Rattle.connect_blocks.specs.AlarmCr.{alarm_cr_block_req, alarm_cr_block_res, IsAlarmCrBlockReq};

use arrayvec::ArrayVec;
use wire::{BlockFault, len_fields, put_fields, read_body};

/// 0x0103: AlarmCRBlockReq (IEC 61158-6-10, 5.2.4.7), with AlarmCRType 1 and LT 0x8892.
#[derive(Clone, Copy)]
pub struct AlarmCrBlockReq {
    /// AlarmCRProperties.
    pub alarm_cr_properties: u32,
    /// RTATimeoutFactor, at least 1, in units of 100 ms.
    pub rta_timeout_factor: u16,
    /// RTARetries, 1 to 15.
    pub rta_retries: u16,
    /// LocalAlarmReference.
    pub local_alarm_reference: u16,
    /// MaxAlarmDataLength, 200 to 1,432 octets.
    pub max_alarm_data_length: u16,
    /// AlarmCRTagHeaderHigh.
    pub tag_header_high: u16,
    /// AlarmCRTagHeaderLow.
    pub tag_header_low: u16,
}

macro_rules! alarm_cr_block_req_fields {
    ($with:ident $args:tt) => {
        $with! { $args AlarmCrBlockReq {
            _: fixed 1 4,
            _: fixed 0x8892 5,
            alarm_cr_properties: u32,
            rta_timeout_factor: ranged 1 65535 7,
            rta_retries: ranged 1 15 8,
            local_alarm_reference: u16,
            max_alarm_data_length: ranged 200 1432 10,
            tag_header_high: u16,
            tag_header_low: u16,
        } }
    };
}

/// Reads the part of an AlarmCRBlockReq that BlockLength counts: the version and the fields, to the last octet.
#[tactic(auto, unfolding(wire::specs::blocks::Fields::body, crate::specs::AlarmCr::alarm_cr_block_req))]
pub fn alarm_cr_block_req_at(bytes: &[u8]) -> Result<AlarmCrBlockReq, BlockFault>
    ensures { Gives (λ x. x) result ((body alarm_cr_block_req).read bytes.now) }
{
    alarm_cr_block_req_fields!(read_body[bytes])
}

/// Appends the fields of an AlarmCRBlockReq. There must be room.
#[tactic(auto, unfolding(crate::specs::AlarmCr::alarm_cr_block_req))]
pub fn put_alarm_cr_block_req<const N: usize>(out: &mut ArrayVec<u8, N>, value: &AlarmCrBlockReq)
    requires { array_vec_len out.old + alarm_cr_block_req.size value.now ≤ N }
    ensures items { (tail : List ℕ) → out.new.items ++ tail ≡ out.old.items ++ alarm_cr_block_req.write value.now tail }
    ensures len { array_vec_len out.new ≡ array_vec_len out.old + alarm_cr_block_req.size value.now }
    ensures fits { IsAlarmCrBlockReq value.now → alarm_cr_block_req.Fits value.now }
{
    alarm_cr_block_req_fields!(put_fields [out, value]);
}

/// The number of octets that the fields of an AlarmCRBlockReq take.
#[tactic(auto, unfolding(crate::specs::AlarmCr::alarm_cr_block_req))]
pub fn alarm_cr_block_req_len(value: &AlarmCrBlockReq) -> usize
    ensures size { result ≡ alarm_cr_block_req.size value.now }
    ensures few { result ≡ 20 }
{
    alarm_cr_block_req_fields!(len_fields[value])
}

/// 0x8103: AlarmCRBlockRes (IEC 61158-6-10, 5.2.4.8), with LocalAlarmReference 1 and MaxAlarmDataLength 200. AlarmCRType
/// is written as 1 and ignored when read.
#[derive(Clone, Copy)]
pub struct AlarmCrBlockRes {}

macro_rules! alarm_cr_block_res_fields {
    ($with:ident $args:tt) => {
        $with! { $args AlarmCrBlockRes {
            _: unchecked 1,
            _: fixed 1 5,
            _: fixed 200 6,
        } }
    };
}

/// Reads the part of an AlarmCRBlockRes that BlockLength counts: the version and the fields, to the last octet.
#[tactic(auto, unfolding(wire::specs::blocks::Fields::body, crate::specs::AlarmCr::alarm_cr_block_res))]
pub fn alarm_cr_block_res_at(bytes: &[u8]) -> Result<AlarmCrBlockRes, BlockFault>
    ensures { Gives (λ x. x) result ((body alarm_cr_block_res).read bytes.now) }
{
    alarm_cr_block_res_fields!(read_body[bytes])
}

/// Appends the fields of an AlarmCRBlockRes. There must be room.
#[tactic(auto, unfolding(crate::specs::AlarmCr::alarm_cr_block_res))]
pub fn put_alarm_cr_block_res<const N: usize>(out: &mut ArrayVec<u8, N>, value: &AlarmCrBlockRes)
    requires { array_vec_len out.old + alarm_cr_block_res.size value.now ≤ N }
    ensures items { (tail : List ℕ) → out.new.items ++ tail ≡ out.old.items ++ alarm_cr_block_res.write value.now tail }
    ensures len { array_vec_len out.new ≡ array_vec_len out.old + alarm_cr_block_res.size value.now }
    ensures fits { alarm_cr_block_res.Fits value.now }
{
    // The length is the same for every value. The list of fields does not read it, so it is named here.
    let _all = value;
    alarm_cr_block_res_fields!(put_fields [out, value]);
}

/// The number of octets that the fields of an AlarmCRBlockRes take.
#[tactic(auto, unfolding(crate::specs::AlarmCr::alarm_cr_block_res))]
pub fn alarm_cr_block_res_len(value: &AlarmCrBlockRes) -> usize
    ensures size { result ≡ alarm_cr_block_res.size value.now }
    ensures few { result ≡ 6 }
{
    // The length is the same for every value. The list of fields does not read it, so it is named here.
    let _all = value;
    alarm_cr_block_res_fields!(len_fields[value])
}
