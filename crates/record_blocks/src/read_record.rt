//! The headers of reading a record: request and response.
ghost use Rattle.std.specs.Prelude.{◌≡◌, ◌+◌, ◌≤◌, ◌++◌, List, ℕ};
ghost use Rattle.arrayvec.specs.ArrayVec.{array_vec_len};
ghost use Rattle.wire.specs.Codec.{Gives};
ghost use Rattle.wire.specs.blocks.Fields.{body};
ghost use Rattle.record_blocks.specs.ReadRecord.{iod_read_req, iod_read_res};

use crate::RecordHeader;
use crate::record_header::{put_record_header, read_headed, record_header_at, record_header_len};
use arrayvec::ArrayVec;
use wire::{BlockFault, Uuid, len_fields, put_fields, read_fields, version_at};

/// 0x0009: IODReadReqHeader (IEC 61158-6-10, 5.2.3): requests a record.
#[derive(Clone, Copy)]
pub struct IodReadReq {
    /// The record and the call.
    pub header: RecordHeader,
    /// TargetARUUID.
    pub target_ar_uuid: Uuid,
}

macro_rules! iod_read_req_fields {
    ($with:ident $args:tt) => {
        $with! { $args IodReadReq {
            header: (record_header_at, put_record_header, record_header_len),
            target_ar_uuid: uuid,
            _: blank 8,
        } }
    };
}

/// Reads the part of an IODReadReqHeader that BlockLength counts: the version and the fields, to the last octet.
#[tactic(auto, unfolding(wire::specs::blocks::Fields::body, crate::specs::ReadRecord::iod_read_req))]
pub fn iod_read_req_at(bytes: &[u8]) -> Result<IodReadReq, BlockFault>
    ensures { Gives (λ x. x) result ((body iod_read_req).read bytes.now) }
{
    iod_read_req_fields!(read_headed[bytes])
}

/// Appends the fields of an IODReadReqHeader. There must be room.
#[tactic(auto, unfolding(crate::specs::ReadRecord::iod_read_req))]
pub fn put_iod_read_req<const N: usize>(out: &mut ArrayVec<u8, N>, value: &IodReadReq)
    requires { array_vec_len out.old + iod_read_req.size value.now ≤ N }
    ensures items { (tail : List ℕ) → out.new.items ++ tail ≡ out.old.items ++ iod_read_req.write value.now tail }
    ensures len { array_vec_len out.new ≡ array_vec_len out.old + iod_read_req.size value.now }
    ensures fits { iod_read_req.Fits value.now }
{
    iod_read_req_fields!(put_fields [out, value]);
}

/// The number of octets that the fields of an IODReadReqHeader take.
#[tactic(auto, unfolding(crate::specs::ReadRecord::iod_read_req))]
pub fn iod_read_req_len(value: &IodReadReq) -> usize
    ensures size { result ≡ iod_read_req.size value.now }
    ensures few { result ≡ 58 }
{
    iod_read_req_fields!(len_fields[value])
}

/// 0x8009: IODReadResHeader (IEC 61158-6-10, 5.2.3). The record follows it.
#[derive(Clone, Copy)]
pub struct IodReadRes {
    /// The record and the call.
    pub header: RecordHeader,
    /// AdditionalValue1.
    pub additional_value_1: u16,
    /// AdditionalValue2.
    pub additional_value_2: u16,
}

macro_rules! iod_read_res_fields {
    ($with:ident $args:tt) => {
        $with! { $args IodReadRes {
            header: (record_header_at, put_record_header, record_header_len),
            additional_value_1: u16,
            additional_value_2: u16,
            _: blank 20,
        } }
    };
}

/// Reads the part of an IODReadResHeader that BlockLength counts: the version and the fields, to the last octet.
#[tactic(auto, unfolding(wire::specs::blocks::Fields::body, crate::specs::ReadRecord::iod_read_res))]
pub fn iod_read_res_at(bytes: &[u8]) -> Result<IodReadRes, BlockFault>
    ensures { Gives (λ x. x) result ((body iod_read_res).read bytes.now) }
{
    iod_read_res_fields!(read_headed[bytes])
}

/// Appends the fields of an IODReadResHeader. There must be room.
#[tactic(auto, unfolding(crate::specs::ReadRecord::iod_read_res))]
pub fn put_iod_read_res<const N: usize>(out: &mut ArrayVec<u8, N>, value: &IodReadRes)
    requires { array_vec_len out.old + iod_read_res.size value.now ≤ N }
    ensures items { (tail : List ℕ) → out.new.items ++ tail ≡ out.old.items ++ iod_read_res.write value.now tail }
    ensures len { array_vec_len out.new ≡ array_vec_len out.old + iod_read_res.size value.now }
    ensures fits { iod_read_res.Fits value.now }
{
    iod_read_res_fields!(put_fields [out, value]);
}

/// The number of octets that the fields of an IODReadResHeader take.
#[tactic(auto, unfolding(crate::specs::ReadRecord::iod_read_res))]
pub fn iod_read_res_len(value: &IodReadRes) -> usize
    ensures size { result ≡ iod_read_res.size value.now }
    ensures few { result ≡ 58 }
{
    iod_read_res_fields!(len_fields[value])
}
