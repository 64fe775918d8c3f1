//! The headers of writing a record: request and response.
ghost use Rattle.std.specs.Prelude.{◌≡◌, ◌+◌, ◌≤◌, ◌++◌, List, ℕ};
ghost use Rattle.arrayvec.specs.ArrayVec.{array_vec_len};
ghost use Rattle.wire.specs.Codec.{Gives};
ghost use Rattle.wire.specs.blocks.Fields.{body};
ghost use Rattle.record_blocks.specs.WriteRecord.{iod_write_req, iod_write_res};

use crate::RecordHeader;
use crate::record_header::{put_record_header, read_headed, record_header_at, record_header_len};
use arrayvec::ArrayVec;
use wire::{BlockFault, len_fields, put_fields, read_fields, version_at};

/// 0x0008: IODWriteReqHeader (IEC 61158-6-10, 5.2.3). The record follows it.
#[derive(Clone, Copy)]
pub struct IodWriteReq {
    /// The record and the call.
    pub header: RecordHeader,
}

macro_rules! iod_write_req_fields {
    ($with:ident $args:tt) => {
        $with! { $args IodWriteReq {
            header: (record_header_at, put_record_header, record_header_len),
            _: blank 24,
        } }
    };
}

/// Reads the part of an IODWriteReqHeader that BlockLength counts: the version and the fields, to the last octet.
#[tactic(auto, unfolding(wire::specs::blocks::Fields::body, crate::specs::WriteRecord::iod_write_req))]
pub fn iod_write_req_at(bytes: &[u8]) -> Result<IodWriteReq, BlockFault>
    ensures { Gives (λ x. x) result ((body iod_write_req).read bytes.now) }
{
    iod_write_req_fields!(read_headed[bytes])
}

/// Appends the fields of an IODWriteReqHeader. There must be room.
#[tactic(auto, unfolding(crate::specs::WriteRecord::iod_write_req))]
pub fn put_iod_write_req<const N: usize>(out: &mut ArrayVec<u8, N>, value: &IodWriteReq)
    requires { array_vec_len out.old + iod_write_req.size value.now ≤ N }
    ensures items { (tail : List ℕ) → out.new.items ++ tail ≡ out.old.items ++ iod_write_req.write value.now tail }
    ensures len { array_vec_len out.new ≡ array_vec_len out.old + iod_write_req.size value.now }
    ensures fits { iod_write_req.Fits value.now }
{
    iod_write_req_fields!(put_fields [out, value]);
}

/// The number of octets that the fields of an IODWriteReqHeader take.
#[tactic(auto, unfolding(crate::specs::WriteRecord::iod_write_req))]
pub fn iod_write_req_len(value: &IodWriteReq) -> usize
    ensures size { result ≡ iod_write_req.size value.now }
    ensures few { result ≡ 58 }
{
    iod_write_req_fields!(len_fields[value])
}

/// 0x8008: IODWriteResHeader (IEC 61158-6-10, 5.2.3).
#[derive(Clone, Copy)]
pub struct IodWriteRes {
    /// The record and the call.
    pub header: RecordHeader,
    /// AdditionalValue1.
    pub additional_value_1: u16,
    /// AdditionalValue2.
    pub additional_value_2: u16,
    /// PNIOStatus: ErrorCode, ErrorDecode, ErrorCode1 and ErrorCode2; 0 for no error.
    pub pnio_status: u32,
}

macro_rules! iod_write_res_fields {
    ($with:ident $args:tt) => {
        $with! { $args IodWriteRes {
            header: (record_header_at, put_record_header, record_header_len),
            additional_value_1: u16,
            additional_value_2: u16,
            pnio_status: u32,
            _: blank 16,
        } }
    };
}

/// Reads the part of an IODWriteResHeader that BlockLength counts: the version and the fields, to the last octet.
#[tactic(auto, unfolding(wire::specs::blocks::Fields::body, crate::specs::WriteRecord::iod_write_res))]
pub fn iod_write_res_at(bytes: &[u8]) -> Result<IodWriteRes, BlockFault>
    ensures { Gives (λ x. x) result ((body iod_write_res).read bytes.now) }
{
    iod_write_res_fields!(read_headed[bytes])
}

/// Appends the fields of an IODWriteResHeader. There must be room.
#[tactic(auto, unfolding(crate::specs::WriteRecord::iod_write_res))]
pub fn put_iod_write_res<const N: usize>(out: &mut ArrayVec<u8, N>, value: &IodWriteRes)
    requires { array_vec_len out.old + iod_write_res.size value.now ≤ N }
    ensures items { (tail : List ℕ) → out.new.items ++ tail ≡ out.old.items ++ iod_write_res.write value.now tail }
    ensures len { array_vec_len out.new ≡ array_vec_len out.old + iod_write_res.size value.now }
    ensures fits { iod_write_res.Fits value.now }
{
    iod_write_res_fields!(put_fields [out, value]);
}

/// The number of octets that the fields of an IODWriteResHeader take.
#[tactic(auto, unfolding(crate::specs::WriteRecord::iod_write_res))]
pub fn iod_write_res_len(value: &IodWriteRes) -> usize
    ensures size { result ≡ iod_write_res.size value.now }
    ensures few { result ≡ 58 }
{
    iod_write_res_fields!(len_fields[value])
}
