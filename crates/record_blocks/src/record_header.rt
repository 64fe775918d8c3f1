//! The fields at the start of the headers for reading and writing a record.
ghost use Rattle.std.specs.Prelude.{◌≡◌, ◌+◌, ◌≤◌, ◌++◌, List, ℕ};
ghost use Rattle.arrayvec.specs.ArrayVec.{array_vec_len};
ghost use Rattle.wire.specs.Codec.{Gives};
ghost use Rattle.record_blocks.specs.RecordHeader.{record_header};

use arrayvec::ArrayVec;
use wire::{BlockFault, Uuid, len_fields, put_fields, read_fields};

/// The fields at the start of each of the four headers (IEC 61158-6-10, 5.2.3): the record, its submodule, the relation
/// and the call.
#[derive(Clone, Copy)]
pub struct RecordHeader {
    /// SeqNumber, which counts the calls.
    pub seq_number: u16,
    /// ARUUID.
    pub ar_uuid: Uuid,
    /// API.
    pub api: u32,
    /// SlotNumber.
    pub slot_number: u16,
    /// SubslotNumber.
    pub subslot_number: u16,
    /// Index of the record.
    pub index: u16,
    /// RecordDataLength, in octets.
    pub record_data_length: u32,
}

macro_rules! record_header_fields {
    ($with:ident $args:tt) => {
        $with! { $args RecordHeader {
            seq_number: u16,
            ar_uuid: uuid,
            api: u32,
            slot_number: u16,
            subslot_number: u16,
            _: blank 2,
            index: u16,
            record_data_length: u32,
        } }
    };
}

/// Reads the part of one of the four headers that BlockLength counts: the version, the common fields, and the fields of a
/// list, to the last octet. It uses a match instead of `?`, which the borrow checker does not cover beside a Uuid.
macro_rules! read_headed {
    ([$bytes:expr] $name:ident { header: $how:tt, $($fields:tt)* }) => {
        match record_header_at(version_at($bytes)?) {
            Ok((header, rest)) => read_fields!(@ body rest $name [header,] $($fields)*),
            Err(fault) => Err(fault),
        }
    };
}

pub(crate) use read_headed;

/// Reads the fields from SeqNumber to RecordDataLength. Returns them and the rest.
#[tactic(auto, unfolding(crate::specs::RecordHeader::record_header))]
pub(crate) fn record_header_at(bytes: &[u8]) -> Result<(RecordHeader, &[u8]), BlockFault>
    ensures { Gives (λ x. (x.0, x.1.now)) result (record_header.read bytes.now) }
{
    record_header_fields!(read_fields[bytes])
}

/// Appends the fields from SeqNumber to RecordDataLength. There must be room.
#[inline(always)]
#[tactic(auto, unfolding(crate::specs::RecordHeader::record_header))]
pub(crate) fn put_record_header<const N: usize>(out: &mut ArrayVec<u8, N>, value: &RecordHeader)
    requires { array_vec_len out.old + record_header.size value.now ≤ N }
    ensures items { (tail : List ℕ) → out.new.items ++ tail ≡ out.old.items ++ record_header.write value.now tail }
    ensures len { array_vec_len out.new ≡ array_vec_len out.old + record_header.size value.now }
    ensures fits { record_header.Fits value.now }
{
    record_header_fields!(put_fields [out, value]);
}

/// The number of octets that the fields from SeqNumber to RecordDataLength take.
#[tactic(auto, unfolding(crate::specs::RecordHeader::record_header))]
pub(crate) fn record_header_len(value: &RecordHeader) -> usize
    ensures size { result ≡ record_header.size value.now }
    ensures few { result ≡ 34 }
{
    record_header_fields!(len_fields[value])
}
