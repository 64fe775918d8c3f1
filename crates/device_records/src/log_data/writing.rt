//! LogData, the record of the log.
ghost use Rattle.std.specs.Prelude.{◌≡◌, ◌+◌, ◌*◌, ◌≤◌, ◌++◌, length};
ghost use Rattle.arrayvec.specs.ArrayVec.{array_vec_len};
ghost use Rattle.wire.specs.Formats.{big_bytes};
ghost use Rattle.device_records.specs.log_data.Log.{entries_bytes, entry_bytes, log_bytes};

use crate::log_data::entry::LogEntry;
use crate::log_data::log::Log;
use arrayvec::ArrayVec;
use byteorder::{BigEndian, ByteOrder};
use wire::{append, append_u16};

/// BlockType of LogData.
const LOG_DATA: u16 = 0x0019;

/// Appends a number of eight octets. There must be room.
fn append_u64<const N: usize>(out: &mut ArrayVec<u8, N>, number: u64)
    requires { array_vec_len out.old + 8 ≤ N }
    ensures items { out.new.items ≡ out.old.items ++ big_bytes 8 number }
    ensures len { array_vec_len out.new ≡ array_vec_len out.old + 8 }
{
    let mut octets = [0; 8];
    BigEndian::write_u64(&mut octets, number);
    append(out, &octets);
}

/// Appends an entry. There must be room.
fn append_entry<const N: usize>(out: &mut ArrayVec<u8, N>, entry: &LogEntry)
    requires { array_vec_len out.old + 32 ≤ N }
    ensures items { out.new.items ≡ out.old.items ++ entry_bytes entry.now }
    ensures len { array_vec_len out.new ≡ array_vec_len out.old + 32 }
{
    let status = entry.status;
    append_u64(out, entry.time);
    append(out, &entry.uuid.into_bytes());
    append(
        out,
        &[status.code, status.decode, status.code1, status.code2],
    );
    append(out, &[0, 0, 0, 0]);
}

/// Appends the entries in order. There must be room.
fn append_entries<const N: usize>(out: &mut ArrayVec<u8, N>, entries: &[LogEntry])
    requires { array_vec_len out.old + 32 * length entries.now ≤ N }
    ensures { out.new.items ≡ out.old.items ++ entries_bytes entries.now }
{
    for entry in entries {
        append_entry(out, entry);
    }
}

/// Appends LogData: the present time, in units since the start of the device, and the entries of the log, at most 528
/// octets. There must be room.
#[tactic(auto, unfolding(crate::specs::log_data::Log::log_bytes))]
pub fn put_log_data<const N: usize>(out: &mut ArrayVec<u8, N>, now: u64, log: &Log)
    requires { array_vec_len out.old + 528 ≤ N }
    ensures { out.new.items ≡ out.old.items ++ log_bytes now log.now }
{
    let entries = log.as_slice();
    let count = entries.len() as u16;
    append_u16(out, LOG_DATA);
    append_u16(out, 12 + 32 * count);
    append(out, &[1, 0]);
    append_u64(out, now);
    append_u16(out, count);
    append_entries(out, entries);
}
