//! LogData, read back.
ghost use Rattle.std.specs.Prelude.{◌≤◌, ◌<◌, ◌^◌, ℕ, List, length};
ghost use Rattle.std.specs.List.{AllByRecursion};
ghost use Rattle.device_records.specs.declared.log_data.entry.LogEntry.{LogEntry};
ghost use Rattle.device_records.specs.log_data.Log.{log_bytes};
ghost use Rattle.end_laws.specs.log_data.Reading.{IsEntry, IsLogData};

/// What is written of a log is read back, by a reader that looks at the places of the fields alone.
pub fn log_data_is_read_back()
    // The log of a device has at most 16 entries, and each field the octets that the standard gives it.
    ensures { (now : ℕ) (log : List LogEntry) → now < 256 ^ 8 → length log ≤ 16 → AllByRecursion IsEntry log → IsLogData (log_bytes now log) now log }
{}
