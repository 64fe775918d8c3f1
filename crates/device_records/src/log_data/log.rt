//! The last entries.
ghost use Rattle.std.specs.Prelude.{◌≡◌, ◌≤◌, [], length};
ghost use Rattle.device_records.specs.log_data.Log.{logged};

use crate::log_data::entry::LogEntry;
use arrayvec::ArrayVec;
use std::marker::Model;

/// The number of entries that are kept.
const MOST: usize = 16;

/// The last 16 entries, the oldest first.
#[derive(Drop)]
pub struct Log {
    entries: ArrayVec<LogEntry, MOST>,
}

// Its model: the entries.
impl Model for Log {
    ghost use Rattle.std.specs.Prelude.{List};
    ghost use Rattle.device_records.specs.declared.log_data.entry.LogEntry.{LogEntry};

    ghost Value = { List LogEntry };

    ghost view = { λ log. log.entries.items };
}

impl Log {
    /// An empty log.
    pub fn new() -> Log
        ensures { result ≡ [] }
    {
        Log {
            entries: ArrayVec::new(),
        }
    }

    /// The entries, the oldest first.
    pub fn as_slice(&self) -> &[LogEntry]
        ensures value { result.now ≡ self.now }
        ensures few { length result.now ≤ 16 }
    {
        self.entries.as_slice()
    }

    /// Adds an entry. If there are 16, the oldest one is dropped.
    pub fn add(&mut self, entry: LogEntry)
        ensures { self.new ≡ logged entry self.old }
    {
        if self.entries.is_full() {
            self.entries.remove(0);
        }
        self.entries.push(entry);
    }
}
