//! An entry of the log.
use rpc_core::{Status, Uuid};

/// The end of a relation, or a Connect that was refused.
#[derive(Clone, Copy)]
pub struct LogEntry {
    /// When it happened, in units of 31.25 microseconds since the start of the device.
    pub time: u64,
    /// ARUUID of the relation, or of the Connect; zeros if the first block of the Connect cannot be read.
    pub uuid: Uuid,
    /// PNIOStatus of the ERR that ended the relation, zeros for a Release; or of the answer to the Connect.
    pub status: Status,
}

impl Default for LogEntry {
    ghost use Rattle.std.specs.Prelude.{◌≡◌};
    ghost use Rattle.device_records.specs.log_data.Log.{blank};

    ghost is_default = { λ entry. entry ≡ blank };

    /// An entry for a place of the list that is not in use.
    fn default() -> LogEntry {
        LogEntry {
            time: 0,
            uuid: Uuid::from_bytes([0; 16]),
            status: Status {
                code: 0,
                decode: 0,
                code1: 0,
                code2: 0,
            },
        }
    }
}
