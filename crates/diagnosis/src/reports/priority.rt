//! The two priorities of alarms.
ghost use Rattle.std.specs.Prelude.{◌≡◌};
ghost use Rattle.diagnosis.specs.reports.Priority.{frame_id_at, priority_of, priority_of_block};

use pn_alarms::PduType;

/// The priority of an alarm (IEC 61158-6-10, 4.8). Each has a sender, a receiver, numbers and repeats of its own.
#[derive(Clone, Copy, Debug, PartialEq, Eq)]
pub enum Priority {
    /// FrameID 0xFC01, AlarmNotification 0x0001, AlarmAck 0x8001.
    High,
    /// FrameID 0xFE01, AlarmNotification 0x0002, AlarmAck 0x8002.
    Low,
}

impl Priority {
    /// The priority of an alarm frame with this FrameID.
    pub fn of(frame_id: u16) -> Priority
        ensures { result ≡ priority_of frame_id }
    {
        if frame_id == 0xFE01 {
            Priority::Low
        } else {
            Priority::High
        }
    }

    /// The priority of an AlarmNotification with this BlockType, if it is one.
    pub(crate) fn of_block(kind: u16) -> Option<Priority>
        ensures { result ≡ priority_of_block kind }
    {
        match kind {
            0x0001 => Some(Priority::High),
            0x0002 => Some(Priority::Low),
            _ => None,
        }
    }

    /// The FrameID under which a PDU of this type is sent. An ERR is always sent as an alarm of low priority.
    pub fn frame_id(self, kind: PduType) -> u16
        ensures { result ≡ frame_id_at self kind }
    {
        match self {
            Priority::High => kind.frame_id(),
            Priority::Low => 0xFE01,
        }
    }
}
