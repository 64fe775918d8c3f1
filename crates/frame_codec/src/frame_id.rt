//! FrameIDs (IEC 61158-6-10, 4.2.2): what a real-time frame carries.
ghost use Rattle.std.specs.Prelude.{◌≡◌};
ghost use Rattle.frame_codec.specs.FrameId.{is_alarm as is_alarm_id, is_cyclic as is_cyclic_id};

/// An alarm of high priority.
pub const ALARM_HIGH: u16 = 0xFC01;

/// An alarm of low priority.
pub const ALARM_LOW: u16 = 0xFE01;

/// A DCP Get or Set, request or response.
pub const DCP_GET_SET: u16 = 0xFEFD;

/// A DCP Identify request.
pub const DCP_IDENTIFY_REQUEST: u16 = 0xFEFE;

/// A DCP Identify response.
pub const DCP_IDENTIFY_RESPONSE: u16 = 0xFEFF;

/// Whether a frame of this FrameID is cyclic: of class 2, 0x8000 to 0xBBFF, or of class 1, 0xC000 to 0xF7FF.
#[inline(always)]
pub fn is_cyclic(frame_id: u16) -> bool
    ensures { result ≡ is_cyclic_id frame_id }
{
    matches!(frame_id, 0x8000..=0xBBFF | 0xC000..=0xF7FF)
}

/// Whether a frame of this FrameID is an alarm, of high or of low priority.
#[inline(always)]
pub fn is_alarm(frame_id: u16) -> bool
    ensures { result ≡ is_alarm_id frame_id }
{
    matches!(frame_id, ALARM_HIGH | ALARM_LOW)
}
