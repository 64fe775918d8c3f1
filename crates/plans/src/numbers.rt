//! The numbers that the Connect of every plan has (IEC 61158-6-10, 5.2.4). The controller uses them too.

/// SessionKey of the relation.
pub const SESSION_KEY: u16 = 1;

/// CMInitiatorActivityTimeoutFactor: the device waits 60 s for the next call.
pub(crate) const ACTIVITY_TIMEOUT_FACTOR: u16 = 600;

/// The FrameID of inputs.
pub const INPUT_FRAME_ID: u16 = 0xC001;

/// IOCRTagHeader and TagHeaderHigh: VLAN priority 6.
pub const TAG_HIGH: u16 = 0xC000;

/// TagHeaderLow: VLAN priority 5.
pub(crate) const TAG_LOW: u16 = 0xA000;

/// RTATimeoutFactor: an alarm that was not answered is sent again after 100 ms.
pub const RTA_TIMEOUT_FACTOR: u16 = 1;

/// RTARetries: an alarm is sent again at most that many times.
pub const RTA_RETRIES: u16 = 3;

/// LocalAlarmReference of the controller.
pub const ALARM_REFERENCE: u16 = 1;
