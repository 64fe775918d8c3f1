//! What the application of a device decides where the device is made.
use crate::exchange::InputStatus;
use diagnosis::Diagnoses;

/// What a relation of a device begins with: what its application says, which are its options and the statuses that it gave to
/// its inputs, and the time.
#[derive(Clone, Copy)]
pub struct Application<'a> {
    /// The options.
    pub options: &'a DeviceOptions,
    /// Whether the application runs (`true`) or is stopped.
    pub is_running: bool,
    /// The statuses.
    pub statuses: &'a [InputStatus],
    /// The units since the start of the device.
    pub units: u64,
    /// The diagnoses that exist.
    pub diagnoses: &'a Diagnoses,
    /// How many relations the device had before, modulo 14,336.
    pub made: u16,
}

/// The options of a device. The default is a device that decides everything by itself.
#[derive(Clone, Copy, Debug, PartialEq, Eq)]
pub struct DeviceOptions {
    /// The smallest interval of cyclic frames, SendClockFactor times ReductionRatio, in units of 31.25 microseconds: 1 to
    /// 65,536. A Connect that asks for a smaller one is refused. 0 is as 1.
    pub smallest_interval: u32,
    /// Whether the IOPS of a submodule with at least one octet of input is bad until its first input of the relation is
    /// given.
    pub inputs_begin_bad: bool,
    /// Whether the application says when it is ready: ApplicationReady is sent then, and not with the answer to PrmEnd.
    pub ready_by_application: bool,
    /// Whether a relation is held by its own controller alone. A Connect is refused whose CMInitiatorMacAdd is not the source
    /// MAC address of its frame, and only calls from that MAC address and that IP address restart the activity timer.
    pub only_own_controller: bool,
    /// Whether parameter records that are written while data is exchanged are passed on and not kept: they take no place among
    /// the 64 records of a relation.
    pub records_passed_on: bool,
    /// Whether the numbers that a device gives itself in a relation go round, and from which on: the FrameID of outputs, where
    /// the Connect leaves the choice to the device, and the endpoint of its alarms. Each relation has the next of 14,336, so
    /// that a late frame of an earlier one is refused. A host that counts its starts begins with another number at each.
    pub numbers_from: Option<u16>,
    /// Whether the answers to Read Implicit are not stored. Any station may call it, and the device stores the answers of four
    /// activities only. With this option a Read Implicit takes none of these places: each one is handled again, also a repeat.
    pub reads_not_kept: bool,
    /// Whether a Read or a Write within the relation takes the place of a Read Implicit of which the application is asked. That
    /// one is refused as busy then. Without this option the later call is refused as busy, whichever it is.
    pub asks_own_first: bool,
}

impl Default for DeviceOptions {
    ghost use Rattle.std.specs.Prelude.{◌≡◌};
    ghost use Rattle.relations.specs.Options.{default_options};

    ghost is_default = { λ options. options ≡ default_options };

    /// Any interval is accepted, inputs begin good, the device is ready as soon as its parameters have ended, any station may
    /// hold a relation, each record is kept, the numbers of a relation are always the first ones, each answer is stored, and
    /// what is asked of the application is asked until it is answered.
    fn default() -> DeviceOptions {
        DeviceOptions {
            smallest_interval: 1,
            inputs_begin_bad: false,
            ready_by_application: false,
            only_own_controller: false,
            records_passed_on: false,
            numbers_from: None,
            reads_not_kept: false,
            asks_own_first: false,
        }
    }
}
