//! The parts of a plan.
use crate::identity::ControllerIdentity;
use arrayvec::ArrayVec;
use pn_values::{IpSuite, Mac, Real, StationName};

/// The device: its name and IP suite, and the VendorID and DeviceID that it must have.
#[derive(Drop)]
pub struct Station {
    /// The NameOfStation.
    pub name: StationName,
    pub suite: IpSuite,
    pub vendor_id: u16,
    pub device_id: u16,
}

/// The controller.
#[derive(Drop)]
pub struct Controller {
    /// Its NameOfStation.
    pub name: StationName,
    /// Its Ethernet address, whose first octet is even.
    pub mac: Mac,
    /// Its IP address.
    pub address: [u8; 4],
}

/// How often cyclic frames are sent, and for how long their values are valid.
#[derive(Clone, Copy)]
pub struct Times {
    /// SendClockFactor, 1 to 128, in units of 31.25 microseconds.
    pub send_clock_factor: u16,
    /// ReductionRatio, 1 to 512.
    pub reduction_ratio: u16,
    /// DataHoldFactor, 1 to 7,680.
    pub data_hold_factor: u16,
}

/// A parameter record that is written to a submodule at start-up.
#[derive(Default, Drop)]
pub struct PlanRecord {
    /// SlotNumber.
    pub slot: u16,
    /// SubslotNumber.
    pub subslot: u16,
    /// Index.
    pub index: u16,
    /// The octets that are written.
    pub data: ArrayVec<u8, 64>,
}

/// The parts of a plan.
#[derive(Drop)]
pub struct Parts {
    pub station: Station,
    pub controller: Controller,
    pub times: Times,
    /// The modules that are plugged in the device, in the order of their slots, and the submodules of each in the order of their subslots, each
    /// with its parameter records.
    pub real: Real,
    /// The records, in the order in which they are written.
    pub records: ArrayVec<PlanRecord, 32>,
    /// Whether the start-up goes on after a record that the device refused.
    pub continue_on_refused_record: bool,
    /// Whether the controller releases the relation when it ends because the device refused a record.
    pub release_on_refused_record: bool,
    /// Whether a Write carries several records (MultipleWrite).
    pub multiple_write: bool,
    /// Whether the controller writes the records of a submodule again after it was plugged while data is exchanged.
    pub parameters_after_plug: bool,
    /// Whether the controller releases a relation that the device holds already: its Connect is refused with State conflict.
    pub persistent_start: bool,
    /// What the controller says of itself to tools. With it the controller is a DCP station, else tools do not see it.
    pub identity: Option<ControllerIdentity>,
}
