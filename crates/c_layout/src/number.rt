//! What the libraries for C return. `include/nandutable_numbers.h` gives each number a name and a text.

/// The version of the header, or the size of what lies in the memory of the host, is not that of the library.
pub const BAD_ABI: u32 = 2;

/// The memory for a device or a controller is too small.
pub const SMALL_ROOM: u32 = 3;

/// A count of a station is greater than its list can hold.
pub const BAD_STATION: u32 = 4;

/// Work of the step before was not fetched yet.
pub const HAS_WORK: u32 = 7;

/// A sector or a value has another number of octets.
pub const BAD_LENGTH: u32 = 8;

/// Nothing that was asked for is plugged there.
pub const NO_SLOT: u32 = 9;

/// There is no such operation.
pub const UNKNOWN: u32 = 10;

/// No parameter record has this number.
pub const NO_RECORD: u32 = 15;

/// A plan is not valid, or the ARUUID is zero.
pub const BAD_PLAN: u32 = 16;

/// The MAC address of a station is that of a group.
pub const BAD_MAC: u32 = 18;

/// A module is in a slot after 15, or two are in one slot.
pub const BAD_SLOT: u32 = 19;

/// A submodule is in a subslot outside 1 to 36,863, or two of a module are in one subslot.
pub const BAD_SUBSLOT: u32 = 20;

/// A submodule has more data than a cyclic frame can carry.
pub const BAD_DATA: u32 = 21;

/// A parameter record is not in its range, or two of a submodule have one index.
pub const BAD_PARAMETER: u32 = 22;

/// The smallest interval of a station is more than 65,536 units.
pub const BAD_OPTION: u32 = 23;

/// No cyclic frame with data of this submodule was accepted.
pub const NO_FRAME: u32 = 24;

/// The device refused what its application said; nothing changed.
pub const REFUSED: u32 = 44;

/// No place of the relation has this number.
pub const NO_PLACE: u32 = 45;

/// A record that the application answers is not in its range, or is there twice.
pub const BAD_RECORD: u32 = 46;

/// Nothing is asked of the application.
pub const NOT_ASKED: u32 = 47;

/// The number of a fault of a catalogue or a plan is that of the fault, plus this.
pub const PLAN_FAULT: u32 = 32;
