//! A device whose numbers go round, and the frames of an earlier relation.
ghost use Rattle.strangers_law.specs.Earlier.{LateAlarmsAreRefused, LateOutputsAreRefused, NumbersDiffer, StayNumbered};

/// What a device whose numbers go round (`DeviceOptions::numbers_from`) does with late frames of an earlier relation, which its
/// controller sent, or the network delayed, until the device has a later one: of the same controller or of another, with the same
/// endpoints there. Any events may be between the two relations. These are laws of the machine by which each step of a device is
/// specified; the function has no code.
pub fn later_relations_refuse_earlier_frames()
    // Two relations with fewer than 14,336 made from one to the other have different numbers: the endpoints of their alarms at the device,
    // and the FrameIDs of their outputs, if both Connects leave the choice to the device.
    ensures numbers { NumbersDiffer }
    // An alarm frame of the earlier relation belongs to no later one by its octets, and leaves it as it was: no alarm is confirmed by it.
    ensures alarms { LateAlarmsAreRefused }
    // A cyclic frame of it does so too, if both Connects leave the choice to the device: no output changes.
    ensures outputs { LateOutputsAreRefused }
    // The premise holds in each state of a device after any events since its start.
    ensures numbered { StayNumbered }
{}
