//! The alarms that are accepted.
ghost use Rattle.diagnosis.specs.Taken.{AreAllTaken, AreTakenInOrder, LackAtMostTheLast};

/// The alarms of one priority that are accepted over any moves: any list of raises, of units that pass at either end, of
/// deliveries of the data that either end ever sent, in any order and each any number of times, and of ACKs with any
/// numbers. Repeats apart, no more AlarmAcks are sent than alarms were accepted. This is a law of the definitions by which the calls of `DeviceAlarms` and
/// `ControllerAlarms`, and of `Sender` and `Receiver` within them, are specified. No code is involved, so it needs no
/// memory.
pub fn alarms_are_taken_in_order()
    // If at most 32,768 alarms are raised, the accepted alarms are a prefix of the raised ones.
    ensures prefix { AreTakenInOrder }
    // If at most 32,768 alarms are raised, at most the last of them is not accepted.
    ensures last { LackAtMostTheLast }
    // If at most 32,768 alarms are raised and none is unconfirmed, all of them are accepted.
    ensures all { AreAllTaken }
{}
