//! The laws of a controller.
ghost use Rattle.end_laws.specs.turns.Alarms.{AreAllTaken, AreTakenInOrder, LackAtMostTheLast, ListsWhatIsReported, ShowsTheLast};
ghost use Rattle.end_laws.specs.turns.Again.{AsksEachSecond};
ghost use Rattle.end_laws.specs.turns.Belongs.{AreNumberedApart, AreNumberedInOrder, AreNumberedLater, DropsAnswersToOthers, WaitsForWhatIsSent};
ghost use Rattle.end_laws.specs.turns.Causes.{EachCauseEnds, EachEndHasItsCause, EachRunHasItsCause};
ghost use Rattle.end_laws.specs.turns.Ended.{CountsUnits, DropsWhatComes, IsSilent, KeepsItsCause, RepeatsItsRelease};
ghost use Rattle.end_laws.specs.turns.Inputs.{ShowsNothingWithout, ShowsWhatCame};
ghost use Rattle.end_laws.specs.turns.Patience.{EndsInTime, HasTimeLeft, NoneLastsLonger};

/// What remains of a controller that ended, for any events after its end. These are laws of the definition that
/// specifies `Controller::step`; the function has no code.
pub fn ended_is_kept()
    // For any events, an ended controller stays ended, for the same cause.
    ensures cause { KeepsItsCause }
    // Each frame that an ended controller sends is its active Release, octet by octet; without an active Release it
    // sends none.
    ensures release { RepeatsItsRelease }
    // A controller that ended for another cause than modules that differ, a stop by the application, a state that lasted too
    // long or, if its plan says so, a refused record sends nothing.
    ensures silent { IsSilent }
    // For an event other than a unit of time no frame is sent, also if the application asks for a record. It changes
    // nothing, except that the response to the active Release ends that, and that an output is stored.
    ensures dropped { DropsWhatComes }
    // A unit is counted, and the active Release is sent when the units since it was last sent reach 32,000.
    ensures units { CountsUnits }
{}

/// How long a state of a controller lasts, of any plan and with any options, over any events. These are laws of the definition
/// that specifies `Controller::step`; the function has no code.
pub fn no_state_outlasts_its_patience()
    // In a state with a patience, the units that it may still last are at least 1, and at most its patience.
    ensures left { HasTimeLeft }
    // For any events after which it is still in the same state, fewer units pass than it may still last, so fewer than its
    // patience. Each state but three has a patience if the options set one: looking for the station, exchanging data, the end.
    ensures lasts { NoneLastsLonger }
    // The last unit of the patience ends the controller for `Cause::NoProgress`. From the Connect on it informs the device by a
    // Release, which is active from then on.
    ensures ends { EndsInTime }
{}

/// The alarms of either priority of a relation between a device's end, by the definition that specifies `DeviceAlarms`, and a
/// controller, over a network that may lose, repeat or reorder frames, and bring ACKs of any number. These are laws of the
/// definitions; the function has no code.
pub fn alarms_are_taken_in_order()
    // While at most 32,768 alarms are raised, the alarms that the controller accepted are a prefix of those that were
    // raised.
    ensures prefix { AreTakenInOrder }
    // While at most 32,768 alarms are raised, at most the last one is missing.
    ensures last { LackAtMostTheLast }
    // While at most 32,768 alarms are raised, none is missing if no alarm is unconfirmed.
    ensures all { AreAllTaken }
    // The controller reports the last alarm that it accepted.
    ensures shown { ShowsTheLast }
    // While its relation is established, its list of diagnoses is what the accepted changes report.
    ensures listed { ListsWhatIsReported }
{
    diagnosis::alarms_are_taken_in_order();
}

/// An answer belongs to its request, of a controller of any plan and with any options. These are laws of the definition that
/// specifies `Controller::step`; the function has no code.
pub fn answers_belong_to_their_requests()
    // In any state, a frame changes nothing, and nothing is sent, if it is a response, a reject or a fault of another activity or
    // with another number than the call that waits, or if no call waits: for Connect, each Write, PrmEnd, the Release, the
    // Reads and Writes of the application, and the Writes and PrmEnd after a plug. The same holds for an answer by DCP with another service or another Xid than the
    // request that waits.
    ensures dropped { DropsAnswersToOthers }
    // Each call that a controller sends, with any event after any others, is the call that waits from then on.
    ensures waiting { WaitsForWhatIsSent }
    // Two calls of a start-up with the same number are the same call.
    ensures apart { AreNumberedApart }
    // Below 2^32 calls, each call of the application and each after a plug has a greater number than those before it, also those of
    // the start-up, and a Release has a greater number than the call that was active before it.
    ensures later { AreNumberedLater }
    // The call after a call of the start-up has the next number: the one that follows, the same one again after it was refused as
    // busy, or the Release.
    ensures ordered { AreNumberedInOrder }
{}

/// Why a controller ends, of any plan and with any options. These are laws of the definition that specifies
/// `Controller::step`; the function has no code.
pub fn each_end_has_its_cause()
    // The event with which a controller ends, in any state, is that of its cause: 1, an answer to its Identify from a station with
    // the plan's name and another VendorID or DeviceID; 2, a refusal of its address, or of the call that waits, by a response, a
    // reject or a fault; 3, a response to its Connect that lists a wrong module; 4, the unit that completes the data hold time; 5,
    // an ERR of its relation; 6, the unit with which an AlarmAck is given up; 7, a stop by the application; 8, the last unit of
    // the patience. It is reported to the device: causes 4 and 6 by one ERR, with the reason; causes 3, 7 and 8, from the
    // Connect on, by one Release; cause 2 by a Release only if the plan says so. Nothing else is sent.
    ensures ends { EachEndHasItsCause }
    // Each of these events, except a refusal, ends a controller that had not ended for its cause, in any state.
    ensures causes { EachCauseEnds }
    // For any events of a new controller, at the end of which it has ended: one of them ended it, and is that of its cause.
    ensures run { EachRunHasItsCause }
{}

/// A controller asks again until it is answered, of any plan and with any options. This is a law of the definition that specifies
/// `Controller::step`; the function has no code.
pub fn requests_are_repeated()
    // From when a request of the start-up or a Release was sent on, and as long as it is active, for any events between: a request
    // is sent with each 32,000th unit, and with no other unit. It is the one that is active.
    ensures each { AsksEachSecond }
{}

/// The inputs that a controller shows, of any plan and with any options, over any events. These are laws of the definition that
/// specifies `Controller::step`; the function has no code.
pub fn inputs_are_received()
    // All inputs are zeros, or all of them come from one frame that it received while its relation was established: a cyclic frame
    // of the station that answered its Connect, under the FrameID of the plan's inputs, newer than the one accepted before it.
    ensures one { ShowsWhatCame }
    // Without an established relation, before the answer to its Connect and after its end, they are zeros.
    ensures none { ShowsNothingWithout }
{}
