//! What holds for relations over many events.
ghost use Rattle.relations.specs.Runs.{StandsUntil, EndsAt, IsByApplication, IsByPrmEnd, IsByReady, IsDueEachSecond, IsDueWhateverComes, IsGivenUp};
ghost use Rattle.relations.specs.Runs.{IsHeldByItsOwn, IsHeldFor};

/// The timers over any number of units without other events, and ApplicationReady with other events between. These are
/// laws of the definitions that specify `Relation::elapse`; the function has no code.
pub fn time_is_kept()
    // Before data is exchanged, a relation that receives nothing exists until the last unit of its activity timer, which
    // ends it with ERR.
    ensures stands { StandsUntil }
    ensures ends { EndsAt }
    // While a relation waits for the answer to ApplicationReady and receives nothing, ApplicationReady is sent again with
    // each 32,000th unit since it was sent, and with no other unit, as long as the activity timer is not over.
    ensures again { IsDueEachSecond }
    // While a relation waits for the answer to ApplicationReady, ApplicationReady is due again with each 32,000th unit
    // since it was sent, and with no other unit, for any calls and frames between.
    ensures whatever { IsDueWhateverComes }
    // With the option `only_own_controller`, the activity timer has run for each unit since the last call of its own controller,
    // for any calls of other stations between.
    ensures own { IsHeldByItsOwn }
    // While data is exchanged, a relation that receives nothing exists until the last unit of its data hold time, which
    // ends it with ERR, if no alarm is given up before.
    ensures hold { IsHeldFor }
    // While data is exchanged and nothing is received, an alarm without an ACK that is given up before the data hold time
    // is over ends the relation with ERR.
    ensures spent { IsGivenUp }
{}

/// How a relation moves from phase to phase. This is a law of the definition that specifies each call of a relation;
/// the function has no code.
pub fn phases_are_kept()
    // Only an accepted PrmEnd moves a relation from Started to Awaiting, or, if the application says when it is ready, to
    // Preparing.
    ensures ready { IsByPrmEnd }
    // Only the application moves a relation from Preparing to Awaiting: PrmEnd is refused there.
    ensures application { IsByApplication }
    // Only the answer that confirms ApplicationReady moves a relation from Awaiting to Exchanging.
    ensures exchanging { IsByReady }
{}
