//! What holds for exchanges over many events.
ghost use Rattle.relations.specs.exchange.Runs.{AreOfTheLast, AreStillTheIocs, AreTheIops, AreTheLastGiven, IsDueEachInterval, IsHeldSoLong, RunsAsSaid};
ghost use Rattle.relations.specs.exchange.Shut.{AreConsumedWhereOpen, AreGoodWhereOpen};

use cyclic_data::cyclic_data_is_kept;

/// How data is exchanged over any list of events. These are laws of the definitions that specify `DataExchange`; the
/// function has no code. Pulls and plugs are among the events of the clauses `open` and `consumed` alone.
pub fn exchange_is_kept()
    // A frame of inputs is due each interval, counted from the answer to the Connect, for any events.
    ensures interval { IsDueEachInterval }
    // For any events, the outputs are those of the last accepted frame, and are unchanged if there was none.
    ensures last { AreOfTheLast }
    // For any events, the input of a submodule is the value that was given last since the answer to the Connect, and
    // zeros if none was given.
    ensures given { AreTheLastGiven }
    // For any events, the IOPS of a submodule is good exactly if the ModuleDiffBlock does not list it, if the application
    // did not say last that it is bad, and, if inputs begin bad, if it has no octets of data or an input was given.
    ensures iops { AreTheIops }
    // For any events, a frame of inputs says that the device runs exactly if its application said so last. What it said before
    // the Connect counts too.
    ensures run { RunsAsSaid }
    // For any events, the IOCS that are sent are those of the answer to the Connect.
    ensures iocs { AreStillTheIocs }
    // Counted from its start, the data hold time is over from the unit on that completes it, and not before, unless
    // meanwhile a frame is accepted, or the exchange begins again or ends.
    ensures hold { IsHeldSoLong }
    // While modules come and go, for any events, if the Connect expects each submodule once: the IOPS of a submodule is good only if
    // its place neither differs nor is touched.
    ensures open { AreGoodWhereOpen }
    // So is the IOCS of an output.
    ensures consumed { AreConsumedWhereOpen }
{
    cyclic_data_is_kept();
}
