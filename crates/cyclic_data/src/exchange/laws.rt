//! What holds for one end over many events.
ghost use Rattle.cyclic_data.specs.exchange.Runs.{AreOfTheLast, IsDueEachInterval, IsHeldSoLong};

/// How data is exchanged over any list of events. These are laws of the definitions that specify `CyclicExchange`; the
/// function has no code.
pub fn cyclic_data_is_kept()
    // A frame is due each interval, counted from the opening, for any events.
    ensures interval { IsDueEachInterval }
    // For any events, the content of each place is that of the last accepted frame, and is unchanged if there was none.
    // The end of the exchange counts as a frame of zeros.
    ensures last { AreOfTheLast }
    // Counted from its start, the data hold time is over from the unit on that completes it, and not before, unless
    // meanwhile a frame is accepted, or the exchange begins again or ends.
    ensures hold { IsHeldSoLong }
{}
