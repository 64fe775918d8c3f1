//! What a device exchanges over any events.
ghost use Rattle.end_laws.specs.device.Exchange.{EndsWithoutData, SendsEachInterval, SendsGoodWhereOpen, SendsTheLastGiven};

use relations::exchange_is_kept;

/// How a device exchanges data over any list of events, frames and calls of anybody, pulls and plugs among them, whatever its
/// flash does: the laws of `exchange_is_kept` over its own events, and what is due as what is sent. These are laws of the
/// machine by which each step of a device is specified; the function has no code.
pub fn device_exchange_is_kept()
    // From the answer to a Connect on, a frame of inputs is sent with each unit whose number is a multiple of the interval, and
    // with no other event, for any events after which there is a relation.
    ensures interval { SendsEachInterval }
    // Each frame of inputs that is sent has for each input of the relation the value that was given last since the answer to the
    // Connect, and since something was pulled or plugged there last, and zeros if none was given.
    ensures given { SendsTheLastGiven }
    // A frame of inputs says only of places that they are good, by IOPS or IOCS, which are in no row of what differs when it is sent,
    // and at which nothing was pulled or plugged after which they were not released.
    ensures open { SendsGoodWhereOpen }
    // While data is exchanged and no cyclic frame is accepted, counted from the begin of the exchange or the last accepted
    // frame: a unit sends the ERR for data hold exactly from the one on that completes the data hold time, and ends the relation.
    ensures hold { EndsWithoutData }
{
    exchange_is_kept();
}
