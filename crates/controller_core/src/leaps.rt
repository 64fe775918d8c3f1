//! Several units of time at once.
ghost use Rattle.std.specs.Prelude.{◌≡◌, ◌+◌, ◌<◌, ◌≤◌};
ghost use Rattle.frame_codec.specs.Outbox.{boxed};
ghost use Rattle.controller_core.specs.declared.stored.state.State.TheVariants.{Exchanging};
ghost use Rattle.controller_core.specs.Leaps.{LeapsAreTicks, NoneEnds, NoneSends, OnlyTheLastEnds, OnlyTheLastSends, access_due_in, exchange_due_in, live_due_in, patience_due_in, request_due_in, ticks_of};

use crate::Controller;
use crate::stored::{SECOND, counter_later, waited_later};
use frame_codec::Outbox;
use pn_alarms::NEVER;

impl Controller {
    /// The number of units up to and including the next one with which something is sent, or the controller ends.
    /// 4,294,967,295 if no unit ever does any of these.
    pub fn due(&self) -> u32
        ensures value { result ≡ live_due_in self.now.live }
        ensures some { 0 < result }
    {
        self.patience_due_in()
            .min(self.request_due_in().min(self.exchange_due_in()))
    }

    // The number of units up to and including the next one with which the patience of its phase ends.
    fn patience_due_in(&self) -> u32
        ensures value { result ≡ patience_due_in self.now.live }
        ensures some { 0 < result }
    {
        if self.left == 0 { NEVER } else { self.left }
    }

    // The number of units up to and including the next one with which the request is sent again.
    fn request_due_in(&self) -> u32
        ensures value { result ≡ request_due_in self.now.live }
        ensures some { 0 < result }
    {
        if self.asked.is_some() {
            SECOND - self.waited
        } else {
            NEVER
        }
    }

    // The same of the request beside the exchange, or of the turn of a place that begins with it.
    fn access_due_in(&self) -> u32
        ensures value { result ≡ access_due_in self.now.live }
        ensures some { 0 < result }
    {
        if !self.access.is_free() || self.can_begin() {
            SECOND - self.waited
        } else {
            NEVER
        }
    }

    // The number of units up to and including the next one with which the relation sends a frame or ends.
    fn exchange_due_in(&self) -> u32
        ensures value { result ≡ exchange_due_in self.now.live }
        ensures some { 0 < result }
    {
        if self.stands {
            self.access_due_in().min(
                self.exchange
                    .due_in()
                    .min(self.alarms.due_in())
                    .min(self.low_alarms.due_in()),
            )
        } else {
            NEVER
        }
    }

    /// Lets `units` units of 31.25 microseconds pass at once, at most as many as `due` returns: clears the outbox, and
    /// appends the frames to be sent. It has the same effect as that many Tick events, one by one.
    pub fn elapse(&mut self, units: u32, outbox: &mut Outbox)
        requires { units ≤ live_due_in self.old.live }
        // The controller and the frames are those after that many Tick events. Only the last of them may send, or end the
        // controller.
        ensures state { self.new ≡ (ticks_of units self.old).controller }
        ensures frames { boxed outbox.new ≡ (ticks_of units self.old).frames }
        ensures last { OnlyTheLastSends units self.old }
        ensures ends { OnlyTheLastEnds units self.old }
        // No time begins an exchange of data.
        ensures exchanging { self.new.live.phase ≡ Exchanging → self.old.live.phase ≡ Exchanging }
    {
        outbox.clear();
        if units == 0 {
            return;
        }
        self.leap(units - 1);
        self.tick(outbox)
    }

    /// Lets units of 31.25 microseconds pass at once, fewer than `due` returns: with none of them is anything sent, and the
    /// controller does not end. It has the same effect as that many Tick events, one by one.
    #[inline(always)]
    pub fn leap(&mut self, units: u32)
        requires { units < live_due_in self.old.live }
        ensures state { self.new ≡ (ticks_of units self.old).controller }
        ensures none { NoneSends units self.old }
        ensures phase { NoneEnds units self.old }
        // What is due comes nearer by at most these units.
        ensures due { live_due_in self.old.live ≤ units + live_due_in self.new.live }
    {
        self.units = counter_later(self.units, units);
        self.waited = waited_later(self.waited, units);
        self.left = self.left.saturating_sub(units);
        if !self.stands {
            return;
        }
        self.exchange.pass(units);
        self.alarms.pass(units);
        self.low_alarms.pass(units);
    }
}

/// However a number of units is divided into leaps, the controller and the frames, in order, are those of that many Tick
/// events. This is a law of the definitions that specify `Controller::elapse`; the function has no code.
pub fn leaps_are_ticks()
    ensures { LeapsAreTicks }
{}
