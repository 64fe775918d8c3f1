// Several units of time at once.
ghost use Rattle.std.specs.Prelude.{◌≡◌, ◌+◌, ◌<◌, ◌≤◌};
ghost use Rattle.frame_codec.specs.Outbox.{boxed};
ghost use Rattle.device_core.specs.State.{units_after};
ghost use Rattle.device_core.specs.Leaps.{LeapsAreTicks, NoneSends, OnlyTheLastSends, lamp_off_in, live_due_in, ticks_of};

use crate::{Device, Note};
use flash_model::Flash;
use frame_codec::Outbox;
use pn_alarms::NEVER;

impl<F: Flash<S>, const S: usize> Device<F, S> {
    /// The number of units up to and including the next one with which something is sent, an alarm is given up, the relation
    /// ends, what is asked of the application has no answer in time, or the lamp goes off. 4,294,967,295 if no unit ever does any of these.
    pub fn due(&self) -> u32
        ensures value { result ≡ live_due_in self.now.live }
        ensures some { 0 < result }
    {
        let due = self.relation.due_in().min(self.asked.due_in());
        lamp_off_in(self.lamp).min(due)
    }

    /// Lets `units` units of 31.25 microseconds pass at once, at most as many as `due` returns, and replaces the content
    /// of the outbox by the frames to be sent. It has the same effect as that many Tick events, one by one.
    #[tactic(auto, using(crate::proofs::Leaping::leap_device_to, crate::proofs::Leaping::leap_frames_to, crate::proofs::Leaping::leap_last_to))]
    pub fn elapse(&mut self, units: u32, outbox: &mut Outbox) -> Note
        requires { units ≤ live_due_in self.old.live }
        // The device and the frames are those after that many Tick events. Only the last of them may send.
        ensures device { self.new ≡ record self.old { live = (ticks_of units self.old.station self.old.live).live } }
        ensures frames { boxed outbox.new ≡ (ticks_of units self.old.station self.old.live).frames }
        ensures last { OnlyTheLastSends units self.old.station self.old.live }
        ensures note { result ≡ Note.Done }
    {
        outbox.clear(); // of what the event before sent
        if units == 0 {
            return Note::Done;
        }
        self.pass(units - 1);
        self.tick(outbox)
    }

    /// Lets units pass with which nothing is sent, and nothing ends: fewer than `due` returns.
    pub fn pass(&mut self, units: u32)
        requires { units < live_due_in self.old.live }
        ensures device { self.new ≡ record self.old { live = (ticks_of units self.old.station self.old.live).live } }
        ensures none { NoneSends units self.old.station self.old.live }
        // What is due comes nearer by these units, and by no more.
        ensures due { live_due_in self.old.live ≤ live_due_in self.new.live + units }
    {
        self.lamp = self.lamp.saturating_sub(units);
        self.units = units_later(self.units, units);
        self.relation.pass(units);
        self.asked.pass(units);
    }
}

// The units since the start, some units later.
pub(crate) fn units_later(units: u64, more: u32) -> u64
    ensures value { result ≡ units_after more units }
    ensures fits { units < 18446744073709551616 }
{
    units.wrapping_add(u64::from(more))
}

// The number of units up to and including the next one with which the lamp goes off, `NEVER` if it is off.
fn lamp_off_in(lamp: u32) -> u32
    ensures value { result ≡ lamp_off_in lamp }
    ensures some { 0 < result }
{
    if lamp == 0 { NEVER } else { lamp }
}

/// However a number of units is divided into leaps, the device and the frames, in order, are those of that many Tick
/// events. This is a law of the definitions that specify `Device::elapse`; the function has no code.
pub fn leaps_are_ticks()
    ensures { LeapsAreTicks }
{}
