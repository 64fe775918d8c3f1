// Units of time while only the timers of an exchange run, as they nearly always do.
ghost use Rattle.std.specs.Prelude.{◌≡◌, ◌<◌, length};
ghost use Rattle.frame_codec.specs.Outbox.{boxed};
ghost use Rattle.device_core.specs.Leaps.{NoneSends, OnlyTheLastSends, live_due_in, ticks_of};
ghost use Rattle.device_core.specs.Steady.{IsSteadyAt, steady_at};

use crate::Device;
use crate::leaps::units_later;
use flash_model::Flash;
use frame_codec::Outbox;
use relations::Steady;

impl<F: Flash<S>, const S: usize> Device<F, S> {
    /// When the next units bring something, if only the timers of an exchange run, or if there is no relation. It is unknown if
    /// another timer runs: an alarm or ApplicationReady waits, something is asked of the application, or the lamp flashes.
    pub fn steady(&self) -> Steady
        ensures value { result ≡ steady_at self.now.live }
        ensures steady { 0 < result.inputs → IsSteadyAt result self.now.live }
        ensures due { 0 < result.inputs → live_due_in self.now.live ≡ result.inputs }
    {
        if self.lamp != 0 {
            return Steady::unknown();
        }
        match self.asked.question() {
            Some(_) => Steady::unknown(), // it is refused when it was asked for too long
            None => self.relation.steady(),
        }
    }

    /// Lets units of 31.25 microseconds pass with which nothing is due. It has the same effect as that many Tick events, one by
    /// one.
    #[inline(always)]
    pub fn pass_steady(&mut self, units: u32, steady: &mut Steady)
        requires steady { IsSteadyAt steady.old self.old.live }
        requires few { units < steady.old.inputs }
        ensures device { self.new ≡ record self.old { live = (ticks_of units self.old.station self.old.live).live } }
        ensures none { NoneSends units self.old.station self.old.live }
        ensures steady { IsSteadyAt steady.new self.new.live }
        ensures due { live_due_in self.new.live ≡ steady.new.inputs }
        ensures before { live_due_in self.old.live ≡ steady.old.inputs }
    {
        self.units = units_later(self.units, units);
        self.relation.pass_steady(units, steady);
    }

    /// Lets the units pass up to and including the next one that brings inputs, replaces the content of the outbox by their frame,
    /// and says when the units after it bring something. It has the same effect as that many Tick events, one by one. Inputs must be
    /// due before the data hold time is over.
    #[inline(always)]
    pub fn send_steady(&mut self, steady: &mut Steady, outbox: &mut Outbox)
        requires steady { IsSteadyAt steady.old self.old.live }
        requires first { steady.old.inputs < steady.old.held }
        ensures device { self.new ≡ record self.old { live = (ticks_of steady.old.inputs self.old.station self.old.live).live } }
        ensures frames { boxed outbox.new ≡ (ticks_of steady.old.inputs self.old.station self.old.live).frames }
        ensures last { OnlyTheLastSends steady.old.inputs self.old.station self.old.live }
        ensures one { length (boxed outbox.new) ≡ 1 }
        ensures value { steady.new ≡ steady_at self.new.live }
        ensures steady { 0 < steady.new.inputs → IsSteadyAt steady.new self.new.live }
        ensures due { 0 < steady.new.inputs → live_due_in self.new.live ≡ steady.new.inputs }
    {
        outbox.clear(); // of what the event before sent
        self.units = units_later(self.units, steady.inputs);
        self.relation.send_steady(steady);
        let _ = self.send_inputs(outbox);
    }
}
