// Runs of steps.
ghost use Rattle.std.specs.Prelude.{◌≡◌, ◌<◌, ◌-◌, ◌^◌, ◌++◌, true, false};
ghost use Rattle.device_frames.specs.Heard.{heard_of};
ghost use Rattle.device_core.specs.Faults.{RunGoesOn};
ghost use Rattle.device_core.specs.Steps.{HandsOn, Runs, IsExactRun, IsBehindCalls, TakesRoom};
ghost use Rattle.frame_codec.specs.Outbox.{boxed};

use crate::{Device, Event, Sink};
use flash_model::Flash;
use frame_codec::Outbox;

impl<F: Flash<S>, const S: usize> Device<F, S> {
    /// Handles the events in order, and hands on the frames, up to the event in which power is lost.
    pub fn run<K: Sink>(&mut self, events: &[Event<'_>], sink: &mut K)
        ensures runs { Runs F.Flash self.old events.now (K.taken sink.old) (K.taken sink.new) self.new }

        // If the failure counter of the flash, below 2^64 - 1, does not rise, the run is exactly the specified one. Over a
        // reliable flash with no failed commit it always is, the flash stays reliable, and no commit fails.
        ensures exact { F.failures self.new.flash ≡ F.failures self.old.flash → F.failures self.old.flash < 2 ^ 64 - 1 →
            IsExactRun self.old events.now (K.taken sink.old) (K.taken sink.new) self.new }
        ensures reliable { F.is_reliable self.old.flash → self.old.live.values.has_failed ≡ false →
            F.is_reliable self.new.flash × (self.new.live.values.has_failed ≡ false)
            × IsExactRun self.old events.now (K.taken sink.old) (K.taken sink.new) self.new }
        // For any flash faults, while there is power: each event goes on, and all its frames are handed on.
        ensures goes_on { self.new.live.values.is_lost ≡ false →
            RunGoesOn self.old events.now (K.taken sink.old) (K.taken sink.new) self.new }
        // Only calls change the stored answers: what `CallCache::look` says of repeated calls holds over the run. If no
        // commit failed, each accepted command used one of the remaining commits, and nothing else did.
        ensures calls { IsBehindCalls self.old.live.rest.calls self.new.live.rest.calls }
        ensures room { self.new.live.values.has_failed ≡ false → TakesRoom self.old events.now self.new }
    {
        // The stored settings are what a restart finds, also before the first event.
        let _ = &self.store;
        let mut outbox = Outbox::new();
        for event in events {
            self.take(event, &mut outbox, sink);
        }
    }

    // One event of a run.
    fn take<K: Sink>(&mut self, event: &Event<'_>, outbox: &mut Outbox, sink: &mut K)
        ensures steps { HandsOn F.Flash self.old (heard_of self.old.station.identity event.now) (K.taken sink.old)
            (K.taken sink.new) self.new }
        ensures reliable { F.is_reliable self.old.flash → self.old.live.values.has_failed ≡ false →
            F.is_reliable self.new.flash × (self.new.live.values.has_failed ≡ false) }
    {
        let _ = self.step(event, outbox);
        // A step in which power was lost has sent nothing that anybody can rely on.
        if !self.is_lost() {
            hand_on(outbox, sink);
        }
    }
}

// Hands on the frames in the outbox, in order.
fn hand_on<K: Sink>(outbox: &Outbox, sink: &mut K)
    ensures { K.taken sink.new ≡ K.taken sink.old ++ boxed outbox.now }
{
    for frame in outbox.as_slice() {
        sink.take(frame);
    }
}
