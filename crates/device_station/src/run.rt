//! Runs of a station.
ghost use Rattle.std.specs.Prelude.{◌≡◌, ◌++◌, map};
ghost use Rattle.device_station.specs.Runs.{StationHandsOn, StationRuns};

use crate::{IoStation, StationOutbox};
use device_core::{Event, Sink, steps_make_runs};
use flash_model::Flash;
use frame_codec::Frame;

impl<F: Flash<S>, const S: usize> IoStation<F, S> {
    /// Handles the events in order, and hands on the frames, up to the event in which power is lost.
    pub fn run<K: Sink>(&mut self, events: &[Event<'_>], sink: &mut K)
        // The device of the run is that of a run of the device alone over the same events, with the Neighbour events and the
        // joined calls put in where the services gave them, and with all that the contract of `Device::run` says; its frames
        // are that run's, in order. The frames of the services follow those of the device in each step.
        ensures { StationRuns F.Flash self.old events.now (K.taken sink.old) (K.taken sink.new) self.new }
    {
        steps_make_runs::<F, S>();
        // The stored settings are what a restart finds, also before the first event.
        let _ = self.device.stored();
        let mut outbox = StationOutbox::new();
        for event in events {
            self.take(event, &mut outbox, sink);
        }
    }

    /// One event of a run.
    fn take<K: Sink>(&mut self, event: &Event<'_>, outbox: &mut StationOutbox, sink: &mut K)
        ensures { StationHandsOn F.Flash self.old event.now (K.taken sink.old) (K.taken sink.new) self.new }
    {
        let _ = self.step(event, outbox);
        // A step in which power was lost has sent nothing that anybody can rely on.
        if !self.device.is_lost() {
            hand_on(outbox.device(), sink);
            hand_on(outbox.services(), sink);
        }
    }
}

/// Hands on frames, in order.
fn hand_on<K: Sink>(frames: &[Frame], sink: &mut K)
    ensures { K.taken sink.new ≡ K.taken sink.old ++ map (λ frame. frame.items) frames.now }
{
    for frame in frames {
        sink.take(frame);
    }
}
