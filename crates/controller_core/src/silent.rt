//! Events that send nothing, and after which nothing is due earlier: cyclic frames, and outputs that are set.
ghost use Rattle.std.specs.Prelude.{◌≡◌, ◌≤◌, ℕ, List, Ok, false, true};
ghost use Rattle.frame_codec.specs.Frame.{frame_of};
ghost use Rattle.frame_codec.specs.FrameId.{is_cyclic};
ghost use Rattle.frame_codec.specs.Meaning.{meaning_as};
ghost use Rattle.controller_core.specs.declared.stored.event.Event.TheVariants.{Frame, Give};
ghost use Rattle.controller_core.specs.Leaps.{live_due_in};
ghost use Rattle.controller_core.specs.Quiet.{IsRealTime, IsSilentStep};

use crate::Controller;
use frame_codec::{RealTimeFrame, is_cyclic, read_real_time};

impl Controller {
    /// Takes a cyclic frame to this controller, which is only read and not kept: it does what `step` does with the event of these octets,
    /// and sends nothing. Returns whether the octets are such a frame; if not, nothing changes.
    #[inline(never)]
    pub fn take_cyclic(&mut self, octets: &[u8]) -> bool
        ensures taken { result ≡ true → IsSilentStep self.old (Frame (record { items = octets.now })) self.new }
        ensures real_time { result ≡ true → IsRealTime octets.now }
        ensures left { result ≡ false → self.new ≡ self.old }
        ensures setup { self.new.setup ≡ self.old.setup }
        // It only puts off what is due.
        ensures due { live_due_in self.old.live ≤ live_due_in self.new.live }
    {
        match read_real_time(octets) {
            Some(frame) => self.take_real_time(&frame),
            None => false,
        }
    }

    // The same of a frame of EtherType 0x8892.
    #[inline(always)]
    fn take_real_time(&mut self, frame: &RealTimeFrame<'_>) -> bool
        ensures taken { (octets : List ℕ) → frame_of octets ≡ Ok (meaning_as frame.now) → result ≡ true →
            IsSilentStep self.old (Frame (record { items = octets })) self.new }
        ensures cyclic { result ≡ true → is_cyclic frame.now.frame_id ≡ true }
        ensures left { result ≡ false → self.new ≡ self.old }
        ensures setup { self.new.setup ≡ self.old.setup }
        ensures due { live_due_in self.old.live ≤ live_due_in self.new.live }
    {
        if !frame.destination.is(&self.setup.plan.controller().mac) {
            return false;
        }
        if !is_cyclic(frame.frame_id) {
            return false;
        }
        self.hear_cyclic(frame.source, frame.frame_id, frame.body);
        true
    }

    /// Sets the output of a submodule. It does what `step` does with that event, and sends nothing.
    #[inline(always)]
    pub fn take_output(&mut self, slot: u16, subslot: u16, value: &[u8])
        ensures given { IsSilentStep self.old (Give slot subslot (record { items = value.now })) self.new }
        // It changes nothing that is due.
        ensures due { live_due_in self.new.live ≡ live_due_in self.old.live }
    {
        self.give(slot, subslot, value);
    }
}
