//! The cyclic frames of a controller.
ghost use Rattle.std.specs.Prelude.{◌≡◌, [], ℕ, true};
ghost use Rattle.arrayvec.specs.ArrayVec.{ArrayVec};
ghost use Rattle.frame_codec.specs.Outbox.{boxed};
ghost use Rattle.controller_core.specs.declared.stored.event.Event.TheVariants.{Frame, Tick};
ghost use Rattle.field_words.specs.Cyclic.{IsAcceptable};
ghost use Rattle.end_laws.specs.cyclic.Controller.{IsNoneFor, IsSized, accepted_in, consumer_in, cycle_in, provider_in};
ghost use Rattle.end_laws.specs.cyclic.Ends.{AreProvided, got_at};

use controller_core::{Controller, Event};
use frame_codec::{Outbox, frames_are_read};

/// A step of a controller (`Controller::step`), whatever was done to the controller before.
pub fn cyclic_controller(controller: &mut Controller, event: &Event, outbox: &mut Outbox)
    // A frame that is acceptable in the relation, if that is established, is accepted: the places that are read, DataStatus and the
    // counter are those of the frame from then on, the data hold time begins again, nothing else changes, and nothing is sent.
    ensures accepts { (frame : ArrayVec ℕ) → controller.old.live.stands ≡ true → event.now ≡ Frame frame
        → IsAcceptable (consumer_in controller.old) frame.items → controller.new ≡ accepted_in frame.items controller.old }
    ensures silent { (frame : ArrayVec ℕ) → controller.old.live.stands ≡ true → event.now ≡ Frame frame
        → IsAcceptable (consumer_in controller.old) frame.items → boxed outbox.new ≡ [] }
    // Any other event, any other frame among them, leaves what was received, as long as the relation is established.
    ensures leaves { IsNoneFor controller.old event.now → controller.new.live.stands ≡ true
        → got_at controller.new.live.cyclic ≡ got_at controller.old.live.cyclic }
    // Each cyclic frame that is sent with a unit of time has the octets of the relation, a CycleCounter that counts the units since the
    // controller was made, and DataStatus of a primary provider that runs, has valid data, and has no problem.
    ensures sends { IsSized controller.old → event.now ≡ Tick
        → AreProvided (provider_in controller.old) (cycle_in controller.old) (boxed outbox.new) }
{
    frames_are_read();
    controller.step(event, outbox);
}
