//! A controller and the frames of strangers.
ghost use Rattle.std.specs.Prelude.{◌≡◌, []};
ghost use Rattle.frame_codec.specs.Outbox.{boxed};
ghost use Rattle.strangers_law.specs.Controller.{AreAsWithout, IsStrangeTo, LeavesControllers};

use controller_core::{Controller, Event};
use frame_codec::Outbox;

/// What the frames of strangers do to a controller, in any state. These are laws of the machine by which each step of a controller is
/// specified; the function has no code.
pub fn strangers_leave_a_controller()
    // A frame that does not belong to the relation by its octets alone changes nothing of the controller, and nothing is sent.
    ensures left { LeavesControllers }
    // Any number of them among any events: the controller, and all that it sends, are those of the events without these frames.
    ensures without { AreAsWithout }
{}

/// A step of a controller (`Controller::step`), whatever was done to the controller before.
pub fn step_controller(controller: &mut Controller, event: &Event, outbox: &mut Outbox)
    // The frame of a stranger changes nothing, and nothing is sent.
    ensures left { IsStrangeTo controller.old event.now → controller.new ≡ controller.old }
    ensures silent { IsStrangeTo controller.old event.now → boxed outbox.new ≡ [] }
{
    strangers_leave_a_controller();
    controller.step(event, outbox);
}
