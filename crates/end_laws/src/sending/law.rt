//! The laws of what a controller sends.
ghost use Rattle.std.specs.Prelude.{◌≡◌, map};
ghost use Rattle.std.specs.List.{AllByRecursion};
ghost use Rattle.controller_messages.specs.declared.setup.Setup.{Setup};
ghost use Rattle.controller_messages.specs.Sent.{bytes_of};
ghost use Rattle.controller_core.specs.declared.stored.event.Event.{Event};
ghost use Rattle.controller_core.specs.Machine.{first, step_of, turn_of};
ghost use Rattle.controller_core.specs.stored.State.{Controlling, Live};
ghost use Rattle.end_laws.specs.hearing.Stations.{IsSetup};
ghost use Rattle.end_laws.specs.sending.Messages.{CanBeSent};
ghost use Rattle.end_laws.specs.sending.Sized.{IsLive, IsSizedEvent};

use crate::turns_are_of_a_kind;
use block_codec::blocks_are_read;

/// Each frame that a controller sends is one of its messages. This is a law of the definitions.
pub fn frames_are_messages()
    // The frames of a step are the octets of the messages of its turn, one for one.
    ensures { (old : Controlling) (event : Event) → (step_of old event).frames
        ≡ map (bytes_of old.setup) (turn_of old.setup old.live event).sent }
{}

/// Each message of a controller can be sent, by the limits of its plan. These are laws of the definitions.
pub fn messages_can_be_sent()
    // The initial state of a controller with a plan has its sizes.
    ensures first { (setup : Setup) → IsSetup setup → IsLive (first setup.plan) }
    // If its state and what it hears have their sizes, its next state has too, and each message can be sent.
    ensures next { (setup : Setup) (live : Live) (event : Event) → IsSetup setup → IsLive live → IsSizedEvent setup event
        → IsLive (turn_of setup live event).live × AllByRecursion (CanBeSent setup) (turn_of setup live event).sent }
{
    blocks_are_read();
    turns_are_of_a_kind();
}
