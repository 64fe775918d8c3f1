//! The destinations of the messages of a controller.
ghost use Rattle.std.specs.List.{AllByRecursion};
ghost use Rattle.pn_values.specs.declared.mac.Mac.{Mac};
ghost use Rattle.controller_messages.specs.declared.setup.Setup.{Setup};
ghost use Rattle.controller_core.specs.declared.stored.event.Event.{Event};
ghost use Rattle.controller_core.specs.Machine.{first, turn_of};
ghost use Rattle.controller_core.specs.stored.State.{Live};
ghost use Rattle.end_laws.specs.hearing.Stations.{IsSetup};
ghost use Rattle.end_laws.specs.sending.Addressed.{IsAimed, IsAimedAt, IsEventFrom};

use crate::turns_are_of_a_kind;
use block_codec::blocks_are_read;

/// Each message of a controller goes to a station, whatever frames of data and alarms it hears. These are laws of the
/// definitions.
pub fn messages_are_addressed()
    // At the start a controller has a valid address of the station it sends to.
    ensures first { (setup : Setup) → IsSetup setup → IsAimed (first setup.plan) }
    // If its calls come from one station, this stays so after each event, and each message goes to a station: the
    // response to ApplicationReady goes to the station that calls.
    ensures next { (mac : Mac) (setup : Setup) (live : Live) (event : Event) → IsSetup setup → IsAimed live → IsEventFrom mac setup event
        → IsAimed (turn_of setup live event).live × AllByRecursion (IsAimedAt mac) (turn_of setup live event).sent }
{
    blocks_are_read();
    turns_are_of_a_kind();
}
