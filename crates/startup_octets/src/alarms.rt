//! The law of process alarms, by the octets that came to the two ends and by those that they sent.
ghost use Rattle.std.specs.Prelude.{◌∷◌, List};
ghost use Rattle.network_world.specs.declared.moves.Move.{Move};
ghost use Rattle.network_world.specs.World.{AreMade, World};
ghost use Rattle.both_ends.specs.startup.Played.{Begins, CanMeet};
ghost use Rattle.both_ends.specs.exchange.Sized.{AreSizedModules};
ghost use Rattle.both_ends.specs.exchange.Told.{AreSizedMoves};
ghost use Rattle.startup_octets.specs.Alarms.{AreAlarmsTaken};
ghost use Rattle.startup_octets.specs.Run.{entries_of, opening_entry};

use both_ends::{answers_choose_well, worlds_start_up, worlds_take_alarms};
use controller_messages::Setup;
use end_laws::{
    alarms_are_heard, calls_are_heard, calls_can_be_sent, confirmations_are_heard, device_goes_on,
    device_turns, ends_are_heard, messages_can_be_sent, plug_calls_are_heard,
    ready_answers_are_heard, ready_calls_are_heard, requests_are_heard, responses_are_heard,
    stations_are_real, turns_are_of_a_kind,
};
use flash_model::Flash;
use frame_codec::{formats_are_sound, frames_are_read};
use pn_values::Identity;
use rpc_core::calls_and_responses_differ;

/// The process alarms of this set-up with this device, read from octets, in the worlds of any moves, whatever the flash of the
/// device does.
pub fn alarms_are_read<F: Flash<S>, const S: usize>(setup: &Setup, identity: &Identity)
    // If at most 32,768 alarms are raised, those that the controller accepted are a prefix of those that the device's application
    // raised: in order, each once, with their octets; at most the last one is missing. The controller shows the last one that it
    // accepted.
    ensures taken { CanMeet setup.now identity.now →
        (first : World F) (run : List (Move × World F)) → Begins setup.now identity.now first
        → AreMade F.Flash first run → AreSizedModules first.device.live.rest.real.modules.items → AreSizedMoves run
        → AreAlarmsTaken (opening_entry first ∷ entries_of first run) }
{
    stations_are_real(setup, identity);
    formats_are_sound();
    frames_are_read();
    requests_are_heard();
    calls_can_be_sent();
    calls_are_heard();
    ready_answers_are_heard();
    ready_calls_are_heard();
    plug_calls_are_heard();
    responses_are_heard();
    answers_choose_well();
    calls_and_responses_differ();
    confirmations_are_heard();
    alarms_are_heard();
    ends_are_heard();
    messages_can_be_sent();
    worlds_start_up::<F, S>(setup, identity);
    device_goes_on();
    device_turns();
    turns_are_of_a_kind();
    worlds_take_alarms::<F, S>(setup, identity);
}
