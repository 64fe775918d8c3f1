//! The law of inputs, for the worlds that moves lead to.
ghost use Rattle.std.specs.Prelude.{◌≡◌, List, ℕ, false, true};
ghost use Rattle.cyclic_data.specs.exchange.Process.{value_at};
ghost use Rattle.network_world.specs.declared.moves.Move.{Move};
ghost use Rattle.network_world.specs.World.{AreMade, last_world, World};
ghost use Rattle.both_ends.specs.startup.Played.{Begins, CanMeet};
ghost use Rattle.both_ends.specs.exchange.Sized.{AreSizedModules};
ghost use Rattle.both_ends.specs.exchange.Told.{AreSizedMoves};
ghost use Rattle.inputs_law.specs.Given.{AreOfOneFrame, zero_for};
ghost use Rattle.inputs_law.specs.Shown.{has_accepted};

use both_ends::{answers_choose_well, worlds_start_up};
use controller_messages::Setup;
use cyclic_data::Image;
use end_laws::{
    alarms_are_heard, calls_are_heard, calls_can_be_sent, confirmations_are_heard, device_goes_on,
    device_turns, ends_are_heard, inputs_are_received, messages_can_be_sent, outputs_are_given,
    plug_calls_are_heard, ready_answers_are_heard, ready_calls_are_heard, requests_are_heard,
    responses_are_heard, stations_are_real, turns_are_of_a_kind,
};
use flash_model::Flash;
use frame_codec::{formats_are_sound, frames_are_read};
use plans::packed_places_are_asked;
use pn_values::Identity;
use rpc_core::calls_and_responses_differ;

/// The inputs of this device at the controller of this set-up, in the worlds of any moves, whatever the flash of the device
/// does.
pub fn worlds_show_given_inputs<F: Flash<S>, const S: usize>(setup: &Setup, identity: &Identity)
    // As long as the controller has accepted no cyclic frame in its relation, before that exists and after its end, all inputs
    // that it shows are zeros.
    ensures zeros { CanMeet setup.now identity.now →
        (first : World F) (run : List (Move × World F)) → Begins setup.now identity.now first
        → AreMade F.Flash first run → AreSizedModules first.device.live.rest.real.modules.items → AreSizedMoves run
        → has_accepted (last_world first run).controller.live ≡ false
        → (slot subslot : ℕ) → value_at (last_world first run).controller.live.cyclic slot subslot ≡ zero_for setup.now slot subslot }
    // Once it has accepted one, all inputs come from one frame, which the device sent with one of its moves and which was
    // delivered to the controller by a later move. Each is the value that was given last for its submodule in the relation of
    // the device when the frame was sent, since something was pulled or plugged at its place, or zeros if none was given, with
    // the IOPS that follows from what the application gave and said and from what is plugged; zeros if that IOPS is bad.
    ensures values { CanMeet setup.now identity.now →
        (first : World F) (run : List (Move × World F)) → Begins setup.now identity.now first
        → AreMade F.Flash first run → AreSizedModules first.device.live.rest.real.modules.items → AreSizedMoves run
        → has_accepted (last_world first run).controller.live ≡ true
        → AreOfOneFrame setup.now identity.now first run (last_world first run).controller.live }
{
    packed_places_are_asked();
    stations_are_real(setup, identity);
    formats_are_sound();
    frames_are_read();
    requests_are_heard();
    calls_can_be_sent();
    calls_are_heard();
    ready_answers_are_heard();
    ready_calls_are_heard();
    plug_calls_are_heard();
    responses_are_heard();
    answers_choose_well();
    calls_and_responses_differ();
    confirmations_are_heard();
    alarms_are_heard();
    ends_are_heard();
    messages_can_be_sent();
    worlds_start_up::<F, S>(setup, identity);
    device_goes_on();
    device_turns();
    turns_are_of_a_kind();
    outputs_are_given::<Image, Image>();
    inputs_are_received();
}
