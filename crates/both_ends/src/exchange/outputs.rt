//! The law of outputs, for the worlds that moves lead to.
ghost use Rattle.std.specs.Prelude.{◌≡◌, List, ℕ, Some, false, true};
ghost use Rattle.relations.specs.Exchanged.{output_in};
ghost use Rattle.relations.specs.RelationState.{RelationState};
ghost use Rattle.network_world.specs.declared.moves.Move.{Move};
ghost use Rattle.network_world.specs.World.{AreMade, last_world, World};
ghost use Rattle.both_ends.specs.startup.Played.{Begins, CanMeet};
ghost use Rattle.both_ends.specs.exchange.Given.{AreOfOneFrame, zero_for};
ghost use Rattle.both_ends.specs.exchange.Shown.{has_accepted};

use crate::startup::worlds_start_up;
use controller_messages::Setup;
use cyclic_data::Image;
use end_laws::{device_turns, outputs_are_given, stations_are_real, turns_are_of_a_kind};
use flash_model::Flash;
use frame_codec::formats_are_sound;
use plans::packed_places_are_asked;
use pn_values::Identity;

/// The outputs of this set-up at this device, in the worlds of any moves, whatever the flash of the device does.
pub fn worlds_show_what_is_given<F: Flash<S>, const S: usize>(setup: &Setup, identity: &Identity)
    // As long as the device has accepted no cyclic frame in its relation, all outputs that it shows are zeros.
    ensures zeros { CanMeet setup.now identity.now →
        (first : World F) (run : List (Move × World F)) → Begins setup.now identity.now first
        → AreMade F.Flash first run
        → (link : RelationState) → (last_world first run).device.live.rest.link ≡ Some link → has_accepted link ≡ false
        → (slot subslot : ℕ) → output_in slot subslot (Some link) ≡ zero_for setup.now slot subslot }
    // After that, all outputs come from one frame, which the controller sent with one of its moves and which was
    // delivered to the device by a later move, or are zeros of a touched place: where something was pulled or plugged that was not
    // released since. Each is the value set last for its submodule when the frame was sent, or zeros if none was set or if the
    // application had said that the output is bad.
    ensures values { CanMeet setup.now identity.now →
        (first : World F) (run : List (Move × World F)) → Begins setup.now identity.now first
        → AreMade F.Flash first run
        → (link : RelationState) → (last_world first run).device.live.rest.link ≡ Some link → has_accepted link ≡ true
        → AreOfOneFrame setup.now identity.now first run link }
{
    packed_places_are_asked();
    stations_are_real(setup, identity);
    formats_are_sound();
    device_turns();
    turns_are_of_a_kind();
    worlds_start_up::<F, S>(setup, identity);
    outputs_are_given::<Image, Image>();
}
