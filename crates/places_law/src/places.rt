//! The law of places, for the worlds that moves lead to.
ghost use Rattle.std.specs.Prelude.{◌≡◌, ◌≤◌, [], length, List, None, Some, true};
ghost use Rattle.relations.specs.RelationState.{RelationState};
ghost use Rattle.network_world.specs.declared.moves.Move.{Move};
ghost use Rattle.network_world.specs.World.{AreMade, last_world, World};
ghost use Rattle.both_ends.specs.startup.Played.{Begins, CanMeet};
ghost use Rattle.both_ends.specs.exchange.Over.{reported_over};
ghost use Rattle.both_ends.specs.exchange.Sized.{AreSizedModules, NoneIsAtZero};
ghost use Rattle.both_ends.specs.exchange.Told.{AreKnown, AreSizedMoves};
ghost use Rattle.places_law.specs.Agreed.{AreAgreed, ArePluggedApart, AreThePlaces, AreUntouched};

use block_codec::blocks_are_read;
use both_ends::{answers_choose_well, modules_are_sized, worlds_start_up};
use connects::blocks_are_found;
use controller_messages::Setup;
use diagnosis::reports_are_followed;
use end_laws::{
    alarms_are_heard, alarms_are_taken_in_order, calls_are_heard, calls_can_be_sent,
    confirmations_are_heard, device_goes_on, device_turns, ends_are_heard, messages_can_be_sent,
    plug_calls_are_heard, ready_answers_are_heard, ready_calls_are_heard, requests_are_heard,
    responses_are_heard, stations_are_real, turns_are_of_a_kind,
};
use flash_model::Flash;
use frame_codec::frames_are_read;
use pn_values::Identity;
use rpc_core::calls_and_responses_differ;

/// The places of a relation of this set-up with this device, in the worlds of any moves, whatever the flash of the device does.
pub fn worlds_agree_of_places<F: Flash<S>, const S: usize>(setup: &Setup, identity: &Identity)
    // A controller whose relation is established says what it knows of each submodule of the plan, and of no other.
    ensures places { CanMeet setup.now identity.now →
        (first : World F) (run : List (Move × World F)) → Begins setup.now identity.now first
        → AreMade F.Flash first run → AreSizedModules first.device.live.rest.real.modules.items → AreSizedMoves run
        → (last_world first run).controller.live.stands ≡ true
        → AreThePlaces setup.now.plan.real.modules.items (last_world first run).controller.live.places }
    // If each slot had at most one module at the start, each subslot at most one submodule, and subslot 0 none, if at most 32,768 changes
    // of diagnosis, pulls and plugs are reported, no alarm of low priority is unconfirmed and none waits, then both ends agree of each
    // place of the plan: a controller whose relation is established says that it differs, that it is gone, or that a wrong submodule is
    // plugged, exactly where a row of the diff lists it. That is the diff of the relation's Connect and what is plugged now.
    ensures agreed { CanMeet setup.now identity.now →
        (first : World F) (run : List (Move × World F)) → Begins setup.now identity.now first
        → AreMade F.Flash first run → AreSizedModules first.device.live.rest.real.modules.items → AreSizedMoves run
        → AreKnown first.device.live.rest.diagnoses → NoneIsAtZero first.device.live.rest.real.modules.items
        → ArePluggedApart first.device.live.rest.real.modules.items → length (reported_over first run) ≤ 32768
        → (link : RelationState) → (last_world first run).device.live.rest.link ≡ Some link
        → link.flow.low.alarms.sender.standing ≡ None → link.flow.low.waiting ≡ []
        → (last_world first run).controller.live.stands ≡ true
        → AreAgreed (last_world first run).device.live.rest.real.modules.items link (last_world first run).controller.live.places }
    // Under the same premises the controller says of a place of which no pull or plug was reported that it is there, and no row of the diff
    // lists it.
    ensures untouched { CanMeet setup.now identity.now →
        (first : World F) (run : List (Move × World F)) → Begins setup.now identity.now first
        → AreMade F.Flash first run → AreSizedModules first.device.live.rest.real.modules.items → AreSizedMoves run
        → AreKnown first.device.live.rest.diagnoses → NoneIsAtZero first.device.live.rest.real.modules.items
        → ArePluggedApart first.device.live.rest.real.modules.items
        → length (reported_over first run) ≤ 32768 → (link : RelationState)
        → (last_world first run).device.live.rest.link ≡ Some link → link.flow.low.alarms.sender.standing ≡ None
        → link.flow.low.waiting ≡ [] → (last_world first run).controller.live.stands ≡ true
        → AreUntouched setup.now.plan.real.modules.items (last_world first run).device.live.rest.real.modules.items link
        (reported_over first run) (last_world first run).controller.live.places }
    // The same is true of the slots and subslots after any moves, so `agreed` holds of the next relation too.
    ensures apart { CanMeet setup.now identity.now →
        (first : World F) (run : List (Move × World F)) → Begins setup.now identity.now first
        → AreMade F.Flash first run → AreSizedModules first.device.live.rest.real.modules.items → AreSizedMoves run
        → AreKnown first.device.live.rest.diagnoses → NoneIsAtZero first.device.live.rest.real.modules.items
        → ArePluggedApart first.device.live.rest.real.modules.items
        → ArePluggedApart (last_world first run).device.live.rest.real.modules.items }
{
    stations_are_real(setup, identity);
    modules_are_sized(setup.plan.real());
    blocks_are_read();
    blocks_are_found();
    frames_are_read();
    requests_are_heard();
    calls_can_be_sent();
    calls_are_heard();
    ready_answers_are_heard();
    ready_calls_are_heard();
    plug_calls_are_heard();
    responses_are_heard();
    answers_choose_well();
    calls_and_responses_differ();
    confirmations_are_heard();
    alarms_are_heard();
    ends_are_heard();
    messages_can_be_sent();
    worlds_start_up::<F, S>(setup, identity);
    device_goes_on();
    device_turns();
    turns_are_of_a_kind();
    reports_are_followed();
    alarms_are_taken_in_order();
}
