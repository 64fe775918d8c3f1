//! The law of alarms and of reported diagnosis, for the worlds that moves lead to.
ghost use Rattle.std.specs.Prelude.{◌≡◌, ◌≤◌, ◌+◌, [], length, List, None, Some, true};
ghost use Rattle.end_laws.specs.turns.Alarms.{last_of};
ghost use Rattle.diagnosis.specs.World.{IsPrefixOf};
ghost use Rattle.diagnosis.specs.declared.reports.priority.Priority.TheVariants.{High, Low};
ghost use Rattle.relations.specs.RelationState.{RelationState, is_exchanging};
ghost use Rattle.network_world.specs.declared.moves.Move.{Move};
ghost use Rattle.network_world.specs.World.{AreMade, last_world, World};
ghost use Rattle.both_ends.specs.startup.Played.{Begins, CanMeet};
ghost use Rattle.both_ends.specs.exchange.Sized.{AreSizedModules, NoneIsAtZero};
ghost use Rattle.both_ends.specs.exchange.Over.{IsOneOfTheLastTwo, raised_over, reported_over, taken_over};
ghost use Rattle.both_ends.specs.exchange.Told.{AreKnown, AreSizedMoves, IsTold, known_at};

use crate::exchange::chosen::answers_choose_well;
use crate::startup::worlds_start_up;
use controller_messages::Setup;
use diagnosis::reports_are_followed;
use end_laws::{
    alarms_are_heard, alarms_are_taken_in_order, calls_are_heard, calls_can_be_sent,
    confirmations_are_heard, device_goes_on, device_turns, ends_are_heard, messages_can_be_sent,
    plug_calls_are_heard, ready_answers_are_heard, ready_calls_are_heard, requests_are_heard,
    responses_are_heard, stations_are_real, turns_are_of_a_kind,
};
use flash_model::Flash;
use frame_codec::frames_are_read;
use pn_values::Identity;
use rpc_core::calls_and_responses_differ;

/// The alarms of a relation of this set-up with this device, in the worlds of any moves, whatever the flash of the
/// device does.
pub fn worlds_take_alarms<F: Flash<S>, const S: usize>(setup: &Setup, identity: &Identity)
    // If at most 32,768 alarms are raised, the alarms that the controller accepted are a prefix of those that the
    // device raised: in order, each once.
    ensures front { CanMeet setup.now identity.now →
        (first : World F) (run : List (Move × World F)) → Begins setup.now identity.now first
        → AreMade F.Flash first run → AreSizedModules first.device.live.rest.real.modules.items → AreSizedMoves run
        → length (raised_over first run) ≤ 32768 → IsPrefixOf (taken_over High first run) (raised_over first run) }
    // If at most 32,768 alarms are raised, at most the last of them is not accepted.
    ensures last { CanMeet setup.now identity.now →
        (first : World F) (run : List (Move × World F)) → Begins setup.now identity.now first
        → AreMade F.Flash first run → AreSizedModules first.device.live.rest.real.modules.items → AreSizedMoves run
        → length (raised_over first run) ≤ 32768 → length (raised_over first run) ≤ length (taken_over High first run) + 1 }
    // The controller shows the alarm that it accepted last, and none if it accepted none.
    ensures shown { CanMeet setup.now identity.now →
        (first : World F) (run : List (Move × World F)) → Begins setup.now identity.now first
        → AreMade F.Flash first run → AreSizedModules first.device.live.rest.real.modules.items → AreSizedMoves run
        → (last_world first run).controller.live.alarm ≡ last_of (taken_over High first run) }
    // If at most 32,768 alarms are raised, the controller shows the last one raised or the one before it, and none
    // before the first was raised.
    ensures alarm { CanMeet setup.now identity.now →
        (first : World F) (run : List (Move × World F)) → Begins setup.now identity.now first
        → AreMade F.Flash first run → AreSizedModules first.device.live.rest.real.modules.items → AreSizedMoves run
        → length (raised_over first run) ≤ 32768
        → IsOneOfTheLastTwo (raised_over first run) (last_world first run).controller.live.alarm }
    // If at most 32,768 changes of diagnosis, pulls and plugs are reported, those that the controller accepted are a prefix of
    // those that the device reported: in order, each once.
    ensures reports { CanMeet setup.now identity.now →
        (first : World F) (run : List (Move × World F)) → Begins setup.now identity.now first
        → AreMade F.Flash first run → AreSizedModules first.device.live.rest.real.modules.items → AreSizedMoves run
        → length (reported_over first run) ≤ 32768 → IsPrefixOf (taken_over Low first run) (reported_over first run) }
    // If at most 32,768 changes are reported, at most the last of them is not accepted.
    ensures reported_last { CanMeet setup.now identity.now →
        (first : World F) (run : List (Move × World F)) → Begins setup.now identity.now first
        → AreMade F.Flash first run → AreSizedModules first.device.live.rest.real.modules.items → AreSizedMoves run
        → length (reported_over first run) ≤ 32768
        → length (reported_over first run) ≤ length (taken_over Low first run) + 1 }
    // While the device exchanges data, the changes that it reported, and then those that wait, lead from no diagnosis
    // to those that exist at the submodules of the relation: changes of diagnosis, pulls, which end the diagnoses of what was
    // pulled, and plugs.
    ensures told { CanMeet setup.now identity.now →
        (first : World F) (run : List (Move × World F)) → Begins setup.now identity.now first
        → AreMade F.Flash first run → AreSizedModules first.device.live.rest.real.modules.items → AreSizedMoves run
        → AreKnown first.device.live.rest.diagnoses → (link : RelationState)
        → (last_world first run).device.live.rest.link ≡ Some link → is_exchanging link.phase ≡ true
        → IsTold link.flow.low (last_world first run).device.live.rest.diagnoses (reported_over first run) }
    // If nothing was plugged in a subslot 0 at the start, at most 32,768 changes are reported, no alarm of a change is unconfirmed and
    // none waits, then a controller whose relation is established has in its list what exists at the submodules of the relation, in
    // this order.
    ensures list { CanMeet setup.now identity.now →
        (first : World F) (run : List (Move × World F)) → Begins setup.now identity.now first
        → AreMade F.Flash first run → AreSizedModules first.device.live.rest.real.modules.items → AreSizedMoves run
        → AreKnown first.device.live.rest.diagnoses → NoneIsAtZero first.device.live.rest.real.modules.items
        → length (reported_over first run) ≤ 32768 → (link : RelationState) → (last_world first run).device.live.rest.link ≡ Some link
        → is_exchanging link.phase ≡ true → link.flow.low.alarms.sender.standing ≡ None → link.flow.low.waiting ≡ []
        → (last_world first run).controller.live.stands ≡ true
        → (last_world first run).controller.live.diagnosis
        ≡ known_at link.flow.low (last_world first run).device.live.rest.diagnoses }
    // The diagnoses of a device appeared one after the other after any moves, if they did at the beginning: so `told` holds of its
    // next relation too.
    ensures known { CanMeet setup.now identity.now →
        (first : World F) (run : List (Move × World F)) → Begins setup.now identity.now first
        → AreMade F.Flash first run → AreSizedModules first.device.live.rest.real.modules.items → AreSizedMoves run
        → AreKnown first.device.live.rest.diagnoses → AreKnown (last_world first run).device.live.rest.diagnoses }
    // Nothing is plugged in a subslot 0 after any moves, if nothing was at the beginning: so `list` holds of its next relation too.
    ensures plugged { CanMeet setup.now identity.now →
        (first : World F) (run : List (Move × World F)) → Begins setup.now identity.now first
        → AreMade F.Flash first run → AreSizedModules first.device.live.rest.real.modules.items → AreSizedMoves run
        → AreKnown first.device.live.rest.diagnoses → NoneIsAtZero first.device.live.rest.real.modules.items
        → NoneIsAtZero (last_world first run).device.live.rest.real.modules.items }
{
    stations_are_real(setup, identity);
    frames_are_read();
    requests_are_heard();
    calls_can_be_sent();
    calls_are_heard();
    ready_answers_are_heard();
    ready_calls_are_heard();
    plug_calls_are_heard();
    responses_are_heard();
    answers_choose_well();
    calls_and_responses_differ();
    confirmations_are_heard();
    alarms_are_heard();
    ends_are_heard();
    messages_can_be_sent();
    worlds_start_up::<F, S>(setup, identity);
    device_goes_on();
    device_turns();
    turns_are_of_a_kind();
    reports_are_followed();
    alarms_are_taken_in_order();
}
