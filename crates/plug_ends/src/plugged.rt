//! The records of a submodule after its plug, at both ends.
ghost use Rattle.std.specs.Prelude.{◌≡◌, ◌<◌, ◌≤◌, false, length, List, None, Some, true, ℕ};
ghost use Rattle.expected_places.specs.declared.place.Step.TheVariants.{Settled};
ghost use Rattle.relations.specs.RelationState.{RelationState};
ghost use Rattle.network_world.specs.declared.moves.Move.{Move};
ghost use Rattle.network_world.specs.World.{AreMade, last_world, World};
ghost use Rattle.both_ends.specs.startup.Played.{ArePlaced, Begins, CanMeet};
ghost use Rattle.both_ends.specs.exchange.Over.{reported_over};
ghost use Rattle.both_ends.specs.exchange.Sized.{AreSizedModules, NoneIsAtZero};
ghost use Rattle.both_ends.specs.exchange.Told.{AreSizedMoves};
ghost use Rattle.plug_ends.specs.Places.{step_in, taken_at};
ghost use Rattle.plug_ends.specs.Plugged.{AreUndisturbed, EndsWith, IsReadyAt, records_at};
ghost use Rattle.plug_ends.specs.Told.{concerns_any};

use block_codec::blocks_are_read;
use both_ends::{answers_choose_well, worlds_start_up};
use connect_blocks::plug_controls_are_read_back;
use controller_messages::Setup;
use end_laws::{
    alarms_are_heard, alarms_are_taken_in_order, calls_are_heard, calls_can_be_sent,
    confirmations_are_heard, controller_goes_on, datagrams_alone_are_calls, device_goes_on,
    device_sends_what_it_owes, device_turns, ended_is_kept, ends_are_heard, frames_are_messages,
    messages_are_addressed, messages_can_be_sent, packets_are_heard, plug_calls_are_heard,
    ready_answers_are_heard, ready_calls_are_heard, requests_are_heard, responses_are_heard,
    stations_are_real, turns_are_of_a_kind, turns_begin_beside,
};
use flash_model::Flash;
use frame_codec::{formats_are_sound, frames_are_read};
use plans::{Plan, PlanRecord};
use pn_values::Identity;
use records::refusals_are_not_done;
use rpc_core::calls_and_responses_differ;

/// A `u16` has 16 bits.
fn has_16_bits(number: u16)
    ensures { number < 65536 }
{
    // The type gives the bound once the number is read.
    let _number = number;
}

/// The slot and the subslot of each record have 16 bits.
fn are_placed(records: &[PlanRecord])
    ensures { ArePlaced records.now }
{
    for entry in records {
        has_16_bits(entry.slot);
        has_16_bits(entry.subslot);
    }
}

/// The slots and subslots of a plan's records have 16 bits.
fn plan_is_placed(plan: &Plan)
    ensures { ArePlaced plan.now.records.items }
{
    are_placed(plan.records());
}

/// The records of a submodule after its plug, and what the controller says of it, in the worlds of any moves, whatever the flash of the
/// device does. Nothing is plugged in a subslot 0 at the start, and at most 2,048 changes of diagnosis, pulls and plugs are reported.
pub fn records_follow_their_plugs<F: Flash<S>, const S: usize>(setup: &Setup, identity: &Identity)
    // If a pull or a plug was reported of a submodule in this relation, and its place is good at the device, the records that were
    // accepted there since its last plug was reported end with the plan's records for it, in their order. This holds for a plan that does
    // not go on after a refused record, if nothing else is written there.
    ensures records { CanMeet setup.now identity.now →
        (first : World F) (run : List (Move × World F)) → Begins setup.now identity.now first
        → AreMade F.Flash first run → AreSizedModules first.device.live.rest.real.modules.items → AreSizedMoves run
        → NoneIsAtZero first.device.live.rest.real.modules.items → length (reported_over first run) ≤ 2048
        → setup.now.plan.continue_on_refused_record ≡ false → (slot subslot : ℕ) → AreUndisturbed slot subslot run
        → (link : RelationState) → (last_world first run).device.live.rest.link ≡ Some link → step_in slot subslot link ≡ Some Settled
        → concerns_any slot subslot (reported_over first run) ≡ true
        → EndsWith (taken_at slot subslot link.taken) (records_at slot subslot setup.now.plan.records.items) }
    // If no alarm of low priority is unconfirmed and the controller's relation is established, then the controller says of such a
    // submodule that it is there again. This holds for each plan and whatever is written.
    ensures there { CanMeet setup.now identity.now →
        (first : World F) (run : List (Move × World F)) → Begins setup.now identity.now first
        → AreMade F.Flash first run → AreSizedModules first.device.live.rest.real.modules.items → AreSizedMoves run
        → NoneIsAtZero first.device.live.rest.real.modules.items → length (reported_over first run) ≤ 2048 → (slot subslot : ℕ)
        → (link : RelationState) → (last_world first run).device.live.rest.link ≡ Some link → step_in slot subslot link ≡ Some Settled
        → concerns_any slot subslot (reported_over first run) ≡ true → link.flow.low.alarms.sender.standing ≡ None
        → (last_world first run).controller.live.stands ≡ true
        → IsReadyAt slot subslot (last_world first run).controller.live.places }
{
    plan_is_placed(&setup.plan);
    stations_are_real(setup, identity);
    formats_are_sound();
    frames_are_read();
    datagrams_alone_are_calls();
    packets_are_heard();
    requests_are_heard();
    calls_can_be_sent();
    calls_are_heard();
    responses_are_heard();
    ready_calls_are_heard();
    plug_calls_are_heard();
    ready_answers_are_heard();
    calls_and_responses_differ();
    blocks_are_read();
    plug_controls_are_read_back();
    refusals_are_not_done();
    confirmations_are_heard();
    alarms_are_heard();
    ends_are_heard();
    answers_choose_well();
    messages_are_addressed();
    messages_can_be_sent();
    frames_are_messages();
    worlds_start_up::<F, S>(setup, identity);
    controller_goes_on();
    turns_are_of_a_kind();
    turns_begin_beside();
    ended_is_kept();
    device_turns();
    device_goes_on();
    device_sends_what_it_owes();
    alarms_are_taken_in_order();
}
