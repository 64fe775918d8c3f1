//! The law of a start-up, for the worlds that moves lead to.
ghost use Rattle.std.specs.Prelude.{◌≡◌, ◌<◌, ◌⊎◌, List, Some, map};
ghost use Rattle.both_ends.specs.startup.request.Request.{request_for};
ghost use Rattle.relations.specs.RelationState.{RelationState};
ghost use Rattle.relations.specs.declared.phase.Phase.TheVariants.{Exchanging as in_exchange};
ghost use Rattle.controller_core.specs.declared.stored.state.State.TheVariants.{Exchanging};
ghost use Rattle.network_world.specs.declared.moves.Move.{Move};
ghost use Rattle.network_world.specs.World.{AreMade, last_world, Played, World};
ghost use Rattle.end_laws.specs.both.Steps.{IsPart};
ghost use Rattle.end_laws.specs.both.StartUp.{WasExchanging, WasHanded};
ghost use Rattle.device_core.specs.State.{Station};
ghost use Rattle.both_ends.specs.startup.View.{AreThePlans, IsMeant, rules_of, taken_for, view_of};
ghost use Rattle.both_ends.specs.startup.Played.{AreMeant, ArePlaced, Begins, CanMeet, IsRunOf, viewed};

use crate::startup::request::connect_is_taken;
use block_codec::blocks_are_read;
use connects::ConnectRequest;
use controller_messages::Setup;
use end_laws::{
    calls_are_heard, calls_can_be_sent, controller_goes_on, datagrams_alone_are_calls,
    device_goes_on, device_sends_what_it_owes, device_turns, frames_are_messages,
    messages_are_addressed, packets_are_heard, plug_calls_are_heard, ready_answers_are_heard,
    ready_calls_are_heard, responses_are_heard, start_up_is_kept, stations_are_real,
};
use flash_model::Flash;
use frame_codec::formats_are_sound;
use plans::{Plan, PlanRecord};
use pn_values::Identity;
use records::TakenRecord;

/// A `u16` has 16 bits.
fn has_16_bits(number: u16)
    ensures { number < 65536 }
{
    // The type gives the bound once the number is read.
    let _number = number;
}

/// The slot and the subslot of each record have 16 bits.
fn are_placed(records: &[PlanRecord])
    ensures { ArePlaced records.now }
{
    for entry in records {
        has_16_bits(entry.slot);
        has_16_bits(entry.subslot);
    }
}

/// The slots and subslots of a plan's records have 16 bits.
fn plan_is_placed(plan: &Plan)
    ensures { ArePlaced plan.now.records.items }
{
    are_placed(plan.records());
}

/// A start-up of this set-up with this device, in the worlds of any moves, whatever the flash of the device does.
pub fn worlds_start_up<F: Flash<S>, const S: usize>(setup: &Setup, identity: &Identity)
    // Moves that were played are a run: each one happens in the world after the one before it.
    ensures run { (before after : World F) (moves : List Move) → Played F.Flash before moves after
        → IsRunOf F.Flash before moves after }
    // The records of a start-up are those of the plan, in their order, whether each has a Write of its own or a Write
    // carries several.
    ensures records { (station : Station) → AreThePlans setup.now station }
    // Everything that is delivered and sent with each move is heard as it is meant: the device hears no calls but those
    // of the plan, in octets that spell them, and those with which the controller's application reads and writes records,
    // and either end hears what the other says, or nothing.
    ensures meant { CanMeet setup.now identity.now →
        (first : World F) (run : List (Move × World F)) → Begins setup.now identity.now first
        → AreMade F.Flash first run → AreMeant first run }
    // Each move that may be made next is heard so too, before it is made.
    ensures next { CanMeet setup.now identity.now →
        (first : World F) (run : List (Move × World F)) → Begins setup.now identity.now first
        → AreMade F.Flash first run → (one : Move) → IsMeant (last_world first run) one }
    // If the controller exchanges data, it received an ApplicationReady that the device had sent at an earlier point.
    // At that point the device had accepted the plan's Connect; and had accepted the plan's records in order, each
    // once, if the plan does not say that the start-up goes on after a refused record; those that one call carried too. In any
    // case the records that it had accepted are a part of the plan's, in order, each once.
    ensures controller { CanMeet setup.now identity.now →
        (first : World F) (run : List (Move × World F)) → Begins setup.now identity.now first
        → AreMade F.Flash first run → (last_world first run).controller.live.phase ≡ Exchanging
        → WasHanded (rules_of first.controller.setup first.device.station) (view_of first) (viewed run) }
    // The parameter records that a relation of the device accepted are a part of the plan's records, in order, each once, also if
    // the plan says that the start-up goes on after a refused record; unless the controller received an ApplicationReady before,
    // as `controller` says: from then on its application may write any.
    ensures part { CanMeet setup.now identity.now →
        (first : World F) (run : List (Move × World F)) → Begins setup.now identity.now first
        → AreMade F.Flash first run
        → (link : RelationState) → (last_world first run).device.live.rest.link ≡ Some link
        → IsPart link.taken (map taken_for setup.now.plan.records.items)
        ⊎ WasHanded (rules_of first.controller.setup first.device.station) (view_of first) (viewed run) }
    // If the device exchanges data, its controller did so at an earlier point.
    ensures device { CanMeet setup.now identity.now →
        (first : World F) (run : List (Move × World F)) → Begins setup.now identity.now first
        → AreMade F.Flash first run
        → (link : RelationState) → (last_world first run).device.live.rest.link ≡ Some link → link.phase ≡ in_exchange
        → WasExchanging (viewed run) }
    // A relation of the device is the plan's.
    ensures relation { CanMeet setup.now identity.now →
        (first : World F) (run : List (Move × World F)) → Begins setup.now identity.now first
        → AreMade F.Flash first run
        → (link : RelationState) → (last_world first run).device.live.rest.link ≡ Some link
        → link.request ≡ request_for setup.now.plan setup.now.ar }
{
    connect_is_taken(&setup.plan, &setup.ar);
    stations_are_real(setup, identity);
    plan_is_placed(&setup.plan);
    formats_are_sound();
    datagrams_alone_are_calls();
    packets_are_heard();
    calls_can_be_sent();
    calls_are_heard();
    responses_are_heard();
    ready_calls_are_heard();
    plug_calls_are_heard();
    ready_answers_are_heard();
    blocks_are_read();
    messages_are_addressed();
    frames_are_messages();
    controller_goes_on();
    device_turns();
    device_goes_on();
    device_sends_what_it_owes();
    start_up_is_kept::<TakenRecord, ConnectRequest>();
}
