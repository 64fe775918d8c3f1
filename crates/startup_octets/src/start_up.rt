//! The law of a start-up, by the octets that came to the two ends and by those that they sent.
ghost use Rattle.std.specs.Prelude.{◌≡◌, ◌<◌, List, false};
ghost use Rattle.network_world.specs.declared.moves.Move.{Move};
ghost use Rattle.network_world.specs.World.{AreMade, World};
ghost use Rattle.both_ends.specs.startup.Played.{ArePlaced, Begins, CanMeet};
ghost use Rattle.startup_octets.specs.StartUp.{AreDelivered, AreStartUps};
ghost use Rattle.startup_octets.specs.Played.{records_for, seen_of, turns_of};

use block_codec::blocks_are_read;
use both_ends::{connect_is_taken, worlds_start_up};
use connects::ConnectRequest;
use controller_messages::Setup;
use end_laws::{
    calls_are_heard, calls_can_be_sent, controller_goes_on, datagrams_alone_are_calls,
    device_goes_on, device_sends_what_it_owes, device_turns, frames_are_messages,
    messages_are_addressed, packets_are_heard, plug_calls_are_heard, ready_answers_are_heard,
    ready_calls_are_heard, responses_are_heard, start_up_is_kept, stations_are_real,
    turns_are_of_a_kind,
};
use flash_model::Flash;
use frame_codec::formats_are_sound;
use plans::{Plan, PlanRecord};
use pn_values::Identity;
use records::{TakenRecord, refusals_are_not_done};
use rpc_core::calls_are_read;

/// A `u16` has 16 bits.
fn has_16_bits(number: u16)
    ensures { number < 65536 }
{
    // The type gives the bound once the number is read.
    let _number = number;
}

/// The slot and the subslot of each record have 16 bits.
fn are_placed(records: &[PlanRecord])
    ensures { ArePlaced records.now }
{
    for entry in records {
        has_16_bits(entry.slot);
        has_16_bits(entry.subslot);
    }
}

/// The slots and subslots of a plan's records have 16 bits.
fn plan_is_placed(plan: &Plan)
    ensures { ArePlaced plan.now.records.items }
{
    are_placed(plan.records());
}

/// A start-up of this set-up with this device, read from octets, in the worlds of any moves, whatever the flash of the device
/// does. A turn is what one move brings to an end, and what that end then sends.
pub fn start_ups_are_read<F: Flash<S>, const S: usize>(setup: &Setup, identity: &Identity)
    // Each frame that comes to an end was sent before, by either end.
    ensures delivered { (first : World F) (run : List (Move × World F)) → AreMade F.Flash first run
        → AreDelivered first.sent (turns_of first.sent (seen_of run)) }
    // If the plan does not say that the start-up goes on after a refused record: each call that the controller answers with
    // PNIOStatus 0 is an ApplicationReady of its relation, or of a plug in it. Before, the device had granted the Connect that the
    // controller had sent, had accepted the plan's records in order, each once, and had granted PrmEnd; then it sent the
    // ApplicationReady of the relation.
    ensures start_up { CanMeet setup.now identity.now → setup.now.plan.continue_on_refused_record ≡ false →
        (first : World F) (run : List (Move × World F)) → Begins setup.now identity.now first → AreMade F.Flash first run
        → AreStartUps identity.now.mac setup.now.ar (records_for setup.now.plan.records.items) (turns_of first.sent (seen_of run)) }
{
    connect_is_taken(&setup.plan, &setup.ar);
    stations_are_real(setup, identity);
    plan_is_placed(&setup.plan);
    formats_are_sound();
    datagrams_alone_are_calls();
    packets_are_heard();
    calls_can_be_sent();
    calls_are_heard();
    calls_are_read();
    responses_are_heard();
    ready_calls_are_heard();
    plug_calls_are_heard();
    ready_answers_are_heard();
    blocks_are_read();
    messages_are_addressed();
    frames_are_messages();
    controller_goes_on();
    turns_are_of_a_kind();
    device_goes_on();
    device_sends_what_it_owes();
    device_turns();
    refusals_are_not_done();
    start_up_is_kept::<TakenRecord, ConnectRequest>();
    worlds_start_up::<F, S>(setup, identity);
}
