//! The responses of a start-up, and ApplicationReady.
ghost use Rattle.std.specs.Prelude.{◌≡◌, ◌≤◌, ◌<◌, ◌+◌, ℕ, false, List, [], ◌∷◌, None, Some};
ghost use Rattle.pn_values.specs.IpSuite.{is_zero};
ghost use Rattle.relations.specs.declared.options.DeviceOptions.{DeviceOptions};
ghost use Rattle.controller_core.specs.declared.stored.state.State.TheVariants.{Connecting, Ending, Writing};
ghost use Rattle.controller_core.specs.stored.State.{Controlling, phase_for};
ghost use Rattle.controller_messages.specs.declared.request.Request.TheVariants.{Connect, PrmEnd, Write};
ghost use Rattle.controller_messages.specs.Requests.{write_count, writing_from};
ghost use Rattle.both_ends.specs.startup.Played.{CanMeet};
ghost use Rattle.both_ends.specs.startup.answer.Answer.{AcceptsInterval, answer_frame};
ghost use Rattle.rounds_law.specs.Connects.{GoOn};
ghost use Rattle.rounds_law.specs.Rounds.{hears_all};
ghost use Rattle.rounds_law.specs.Path.{Asks, AsksNext, BeginsNoTurn, Controls, IsWritten, confirmed_frame, controller_step, ended_frame, readied_frame};
ghost use Rattle.rounds_law.specs.Start.{IsPatient};

use block_codec::blocks_are_read;
use both_ends::connect_answer_is_read;
use controller_messages::Setup;
use end_laws::{calls_can_be_sent, ready_calls_are_heard, responses_are_heard, stations_are_real};
use pn_values::Identity;

/// What the response to the Connect means to a controller, whichever number the device gave the relation.
fn connect_answers_are_read(setup: &Setup, identity: &Identity, address: [u8; 4])
    ensures { GoOn setup.now identity.now address 14336 }
{
    for serial in 0..14_336 {
        connect_answer_is_read(setup, identity, address, serial);
    }
}

/// What a controller does with the responses of its device. These are laws of the machine by which each step of a controller is
/// specified.
pub fn controller_takes_responses(setup: &Setup, identity: &Identity)
    // After the response to the Connect, its relation is established. It sends the first Write, or PrmEnd if the plan has no Write.
    ensures connected { CanMeet setup.now identity.now → IsPatient setup.now.plan setup.now.options
        → (options : DeviceOptions) → AcceptsInterval options setup.now.plan → (serial : ℕ) → serial < 14336 → (controller : Controlling) (spare : ℕ)
        → Asks setup.now identity.now.mac Connecting Connect None spare controller
        → AsksNext setup.now identity.now (phase_for (writing_from setup.now.plan 0)) (writing_from setup.now.plan 0) (Some serial) (write_count setup.now.plan + 2)
        (controller_step controller (answer_frame setup.now identity.now options serial setup.now.plan.station.suite.address)) }
    // After a Write whose records were all written, it sends the next Write, or PrmEnd after the last one. All Writes share one patience.
    ensures written { CanMeet setup.now identity.now → IsPatient setup.now.plan setup.now.options
        → (serial : ℕ) (controller : Controlling) (number spare : ℕ) (octets : List ℕ) → number < write_count setup.now.plan → spare ≤ write_count setup.now.plan + 2
        → Asks setup.now identity.now.mac Writing (Write number) (Some serial) spare controller → IsWritten setup.now identity.now number octets
        → AsksNext setup.now identity.now (phase_for (writing_from setup.now.plan (number + 1))) (writing_from setup.now.plan (number + 1)) (Some serial) spare
        (controller_step controller octets) }
    // After the response to PrmEnd and after ApplicationReady, it answers ApplicationReady and exchanges data. It sends nothing else.
    ensures readied { CanMeet setup.now identity.now → (serial : ℕ) (controller : Controlling) (spare : ℕ)
        → Asks setup.now identity.now.mac Ending PrmEnd (Some serial) spare controller
        → ((hears_all controller (ended_frame setup.now identity.now ∷ readied_frame setup.now identity.now ∷ [])).frames
        ≡ confirmed_frame setup.now identity.now ∷ [])
        × Controls setup.now serial identity.now.mac 0
        (hears_all controller (ended_frame setup.now identity.now ∷ readied_frame setup.now identity.now ∷ [])).controller
        × ((hears_all controller (ended_frame setup.now identity.now ∷ readied_frame setup.now identity.now ∷ [])).controller.live.low_alarms.sending.waiting
        ≡ None)
        × BeginsNoTurn (hears_all controller (ended_frame setup.now identity.now ∷ readied_frame setup.now identity.now ∷ [])).controller.live }
{
    stations_are_real(setup, identity);
    let station = setup.plan.station();
    let address = station.suite.address();
    connect_answers_are_read(setup, identity, address);
    calls_can_be_sent();
    responses_are_heard();
    ready_calls_are_heard();
    blocks_are_read();
}
