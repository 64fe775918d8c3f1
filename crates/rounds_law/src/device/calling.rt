//! The calls of a start-up except its Writes, and the response to ApplicationReady.
ghost use Rattle.std.specs.Prelude.{◌≡◌, ◌≤◌, ◌+◌, ℕ, false, List, [], ◌∷◌};
ghost use Rattle.std.specs.List.{AllByRecursion};
ghost use Rattle.pn_values.specs.IpSuite.{is_zero};
ghost use Rattle.settings_journal.specs.settings_store.Machine.{Outcome};
ghost use Rattle.records.specs.declared.writes.taken.TakenRecord.{TakenRecord};
ghost use Rattle.relations.specs.declared.phase.Phase.TheVariants.{Awaiting, Started};
ghost use Rattle.device_frames.specs.Sendable.{AreSendable};
ghost use Rattle.device_core.specs.State.{Live, Station};
ghost use Rattle.device_core.specs.Handled.{number_now};
ghost use Rattle.controller_messages.specs.declared.request.Request.TheVariants.{Connect, PrmEnd};
ghost use Rattle.controller_messages.specs.Requests.{write_count};
ghost use Rattle.both_ends.specs.startup.Played.{CanMeet};
ghost use Rattle.both_ends.specs.startup.answer.Answer.{answer_frame};
ghost use Rattle.rounds_law.specs.Path.{Exchanges, HasRelation, IsAddressed, IsFree, IsReport, confirmed_frame};
ghost use Rattle.rounds_law.specs.Path.{device_step, ended_frame, readied_frame, request_to};
ghost use Rattle.rounds_law.specs.Start.{IsOfPlan};

use block_codec::blocks_are_read;
use both_ends::connect_is_taken;
use controller_messages::Setup;
use end_laws::{calls_are_heard, calls_can_be_sent, ready_answers_are_heard, stations_are_real};
use pn_values::Identity;

/// What a device does with the calls of the plan's controller. These are laws of the machine by which each step of a device is
/// specified.
pub fn device_takes_calls(setup: &Setup, identity: &Identity)
    // A device without a relation accepts the plan's Connect.
    ensures connected { CanMeet setup.now identity.now → is_zero setup.now.plan.station.suite.address ≡ false
        → (outcomes : List Outcome) (station : Station) (live : Live) → station.identity ≡ identity.now → IsOfPlan setup.now station live.rest.real
        → IsAddressed setup.now live → IsFree setup.now live
        → ((device_step outcomes station live (request_to setup.now identity.now Connect)).frames
        ≡ answer_frame setup.now identity.now station.options (number_now station live) setup.now.plan.station.suite.address ∷ [])
        × ((device_step outcomes station live (request_to setup.now identity.now Connect)).live.values ≡ live.values)
        × HasRelation setup.now (number_now station live) Started [] 0 0 (device_step outcomes station live (request_to setup.now identity.now Connect)).live }
    // In the phase after the Connect it accepts PrmEnd, and sends ApplicationReady.
    ensures ended { CanMeet setup.now identity.now → is_zero setup.now.plan.station.suite.address ≡ false
        → (serial : ℕ) (outcomes : List Outcome) (station : Station) (live : Live) (taken : List TakenRecord) (last age : ℕ) → station.identity ≡ identity.now
        → IsOfPlan setup.now station live.rest.real → IsAddressed setup.now live → last ≤ write_count setup.now.plan → HasRelation setup.now serial Started taken last age live
        → ((device_step outcomes station live (request_to setup.now identity.now PrmEnd)).frames
        ≡ ended_frame setup.now identity.now ∷ readied_frame setup.now identity.now ∷ [])
        × ((device_step outcomes station live (request_to setup.now identity.now PrmEnd)).live.values ≡ live.values)
        × HasRelation setup.now serial Awaiting taken (write_count setup.now.plan + 1) 0
        (device_step outcomes station live (request_to setup.now identity.now PrmEnd)).live }
    // With the response to ApplicationReady the exchange begins. The device reports a diagnosis, a pull or a plug, if there is one, and sends
    // nothing else.
    ensures confirmed { CanMeet setup.now identity.now → is_zero setup.now.plan.station.suite.address ≡ false
        → (serial : ℕ) (outcomes : List Outcome) (station : Station) (live : Live) (taken : List TakenRecord) (last age : ℕ) → station.identity ≡ identity.now
        → IsOfPlan setup.now station live.rest.real → IsAddressed setup.now live → HasRelation setup.now serial Awaiting taken last age live
        → AreSendable identity.now (device_step outcomes station live (confirmed_frame setup.now identity.now)).sent
        → AllByRecursion (IsReport setup.now identity.now) (device_step outcomes station live (confirmed_frame setup.now identity.now)).frames
        × ((device_step outcomes station live (confirmed_frame setup.now identity.now)).live.values ≡ live.values)
        × Exchanges setup.now serial 0 (device_step outcomes station live (confirmed_frame setup.now identity.now)).live }
{
    stations_are_real(setup, identity);
    calls_can_be_sent();
    calls_are_heard();
    ready_answers_are_heard();
    blocks_are_read();
    connect_is_taken(&setup.plan, &setup.ar);
}
