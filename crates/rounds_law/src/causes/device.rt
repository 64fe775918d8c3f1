//! A device that cannot store an IP suite, and one whose modules are not the plan's.
ghost use Rattle.std.specs.Prelude.{◌≡◌, ◌⊎◌, true, false, List, [], ◌∷◌};
ghost use Rattle.pn_values.specs.IpSuite.{is_suite, is_zero};
ghost use Rattle.pn_values.specs.declared.set_item.BlockError.{BlockError};
ghost use Rattle.settings_journal.specs.settings_store.Machine.{Outcome};
ghost use Rattle.device_core.specs.State.{Live, Station};
ghost use Rattle.device_core.specs.Handled.{number_now};
ghost use Rattle.controller_messages.specs.declared.request.Request.TheVariants.{Address, Connect};
ghost use Rattle.controller_messages.specs.Requests.{call_for};
ghost use Rattle.rpc_core.specs.Response.{answer_to};
ghost use Rattle.rpc_core.specs.Sendable.{CanBeAnswered};
ghost use Rattle.records.specs.status.Status.{done};
ghost use Rattle.device_frames.specs.Sendable.{AreSendable};
ghost use Rattle.both_ends.specs.startup.Played.{CanMeet};
ghost use Rattle.both_ends.specs.startup.answer.Answer.{AcceptsInterval};
ghost use Rattle.rounds_law.specs.Path.{IsAddressed, IsFree, device_step, request_to};
ghost use Rattle.rounds_law.specs.Causes.{CannotStore, IsUnstored, blocks_with, differing_frame, unstored_frame};

use both_ends::connect_is_taken;
use controller_messages::Setup;
use end_laws::{calls_are_heard, calls_can_be_sent, requests_are_heard, stations_are_real};
use pn_values::{Identity, IpSuite};

/// An IP suite is one that a station may have.
fn suite_can_be_set(suite: &IpSuite)
    ensures { is_suite suite.now ≡ true }
{
    let _valid = IpSuite::new(suite.address(), suite.mask(), suite.gateway());
}

/// What a device without a relation does with the plan's Connect, whatever modules it has. This is a law of the machine by which each step
/// of a device is specified.
pub fn device_reports_its_modules(setup: &Setup, identity: &Identity)
    // It accepts the Connect, and its response lists what differs.
    ensures { CanMeet setup.now identity.now → is_zero setup.now.plan.station.suite.address ≡ false
        → (outcomes : List Outcome) (station : Station) (live : Live) → station.identity ≡ identity.now
        → AcceptsInterval station.options setup.now.plan → IsAddressed setup.now live → IsFree setup.now live
        → ((device_step outcomes station live (request_to setup.now identity.now Connect)).frames
        ≡ differing_frame setup.now identity.now (number_now station live) live.rest.real ∷ [])
        × (AreSendable identity.now (device_step outcomes station live (request_to setup.now identity.now Connect)).sent
        → CanBeAnswered (answer_to (call_for setup.now Connect) done (blocks_with setup.now identity.now (number_now station live) live.rest.real))) }
{
    stations_are_real(setup, identity);
    calls_can_be_sent();
    calls_are_heard();
    connect_is_taken(&setup.plan, &setup.ar);
}

/// What a device does with an IP suite that is not stored. These are laws of the machine by which each step of a device is specified.
pub fn device_cannot_store(setup: &Setup, identity: &Identity)
    // A device without a relation answers the Set by an error, if it cannot store the suite, or the commit of the suite fails.
    ensures { (outcomes : List Outcome) (station : Station) (live : Live) → station.identity ≡ identity.now → IsFree setup.now live
        → CannotStore live ⊎ ((device_step outcomes station live (request_to setup.now identity.now Address)).live.values.has_failed ≡ true)
        → (error : BlockError) × IsUnstored error
        × ((device_step outcomes station live (request_to setup.now identity.now Address)).frames ≡ unstored_frame setup.now identity.now error ∷ []) }
{
    stations_are_real(setup, identity);
    requests_are_heard();
    let station = setup.plan.station();
    suite_can_be_set(&station.suite);
}
