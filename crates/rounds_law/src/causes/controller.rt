//! A controller whose start-up cannot succeed.
ghost use Rattle.std.specs.Prelude.{◌≡◌, ◌<◌, ◌≤◌, ℕ, false, length};
ghost use Rattle.pn_values.specs.declared.settings.Settings.{Settings};
ghost use Rattle.pn_values.specs.declared.set_item.BlockError.{BlockError};
ghost use Rattle.controller_messages.specs.declared.request.Request.TheVariants.{Address, Connect};
ghost use Rattle.controller_core.specs.declared.stored.state.State.TheVariants.{Addressing, Connecting};
ghost use Rattle.controller_core.specs.declared.stored.event.Event.TheVariants.{Tick};
ghost use Rattle.controller_core.specs.declared.stored.state.Cause.{Cause};
ghost use Rattle.controller_core.specs.declared.stored.state.Cause.TheVariants.{ModuleDiff, Refused, WrongDevice};
ghost use Rattle.controller_core.specs.stored.State.{Controlling};
ghost use Rattle.controller_core.specs.Machine.{first as first_live, step_of};
ghost use Rattle.controller_messages.specs.Requests.{call_for};
ghost use Rattle.pn_values.specs.declared.real.Real.{Real};
ghost use Rattle.rpc_core.specs.Response.{answer_to};
ghost use Rattle.rpc_core.specs.Sendable.{CanBeAnswered};
ghost use Rattle.records.specs.status.Status.{done};
ghost use Rattle.rounds_law.specs.Path.{Asks, IsSized, controller_step, found_frame};
ghost use Rattle.rounds_law.specs.Causes.{Differs, EndedWith, IsOther, IsUnstored, blocks_with, differing_frame, unstored_frame};

use controller_messages::Setup;
use end_laws::{answers_are_heard, responses_are_heard, stations_are_real};
use pn_values::Identity;

/// A number has two octets.
fn has_two(number: u16)
    ensures { number < 65536 }
{}

/// A station type has at most 25 octets.
fn type_is_short(identity: &Identity)
    ensures { length identity.now.station_type.items ≤ 25 }
{
    let _length = identity.station_type.len();
}

/// What ends a controller. These are laws of the machine by which each step of a controller is specified.
pub fn controller_ends_with_its_cause(setup: &Setup, identity: &Identity)
    // A station with the plan's name that is another device.
    ensures other { IsOther setup.now identity.now → (settings : Settings) (controller : Controlling) → settings.name ≡ setup.now.plan.station.name
        → IsSized settings.suite → controller.setup ≡ setup.now → controller.live ≡ first_live setup.now.plan
        → EndedWith WrongDevice (controller_step controller (found_frame setup.now identity.now settings)).controller }
    // An error in the answer to the Set of the IP suite.
    ensures unstored { (controller : Controlling) (spare : ℕ) (error : BlockError) → IsUnstored error
        → Asks setup.now identity.now.mac Addressing Address None spare controller
        → EndedWith Refused (controller_step controller (unstored_frame setup.now identity.now error)).controller }
    // A response to the Connect that lists a module which it does not accept.
    ensures differing { (serial : ℕ) (real : Real) (controller : Controlling) (spare : ℕ) → Asks setup.now identity.now.mac Connecting Connect None spare controller
        → Differs setup.now identity.now serial real → CanBeAnswered (answer_to (call_for setup.now Connect) done (blocks_with setup.now identity.now serial real))
        → EndedWith ModuleDiff (controller_step controller (differing_frame setup.now identity.now serial real)).controller }
    // It stays ended.
    ensures unit { (cause : Cause) (controller : Controlling) → EndedWith cause controller → EndedWith cause (step_of controller Tick).controller }
{
    stations_are_real(setup, identity);
    answers_are_heard();
    responses_are_heard();
    type_is_short(identity);
    has_two(identity.vendor_id);
    has_two(identity.device_id);
    let station = setup.plan.station();
    has_two(station.vendor_id);
    has_two(station.device_id);
}
