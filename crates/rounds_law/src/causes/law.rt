//! The law of a start-up that cannot succeed.
ghost use Rattle.std.specs.Prelude.{◌≡◌, false};
ghost use Rattle.pn_values.specs.IpSuite.{is_zero};
ghost use Rattle.both_ends.specs.startup.Played.{CanMeet};
ghost use Rattle.controller_core.specs.declared.stored.state.Cause.TheVariants.{ModuleDiff, Refused, WrongDevice};
ghost use Rattle.rounds_law.specs.Rounds.{Net, Round};
ghost use Rattle.rounds_law.specs.Start.{IsPatient};
ghost use Rattle.rounds_law.specs.Causes.{CannotStore, ConnectsToOther, EndedWith, EndsWithin, FailingRound, IsOther, Seeks, SeeksUnaddressed};

use crate::causes::controller::controller_ends_with_its_cause;
use crate::causes::device::{device_cannot_store, device_reports_its_modules};
use crate::controller::{controller_finds_its_device, controller_goes_on_in_time};
use crate::device::{device_answers_the_search, device_goes_on_in_time};
use controller_messages::Setup;
use flash_model::Flash;
use pn_values::Identity;

/// A start of this set-up at a device of this identity that cannot succeed, if each frame is delivered within a unit, and none is lost. No
/// call of the flash fails, unless a clause says so.
pub fn starts_end_with_their_cause<F: Flash<S>, const S: usize>(setup: &Setup, identity: &Identity)
    // The device that has the plan's name has another VendorID or DeviceID: the controller has ended after a unit, because it is the wrong
    // device.
    ensures other { IsOther setup.now identity.now → (net : Net F) → Seeks setup.now identity.now net → EndsWithin F.Flash 1 WrongDevice net }
    // The plan's device has another IP suite than the plan's, and cannot store one, since a commit failed since its start, or there is no room:
    // the controller has ended after two units, because it was refused.
    ensures unstored { IsPatient setup.now.plan setup.now.options → (net : Net F) → SeeksUnaddressed setup.now identity.now net
        → CannotStore net.device.live → EndsWithin F.Flash 2 Refused net }
    // So has it if the commit of the IP suite fails.
    ensures fails { IsPatient setup.now.plan setup.now.options → (net next last : Net F) → SeeksUnaddressed setup.now identity.now net
        → Round F.Flash net next → FailingRound F.Flash next last → EndedWith Refused last.controller }
    // The plan's device has its IP suite and no relation, but modules that the controller does not accept: the controller has ended a unit
    // after its Connect, because of the modules.
    ensures modules { CanMeet setup.now identity.now → is_zero setup.now.plan.station.suite.address ≡ false
        → (net : Net F) → ConnectsToOther setup.now identity.now net → EndsWithin F.Flash 1 ModuleDiff net }
{
    device_reports_its_modules(setup, identity);
    device_goes_on_in_time(setup, identity);
    controller_finds_its_device(setup, identity);
    controller_goes_on_in_time(setup, identity);
    device_cannot_store(setup, identity);
    device_answers_the_search(setup, identity);
    controller_ends_with_its_cause(setup, identity);
}
