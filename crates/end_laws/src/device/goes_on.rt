//! A device refines its small machine.
ghost use Rattle.std.specs.Prelude.{List, ℕ};
ghost use Rattle.std.specs.List.{AllByRecursion};
ghost use Rattle.settings_journal.specs.settings_store.Machine.{Outcome};
ghost use Rattle.connects.specs.requests.Request.{Request};
ghost use Rattle.records.specs.declared.writes.taken.TakenRecord.{TakenRecord};
ghost use Rattle.device_frames.specs.Heard.{Heard};
ghost use Rattle.device_core.specs.State.{Station, Live};
ghost use Rattle.device_core.specs.Machine.{heard_step};
ghost use Rattle.end_laws.specs.both.Small.{Rules};
ghost use Rattle.end_laws.specs.both.Steps.{DeviceSteps};
ghost use Rattle.end_laws.specs.device.Orderly.{IsOrderlyIn};
ghost use Rattle.end_laws.specs.device.Small.{IsAskedOwn, IsHeardAs, IsPlanned, heard_as, small_of};

use crate::device::turn::device_turns;
use records::refusals_are_not_done;

/// A device refines its small machine, as far as a start-up is concerned. This is a law of the machine by which each
/// step of a device is specified.
pub fn device_goes_on()
    // If the relation is in order, what is asked of the application is of this activity and no Read Implicit, each call is one of the
    // start-up or of the application, and each message that is sent is heard as it is meant, each step of a device is a step of the
    // small machine, whatever the device hears and whatever the flash did. Without a relation it is in order, and each step keeps that
    // (`Turn.orderly`), as it keeps what is asked of this activity (`device_turns`).
    ensures { (rules : Rules TakenRecord Request) (activity : List ℕ) (outcomes : List Outcome) (station : Station) (live : Live)
        (heard : Heard) → IsOrderlyIn live.rest.link → IsAskedOwn activity live.rest.asked
        → IsPlanned rules activity station.named live.rest.real heard
        → AllByRecursion (IsHeardAs rules station.identity) (heard_step outcomes station live heard).sent
        → DeviceSteps rules (heard_as rules.is_planned heard) (small_of activity live) (small_of activity (heard_step outcomes station live heard).live)
        (heard_step outcomes station live heard).frames }
{
    device_turns();
    refusals_are_not_done();
}
