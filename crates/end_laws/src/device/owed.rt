//! Where the messages of a device come from.
ghost use Rattle.std.specs.Prelude.{List, ℕ};
ghost use Rattle.std.specs.List.{AllByRecursion};
ghost use Rattle.settings_journal.specs.settings_store.Machine.{Outcome};
ghost use Rattle.connects.specs.requests.Request.{Request};
ghost use Rattle.records.specs.declared.writes.taken.TakenRecord.{TakenRecord};
ghost use Rattle.device_frames.specs.Heard.{Heard};
ghost use Rattle.device_core.specs.State.{Station, Live};
ghost use Rattle.device_core.specs.Machine.{heard_step};
ghost use Rattle.end_laws.specs.both.Small.{Rules};
ghost use Rattle.end_laws.specs.device.Small.{IsPlanned};
ghost use Rattle.end_laws.specs.device.Owed.{IsOwed};

use crate::device::turn::device_turns;

/// A device sends only what it owes, as far as responses and ApplicationReady are concerned. This is a law of the
/// machine by which each step of a device is specified.
pub fn device_sends_what_it_owes()
    // If each call that a device hears is one of the start-up or of the application, a response is to a call that it heard, or to the one
    // that was asked of its application, or the one stored for its activity, and ApplicationReady, also that of a plug, is of the
    // relation that existed, whatever the flash did.
    ensures { (rules : Rules TakenRecord Request) (activity : List ℕ) (outcomes : List Outcome) (station : Station) (live : Live)
        (heard : Heard) → IsPlanned rules activity station.named live.rest.real heard
        → AllByRecursion (IsOwed heard live) (heard_step outcomes station live heard).sent }
{
    device_turns();
}
