//! The law of a controller that starts again.
ghost use Rattle.std.specs.Prelude.{◌≤◌, ◌+◌, ℕ, suc};
ghost use Rattle.rounds_law.specs.Abandoned.{AsksInVain, Awaited, WaitsInVain};
ghost use Rattle.rounds_law.specs.Again.{AreStarts, IsDeserted, IsRestart, LeadsBack, Plant};
ghost use Rattle.rounds_law.specs.Comes.{Comes, From, comes_within};
ghost use Rattle.rounds_law.specs.Start.{CanStart, start_up_limit};

use crate::again::abandoned::{controller_ends_halfway, device_denies_calls};
use crate::again::controller::controller_ends_refused;
use crate::again::device::device_keeps_an_earlier_relation;
use crate::controller::{
    controller_finds_its_device, controller_goes_on_in_time, controller_takes_responses,
};
use crate::device::{
    device_answers_the_search, device_goes_on_in_time, device_takes_calls, device_takes_writes,
};
use crate::law::both_ends_start;
use crate::middle::both_ends_go_on;
use controller_messages::Setup;
use device_core::only_pulls_and_plugs_change_modules;
use flash_model::Flash;
use pn_values::Identity;

/// A controller of this set-up that starts while its device still has the relation of an earlier start, or whose device has no relation any
/// more while data is exchanged or in the middle of a start, and that is started again, with the next set-up, if it ended. Each frame is
/// delivered within a unit, none is lost, and no call of the flash fails.
pub fn both_ends_come_back<F: Flash<S>, const S: usize>(
    setup: &Setup,
    next: &Setup,
    identity: &Identity,
)
    // If the pause before the next start is at least as long as the relation lasts without its controller, both ends exchange data within
    // the pause, a unit, and the time of a start.
    ensures again { CanStart setup.now identity.now → CanStart next.now identity.now → AreStarts setup.now next.now
        → (pause left : ℕ) → left ≤ pause → (plant : Plant F) → IsRestart setup.now next.now identity.now left plant
        → LeadsBack F.Flash pause (suc (pause + start_up_limit setup.now.plan)) plant }
    // If the device loses its power while data is exchanged, both ends exchange data again within the rest of the data hold time of the
    // controller, the pause, and the time of a start.
    ensures deserted { CanStart setup.now identity.now → CanStart next.now identity.now → AreStarts setup.now next.now
        → (pause left : ℕ) → 2 ≤ pause → (plant : Plant F) → IsDeserted setup.now next.now identity.now left plant
        → LeadsBack F.Flash pause (left + pause + start_up_limit setup.now.plan) plant }
    // If the device has no relation any more while the controller waits for the response to a Write or to PrmEnd, it sends a negative response.
    // Both ends exchange data within the time until the last such response, the pause, and the time of a start.
    ensures refused { CanStart setup.now identity.now → CanStart next.now identity.now → AreStarts setup.now next.now
        → (pause left number : ℕ) → 2 ≤ pause → (plant : Plant F) → AsksInVain setup.now next.now identity.now number left plant
        → LeadsBack F.Flash pause (left + pause + start_up_limit setup.now.plan) plant }
    // If the device has no relation any more and does not answer, since it has no IP address, or since the controller waits for
    // ApplicationReady, which never comes: both ends exchange data within the rest of the patience, the pause, and the time of a start.
    ensures unanswered { CanStart setup.now identity.now → CanStart next.now identity.now → AreStarts setup.now next.now
        → (pause left : ℕ) (awaited : Awaited) → 2 ≤ pause → (plant : Plant F) → WaitsInVain setup.now next.now identity.now awaited left plant
        → LeadsBack F.Flash pause (left + pause + start_up_limit setup.now.plan) plant }
    // From each state in a table of states, both ends exchange data within the units that the table says.
    ensures each { CanStart setup.now identity.now → CanStart next.now identity.now → AreStarts setup.now next.now
        → (pause : ℕ) → 2 ≤ pause → (from : From) (plant : Plant F) → Comes setup.now next.now identity.now pause from plant
        → LeadsBack F.Flash pause (comes_within setup.now.plan pause from) plant }
{
    only_pulls_and_plugs_change_modules();
    both_ends_start::<F, S>(setup, identity);
    both_ends_start::<F, S>(next, identity);
    both_ends_go_on::<F, S>(setup, identity);
    device_answers_the_search(setup, identity);
    device_takes_calls(setup, identity);
    device_takes_writes(setup, identity);
    device_goes_on_in_time(setup, identity);
    controller_finds_its_device(setup, identity);
    controller_takes_responses(setup, identity);
    controller_goes_on_in_time(setup, identity);
    device_keeps_an_earlier_relation(setup, identity);
    controller_ends_refused(setup, identity);
    device_denies_calls(setup, identity);
    controller_ends_halfway(setup, identity);
    device_keeps_an_earlier_relation(next, identity);
}
