//! The law of any state, with any pause before the next start.
ghost use Rattle.std.specs.Prelude.{◌≡◌, ◌≤◌, ◌+◌, ◌*◌, ℕ, suc, length};
ghost use Rattle.device_core.specs.Cycle.{IsStartedFrom};
ghost use Rattle.device_core.specs.State.{State};
ghost use Rattle.rounds_law.specs.Again.{Plant};
ghost use Rattle.rounds_law.specs.Anywhere.{HasPatience, HasStored, LeadsAnywhereBack};
ghost use Rattle.rounds_law.specs.AnywhereAgain.{IsAnywhereAmong, StartsApart, again_limit};
ghost use Rattle.rounds_law.specs.Path.{hold_of};
ghost use Rattle.rounds_law.specs.Power.{powered};
ghost use Rattle.rounds_law.specs.Start.{CanStart};

use crate::anywhere::starts::all_starts_hold;
use crate::controller::type_is_short;
use block_codec::blocks_are_read;
use controller_messages::Setup;
use device_core::only_pulls_and_plugs_change_modules;
use end_laws::{
    answers_are_heard, calls_are_heard, calls_can_be_sent, confirmations_are_heard,
    controller_goes_on, datagrams_alone_are_calls, ended_is_kept, ends_are_heard, inputs_are_heard,
    no_state_outlasts_its_patience, plug_calls_are_heard, ready_answers_are_heard,
    ready_calls_are_heard, requests_are_heard, responses_are_heard, stations_are_real,
    turns_are_of_a_kind,
};
use flash_model::Flash;
use frame_codec::frames_are_read;
use pn_values::Identity;
use records::refusals_are_not_done;

/// Both ends in any state, as in `both_ends_come_back_from_anywhere`, but with any pause of at least two units before the next start. A start
/// may find that its device still has a relation, with any controller. Then the device refuses the request of this start, and the controller
/// has ended within two rounds. It is started again after the pause, with the next set-up. A relation receives nothing in these starts, so it
/// ends. The premise is that the starts, each with its pause and one unit more, take longer than a relation lasts without its controller.
pub fn both_ends_come_back_after_any_pause<F: Flash<S>, const S: usize>(
    setup: &Setup,
    starts: &[Setup],
    identity: &Identity,
)
    // From each such state both ends exchange data within this limit: a second, the patience of each state of the controller, the time until
    // it ends if its relation is not the device's, the time that a relation lasts without its controller, the pause, and the time of a start.
    ensures again { CanStart setup.now identity.now → StartsApart setup.now identity.now starts.now → HasPatience setup.now.options
        → (silence pause : ℕ) → 1920000 ≤ silence → hold_of setup.now.plan ≤ silence → 2 ≤ pause → silence + 3 ≤ length starts.now * suc pause
        → (plant : Plant F) → IsAnywhereAmong setup.now starts.now identity.now silence plant
        → LeadsAnywhereBack F.Flash identity.now pause (again_limit setup.now silence pause) plant }
    // If the device, which was given the plan's modules, loses its power and starts again from its flash, both ends are in any state again,
    // and so the law holds.
    ensures powered { (silence : ℕ) (plant : Plant F) (device : State F) → IsAnywhereAmong setup.now starts.now identity.now silence plant
        → plant.net.device.station.real ≡ setup.now.plan.real → HasStored F.Flash setup.now plant.net.device.flash → IsStartedFrom F.Flash plant.net.device.station plant.net.device.flash device
        → IsAnywhereAmong setup.now starts.now identity.now silence (powered device plant) }
{
    only_pulls_and_plugs_change_modules();
    all_starts_hold::<F, S>(setup, starts, identity);
    stations_are_real(setup, identity);
    type_is_short(identity);
    turns_are_of_a_kind();
    controller_goes_on();
    ended_is_kept();
    requests_are_heard();
    answers_are_heard();
    calls_can_be_sent();
    calls_are_heard();
    responses_are_heard();
    ready_calls_are_heard();
    plug_calls_are_heard();
    ready_answers_are_heard();
    confirmations_are_heard();
    inputs_are_heard();
    ends_are_heard();
    datagrams_alone_are_calls();
    frames_are_read();
    blocks_are_read();
    refusals_are_not_done();
    no_state_outlasts_its_patience();
}
