//! The law of any state: what both ends need to exchange data again, if each frame is delivered from now on.
ghost use Rattle.std.specs.Prelude.{◌≡◌, ◌≤◌, ◌+◌, ℕ, false, List};
ghost use Rattle.std.specs.List.{AllByRecursion};
ghost use Rattle.device_core.specs.Cycle.{IsStartedFrom};
ghost use Rattle.device_core.specs.State.{State};
ghost use Rattle.device_frames.specs.Heard.{Ticks, heard_of};
ghost use Rattle.controller_core.specs.declared.stored.event.Event.TheVariants.{Tick};
ghost use Rattle.controller_core.specs.stored.State.{Controlling};
ghost use Rattle.controller_core.specs.Machine.{step_of};
ghost use Rattle.end_laws.specs.hearing.Hearing.{comes};
ghost use Rattle.rounds_law.specs.Again.{AreStarts, LeadsBack, Plant, made};
ghost use Rattle.rounds_law.specs.Anywhere.{ChoosesWell, HasPatience, HasStored, IsAnyController, IsAnyDevice, IsAnywhere, LeadsAnywhereBack, anywhere_limit};
ghost use Rattle.rounds_law.specs.AnywhereFrames.{AreOwn, IsAnything, IsOwn};
ghost use Rattle.rounds_law.specs.AnywhereRuns.{Happened, IsBeginning, IsLeftBy, Past};
ghost use Rattle.rounds_law.specs.AnywhereSame.{IsOfThisStart};
ghost use Rattle.rounds_law.specs.Path.{controller_step, hold_of};
ghost use Rattle.rounds_law.specs.Power.{powered};
ghost use Rattle.rounds_law.specs.Rounds.{Goes};
ghost use Rattle.rounds_law.specs.Start.{CanStart};

mod again;
mod starts;

use crate::controller::type_is_short;
use crate::device::{connect_answers_are_whole, plan_is_placed, suite_is_valid};
use crate::law::both_ends_start;
pub use again::both_ends_come_back_after_any_pause;
use block_codec::blocks_are_read;
use both_ends::connect_is_taken;
use controller_messages::Setup;
use device_core::only_pulls_and_plugs_change_modules;
use end_laws::{
    answers_are_heard, calls_are_heard, calls_can_be_sent, confirmations_are_heard,
    controller_goes_on, datagrams_alone_are_calls, device_turns, ended_is_kept, ends_are_heard,
    inputs_are_heard, no_state_outlasts_its_patience, packets_are_heard, plug_calls_are_heard,
    ready_answers_are_heard, ready_calls_are_heard, requests_are_heard, responses_are_heard,
    stations_are_real, turns_are_of_a_kind,
};
use flash_model::Flash;
use frame_codec::frames_are_read;
use pn_values::Identity;
use records::refusals_are_not_done;

/// Both ends in any state: the device may have any relation or none, the controller may be in any state that events lead to, and any frames
/// of theirs may be under way, in any order, repeated or not. This is what losses, repeats, power failures and restarts can leave. From then
/// on each frame is delivered within a unit, none is lost, and no call of the flash fails. Then both ends exchange data again.
///
/// The premises: the plan can start with this device. Each state of the controller has a patience. No relation of the device lasts longer
/// without its controller than `silence`, which has at least the 1,920,000 units (60 seconds) of its activity time and the units of the
/// plan's data hold time. A controller that ends is started again, with the next set-up, after a pause that is four units longer. The device
/// is the plan's, has the plan's name, and has the plan's IP suite or can store it. No request of the application is open. The plan may write
/// parameters after a plug: requests for that may wait and be under way, and places may be plugged.
pub fn both_ends_come_back_from_anywhere<F: Flash<S>, const S: usize>(
    setup: &Setup,
    next: &Setup,
    identity: &Identity,
)
    // From each such state both ends exchange data within this limit: a second, the patience of each state of the controller, the time until
    // it ends if its relation is not the device's, which is longer if the plan writes parameters after a plug, the pause, and the time of a start.
    ensures anywhere { CanStart setup.now identity.now → CanStart next.now identity.now → AreStarts setup.now next.now → HasPatience setup.now.options
        → (silence pause : ℕ) → 1920000 ≤ silence → hold_of setup.now.plan ≤ silence → silence + 4 ≤ pause
        → (plant : Plant F) → IsAnywhere setup.now next.now identity.now silence plant
        → LeadsAnywhereBack F.Flash identity.now pause (anywhere_limit setup.now silence pause) plant }
    // They do so in the same relation, within the same limit, if no relation of an earlier start is in the way. One can be if a Connect of it
    // came late, after a power failure: then the device is in that relation and the controller in its own, and their cyclic frames may not
    // differ.
    ensures same { CanStart setup.now identity.now → CanStart next.now identity.now → AreStarts setup.now next.now → HasPatience setup.now.options
        → (silence pause : ℕ) → 1920000 ≤ silence → hold_of setup.now.plan ≤ silence → silence + 4 ≤ pause
        → (plant : Plant F) → IsOfThisStart setup.now plant.net → IsAnywhere setup.now next.now identity.now silence plant
        → LeadsBack F.Flash pause (anywhere_limit setup.now silence pause) plant }
    // So they do, in the same relation, after any run since both ends were started, in which any frames of either end were lost, repeated,
    // delayed and overtaken, and the device lost its power any number of times; and any of the frames that they have sent may be under way.
    ensures run { CanStart setup.now identity.now → CanStart next.now identity.now → AreStarts setup.now next.now → HasPatience setup.now.options
        → (silence pause : ℕ) → 1920000 ≤ silence → hold_of setup.now.plan ≤ silence → silence + 4 ≤ pause
        → (number : ℕ) (first last : Past F) → IsBeginning F.Flash setup.now identity.now first → Happened F.Flash setup.now number first last
        → (plant : Plant F) → IsLeftBy next.now last plant
        → LeadsBack F.Flash pause (anywhere_limit setup.now silence pause) plant }
    // A controller that was just made is in such a state.
    ensures first { IsAnyController setup.now (made setup.now) }
    // So is a controller after each unit, and after each frame of a device in such a state. What it sends is what a device in such a state
    // may hear.
    ensures controller { HasPatience setup.now.options → (controller : Controlling) → IsAnyController setup.now controller
        → (IsAnyController setup.now (step_of controller Tick).controller × AreOwn setup.now IsAnything (step_of controller Tick).frames)
        × ((octets : List ℕ) → ChoosesWell setup.now octets
        → IsAnyController setup.now (controller_step controller octets).controller × AreOwn setup.now IsAnything (controller_step controller octets).frames) }
    // So is a device after each unit, and after each frame of such a controller. What it sends is what the controller may hear.
    ensures device { CanStart setup.now identity.now → CanStart next.now identity.now → AreStarts setup.now next.now
        → (silence : ℕ) → 1920000 ≤ silence → hold_of setup.now.plan ≤ silence → (before after : State F) (frames : List (List ℕ))
        → IsAnyDevice setup.now next.now identity.now silence before.station before.live
        → (Goes F.Flash before Ticks frames after
        → IsAnyDevice setup.now next.now identity.now silence after.station after.live × AllByRecursion (ChoosesWell setup.now) frames)
        × ((octets : List ℕ) → Goes F.Flash before (heard_of before.station.identity (comes octets)) frames after → IsOwn setup.now IsAnything octets
        → IsAnyDevice setup.now next.now identity.now silence after.station after.live × AllByRecursion (ChoosesWell setup.now) frames) }
    // If the device, which was given the plan's modules, loses its power and starts again from its flash, both ends are in any state again,
    // and so the law holds. If no relation of an earlier start was in the way, none is then.
    ensures powered { (silence : ℕ) (plant : Plant F) (device : State F) → IsAnywhere setup.now next.now identity.now silence plant
        → plant.net.device.station.real ≡ setup.now.plan.real → HasStored F.Flash setup.now plant.net.device.flash → IsStartedFrom F.Flash plant.net.device.station plant.net.device.flash device
        → IsAnywhere setup.now next.now identity.now silence (powered device plant)
        × (IsOfThisStart setup.now plant.net → IsOfThisStart setup.now (powered device plant).net) }
{
    only_pulls_and_plugs_change_modules();
    both_ends_start::<F, S>(next, identity);
    stations_are_real(setup, identity);
    stations_are_real(next, identity);
    let station = setup.plan.station();
    suite_is_valid(&station.suite);
    connect_answers_are_whole(setup, identity, station.suite.address());
    connect_is_taken(&setup.plan, &setup.ar);
    connect_answers_are_whole(next, identity, station.suite.address());
    connect_is_taken(&next.plan, &next.ar);
    plan_is_placed(&setup.plan);
    type_is_short(identity);
    device_turns();
    turns_are_of_a_kind();
    controller_goes_on();
    ended_is_kept();
    requests_are_heard();
    answers_are_heard();
    packets_are_heard();
    calls_can_be_sent();
    calls_are_heard();
    responses_are_heard();
    ready_calls_are_heard();
    plug_calls_are_heard();
    ready_answers_are_heard();
    confirmations_are_heard();
    inputs_are_heard();
    ends_are_heard();
    datagrams_alone_are_calls();
    frames_are_read();
    blocks_are_read();
    refusals_are_not_done();
    no_state_outlasts_its_patience();
}
