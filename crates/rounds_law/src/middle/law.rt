//! The law of the middle of a start-up: the number of units within which both ends exchange data from each of its states.
ghost use Rattle.std.specs.Prelude.{ℕ};
ghost use Rattle.rounds_law.specs.Middle.{IsConfirming, IsEnding, IsReadied, IsWaiting, IsWriting, waiting_limit, writing_limit};
ghost use Rattle.rounds_law.specs.Rounds.{Net};
ghost use Rattle.rounds_law.specs.Stages.{Leads};
ghost use Rattle.rounds_law.specs.Start.{CanStart};

use crate::controller::{
    controller_finds_its_device, controller_goes_on_in_time, controller_takes_responses,
};
use crate::device::{
    device_answers_the_search, device_goes_on_in_time, device_takes_calls, device_takes_writes,
};
use crate::middle::controller::controller_waits_for_ready;
use crate::middle::device::device_waits_for_a_response;
use controller_messages::Setup;
use device_core::only_pulls_and_plugs_change_modules;
use flash_model::Flash;
use pn_values::Identity;

/// A start-up of this set-up whose device has the relation, if each frame is delivered within a unit, none is lost from now on, and no call
/// of the flash fails. In each clause the controller has not ended until both ends exchange data.
pub fn both_ends_go_on<F: Flash<S>, const S: usize>(setup: &Setup, identity: &Identity)
    // A Write is under way: both ends exchange data within a unit for it and for each one after it, and two.
    ensures writing { CanStart setup.now identity.now → (number : ℕ) (net : Net F) → IsWriting setup.now identity.now number net
        → Leads F.Flash (writing_limit setup.now.plan number) net }
    // PrmEnd is under way: within two units.
    ensures ending { CanStart setup.now identity.now → (net : Net F) → IsEnding setup.now identity.now net → Leads F.Flash 2 net }
    // The controller waits for ApplicationReady, which was lost: within the units until the device sends it again, and two.
    ensures waiting { CanStart setup.now identity.now → (waited : ℕ) (net : Net F) → IsWaiting setup.now identity.now waited net
        → Leads F.Flash (waiting_limit waited) net }
    // The controller waits for ApplicationReady, which is under way: within two units.
    ensures readied { CanStart setup.now identity.now → (net : Net F) → IsReadied setup.now identity.now net → Leads F.Flash 2 net }
    // The response to ApplicationReady is under way: within a unit.
    ensures confirming { CanStart setup.now identity.now → (net : Net F) → IsConfirming setup.now identity.now net → Leads F.Flash 1 net }
{
    only_pulls_and_plugs_change_modules();
    device_answers_the_search(setup, identity);
    device_takes_calls(setup, identity);
    device_takes_writes(setup, identity);
    device_goes_on_in_time(setup, identity);
    controller_finds_its_device(setup, identity);
    controller_takes_responses(setup, identity);
    controller_goes_on_in_time(setup, identity);
    device_waits_for_a_response(setup, identity);
    controller_waits_for_ready(setup, identity);
}
