//! The law of a start: the number of units within which both ends exchange data.
ghost use Rattle.std.specs.Prelude.{◌+◌, ◌-◌};
ghost use Rattle.controller_messages.specs.Requests.{write_count};
ghost use Rattle.rounds_law.specs.Asking.{IsAskingAgain, Stage, stage_limit};
ghost use Rattle.rounds_law.specs.Rounds.{ExchangeWithin, Net, Rounds};
ghost use Rattle.rounds_law.specs.Stages.{IsAddressing, IsConnecting, IsLooking, Leads};
ghost use Rattle.rounds_law.specs.Start.{CanStart, IsStart, start_up_limit};

use crate::controller::{
    controller_asks_again, controller_finds_its_device, controller_goes_on_in_time,
    controller_takes_responses,
};
use crate::device::{
    device_answers_the_search, device_goes_on_in_time, device_takes_calls, device_takes_writes,
};
use controller_messages::Setup;
use device_core::only_pulls_and_plugs_change_modules;
use flash_model::Flash;
use pn_values::Identity;

/// A start of this set-up with this device, if each frame is delivered within a unit, none is lost, and no call of the flash fails.
pub fn both_ends_start<F: Flash<S>, const S: usize>(setup: &Setup, identity: &Identity)
    // From a start, both ends exchange data within n + 5 units, where n is the number of Writes of the plan.
    ensures start { CanStart setup.now identity.now → (first last : Net F) → IsStart setup.now identity.now first
        → Rounds F.Flash (start_up_limit setup.now.plan) first last → ExchangeWithin F.Flash (start_up_limit setup.now.plan) first last }
    // The same from each of the first stages: the search, the Set of the IP suite, and the Connect. Frames that a controller without a
    // relation ignores may be under way.
    ensures looking { CanStart setup.now identity.now → (net : Net F) → IsLooking setup.now identity.now net
        → Leads F.Flash (start_up_limit setup.now.plan) net }
    ensures addressing { CanStart setup.now identity.now → (net : Net F) → IsAddressing setup.now identity.now net
        → Leads F.Flash (write_count setup.now.plan + 4) net }
    ensures connecting { CanStart setup.now identity.now → (net : Net F) → IsConnecting setup.now identity.now net
        → Leads F.Flash (write_count setup.now.plan + 3) net }
    // The same if the request of such a stage was lost: it is sent again as soon as its second is over.
    ensures repeated { CanStart setup.now identity.now → (stage : Stage) (net : Net F) → IsAskingAgain setup.now identity.now stage net
        → Leads F.Flash (32000 - net.controller.live.waited + stage_limit setup.now.plan stage) net }
{
    only_pulls_and_plugs_change_modules();
    controller_asks_again(setup);
    device_answers_the_search(setup, identity);
    device_takes_calls(setup, identity);
    device_takes_writes(setup, identity);
    device_goes_on_in_time(setup, identity);
    controller_finds_its_device(setup, identity);
    controller_takes_responses(setup, identity);
    controller_goes_on_in_time(setup, identity);
}
