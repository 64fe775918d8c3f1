//! The search for a device, and its IP suite.
ghost use Rattle.std.specs.Prelude.{◌≡◌, ◌≤◌, ◌+◌, ℕ, false, length};
ghost use Rattle.pn_values.specs.declared.settings.Settings.{Settings};
ghost use Rattle.controller_core.specs.declared.stored.state.State.TheVariants.{Addressing, Connecting};
ghost use Rattle.controller_core.specs.stored.State.{Controlling};
ghost use Rattle.controller_messages.specs.declared.request.Request.TheVariants.{Address, Connect};
ghost use Rattle.controller_messages.specs.Requests.{write_count};
ghost use Rattle.rounds_law.specs.Path.{Asks, AsksNext, FindsIt, IsSearching, IsSized, controller_step, found_frame, set_frame};
ghost use Rattle.rounds_law.specs.Start.{IsPatient};

use controller_messages::Setup;
use end_laws::{answers_are_heard, stations_are_real};
use pn_values::Identity;

/// A station type has at most 25 octets.
pub(crate) fn type_is_short(identity: &Identity)
    ensures { length identity.now.station_type.items ≤ 25 }
{
    let _length = identity.station_type.len();
}

/// What a controller does with the answers of the device that it searches for. These are laws of the machine by which each step of a
/// controller is specified.
pub fn controller_finds_its_device(setup: &Setup, identity: &Identity)
    // It sends the Connect to the device of the plan, or the Set of the IP suite if the device does not have the plan's suite.
    ensures found { IsPatient setup.now.plan setup.now.options → identity.now.vendor_id ≡ setup.now.plan.station.vendor_id
        → identity.now.device_id ≡ setup.now.plan.station.device_id
        → (settings : Settings) (controller : Controlling) → settings.name ≡ setup.now.plan.station.name
        → IsSized settings.suite → IsSearching setup.now controller
        → FindsIt setup.now identity.now settings (write_count setup.now.plan + 2)
        (controller_step controller (found_frame setup.now identity.now settings)) }
    // After the IP suite is set, it sends the Connect.
    ensures set { IsPatient setup.now.plan setup.now.options → (controller : Controlling) (spare : ℕ)
        → Asks setup.now identity.now.mac Addressing Address None spare controller
        → AsksNext setup.now identity.now Connecting Connect None (write_count setup.now.plan + 2)
        (controller_step controller (set_frame setup.now identity.now)) }
{
    stations_are_real(setup, identity);
    answers_are_heard();
    type_is_short(identity);
}
