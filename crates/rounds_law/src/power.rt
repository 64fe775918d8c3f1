//! The law of a power failure of the device while data is exchanged.
ghost use Rattle.std.specs.Prelude.{◌≤◌, ◌+◌, ℕ};
ghost use Rattle.device_core.specs.Cycle.{IsStartedFrom};
ghost use Rattle.device_core.specs.State.{State};
ghost use Rattle.rounds_law.specs.Again.{AreStarts, IsDeserted, LeadsBack, Plant};
ghost use Rattle.rounds_law.specs.Power.{CanLosePower, powered};
ghost use Rattle.rounds_law.specs.Start.{CanStart, start_up_limit};

use crate::again::both_ends_come_back;
use controller_messages::Setup;
use flash_model::Flash;
use pn_values::Identity;

/// A device that loses its power while data is exchanged, and starts again from its flash. Its controller is started again, with the next
/// set-up, when it has ended. Each frame is delivered within a unit after that, none is lost, and no call of the flash fails.
pub fn power_comes_back<F: Flash<S>, const S: usize>(
    setup: &Setup,
    next: &Setup,
    identity: &Identity,
)
    // The controller is deserted.
    ensures deserts { (left : ℕ) (plant : Plant F) (device : State F) → CanLosePower F.Flash setup.now next.now identity.now left plant
        → IsStartedFrom F.Flash plant.net.device.station plant.net.device.flash device
        → IsDeserted setup.now next.now identity.now left (powered device plant) }
    // Both ends exchange data again within the rest of the data hold time of the controller, the pause, and the time of a start.
    ensures back { CanStart setup.now identity.now → CanStart next.now identity.now → AreStarts setup.now next.now
        → (pause left : ℕ) → 2 ≤ pause → (plant : Plant F) (device : State F) → CanLosePower F.Flash setup.now next.now identity.now left plant
        → IsStartedFrom F.Flash plant.net.device.station plant.net.device.flash device
        → LeadsBack F.Flash pause (left + pause + start_up_limit setup.now.plan) (powered device plant) }
{
    both_ends_come_back::<F, S>(setup, next, identity);
}
