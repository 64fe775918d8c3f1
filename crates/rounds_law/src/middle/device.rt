//! A device that waits for the response to ApplicationReady.
ghost use Rattle.std.specs.Prelude.{◌≡◌, ◌<◌, ◌+◌, ℕ, List, []};
ghost use Rattle.settings_journal.specs.settings_store.Machine.{Outcome};
ghost use Rattle.device_frames.specs.Heard.{Ticks};
ghost use Rattle.device_core.specs.State.{Live, Station};
ghost use Rattle.device_core.specs.Machine.{heard_step};
ghost use Rattle.rounds_law.specs.Middle.{IsAwaiting, WaitsOn};
ghost use Rattle.rounds_law.specs.Path.{IsAddressed, IsOutputs, device_step};

use controller_messages::Setup;
use end_laws::stations_are_real;
use frame_codec::formats_are_sound;
use pn_values::Identity;

/// What a device does that waits for the response to ApplicationReady. These are laws of the machine by which each step of a device is
/// specified.
pub fn device_waits_for_a_response(setup: &Setup, identity: &Identity)
    // While the activity time of the relation, 60 seconds, lasts, the device still waits after a unit. ApplicationReady is sent with each unit
    // that completes a second since it was sent last, and with no other unit.
    ensures unit { (serial : ℕ) (outcomes : List Outcome) (station : Station) (live : Live) (waited inactive : ℕ) → station.identity ≡ identity.now
        → IsAddressed setup.now live → inactive + 1 < 1920000 → IsAwaiting setup.now serial waited inactive live
        → WaitsOn setup.now serial identity.now waited inactive live (heard_step outcomes station live Ticks) }
    // A frame of outputs does not change this, and nothing is sent.
    ensures outputs { (serial : ℕ) (outcomes : List Outcome) (station : Station) (live : Live) (waited inactive : ℕ) (octets : List ℕ)
        → station.identity ≡ identity.now → IsOutputs setup.now (Some serial) identity.now.mac octets → IsAwaiting setup.now serial waited inactive live
        → ((device_step outcomes station live octets).frames ≡ []) × ((device_step outcomes station live octets).live.values ≡ live.values)
        × IsAwaiting setup.now serial waited inactive (device_step outcomes station live octets).live }
{
    formats_are_sound();
    stations_are_real(setup, identity);
}
