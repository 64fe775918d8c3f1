//! Units of time, and cyclic frames.
ghost use Rattle.std.specs.Prelude.{◌≡◌, ◌≤◌, ◌<◌, ◌+◌, ℕ, true, suc, List, []};
ghost use Rattle.std.specs.List.{AllByRecursion};
ghost use Rattle.settings_journal.specs.settings_store.Machine.{Outcome};
ghost use Rattle.records.specs.declared.writes.taken.TakenRecord.{TakenRecord};
ghost use Rattle.relations.specs.declared.phase.Phase.{Phase};
ghost use Rattle.relations.specs.Timers.{is_timed};
ghost use Rattle.device_frames.specs.Heard.{Ticks};
ghost use Rattle.device_core.specs.State.{Live, Station};
ghost use Rattle.device_core.specs.Machine.{heard_step};
ghost use Rattle.rounds_law.specs.Path.{Exchanges, HasRelation, IsFree, IsInputs, IsOutputs, device_step, hold_of};

use controller_messages::Setup;
use end_laws::stations_are_real;
use frame_codec::formats_are_sound;
use pn_values::Identity;

/// What units of time and cyclic frames do at a device. These are laws of the machine by which each step of a device is specified.
pub fn device_goes_on_in_time(setup: &Setup, identity: &Identity)
    // Without a relation: after a unit the device still has none, and nothing is sent.
    ensures free { (outcomes : List Outcome) (station : Station) (live : Live) → IsFree setup.now live
        → ((heard_step outcomes station live Ticks).frames ≡ []) × ((heard_step outcomes station live Ticks).live.values ≡ live.values)
        × IsFree setup.now (heard_step outcomes station live Ticks).live }
    // Before data is exchanged, a unit changes only the timers of the relation, and only inputs are sent.
    ensures unit { (serial : ℕ) (outcomes : List Outcome) (station : Station) (live : Live) (phase : Phase) (taken : List TakenRecord) (last age : ℕ)
        → station.identity ≡ identity.now → is_timed phase ≡ true → age < 31000 → HasRelation setup.now serial phase taken last age live
        → AllByRecursion (IsInputs setup.now identity.now) (heard_step outcomes station live Ticks).frames
        × ((heard_step outcomes station live Ticks).live.values ≡ live.values)
        × HasRelation setup.now serial phase taken last (suc age) (heard_step outcomes station live Ticks).live }
    // A frame of outputs does not change this, and nothing is sent.
    ensures outputs { (serial : ℕ) (outcomes : List Outcome) (station : Station) (live : Live) (phase : Phase) (taken : List TakenRecord) (last age : ℕ)
        (octets : List ℕ) → station.identity ≡ identity.now → IsOutputs setup.now (Some serial) identity.now.mac octets
        → HasRelation setup.now serial phase taken last age live
        → ((device_step outcomes station live octets).frames ≡ []) × ((device_step outcomes station live octets).live.values ≡ live.values)
        × HasRelation setup.now serial phase taken last age (device_step outcomes station live octets).live }
    // While data is exchanged, a unit and a frame of outputs do not end the exchange.
    ensures later_unit { (serial : ℕ) (outcomes : List Outcome) (station : Station) (live : Live) (age : ℕ) → station.identity ≡ identity.now
        → age + 2 ≤ hold_of setup.now.plan → age < 3000 → Exchanges setup.now serial age live
        → ((heard_step outcomes station live Ticks).live.values ≡ live.values) × Exchanges setup.now serial (suc age) (heard_step outcomes station live Ticks).live }
    ensures later_outputs { (serial : ℕ) (outcomes : List Outcome) (station : Station) (live : Live) (age : ℕ) (octets : List ℕ) → station.identity ≡ identity.now
        → IsOutputs setup.now (Some serial) identity.now.mac octets → Exchanges setup.now serial age live
        → ((device_step outcomes station live octets).frames ≡ []) × ((device_step outcomes station live octets).live.values ≡ live.values)
        × Exchanges setup.now serial age (device_step outcomes station live octets).live }
{
    formats_are_sound();
    stations_are_real(setup, identity);
}
