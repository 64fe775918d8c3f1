//! A device that still has the relation of an earlier start of its controller.
ghost use Rattle.std.specs.Prelude.{◌≡◌, ◌⊎◌, ℕ, false, suc, List, [], ◌∷◌, None};
ghost use Rattle.std.specs.List.{AllByRecursion};
ghost use Rattle.pn_values.specs.IpSuite.{is_zero};
ghost use Rattle.rpc_core.specs.Cache.{kept_of};
ghost use Rattle.settings_journal.specs.settings_store.Machine.{Outcome};
ghost use Rattle.device_frames.specs.Heard.{Ticks};
ghost use Rattle.device_frames.specs.Sendable.{AreSendable};
ghost use Rattle.device_core.specs.State.{Live, Station};
ghost use Rattle.device_core.specs.Machine.{heard_step};
ghost use Rattle.controller_messages.specs.declared.request.Request.TheVariants.{Address, Connect};
ghost use Rattle.both_ends.specs.startup.Played.{CanMeet};
ghost use Rattle.rounds_law.specs.Path.{AsksNothing, IsAddressed, IsIgnored, IsOutputs, device_step, request_to};
ghost use Rattle.rounds_law.specs.Again.{HasEarlier, IsEnd, IsOtherRefusal, unset_frame};

use crate::device::suite_is_valid;
use block_codec::blocks_are_read;
use both_ends::connect_is_taken;
use connect_blocks::plug_controls_are_read_back;
use controller_messages::Setup;
use end_laws::{
    calls_are_heard, calls_can_be_sent, plug_calls_are_heard, ready_calls_are_heard,
    requests_are_heard, stations_are_real,
};
use frame_codec::{formats_are_sound, frames_are_read};
use pn_values::Identity;
use records::refusals_are_not_done;

/// What a device does while it still has the relation of an earlier start of this controller. These are laws of the machine by which
/// each step of a device is specified.
pub fn device_keeps_an_earlier_relation(setup: &Setup, identity: &Identity)
    // It refuses the Connect, since it holds another relation, and the relation is unchanged. For other activities it stores no response.
    ensures refused { CanMeet setup.now identity.now → is_zero setup.now.plan.station.suite.address ≡ false
        → (outcomes : List Outcome) (station : Station) (live : Live) (left : ℕ) → station.identity ≡ identity.now → IsAddressed setup.now live
        → HasEarlier setup.now left live → kept_of setup.now.activity live.rest.calls ≡ None
        → AreSendable identity.now (device_step outcomes station live (request_to setup.now identity.now Connect)).sent
        → (octets : List ℕ)
        × ((device_step outcomes station live (request_to setup.now identity.now Connect)).frames ≡ octets ∷ [])
        × IsOtherRefusal setup.now identity.now octets
        × ((device_step outcomes station live (request_to setup.now identity.now Connect)).live.values ≡ live.values)
        × ((device_step outcomes station live (request_to setup.now identity.now Connect)).live.rest.link ≡ live.rest.link)
        × ((activity : List ℕ) → (activity ≡ setup.now.activity → ⊥) → kept_of activity live.rest.calls ≡ None
        → kept_of activity (device_step outcomes station live (request_to setup.now identity.now Connect)).live.rest.calls ≡ None)
        × ((device_step outcomes station live (request_to setup.now identity.now Connect)).live.rest.asked ≡ live.rest.asked) }
    // It refuses the IP suite, and nothing changes.
    ensures unset { CanMeet setup.now identity.now → (outcomes : List Outcome) (station : Station) (live : Live) (left : ℕ)
        → station.identity ≡ identity.now → HasEarlier setup.now left live
        → ((device_step outcomes station live (request_to setup.now identity.now Address)).frames ≡ unset_frame setup.now identity.now ∷ [])
        × ((device_step outcomes station live (request_to setup.now identity.now Address)).live ≡ live) }
    // Each unit brings the end of the relation one unit nearer. A controller without an established relation ignores the frames that are
    // sent with the unit.
    ensures unit { (outcomes : List Outcome) (station : Station) (live : Live) (left : ℕ) → station.identity ≡ identity.now
        → HasEarlier setup.now (suc left) live → AreSendable identity.now (heard_step outcomes station live Ticks).sent
        → AllByRecursion (IsIgnored setup.now) (heard_step outcomes station live Ticks).frames
        × ((heard_step outcomes station live Ticks).live.values ≡ live.values)
        × ((heard_step outcomes station live Ticks).live.rest.calls ≡ live.rest.calls)
        × (((heard_step outcomes station live Ticks).live.rest.link ≡ None) ⊎ HasEarlier setup.now left (heard_step outcomes station live Ticks).live)
        × AsksNothing (heard_step outcomes station live Ticks).live }
    // Without a relation, and while nothing is asked of the application, a unit changes neither the settings nor the stored responses, and
    // nothing is sent.
    ensures unrelated { (outcomes : List Outcome) (station : Station) (live : Live) → live.rest.link ≡ None → AsksNothing live
        → ((heard_step outcomes station live Ticks).frames ≡ []) × ((heard_step outcomes station live Ticks).live.values ≡ live.values)
        × ((heard_step outcomes station live Ticks).live.rest.calls ≡ live.rest.calls) × ((heard_step outcomes station live Ticks).live.rest.link ≡ None)
        × AsksNothing (heard_step outcomes station live Ticks).live }
    // Without a relation, frames of outputs and an ERR change nothing, and nothing is sent.
    ensures vain { (serial : ℕ) (outcomes : List Outcome) (station : Station) (live : Live) (octets : List ℕ) → station.identity ≡ identity.now
        → live.rest.link ≡ None → IsOutputs setup.now (Some serial) identity.now.mac octets ⊎ IsEnd setup.now serial identity.now.mac octets
        → ((device_step outcomes station live octets).frames ≡ []) × ((device_step outcomes station live octets).live ≡ live) }
    // A relation whose time ends with the next unit is over after it.
    ensures last { (outcomes : List Outcome) (station : Station) (live : Live) → station.identity ≡ identity.now → HasEarlier setup.now 1 live
        → (heard_step outcomes station live Ticks).live.rest.link ≡ None }
{
    stations_are_real(setup, identity);
    requests_are_heard();
    let station = setup.plan.station();
    suite_is_valid(&station.suite);
    calls_can_be_sent();
    calls_are_heard();
    ready_calls_are_heard();
    plug_calls_are_heard();
    plug_controls_are_read_back();
    frames_are_read();
    formats_are_sound();
    blocks_are_read();
    connect_is_taken(&setup.plan, &setup.ar);
    refusals_are_not_done();
}
