//! Repeated calls, and ApplicationReady until it is answered.
ghost use Rattle.std.specs.Prelude.{◌≡◌, ◌≤◌, ◌<◌, ◌+◌, ◌/◌, ℕ, false, List, [], ◌∷◌, replicate, Some, None};
ghost use Rattle.pn_values.specs.IpSuite.{is_zero};
ghost use Rattle.rpc_core.specs.Cache.{Kept, kept_of};
ghost use Rattle.settings_journal.specs.settings_store.Machine.{Outcome};
ghost use Rattle.pn_alarms.specs.declared.abort.Abort.TheVariants.{Activity};
ghost use Rattle.records.specs.declared.writes.taken.TakenRecord.{TakenRecord};
ghost use Rattle.relations.specs.declared.phase.Phase.TheVariants.{Awaiting};
ghost use Rattle.relations.specs.Farewells.{farewell_of};
ghost use Rattle.device_frames.specs.declared.event.Event.TheVariants.{Tick};
ghost use Rattle.device_frames.specs.Heard.{Ticks};
ghost use Rattle.device_frames.specs.Sent.{farewell_frame};
ghost use Rattle.device_core.specs.State.{Live, Station};
ghost use Rattle.device_core.specs.Machine.{heard_step, run_of};
ghost use Rattle.controller_messages.specs.declared.request.Request.{Request};
ghost use Rattle.controller_messages.specs.Requests.{sequence_of};
ghost use Rattle.end_laws.specs.hearing.Stations.{IsCalled, IsNumbered};
ghost use Rattle.rounds_law.specs.Path.{HasRelation, IsAddressed, IsInputs, device_step, readied_frame, request_to};
ghost use Rattle.rounds_law.specs.Repeating.{AsksInTime, Awaits, count_of};

use controller_messages::Setup;
use end_laws::{
    calls_are_heard, calls_can_be_sent, inputs_are_heard, ready_calls_are_heard, stations_are_real,
};
use frame_codec::formats_are_sound;
use pn_values::Identity;

/// What a device does if a frame of the start-up was lost: a call comes again, or the response to ApplicationReady does not come. These
/// are laws of the machine by which each step of a device is specified.
pub fn device_repeats(setup: &Setup, identity: &Identity)
    // A call whose answer is stored is answered by the same octets, once, and nothing changes: Connect, any Write, PrmEnd, Release.
    ensures again { (outcomes : List Outcome) (station : Station) (live : Live) (request : Request) (kept : Kept)
        → is_zero setup.now.plan.station.suite.address ≡ false → station.identity ≡ identity.now → IsAddressed setup.now live
        → IsCalled request → IsNumbered request → kept_of setup.now.activity live.rest.calls ≡ Some kept
        → sequence_of setup.now.plan request ≡ kept.sequence
        → ((device_step outcomes station live (request_to setup.now identity.now request)).frames ≡ kept.frame ∷ [])
        × ((device_step outcomes station live (request_to setup.now identity.now request)).live ≡ live) }
    // An earlier call is not answered, and nothing changes.
    ensures old { (outcomes : List Outcome) (station : Station) (live : Live) (request : Request) (kept : Kept)
        → is_zero setup.now.plan.station.suite.address ≡ false → station.identity ≡ identity.now → IsAddressed setup.now live
        → IsCalled request → IsNumbered request → kept_of setup.now.activity live.rest.calls ≡ Some kept
        → sequence_of setup.now.plan request < kept.sequence
        → ((device_step outcomes station live (request_to setup.now identity.now request)).frames ≡ [])
        × ((device_step outcomes station live (request_to setup.now identity.now request)).live ≡ live) }
    // While the activity time of the relation, 60 seconds, lasts, ApplicationReady is sent with each unit that completes a second
    // since it was sent last, and with no other unit.
    ensures ready { (serial : ℕ) (outcomes : List Outcome) (station : Station) (live : Live) (waited inactive : ℕ) → station.identity ≡ identity.now
        → IsAddressed setup.now live → inactive + 1 < 1920000 → Awaits setup.now serial waited inactive live
        → AsksInTime setup.now serial identity.now waited inactive live (heard_step outcomes station live Ticks) }
    // A frame of inputs is not ApplicationReady.
    ensures apart { (octets : List ℕ) → IsInputs setup.now identity.now octets → octets ≡ readied_frame setup.now identity.now → ⊥ }
    // The unit that completes the activity time ends the relation: its ERR is sent, and nothing else.
    ensures over { (serial : ℕ) (outcomes : List Outcome) (station : Station) (live : Live) (waited inactive : ℕ) → station.identity ≡ identity.now
        → 1920000 ≤ inactive + 1 → (awaits : Awaits setup.now serial waited inactive live)
        → ((heard_step outcomes station live Ticks).frames ≡ farewell_frame identity.now (farewell_of Activity awaits.link) ∷ [])
        × ((heard_step outcomes station live Ticks).live.rest.link ≡ None) }
    // After the response to PrmEnd, if nothing is heard: in any number of units below 60 seconds ApplicationReady is sent once for each
    // whole second.
    ensures each { (serial : ℕ) (outcomes : List (List Outcome)) (station : Station) (live : Live) (taken : List TakenRecord) (last units : ℕ)
        → station.identity ≡ identity.now → IsAddressed setup.now live → live.values.is_lost ≡ false
        → HasRelation setup.now serial Awaiting taken last 0 live → units < 1920000
        → count_of (readied_frame setup.now identity.now) (run_of outcomes station live (replicate units Tick)).frames ≡ units / 32000 }
    // The same from any later state in which the device still waits.
    ensures each_from { (serial : ℕ) (outcomes : List (List Outcome)) (station : Station) (live : Live) (waited inactive units : ℕ)
        → station.identity ≡ identity.now → IsAddressed setup.now live → live.values.is_lost ≡ false
        → Awaits setup.now serial waited inactive live → waited < 32000 → inactive + units < 1920000
        → count_of (readied_frame setup.now identity.now) (run_of outcomes station live (replicate units Tick)).frames ≡ (waited + units) / 32000 }
{
    stations_are_real(setup, identity);
    formats_are_sound();
    calls_can_be_sent();
    calls_are_heard();
    inputs_are_heard();
    ready_calls_are_heard();
}
