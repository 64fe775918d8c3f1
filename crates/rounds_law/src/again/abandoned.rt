//! A controller in the middle of its start-up whose device has no relation any more.
ghost use Rattle.std.specs.Prelude.{◌≡◌, ◌⊎◌, ◌≤◌, ◌+◌, ℕ, true, false, List, [], ◌∷◌, None, if◌then◌else◌};
ghost use Rattle.settings_journal.specs.settings_store.Machine.{Outcome};
ghost use Rattle.device_frames.specs.Sendable.{AreSendable};
ghost use Rattle.device_core.specs.State.{Live, Station};
ghost use Rattle.controller_messages.specs.declared.request.Request.{Request};
ghost use Rattle.controller_messages.specs.declared.request.Request.TheVariants.{Release};
ghost use Rattle.controller_messages.specs.Requests.{sequence_of, write_count, writing_from};
ghost use Rattle.controller_core.specs.declared.stored.state.Cause.{Cause};
ghost use Rattle.controller_core.specs.declared.stored.state.Cause.TheVariants.{NoProgress, Refused};
ghost use Rattle.controller_core.specs.declared.stored.event.Event.TheVariants.{Tick};
ghost use Rattle.controller_core.specs.stored.State.{Controlling};
ghost use Rattle.controller_core.specs.Machine.{step_of};
ghost use Rattle.end_laws.specs.hearing.Stations.{IsCalled, IsNumbered};
ghost use Rattle.rounds_law.specs.Path.{AsksNothing, controller_step, device_step, request_to};
ghost use Rattle.rounds_law.specs.Repeating.{completes, counts_on};
ghost use Rattle.rounds_law.specs.Again.{HasEnded, IsDenial};
ghost use Rattle.rounds_law.specs.Abandoned.{Awaited, Denies, EndsFor, Expects, IsInPlan, IsNewCall, IsOfRelation, IsReleasing};
ghost use Rattle.rounds_law.specs.Abandoned.{Releases, Response, StillExpects, TriesAgain, WritesNext, is_reached, last_call};
ghost use Rattle.controller_core.specs.start_up.Answers.{is_tried};

use controller_messages::Setup;
use end_laws::{calls_are_heard, calls_can_be_sent, responses_are_heard, stations_are_real};
use pn_values::Identity;
use records::refusals_are_not_done;

/// What a device without a relation does with the calls of a controller that still has one. These are laws of the machine by which each
/// step of a device is specified.
pub fn device_denies_calls(setup: &Setup, identity: &Identity)
    // If it has the IP address of the plan, and asks its application nothing, it sends a negative response to each Write, PrmEnd and Release that
    // is new to it.
    ensures denied { (outcomes : List Outcome) (station : Station) (live : Live) (request : Request)
        → station.identity ≡ identity.now → live.rest.link ≡ None → AsksNothing live → is_reached setup.now live ≡ true
        → IsOfRelation request → IsNumbered request → IsNewCall setup.now (sequence_of setup.now.plan request) live
        → AreSendable identity.now (device_step outcomes station live (request_to setup.now identity.now request)).sent
        → Denies setup.now identity.now request live (device_step outcomes station live (request_to setup.now identity.now request)) }
    // If it does not have that address, no call changes anything, and nothing is sent.
    ensures unreached { (outcomes : List Outcome) (station : Station) (live : Live) (request : Request)
        → station.identity ≡ identity.now → is_reached setup.now live ≡ false → IsCalled request → IsNumbered request
        → ((device_step outcomes station live (request_to setup.now identity.now request)).frames ≡ [])
        × ((device_step outcomes station live (request_to setup.now identity.now request)).live ≡ live) }
{
    stations_are_real(setup, identity);
    calls_can_be_sent();
    calls_are_heard();
    refusals_are_not_done();
}

/// What a controller does after its Connect if its device refuses what follows, or is silent. These are laws of the machine by which each
/// step of a controller is specified.
pub fn controller_ends_halfway(setup: &Setup, identity: &Identity)
    // A plan has at most 32 Writes.
    ensures few { write_count setup.now.plan ≤ 32 }
    // After a negative response to a Write it ends, because it was refused, unless the plan goes on after a refused record: then it sends what
    // follows the Write. After a negative response to PrmEnd it ends. So it is unless the plan has PersistentStart and the device is busy.
    ensures denied { (serial : ℕ) (controller : Controlling) (number : ℕ) (octets : List ℕ) → number ≤ write_count setup.now.plan
        → Expects setup.now serial identity.now.mac (Response number) controller
        → (denial : IsDenial setup.now identity.now (writing_from setup.now.plan number) octets) → is_tried setup.now.plan denial.status 0 ≡ false
        → WritesNext setup.now serial identity.now number controller (controller_step controller octets)
        ⊎ EndsFor setup.now identity.now Refused (number + 1) (controller_step controller octets) }
    // If the plan has PersistentStart, and the response says that the device is busy, it sends nothing, and its request is the same call again,
    // with the next number.
    ensures tried { (serial : ℕ) (controller : Controlling) (number : ℕ) (octets : List ℕ) → number ≤ write_count setup.now.plan
        → Expects setup.now serial identity.now.mac (Response number) controller
        → (denial : IsDenial setup.now identity.now (writing_from setup.now.plan number) octets) → is_tried setup.now.plan denial.status 0 ≡ true
        → TriesAgain setup.now number (controller_step controller octets) }
    // The last unit of its patience ends it, and it sends a Release. After each other unit it still waits.
    ensures unit { (serial : ℕ) (controller : Controlling) (awaited : Awaited) → IsInPlan setup.now.plan awaited → Expects setup.now serial identity.now.mac awaited controller
        → ((controller.live.left ≡ 1) × Releases setup.now identity.now NoProgress (last_call setup.now.plan awaited) (step_of controller Tick))
        ⊎ ((controller.live.left ≡ 1 → ⊥) × StillExpects setup.now serial identity.now awaited controller (step_of controller Tick)) }
    // A negative response to its Release is a response like any other.
    ensures released { (cause : Cause) (sequence waited : ℕ) (controller : Controlling) (octets : List ℕ)
        → IsReleasing setup.now identity.now.mac cause sequence waited controller → IsDenial setup.now identity.now (Release sequence) octets
        → ((controller_step controller octets).frames ≡ []) × HasEnded setup.now cause (controller_step controller octets).controller }
    // Without a response it sends its Release again each second, and nothing else.
    ensures releasing { (cause : Cause) (sequence waited : ℕ) (controller : Controlling)
        → IsReleasing setup.now identity.now.mac cause sequence waited controller
        → ((step_of controller Tick).frames ≡ (if completes waited then request_to setup.now identity.now (Release sequence) ∷ [] else []))
        × IsReleasing setup.now identity.now.mac cause sequence (counts_on waited) (step_of controller Tick).controller }
{
    stations_are_real(setup, identity);
    responses_are_heard();
}
