//! A device whose controller is silent.
ghost use Rattle.std.specs.Prelude.{◌≡◌, ◌≤◌, ◌⊎◌, List, None, Some, true};
ghost use Rattle.std.specs.List.{list_any};
ghost use Rattle.settings_journal.specs.settings_store.Machine.{Outcome};
ghost use Rattle.relations.specs.RelationState.{RelationState};
ghost use Rattle.device_frames.specs.declared.event.Event.{Event};
ghost use Rattle.device_core.specs.State.{Live, Station};
ghost use Rattle.device_core.specs.Machine.{run_of};
ghost use Rattle.frame_codec.specs.Outbox.{boxed};
ghost use Rattle.strangers_law.specs.Device.{marks_of, units_in};
ghost use Rattle.strangers_law.specs.Silence.{AreSilent, AreTimed, AreUnplugged, CountsDown, EndsAmong, IsStill, IsTimed, IsUnasked, IsUnaskedIn, SaysEnd, StayTimed, is_event_of, limit_in, remaining, silence_limit};

use device_core::{Device, Event, Note};
use flash_model::Flash;
use frame_codec::Outbox;

/// What becomes of a relation of a device whose controller is silent, whatever anybody else sends, the application says, and the flash does.
/// These are laws of the machine by which each step of a device is specified; the function has no code.
pub fn silent_relations_end()
    // One of the events ends the relation, or the relation is still the same: with each unit it is exactly one unit nearer to its end, and
    // with no other event. Premise of all: the application is asked no call of the relation at first. An answer to one is as if the controller
    // had called then, so the time counts from it.
    ensures counts { CountsDown }
    // If there are at least as many units among the events as its limit says, one of the events ends it. With a unit that ends it the ERR is
    // sent, and nothing else of the relation.
    ensures ends { (station : Station) (live : Live) (link : RelationState) (outcomes : List (List Outcome)) (events : List Event)
        → live.rest.link ≡ Some link → IsTimed link → IsUnasked link live.rest.asked → AreSilent station link events
        → silence_limit link ≤ units_in events → EndsAmong outcomes station live link events }
    // Any events with that many units: one of them ends the relation, or one of them is a frame or a call of the relation.
    ensures heard { (station : Station) (live : Live) (link : RelationState) (outcomes : List (List Outcome)) (events : List Event)
        → live.rest.link ≡ Some link → IsTimed link → IsUnasked link live.rest.asked → silence_limit link ≤ units_in events
        → EndsAmong outcomes station live link events ⊎ (list_any (is_event_of station.identity.mac.octets (marks_of link)) events ≡ true) }
    // If the cable is pulled, there is no relation at all after that many units.
    ensures unplugged { (station : Station) (live : Live) (outcomes : List (List Outcome)) (events : List Event)
        → AreTimed live.rest.link → IsUnaskedIn live.rest.link live.rest.asked → AreUnplugged events
        → limit_in live.rest.link ≤ units_in events → (run_of outcomes station live events).live.rest.link ≡ None }
    // The premise about the clocks holds in each state of a device after any events since its start.
    ensures timed { StayTimed }
{}

/// A unit of time at a device (`Device::step`), whatever was done to the device before.
pub fn pass_unit<F: Flash<S>, const S: usize>(
    device: &mut Device<F, S>,
    outbox: &mut Outbox,
) -> Note
    // A relation ends with it, or it is still the same and exactly one unit nearer to its end.
    ensures left { (link : RelationState) → device.old.live.rest.link ≡ Some link → IsTimed link
        → (device.new.live.rest.link ≡ None) ⊎ IsStill link 1 device.new.live.rest.link }
    // With the last unit that remains it ends.
    ensures ends { (link : RelationState) → device.old.live.rest.link ≡ Some link → IsTimed link
        → remaining link ≡ 1 → device.new.live.rest.link ≡ None }
    // If it ends, its ERR is sent, and nothing else but the response to a call of no relation that the application did not answer in time.
    ensures says { (link : RelationState) → device.old.live.rest.link ≡ Some link → IsTimed link
        → device.new.live.rest.link ≡ None → SaysEnd device.old.station device.old.live.rest.asked link (boxed outbox.new) }
{
    device.step(&Event::Tick, outbox)
}
