//! What both ends exchange while strangers call the device too.
ghost use Rattle.std.specs.Prelude.{◌≡◌, ◌≤◌, ◌+◌, [], length, None, Some, false, true, ℕ};
ghost use Rattle.diagnosis.specs.World.{IsPrefixOf};
ghost use Rattle.diagnosis.specs.declared.reports.priority.Priority.TheVariants.{High, Low};
ghost use Rattle.relations.specs.Exchanged.{output_in};
ghost use Rattle.relations.specs.RelationState.{RelationState, is_exchanging};
ghost use Rattle.end_laws.specs.turns.Alarms.{last_of};
ghost use Rattle.both_ends.specs.exchange.Given.{AreOfOneFrame, zero_for};
ghost use Rattle.both_ends.specs.exchange.Over.{IsOneOfTheLastTwo, raised_over, reported_over, taken_over};
ghost use Rattle.both_ends.specs.exchange.Shown.{has_accepted};
ghost use Rattle.both_ends.specs.exchange.Sized.{NoneIsAtZero};
ghost use Rattle.both_ends.specs.exchange.Told.{AreKnown, IsTold, known_at};
ghost use Rattle.strangers_law.specs.CallingRuns.{RelatesWithCallers, TakesWithCallers};

use crate::callers::callers_leave_both_ends;
use both_ends::{worlds_show_what_is_given, worlds_take_alarms};
use controller_messages::Setup;
use flash_model::Flash;
use pn_values::Identity;

/// The outputs, the alarms and the diagnoses of this set-up with this device while strangers call the device too (`callers_leave_both_ends`): what
/// `worlds_show_what_is_given` and `worlds_take_alarms` say holds of the moves of both ends in a run with callers. The function has no code.
pub fn callers_leave_exchanges<F: Flash<S>, const S: usize>(setup: &Setup, identity: &Identity)
    // As long as the device has accepted no cyclic frame in its relation, all outputs that it shows are zeros.
    ensures zeros { RelatesWithCallers F.Flash setup.now identity.now (λ first moves link. has_accepted link ≡ false
        → (slot subslot : ℕ) → output_in slot subslot (Some link) ≡ zero_for setup.now slot subslot) }
    // After that, all outputs come from one frame of the controller, with the value set last for each submodule when the frame was sent, or are
    // zeros of a touched place: where something was pulled or plugged that was not released since.
    ensures values { RelatesWithCallers F.Flash setup.now identity.now (λ first moves link. has_accepted link ≡ true
        → AreOfOneFrame setup.now identity.now first moves link) }
    // If at most 32,768 alarms are raised, those that the controller accepted are a prefix of those that the device raised: in order, each once.
    ensures front { TakesWithCallers F.Flash setup.now identity.now (λ first moves last. length (raised_over first moves) ≤ 32768
        → IsPrefixOf (taken_over High first moves) (raised_over first moves)) }
    // Then at most the last of them is not accepted.
    ensures last { TakesWithCallers F.Flash setup.now identity.now (λ first moves last. length (raised_over first moves) ≤ 32768
        → length (raised_over first moves) ≤ length (taken_over High first moves) + 1) }
    // The controller shows the alarm that it accepted last, and none if it accepted none.
    ensures shown { TakesWithCallers F.Flash setup.now identity.now (λ first moves last.
        last.controller.live.alarm ≡ last_of (taken_over High first moves)) }
    // If at most 32,768 alarms are raised, the controller shows the last one raised or the one before it.
    ensures alarm { TakesWithCallers F.Flash setup.now identity.now (λ first moves last. length (raised_over first moves) ≤ 32768
        → IsOneOfTheLastTwo (raised_over first moves) last.controller.live.alarm) }
    // If at most 32,768 changes of diagnosis, pulls and plugs are reported, those that the controller accepted are a prefix of those that the
    // device reported.
    ensures reports { TakesWithCallers F.Flash setup.now identity.now (λ first moves last. length (reported_over first moves) ≤ 32768
        → IsPrefixOf (taken_over Low first moves) (reported_over first moves)) }
    // Then at most the last of them is not accepted.
    ensures reported_last { TakesWithCallers F.Flash setup.now identity.now (λ first moves last. length (reported_over first moves) ≤ 32768
        → length (reported_over first moves) ≤ length (taken_over Low first moves) + 1) }
    // While the device exchanges data, the changes that it reported, and then those that wait, lead from no diagnosis to those that exist: changes
    // of diagnosis, pulls, which end the diagnoses of what was pulled, and plugs.
    ensures told { TakesWithCallers F.Flash setup.now identity.now (λ first moves last. AreKnown first.device.live.rest.diagnoses
        → (link : RelationState) → last.device.live.rest.link ≡ Some link → is_exchanging link.phase ≡ true
        → IsTold link.flow.low last.device.live.rest.diagnoses (reported_over first moves)) }
    // When all of them were confirmed, and nothing was plugged in a subslot 0 at the start, a controller whose relation is established has in
    // its list what exists at the submodules of the relation.
    ensures list { TakesWithCallers F.Flash setup.now identity.now (λ first moves last. AreKnown first.device.live.rest.diagnoses
        → NoneIsAtZero first.device.live.rest.real.modules.items → length (reported_over first moves) ≤ 32768
        → (link : RelationState) → last.device.live.rest.link ≡ Some link → is_exchanging link.phase ≡ true
        → link.flow.low.alarms.sender.standing ≡ None → link.flow.low.waiting ≡ [] → last.controller.live.stands ≡ true
        → last.controller.live.diagnosis ≡ known_at link.flow.low last.device.live.rest.diagnoses) }
{
    callers_leave_both_ends::<F, S>(setup, identity);
    worlds_show_what_is_given::<F, S>(setup, identity);
    worlds_take_alarms::<F, S>(setup, identity);
}
