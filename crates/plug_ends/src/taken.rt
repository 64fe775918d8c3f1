//! What a device accepts with a Write after a plug.
ghost use Rattle.std.specs.Prelude.{◌≡◌, ◌⊎◌, false, ℕ, List, Some};
ghost use Rattle.std.specs.List.{AllByRecursion};
ghost use Rattle.settings_journal.specs.settings_store.Machine.{Outcome};
ghost use Rattle.frame_codec.specs.declared.udp.Caller.{Caller};
ghost use Rattle.plans.specs.declared.parts.PlanRecord.{PlanRecord};
ghost use Rattle.relations.specs.RelationState.{RelationState, passes_on};
ghost use Rattle.controller_messages.specs.declared.plug_request.PlugRequest.{PlugRequest};
ghost use Rattle.controller_messages.specs.declared.setup.Setup.{Setup};
ghost use Rattle.device_core.specs.State.{Live, Station};
ghost use Rattle.device_core.specs.Machine.{heard_step};
ghost use Rattle.end_laws.specs.hearing.Stations.{IsSetup};
ghost use Rattle.both_ends.specs.startup.View.{taken_for};
ghost use Rattle.plug_ends.specs.Taken.{IsPositive, IsWriteOf, TakesOne, hears_plug, taken_in};

use block_codec::blocks_are_read;
use end_laws::device_turns;
use records::refusals_are_not_done;

/// A device that hears the Write of a record of the plan after a plug, in any state, from any station, and whatever its flash does. This is
/// a law of the machine by which each step of a device is specified.
pub fn writes_after_plugs_are_taken()
    // Its relation has the records that it had accepted, or one more after them: the plan's record.
    ensures once { (setup : Setup) (request : PlugRequest) (entry : PlanRecord) → IsSetup setup → IsWriteOf setup request entry
        → (outcomes : List Outcome) (station : Station) (live : Live) (caller : Caller) (address : List ℕ)
        → (taken_in (heard_step outcomes station live (hears_plug setup caller address request)).live.rest.link ≡ taken_in live.rest.link)
        ⊎ TakesOne (taken_for entry) live.rest.link
        (heard_step outcomes station live (hears_plug setup caller address request)).live.rest.link }
    // If it keeps the records that it accepts, and sends a positive response, it has one more.
    ensures granted { (setup : Setup) (request : PlugRequest) (entry : PlanRecord) → IsSetup setup → IsWriteOf setup request entry
        → (outcomes : List Outcome) (station : Station) (live : Live) (caller : Caller) (address : List ℕ)
        → ((link : RelationState) → live.rest.link ≡ Some link → passes_on link ≡ false)
        → AllByRecursion (λ message. IsPositive message → TakesOne (taken_for entry) live.rest.link
        (heard_step outcomes station live (hears_plug setup caller address request)).live.rest.link)
        (heard_step outcomes station live (hears_plug setup caller address request)).sent }
{
    blocks_are_read();
    refusals_are_not_done();
    device_turns();
}
