//! Worlds that begin at a device that had relations before.
ghost use Rattle.std.specs.Prelude.{◌≡◌, ◌∷◌, [], ℕ, List, None};
ghost use Rattle.rpc_core.specs.Cache.{Kept, kept_of};
ghost use Rattle.asked_records.specs.Asked.{question_in};
ghost use Rattle.controller_core.specs.Machine.{first as first_live, opening_of};
ghost use Rattle.controller_messages.specs.declared.setup.Setup.{Setup as NextSetup};
ghost use Rattle.network_world.specs.declared.moves.Move.{Move};
ghost use Rattle.network_world.specs.World.{AreMade, last_world, World};
ghost use Rattle.both_ends.specs.startup.Played.{AreUnnamed, Begins, CanMeet};

use crate::startup::worlds_start_up;
use controller_messages::Setup;
use end_laws::device_turns;
use flash_model::Flash;
use pn_values::Identity;

/// The next controller can begin at the device as the controller of this set-up left it, whatever the flash of the device
/// does. So the laws of both ends hold for each relation of a device, as for its first.
pub fn later_worlds_begin<F: Flash<S>, const S: usize>(setup: &Setup, identity: &Identity)
    // A device that has answered no call since its start has stored no answer of any activity.
    ensures first { (activity : List ℕ) (calls : List Kept) → calls ≡ [] → kept_of activity calls ≡ None }
    // Any moves leave the identity of the device, what is plugged in it, and its options.
    ensures station { CanMeet setup.now identity.now →
        (first : World F) (run : List (Move × World F)) → Begins setup.now identity.now first
        → AreMade F.Flash first run → (last_world first run).device.station ≡ first.device.station }
    // Any moves leave at the device no answer to a call of another activity that it had not stored at the beginning.
    ensures others { CanMeet setup.now identity.now →
        (first : World F) (run : List (Move × World F)) → Begins setup.now identity.now first
        → AreMade F.Flash first run
        → (activity : List ℕ) → (setup.now.activity ≡ activity → ⊥) → kept_of activity first.device.live.rest.calls ≡ None
        → kept_of activity (last_world first run).device.live.rest.calls ≡ None }
    // If the device has no relation after any moves, nothing is asked of its application: what is asked is dropped with the relation.
    ensures unasked { CanMeet setup.now identity.now →
        (first : World F) (run : List (Move × World F)) → Begins setup.now identity.now first
        → AreMade F.Flash first run → (last_world first run).device.live.rest.link ≡ None
        → question_in (last_world first run).device.live.rest.asked ≡ None }
    // If the device has no relation after any moves, a world begins as the laws require that has this device and a new controller, whose
    // calls have another activity: one of which the device had stored no answer at the beginning. Its plan has no record that the
    // application of the device answers.
    ensures later { CanMeet setup.now identity.now →
        (first : World F) (run : List (Move × World F)) → Begins setup.now identity.now first
        → AreMade F.Flash first run → (last_world first run).device.live.rest.link ≡ None
        → (next : NextSetup) → (setup.now.activity ≡ next.activity → ⊥) → kept_of next.activity first.device.live.rest.calls ≡ None
        → AreUnnamed first.device.station.named next.plan.records.items
        → (world : World F) → world.device ≡ (last_world first run).device → world.controller.setup ≡ next
        → world.controller.live ≡ first_live next.plan → world.sent ≡ opening_of world.controller ∷ []
        → Begins next identity.now world }
{
    device_turns();
    worlds_start_up::<F, S>(setup, identity);
}
