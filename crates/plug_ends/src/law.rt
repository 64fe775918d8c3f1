//! The calls of a controller come one at a time.
ghost use Rattle.std.specs.Prelude.{◌≡◌, ◌⊎◌, false, ℕ, List};
ghost use Rattle.rpc_core.specs.Response.{Answered};
ghost use Rattle.controller_messages.specs.Heard.{Responds, heard_of};
ghost use Rattle.network_world.specs.declared.moves.Move.{Move};
ghost use Rattle.network_world.specs.World.{AreMade, is_ended, last_world, World};
ghost use Rattle.both_ends.specs.startup.Played.{Begins, CanMeet};
ghost use Rattle.plug_ends.specs.Calls.{EndsParameters, EndsRelation, HasAnswered, IsNewCall, IsPresent, IsUnrefused, WasSent};

use both_ends::worlds_start_up;
use controller_messages::Setup;
use end_laws::{
    calls_are_heard, calls_can_be_sent, controller_goes_on, datagrams_alone_are_calls,
    device_goes_on, device_sends_what_it_owes, device_turns, ended_is_kept, frames_are_messages,
    messages_are_addressed, packets_are_heard, plug_calls_are_heard, ready_answers_are_heard,
    ready_calls_are_heard, responses_are_heard, stations_are_real, turns_are_of_a_kind,
    turns_begin_beside,
};
use flash_model::Flash;
use frame_codec::formats_are_sound;
use pn_values::Identity;

/// The calls of a controller of this set-up with this device, in the worlds of any moves, whatever the flash of the device does. The
/// network may lose, repeat and reorder frames, so any call that was ever sent may arrive.
pub fn calls_come_one_at_a_time<F: Flash<S>, const S: usize>(setup: &Setup, identity: &Identity)
    // While the controller has not ended: each call in a frame that was sent and that is new to the device is the one that the
    // controller makes now, octet for octet; or it ends parameters, as a controller that received ApplicationReady waits for no
    // response to its PrmEnd.
    ensures present { CanMeet setup.now identity.now →
        (first : World F) (run : List (Move × World F)) → Begins setup.now identity.now first
        → AreMade F.Flash first run → is_ended (last_world first run).controller.live.phase ≡ false
        → (frame : List ℕ) → WasSent (last_world first run) frame → (new : IsNewCall (last_world first run) frame)
        → EndsParameters new.call ⊎ IsPresent (last_world first run) frame }
    // Also after its end: two calls that are new to the device, and end neither parameters nor the relation, are the same octets.
    ensures one { CanMeet setup.now identity.now →
        (first : World F) (run : List (Move × World F)) → Begins setup.now identity.now first
        → AreMade F.Flash first run
        → (frame other : List ℕ) → WasSent (last_world first run) frame → WasSent (last_world first run) other
        → (new : IsNewCall (last_world first run) frame) (next : IsNewCall (last_world first run) other)
        → (EndsParameters new.call → ⊥) → (EndsRelation new.call → ⊥) → (EndsParameters next.call → ⊥) → (EndsRelation next.call → ⊥)
        → frame ≡ other }
    // A response to a call of the controller, in any frame, is to a call that the device answered: it stored the response to that call or
    // to a later one.
    ensures answered { CanMeet setup.now identity.now →
        (first : World F) (run : List (Move × World F)) → Begins setup.now identity.now first
        → AreMade F.Flash first run
        → (frame : List ℕ) → WasSent (last_world first run) frame
        → (response : Answered) → heard_of (last_world first run).controller.setup.plan.controller frame ≡ Responds response
        → response.header.activity ≡ (last_world first run).controller.setup.activity
        → HasAnswered (last_world first run).controller.setup.activity response.header.sequence (last_world first run).device.live.rest.calls }
    // The controller never hears a reject or a fault: the device sends none.
    ensures unrefused { CanMeet setup.now identity.now →
        (first : World F) (run : List (Move × World F)) → Begins setup.now identity.now first
        → AreMade F.Flash first run → IsUnrefused (last_world first run) }
{
    stations_are_real(setup, identity);
    worlds_start_up::<F, S>(setup, identity);
    controller_goes_on();
    frames_are_messages();
    turns_are_of_a_kind();
    turns_begin_beside();
    ended_is_kept();
    device_goes_on();
    device_turns();
    device_sends_what_it_owes();
    messages_are_addressed();
    formats_are_sound();
    datagrams_alone_are_calls();
    packets_are_heard();
    calls_can_be_sent();
    calls_are_heard();
    responses_are_heard();
    ready_calls_are_heard();
    plug_calls_are_heard();
    ready_answers_are_heard();
}
