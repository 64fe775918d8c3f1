//! Both ends of a network, begun and played, with the laws of start-up, outputs, alarms and reported diagnosis.
ghost use Rattle.std.specs.Prelude.{◌≡◌, ◌<◌, ℕ, None, OnErr, OnOk, length, take};
ghost use Rattle.rpc_core.specs.Cache.{kept_of};
ghost use Rattle.asked_records.specs.Asked.{question_in};
ghost use Rattle.both_ends.specs.startup.Played.{AreUnnamed, CanMeet};
ghost use Rattle.both_ends.specs.exchange.Together.{IsBegunAndCut, IsBegunAndPlayed};

use crate::exchange::alarms::worlds_take_alarms;
use crate::exchange::outputs::worlds_show_what_is_given;
use crate::exchange::plugged::{modules_are_sized, moves_are_sized};
use crate::startup::{begin_world, later_worlds_begin, worlds_start_up};
use controller_messages::Setup;
use device_core::Device;
use flash_model::Flash;
use network_world::{Move, World};
use pn_values::Identity;
use std::alloc::{AllocError, Global};

/// A world of this device and a controller of this set-up in which these moves were made, and whether memory ran out
/// before the last one. The device must have this identity, must have stored no answer to a call of the activity of this
/// set-up, and must have no relation. Nothing may be asked of its application, and it may answer no record of the plan: `are_unnamed`
/// says whether it does. It may have had any relations before. `can_meet` says whether the two can meet.
pub fn play_both_ends<F: Flash<S>, const S: usize>(
    alloc: Global,
    device: Device<F, S>,
    setup: Setup,
    identity: &Identity,
    moves: &[Move],
) -> (World<F, S>, Result<(), AllocError>)
    requires uncalled { kept_of setup.activity device.live.rest.calls ≡ None }
    requires unrelated { device.live.rest.link ≡ None }
    requires unasked { question_in device.live.rest.asked ≡ None }
    requires unnamed { AreUnnamed device.station.named setup.plan.records.items }
    requires known { device.station.identity ≡ identity.now }
    requires meets { CanMeet setup identity.now }
    // If all moves were made, the laws of start-up, outputs, alarms and diagnosis hold, whatever the flash of the device does; and when the
    // device has no relation, the next controller can begin with it, if its calls have another activity.
    ensures played { OnOk result.1 (IsBegunAndPlayed F.Flash setup device moves.now result.0) }
    // If memory ran out, the same holds of the moves before the one for which it did.
    ensures cut { OnErr result.1 (IsBegunAndCut F.Flash setup device moves.now result.0) }
{
    worlds_start_up::<F, S>(&setup, identity);
    worlds_show_what_is_given::<F, S>(&setup, identity);
    worlds_take_alarms::<F, S>(&setup, identity);
    later_worlds_begin::<F, S>(&setup, identity);
    modules_are_sized(device.real());
    moves_are_sized(moves);
    let mut world = begin_world(alloc, device, setup);
    let played = world.play(moves);
    (world, played)
}
