//! A station and the frames of strangers: what the services beside a device or a controller do changes no relation either.
ghost use Rattle.strangers_law.specs.Station.{LeavesServed, LeavesStations};

use flash_model::Flash;
use frame_codec::frames_are_read;
use rpc_core::responses_are_read;

/// What the frames of strangers do to a device and to a controller with the services beside it: ARP, echo, LLDP, calls to others and
/// fragments among them. These are laws of what `IoStation::step` and `ServedController::step` do; the function has no code.
pub fn strangers_leave_a_station<F: Flash<S>, const S: usize>()
    // A frame that does not belong to the relation by its octets alone, and completes no call that does, leaves the relation of the
    // station's device as it was. What the device sends at it is no cyclic frame, no alarm frame and no call, or a stored answer again.
    ensures device { LeavesStations F.Flash }
    // A controller beside its services is as it was, and sends nothing.
    ensures controller { LeavesServed }
{
    frames_are_read();
    responses_are_read();
}
