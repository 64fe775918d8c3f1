//! What the services beside one end send, and the relation at the other end.
ghost use Rattle.strangers_law.specs.Beside.{AddressesAreKept, ServicesLeaveCalls, ServicesLeaveControllers, ServicesLeaveDevices, SizesAreKept};

use flash_model::Flash;

/// What the services beside a device and beside a controller send by themselves: ARP, replies to echo requests, LLDP, acknowledgements of
/// fragments, refusals of calls, and answers of the endpoint mapper. It belongs to no relation of the other end, so it neither ends nor
/// changes one. These are laws of what `IoStation::step` and `ServedController::step` do; the function has no code.
pub fn services_leave_relations<F: Flash<S>, const S: usize>()
    // What the services of a station with a device send at any event is strange to a controller, if the event is no packet to this
    // station with the activity of the controller's own calls.
    ensures device { ServicesLeaveControllers F.Flash }
    // At a whole call to the interface of the device, with one of its operations, they send nothing, whoever sent it.
    ensures calls { ServicesLeaveCalls F.Flash }
    // The premise about sizes holds at the start of a station, and after each event.
    ensures sizes { SizesAreKept F.Flash }
    // What the services of a controller send at any event is the frame of a quiet stranger to each device, with a relation and without one.
    ensures controller { ServicesLeaveDevices }
    // The premise about addresses holds at the start of a controller, and after each event.
    ensures addresses { AddressesAreKept }
{}
