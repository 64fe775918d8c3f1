//! One step of a device, and which frames it answers.
ghost use Rattle.std.specs.Prelude.{◌≡◌, ◌<◌, ◌≤◌, [], ◌∷◌, ℕ, List, get_or, length};
ghost use Rattle.arrayvec.specs.ArrayVec.{ArrayVec};
ghost use Rattle.frame_codec.specs.Outbox.{boxed};
ghost use Rattle.device_frames.specs.declared.event.Event.TheVariants.{Frame};
ghost use Rattle.answers_law.specs.Requests.{Block, IsElsewhere, IsGet, IsIdentify, IsOfOther, IsResolve, IsSet, IsUnasked};
ghost use Rattle.answers_law.specs.Answers.{get_answer, identify_answer, resolve_answer};
ghost use Rattle.answers_law.specs.Device.{AnswersSet, AreOctets, IsReadImplicit, station_at};

use device_core::{Device, Event, Note};
use flash_model::Flash;
use frame_codec::Outbox;

/// A step of a device (`Device::step`), whatever was done to the device before.
pub fn device_answers<F: Flash<S>, const S: usize>(
    device: &mut Device<F, S>,
    event: &Event<'_>,
    outbox: &mut Outbox,
) -> Note
    // Nothing is sent at a frame that goes to other stations; at a packet of IPv4 to another address, a Read Implicit among them; and at any
    // frame but IPv4, cyclic frames and alarms that is no request for this device: an Identify that it does not fit in each block, a Get or a
    // Set to others, a response, a packet of ARP for another address, what it does not know.
    ensures elsewhere { (frame : ArrayVec ℕ) → event.now ≡ Frame frame
        → IsElsewhere (station_at device.old.station device.old.live) frame.items → boxed outbox.new ≡ [] }
    ensures of_other { (frame : ArrayVec ℕ) → event.now ≡ Frame frame
        → IsOfOther (station_at device.old.station device.old.live) frame.items → boxed outbox.new ≡ [] }
    ensures unasked { (frame : ArrayVec ℕ) → event.now ≡ Frame frame
        → IsUnasked (station_at device.old.station device.old.live) frame.items → boxed outbox.new ≡ [] }
    // An Identify that the device fits is answered once: to the station that asked, with its Xid, and with what the running settings say.
    ensures identify { (frame : ArrayVec ℕ) → event.now ≡ Frame frame
        → IsIdentify (station_at device.old.station device.old.live) frame.items
        → boxed outbox.new ≡ identify_answer (station_at device.old.station device.old.live) frame.items ∷ [] }
    // So is a Get: each pair once, with its value or with a BlockError.
    ensures get { (frame : ArrayVec ℕ) (pairs : List Block) → event.now ≡ Frame frame
        → IsGet (station_at device.old.station device.old.live) pairs frame.items
        → boxed outbox.new ≡ get_answer (station_at device.old.station device.old.live) pairs frame.items ∷ [] }
    // So is a Set: each block with a BlockError.
    ensures set { (frame : ArrayVec ℕ) (blocks : List Block) → event.now ≡ Frame frame
        → IsSet (station_at device.old.station device.old.live) blocks frame.items
        → AnswersSet (station_at device.old.station device.old.live) blocks frame.items (boxed outbox.new) }
    // At a whole Read Implicit at most one frame is sent.
    ensures implicit { (call : List ℕ)
        → IsReadImplicit device.old.station.identity.mac device.old.live.values.running.suite.address event.now call
        → length (boxed outbox.new) ≤ 1 }
    // A request of ARP for the running address is answered once, to the station that asked.
    ensures resolve { (frame : ArrayVec ℕ) → event.now ≡ Frame frame
        → IsResolve (station_at device.old.station device.old.live) frame.items
        → boxed outbox.new ≡ resolve_answer (station_at device.old.station device.old.live) frame.items ∷ [] }
{
    look(event);
    device.step(event, outbox)
}

// The octets of a frame are below 256.
fn look(event: &Event<'_>)
    ensures { AreOctets event.now }
{
    if let Event::Frame(frame) = event {
        are_octets(frame.as_slice());
    }
}

fn are_octets(octets: &[u8])
    ensures { (k : ℕ) → get_or octets.now k 0 < 256 }
{
    let _ = octets;
}
