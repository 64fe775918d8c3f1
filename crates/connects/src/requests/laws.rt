//! What holds for the places of a Connect, and for its intervals.
ghost use Rattle.std.specs.Prelude.{◌≡◌, ◌*◌, ◌<◌, ◌≤◌, ℕ, List, None, Some, Ok, Err};
ghost use Rattle.connect_blocks.specs.declared.iocr.IocrType.{IocrType};
ghost use Rattle.cyclic_data.specs.declared.place.Place.{Place};
ghost use Rattle.cyclic_data.specs.declared.place.ExpectedData.{ExpectedData};
ghost use Rattle.cyclic_data.specs.Layout.{IsLayout};
ghost use Rattle.records.specs.declared.status.call_fault.CallFault.TheVariants.{IocrField};
ghost use Rattle.connects.specs.requests.Layouts.{layout_at};
ghost use Rattle.connects.specs.requests.Request.{Request};
ghost use Rattle.connects.specs.requests.Handled.{request_of, request_within};

/// How places are checked. This is a law of the definitions that specify `ConnectRequest::read`; the function has no
/// code.
#[tactic(auto, using(crate::proofs::RequestsHandled::layout_good))]
pub fn layouts_are_taken()
    // Places that are a valid layout are accepted as they are.
    ensures good { (size : ℕ) (direction : IocrType) (expected : List ExpectedData) (places : List Place)
        → IsLayout size direction expected places
        → layout_at size direction expected places ≡ Ok (record { data_length = size; places = places }) }
{}

/// How a smallest interval is kept. These are laws of the definitions that specify `ConnectRequest::read`; the function
/// has no code. An interval is SendClockFactor times ReductionRatio.
pub fn intervals_are_kept()
    // A Connect that is accepted asks for no smaller interval, and is read as without the smallest interval.
    ensures accepted { (smallest : ℕ) (blocks : List ℕ) (request : Request) → request_within smallest None blocks ≡ Ok request →
        (request_of None blocks ≡ Ok request) × (smallest ≤ request.input.send_clock_factor * request.input.reduction_ratio)
        × (smallest ≤ request.output.send_clock_factor * request.output.reduction_ratio) }
    // One that would be accepted without it, and asks for no smaller interval, is accepted as it is.
    ensures same { (smallest : ℕ) (blocks : List ℕ) (request : Request) → request_of None blocks ≡ Ok request →
        smallest ≤ request.input.send_clock_factor * request.input.reduction_ratio →
        smallest ≤ request.output.send_clock_factor * request.output.reduction_ratio → request_within smallest None blocks ≡ Ok request }
    // One that asks for a smaller interval of inputs, or of outputs, is refused with field 10 of an IOCRBlockReq.
    ensures input { (smallest : ℕ) (blocks : List ℕ) (request : Request) → request_of None blocks ≡ Ok request →
        request.input.send_clock_factor * request.input.reduction_ratio < smallest → request_within smallest None blocks ≡ Err (IocrField 10) }
    ensures output { (smallest : ℕ) (blocks : List ℕ) (request : Request) → request_of None blocks ≡ Ok request →
        request.output.send_clock_factor * request.output.reduction_ratio < smallest → request_within smallest None blocks ≡ Err (IocrField 10) }
    // While a relation exists no interval is looked at.
    ensures standing { (smallest : ℕ) (standing : List ℕ) (blocks : List ℕ) →
        request_within smallest (Some standing) blocks ≡ request_of (Some standing) blocks }
{}
