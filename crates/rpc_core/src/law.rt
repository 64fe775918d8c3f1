//! The laws of calls and responses.
ghost use Rattle.std.specs.Prelude.{◌≡◌, ◌≤◌, ◌+◌, ◌++◌, IsErr, List, ℕ, length, Ok};
ghost use Rattle.rpc_core.specs.declared.interface.Interface.{Interface};
ghost use Rattle.rpc_core.specs.declared.interface.Interface.TheVariants.{Controller, Device};
ghost use Rattle.rpc_core.specs.Call.{Asked, call_bytes, call_of};
ghost use Rattle.rpc_core.specs.Interface.{interface_uuid};
ghost use Rattle.rpc_core.specs.Response.{Answered, response_bytes, response_of};
ghost use Rattle.rpc_core.specs.Sendable.{CanBeAnswered, CanBeCalled, IsHeader};

/// A call that can be sent is read back. This is a law of the definitions. No code is involved.
pub fn calls_are_read()
    // A call that can be sent is read back at its interface, with anything after it.
    ensures read { (interface : Interface) (call : Asked) (more : List ℕ) → CanBeCalled interface call →
        call_of interface (call_bytes interface call ++ more) ≡ Ok call }
    // A call that can be sent fits a frame.
    ensures short { (interface : Interface) (call : Asked) → CanBeCalled interface call → length (call_bytes interface call) ≤ 1472 }
{}

/// A response that can be sent is read back. This is a law of the definitions. No code is involved.
pub fn responses_are_read()
    // A response that can be sent is read back, with anything after it.
    ensures read { (response : Answered) (more : List ℕ) → CanBeAnswered response →
        response_of (response_bytes response ++ more) ≡ Ok response }
    // A response that can be sent fits a frame.
    ensures short { (response : Answered) → CanBeAnswered response → length (response_bytes response) ≤ 1472 }
    // If its header's fields have their sizes, a response has 100 octets and those of its blocks, however many there
    // are.
    ensures long { (response : Answered) → IsHeader response.header → length (response_bytes response) ≡ 100 + length response.blocks }
{}

/// No octets are both a call and a response. These are laws of the definitions. No code is involved.
pub fn calls_and_responses_differ()
    // Octets that are a call are not a response.
    ensures call { (interface : Interface) (bytes : List ℕ) (call : Asked) → call_of interface bytes ≡ Ok call → IsErr (response_of bytes) }
    // Octets that are a response are not a call.
    ensures response { (interface : Interface) (bytes : List ℕ) (response : Answered) → response_of bytes ≡ Ok response →
        IsErr (call_of interface bytes) }
    // A written call is never read as a response, whatever its length and fields.
    ensures called { (interface : Interface) (call : Asked) (more : List ℕ) → IsErr (response_of (call_bytes interface call ++ more)) }
    // A written response is never read as a call, whatever its length and fields.
    ensures answered { (interface : Interface) (response : Answered) (more : List ℕ) →
        IsErr (call_of interface (response_bytes response ++ more)) }
{}

/// A call is read at the interface that it names and at no other. These are laws of the definitions. No code is
/// involved.
pub fn calls_name_their_interface()
    // A call that is read at an interface names that interface.
    ensures named { (interface : Interface) (bytes : List ℕ) (call : Asked) → call_of interface bytes ≡ Ok call →
        call.header.interface ≡ interface_uuid interface }
    // What a device reads as a call, a controller does not.
    ensures device { (bytes : List ℕ) (call : Asked) → call_of Device bytes ≡ Ok call → IsErr (call_of Controller bytes) }
    // What a controller reads as a call, a device does not.
    ensures controller { (bytes : List ℕ) (call : Asked) → call_of Controller bytes ≡ Ok call → IsErr (call_of Device bytes) }
{}
