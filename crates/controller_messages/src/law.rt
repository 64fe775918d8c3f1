//! A law of the definitions by which datagrams are read.
ghost use Rattle.std.specs.Prelude.{◌≡◌, Err};
ghost use Rattle.rpc_core.specs.declared.fault.RpcFault.{RpcFault};
ghost use Rattle.rpc_core.specs.declared.interface.Interface.{Interface as Served};
ghost use Rattle.rpc_core.specs.Call.{Asked, call_bytes};
ghost use Rattle.controller_messages.specs.Refusal.{refusal_of};

/// A call is not a refusal. This is a law of the definitions; there is no code.
pub fn calls_are_no_refusals()
    // The octets of a call, to either interface, are read as a refusal with a fault.
    ensures apart { (interface : Served) (call : Asked) → (fault : RpcFault) × (refusal_of (call_bytes interface call) ≡ Err fault) }
{}
