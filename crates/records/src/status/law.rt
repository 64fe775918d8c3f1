//! The laws of the statuses.
ghost use Rattle.std.specs.Prelude.{◌≡◌, false};
ghost use Rattle.rpc_core.specs.Response.{is_done};
ghost use Rattle.records.specs.declared.status.call_fault.CallFault.{CallFault};
ghost use Rattle.records.specs.declared.status.operation.Operation.{Operation};
ghost use Rattle.records.specs.status.Status.{status_of};

/// The status of a refused call is never that of a call that succeeded. A law about the definitions; it has no code.
pub fn refusals_are_not_done()
    // This holds for every operation and every reason.
    ensures { (operation : Operation) (fault : CallFault) → is_done (status_of operation fault) ≡ false }
{}
