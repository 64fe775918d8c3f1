//! A controller ends the parameters of a plug when the device granted them all.
ghost use Rattle.std.specs.Prelude.{◌≡◌, false, List, map, Some};
ghost use Rattle.controller_messages.specs.declared.plug_request.PlugRequest.{PlugRequest};
ghost use Rattle.controller_messages.specs.declared.setup.Setup.{Setup};
ghost use Rattle.controller_core.specs.declared.stored.event.Event.{Event};
ghost use Rattle.controller_core.specs.Machine.{first};
ghost use Rattle.plug_law.specs.Plugged.{WasPlugged};
ghost use Rattle.plug_law.specs.Written.{EndWith, after_events, granted_over, numbers_before, step_in, writes_for};

/// The parameters of a place after its plug, over any events of a controller from its start. This is a law of the definitions.
pub fn parameters_are_written()
    // If the plan does not say that the start-up goes on after a refused record: while the controller asks a device for a record of a
    // place after its plug, or for PrmEnd, the device granted last the plan's records for this place that come before it, or all before
    // PrmEnd: in order, each once, for this plug and no earlier one, and nothing else in between.
    ensures written { (setup : Setup) (events : List Event) (request : PlugRequest) → setup.plan.continue_on_refused_record ≡ false
        → (after_events setup (first setup.plan) events).access.plug ≡ Some request
        → EndWith (map step_in (granted_over setup (first setup.plan) events))
        (writes_for request (numbers_before setup.plan request.slot request.subslot request.step)) }
    // And it asks only after an alarm that it accepted before, which says that this submodule was plugged and has the plug's number.
    ensures plugged { (setup : Setup) (events : List Event) (request : PlugRequest)
        → (after_events setup (first setup.plan) events).access.plug ≡ Some request
        → WasPlugged setup (first setup.plan) events request.slot request.subslot request.number }
{}
