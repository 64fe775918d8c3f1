//! The law of the plan.
ghost use Rattle.std.specs.Prelude.{◌≡◌, ◌≤◌, ◌*◌, true, List, ℕ, None, Some, Ok};
ghost use Rattle.std.specs.List.{AllByRecursion};
ghost use Rattle.connect_blocks.specs.ArBlock.{is_some_uuid};
ghost use Rattle.module_diff.specs.Diff.{diff_of};
ghost use Rattle.connects.specs.requests.Handled.{asked_initiator, request_of, request_within};
ghost use Rattle.plans.specs.declared.parts.Parts.{Parts};
ghost use Rattle.plans.specs.Connect.{IsRead, blocks_of, connect_of};
ghost use Rattle.plans.specs.Plan.{IsPlan};
ghost use Rattle.relations.specs.Connect.{connect_within};
ghost use Rattle.relations.specs.declared.options.DeviceOptions.{DeviceOptions};
ghost use Rattle.both_ends.specs.startup.answer.Answer.{AcceptsInterval};
ghost use Rattle.both_ends.specs.startup.request.Request.{no_rows, request_for};

use connects::{intervals_are_kept, layouts_are_taken};
use plans::{Plan, packed_places_are_asked};
use wire::Uuid;

/// What a device reads from the Connect of any plan. This is a law of the definitions; the function has no code.
pub fn requests_are_read()
    // A device without a relation reads exactly the plan's request, and so accepts it, if each block is read as it was
    // written.
    ensures read { (parts : Parts) (ar : List ℕ) → IsPlan parts → AllByRecursion IsRead (blocks_of parts ar)
        → request_of None (connect_of parts ar) ≡ Ok (request_for parts ar) }
    // It asks for a relation with the plan's controller.
    ensures initiator { (parts : Parts) (ar : List ℕ) → AllByRecursion IsRead (blocks_of parts ar)
        → asked_initiator (connect_of parts ar) ≡ Some parts.controller.mac }
    // If the device has the plan's modules, none of them differs.
    ensures same { (parts : Parts) (ar : List ℕ) → IsPlan parts →
        diff_of (request_for parts ar).expected parts.real.modules.items ≡ no_rows }
{
    layouts_are_taken();
    packed_places_are_asked();
}

/// The law of the plan: what a device reads from the Connect of this plan, with this ARUUID.
pub fn connect_is_taken(plan: &Plan, ar: &Uuid)
    // If the ARUUID is not zero, a device without a relation reads exactly the plan's request, and so accepts it.
    ensures read { is_some_uuid ar.now ≡ true → request_of None (connect_of plan.now ar.now) ≡ Ok (request_for plan.now ar.now) }
    // A device with a smallest interval reads it in the same way, if the plan's interval is not smaller. It has one unit at
    // least.
    ensures within { (smallest : ℕ) → is_some_uuid ar.now ≡ true → smallest ≤ plan.now.times.send_clock_factor * plan.now.times.reduction_ratio →
        request_within smallest None (connect_of plan.now ar.now) ≡ Ok (request_for plan.now ar.now) }
    ensures least { 1 ≤ plan.now.times.send_clock_factor * plan.now.times.reduction_ratio }
    // A device with any options accepts it from the plan's controller, if its smallest interval is not greater: also one whose
    // relations are held by their own controllers alone.
    ensures own { (options : DeviceOptions) → is_some_uuid ar.now ≡ true → AcceptsInterval options plan.now →
        connect_within options plan.now.controller.mac None (connect_of plan.now ar.now) ≡ Ok (request_for plan.now ar.now) }
    // If the device has the plan's modules, none of them differs.
    ensures same { diff_of (request_for plan.now ar.now).expected plan.now.real.modules.items ≡ no_rows }
{
    requests_are_read();
    intervals_are_kept();
    // These are called for their clauses on the plan and its Connect.
    let _modules = plan.real();
    let _octets = plan.connect(ar);
}
