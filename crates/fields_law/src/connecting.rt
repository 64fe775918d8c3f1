//! The blocks of a Connect and of its answer, read back.
ghost use Rattle.std.specs.Prelude.{◌≡◌, ℕ, List, length};
ghost use Rattle.pn_values.specs.declared.identity.Identity.{Identity};
ghost use Rattle.pn_values.specs.declared.real.RealModule.{RealModule};
ghost use Rattle.wire.specs.blocks.modules.Lists.{Listed};
ghost use Rattle.connect_blocks.specs.declared.alarm_cr.AlarmCrBlockReq.{AlarmCrBlockReq};
ghost use Rattle.connect_blocks.specs.declared.ar_block.ArBlockReq.{ArBlockReq};
ghost use Rattle.connect_blocks.specs.declared.expected.ExpectedSubmodule.{ExpectedSubmodule};
ghost use Rattle.connect_blocks.specs.declared.iocr.IocrBlockReq.{IocrBlockReq};
ghost use Rattle.connect_blocks.specs.declared.module_diff.DiffModule.{DiffModule};
ghost use Rattle.connect_blocks.specs.declared.module_diff.DiffSubmodule.{DiffSubmodule};
ghost use Rattle.block_codec.specs.declared.block.Block.TheVariants as is;
ghost use Rattle.block_codec.specs.Block.{block_bytes};
ghost use Rattle.module_diff.specs.Diff.{Wanted, module_row, submodule_row};
ghost use Rattle.cyclic_data.specs.Layout.{Table};
ghost use Rattle.connects.specs.requests.Request.{Request, alarm_of, ar_of, iocr_of};
ghost use Rattle.plans.specs.declared.parts.Parts.{Parts};
ghost use Rattle.plans.specs.Connect.{connect_of, expected_block};
ghost use Rattle.plans.specs.Plan.{IsPlan};
ghost use Rattle.relations.specs.Connect.{connect_blocks};
ghost use Rattle.fields_law.specs.Answer.{IsConnectAnswer, IsSizedAnswer};
ghost use Rattle.fields_law.specs.Connect.{IsAlarmRequest, IsCyclicRequest, IsExpectedRequest, IsRelationRequest, IsSizedAlarm, IsSizedCyclic};
ghost use Rattle.fields_law.specs.Connect.{IsSizedModule, IsSizedRelation};
ghost use Rattle.fields_law.specs.Kept.{IsKeptAlarm, IsKeptCyclic, IsKeptRelation};
ghost use Rattle.fields_law.specs.Modules.{IsModuleDiff, IsSizedDiff, SaysModule, SaysSubmodule, module_at, parts_of, submodule_at};
ghost use Rattle.fields_law.specs.Planned.{IsConnect, IsSizedPlan};

use block_codec::blocks_are_read;

/// The blocks of a Connect, as a controller writes them, and what a device keeps of them.
pub fn connects_are_read_back()
    // An ARBlockReq, an IOCRBlockReq, an AlarmCRBlockReq, and the ExpectedSubmoduleBlockReq of a module have each field at its place.
    ensures relation { (asked : ArBlockReq) → IsSizedRelation asked → IsRelationRequest (block_bytes (is.ArBlockReq asked)) asked }
    ensures cyclic { (asked : IocrBlockReq) → IsSizedCyclic asked → IsCyclicRequest (block_bytes (is.IocrBlockReq asked)) asked }
    ensures alarm { (asked : AlarmCrBlockReq) → IsSizedAlarm asked → IsAlarmRequest (block_bytes (is.AlarmCrBlockReq asked)) asked }
    ensures expected { (entry : RealModule) → IsSizedModule entry
        → IsExpectedRequest (block_bytes (is.ExpectedSubmoduleBlockReq (expected_block entry))) entry }
    // What a device keeps of them is at these places.
    ensures kept_relation { (asked : ArBlockReq) → IsSizedRelation asked → IsKeptRelation (block_bytes (is.ArBlockReq asked)) (ar_of asked) }
    ensures kept_cyclic { (asked : IocrBlockReq) (layout : Table) → IsSizedCyclic asked
        → IsKeptCyclic (block_bytes (is.IocrBlockReq asked)) (iocr_of asked layout) }
    ensures kept_alarm { (asked : AlarmCrBlockReq) → IsSizedAlarm asked → IsKeptAlarm (block_bytes (is.AlarmCrBlockReq asked)) (alarm_of asked) }
    // The Connect of a plan has its blocks one after another, with the numbers of the plan.
    ensures plan { (parts : Parts) (ar : List ℕ) → IsPlan parts → length ar ≡ 16 → IsSizedPlan parts → IsConnect (connect_of parts ar) parts ar }
{
    blocks_are_read();
}

/// The answer to a Connect, as a device writes it.
pub fn connect_answers_are_read_back()
    // The answer has each field at its place: IOCRBlockRes in the order of the Connect, and from place 70 on the ModuleDiffBlock.
    ensures answer { (identity : Identity) (request : Request) (number : ℕ) (differing : List ℕ) → IsSizedAnswer request identity.mac number
        → IsConnectAnswer (connect_blocks identity number request differing) request identity.mac number differing }
    // A ModuleDiffBlock lists modules, each with its submodules and their states.
    ensures differing { (rows : Listed DiffModule DiffSubmodule) → IsSizedDiff rows
        → IsModuleDiff (block_bytes (is.ModuleDiffBlock (record { api = 0; modules = rows }))) rows }
    // The row of a module says which one is plugged in its slot, and the row of a submodule which one in its subslot.
    ensures module_says { (real : List RealModule) (wanted : Wanted)
        → SaysModule (module_at wanted.entry.slot_number real) wanted.entry.module_ident_number (module_row real wanted) }
    ensures submodule_says { (real : List RealModule) (slot : ℕ) (part : ExpectedSubmodule)
        → SaysSubmodule (submodule_at part.subslot_number (parts_of (module_at slot real))) (submodule_row real slot part) }
{
    blocks_are_read();
}
