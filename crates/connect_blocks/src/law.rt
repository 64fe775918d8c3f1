//! Laws of the formats.
ghost use Rattle.std.specs.Prelude.{◌≡◌, ◌≤◌, ◌+◌, ◌*◌, ℕ, List, Ok, length};
ghost use Rattle.connect_blocks.specs.declared.module_diff.ModuleDiffBlock.{ModuleDiffBlock};
ghost use Rattle.connect_blocks.specs.ModuleDiff.{module_diff};
ghost use Rattle.connect_blocks.specs.PlugControl.{plug_control};
ghost use Rattle.connect_blocks.specs.declared.plug_control.PlugControlBlock.{PlugControlBlock};

/// The largest number of octets that the fields of a ModuleDiffBlock take. A law about the definitions; it has no code.
pub fn diffs_are_short()
    // The fields take at most 8 octets for NumberOfAPIs, API and NumberOfModules, 10 octets for each module and 8 for
    // each submodule.
    ensures { (block : ModuleDiffBlock) →
        module_diff.size block ≤ 8 + length block.modules.modules * 10 + length block.modules.submodules * 8 }
{}

/// What is written of a PrmEnd or an ApplicationReady after a plug is read back. A law about the definitions; it has no code.
pub fn plug_controls_are_read_back()
    // A block that fits, and the octets that follow it.
    ensures { (kind : ℕ) (block : PlugControlBlock) (tail : List ℕ) → (plug_control kind).Fits block →
        (plug_control kind).read ((plug_control kind).write block tail) ≡ Ok (block, tail) }
{}
