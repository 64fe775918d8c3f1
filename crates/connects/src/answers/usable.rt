// Modules that deviate from the plan's, and yet do what the plan asks of them (IEC 61158-6-10, 5.2.4.11).
ghost use Rattle.std.specs.Prelude.{◌≡◌};
ghost use Rattle.std.specs.List.{list_all};
ghost use Rattle.connects.specs.answers.Usable.{is_usable, is_usable_module, is_usable_submodule};

use arrayvec::ArrayVec;
use connect_blocks::{DiffModule, DiffModules, DiffSubmodule};

/// ModuleState of the proper module.
const PROPER: u16 = 2;

/// ModuleState of a substitute.
const SUBSTITUTE: u16 = 3;

/// Whether a module is the proper one or a substitute.
fn is_usable_module(row: &DiffModule) -> bool
    ensures { result ≡ is_usable_module row.now }
{
    row.module_state == PROPER || row.module_state == SUBSTITUTE
}

/// Whether a submodule is the proper one or a substitute, and the relation owns it.
fn is_usable_submodule(row: &DiffSubmodule) -> bool
    ensures { result ≡ is_usable_submodule row.now }
{
    // FormatIndicator, bit 15; IdentInfo, bits 11 to 14; ARInfo, bits 7 to 10. The bits below are diagnosis and
    // requests for maintenance: with them a submodule works.
    row.submodule_state / 0x8000 == 1
        && (row.submodule_state / 0x800) % 16 <= 1
        && (row.submodule_state / 0x80).is_multiple_of(16)
}

/// Whether all modules are usable.
fn are_usable_modules(rows: &[DiffModule]) -> bool
    ensures { result ≡ list_all is_usable_module rows.now }
{
    rows.iter().all(is_usable_module)
}

/// Whether all submodules are usable.
fn are_usable_submodules(rows: &[DiffSubmodule]) -> bool
    ensures { result ≡ list_all is_usable_submodule rows.now }
{
    rows.iter().all(is_usable_submodule)
}

/// Whether the modules of a ModuleDiffBlock are all usable.
#[inline(never)]
pub(crate) fn is_usable(rows: &DiffModules<'_>) -> bool
    ensures { result ≡ is_usable rows.now }
{
    let mut modules = ArrayVec::new();
    let mut submodules = ArrayVec::new();
    rows.copy_to(&mut modules, &mut submodules);
    are_usable_modules(modules.as_slice()) && are_usable_submodules(submodules.as_slice())
}
