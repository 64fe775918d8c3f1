//! I&M0FilterData of a device.
ghost use Rattle.std.specs.Prelude.{◌≡◌, ◌+◌, ◌≤◌, ◌++◌, [], length};
ghost use Rattle.arrayvec.specs.ArrayVec.{array_vec_len};
ghost use Rattle.record_blocks.specs.FilterData.{filter_data};
ghost use Rattle.block_codec.specs.Block.{block_bytes};
ghost use Rattle.block_codec.specs.declared.block.Block.TheVariants as is;
ghost use Rattle.im_records.specs.Plugged.{device_entries, device_in, device_of, all_of, filter_record, ident_in, modules_in, parts_in};
ghost use Rattle.im_records.specs.Plugged.{submodules_in};

use crate::reading::Octets;
use arrayvec::ArrayVec;
use block_codec::{Block, FilterModule, FilterModules, FilterSubmodule, ImFilterData, write_block};
use pn_values::{Real, RealModule, RealSubmodule};
use record_blocks::filter_data_len;

/// Puts record 0xF840 into an empty list: all submodules that are plugged, and then the one that represents the device.
pub(crate) fn put_filter(out: &mut Octets, real: &Real)
    requires { out.old.items ≡ [] }
    ensures { out.new.items ≡ filter_record real.now }
{
    put_all(out, real);
    put_device(out, real);
}

/// Appends the block of all submodules that are plugged to an empty list.
#[inline(never)]
#[tactic(auto, unfolding(block_codec::specs::Block::block_size, block_codec::specs::Block::fields_of, wire::specs::blocks::Fields::body, wire::specs::blocks::Fields::version))]
fn put_all(out: &mut Octets, real: &Real)
    requires { out.old.items ≡ [] }
    ensures octets { out.new.items ≡ block_bytes (is.ImFilterDataSubmodule (all_of real.now)) }
    ensures few { array_vec_len out.new ≤ 600 }
{
    let mut modules = ArrayVec::new();
    let mut submodules = ArrayVec::new();
    push_all(&mut modules, &mut submodules, real);
    let all = ImFilterData {
        api: 0,
        modules: FilterModules::lent(&modules, &submodules),
    };
    // The length bounds the octets, so there is room for them.
    let _size = filter_data_len(&all);
    write_block(out, &Block::ImFilterDataSubmodule(all));
}

/// Appends the block of the submodule that represents the device.
#[inline(never)]
#[tactic(auto, unfolding(block_codec::specs::Block::block_size, block_codec::specs::Block::fields_of, wire::specs::blocks::Fields::body, wire::specs::blocks::Fields::version))]
fn put_device(out: &mut Octets, real: &Real)
    requires { array_vec_len out.old ≤ 600 }
    ensures { out.new.items ≡ out.old.items ++ block_bytes (is.ImFilterDataDevice (device_of real.now)) }
{
    let mut modules = ArrayVec::new();
    let mut submodules = ArrayVec::new();
    push_device(&mut modules, &mut submodules, device_of(real));
    let device = ImFilterData {
        api: 0,
        modules: FilterModules::lent(&modules, &submodules),
    };
    // The length bounds the octets, so there is room for them.
    let _size = filter_data_len(&device);
    write_block(out, &Block::ImFilterDataDevice(device));
}

/// Appends the entries of all modules that have a submodule, and of their submodules, to empty lists.
fn push_all(
    modules: &mut ArrayVec<FilterModule, 16>,
    submodules: &mut ArrayVec<FilterSubmodule, 64>,
    real: &Real,
)
    requires no_modules { modules.old.items ≡ [] }
    requires no_submodules { submodules.old.items ≡ [] }
    ensures modules { modules.new.items ≡ modules_in real.now.modules.items }
    ensures submodules { submodules.new.items ≡ submodules_in real.now.modules.items }
    ensures few_modules { length modules.new.items ≤ 16 }
    ensures few_submodules { length submodules.new.items ≤ 64 }
{
    for entry in real.modules.as_slice() {
        // A module without submodules has no entry, because I&M data belongs to submodules.
        if !entry.submodules.is_empty() {
            modules.push(FilterModule {
                slot_number: entry.slot,
                module_ident_number: entry.ident,
                number_of_submodules: entry.submodules.len() as u16,
            });
        }
        push_parts(submodules, entry.submodules.as_slice());
    }
}

/// Appends the entries of submodules. There must be room.
fn push_parts(entries: &mut ArrayVec<FilterSubmodule, 64>, parts: &[RealSubmodule])
    requires { array_vec_len entries.old + length parts.now ≤ 64 }
    ensures items { entries.new.items ≡ entries.old.items ++ parts_in parts.now }
    ensures len { array_vec_len entries.new ≡ array_vec_len entries.old + length parts.now }
{
    for part in parts {
        entries.push(FilterSubmodule {
            subslot_number: part.subslot,
            submodule_ident_number: part.ident,
        });
    }
}

/// The ident numbers of the module in slot 0 and its submodule in subslot 1, which represents the device.
fn device_of(real: &Real) -> Option<(u32, u32)>
    ensures { result ≡ device_in real.now.modules.items }
{
    for entry in real.modules.as_slice() {
        if entry.slot == 0 {
            if let Some(ident) = ident_of(entry, 1) {
                return Some((entry.ident, ident));
            }
        }
    }
    None
}

/// The ident number of the submodule in this subslot of a module, or `None` if it is empty.
fn ident_of(entry: &RealModule, subslot: u16) -> Option<u32>
    ensures { result ≡ ident_in subslot entry.now.submodules.items }
{
    for part in entry.submodules.as_slice() {
        if part.subslot == subslot {
            return Some(part.ident);
        }
    }
    None
}

/// Appends the entries of the device alone to empty lists.
fn push_device(
    modules: &mut ArrayVec<FilterModule, 1>,
    submodules: &mut ArrayVec<FilterSubmodule, 1>,
    idents: Option<(u32, u32)>,
)
    requires no_modules { modules.old.items ≡ [] }
    requires no_submodules { submodules.old.items ≡ [] }
    ensures modules { modules.new.items ≡ (device_entries idents).modules }
    ensures submodules { submodules.new.items ≡ (device_entries idents).submodules }
    ensures few_modules { length modules.new.items ≤ 1 }
    ensures few_submodules { length submodules.new.items ≤ 1 }
{
    if let Some((module_ident, submodule_ident)) = idents {
        modules.push(FilterModule {
            slot_number: 0,
            module_ident_number: module_ident,
            number_of_submodules: 1,
        });
        submodules.push(FilterSubmodule {
            subslot_number: 1,
            submodule_ident_number: submodule_ident,
        });
    }
}
