//! The numbers of the modules in a device and of moves have their sizes.
ghost use Rattle.std.specs.Prelude.{◌<◌};
ghost use Rattle.std.specs.List.{AllByRecursion};
ghost use Rattle.both_ends.specs.exchange.Sized.{AreSizedModules, IsSizedPart};
ghost use Rattle.both_ends.specs.exchange.Told.{IsSizedMove};

use device_core::Local;
use network_world::Move;
use pn_values::{Real, RealModule, RealSubmodule};

/// A `u16` has 16 bits.
fn has_16_bits(number: u16)
    ensures { number < 65536 }
{
    let _number = number;
}

/// A `u32` has 32 bits.
fn has_32_bits(number: u32)
    ensures { number < 4294967296 }
{
    let _number = number;
}

/// The numbers of submodules have their sizes.
fn parts_are_sized(parts: &[RealSubmodule])
    ensures { AllByRecursion IsSizedPart parts.now }
{
    for part in parts {
        has_16_bits(part.subslot);
        has_32_bits(part.ident);
    }
}

/// The numbers of modules and of their submodules have their sizes.
fn entries_are_sized(modules: &[RealModule])
    ensures { AreSizedModules modules.now }
{
    for entry in modules {
        has_16_bits(entry.slot);
        has_32_bits(entry.ident);
        parts_are_sized(entry.submodules.as_slice());
    }
}

/// Any modules meet the premise of the law of alarms about what is plugged in a device. This is a law of the
/// definitions.
pub fn modules_are_sized(real: &Real)
    // Slots and subslots have 16 bits, and ident numbers have 32.
    ensures { AreSizedModules real.now.modules.items }
{
    entries_are_sized(real.modules.as_slice());
}

/// The numbers of a move have their sizes.
fn move_is_sized(one: &Move)
    ensures { IsSizedMove one.now }
{
    if let Move::Application(Local::Diagnosis(_, _, _, error, _)) = one {
        has_16_bits(*error);
    }
    if let Move::Application(Local::Plug(_, ident, part)) = one {
        has_32_bits(*ident);
        has_32_bits(part.ident);
    }
}

/// Any moves meet the premise of the laws of alarms and of reported diagnosis about them. This is a law of the definitions.
pub fn moves_are_sized(moves: &[Move])
    // A ChannelErrorType has 16 bits, and an ident number has 32.
    ensures { AllByRecursion IsSizedMove moves.now }
{
    for one in moves {
        move_is_sized(one);
    }
}
