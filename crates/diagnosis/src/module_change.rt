//! A pull or a plug in a relation, as an alarm reports it (IEC 61158-6-10, 4.8 and 5.2.5).
ghost use Rattle.std.specs.Prelude.{◌≡◌};
ghost use Rattle.diagnosis.specs.Queue.{alarmed, is_plug_at, kind_by, module_type, reach_of};

use module_diff::{Affected, ChangeKind, RealChange};

/// What was pulled or plugged.
#[derive(Clone, Copy, Debug, PartialEq, Eq)]
pub enum ModuleChangeKind {
    /// Pull: a submodule, or a module with all its submodules.
    Pull,
    /// Pull module: a module with all its submodules, for a controller that asks for this type.
    PullModule,
    /// Plug: the expected submodule.
    Plug,
    /// Plug wrong submodule: another submodule, or one in another module.
    PlugWrong,
}

/// A pull or a plug in a relation.
#[derive(Clone, Copy, Debug, PartialEq, Eq)]
pub struct ModuleChange {
    /// The kind.
    pub kind: ModuleChangeKind,
    /// SlotNumber.
    pub slot: u16,
    /// SubslotNumber, 0 for a module with all its submodules.
    pub subslot: u16,
}

/// The kind under which a change is reported: by the type of its own for a module if the controller `asks` for that, and as a
/// wrong plug if the place `differs` after it.
fn kind_of(kind: ChangeKind, asks: bool, differs: bool) -> ModuleChangeKind
    ensures { result ≡ kind_by kind asks differs }
{
    match kind {
        ChangeKind::Pull => ModuleChangeKind::Pull,
        ChangeKind::PullModule if asks => ModuleChangeKind::PullModule,
        ChangeKind::PullModule => ModuleChangeKind::Pull,
        ChangeKind::Plug if differs => ModuleChangeKind::PlugWrong,
        ChangeKind::Plug => ModuleChangeKind::Plug,
    }
}

impl ModuleChange {
    /// That of an accepted change, in a relation whose controller `asks` for the type of pulled modules or not, and in which
    /// the place `differs` after it or not.
    pub fn of(change: &RealChange, asks: bool, differs: bool) -> ModuleChange
        ensures { result ≡ alarmed change.now asks differs }
    {
        ModuleChange {
            kind: kind_of(change.kind, asks, differs),
            slot: change.slot,
            subslot: change.subslot,
        }
    }

    /// AlarmType.
    pub fn alarm_type(&self) -> u16
        ensures { result ≡ module_type self.now }
    {
        match self.kind {
            ModuleChangeKind::Pull => 0x0003,
            ModuleChangeKind::PullModule => 0x001F,
            ModuleChangeKind::Plug => 0x0004,
            ModuleChangeKind::PlugWrong => 0x000A,
        }
    }

    /// What it affects: a submodule, or all of a slot.
    pub fn affected(&self) -> Affected
        ensures { result ≡ reach_of self.now }
    {
        Affected {
            slot: self.slot,
            subslot: match self.subslot {
                0 => None,
                subslot => Some(subslot),
            },
        }
    }

    /// Whether the expected submodule was plugged in this slot and subslot.
    pub fn is_plug_at(&self, slot: u16, subslot: u16) -> bool
        ensures { result ≡ is_plug_at slot subslot self.now }
    {
        matches!(self.kind, ModuleChangeKind::Plug) && self.slot == slot && self.subslot == subslot
    }
}
