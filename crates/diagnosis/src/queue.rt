//! The changes that wait for an alarm of low priority, in one queue.
ghost use Rattle.std.specs.Prelude.{◌≡◌, ◌≤◌, ◌<◌, [], is_some, length, unwrap_or};
ghost use Rattle.diagnosis.specs.Queue.{change_bytes, change_type, diagnosis_queued, first_of, module_queued, plugs_at, queued_specifier, rest_of, slot_of, subslot_of};
ghost use Rattle.diagnosis.specs.alarms.Own.{is_own};
ghost use Rattle.diagnosis.specs.Notices.{first_notices};
ghost use Rattle.diagnosis.specs.Queue.{waiting_with, waiting_with_all, waits_for_plug};
ghost use Rattle.module_diff.specs.Diff.{ident_or_zero};
ghost use Rattle.module_diff.specs.Plugged.{module_ident, submodule_ident};

use crate::module_change::ModuleChange;
use crate::notice::Notice;
use crate::{Change, Diagnoses, Diagnosis, Own, Places};
use arrayvec::ArrayVec;
use module_diff::{RealChange, module_in, part_ident};
use pn_values::Real;
use std::marker::Model;

/// AlarmSpecifier: ChannelDiagnosis and SubmoduleDiagnosisState.
const AT_SUBMODULE: u16 = 0x2800;
/// AlarmSpecifier: ARDiagnosisState.
const IN_RELATION: u16 = 0x8000;

/// What an alarm of low priority reports.
#[derive(Clone, Copy, Debug, PartialEq, Eq)]
pub enum LowChange {
    /// A diagnosis appeared or disappeared.
    Diagnosis(Change),
    /// A module or a submodule was pulled or plugged.
    Module(ModuleChange),
}

impl Default for LowChange {
    /// A change of diagnosis with zeros.
    fn default() -> LowChange {
        LowChange::Diagnosis(Change::default())
    }
}

impl LowChange {
    /// AlarmType.
    pub fn alarm_type(&self) -> u16
        ensures { result ≡ change_type self.now }
    {
        match self {
            LowChange::Diagnosis(change) => change.alarm_type(),
            LowChange::Module(change) => change.alarm_type(),
        }
    }

    /// SlotNumber.
    pub fn slot(&self) -> u16
        ensures { result ≡ slot_of self.now }
    {
        match self {
            LowChange::Diagnosis(change) => change.diagnosis.slot,
            LowChange::Module(change) => change.slot,
        }
    }

    /// SubslotNumber, 0 for a whole module.
    pub fn subslot(&self) -> u16
        ensures { result ≡ subslot_of self.now }
    {
        match self {
            LowChange::Diagnosis(change) => change.diagnosis.subslot,
            LowChange::Module(change) => change.subslot,
        }
    }

    /// What follows UserStructureIdentifier: of a pull or a plug nothing, which has no UserStructureIdentifier either.
    pub(crate) fn put_octets(&self, octets: &mut ArrayVec<u8, 6>)
        ensures { octets.new.items ≡ change_bytes self.now }
    {
        octets.clear();
        match self {
            LowChange::Diagnosis(change) => {
                let _ = octets.try_extend_from_slice(&change.octets());
            }
            LowChange::Module(_) => {}
        }
    }
}

/// A change that waits for its alarm, the ident numbers of its module and submodule, and what existed after it. Its alarm says
/// so even if it is sent later.
#[derive(Clone, Copy, Debug, Default, PartialEq, Eq)]
pub struct QueuedAlarm {
    /// The change.
    pub change: LowChange,
    /// ModuleIdentNumber.
    pub module_ident_number: u32,
    /// SubmoduleIdentNumber, 0 for a whole module.
    pub submodule_ident_number: u32,
    /// Whether a diagnosis existed at the submodule.
    pub is_any_at_submodule: bool,
    /// Whether a diagnosis existed at a submodule of the relation.
    pub is_any_in_relation: bool,
}

/// The ident numbers of the module in this slot and of its submodule in this subslot, 0 if nothing is plugged there.
fn idents_at(real: &Real, slot: u16, subslot: u16) -> (u32, u32)
    ensures module { result.0 ≡ ident_or_zero (module_ident real.now.modules.items slot) }
    ensures submodule { result.1 ≡ ident_or_zero (submodule_ident real.now.modules.items slot subslot) }
{
    match module_in(real, slot) {
        Some(entry) => (entry.ident, part_ident(entry, subslot).unwrap_or(0)),
        None => (0, 0),
    }
}

impl QueuedAlarm {
    /// That of a change of diagnosis, while these modules are plugged.
    pub(crate) fn of_diagnosis(notice: &Notice, real: &Real) -> QueuedAlarm
        ensures { result ≡ diagnosis_queued real.now.modules.items notice.now }
    {
        let diagnosis = &notice.change.diagnosis;
        let (module_ident_number, submodule_ident_number) = idents_at(
            real,
            diagnosis.slot,
            diagnosis.subslot,
        );
        QueuedAlarm {
            change: LowChange::Diagnosis(notice.change),
            module_ident_number,
            submodule_ident_number,
            is_any_at_submodule: notice.is_any_at_submodule,
            is_any_in_relation: notice.is_any_in_relation,
        }
    }

    /// That of a pull or a plug, after which these diagnoses exist, in a relation with these submodules.
    pub(crate) fn of_modules(
        change: ModuleChange,
        made: &RealChange,
        after: &Diagnoses,
        relation: &Own,
    ) -> QueuedAlarm
        ensures { result ≡ module_queued (is_own relation.now) change made.now after.now }
    {
        QueuedAlarm {
            change: LowChange::Module(change),
            module_ident_number: made.module_ident_number,
            submodule_ident_number: made.submodule_ident_number,
            is_any_at_submodule: after.is_any_at(change.slot, change.subslot),
            is_any_in_relation: after.is_any_in(relation),
        }
    }

    /// AlarmSpecifier with this sequence.
    pub(crate) fn specifier(&self, sequence: u16) -> u16
        requires { sequence < 2048 }
        ensures { result ≡ queued_specifier self.now sequence }
    {
        let at_submodule = if self.is_any_at_submodule {
            AT_SUBMODULE
        } else {
            0
        };
        let in_relation = if self.is_any_in_relation {
            IN_RELATION
        } else {
            0
        };
        sequence + at_submodule + in_relation
    }

    /// Whether it is that of a plug of the expected submodule in this slot and subslot.
    fn is_plug_at(&self, slot: u16, subslot: u16) -> bool
        ensures { result ≡ plugs_at slot subslot self.now.change }
    {
        match self.change {
            LowChange::Module(change) => change.is_plug_at(slot, subslot),
            LowChange::Diagnosis(_) => false,
        }
    }
}

/// The changes that wait for their alarms, in order: changes of diagnosis, pulls and plugs. There is room for 64: for 32
/// pulls and plugs that wait until data is exchanged, and then for each diagnosis that exists.
#[derive(Drop)]
pub struct Queue {
    entries: ArrayVec<QueuedAlarm, 64>,
}

// Its model: the list.
impl Model for Queue {
    ghost use Rattle.std.specs.Prelude.{List};
    ghost use Rattle.diagnosis.specs.declared.queue.QueuedAlarm.{QueuedAlarm};

    ghost Value = { List QueuedAlarm };

    ghost view = { λ queue. queue.entries.items };
}

impl Queue {
    /// No change waits.
    pub(crate) fn new() -> Queue
        ensures { result ≡ [] }
    {
        Queue {
            entries: ArrayVec::new(),
        }
    }

    /// No change waits any longer.
    pub(crate) fn clear(&mut self)
        ensures { self.new ≡ [] }
    {
        self.entries.clear();
    }

    /// The number of changes that wait.
    pub(crate) fn len(&self) -> usize
        ensures value { result ≡ length self.now }
        ensures few { result ≤ 64 }
    {
        self.entries.len()
    }

    /// One more change, after the others. Returns whether there is room; if not, nothing changes.
    pub(crate) fn push(&mut self, alarm: QueuedAlarm) -> bool
        ensures done { result ≡ is_some (waiting_with alarm self.old) }
        ensures state { self.new ≡ unwrap_or (waiting_with alarm self.old) self.old }
    {
        self.entries.try_push(alarm).is_ok()
    }

    /// Each of these diagnoses that is one of the relation, as one that appears, after the others, as far as there is room.
    pub(crate) fn begin(&mut self, diagnoses: &[Diagnosis], own: &Own, real: &Real)
        ensures { self.new ≡ waiting_with_all real.now.modules.items (first_notices (is_own own.now) diagnoses.now) self.old }
    {
        for diagnosis in diagnoses {
            if Places::has(own, diagnosis.slot, diagnosis.subslot) {
                self.push(QueuedAlarm::of_diagnosis(&Notice::first(diagnosis), real));
            }
        }
    }

    /// The first change, if one waits.
    pub(crate) fn first(&self) -> Option<QueuedAlarm>
        ensures { result ≡ first_of self.now }
    {
        match self.entries.as_slice() {
            [first, ..] => Some(*first),
            [] => None,
        }
    }

    /// Drops the first change, if one waits.
    pub(crate) fn drop_first(&mut self)
        ensures { self.new ≡ rest_of self.old }
    {
        let _ = self.entries.pop_at(0);
    }

    /// Whether one that waits reports a plug of the expected submodule in this slot and subslot.
    pub(crate) fn waits_for_plug(&self, slot: u16, subslot: u16) -> bool
        ensures { result ≡ waits_for_plug slot subslot self.now }
    {
        self.entries
            .as_slice()
            .iter()
            .any(|alarm| alarm.is_plug_at(slot, subslot))
    }
}
