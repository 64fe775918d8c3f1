//! What a controller that follows the alarms of a device knows of its diagnosis.
ghost use Rattle.std.specs.Prelude.{◌≡◌, ◌<◌, ◌≤◌, ℕ, Bool, List, Some, false, length, true};
ghost use Rattle.module_diff.specs.declared.changes.Affected.{Affected};
ghost use Rattle.diagnosis.specs.Existing.{changed, remaining};
ghost use Rattle.diagnosis.specs.declared.diagnosis.Change.{Change};
ghost use Rattle.diagnosis.specs.declared.diagnosis.Diagnosis.{Diagnosis};
ghost use Rattle.diagnosis.specs.declared.reports.report.Report.{Report};
ghost use Rattle.diagnosis.specs.reported.Followed.{Reports, at_places};
ghost use Rattle.diagnosis.specs.reported.Pulled.{pulled_by};
ghost use Rattle.diagnosis.specs.reported.Reported.{after_report};

/// The diagnoses of a device at the submodules of a relation, and the list of a controller that takes the alarms of their
/// changes. These are laws of the definitions; there is no code.
pub fn reports_are_followed()
    // If the controller's list equals the device's list for the submodules of the relation, and the device accepts a change at one of
    // them, then both lists are equal again after the alarm of that change.
    ensures follows { (has : ℕ → ℕ → Bool) (change : Change) (report : Report) (before after : List Diagnosis) (left_out : ℕ) →
        Reports change report → change.diagnosis.channel < 65536 → change.diagnosis.error < 65536 →
        has change.diagnosis.slot change.diagnosis.subslot ≡ true → changed change before ≡ Some after →
        after_report report (record { existing = at_places has before; left_out = left_out })
        ≡ record { existing = at_places has after; left_out = left_out } }
    // A change at another submodule, which no alarm of the relation reports, changes nothing there.
    ensures elsewhere { (has : ℕ → ℕ → Bool) (change : Change) (before after : List Diagnosis) →
        has change.diagnosis.slot change.diagnosis.subslot ≡ false → changed change before ≡ Some after →
        at_places has after ≡ at_places has before }
    // If both lists are equal, and the device forgets the diagnoses of what was pulled, then they are equal again after the alarm of
    // that pull.
    ensures pulls { (has : ℕ → ℕ → Bool) (gone : Affected) (report : Report) (before : List Diagnosis) (left_out : ℕ) →
        pulled_by report ≡ Some gone →
        after_report report (record { existing = at_places has before; left_out = left_out })
        ≡ record { existing = at_places has (remaining gone before); left_out = left_out } }
{}
