//! The diagnoses that exist.
ghost use Rattle.std.specs.Prelude.{◌≡◌, [], None, Some, false, if◌then◌else◌};
ghost use Rattle.diagnosis.specs.Record.{record_bytes};
ghost use Rattle.device_records.specs.Standing.{is_about, standing_with};
ghost use Rattle.device_records.specs.Sources.{known};

use crate::own::Own;
use crate::sources::Sources;
use arrayvec::ArrayVec;
use diagnosis::{Places, put_diagnosis_data};
use pn_values::Real;
use records::{Level, Listing};
use relations::Relation;
use wire::append;

/// The submodules that a record is about.
#[derive(Drop)]
struct Subject<'a> {
    level: Level,
    // What is asked for at the levels of a slot and a submodule.
    slot: u16,
    subslot: u16,
    // The relation, whose submodules are asked for at its level.
    relation: &'a Relation,
}

impl Places for Subject<'_> {
    ghost use Rattle.device_records.specs.Standing.{is_about};

    ghost has_of = { λ subject. is_about subject.relation.now subject.level subject.slot subject.subslot };

    fn has(&self, slot: u16, subslot: u16) -> bool {
        match self.level {
            Level::Subslot => slot == self.slot && subslot == self.subslot,
            Level::Slot => slot == self.slot,
            Level::Relation => self.relation.owns(slot, subslot),
            Level::Device => true,
        }
    }
}

/// Puts the record of this kind into an empty list, and returns whether there is one.
pub(crate) fn put_standing(
    out: &mut Own,
    sources: &Sources<'_>,
    real: &Real,
    level: Level,
    slot: u16,
    subslot: u16,
    kind: Listing,
) -> bool
    requires { out.old.items ≡ [] }
    ensures made { (if result then Some out.new.items else None) ≡ standing_with (known sources.now) real.now level slot subslot kind }
    ensures none { result ≡ false → out.new.items ≡ [] }
{
    match kind {
        Listing::Diagnosis => put_data(out, sources, real, level, slot, subslot),
        Listing::Maintenance
        | Listing::Identification
        | Listing::Apis
        | Listing::Expected
        | Listing::Found
        | Listing::Input
        | Listing::Output
        | Listing::Relations
        | Listing::Log
        | Listing::Port
        | Listing::Interface
        | Listing::Network => return false,
    }
    true
}

/// Puts DiagnosisData of what is asked for into an empty list.
#[inline(never)]
fn put_data(
    out: &mut Own,
    sources: &Sources<'_>,
    real: &Real,
    level: Level,
    slot: u16,
    subslot: u16,
)
    requires { out.old.items ≡ [] }
    ensures { out.new.items ≡ record_bytes (is_about sources.now.relation.now level slot subslot) sources.now.diagnoses.now real.now.modules.items }
{
    let subject = Subject {
        level,
        slot,
        subslot,
        relation: sources.relation,
    };
    let mut octets = ArrayVec::new();
    put_diagnosis_data(&mut octets, sources.diagnoses, real, &subject);
    append(out, octets.as_slice());
}
