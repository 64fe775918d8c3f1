//! The places of faults.
ghost use Rattle.std.specs.Prelude.{◌≡◌};
ghost use Rattle.configurator.specs.Places.{name_place, place_of};

use crate::PlanFault;
use arrayvec::ArrayVec;
use catalogue::{Catalogue, Key, Project, Step};
use station_names::check;

/// Why a text gives no plan, and the place of that fault.
#[derive(Drop)]
pub struct Refusal {
    pub fault: PlanFault,
    /// The steps to the value of the fault, or to the missing key. Empty if the fault is not at one key.
    pub place: ArrayVec<Step, 8>,
}

/// The place of the first station name that is not valid: the controller's, if the station's is valid.
fn name_place(project: &Project) -> ArrayVec<Step, 8>
    ensures { result.items ≡ name_place project.now }
{
    let mut place = ArrayVec::new();
    place.push(Step::At(Key::Project));
    if check(project.station.name.as_str().as_bytes()).is_ok() {
        place.push(Step::At(Key::Controller));
    }
    place.push(Step::At(Key::NameOfStation));
    place
}

/// The place of a fault of the whole catalogue: only an invalid name has one.
pub(crate) fn place_of(catalogue: &Catalogue, fault: PlanFault) -> ArrayVec<Step, 8>
    ensures { result.items ≡ place_of catalogue.now fault }
{
    match fault {
        PlanFault::Name => name_place(&catalogue.project),
        _ => ArrayVec::new(),
    }
}
