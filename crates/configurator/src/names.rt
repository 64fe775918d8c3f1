//! The names of the station and of the controller.
ghost use Rattle.std.specs.Prelude.{◌≡◌, IfSome, IfNone};
ghost use Rattle.pn_values.specs.StationName.{IsStationName};
ghost use Rattle.configurator.specs.Addresses.{AreNamed};

use catalogue::Project;
use pn_values::StationName;
use station_names::check;

/// The two station names of a project.
#[derive(Drop)]
pub(crate) struct Names {
    pub station: StationName,
    pub controller: StationName,
}

/// A text as a station name. `None` if it is not a valid one.
fn name_of(text: &str) -> Option<StationName>
    ensures valid { IfSome result (λ name. IsStationName text.now) }
    ensures value { IfSome result (λ name. name ≡ text.now) }
    ensures none { IfNone result (¬ IsStationName text.now) }
{
    check(text.as_bytes()).ok()
}

/// The station names of a project. `None` if one of them is not valid.
pub(crate) fn names_of(project: &Project) -> Option<Names>
    ensures valid { IfSome result (λ names. AreNamed project.now) }
    ensures station { IfSome result (λ names. names.station ≡ project.now.station.name) }
    ensures controller { IfSome result (λ names. names.controller ≡ project.now.controller.name) }
    ensures none { IfNone result (¬ AreNamed project.now) }
{
    let station = name_of(project.station.name.as_str())?;
    let controller = name_of(project.controller.name.as_str())?;
    Some(Names {
        station,
        controller,
    })
}
