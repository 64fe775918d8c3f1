//! The alarm frames of a relation: which belong to it, and the headers of its own.
ghost use Rattle.std.specs.Prelude.{◌≡◌};
ghost use Rattle.controller_core.specs.stored.Alarms.{header_of, is_alarm};

use cyclic_data::Route;
use plans::ALARM_REFERENCE;
use pn_alarms::{ControllerAlarms, Header, PduType};
use pn_values::Mac;

/// Whether an alarm frame of this station, with these endpoints, belongs to the relation.
pub fn is_alarm(route: &Route, source: Mac, header: &Header) -> bool
    ensures { result ≡ is_alarm route.now source header.now }
{
    source.is(&route.partner)
        && header.destination == ALARM_REFERENCE
        && header.source == route.reference
}

/// The header of a PDU that is sent now.
pub fn header_of(alarms: &ControllerAlarms, route: &Route, kind: PduType) -> Header
    ensures { result ≡ header_of alarms.now route.now kind }
{
    alarms.header(kind, route.reference, ALARM_REFERENCE)
}
