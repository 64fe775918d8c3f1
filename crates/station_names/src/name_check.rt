// Whether a text is a station name.
ghost use Rattle.std.specs.Prelude.{◌≡◌, ◌↔◌, IsOk, IfOk, IfErr, is_ok};
ghost use Rattle.pn_values.specs.StationName.{IsStationName};
ghost use Rattle.station_names.specs.NameFault.{FirstFault};
ghost use Rattle.station_names.specs.Valid.{is_station_name};

use crate::NameFault;
use crate::scan::Found;
use pn_values::StationName;

/// The station name of a text (IEC 61158-6-10, 4.3.1.4.15), or the first of its faults in the order of their numbers.
/// The empty text is an `EmptyLabel`: a caller that accepts it as 'no name' must test for it first.
pub fn check(bytes: &[u8]) -> Result<StationName, NameFault>
    // A name is returned if and only if the text is a NameOfStation.
    ensures valid { IsOk result ↔ IsStationName bytes.now }
    // The result agrees with `is_station_name`, the test by which a Set is judged.
    ensures test { is_ok result ≡ is_station_name bytes.now }
    // The name has the bytes of the text.
    ensures value { IfOk result (λ name. name ≡ bytes.now) }
    // The fault is the first one of the text, in the order of the numbers.
    ensures fault { IfErr result (λ fault. FirstFault bytes.now fault) }
    // If a fault is the first one of the text, it is returned.
    ensures only { (fault : NameFault) → FirstFault bytes.now fault → result ≡ Err fault }
{
    named(bytes)
}

fn named(bytes: &[u8]) -> Result<StationName, NameFault>
    ensures valid { IsOk result ↔ IsStationName bytes.now }
    ensures value { IfOk result (λ name. name ≡ bytes.now) }
    ensures fault { IfErr result (λ fault. FirstFault bytes.now fault) }
    ensures only { (fault : NameFault) → FirstFault bytes.now fault → result ≡ Err fault }
{
    if bytes.len() > 240 {
        return Err(NameFault::TooLong);
    }
    let found = Found::of(bytes);
    // Each kind of fault is looked for in the whole text, so that the reported fault does not depend on its position.
    for fault in NameFault::ALL {
        if found.has(fault) {
            return Err(fault);
        }
    }
    Ok(StationName::of(bytes))
}
