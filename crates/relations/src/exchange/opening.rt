//! Opening an exchange.
ghost use Rattle.std.specs.Prelude.{◌≡◌, ◌<◌, if◌then◌else◌};
ghost use Rattle.cyclic_data.specs.Image.{good};
ghost use Rattle.relations.specs.exchange.Modules.{is_shut};
ghost use Rattle.relations.specs.exchange.Opening.{route_of, status_of};

use crate::exchange::marks::{Mark, iops_in};
use crate::numbers::output_id;
use connects::ConnectRequest;
use cyclic_data::{GOOD, PlaceKind, Route, Statuses};
use expected_places::Plugs;
use module_diff::DiffRows;

/// The IOCS of a submodule: bad if these rows list it, otherwise good.
fn status_of(rows: &DiffRows, slot: u16, subslot: u16) -> u8
    ensures { result ≡ status_of rows.now slot subslot }
{
    // A module that is not the expected one must not be mistaken for it: its data is marked bad from the first frame
    // on.
    if rows.is_listed(slot, subslot) {
        0
    } else {
        GOOD
    }
}

/// The statuses of a device in which these modules and submodules differ, and whose inputs have these marks.
#[derive(Drop)]
pub(crate) struct Differing<'a> {
    pub(crate) rows: &'a DiffRows,
    pub(crate) marks: &'a [Mark],
}

impl Statuses for Differing<'_> {
    ghost use Rattle.relations.specs.exchange.Opening.{statuses_of};

    ghost status_of = { λ differing. statuses_of differing.rows.now differing.marks.now };

    fn status(&self, kind: PlaceKind, slot: u16, subslot: u16) -> u8 {
        match kind {
            PlaceKind::Data => iops_in(self.marks, slot, subslot),
            PlaceKind::Iocs => status_of(self.rows, slot, subslot),
        }
    }
}

/// The statuses of a device whose places are these, and whose inputs have these marks.
#[derive(Drop)]
pub(crate) struct Stated<'a> {
    pub(crate) plugs: &'a Plugs,
    pub(crate) marks: &'a [Mark],
}

/// The IOCS of a submodule: bad if it differs or is touched, otherwise good.
fn iocs_of(plugs: &Plugs, slot: u16, subslot: u16) -> u8
    ensures { result ≡ (if is_shut plugs.now slot subslot then 0 else good) }
{
    if plugs.differs(slot, subslot) || plugs.is_touched(slot, subslot) {
        0
    } else {
        GOOD
    }
}

impl Statuses for Stated<'_> {
    ghost use Rattle.relations.specs.exchange.Modules.{stated_of};

    ghost status_of = { λ stated. stated_of stated.plugs.now stated.marks.now };

    fn status(&self, kind: PlaceKind, slot: u16, subslot: u16) -> u8 {
        match kind {
            PlaceKind::Data => iops_in(self.marks, slot, subslot),
            PlaceKind::Iocs => iocs_of(self.plugs, slot, subslot),
        }
    }
}

/// The route that a Connect asks for, in a relation of this number.
pub(crate) fn route_of(number: u16, request: &ConnectRequest) -> Route
    requires { number < 14336 }
    ensures { result ≡ route_of number request.now }
{
    let alarm = request.alarm();
    Route {
        partner: request.ar().initiator,
        sent_id: request.input().frame_id,
        sent_tag: request.input().tag,
        taken_id: output_id(number, request.output()),
        alarm_tag: alarm.tag_high,
        reference: alarm.reference,
    }
}
