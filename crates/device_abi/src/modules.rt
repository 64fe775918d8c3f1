//! Modules that come and go while the device runs: pulls and plugs, and how far each place of the relation is.
ghost use Rattle.std.specs.Prelude.{◌≡◌, Some, option_map, slice_get};
ghost use Rattle.c_layout.specs.Places.{place_in};
ghost use Rattle.relations.specs.Plugging.{places_in};
ghost use Rattle.device_station.specs.port.State.{closed};
ghost use Rattle.device_abi.specs.Serves.{IsPlaceAt, IsPlaceOf, IsPlug, IsPlugOf, IsPull, IsReadyAt, IsSlotPull, place_numbered, progress_number};

use crate::reason::{why_no_plug, why_no_pull, why_no_slot_pull, why_not_ready_at};
use crate::serving::conclude;
use crate::submodule::plug_in;
use c_layout::{BAD_LENGTH, NO_PLACE, NO_SLOT, Op, pair_of, place_of};
use device_station::Port;
use expected_places::{ExpectedPlace, Progress};
use pn_values::RealSubmodule;

// The submodule in a slot and subslot is pulled.
#[inline(never)]
pub(crate) fn pull(port: &mut Port, op: &mut Op) -> u32
    ensures { IsPull (place_in op.old.slot op.old.subslot) port.old op.old result port.new op.new }
{
    match place_of(op) {
        Some(place) => pull_at(port, op, place),
        None => NO_SLOT,
    }
}

// The same of this slot and subslot.
fn pull_at(port: &mut Port, op: &mut Op, place: (u16, u16)) -> u32
    ensures { IsPull (Some place) port.old op.old result port.new op.new }
{
    let outcome = port.pull(place.0, place.1);
    let why = why_no_pull(port.device(), place.0, place.1);
    conclude(outcome, why, port, op)
}

// The module in a slot is pulled, with its submodules.
#[inline(never)]
pub(crate) fn pull_module(port: &mut Port, op: &mut Op) -> u32
    ensures { IsSlotPull (place_in op.old.slot 0) port.old op.old result port.new op.new }
{
    match pair_of(op.slot, 0) {
        Some(place) => pull_slot(port, op, place),
        None => NO_SLOT,
    }
}

// The same of this slot.
fn pull_slot(port: &mut Port, op: &mut Op, place: (u16, u16)) -> u32
    ensures { IsSlotPull (Some place) port.old op.old result port.new op.new }
{
    let outcome = port.pull_module(place.0);
    let why = why_no_slot_pull(port.device(), place.0);
    conclude(outcome, why, port, op)
}

// A submodule is plugged, as the octets describe it.
#[inline(never)]
pub(crate) fn plug(port: &mut Port, op: &mut Op, given: &[u8]) -> u32
    ensures { IsPlug (place_in op.old.slot op.old.subslot) port.old given.now op.old result port.new op.new }
{
    match place_of(op) {
        Some(place) => plug_at(port, op, place, given),
        None => NO_SLOT,
    }
}

// The same of this slot and subslot.
fn plug_at(port: &mut Port, op: &mut Op, place: (u16, u16), given: &[u8]) -> u32
    ensures { IsPlug (Some place) port.old given.now op.old result port.new op.new }
{
    match plug_in(place.1, given) {
        Some((ident, submodule)) => plug_one(port, op, place.0, ident, submodule),
        None => BAD_LENGTH,
    }
}

// This submodule is plugged, with a module of this ident number.
fn plug_one(port: &mut Port, op: &mut Op, slot: u16, ident: u32, submodule: RealSubmodule) -> u32
    ensures { IsPlugOf (Some (ident, submodule)) slot port.old op.old result port.new op.new }
{
    let why = why_no_plug(port.device(), slot, ident, &submodule);
    let outcome = port.plug(slot, ident, submodule);
    conclude(outcome, why, port, op)
}

// The application is ready for the plug in a slot and subslot.
#[inline(never)]
pub(crate) fn ready_at(port: &mut Port, op: &mut Op) -> u32
    ensures { IsReadyAt (place_in op.old.slot op.old.subslot) port.old op.old result port.new op.new }
{
    match place_of(op) {
        Some(place) => ready_for(port, op, place),
        None => NO_SLOT,
    }
}

// The same of this slot and subslot.
fn ready_for(port: &mut Port, op: &mut Op, place: (u16, u16)) -> u32
    ensures { IsReadyAt (Some place) port.old op.old result port.new op.new }
{
    let outcome = port.ready_at(place.0, place.1);
    let why = why_not_ready_at(port.device(), place.0, place.1);
    conclude(outcome, why, port, op)
}

// ---- places of the relation

// A place of the relation, by its number.
#[inline(never)]
pub(crate) fn tell_expected(port: &Port, op: &mut Op) -> u32
    ensures { IsPlaceOf (closed port.now.port.stage) (place_numbered (places_in port.now.port.device.live.rest.link) op.old.number) op.old result op.new }
{
    match port.expected() {
        Ok(places) => tell_place_in(places, op),
        Err(refusal) => refusal.number(),
    }
}

// One of these places, if there is a relation.
fn tell_place_in(places: Option<&[ExpectedPlace]>, op: &mut Op) -> u32
    ensures { IsPlaceAt (place_numbered (option_map (λ places. places.now) places.entry) op.old.number) op.old result op.new }
{
    match places {
        Some(places) => tell_place(places, op),
        None => NO_PLACE,
    }
}

// One of these places.
fn tell_place(places: &[ExpectedPlace], op: &mut Op) -> u32
    ensures { IsPlaceAt (slice_get places.now op.old.number) op.old result op.new }
{
    match places.get(op.number as usize) {
        Some(place) => tell_one(place, op),
        None => NO_PLACE,
    }
}

// This place: where it is, and how far.
fn tell_one(place: &ExpectedPlace, op: &mut Op) -> u32
    ensures { IsPlaceAt (Some place.now) op.old result op.new }
{
    op.slot = u32::from(place.slot);
    op.subslot = u32::from(place.subslot);
    op.progress = number_of_progress(place.progress());
    0
}

fn number_of_progress(progress: Progress) -> u32
    ensures { result ≡ progress_number progress }
{
    match progress {
        Progress::Good => 0,
        Progress::Differs => 1,
        Progress::Plugged => 2,
        Progress::Told => 3,
        Progress::Ended => 4,
        Progress::Refused => 5,
    }
}
