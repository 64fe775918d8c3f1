//! Makes a plan from a text.
ghost use Rattle.std.specs.Prelude.{◌≡◌, true, IfOk, IfErr, Ok};
ghost use Rattle.pn_values.specs.StationName.{IsStationName};
ghost use Rattle.catalogue.specs.Catalogues.{Found};
ghost use Rattle.catalogue.specs.Kept.{IsInRange};
ghost use Rattle.plans.specs.Parts.{AreParts};
ghost use Rattle.configurator.specs.Addresses.{AreAddresses, AreNamed};
ghost use Rattle.configurator.specs.Few.{are_few};
ghost use Rattle.configurator.specs.Planned.{IsPlanOf, IsRefused, IsRefusedAt, Handled, parts_of};

use crate::addresses::{Addresses, addresses_of};
use crate::allowed::are_allowed;
use crate::few::are_few;
use crate::names::{Names, names_of};
use crate::place::place_of;
use crate::records::records_of;
use crate::station::real_of;
use crate::{PlanFault, Refusal};
use catalogue::{Catalogue, ControllerItem, read};
use plans::{Controller, ControllerIdentity, Parts, Plan, Station, Times};
use std::alloc::Global;

/// What the controller says of itself to tools, if the project has it.
fn identity_of(controller: &ControllerItem) -> Option<ControllerIdentity>
    ensures { result ≡ controller.now.identity }
{
    match &controller.identity {
        Some(own) => Some(own.copy()),
        None => None,
    }
}

/// The parts of which a plan is made.
fn parts_of(catalogue: &Catalogue, names: Names, addresses: Addresses) -> Parts
    requires kept { IsInRange catalogue.now }
    requires station { names.station ≡ catalogue.now.project.station.name }
    requires controller { names.controller ≡ catalogue.now.project.controller.name }
    requires few { are_few catalogue.now ≡ true }
    ensures { result ≡ parts_of catalogue.now addresses }
{
    let project = &catalogue.project;
    let address = addresses.address;
    Parts {
        station: Station {
            name: names.station,
            suite: addresses.suite,
            vendor_id: catalogue.identity.vendor_id,
            device_id: catalogue.identity.device_id,
        },
        controller: Controller {
            name: names.controller,
            mac: addresses.mac,
            address,
        },
        times: Times {
            send_clock_factor: project.send_clock_factor,
            reduction_ratio: project.reduction_ratio,
            data_hold_factor: project.data_hold_factor,
        },
        real: real_of(catalogue),
        records: records_of(project.slots.as_slice()),
        continue_on_refused_record: project.continue_on_refused_record,
        release_on_refused_record: project.release_on_refused_record,
        multiple_write: catalogue.access_point.multiple_write,
        parameters_after_plug: project.parameters_after_plug,
        persistent_start: project.persistent_start,
        identity: identity_of(&project.controller),
    }
}

/// The plan of a catalogue whose names and addresses are valid, or the first of the other faults of the whole catalogue.
fn planned(
    alloc: Global,
    catalogue: &Catalogue,
    names: Names,
    addresses: Addresses,
) -> Result<Plan, PlanFault>
    requires kept { IsInRange catalogue.now }
    requires named { AreNamed catalogue.now.project }
    requires station { names.station ≡ catalogue.now.project.station.name }
    requires controller { names.controller ≡ catalogue.now.project.controller.name }
    requires addressed { AreAddresses catalogue.now.project addresses }
    ensures { Handled catalogue.now result }
{
    if !are_allowed(alloc, catalogue)? {
        return Err(PlanFault::NotAllowedInSlot);
    }
    if !are_few(catalogue) {
        return Err(PlanFault::TooManySlots);
    }
    match Plan::new(parts_of(catalogue, names, addresses)) {
        Ok(plan) => Ok(plan),
        Err(fault) => Err(PlanFault::from(fault)),
    }
}

/// The plan of a catalogue, or the first fault of the whole catalogue.
fn plan_of(alloc: Global, catalogue: &Catalogue) -> Result<Plan, PlanFault>
    requires { IsInRange catalogue.now }
    ensures { Handled catalogue.now result }
{
    let names = match names_of(&catalogue.project) {
        Some(names) => names,
        None => return Err(PlanFault::Name),
    };
    let addresses = match addresses_of(&catalogue.project) {
        Some(addresses) => addresses,
        None => return Err(PlanFault::Address),
    };
    planned(alloc, catalogue, names, addresses)
}

/// Reads a catalogue, which is JSON with the keys of GSDML. Returns its plan and the catalogue, or the first fault and its place; the fault is
/// `OutOfMemory` if there was not enough memory.
pub fn plan_or_place(alloc: Global, text: &[u8]) -> Result<(Plan, Catalogue), Refusal>
    ensures found { IfOk result (λ both. Found text.now both.1) }
    ensures handled { IfOk result (λ both. Handled both.1 (Ok both.0)) }
    ensures refused { IfErr result (IsRefusedAt text.now) }
{
    let catalogue = match read(alloc, text) {
        Ok(catalogue) => catalogue,
        Err(found) => {
            let fault = PlanFault::from(found.fault);
            return Err(Refusal {
                fault,
                place: found.place,
            });
        }
    };
    match plan_of(alloc, &catalogue) {
        Ok(plan) => Ok((plan, catalogue)),
        Err(fault) => {
            let place = place_of(&catalogue, fault);
            Err(Refusal { fault, place })
        }
    }
}

/// Reads a catalogue, which is JSON with the keys of GSDML. Returns its plan or the first fault; `OutOfMemory` if there was not enough memory.
pub fn plan_from_json(alloc: Global, text: &[u8]) -> Result<Plan, PlanFault>
    ensures planned { IfOk result (IsPlanOf text.now) }
    ensures refused { IfErr result (IsRefused text.now) }
{
    let catalogue = match read(alloc, text) {
        Ok(catalogue) => catalogue,
        Err(found) => return Err(PlanFault::from(found.fault)),
    };
    plan_of(alloc, &catalogue)
}
