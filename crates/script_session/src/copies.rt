// Copies of a plan, which need no memory: each later controller gets the same plan.
ghost use Rattle.std.specs.Prelude.{◌≡◌, ◌≤◌, length};

use crate::bytes::copied;
use arrayvec::ArrayVec;
use plans::{Controller, ControllerIdentity, Parts, Plan, PlanRecord, Station};
use pn_values::{Real, RealModule, RealSubmodule};

/// A copy of the plan.
pub(crate) fn plan_copy(plan: &Plan) -> Plan
    ensures { result ≡ plan.now }
{
    let station = plan.station();
    let controller = plan.controller();
    let parts = Parts {
        station: Station {
            name: station.name.copy(),
            suite: station.suite,
            vendor_id: station.vendor_id,
            device_id: station.device_id,
        },
        controller: Controller {
            name: controller.name.copy(),
            mac: controller.mac,
            address: controller.address,
        },
        times: plan.times(),
        real: real_copy(plan.real()),
        records: records_copy(plan.records()),
        continue_on_refused_record: plan.continues_on_refused_record(),
        release_on_refused_record: plan.release_on_refused_record(),
        multiple_write: plan.has_multiple_write(),
        parameters_after_plug: plan.has_parameters_after_plug(),
        persistent_start: plan.persistent_start(),
        identity: identity_copy(plan),
    };
    match Plan::new(parts) {
        Ok(copy) => copy,
        Err(_) => unreachable!(),
    }
}

fn identity_copy(plan: &Plan) -> Option<ControllerIdentity>
    ensures { result ≡ plan.now.identity }
{
    match plan.identity() {
        Some(own) => Some(own.copy()),
        None => None,
    }
}

fn records_copy(records: &[PlanRecord]) -> ArrayVec<PlanRecord, 32>
    requires { length records.now ≤ 32 }
    ensures { result.items ≡ records.now }
{
    let mut copies = ArrayVec::new();
    for entry in records {
        copies.push(record_copy(entry));
    }
    copies
}

fn record_copy(entry: &PlanRecord) -> PlanRecord
    ensures { result ≡ entry.now }
{
    PlanRecord {
        slot: entry.slot,
        subslot: entry.subslot,
        index: entry.index,
        data: copied(entry.data.as_slice()),
    }
}

fn real_copy(real: &Real) -> Real
    ensures { result ≡ real.now }
{
    let mut modules = ArrayVec::new();
    for entry in real.modules.as_slice() {
        modules.push(module_copy(entry));
    }
    Real { modules }
}

fn module_copy(entry: &RealModule) -> RealModule
    ensures { result ≡ entry.now }
{
    let mut submodules = ArrayVec::new();
    for part in entry.submodules.as_slice() {
        submodules.push(submodule_copy(part));
    }
    RealModule {
        slot: entry.slot,
        ident: entry.ident,
        submodules,
    }
}

fn submodule_copy(part: &RealSubmodule) -> RealSubmodule
    ensures { result ≡ part.now }
{
    let mut parameters = ArrayVec::new();
    let _ = parameters.try_extend_from_slice(part.parameters.as_slice());
    RealSubmodule {
        subslot: part.subslot,
        ident: part.ident,
        input: part.input,
        output: part.output,
        parameters,
    }
}
