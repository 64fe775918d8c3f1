//! The laws of the starts that follow: each of them at a device that may have a relation.
ghost use Rattle.std.specs.List.{AllByRecursion};
ghost use Rattle.rounds_law.specs.AnywhereAgain.{RefusesAddress, RefusesConnect, StartLaws};

use crate::again::{controller_ends_halfway, controller_ends_refused};
use crate::controller::{controller_finds_its_device, controller_goes_on_in_time};
use crate::device::{
    connect_answers_are_whole, device_answers_the_search, plan_is_placed, suite_is_valid,
};
use crate::law::both_ends_start;
use both_ends::connect_is_taken;
use controller_messages::Setup;
use end_laws::{calls_are_heard, calls_can_be_sent, requests_are_heard, stations_are_real};
use flash_model::Flash;
use pn_values::Identity;
use records::refusals_are_not_done;

/// A device that has a relation refuses the first requests of another start, and the relation is unchanged.
fn device_refuses_each_start(setup: &Setup, identity: &Identity)
    ensures connect { RefusesConnect setup.now identity.now }
    ensures address { RefusesAddress setup.now identity.now }
{
    stations_are_real(setup, identity);
    requests_are_heard();
    let station = setup.plan.station();
    suite_is_valid(&station.suite);
    calls_can_be_sent();
    calls_are_heard();
    refusals_are_not_done();
}

/// The laws of one start.
fn start_holds<F: Flash<S>, const S: usize>(setup: &Setup, identity: &Identity)
    ensures { StartLaws F.Flash identity.now setup.now }
{
    stations_are_real(setup, identity);
    let station = setup.plan.station();
    suite_is_valid(&station.suite);
    connect_answers_are_whole(setup, identity, station.suite.address());
    connect_is_taken(&setup.plan, &setup.ar);
    plan_is_placed(&setup.plan);
    device_answers_the_search(setup, identity);
    controller_finds_its_device(setup, identity);
    controller_goes_on_in_time(setup, identity);
    device_refuses_each_start(setup, identity);
    controller_ends_refused(setup, identity);
    controller_ends_halfway(setup, identity);
    both_ends_start::<F, S>(setup, identity);
}

/// The laws of each of these starts.
fn starts_hold<F: Flash<S>, const S: usize>(starts: &[Setup], identity: &Identity)
    ensures { AllByRecursion (StartLaws F.Flash identity.now) starts.now }
{
    for start in starts {
        start_holds::<F, S>(start, identity);
    }
}

/// The laws of one start, and of each that may follow it.
pub(crate) fn all_starts_hold<F: Flash<S>, const S: usize>(
    setup: &Setup,
    starts: &[Setup],
    identity: &Identity,
)
    ensures first { StartLaws F.Flash identity.now setup.now }
    ensures later { AllByRecursion (StartLaws F.Flash identity.now) starts.now }
{
    start_holds::<F, S>(setup, identity);
    starts_hold::<F, S>(starts, identity);
}
