//! The search for a device, and its IP suite.
ghost use Rattle.std.specs.Prelude.{◌≡◌, true, List, [], ◌∷◌};
ghost use Rattle.pn_values.specs.IpSuite.{is_suite};
ghost use Rattle.settings_journal.specs.settings_store.Machine.{Outcome};
ghost use Rattle.controller_messages.specs.declared.request.Request.TheVariants.{Address, Identify};
ghost use Rattle.device_core.specs.State.{Live, Station};
ghost use Rattle.rounds_law.specs.Path.{IsAddressed, IsFree, IsNamed, device_step, found_frame, request_to, set_frame};
ghost use Rattle.rounds_law.specs.Start.{CanBeAddressed};

use controller_messages::Setup;
use end_laws::{requests_are_heard, stations_are_real};
use pn_values::{Identity, IpSuite};

/// The IP suite of a station is valid.
pub(crate) fn suite_is_valid(suite: &IpSuite)
    ensures { is_suite suite.now ≡ true }
{
    let _valid = IpSuite::new(suite.address(), suite.mask(), suite.gateway());
}

/// What a device does when its controller searches for it. These are laws of the machine by which each step of a device is specified.
pub fn device_answers_the_search(setup: &Setup, identity: &Identity)
    // A device with the plan's name answers the Identify with its settings, and nothing changes.
    ensures found { (outcomes : List Outcome) (station : Station) (live : Live) → station.identity ≡ identity.now → IsNamed setup.now live
        → ((device_step outcomes station live (request_to setup.now identity.now Identify)).live ≡ live)
        × ((device_step outcomes station live (request_to setup.now identity.now Identify)).frames
        ≡ found_frame setup.now identity.now live.values.running ∷ []) }
    // A device without a relation accepts the plan's IP suite, if it can store it and no call of its flash fails.
    ensures set { (station : Station) (live : Live) → station.identity ≡ identity.now
        → IsNamed setup.now live → IsFree setup.now live → CanBeAddressed live
        → ((device_step [] station live (request_to setup.now identity.now Address)).frames ≡ set_frame setup.now identity.now ∷ [])
        × IsNamed setup.now (device_step [] station live (request_to setup.now identity.now Address)).live
        × IsAddressed setup.now (device_step [] station live (request_to setup.now identity.now Address)).live
        × IsFree setup.now (device_step [] station live (request_to setup.now identity.now Address)).live }
{
    stations_are_real(setup, identity);
    requests_are_heard();
    let station = setup.plan.station();
    suite_is_valid(&station.suite);
}
