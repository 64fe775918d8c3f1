//! The Writes of a start-up.
ghost use Rattle.std.specs.Prelude.{◌≡◌, ◌<◌, ◌+◌, ℕ, false, List, [], ◌∷◌, map, take};
ghost use Rattle.pn_values.specs.IpSuite.{is_zero};
ghost use Rattle.settings_journal.specs.settings_store.Machine.{Outcome};
ghost use Rattle.relations.specs.declared.phase.Phase.TheVariants.{Started};
ghost use Rattle.device_core.specs.State.{Live, Station};
ghost use Rattle.controller_messages.specs.declared.request.Request.TheVariants.{Write};
ghost use Rattle.controller_messages.specs.Requests.{first_of, write_count};
ghost use Rattle.both_ends.specs.startup.Played.{ArePlaced, CanMeet};
ghost use Rattle.both_ends.specs.startup.View.{taken_for};
ghost use Rattle.rounds_law.specs.Path.{HasRelation, IsAddressed, IsWritten, device_step, request_to};
ghost use Rattle.rounds_law.specs.Start.{AreWritable, IsOfPlan};

use block_codec::blocks_are_read;
use controller_messages::Setup;
use end_laws::{calls_are_heard, calls_can_be_sent, stations_are_real};
use plans::{Plan, PlanRecord};
use pn_values::Identity;

/// A `u16` has 16 bits.
fn has_16_bits(number: u16)
    ensures { number < 65536 }
{
    // The prover gets the bound from the type when the number is read.
    let _number = number;
}

/// The slot and the subslot of each record have 16 bits.
fn are_placed(records: &[PlanRecord])
    ensures { ArePlaced records.now }
{
    for entry in records {
        has_16_bits(entry.slot);
        has_16_bits(entry.subslot);
    }
}

/// The slots and subslots of a plan's records have 16 bits.
pub(crate) fn plan_is_placed(plan: &Plan)
    ensures { ArePlaced plan.now.records.items }
{
    are_placed(plan.records());
}

/// What a device does with the Writes of the plan's controller. These are laws of the machine by which each step of a device is
/// specified.
pub fn device_takes_writes(setup: &Setup, identity: &Identity)
    // It accepts the plan's next Write: its response says for each record that it was written.
    ensures written { CanMeet setup.now identity.now → is_zero setup.now.plan.station.suite.address ≡ false → AreWritable setup.now
        → (serial : ℕ) (outcomes : List Outcome) (station : Station) (live : Live) (number age : ℕ) → station.identity ≡ identity.now
        → IsOfPlan setup.now station live.rest.real → IsAddressed setup.now live → number < write_count setup.now.plan
        → HasRelation setup.now serial Started (map taken_for (take (first_of setup.now.plan number) setup.now.plan.records.items)) number age live
        → (octets : List ℕ)
        × ((device_step outcomes station live (request_to setup.now identity.now (Write number))).frames ≡ octets ∷ [])
        × IsWritten setup.now identity.now number octets
        × ((device_step outcomes station live (request_to setup.now identity.now (Write number))).live.values ≡ live.values)
        × HasRelation setup.now serial Started (map taken_for (take (first_of setup.now.plan (number + 1)) setup.now.plan.records.items)) (number + 1) 0
        (device_step outcomes station live (request_to setup.now identity.now (Write number))).live }
{
    stations_are_real(setup, identity);
    plan_is_placed(&setup.plan);
    blocks_are_read();
    calls_can_be_sent();
    calls_are_heard();
}
