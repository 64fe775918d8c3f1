//! A host of a controller, and the law for hosts: what it fetched and learned over a whole run, and what the
//! controller did.
ghost use Rattle.std.specs.Prelude.{◌≡◌, ◌++◌, ◌∷◌, [], ℕ, Bool, List, false, map, true};
ghost use Rattle.controller_station.specs.Runs.{alone};
ghost use Rattle.controller_abi.specs.Host.{AreFetched, AreServed, Entry, Runs, Shows, accepted_in, asked_in, operation_in};
ghost use Rattle.controller_abi.specs.Plays.{IsPlayed, IsTurn};

use crate::port::Port;
use crate::serving::serve;
use c_layout::Op;
use controller_station::a_station_has_its_controller_alone;

/// What a host asks for: an operation, and the octets that it gives with it.
#[derive(Drop)]
pub struct Asked<'a> {
    /// The operation.
    pub op: Op,
    /// The octets.
    pub given: &'a [u8],
}

/// A host, which learns what its operations return.
pub trait Host {
    /// All that it asked for and that was returned, in order.
    ghost told: { Self → List Entry };

    /// Whether it did not give up.
    ghost goes_on: { Self → Bool };

    /// If this holds, it never gives up. A host that promises nothing has `⊥`.
    ghost is_patient: { Self → Type 0 };

    /// This operation with these octets returned this number, and is now this operation. Returns whether the host goes on.
    fn tell(&mut self, asked: &Asked<'_>, answer: u32, reported: &Op) -> bool
        ensures told { told self.new ≡ told self.old ++ record {
          asked = asked.now.op;
          given = asked.now.given.now;
          answer = answer;
          reported = reported.now;
        } ∷ [] }
        ensures goes_on { result ≡ goes_on self.new }
        ensures patient { is_patient self.old → (result ≡ true) × is_patient self.new };
}

/// Carries out these operations of a host, one after another, until it gives up. Returns whether all were carried out.
pub fn play<H: Host>(port: &mut Port, operations: &[Asked<'_>], host: &mut H) -> bool
    // The host learns of the operations, in order, up to the one after which it gave up.
    ensures plays { (entries : List Entry) × (rest : List (Op × List ℕ)) × (H.told host.new ≡ H.told host.old ++ entries)
        × (map (λ one. (one.op, one.given.now)) operations.now ≡ asked_in entries ++ rest) × (result ≡ true → rest ≡ []) }
    // It ends early only because the host gave up.
    ensures cause { result ≡ false → H.goes_on host.new ≡ false }
    // For a host that never gives up all operations are carried out.
    ensures patient { H.is_patient host.old → (result ≡ true) × H.is_patient host.new }
    // The controller and what is beside it have made the steps of all accepted events, and the host has fetched all frames that
    // these sent, except those that still wait.
    ensures runs { (entries : List Entry) → H.told host.new ≡ H.told host.old ++ entries → Runs port.old entries port.new }
    // The controller is the controller alone after these events.
    ensures alone { (entries : List Entry) → H.told host.new ≡ H.told host.old ++ entries
        → port.new.controller ≡ alone port.old.controller (accepted_in entries) }
    // Each operation is answered at the port after those before it. A refused one changes nothing.
    ensures served { (entries : List Entry) → H.told host.new ≡ H.told host.old ++ entries → AreServed port.old entries }
    // A host that fetches all frames before each event is never refused for frames that wait.
    ensures fetched { (entries : List Entry) → H.told host.new ≡ H.told host.old ++ entries → AreFetched entries }
    // What the host reads is what the controller alone shows after the events accepted before.
    ensures shows { (before : List Entry) (entry : Entry) (more : List Entry)
        → H.told host.new ≡ H.told host.old ++ (before ++ entry ∷ more) → port.old.is_started ≡ true
        → Shows (operation_in entry) (alone port.old.controller (accepted_in before)) entry }
{
    a_station_has_its_controller_alone();
    play_all(port, operations, host)
}

// The same, as one run.
fn play_all<H: Host>(port: &mut Port, operations: &[Asked<'_>], host: &mut H) -> bool
    ensures played { IsPlayed (map (λ one. (one.op, one.given.now)) operations.now) (H.told host.old) (H.told host.new) result port.old port.new }
    ensures cause { result ≡ false → H.goes_on host.new ≡ false }
    ensures patient { H.is_patient host.old → (result ≡ true) × H.is_patient host.new }
{
    for asked in operations {
        if !play_one(port, asked, host) {
            return false;
        }
    }
    true
}

// One operation. Returns whether the host goes on.
fn play_one<H: Host>(port: &mut Port, asked: &Asked<'_>, host: &mut H) -> bool
    ensures played { (entry : Entry) × (H.told host.new ≡ H.told host.old ++ entry ∷ []) × (entry.asked ≡ asked.now.op)
        × (entry.given ≡ asked.now.given.now) × IsTurn port.old entry port.new }
    ensures goes_on { result ≡ H.goes_on host.new }
    ensures patient { H.is_patient host.old → (result ≡ true) × H.is_patient host.new }
{
    let mut op = copy_of(&asked.op);
    let answer = serve(port, &mut op, asked.given);
    host.tell(asked, answer, &op)
}

// A copy of an operation.
fn copy_of(op: &Op) -> Op
    ensures { result ≡ op.now }
{
    Op {
        what: op.what,
        slot: op.slot,
        subslot: op.subslot,
        index: op.index,
        number: op.number,
        channel: op.channel,
        error: op.error,
        appears: op.appears,
        is_good: op.is_good,
        is_up: op.is_up,
        is_low: op.is_low,
        units: op.units,
        due: op.due,
        note: op.note,
        reason: op.reason,
        phase: op.phase,
        cause: op.cause,
        lamp: op.lamp,
        iops: op.iops,
        data_status: op.data_status,
        count: op.count,
        left_out: op.left_out,
        commits: op.commits,
        status: op.status,
        block_error: op.block_error,
        alarm_type: op.alarm_type,
        specifier: op.specifier,
        structure: op.structure,
        sequence: op.sequence,
        confirmed: op.confirmed,
        progress: op.progress,
        wanted: op.wanted,
        read_length: op.read_length,
        port_length: op.port_length,
        chassis_length: op.chassis_length,
        work: op.work,
        more: op.more,
        sector: op.sector,
        place: op.place,
        length: op.length,
        octets: op.octets,
    }
}
