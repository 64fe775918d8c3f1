//! A controller from its start on.
ghost use Rattle.std.specs.Prelude.{◌≡◌, ◌++◌, ◌∷◌, [], List, map};
ghost use Rattle.frame_codec.specs.Outbox.{boxed};
ghost use Rattle.frame_codec.specs.Sendable.{IsMac};
ghost use Rattle.exchange_law.specs.declared.controller.Happening.TheVariants.{Leaps};
ghost use Rattle.exchange_law.specs.Told.{AllAlong, AreOf, Told, quiet};
ghost use Rattle.exchange_law.specs.Interval.{BeginsWell, IsOnTime};
ghost use Rattle.exchange_law.specs.Outputs.{CarriesWhatIsGiven};
ghost use Rattle.exchange_law.specs.Run.{Happens, Runs, Turns};

use controller_core::{Controller, Event, State};
use end_laws::{controller_goes_on, turns_are_of_a_kind};
use frame_codec::{Outbox, formats_are_sound, frames_are_read};
use plans::packed_places_are_asked;
use pn_values::Mac;

/// What a host does with a controller.
#[derive(Drop)]
pub enum Happening {
    /// It hands in an event.
    Comes(Event),
    /// It lets this many units pass at once, or as many as `Controller::due` returns, if that are fewer.
    Leaps(u32),
}

/// Who learns what a controller was given, what it sent, and what it showed.
pub trait Witness {
    /// The entries, in order: a unit is one, also if it passed with others.
    ghost told: { Self → List Told };

    /// The controller was given this event, sent these frames with it, and shows this state then.
    fn tell(&mut self, event: &Event, frames: &Outbox, state: State)
        ensures { told self.new ≡ told self.old ++ record { event = event.now; sent = boxed frames.now; state = state } ∷ [] };

    /// This many units passed, with which nothing was sent, and after each of which the controller shows this state.
    fn pass(&mut self, units: u32, state: State)
        ensures { told self.new ≡ told self.old ++ quiet units state };
}

/// Starts a controller, in any state, and lets all this happen to it. Its opening frame counts as sent.
pub fn controller_exchanges<W: Witness>(
    controller: &mut Controller,
    happenings: &[Happening],
    witness: &mut W,
)
    // The witness learns of all that happens, in order, unit by unit.
    ensures events { (told : List Told) × (W.told witness.new ≡ W.told witness.old ++ told) × AreOf happenings.now (map (λ one. one.event) told) }
    // The relation exists from the response to the Connect on, until the controller ends. With each of its units whose number is a
    // multiple of SendClockFactor times ReductionRatio, exactly one frame of cyclic data is sent, and with no other event any is; if the
    // FrameID that the device chose is one of cyclic data.
    ensures interval { (told : List Told) → W.told witness.new ≡ W.told witness.old ++ told
        → AllAlong (BeginsWell controller.old.setup.plan.controller) [] told → AllAlong (IsOnTime controller.old.setup.plan.times) [] told }
    // Each of these frames has for each output the value that the application gave last, and zeros before; an IOPS that is good exactly if
    // a value was given and the application does not say that it is bad; a good IOCS for each submodule that sends; and the units since the
    // start as its counter.
    ensures carries { (told : List Told) → W.told witness.new ≡ W.told witness.old ++ told
        → AllAlong (BeginsWell controller.old.setup.plan.controller) [] told → AllAlong (CarriesWhatIsGiven controller.old.setup.plan.real.modules.items) [] told }
{
    frames_are_read();
    formats_are_sound();
    packed_places_are_asked();
    turns_are_of_a_kind();
    controller_goes_on();
    let plan = controller.plan();
    let _station = plan.station();
    has_six(&plan.controller().mac);
    controller.start();
    run(controller, happenings, witness);
}

// A MAC address has six octets.
fn has_six(mac: &Mac)
    ensures { IsMac mac.now }
{
    let _octets: &[u8] = &mac.octets;
}

// All that happens, one after another.
fn run<W: Witness>(controller: &mut Controller, happenings: &[Happening], witness: &mut W)
    ensures { Runs controller.old happenings.now (W.told witness.old) (W.told witness.new) controller.new }
{
    let mut outbox = Outbox::new();
    for one in happenings {
        happen(controller, one, &mut outbox, witness);
    }
}

// One thing that happens.
fn happen<W: Witness>(
    controller: &mut Controller,
    one: &Happening,
    outbox: &mut Outbox,
    witness: &mut W,
)
    ensures { Happens controller.old one.now (W.told witness.old) (W.told witness.new) controller.new }
{
    match one {
        Happening::Comes(event) => turn(controller, event, outbox, witness),
        Happening::Leaps(units) => leap(controller, *units, outbox, witness),
    }
}

// One event.
fn turn<W: Witness>(
    controller: &mut Controller,
    event: &Event,
    outbox: &mut Outbox,
    witness: &mut W,
)
    ensures { Turns controller.old event.now (W.told witness.old) (W.told witness.new) controller.new }
{
    controller.step(event, outbox);
    witness.tell(event, outbox, controller.state());
}

// Several units at once: nothing is sent before the last one.
fn leap<W: Witness>(controller: &mut Controller, units: u32, outbox: &mut Outbox, witness: &mut W)
    ensures { Happens controller.old (Leaps units) (W.told witness.old) (W.told witness.new) controller.new }
{
    let count = units.min(controller.due());
    if count == 0 {
        return;
    }
    witness.pass(count - 1, controller.state());
    controller.elapse(count, outbox);
    witness.tell(&Event::Tick, outbox, controller.state());
}
