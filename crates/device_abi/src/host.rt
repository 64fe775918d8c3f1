//! A host: it hands in events, carries out the flash calls on its chip, and then sends the frames.
ghost use Rattle.std.specs.Prelude.{◌≡◌, List, [], ◌∷◌, IsOk, OnErr, OnOk, true};
ghost use Rattle.flash_model.specs.Torn.{HasCause};
ghost use Rattle.device_station.specs.recorded.Entry.{call_of};
ghost use Rattle.device_station.specs.recorded.Fits.{fits_in};
ghost use Rattle.device_frames.specs.declared.event.Event.{Event};
ghost use Rattle.device_frames.specs.declared.event.Event.TheVariants.{Application};
ghost use Rattle.device_abi.specs.Host.{Begun, Carries, EndsBy, GoesOn, HandsIn, IsFresh, Performs, Settles, Stands, begun_by, events_of};
ghost use Rattle.device_abi.specs.Plays.{Plays, point, settled};
ghost use Rattle.device_station.specs.port.Served.{advanced_both, frames_of};

use device_core::{Event, Local, Octets, Sink};
use device_station::{Port, Recorded, Stage, Work};
use flash_model::{Flash, FlashFault};
use frame_codec::Frame;

/// What a host does next.
#[derive(Drop)]
pub enum Operation<'a> {
    /// It hands in an event, after it has fetched all work of the one before.
    Happens(Event<'a>),
    /// It fetches one piece of work.
    Works,
}

/// Carries out these operations, in order, over a port that has just started from the content of the chip. A chip call
/// that fails cuts the host off: it sends nothing more, and must start again from the chip.
pub fn play<C: Flash<4096>, K: Sink>(
    port: &mut Port,
    chip: &mut C,
    operations: &[Operation<'_>],
    sink: &mut K,
) -> Result<(), FlashFault>
    requires { IsFresh port.old (C.image chip.old) }
    ensures ends { EndsBy result (begun_by port.old (K.taken sink.old)) (events_of operations.now) (K.taken sink.new) port.new
        (C.image chip.new) }
    // If no call of the chip failed, these operations were done, one piece of work for each `Works`.
    ensures plays { OnOk result (Plays operations.now (point port.old (C.image chip.old) (K.taken sink.old))
        (point port.new (C.image chip.new) (K.taken sink.new))) }
    // It fails only because a call of the chip failed.
    ensures cause { HasCause (C.failures chip.old) (C.failures chip.new) result }
    // Then the port is lost: it hands out nothing more.
    ensures lost { OnErr result (port.new.port.stage ≡ Stage.Lost) }
    // Over a chip whose calls succeed it succeeds.
    ensures reliable { C.is_reliable chip.old → IsOk result × C.is_reliable chip.new }
{
    for operation in operations {
        go_on(port, chip, operation, sink)?;
    }
    Ok(())
}

// One operation.
fn go_on<C: Flash<4096>, K: Sink>(
    port: &mut Port,
    chip: &mut C,
    operation: &Operation<'_>,
    sink: &mut K,
) -> Result<(), FlashFault>
    ensures ends { (begun : Begun) (events : List Event) → Stands begun events (K.taken sink.old) port.old (C.image chip.old) →
        GoesOn result begun events (events_of (operation.now ∷ [])) (K.taken sink.new) port.new (C.image chip.new) }
    ensures plays { port.old.port.stage ≡ Stage.Booted → OnOk result (Plays (operation.now ∷ []) (point port.old (C.image chip.old) (K.taken sink.old))
        (point port.new (C.image chip.new) (K.taken sink.new)) × (port.new.port.stage ≡ Stage.Booted)) }
    ensures cause { HasCause (C.failures chip.old) (C.failures chip.new) result }
    ensures lost { port.old.port.stage ≡ Stage.Booted → OnErr result (port.new.port.stage ≡ Stage.Lost) }
    ensures reliable { C.is_reliable chip.old → IsOk result × C.is_reliable chip.new }
{
    match operation {
        Operation::Happens(event) => {
            settle(port, chip, sink)?;
            hand_in(port, event);
            Ok(())
        }
        Operation::Works => work(port, chip, sink),
    }
}

// Fetches all remaining work.
fn settle<C: Flash<4096>, K: Sink>(
    port: &mut Port,
    chip: &mut C,
    sink: &mut K,
) -> Result<(), FlashFault>
    ensures ends { (begun : Begun) (events : List Event) → Stands begun events (K.taken sink.old) port.old (C.image chip.old) →
        Settles result begun events (K.taken sink.new) port.new (C.image chip.new) }
    ensures settled { port.old.port.stage ≡ Stage.Booted → OnOk result (point port.new (C.image chip.new) (K.taken sink.new)
        ≡ settled (point port.old (C.image chip.old) (K.taken sink.old))) }
    ensures cause { HasCause (C.failures chip.old) (C.failures chip.new) result }
    ensures lost { port.old.port.stage ≡ Stage.Booted → OnErr result (port.new.port.stage ≡ Stage.Lost) }
    ensures reliable { C.is_reliable chip.old → IsOk result × C.is_reliable chip.new }
{
    while port.has_work() {
        work(port, chip, sink)?;
    }
    Ok(())
}

// Hands in an event, as a product does.
fn hand_in(port: &mut Port, event: &Event<'_>)
    ensures { HandsIn port.old event.now port.new }
{
    match event {
        Event::Frame(bytes) => {
            let _ = port.frame(bytes.as_slice());
        }
        Event::Tick => {
            let _ = port.tick(1);
        }
        Event::Application(local) => hand_on(port, local),
        Event::Call(..) => {
            let _ = port.apply(event);
        }
        Event::Neighbour(_) => {
            let _ = port.apply(event);
        }
    }
}

// Hands in what the application says.
fn hand_on(port: &mut Port, local: &Local<Octets<'_, 1519>>)
    ensures { HandsIn port.old (Application local.now) port.new }
{
    match local {
        Local::Input(slot, subslot, octets) => {
            let _ = port.input(*slot, *subslot, octets.as_slice());
        }
        Local::Alarm(slot, subslot, octets) => {
            let _ = port.alarm(*slot, *subslot, octets.as_slice());
        }
        Local::Status(slot, subslot, is_good) => {
            let _ = port.status(*slot, *subslot, *is_good);
        }
        Local::Diagnosis(slot, subslot, channel, error, appears) => {
            let _ = port.diagnosis(*slot, *subslot, *channel, *error, *appears);
        }
        Local::Pull(slot, subslot) => {
            let _ = port.pull(*slot, *subslot);
        }
        Local::PullModule(slot) => {
            let _ = port.pull_module(*slot);
        }
        Local::Plug(slot, ident, submodule) => {
            let _ = port.plug(*slot, *ident, submodule.copy());
        }
        Local::ReadyAt(slot, subslot) => {
            let _ = port.ready_at(*slot, *subslot);
        }
        Local::Ready => {
            let _ = port.ready();
        }
        Local::ProviderState(is_running) => {
            let _ = port.provider_state(*is_running);
        }
        Local::Answer(number, octets) => {
            let _ = port.answer(*number, octets.as_slice());
        }
        Local::Written(number) => {
            let _ = port.written(*number);
        }
        Local::Refuse(number, code1, code2) => {
            let _ = port.refuse(*number, *code1, *code2);
        }
    }
}

// Fetches the next piece of work. A call that fails counts as lost power.
fn work<C: Flash<4096>, K: Sink>(
    port: &mut Port,
    chip: &mut C,
    sink: &mut K,
) -> Result<(), FlashFault>
    ensures performs { port.old.port.stage ≡ Stage.Booted →
        Performs port.old.port.calls (frames_of port.old) (C.image chip.old) (K.taken sink.old) result (C.image chip.new) (K.taken sink.new) }
    ensures advanced { OnOk result (port.new ≡ advanced_both port.old) }
    ensures cause { HasCause (C.failures chip.old) (C.failures chip.new) result }
    ensures lost { port.old.port.stage ≡ Stage.Booted → OnErr result (port.new.port.stage ≡ Stage.Lost) }
    ensures reliable { C.is_reliable chip.old → IsOk result × C.is_reliable chip.new }
{
    match perform(port, chip, sink) {
        Ok(()) => {
            port.advance();
            Ok(())
        }
        Err(fault) => {
            let _ = port.lose();
            Err(fault)
        }
    }
}

// Carries out the next call on the chip, or sends the next frame.
fn perform<C: Flash<4096>, K: Sink>(
    port: &Port,
    chip: &mut C,
    sink: &mut K,
) -> Result<(), FlashFault>
    ensures performs { port.now.port.stage ≡ Stage.Booted →
        Performs port.now.port.calls (frames_of port.now) (C.image chip.old) (K.taken sink.old) result (C.image chip.new) (K.taken sink.new) }
    ensures cause { HasCause (C.failures chip.old) (C.failures chip.new) result }
    ensures reliable { C.is_reliable chip.old → IsOk result × C.is_reliable chip.new }
{
    match port.work() {
        Ok(Work::Carry(call)) => carry(chip, &call),
        Ok(Work::Send(octets)) => {
            let mut frame = Frame::new();
            frame.append(octets);
            sink.take(&frame);
            Ok(())
        }
        Ok(Work::Nothing) | Err(_) => Ok(()),
    }
}

// Carries out a call on the chip.
fn carry<C: Flash<4096>>(chip: &mut C, call: &Recorded<'_>) -> Result<(), FlashFault>
    requires { fits_in 4096 (call_of call.now) ≡ true }
    ensures carries { Carries (C.image chip.old) (call_of call.now) result (C.image chip.new) }
    ensures cause { HasCause (C.failures chip.old) (C.failures chip.new) result }
    ensures reliable { C.is_reliable chip.old → IsOk result × C.is_reliable chip.new }
{
    match call {
        Recorded::Program {
            sector,
            place,
            bytes,
        } => chip.program(*sector, *place as usize, bytes),
        Recorded::Erase { sector } => chip.erase(*sector),
    }
}
