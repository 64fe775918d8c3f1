//! Both ends of a network, played by moves, and what a witness learns of them: the frames that came to each end, those that it
//! sent, and what it showed.
ghost use Rattle.std.specs.Prelude.{◌≡◌, ◌++◌, ◌∷◌, [], List, IfErr, IfOk, drop, false, length, option_map, slice_get, take, unwrap_or};
ghost use Rattle.settings_journal.specs.Image.{LeftByDevice};
ghost use Rattle.both_ends.specs.startup.Played.{AreUnnamed, Begins, CanMeet};
ghost use Rattle.network_world.specs.Sent.{octets_of};
ghost use Rattle.network_world.specs.World.{Happens, end_at};
ghost use Rattle.startup_octets.specs.Alarms.{AreAlarmsTaken};
ghost use Rattle.startup_octets.specs.StartUp.{AreDelivered, AreStartUps};
ghost use Rattle.startup_octets.specs.Log.{AreOfMoves, Entry, moves_in, sent_in, turns_in};
ghost use Rattle.startup_octets.specs.Outputs.{AreKept, AreShown, outputs_in};
ghost use Rattle.startup_octets.specs.OutputWorlds.{octets_in, outputs_shown, places_shown};
ghost use Rattle.startup_octets.specs.Played.{came_by, is_device, records_for};
ghost use Rattle.startup_octets.specs.Run.{IsCut, IsRun, entry_by, opening_entry};

use crate::alarms::alarms_are_read;
use crate::outputs::{outputs_are_shown, shown_outputs};
use crate::start_up::start_ups_are_read;
use asked_records::NamedRecords;
use block_codec::AlarmNotification;
use both_ends::{are_unnamed, begin_world, can_meet, modules_are_sized, moves_are_sized};
use controller_messages::Setup;
use device_core::Device;
use expected_places::ExpectedPlace;
use flash_model::Flash;
use frame_codec::{Bytes, Frame};
use network_world::{End, Move, World};
use pn_values::{Identity, Real};
use relations::DeviceOptions;
use settings_journal::BootFault;
use std::alloc::{AllocError, Global};

/// What both ends show.
#[derive(Drop)]
pub struct Shown<'a> {
    /// What the device shows as each output of the plan, in the order of slots and subslots.
    pub outputs: Vec<Option<Bytes>>,
    /// The places of the device's relation, and how far each is since something was pulled or plugged there. `None` if there is no
    /// relation.
    pub places: Option<&'a [ExpectedPlace]>,
    /// The last alarm of high priority that the controller accepted, if there was one.
    pub alarm: Option<AlarmNotification<'a>>,
}

/// Who learns each turn of an end.
pub trait Witness {
    /// What was learned, in order.
    ghost log: { Self → List Entry };

    /// An end, the device or the controller, made a turn: this frame came to it, or no octets, and it sent these frames. The
    /// turn is that of this move, or the first one, in which the controller sends its opening frame. Then both ends show this.
    fn tell(
        &mut self,
        at_device: bool,
        came: &[u8],
        sent: &[Frame],
        said: Option<&Move>,
        shown: &Shown<'_>,
    )
        ensures { log self.new ≡ log self.old ++ record {
          turn = record { at_device = at_device; came = came.now; sent = octets_of sent.now };
          said = option_map (λ one. one.now) said.entry;
          alarm = shown.now.alarm;
          outputs = octets_in shown.now.outputs.items;
          places = option_map (λ places. places.now) shown.now.places;
        } ∷ [] };
}

/// What a device is: its identity, what is plugged, its options, and the records that its application answers.
#[derive(Drop)]
pub struct Station {
    /// The identity.
    pub identity: Identity,
    /// The modules.
    pub real: Real,
    /// The options.
    pub options: DeviceOptions,
    /// The records that the application answers.
    pub named: NamedRecords,
}

/// Why not all moves were played.
#[derive(Clone, Copy, Debug, PartialEq, Eq)]
pub enum PlayFault {
    /// The two ends have the same MAC address, the ARUUID is zero, or a record of the plan is no parameter record, or one that the
    /// application of the device answers.
    CannotMeet,
    /// The device does not start from its flash.
    NoStart(BootFault),
    /// There is not enough memory.
    OutOfMemory,
}

/// Starts a device on its flash, and a controller with this set-up, and makes the moves, one after another. The witness learns
/// each turn.
pub fn play<F: Flash<S>, const S: usize, W: Witness>(
    alloc: Global,
    station: Station,
    flash: F,
    setup: Setup,
    moves: &[Move],
    witness: &mut W,
) -> Result<World<F, S>, PlayFault>
    // The witness learns turns of the moves: each is at the end of its move, and the frame of that number came. On success it
    // learns all of them.
    ensures turns { (entries : List Entry) × (rest : List Move) × (W.log witness.new ≡ W.log witness.old ++ entries)
        × AreOfMoves [] entries × (moves.now ≡ moves_in entries ++ rest) × IfOk result (λ last. rest ≡ []) }
    // It learns all frames that the two ends sent.
    ensures sent { (entries : List Entry) → W.log witness.new ≡ W.log witness.old ++ entries → IfOk result (λ last. sent_in entries ≡ last.sent) }
    // Each frame that comes to an end was sent before, by either end.
    ensures delivered { (entries : List Entry) → W.log witness.new ≡ W.log witness.old ++ entries → AreDelivered [] (turns_in entries) }
    // If the plan does not say that the start-up goes on after a refused record: each call that the controller answers with
    // PNIOStatus 0 is an ApplicationReady of its relation, or of a plug in it. Before, the device had granted the Connect that the
    // controller had sent, had accepted the plan's records in order, each once, and had granted PrmEnd; then it sent the
    // ApplicationReady of the relation.
    ensures start_ups { (entries : List Entry) → W.log witness.new ≡ W.log witness.old ++ entries
        → setup.plan.continue_on_refused_record ≡ false
        → AreStartUps station.identity.mac setup.ar (records_for setup.plan.records.items) (drop 1 (turns_in entries)) }
    // If at most 32,768 alarms are raised, those that the controller accepted are a prefix of those that the device's application
    // raised: in order, each once, with their octets; at most the last one is missing. After each turn the controller shows the
    // last one that it accepted.
    ensures alarms { (entries : List Entry) → W.log witness.new ≡ W.log witness.old ++ entries → AreAlarmsTaken entries }
    // After each turn all outputs that the device shows are zeros, or all come from one frame: a cyclic frame of the relation that
    // the controller had sent, and that came to the device in a later turn. Each is what the frame carries for it: the value that
    // was given last when the frame was sent; zeros if none was given, or if the application had said that it is bad. At a touched
    // place, where something was pulled or plugged that the controller has not released since, zeros are shown.
    ensures outputs { (entries : List Entry) → W.log witness.new ≡ W.log witness.old ++ entries
        → AreShown station.options (outputs_in setup.plan.real.modules.items) entries }
    // In each turn the outputs stay the same, or they become zeros, or all become what a cyclic frame of the relation carries that
    // comes to the device in this turn. At touched places they are zeros meanwhile.
    ensures changes { (entries : List Entry) → W.log witness.new ≡ W.log witness.old ++ entries
        → AreKept station.options (outputs_in setup.plan.real.modules.items) entries }
    // A set-up that can meet the device, with no record of its plan among those that the application of the device answers, is not
    // refused, nor is a flash that a device left, unless it cannot be read.
    ensures meets { CanMeet setup station.identity → AreUnnamed station.named setup.plan.records.items
        → IfErr result (λ fault. fault ≡ PlayFault.CannotMeet → ⊥) }
    ensures starts { LeftByDevice (F.image flash) → IfErr result (λ fault. (cause : BootFault) → fault ≡ PlayFault.NoStart cause → cause ≡ BootFault.FlashFault) }
{
    start_ups_are_read::<F, S>(&setup, &station.identity);
    outputs_are_shown::<F, S>(&setup, &station.identity);
    alarms_are_read::<F, S>(&setup, &station.identity);
    let world = begin(alloc, station, flash, setup)?;
    modules_are_sized(world.device().real());
    moves_are_sized(moves);
    match play_all(alloc, world, moves, witness) {
        Ok(last) => Ok(last),
        Err(AllocError) => Err(PlayFault::OutOfMemory),
    }
}

// The world of a device that starts, and of a controller that was just made.
fn begin<F: Flash<S>, const S: usize>(
    alloc: Global,
    station: Station,
    flash: F,
    setup: Setup,
) -> Result<World<F, S>, PlayFault>
    ensures begins { IfOk result (λ world. Begins setup station.identity world) }
    ensures can { IfOk result (λ world. CanMeet setup station.identity) }
    ensures options { IfOk result (λ world. world.device.station.options ≡ station.options) }
    ensures meets { CanMeet setup station.identity → AreUnnamed station.named setup.plan.records.items
        → IfErr result (λ fault. fault ≡ PlayFault.CannotMeet → ⊥) }
    ensures starts { LeftByDevice (F.image flash) → IfErr result (λ fault. (cause : BootFault) → fault ≡ PlayFault.NoStart cause → cause ≡ BootFault.FlashFault) }
{
    if !can_meet(&setup, &station.identity) {
        return Err(PlayFault::CannotMeet);
    }
    if !are_unnamed(station.named.as_slice(), setup.plan.records()) {
        return Err(PlayFault::CannotMeet);
    }
    let Station {
        identity,
        real,
        options,
        named,
    } = station;
    match Device::boot_named(identity, real, options, named, flash) {
        Ok(device) => Ok(begin_world(alloc, device, setup)),
        Err(refused) => Err(PlayFault::NoStart(refused.0)),
    }
}

// The turns of a world that begins: the opening frame, and then the moves.
fn play_all<F: Flash<S>, const S: usize, W: Witness>(
    alloc: Global,
    world: World<F, S>,
    moves: &[Move],
    witness: &mut W,
) -> Result<World<F, S>, AllocError>
    requires opened { length world.sent ≡ 1 }
    ensures played { IfOk result (λ last. IsRun F.Flash world moves.now (W.log witness.old) (W.log witness.new) last) }
    ensures cut { IfErr result (λ fault. IsCut F.Flash world moves.now (W.log witness.old) (W.log witness.new)) }
{
    let mut world = world;
    tell_opening(alloc, &world, witness)?;
    let mut count = 1;
    for one in moves {
        count = play_one(alloc, &mut world, one, count, witness)?;
    }
    Ok(world)
}

// The first turn of the controller.
fn tell_opening<F: Flash<S>, const S: usize, W: Witness>(
    alloc: Global,
    world: &World<F, S>,
    witness: &mut W,
) -> Result<(), AllocError>
    ensures logged { IfOk result (λ unit. W.log witness.new ≡ W.log witness.old ++ opening_entry world.now ∷ []) }
    ensures same { IfErr result (λ fault. W.log witness.new ≡ W.log witness.old) }
{
    let sent = sent_since(alloc, world, 0)?;
    let shown = shown_by(alloc, world)?;
    witness.tell(false, &[], sent.as_slice(), None, &shown);
    Ok(())
}

// One move in a world with this number of frames. Returns the number of frames after it.
fn play_one<F: Flash<S>, const S: usize, W: Witness>(
    alloc: Global,
    world: &mut World<F, S>,
    one: &Move,
    count: usize,
    witness: &mut W,
) -> Result<usize, AllocError>
    requires counted { length world.old.sent ≡ count }
    ensures happens { IfOk result (λ more. Happens F.Flash world.old one.now world.new) }
    ensures logged { IfOk result (λ more. W.log witness.new ≡ W.log witness.old ++ entry_by world.old one.now world.new ∷ []) }
    ensures counted { IfOk result (λ more. length world.new.sent ≡ more) }
    ensures same { IfErr result (λ fault. W.log witness.new ≡ W.log witness.old) }
{
    world.play(std::slice::from_ref(one))?;
    let sent = sent_since(alloc, world, count)?;
    let frames = sent.as_slice();
    let Some(more) = count.checked_add(frames.len()) else {
        return Err(AllocError);
    };
    let shown = shown_by(alloc, world)?;
    let came = came(world, one, count);
    witness.tell(is_at_device(one), came, frames, Some(one), &shown);
    Ok(more)
}

// What both ends show in a world.
fn shown_by<F: Flash<S>, const S: usize>(
    alloc: Global,
    world: &World<F, S>,
) -> Result<Shown<'_>, AllocError>
    ensures alarm { IfOk result (λ shown. shown.alarm ≡ world.now.controller.live.alarm) }
    ensures outputs { IfOk result (λ shown. octets_in shown.outputs.items ≡ outputs_shown world.now) }
    ensures places { IfOk result (λ shown. option_map (λ places. places.now) shown.places ≡ places_shown world.now) }
{
    Ok(Shown {
        outputs: shown_outputs(alloc, world)?,
        places: world.device().expected(),
        alarm: world.controller().alarm(),
    })
}

// Whether a move is made at the device.
fn is_at_device(one: &Move) -> bool
    ensures { result ≡ is_device (end_at one.now) }
{
    let end = match one {
        Move::Deliver(end, _) => *end,
        Move::Tick(end) => *end,
        Move::Give(_, _, _) => End::Controller,
        Move::OutputStatus(_, _, _) => End::Controller,
        Move::Read(_, _, _) => End::Controller,
        Move::Write(_, _, _, _) => End::Controller,
        Move::Stop => End::Controller,
        _ => End::Device,
    };
    matches!(end, End::Device)
}

// The frame that a move delivers, of the first ones that were sent, or no octets.
fn came<'a, F: Flash<S>, const S: usize>(
    world: &'a World<F, S>,
    one: &Move,
    count: usize,
) -> &'a [u8]
    ensures { result.now ≡ came_by (take count world.now.sent) one.now }
{
    match one {
        Move::Deliver(_, number) => first_sent(world, *number, count),
        _ => &[],
    }
}

// The frame with this number of the first ones that were sent, or no octets.
fn first_sent<F: Flash<S>, const S: usize>(
    world: &World<F, S>,
    number: usize,
    count: usize,
) -> &[u8]
    ensures { result.now ≡ unwrap_or (slice_get (take count world.now.sent) number) [] }
{
    if number >= count {
        return &[];
    }
    match world.sent(number) {
        Some(frame) => frame.as_slice(),
        None => &[],
    }
}

// Copies of the frames that were sent after the first ones.
fn sent_since<F: Flash<S>, const S: usize>(
    alloc: Global,
    world: &World<F, S>,
    count: usize,
) -> Result<Vec<Frame>, AllocError>
    ensures { IfOk result (λ frames. octets_of frames.items ≡ drop count world.now.sent) }
{
    let mut sent = Vec::new(alloc);
    for number in count..usize::MAX {
        match world.sent(number) {
            Some(frame) => sent.push(copy_of(frame))?,
            None => return Ok(sent),
        }
    }
    Err(AllocError)
}

// A copy of a frame.
fn copy_of(frame: &Frame) -> Frame
    ensures { result.items ≡ frame.now.items }
{
    let mut copy = Frame::new();
    copy.copy(frame);
    copy
}
