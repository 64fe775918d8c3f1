//! Why a device refuses what its application says.
ghost use Rattle.std.specs.Prelude.{◌≡◌, Some, option_map};
ghost use Rattle.asked_records.specs.Answers.{gives};
ghost use Rattle.asked_records.specs.Asked.{seen, seen_in, want_of};
ghost use Rattle.diagnosis.specs.Existing.{exists as is_one};
ghost use Rattle.relations.specs.Plugging.{places_in};
ghost use Rattle.relations.specs.RelationState.{phase_of};
ghost use Rattle.device_abi.specs.Reasons.{input_size, part_size as size_of_part, reason_number, why_no_alarm, why_no_diagnosis, why_no_input};
ghost use Rattle.device_abi.specs.Reasons.{why_no_answer, why_no_octets};
ghost use Rattle.device_abi.specs.Reasons.{why_no_plug, why_no_pull, why_no_slot_pull, why_no_status, why_no_value, why_not_added, why_not_ready, why_not_ready_at, why_not_ready_for};
ghost use Rattle.device_abi.specs.Reasons.{why_not_removed, why_unchanged, why_unfit, why_unraised, why_unready};
ghost use Rattle.expected_places.specs.Places.{place_at};

use asked_records::{AskedRecord, Given, Wanted};
use device_core::Device;
use device_station::RecordedFlash;
use diagnosis::{Change, Diagnosis};
use expected_places::{ExpectedPlace, Step};
use module_diff::{can_plug, module_in, part_ident};
use pn_values::{RealModule, RealSubmodule};
use relations::{Phase, is_plugged};

/// A device over the flash that records its calls.
type Recording = Device<RecordedFlash<4096>, 4096>;

/// Why a device refuses what its application says.
#[derive(Clone, Copy, Debug, PartialEq, Eq)]
pub enum Reason {
    /// No submodule is plugged in this slot and subslot.
    NotPlugged = 1,
    /// There is no relation.
    NoRelation = 2,
    /// An input of another length than that of the submodule, more than 32 octets of an alarm, or more octets of a record than it has.
    BadLength = 3,
    /// The relation has no input of this submodule with this length.
    NoPlace = 4,
    /// The relation exchanges no data yet.
    NoExchange = 5,
    /// The alarm before this one is not over.
    AlarmOpen = 6,
    /// A channel after 0x8000, or the ChannelErrorType 0.
    BadNumber = 7,
    /// The diagnosis exists already.
    Exists = 8,
    /// The diagnosis does not exist.
    Absent = 9,
    /// The list is full: 32 diagnoses exist.
    Full = 10,
    /// 32 changes wait for their alarms: of diagnosis, pulls and plugs.
    ChangesWait = 11,
    /// The parameters of the relation, or of the plug, have not ended.
    TooEarly = 12,
    /// The relation does not wait for its application: ApplicationReady was sent.
    TooLate = 13,
    /// Slot 0, the access point, stays.
    AccessPoint = 14,
    /// A module with another ident number is plugged in this slot.
    OtherModule = 15,
    /// A submodule is plugged in this subslot.
    IsPlugged = 16,
    /// Four submodules are plugged in this module.
    NoRoom = 17,
    /// A number of the submodule is not in its range.
    BadSubmodule = 18,
    /// The relation knows of no plug there.
    NoPlug = 19,
    /// Nothing is asked of the application under this number.
    NotAsked = 20,
    /// Octets for a Write, or that it is done for a Read.
    OtherKind = 21,
    /// ErrorCode1 is not one of an application.
    BadCode = 22,
}

impl Reason {
    /// The number of this reason.
    pub fn number(self) -> u32
        ensures { result ≡ reason_number self }
    {
        self as u32
    }
}

// ---- inputs

/// Why the device refuses an input of this size.
pub(crate) fn why_no_input(device: &Recording, slot: u16, subslot: u16, size: usize) -> Reason
    ensures { result ≡ why_no_input device.now.live.rest.real.modules.items slot subslot size (phase_of device.now.live.rest.link) }
{
    match input_size(device, slot, subslot) {
        Some(input) => why_no_value(input, size, device.phase()),
        None => Reason::NotPlugged,
    }
}

// The octets of the input of the submodule that is plugged there, if one is.
fn input_size(device: &Recording, slot: u16, subslot: u16) -> Option<u16>
    ensures { result ≡ input_size device.now.live.rest.real.modules.items slot subslot }
{
    part_size(module_in(device.real(), slot)?, subslot)
}

// The octets of the input of the submodule in this subslot of a module, if one is plugged there.
fn part_size(entry: &RealModule, subslot: u16) -> Option<u16>
    ensures { result ≡ size_of_part (Some entry.now) subslot }
{
    for part in entry.submodules.as_slice() {
        if part.subslot == subslot {
            return Some(part.input);
        }
    }
    None
}

// The same of a submodule that is plugged, whose input has this many octets.
fn why_no_value(input: u16, size: usize, phase: Option<Phase>) -> Reason
    ensures { result ≡ why_no_value (Some input) size phase }
{
    if usize::from(input) != size {
        return Reason::BadLength;
    }
    match phase {
        Some(_) => Reason::NoPlace,
        None => Reason::NoRelation,
    }
}

// ---- alarms

/// Why the device refuses an alarm with this many octets.
pub(crate) fn why_no_alarm(device: &Recording, slot: u16, subslot: u16, size: usize) -> Reason
    ensures { result ≡ why_no_alarm device.now.live.rest.real.modules.items slot subslot size (phase_of device.now.live.rest.link) }
{
    if !is_plugged(device.real(), slot, subslot) {
        return Reason::NotPlugged;
    }
    if size > 32 {
        return Reason::BadLength;
    }
    why_unraised(device.phase())
}

fn why_unraised(phase: Option<Phase>) -> Reason
    ensures { result ≡ why_unraised phase }
{
    match phase {
        Some(Phase::Exchanging) => Reason::AlarmOpen,
        Some(Phase::Started | Phase::Preparing | Phase::Awaiting) => Reason::NoExchange,
        None => Reason::NoRelation,
    }
}

// ---- statuses

/// Why the device refuses a status.
pub(crate) fn why_no_status(device: &Recording, slot: u16, subslot: u16) -> Reason
    ensures { result ≡ why_no_status device.now.live.rest.real.modules.items slot subslot }
{
    if is_plugged(device.real(), slot, subslot) {
        Reason::Full
    } else {
        Reason::NotPlugged
    }
}

// ---- diagnoses

/// Why the device refuses a change of diagnosis.
pub(crate) fn why_no_diagnosis(device: &Recording, change: &Change) -> Reason
    ensures { result ≡ why_no_diagnosis device.now.live.rest.real.modules.items device.now.live.rest.diagnoses change.now }
{
    if is_plugged(
        device.real(),
        change.diagnosis.slot,
        change.diagnosis.subslot,
    ) {
        why_unchanged(change, device.diagnoses())
    } else {
        Reason::NotPlugged
    }
}

// The same of a submodule that is plugged.
fn why_unchanged(change: &Change, diagnoses: &[Diagnosis]) -> Reason
    ensures { result ≡ why_unchanged change.now diagnoses.now }
{
    if !change.diagnosis.is_valid() {
        return Reason::BadNumber;
    }
    if change.appears {
        why_not_added(&change.diagnosis, diagnoses)
    } else {
        why_not_removed(&change.diagnosis, diagnoses)
    }
}

fn why_not_added(diagnosis: &Diagnosis, diagnoses: &[Diagnosis]) -> Reason
    ensures { result ≡ why_not_added diagnosis.now diagnoses.now }
{
    if exists(diagnosis, diagnoses) {
        return Reason::Exists;
    }
    if diagnoses.len() < 32 {
        Reason::ChangesWait
    } else {
        Reason::Full
    }
}

fn why_not_removed(diagnosis: &Diagnosis, diagnoses: &[Diagnosis]) -> Reason
    ensures { result ≡ why_not_removed diagnosis.now diagnoses.now }
{
    if exists(diagnosis, diagnoses) {
        Reason::ChangesWait
    } else {
        Reason::Absent
    }
}

// Whether a diagnosis is one of these.
fn exists(diagnosis: &Diagnosis, diagnoses: &[Diagnosis]) -> bool
    ensures { result ≡ is_one diagnosis.now diagnoses.now }
{
    diagnoses.iter().any(|other| diagnosis.is_same(other))
}

// ---- ready

/// Why the application is not ready now.
pub(crate) fn why_not_ready(device: &Recording) -> Reason
    ensures { result ≡ why_not_ready (phase_of device.now.live.rest.link) }
{
    match device.phase() {
        Some(Phase::Started) => Reason::TooEarly,
        Some(Phase::Preparing | Phase::Awaiting | Phase::Exchanging) => Reason::TooLate,
        None => Reason::NoRelation,
    }
}

// ---- modules that come and go

/// Why the device refuses the pull of a submodule.
pub(crate) fn why_no_pull(device: &Recording, slot: u16, subslot: u16) -> Reason
    ensures { result ≡ why_no_pull device.now.live.rest.real.modules.items slot subslot }
{
    if slot == 0 {
        return Reason::AccessPoint;
    }
    if is_plugged(device.real(), slot, subslot) {
        Reason::ChangesWait
    } else {
        Reason::NotPlugged
    }
}

/// Why the device refuses the pull of a module.
pub(crate) fn why_no_slot_pull(device: &Recording, slot: u16) -> Reason
    ensures { result ≡ why_no_slot_pull device.now.live.rest.real.modules.items slot }
{
    if slot == 0 {
        return Reason::AccessPoint;
    }
    if module_in(device.real(), slot).is_some() {
        Reason::ChangesWait
    } else {
        Reason::NotPlugged
    }
}

/// Why the device refuses the plug of a submodule.
pub(crate) fn why_no_plug(
    device: &Recording,
    slot: u16,
    ident: u32,
    submodule: &RealSubmodule,
) -> Reason
    ensures { result ≡ why_no_plug device.now.live.rest.real.modules.items slot ident submodule.now }
{
    if slot == 0 {
        return Reason::AccessPoint;
    }
    if can_plug(device.real(), slot, ident, submodule) {
        return Reason::ChangesWait;
    }
    match module_in(device.real(), slot) {
        Some(entry) => why_unfit(entry, ident, submodule.subslot),
        None => Reason::BadSubmodule,
    }
}

// Why a submodule does not fit into this module.
fn why_unfit(entry: &RealModule, ident: u32, subslot: u16) -> Reason
    ensures { result ≡ why_unfit (Some entry.now) ident subslot }
{
    if entry.ident != ident {
        return Reason::OtherModule;
    }
    if part_ident(entry, subslot).is_some() {
        return Reason::IsPlugged;
    }
    if entry.submodules.len() < 4 {
        Reason::BadSubmodule
    } else {
        Reason::NoRoom
    }
}

/// Why the application is not ready for the plug at a place.
pub(crate) fn why_not_ready_at(device: &Recording, slot: u16, subslot: u16) -> Reason
    ensures { result ≡ why_not_ready_at (places_in device.now.live.rest.link) slot subslot }
{
    match device.expected() {
        Some(places) => why_not_ready_in(places, slot, subslot),
        None => Reason::NoRelation,
    }
}

// The same of a place of these.
fn why_not_ready_in(places: &[ExpectedPlace], slot: u16, subslot: u16) -> Reason
    ensures { result ≡ why_not_ready_for (place_at slot subslot places.now) }
{
    for place in places {
        if place.is_for(slot, subslot) {
            return why_unready(place.step);
        }
    }
    Reason::NoPlug
}

fn why_unready(step: Step) -> Reason
    ensures { result ≡ why_unready step }
{
    match step {
        Step::Settled | Step::Pulled => Reason::NoPlug,
        Step::Plugged | Step::Told(_) => Reason::TooEarly,
        Step::Ended(_) | Step::Refused => Reason::TooLate,
    }
}

// ---- records that the application answers

/// Why the device refuses an answer to what is asked under this number.
pub(crate) fn why_no_answer(device: &Recording, number: u32, given: &Given<'_>) -> Reason
    ensures { result ≡ why_no_answer (seen_in device.now.live.rest.asked) number (gives given.now) }
{
    why_no_answer_to(device.asked(), number, given)
}

// The same if this is asked.
fn why_no_answer_to(asked: Option<AskedRecord<'_>>, number: u32, given: &Given<'_>) -> Reason
    ensures { result ≡ why_no_answer (option_map seen asked.entry) number (gives given.now) }
{
    match asked {
        Some(asked) => why_no_answer_at(&asked, number, given),
        None => Reason::NotAsked,
    }
}

fn why_no_answer_at(asked: &AskedRecord<'_>, number: u32, given: &Given<'_>) -> Reason
    ensures { result ≡ why_no_answer (Some (seen asked.now)) number (gives given.now) }
{
    if asked.number != number {
        return Reason::NotAsked;
    }
    match given {
        Given::Octets(_) => why_no_octets(&asked.wanted),
        Given::Done => Reason::OtherKind,
        Given::Refused(_, _) => Reason::BadCode,
    }
}

// Why octets are refused: a Write is not answered by octets; otherwise they are more than the record has.
fn why_no_octets(wanted: &Wanted<'_>) -> Reason
    ensures { result ≡ why_no_octets (want_of wanted.now) }
{
    match wanted {
        Wanted::Read(_) => Reason::BadLength,
        Wanted::Write(_) => Reason::OtherKind,
    }
}
