//! The records that list what a device consists of, from the whole device down to one submodule (IEC 61158-6-10, 5.2.3).
//! A new one is named by `kind_of`, and its octets by `octets_of`, or, if they are the relation's, by whoever knows the
//! relation.
ghost use Rattle.std.specs.Prelude.{◌≡◌, ◌==◌, ◌+◌, ◌*◌, ◌≤◌, ◌++◌, [], length, IfErr, IfOk, IfSome, Err, Ok};
ghost use Rattle.std.specs.List.{list_any};
ghost use Rattle.std.specs.Option.{option_map};
ghost use Rattle.arrayvec.specs.ArrayVec.{array_vec_len};
ghost use Rattle.record_blocks.specs.FilterData.{filter_data};
ghost use Rattle.records.specs.reads.Listing.{api_bytes, covers_slot, covers_subslot, identification_bytes, is_diagnosis, is_maintenance};
ghost use Rattle.records.specs.reads.Listing.{is_of_relation, is_there, kind_of, level_of, listed_at, listing_of, modules_at};
ghost use Rattle.records.specs.reads.Listing.{parts_at, plugged_of, submodules_at};

use crate::CallFault;
use crate::reads::answering::put_read_answer;
use crate::reads::parameters::parameter_length;
use crate::reads::serving::Blocks;
use arrayvec::ArrayVec;
use block_codec::{FilterModule, FilterModules, FilterSubmodule, ImFilterData, IodReadReq};
use im_records::is_real;
use pn_values::{Real, RealModule, RealSubmodule};
use record_blocks::{filter_data_len, put_filter_data};
use wire::{append, append_u16};

/// What a record lists.
#[derive(Clone, Copy, Debug, PartialEq, Eq)]
pub enum Listing {
    /// RealIdentificationData: the modules and submodules that are plugged.
    Identification,
    /// APIData: the APIs of the device.
    Apis,
    /// DiagnosisData: the diagnoses that exist.
    Diagnosis,
    /// Diagnoses of maintenance, of which there are none.
    Maintenance,
    /// ExpectedIdentificationData: the modules and submodules that the relation expects.
    Expected,
    /// RealIdentificationData: the modules and submodules that are plugged where the relation expects some.
    Found,
    /// RecordInputDataObjectElement: the data and the statuses of an input of the relation.
    Input,
    /// RecordOutputDataObjectElement: those of an output.
    Output,
    /// ARData: the relations that the device has.
    Relations,
    /// LogData: the ends of relations, and the Connects that were refused.
    Log,
    /// PDPortDataReal: the port, and its neighbour.
    Port,
    /// PDInterfaceDataReal: who the station is.
    Interface,
    /// PDRealData: both.
    Network,
}

/// The part of the device that a record lists.
#[derive(Clone, Copy, Debug, PartialEq, Eq)]
pub enum Level {
    /// One submodule.
    Subslot,
    /// One slot, for any subslot.
    Slot,
    /// The relation, for any slot and subslot.
    Relation,
    /// The whole device, for any slot and subslot.
    Device,
}

impl Level {
    /// The level of an index, by its first digit.
    #[tactic(auto, unfolding(crate::specs::reads::Listing::level_of))]
    fn of(index: u16) -> Option<Level>
        ensures { result ≡ level_of index }
    {
        match index / 4096 {
            8 => Some(Level::Subslot),
            12 => Some(Level::Slot),
            14 => Some(Level::Relation),
            15 => Some(Level::Device),
            _ => None,
        }
    }

    /// Whether a module in a slot belongs to what is asked for, which is `asked` if it is a slot or a submodule.
    pub fn covers_slot(self, asked: u16, slot: u16) -> bool
        ensures { result ≡ covers_slot self asked slot }
    {
        match self {
            Level::Subslot | Level::Slot => slot == asked,
            Level::Relation | Level::Device => true,
        }
    }

    /// Whether a submodule in a subslot of such a module belongs to it, which is `asked` if it is a submodule.
    pub fn covers_subslot(self, asked: u16, subslot: u16) -> bool
        ensures { result ≡ covers_subslot self asked subslot }
    {
        match self {
            Level::Subslot => subslot == asked,
            Level::Slot | Level::Relation | Level::Device => true,
        }
    }

    /// Whether what the level asks for is plugged.
    fn is_there(self, real: &Real, slot: u16, subslot: u16) -> bool
        ensures { result ≡ is_there real.now self slot subslot }
    {
        match self {
            Level::Subslot => is_real(real, slot, subslot),
            Level::Slot => has_slot(real, slot),
            Level::Relation | Level::Device => true,
        }
    }

    /// Whether a record of this level is one of a relation.
    fn is_of_relation(self) -> bool
        ensures { result ≡ is_of_relation self }
    {
        match self {
            Level::Relation => true,
            Level::Subslot | Level::Slot | Level::Device => false,
        }
    }
}

/// Whether a module is plugged in this slot.
fn has_slot(real: &Real, slot: u16) -> bool
    ensures { result ≡ list_any (λ entry. entry.slot == slot) real.now.modules.items }
{
    real.modules
        .as_slice()
        .iter()
        .any(|entry| entry.slot == slot)
}

/// Whether the record with this index tells diagnosis.
#[tactic(auto, unfolding(crate::specs::reads::Listing::is_diagnosis))]
fn is_diagnosis(index: u16) -> bool
    ensures { result ≡ is_diagnosis index }
{
    let number = index % 4096;
    index == 0xF80C || number == 0x00A || number == 0x00B || number == 0x00C
}

/// Whether the record with this index tells diagnosis of maintenance.
#[tactic(auto, unfolding(crate::specs::reads::Listing::is_maintenance))]
fn is_maintenance(index: u16) -> bool
    ensures { result ≡ is_maintenance index }
{
    let number = index % 4096;
    number == 0x010 || number == 0x011 || number == 0x012 || number == 0x013
}

/// What the record with this index lists.
#[tactic(auto, unfolding(crate::specs::reads::Listing::kind_of))]
fn kind_of(index: u16) -> Option<Listing>
    ensures { result ≡ kind_of index }
{
    match index {
        0x8001 | 0xC001 | 0xF000 => Some(Listing::Identification),
        0xF821 => Some(Listing::Apis),
        0x8000 | 0xC000 | 0xE000 => Some(Listing::Expected),
        0xE001 => Some(Listing::Found),
        0x8028 => Some(Listing::Input),
        0x8029 => Some(Listing::Output),
        0xF820 | 0xF020 => Some(Listing::Relations),
        0xF830 => Some(Listing::Log),
        0x802A => Some(Listing::Port),
        0x8080 => Some(Listing::Interface),
        0xF841 => Some(Listing::Network),
        _ if is_diagnosis(index) => Some(Listing::Diagnosis),
        _ if is_maintenance(index) => Some(Listing::Maintenance),
        _ => None,
    }
}

/// What a request asks for, if it is a record of this page: its level and its kind. A parameter record with such an index
/// stays what it is.
#[tactic(auto, unfolding(crate::specs::reads::Listing::listing_of))]
pub fn listing_of(real: &Real, request: &IodReadReq) -> Option<(Level, Listing)>
    ensures { result ≡ listing_of real.now request.now }
{
    let (slot, subslot) = (request.header.slot_number, request.header.subslot_number);
    let index = request.header.index;
    if parameter_length(real, slot, subslot, index).is_some() {
        return None;
    }
    match (Level::of(index), kind_of(index)) {
        (Some(level), Some(kind)) => Some((level, kind)),
        _ => None,
    }
}

/// Appends the entries of the submodules of a module that are asked for. There must be room. Returns their number.
fn push_parts(
    entries: &mut ArrayVec<FilterSubmodule, 64>,
    level: Level,
    subslot: u16,
    parts: &[RealSubmodule],
) -> u16
    requires room { array_vec_len entries.old + length parts.now ≤ 64 }
    ensures items { entries.new.items ≡ entries.old.items ++ parts_at level subslot parts.now }
    ensures few { array_vec_len entries.new ≤ array_vec_len entries.old + length parts.now }
    ensures count { result ≡ length (parts_at level subslot parts.now) }
{
    let before = entries.len();
    for part in parts {
        if level.covers_subslot(subslot, part.subslot) {
            entries.push(FilterSubmodule {
                subslot_number: part.subslot,
                submodule_ident_number: part.ident,
            });
        }
    }
    (entries.len() - before) as u16
}

/// Appends the entries of the modules that are asked for, and of their submodules, to empty lists.
fn push_all(
    modules: &mut ArrayVec<FilterModule, 16>,
    submodules: &mut ArrayVec<FilterSubmodule, 64>,
    real: &Real,
    level: Level,
    slot: u16,
    subslot: u16,
)
    requires no_modules { modules.old.items ≡ [] }
    requires no_submodules { submodules.old.items ≡ [] }
    ensures modules { modules.new.items ≡ modules_at level slot subslot real.now.modules.items }
    ensures submodules { submodules.new.items ≡ submodules_at level slot subslot real.now.modules.items }
    ensures few_modules { length modules.new.items ≤ 16 }
    ensures few_submodules { length submodules.new.items ≤ 64 }
{
    for entry in real.modules.as_slice() {
        if level.covers_slot(slot, entry.slot) {
            let parts = entry.submodules.as_slice();
            let count = push_parts(submodules, level, subslot, parts);
            modules.push(FilterModule {
                slot_number: entry.slot,
                module_ident_number: entry.ident,
                number_of_submodules: count,
            });
        }
    }
}

/// Appends ExpectedIdentificationData, of type 0x0012, or RealIdentificationData, of type 0x0013. There must be room.
#[tactic(auto, unfolding(crate::specs::reads::Listing::identification_bytes))]
pub fn put_identification<const N: usize>(
    out: &mut ArrayVec<u8, N>,
    block_type: u16,
    listed: &ImFilterData,
)
    requires { array_vec_len out.old + 14 + 8 * length listed.now.modules.modules + 6 * length listed.now.modules.submodules ≤ N }
    ensures { out.new.items ≡ out.old.items ++ identification_bytes block_type listed.now }
{
    let size = filter_data_len(listed);
    append_u16(out, block_type);
    append_u16(out, 2 + size as u16);
    append(out, &[1, 1]);
    put_filter_data(out, listed);
}

/// RealIdentificationData of what is asked for. Its octets and lists are large, so it is a function of its own.
#[inline(never)]
fn identification_of(real: &Real, level: Level, slot: u16, subslot: u16) -> ArrayVec<u8, 1372>
    ensures { result.items ≡ identification_bytes 0x0013 (plugged_of real.now level slot subslot) }
{
    let mut modules = ArrayVec::new();
    let mut submodules = ArrayVec::new();
    push_all(&mut modules, &mut submodules, real, level, slot, subslot);
    let plugged = ImFilterData {
        api: 0,
        modules: FilterModules::lent(&modules, &submodules),
    };
    let mut out = ArrayVec::new();
    put_identification(&mut out, 0x0013, &plugged);
    out
}

/// Puts the response to a request for a record of this kind and level into an empty list, or returns why it is refused.
/// `is_within` says whether it is read within the relation, and `own` is the record as the relation has it.
#[tactic(auto, unfolding(crate::specs::reads::Listing::listed_at, crate::specs::reads::Listing::api_bytes))]
pub fn serve_listing(
    is_within: bool,
    real: &Real,
    own: Option<&[u8]>,
    request: &IodReadReq,
    listing: (Level, Listing),
    answer: &mut Blocks,
) -> Result<(), CallFault>
    requires empty { answer.old.items ≡ [] }
    requires room { IfSome own (λ octets. length octets.now ≤ 1308) }
    ensures done { IfOk result (λ _. listed_at is_within real.now (option_map (λ octets. octets.now) own.entry) request.now listing.0
        listing.1 ≡ Ok answer.new.items) }
    ensures refused { IfErr result (λ fault. (listed_at is_within real.now (option_map (λ octets. octets.now) own.entry) request.now
        listing.0 listing.1 ≡ Err fault) × (answer.new.items ≡ [])) }
{
    let (level, kind) = listing;
    let (slot, subslot) = (request.header.slot_number, request.header.subslot_number);
    if request.header.api != 0 {
        return Err(CallFault::Api);
    }
    if !level.is_there(real, slot, subslot) {
        return Err(CallFault::Place);
    }
    if level.is_of_relation() && !is_within {
        return Err(CallFault::Index);
    }
    match kind {
        Listing::Identification => {
            let octets = identification_of(real, level, slot, subslot);
            put_read_answer(answer, request, octets.as_slice());
        }
        Listing::Apis => put_read_answer(
            answer,
            request,
            &[0x00, 0x1A, 0x00, 0x08, 0x01, 0x00, 0x00, 0x01, 0, 0, 0, 0],
        ),
        Listing::Maintenance => put_read_answer(answer, request, &[]),
        Listing::Diagnosis
        | Listing::Expected
        | Listing::Found
        | Listing::Input
        | Listing::Output
        | Listing::Relations
        | Listing::Log
        | Listing::Port
        | Listing::Interface
        | Listing::Network => match own {
            Some(octets) => put_read_answer(answer, request, octets),
            None => return Err(CallFault::Index),
        },
    }
    Ok(())
}
