//! The plan of a station.
ghost use Rattle.std.specs.Prelude.{◌≡◌, ◌≤◌, true, length, option_map};
ghost use Rattle.std.specs.List.{AllByRecursion};
ghost use Rattle.arrayvec.specs.ArrayVec.{array_vec_len};
ghost use Rattle.connect_blocks.specs.declared.iocr.IocrType.TheVariants.{Input, Output};
ghost use Rattle.connect_blocks.specs.ArBlock.{is_some_uuid};
ghost use Rattle.wire.specs.Codec.{Gives};
ghost use Rattle.plans.specs.Packed.{frame_octets, layout_in};
ghost use Rattle.plans.specs.Parts.{AreOrdered, AreParts, data_of};
ghost use Rattle.plans.specs.Connect.{IsRead, blocks_of, connect_of};
ghost use Rattle.plans.specs.Plan.{AreShort, IsPlan, do_frames_fit, long_of, plan_of};

use crate::blocks::{does_connect_fit, write_alarm, write_all_expected, write_ar, write_iocr};
use crate::data::data_of;
use crate::identity::ControllerIdentity;
use crate::parts::{Controller, Parts, PlanRecord, Station, Times};
use crate::places::{Places, data_length, frame_octets};
use arrayvec::ArrayVec;
use block_codec::{IoObjects, IocrType};
use cyclic_data::Layout;
use pn_values::Real;
use std::marker::Model;
use wire::Uuid;

/// The plan of a station: parts that are in their ranges, and whose frames and Connect are not too long. A clause sees the parts.
#[derive(Drop)]
pub struct Plan {
    parts: Parts,
}

impl Model for Plan {
    ghost use Rattle.plans.specs.declared.parts.Parts.{Parts};
    ghost use Rattle.plans.specs.Plan.{IsPlan};

    ghost Value = { Parts };

    ghost view = { λ plan. plan.parts };

    ghost invariant = { λ plan. IsPlan plan.parts };
}

/// Why parts do not make a plan.
#[derive(Clone, Copy, Debug, PartialEq, Eq)]
pub enum TooLong {
    /// The data of the cyclic frames of a direction would have more than 1,440 octets.
    Frame,
    /// The blocks of the Connect would have more than 1,372 octets.
    Connect,
}

/// The layouts of both directions.
#[derive(Drop)]
pub struct Layouts {
    /// The layout of the frames from the device to the controller.
    pub input: Layout,
    /// The layout of the frames from the controller to the device.
    pub output: Layout,
}

/// Whether the data of the frames of each direction has at most 1,440 octets.
fn do_frames_fit(parts: &Parts) -> bool
    ensures value { result ≡ do_frames_fit parts.now }
    ensures few { length (data_of parts.now.real.modules.items) ≤ 64 }
{
    let subs = data_of(&parts.real);
    frame_octets(IocrType::Input, subs.as_slice()) <= 1440
        && frame_octets(IocrType::Output, subs.as_slice()) <= 1440
}

/// Each record has at most 64 octets, the capacity of its buffer. The function does nothing.
fn are_short(records: &[PlanRecord])
    ensures { AreShort records.now }
{
    for entry in records {
        // The slice's clause says that the length is at most the capacity.
        let _octets = entry.data.as_slice();
    }
}

/// The layout of a direction for the cyclic data of submodules.
fn layout_in(direction: IocrType, parts: &Parts) -> Layout
    requires short { frame_octets direction (data_of parts.now.real.modules.items) ≤ 1440 }
    requires ordered { AreOrdered parts.now.real.modules.items }
    ensures { result ≡ layout_in direction (data_of parts.now.real.modules.items) }
{
    let subs = data_of(&parts.real);
    let mut places = Places::none();
    places.fill(direction, subs.as_slice());
    let checked = Layout::check(
        direction,
        data_length(direction, subs.as_slice()),
        &IoObjects::lent(&places.io_data_objects),
        &IoObjects::lent(&places.iocs),
        subs.as_slice(),
    );
    match checked {
        Ok(layout) => layout,
        Err(_) => unreachable!(),
    }
}

/// What is too long in parts that are in their ranges, if anything is: `Frame` is checked before `Connect`. It makes no plan, so a caller's
/// stack holds the parts alone.
pub fn too_long(parts: &Parts) -> Option<TooLong>
    requires { AreParts parts.now }
    ensures { result ≡ long_of (plan_of parts.now) }
{
    if !do_frames_fit(parts) {
        return Some(TooLong::Frame);
    }
    if !does_connect_fit(parts) {
        return Some(TooLong::Connect);
    }
    None
}

impl Plan {
    /// The plan of parts that are in their ranges. Returns what is too long: `Frame` is checked before `Connect`.
    pub fn new(parts: Parts) -> Result<Plan, TooLong>
        requires { AreParts parts }
        ensures { Gives (λ plan. plan) result (plan_of parts) }
    {
        // The list of modules has at most 16, its capacity.
        let _modules = parts.real.modules.as_slice();
        are_short(parts.records.as_slice());
        if !do_frames_fit(&parts) {
            return Err(TooLong::Frame);
        }
        if !does_connect_fit(&parts) {
            return Err(TooLong::Connect);
        }
        Ok(Plan { parts })
    }

    /// The plan of parts in which `too_long` found nothing. They are not judged again. It is inlined, so that a stack holds them once.
    #[inline(always)]
    pub fn judged(parts: Parts) -> Plan
        requires { IsPlan parts }
        ensures { result ≡ parts }
    {
        Plan { parts }
    }

    /// The device.
    pub fn station(&self) -> &Station
        ensures value { result.now ≡ self.now.station }
        ensures valid { IsPlan self.now }
    {
        &self.parts.station
    }

    /// The controller.
    pub fn controller(&self) -> &Controller
        ensures value { result.now ≡ self.now.controller }
        ensures valid { IsPlan self.now }
    {
        &self.parts.controller
    }

    /// How often cyclic frames are sent, and for how long their values are valid.
    pub fn times(&self) -> Times
        ensures value { result ≡ self.now.times }
        ensures valid { IsPlan self.now }
    {
        self.parts.times
    }

    /// The modules that are plugged in the device.
    pub fn real(&self) -> &Real
        ensures value { result.now ≡ self.now.real }
        ensures valid { IsPlan self.now }
    {
        &self.parts.real
    }

    /// The records, in the order in which they are written: at most 32, each with at most 64 octets.
    pub fn records(&self) -> &[PlanRecord]
        ensures value { result.now ≡ self.now.records.items }
        ensures few { length result.now ≤ 32 }
        ensures short { AreShort result.now }
    {
        self.parts.records.as_slice()
    }

    /// Whether the start-up goes on after a record that the device refused. If not, the controller ends.
    pub fn continues_on_refused_record(&self) -> bool
        ensures { result ≡ self.now.continue_on_refused_record }
    {
        self.parts.continue_on_refused_record
    }

    /// Whether the controller releases the relation when it ends because the device refused a record. If not, it sends no Release then.
    pub fn release_on_refused_record(&self) -> bool
        ensures { result ≡ self.now.release_on_refused_record }
    {
        self.parts.release_on_refused_record
    }

    /// Whether the records are written in lists: several in each Write (MultipleWrite). If not, each has a Write of its own.
    pub fn has_multiple_write(&self) -> bool
        ensures { result ≡ self.now.multiple_write }
    {
        self.parts.multiple_write
    }

    /// Whether the controller writes the records of a submodule again after it was plugged while data is exchanged.
    pub fn has_parameters_after_plug(&self) -> bool
        ensures { result ≡ self.now.parameters_after_plug }
    {
        self.parts.parameters_after_plug
    }

    /// Whether the controller sends a Release when its Connect is refused with State conflict: the device holds the relation already, since its
    /// positive answer was lost. If not, it sends no Release then.
    pub fn persistent_start(&self) -> bool
        ensures { result ≡ self.now.persistent_start }
    {
        self.parts.persistent_start
    }

    /// What the controller says of itself to tools by DCP. `None` if it is no DCP station.
    pub fn identity(&self) -> Option<&ControllerIdentity>
        ensures { option_map (λ own. own.now) result ≡ self.now.identity }
    {
        self.parts.identity.as_ref()
    }

    /// The places of the submodules in the frames of a direction.
    pub fn layout(&self, direction: IocrType) -> Layout
        ensures { result ≡ layout_in direction (data_of self.now.real.modules.items) }
    {
        layout_in(direction, &self.parts)
    }

    /// The places of the submodules in the frames of both directions.
    pub fn layouts(&self) -> Layouts
        ensures input { result.input ≡ layout_in Input (data_of self.now.real.modules.items) }
        ensures output { result.output ≡ layout_in Output (data_of self.now.real.modules.items) }
    {
        Layouts {
            input: self.layout(IocrType::Input),
            output: self.layout(IocrType::Output),
        }
    }

    /// The blocks of the Connect with this ARUUID, at most 1,372 octets: they fit into a frame.
    #[tactic(auto, using(crate::proofs::Sizes::connect_room))]
    pub fn connect(&self, ar: &Uuid) -> ArrayVec<u8, 1372>
        ensures exact { result.items ≡ connect_of self.now ar.now }
        // If the ARUUID is not zero, reading each block's octets gives the block, for any octets after them.
        ensures read { is_some_uuid ar.now ≡ true → AllByRecursion IsRead (blocks_of self.now ar.now) }
    {
        // Its clause says that the ARUUID has 16 octets, which the sizes of the blocks count.
        let _octets = ar.into_bytes();
        let mut out = ArrayVec::new();
        write_ar(&mut out, &self.parts, ar);
        write_iocr(&mut out, &self.parts, IocrType::Input);
        write_iocr(&mut out, &self.parts, IocrType::Output);
        write_alarm(&mut out);
        write_all_expected(&mut out, self.parts.real.modules.as_slice());
        out
    }
}
