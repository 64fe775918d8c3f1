//! Modules that come and go while there is a relation (IEC 61158-6-10, 4.8 and 5.2.4.5): its places, the alarms that report
//! pulls and plugs, PrmEnd and ApplicationReady of a plug.
ghost use Rattle.std.specs.Prelude.{◌≡◌, ◌+◌, ◌≤◌, ◌++◌, [], Err, IfErr, IfOk, Ok, false, option_map};
ghost use Rattle.arrayvec.specs.ArrayVec.{array_vec_len};
ghost use Rattle.wire.specs.Codec.{Gives};
ghost use Rattle.wire.specs.Formats.{number};
ghost use Rattle.records.specs.declared.status.call_fault.CallFault.TheVariants as fault;
ghost use Rattle.connect_blocks.specs.PlugControl.{plug_control, plug_ready_res};
ghost use Rattle.rpc_core.specs.Response.{answered};
ghost use Rattle.diagnosis.specs.declared.queue.LowChange.TheVariants as at;
ghost use Rattle.expected_places.specs.Machine.{touched};
ghost use Rattle.relations.specs.Plugging.{answer_to, answer_to_call, asks, begins_as_plug_end, block_in, calling_next, first_sent, flow_answered, flow_reported, is_alarmed_by};
ghost use Rattle.relations.specs.Plugging.{is_called_by, is_calling, is_crowded, is_flow_sent, is_plug_answer, is_plug_control, is_plug_type, is_readied_in, kept_records, modules_changing};
ghost use Rattle.relations.specs.Plugging.{places_in, plug_answer_in, plug_answering, plug_confirmed, plug_done, plug_end_answer, plug_end_in, plug_ending, plug_named, plug_ready_of};
ghost use Rattle.relations.specs.Plugging.{done_block, plugs_after, plugs_answered, plugs_changed, plugs_told, readying_at, reported_as, step_by, taken_after, taken_told};

use crate::exchange::DataExchange;
use crate::ready::CONTROL;
use crate::{Partner, Relation};
use arrayvec::ArrayVec;
use connect_blocks::{
    PLUG_PRM_END, PlugControlBlock, plug_prm_end_at, plug_ready_res_at, put_plug_prm_end_res,
    put_plug_ready,
};
use connects::ConnectRequest;
use diagnosis::{Diagnoses, LowChange, ModuleChange, ModuleChangeKind, SentAlarm};
use expected_places::{ExpectedPlace, PlugCall, Plugs};
use module_diff::{Affected, ChangeKind, DiffRows, RealChange, diff};
use pn_values::Real;
use records::{CallFault, TakenRecords};
use rpc_core::{CallHeader, Interface, Response};
use uuid::Uuid;
use wire::u16_at;

/// ControlCommand of PrmEnd.
const PRM_END: u16 = 1;
/// ControlCommand of ApplicationReady.
const APPLICATION_READY: u16 = 2;
/// ControlCommand of answers.
const DONE: u16 = 8;

/// ARProperties from which on bit 31 is set: a pulled module is reported by an AlarmType of its own.
const PULL_MODULE_ALARM: u32 = 0x8000_0000;

/// What must be sent after a module was pulled or plugged.
#[derive(Clone, Copy, Debug, PartialEq, Eq)]
pub struct Outgoing {
    /// The active alarm of low priority.
    pub is_alarm: bool,
    /// The active ApplicationReady of a plug.
    pub is_ready: bool,
}

/// ApplicationReady for a plug: a call to the controller. It is repeated unchanged.
#[derive(Clone, Copy)]
pub struct PlugReady {
    /// The destination: the station that the Connect came from.
    pub partner: Partner,
    /// The header of the call.
    pub header: CallHeader,
    /// The one block of the call.
    pub block: PlugControlBlock,
}

impl PlugReady {
    /// Appends the block of the call, 32 octets. There must be room.
    pub fn put_blocks<const N: usize>(&self, blocks: &mut ArrayVec<u8, N>)
        requires { array_vec_len blocks.old + 32 ≤ N }
        ensures { blocks.new.items ≡ blocks.old.items ++ (plug_control 0x0113).write self.now.block [] }
    {
        put_plug_ready(blocks, &self.block);
    }
}

/// What an answer to the ApplicationReady of a plug means.
#[derive(Clone, Copy, Debug, PartialEq, Eq)]
pub enum PlugAnswer {
    /// No ApplicationReady of a plug waits for it, or it is for another relation or another plug.
    NotWanted,
    /// It is positive, but does not contain a complete answer.
    Garbled,
    /// It confirms: the place is released.
    Confirmed,
    /// It refuses: the place stays touched, and the relation goes on.
    Refused,
}

/// Whether these octets begin with the BlockType of PrmEnd after a plug.
fn has_plug_type(blocks: &[u8]) -> bool
    ensures { result ≡ is_plug_type ((number fault.BlockHeader 2).read blocks.now) }
{
    match u16_at(blocks, CallFault::BlockHeader) {
        Ok((number, _fields)) => number == PLUG_PRM_END,
        Err(_) => false,
    }
}

/// Whether these are the blocks of a PrmEnd after a plug, by their BlockType.
fn is_plug_prm_end(blocks: &[u8]) -> bool
    ensures { result ≡ begins_as_plug_end blocks.now }
{
    blocks.len() >= 4 && has_plug_type(blocks)
}

/// Reads the PrmEnd after a plug.
fn prm_end_in(blocks: &[u8]) -> Result<PlugControlBlock, CallFault>
    ensures { Gives (λ x. x) result (block_in ((plug_control 0x0111).read blocks.now)) }
{
    match plug_prm_end_at(blocks) {
        Ok((block, _behind)) => Ok(block),
        Err(_fault) => Err(CallFault::BlockForm),
    }
}

/// The block of the answer to this block.
fn done(block: PlugControlBlock) -> PlugControlBlock
    ensures { result ≡ plug_done block }
{
    PlugControlBlock {
        control_command: DONE,
        ..block
    }
}

/// Whether a response with this header is the answer to this call of the relation with this ARUUID.
fn is_answer_to(uuid: &Uuid, call: &PlugCall, header: &CallHeader) -> bool
    ensures { result ≡ is_plug_answer uuid.now call.now header.now }
{
    header.activity == *uuid && header.sequence == call.sequence && header.operation == CONTROL
}

/// What the blocks of a positive answer mean to the relation with this ARUUID, in which this call waits.
fn confirmed_by(uuid: &Uuid, call: &PlugCall, blocks: &[u8]) -> PlugAnswer
    ensures { result ≡ plug_confirmed uuid.now call.now (done_block (plug_ready_res.read blocks.now)) }
{
    match plug_ready_res_at(blocks) {
        Ok((block, _behind))
            if block.ar_uuid == *uuid && block.alarm_sequence_number == call.number => {
            PlugAnswer::Confirmed
        }
        Ok(_) => PlugAnswer::NotWanted,
        Err(_) => PlugAnswer::Garbled,
    }
}

/// What a response means to this call of the relation with this ARUUID.
fn answer_to_call(uuid: &Uuid, call: &PlugCall, response: &Response<'_>) -> PlugAnswer
    ensures { result ≡ answer_to_call uuid.now call.now (answered response.now) }
{
    // The sender is not checked: an activity is unique, and a controller may answer from another port.
    if !is_answer_to(uuid, call, &response.header) {
        return PlugAnswer::NotWanted;
    }
    // This is checked before the blocks: a refusal may have none.
    if !response.status.is_done() {
        return PlugAnswer::Refused;
    }
    confirmed_by(uuid, call, response.blocks)
}

/// What a response means to the relation with this ARUUID, in which this call waits, if one does.
fn answer_to(uuid: &Uuid, call: Option<PlugCall>, response: &Response<'_>) -> PlugAnswer
    ensures { result ≡ answer_to uuid.now call (answered response.now) }
{
    match call {
        Some(call) => answer_to_call(uuid, &call, response),
        None => PlugAnswer::NotWanted,
    }
}

/// After an answer that counts, the place of the active call is released, or refused and still touched, and IOPS, IOCS and
/// output follow.
fn release_place(heard: PlugAnswer, plugs: &mut Plugs, exchange: &mut DataExchange)
    ensures plugs { plugs.new ≡ plugs_answered heard plugs.old }
    ensures exchange { exchange.new ≡ flow_answered heard plugs.new exchange.old }
{
    match heard {
        PlugAnswer::NotWanted | PlugAnswer::Garbled => return,
        PlugAnswer::Confirmed => plugs.answer(true),
        PlugAnswer::Refused => plugs.answer(false),
    }
    exchange.restate(plugs);
}

/// Forgets the records that were accepted at affected places.
fn forget_records(taken: &mut TakenRecords, places: &[ExpectedPlace], affected: Affected)
    ensures { taken.new ≡ kept_records affected places.now taken.old }
{
    for place in places {
        if affected.covers(place.slot, place.subslot) {
            taken.forget_at(place.slot, place.subslot);
        }
    }
}

/// The records after an alarm of low priority that is first sent: after a pull or a plug, those of what was there before are
/// forgotten.
fn tell_records(change: LowChange, plugs: &Plugs, taken: &mut TakenRecords)
    ensures { taken.new ≡ taken_told change plugs.now.places taken.old }
{
    if let LowChange::Module(change) = change {
        forget_records(taken, plugs.places(), change.affected());
    }
}

/// The places after the alarm of a pull or a plug, which is first sent with this number. The controller may give parameters to a
/// plugged place from now on, if no later plug there waits for its alarm.
fn tell_change(change: ModuleChange, number: u16, exchange: &DataExchange, plugs: &mut Plugs)
    ensures { plugs.new ≡ plugs_told (at.Module change) number exchange.now.low.waiting plugs.old }
{
    if let ModuleChangeKind::Plug = change.kind {
        let is_last = !exchange.waits_for_plug(change.slot, change.subslot);
        plugs.tell(change.slot, change.subslot, number, is_last);
    }
}

/// The places after an alarm of low priority, which is first sent with this number.
fn tell_places(change: LowChange, number: u16, exchange: &DataExchange, plugs: &mut Plugs)
    ensures { plugs.new ≡ plugs_told change number exchange.now.low.waiting plugs.old }
{
    if let LowChange::Module(change) = change {
        tell_change(change, number, exchange, plugs);
    }
}

/// The alarm of low priority that is first sent now, if it must be sent: the one that became active last.
fn first_sent(is_sent: bool, exchange: &DataExchange) -> Option<SentAlarm>
    ensures { result ≡ first_sent is_sent exchange.now.low }
{
    if is_sent { exchange.sent_low() } else { None }
}

/// What follows from an alarm of low priority, if it must be sent now.
pub(crate) fn follow(
    is_sent: bool,
    exchange: &DataExchange,
    plugs: &mut Plugs,
    taken: &mut TakenRecords,
)
    ensures taken { taken.new ≡ taken_after (first_sent is_sent exchange.now.low) plugs.old.places taken.old }
    ensures plugs { plugs.new ≡ plugs_after (first_sent is_sent exchange.now.low) exchange.now.low.waiting plugs.old }
{
    if let Some(alarm) = first_sent(is_sent, exchange) {
        tell_records(alarm.change, plugs, taken);
        tell_places(alarm.change, alarm.number, exchange, plugs);
    }
}

/// The affected places are touched: by a plug of the expected submodule, or by anything else.
fn touch(plugs: &mut Plugs, kind: ChangeKind, affected: Affected, differs: bool)
    ensures { plugs.new ≡ touched affected (step_by kind differs) plugs.old }
{
    match kind {
        ChangeKind::Plug if !differs => plugs.plug(affected),
        ChangeKind::Plug | ChangeKind::Pull | ChangeKind::PullModule => plugs.pull(affected),
    }
}

/// What differs is stated, and the affected places begin again.
fn change_places(plugs: &mut Plugs, rows: &DiffRows, change: &RealChange)
    ensures { plugs.new ≡ plugs_changed rows.now change.now plugs.old }
{
    plugs.restate(rows);
    let differs = rows.is_listed(change.slot, change.subslot);
    touch(plugs, change.kind, change.affected(), differs);
}

/// Whether the controller asks for an AlarmType of its own for pulled modules.
fn asks(request: &ConnectRequest) -> bool
    ensures { result ≡ asks request.now }
{
    request.ar().properties >= PULL_MODULE_ALARM
}

/// As what a change is reported, to a controller that asked for this.
fn reported_as(request: &ConnectRequest, rows: &DiffRows, change: &RealChange) -> ModuleChange
    ensures { result ≡ reported_as request.now rows.now change.now }
{
    ModuleChange::of(
        change,
        asks(request),
        rows.is_listed(change.slot, change.subslot),
    )
}

/// What differs is stated for the alarms, and the change is reported if it affects a place (`is_own`). Returns whether an alarm
/// must be sent.
fn report_change(
    exchange: &mut DataExchange,
    is_own: bool,
    request: &ConnectRequest,
    rows: &DiffRows,
    change: &RealChange,
    diagnoses: &Diagnoses,
) -> bool
    ensures sent { result ≡ is_flow_sent is_own request.now rows.now change.now diagnoses.now exchange.old }
    ensures state { exchange.new ≡ flow_reported is_own request.now rows.now change.now diagnoses.now exchange.old }
{
    exchange.restate_modules(request.expected(), rows, diagnoses);
    if !is_own {
        return false;
    }
    exchange.report_modules(reported_as(request, rows, change), change, diagnoses)
}

impl Relation {
    /// The places of the relation: the submodules that its Connect expects, in its order, and how far each is. `None` if there
    /// is no relation.
    pub fn expected(&self) -> Option<&[ExpectedPlace]>
        ensures { option_map (λ places. places.now) result ≡ places_in self.now }
    {
        match self.phase {
            Some(_) => Some(self.plugs.places()),
            None => None,
        }
    }

    /// Whether a pull or plug there can not be reported, since 32 or more wait before it.
    pub fn refuses(&self, affected: Affected) -> bool
        ensures { result ≡ is_crowded affected self.now }
    {
        self.phase.is_some() && self.plugs.is_any(affected) && self.exchange.is_crowded()
    }

    /// A module or a submodule was pulled or plugged, with which these modules are plugged and these diagnoses exist. What
    /// differs is stated again; the affected places begin again, and the change is reported.
    pub fn change_modules(
        &mut self,
        real: &Real,
        change: &RealChange,
        diagnoses: &Diagnoses,
    ) -> Outgoing
        ensures alarm { result.is_alarm ≡ is_alarmed_by real.now.modules.items change.now diagnoses.now self.old }
        ensures ready { result.is_ready ≡ is_called_by real.now.modules.items change.now diagnoses.now self.old }
        ensures state { self.new ≡ modules_changing real.now.modules.items change.now diagnoses.now self.old }
    {
        let Some(_) = self.phase else {
            return Outgoing {
                is_alarm: false,
                is_ready: false,
            };
        };
        let rows = diff(self.request.expected(), real);
        change_places(&mut self.plugs, &rows, change);
        let is_own = self.plugs.is_any(change.affected());
        let is_alarm = report_change(
            &mut self.exchange,
            is_own,
            &self.request,
            &rows,
            change,
            diagnoses,
        );
        self.exchange
            .renew(change.affected(), self.options.inputs_begin_bad);
        self.exchange.restate(&self.plugs);
        follow(is_alarm, &self.exchange, &mut self.plugs, &mut self.taken);
        let is_ready = self.plugs.call_next();
        Outgoing { is_alarm, is_ready }
    }

    /// Whether a Control with these blocks is a PrmEnd after a plug, which the relation reads once the alarm of a plug was
    /// sent.
    pub fn is_plug_control(&self, blocks: &[u8]) -> bool
        ensures { result ≡ is_plug_control blocks.now self.now }
    {
        self.phase.is_some() && self.plugs.has_told() && is_plug_prm_end(blocks)
    }

    /// Checks that a block belongs to the relation.
    fn check_plug(&self, block: &PlugControlBlock) -> Result<(), CallFault>
        ensures { result ≡ plug_named self.now block.now }
    {
        if !self.is_named(&block.ar_uuid) {
            return Err(CallFault::UnknownRelation);
        }
        if block.session_key != self.request.ar().session_key {
            return Err(CallFault::UnknownSession);
        }
        if block.control_command != PRM_END {
            return Err(CallFault::ControlCommand);
        }
        Ok(())
    }

    /// Handles PrmEnd after a plug: its parameters are written. ApplicationReady for it waits, for the application too if that
    /// says when it is ready (`by_application`). Writes the block of the answer into an empty list, or returns why the call is
    /// refused.
    #[tactic(auto, unfolding(crate::specs::Plugging::plug_end_in))]
    pub fn end_plug<const N: usize>(
        &mut self,
        by_application: bool,
        blocks: &[u8],
        answer: &mut ArrayVec<u8, N>,
    ) -> Result<(), CallFault>
        requires room { 32 ≤ N }
        requires empty { answer.old.items ≡ [] }
        ensures done { IfOk result (λ _. plug_end_answer (plug_end_in blocks.now self.old) ≡ Ok answer.new.items) }
        ensures refused { IfErr result (λ fault. (plug_end_answer (plug_end_in blocks.now self.old) ≡ Err fault) × (answer.new.items ≡ [])) }
        ensures state { self.new ≡ plug_ending by_application blocks.now self.old }
    {
        let block = prm_end_in(blocks)?;
        self.check_plug(&block)?;
        if !self.plugs.end(block.alarm_sequence_number, !by_application) {
            return Err(CallFault::Phase);
        }
        put_plug_prm_end_res(answer, &done(block));
        Ok(())
    }

    /// The application is ready for the plug at a place. Returns whether the relation waited for that; if not, nothing
    /// changes.
    pub fn get_ready_at(&mut self, slot: u16, subslot: u16) -> bool
        ensures done { result ≡ is_readied_in slot subslot self.old }
        ensures state { self.new ≡ readying_at slot subslot self.old }
        ensures same { result ≡ false → self.new ≡ self.old }
    {
        match self.phase {
            Some(_) => self.plugs.get_ready(slot, subslot),
            None => false,
        }
    }

    /// The next ApplicationReady of a plug becomes active, if none is active and one may be sent. Returns whether it must be
    /// sent.
    pub fn call_next(&mut self) -> bool
        ensures sent { result ≡ is_calling self.old }
        ensures state { self.new ≡ calling_next self.old }
    {
        match self.phase {
            Some(_) => self.plugs.call_next(),
            None => false,
        }
    }

    /// The active ApplicationReady of a plug, if there is one: to the station that sent the Connect, with the ARUUID as
    /// activity.
    pub fn plug_ready(&self) -> Option<PlugReady>
        ensures { result ≡ plug_ready_of self.now }
    {
        let _ = self.phase?;
        let call = self.plugs.standing()?;
        let ar = self.request.ar();
        Some(PlugReady {
            partner: self.partner,
            header: CallHeader {
                object: ar.object,
                interface: Interface::Controller.uuid(),
                activity: ar.uuid,
                sequence: call.sequence,
                operation: CONTROL,
            },
            block: PlugControlBlock {
                ar_uuid: ar.uuid,
                session_key: ar.session_key,
                alarm_sequence_number: call.number,
                control_command: APPLICATION_READY,
                control_block_properties: 0,
            },
        })
    }

    /// Receives a response of the controller while data is exchanged. The device may wait for that to the ApplicationReady of a
    /// plug: a place that it confirms is released, and a refused one stays touched.
    pub fn hear_plug_ready(&mut self, response: &Response<'_>) -> PlugAnswer
        ensures heard { result ≡ plug_answer_in (answered response.now) self.old }
        ensures state { self.new ≡ plug_answering (answered response.now) self.old }
    {
        if self.phase.is_none() {
            return PlugAnswer::NotWanted;
        }
        let heard = answer_to(&self.request.ar().uuid, self.plugs.standing(), response);
        release_place(heard, &mut self.plugs, &mut self.exchange);
        heard
    }
}
