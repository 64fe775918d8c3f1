//! Connect (IEC 61158-6-10, 5.2.4.1 to 5.2.4.11).
ghost use Rattle.std.specs.Prelude.{◌≡◌, ◌+◌, ◌<◌, ◌≤◌, ◌++◌, [], length, None, IfErr, IfOk, Err, Ok};
ghost use Rattle.arrayvec.specs.ArrayVec.{array_vec_len};
ghost use Rattle.connects.specs.requests.Handled.{asked_initiator};
ghost use Rattle.relations.specs.Numbers.{number_of};
ghost use Rattle.relations.specs.Connect.{alarm_answer, connect_answer, connect_blocks, connect_within, iocr_answer, iocrs_answer, is_foreign, is_other, making};
ghost use Rattle.relations.specs.Phases.{differing_octets, updated};

use crate::exchange::Starting;
use crate::numbers::{endpoint_of, number_of, output_id};
use crate::{Application, DeviceOptions, Partner, Phase, Relation};
use arrayvec::ArrayVec;
use block_codec::{ArBlockRes, Block, IocrBlockRes, write_block};
use connect_blocks::{ar_block_res_len, iocr_block_res_len, module_diff_len};
use connects::{AlarmRelation, ConnectRequest, Iocr, asked_initiator, put_alarm_relation, refuse};
use module_diff::{DiffRows, diff};
use pn_values::{Identity, Mac, Real};
use records::CallFault;

/// IOCRType of inputs.
const INPUT: u16 = 1;
/// IOCRType of outputs.
const OUTPUT: u16 = 2;

/// The number of the field CMInitiatorMacAdd in ARBlockReq.
const INITIATOR: u8 = 7;

/// Whether CMInitiatorMacAdd of a Connect, if it can be read, is another address than this one.
fn is_other(source: &Mac, blocks: &[u8]) -> bool
    ensures { result ≡ is_other source.now (asked_initiator blocks.now) }
{
    match asked_initiator(blocks) {
        Some(initiator) => !initiator.is(source),
        None => false,
    }
}

/// Whether a Connect from this address is refused for that, while there is no relation.
fn is_foreign(options: &DeviceOptions, source: &Mac, blocks: &[u8]) -> bool
    ensures { result ≡ is_foreign options.now source.now None blocks.now }
{
    options.only_own_controller && is_other(source, blocks)
}

/// Appends the ModuleDiffBlock with these rows, or nothing if no module differs. There must be room for 1,166 octets.
#[tactic(auto, unfolding(block_codec::specs::Block::block_size, block_codec::specs::Block::fields_of, wire::specs::blocks::Fields::body, wire::specs::blocks::Fields::version))]
pub(crate) fn put_differing<const N: usize>(octets: &mut ArrayVec<u8, N>, rows: &DiffRows)
    requires { array_vec_len octets.old + 1166 ≤ N }
    ensures { octets.new.items ≡ octets.old.items ++ differing_octets rows.now }
{
    if rows.is_empty() {
        return;
    }
    let block = rows.to_block();
    // The function that counts its octets guarantees that there is room for them.
    let _size = module_diff_len(&block);
    write_block(octets, &Block::ModuleDiffBlock(block));
}

/// Appends the IOCRBlockRes of a communication relation with this FrameID, 12 octets. There must be room.
#[tactic(auto, unfolding(block_codec::specs::Block::block_size, block_codec::specs::Block::fields_of, wire::specs::blocks::Fields::body, wire::specs::blocks::Fields::version))]
fn put_iocr<const N: usize>(
    answer: &mut ArrayVec<u8, N>,
    iocr_type: u16,
    iocr: &Iocr,
    frame_id: u16,
)
    requires { array_vec_len answer.old + 12 ≤ N }
    ensures items { answer.new.items ≡ answer.old.items ++ iocr_answer iocr_type iocr.now frame_id }
    ensures len { array_vec_len answer.new ≡ array_vec_len answer.old + 12 }
{
    let block = IocrBlockRes {
        iocr_type,
        iocr_reference: iocr.reference,
        frame_id,
    };
    let _size = iocr_block_res_len(&block);
    write_block(answer, &Block::IocrBlockRes(block));
}

/// Appends the IOCRBlockRes of both communication relations, in the order in which they were asked for, in a relation of
/// this number. There must be room.
fn put_iocrs<const N: usize>(answer: &mut ArrayVec<u8, N>, number: u16, request: &ConnectRequest)
    requires room { array_vec_len answer.old + 24 ≤ N }
    requires numbered { number < 14336 }
    ensures items { answer.new.items ≡ answer.old.items ++ iocrs_answer number request.now }
    ensures len { array_vec_len answer.new ≡ array_vec_len answer.old + 24 }
{
    let (input, output) = (request.input(), request.output());
    let output_id = output_id(number, output);
    if request.input_first() {
        put_iocr(answer, INPUT, input, input.frame_id);
        put_iocr(answer, OUTPUT, output, output_id);
    } else {
        put_iocr(answer, OUTPUT, output, output_id);
        put_iocr(answer, INPUT, input, input.frame_id);
    }
}

/// Appends the AlarmCRBlockRes, 12 octets. There must be room.
fn put_alarm<const N: usize>(answer: &mut ArrayVec<u8, N>, number: u16)
    requires room { array_vec_len answer.old + 12 ≤ N }
    requires numbered { number < 14336 }
    ensures items { answer.new.items ≡ answer.old.items ++ alarm_answer number }
    ensures len { array_vec_len answer.new ≡ array_vec_len answer.old + 12 }
{
    let block = AlarmRelation {
        local_alarm_reference: endpoint_of(number),
        max_alarm_data_length: 200,
    };
    put_alarm_relation(answer, &block);
}

/// Writes the blocks of the answer to a Connect into an empty list: ARBlockRes, both IOCRBlockRes, AlarmCRBlockRes, and the
/// ModuleDiffBlock with these rows, if a module differs.
#[tactic(auto, unfolding(crate::specs::Connect::connect_blocks, block_codec::specs::Block::block_size, block_codec::specs::Block::fields_of, wire::specs::blocks::Fields::body, wire::specs::blocks::Fields::version))]
fn put_answer<const N: usize>(
    answer: &mut ArrayVec<u8, N>,
    identity: &Identity,
    number: u16,
    request: &ConnectRequest,
    rows: &DiffRows,
)
    requires empty { answer.old.items ≡ [] }
    requires room { 1236 ≤ N }
    requires numbered { number < 14336 }
    ensures { answer.new.items ≡ connect_blocks identity.now number request.now (differing_octets rows.now) }
{
    let ar = request.ar();
    let relation = ArBlockRes {
        ar_uuid: ar.uuid,
        session_key: ar.session_key,
        cm_responder_mac_add: identity.mac,
    };
    let _relation_size = ar_block_res_len(&relation);
    write_block(answer, &Block::ArBlockRes(relation));
    put_iocrs(answer, number, request);
    put_alarm(answer, number);
    put_differing(answer, rows);
}

impl Relation {
    /// Handles Connect (operation 0), with which a station asks for a relation. Writes the blocks of the answer into an
    /// empty list, or returns why the call is refused. While a relation exists, each Connect is refused. By the options one
    /// for another controller than its sender is refused too, and one that asks for a smaller interval.
    pub fn connect<const N: usize>(
        &mut self,
        identity: &Identity,
        real: &Real,
        application: Application<'_>,
        partner: Partner,
        blocks: &[u8],
        answer: &mut ArrayVec<u8, N>,
    ) -> Result<(), CallFault>
        requires empty { answer.old.items ≡ [] }
        requires room { 1236 ≤ N }
        ensures done { IfOk result (λ _. connect_answer identity.now real.now application.entry.options.now (number_of application.entry.options.now.numbers_from application.entry.made) partner.mac self.old blocks.now
            ≡ Ok answer.new.items) }
        ensures refused { IfErr result (λ fault.
            (connect_answer identity.now real.now application.entry.options.now (number_of application.entry.options.now.numbers_from application.entry.made) partner.mac self.old blocks.now ≡ Err fault)
            × (answer.new.items ≡ [])) }
        ensures state { self.new ≡ updated (making real.now partner application.entry.options.now
            (record { begin_bad = application.entry.options.now.inputs_begin_bad; is_running = application.entry.is_running; statuses = application.entry.statuses.now; units = application.entry.units; diagnoses = application.entry.diagnoses.now; number = number_of application.entry.options.now.numbers_from application.entry.made })
            (connect_within application.entry.options.now partner.mac self.old blocks.now)) self.old }
    {
        // Only one relation, and the controller that has it keeps it: a second controller must not take a running
        // station from the first.
        if self.phase.is_some() {
            return Err(refuse(&self.request.ar().uuid, blocks));
        }
        // The cyclic frames and alarms of the relation go to CMInitiatorMacAdd, which need not be the sender of the Connect.
        if is_foreign(application.options, &partner.mac, blocks) {
            return Err(CallFault::ArField(INITIATOR));
        }
        self.request
            .read(application.options.smallest_interval, blocks)?;
        let rows = diff(self.request.expected(), real);
        let number = number_of(application.options.numbers_from, application.made);
        let starting = Starting {
            begin_bad: application.options.inputs_begin_bad,
            is_running: application.is_running,
            statuses: application.statuses,
            units: application.units,
            diagnoses: application.diagnoses,
            number,
        };
        self.exchange.open(&self.request, &rows, starting);
        self.plugs.open(self.request.expected(), &rows);
        // Parameters of an earlier relation do not belong to this one.
        self.taken.clear();
        self.passed.clear();
        self.partner = partner;
        self.options = *application.options;
        self.began = application.units;
        self.inactive = 0;
        self.waited = 0;
        self.phase = Some(Phase::Started);
        put_answer(answer, identity, number, &self.request, &rows);
        Ok(())
    }
}
