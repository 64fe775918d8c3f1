//! The response to the Connect of a plan.
ghost use Rattle.std.specs.Prelude.{◌≡◌, ◌+◌, ◌<◌, ◌≤◌, ◌++◌, true, List, ℕ, [], None, Some, Ok, length};
ghost use Rattle.connect_blocks.specs.ArBlock.{is_some_uuid};
ghost use Rattle.block_codec.specs.Block.{block_bytes};
ghost use Rattle.connects.specs.answers.AlarmRelation.{alarm_relation};
ghost use Rattle.records.specs.status.Status.{done};
ghost use Rattle.rpc_core.specs.Response.{answer_to};
ghost use Rattle.relations.specs.Numbers.{endpoint_of};
ghost use Rattle.relations.specs.Options.{default_options};
ghost use Rattle.relations.specs.declared.options.DeviceOptions.{DeviceOptions};
ghost use Rattle.controller_messages.specs.Heard.{Responds, heard_of};
ghost use Rattle.controller_messages.specs.Requests.{call_for, writing_from};
ghost use Rattle.controller_core.specs.declared.stored.event.Event.TheVariants.{Frame};
ghost use Rattle.controller_core.specs.Machine.{placed, standing, turn_of, writing};
ghost use Rattle.controller_core.specs.stored.State.{Live};
ghost use Rattle.both_ends.specs.startup.answer.Answer.{AcceptsInterval, AnswersSo, IsAllThere, answer_blocks, answer_frame, chosen_with};

use crate::startup::answer::blocks::answer_blocks_are_read;
use crate::startup::answer::reading::answers_are_read;
use crate::startup::request::connect_is_taken;
use arrayvec::ArrayVec;
use block_codec::{ArBlockRes, Block, IocrBlockRes, write_block};
use connect_blocks::{ar_block_res_len, iocr_block_res_len};
use connects::{AlarmRelation, put_alarm_relation};
use controller_messages::{Request, Setup, header_of};
use pn_values::Identity;
use rpc_core::{Response, Status};

/// The octets of the blocks, with the IOCRBlockRes of inputs before that of outputs.
#[tactic(auto, unfolding(block_codec::specs::Block::block_size, block_codec::specs::Block::fields_of, wire::specs::blocks::Fields::body, wire::specs::blocks::Fields::version))]
fn blocks_of(
    relation: &ArBlockRes,
    input: &IocrBlockRes,
    output: &IocrBlockRes,
    alarm: &AlarmRelation,
) -> ArrayVec<u8, 128>
    ensures value { result.items ≡ ((block_bytes (Block.ArBlockRes relation.now) ++ block_bytes (Block.IocrBlockRes input.now))
        ++ block_bytes (Block.IocrBlockRes output.now))
        ++ alarm_relation.write alarm.now [] }
{
    let _relation_size = ar_block_res_len(relation);
    let _input_size = iocr_block_res_len(input);
    let _output_size = iocr_block_res_len(output);
    let mut octets = ArrayVec::new();
    write_block(&mut octets, &Block::ArBlockRes(*relation));
    write_block(&mut octets, &Block::IocrBlockRes(*input));
    write_block(&mut octets, &Block::IocrBlockRes(*output));
    put_alarm_relation(&mut octets, alarm);
    octets
}

/// The response of a device to the Connect of a plan whose ARUUID is not zero is a positive response for the plan's
/// controller, if the device has no relation and the plan's modules are plugged, whatever options it has, if its smallest interval is
/// not greater than the plan's interval. This is a law of the definitions by which the device responds and the controller goes on,
/// for a relation of any number.
pub fn connect_answer_is_read(setup: &Setup, identity: &Identity, address: [u8; 4], number: u16)
    requires { number < 14336 }
    // A device with any options sends this frame, of the number that is its turn, from its running address, and no other.
    ensures answered { AnswersSo setup.now identity.now }
    // The default options accept the interval of each plan.
    ensures accepts { AcceptsInterval default_options setup.now.plan }
    // If the ARUUID is not zero, and the device accepts the plan's interval, the frame is heard as the positive response to that
    // call, with the blocks for the plan's request.
    ensures heard { is_some_uuid setup.now.ar ≡ true → (options : DeviceOptions) → AcceptsInterval options setup.now.plan
        → heard_of setup.now.plan.controller (answer_frame setup.now identity.now options number address)
        ≡ Responds (answer_to (call_for setup.now Request.Connect) done (answer_blocks setup.now identity.now number)) }
    // The blocks have everything that a relation needs, with the FrameID that the device chose for outputs, its endpoint, and no
    // module that differs.
    ensures found { IsAllThere (answer_blocks setup.now identity.now number) (0xC000 + number) (endpoint_of number) }
    // If so, a controller that is waiting for this response goes on: the relation exists with the places that the response tells of,
    // and the first record is written, or PrmEnd is sent.
    ensures goes_on { is_some_uuid setup.now.ar ≡ true → (options : DeviceOptions) → AcceptsInterval options setup.now.plan
        → (live : Live) → live.asked ≡ Some Request.Connect
        → turn_of setup.now live (Frame (record { items = answer_frame setup.now identity.now options number address }))
        ≡ writing setup.now (writing_from setup.now.plan 0) (standing setup.now
        (placed setup.now (answer_blocks setup.now identity.now number) live) (chosen_with number)) }
{
    connect_is_taken(&setup.plan, &setup.ar);
    let relation = ArBlockRes {
        ar_uuid: setup.ar,
        session_key: 1,
        cm_responder_mac_add: identity.mac,
    };
    let input = IocrBlockRes {
        iocr_type: 1,
        iocr_reference: 1,
        frame_id: 0xC001,
    };
    let output = IocrBlockRes {
        iocr_type: 2,
        iocr_reference: 2,
        frame_id: 0xC000 + number,
    };
    let alarm = AlarmRelation {
        local_alarm_reference: number + 1,
        max_alarm_data_length: 200,
    };
    answer_blocks_are_read(&relation, &input, &output);
    let blocks = blocks_of(&relation, &input, &output, &alarm);
    let response = Response {
        header: header_of(setup, Request::Connect),
        status: Status {
            code: 0,
            decode: 0,
            code1: 0,
            code2: 0,
        },
        maximum_count: 1372,
        blocks: blocks.as_slice(),
    };
    answers_are_read(setup.plan.controller(), identity, address, &response);
}
