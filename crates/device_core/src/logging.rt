// What the device logs: how its relations ended, and which Connects it refused. These are functions of the log alone, so that
// nothing else of the device changes.
ghost use Rattle.std.specs.Prelude.{◌≡◌};
ghost use Rattle.relations.specs.RelationState.{uuid_of};
ghost use Rattle.device_core.specs.Log.{answer_log, arguments_log, connect_log, end_log, entry_log, err_log, fate_log, release_log};

use connects::asked_uuid;
use device_records::{Log, LogEntry};
use pn_alarms::PduFate;
use records::{CallFault, Operation, done};
use relations::{Farewell, ReadyAnswer, Relation};
use rpc_core::{Status, Uuid};

// The ARUUID of the relation, if there is one.
pub(crate) fn uuid_of(relation: &Relation) -> Option<Uuid>
    ensures { result ≡ uuid_of relation.now }
{
    match relation.uuid() {
        Some(uuid) => Some(*uuid),
        None => None,
    }
}

// The status of the relation, or of the Connect, with this ARUUID.
fn log_entry(log: &mut Log, time: u64, uuid: Uuid, status: Status)
    ensures { log.new ≡ entry_log uuid status time log.old }
{
    log.add(LogEntry { time, uuid, status });
}

// The controller ended the relation with this ARUUID, if there was one.
fn log_end(log: &mut Log, time: u64, uuid: Option<Uuid>, status: Status)
    ensures { log.new ≡ end_log uuid status time log.old }
{
    if let Some(uuid) = uuid {
        log_entry(log, time, uuid, status);
    }
}

// The relation ended with this ERR of the device, if it did.
pub(crate) fn log_err(log: &mut Log, time: u64, ended: &Option<Farewell>)
    ensures { log.new ≡ err_log ended.now time log.old }
{
    if let Some(farewell) = ended {
        log_entry(log, time, farewell.uuid, farewell.reason.status());
    }
}

// The answer to ApplicationReady: one that refuses it ends the relation.
pub(crate) fn log_answer(log: &mut Log, time: u64, answer: &ReadyAnswer)
    ensures { log.new ≡ answer_log answer.now time log.old }
{
    match answer {
        ReadyAnswer::Refused(farewell) => {
            log_entry(log, time, farewell.uuid, farewell.reason.status());
        }
        ReadyAnswer::NotWanted | ReadyAnswer::Garbled | ReadyAnswer::Confirmed => {}
    }
}

// A PDU of the partner with this fate: an ERR ends the relation with this ARUUID.
pub(crate) fn log_fate(log: &mut Log, time: u64, uuid: Option<Uuid>, fate: PduFate)
    ensures { log.new ≡ fate_log uuid fate time log.old }
{
    match fate {
        PduFate::Aborted(status) => log_end(log, time, uuid, status),
        PduFate::Data(_) | PduFate::Done | PduFate::Ignored => {}
    }
}

// A Release with this outcome: it ended the relation with this ARUUID, or it was refused.
pub(crate) fn log_release(log: &mut Log, time: u64, uuid: Option<Uuid>, came: Result<(), CallFault>)
    ensures { log.new ≡ release_log uuid came time log.old }
{
    if came.is_ok() {
        log_end(log, time, uuid, done());
    }
}

// A Connect with these blocks and this outcome.
pub(crate) fn log_connect(log: &mut Log, time: u64, blocks: &[u8], came: Result<(), CallFault>)
    ensures { log.new ≡ connect_log blocks.now came time log.old }
{
    if let Err(fault) = came {
        let status = fault.number(Operation::Connect);
        log_entry(log, time, asked_uuid(blocks), status);
    }
}

// A call of this operation whose blocks have wrong lengths.
pub(crate) fn log_arguments(log: &mut Log, time: u64, operation: Operation)
    ensures { log.new ≡ arguments_log operation time log.old }
{
    if let Operation::Connect = operation {
        let status = CallFault::Arguments.number(operation);
        log_entry(log, time, Uuid::from_bytes([0; 16]), status);
    }
}
