//! The alarms of low priority of a relation.
ghost use Rattle.std.specs.Prelude.{◌≡◌, ◌<◌, ◌≤◌, ◌++◌, IfSome, is_some, length, unwrap_or};
ghost use Rattle.pn_alarms.specs.declared.pdu.PduType.TheVariants.{Data};
ghost use Rattle.pn_alarms.specs.Device.{end_later, header_now, heard_as};
ghost use Rattle.pn_alarms.specs.Leaps.{NothingDue, after, data_due_in, device_due};
ghost use Rattle.pn_alarms.specs.Sending.{due, is_again, is_repeated};
ghost use Rattle.diagnosis.specs.alarms.Own.{is_own};
ghost use Rattle.diagnosis.specs.alarms.Alarms.{behind, closed, is_full, later, noted, opened};
ghost use Rattle.diagnosis.specs.Queue.{after_next, alarm_bytes, begun, changed, is_module_sent, is_next, is_sent, modules_changed, reported, restated, waits_for_plug};

use crate::alarms::own::Own;
use crate::diagnoses::Diagnoses;
use crate::diagnosis::Change;
use crate::module_change::ModuleChange;
use crate::notice::Notice;
use crate::places::Places;
use crate::queue::{LowChange, Queue, QueuedAlarm};
use crate::reports::low_alarm_front;
use arrayvec::ArrayVec;
use block_codec::{AlarmData, AlarmNotification};
use module_diff::{DiffRows, Expected, RealChange};
use pn_alarms::{DeviceAlarms, Due, Header, Message, PduFate, PduType};
use pn_values::Real;
use std::marker::Model;

/// What a Connect says of the alarms of a relation.
#[derive(Clone, Copy)]
pub struct Terms {
    /// RTATimeoutFactor, at least 1.
    pub timeout_factor: u16,
    /// RTARetries, at most 15.
    pub retries: u16,
    /// AlarmCRTagHeaderLow.
    pub tag: u16,
}

/// An alarm that became active, and must be sent.
#[derive(Clone, Copy, Debug, PartialEq, Eq)]
pub struct SentAlarm {
    /// What it reports.
    pub change: LowChange,
    /// The sequence in its AlarmSpecifier, without flags.
    pub number: u16,
}

/// The alarms of low priority of a relation: the one that is active, and the changes that wait in one queue: those of
/// diagnosis, pulls and plugs.
#[derive(Drop)]
pub struct DiagnosisAlarms {
    alarms: DeviceAlarms,
    queue: Queue,
    sent: Option<SentAlarm>,
    own: Own,
    has_problem: bool,
    tag: u16,
}

// Its model: the parts.
impl Model for DiagnosisAlarms {
    ghost use Rattle.diagnosis.specs.alarms.Alarms.{Low};

    ghost Value = { Low };

    ghost view = { λ low. record {
      alarms = low.alarms;
      waiting = low.queue;
      sent = low.sent;
      places = low.own;
      has_problem = low.has_problem;
      tag = low.tag;
    } };
}

impl DiagnosisAlarms {
    /// Those of no relation.
    pub fn new() -> DiagnosisAlarms
        ensures { result ≡ closed }
    {
        DiagnosisAlarms {
            alarms: DeviceAlarms::new(1, 1),
            queue: Queue::new(),
            sent: None,
            own: Own::new(),
            has_problem: false,
            tag: 0,
        }
    }

    /// A relation begins. `rows` lists the submodules that differ from those that are expected; these diagnoses exist.
    /// Nothing of an earlier relation remains.
    pub fn open(
        &mut self,
        terms: Terms,
        expected: &Expected,
        rows: &DiffRows,
        diagnoses: &Diagnoses,
    )
        requires factor { 0 < terms.timeout_factor }
        requires few { terms.retries ≤ 15 }
        ensures { self.new ≡ opened terms expected.now rows.now diagnoses.now }
    {
        self.alarms = DeviceAlarms::new(terms.timeout_factor, terms.retries);
        self.queue.clear();
        self.sent = None;
        self.own.fill(expected, rows);
        self.tag = terms.tag;
        self.note(diagnoses);
    }

    /// These diagnoses exist now.
    fn note(&mut self, diagnoses: &Diagnoses)
        ensures { self.new ≡ noted diagnoses.now self.old }
    {
        self.has_problem = diagnoses.is_any_in(&self.own);
    }

    /// The modules changed: `rows` lists the submodules that differ now, and these diagnoses exist.
    pub fn restate(&mut self, expected: &Expected, rows: &DiffRows, diagnoses: &Diagnoses)
        ensures { self.new ≡ restated expected.now rows.now diagnoses.now self.old }
    {
        self.own.fill(expected, rows);
        self.note(diagnoses);
    }

    /// Data exchange begins: what waits is reported, and then each diagnosis of the relation that exists. Returns whether an
    /// alarm must be sent.
    pub fn begin(&mut self, real: &Real, diagnoses: &Diagnoses) -> bool
        ensures sent { result ≡ is_next (begun real.now.modules.items diagnoses.now self.old) }
        ensures state { self.new ≡ after_next (begun real.now.modules.items diagnoses.now self.old) }
    {
        self.queue.begin(diagnoses.as_slice(), &self.own, real);
        self.next()
    }

    /// A diagnosis changed, and these exist now. It is reported if data is exchanged and its submodule belongs to the
    /// relation. Returns whether an alarm must be sent.
    pub fn change(
        &mut self,
        real: &Real,
        has_begun: bool,
        change: &Change,
        diagnoses: &Diagnoses,
    ) -> bool
        ensures sent { result ≡ is_sent real.now.modules.items has_begun change.now diagnoses.now self.old }
        ensures state { self.new ≡ changed real.now.modules.items has_begun change.now diagnoses.now self.old }
    {
        self.note(diagnoses);
        if !has_begun || !Places::has(&self.own, change.diagnosis.slot, change.diagnosis.subslot) {
            return false;
        }
        let notice = Notice::of(*change, diagnoses, &self.own);
        self.queue.push(QueuedAlarm::of_diagnosis(&notice, real));
        self.next()
    }

    /// A module or a submodule of the relation was pulled or plugged, these diagnoses exist now, and what differs was stated.
    /// It waits until data is exchanged. Returns whether an alarm must be sent.
    pub fn change_modules(
        &mut self,
        has_begun: bool,
        change: ModuleChange,
        made: &RealChange,
        diagnoses: &Diagnoses,
    ) -> bool
        ensures sent { result ≡ is_module_sent has_begun change made.now diagnoses.now self.old }
        ensures state { self.new ≡ modules_changed has_begun change made.now diagnoses.now self.old }
    {
        let alarm = QueuedAlarm::of_modules(change, made, diagnoses, &self.own);
        self.queue.push(alarm);
        has_begun && self.next()
    }

    /// The first change that waits becomes the active alarm, if none is active. Returns whether it must be sent.
    pub fn next(&mut self) -> bool
        ensures sent { result ≡ is_next self.old }
        ensures state { self.new ≡ after_next self.old }
    {
        match self.queue.first() {
            Some(alarm) => self.report(&alarm),
            None => false,
        }
    }

    /// This change, the first that waits, becomes the active alarm, if none is active. Returns whether it does.
    fn report(&mut self, queued: &QueuedAlarm) -> bool
        ensures done { result ≡ is_some (reported self.old queued.now) }
        ensures state { self.new ≡ unwrap_or (reported self.old queued.now) self.old }
    {
        let number = self.alarms.specifier();
        let mut octets = ArrayVec::new();
        queued.change.put_octets(&mut octets);
        let alarm = AlarmNotification {
            alarm_type: queued.change.alarm_type(),
            api: 0,
            slot_number: queued.change.slot(),
            subslot_number: queued.change.subslot(),
            module_ident_number: queued.module_ident_number,
            submodule_ident_number: queued.submodule_ident_number,
            alarm_specifier: queued.specifier(number),
            alarm_data: AlarmData::new(octets.as_slice()),
        };
        if self.alarms.raise_block(&alarm).is_err() {
            return false;
        }
        self.queue.drop_first();
        self.sent = Some(SentAlarm {
            change: queued.change,
            number,
        });
        true
    }

    /// The alarm that became active last, if one did.
    pub fn sent(&self) -> Option<SentAlarm>
        ensures { result ≡ self.now.sent }
    {
        self.sent
    }

    /// Whether a change that waits is a plug of the expected submodule in this slot and subslot.
    pub fn waits_for_plug(&self, slot: u16, subslot: u16) -> bool
        ensures { result ≡ waits_for_plug slot subslot self.now.waiting }
    {
        self.queue.waits_for_plug(slot, subslot)
    }

    /// Receives a PDU of low priority. Returns what happens to it.
    pub fn hear(&mut self, message: &Message) -> PduFate
        ensures heard { result ≡ heard_as self.old.alarms message.now }
        ensures state { self.new ≡ behind message.now self.old }
    {
        self.alarms.hear(message)
    }

    /// Counts one unit of time. Returns what is due.
    pub fn tick(&mut self) -> Due
        ensures due { result ≡ due self.old.alarms.sender.sending }
        ensures state { self.new ≡ later self.old }
        ensures repeated { is_repeated self.new.alarms.sender.sending ≡ is_again result }
    {
        self.alarms.tick()
    }

    /// Whether the active alarm is sent again after the unit that passed last.
    pub fn is_repeated(&self) -> bool
        ensures { result ≡ is_repeated self.now.alarms.sender.sending }
    {
        self.alarms.is_repeated()
    }

    /// Whether an alarm waits for its ACK.
    pub fn is_waiting(&self) -> bool
        ensures { result ≡ is_some self.now.alarms.sender.sending.waiting }
    {
        self.alarms.is_waiting()
    }

    /// The number of units up to and including the next one with which the alarm is sent again or given up, `NEVER` if no
    /// alarm waits for its ACK.
    pub fn due_in(&self) -> u32
        ensures value { result ≡ data_due_in self.now.alarms.sender.sending }
        ensures some { 0 < result }
    {
        self.alarms.due_in()
    }

    /// Counts several units of time at once. Nothing may be due with any of them.
    pub fn pass(&mut self, units: u32)
        requires { units < data_due_in self.old.alarms.sender.sending }
        ensures state { self.new ≡ record self.old { alarms = after end_later units self.old.alarms } }
        ensures nothing { NothingDue device_due end_later units self.old.alarms }
    {
        self.alarms.pass(units);
    }

    /// Whether no further change can wait, since 32 or more wait already.
    pub fn is_full(&self) -> bool
        ensures { result ≡ is_full self.now }
    {
        32 <= self.queue.len()
    }

    /// Whether an alarm was sent.
    pub fn has_sent(&self) -> bool
        ensures { result ≡ is_some self.now.alarms.sender.sending.last }
    {
        self.alarms.has_sent()
    }

    /// Whether a submodule of the relation has a diagnosis.
    pub fn has_problem(&self) -> bool
        ensures { result ≡ self.now.has_problem }
    {
        self.has_problem
    }

    /// Whether a submodule belongs to the relation.
    pub fn owns(&self, slot: u16, subslot: u16) -> bool
        ensures { result ≡ is_own self.now.places slot subslot }
    {
        Places::has(&self.own, slot, subslot)
    }

    /// The tag of the frames.
    pub fn tag(&self) -> u16
        ensures { result ≡ self.now.tag }
    {
        self.tag
    }

    /// The header of a PDU of this type that is sent now, with these endpoints.
    pub fn header(&self, kind: PduType, destination: u16, source: u16) -> Header
        ensures { result ≡ header_now self.now.alarms kind destination source }
    {
        self.alarms.header(kind, destination, source)
    }

    /// The octets that follow the FrameID of the active alarm, if there is one, with this header: at most 40 octets, and after
    /// them its data, at most 32.
    #[inline(always)]
    pub fn alarm(&self, header: &Header) -> Option<(ArrayVec<u8, 40>, &[u8])>
        requires kind { header.now.kind ≡ Data }
        ensures stands { is_some result ≡ is_some self.now.alarms.sender.standing }
        ensures exact { IfSome result (λ octets. octets.0.items ++ octets.1.now ≡ alarm_bytes header.now self.now.alarms.sender.standing) }
        ensures len { IfSome result (λ octets. length octets.0.items ≤ 40) }
        ensures few { IfSome result (λ octets. length octets.1.now ≤ 32) }
    {
        let alarm = self.alarms.standing()?;
        let front = low_alarm_front(header, &alarm);
        Some((front, alarm.alarm_data.octets()))
    }
}
