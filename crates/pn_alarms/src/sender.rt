//! The sender of alarms.
ghost use Rattle.std.specs.Prelude.{◌≡◌, ◌<◌, ◌≤◌, [], length, is_ok, is_none, is_some, IfSome, OnOk, OnErr};
ghost use Rattle.pn_alarms.specs.Numbers.{send_number};
ghost use Rattle.pn_alarms.specs.Sending.{due, is_again, is_repeated};
ghost use Rattle.pn_alarms.specs.Sender.{inactive, standing_with, raised, is_of, ended_by, counts, answered, later};
ghost use Rattle.pn_alarms.specs.Standing.{emptied, kept_as};
ghost use Rattle.pn_alarms.specs.Leaps.{NothingDue, after, alarm_due, data_due_in};

use crate::repeats::{Due, Repeats};
use arrayvec::ArrayVec;
use block_codec::{AlarmAck, AlarmData, AlarmNotification};
use std::marker::Model;

/// A process alarm that the application raises.
#[derive(Clone, Copy)]
pub struct Alarm<'a> {
    /// SlotNumber.
    pub slot_number: u16,
    /// SubslotNumber.
    pub subslot_number: u16,
    /// ModuleIdentNumber of the module that is plugged in the slot.
    pub module_ident_number: u32,
    /// SubmoduleIdentNumber of the submodule that is plugged in the subslot.
    pub submodule_ident_number: u32,
    /// The alarm's data, at most 32 octets.
    pub alarm_data: &'a [u8],
}

/// Why an alarm is not raised.
#[derive(Clone, Copy, Debug, PartialEq, Eq)]
pub enum RaiseFault {
    /// An alarm is already active.
    Busy,
}

impl RaiseFault {
    /// The fault's number, from 1.
    pub fn number(self) -> u8
        ensures { result ≡ 1 }
    {
        1
    }
}

/// What the partner says about an alarm.
#[derive(Clone, Copy)]
pub enum Reply {
    /// It received data of this number.
    Ack(u16),
    /// It accepted an alarm.
    AlarmAck(AlarmAck),
}

/// AlarmType of a process alarm (IEC 61158-6-10, 5.2.5).
const PROCESS: u16 = 2;

/// The active alarm.
#[derive(Drop)]
struct Standing {
    alarm_type: u16,
    slot_number: u16,
    subslot_number: u16,
    module_ident_number: u32,
    submodule_ident_number: u32,
    alarm_specifier: u16,
    alarm_data: ArrayVec<u8, 32>,
}

impl Standing {
    /// The alarm of this block, still without its data.
    fn new(alarm: &AlarmNotification) -> Standing
        requires { alarm.now.api ≡ 0 }
        ensures { kept_as result ≡ emptied alarm.now }
    {
        Standing {
            alarm_type: alarm.alarm_type,
            slot_number: alarm.slot_number,
            subslot_number: alarm.subslot_number,
            module_ident_number: alarm.module_ident_number,
            submodule_ident_number: alarm.submodule_ident_number,
            alarm_specifier: alarm.alarm_specifier,
            alarm_data: ArrayVec::new(),
        }
    }

    /// The block of this alarm.
    fn notification(&self) -> AlarmNotification<'_>
        ensures value { result ≡ kept_as self.now }
        ensures few { length result.alarm_data ≤ 32 }
    {
        AlarmNotification {
            alarm_type: self.alarm_type,
            api: 0,
            slot_number: self.slot_number,
            subslot_number: self.subslot_number,
            module_ident_number: self.module_ident_number,
            submodule_ident_number: self.submodule_ident_number,
            alarm_specifier: self.alarm_specifier,
            alarm_data: AlarmData::new(self.alarm_data.as_slice()),
        }
    }

    /// Whether this AlarmAck acknowledges this alarm.
    fn is_ended_by(&self, ack: &AlarmAck) -> bool
        ensures { result ≡ is_of ack.now (kept_as self.now) }
    {
        // PNIOStatus is ignored: an AlarmAck that reports an error still says that the alarm was accepted.
        ack.alarm_type == self.alarm_type
            && ack.api == 0
            && ack.slot_number == self.slot_number
            && ack.subslot_number == self.subslot_number
            && ack.alarm_specifier == self.alarm_specifier
    }
}

/// A sender of alarms. One alarm at a time is active, until it is acknowledged.
#[derive(Drop)]
pub struct Sender {
    repeats: Repeats,
    specifier: u16,
    standing: Option<Standing>,
}

// Its model: how alarms are sent, the AlarmSpecifier of the next alarm, and the active alarm.
impl Model for Sender {
    ghost use Rattle.pn_alarms.specs.Alarming.{Alarming};

    ghost Value = { Alarming };

    ghost use Rattle.std.specs.Prelude.{◌<◌};
    ghost use Rattle.std.specs.Option.{option_map};
    ghost use Rattle.pn_alarms.specs.Standing.{kept_as};

    ghost view = { λ sender. record {
      sending = sender.repeats;
      specifier = sender.specifier;
      standing = option_map kept_as sender.standing;
    } };

    ghost invariant = { λ sender. sender.specifier < 2048 };
}

impl Sender {
    /// A sender without an alarm, for a relation with this RTATimeoutFactor, at least 1, and RTARetries, at most 15.
    pub fn new(timeout_factor: u16, retries: u16) -> Sender
        requires factor { 0 < timeout_factor }
        requires few { retries ≤ 15 }
        ensures { result ≡ inactive timeout_factor retries }
    {
        Sender {
            repeats: Repeats::new(timeout_factor, retries),
            specifier: 0,
            standing: None,
        }
    }

    /// SendSeqNum of a PDU that is sent now: the number of the last alarm, 0xFFFF before the first.
    pub fn number(&self) -> u16
        ensures { result ≡ send_number self.now.sending.last }
    {
        self.repeats.number()
    }

    /// AlarmSpecifier of the next alarm: its sequence, without flags.
    pub fn specifier(&self) -> u16
        ensures value { result ≡ self.now.specifier }
        ensures few { result < 2048 }
    {
        self.specifier
    }

    /// Whether an alarm was sent.
    pub fn has_sent(&self) -> bool
        ensures { result ≡ is_some self.now.sending.last }
    {
        self.repeats.has_sent()
    }

    /// The block of the active alarm, if there is one.
    pub fn standing(&self) -> Option<AlarmNotification<'_>>
        ensures value { result ≡ self.now.standing }
        ensures few { IfSome result (λ alarm. length alarm.alarm_data ≤ 32) }
    {
        match &self.standing {
            Some(standing) => Some(standing.notification()),
            None => None,
        }
    }

    /// Raises a process alarm, which the caller then sends.
    pub fn raise(&mut self, alarm: &Alarm) -> Result<(), RaiseFault>
        requires { length alarm.now.alarm_data.now ≤ 32 }
        ensures ok { OnOk result (self.new ≡ raised alarm.now self.old) }
        ensures err { OnErr result (self.new ≡ self.old) }
        // It succeeds exactly if no alarm is active.
        ensures busy { is_ok result ≡ is_none self.old.standing }
    {
        self.raise_block(&AlarmNotification {
            alarm_type: PROCESS,
            api: 0,
            slot_number: alarm.slot_number,
            subslot_number: alarm.subslot_number,
            module_ident_number: alarm.module_ident_number,
            submodule_ident_number: alarm.submodule_ident_number,
            alarm_specifier: self.specifier,
            alarm_data: AlarmData::new(alarm.alarm_data),
        })
    }

    /// Raises the alarm of this block, of any type in API 0, which the caller then sends. Its AlarmSpecifier may have flags
    /// beside the next sequence.
    pub fn raise_block(&mut self, alarm: &AlarmNotification) -> Result<(), RaiseFault>
        requires api { alarm.now.api ≡ 0 }
        requires few { length alarm.now.alarm_data ≤ 32 }
        ensures ok { OnOk result (self.new ≡ standing_with alarm.now self.old) }
        ensures err { OnErr result (self.new ≡ self.old) }
        // It succeeds exactly if no alarm is active.
        ensures busy { is_ok result ≡ is_none self.old.standing }
    {
        // One alarm at a time: the window size of alarms is one, and an AlarmAck must find the alarm that it belongs
        // to.
        if self.standing.is_some() {
            return Err(RaiseFault::Busy);
        }
        // The data is written directly to its final place.
        let standing = self.standing.insert(Standing::new(alarm));
        let _ = standing
            .alarm_data
            .try_extend_from_slice(alarm.alarm_data.octets());
        self.specifier = (self.specifier + 1) % 2048;
        self.repeats.send();
        Ok(())
    }

    /// Counts one unit of time. Returns what is due.
    pub fn tick(&mut self) -> Due
        ensures due { result ≡ due self.old.sending }
        ensures state { self.new ≡ later self.old }
        ensures repeated { is_repeated self.new.sending ≡ is_again result }
    {
        self.repeats.tick()
    }

    /// Whether the active alarm is sent again after the unit that passed last.
    pub fn is_repeated(&self) -> bool
        ensures { result ≡ is_repeated self.now.sending }
    {
        self.repeats.is_repeated()
    }

    /// Whether the alarm waits for its ACK.
    pub fn is_waiting(&self) -> bool
        ensures { result ≡ is_some self.now.sending.waiting }
    {
        self.repeats.is_waiting()
    }

    /// The number of units up to and including the next one with which the alarm is sent again or given up, `NEVER` if no
    /// alarm waits for its ACK.
    pub fn due_in(&self) -> u32
        ensures value { result ≡ data_due_in self.now.sending }
        ensures some { 0 < result }
    {
        self.repeats.due_in()
    }

    /// Counts several units of time at once. Nothing may be due with any of them.
    pub fn pass(&mut self, units: u32)
        requires { units < data_due_in self.old.sending }
        ensures state { self.new ≡ after later units self.old }
        ensures nothing { NothingDue alarm_due later units self.old }
    {
        self.repeats.pass(units);
    }

    /// Receives the partner's reply. Returns whether it counts: an AlarmAck does, and an ACK of the last alarm that was
    /// sent.
    pub fn hear(&mut self, reply: &Reply) -> bool
        ensures counts { result ≡ counts self.old reply.now }
        ensures state { self.new ≡ answered self.old reply.now }
    {
        match reply {
            Reply::Ack(number) => self.repeats.hear_ack(*number),
            Reply::AlarmAck(ack) => {
                self.end(ack);
                true
            }
        }
    }

    /// Ends the active alarm if this AlarmAck acknowledges it.
    fn end(&mut self, ack: &AlarmAck)
        ensures { self.new ≡ ended_by self.old ack.now }
    {
        let is_over = match &self.standing {
            Some(standing) => standing.is_ended_by(ack),
            None => false,
        };
        if is_over {
            self.standing = None;
            self.repeats.rest();
        }
    }
}
