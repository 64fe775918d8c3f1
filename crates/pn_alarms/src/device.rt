//! A device's end of the alarms of a relation.
ghost use Rattle.std.specs.Prelude.{◌≡◌, ◌<◌, ◌≤◌, length, is_ok, is_none, is_some, IfSome, OnOk, OnErr};
ghost use Rattle.std.specs.Prelude.{if◌then◌else◌};
ghost use Rattle.pn_alarms.specs.declared.device.PduFate.TheVariants.{Done, Ignored};
ghost use Rattle.pn_alarms.specs.declared.sender.Reply.TheVariants.{Ack};
ghost use Rattle.pn_alarms.specs.Numbers.{is_last};
ghost use Rattle.pn_alarms.specs.Receiver.{taken_as, last_behind};
ghost use Rattle.pn_alarms.specs.Sender.{answered};
ghost use Rattle.pn_alarms.specs.Sending.{due, is_again, is_repeated};
ghost use Rattle.pn_alarms.specs.Leaps.{NothingDue, after, data_due_in, device_due};
ghost use Rattle.pn_alarms.specs.Device.{idle, heard_as, sender_after, end_behind, header_now, end_raised, end_with, end_later};

use crate::{Alarm, Due, Header, Message, PduType, RaiseFault, Receiver, Reply, Sender, Taken};
use block_codec::{AlarmAck, AlarmNotification};
use rpc_core::Status;
use std::marker::Model;

/// What happens to a PDU.
#[derive(Clone, Copy, Debug, PartialEq, Eq)]
pub enum PduFate {
    /// It was data, which was accepted or refused, and is answered.
    Data(Taken),
    /// It was an ACK of the last alarm.
    Done,
    /// It was another ACK, or a NACK.
    Ignored,
    /// It was an ERR with this PNIOStatus: the relation ends.
    Aborted(Status),
}

/// A device's end of the alarms of a relation: it sends alarms, one at a time, and accepts AlarmAcks, each once.
#[derive(Drop)]
pub struct DeviceAlarms {
    sender: Sender,
    receiver: Receiver,
}

// Its model: the state of the sender, and the number of the last AlarmAck that was accepted.
impl Model for DeviceAlarms {
    ghost use Rattle.pn_alarms.specs.Ends.{DeviceEnd};

    ghost Value = { DeviceEnd };

    ghost view = { λ alarms. record { sender = alarms.sender; seen = alarms.receiver } };
}

impl DeviceAlarms {
    /// The alarms of a new relation, with this RTATimeoutFactor, at least 1, and RTARetries, at most 15.
    pub fn new(timeout_factor: u16, retries: u16) -> DeviceAlarms
        requires factor { 0 < timeout_factor }
        requires few { retries ≤ 15 }
        ensures { result ≡ idle timeout_factor retries }
    {
        DeviceAlarms {
            sender: Sender::new(timeout_factor, retries),
            receiver: Receiver::new(),
        }
    }

    /// Raises a process alarm, which the caller then sends as data.
    pub fn raise(&mut self, alarm: &Alarm) -> Result<(), RaiseFault>
        requires { length alarm.now.alarm_data.now ≤ 32 }
        ensures ok { OnOk result (self.new ≡ end_raised self.old alarm.now) }
        ensures err { OnErr result (self.new ≡ self.old) }
        // It succeeds exactly if no alarm is active.
        ensures busy { is_ok result ≡ is_none self.old.sender.standing }
    {
        self.sender.raise(alarm)
    }

    /// Raises the alarm of this block, of any type in API 0, which the caller then sends as data. Its AlarmSpecifier may have
    /// flags beside the next sequence.
    pub fn raise_block(&mut self, alarm: &AlarmNotification) -> Result<(), RaiseFault>
        requires api { alarm.now.api ≡ 0 }
        requires few { length alarm.now.alarm_data ≤ 32 }
        ensures ok { OnOk result (self.new ≡ end_with self.old alarm.now) }
        ensures err { OnErr result (self.new ≡ self.old) }
        // It succeeds exactly if no alarm is active.
        ensures busy { is_ok result ≡ is_none self.old.sender.standing }
    {
        self.sender.raise_block(alarm)
    }

    /// AlarmSpecifier of the next alarm: its sequence, without flags.
    pub fn specifier(&self) -> u16
        ensures value { result ≡ self.now.sender.specifier }
        ensures few { result < 2048 }
    {
        self.sender.specifier()
    }

    /// Whether an alarm was sent.
    pub fn has_sent(&self) -> bool
        ensures { result ≡ is_some self.now.sender.sending.last }
    {
        self.sender.has_sent()
    }

    /// The block of the active alarm, if there is one.
    pub fn standing(&self) -> Option<AlarmNotification<'_>>
        ensures value { result ≡ self.now.sender.standing }
        ensures few { IfSome result (λ alarm. length alarm.alarm_data ≤ 32) }
    {
        self.sender.standing()
    }

    /// The header of a PDU of this type that is sent now, with these endpoints. It has the numbers of the last data
    /// that was sent and of the last data that was accepted.
    pub fn header(&self, kind: PduType, destination: u16, source: u16) -> Header
        ensures { result ≡ header_now self.now kind destination source }
    {
        Header {
            destination,
            source,
            kind,
            send_number: self.sender.number(),
            ack_number: self.receiver.number(),
        }
    }

    /// Counts one unit of time. Returns what is due.
    pub fn tick(&mut self) -> Due
        ensures due { result ≡ due self.old.sender.sending }
        ensures state { self.new ≡ end_later self.old }
        ensures repeated { is_repeated self.new.sender.sending ≡ is_again result }
    {
        self.sender.tick()
    }

    /// Whether the active alarm is sent again after the unit that passed last.
    pub fn is_repeated(&self) -> bool
        ensures { result ≡ is_repeated self.now.sender.sending }
    {
        self.sender.is_repeated()
    }

    /// Whether an alarm waits for its ACK.
    pub fn is_waiting(&self) -> bool
        ensures { result ≡ is_some self.now.sender.sending.waiting }
    {
        self.sender.is_waiting()
    }

    /// The number of units up to and including the next one with which the alarm is sent again or given up, `NEVER` if no
    /// alarm waits for its ACK.
    pub fn due_in(&self) -> u32
        ensures value { result ≡ data_due_in self.now.sender.sending }
        ensures some { 0 < result }
    {
        self.sender.due_in()
    }

    /// Counts several units of time at once. Nothing may be due with any of them.
    pub fn pass(&mut self, units: u32)
        requires { units < data_due_in self.old.sender.sending }
        ensures state { self.new ≡ after end_later units self.old }
        ensures nothing { NothingDue device_due end_later units self.old }
    {
        self.sender.pass(units);
    }

    /// Receives a PDU of the relation. Returns what happens to it.
    pub fn hear(&mut self, message: &Message) -> PduFate
        ensures heard { result ≡ heard_as self.old message.now }
        ensures state { self.new ≡ end_behind self.old message.now }
    {
        match message {
            Message::Data(number, ack) => PduFate::Data(self.take(*number, ack)),
            Message::Ack(number) => self.hear_ack(*number),
            // The alarm is sent again after its interval anyway. A NACK says that a number was not expected, and the
            // repeat corrects that.
            Message::Nack => PduFate::Ignored,
            Message::Abort(status) => PduFate::Aborted(*status),
        }
    }

    /// Receives data. An AlarmAck that is accepted may end the active alarm.
    fn take(&mut self, number: u16, ack: &AlarmAck) -> Taken
        ensures taken { result ≡ taken_as self.old.seen number }
        ensures state { self.new ≡ record {
          sender = sender_after self.old.sender ack.now (taken_as self.old.seen number);
          seen =
              last_behind self.old.seen number;
        } }
    {
        // An AlarmAck that arrives before its ACK counts: it can only be a response to an alarm that arrived.
        let taken = self.receiver.take(number);
        match taken {
            Taken::New => {
                self.sender.hear(&Reply::AlarmAck(*ack));
            }
            Taken::Again | Taken::Refused => {}
        }
        taken
    }

    /// Receives an ACK. Returns what happens to it.
    fn hear_ack(&mut self, number: u16) -> PduFate
        ensures heard { result ≡ (if is_last self.old.sender.sending.last number then Done else Ignored) }
        ensures state { self.new ≡ record { sender = answered self.old.sender (Ack number); seen = self.old.seen } }
    {
        if self.sender.hear(&Reply::Ack(number)) {
            PduFate::Done
        } else {
            PduFate::Ignored
        }
    }
}
