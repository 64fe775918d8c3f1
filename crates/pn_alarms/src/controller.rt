//! A controller's end of the alarms of a relation.
ghost use Rattle.std.specs.Prelude.{◌≡◌, ◌<◌, ◌≤◌, is_some};
ghost use Rattle.pn_alarms.specs.Numbers.{is_last};
ghost use Rattle.pn_alarms.specs.Receiver.{taken_as};
ghost use Rattle.pn_alarms.specs.Sending.{due};
ghost use Rattle.pn_alarms.specs.Leaps.{NothingDue, ack_due, after, data_due_in};
ghost use Rattle.pn_alarms.specs.Controller.{unheard, confirmed, controller_later, with_data, with_ack, controller_header};

use crate::{Due, Header, PduType, Receiver, Repeats, Taken};
use block_codec::AlarmAck;
use std::marker::Model;

/// A controller's end of the alarms of a relation: it accepts alarms, each once, and sends AlarmAcks.
#[derive(Drop)]
pub struct ControllerAlarms {
    receiver: Receiver,
    repeats: Repeats,
    ack: Option<AlarmAck>,
}

// Its model: how AlarmAcks are sent, the last AlarmAck, and the number of the last alarm that was accepted.
impl Model for ControllerAlarms {
    ghost use Rattle.pn_alarms.specs.Ends.{ControllerEnd};

    ghost Value = { ControllerEnd };

    ghost view = { λ alarms. record { sending = alarms.repeats; confirming = alarms.ack; seen = alarms.receiver } };
}

impl ControllerAlarms {
    /// The alarms of a new relation, with this RTATimeoutFactor, at least 1, and RTARetries, at most 15.
    pub fn new(timeout_factor: u16, retries: u16) -> ControllerAlarms
        requires factor { 0 < timeout_factor }
        requires few { retries ≤ 15 }
        ensures { result ≡ unheard timeout_factor retries }
    {
        ControllerAlarms {
            receiver: Receiver::new(),
            repeats: Repeats::new(timeout_factor, retries),
            ack: None,
        }
    }

    /// Receives an alarm, as data of this number. Returns whether it is accepted.
    pub fn take(&mut self, number: u16) -> Taken
        ensures taken { result ≡ taken_as self.old.seen number }
        ensures state { self.new ≡ with_data self.old number }
    {
        self.receiver.take(number)
    }

    /// The number of the last alarm that was accepted, if any was. It is another one after each alarm that is accepted.
    pub fn accepted(&self) -> Option<u16>
        ensures { result ≡ self.now.seen }
    {
        self.receiver.last()
    }

    /// Whether any AlarmAck was sent yet.
    pub fn has_confirmed(&self) -> bool
        ensures { result ≡ is_some self.now.sending.last }
    {
        self.repeats.has_sent()
    }

    /// Confirms an accepted alarm with this AlarmAck, which the caller then sends as data. It replaces the AlarmAck
    /// before it.
    pub fn confirm(&mut self, ack: AlarmAck)
        ensures { self.new ≡ confirmed self.old ack }
    {
        self.ack = Some(ack);
        self.repeats.send();
    }

    /// The last AlarmAck, if there was one.
    pub fn confirming(&self) -> Option<AlarmAck>
        ensures { result ≡ self.now.confirming }
    {
        self.ack
    }

    /// Receives an ACK. Returns whether it acknowledges the last AlarmAck that was sent; if so, that AlarmAck is not
    /// sent again.
    pub fn hear_ack(&mut self, number: u16) -> bool
        ensures counts { result ≡ is_last self.old.sending.last number }
        ensures state { self.new ≡ with_ack self.old number }
    {
        self.repeats.hear_ack(number)
    }

    /// The header of a PDU of this type that is sent now, with these endpoints. It has the numbers of the last data
    /// that was sent and of the last data that was accepted.
    pub fn header(&self, kind: PduType, destination: u16, source: u16) -> Header
        ensures { result ≡ controller_header self.now kind destination source }
    {
        Header {
            destination,
            source,
            kind,
            send_number: self.repeats.number(),
            ack_number: self.receiver.number(),
        }
    }

    /// Counts one unit of time. Returns what is due.
    pub fn tick(&mut self) -> Due
        ensures due { result ≡ due self.old.sending }
        ensures state { self.new ≡ controller_later self.old }
    {
        self.repeats.tick()
    }

    /// The number of units up to and including the next one with which the AlarmAck is sent again or given up, `NEVER` if no
    /// AlarmAck waits for its ACK.
    pub fn due_in(&self) -> u32
        ensures value { result ≡ data_due_in self.now.sending }
        ensures some { 0 < result }
    {
        self.repeats.due_in()
    }

    /// Counts several units of time at once. Nothing may be due with any of them.
    pub fn pass(&mut self, units: u32)
        requires { units < data_due_in self.old.sending }
        ensures state { self.new ≡ after controller_later units self.old }
        ensures nothing { NothingDue ack_due controller_later units self.old }
    {
        self.repeats.pass(units);
    }
}
