// The alarms of the relation (IEC 61158-6-10, 4.8 and 5.2.5).
ghost use Rattle.std.specs.Prelude.{◌≡◌, ◌<◌, ◌+◌, ◌++◌, ◌∷◌, [], map, true};
ghost use Rattle.arrayvec.specs.ArrayVec.{array_vec_len};
ghost use Rattle.controller_messages.specs.Sent.{bytes_of};
ghost use Rattle.controller_core.specs.stored.Alarms.{ack_of};
ghost use Rattle.controller_core.specs.stored.State.{with_live};
ghost use Rattle.controller_core.specs.Machine.{ack_now, acked_under, behind_ack, behind_data, confirming, end_of, noticed, over, reply_of, taken};
ghost use Rattle.pn_alarms.specs.Format.{is_long};
ghost use Rattle.pn_alarms.specs.Receiver.{taken_as};
ghost use Rattle.frame_codec.specs.Outbox.{boxed};

use crate::stored::{KeptAlarm, ack_of, header_of};
use crate::{Cause, Controller, State};
use block_codec::AlarmAck;
use controller_messages::{send_alarm_ack, send_alarm_reply};
use diagnosis::{Priority, Report};
use frame_codec::Outbox;
use pn_alarms::{ControllerAlarms, Notice, PduType, Taken};

impl Controller {
    /// The end of the alarms of a priority.
    pub(crate) fn end_of(&self, priority: Priority) -> &ControllerAlarms
        ensures { result.now ≡ end_of self.now.live priority }
    {
        match priority {
            Priority::High => &self.alarms,
            Priority::Low => &self.low_alarms,
        }
    }

    // Sends the ACK or NACK of an alarm of this priority.
    fn reply(&self, priority: Priority, kind: PduType, outbox: &mut Outbox)
        requires room { array_vec_len outbox.old < 4 }
        requires kind { is_long kind 0 ≡ true }
        ensures frames { boxed outbox.new
            ≡ boxed outbox.old
            ++ bytes_of self.now.setup (reply_of self.now.live priority kind) ∷ [] }
        ensures len { array_vec_len outbox.new ≡ array_vec_len outbox.old + 1 }
    {
        let route = self.exchange.route();
        let header = header_of(self.end_of(priority), route, kind);
        send_alarm_reply(&self.setup, route, priority, &header, outbox);
    }

    // Sends an AlarmAck of this priority, as the last data.
    pub(crate) fn send_ack(&self, priority: Priority, ack: &AlarmAck, outbox: &mut Outbox)
        requires room { array_vec_len outbox.old < 4 }
        ensures frames { boxed outbox.new
            ≡ boxed outbox.old ++ bytes_of self.now.setup (ack_now self.now.live priority ack.now) ∷ [] }
        ensures len { array_vec_len outbox.new ≡ array_vec_len outbox.old + 1 }
    {
        let route = self.exchange.route();
        let header = header_of(self.end_of(priority), route, PduType::Data);
        send_alarm_ack(&self.setup, route, priority, &header, ack, outbox);
    }

    // Stores an alarm as the last one of its priority, with its AlarmAck, and what it reports of the device's diagnosis and of places.
    fn keep(&mut self, report: &Report<'_>, ack: AlarmAck)
        requires { ack ≡ ack_of report.now.notification }
        ensures { self.new ≡ with_live self.old (confirming self.old.live report.now) }
    {
        match report.priority {
            Priority::High => {
                self.alarms.confirm(ack);
                self.alarm = Some(KeptAlarm::of(report));
            }
            Priority::Low => {
                self.low_alarms.confirm(ack);
                self.low_alarm = Some(KeptAlarm::of(report));
            }
        }
        self.diagnosis.take(report);
        self.places.take(report);
    }

    // Sends the AlarmAck of an alarm, as new data of the alarm's priority.
    fn confirm(&mut self, report: &Report<'_>, outbox: &mut Outbox)
        requires room { array_vec_len outbox.old < 4 }
        ensures state { self.new ≡ with_live self.old (confirming self.old.live report.now) }
        ensures frames { boxed outbox.new
            ≡ boxed outbox.old
            ++ bytes_of self.old.setup (ack_now (confirming self.old.live report.now) report.now.priority (ack_of report.now.notification)) ∷ [] }
        ensures len { array_vec_len outbox.new ≡ array_vec_len outbox.old + 1 }
    {
        let ack = ack_of(&report.notification);
        self.keep(report, ack);
        self.send_ack(report.priority, &ack, outbox);
    }

    // Receives data of this number, as data of this priority. Returns whether it is accepted.
    fn count(&mut self, priority: Priority, number: u16) -> Taken
        ensures taken { result ≡ taken_as (end_of self.old.live priority).seen number }
        ensures state { self.new ≡ with_live self.old (behind_data self.old.live priority number) }
    {
        match priority {
            Priority::High => self.alarms.take(number),
            Priority::Low => self.low_alarms.take(number),
        }
    }

    // Receives an alarm, as data of this number: its ACK is sent before its AlarmAck.
    fn take(&mut self, number: u16, report: &Report<'_>, outbox: &mut Outbox)
        requires empty { outbox.old.items ≡ [] }
        ensures state { self.new ≡ with_live self.old (taken (behind_data self.old.live report.now.priority number) report.now
            (taken_as (end_of self.old.live report.now.priority).seen number)).live }
        ensures frames { boxed outbox.new
            ≡ map (bytes_of self.old.setup) (taken (behind_data self.old.live report.now.priority number) report.now
            (taken_as (end_of self.old.live report.now.priority).seen number)).sent }
    {
        match self.count(report.priority, number) {
            Taken::New => {
                self.reply(report.priority, PduType::Ack, outbox);
                self.confirm(report, outbox);
            }
            // The device did not receive the ACK. Its AlarmAck is repeated by its own timer, so the alarm is not
            // reported twice.
            Taken::Again => self.reply(report.priority, PduType::Ack, outbox),
            Taken::Refused => self.reply(report.priority, PduType::Nack, outbox),
        }
    }

    // The priority whose AlarmAck an ACK under the FrameID of this priority acknowledges.
    fn acked_under(&self, under: Priority) -> Priority
        ensures { result ≡ acked_under self.now.live under }
    {
        match under {
            Priority::High => Priority::High,
            // A device may send its ACKs of high priority under either FrameID, and it sends none of low priority before
            // it received data of low priority.
            Priority::Low => {
                if self.low_alarms.has_confirmed() {
                    Priority::Low
                } else {
                    Priority::High
                }
            }
        }
    }

    // Receives an ACK of an AlarmAck of this priority.
    fn hear_ack(&mut self, priority: Priority, number: u16)
        ensures { self.new ≡ with_live self.old (behind_ack self.old.live priority number) }
    {
        match priority {
            Priority::High => {
                self.alarms.hear_ack(number);
            }
            Priority::Low => {
                self.low_alarms.hear_ack(number);
            }
        }
    }

    // An alarm frame of the relation, under the FrameID of this priority.
    pub(crate) fn hear_notice(
        &mut self,
        under: Priority,
        notice: &Notice<Report<'_>>,
        outbox: &mut Outbox,
    )
        requires empty { outbox.old.items ≡ [] }
        ensures state { self.new ≡ with_live self.old (noticed self.old.live under notice.now).live }
        ensures frames { boxed outbox.new ≡ map (bytes_of self.old.setup) (noticed self.old.live under notice.now).sent }
    {
        match notice {
            Notice::Data(number, report) => self.take(*number, report, outbox),
            Notice::Ack(number) => {
                let priority = self.acked_under(under);
                self.hear_ack(priority, *number);
            }
            // The AlarmAck is sent again after its interval anyway, and a NACK only says that its number was not
            // expected.
            Notice::Nack => {}
            Notice::Abort(_) => self.end(Cause::Aborted),
        }
    }

    // Ends the controller and its relation.
    pub(crate) fn end(&mut self, cause: Cause)
        ensures { self.new ≡ with_live self.old (over cause self.old.live) }
    {
        self.phase = State::Ended(cause);
        // An ended controller does not need the answer to its request, and does not repeat it.
        self.asked = None;
        self.waited = 0;
        self.left = 0;
        self.stands = false;
        self.exchange.end();
        self.access.drop_waiting();
        self.diagnosis.clear();
        self.places.clear();
    }
}
