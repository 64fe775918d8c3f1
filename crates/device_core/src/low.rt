// Diagnosis, and the alarms of low priority.
ghost use Rattle.std.specs.Prelude.{◌≡◌, [], map};
ghost use Rattle.relations.specs.Diagnosed.{reporting};
ghost use Rattle.relations.specs.Phases.{updated};
ghost use Rattle.frame_codec.specs.Outbox.{boxed};
ghost use Rattle.settings_journal.specs.settings_store.Carries.{Holds};
ghost use Rattle.diagnosis.specs.reports.Message.{low_message_of};
ghost use Rattle.device_frames.specs.Heard.{heard_low};
ghost use Rattle.device_frames.specs.Sendable.{AreSendable};
ghost use Rattle.device_frames.specs.Sent.{bytes_of};
ghost use Rattle.device_core.specs.Behind.{CanSend, behind, confirmed_with, frames_of};
ghost use Rattle.device_core.specs.State.{with_rest};
ghost use Rattle.device_core.specs.Handled.{handled_diagnosed, handled_low, handled_low_message, handled_low_reply, may_be_diagnosed};
ghost use Rattle.device_core.specs.Machine.{end_of};
ghost use Rattle.device_core.specs.Steps.{StaysReliable, Steps};

use crate::{Device, Note};
use device_frames::{send_low_alarm, send_low_reply};
use diagnosis::{Change, Diagnosis, read_low_message};
use flash_model::Flash;
use frame_codec::Outbox;
use pn_alarms::{Header, Message, PduFate, Taken};
use pn_values::Mac;
use relations::is_plugged;

impl<F: Flash<S>, const S: usize> Device<F, S> {
    /// The diagnoses that exist, in the order in which they appeared.
    pub fn diagnoses(&self) -> &[Diagnosis]
        ensures { result.now ≡ self.now.live.rest.diagnoses }
    {
        self.diagnoses.as_slice()
    }

    // Whether a diagnosis may change: its submodule is plugged, and the change can wait for its alarm.
    fn may_be_diagnosed(&self, change: &Change) -> bool
        ensures { result ≡ may_be_diagnosed self.now.station self.now.live change.now }
    {
        let diagnosis = &change.diagnosis;
        is_plugged(&self.real, diagnosis.slot, diagnosis.subslot) && !self.relation.is_full()
    }

    // A diagnosis appears or disappears.
    #[inline(never)]
    pub(crate) fn diagnose(&mut self, change: &Change, outbox: &mut Outbox) -> Note
        requires { outbox.old.items ≡ [] }
        ensures state { self.new ≡ behind self.old (handled_diagnosed self.old.station self.old.live change.now) }
        ensures frames { boxed outbox.new ≡ frames_of self.old (handled_diagnosed self.old.station self.old.live change.now) }
        ensures sendable { CanSend self.old (handled_diagnosed self.old.station self.old.live change.now) }
        ensures note { result
            ≡ (end_of self.old.station self.old.live (handled_diagnosed self.old.station self.old.live change.now)).note }
    {
        if !self.may_be_diagnosed(change) {
            return Note::Refused;
        }
        if !self.diagnoses.change(change) {
            return Note::Refused;
        }
        let is_sent = self.relation.diagnose(&self.real, change, &self.diagnoses);
        send_low_alarm(&self.identity, is_sent, &self.relation, outbox);
        Note::Done
    }

    // An alarm frame that `read_message` cannot read: it may carry an AlarmAck of low priority.
    #[inline(never)]
    pub(crate) fn read_low_confirm(&mut self, source: Mac, body: &[u8], outbox: &mut Outbox) -> Note
        requires stored { Holds (F.image self.old.flash) self.old.live.values }
        requires empty { outbox.old.items ≡ [] }
        ensures steps { Steps F.Flash self.old (heard_low source (low_message_of body.now)) (boxed outbox.new) result self.new }
        ensures reliable { StaysReliable F.Flash self.old self.new }
    {
        match read_low_message(body) {
            Ok((header, message)) => {
                // It can be read once an alarm of low priority was sent in the relation.
                if !self.relation.has_sent_low() {
                    return Note::Fault;
                }
                self.hear_low(source, &header, &message, outbox)
            }
            Err(_) => Note::Fault,
        }
    }

    // An ACK under the FrameID of low priority. It is one of high priority until an alarm of low priority was sent.
    pub(crate) fn hear_low_reply(
        &mut self,
        source: Mac,
        header: &Header,
        message: &Message,
        outbox: &mut Outbox,
    ) -> Note
        requires { outbox.old.items ≡ [] }
        ensures state { self.new ≡ behind self.old (handled_low_reply self.old.station self.old.live source header.now message.now) }
        ensures frames { boxed outbox.new ≡ frames_of self.old (handled_low_reply self.old.station self.old.live source header.now message.now) }
        ensures sendable { CanSend self.old (handled_low_reply self.old.station self.old.live source header.now message.now) }
        ensures note { result ≡ (end_of self.old.station self.old.live
            (handled_low_reply self.old.station self.old.live source header.now message.now)).note }
    {
        if !self.relation.has_sent_low() {
            return self.hear_alarm(source, header, message, outbox);
        }
        self.hear_low(source, header, message, outbox)
    }

    // A PDU of low priority.
    fn hear_low(
        &mut self,
        source: Mac,
        header: &Header,
        message: &Message,
        outbox: &mut Outbox,
    ) -> Note
        requires { outbox.old.items ≡ [] }
        ensures state { self.new ≡ behind self.old (handled_low self.old.station self.old.live source header.now message.now) }
        ensures frames { boxed outbox.new ≡ frames_of self.old (handled_low self.old.station self.old.live source header.now message.now) }
        ensures sendable { CanSend self.old (handled_low self.old.station self.old.live source header.now message.now) }
        ensures note { result ≡ (end_of self.old.station self.old.live
            (handled_low self.old.station self.old.live source header.now message.now)).note }
    {
        if !self
            .relation
            .is_alarm(source, header.destination, header.source)
        {
            return Note::NoRelation;
        }
        self.hear_low_message(message, outbox)
    }

    // What a PDU of low priority of the relation says: data is answered, and an ACK counts or does not.
    fn hear_low_message(&mut self, message: &Message, outbox: &mut Outbox) -> Note
        requires { outbox.old.items ≡ [] }
        ensures state { self.new ≡ behind self.old (handled_low_message self.old.station self.old.live message.now) }
        ensures frames { boxed outbox.new ≡ frames_of self.old (handled_low_message self.old.station self.old.live message.now) }
        ensures sendable { CanSend self.old (handled_low_message self.old.station self.old.live message.now) }
        ensures note { result ≡ (end_of self.old.station self.old.live (handled_low_message self.old.station self.old.live message.now)).note }
    {
        match self.relation.hear_low(message) {
            PduFate::Data(taken) => self.confirm(taken, outbox),
            PduFate::Done => Note::Done,
            // A NACK, or an ACK of another number, is not an error, and changes nothing.
            PduFate::Ignored => Note::Filter,
            // An ERR is always one of high priority.
            PduFate::Aborted(_) => Note::Filter,
        }
    }

    // Data of low priority is answered with the current numbers, and then the next change is reported.
    fn confirm(&mut self, taken: Taken, outbox: &mut Outbox) -> Note
        requires { outbox.old.items ≡ [] }
        ensures state { self.new ≡ with_rest self.old (record self.old.live.rest {
          link = updated (reporting self.old.live.rest.link) self.old.live.rest.link;
        }) }
        ensures frames { boxed outbox.new ≡ map (bytes_of self.old.station.identity) (confirmed_with self.old taken) }
        ensures sendable { AreSendable self.old.station.identity (confirmed_with self.old taken) }
        ensures note { result ≡ Note.Done }
    {
        send_low_reply(&self.identity, taken, &self.relation, outbox);
        let is_sent = self.relation.report_next();
        send_low_alarm(&self.identity, is_sent, &self.relation, outbox);
        Note::Done
    }
}
