//! One turn of a device.
ghost use Rattle.std.specs.Prelude.{◌≡◌, List, Option, ℕ};
ghost use Rattle.wire.specs.blocks.modules.Lists.{Listed};
ghost use Rattle.connect_blocks.specs.declared.module_diff.DiffModule.{DiffModule};
ghost use Rattle.connect_blocks.specs.declared.module_diff.DiffSubmodule.{DiffSubmodule};
ghost use Rattle.module_diff.specs.declared.changes.RealChange.{RealChange};
ghost use Rattle.module_diff.specs.Changes.{affected_by};
ghost use Rattle.diagnosis.specs.declared.alarms.alarms.SentAlarm.{SentAlarm};
ghost use Rattle.diagnosis.specs.declared.diagnosis.Diagnosis.{Diagnosis};
ghost use Rattle.diagnosis.specs.declared.queue.QueuedAlarm.{QueuedAlarm};
ghost use Rattle.expected_places.specs.Machine.{PlugState, is_hit};
ghost use Rattle.settings_journal.specs.settings_store.Machine.{Outcome};
ghost use Rattle.connects.specs.requests.Request.{Request};
ghost use Rattle.records.specs.declared.writes.taken.TakenRecord.{TakenRecord};
ghost use Rattle.device_frames.specs.Heard.{Heard};
ghost use Rattle.relations.specs.Numbers.{IsNumber};
ghost use Rattle.relations.specs.Plugging.{changed_by, flow_reported, places_then, plugs_after, plugs_changed};
ghost use Rattle.relations.specs.RelationState.{RelationState};
ghost use Rattle.device_core.specs.State.{Station, Live};
ghost use Rattle.device_core.specs.Handled.{number_now};
ghost use Rattle.device_core.specs.Machine.{heard_step};
ghost use Rattle.end_laws.specs.both.Small.{Rules};
ghost use Rattle.end_laws.specs.device.Orderly.{keys_of};
ghost use Rattle.end_laws.specs.device.Small.{IsAskedOwn, IsPlanned};
ghost use Rattle.end_laws.specs.device.Turn.{BeginsNumbered, IsRaise, Turn, alarm_heard, standing_of};

/// Each turn of a device: the operation and the outcome of each response, what is sent, and the relation afterwards. This
/// is a law of the machine by which each step of a device is specified. The laws of start-up, of outputs and of alarms use
/// it.
pub fn device_turns()
    // If each call that a device hears is one of the start-up or of the application: it does nothing, something that is no call, what the
    // response to ApplicationReady confirms, or what a call with this operation and this outcome does to the relation, or it repeats a
    // response, or it asks a call of its application, refuses it while another one is asked, or answers the one that is asked; with the
    // options for that, a Read Implicit that is asked is answered and the response is not stored, or it gives way to a call; what its
    // outputs and alarms depend on stays the same, or changes as a Connect, a cyclic frame, an alarm frame, an alarm, a pull, a plug or a
    // unit of time changes it; what is plugged changes by a pull or a plug alone; a response that is newly stored was sent now; its
    // relation stays in order; each message is owed; and what is asked of the application was asked before, or is the call that is heard.
    // This holds whatever the flash did.
    ensures turn { (rules : Rules TakenRecord Request) (activity : List ℕ) (outcomes : List Outcome) (station : Station) (live : Live)
        (heard : Heard) → IsPlanned rules activity station.named live.rest.real heard
        → Turn station live heard (heard_step outcomes station live heard).live.rest (heard_step outcomes station live heard).sent }
    // What is asked of the application is a call of this activity, and no Read Implicit, if it was before.
    ensures own { (rules : Rules TakenRecord Request) (activity : List ℕ) (outcomes : List Outcome) (station : Station) (live : Live)
        (heard : Heard) → IsPlanned rules activity station.named live.rest.real heard
        → IsAskedOwn activity live.rest.asked → IsAskedOwn activity (heard_step outcomes station live heard).live.rest.asked }
    // The number of the next relation is one that the device may give by its options.
    ensures numbered { (station : Station) (live : Live) → IsNumber station.options (number_now station live) }
    // A relation that begins has a number that the device may give by its options: its FrameID of outputs, where the Connect leaves
    // the choice, and its endpoint of alarms are those of this number.
    ensures numbers { (rules : Rules TakenRecord Request) (activity : List ℕ) (outcomes : List Outcome) (station : Station) (live : Live)
        (heard : Heard) → IsPlanned rules activity station.named live.rest.real heard
        → BeginsNumbered station.options live.rest.link (heard_step outcomes station live heard).live.rest.link }
    // An alarm is raised and sent, or it is refused and nothing changes.
    ensures raises { (outcomes : List Outcome) (station : Station) (live : Live) (slot subslot : ℕ) (octets : List ℕ)
        → IsRaise live.rest.real.modules.items live.rest.link slot subslot octets
        (heard_step outcomes station live (alarm_heard slot subslot octets)).live.rest.link
        (heard_step outcomes station live (alarm_heard slot subslot octets)).sent }
    // The places of a relation keep their slots and subslots with an alarm of low priority that is sent, whatever it reports.
    ensures sent_keys { (sent : Option SentAlarm) (waiting : List QueuedAlarm) (plugs : PlugState)
        → keys_of (plugs_after sent waiting plugs).places ≡ keys_of plugs.places }
    // They keep them with a pull and with a plug.
    ensures changed_keys { (rows : Listed DiffModule DiffSubmodule) (made : RealChange) (plugs : PlugState)
        → keys_of (plugs_changed rows made plugs).places ≡ keys_of plugs.places }
    // A pull or a plug changes the alarms of low priority, and nothing else of what outputs and alarms depend on.
    ensures changed_standing { (rows : Listed DiffModule DiffSubmodule) (made : RealChange) (later : List Diagnosis) (link : RelationState)
        → standing_of (changed_by rows made later link) ≡ record (standing_of link) {
          low = (flow_reported (is_hit (affected_by made) (places_then rows made link)) link.request rows made later link.flow).low;
        } }
{}
