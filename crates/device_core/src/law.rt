//! Laws of runs, for whoever makes the steps of a device itself, as a station does. No code is involved.
ghost use Rattle.std.specs.Prelude.{◌≡◌, ◌≢◌, ◌<◌, ◌-◌, ◌^◌, ◌∷◌, ◌++◌, [], ℕ, List, false};
ghost use Rattle.settings_journal.specs.settings_store.Carries.{Holds};
ghost use Rattle.device_frames.specs.Heard.{heard_of};
ghost use Rattle.device_frames.specs.declared.event.Event.{Event};
ghost use Rattle.device_core.specs.Faults.{RunGoesOn};
ghost use Rattle.device_core.specs.Local.{AnswersGoToTheQuestion, ApplicationIsLocal, OnlyPullsAndPlugsChangeModules};
ghost use Rattle.device_core.specs.Repeats.{ReadsAreBetween, ReadsLeaveStoredAnswers, RepeatsAreAnsweredAlike};
ghost use Rattle.device_core.specs.State.{State};
ghost use Rattle.device_core.specs.Steps.{HandsOn, IsBehindCalls, IsExactRun, Runs, TakesRoom};

use flash_model::Flash;

/// Steps that are made one after another are a run, and what is known of a run.
pub fn steps_make_runs<F: Flash<S>, const S: usize>()
    // Before the first step, no event was run.
    ensures begins { (device : State F) (taken : List (List ℕ)) → Holds (F.image device.flash) device.live.values →
        Runs F.Flash device [] taken taken device × RunGoesOn device [] taken taken device }
    // A run and the step after it are a run with one event more.
    ensures goes_on { (old between new : State F) (events : List Event) (event : Event) (before taken now : List (List ℕ)) →
        Runs F.Flash old events before taken between →
        HandsOn F.Flash between (heard_of between.station.identity event) taken now new →
        Runs F.Flash old (events ++ event ∷ []) before now new }
    // While there is power, the step goes on for any flash faults, and all its frames are handed on.
    ensures all_go_on { (old between new : State F) (events : List Event) (event : Event) (before taken now : List (List ℕ)) →
        between.station ≡ old.station → (between.live.values.is_lost ≡ false → RunGoesOn old events before taken between) →
        HandsOn F.Flash between (heard_of between.station.identity event) taken now new → new.live.values.is_lost ≡ false →
        RunGoesOn old (events ++ event ∷ []) before now new }

    // A run is exactly the specified one if the failure counter of the flash, below 2^64 - 1, does not rise in it, and if no
    // commit failed by its end.
    ensures exact { (old new : State F) (events : List Event) (before now : List (List ℕ)) → Runs F.Flash old events before now new →
        F.failures new.flash ≡ F.failures old.flash → F.failures old.flash < 2 ^ 64 - 1 → IsExactRun old events before now new }
    ensures fine { (old new : State F) (events : List Event) (before now : List (List ℕ)) → Runs F.Flash old events before now new →
        new.live.values.has_failed ≡ false → IsExactRun old events before now new }
    // Only calls change the stored answers. If no commit failed, each accepted command used one of the remaining commits.
    ensures calls { (old new : State F) (events : List Event) (before now : List (List ℕ)) → Runs F.Flash old events before now new →
        IsBehindCalls old.live.rest.calls new.live.rest.calls }
    ensures room { (old new : State F) (events : List Event) (before now : List (List ℕ)) → Runs F.Flash old events before now new →
        new.live.values.has_failed ≡ false → TakesRoom old events new }
{}

/// What an application says, other than an answer, asks nothing of the settings, keeps the stored answers, the neighbour and the count of relations,
/// leaves the relation with the time that it has, sends only frames of the relation, and changes the modules only by a pull or a
/// plug. This is a law of the definitions that specify `Device::step`; the function has no code.
pub fn application_is_local()
    ensures { ApplicationIsLocal }
{}

/// An answer of the application goes to the call that is asked, or it is refused: then nothing changes. The call is asked no longer, and
/// at most one frame is sent, the response to it. This is a law of the definitions that specify `Device::step`; the function has no
/// code.
pub fn answers_go_to_the_question()
    ensures { AnswersGoToTheQuestion }
{}

/// The modules that are plugged change only by a pull or a plug, and then to exactly what that makes of them. This is a law of the
/// definitions that specify `Device::step`; the function has no code.
pub fn only_pulls_and_plugs_change_modules()
    ensures { OnlyPullsAndPlugsChangeModules }
{}

/// With the option `reads_not_kept`, a step with a Read Implicit, with its answer by the application or with its late refusal leaves the
/// stored answers exactly as they are. This is a law of the definitions that specify `Device::step`; the function has no code.
pub fn reads_leave_stored_answers()
    ensures { ReadsLeaveStoredAnswers }
{}

/// A call whose answer is stored is answered with the same frame when it comes again, after any events, as long as answers to calls of
/// fewer than four other activities were stored in between. With the option `reads_not_kept`, Read Implicit count for nothing. This
/// is a law of the definitions that specify `Device::step`; the function has no code.
pub fn repeats_are_answered_alike()
    ensures alike { RepeatsAreAnsweredAlike }
    // Any Read Implicit may come in between.
    ensures reads { ReadsAreBetween }
{}
