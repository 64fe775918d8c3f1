//! An answer of the application goes to the call that asked for it, once.
ghost use Rattle.std.specs.Prelude.{◌≡◌, ◌+◌, ◌≤◌, ◌∷◌, ℕ, List, length, Some};
ghost use Rattle.asked_records.specs.Asked.{question_in};
ghost use Rattle.asked_records.specs.Runs.{Ascends, open_number};
ghost use Rattle.asked_records.specs.declared.question.Question.{Question};
ghost use Rattle.device_core.specs.State.{Live, Station};
ghost use Rattle.device_frames.specs.Heard.{Heard};
ghost use Rattle.asked_law.specs.Once.{IsGivenTo, Step, WasAsked, accepted_over, accepted_with, after_steps};

/// What an application answers, over any steps of a device from any state: whatever is heard, and whatever the flash does. This is a law
/// of the definitions that specify `Device::step`.
pub fn answers_are_given_once()
    // Each question is answered at most once: the numbers under which answers are accepted ascend, as long as they do not run over
    // 32 bits.
    ensures once { (station : Station) (live : Live) (steps : List Step) → live.rest.asked.last + length steps ≤ 4294967295 →
        Ascends (open_number live.rest.asked) (accepted_over station live steps) }
    // An answer that is accepted goes to the call that is asked: its number is that of the question, and at most one frame is sent, the
    // response to this call, to the station that sent it.
    ensures own { (station : Station) (live : Live) (step : Step) (number : ℕ) (others : List ℕ) →
        accepted_with live step.heard ≡ number ∷ others → IsGivenTo station live step number }
    // And that call was heard in one of the steps before, or it was asked at the beginning.
    ensures heard { (station : Station) (live : Live) (steps : List Step) (question : Question) →
        question_in (after_steps station live steps).rest.asked ≡ Some question → WasAsked live steps question }
{}
