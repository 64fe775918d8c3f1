//! A place in a catalogue as text, as `Project.Slots[1].Slot`.
ghost use Rattle.std.specs.Prelude.{◌≡◌, ◌≤◌, ◌+◌, ◌*◌, ◌++◌, flat_map, length};
ghost use Rattle.plan_abi.specs.Places.{spelled_behind, shown};

use arrayvec::ArrayVec;
use catalogue::Step;
use itoa::Buffer;
use wire::append;

/// The text of a place: at most eight steps, each with at most 24 octets.
pub(crate) type Text = ArrayVec<u8, 192>;

/// Appends a step: a dot and a key, or the number of an entry in brackets. At most 24 octets.
#[tactic(auto, using(crate::proofs::KeyLengths::few_octets), unfolding(crate::specs::Places::shown))]
fn push_step(text: &mut Text, step: Step)
    requires { length text.old.items ≤ 168 }
    ensures value { text.new.items ≡ text.old.items ++ shown step }
    ensures few { length text.new.items ≤ length text.old.items + 24 }
{
    match step {
        Step::At(key) => {
            append(text, b".");
            append(text, key.name().as_bytes());
        }
        Step::Entry(index) => {
            let mut buffer = Buffer::new();
            append(text, b"[");
            append(text, buffer.format(index).as_bytes());
            append(text, b"]");
        }
    }
}

/// The steps of a place, one after another. There is a dot before the first key too.
pub(crate) fn spelled(steps: &[Step]) -> Text
    requires { length steps.now ≤ 8 }
    ensures { result.items ≡ spelled_behind steps.now }
{
    let mut text = Text::new();
    for step in steps {
        push_step(&mut text, *step);
    }
    text
}
