// The outcome of an event.
ghost use Rattle.std.specs.Prelude.{◌≡◌};
ghost use Rattle.device_frames.specs.Notes.{note_number};

/// The outcome of an event.
#[derive(Clone, Copy, Debug, PartialEq, Eq)]
pub enum Note {
    /// It was carried out or answered, possibly with a negative answer.
    Done = 0,
    /// The frame is for another station, or of a kind that a device does not accept.
    NotMine = 1,
    /// The frame cannot be read.
    Fault = 2,
    /// An Identify request that does not match.
    Filter = 3,
    /// An outdated call: a later call of the same activity was already answered. No answer is sent.
    OldCall = 4,
    /// No relation exists that the frame could belong to.
    NoRelation = 5,
    /// A cyclic frame whose data is not valid, or whose CycleCounter is not newer.
    StaleCycle = 6,
    /// An input of a submodule that has none of this length, an alarm that may not be raised now or for this submodule, or an
    /// answer that goes to no question.
    Refused = 7,
}

impl Note {
    /// The number of this outcome: 0 for `Done`, otherwise 1 to 7.
    pub fn number(self) -> u8
        ensures { result ≡ note_number self }
    {
        self as u8
    }
}
