//! The operation that a host asks for.
ghost use Rattle.std.specs.Prelude.{◌≡◌};
ghost use Rattle.controller_abi.specs.Serves.{operation_of as of_number};

/// An operation of a host.
#[derive(Clone, Copy, Debug, PartialEq, Eq)]
pub enum Operation {
    Frame,
    Tick,
    Give,
    Next,
    Value,
    State,
    Alarm,
    Stop,
    Due,
    Status,
    Provider,
    Conflicts,
    Refusal,
    ReadRecord,
    WriteRecord,
    Answer,
    RefusedRecord,
    Report,
    Diagnoses,
    Diagnosis,
    Neighbour,
    Place,
}

// The operation of this number, if it exists.
pub(crate) fn operation_of(what: u32) -> Option<Operation>
    ensures { result ≡ of_number what }
{
    match what {
        3 => Some(Operation::Frame),
        4 => Some(Operation::Tick),
        5 => Some(Operation::Give),
        7 => Some(Operation::Next),
        8 => Some(Operation::Value),
        9 => Some(Operation::State),
        12 => Some(Operation::Alarm),
        13 => Some(Operation::Stop),
        15 => Some(Operation::Due),
        16 => Some(Operation::Status),
        18 => Some(Operation::Provider),
        19 => Some(Operation::Conflicts),
        20 => Some(Operation::Refusal),
        30 => Some(Operation::ReadRecord),
        31 => Some(Operation::WriteRecord),
        32 => Some(Operation::Answer),
        33 => Some(Operation::RefusedRecord),
        34 => Some(Operation::Report),
        35 => Some(Operation::Diagnoses),
        36 => Some(Operation::Diagnosis),
        37 => Some(Operation::Neighbour),
        38 => Some(Operation::Place),
        _ => None,
    }
}
