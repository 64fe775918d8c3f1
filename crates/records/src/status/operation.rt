ghost use Rattle.std.specs.Prelude.{◌≡◌};
ghost use Rattle.records.specs.status.Operation.{code_of, operation_of};

/// The operation that a call requests from a device (IEC 61158-6-10, 4.10.3.2.9).
#[derive(Clone, Copy, Debug, PartialEq, Eq)]
pub enum Operation {
    /// 0: establishes an application relation.
    Connect,
    /// 1: ends the relation.
    Release,
    /// 2: reads a record within the relation.
    Read,
    /// 3: writes a record within the relation.
    Write,
    /// 4: reports that all parameters of the relation are written.
    Control,
    /// 5: reads a record without a relation.
    ReadImplicit,
}

impl Operation {
    /// The operation with this number, or `None` if there is no such operation.
    #[tactic(auto, unfolding(crate::specs::status::Operation::operation_of))]
    pub fn of(number: u16) -> Option<Operation>
        ensures { result ≡ operation_of number }
    {
        match number {
            0 => Some(Operation::Connect),
            1 => Some(Operation::Release),
            2 => Some(Operation::Read),
            3 => Some(Operation::Write),
            4 => Some(Operation::Control),
            5 => Some(Operation::ReadImplicit),
            _ => None,
        }
    }

    /// ErrorCode: the kind of call that failed.
    pub(crate) fn error_code(self) -> u8
        ensures { result ≡ code_of self }
    {
        match self {
            Operation::Connect => 0xDB,
            Operation::Release => 0xDC,
            Operation::Control => 0xDD,
            Operation::Read | Operation::ReadImplicit => 0xDE,
            Operation::Write => 0xDF,
        }
    }
}
