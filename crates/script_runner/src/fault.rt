// Why a run ended early.
ghost use Rattle.std.specs.Prelude.{◌≡◌};
ghost use Rattle.script_runner.specs.Fault.{fault_of, number_of};

use configurator::PlanFault;
use thiserror::Error;

/// Why a run ended early.
#[derive(Debug, Drop, PartialEq, Eq, Error)]
pub enum RunFault {
    /// A read failed; nothing was written.
    #[error("read")]
    Read,
    /// A write failed, or wrote nothing.
    #[error("write")]
    Write,
    /// The line with this number, counted from 1 with the skipped lines, is not a valid script line. What the lines
    /// before it print was written.
    #[error("line {0}")]
    Line(u32),
    /// Memory was refused.
    #[error("out of memory")]
    OutOfMemory,
    /// A catalogue has no plan. This is the number of its fault.
    #[error("config {0}")]
    Config(u8),
    /// The input is longer than 16,777,216 bytes; nothing was written.
    #[error("endless input")]
    EndlessInput,
}

impl RunFault {
    /// The number of the fault, which is the exit status of a program.
    pub fn number(&self) -> u8
        ensures { result ≡ number_of self.now }
    {
        match self {
            RunFault::Read => 1,
            RunFault::Write => 2,
            RunFault::Line(_) => 3,
            RunFault::OutOfMemory => 4,
            RunFault::Config(_) => 5,
            RunFault::EndlessInput => 6,
        }
    }
}

impl From<PlanFault> for RunFault {
    ghost from_gives = { λ plan fault. fault ≡ fault_of plan };

    fn from(fault: PlanFault) -> RunFault {
        match fault {
            PlanFault::OutOfMemory => RunFault::OutOfMemory,
            fault => RunFault::Config(fault.number()),
        }
    }
}
