//! The faults of a text that gives no plan.
ghost use Rattle.std.specs.Prelude.{◌≡◌};
ghost use Rattle.configurator.specs.declared.fault.PlanFault.TheVariants.{OutOfMemory};
ghost use Rattle.configurator.specs.Fault.{number_of, of_catalogue, of_length};

use catalogue::CatalogueFault;
use plans::TooLong;
use std::alloc::AllocError;
use thiserror::Error;

/// Why a text gives no plan. The first four are found while the text is read, in the order of the keys. The others are faults of the whole
/// catalogue, checked in this order: `Name`, `Address`, `NotAllowedInSlot`, `TooManySlots`, `FrameTooLong`, `ConnectTooLong`.
#[derive(Clone, Copy, Debug, PartialEq, Eq, Error)]
pub enum PlanFault {
    #[error("the text is no JSON")]
    Json = 1,
    #[error("a key is missing")]
    MissingKey = 2,
    #[error("a value is of another kind than its key wants")]
    WrongKind = 3,
    #[error("a number is out of its range, or what it names is not there or there twice")]
    Number = 4,
    #[error("a module is not allowed in its slot")]
    NotAllowedInSlot = 5,
    #[error("there are too many slots, submodules or records")]
    TooManySlots = 6,
    #[error("a cyclic frame would hold more than 1,440 octets")]
    FrameTooLong = 7,
    #[error("the Connect would be longer than a frame")]
    ConnectTooLong = 8,
    #[error("a station name is not valid")]
    Name = 9,
    #[error("an address is not valid")]
    Address = 10,
    #[error("out of memory")]
    OutOfMemory = 11,
}

impl PlanFault {
    /// The fault's number, 1 to 11.
    pub fn number(self) -> u8
        ensures { result ≡ number_of self }
    {
        self as u8
    }
}

impl From<CatalogueFault> for PlanFault {
    ghost from_gives = { λ found fault. fault ≡ of_catalogue found };

    fn from(fault: CatalogueFault) -> PlanFault {
        match fault {
            CatalogueFault::Json => PlanFault::Json,
            CatalogueFault::MissingKey => PlanFault::MissingKey,
            CatalogueFault::WrongKind => PlanFault::WrongKind,
            CatalogueFault::Number => PlanFault::Number,
            CatalogueFault::OutOfMemory => PlanFault::OutOfMemory,
        }
    }
}

impl From<AllocError> for PlanFault {
    ghost from_gives = { λ _ fault. fault ≡ OutOfMemory };

    fn from(_error: AllocError) -> PlanFault {
        PlanFault::OutOfMemory
    }
}

impl From<TooLong> for PlanFault {
    ghost from_gives = { λ found fault. fault ≡ of_length found };

    fn from(fault: TooLong) -> PlanFault {
        match fault {
            TooLong::Frame => PlanFault::FrameTooLong,
            TooLong::Connect => PlanFault::ConnectTooLong,
        }
    }
}
