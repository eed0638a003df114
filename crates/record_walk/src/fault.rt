//! Why records are those of no system.

ghost use Rattle.std.specs.Prelude.{◌≡◌};
ghost use Rattle.record_walk.specs.Fault.{number_of};

use numbers::faults;
use std::alloc::{AllocError, AllocFailed};
use thiserror::Error;

/// Why the walk along the links ends.
#[derive(Clone, Copy, Debug, PartialEq, Eq, Error)]
pub enum WalkFault {
    /// A transfer failed.
    #[error("the device failed")]
    Device,
    /// A page reads otherwise than when it was tested.
    #[error("page {page} has changed while the file was checked")]
    Changed { page: u32 },
    /// There is no memory for the system.
    #[error("out of memory")]
    NoMemory,
    /// There is no Counter, or not that of these queues.
    #[error("the counter is missing, or does not count the queues")]
    WrongCounter,
    /// The links of a queue's records do not lead through all of them, or one of them has another
    /// value.
    #[error("the records of queue {queue} are not those of a queue")]
    WrongQueue { queue: u32 },
}

impl WalkFault {
    /// The number that a program prints.
    pub fn number(self) -> u8
        ensures { result ≡ number_of self }
    {
        match self {
            WalkFault::Device => faults::DEVICE,
            WalkFault::Changed { .. } => faults::MALFORMED,
            WalkFault::NoMemory => faults::NO_MEMORY,
            WalkFault::WrongCounter => faults::NO_SYSTEM,
            WalkFault::WrongQueue { .. } => faults::NO_SYSTEM,
        }
    }
}

impl From<faults::NoMemory> for WalkFault {
    ghost use Rattle.std.specs.Prelude.{◌≡◌};
    ghost use Rattle.record_walk.specs.declared.fault.WalkFault.TheVariants.{NoMemory};

    ghost from_gives = { λ _ fault. fault ≡ NoMemory };

    fn from(_: faults::NoMemory) -> WalkFault {
        WalkFault::NoMemory
    }
}

impl<T: Drop> From<AllocFailed<T>> for WalkFault {
    ghost use Rattle.std.specs.Prelude.{◌≡◌};
    ghost use Rattle.record_walk.specs.declared.fault.WalkFault.TheVariants.{NoMemory};

    ghost from_gives = { λ _ fault. fault ≡ NoMemory };

    fn from(_: AllocFailed<T>) -> WalkFault {
        WalkFault::NoMemory
    }
}

impl From<AllocError> for WalkFault {
    ghost use Rattle.std.specs.Prelude.{◌≡◌};
    ghost use Rattle.record_walk.specs.declared.fault.WalkFault.TheVariants.{NoMemory};

    ghost from_gives = { λ _ fault. fault ≡ NoMemory };

    fn from(_: AllocError) -> WalkFault {
        WalkFault::NoMemory
    }
}
