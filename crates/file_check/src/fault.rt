//! What is wrong with a file.

ghost use Rattle.std.specs.Prelude.{◌≡◌};
ghost use Rattle.file_check.specs.Fault.{number_of};

use file_walk::StructureFault;
use numbers::faults;
use record_walk::WalkFault;
use std::alloc::AllocFailed;
use thiserror::Error;

/// The first thing that is wrong with a file, and where it stands.
#[derive(Clone, Copy, Debug, PartialEq, Eq, Error)]
pub enum CheckFault {
    /// It is wrong with the structure.
    #[error(transparent)]
    Structure(StructureFault),
    /// A page reads otherwise than when it was tested.
    #[error("page {page} has changed while the file was checked")]
    Changed {
        page: u32,
    },
    /// The pseudokey of a record is not in the range of its bucket.
    #[error("the record of kind {kind}, queue {queue}, number {number} on page {page} belongs in another bucket")]
    Misplaced {
        page: u32,
        kind: u8,
        queue: u32,
        number: u64,
    },
    /// A key and a value are no record's.
    #[error("the record of kind {kind}, queue {queue}, number {number} on page {page} has no such value")]
    BadRecord {
        page: u32,
        kind: u8,
        queue: u32,
        number: u64,
    },
    /// There is no Counter, or not that of these queues.
    #[error("the counter is missing, or does not count the queues")]
    WrongCounter,
    /// The links of a queue's records do not lead through all of them, or one of them has another
    /// value.
    #[error("the records of queue {queue} are not those of a queue")]
    WrongQueue {
        queue: u32,
    },
    /// The system of the other records has no such record.
    #[error("the record of kind {kind}, queue {queue}, number {number} on page {page} is of no queue")]
    Stray {
        page: u32,
        kind: u8,
        queue: u32,
        number: u64,
    },
}

impl CheckFault {
    /// The number that a program prints.
    pub fn number(self) -> u8
        ensures { result ≡ number_of self }
    {
        match self {
            CheckFault::Structure(fault) => fault.number(),
            CheckFault::Changed { .. } => faults::MALFORMED,
            CheckFault::Misplaced { .. } => faults::STRAY,
            CheckFault::BadRecord { .. } => faults::BAD_RECORD,
            CheckFault::WrongCounter => faults::NO_SYSTEM,
            CheckFault::WrongQueue { .. } => faults::NO_SYSTEM,
            CheckFault::Stray { .. } => faults::STRAY,
        }
    }
}

impl From<StructureFault> for CheckFault {
    ghost use Rattle.std.specs.Prelude.{◌≡◌};
    ghost use Rattle.file_check.specs.declared.fault.CheckFault.TheVariants.{Structure};

    ghost from_gives = { λ fault given. given ≡ Structure fault };

    fn from(fault: StructureFault) -> CheckFault {
        CheckFault::Structure(fault)
    }
}

impl From<WalkFault> for CheckFault {
    ghost use Rattle.std.specs.Prelude.{◌≡◌};
    ghost use Rattle.file_check.specs.Fault.{of_walk};

    ghost from_gives = { λ fault given. given ≡ of_walk fault };

    fn from(fault: WalkFault) -> CheckFault {
        match fault {
            WalkFault::Device => CheckFault::Structure(StructureFault::Device),
            WalkFault::NoMemory => CheckFault::Structure(StructureFault::NoMemory),
            WalkFault::Changed { page } => CheckFault::Changed { page },
            WalkFault::WrongCounter => CheckFault::WrongCounter,
            WalkFault::WrongQueue { queue } => CheckFault::WrongQueue { queue },
        }
    }
}

impl<T: Drop> From<AllocFailed<T>> for CheckFault {
    ghost use Rattle.std.specs.Prelude.{◌≡◌};
    ghost use Rattle.file_check.specs.declared.fault.CheckFault.TheVariants.{Structure};
    ghost use Rattle.file_walk.specs.declared.fault.StructureFault.TheVariants.{NoMemory};

    ghost from_gives = { λ _ fault. fault ≡ Structure NoMemory };

    fn from(_: AllocFailed<T>) -> CheckFault {
        CheckFault::Structure(StructureFault::NoMemory)
    }
}
