//! Why a file does not become a new one.

ghost use Rattle.std.specs.Prelude.{◌≡◌};
ghost use Rattle.migration.specs.Fault.{making_number_of, number_of};

use buffer_pool::PoolFault;
use file_check::CheckFault;
use file_pages::FileFault;
use numbers::faults;
use page_device::DeviceFault;
use thiserror::Error;

/// Why a file does not become a new one. Of the new device nothing is said then.
#[derive(Clone, Copy, Debug, PartialEq, Eq, Error)]
pub enum CopyFault {
    /// The first thing that is wrong with the old file; 42 where it is of another version.
    #[error(transparent)]
    Old(CheckFault),
    /// The new file could not be made.
    #[error(transparent)]
    New(MakingFault),
}

/// Why a new file of the records of a system could not be made.
#[derive(Clone, Copy, Debug, PartialEq, Eq, Error)]
pub enum MakingFault {
    /// The new device failed, or has no memory for another page.
    #[error(transparent)]
    Device(DeviceFault),
    /// The pool over the new device refused.
    #[error(transparent)]
    Pool(PoolFault),
    /// The records need more pages than the new file has.
    #[error("the new file has no room for the records")]
    NoRoom,
    /// There is no memory for what is kept of a queue.
    #[error("out of memory")]
    NoMemory,
    /// This is wrong with the new file, as it was read once more.
    #[error(transparent)]
    Wrong(CheckFault),
    /// A machine of the new file failed.
    #[error("a page of the new file is none of its place")]
    Failed,
}

impl CopyFault {
    /// The number that a program prints.
    pub fn number(self) -> u8
        ensures { result ≡ number_of self }
    {
        match self {
            CopyFault::Old(fault) => fault.number(),
            CopyFault::New(fault) => fault.number(),
        }
    }
}

impl MakingFault {
    /// The number that a program prints.
    pub fn number(self) -> u8
        ensures { result ≡ making_number_of self }
    {
        match self {
            MakingFault::Device(fault) => fault.number(),
            MakingFault::Pool(fault) => fault.number(),
            MakingFault::NoRoom => faults::NO_ROOM,
            MakingFault::NoMemory => faults::NO_MEMORY,
            MakingFault::Wrong(fault) => fault.number(),
            MakingFault::Failed => faults::FAILED,
        }
    }
}

impl From<DeviceFault> for MakingFault {
    ghost use Rattle.std.specs.Prelude.{◌≡◌};
    ghost use Rattle.migration.specs.declared.fault.MakingFault.TheVariants.{Device};

    ghost from_gives = { λ fault making_fault. making_fault ≡ Device fault };

    fn from(fault: DeviceFault) -> MakingFault {
        MakingFault::Device(fault)
    }
}

impl From<PoolFault> for MakingFault {
    ghost use Rattle.std.specs.Prelude.{◌≡◌};
    ghost use Rattle.migration.specs.declared.fault.MakingFault.TheVariants.{Pool};

    ghost from_gives = { λ fault making_fault. making_fault ≡ Pool fault };

    fn from(fault: PoolFault) -> MakingFault {
        MakingFault::Pool(fault)
    }
}

impl From<FileFault> for MakingFault {
    ghost use Rattle.migration.specs.Fault.{of_file};
    ghost use Rattle.std.specs.Prelude.{◌≡◌};

    ghost from_gives = { λ fault making_fault. making_fault ≡ of_file fault };

    fn from(fault: FileFault) -> MakingFault {
        match fault {
            FileFault::Pool(fault) => MakingFault::Pool(fault),
            FileFault::Failed => MakingFault::Failed,
        }
    }
}
