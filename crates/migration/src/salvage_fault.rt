//! Why nothing of a file becomes a new one.

ghost use Rattle.std.specs.Prelude.{◌≡◌};
ghost use Rattle.migration.specs.SalvageFault.{number_of};

use crate::fault::MakingFault;
use numbers::faults;
use queue_model::NoMemory;
use thiserror::Error;

/// Why nothing of a file becomes a new one. Of the new device nothing is said then.
#[derive(Clone, Copy, Debug, PartialEq, Eq, Error)]
pub enum SalvageFault {
    /// No page could be read, and transfers failed.
    #[error("the device failed")]
    Device,
    /// There is no page.
    #[error("it has no page")]
    NoPage,
    /// No page has its digest, or none is a page of such a file.
    #[error("no page of it can be read")]
    Unread,
    /// The header is right and of another version.
    #[error("it is a file of another version")]
    BadVersion,
    /// There is no memory for what is found.
    #[error("out of memory")]
    NoMemory,
    /// What was found makes up no system.
    #[error("what was found makes up no system")]
    Unlawful,
    /// The new file could not be made.
    #[error(transparent)]
    New(MakingFault),
}

impl SalvageFault {
    /// The number that a program prints.
    pub fn number(self) -> u8
        ensures { result ≡ number_of self }
    {
        match self {
            SalvageFault::Device => faults::DEVICE,
            SalvageFault::NoPage => faults::PAST_END,
            SalvageFault::Unread => faults::BAD_DIGEST,
            SalvageFault::BadVersion => faults::BAD_VERSION,
            SalvageFault::NoMemory => faults::NO_MEMORY,
            SalvageFault::Unlawful => faults::FAILED,
            SalvageFault::New(fault) => fault.number(),
        }
    }
}

impl From<NoMemory> for SalvageFault {
    ghost use Rattle.std.specs.Prelude.{◌≡◌};
    ghost use Rattle.migration.specs.declared.salvage_fault.SalvageFault.TheVariants as faults;

    ghost from_gives = { λ _ fault. fault ≡ faults.NoMemory };

    fn from(_: NoMemory) -> SalvageFault {
        SalvageFault::NoMemory
    }
}
