//! What is wrong with the structure of a file.

ghost use Rattle.std.specs.Prelude.{◌≡◌};
ghost use Rattle.file_walk.specs.Fault.{number_of};

use bucket_page::Malformed;
use numbers::faults;
use std::alloc::{AllocError, AllocFailed};
use thiserror::Error;

/// The first thing that is wrong with the structure of a file, and where it stands.
#[derive(Clone, Copy, Debug, PartialEq, Eq, Error)]
pub enum StructureFault {
    /// A transfer failed.
    #[error("the device failed")]
    Device,
    /// A page does not end in the digest of its number and payload.
    #[error("page {page} has a wrong digest")]
    BadDigest { page: u32 },
    /// There is no page, or the header tells of more pages than there are.
    #[error("the file is cut")]
    PastEnd,
    /// A payload is no page, or one of a kind that does not stand there.
    #[error("page {page} is malformed: {reason}")]
    Malformed { page: u32, reason: Malformed },
    /// Page 0 is no header, or tells of fewer pages than there are.
    #[error("page 0 is not the header of this file")]
    BadHeader,
    /// The file is of another version.
    #[error("the file is of another version")]
    BadVersion,
    /// There is no memory for what is to be kept of the pages.
    #[error("out of memory")]
    NoMemory,
    /// The chain meets this page, which does not go on with it; or it goes on to it behind its end.
    #[error("page {page} does not go on with the chain of buckets")]
    ChainBroken { page: u32 },
    /// The list of free pages meets this page, which is not free or was met before.
    #[error("page {page} is on the list of free pages, and is not free or met twice")]
    NotFree { page: u32 },
    /// The page is neither on the chain nor on the list of free pages.
    #[error("page {page} is neither on the chain nor on the list of free pages")]
    PageLost { page: u32 },
    /// The bucket's local depth is above the depth of the directory.
    #[error("the bucket on page {page} is deeper than the directory")]
    TooDeep { page: u32 },
    /// The entry is not the bucket whose range has its index.
    #[error("entry {entry} of the directory is not the bucket of its index")]
    WrongEntry { entry: u32 },
    /// The header's count is not the number of live buckets of this local depth.
    #[error("the count of buckets of local depth {depth} is wrong")]
    WrongCount { depth: u8 },
}

impl StructureFault {
    /// The number that a program prints.
    pub fn number(self) -> u8
        ensures { result ≡ number_of self }
    {
        match self {
            StructureFault::Device => faults::DEVICE,
            StructureFault::BadDigest { .. } => faults::BAD_DIGEST,
            StructureFault::PastEnd => faults::PAST_END,
            StructureFault::Malformed { .. } => faults::MALFORMED,
            StructureFault::BadHeader => faults::BAD_HEADER,
            StructureFault::BadVersion => faults::BAD_VERSION,
            StructureFault::NoMemory => faults::NO_MEMORY,
            StructureFault::ChainBroken { .. } => faults::CHAIN_BROKEN,
            StructureFault::NotFree { .. } | StructureFault::PageLost { .. } => faults::PAGE_LOST,
            StructureFault::TooDeep { .. }
            | StructureFault::WrongEntry { .. }
            | StructureFault::WrongCount { .. } => faults::ENTRY_WRONG,
        }
    }
}

impl From<AllocError> for StructureFault {
    ghost use Rattle.std.specs.Prelude.{◌≡◌};
    ghost use Rattle.file_walk.specs.declared.fault.StructureFault.TheVariants.{NoMemory};

    ghost from_gives = { λ _ fault. fault ≡ NoMemory };

    fn from(_: AllocError) -> StructureFault {
        StructureFault::NoMemory
    }
}

impl<T: Drop> From<AllocFailed<T>> for StructureFault {
    ghost use Rattle.std.specs.Prelude.{◌≡◌};
    ghost use Rattle.file_walk.specs.declared.fault.StructureFault.TheVariants.{NoMemory};

    ghost from_gives = { λ _ fault. fault ≡ NoMemory };

    fn from(_: AllocFailed<T>) -> StructureFault {
        StructureFault::NoMemory
    }
}
