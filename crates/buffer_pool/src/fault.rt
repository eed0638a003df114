//! Why a pool refuses.
ghost use Rattle.std.specs.Prelude.{◌≡◌};
ghost use Rattle.buffer_pool.specs.Fault.{number_of};

use page_device::{DeviceFault, faults};
use std::alloc::AllocError;
use thiserror::Error;

/// Why a call on a pool failed.
#[derive(Clone, Copy, Debug, PartialEq, Eq, Error)]
pub enum PoolFault {
    /// A transfer of the device failed, a page has a wrong digest, or there is no such page. No
    /// image and no pin was changed.
    #[error(transparent)]
    Device(DeviceFault),
    /// The payload of a page, whose digest is right, spells no page. No image and no
    /// pin was changed.
    #[error("a page is malformed")]
    Malformed,
    /// A pool of no frame was asked for, or each frame is pinned by another page. Nothing was
    /// changed.
    #[error("there are too few frames")]
    TooFewFrames,
    /// There is no memory for the frames. Nothing was changed.
    #[error("out of memory")]
    NoMemory,
}

impl PoolFault {
    /// The number that a program prints.
    pub fn number(self) -> u8
        ensures { result ≡ number_of self }
    {
        match self {
            PoolFault::Device(fault) => fault.number(),
            PoolFault::TooFewFrames => faults::TOO_FEW_FRAMES,
            PoolFault::Malformed => faults::MALFORMED,
            PoolFault::NoMemory => faults::NO_MEMORY,
        }
    }
}

impl From<DeviceFault> for PoolFault {
    ghost use Rattle.std.specs.Prelude.{◌≡◌};
    ghost use Rattle.buffer_pool.specs.declared.fault.PoolFault.TheVariants.{Device};

    ghost from_gives = { λ fault pool_fault. pool_fault ≡ Device fault };

    fn from(fault: DeviceFault) -> PoolFault {
        PoolFault::Device(fault)
    }
}

impl From<AllocError> for PoolFault {
    ghost use Rattle.std.specs.Prelude.{◌≡◌};
    ghost use Rattle.buffer_pool.specs.declared.fault.PoolFault.TheVariants.{NoMemory};

    ghost from_gives = { λ _ fault. fault ≡ NoMemory };

    fn from(_: AllocError) -> PoolFault {
        PoolFault::NoMemory
    }
}
