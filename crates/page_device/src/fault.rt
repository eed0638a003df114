//! Why a device refuses.
ghost use Rattle.std.specs.Prelude.{◌≡◌};
ghost use Rattle.page_device.specs.Fault.{number_of};

use numbers::faults;
use std::alloc::AllocFailed;
use thiserror::Error;

/// Why a call on a device or a page failed.
#[derive(Clone, Copy, Debug, PartialEq, Eq, Error)]
pub enum DeviceFault {
    /// A transfer failed, or the system refused to open or to make a file. The pages are as they
    /// were; after a `write` that page alone may hold anything.
    #[error("the device failed")]
    Device,
    /// A page does not end in the digest of its number and payload.
    #[error("a page has a wrong digest")]
    BadDigest,
    /// There is no page of this number, or a file does not hold whole pages. Nothing was changed.
    #[error("a page is past the end of the device")]
    PastEnd,
    /// There is no number for another page. Nothing was changed.
    #[error("the device is full")]
    DeviceFull,
    /// There is no memory for another page. Nothing was changed.
    #[error("out of memory")]
    NoMemory,
}

impl DeviceFault {
    /// The number that a program prints.
    pub fn number(self) -> u8
        ensures { result ≡ number_of self }
    {
        match self {
            DeviceFault::Device => faults::DEVICE,
            DeviceFault::BadDigest => faults::BAD_DIGEST,
            DeviceFault::PastEnd => faults::PAST_END,
            DeviceFault::DeviceFull => faults::DEVICE_FULL,
            DeviceFault::NoMemory => faults::NO_MEMORY,
        }
    }
}

impl<T: Drop> From<AllocFailed<T>> for DeviceFault {
    ghost use Rattle.std.specs.Prelude.{◌≡◌};
    ghost use Rattle.page_device.specs.declared.fault.DeviceFault.TheVariants.{NoMemory};

    ghost from_gives = { λ _ fault. fault ≡ NoMemory };

    fn from(_: AllocFailed<T>) -> DeviceFault {
        DeviceFault::NoMemory
    }
}
