//! Want of memory.

ghost use Rattle.std.specs.Prelude.{◌≡◌};
ghost use Rattle.numbers.specs.declared.faults.TheConstants.{NO_MEMORY};

use super::NO_MEMORY;
use std::alloc::{AllocError, AllocFailed};
use thiserror::Error;

/// A growth was refused. Nothing has changed, and the same call may be made again.
#[derive(Clone, Copy, Debug, PartialEq, Eq, Error)]
#[error("out of memory")]
pub struct NoMemory;

impl NoMemory {
    /// The number of this fault, as docs/FAULTS.md lists it.
    pub fn number(self) -> u8
        ensures { result ≡ NO_MEMORY }
    {
        NO_MEMORY
    }
}

impl From<AllocError> for NoMemory {
    fn from(_: AllocError) -> NoMemory {
        NoMemory
    }
}

impl<T: Drop> From<AllocFailed<T>> for NoMemory {
    fn from(_: AllocFailed<T>) -> NoMemory {
        NoMemory
    }
}
