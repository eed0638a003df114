//! What the system said where it refused something.

use std::io::{self, ErrorKind};
use thiserror::Error;

/// What the system said where it refused something of a file or its journal.
#[derive(Debug, Drop, Error)]
pub enum Refused {
    /// Of the file.
    #[error("{0}")]
    File(io::Error),
    /// Of its journal.
    #[error("its journal: {0}")]
    Journal(io::Error),
    /// Of the clock by which an opening waits.
    #[error("the clock: {0}")]
    Clock(io::Error),
}

impl Refused {
    /// Whether the system had no memory.
    pub fn is_of_memory(&self) -> bool {
        let (Refused::File(error) | Refused::Journal(error) | Refused::Clock(error)) = self;
        error.kind() == ErrorKind::OutOfMemory
    }
}
