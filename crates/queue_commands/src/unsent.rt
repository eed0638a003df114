//! Why an input is not sent.

ghost use Rattle.std.specs.Prelude.{◌≡◌};

use std::alloc::{AllocError, AllocFailed};
use std::io;
use thiserror::Error;

/// Why an input is not sent.
#[derive(Debug, Drop, Error)]
pub enum Unsent {
    /// It can't be read.
    #[error("standard input can't be read: {0}")]
    Unread(io::Error),
    /// It has more bytes than a message may have.
    #[error("standard input has more than 1024 bytes, as many as a message may have")]
    LongInput,
    /// The line of this number has more bytes than a message may have. Lines count from 1.
    #[error("line {0} of standard input has more than 1024 bytes, as many as a message may have")]
    LongLine(u32),
    /// It has more lines or bytes than a queue may hold.
    #[error("standard input has more than the 1024 lines or 65536 bytes that a queue may hold")]
    TooMany,
    /// There is no memory.
    #[error("out of memory")]
    NoMemory,
}

impl From<AllocError> for Unsent {
    ghost use Rattle.std.specs.Prelude.{◌≡◌};
    ghost use Rattle.queue_commands.specs.declared.unsent.Unsent.TheVariants as errors;

    ghost from_gives = { λ _ error. error ≡ errors.NoMemory };

    fn from(_: AllocError) -> Unsent {
        Unsent::NoMemory
    }
}
