//! Why a file is not served, or no longer.

use numbers::faults;
use rollback_journal::OpenError;
use serving::durable_desk::Uncommitted;
use serving::{Unheard, Unopened, Unreleased};
use std::io;
use thiserror::Error;

/// The clock is not read.
pub const CLOCK: &str = "the clock can't be read";

/// Standard input is not read.
pub const INPUT: &str = "standard input can't be read";

/// Standard output is not written.
pub const OUTPUT: &str = "standard output can't be written";

/// Why the program ends before the relay says so.
#[derive(Debug, Drop, Error)]
pub enum Trouble {
    /// There is no memory.
    #[error("out of memory")]
    NoMemory,
    /// The file is not opened with its journal.
    #[error("it can't be opened: {0}")]
    NotFound(OpenError),
    /// What it holds is not opened.
    #[error("it can't be opened: {0}")]
    Unopened(Unopened),
    /// The file has failed; all who are to know are told.
    #[error("the file has failed")]
    Failed,
    /// What was decided was not saved.
    #[error("it can't be saved: {0}")]
    Uncommitted(Uncommitted),
    /// A record was not heard.
    #[error("{0}")]
    Unheard(Unheard),
    /// The system refused this, which is not of the file.
    #[error("{0}: {1}")]
    System(&'static str, io::Error),
}

impl From<Unreleased> for Trouble {
    fn from(why: Unreleased) -> Trouble {
        match why {
            Unreleased::Uncommitted(why) => Trouble::Uncommitted(why),
            Unreleased::Refused(error) => Trouble::System(OUTPUT, error),
            Unreleased::NoMemory => Trouble::NoMemory,
        }
    }
}

impl Trouble {
    /// The number that the relay is told where the file is not opened (docs/FAULTS.md).
    pub fn number(&self) -> u32 {
        let number = match self {
            Trouble::NoMemory => faults::NO_MEMORY,
            Trouble::NotFound(error) => error.number(),
            Trouble::Unopened(error) => error.number(),
            _ => faults::FAILED,
        };
        number as u32
    }
}
