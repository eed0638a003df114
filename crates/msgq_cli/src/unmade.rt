//! Why a file is not begun.

use numbers::faults;
use std::alloc::AllocError;
use std::fmt::{Display, Formatter};
use std::io::ErrorKind;
use std::{fmt, io};

/// Why a file is not begun.
#[derive(Drop)]
pub enum Unmade {
    /// The system refused it.
    Refused(io::Error),
    /// Another process makes a file of this name.
    InMaking,
    /// The file that it is made of has the name under which it is made.
    OfItself,
    /// The journal of a file of this name was left behind.
    LeftBehind,
    /// There is no memory.
    NoMemory,
}

impl Display for Unmade {
    fn fmt<W: fmt::Write>(&self, f: &mut Formatter<W>) -> fmt::Result {
        match self {
            Unmade::Refused(error) => error.fmt(f),
            _ => f.write_str(self.words()),
        }
    }
}

impl From<io::Error> for Unmade {
    fn from(error: io::Error) -> Unmade {
        Unmade::Refused(error)
    }
}

impl From<AllocError> for Unmade {
    fn from(_: AllocError) -> Unmade {
        Unmade::NoMemory
    }
}

impl Unmade {
    /// What is said of it, where the system says nothing.
    fn words(&self) -> &'static str {
        match self {
            Unmade::Refused(_) => "the system refuses it",
            Unmade::InMaking => "another process is making it",
            Unmade::OfItself =>
                "the old file has the name that it has until it is whole: name another",
            Unmade::LeftBehind => {
                "the journal of a file of this name is there; where that file is gone for good, \
                remove the journal"
            }
            Unmade::NoMemory => "out of memory",
        }
    }

    /// The number that a program prints.
    pub fn number(&self) -> u8 {
        match self {
            Unmade::NoMemory => faults::NO_MEMORY,
            Unmade::Refused(error) if error.kind() == ErrorKind::OutOfMemory => faults::NO_MEMORY,
            _ => faults::DEVICE,
        }
    }
}
