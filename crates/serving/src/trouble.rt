//! Why a server does not go on.

use durable_desk::desk::session::queue_model::NoMemory;
use durable_desk::{OpenRefusal, Uncommitted};
use numbers::faults;
use std::alloc::AllocError;
use std::io;
use thiserror::Error;

/// Why a record is not heard to its end. The server is to end.
#[derive(Clone, Copy, Debug, Error)]
pub enum Unheard {
    /// The relay broke the rules of its records.
    #[error("the relay sent what is no record")]
    Broken,
    /// The file has failed, and this client has not been told so.
    #[error("the file has failed")]
    Failed {
        /// The client.
        client: u64,
    },
    /// There was no memory to keep an answer until it may be told.
    #[error("out of memory")]
    NoMemory,
    /// A message in hand has no room in the file, neither on its queue nor in its holding queue.
    #[error("there is no room for a message in hand")]
    Homeless,
    /// What was decided could not be saved.
    #[error("{0}")]
    Uncommitted(Uncommitted),
}

impl From<NoMemory> for Unheard {
    fn from(_: NoMemory) -> Unheard {
        Unheard::NoMemory
    }
}

impl From<Uncommitted> for Unheard {
    fn from(why: Uncommitted) -> Unheard {
        Unheard::Uncommitted(why)
    }
}

/// Why what is held back was not handed out.
#[derive(Debug, Drop, Error)]
pub enum Unreleased {
    /// It could not be saved first. Nothing was handed out.
    #[error("{0}")]
    Uncommitted(Uncommitted),
    /// The output refused it.
    #[error("{0}")]
    Refused(io::Error),
    /// There was no memory to say what is to be said.
    #[error("out of memory")]
    NoMemory,
}

impl From<Uncommitted> for Unreleased {
    ghost use Rattle.std.specs.Prelude.{◌≡◌};
    ghost use Rattle.serving.specs.declared.trouble.Unreleased.TheVariants.{Uncommitted};

    ghost from_gives = { λ why given. given ≡ Uncommitted why };

    fn from(why: Uncommitted) -> Unreleased {
        Unreleased::Uncommitted(why)
    }
}

impl From<io::Error> for Unreleased {
    ghost use Rattle.std.specs.Prelude.{◌≡◌};
    ghost use Rattle.serving.specs.declared.trouble.Unreleased.TheVariants.{Refused};

    ghost from_gives = { λ why given. given ≡ Refused why };

    fn from(why: io::Error) -> Unreleased {
        Unreleased::Refused(why)
    }
}

/// Why a server is not opened.
#[derive(Clone, Copy, Debug, Error)]
pub enum Unopened {
    /// There is no memory.
    #[error("out of memory")]
    NoMemory,
    /// The first thing that is wrong with the file or its journal, or what is lacking.
    #[error("{0}")]
    Wrong(OpenRefusal),
    /// The file has failed while its queues were looked for, or a message in hand has no room.
    #[error("{0}")]
    Unready(Unheard),
}

impl Unopened {
    /// The number of this fault (docs/FAULTS.md).
    pub fn number(self) -> u8 {
        match self {
            Unopened::NoMemory => faults::NO_MEMORY,
            Unopened::Wrong(OpenRefusal::File(fault)) => fault.number(),
            Unopened::Wrong(OpenRefusal::Calls) => faults::DEVICE,
            Unopened::Unready(Unheard::Homeless) => faults::NO_ROOM,
            Unopened::Unready(Unheard::NoMemory) => faults::NO_MEMORY,
            Unopened::Unready(_) => faults::FAILED,
        }
    }
}

impl From<OpenRefusal> for Unopened {
    fn from(why: OpenRefusal) -> Unopened {
        Unopened::Wrong(why)
    }
}

impl From<AllocError> for Unopened {
    fn from(_: AllocError) -> Unopened {
        Unopened::NoMemory
    }
}

impl From<Unheard> for Unopened {
    fn from(why: Unheard) -> Unopened {
        Unopened::Unready(why)
    }
}
