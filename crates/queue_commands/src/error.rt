//! Why a command comes to no text, and the exit statuses.

ghost use Rattle.std.specs.Prelude.{◌≡◌};
ghost use Rattle.queue_commands.specs.Statuses.{number_of, status_of};

use numbers::faults::NoMemory;
use queue_model::Errno;
use thiserror::Error;

/// Why a command comes to no text.
#[derive(Clone, Copy, Debug, Error)]
pub enum AskError {
    /// The system refused one of its calls.
    #[error("{}", .0.name())]
    Refused(Errno),
    /// One of its calls was not answered.
    #[error("a call was not answered")]
    Unanswered,
    /// There was no memory for a body or for the text.
    #[error("out of memory")]
    NoMemory,
}

impl From<NoMemory> for AskError {
    ghost use Rattle.std.specs.Prelude.{◌≡◌};
    ghost use Rattle.queue_commands.specs.declared.error.AskError.TheVariants as errors;

    ghost from_gives = { λ _ error. error ≡ errors.NoMemory };

    fn from(_: NoMemory) -> AskError {
        AskError::NoMemory
    }
}

/// The exit status of a command (docs/SHELL.md, "Exit status").
#[derive(Clone, Copy, PartialEq, Eq)]
pub enum ExitStatus {
    /// It was done.
    Done,
    /// A fault met it, or standard output refused a write.
    Fault,
    /// Its command line is wrong.
    WrongCommandLine,
    /// There is nothing to receive, or no room.
    NotNow,
    /// It was refused otherwise.
    Refused,
}

impl ExitStatus {
    /// The number that a program ends with.
    pub fn number(self) -> u8
        ensures { result ≡ number_of self }
    {
        match self {
            ExitStatus::Done => 0,
            ExitStatus::Fault => 1,
            ExitStatus::WrongCommandLine => 2,
            ExitStatus::NotNow => 3,
            ExitStatus::Refused => 4,
        }
    }

    /// That of a command of which a call was refused so.
    pub fn of_refusal(errno: Errno) -> ExitStatus
        ensures { result ≡ status_of errno }
    {
        match errno {
            Errno::EAGAIN | Errno::ENOMSG => ExitStatus::NotNow,
            _ => ExitStatus::Refused,
        }
    }
}
