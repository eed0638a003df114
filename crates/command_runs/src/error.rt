//! Why a command is not done.

ghost use Rattle.std.specs.Prelude.{◌≡◌};
ghost use Rattle.command_runs.specs.Faults.{call_number_of, exit_of, number_of, of_asking};

use numbers::faults;
use numbers::faults::NoMemory;
use queue_commands::{AskError, ExitStatus};
use queue_model::Errno;
use session::{CloseFault, OpenFault, Unanswered};
use std::io;
use thiserror::Error;

/// Why a command is not done. Unless its text was printed nothing is written.
#[derive(Debug, Drop, Error)]
pub enum CommandError {
    /// The file was not opened.
    #[error("it can't be opened: {0}")]
    Unopened(OpenFault),
    /// The system refused one of its calls.
    #[error("{}", .0.name())]
    Refused(Errno),
    /// One of its calls was not answered.
    #[error("a call failed: {0}")]
    Unanswered(Unanswered),
    /// There was no memory for a body or for the text that is printed.
    #[error("out of memory")]
    NoMemory,
    /// The output refused the text.
    #[error("standard output can't be written: {0}")]
    Unprinted(io::Error),
    /// The file was not written well, after the text was printed.
    #[error("it can't be closed: {0}")]
    Unclosed(CloseFault),
}

impl From<NoMemory> for CommandError {
    ghost use Rattle.std.specs.Prelude.{◌≡◌};
    ghost use Rattle.command_runs.specs.declared.error.CommandError.TheVariants as errors;

    ghost from_gives = { λ _ error. error ≡ errors.NoMemory };

    fn from(_: NoMemory) -> CommandError {
        CommandError::NoMemory
    }
}

impl CommandError {
    /// The number of its fault (docs/FAULTS.md). A call that was refused has none, nor has an
    /// output that refused the text.
    pub fn number(&self) -> Option<u8>
        ensures { result ≡ number_of self.now }
    {
        match self {
            CommandError::Unopened(fault) => Some(fault.number()),
            CommandError::Unanswered(fault) => Some(number_of_call(*fault)),
            CommandError::NoMemory => Some(faults::NO_MEMORY),
            CommandError::Unclosed(fault) => Some(fault.number()),
            CommandError::Refused(_) | CommandError::Unprinted(_) => None,
        }
    }

    /// The exit status of a program whose command ends so (docs/SHELL.md, "Exit status").
    pub fn status(&self) -> ExitStatus
        ensures { result ≡ exit_of self.now }
    {
        match self {
            CommandError::Refused(errno) => ExitStatus::of_refusal(*errno),
            _ => ExitStatus::Fault,
        }
    }

    /// Of why a command came to no text, and why its call was not answered, where one was not.
    pub(crate) fn of_asking(error: AskError, fault: Option<Unanswered>) -> CommandError
        ensures { result ≡ of_asking error fault }
    {
        match error {
            AskError::Refused(errno) => CommandError::Refused(errno),
            AskError::Unanswered => CommandError::Unanswered(fault.unwrap_or(Unanswered::Failed)),
            AskError::NoMemory => CommandError::NoMemory,
        }
    }
}

/// The number of why a call was not answered; one that waits is none of a command.
fn number_of_call(fault: Unanswered) -> u8
    ensures { result ≡ call_number_of fault }
{
    match fault {
        Unanswered::NoRoom => faults::NO_ROOM,
        Unanswered::NoMemory => faults::NO_MEMORY,
        Unanswered::Waits | Unanswered::Failed => faults::FAILED,
    }
}
