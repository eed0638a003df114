//! How a run ends.

ghost use Rattle.std.specs.Prelude.{◌≡◌, if◌then◌else◌};
ghost use Rattle.msgq_cli.specs.Runs.{is_fault, status_of};

use crate::reply::Reply;
use file_check::CheckFault;

/// How a run ends.
#[derive(Clone, Copy)]
pub enum Ending {
    /// No fault was printed.
    Done,
    /// A fault was printed behind the number of a line, and no other.
    Faulty,
    /// A fault that no line met was printed.
    Failed(Failure),
    /// This is the first thing that is wrong with the file. It was not opened, and the number of the
    /// fault was printed.
    Unopened(CheckFault),
    /// The script's line of this number is wrong, and nothing was run.
    WrongLine(u64),
    /// The schedule's word of this number is wrong, and nothing was run.
    WrongWord(u64),
}

/// A fault that no line met.
#[derive(Clone, Copy)]
pub struct Failure {
    /// What was being done.
    pub stage: Stage,
    /// The number that was printed.
    pub fault: u8,
}

/// What is done around the lines of a script.
#[derive(Clone, Copy, PartialEq, Eq)]
pub enum Stage {
    /// The script is read.
    Reading,
    /// A file is made.
    Making,
    /// The file is opened.
    Opening,
    /// The file is checked.
    Checking,
    /// The file is closed.
    Closing,
}

impl Ending {
    /// The exit status of a program whose output refused a write or did not: 0, 1 or 2
    /// (docs/SCRIPTS.md, "Exit status").
    pub fn status(self, refused: bool) -> u8
        ensures { result ≡ status_of refused self }
    {
        match self {
            Ending::WrongLine(_) | Ending::WrongWord(_) => 2,
            Ending::Faulty | Ending::Failed(_) | Ending::Unopened(_) => 1,
            Ending::Done => u8::from(refused),
        }
    }

    /// What was being done at a fault that no line met, and its number.
    pub(crate) fn failure(self) -> Option<Failure> {
        match self {
            Ending::Failed(failure) => Some(failure),
            Ending::Unopened(fault) => Some(Failure {
                stage: Stage::Opening,
                fault: fault.number(),
            }),
            Ending::Done | Ending::Faulty | Ending::WrongLine(_) | Ending::WrongWord(_) => None,
        }
    }

    /// How it ends after one reply more.
    pub fn after(self, reply: &Reply) -> Ending
        ensures { result ≡ (if is_fault reply.now then Ending.Faulty else self) }
    {
        if reply.is_fault() {
            Ending::Faulty
        } else {
            self
        }
    }
}
