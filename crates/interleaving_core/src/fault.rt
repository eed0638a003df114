//! Why a file is not opened, a call does not begin or does not go on, and a file is not closed well.

ghost use Rattle.std.specs.Prelude.{◌≡◌};
ghost use Rattle.interleaving_core.specs.Fault.{begin_number_of, close_number_of, failure_number_of, open_number_of, step_number_of};

use file_check::CheckFault;
use file_pages::FileFault;
use numbers::faults;
use thiserror::Error;

/// Why a file is not opened. Nothing was written.
#[derive(Clone, Copy, Debug, PartialEq, Eq, Error)]
pub enum OpenFault {
    /// There are fewer frames than the seats need.
    #[error("there are too few frames")]
    TooFewFrames,
    /// There is no memory for the seats or for the frames.
    #[error("out of memory")]
    NoMemory,
    /// It is wrong with the file, or a transfer failed, or there is no memory for the check.
    #[error(transparent)]
    Wrong(CheckFault),
}

impl OpenFault {
    /// The number that a program prints.
    pub fn number(self) -> u8
        ensures { result ≡ open_number_of self }
    {
        match self {
            OpenFault::TooFewFrames => faults::TOO_FEW_FRAMES,
            OpenFault::NoMemory => faults::NO_MEMORY,
            OpenFault::Wrong(fault) => fault.number(),
        }
    }
}

/// Why a call does not begin. It comes back, and nothing was changed.
#[derive(Clone, Copy, Debug, PartialEq, Eq, Error)]
pub enum BeginFault {
    /// A step has failed before.
    #[error("a step has failed")]
    Failed,
    /// The seat has a call under way.
    #[error("the seat has a call under way")]
    Busy,
    /// The calls that are decided and those under way are as many as one session may decide.
    #[error("the session is full")]
    SessionFull,
    /// There is no memory for the answer, or for the journal's copy of it.
    #[error("out of memory")]
    NoMemory,
}

impl BeginFault {
    /// The number that a program prints.
    pub fn number(self) -> u8
        ensures { result ≡ begin_number_of self }
    {
        match self {
            BeginFault::Failed => faults::FAILED,
            BeginFault::Busy => faults::BUSY,
            BeginFault::SessionFull => faults::SESSION_FULL,
            BeginFault::NoMemory => faults::NO_MEMORY,
        }
    }
}

/// Why a call does not go on.
#[derive(Clone, Copy, Debug, PartialEq, Eq, Error)]
pub enum StepFault {
    /// A page could not be read or written, or is none of its place. From here on no call goes on.
    #[error(transparent)]
    File(FileFault),
    /// A record that the call was to insert has no room. The call is over, and the system as it was.
    #[error("there is no room for a record")]
    NoRoom,
}

impl StepFault {
    /// The number that a program prints: 62 whatever fault of the file it was.
    pub fn number(self) -> u8
        ensures { result ≡ step_number_of self }
    {
        match self {
            StepFault::File(_) => faults::FAILED,
            StepFault::NoRoom => faults::NO_ROOM,
        }
    }
}

/// What failed a kernel: the first fault of the file that a step of it met.
#[derive(Clone, Copy, Debug, Error)]
#[error("a step of seat {seat}: {fault}")]
pub struct Failure {
    /// The seat whose step it was; 0 where it was none, but pages that were written or read between
    /// calls. Seats count from 1.
    pub seat: u8,
    /// What it was.
    pub fault: FileFault,
}

impl Failure {
    /// The number of the fault, as docs/FAULTS.md lists it. Its seat is told 62.
    pub fn number(self) -> u8
        ensures { result ≡ failure_number_of self }
    {
        self.fault.number()
    }
}

/// Why a file is not closed well.
#[derive(Clone, Copy, Debug, PartialEq, Eq, Error)]
pub enum CloseFault {
    /// A transfer failed. What was changed since the file was opened may be lost.
    #[error("the device failed")]
    Device,
    /// A step has failed before. Nothing was written.
    #[error("a step has failed")]
    Failed,
}

impl CloseFault {
    /// The number that a program prints.
    pub fn number(self) -> u8
        ensures { result ≡ close_number_of self }
    {
        match self {
            CloseFault::Device => faults::DEVICE,
            CloseFault::Failed => faults::FAILED,
        }
    }
}
