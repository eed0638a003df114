//! Why a call is not answered.

ghost use Rattle.std.specs.Prelude.{◌≡◌};
ghost use Rattle.workers.specs.Fault.{fault_of_step, number_of};

use interleavings::interleaving_core::StepFault;
use numbers::faults;
use thiserror::Error;

/// Why a call is not answered. The seat's list is as it was.
#[derive(Clone, Copy, Debug, PartialEq, Eq, Error)]
pub enum Fault {
    /// A record that the call was to insert has no room. Nothing was decided.
    #[error("there is no room for a record")]
    NoRoom,
    /// There is no memory for the call, its answer or their entries. Nothing was decided.
    #[error("out of memory")]
    NoMemory,
    /// The calls that were decided and those under way are as many as one session may decide.
    /// Nothing was decided.
    #[error("the session is full")]
    SessionFull,
    /// A step has failed, of this call or before it. Whether the call was decided the journal
    /// tells.
    #[error("a step has failed")]
    Failed,
}

impl Fault {
    /// What a call is told that does not go on.
    pub(crate) fn of_step(fault: StepFault) -> Fault
        ensures { result ≡ fault_of_step fault }
    {
        match fault {
            StepFault::NoRoom => Fault::NoRoom,
            StepFault::File(_) => Fault::Failed,
        }
    }

    /// The number that a program prints.
    pub fn number(self) -> u8
        ensures { result ≡ number_of self }
    {
        match self {
            Fault::NoRoom => faults::NO_ROOM,
            Fault::NoMemory => faults::NO_MEMORY,
            Fault::SessionFull => faults::SESSION_FULL,
            Fault::Failed => faults::FAILED,
        }
    }
}
