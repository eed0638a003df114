//! Why a call is not answered.

ghost use Rattle.std.specs.Prelude.{◌≡◌};
ghost use Rattle.session.specs.Making.{came_of, is_waiting, unanswered_by};

use interleaving_core::{BeginFault, Step, StepFault};
use queue_model::Answer;
use thiserror::Error;

/// Why a call is not answered now.
#[derive(Clone, Copy, Debug, PartialEq, Eq, Error)]
pub enum Unanswered {
    /// The rules have no answer until another call changes the system. Nothing has changed.
    #[error("the call has to wait")]
    Waits,
    /// A record that the call was to insert has no room in the file. Nothing has changed.
    #[error("there is no room for a record")]
    NoRoom,
    /// There is no memory for the call. Nothing has changed.
    #[error("out of memory")]
    NoMemory,
    /// A transfer of the device failed. From here on no call is answered.
    #[error("the file has failed")]
    Failed,
}

impl Unanswered {
    /// Why a call is not answered that does not begin. A seat has a call left only where a device is
    /// not honest.
    pub(crate) fn of(fault: BeginFault) -> Unanswered
        ensures { result ≡ unanswered_by fault }
    {
        match fault {
            BeginFault::Failed | BeginFault::Busy => Unanswered::Failed,
            BeginFault::SessionFull | BeginFault::NoMemory => Unanswered::NoMemory,
        }
    }
}

/// Whether its seat was told that a call waits.
pub(crate) fn is_waiting(told: &Step) -> bool
    ensures { result ≡ is_waiting told.now }
{
    matches!(told, Step::Waiting)
}

/// What a call comes to of which its seat was told this. One that moves on, is blocked, or is not
/// there is one on a file that holds no system.
pub(crate) fn came_of(told: Step) -> Result<Answer, Unanswered>
    ensures { result ≡ came_of told }
{
    match told {
        Step::Answered(answer) => Ok(answer),
        Step::Waiting => Err(Unanswered::Waits),
        Step::Fault(StepFault::NoRoom) => Err(Unanswered::NoRoom),
        Step::Moved(_) | Step::Blocked(_) | Step::Idle | Step::Fault(StepFault::File(_)) => {
            Err(Unanswered::Failed)
        }
    }
}
