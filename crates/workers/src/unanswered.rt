//! Why a call with a limit of time is not answered.

use crate::fault::Fault;
use queue_model::Call;
use thiserror::Error;

/// Why a call with a limit of time is not answered. The seat's list is as it was.
#[derive(Debug, Drop, Error)]
pub enum Unanswered {
    /// It waited when its limit was over, and was taken back: here it is. The system is as it was.
    #[error("the call waits, and its time is over")]
    TimedOut(Call),
    /// It does not begin, or does not go on.
    #[error(transparent)]
    Fault(Fault),
}
