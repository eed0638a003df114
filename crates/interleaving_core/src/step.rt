//! What a seat is told of a step.

ghost use Rattle.std.specs.Prelude.{◌≡◌};
ghost use Rattle.interleaving_core.specs.Turn.{told_on};

use crate::fault::StepFault;
use file_pages::FileFault;
use queue_model::Answer;
use step_rules::{Kind, Progress};

/// What a seat is told of a step.
#[derive(Drop)]
pub enum Step {
    /// Its call has made a step of this kind.
    Moved(Kind),
    /// This seat stands in the way, and nothing changed.
    Blocked(u8),
    /// The rules had no answer to its call, and no entry of the journal since its Decide wakes it. It
    /// begins anew with the seat's next step after one that does.
    Waiting,
    /// Its call is answered, and over.
    Answered(Answer),
    /// It has no call under way.
    Idle,
    /// Its call does not go on.
    Fault(StepFault),
}

impl Step {
    /// What a seat is told of a step of its call that has not ended it.
    #[inline(always)]
    pub(crate) fn of(did: Progress<FileFault>) -> Option<Step>
        ensures { result ≡ told_on did }
    {
        match did {
            Progress::Moved(kind) => Some(Step::Moved(kind)),
            Progress::Blocked(other) => Some(Step::Blocked(other)),
            Progress::Fault(fault) => Some(Step::Fault(StepFault::File(fault))),
            Progress::Ended => None,
        }
    }
}
