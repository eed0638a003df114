//! The entries of a journal.

ghost use Rattle.std.specs.Prelude.{◌≡◌, IfOk};

use crate::answer::Answer;
use crate::call::Call;
use numbers::faults::NoMemory;

/// What a journal tells of one moment: a call was answered, or the system was stopped.
#[derive(Drop, PartialEq)]
pub enum Entry {
    /// The call of a seat, and its answer. Seats count from 1.
    Decided {
        /// Where the caller sits.
        seat: u8,
        /// The call.
        call: Call,
        /// Its answer.
        answer: Answer,
    },
    /// From here on a call that would wait is answered EINTR.
    Stopped,
}

impl Entry {
    /// An equal entry, where there is memory for it.
    pub fn try_copy(&self) -> Result<Entry, NoMemory>
        ensures { IfOk result (λ copy. copy ≡ self.now) }
    {
        match self {
            Entry::Decided { seat, call, answer } => Ok(Entry::Decided {
                seat: *seat,
                call: call.try_copy()?,
                answer: answer.try_copy()?,
            }),
            Entry::Stopped => Ok(Entry::Stopped),
        }
    }
}
