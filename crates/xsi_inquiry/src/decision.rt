//! What a call decides.

ghost use Rattle.std.specs.Prelude.{◌≡◌};
ghost use Rattle.xsi_inquiry.specs.Deciding.{refuses};

use crate::verdict::Verdict;
use queue_model::Errno;

/// The messages of a queue that goes.
#[derive(Clone, Copy)]
pub struct Sweep {
    /// The queue.
    pub id: u32,
    /// The serial of its first message, with which the sweep begins.
    pub first: Option<u64>,
}

/// What a call decides on what it read. What it writes is asked of it one by one.
#[derive(Clone, Copy)]
pub enum Decision {
    /// It can't be done now: it waits, or is refused with EINTR once the system is
    /// stopped. Nothing is written.
    PutOff,
    /// It is answered.
    Answers(Verdict),
    /// A Remove is answered Done. The messages of its queue are swept turn by turn
    /// before its writes.
    Sweeps(Sweep),
}

impl Decision {
    /// A refusal, which writes nothing.
    pub fn refuses(errno: Errno) -> Decision
        ensures { result ≡ refuses errno }
    {
        Decision::Answers(Verdict::Refused(errno))
    }
}
