//! What comes of an event of a seat.

ghost use Rattle.std.specs.Prelude.{◌≡◌};
ghost use Rattle.replays.specs.Events.{deed_by, reply_by};

use interleavings::interleaving_core::Step;
use msgq_cli::Reply;
use step_rules::Kind;

/// What comes of an event of a seat.
#[derive(Clone, Copy)]
pub enum Deed {
    /// It has no line left.
    Nothing,
    /// The call of its next line was begun.
    Begun,
    /// Its call has made a step of this kind.
    Moved(Kind),
    /// This other seat stands in the way of its call.
    Blocked(u8),
    /// Its call waits.
    Waits,
    /// A line of it is replied.
    Replied,
}

/// What came of a step by which its seat was told this.
pub(crate) fn deed_by(step: &Step) -> Deed
    ensures { result ≡ deed_by step.now }
{
    match step {
        Step::Moved(kind) => Deed::Moved(*kind),
        Step::Blocked(other) => Deed::Blocked(*other),
        Step::Waiting => Deed::Waits,
        Step::Answered(_) => Deed::Replied,
        Step::Idle => Deed::Nothing,
        Step::Fault(_) => Deed::Replied,
    }
}

/// What a line is replied whose seat was told this, if it is.
pub(crate) fn reply_by(step: Step) -> Option<Reply>
    ensures { result ≡ reply_by step }
{
    match step {
        Step::Answered(answer) => Some(Reply::Answered(answer)),
        Step::Fault(fault) => Some(Reply::Failed(fault.number())),
        Step::Moved(_) | Step::Blocked(_) | Step::Waiting | Step::Idle => None,
    }
}
