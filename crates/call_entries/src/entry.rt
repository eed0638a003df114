//! A call that changed the system, and what of it is written down.

ghost use Rattle.std.specs.Prelude.{◌≡◌};
ghost use Rattle.call_entries.specs.Entries.{check_of, is_refusal, may_change, moment_of};

use queue_model::{Answer, Call, Caller};

/// A call that changed the system.
#[derive(Drop)]
pub struct CallEntry {
    /// Whose call it was.
    pub caller: Caller,
    /// The call, with its moment.
    pub call: Call,
    /// What its answer told, by which one that is made again is checked.
    pub check: u64,
}

/// What an answer tells by which a call that is made again is checked: the id of a queue or the
/// serial of a message, and else 0.
pub fn check_of(answer: &Answer) -> u64
    ensures { result ≡ check_of answer.now }
{
    match answer {
        Answer::Id(id) => *id as u64,
        Answer::Sent(serial) => *serial,
        Answer::Received(message) => message.serial,
        Answer::Info(_) | Answer::Done | Answer::Refused(_) => 0,
    }
}

/// Whether a call changes the system where it is not refused. A Get of a key may find its queue.
pub(crate) fn may_change(call: &Call) -> bool
    ensures { result ≡ may_change call.now }
{
    match call {
        Call::Get(arguments) => arguments.create || arguments.key.is_none(),
        Call::Stat { .. } => false,
        _ => true,
    }
}

/// Whether a call was refused.
pub(crate) fn is_refusal(answer: &Answer) -> bool
    ensures { result ≡ is_refusal answer.now }
{
    matches!(answer, Answer::Refused(_))
}

/// The moment of a call, or 0 where it has none.
pub(crate) fn moment_of(call: &Call) -> u64
    ensures { result ≡ moment_of call.now }
{
    match call {
        Call::Get(arguments) => arguments.moment,
        Call::Send(arguments) => arguments.moment,
        Call::Receive(arguments) => arguments.moment,
        Call::Set(arguments) => arguments.moment,
        Call::Stat { .. } | Call::Remove { .. } => 0,
    }
}
