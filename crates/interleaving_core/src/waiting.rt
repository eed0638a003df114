//! Which entries of the journal wake a call that waits.

ghost use Rattle.std.specs.Prelude.{◌≡◌};
ghost use Rattle.interleaving_core.specs.Waiting.{is_same_queue, is_woken, queue_on, wakes};

use queue_model::{Call, Entry};

/// Whether one of the entries behind so many wakes a call that waits.
pub(crate) fn is_woken(call: &Call, since: usize, journal: &[Entry]) -> bool
    ensures { result ≡ is_woken call.now since journal.now }
{
    let queue = queue_on(call);
    journal.iter().skip(since).any(|entry| wakes(queue, entry))
}

/// Whether an entry wakes a call that waits on this queue.
fn wakes(queue: Option<u32>, entry: &Entry) -> bool
    ensures { result ≡ wakes queue entry.now }
{
    match entry {
        Entry::Decided { call, .. } => is_same_queue(queue, queue_on(call)),
        Entry::Stopped => true,
    }
}

/// The queue whose id a call carries.
fn queue_on(call: &Call) -> Option<u32>
    ensures { result ≡ queue_on call.now }
{
    match call {
        Call::Get(_) => None,
        Call::Send(arguments) => Some(arguments.id),
        Call::Receive(arguments) => Some(arguments.id),
        Call::Stat { id } => Some(*id),
        Call::Set(arguments) => Some(arguments.id),
        Call::Remove { id } => Some(*id),
    }
}

/// Whether both are the same queue.
fn is_same_queue(queue: Option<u32>, other: Option<u32>) -> bool
    ensures { result ≡ is_same_queue queue other }
{
    match (queue, other) {
        (Some(id), Some(other)) => id == other,
        _ => false,
    }
}
