//! The names of a call.

ghost use Rattle.std.specs.Prelude.{◌≡◌, slice_get};
ghost use Rattle.call_decisions.specs.Names.{exclusive_lock, names_for, queue_for};

use crate::any_inquiry::AnyInquiry;
use page_locks::{Lock, LockKind, LockName};
use queue_model::Call;

/// A call holds at most as many names beside the directory and pages.
pub const MAX_NAMES: usize = 3;

/// The lock at this place among those under which a call asks, inserts and writes where its
/// inquiry has come, in the order in which it takes them; none behind the last (docs/STEPS.md,
/// "What a call reads").
///
/// A Stat holds its queue Read, and so does a Remove in its first phase; all other
/// names are held Exclusive.
#[inline(always)]
pub fn name_at(call: &Call, inquiry: &AnyInquiry, place: usize) -> Option<Lock>
    ensures { result ≡ slice_get (names_for call.now inquiry.now) place }
{
    match (call, inquiry) {
        (Call::Get(get), AnyInquiry::Get(inquiry)) => exclusive(inquiry.name(get, place)),
        (Call::Send(send), AnyInquiry::Send(_)) => queue_lock(send.id, LockKind::Exclusive, place),
        (Call::Receive(receive), AnyInquiry::Receive(_)) => {
            queue_lock(receive.id, LockKind::Exclusive, place)
        }
        (Call::Stat { id }, AnyInquiry::Stat(_)) => queue_lock(*id, LockKind::Read, place),
        (Call::Set(set), AnyInquiry::Set(_)) => queue_lock(set.id, LockKind::Exclusive, place),
        (Call::Remove { id }, AnyInquiry::Remove(inquiry)) => match inquiry.name(*id, 0) {
            None => queue_lock(*id, LockKind::Read, place),
            Some(_) => exclusive(inquiry.name(*id, place)),
        },
        (_, _) => None,
    }
}

/// The name, held Exclusive.
fn exclusive(name: Option<LockName>) -> Option<Lock>
    ensures { result ≡ exclusive_lock name }
{
    Some(Lock {
        name: name?,
        kind: LockKind::Exclusive,
    })
}

/// Of the one queue of an id, the lock at this place.
fn queue_lock(id: u32, kind: LockKind, place: usize) -> Option<Lock>
    ensures { result ≡ slice_get (queue_for id kind) place }
{
    match place {
        0 => Some(Lock {
            name: LockName::Queue(id),
            kind,
        }),
        _ => None,
    }
}
