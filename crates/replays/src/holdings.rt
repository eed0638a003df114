//! What seats hold, as it is seen after each of their events.

ghost use Rattle.std.specs.Prelude.{◌≡◌, ◌≢◌, ◌-◌, IfSome, Some, length, slice_get};
ghost use Rattle.page_locks.specs.Table.{IsSeat, held, row_of};

use page_locks::{Lock, LockKind, LockName, LockTable, MAX_LOCKS, MAX_SEATS};
use std::alloc::{AllocError, Global};

/// A lock, and the seat that holds it.
#[derive(Clone, Copy, PartialEq, Eq)]
pub(crate) struct Holding {
    pub(crate) seat: u8,
    pub(crate) lock: Lock,
}

/// What became of the locks of a seat by an event.
#[derive(Clone, Copy)]
pub(crate) struct LockChange {
    /// The lock that it no longer holds in that kind.
    pub(crate) lost: Option<Lock>,
    /// The lock that it was granted.
    pub(crate) gained: Option<Lock>,
}

/// The locks that seats hold, each seat's in the order in which they were granted.
#[derive(Drop)]
pub(crate) struct Holdings {
    all: Vec<Holding>,
}

impl Holdings {
    /// No seat holds a lock. Memory for all that they may hold is taken here.
    pub(crate) fn new(alloc: Global) -> Result<Holdings, AllocError> {
        let most = usize::from(MAX_SEATS) * MAX_LOCKS;
        Ok(Holdings {
            all: Vec::with_capacity(alloc, most)?,
        })
    }

    /// What all seats hold.
    pub(crate) fn as_slice(&self) -> &[Holding] {
        self.all.as_slice()
    }

    /// The lock that a seat was granted last, of those that it holds.
    pub(crate) fn last(&self, seat: u8) -> Option<Lock> {
        let held = self.all.iter().rfind(|holding| holding.seat == seat)?;
        Some(held.lock)
    }

    /// What became of the locks of a seat by its last event, which is to be seen after each: it
    /// changes one lock, or takes one in the place of another.
    pub(crate) fn follow(&mut self, seat: u8, locks: &LockTable) -> LockChange
        ensures lost { IfSome result.lost (λ lost.
            held locks.now seat lost.name ≢ Some lost.kind) }
        ensures gained { IfSome result.gained (λ gained.
            Some gained ≡ slice_get (row_of locks.now seat) (length (row_of locks.now seat) - 1)) }
    {
        if seat == 0 || seat > locks.seats() {
            return LockChange {
                lost: None,
                gained: None,
            };
        }
        let lost = self.take_lost(seat, locks);
        let gained = self.put_gained(seat, locks);
        LockChange { lost, gained }
    }

    /// Takes out the lock that a seat no longer holds in its kind.
    fn take_lost(&mut self, seat: u8, locks: &LockTable) -> Option<Lock>
        requires { IsSeat locks.now seat }
        ensures { IfSome result (λ lost. held locks.now seat lost.name ≢ Some lost.kind) }
    {
        let place = self.all.iter().position(|holding| {
            holding.seat == seat && locks.holds(seat, holding.lock.name) != Some(holding.lock.kind)
        })?;
        Some(self.all.remove(place).lock)
    }

    /// Puts in the lock that a seat was granted last, where that is new.
    fn put_gained(&mut self, seat: u8, locks: &LockTable) -> Option<Lock>
        requires { IsSeat locks.now seat }
        ensures { IfSome result (λ gained.
            Some gained ≡ slice_get (row_of locks.now seat) (length (row_of locks.now seat) - 1)) }
    {
        let lock = locks.last(seat)?;
        let holding = Holding { seat, lock };
        if self.all.contains(&holding) {
            return None;
        }
        self.all.push(holding).ok()?;
        Some(lock)
    }
}

/// Whether a lock may stand in the way of a seat that holds this one last, or none.
pub(crate) fn may_block(lock: Lock, last: Option<Lock>) -> bool {
    match (lock.kind, may_ask(last, lock.name)) {
        (_, None) => false,
        (LockKind::Read, Some(kind)) => kind == LockKind::Exclusive,
        (LockKind::Selective, Some(kind)) => kind != LockKind::Read,
        (LockKind::Exclusive, Some(_)) => true,
    }
}

/// The strongest kind in which a seat that holds this lock last may ask for the name, by the order
/// in which calls and searches take their locks (docs/STEPS.md).
fn may_ask(last: Option<Lock>, name: LockName) -> Option<LockKind> {
    let Some(Lock { name: last, kind }) = last else {
        return match name {
            LockName::Key(_) | LockName::Counter | LockName::Queue(_) => Some(LockKind::Exclusive),
            LockName::Directory | LockName::Page(_) => None,
        };
    };
    match (last, name) {
        (LockName::Key(_), LockName::Counter) | (LockName::Counter, LockName::Queue(_)) => {
            Some(LockKind::Exclusive)
        }
        // records are only read before the call has its last name, which is its queue's
        (LockName::Key(_) | LockName::Counter, LockName::Directory) => Some(LockKind::Read),
        (LockName::Queue(_), LockName::Directory) => Some(LockKind::Selective),
        (LockName::Directory, LockName::Directory) => match kind {
            LockKind::Selective => Some(LockKind::Exclusive),
            LockKind::Read | LockKind::Exclusive => None,
        },
        (LockName::Directory, LockName::Page(_)) => match kind {
            LockKind::Read | LockKind::Selective => Some(LockKind::Selective),
            LockKind::Exclusive => Some(LockKind::Exclusive),
        },
        (LockName::Page(_), LockName::Page(_)) => Some(kind),
        _ => None,
    }
}
