//! The locks of one seat.

ghost use Rattle.std.specs.Prelude.{◌≡◌, ◌<◌, ◌-◌, [], ◌∷◌, ◌++◌, length, slice_get};
ghost use Rattle.std.specs.List.{position};
ghost use Rattle.page_locks.specs.Locks.{kind_of, is_on, without, converted, HasNoNameTwice};

use crate::lock::{Lock, LockKind, LockName};
use arrayvec::ArrayVec;
use std::marker::Model;

/// The most locks that a seat holds at once.
pub const MAX_LOCKS: usize = 8;

/// The locks of one seat, in the order in which they were granted.
#[derive(Drop)]
pub struct Row {
    locks: ArrayVec<Lock, MAX_LOCKS>,
}

impl Model for Row {
    ghost use Rattle.std.specs.Prelude.{List};
    ghost use Rattle.page_locks.specs.declared.lock.Lock.{Lock};

    ghost Value = { List Lock };

    ghost view = { λ r. r.locks.items };
}

impl Row {
    /// No lock.
    pub fn new() -> Row
        ensures { result ≡ [] }
    {
        Row {
            locks: ArrayVec::new(),
        }
    }

    /// How many locks there are.
    pub fn len(&self) -> usize
        ensures { result ≡ length self.now }
    {
        self.locks.len()
    }

    /// The lock that was granted last, of those that there are.
    pub fn last(&self) -> Option<Lock>
        ensures { result ≡ slice_get self.now (length self.now - 1) }
    {
        self.locks.as_slice().last().copied()
    }

    /// The kind in which the name is held.
    pub fn kind_of(&self, name: LockName) -> Option<LockKind>
        ensures { result ≡ kind_of self.now name }
    {
        for lock in self.locks.as_slice() {
            if lock.is_on(name) {
                return Some(lock.kind);
            }
        }
        None
    }

    /// Puts a lock last.
    pub fn push(&mut self, lock: Lock)
        requires { length self.old < MAX_LOCKS }
        ensures { self.new ≡ self.old ++ lock ∷ [] }
    {
        self.locks.push(lock);
    }

    /// Takes out the lock on a name, if there is one.
    pub fn remove(&mut self, name: LockName)
        requires once { HasNoNameTwice self.old }
        ensures { self.new ≡ without self.old name }
    {
        if let Some(place) = place_of(self.locks.as_slice(), name) {
            self.locks.remove(place);
        }
    }

    /// Changes the kind in which a name is held.
    pub fn convert(&mut self, name: LockName, kind: LockKind)
        ensures { self.new ≡ converted self.old name kind }
    {
        for lock in self.locks.iter_mut() {
            lock.convert(name, kind);
        }
    }
}

/// The first lock on a name.
fn place_of(locks: &[Lock], name: LockName) -> Option<usize>
    ensures { result ≡ position (is_on name) locks.now }
{
    locks.iter().position(|lock| lock.is_on(name))
}
