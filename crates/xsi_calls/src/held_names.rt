//! The names that a call holds.

ghost use Rattle.std.specs.Prelude.{◌≡◌, ◌↔◌, [], ◌∷◌, ◌++◌, IfSome, IsTrue, Some, None};
ghost use Rattle.page_locks.specs.Table.{IsSeat, row_of, with_row};
ghost use Rattle.step_rules.specs.Turns.{ForLock};
ghost use Rattle.call_writes.specs.call_decisions.NameLaws.{AreNames};
ghost use Rattle.call_writes.specs.call_decisions.Names.{names_for};
ghost use Rattle.xsi_calls.specs.NameSteps.{GivesBack, MakesNameStep, Takes};
ghost use Rattle.xsi_calls.specs.NameTurns.{is_there, name_turn};

use crate::turn::NameTurn;
use arrayvec::ArrayVec;
use call_writes::{AnyInquiry, MAX_NAMES, name_at};
use file_pages::FileFault;
use page_locks::{Grant, Lock, LockKind, LockName, LockTable};
use queue_model::Call;
use std::marker::Model;
use step_rules::{Kind, Progress};

/// The names that a call holds, in the order in which it took them, each with its kind.
#[derive(Drop)]
pub struct HeldNames {
    locks: ArrayVec<Lock, MAX_NAMES>,
}

impl Model for HeldNames {
    ghost use Rattle.std.specs.Prelude.{List};
    ghost use Rattle.page_locks.specs.declared.lock.Lock.{Lock};
    ghost use Rattle.call_writes.specs.call_decisions.NameLaws.{AreNames};

    ghost Value = { List Lock };

    ghost view = { λ h. h.locks.items };

    ghost invariant = { λ h. AreNames h.locks.items };
}

impl HeldNames {
    /// No name.
    pub fn new() -> HeldNames
        ensures { result ≡ [] }
    {
        HeldNames {
            locks: ArrayVec::new(),
        }
    }

    /// Whether no name is held.
    pub fn is_empty(&self) -> bool
        ensures { IsTrue result ↔ (self.now ≡ []) }
    {
        self.locks.is_empty()
    }

    /// They stand in the order of names, each once and at most three, none of them the directory
    /// or a page.
    pub fn keep_order(&self)
        ensures { AreNames self.now }
    {
        let _ = &self.locks;
    }

    /// What the call does with names before it asks, inserts or writes where its inquiry has come. It
    /// stands in whoever asks, since most calls are ready by one comparison.
    #[inline(always)]
    pub fn turn(&self, call: &Call, inquiry: &AnyInquiry) -> NameTurn
        ensures { result ≡ name_turn self.now (names_for call.now inquiry.now) }
    {
        let held = self.locks.as_slice();
        // Most calls hold exactly the name of their queue, and need no other.
        if held.len() == 1 {
            if is_there(only_name(call, inquiry), held[0]) {
                return NameTurn::Ready;
            }
        }
        self.turn_by_places(call, inquiry)
    }

    /// The turn, by each place at which a name is held or needed.
    #[inline(always)]
    fn turn_by_places(&self, call: &Call, inquiry: &AnyInquiry) -> NameTurn
        ensures { result ≡ name_turn self.now (names_for call.now inquiry.now) }
    {
        let held = self.locks.as_slice();
        for (place, lock) in held.iter().enumerate() {
            if !is_there(name_at(call, inquiry, place), *lock) {
                return NameTurn::GiveBack;
            }
        }
        match name_at(call, inquiry, held.len()) {
            Some(lock) => NameTurn::Take(lock),
            None => NameTurn::Ready,
        }
    }

    /// One step: this lock is asked for.
    pub fn take(&mut self, locks: &mut LockTable, seat: u8, lock: Lock) -> Progress<FileFault>
        requires seat { IsSeat locks.old seat }
        requires row { row_of locks.old seat ≡ self.old }
        requires next { AreNames (self.old ++ lock ∷ []) }
        // whatever the device gives
        ensures takes { Takes result seat lock locks.old self.old self.new }
        ensures row { locks.new ≡ with_row locks.old seat self.new }
        // on an honest device, in a sound world
        ensures step { MakesNameStep seat (Some (ForLock lock.name lock.kind)) result
            locks.old locks.new }
    {
        match locks.try_grant(seat, lock.name, lock.kind) {
            Grant::Granted => {
                self.locks.push(lock);
                Progress::Moved(Kind::Grant)
            }
            Grant::Blocked(other) => Progress::Blocked(other),
        }
    }

    /// One step: the name that was taken last is given back. Where none is held it has ended.
    pub fn give_back(&mut self, locks: &mut LockTable, seat: u8) -> Progress<FileFault>
        requires seat { IsSeat locks.old seat }
        requires row { row_of locks.old seat ≡ self.old }
        // whatever the device gives
        ensures gives { GivesBack result self.old self.new }
        ensures row { locks.new ≡ with_row locks.old seat self.new }
        // on an honest device, in a sound world
        ensures step { MakesNameStep seat None result locks.old locks.new }
    {
        let Some(last) = self.locks.pop() else {
            return Progress::Ended;
        };
        locks.release(seat, last.name);
        Progress::Moved(Kind::Release)
    }
}

/// Whether the lock that was found is this one.
#[inline(always)]
fn is_there(found: Option<Lock>, lock: Lock) -> bool
    ensures { result ≡ is_there found lock }
{
    found == Some(lock)
}

/// The lock of a call that needs no other, wherever its inquiry has come: on its queue.
#[inline(always)]
fn only_name(call: &Call, inquiry: &AnyInquiry) -> Option<Lock>
    ensures { IfSome result (λ lock. names_for call.now inquiry.now ≡ lock ∷ []) }
{
    let (id, kind) = match (call, inquiry) {
        (Call::Send(send), AnyInquiry::Send(_)) => (send.id, LockKind::Exclusive),
        (Call::Receive(receive), AnyInquiry::Receive(_)) => (receive.id, LockKind::Exclusive),
        (Call::Stat { id }, AnyInquiry::Stat(_)) => (*id, LockKind::Read),
        (Call::Set(set), AnyInquiry::Set(_)) => (set.id, LockKind::Exclusive),
        (_, _) => return None,
    };
    Some(Lock {
        name: LockName::Queue(id),
        kind,
    })
}
