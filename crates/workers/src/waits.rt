//! How the threads of a service wait: for the latch, for a lock, and for a call on a queue.

use crate::gate::Gate;
use crate::held::Held;
use crate::naming::Base;
use crate::pass::Room;
use crate::service::Service;
use crate::sleepers::Sleepers;
use bucket_page::PseudoKey;
use page_device::PageDevice;
use std::sync::{Condvar, MutexGuard, Wait};
use std::thread;
use std::time::Duration;

/// How often a thread looks for the latch before it sleeps.
const LOOKS: u32 = 100;

/// How often a call makes its step again, which is blocked or waits, before its seat sleeps.
const TRIES: u32 = 6;

/// A pause has two to the power of so many yields at most.
const LONGEST: u32 = 4;

/// What is left of the patience of a thread: in each pause it lets others go on, for longer than
/// in the one before.
#[derive(Clone, Copy, Drop)]
pub(crate) struct Patience {
    pauses: u32,
}

impl Patience {
    pub(crate) fn new() -> Patience {
        Patience { pauses: 0 }
    }

    /// Whether the thread is to sleep now.
    pub(crate) fn is_over(&self) -> bool {
        self.pauses >= TRIES
    }

    /// Lets others go on for a while.
    fn pause(&mut self) {
        for _ in 0..1u32 << self.pauses.min(LONGEST) {
            thread::yield_now();
        }
        self.pauses = self.pauses.saturating_add(1);
    }
}

impl<D: PageDevice + Drop, K: PseudoKey + Drop, G: Gate, N: Room + Base> Service<D, K, G, N> {
    /// The latch, once it is free. A thread looks for it for a while before it sleeps, since a hold
    /// is short, and looks seldom: then another seldom takes over from one that goes on at once,
    /// and what that has at hand in its processor seldom goes to another.
    pub(crate) fn hold<R: Wait>(&self, rt: &R) -> MutexGuard<'_, Held<D, K, N>> {
        let mut patience = Patience::new();
        for _ in 0..LOOKS {
            if let Some(held) = self.latch.try_lock() {
                return held;
            }
            patience.pause();
        }
        self.latch.lock(rt)
    }

    /// Lets the latch go, and wakes those who are to be woken.
    pub(crate) fn let_go(&self, held: MutexGuard<'_, Held<D, K, N>>) {
        let mut held = held;
        let due = held.take_due();
        drop(held);
        self.signals.rouse(due);
    }

    /// A seat that was blocked by another lets others go on for a while, and then sleeps until that
    /// one gives a lock back.
    pub(crate) fn await_lock<R: Wait>(
        &self,
        rt: &R,
        held: MutexGuard<'_, Held<D, K, N>>,
        seat: u8,
        by: u8,
        patience: &mut Patience,
    ) {
        if patience.is_over() {
            let among = held.blocked_by(seat, by);
            self.sleep(rt, held, self.signals.freed(by), among, Duration::MAX);
        } else {
            self.pause(held, patience);
        }
    }

    /// A seat whose call on a queue waits lets others go on for a while, and then sleeps until a
    /// call on this queue is over, but for so long at most.
    pub(crate) fn await_call<R: Wait>(
        &self,
        rt: &R,
        held: MutexGuard<'_, Held<D, K, N>>,
        queue: Option<u32>,
        patience: &mut Patience,
        most: Duration,
    ) {
        if patience.is_over() {
            let among = Sleepers::waiting_on(queue);
            self.sleep(rt, held, self.signals.decided(queue), among, most);
        } else {
            self.pause(held, patience);
        }
    }

    /// Lets the latch go, and sleeps until this signal is given, but for so long at most. It is
    /// noted among whom. A signal that is given once the latch is free is not missed.
    fn sleep<R: Wait>(
        &self,
        rt: &R,
        held: MutexGuard<'_, Held<D, K, N>>,
        signal: &Condvar,
        among: Sleepers,
        most: Duration,
    ) {
        let mut held = held;
        held.note(among);
        let seen = signal.notifications();
        self.let_go(held);
        signal.sleep(rt, seen, most);
    }

    /// Lets the latch go, and then others go on for a while.
    fn pause(&self, held: MutexGuard<'_, Held<D, K, N>>, patience: &mut Patience) {
        self.let_go(held);
        patience.pause();
    }

    /// A step has failed, or a call has no room: lets the latch go, and wakes all that sleep.
    pub(crate) fn rouse_all(&self, held: MutexGuard<'_, Held<D, K, N>>) {
        let mut held = held;
        held.wake(Sleepers::all());
        self.let_go(held);
    }
}
