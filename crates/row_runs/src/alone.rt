//! One call at a time, each as the machine that it is, with no kernel beside it: how many searches it
//! begins before its Decide.

use crate::keys::Keys;
use crate::line::Line;
use buffer_pool::Pool;
use page_device::{MemDevice, PageDevice};
use page_locks::{Lock, LockKind, LockName, LockTable};
use queue_model::{Call, Caller, NoMemory};
use std::alloc::Global;
use std::marker::Model;
use step_rules::{Kind, Progress};
use xsi_calls::CallMachine;
use xsi_inquiry::Room;

/// More steps than any call of a row makes.
const MOST_STEPS: u32 = 100_000;

/// What a search asks for first, and nothing else does.
const DIRECTORY: Lock = Lock {
    name: LockName::Directory,
    kind: LockKind::Read,
};

/// What is seen of a call between two of its steps.
#[derive(Clone, Copy)]
struct Seen {
    has_concluded: bool,
    /// How many searches it has begun.
    finds: u32,
    /// Whether it holds a lock, and whether the last one is what a search asks for first.
    has_lock: bool,
    has_directory: bool,
}

/// A call over the pages of a file, of which the one seat holds what the call says.
#[derive(Drop)]
pub struct Alone {
    pool: Pool<MemDevice>,
    locks: LockTable,
    machine: CallMachine,
}

impl Model for Alone {
    ghost use Rattle.xsi_calls.specs.Machine.{CallView};
    ghost use Rattle.row_runs.specs.Alone.{IsAlone};

    ghost Value = { CallView };

    ghost view = { λ a. a.machine };

    ghost invariant = { λ a. IsAlone a.pool a.locks a.machine };
}

impl Alone {
    /// The file of a device, and a call that is refused before it asks for anything.
    pub fn new(alloc: Global, device: MemDevice, caller: Caller) -> Result<Alone, NoMemory> {
        let call = Call::Stat { id: 0 };
        let room = Room::new(alloc, &call)?;
        let locks = LockTable::new(alloc, 1)?;
        let frames = device.pages() as usize;
        match Pool::open(alloc, device, frames.max(4)) {
            Ok(pool) => Ok(Alone {
                pool,
                locks,
                machine: CallMachine::new(caller, call, room),
            }),
            Err(_) => Err(NoMemory),
        }
    }

    /// The next call, in the place of one that is over.
    pub fn begin(&mut self, alloc: Global, caller: Caller, call: Call) -> Result<(), NoMemory> {
        let room = Room::new(alloc, &call)?;
        let locks = LockTable::new(alloc, 1)?;
        self.locks = locks;
        self.machine.renew(caller, call, room);
        Ok(())
    }

    /// Makes the call to its end, and tells how many searches it has begun before its Decide: after
    /// each of its steps it tells as many as were seen so far.
    pub fn run(&mut self, keys: Keys, line: &mut Line) {
        let mut searches: u32 = 0;
        let mut before = self.seen();
        for _ in 0..MOST_STEPS {
            let Some(kind) = self.step(keys) else {
                break;
            };
            let seen = self.seen();
            if !before.has_concluded && kind == Kind::Grant && seen.has_directory {
                searches = searches.saturating_add(1);
            }
            if seen.finds != searches {
                line.word("miscounted");
            }
            before = seen;
        }
        let seen = self.seen();
        if !seen.has_concluded || seen.has_lock {
            line.word("unended");
        }
        line.number(u64::from(searches));
        line.word("searches");
    }

    /// What is seen of it now.
    fn seen(&self) -> Seen {
        let last = self.locks.last(1);
        Seen {
            has_concluded: self.machine.has_concluded(),
            finds: self.machine.finds(),
            has_lock: last.is_some(),
            has_directory: last == Some(DIRECTORY),
        }
    }

    /// The kind of its next step; none where it makes none.
    fn step(&mut self, keys: Keys) -> Option<Kind> {
        match self
            .machine
            .step(&mut self.pool, &mut self.locks, &keys, false, 1)
        {
            Progress::Moved(kind) => Some(kind),
            _ => None,
        }
    }
}
