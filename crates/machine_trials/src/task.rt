//! The work that a seat has begun, the value that is lent to it, and the lock of its record.

ghost use Rattle.std.specs.Prelude.{◌≡◌, Some, []};
ghost use Rattle.page_locks.specs.Table.{IsSeat, row_of};
ghost use Rattle.file_pages.specs.Files.{IsReady};
ghost use Rattle.machine_trials.specs.Seats.{Follows, Holds, IsBegun, IsGuard};

use crate::work::Work;
use bucket_page::{PseudoKey, RecordKey};
use buffer_pool::Pool;
use file_pages::FileFault;
use page_device::PageDevice;
use page_locks::{Grant, LockKind, LockName, LockTable};
use step_rules::Progress;

/// The bytes of the longest value that is lent.
pub const MAX_VALUE_BYTES: usize = 1060;

/// A value of so many bytes, each of which is the mark. No more than `MAX_VALUE_BYTES` are lent.
#[derive(Clone, Copy)]
pub struct Value {
    pub mark: u8,
    pub bytes: usize,
}

/// The work on a record.
#[derive(Drop)]
pub struct Task {
    work: Work,
    value: Value,
    /// The lock of the record, until it was told that the work had ended.
    guard: Option<LockName>,
}

/// The lock of a record: that of the Counter or of a queue.
fn guard_of(key: &RecordKey) -> LockName
    ensures { IsGuard result }
{
    if key.kind == 1 {
        return LockName::Counter;
    }
    LockName::Queue(key.queue)
}

impl Task {
    /// Work on the record of a key, where its seat, which holds nothing, was granted the lock of
    /// that record.
    pub fn begin(
        locks: &mut LockTable,
        seat: u8,
        key: &RecordKey,
        work: Work,
        value: Value,
    ) -> Option<Task>
        requires seat { IsSeat locks.old seat }
        requires idle { row_of locks.old seat ≡ [] }
        requires begun { IsBegun work }
        ensures { Follows seat locks.old result locks.new }
    {
        let guard = guard_of(key);
        if locks.try_grant(seat, guard, LockKind::Exclusive) != Grant::Granted {
            return None;
        }
        Some(Task {
            work,
            value: Value {
                mark: value.mark,
                bytes: value.bytes.min(MAX_VALUE_BYTES),
            },
            guard: Some(guard),
        })
    }

    /// One step. At the end of the work the lock of the record is given back.
    pub fn step<D: PageDevice, K: PseudoKey>(
        &mut self,
        pool: &mut Pool<D>,
        locks: &mut LockTable,
        keys: &K,
        seat: u8,
    ) -> Progress<FileFault>
        requires seat { IsSeat locks.old seat }
        requires ready { IsReady pool.old }
        requires holds { Holds (Some self.old) (row_of locks.old seat) }
        ensures ready { IsReady pool.new }
        ensures follows { Follows seat locks.old (Some self.new) locks.new }
    {
        let Some(guard) = self.guard else {
            return Progress::Ended;
        };
        let value = [self.value.mark; MAX_VALUE_BYTES];
        let lent = &value[..self.value.bytes];
        let did = self.work.step(pool, locks, keys, seat, lent);
        if matches!(did, Progress::Ended) {
            locks.release(seat, guard);
            self.guard = None;
        }
        did
    }

    /// All steps of its work, in one go, where that can make them so, and whether it has made them.
    pub fn write_through<D: PageDevice>(
        &mut self,
        pool: &mut Pool<D>,
        locks: &LockTable,
        seat: u8,
    ) -> Result<bool, FileFault>
        requires seat { IsSeat locks.now seat }
        requires ready { IsReady pool.old }
        requires holds { Holds (Some self.old) (row_of locks.now seat) }
        ensures ready { IsReady pool.new }
        ensures follows { Follows seat locks.now (Some self.new) locks.now }
    {
        let Some(_) = self.guard else {
            return Ok(false);
        };
        self.work.write_through(pool, locks, seat)
    }

    /// The work.
    pub fn work(&self) -> &Work {
        &self.work
    }
}
