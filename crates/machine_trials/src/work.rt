//! What a seat is at: an operation on a record, an access to a record of queues, or a search alone.

ghost use Rattle.std.specs.Prelude.{◌≡◌, ℕ, List, length};
ghost use Rattle.page_locks.specs.declared.lock.Lock.{Lock};
ghost use Rattle.page_locks.specs.Table.{IsSeat, row_of, with_row};
ghost use Rattle.file_pages.specs.Files.{IsReady};
ghost use Rattle.queue_records.specs.Range.{IsInRange};
ghost use Rattle.stale_search.specs.Rows.{EndsRow, HasNoFileLock};
ghost use Rattle.record_file.specs.OperationSteps.{MakesOperation};
ghost use Rattle.record_file.specs.Operations.{MayBeLent, operation_locks};
ghost use Rattle.xsi_inquiry.specs.Writing.{HasRange};
ghost use Rattle.machine_trials.specs.Seats.{IsBegun, MayLend, MOST_LOCKS, work_locks};

use bucket_page::{PseudoKey, RecordKey};
use buffer_pool::Pool;
use file_pages::FileFault;
use page_device::PageDevice;
use page_locks::{LockKind, LockTable};
use queue_records::Record;
use record_file::{Access, Deed, InsertStage, RecordOperation, Tried};
use stale_search::{Search, SearchPlace};
use step_rules::Progress;
use xsi_inquiry::Write;

/// An operation on a record, an access, or a search that stays on the page that answers.
#[derive(Drop)]
pub enum Work {
    Operation(RecordOperation),
    Access(Access),
    Search(Search),
}

impl Work {
    /// A search for a key of this pseudokey, that locks pages Read.
    pub fn search(key: RecordKey, pseudokey: u32) -> Work
        ensures { IsBegun result }
    {
        Work::Search(Search::new(key, pseudokey, LockKind::Read))
    }

    /// An access that finds the record of a key of this pseudokey.
    pub fn access(key: RecordKey, pseudokey: u32) -> Work
        ensures { IsBegun result }
    {
        Work::Access(Access::find(key, pseudokey))
    }

    /// An access that inserts a record whose key has this pseudokey.
    pub fn put(entry: &Record<'_>, pseudokey: u32) -> Work
        requires { IsInRange entry.now }
        ensures { IsBegun result }
    {
        Work::Access(Access::insert(entry, pseudokey))
    }

    /// An access that writes at a key of this pseudokey.
    pub fn write(write: &Write, pseudokey: u32) -> Work
        requires { HasRange write.now }
        ensures { IsBegun result }
    {
        Work::Access(Access::write(write, pseudokey))
    }

    /// One step. A value is lent to it; of an access and of a search nothing is read of that.
    pub fn step<D: PageDevice, K: PseudoKey>(
        &mut self,
        pool: &mut Pool<D>,
        locks: &mut LockTable,
        keys: &K,
        seat: u8,
        value: &[u8],
    ) -> Progress<FileFault>
        requires seat { IsSeat locks.old seat }
        requires ready { IsReady pool.old }
        requires row { EndsRow (work_locks self.old) MOST_LOCKS (row_of locks.old seat) }
        requires lent { MayLend (length value.now) self.old }
        ensures ready { IsReady pool.new }
        ensures lent { MayLend (length value.now) self.new }
        ensures row { (before : List Lock) → HasNoFileLock before →
            row_of locks.old seat ≡ work_locks self.old before →
            locks.new ≡ with_row locks.old seat (work_locks self.new before) }
    {
        match self {
            Work::Operation(operation) => step_operation(operation, pool, locks, keys, seat, value),
            Work::Access(access) => access.step(pool, locks, keys, seat),
            Work::Search(search) => search.step(pool, locks, seat),
        }
    }

    /// All steps of an access that writes, in one go, where it can make them so, and whether it has
    /// made them. Others make none so.
    pub fn write_through<D: PageDevice>(
        &mut self,
        pool: &mut Pool<D>,
        locks: &LockTable,
        seat: u8,
    ) -> Result<bool, FileFault>
        requires seat { IsSeat locks.now seat }
        requires ready { IsReady pool.old }
        requires row { EndsRow (work_locks self.old) MOST_LOCKS (row_of locks.now seat) }
        ensures ready { IsReady pool.new }
        ensures lent { (bytes : ℕ) → MayLend bytes self.old → MayLend bytes self.new }
        ensures row { (before : List Lock) → HasNoFileLock before →
            row_of locks.now seat ≡ work_locks self.old before →
            locks.now ≡ with_row locks.now seat (work_locks self.new before) }
    {
        match self {
            Work::Access(access) => access.write_through(pool, locks, seat),
            _ => Ok(false),
        }
    }

    /// What an access has found at its key, once a page answered.
    pub fn told(&self) -> Option<Option<Record<'_>>> {
        match self {
            Work::Access(access) => access.found(),
            _ => None,
        }
    }

    /// What an insert came to.
    pub fn tried(&self) -> Option<Tried> {
        match self {
            Work::Operation(operation) => operation.tried(),
            _ => None,
        }
    }

    /// The page that answered, and the length of the value there. An insert and an access tell none.
    pub fn found(&self) -> Option<(u32, Option<usize>)> {
        match self {
            Work::Operation(operation) => operation.found(),
            Work::Access(_) => None,
            Work::Search(search) => match search.place() {
                SearchPlace::Found(page, bytes) => Some((page, bytes)),
                _ => None,
            },
        }
    }

    /// The hops of a search alone.
    pub fn hops(&self) -> Option<u64> {
        match self {
            Work::Search(search) => Some(search.hops()),
            _ => None,
        }
    }
}

/// One step of an operation, by the machine of its kind. Of the value a find or a delete reads
/// nothing.
fn step_operation<D: PageDevice, K: PseudoKey>(
    operation: &mut RecordOperation,
    pool: &mut Pool<D>,
    locks: &mut LockTable,
    keys: &K,
    seat: u8,
    value: &[u8],
) -> Progress<FileFault>
    requires seat { IsSeat locks.old seat }
    requires ready { IsReady pool.old }
    requires row { EndsRow (operation_locks operation.old) MOST_LOCKS (row_of locks.old seat) }
    requires lent { MayBeLent (length value.now) operation.old }
    ensures { MakesOperation (K.of_key keys.now) seat value.now result operation.old operation.new
        pool.old pool.new locks.old locks.new }
{
    match operation {
        RecordOperation::Find(find) => find.step(Deed::Find, pool, locks, seat, value),
        RecordOperation::Insert(insert) => match &mut insert.stage {
            InsertStage::First(first, _) => {
                let did = first.step(Deed::Put, pool, locks, seat, value);
                insert.stage.note(did, insert.key, insert.pseudokey, value);
                did
            }
            InsertStage::Second(second) => second.step(pool, locks, keys, seat, value),
        },
        RecordOperation::Replace(replace) => replace.step(Deed::Replace, pool, locks, seat, value),
        RecordOperation::Delete(delete) => match delete.removal.ended() {
            None => delete.removal.step(Deed::Remove, pool, locks, seat, value),
            Some(true) => delete.merge.step(pool, locks, seat),
            Some(false) => Progress::Ended,
        },
    }
}
