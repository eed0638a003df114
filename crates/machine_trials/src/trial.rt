//! Seats at machines over one pool and one table of locks.

ghost use Rattle.std.specs.Prelude.{IfOk};
ghost use Rattle.file_pages.specs.Files.{IsReady};
ghost use Rattle.queue_records.specs.Range.{IsInRange};
ghost use Rattle.xsi_inquiry.specs.Writing.{HasRange};
ghost use Rattle.machine_trials.specs.Seats.{AreIdle, IsBegun};

use crate::task::{Task, Value};
use crate::work::Work;
use bucket_page::{PseudoKey, RecordKey};
use buffer_pool::{Pool, PoolFault};
use file_pages::FileFault;
use page_device::{PageDevice, Payload};
use page_locks::{Lock, LockTable, MAX_SEATS};
use queue_records::Record;
use record_file::{BucketAccess, Deed, RecordOperation, Tried, record_ahead};
use std::alloc::Global;
use std::marker::Model;
use step_rules::Progress;
use xsi_inquiry::Write;

/// The frames that a pool of a trial has at least.
const LEAST_FRAMES: usize = 4;

/// The value of an operation that puts none.
const NO_VALUE: Value = Value { mark: 0, bytes: 0 };

/// Seats at machines. Each operation has a seat of its own.
#[derive(Drop)]
pub struct Trial<D: PageDevice, K: PseudoKey> {
    pool: Pool<D>,
    locks: LockTable,
    keys: K,
    seats: Vec<Option<Task>>,
    begun: u8,
}

impl<D: PageDevice, K: PseudoKey> Model for Trial<D, K> {
    ghost use Rattle.std.specs.Prelude.{ℕ};
    ghost use Rattle.machine_trials.specs.Seats.{IsTrial};

    ghost Value = { ℕ };

    ghost view = { λ t. t.begun };

    ghost invariant = { λ t. IsTrial t.pool t.locks t.seats.items };
}

impl<D: PageDevice + Drop, K: PseudoKey + Drop> Trial<D, K> {
    /// A trial of the file on a device, with so many frames. All seats are idle.
    pub fn open(
        alloc: Global,
        device: D,
        frames: usize,
        keys: K,
    ) -> Result<Trial<D, K>, PoolFault> {
        let locks = match LockTable::new(alloc, MAX_SEATS) {
            Ok(locks) => locks,
            Err(_) => return Err(PoolFault::NoMemory),
        };
        let seats = match idle_seats(alloc) {
            Ok(seats) => seats,
            Err(_) => return Err(PoolFault::NoMemory),
        };
        match Pool::open(alloc, device, frames.max(LEAST_FRAMES)) {
            Ok(pool) => Ok(Trial {
                pool,
                locks,
                keys,
                seats,
                begun: 0,
            }),
            Err((_, fault)) => Err(fault),
        }
    }

    /// How many seats are idle.
    pub fn idle(&self) -> u8 {
        self.locks.seats().saturating_sub(self.begun)
    }

    /// All seats are idle again, and no lock is held.
    pub fn renew(&mut self, alloc: Global) -> Result<(), PoolFault> {
        let locks = match LockTable::new(alloc, MAX_SEATS) {
            Ok(locks) => locks,
            Err(_) => return Err(PoolFault::NoMemory),
        };
        let seats = match idle_seats(alloc) {
            Ok(seats) => seats,
            Err(_) => return Err(PoolFault::NoMemory),
        };
        self.locks = locks;
        self.seats = seats;
        self.begun = 0;
        Ok(())
    }

    /// The seat that has begun to find a record. As of each operation it is none where another seat
    /// holds the lock of that record, or no seat is idle.
    pub fn find(&mut self, key: RecordKey) -> Option<u8> {
        let operation = RecordOperation::find(key, self.keys.of(&key));
        self.begin(&key, Work::Operation(operation), NO_VALUE)
    }

    /// The seat that has begun to insert a record of this value.
    pub fn insert(&mut self, key: RecordKey, value: Value) -> Option<u8> {
        let operation = RecordOperation::insert(key, self.keys.of(&key));
        self.begin(&key, Work::Operation(operation), value)
    }

    /// The seat that has begun to replace the first bytes of a record's value by this one.
    pub fn replace(&mut self, key: RecordKey, value: Value) -> Option<u8> {
        let operation = RecordOperation::replace(key, self.keys.of(&key));
        self.begin(&key, Work::Operation(operation), value)
    }

    /// The seat that has begun to delete a record.
    pub fn delete(&mut self, key: RecordKey) -> Option<u8> {
        let operation = RecordOperation::delete(key, self.keys.of(&key));
        self.begin(&key, Work::Operation(operation), NO_VALUE)
    }

    /// The seat that has begun an access that finds a record.
    pub fn ask(&mut self, key: RecordKey) -> Option<u8> {
        let access = Work::access(key, self.keys.of(&key));
        self.begin(&key, access, NO_VALUE)
    }

    /// The seat that has begun an access that inserts a record of queues.
    pub fn put(&mut self, entry: &Record<'_>) -> Option<u8>
        requires { IsInRange entry.now }
    {
        let key = entry.key();
        let access = Work::put(entry, self.keys.of(&key));
        self.begin(&key, access, NO_VALUE)
    }

    /// The seat that has begun an access that writes at this key.
    pub fn write(&mut self, key: RecordKey, write: &Write) -> Option<u8>
        requires { HasRange write.now }
    {
        let access = Work::write(write, self.keys.of(&key));
        self.begin(&key, access, NO_VALUE)
    }

    /// The seat that has begun a search alone, which stays on the page that answers.
    pub fn search(&mut self, key: RecordKey) -> Option<u8> {
        let search = Work::search(key, self.keys.of(&key));
        self.begin(&key, search, NO_VALUE)
    }

    /// The next idle seat begins work on the record of a key.
    fn begin(&mut self, key: &RecordKey, work: Work, value: Value) -> Option<u8>
        requires { IsBegun work }
    {
        let place = self.begun;
        if place >= self.locks.seats() || self.seats[place as usize].is_some() {
            return None;
        }
        let seat = place + 1;
        self.seats[place as usize] = Task::begin(&mut self.locks, seat, key, work, value);
        if self.seats[place as usize].is_none() {
            return None;
        }
        self.begun = seat;
        Some(seat)
    }

    /// One step of a seat, none where it has not begun.
    pub fn step(&mut self, seat: u8) -> Option<Progress<FileFault>> {
        if seat == 0 || seat > self.locks.seats() {
            return None;
        }
        let task = self.seats[seat as usize - 1].as_mut()?;
        Some(task.step(&mut self.pool, &mut self.locks, &self.keys, seat))
    }

    /// The page to which a find of a record by the next idle seat goes straight; none where it does
    /// not, or no seat is idle. Nothing is done.
    pub fn heads_for(&mut self, key: RecordKey) -> Option<u32> {
        let place = self.begun;
        if place >= self.locks.seats() || self.seats[place as usize].is_some() {
            return None;
        }
        let find = BucketAccess::new(Deed::Find, key, self.keys.of(&key));
        find.heads_for(&mut self.pool, &self.locks, place + 1)
    }

    /// The record that a page which is in a frame has at a key, or that it has none.
    pub fn ahead(&self, page: u32, key: &RecordKey) -> Option<Option<Record<'_>>> {
        record_ahead(&self.pool, page, key)
    }

    /// Whether the access of a seat has made all its steps in one go; else it has made none.
    pub fn write_through(&mut self, seat: u8) -> Option<Result<bool, FileFault>> {
        if seat == 0 || seat > self.locks.seats() {
            return None;
        }
        let task = self.seats[seat as usize - 1].as_mut()?;
        Some(task.write_through(&mut self.pool, &self.locks, seat))
    }

    /// The lock that a seat was granted last, of those that it holds.
    pub fn last(&self, seat: u8) -> Option<Lock> {
        if seat == 0 || seat > self.locks.seats() {
            return None;
        }
        self.locks.last(seat)
    }

    /// What the access of a seat has found at its key, once a page answered.
    pub fn told(&self, seat: u8) -> Option<Option<Record<'_>>> {
        self.work(seat)?.told()
    }

    /// What the insert of a seat came to.
    pub fn tried(&self, seat: u8) -> Option<Tried> {
        self.work(seat)?.tried()
    }

    /// The page that answered another operation or the search of a seat, and the length of the
    /// value there.
    pub fn found(&self, seat: u8) -> Option<(u32, Option<usize>)> {
        self.work(seat)?.found()
    }

    /// The hops of a search alone.
    pub fn hops(&self, seat: u8) -> Option<u64> {
        self.work(seat)?.hops()
    }

    /// The work of a seat that has begun.
    fn work(&self, seat: u8) -> Option<&Work> {
        let place = (seat as usize).checked_sub(1)?;
        Some(self.seats.get(place)?.as_ref()?.work())
    }

    /// The bytes of a page.
    pub fn payload(&mut self, page: u32) -> Result<Payload, PoolFault> {
        payload_of(&mut self.pool, page)
    }

    /// How many transfers of the device have failed.
    pub fn faults(&self) -> u64 {
        self.pool.faults()
    }

    /// The device, to which all is written.
    pub fn close(self) -> Result<D, PoolFault> {
        let Trial {
            mut pool,
            locks: _,
            keys: _,
            seats: _,
            begun: _,
        } = self;
        pool.flush()?;
        Ok(pool.into_device())
    }
}

/// As many idle seats as a table of locks may have.
fn idle_seats(alloc: Global) -> Result<Vec<Option<Task>>, PoolFault>
    ensures { IfOk result (λ seats. AreIdle MAX_SEATS seats.items) }
{
    let mut seats = Vec::new(alloc);
    for _ in 0..MAX_SEATS {
        match seats.push(None) {
            Ok(()) => {}
            Err(_) => return Err(PoolFault::NoMemory),
        }
    }
    Ok(seats)
}

/// The bytes of a page.
fn payload_of<D: PageDevice>(pool: &mut Pool<D>, page: u32) -> Result<Payload, PoolFault>
    requires { IsReady pool.old }
    ensures { IsReady pool.new }
{
    let frame = pool.pin(page)?;
    let payload = *pool.image(&frame).payload();
    pool.unpin(frame);
    Ok(payload)
}
