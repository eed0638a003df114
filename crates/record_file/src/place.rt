//! The place of one access.

ghost use Rattle.std.specs.Prelude.{◌≡◌, None, option_copied, true, false};
ghost use Rattle.std.specs.Option.{is_some, option_copied_mut};
ghost use Rattle.std.specs.Borrow.{sem};
ghost use Rattle.queue_records.specs.Range.{IsInRange};
ghost use Rattle.xsi_inquiry.specs.Writing.{HasRange};
ghost use Rattle.record_file.specs.AccessWords.{EndsRow, IsReady, IsSeat, row_of};
ghost use Rattle.record_file.specs.AccessRuns.{IsMade};
ghost use Rattle.record_file.specs.Lending.{LendsOpened, LendsUnderWay};
ghost use Rattle.record_file.specs.Purposes.{ToInsert, ToWrite};

use crate::access::Access;
use file_pages::buffer_pool::Pool;
use page_device::PageDevice;
use page_locks::LockTable;
use queue_records::{Record, counter_key};
use std::marker::Model;
use xsi_inquiry::Write;

/// The place of one access, which is under way or not. The next one begins where the last one was.
#[derive(Drop)]
pub struct AccessPlace {
    access: Access,
    is_under_way: bool,
}

impl Model for AccessPlace {
    ghost use Rattle.std.specs.Prelude.{Option, Some, None, if◌then◌else◌};
    ghost use Rattle.record_file.specs.Accesses.{AccessView};

    ghost Value = { Option AccessView };

    ghost view = { λ p. if p.is_under_way then Some p.access else None };
}

impl AccessPlace {
    /// None is under way.
    pub fn new() -> AccessPlace
        ensures { result ≡ None }
    {
        AccessPlace {
            access: Access::find(counter_key(), 0),
            is_under_way: false,
        }
    }

    /// Whether one is under way.
    pub fn is_under_way(&self) -> bool
        ensures { result ≡ is_some self.now }
    {
        self.is_under_way
    }

    /// The one under way.
    pub fn get(&self) -> Option<&Access>
        ensures { option_copied result ≡ self.now }
    {
        if self.is_under_way {
            Some(&self.access)
        } else {
            None
        }
    }

    /// The one under way, for its step.
    pub fn get_mut(&mut self) -> Option<&mut Access>
        ensures* writes_back { sem 𝓛 (LendsUnderWay self.entry result) }
        ensures value { option_copied_mut result ≡ self.old }
    {
        if self.is_under_way {
            Some(&mut self.access)
        } else {
            None
        }
    }

    /// One is under way from now on: that which was there last is lent, to begin anew.
    pub fn open(&mut self) -> &mut Access
        ensures* writes_back { sem 𝓛 (LendsOpened self.entry result) }
    {
        self.is_under_way = true;
        &mut self.access
    }

    /// The one under way is let go.
    pub fn close(&mut self)
        ensures { self.new ≡ None }
    {
        self.is_under_way = false;
    }

    /// All steps of an insert, in one go, as `Access::write_through` makes them, where none is under
    /// way: none is then before it and behind it. Else nothing is done, and it tells false.
    #[inline(always)]
    pub fn insert_at_once<D: PageDevice>(
        &mut self,
        entry: &Record<'_>,
        pseudokey: u32,
        pool: &mut Pool<D>,
        locks: &LockTable,
        seat: u8,
    ) -> bool
        requires rests { self.old ≡ None }
        requires range { IsInRange entry.now }
        requires seat { IsSeat locks.now seat }
        requires ready { IsReady pool.old }
        requires row { EndsRow (λ before. before) 3 (row_of locks.now seat) }
        ensures rests { self.new ≡ None }
        ensures made { result ≡ true →
            IsMade seat (ToInsert entry.now) pseudokey pool.old pool.new locks.now }
        ensures spares { result ≡ false → pool.new ≡ pool.old }
    {
        self.access
            .insert_at_once(entry, pseudokey, pool, locks, seat)
    }

    /// The same of a write.
    #[inline(always)]
    pub fn write_at_once<D: PageDevice>(
        &mut self,
        write: &Write,
        pseudokey: u32,
        pool: &mut Pool<D>,
        locks: &LockTable,
        seat: u8,
    ) -> bool
        requires rests { self.old ≡ None }
        requires range { HasRange write.now }
        requires seat { IsSeat locks.now seat }
        requires ready { IsReady pool.old }
        requires row { EndsRow (λ before. before) 3 (row_of locks.now seat) }
        ensures rests { self.new ≡ None }
        ensures made { result ≡ true →
            IsMade seat (ToWrite write.now) pseudokey pool.old pool.new locks.now }
        ensures spares { result ≡ false → pool.new ≡ pool.old }
    {
        self.access
            .write_at_once(write, pseudokey, pool, locks, seat)
    }
}
