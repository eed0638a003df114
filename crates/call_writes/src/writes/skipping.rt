//! A deed that is made in one go.

ghost use Rattle.std.specs.Prelude.{◌≡◌};
ghost use Rattle.call_writes.specs.WriteWords.{EndsRow, IsReady, IsSeat, row_of};
ghost use Rattle.call_writes.specs.MakeSteps.{MakesWrites};
ghost use Rattle.call_writes.specs.WriteRuns.{TriesAtOnce, WritesAtOnce};
ghost use Rattle.call_writes.specs.Views.{IsOver, writes_locks, writes_search};

use crate::at_once::AtOnce;
use crate::due::Due;
use crate::plan::PlanOf;
use crate::ranges::{has_range, key_written};
use crate::writes::CallWrites;
use bucket_page::PseudoKey;
use page_device::PageDevice;
use page_locks::LockTable;
use record_file::buffer_pool::Pool;
use xsi_inquiry::Inquiry;

impl CallWrites {
    /// All steps of the next trial in one go: where no access is under way, what it writes keeps the
    /// limits of one record, and it can be made so (`AccessPlace::insert_at_once`). Else nothing is
    /// done, and it is left to `step`. It stands in the loop over all trials, as `pay_through` does in
    /// that over all writes.
    #[inline(always)]
    pub fn try_through<D: PageDevice, K: PseudoKey>(
        &mut self,
        plan: &PlanOf<'_>,
        pool: &mut Pool<D>,
        locks: &LockTable,
        keys: &K,
        seat: u8,
    ) -> AtOnce
        requires seat { IsSeat locks.now seat }
        requires ready { IsReady pool.old }
        requires row { EndsRow (writes_locks self.old) 3 (row_of locks.now seat) }
        ensures { TriesAtOnce (IsOver plan.now) (WritesAtOnce
            (MakesWrites (K.of_key keys.now) seat plan.now) writes_search seat self.old self.new
            pool.old pool.new locks.now) result self.old self.new pool.old pool.new }
    {
        if self.access.is_under_way() {
            return AtOnce::Left;
        }
        let Due::Trying(place) = self.due else {
            return AtOnce::Left;
        };
        if plan.is_done(Due::Trying(place)) {
            return AtOnce::Over;
        }
        let Some(entry) = &plan.inquiry.trial(plan.call, place) else {
            return AtOnce::Over;
        };
        if !entry.is_in_range() {
            return AtOnce::Left;
        }
        let pseudokey = keys.of(&entry.key());
        if !self
            .access
            .insert_at_once(entry, pseudokey, pool, locks, seat)
        {
            return AtOnce::Left;
        }
        self.due = plan.behind(Due::Trying(place));
        AtOnce::Made
    }

    /// The same of the write that comes next. A write is large, so it is lent and not moved.
    #[inline(always)]
    pub fn pay_through<D: PageDevice, K: PseudoKey>(
        &mut self,
        plan: &PlanOf<'_>,
        pool: &mut Pool<D>,
        locks: &LockTable,
        keys: &K,
        seat: u8,
    ) -> AtOnce
        requires seat { IsSeat locks.now seat }
        requires ready { IsReady pool.old }
        requires row { EndsRow (writes_locks self.old) 3 (row_of locks.now seat) }
        ensures { TriesAtOnce (IsOver plan.now) (WritesAtOnce
            (MakesWrites (K.of_key keys.now) seat plan.now) writes_search seat self.old self.new
            pool.old pool.new locks.now) result self.old self.new pool.old pool.new }
    {
        if self.access.is_under_way() {
            return AtOnce::Left;
        }
        let Due::Writing(from) = self.due else {
            return AtOnce::Left;
        };
        if plan.is_done(Due::Writing(from)) {
            return AtOnce::Over;
        }
        let Some((slot, write)) = &plan.inquiry.next_write(plan.call, from) else {
            return AtOnce::Over;
        };
        if !has_range(write) {
            return AtOnce::Left;
        }
        let pseudokey = keys.of(&key_written(write));
        if !self
            .access
            .write_at_once(write, pseudokey, pool, locks, seat)
        {
            return AtOnce::Left;
        }
        self.due = Due::Writing(*slot + 1);
        AtOnce::Made
    }
}
