//! A question of a call that is asked in one go, and a write of it that is made so.

ghost use Rattle.std.specs.Prelude.{◌≡◌, Bool, false, true};
ghost use Rattle.call_writes.specs.WriteRuns.{TriesAtOnce};
ghost use Rattle.xsi_calls.specs.CallSteps.{MakesCall};
ghost use Rattle.xsi_calls.specs.Ending.{CanDecideNow, HasPaid};
ghost use Rattle.xsi_calls.specs.Machine.{call_locks, is_searching, is_undecided};
ghost use Rattle.xsi_calls.specs.Words.{AsksAtOnce, IsReady, IsSeat, WritesAtOnce, row_of};

use crate::call_machine::CallMachine;
use crate::part::Part;
use bucket_page::PseudoKey;
use buffer_pool::Pool;
use call_writes::{AtOnce, PlanOf};
use page_device::PageDevice;
use page_locks::LockTable;

impl CallMachine {
    /// All steps of the next question, in one go, where it has not decided, nothing is inserted on
    /// trial, and the question can be asked so (`Questions::skip`). Else nothing is done, and it is
    /// left to `step`.
    pub fn skip<D: PageDevice, K: PseudoKey>(
        &mut self,
        pool: &mut Pool<D>,
        locks: &LockTable,
        keys: &K,
        seat: u8,
    ) -> bool
        requires seat { IsSeat locks.now seat }
        requires ready { IsReady pool.old }
        requires row { row_of locks.now seat ≡ call_locks self.old }
        ensures pool { pool.new ≡ pool.old }
        ensures made { result ≡ true → (stopped : Bool) → AsksAtOnce
            (MakesCall (K.of_key keys.now) seat stopped) is_searching seat self.old self.new
            pool.old locks.now }
        ensures undecided { result ≡ true → is_undecided self.old.stage ≡ true }
        ensures spares { result ≡ false → self.new ≡ self.old }
    {
        if !self.is_undecided() {
            return false;
        }
        if self.part.is_asking() {
            return false;
        }
        if self.part.is_trying() {
            return false;
        }
        self.questions.skip(pool, locks, keys, seat, &self.call)
    }

    /// All steps of the next record that it inserts on trial, in one go, where all is asked and nobody
    /// stands in the way (`CallWrites::try_through`). Else nothing is done: it can decide where
    /// nothing is left to do, and is left to `step` where something is. It stands in the loop over
    /// all trials.
    #[inline(always)]
    pub(crate) fn try_through<D: PageDevice, K: PseudoKey>(
        &mut self,
        pool: &mut Pool<D>,
        locks: &LockTable,
        keys: &K,
        seat: u8,
    ) -> AtOnce
        requires seat { IsSeat locks.now seat }
        requires ready { IsReady pool.old }
        requires row { row_of locks.now seat ≡ call_locks self.old }
        ensures { TriesAtOnce CanDecideNow ((stopped : Bool) → WritesAtOnce
            (MakesCall (K.of_key keys.now) seat stopped) is_searching seat self.old self.new
            pool.old pool.new locks.now) result self.old self.new pool.old pool.new }
    {
        if !self.is_undecided() {
            return AtOnce::Left;
        }
        let tries = self.part.is_trying();
        if !tries {
            if !self.questions.is_done(&self.part, &self.call) {
                return AtOnce::Left;
            }
            let Ok(begins) = self.part.begin_first(&self.questions, &self.call) else {
                return AtOnce::Left;
            };
            if !begins {
                return AtOnce::Over;
            }
        }
        self.questions.keep_order();
        let plan = PlanOf::new(&self.call, self.questions.inquiry());
        match &mut self.part {
            Part::Writes(place) => {
                match place.writes.try_through(&plan, pool, locks, keys, seat) {
                    AtOnce::Made => {
                        self.questions.count_one();
                        return AtOnce::Made;
                    }
                    AtOnce::Over => {
                        if tries {
                            return AtOnce::Over;
                        }
                    }
                    AtOnce::Left => {}
                }
            }
            Part::Asks(_) | Part::Sweeps(_) => unreachable!(),
        }
        if !tries {
            self.part.rest();
        }
        AtOnce::Left
    }

    /// The same of the next record of what it owes. It owes nothing where nothing is left to do.
    #[inline(always)]
    pub(crate) fn pay_one_through<D: PageDevice, K: PseudoKey>(
        &mut self,
        pool: &mut Pool<D>,
        locks: &LockTable,
        keys: &K,
        seat: u8,
    ) -> AtOnce
        requires seat { IsSeat locks.now seat }
        requires ready { IsReady pool.old }
        requires row { row_of locks.now seat ≡ call_locks self.old }
        ensures { TriesAtOnce HasPaid ((stopped : Bool) → WritesAtOnce
            (MakesCall (K.of_key keys.now) seat stopped) is_searching seat self.old self.new
            pool.old pool.new locks.now) result self.old self.new pool.old pool.new }
    {
        if self.is_undecided() {
            return AtOnce::Left;
        }
        if !self.is_paying() {
            return AtOnce::Over;
        }
        self.questions.keep_order();
        let plan = PlanOf::new(&self.call, self.questions.inquiry());
        if let Part::Writes(place) = &mut self.part {
            return place.writes.pay_through(&plan, pool, locks, keys, seat);
        }
        AtOnce::Left
    }
}
