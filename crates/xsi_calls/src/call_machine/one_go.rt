//! What a call makes in one go, one errand behind the other.

ghost use Rattle.std.specs.Prelude.{◌≡◌, ◌≤◌, ℕ, Bool, IfErr, IsOk, None, false, true};
ghost use Rattle.step_rules.specs.declared.kind.Kind.TheVariants.{Decide, Release};
ghost use Rattle.xsi_calls.specs.CallSteps.{MakesCall};
ghost use Rattle.xsi_calls.specs.Ending.{CanDecideNow, HasPaid};
ghost use Rattle.xsi_calls.specs.Machine.{call_locks, is_searching};
ghost use Rattle.xsi_calls.specs.OneGo.{GoesAtOnce, RunsAtOnce};
ghost use Rattle.xsi_calls.specs.Words.{Fault, IsReady, IsSeat, Moved, PoolState, RecordKey, at, row_of};

use crate::call_machine::{CallMachine, decide};
use crate::phase::Phase;
use bucket_page::PseudoKey;
use buffer_pool::Pool;
use call_writes::{AtOnce, is_move};
use file_pages::FileFault;
use page_device::PageDevice;
use page_locks::LockTable;

/// The steps of a question that is asked in one go.
pub const QUESTION_STEPS: u32 = 7;

/// The steps of a write that is made in one go.
pub const WRITE_STEPS: u32 = 8;

/// How far a call has gone in one go.
#[derive(Clone, Copy)]
pub struct Gone {
    /// So many steps were made, each of which moved.
    pub moves: u32,
    /// The fault of the step behind them, where it met one.
    pub fault: Option<FileFault>,
}

/// Errands of one kind that a call has made, one behind the other.
#[derive(Clone, Copy)]
pub(crate) struct Errands {
    /// So many steps were made.
    pub(crate) moves: u32,
    /// No other one of the kind is due.
    pub(crate) are_all: bool,
}

impl CallMachine {
    /// All questions that can be asked so (`skip`), as far as so many steps go; tells how many steps
    /// they were.
    pub(crate) fn ask_through<D: PageDevice, K: PseudoKey>(
        &mut self,
        pool: &mut Pool<D>,
        locks: &LockTable,
        keys: &K,
        seat: u8,
        most: u32,
    ) -> u32
        requires seat { IsSeat locks.now seat }
        requires ready { IsReady pool.old }
        requires row { row_of locks.now seat ≡ call_locks self.old }
        ensures runs { (stopped : Bool) → RunsAtOnce (MakesCall (K.of_key keys.now) seat stopped)
            is_searching seat result 0 (at self.old pool.old locks.now)
            (at self.new pool.new locks.now) }
        ensures few { result ≤ most }
        ensures ready { IsReady pool.new }
        ensures row { row_of locks.now seat ≡ call_locks self.new }
    {
        let mut moves = 0;
        while most - moves >= QUESTION_STEPS {
            if !self.skip(pool, locks, keys, seat) {
                return moves;
            }
            moves += QUESTION_STEPS;
        }
        moves
    }

    /// All records that it inserts on trial and that can be inserted so (`try_through`).
    pub(crate) fn try_all_through<D: PageDevice, K: PseudoKey>(
        &mut self,
        pool: &mut Pool<D>,
        locks: &LockTable,
        keys: &K,
        seat: u8,
        most: u32,
    ) -> Errands
        requires seat { IsSeat locks.now seat }
        requires ready { IsReady pool.old }
        requires row { row_of locks.now seat ≡ call_locks self.old }
        ensures runs { (stopped : Bool) → RunsAtOnce (MakesCall (K.of_key keys.now) seat stopped)
            is_searching seat result.moves 0 (at self.old pool.old locks.now)
            (at self.new pool.new locks.now) }
        ensures few { result.moves ≤ most }
        ensures ready { IsReady pool.new }
        ensures row { row_of locks.now seat ≡ call_locks self.new }
        ensures over { result.are_all ≡ true → CanDecideNow self.new }
    {
        let mut moves = 0;
        while most - moves >= WRITE_STEPS {
            match self.try_through(pool, locks, keys, seat) {
                AtOnce::Made => {
                    moves += WRITE_STEPS;
                }
                AtOnce::Left => {
                    return Errands {
                        moves,
                        are_all: false,
                    };
                }
                AtOnce::Over => {
                    return Errands {
                        moves,
                        are_all: true,
                    };
                }
            }
        }
        Errands {
            moves,
            are_all: false,
        }
    }

    /// All records of what it owes that can be written so (`pay_one_through`).
    pub(crate) fn pay_all_through<D: PageDevice, K: PseudoKey>(
        &mut self,
        pool: &mut Pool<D>,
        locks: &LockTable,
        keys: &K,
        seat: u8,
        most: u32,
    ) -> Errands
        requires seat { IsSeat locks.now seat }
        requires ready { IsReady pool.old }
        requires row { row_of locks.now seat ≡ call_locks self.old }
        ensures runs { (stopped : Bool) → RunsAtOnce (MakesCall (K.of_key keys.now) seat stopped)
            is_searching seat result.moves 0 (at self.old pool.old locks.now)
            (at self.new pool.new locks.now) }
        ensures few { result.moves ≤ most }
        ensures ready { IsReady pool.new }
        ensures row { row_of locks.now seat ≡ call_locks self.new }
        ensures over { result.are_all ≡ true → HasPaid self.new }
    {
        let mut moves = 0;
        while most - moves >= WRITE_STEPS {
            match self.pay_one_through(pool, locks, keys, seat) {
                AtOnce::Made => {
                    moves += WRITE_STEPS;
                }
                AtOnce::Left => {
                    return Errands {
                        moves,
                        are_all: false,
                    };
                }
                AtOnce::Over => {
                    return Errands {
                        moves,
                        are_all: true,
                    };
                }
            }
        }
        Errands {
            moves,
            are_all: false,
        }
    }

    /// Its Decide, since it can decide: all is asked and nothing is inserted on trial, or its trials
    /// are over. Where it was told what no system has, that is a fault.
    pub(crate) fn decide_at_once<K: PseudoKey>(
        &mut self,
        locks: &LockTable,
        keys: &K,
        stopped: bool,
        seat: u8,
    ) -> Result<(), FileFault>
        requires seat { IsSeat locks.now seat }
        requires row { row_of locks.now seat ≡ call_locks self.old }
        requires can { CanDecideNow self.old }
        ensures made { IsOk result → (pool : PoolState) → IsReady pool →
            MakesCall (K.of_key keys.now) seat stopped (Moved Decide) self.old self.new
            pool pool locks.now locks.now }
        ensures failed { IfErr result (λ fault. (pool : PoolState) → IsReady pool →
            MakesCall (K.of_key keys.now) seat stopped (Fault fault) self.old self.new
            pool pool locks.now locks.now) }
    {
        self.questions.keep_order();
        let Ok(()) = decide(&self.questions, &mut self.part, &self.call, keys, stopped) else {
            return Err(FileFault::Failed);
        };
        self.phase = Phase::Paying;
        Ok(())
    }

    /// The name that was taken last is given back, where one is held. All is paid.
    pub(crate) fn give_back_at_once(&mut self, locks: &mut LockTable, seat: u8) -> bool
        requires seat { IsSeat locks.old seat }
        requires row { row_of locks.old seat ≡ call_locks self.old }
        requires paid { HasPaid self.old }
        ensures made { result ≡ true → (hash : RecordKey → ℕ) (stopped : Bool) (pool : PoolState) →
            IsReady pool → MakesCall hash seat stopped (Moved Release) self.old self.new
            pool pool locks.old locks.new }
        ensures spares { result ≡ false → (self.new ≡ self.old) × (locks.new ≡ locks.old) }
    {
        if self.questions.holds_none() {
            return false;
        }
        self.questions.keep_order();
        self.phase = Phase::Releasing;
        is_move(self.release(locks, seat))
    }

    /// Its questions, what it inserts on trial, and its Decide.
    pub(crate) fn decide_through<D: PageDevice, K: PseudoKey>(
        &mut self,
        pool: &mut Pool<D>,
        locks: &LockTable,
        keys: &K,
        stopped: bool,
        seat: u8,
        most: u32,
    ) -> Gone
        requires seat { IsSeat locks.now seat }
        requires ready { IsReady pool.old }
        requires row { row_of locks.now seat ≡ call_locks self.old }
        ensures goes { GoesAtOnce (MakesCall (K.of_key keys.now) seat stopped)
            is_searching seat result.moves 1 result.fault (at self.old pool.old locks.now)
            (at self.new pool.new locks.now) }
        ensures few { result.moves ≤ most }
        ensures ready { result.fault ≡ None → IsReady pool.new }
        ensures row { result.fault ≡ None → row_of locks.now seat ≡ call_locks self.new }
    {
        let asked = self.ask_through(pool, locks, keys, seat, most);
        let tried = self.try_all_through(pool, locks, keys, seat, most - asked);
        let moves = asked + tried.moves;
        if !tried.are_all {
            return Gone { moves, fault: None };
        }
        if moves == most {
            return Gone { moves, fault: None };
        }
        match self.decide_at_once(locks, keys, stopped, seat) {
            Ok(()) => Gone {
                moves: moves + 1,
                fault: None,
            },
            Err(fault) => Gone {
                moves,
                fault: Some(fault),
            },
        }
    }

    /// What it owes, and a name that is given back behind it.
    pub(crate) fn pay_through<D: PageDevice, K: PseudoKey>(
        &mut self,
        pool: &mut Pool<D>,
        locks: &mut LockTable,
        keys: &K,
        seat: u8,
        most: u32,
    ) -> u32
        requires seat { IsSeat locks.old seat }
        requires ready { IsReady pool.old }
        requires row { row_of locks.old seat ≡ call_locks self.old }
        ensures runs { (stopped : Bool) → RunsAtOnce (MakesCall (K.of_key keys.now) seat stopped)
            is_searching seat result 1 (at self.old pool.old locks.old)
            (at self.new pool.new locks.new) }
        ensures few { result ≤ most }
    {
        let paid = self.pay_all_through(pool, locks, keys, seat, most);
        if !paid.are_all {
            return paid.moves;
        }
        if paid.moves == most {
            return paid.moves;
        }
        if !self.give_back_at_once(locks, seat) {
            return paid.moves;
        }
        paid.moves + 1
    }

    /// All of these in one go, up to so many steps, and no further than where one of them can't be
    /// made so. What is left is left to `step`. It stands apart from whoever drives the call, since
    /// its loops need the registers for themselves.
    #[inline(never)]
    pub fn go_through<D: PageDevice, K: PseudoKey>(
        &mut self,
        pool: &mut Pool<D>,
        locks: &mut LockTable,
        keys: &K,
        stopped: bool,
        seat: u8,
        most: u32,
    ) -> Gone
        requires seat { IsSeat locks.old seat }
        requires ready { IsReady pool.old }
        requires row { row_of locks.old seat ≡ call_locks self.old }
        ensures goes { GoesAtOnce (MakesCall (K.of_key keys.now) seat stopped)
            is_searching seat result.moves 2 result.fault (at self.old pool.old locks.old)
            (at self.new pool.new locks.new) }
        ensures few { result.moves ≤ most }
    {
        let first = self.decide_through(pool, locks, keys, stopped, seat, most);
        if first.fault.is_some() {
            return first;
        }
        if self.is_undecided() {
            return first;
        }
        let last = self.pay_through(pool, locks, keys, seat, most - first.moves);
        Gone {
            moves: first.moves + last,
            fault: None,
        }
    }
}
