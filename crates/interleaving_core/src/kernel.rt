//! The kernel.

ghost use Rattle.std.specs.Prelude.{◌≡◌, ◌↔◌, ◌+◌, ◌*◌, ◌^◌, ◌≤◌, ◌<◌, Some, false, true, IsTrue, IsErrAnd, IfErr, IfOk, length, nat_lt, sum_by};
ghost use Rattle.std.specs.List.{list_any};
ghost use Rattle.page_device.specs.Device.{HasRisen};
ghost use Rattle.interleaving_core.specs.Active.{ActiveView};
ghost use Rattle.interleaving_core.specs.Beginning.{HasCall, HasSystem, IsOpened, IsRefused, IsStopped, MayRefuse};
ghost use Rattle.interleaving_core.specs.Closing.{IfBusy, IsBusy, IsFlushedTo, IsReleased, OnDevice, fault_in, has_one, is_busy, journal_in};
ghost use Rattle.interleaving_core.specs.Fault.{device_failed};
ghost use Rattle.interleaving_core.specs.Kernel.{IsWhole, call_at, entries_of};
ghost use Rattle.interleaving_core.specs.Owing.{IsTurn, told_of_failure};
ghost use Rattle.interleaving_core.specs.Turn.{TakesTurn};
ghost use Rattle.interleaving_core.specs.Words.{IsSeat, caller_at};

mod counting;
mod driving;
mod holding;
mod renewing;

use crate::active::{decided_by, note_entry};
use crate::closing::{Closed, NotClosed};
use crate::counts::SearchCounts;
use crate::fault::{BeginFault, CloseFault, Failure, OpenFault};
use crate::opening::{Seating, least_frames};
use crate::places::{due, failure_of, has_call, told_of_failure};
use crate::searches::{ends_search, last_page, note, note_move};
use crate::seat::Seat;
use crate::step::Step;
use bucket_page::PseudoKey;
use buffer_pool::{Pool, PoolFault};
use file_check::{Checked, check};
use file_pages::FileFault;
use page_device::PageDevice;
use page_locks::{LockTable, MAX_SEATS};
use queue_model::{Call, Caller, Entry};
use std::alloc::Global;
use std::marker::Model;
use step_rules::Progress;
use type_chains::a_calls_numbers_fit;

/// The calls that one session decides at most.
pub const MAX_DECIDED: usize = 65_536;

/// The steps that a drive makes at most: more than any call makes by itself.
pub const MOST_STEPS: u32 = 4_000_000;

/// Seats at calls over one file: whoever steps them decides which of them makes the next step. It
/// reads records and never keeps a system.
#[derive(Drop)]
pub struct Kernel<D: PageDevice, K: PseudoKey> {
    pool: Pool<D>,
    locks: LockTable,
    keys: K,
    callers: Vec<Caller>,
    seats: Vec<Seat>,
    journal: Vec<Entry>,
    stopped: bool,
    failure: Option<Failure>,
    searches: SearchCounts,
}

impl<D: PageDevice, K: PseudoKey> Model for Kernel<D, K> {
    ghost use Rattle.std.specs.Prelude.{vec_capacity};
    ghost use Rattle.std.specs.Option.{is_some};
    ghost use Rattle.interleaving_core.specs.Kernel.{IsWhole, KernelState};

    ghost Value = { KernelState K };

    ghost view = { λ k. record {
      keys = k.keys;
      pool = k.pool;
      locks = k.locks;
      callers = k.callers.items;
      seats = k.seats.items;
      journal = k.journal.items;
      room = vec_capacity k.journal;
      stopped = k.stopped;
      failed = is_some k.failure;
      failure = k.failure;
      searches = k.searches;
    } };

    ghost invariant = { λ k. IsWhole (record {
      keys = k.keys;
      pool = k.pool;
      locks = k.locks;
      callers = k.callers.items;
      seats = k.seats.items;
      journal = k.journal.items;
      room = vec_capacity k.journal;
      stopped = k.stopped;
      failed = is_some k.failure;
      failure = k.failure;
      searches = k.searches;
    }) };
}

impl<D: PageDevice + Drop, K: PseudoKey + Drop> Kernel<D, K> {
    /// Checks the file on a device and opens it for these callers, one a seat, with so many frames
    /// for its pages. The system is not stopped. A file with which anything is wrong is refused by
    /// the first thing that is, and one is refused by `NoMemory` only where nothing is. Each refusal
    /// gives the device back.
    pub fn open(
        alloc: Global,
        device: D,
        keys: K,
        callers: &[Caller],
        frames: usize,
    ) -> Result<Kernel<D, K>, (D, OpenFault)>
        requires some { 1 ≤ length callers.now }
        requires few { length callers.now ≤ MAX_SEATS }
        ensures ok { IfOk result (IsOpened keys (D.content device) (D.is_honest device)
            callers.now frames) }
        ensures file { IsTrue (D.is_honest device) →
            IfOk result (λ _. HasSystem (K.of_key keys) (D.content device)) }
        ensures few { IsErrAnd result (λ refusal. refusal.1 ≡ OpenFault.TooFewFrames) ↔
            (frames < 4 * length callers.now + 8) }
        ensures refused { IsTrue (D.is_honest device) → IfErr result (λ refusal.
            MayRefuse (K.of_key keys) (D.content device) refusal.1) }
        ensures err { IfErr result (λ refusal. (D.content refusal.0 ≡ D.content device)
            × (D.is_honest refusal.0 ≡ D.is_honest device)) }
        ensures cause { IfOk result (λ k. D.fault_count device ≤ k.pool.faults)
            × IfErr result (λ refusal. refusal.1 ≡ device_failed →
            HasRisen (D.fault_count device) (D.fault_count refusal.0)) }
    {
        if frames < least_frames(callers.len()) {
            return Err((device, OpenFault::TooFewFrames));
        }
        let Checked { device, found } = check(alloc, device, &keys);
        match found {
            Ok(_system) => {}
            Err(fault) => return Err((device, OpenFault::Wrong(fault))),
        }
        let Ok(seating) = Seating::new(alloc, callers) else {
            return Err((device, OpenFault::NoMemory));
        };
        match Pool::open(alloc, device, frames) {
            Ok(pool) => Ok(Kernel {
                pool,
                locks: seating.locks,
                keys,
                callers: seating.callers,
                seats: seating.seats,
                journal: seating.journal,
                stopped: false,
                failure: None,
                searches: seating.searches,
            }),
            Err((device, PoolFault::TooFewFrames)) => Err((device, OpenFault::TooFewFrames)),
            Err((device, _)) => Err((device, OpenFault::NoMemory)),
        }
    }

    /// How many seats there are. They count from 1.
    pub fn seats(&self) -> u8
        ensures { result ≡ length self.now.locks }
    {
        self.locks.seats()
    }

    /// Who sits at a seat.
    pub fn caller(&self, seat: u8) -> Caller
        requires { IsSeat self.now.locks seat }
        ensures { caller_at self.now.callers seat ≡ Some result }
    {
        self.callers[seat as usize - 1]
    }

    /// Which locks each seat holds.
    pub fn locks(&self) -> &LockTable
        ensures { result.now ≡ self.now.locks }
    {
        &self.locks
    }

    /// What was decided, in its order.
    pub fn journal(&self) -> &[Entry]
        ensures { result.now ≡ self.now.journal }
    {
        self.journal.as_slice()
    }

    /// Whether a step has failed: then no call begins, and none goes on.
    pub fn has_failed(&self) -> bool
        ensures { result ≡ self.now.failed }
    {
        self.failure.is_some()
    }

    /// What failed it, where a step has failed: the fault of the first step that did, of which each
    /// seat with a call is told 62.
    pub fn failure(&self) -> Option<Failure>
        ensures { result ≡ self.now.failure }
    {
        self.failure
    }

    /// A kernel is always whole, whatever the device gives.
    pub fn is_whole(&self)
        ensures { IsWhole self.now }
    {
        let _ = &self.failure;
    }

    /// A call begins at a seat. All memory that it and its entry in the journal can need is taken
    /// here. A call that is refused comes back.
    pub fn begin(&mut self, seat: u8, call: Call) -> Result<(), (Call, BeginFault)>
        requires { IsSeat self.old.locks seat }
        ensures ok { IfOk result (λ _. HasCall seat call self.old self.new) }
        ensures err { IfErr result (λ back. IsRefused seat call back self.old self.new) }
    {
        if self.failure.is_some() {
            return Err((call, BeginFault::Failed));
        }
        let place = seat as usize - 1;
        if self.seats[place].has_call() {
            return Err((call, BeginFault::Busy));
        }
        if self.is_full() {
            return Err((call, BeginFault::SessionFull));
        }
        let Ok(()) = self.journal.reserve(self.seats.len() + 1) else {
            return Err((call, BeginFault::NoMemory));
        };
        let alloc: Global = *self.journal.allocator();
        let caller = self.callers[place];
        let many = self.journal.len();
        a_calls_numbers_fit(&call);
        if let Err(call) = self.seats[place].begin(alloc, caller, call, many) {
            return Err((call, BeginFault::NoMemory));
        }
        Ok(())
    }

    /// One step of the call at a seat, if it has one: none while that waits, and nothing has woken
    /// it. Where the call comes to an answer, its entry joins the journal. It takes no memory.
    pub fn step(&mut self, seat: u8) -> Step
        requires { IsSeat self.old.locks seat }
        ensures turn { IsTurn seat result self.old self.new }
        // The step is one of the machine of its call, or none while that waits.
        ensures makes { (a : ActiveView) → call_at self.old.seats seat ≡ Some a →
            self.old.failed ≡ false → TakesTurn (K.of_key self.old.keys) seat self.old.stopped
            result a (call_at self.new.seats seat) self.old.pool self.new.pool
            self.old.locks self.new.locks self.old.journal self.new.journal }
    {
        let place = seat as usize - 1;
        if self.failure.is_some() {
            return told_of_failure(&self.seats[place]);
        }
        let before = last_page(&self.locks, seat);
        let at = &mut self.seats[place];
        let Some(active) = at.under_way() else {
            return Step::Idle;
        };
        if active.stays_waiting(self.journal.as_slice()) {
            return Step::Waiting;
        }
        active.decided = decided_by(&active.machine, self.journal.len(), active.decided);
        active.wait = None;
        let did = active.machine.step(
            &mut self.pool,
            &mut self.locks,
            &self.keys,
            self.stopped,
            seat,
        );
        note_entry(&active.machine, &mut active.draft, &mut self.journal, seat);
        if let Progress::Moved(kind) = did {
            let ends = ends_search(kind, &active.machine);
            note_move(&mut self.searches, &self.locks, seat, kind, before, ends);
            return Step::Moved(kind);
        }
        let step = at.settle(
            did,
            &mut self.pool,
            &mut self.locks,
            &self.keys,
            &mut self.journal,
            self.stopped,
            seat,
        );
        self.failure = failure_of(seat, &step);
        note(&mut self.searches, &self.locks, seat, &step, before, at);
        step
    }

    /// Stops the system: from here on a call that would wait is refused EINTR.
    pub fn stop(&mut self)
        ensures { IsStopped self.old self.new }
    {
        if self.stopped {
            return;
        }
        self.journal.push(Entry::Stopped).unwrap();
        self.stopped = true;
    }

    /// Writes the pages to the device, syncs it, and gives it back with the journal. Where a step
    /// has failed nothing is written; where a seat has a call under way the kernel comes back.
    pub fn close(self) -> Result<Closed<D>, NotClosed<D, K>>
        ensures ok { IsTrue self.pool.honest →
            IfOk result (λ closed. IsFlushedTo self.pool (D.content closed.device)) }
        ensures journal { journal_in result ≡ self.journal }
        ensures busy { (is_busy result ≡ true) ↔ IsBusy self }
        ensures failed { (fault_in result ≡ Some CloseFault.Failed) ↔ (self.failed ≡ true) }
        ensures device { OnDevice (λ d. IsReleased self (fault_in result)
            (D.content d) (D.is_honest d) (D.is_synced d) (D.fault_count d)) result }
        ensures back { IfBusy (λ kernel. kernel ≡ self) result }
    {
        if self.failure.is_none() && has_call(self.seats.as_slice()) {
            return Err(NotClosed::Busy(self));
        }
        let Kernel {
            mut pool,
            locks: _,
            keys: _,
            callers: _,
            seats: _,
            journal,
            stopped: _,
            failure,
            searches: _,
        } = self;
        if failure.is_some() {
            let device = pool.into_device();
            return Err(NotClosed::Fault(Closed { device, journal }, CloseFault::Failed));
        }
        let flushed = pool.flush();
        let device = pool.into_device();
        match flushed {
            Ok(()) => Ok(Closed { device, journal }),
            Err(_) => Err(NotClosed::Fault(Closed { device, journal }, CloseFault::Device)),
        }
    }

    /// The device, as it is, and the journal. What was changed since the kernel was opened may be
    /// lost.
    pub fn abandon(self) -> Closed<D>
        ensures content { D.content result.device ≡ self.pool.stored }
        ensures honest { D.is_honest result.device ≡ self.pool.honest }
        ensures faults { D.fault_count result.device ≡ self.pool.faults }
        ensures journal { result.journal.items ≡ self.journal }
    {
        let journal = self.journal;
        let device = self.pool.into_device();
        Closed { device, journal }
    }

    /// Whether as many calls are decided and under way as one session may decide. The seats are only
    /// looked at where that is near: for each of them one entry is due at most, and one for a stop.
    fn is_full(&self) -> bool
        ensures { result ≡ nat_lt MAX_DECIDED (entries_of self.now) }
    {
        if self.journal.len() + self.seats.len() < MAX_DECIDED {
            return false;
        }
        self.entries() > MAX_DECIDED
    }

    /// The entries that the journal has, and those that are due.
    fn entries(&self) -> usize
        ensures { result ≡ entries_of self.now }
    {
        let due = due(self.seats.as_slice());
        due + (self.journal.len() + usize::from(!self.stopped))
    }
}
