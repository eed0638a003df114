//! The writing half of a call.

ghost use Rattle.std.specs.Prelude.{◌≡◌, None};
ghost use Rattle.std.specs.Option.{is_some};
ghost use Rattle.call_writes.specs.WriteWords.{EndsRow, IsReady, IsSeat, is_fault, row_of, searches_under};
ghost use Rattle.call_writes.specs.MakeSteps.{MakesWrites, SetsOut, Settles};
ghost use Rattle.call_writes.specs.Views.{decided_at, is_full, writes_locks};

mod skipping;

use crate::due::Due;
use crate::plan::PlanOf;
use bucket_page::PseudoKey;
use page_device::PageDevice;
use page_locks::LockTable;
use record_file::AccessPlace;
use record_file::buffer_pool::Pool;
use record_file::file_pages::FileFault;
use record_file::step_rules::Progress;

/// The writing half of a call: it carries out a plan, one access after the other.
#[derive(Drop)]
pub struct CallWrites {
    due: Due,
    access: AccessPlace,
}

impl CallWrites {
    /// Nothing is inserted or written yet.
    pub fn new() -> CallWrites
        ensures due { result.due ≡ Due.Trying 0 }
        ensures rests { result.access ≡ None }
    {
        CallWrites {
            due: Due::Trying(0),
            access: AccessPlace::new(),
        }
    }

    /// Nothing is inserted or written any more, in the place of one that may not be at rest.
    pub fn renew(&mut self)
        ensures { self.new ≡ record { due = Due.Trying 0; access = None } }
    {
        self.due = Due::Trying(0);
        self.access.close();
    }

    /// Is at rest, with this due, in the place of one that is at rest.
    pub fn begin_at(&mut self, due: Due)
        requires rests { self.old.access ≡ None }
        ensures due { self.new.due ≡ due }
        ensures rests { self.new.access ≡ None }
    {
        self.due = due;
    }

    /// Whether an access is under way.
    pub fn is_under_way(&self) -> bool
        ensures { result ≡ is_some self.now.access }
    {
        self.access.is_under_way()
    }

    /// Whether a search of the one under way is, to which the directory was granted, and which no
    /// page has answered.
    pub fn is_searching(&self) -> bool
        ensures { result ≡ searches_under self.now.access }
    {
        match self.access.get() {
            Some(access) => access.is_searching(),
            None => false,
        }
    }

    /// What is due.
    pub fn due(&self) -> Due
        ensures { result ≡ self.now.due }
    {
        self.due
    }

    /// Whether a trial has found no room, so that those before it are to go again.
    pub fn is_full(&self) -> bool
        ensures { result ≡ is_full self.now }
    {
        match (&self.due, self.access.get()) {
            (Due::Full(_), _) => true,
            (Due::Trying(_), Some(access)) => access.has_no_room(),
            (_, _) => false,
        }
    }

    /// The call has decided, once this has ended: its writes are due, or the trials that stand are
    /// to go again where one has no room.
    pub fn decide(&mut self)
        requires rests { self.old.access ≡ None }
        ensures due { self.new.due ≡ decided_at self.old.due }
        ensures rests { self.new.access ≡ None }
    {
        self.due = match self.due {
            Due::Trying(_) => Due::Writing(0),
            Due::Full(standing) => Due::Undoing(standing),
            due => due,
        };
    }

    /// One step: the next access begins where none is under way, makes its step, and is let go where
    /// it has ended. Where it writes, its deed is paid. One that has ended before is refused: it is
    /// still there only after a fault, or where it has not written, which can't be so of the records
    /// of a system. The whole has ended where nothing is left to do: all trials stand, or one has no
    /// room; or after the decision all is undone, or written.
    pub fn step<D: PageDevice, K: PseudoKey>(
        &mut self,
        plan: &PlanOf<'_>,
        pool: &mut Pool<D>,
        locks: &mut LockTable,
        keys: &K,
        seat: u8,
    ) -> Progress<FileFault>
        requires seat { IsSeat locks.old seat }
        requires ready { IsReady pool.old }
        requires row { EndsRow (writes_locks self.old) 3 (row_of locks.old seat) }
        ensures { MakesWrites (K.of_key keys.now) seat plan.now result self.old self.new
            pool.old pool.new locks.old locks.new }
    {
        match self.set_out(plan, keys) {
            Err(fault) => return Progress::Fault(fault),
            Ok(false) => return Progress::Ended,
            Ok(true) => {}
        }
        let Some(access) = self.access.get_mut() else {
            return Progress::Ended;
        };
        if access.has_ended() {
            return Progress::Fault(FileFault::Failed);
        }
        let owed = !access.has_written();
        let did = access.step(pool, locks, keys, seat);
        if owed && access.has_written() {
            self.due = plan.behind(self.due);
        }
        self.settle(did)
    }

    /// Begins the next access where none is under way. Whether one is then.
    #[inline(always)]
    fn set_out<K: PseudoKey>(&mut self, plan: &PlanOf<'_>, keys: &K) -> Result<bool, FileFault>
        ensures { SetsOut (K.of_key keys.now) plan.now result self.old self.new }
    {
        if self.access.is_under_way() {
            return Ok(true);
        }
        if plan.is_done(self.due) {
            return Ok(false);
        }
        self.begin_next(plan, keys)
    }

    /// Begins the next access, if a deed is left. It stands apart, since each step would make room for
    /// that deed.
    #[inline(never)]
    fn begin_next<K: PseudoKey>(&mut self, plan: &PlanOf<'_>, keys: &K) -> Result<bool, FileFault>
        requires none { self.old.access ≡ None }
        ensures { SetsOut (K.of_key keys.now) plan.now result self.old self.new }
    {
        let Some((deed, _)) = plan.next(self.due) else {
            return Ok(false);
        };
        if !deed.is_in_range() {
            return Err(FileFault::Failed);
        }
        deed.begin(self.access.open(), keys);
        Ok(true)
    }

    /// Lets an access go that has given its locks back.
    #[inline(always)]
    fn settle(&mut self, did: Progress<FileFault>) -> Progress<FileFault>
        ensures { Settles did result self.old self.new }
    {
        if is_fault(did) {
            return did;
        }
        let Some(access) = self.access.get() else {
            return did;
        };
        if !access.has_ended() {
            return did;
        }
        if access.has_written() {
            self.access.close();
            return did;
        }
        match self.due {
            Due::Trying(standing) => {
                if !access.has_no_room() {
                    return Progress::Fault(FileFault::Failed);
                }
                self.due = Due::Full(standing);
                self.access.close();
                did
            }
            _ => Progress::Fault(FileFault::Failed),
        }
    }
}

/// Whether it is a fault.
fn is_fault(did: Progress<FileFault>) -> bool
    ensures { result ≡ is_fault did }
{
    matches!(did, Progress::Fault(_))
}
