//! What is done with a kernel between calls, so that it serves for long.

ghost use Rattle.std.specs.Prelude.{◌≡◌, ◌↔◌, ◌<◌, IfErr, IfOk, IsSome, IsTrue, Some, length, true};
ghost use Rattle.interleaving_core.specs.Active.{ActiveView};
ghost use Rattle.interleaving_core.specs.Kernel.{call_at};
ghost use Rattle.interleaving_core.specs.Renewing.{Flushes, IsBetweenCalls, IsRenewed, Reads, Reseats, Withdraws, failure_of_pool};
ghost use Rattle.interleaving_core.specs.Words.{IsSeat, TellsChanged};

use crate::fault::{CloseFault, Failure};
use crate::kernel::Kernel;
use crate::places::{are_idle_or_wait, outlast};
use bucket_page::PseudoKey;
use buffer_pool::PoolFault;
use file_pages::FileFault;
use page_device::{Page, PageDevice};
use queue_model::{Call, Caller, Entry, NoMemory};
use std::alloc::Global;
use std::mem;
use type_chains::a_callers_numbers_fit;

impl<D: PageDevice + Drop, K: PseudoKey + Drop> Kernel<D, K> {
    /// Takes the call of a seat back that holds no lock and has no answer yet, as each of which its
    /// seat was told that it waits. It has written nothing; the seat has no call then, and nothing
    /// else is changed. `None` where the seat has no such call; then nothing is changed at all.
    pub fn withdraw(&mut self, seat: u8) -> Option<Call>
        requires { IsSeat self.old.locks seat }
        ensures call { Withdraws seat result self.old self.new }
        ensures waits { (a : ActiveView) → call_at self.old.seats seat ≡ Some a →
            IsSome a.wait → result ≡ Some a.machine.call }
    {
        let place = seat as usize - 1;
        self.seats[place].is_new_while_waiting();
        if self.locks.last(seat).is_some() {
            return None;
        }
        self.seats[place].withdraw()
    }

    /// Whether no step has failed, and each seat has no call, or one of which it was told that it
    /// waits.
    pub fn is_between_calls(&self) -> bool
        ensures { IsTrue result ↔ IsBetweenCalls self.now }
    {
        self.failure.is_none() && are_idle_or_wait(self.seats.as_slice())
    }

    /// Takes the journal out: the kernel goes on from the system after it with an empty one, so
    /// `MAX_DECIDED` more calls may be decided. A call that waits is still woken by what wakes it.
    ///
    /// # Errors
    ///
    /// `NoMemory` where there is none for the entries that are due. Nothing is changed.
    pub fn renew(&mut self) -> Result<Vec<Entry>, NoMemory>
        requires { IsBetweenCalls self.old }
        ensures ok { IfOk result (λ journal. IsRenewed journal.items self.old self.new) }
        ensures err { IfErr result (λ _. self.new ≡ self.old) }
    {
        let alloc: Global = *self.journal.allocator();
        let mut journal = Vec::new(alloc);
        journal.reserve(self.seats.len() + 1)?;
        outlast(self.seats.as_mut_slice(), self.journal.as_slice());
        Ok(mem::replace(&mut self.journal, journal))
    }

    /// Lets the journal go, for who needs it no more: as `renew`, but its memory stays for the next
    /// entries, so none is wanted.
    pub fn forget(&mut self)
        requires { IsBetweenCalls self.old }
        ensures renewed { IsRenewed self.old.journal self.old self.new }
        ensures room { self.new.room ≡ self.old.room }
    {
        outlast(self.seats.as_mut_slice(), self.journal.as_slice());
        self.journal.clear();
    }

    /// Has another caller sit at a seat that has no call. The journal is let go, as by `forget`: its
    /// entries tell of who sat there when they were decided. False where the seat has a call or the
    /// kernel is not between calls; then nothing is changed.
    pub fn reseat(&mut self, seat: u8, caller: Caller) -> bool
        requires { IsSeat self.old.locks seat }
        ensures { Reseats seat caller result self.old self.new }
    {
        if !self.is_between_calls() {
            return false;
        }
        let place = seat as usize - 1;
        if self.seats[place].has_call() {
            return false;
        }
        a_callers_numbers_fit(&caller);
        self.callers[place] = caller;
        self.forget();
        true
    }

    /// How many pages the file has.
    pub fn pages(&self) -> u32
        ensures images { result ≡ length self.now.pool.images }
        ensures stored { result ≡ length self.now.pool.stored }
    {
        self.pool.pages()
    }

    /// The next page from this one on that may have changed since the device had it; `None` where
    /// there is none. An honest device has the images of all pages that are passed by.
    pub fn next_changed(&self, from: u32) -> Option<u32>
        ensures { TellsChanged from result self.now.pool }
    {
        self.pool.next_changed(from)
    }

    /// Writes the pages to the device and syncs it, and goes on: an honest device then has the file
    /// of the system after the journal.
    ///
    /// # Errors
    ///
    /// `Device` where a transfer failed. From here on no call begins, and none goes on; `failure`
    /// tells the fault, with 0 for a seat. What was changed since the last flush may be lost.
    pub fn flush(&mut self) -> Result<(), CloseFault>
        requires { IsBetweenCalls self.old }
        ensures { Flushes result self.old self.new }
    {
        match self.pool.flush() {
            Ok(()) => Ok(()),
            Err(fault) => {
                self.fail(fault);
                Err(CloseFault::Device)
            }
        }
    }

    /// A page of the file as a flush writes it, sealed: 4,096 bytes. Pages count from 0.
    ///
    /// # Errors
    ///
    /// The fault of the pool where the page can't be read from the device: a transfer failed, or
    /// what the device has is none of its pages. Then the kernel has failed, as by `flush`.
    pub fn page(&mut self, page: u32) -> Result<Page, PoolFault>
        requires rest { IsBetweenCalls self.old }
        requires within { page < length self.old.pool.images }
        ensures { Reads page result self.old self.new }
    {
        match self.pool.pin(page) {
            Ok(frame) => {
                let bytes = self.pool.sealed(&frame);
                self.pool.unpin(frame);
                Ok(bytes)
            }
            Err(fault) => {
                self.fail(fault);
                Err(fault)
            }
        }
    }

    /// The pool was refused something, and the kernel has failed.
    fn fail(&mut self, fault: PoolFault)
        ensures { self.new ≡ record self.old { failed = true; failure = failure_of_pool fault } }
    {
        self.failure = Some(Failure {
            seat: 0,
            fault: FileFault::Pool(fault),
        });
    }
}
