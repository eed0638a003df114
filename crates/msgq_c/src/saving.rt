//! A session is saved, transfer by transfer.

ghost use Rattle.std.specs.Prelude.{◌≡◌, ◌*◌, IfOk, OnOk};
ghost use Rattle.pair_transfers.specs.Transfers.{begins_at};
ghost use Rattle.session.specs.Session.{pages_of};
ghost use Rattle.msgq_c.specs.Saving.{AsksHandle, AsksKept, BeginsHandle, TellsHandle, TellsKept, fault_code, order_of, standing_of};

use crate::codes::{DONE, FAILED, NO_MEMORY, NO_SESSION};
use crate::handle::Handle;
use crate::kept::Kept;
use pair_transfers::journal_bytes::{IMAGE_BYTES, Sum};
use pair_transfers::{SaveFault, Standing, Transfer, Transfers, Unsaved};
use session::{PAGE_BYTES, Page};
use std::alloc::Global;
use std::mem;

/// Nothing is left to be done.
pub(crate) const OVER: u32 = 0;

/// So many bytes of the journal are read.
pub(crate) const READ_JOURNAL: u32 = 1;

/// The same of the file.
pub(crate) const READ_FILE: u32 = 2;

/// So many bytes are written into the journal.
pub(crate) const WRITE_JOURNAL: u32 = 3;

/// The same into the file.
pub(crate) const WRITE_FILE: u32 = 4;

/// The journal is cut to nothing.
pub(crate) const CUT_JOURNAL: u32 = 5;

/// The journal is synced.
pub(crate) const SYNC_JOURNAL: u32 = 6;

/// The same, where its length is as it was.
pub(crate) const SYNC_JOURNAL_BYTES: u32 = 7;

/// The file is synced, whose length is as it was.
pub(crate) const SYNC_FILE_BYTES: u32 = 8;

/// The file is synced.
pub(crate) const SYNC_FILE: u32 = 9;

/// The file is ended behind so many bytes, which stand as the place.
pub(crate) const CUT_FILE: u32 = 10;

/// So many bytes of calls are made again, which stand from there on in what was read last.
pub(crate) const REMAKE: u32 = 11;

/// So many zeros are written into the journal.
pub(crate) const WRITE_ZEROS: u32 = 12;

/// An addition of calls of so many bytes is written into the journal.
pub(crate) const WRITE_CALLS: u32 = 13;

/// A transfer that C is to make, but for its bytes.
#[repr(C)]
#[derive(Clone, Copy)]
pub struct Order {
    /// What is done.
    pub kind: u32,
    /// With how many bytes.
    pub length: u32,
    /// From which place on.
    pub at: u64,
}

/// What C knows of a journal, but for its digest.
#[repr(C)]
#[derive(Clone, Copy)]
pub struct Stands {
    /// How many bytes it has.
    pub size: u64,
    /// Where its calls end; 0 where there are none.
    pub end: u64,
    /// The number of its save, where there are some.
    pub number: u64,
}

impl Unsaved for Kept {
    ghost use Rattle.std.specs.Prelude.{true};
    ghost use Rattle.msgq_c.specs.Keeping.{IsSaved};
    ghost use Rattle.msgq_c.specs.Saving.{Turns, Wants, saved_by};

    ghost saved = { saved_by };

    ghost wants = { Wants };

    ghost turned = { Turns };

    ghost noted = { IsSaved true };

    ghost as_many = { λ k content is. is.as_many };

    fn next_changed(&self, from: u32) -> Option<u32> {
        self.session.next_changed(from)
    }

    fn page(&mut self, page: u32) -> Option<Page> {
        let pages = self.session.pages();
        if page >= pages {
            return None;
        }
        self.session.page(page)
    }

    fn note_saved(&mut self) -> bool {
        self.end_save()
    }
}

impl Kept {
    /// Begins to save its pages, beside this journal.
    fn begin_save(&mut self, journal: Standing)
        ensures { self.new ≡ record self.old {
          transfers = begins_at (pages_of self.old.session) journal self.old.transfers;
        } }
    {
        let pages = self.session.pages();
        self.transfers.begin(pages, journal);
    }

    /// The next transfer of its save; none where that is over.
    fn next_transfer(&mut self, alloc: Global) -> Result<Option<Transfer>, SaveFault>
        ensures { IfOk result (AsksKept self.old self.new) }
    {
        let mut transfers = mem::replace(&mut self.transfers, Transfers::none(alloc));
        let told = transfers.next(self);
        self.transfers = transfers;
        told
    }

    /// It was made, or has failed; where it was a read, these bytes were read.
    fn told(&mut self, alloc: Global, read: &Page, is_done: bool) -> Result<(), SaveFault>
        ensures { OnOk result (TellsKept read.now is_done self.old self.new) }
    {
        let mut transfers = mem::replace(&mut self.transfers, Transfers::none(alloc));
        let result = transfers.told(self, read, is_done);
        self.transfers = transfers;
        result
    }
}

/// Begins to save the pages that have changed, beside a journal that C knows. Whoever has begun makes
/// each transfer that is told, and tells how it went; no other call is made on the handle meanwhile.
#[unsafe(no_mangle)]
pub extern "C" fn msgq_session_save_begin(
    alloc: Global,
    handle: &mut Handle,
    stands: &Stands,
    sum: &Sum,
) -> u32
    ensures { BeginsHandle (standing_of stands.now sum.now) result
        handle.old.held.session handle.new.held.session }
{
    if !handle.is_open {
        return NO_SESSION;
    }
    let mut kept = handle.take(alloc);
    kept.begin_save(Standing {
        size: stands.size,
        end: stands.end,
        number: stands.number,
        sum: *sum,
    });
    handle.put(kept);
    DONE
}

/// The transfer that is to be made next, with the bytes that are to be written; `OVER` where the pages
/// are saved.
#[unsafe(no_mangle)]
pub extern "C" fn msgq_session_save_next(
    alloc: Global,
    handle: &mut Handle,
    order: &mut Order,
    bytes: &mut [u8; IMAGE_BYTES],
) -> u32
    ensures { AsksHandle order.new bytes.old bytes.new result
        handle.old.held.session handle.new.held.session }
{
    if !handle.is_open {
        return NO_SESSION;
    }
    let mut kept = handle.take(alloc);
    let told = kept.next_transfer(alloc);
    match told {
        Ok(transfer) => {
            kept.transfers.spell(bytes);
            handle.put(kept);
            *order = order_of(&transfer);
            DONE
        }
        Err(fault) => {
            handle.put(kept);
            code_of_fault(fault)
        }
    }
}

/// The transfer was made, or has failed. Where it was a read, these are the bytes that were read, and
/// any others.
#[unsafe(no_mangle)]
pub extern "C" fn msgq_session_save_told(
    alloc: Global,
    handle: &mut Handle,
    read: &[u8; PAGE_BYTES],
    is_done: bool,
) -> u32
    ensures { TellsHandle read.now is_done result
        handle.old.held.session handle.new.held.session }
{
    if !handle.is_open {
        return NO_SESSION;
    }
    let mut kept = handle.take(alloc);
    let told = kept.told(alloc, read, is_done);
    handle.put(kept);
    match told {
        Ok(()) => DONE,
        Err(fault) => code_of_fault(fault),
    }
}

/// That of a save that is not made.
pub(crate) fn code_of_fault(fault: SaveFault) -> u32
    ensures { result ≡ fault_code fault }
{
    match fault {
        SaveFault::Device | SaveFault::Pages => FAILED,
        SaveFault::NoMemory => NO_MEMORY,
    }
}

/// What is told of a transfer, but for its bytes.
pub(crate) fn order_of(transfer: &Option<Transfer>) -> Order
    ensures { result ≡ order_of transfer.now }
{
    match transfer {
        None => Order::at(OVER, 0, 0),
        Some(Transfer::ReadHead) => Order::at(READ_JOURNAL, 80, 0),
        Some(Transfer::ReadJournal(at, length)) => Order::at(READ_JOURNAL, *length, *at),
        Some(Transfer::ReadPage(page)) => Order::of_page(READ_FILE, *page),
        Some(Transfer::WriteHead) => Order::at(WRITE_JOURNAL, 80, 0),
        Some(Transfer::WriteImage(at)) => Order::at(WRITE_JOURNAL, 4132, *at),
        Some(Transfer::WriteEntry(at)) => Order::at(WRITE_JOURNAL, 36, *at),
        Some(Transfer::WritePage(page)) => Order::of_page(WRITE_FILE, *page),
        Some(Transfer::CutFile(pages)) => Order::at(CUT_FILE, 0, u64::from(*pages) * 4096),
        Some(Transfer::CutJournal) => Order::at(CUT_JOURNAL, 0, 0),
        Some(Transfer::SyncJournal(true)) => Order::at(SYNC_JOURNAL, 0, 0),
        Some(Transfer::SyncJournal(false)) => Order::at(SYNC_JOURNAL_BYTES, 0, 0),
        Some(Transfer::SyncFile(true)) => Order::at(SYNC_FILE, 0, 0),
        Some(Transfer::SyncFile(false)) => Order::at(SYNC_FILE_BYTES, 0, 0),
        Some(Transfer::Remake(calls)) => Order::at(REMAKE, *calls, 4),
        Some(Transfer::WriteZeros(at, zeros)) => Order::at(WRITE_ZEROS, *zeros, *at),
        Some(Transfer::WriteCalls(at, length)) => Order::at(WRITE_CALLS, *length, *at),
    }
}

impl Order {
    fn at(kind: u32, length: u32, at: u64) -> Order
        ensures { result ≡ record { kind = kind; length = length; at = at } }
    {
        Order { kind, length, at }
    }

    fn of_page(kind: u32, page: u32) -> Order
        ensures { result ≡ record { kind = kind; length = 4096; at = page * 4096 } }
    {
        Order::at(kind, 4096, u64::from(page) * 4096)
    }
}
