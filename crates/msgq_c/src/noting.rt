//! The calls of a session are noted in the journal, transfer by transfer.

ghost use Rattle.std.specs.Prelude.{◌≡◌, ◌≤◌, IfOk, OnOk, length};
ghost use Rattle.msgq_c.specs.Noted.{AsksNote, BeginsNote, BeginsNoteOf, HasSpelled, StandsOfNote, TellsNote, TellsNoteOf, asked_with};
ghost use Rattle.msgq_c.specs.Saving.{standing_of};

use crate::codes::{DONE, DUE, NO_SESSION};
use crate::handle::Handle;
use crate::kept::Kept;
use crate::saving::{Order, Stands, code_of_fault, order_of};
use pair_transfers::journal_bytes::Sum;
use pair_transfers::{FRONT_BYTES, Noting, SaveFault, Standing, Transfer};
use session::{PAGE_BYTES, Page};
use std::alloc::Global;

/// No more bytes of calls are noted at once.
const MOST_NOTED: usize = 1_048_576;

impl Kept {
    /// Begins to note its calls, beside this journal. False where its pages are to be saved instead: a call
    /// was left out, or lacked room.
    fn begin_note(&mut self, journal: Standing) -> bool
        ensures { BeginsNote journal result self.old self.new }
    {
        let many = self.log.as_slice().len();
        if !self.log.is_whole() || many > MOST_NOTED {
            return false;
        }
        if many > 0 && self.lacked_room {
            return false;
        }
        let pages = self.session.pages();
        self.noting = Noting::begin(pages, many as u32, journal);
        true
    }

    /// The next transfer of its note; none where that is over.
    fn next_of_note(&mut self) -> Result<Option<Transfer>, SaveFault>
        ensures asked { IfOk result (λ told. asked_with told self.old self.new) }
        ensures few { OnOk result (length self.new.log.bytes ≤ 1048576) }
    {
        if self.log.as_slice().len() > MOST_NOTED {
            return Err(SaveFault::Pages);
        }
        self.noting.next()
    }

    /// What is written before its calls, and behind them, where these are written next.
    fn spell_note(&self, told: &Option<Transfer>, front: &mut [u8; FRONT_BYTES], back: &mut Sum)
        requires { length self.now.log.bytes ≤ 1048576 }
        ensures { HasSpelled told.now self.now front.old front.new back.old back.new }
    {
        if let Some(Transfer::WriteCalls(..)) = told {
            self.noting.spell(self.log.as_slice(), front, back);
        }
    }

    /// It was made, or has failed; where it was a read, these bytes were read. Behind the last one no call
    /// is left to be noted.
    fn told_note(&mut self, read: &Page, is_done: bool) -> Result<(), SaveFault>
        ensures { OnOk result (TellsNote read.now is_done self.old self.new) }
    {
        if self.log.as_slice().len() > MOST_NOTED {
            return Err(SaveFault::Pages);
        }
        let mut noting = self.noting;
        let told = noting.told(read, self.log.as_slice(), is_done);
        self.noting = noting;
        told?;
        if noting.is_over() {
            self.end_notes();
        }
        Ok(())
    }
}

/// Begins to note what calls have changed, beside a journal that C knows. Where the pages are to be saved
/// instead, that is told. Whoever has begun makes each transfer that is told, and tells how it went; no
/// other call is made on the handle meanwhile.
#[unsafe(no_mangle)]
pub extern "C" fn msgq_session_note_begin(
    alloc: Global,
    handle: &mut Handle,
    stands: &Stands,
    sum: &Sum,
) -> u32
    ensures { BeginsNoteOf (standing_of stands.now sum.now) result
        handle.old.held.session handle.new.held.session }
{
    if !handle.is_open {
        return NO_SESSION;
    }
    let mut kept = handle.take(alloc);
    let is_begun = kept.begin_note(Standing {
        size: stands.size,
        end: stands.end,
        number: stands.number,
        sum: *sum,
    });
    handle.put(kept);
    if is_begun { DONE } else { DUE }
}

/// The transfer that is to be made next; `OVER` where the calls are noted. Where these are written they
/// stand between these bytes: what goes before them, of which the first 80 are a head where one is
/// written, and what goes behind.
#[unsafe(no_mangle)]
pub extern "C" fn msgq_session_note_next(
    alloc: Global,
    handle: &mut Handle,
    order: &mut Order,
    front: &mut [u8; FRONT_BYTES],
    back: &mut Sum,
) -> u32
    ensures { AsksNote order.new front.old front.new back.old back.new result
        handle.old.held.session handle.new.held.session }
{
    if !handle.is_open {
        return NO_SESSION;
    }
    let mut kept = handle.take(alloc);
    let told = kept.next_of_note();
    match told {
        Ok(transfer) => {
            kept.spell_note(&transfer, front, back);
            handle.put(kept);
            *order = order_of(&transfer);
            DONE
        }
        Err(fault) => {
            handle.put(kept);
            code_of_fault(fault)
        }
    }
}

/// The transfer was made, or has failed. Where it was a read, these are the bytes that were read, and any
/// others.
#[unsafe(no_mangle)]
pub extern "C" fn msgq_session_note_told(
    alloc: Global,
    handle: &mut Handle,
    read: &[u8; PAGE_BYTES],
    is_done: bool,
) -> u32
    ensures { TellsNoteOf read.now is_done result
        handle.old.held.session handle.new.held.session }
{
    if !handle.is_open {
        return NO_SESSION;
    }
    let mut kept = handle.take(alloc);
    let told = kept.told_note(read, is_done);
    handle.put(kept);
    match told {
        Ok(()) => DONE,
        Err(fault) => code_of_fault(fault),
    }
}

/// What is known of the journal once the calls are noted.
#[unsafe(no_mangle)]
pub extern "C" fn msgq_session_note_stands(
    alloc: Global,
    handle: &mut Handle,
    stands: &mut Stands,
    sum: &mut Sum,
) -> u32
    ensures { StandsOfNote stands.new sum.new result
        handle.old.held.session handle.new.held.session }
{
    if !handle.is_open {
        return NO_SESSION;
    }
    let kept = handle.take(alloc);
    let standing = kept.noting.standing();
    handle.put(kept);
    *stands = Stands {
        size: standing.size,
        end: standing.end,
        number: standing.number,
    };
    let last = standing.sum;
    *sum = last;
    DONE
}
