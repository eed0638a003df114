//! The transfers of a note of calls, with their places and their bytes.
ghost use Rattle.std.specs.Prelude.{◌≡◌, ◌≤◌, true, IfErr, IfOk, OnErr, OnOk, length, take};
ghost use Rattle.journal_bytes.specs.Bytes.{says};
ghost use Rattle.journal_bytes.specs.Entries.{calls_sum};
ghost use Rattle.pair_transfers.specs.NoteTransfers.{addition_of_note, asked_note, begins_note, end_of_note, first_step_of_note, front_of_note, head_over, head_read, is_noted, notes_over, room_taken, step_behind, told_note, transfer_of_note, with_calls_added, with_head_of};
ghost use Rattle.pair_transfers.specs.Transfers.{next_number};
ghost use Rattle.pair_transfers.specs.declared.note.NotePlace.TheVariants.{Failed};
ghost use Rattle.pair_transfers.specs.declared.save.SaveFault.TheVariants.{Device};

use crate::bytes::next_number;
use crate::note::{Note, NoteAct, NotePlace};
use crate::save::SaveFault;
use crate::transfers::{Standing, Transfer};
use journal_bytes::{
    HEAD_BYTES, LEAST_ENTRY, Seal, Sum, WORD_BYTES, seal_of, spell_calls, spell_head_of_calls,
};
use safe_device::page_device::Page;

/// Bytes before the calls of an addition: a head, where it is the first, and its word.
pub const FRONT_BYTES: usize = HEAD_BYTES + WORD_BYTES;

/// Zeros are added to a journal in steps of so many bytes: what is written over bytes that are there
/// waits for these alone.
const STEP: u64 = 262_144;

/// So many at once.
const ZEROS: u32 = 65_536;

/// How far a note has come.
#[derive(Clone, Copy)]
pub enum NoteStep {
    /// The next act is asked for.
    Ask,
    /// The head of the last save is read.
    ReadHead,
    /// No head tells the number of the last save: the journal is cut.
    Cut,
    /// That has to outlast a crash before a number is used again.
    SyncCut,
    /// Page 0 is read, by whose seal a head knows its file.
    ReadZero,
    /// Zeros are added up to this place.
    TakeRoom(u64),
    /// These outlast a crash.
    SyncRoom,
    /// The addition is written.
    Write,
    /// The journal is synced.
    Sync,
}

/// A note, transfer by transfer.
#[derive(Clone, Copy)]
pub struct Noting {
    note: Note,
    /// How many pages the file has.
    count: u32,
    /// How many bytes of calls are noted.
    calls: u32,
    journal: Standing,
    /// The seal of page 0, where the addition is the first and has a head before it.
    head: Option<Seal>,
    step: NoteStep,
}

impl Noting {
    /// None is under way.
    pub fn none() -> Noting
        ensures { result ≡ notes_over }
    {
        Noting {
            note: Note {
                place: NotePlace::Noted,
            },
            count: 0,
            calls: 0,
            journal: Standing {
                size: 0,
                end: 0,
                number: 0,
                sum: [0; 32],
            },
            head: None,
            step: NoteStep::Ask,
        }
    }

    /// Begins to note so many bytes of calls of a file that has so many pages, beside this journal.
    pub fn begin(count: u32, calls: u32, journal: Standing) -> Noting
        ensures { result ≡ begins_note count calls journal }
    {
        let number = if journal.end > 0 { journal.number } else { 1 };
        let sum = journal.sum;
        Noting {
            note: Note::begin(),
            count,
            calls,
            journal: Standing {
                size: journal.size,
                end: journal.end,
                number,
                sum,
            },
            head: None,
            step: NoteStep::Ask,
        }
    }

    /// What is known of the journal once all is done.
    pub fn standing(&self) -> Standing
        ensures { result ≡ self.now.journal }
    {
        self.journal
    }

    /// Whether all is done.
    pub fn is_over(&self) -> bool
        ensures { result ≡ is_noted self.now.note.place }
    {
        matches!(self.note.place, NotePlace::Noted)
    }

    /// The transfer that is to be made next; none where all is done.
    pub fn next(&mut self) -> Result<Option<Transfer>, SaveFault>
        ensures new { OnOk result (self.new ≡ asked_note self.old) }
        ensures told { IfOk result (λ told. told ≡ transfer_of_note self.new) }
        ensures err { IfErr result (λ fault. fault ≡ Device) }
    {
        self.ask()?;
        Ok(self.transfer())
    }

    /// The next act is asked for.
    fn ask(&mut self) -> Result<(), SaveFault>
        ensures new { OnOk result (self.new ≡ asked_note self.old) }
        ensures err { IfErr result (λ fault. fault ≡ Device) }
    {
        let NoteStep::Ask = self.step else {
            return Ok(());
        };
        match self.note.next()? {
            None => {}
            Some(NoteAct::Add) => self.step = self.first_step(),
            Some(NoteAct::Sync) => self.step = NoteStep::Sync,
        }
        Ok(())
    }

    /// With which step an addition begins: a journal without one needs a head, and that a number.
    fn first_step(&self) -> NoteStep
        ensures { result ≡ first_step_of_note self.now }
    {
        if self.journal.end > 0 {
            return self.step_behind();
        }
        if self.journal.size >= HEAD_BYTES as u64 {
            return NoteStep::ReadHead;
        }
        if self.journal.size > 0 {
            return NoteStep::Cut;
        }
        NoteStep::ReadZero
    }

    /// With which it goes on behind a head: the journal gets room, where it lacks that.
    fn step_behind(&self) -> NoteStep
        ensures { result ≡ step_behind self.now }
    {
        let end = self.end();
        let size = self.journal.size;
        if end <= size {
            return NoteStep::Write;
        }
        let steps = (end - size) / STEP + 1;
        NoteStep::TakeRoom(size.saturating_add(steps.saturating_mul(STEP)))
    }

    /// Where the addition ends.
    fn end(&self) -> u64
        ensures { result ≡ end_of_note self.now }
    {
        let many = LEAST_ENTRY as u64 + u64::from(self.calls);
        self.journal.end.saturating_add(many)
    }

    /// The transfer of its step.
    fn transfer(&self) -> Option<Transfer>
        ensures { result ≡ transfer_of_note self.now }
    {
        match self.step {
            NoteStep::Ask => None,
            NoteStep::ReadHead => Some(Transfer::ReadHead),
            NoteStep::Cut => Some(Transfer::CutJournal),
            NoteStep::SyncCut | NoteStep::SyncRoom => Some(Transfer::SyncJournal(true)),
            NoteStep::ReadZero => Some(Transfer::ReadPage(0)),
            NoteStep::TakeRoom(_) => Some(Transfer::WriteZeros(self.journal.size, ZEROS)),
            NoteStep::Write => Some(self.addition()),
            NoteStep::Sync => Some(Transfer::SyncJournal(false)),
        }
    }

    /// That of the addition, with a head before it where it is the first.
    fn addition(&self) -> Transfer
        ensures { result ≡ addition_of_note self.now }
    {
        let many = self.calls.saturating_add(LEAST_ENTRY as u32);
        match self.head {
            None => Transfer::WriteCalls(self.journal.end, many),
            Some(_) => Transfer::WriteCalls(0, many.saturating_add(HEAD_BYTES as u32)),
        }
    }

    /// What is written before these calls, and behind them. Where there is no head the first bytes stay.
    pub fn spell(&self, calls: &[u8], front: &mut [u8; FRONT_BYTES], back: &mut Sum)
        requires { length calls.now ≤ 1073741823 }
        ensures front { front.new ≡ front_of_note self.now calls.now front.old }
        ensures back { back.new ≡ calls_sum self.now.journal.sum calls.now }
    {
        let (word, sum) = spell_calls(&self.journal.sum, calls);
        let (head, last) = front.split_at_mut(HEAD_BYTES);
        self.spell_head(head);
        last.copy_from_slice(&word);
        back.copy_from_slice(&sum);
    }

    /// The head, where there is one.
    fn spell_head(&self, head: &mut [u8])
        requires { length head.old ≡ 80 }
        ensures { head.new ≡ head_over self.now self.now.head head.old }
    {
        if let Some(seal) = &self.head {
            let (bytes, _) = spell_head_of_calls(self.count, self.journal.number, seal);
            head.copy_from_slice(&bytes);
        }
    }
}

impl Noting {
    /// The transfer was made, or has failed; where it was a read, these bytes were read. These are the
    /// calls that are noted.
    pub fn told(&mut self, read: &Page, calls: &[u8], is_done: bool) -> Result<(), SaveFault>
        requires { length calls.now ≤ 1073741823 }
        ensures ok { OnOk result (self.new ≡ told_note read.now calls.now self.old) }
        ensures done { OnOk result (is_done ≡ true) }
        ensures failed { OnErr result (self.new.note.place ≡ Failed) }
        ensures err { IfErr result (λ fault. fault ≡ Device) }
    {
        if !is_done {
            self.step = NoteStep::Ask;
            return self.note.told(false);
        }
        match self.step {
            NoteStep::Ask => {}
            NoteStep::ReadHead => self.number(read),
            NoteStep::Cut => self.step = NoteStep::SyncCut,
            NoteStep::SyncCut => {
                self.journal.size = 0;
                self.step = NoteStep::ReadZero;
            }
            NoteStep::ReadZero => self.begin_head(read),
            NoteStep::TakeRoom(end) => self.take_room(end),
            NoteStep::SyncRoom => self.step = NoteStep::Write,
            NoteStep::Write => {
                self.add(calls);
                return self.note.told(true);
            }
            NoteStep::Sync => {
                self.step = NoteStep::Ask;
                return self.note.told(true);
            }
        }
        Ok(())
    }

    /// The head of the last save was read: this one has the number above, where it tells one.
    fn number(&mut self, read: &Page)
        ensures { self.new ≡ head_read (next_number (says (take 80 read.now))) self.old }
    {
        let Some(number) = next_number(read) else {
            self.step = NoteStep::Cut;
            return;
        };
        self.journal.number = number;
        self.step = NoteStep::ReadZero;
    }

    /// Page 0 was read: a head goes before the addition.
    fn begin_head(&mut self, read: &Page)
        ensures { self.new ≡ with_head_of read.now self.old }
    {
        let seal = seal_of(read);
        let (_, sum) = spell_head_of_calls(self.count, self.journal.number, &seal);
        self.journal.sum = sum;
        self.journal.end = HEAD_BYTES as u64;
        self.head = Some(seal);
        self.step = self.step_behind();
    }

    /// Zeros were added.
    fn take_room(&mut self, end: u64)
        ensures { self.new ≡ room_taken end self.old }
    {
        self.journal.size = self.journal.size.saturating_add(u64::from(ZEROS));
        if self.journal.size >= end {
            self.step = NoteStep::SyncRoom;
        }
    }

    /// The addition was written.
    fn add(&mut self, calls: &[u8])
        requires { length calls.now ≤ 1073741823 }
        ensures { self.new ≡ with_calls_added calls.now self.old }
    {
        let end = self.end();
        let (_, sum) = spell_calls(&self.journal.sum, calls);
        self.journal.sum = sum;
        self.journal.end = end;
        self.head = None;
        self.step = NoteStep::Ask;
    }
}
