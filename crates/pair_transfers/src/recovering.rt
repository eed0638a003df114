//! The transfers of a recovery, with their places and their bytes; and the calls that stand in a journal.
ghost use Rattle.std.specs.Prelude.{◌≡◌, true, Err, IfErr, IfOk, Ok, OnErr, OnOk, Some, length};
ghost use Rattle.journal_bytes.specs.Entries.{image_in};
ghost use Rattle.pair_transfers.specs.Reading.{wanted};
ghost use Rattle.pair_transfers.specs.RecoveryTransfers.{Asks, Refuses, Tells, act_done, act_made, asked_of, asked_on, begins_calls, calls_read, is_long, next_calls, put_next, recovers_at, standing_behind, taken_up, told_on, transfer_now, transfer_of_act, waits_for_length, with_put_back, written_by, written_now};
ghost use Rattle.pair_transfers.specs.Transfers.{laid_over};
ghost use Rattle.pair_transfers.specs.declared.recovery.RecoverFault.TheVariants.{Device};
ghost use Rattle.pair_transfers.specs.declared.recovery.RecoveryPlace.TheVariants.{Failed};

use crate::additions::{Additions, Came};
use crate::bytes::put_first;
use crate::looking::{Look, Looking};
use crate::recovery::{RecoverFault, Recovery, RecoveryAct, RecoveryPlace};
use crate::transfers::{MOST_KEPT, MOST_KEPT_OF_CALLS, Standing, Transfer};
use journal_bytes::{IMAGE_BYTES, LEAST_ENTRY, Sum, read_image, spell_end, spell_put_back};
use safe_device::FoundJournal;
use safe_device::page_device::Page;

/// How far a recovery has come.
#[derive(Clone, Copy)]
pub enum RecoveryStep {
    /// The journal is looked at.
    Look,
    /// The next act is asked for.
    Ask,
    /// The image is read that is put back.
    ReadImage,
    /// It is written over this page.
    PutPage(u32, Page),
    /// An act that is one transfer.
    Make(RecoveryAct),
    /// A part of the calls that stand in the journal is read.
    ReadCalls,
    /// So many bytes of calls were read, which are made again.
    HandOn(u32),
}

/// A recovery, transfer by transfer.
#[derive(Clone, Copy)]
pub struct Recovering {
    looking: Looking,
    recovery: Recovery,
    /// Where the next image stands that is put back.
    at: u64,
    /// The digest before it.
    sum: Sum,
    /// What is known of the journal once all is done.
    journal: Standing,
    /// The calls that are made again.
    calls: Additions,
    step: RecoveryStep,
}

impl Recovering {
    /// A recovery of a file, beside a journal, of so many bytes.
    pub fn begin(journal: u64, file: u64) -> Recovering
        ensures { result ≡ recovers_at journal file }
    {
        let looking = Looking::begin(journal, file);
        Recovering {
            looking,
            recovery: Recovery {
                place: RecoveryPlace::Resting,
                found: FoundJournal {
                    count: 0,
                    calls: 0,
                    images: 0,
                },
            },
            at: 0,
            sum: [0; 32],
            journal: Standing {
                size: journal,
                end: 0,
                number: 0,
                sum: [0; 32],
            },
            calls: Additions::begin([0; 32], 0),
            step: RecoveryStep::Look,
        }
    }

    /// What is known of the journal once all is done.
    pub fn standing(&self) -> Standing
        ensures { result ≡ self.now.journal }
    {
        self.journal
    }

    /// The transfer that is to be made next; none where all is done.
    pub fn next(&mut self) -> Result<Option<Transfer>, RecoverFault>
        ensures ok { IfOk result (λ told. Asks self.old self.new told) }
        ensures err { IfErr result (Refuses self.old) }
    {
        self.take_up()?;
        self.ask()?;
        Ok(self.transfer())
    }

    /// Behind a look the recovery begins, where the journal is of this file.
    fn take_up(&mut self) -> Result<(), RecoverFault>
        ensures ok { OnOk result (Ok self.new ≡ taken_up self.old) }
        ensures err { IfErr result (λ fault. Err fault ≡ taken_up self.old) }
    {
        let RecoveryStep::Look = self.step else {
            return Ok(());
        };
        let Look::Told(seen) = self.looking.step else {
            return Ok(());
        };
        self.recovery = Recovery::begin(seen)?;
        self.at = self.looking.additions.at;
        self.sum = self.looking.additions.sum;
        self.journal = self.standing_behind();
        self.step = RecoveryStep::Ask;
        Ok(())
    }

    /// What is known of the journal behind the look: where its calls end, if it has any.
    fn standing_behind(&self) -> Standing
        ensures { result ≡ standing_behind self.now }
    {
        if self.recovery.found.calls == 0 {
            return self.journal;
        }
        Standing {
            size: self.journal.size,
            end: self.at,
            number: self.looking.head.number,
            sum: self.sum,
        }
    }

    /// The next act is asked for.
    fn ask(&mut self) -> Result<(), RecoverFault>
        ensures ok { OnOk result (self.new ≡ asked_on self.old) }
        ensures err { IfErr result (λ fault. fault ≡ Device) }
    {
        let RecoveryStep::Ask = self.step else {
            return Ok(());
        };
        match self.recovery.next()? {
            None => {}
            Some(RecoveryAct::PutBack(_)) => self.step = RecoveryStep::ReadImage,
            Some(act) => self.step = RecoveryStep::Make(act),
        }
        Ok(())
    }

    /// The transfer of its step.
    fn transfer(&self) -> Option<Transfer>
        ensures { result ≡ transfer_now self.now }
    {
        match &self.step {
            RecoveryStep::Look => Some(self.looking.transfer()),
            RecoveryStep::Ask => None,
            RecoveryStep::ReadImage => Some(Transfer::ReadJournal(self.at, IMAGE_BYTES as u32)),
            RecoveryStep::PutPage(page, _) => Some(Transfer::WritePage(*page)),
            RecoveryStep::Make(act) => Some(self.transfer_of_act(*act)),
            RecoveryStep::ReadCalls => self.next_calls(),
            RecoveryStep::HandOn(calls) => Some(Transfer::Remake(*calls)),
        }
    }

    /// That of an act that is one transfer.
    fn transfer_of_act(&self, act: RecoveryAct) -> Transfer
        ensures { result ≡ transfer_of_act self.now act }
    {
        match act {
            RecoveryAct::SyncJournal => Transfer::SyncJournal(self.waits_for_length()),
            RecoveryAct::Cut(pages) => Transfer::CutFile(pages),
            RecoveryAct::PutBack(_) => Transfer::ReadJournal(self.at, IMAGE_BYTES as u32),
            RecoveryAct::SyncFile => Transfer::SyncFile(true),
            RecoveryAct::EndImages => Transfer::WriteEntry(self.journal.end),
            RecoveryAct::End if self.is_long() => Transfer::CutJournal,
            RecoveryAct::End => Transfer::WriteHead,
        }
    }

    /// What is written by the transfer that was told last stands first; the bytes behind it stay.
    pub fn spell(&self, into: &mut [u8; IMAGE_BYTES])
        ensures { into.new ≡ laid_over (written_now self.now) into.old }
    {
        match &self.step {
            RecoveryStep::PutPage(_, bytes) => put_first(bytes, into),
            RecoveryStep::Make(act) => self.spell_act(*act, into),
            _ => {}
        }
    }

    /// The same of an act that is one transfer.
    fn spell_act(&self, act: RecoveryAct, into: &mut [u8; IMAGE_BYTES])
        ensures { into.new ≡ laid_over (written_by self.now act) into.old }
    {
        match act {
            RecoveryAct::EndImages => {
                let (entry, _) = spell_put_back(&self.journal.sum);
                put_first(&entry, into);
            }
            RecoveryAct::End if !self.is_long() => {
                put_first(&spell_end(self.looking.head.number), into);
            }
            _ => {}
        }
    }

    /// Whether a journal without calls is too long to be kept.
    fn is_long(&self) -> bool
        ensures { result ≡ is_long self.now }
    {
        MOST_KEPT < self.journal.size
    }

    /// Whether the length of the journal is waited for, too: not where its head alone was written over.
    fn waits_for_length(&self) -> bool
        ensures { result ≡ waits_for_length self.now }
    {
        let is_cleared = matches!(self.recovery.place, RecoveryPlace::Cleared);
        !is_cleared || self.recovery.found.calls > 0 || self.is_long()
    }

    /// The next part of the calls, where some are left.
    fn next_calls(&self) -> Option<Transfer>
        ensures { result ≡ next_calls self.now.calls }
    {
        if self.calls.at >= self.calls.size {
            return None;
        }
        Some(Transfer::ReadJournal(self.calls.at, self.calls.wanted()))
    }
}

impl Recovering {
    /// The transfer was made, or has failed; where it was a read, these bytes were read.
    pub fn told(&mut self, read: &[u8], is_done: bool) -> Result<(), RecoverFault>
        ensures done { OnOk result (is_done ≡ true) }
        ensures tells { OnOk result (Tells read.now self.old self.new) }
        ensures failed { OnErr result (self.new.recovery.place ≡ Failed) }
        ensures err { IfErr result (λ fault. fault ≡ Device) }
    {
        let many = self.asked() as usize;
        if !is_done || read.len() < many {
            return self.fail();
        }
        let (read, _) = read.split_at(many);
        self.tell(read)
    }

    /// How many bytes are read next.
    fn asked(&self) -> u32
        ensures { result ≡ asked_of self.now }
    {
        match self.step {
            RecoveryStep::Look => self.looking.asked(),
            RecoveryStep::ReadImage => IMAGE_BYTES as u32,
            RecoveryStep::ReadCalls => self.calls.wanted(),
            _ => 0,
        }
    }

    /// Nothing more is told.
    fn fail(&mut self) -> Result<(), RecoverFault>
        ensures err { result ≡ Err Device }
        ensures failed { self.new.recovery.place ≡ Failed }
    {
        self.recovery.place = RecoveryPlace::Failed;
        self.step = RecoveryStep::Ask;
        Err(RecoverFault::Device)
    }

    /// It was made, and where it was a read these bytes were read.
    fn tell(&mut self, read: &[u8]) -> Result<(), RecoverFault>
        requires { length read.now ≡ asked_of self.old }
        ensures ok { OnOk result (Some self.new ≡ told_on read.now self.old) }
        ensures failed { OnErr result (self.new.recovery.place ≡ Failed) }
        ensures err { IfErr result (λ fault. fault ≡ Device) }
    {
        match self.step {
            RecoveryStep::Look => self.looking.told(read),
            RecoveryStep::Ask => {}
            RecoveryStep::ReadImage => return self.put_next(read),
            RecoveryStep::PutPage(..) => return self.end_act(),
            RecoveryStep::Make(act) => return self.end_made(act),
            RecoveryStep::ReadCalls => return self.pass_calls(read),
            RecoveryStep::HandOn(_) => self.step = RecoveryStep::ReadCalls,
        }
        Ok(())
    }

    /// The image that is put back was read.
    fn put_next(&mut self, read: &[u8]) -> Result<(), RecoverFault>
        requires { length read.now ≡ 4132 }
        ensures ok { OnOk result
            (Some self.new ≡ put_next (image_in self.old.sum read.now) self.old) }
        ensures failed { OnErr result (self.new.recovery.place ≡ Failed) }
        ensures err { IfErr result (λ fault. fault ≡ Device) }
    {
        let Some(image) = read_image(&self.sum, read) else {
            return self.fail();
        };
        self.at = self.at.saturating_add(IMAGE_BYTES as u64);
        let sum = image.sum;
        self.sum = sum;
        self.step = RecoveryStep::PutPage(image.number, image.page);
        Ok(())
    }

    /// An act that is one transfer was made.
    fn end_made(&mut self, act: RecoveryAct) -> Result<(), RecoverFault>
        ensures ok { OnOk result (self.new ≡ act_made act self.old) }
        ensures failed { OnErr result (self.new.recovery.place ≡ Failed) }
        ensures err { IfErr result (λ fault. fault ≡ Device) }
    {
        if let RecoveryAct::EndImages = act {
            self.let_images_go();
        }
        self.end_act()
    }

    /// What stands behind the calls says that the images are put back.
    fn let_images_go(&mut self)
        ensures { self.new ≡ record self.old { journal = with_put_back self.old.journal } }
    {
        let (_, sum) = spell_put_back(&self.journal.sum);
        self.journal.sum = sum;
        self.journal.end = self.journal.end.saturating_add(LEAST_ENTRY as u64);
        self.journal.size = self.journal.size.max(self.journal.end);
    }

    /// An act is done.
    fn end_act(&mut self) -> Result<(), RecoverFault>
        ensures ok { OnOk result (self.new ≡ act_done self.old) }
        ensures failed { OnErr result (self.new.recovery.place ≡ Failed) }
        ensures err { IfErr result (λ fault. fault ≡ Device) }
    {
        self.step = RecoveryStep::Ask;
        self.recovery.told(true)
    }

    /// Begins to hand on the calls that stand in the journal, once all is done.
    pub fn begin_calls(&mut self)
        ensures { self.new ≡ begins_calls self.old }
    {
        if let RecoveryPlace::Recovered = self.recovery.place {
            self.calls = Additions::begin(self.looking.head.sum, self.journal.end);
            self.step = RecoveryStep::ReadCalls;
        }
    }

    /// A part of the calls was read.
    fn pass_calls(&mut self, read: &[u8]) -> Result<(), RecoverFault>
        requires { length read.now ≡ wanted self.old.calls }
        ensures ok { OnOk result (Some self.new ≡ calls_read read.now self.old) }
        ensures failed { OnErr result (self.new.recovery.place ≡ Failed) }
        ensures err { IfErr result (λ fault. fault ≡ Device) }
    {
        match self.calls.told(read) {
            Came::Word | Came::Calls(0) => Ok(()),
            Came::Calls(calls) => {
                self.step = RecoveryStep::HandOn(calls);
                Ok(())
            }
            Came::End => self.fail(),
        }
    }
}
