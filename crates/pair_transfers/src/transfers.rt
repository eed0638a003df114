//! The transfers of a save, with their places and their bytes.
ghost use Rattle.std.specs.Prelude.{◌≡◌, true, false, IfOk, OnErr, OnOk, length, take};
ghost use Rattle.journal_bytes.specs.Bytes.{says};
ghost use Rattle.pair_transfers.specs.Saving.{Ends, is_over};
ghost use Rattle.pair_transfers.specs.Transfers.{Asks, Tells, begins_at, begun_with, counted, done_with, first_step, gone_on, image_next, is_long, laid_over, next_number, none_under_way, numbered, transfer_of, transfer_of_act, with_image, written_by, written_of};
ghost use Rattle.pair_transfers.specs.declared.save.Act.TheVariants.{Guard};
ghost use Rattle.pair_transfers.specs.declared.save.Place.TheVariants.{Failed};
ghost use Rattle.pair_transfers.specs.declared.transfers.Step.TheVariants.{ReadPage};

use crate::bytes::{next_number, put_first};
use crate::room::Room;
use crate::save::{Act, Save, SaveFault};
use crate::unsaved::Unsaved;
use journal_bytes::{
    HEAD_BYTES, IMAGE_BYTES, Seal, Sum, put_image, seal_of, spell_end, spell_head, sum_of_image,
};
use safe_device::page_device::Page;
use std::alloc::{AllocError, Global};
use std::marker::Model;

/// A journal of no more bytes, 256 images, keeps its length when it is ended: what is written over costs
/// less than what is cut and added again.
pub(crate) const MOST_KEPT: u64 = 1_057_872;

/// The same of one that has calls.
pub(crate) const MOST_KEPT_OF_CALLS: u64 = 8_388_608;

/// What is known of a journal.
#[derive(Clone, Copy)]
pub struct Standing {
    /// How many bytes it has.
    pub size: u64,
    /// Where its next entry goes; 0 where none stands in it.
    pub end: u64,
    /// The number of the save.
    pub number: u64,
    /// The digest with which its last entry ends.
    pub sum: Sum,
}

/// A transfer. Whoever tells it spells what is written.
#[derive(Clone, Copy, Drop)]
pub enum Transfer {
    /// The first bytes of the journal are read, where a head stands.
    ReadHead,
    /// So many bytes of the journal are read, from this place on.
    ReadJournal(u64, u32),
    /// This page of the file is read.
    ReadPage(u32),
    /// A head, or what takes its place, is written over the first bytes of the journal.
    WriteHead,
    /// An image is written into the journal, from this place on.
    WriteImage(u64),
    /// So many zeros are written into the journal, from this place on.
    WriteZeros(u64, u32),
    /// An addition of calls is written into the journal, from this place on, of so many bytes.
    WriteCalls(u64, u32),
    /// An entry without bytes is written into the journal, from this place on.
    WriteEntry(u64),
    /// This page of the file is written.
    WritePage(u32),
    /// The file is ended after its first so many pages.
    CutFile(u32),
    /// The journal is cut to nothing.
    CutJournal,
    /// The journal is synced, with its length where that has changed.
    SyncJournal(bool),
    /// The file is synced, with its length where that may have changed.
    SyncFile(bool),
    /// So many bytes of calls, behind a word, were read last: they are made again.
    Remake(u32),
}

/// How far an act has come.
#[derive(Clone, Copy, Drop)]
pub enum Step {
    /// The next act is asked for.
    Ask,
    /// This page is to be guarded, as it is in all up to `AddImage`; the head of the last save is read.
    ReadHead(u32),
    /// No head tells the number of the last save: the journal is cut.
    Cut(u32),
    /// That has to outlast a crash before a number is used again.
    SyncCut(u32),
    /// Page 0 is read, by whose seal a head knows its file.
    ReadZero(u32),
    /// The head is written.
    Begin(u32, Seal),
    /// The page is read.
    ReadPage(u32),
    /// Its image is added, which ends with this digest.
    AddImage(u32, Sum),
    /// An act that is one transfer.
    Make(Act),
}

/// A save, transfer by transfer.
#[derive(Drop)]
pub struct Transfers {
    save: Save,
    /// How many pages the file has.
    count: u32,
    has_calls: bool,
    journal: Standing,
    step: Step,
    /// The page whose image is added, or that is written.
    page: Room,
}

impl Model for Transfers {
    ghost use Rattle.pair_transfers.specs.Transfers.{TransfersState};

    ghost Value = { TransfersState };

    ghost view = { λ t. record {
      save = t.save;
      count = t.count;
      has_calls = t.has_calls;
      journal = t.journal;
      step = t.step;
      page = t.page;
    } };
}

impl Transfers {
    /// No save is under way.
    pub fn none(alloc: Global) -> Transfers
        ensures { result ≡ none_under_way }
    {
        Transfers {
            save: Save::none(alloc),
            count: 0,
            has_calls: false,
            journal: Standing {
                size: 0,
                end: 0,
                number: 0,
                sum: [0; 32],
            },
            step: Step::Ask,
            page: Room::none(alloc),
        }
    }

    /// Sees to it that there is room for a save of so many pages.
    pub fn take_room(&mut self, pages: usize) -> Result<(), AllocError>
        ensures { self.new ≡ self.old }
    {
        self.page.take()?;
        self.save.take_room(pages)
    }

    /// Whether all is done.
    pub fn is_over(&self) -> bool
        ensures { result ≡ is_over self.now.save.place }
    {
        self.save.is_over()
    }

    /// Begins to save the pages of a file that has so many, beside this journal.
    pub fn begin(&mut self, count: u32, journal: Standing)
        ensures { self.new ≡ begins_at count journal self.old }
    {
        let has_calls = journal.end > 0;
        self.save.begin(has_calls);
        self.count = count;
        self.has_calls = has_calls;
        self.step = Step::Ask;
        self.journal = journal;
        if !has_calls {
            self.journal.number = 1;
        }
    }

    /// The transfer that is to be made next; none where the save is over.
    pub fn next<S: Unsaved>(&mut self, pages: &mut S) -> Result<Option<Transfer>, SaveFault>
        ensures { IfOk result
            (Asks S.saved S.wants S.turned pages.old pages.new self.old self.new) }
    {
        if let Step::Ask = self.step {
            let Some(act) = self.save.next(pages, &mut self.page)? else {
                return Ok(None);
            };
            self.step = self.first_step(act);
        }
        Ok(Some(self.transfer()))
    }

    /// With which step an act begins.
    fn first_step(&self, act: Act) -> Step
        ensures { result ≡ first_step self.now.journal act }
    {
        let Act::Guard(page) = act else {
            return Step::Make(act);
        };
        if self.journal.end > 0 {
            return Step::ReadPage(page);
        }
        if self.journal.size >= HEAD_BYTES as u64 {
            return Step::ReadHead(page);
        }
        if self.journal.size > 0 {
            return Step::Cut(page);
        }
        Step::ReadZero(page)
    }

    /// The transfer of its step.
    fn transfer(&self) -> Transfer
        ensures { result ≡ transfer_of self.now self.now.step }
    {
        match &self.step {
            Step::Ask | Step::SyncCut(_) => Transfer::SyncJournal(true),
            Step::ReadHead(_) => Transfer::ReadHead,
            Step::Cut(_) => Transfer::CutJournal,
            Step::ReadZero(_) => Transfer::ReadPage(0),
            Step::Begin(..) => Transfer::WriteHead,
            Step::ReadPage(page) => Transfer::ReadPage(*page),
            Step::AddImage(..) => Transfer::WriteImage(self.journal.end),
            Step::Make(act) => self.transfer_of_act(act),
        }
    }

    /// That of an act that is one transfer.
    fn transfer_of_act(&self, act: &Act) -> Transfer
        ensures { result ≡ transfer_of_act self.now act.now }
    {
        match act {
            Act::Guard(page) => Transfer::ReadPage(*page),
            Act::SyncImages => Transfer::SyncJournal(self.journal.size < self.journal.end),
            Act::Write(page) => Transfer::WritePage(*page),
            Act::SyncFile => Transfer::SyncFile(false),
            Act::End if self.is_long() => Transfer::CutJournal,
            Act::End => Transfer::WriteHead,
            Act::SyncEnd => Transfer::SyncJournal(self.is_long()),
        }
    }

    /// What is written by the transfer that was told last stands first; the bytes behind it stay.
    pub fn spell(&self, into: &mut [u8; IMAGE_BYTES])
        ensures { into.new ≡ laid_over (written_of self.now self.now.step) into.old }
    {
        match &self.step {
            Step::Begin(_, seal) => {
                let (head, _) = spell_head(self.count, self.journal.number, seal);
                put_first(&head, into);
            }
            Step::AddImage(page, sum) => put_image(*page, self.page.page(), sum, into),
            Step::Make(act) => self.spell_act(act, into),
            _ => {}
        }
    }

    /// The same of an act that is one transfer.
    fn spell_act(&self, act: &Act, into: &mut [u8; IMAGE_BYTES])
        ensures { into.new ≡ laid_over (written_by self.now act.now) into.old }
    {
        match act {
            Act::Write(_) => put_first(self.page.page(), into),
            Act::End if !self.is_long() => put_first(&spell_end(self.journal.number), into),
            _ => {}
        }
    }

    /// Whether the journal is too long to be kept.
    fn is_long(&self) -> bool
        ensures { result ≡ is_long self.now }
    {
        let most = if self.has_calls {
            MOST_KEPT_OF_CALLS
        } else {
            MOST_KEPT
        };
        most < self.journal.size.max(self.journal.end)
    }
}

impl Transfers {
    /// The transfer was made, or has failed; where it was a read, these bytes were read.
    pub fn told<S: Unsaved>(
        &mut self,
        pages: &mut S,
        read: &Page,
        is_done: bool,
    ) -> Result<(), SaveFault>
        ensures done { OnOk result (is_done ≡ true) }
        ensures tells { OnOk result (Tells S.saved S.wants S.noted read.now pages.old pages.new
            self.old self.new self.old.step) }
        ensures failed { OnErr result (self.new.save.place ≡ Failed) }
        ensures same { is_done ≡ false → pages.new ≡ pages.old }
    {
        if !is_done {
            return self.save.told(pages, &Act::SyncFile, false);
        }
        match self.step {
            Step::AddImage(page, sum) => self.end_image(pages, page, &sum),
            Step::Make(act) => self.end_act(pages, &act),
            step => self.go_on(step, read),
        }
    }

    /// An act that is one transfer was done.
    fn end_act<S: Unsaved>(&mut self, pages: &mut S, act: &Act) -> Result<(), SaveFault>
        ensures advanced { OnOk result
            (self.new ≡ done_with act.now (counted self.old.journal) self.old) }
        ensures failed { OnErr result (self.new.save.place ≡ Failed) }
        ensures pages { OnOk result (Ends S.saved S.wants S.noted act.now
            pages.old pages.new) }
    {
        self.step = Step::Ask;
        self.journal.size = self.journal.size.max(self.journal.end);
        self.save.told(pages, act, true)
    }

    /// The image of a page stands in the journal, and ends with this digest.
    fn end_image<S: Unsaved>(
        &mut self,
        pages: &mut S,
        page: u32,
        sum: &Sum,
    ) -> Result<(), SaveFault>
        ensures advanced { OnOk result (self.new ≡
            done_with (Guard page) (with_image sum.now self.old.journal) self.old) }
        ensures failed { OnErr result (self.new.save.place ≡ Failed) }
        ensures pages { OnOk result (pages.new ≡ pages.old) }
    {
        self.step = Step::Ask;
        self.journal.sum = *sum;
        self.journal.end = self.journal.end.saturating_add(IMAGE_BYTES as u64);
        self.save.told(pages, &Act::Guard(page), true)
    }

    /// A step is done behind which its act goes on.
    fn go_on(&mut self, step: Step, read: &Page) -> Result<(), SaveFault>
        ensures gone { OnOk result (self.new ≡ gone_on step read.now self.old) }
        ensures failed { OnErr result (self.new.save.place ≡ Failed) }
    {
        match step {
            Step::ReadHead(page) => self.number(page, read),
            Step::Cut(page) => self.step = Step::SyncCut(page),
            Step::SyncCut(page) => {
                self.journal.size = 0;
                self.step = Step::ReadZero(page);
            }
            Step::ReadZero(page) => self.step = Step::Begin(page, seal_of(read)),
            Step::Begin(page, seal) => self.end_head(page, &seal),
            Step::ReadPage(page) => return self.take_page(page, read),
            step => self.step = step,
        }
        Ok(())
    }

    /// A page was read: its image goes on from the digest of what stands in the journal.
    fn take_page(&mut self, page: u32, read: &Page) -> Result<(), SaveFault>
        ensures gone { OnOk result (self.new ≡ image_next page read.now self.old) }
        ensures failed { OnErr result (self.new.save.place ≡ Failed) }
    {
        let Ok(()) = self.page.put(read) else {
            self.save.fail();
            return Err(SaveFault::NoMemory);
        };
        let sum = sum_of_image(&self.journal.sum, page, read);
        self.step = Step::AddImage(page, sum);
        Ok(())
    }

    /// The save gets a number: one above that of the head that was read, where there is one.
    fn number(&mut self, page: u32, read: &Page)
        ensures { self.new ≡ numbered page (next_number (says (take 80 read.now))) self.old }
    {
        let Some(number) = next_number(read) else {
            self.step = Step::Cut(page);
            return;
        };
        self.journal.number = number;
        self.step = Step::ReadZero(page);
    }

    /// The head stands in the journal.
    fn end_head(&mut self, page: u32, seal: &Seal)
        ensures { self.new ≡ record self.old {
          journal = begun_with self.old.count seal.now self.old.journal;
          step = ReadPage page;
        } }
    {
        let (_, sum) = spell_head(self.count, self.journal.number, seal);
        self.journal.sum = sum;
        self.journal.end = HEAD_BYTES as u64;
        self.step = Step::ReadPage(page);
    }
}
