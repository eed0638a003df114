//! A save, act by act.
ghost use Rattle.std.specs.Prelude.{◌≡◌, ℕ, Bool, List, [], false, true, IfOk, OnOk, OnErr};
ghost use Rattle.pair_transfers.specs.Saving.{Ends, IsNext, IsNextImage, IsNextPage, IsTurned, advanced, begun, is_over, one_more};
ghost use Rattle.pair_transfers.specs.declared.save.Place.TheVariants.{Failed, Saved as Over};

use crate::room::{Room, ZEROS};
use crate::unsaved::Unsaved;
use std::alloc::{AllocError, Global};
use std::marker::Model;
use thiserror::Error;

/// What is done of a save.
#[derive(Clone, Copy, Drop)]
pub enum Act {
    /// This page, as the file has it, is read, and its image added to the journal.
    Guard(u32),
    /// The journal is synced.
    SyncImages,
    /// This page is written in its place.
    Write(u32),
    /// The file is synced.
    SyncFile,
    /// The journal is ended.
    End,
    /// The journal is synced.
    SyncEnd,
}

/// Where a save has come to.
#[derive(Clone, Copy, PartialEq, Eq)]
pub enum Place {
    /// Each page before this one that has changed has its image in the journal.
    Guarding(u32),
    /// So many of these pages are written.
    Writing(usize),
    /// All pages outlast a crash.
    Written,
    /// The journal is ended.
    Ended,
    /// The save is done.
    Saved,
    /// It is not made. The file is to be opened anew.
    Failed,
}

/// Why a save is not made.
#[derive(Clone, Copy, Debug, PartialEq, Eq, Error)]
pub enum SaveFault {
    /// A transfer failed, now or before. Once the file is opened anew it has the pages of before, or
    /// those that were to be saved.
    #[error("the file could not be written")]
    Device,
    /// The pages can't be told.
    #[error("the pages can't be told")]
    Pages,
    /// There is no memory.
    #[error("out of memory")]
    NoMemory,
}

/// A save of pages that are in memory to a file with a journal.
#[derive(Drop)]
pub struct Save {
    place: Place,
    has_calls: bool,
    /// The pages that have an image in the journal.
    guarded: Vec<u32>,
}

impl Model for Save {
    ghost use Rattle.pair_transfers.specs.Saving.{SaveState};

    ghost Value = { SaveState };

    ghost view = { λ s. record {
      place = s.place;
      has_calls = s.has_calls;
      guarded = s.guarded.items;
    } };
}

impl Save {
    /// None is under way.
    pub fn none(alloc: Global) -> Save
        ensures { result ≡ record { place = Over; has_calls = false; guarded = [] } }
    {
        Save {
            place: Place::Saved,
            has_calls: false,
            guarded: Vec::new(alloc),
        }
    }

    /// Sees to it that there is room for so many pages, so that a save of as many lacks none.
    pub fn take_room(&mut self, pages: usize) -> Result<(), AllocError>
        ensures { self.new ≡ self.old }
    {
        let many = self.guarded.len();
        self.guarded.reserve(pages.saturating_sub(many))
    }

    /// Whether all is done.
    pub fn is_over(&self) -> bool
        ensures { result ≡ is_over self.now.place }
    {
        matches!(self.place, Place::Saved)
    }

    /// A save of which nothing is done yet. Where calls stand in the journal it ends them.
    pub fn begin(&mut self, has_calls: bool)
        ensures { self.new ≡ begun has_calls }
    {
        self.place = Place::Guarding(0);
        self.has_calls = has_calls;
        self.guarded.clear();
    }

    /// What is to be done next; none where all is done. Where a page is written, these are its bytes.
    pub fn next<S: Unsaved>(
        &self,
        pages: &mut S,
        bytes: &mut Room,
    ) -> Result<Option<Act>, SaveFault>
        ensures next { IfOk result (λ act. (content : List (List ℕ)) → S.wants pages.old content →
            IsNext self.now act bytes.new (S.saved pages.old) content) }
        ensures kept { OnOk result ((content : List (List ℕ)) → S.wants pages.old content →
            S.wants pages.new content) }
        ensures turned { OnOk result (IsTurned S.turned pages.old pages.new) }
        ensures saved { S.saved pages.new ≡ S.saved pages.old }
    {
        match self.place {
            Place::Guarding(from) => Ok(self.next_image(pages, from)),
            Place::Writing(written) => self.next_page(pages, written, bytes),
            Place::Written => Ok(Some(Act::End)),
            Place::Ended => Ok(Some(Act::SyncEnd)),
            Place::Saved => Ok(None),
            Place::Failed => Err(SaveFault::Device),
        }
    }

    /// The next page that has changed is guarded. Where none has, and no calls stand in the journal,
    /// all is done.
    fn next_image<S: Unsaved>(&self, pages: &S, from: u32) -> Option<Act>
        ensures { (content : List (List ℕ)) → S.wants pages.now content →
            IsNextImage from self.now result (S.saved pages.now) content }
    {
        if let Some(page) = pages.next_changed(from) {
            return Some(Act::Guard(page));
        }
        if self.guarded.is_empty() && !self.has_calls {
            return None;
        }
        Some(Act::SyncImages)
    }

    /// The next page that is guarded is written.
    fn next_page<S: Unsaved>(
        &self,
        pages: &mut S,
        written: usize,
        into: &mut Room,
    ) -> Result<Option<Act>, SaveFault>
        ensures next { IfOk result (λ act. (content : List (List ℕ)) → S.wants pages.old content →
            IsNextPage written self.now act into.new content) }
        ensures kept { OnOk result ((content : List (List ℕ)) → S.wants pages.old content →
            S.wants pages.new content) }
        ensures turned { OnOk result (IsTurned S.turned pages.old pages.new) }
        ensures saved { S.saved pages.new ≡ S.saved pages.old }
    {
        let many = self.guarded.len();
        if written >= many {
            return Ok(Some(Act::SyncFile));
        }
        let page = self.guarded[written];
        let Some(bytes) = pages.page(page) else {
            return Err(SaveFault::Pages);
        };
        let Ok(()) = into.put(&bytes) else {
            return Err(SaveFault::NoMemory);
        };
        Ok(Some(Act::Write(page)))
    }

    /// It is not made.
    pub(crate) fn fail(&mut self)
        ensures { self.new ≡ record self.old { place = Failed } }
    {
        self.place = Place::Failed;
    }

    /// Room without memory.
    pub(crate) fn room(&self) -> Room
        ensures { result ≡ ZEROS }
    {
        let alloc: Global = *self.guarded.allocator();
        Room::none(alloc)
    }

    /// An act was done, or has failed. Behind the last one the pages are noted as saved.
    pub fn told<S: Unsaved>(
        &mut self,
        pages: &mut S,
        act: &Act,
        is_done: bool,
    ) -> Result<(), SaveFault>
        ensures advanced { OnOk result (self.new ≡ advanced act.now self.old) }
        ensures done { OnOk result (is_done ≡ true) }
        ensures failed { OnErr result (self.new.place ≡ Failed) }
        ensures pages { OnOk result (Ends S.saved S.wants S.noted act.now
            pages.old pages.new) }
        ensures same { is_done ≡ false → pages.new ≡ pages.old }
    {
        let place = self.behind(act);
        self.place = Place::Failed;
        if !is_done {
            return Err(SaveFault::Device);
        }
        if let Act::Guard(page) = act {
            let Ok(()) = self.guarded.push(*page) else {
                return Err(SaveFault::NoMemory);
            };
        }
        if matches!(act, Act::SyncEnd) && !pages.note_saved() {
            return Err(SaveFault::Pages);
        }
        self.place = place;
        Ok(())
    }

    /// Where it has come to once an act is done.
    fn behind(&self, act: &Act) -> Place
        ensures { result ≡ (advanced act.now self.now).place }
    {
        match act {
            Act::Guard(page) => Place::Guarding(page.saturating_add(1)),
            Act::SyncImages => Place::Writing(0),
            Act::Write(..) => self.more_written(),
            Act::SyncFile => Place::Written,
            Act::End => Place::Ended,
            Act::SyncEnd => Place::Saved,
        }
    }

    /// One more page is written.
    fn more_written(&self) -> Place
        ensures { result ≡ one_more self.now.place }
    {
        match self.place {
            Place::Writing(written) => Place::Writing(written.saturating_add(1)),
            place => place,
        }
    }
}
