//! Both files in memory. At a crash each forgets what was not synced, or keeps part of it.
ghost use Rattle.std.specs.Prelude.{◌≡◌, ◌≤◌, [], ◌∷◌, ◌++◌, length, None, IfOk, OnOk, OnErr};
ghost use Rattle.page_device.specs.declared.page.TheConstants.{MAX_PAGES};
ghost use Rattle.safe_device.specs.Left.{added, noted, without_images};
ghost use Rattle.safe_device.specs.Memory.{IsQuiet, MayLeave, Since, seen_stays, counts, only};

use crate::journal::{Calls, Images, Journal, PageImage};
use crate::page_pair::{CallsFault, FoundJournal, PagePair};
use crate::snapshot::{Changes, FileChange, Pages, Snapshot, copy_journal};
use page_device::Page;
use std::alloc::{AllocError, Global};
use std::io;
use std::io::ErrorKind;

/// Both files in memory, and what they were. Each transfer that changes them is counted, and once
/// they are used up each fails.
#[derive(Drop)]
pub struct MemPair {
    pub(crate) alloc: Global,
    pub(crate) newest: Snapshot,
    pub(crate) past: Vec<Snapshot>,
    pub(crate) transfers_left: usize,
    pub(crate) transfers: usize,
}

/// Counts a transfer, and fails where none is left.
fn spend(transfers_left: &mut usize, transfers: &mut usize) -> io::Result<()> {
    if *transfers_left == 0 {
        return Err(ErrorKind::Other.into());
    }
    *transfers_left -= 1;
    *transfers = transfers.saturating_add(1);
    Ok(())
}

/// Makes another snapshot the newest, and keeps the one that was.
fn change(
    alloc: Global,
    now: &mut Snapshot,
    past: &mut Vec<Snapshot>,
    next: Snapshot,
) -> Result<(), AllocError>
    ensures ok { OnOk result (now.new ≡ next) }
    ensures err { OnErr result (now.new ≡ now.old) }
    ensures past { OnOk result (past.new.items ≡ past.old.items ++ now.old ∷ []) }
    ensures past_err { OnErr result (past.new.items ≡ past.old.items) }
{
    past.push(now.try_copy(alloc)?)?;
    *now = next;
    Ok(())
}

impl MemPair {
    /// A file of these pages and no journal, all of it synced, of which so many transfers succeed.
    #[tactic(auto, using(crate::proofs::Kept::quiet))]
    pub fn new(
        alloc: Global,
        pages: Vec<Page>,
        transfers_left: usize,
    ) -> Result<MemPair, AllocError>
        requires { length pages.items ≤ MAX_PAGES }
        ensures at_rest { IfOk result IsQuiet }
    {
        let seen_file = Pages::new(pages);
        let synced_file = seen_file.try_copy(alloc)?;
        Ok(MemPair {
            alloc,
            newest: Snapshot {
                seen_file,
                synced_file,
                changes: Changes::new(alloc),
                seen_journal: None,
                synced_journal: None,
            },
            past: Vec::new(alloc),
            transfers_left,
            transfers: 0,
        })
    }

    /// How many transfers have changed the files, or synced one.
    pub fn transfers(&self) -> usize {
        self.transfers
    }

    /// The pages that a read returns.
    pub fn bytes(&self) -> &[Page]
        ensures { result.now ≡ self.now.newest.seen_file }
    {
        &self.newest.seen_file.items
    }
}

impl PagePair for MemPair {
    ghost use Rattle.std.specs.Prelude.{true};

    ghost is_honest = { true };

    ghost file = { λ m. m.newest.seen_file };

    ghost journal = { λ m. m.newest.seen_journal };

    ghost may_leave = { λ m c. MayLeave m.newest c };

    ghost moment = { λ m. length m.past.items };

    ghost left_since = { λ m t c. Since m.past.items m.newest t c };

    ghost seen_may_stay = { λ m _. seen_stays m.newest };

    ghost counts_now = { λ m t c le now. counts m.past.items m.newest t c now };

    ghost only_now = { λ m c left. only m.past.items m.newest c left };

    fn pages(&self) -> u32 {
        self.newest.seen_file.items.len() as u32
    }

    fn load(&self, page: u32, into: &mut Page) -> io::Result<()> {
        let Some(bytes) = self.newest.seen_file.items.get(page as usize) else {
            return Err(ErrorKind::UnexpectedEof.into());
        };
        *into = *bytes;
        Ok(())
    }

    #[tactic(auto, using(crate::proofs::Kept::set_follows))]
    fn store(&mut self, page: u32, bytes: &Page) -> io::Result<()> {
        spend(&mut self.transfers_left, &mut self.transfers)?;
        let mut next = self.newest.try_copy(self.alloc)?;
        next.changes.push(FileChange::Stored(page))?;
        if !next.seen_file.set(page, bytes) {
            return Err(ErrorKind::UnexpectedEof.into());
        }
        Ok(change(self.alloc, &mut self.newest, &mut self.past, next)?)
    }

    #[tactic(auto, using(crate::proofs::Kept::push_follows))]
    fn extend(&mut self, bytes: &Page) -> io::Result<()> {
        spend(&mut self.transfers_left, &mut self.transfers)?;
        let mut next = self.newest.try_copy(self.alloc)?;
        next.changes.push(FileChange::Added)?;
        next.seen_file.push(bytes)?;
        Ok(change(self.alloc, &mut self.newest, &mut self.past, next)?)
    }

    #[tactic(auto, using(crate::proofs::Kept::cut_follows, crate::proofs::Kept::not_cut))]
    fn cut(&mut self, pages: u32) -> io::Result<()> {
        spend(&mut self.transfers_left, &mut self.transfers)?;
        let mut next = self.newest.try_copy(self.alloc)?;
        next.changes.push(FileChange::Cut(pages))?;
        next.seen_file.cut(pages);
        Ok(change(self.alloc, &mut self.newest, &mut self.past, next)?)
    }

    fn sync_file(&mut self) -> io::Result<()> {
        spend(&mut self.transfers_left, &mut self.transfers)?;
        let mut next = self.newest.try_copy(self.alloc)?;
        next.synced_file = self.newest.seen_file.try_copy(self.alloc)?;
        next.changes = Changes::new(self.alloc);
        Ok(change(self.alloc, &mut self.newest, &mut self.past, next)?)
    }

    fn find_journal(&self) -> io::Result<Option<FoundJournal>> {
        let Some(journal) = &self.newest.seen_journal else {
            return Ok(None);
        };
        let Ok(images) = u32::try_from(journal.images.as_slice().len()) else {
            return Err(ErrorKind::InvalidData.into());
        };
        Ok(Some(FoundJournal {
            count: journal.count,
            calls: journal.calls.len(),
            images,
        }))
    }

    fn load_image(&self, index: u32, into: &mut Page) -> io::Result<u32> {
        let Some(journal) = &self.newest.seen_journal else {
            return Err(ErrorKind::UnexpectedEof.into());
        };
        let Some(image) = journal.images.as_slice().get(index as usize) else {
            return Err(ErrorKind::UnexpectedEof.into());
        };
        *into = image.bytes;
        Ok(image.page)
    }

    #[tactic(auto, using(crate::proofs::Kept::append_follows))]
    fn append_images(&mut self, count: u32, images: &[PageImage]) -> io::Result<()> {
        spend(&mut self.transfers_left, &mut self.transfers)?;
        let mut next = self.newest.try_copy(self.alloc)?;
        let journal = longer(next.seen_journal, self.alloc, count, images)?;
        next.seen_journal = Some(journal);
        Ok(change(self.alloc, &mut self.newest, &mut self.past, next)?)
    }

    fn calls(&self) -> usize {
        match &self.newest.seen_journal {
            None => 0,
            Some(journal) => journal.calls.len(),
        }
    }

    fn load_calls(&self, index: usize, into: &mut Vec<u8>) -> Result<(), CallsFault> {
        let Some(journal) = &self.newest.seen_journal else {
            return Err(CallsFault::Failed(ErrorKind::UnexpectedEof.into()));
        };
        let Some(calls) = journal.calls.get(index) else {
            return Err(CallsFault::Failed(ErrorKind::UnexpectedEof.into()));
        };
        into.clear();
        match into.extend_from_slice(calls.as_slice()) {
            Ok(()) => Ok(()),
            Err(_) => Err(CallsFault::NoMemory),
        }
    }

    #[tactic(auto, using(crate::proofs::Kept::note_follows))]
    fn append_calls(&mut self, count: u32, calls: &[u8]) -> io::Result<()> {
        spend(&mut self.transfers_left, &mut self.transfers)?;
        let mut next = self.newest.try_copy(self.alloc)?;
        let journal = with_calls(next.seen_journal, self.alloc, count, calls)?;
        next.seen_journal = Some(journal);
        Ok(change(self.alloc, &mut self.newest, &mut self.past, next)?)
    }

    #[tactic(auto, using(crate::proofs::Kept::empty_follows))]
    fn end_images(&mut self) -> io::Result<()> {
        spend(&mut self.transfers_left, &mut self.transfers)?;
        let mut next = self.newest.try_copy(self.alloc)?;
        next.seen_journal = emptied(next.seen_journal, self.alloc);
        Ok(change(self.alloc, &mut self.newest, &mut self.past, next)?)
    }

    #[tactic(auto, using(crate::proofs::Kept::remove_follows))]
    fn end_journal(&mut self) -> io::Result<()> {
        spend(&mut self.transfers_left, &mut self.transfers)?;
        let mut next = self.newest.try_copy(self.alloc)?;
        next.seen_journal = None;
        Ok(change(self.alloc, &mut self.newest, &mut self.past, next)?)
    }

    fn is_settled(&self) -> bool {
        // what was synced is not compared with what is read
        false
    }

    fn sync_journal(&mut self) -> io::Result<()> {
        spend(&mut self.transfers_left, &mut self.transfers)?;
        let mut next = self.newest.try_copy(self.alloc)?;
        next.synced_journal = copy_journal(&self.newest.seen_journal, self.alloc)?;
        Ok(change(self.alloc, &mut self.newest, &mut self.past, next)?)
    }
}

/// A journal with more images.
fn longer(
    journal: Option<Journal>,
    alloc: Global,
    count: u32,
    images: &[PageImage],
) -> Result<Journal, AllocError>
    ensures { IfOk result (λ longer. longer ≡ added count images.now journal) }
{
    match journal {
        None => Ok(Journal {
            count,
            calls: Calls::new(alloc),
            images: Images::with(Images::new(alloc), images)?,
        }),
        Some(journal) => Ok(Journal {
            count: journal.count,
            calls: journal.calls,
            images: Images::with(journal.images, images)?,
        }),
    }
}

/// A journal with one addition of calls more.
fn with_calls(
    journal: Option<Journal>,
    alloc: Global,
    count: u32,
    calls: &[u8],
) -> Result<Journal, AllocError>
    ensures { IfOk result (λ longer. longer ≡ noted count calls.now journal) }
{
    match journal {
        None => Ok(Journal {
            count,
            calls: Calls::with(Calls::new(alloc), calls, alloc)?,
            images: Images::new(alloc),
        }),
        Some(journal) => Ok(Journal {
            count: journal.count,
            calls: Calls::with(journal.calls, calls, alloc)?,
            images: journal.images,
        }),
    }
}

/// A journal with its calls alone.
fn emptied(journal: Option<Journal>, alloc: Global) -> Option<Journal>
    ensures { result ≡ without_images journal }
{
    match journal {
        None => None,
        Some(journal) => Some(Journal {
            count: journal.count,
            calls: journal.calls,
            images: Images::new(alloc),
        }),
    }
}
