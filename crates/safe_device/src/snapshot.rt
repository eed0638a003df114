//! What files in memory are at one moment.
ghost use Rattle.std.specs.Prelude.{◌≡◌, ◌≤◌, [], ◌∷◌, ◌++◌, length, take, slice_set, IfOk, OnOk, OnErr};
ghost use Rattle.page_device.specs.declared.page.TheConstants.{MAX_PAGES};

use crate::journal::Journal;
use page_device::{MAX_PAGES, Page};
use std::alloc::{AllocError, Global};
use std::io;
use std::io::ErrorKind;
use std::marker::Model;

/// Pages. A clause sees the list of them.
#[derive(Drop)]
pub struct Pages {
    pub(crate) items: Vec<Page>,
}

impl Model for Pages {
    ghost use Rattle.std.specs.Prelude.{ℕ, ◌≤◌, List, length};
    ghost use Rattle.page_device.specs.declared.page.TheConstants.{MAX_PAGES};

    ghost Value = { List (List ℕ) };

    ghost view = { λ pages. pages.items.items };

    ghost invariant = { λ pages. length pages.items.items ≤ MAX_PAGES };
}

impl Pages {
    pub(crate) fn new(items: Vec<Page>) -> Pages
        requires { length items.items ≤ MAX_PAGES }
        ensures { result ≡ items.items }
    {
        Pages { items }
    }

    pub(crate) fn set(&mut self, page: u32, bytes: &Page) -> bool
        ensures { self.new ≡ slice_set self.old page bytes.now }
    {
        let Some(place) = self.items.get_mut(page as usize) else {
            return false;
        };
        *place = *bytes;
        true
    }

    pub(crate) fn push(&mut self, bytes: &Page) -> io::Result<()>
        ensures ok { OnOk result (self.new ≡ self.old ++ bytes.now ∷ []) }
        ensures err { OnErr result (self.new ≡ self.old) }
    {
        if self.items.len() >= MAX_PAGES as usize {
            return Err(ErrorKind::StorageFull.into());
        }
        self.items.push(*bytes)?;
        Ok(())
    }

    pub(crate) fn cut(&mut self, pages: u32)
        ensures { self.new ≡ take pages self.old }
    {
        self.items.truncate(pages as usize);
    }

    pub(crate) fn try_copy(&self, alloc: Global) -> Result<Pages, AllocError>
        ensures { IfOk result (λ copy. copy ≡ self.now) }
    {
        let mut items = Vec::new(alloc);
        for page in &self.items {
            items.push(*page)?;
        }
        Ok(Pages { items })
    }
}

/// A change of the file that was not synced.
#[derive(Clone, Copy)]
pub enum FileChange {
    /// A page was written.
    Stored(u32),
    /// A page was added.
    Added,
    /// The file was cut to so many pages.
    Cut(u32),
}

/// Changes, the first of them first.
#[derive(Drop)]
pub struct Changes {
    pub(crate) items: Vec<FileChange>,
}

impl Model for Changes {
    ghost use Rattle.std.specs.Prelude.{List};
    ghost use Rattle.safe_device.specs.declared.snapshot.FileChange.{FileChange as TheChange};

    ghost Value = { List TheChange };

    ghost view = { λ changes. changes.items.items };
}

impl Changes {
    pub(crate) fn new(alloc: Global) -> Changes
        ensures { result ≡ [] }
    {
        Changes {
            items: Vec::new(alloc),
        }
    }

    pub(crate) fn push(&mut self, change: FileChange) -> Result<(), AllocError>
        ensures { OnOk result (self.new ≡ self.old ++ change ∷ []) }
    {
        self.items.push(change)?;
        Ok(())
    }

    pub(crate) fn try_copy(&self, alloc: Global) -> Result<Changes, AllocError>
        ensures { IfOk result (λ copy. copy ≡ self.now) }
    {
        Ok(Changes {
            items: self.items.to_vec(alloc)?,
        })
    }
}

/// What a read gives of both files, what was synced of them, and what the file has met since.
#[derive(Drop)]
pub struct Snapshot {
    pub seen_file: Pages,
    pub synced_file: Pages,
    pub changes: Changes,
    pub seen_journal: Option<Journal>,
    pub synced_journal: Option<Journal>,
}

/// The same journal again, where there is one.
pub(crate) fn copy_journal(
    journal: &Option<Journal>,
    alloc: Global,
) -> Result<Option<Journal>, AllocError>
    ensures { IfOk result (λ copy. copy ≡ journal.now) }
{
    match journal {
        None => Ok(None),
        Some(journal) => Ok(Some(Journal {
            count: journal.count,
            calls: journal.calls.try_copy(alloc)?,
            images: journal.images.try_copy(alloc)?,
        })),
    }
}

impl Snapshot {
    pub(crate) fn try_copy(&self, alloc: Global) -> Result<Snapshot, AllocError>
        ensures { IfOk result (λ copy. copy ≡ self.now) }
    {
        Ok(Snapshot {
            seen_file: self.seen_file.try_copy(alloc)?,
            synced_file: self.synced_file.try_copy(alloc)?,
            changes: self.changes.try_copy(alloc)?,
            seen_journal: copy_journal(&self.seen_journal, alloc)?,
            synced_journal: copy_journal(&self.synced_journal, alloc)?,
        })
    }
}
