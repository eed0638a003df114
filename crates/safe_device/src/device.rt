//! A device over a file and its journal.
ghost use Rattle.std.specs.Prelude.{◌≡◌, ◌↔◌, ◌≤◌, ◌<◌, ◌+◌, [], ◌∷◌, ◌++◌, List, ℕ, length, min, false, is_ok, Some, slice_get, slice_set, IsTrue, IfOk, OnOk, OnErr, IsErrOf, IsOkUnless};
ghost use Rattle.page_device.specs.Device.{DiffersAtMostAt, HasCause, MayMeetTheEnd, MayBeFull, MayOnlyFail, HasRisen, MOST_FAULTS};
ghost use Rattle.page_device.specs.declared.page.TheConstants.{MAX_PAGES};
ghost use Rattle.safe_device.specs.Crash.{Keeps, LeavesOnly};
ghost use Rattle.safe_device.specs.Left.{alone, calls_of, put_back, with_calls};
ghost use Rattle.safe_device.specs.Device.{HasEnded, HasNoted, HasRoom, FailsToNote, IsOpened, IsWrittenOut, Notes, StaysCommitted, Commits};
ghost use Rattle.safe_device.specs.Safe.{committed, IsAtRest, StandsFor};

use crate::guarded_file::GuardedFile;
use crate::journal::{Images, PageImage};
use crate::page_pair::{CallsFault, PagePair};
use page_device::{DeviceFault, MAX_PAGES, Page, PageDevice};
use std::alloc::{AllocError, Global};
use std::marker::Model;
use thiserror::Error;

/// Why calls were not noted.
#[derive(Clone, Copy, Debug, PartialEq, Eq, Error)]
pub enum NoteFault {
    /// Something was written since the last sync. Nothing was done.
    #[error("something was written since the last sync")]
    Written,
    /// A transfer failed. Once the file is opened again the calls are noted, or they are not.
    #[error("the calls could not be written")]
    Device,
}

/// Pages that are written are kept in memory up to this number, and then written in one go.
pub const MOST_PENDING: usize = 256;

/// A device over a file and its journal. It is honest where both files are.
///
/// Pages are kept in memory as they are written. A sync, or one page too many, brings the images of
/// what is in their places to the journal, and then the pages to the file. A crash at any moment
/// leaves the pages of the last sync that was done, or, while one is under way, of that one. Calls
/// that are noted stand behind the pages of the last sync until the next one is done. Once a
/// transfer failed that changes a file it asks nothing more of either: it is to be opened again.
#[derive(Drop)]
pub struct SafeDevice<P: PagePair> {
    file: GuardedFile<P>,
    pending: Vec<PageImage>,
    /// Room for the images of a save.
    images: Images,
    pages: u32,
    failed: u64,
    is_broken: bool,
}

impl<P: PagePair> Model for SafeDevice<P> {
    ghost use Rattle.std.specs.Prelude.{length, vec_capacity};
    ghost use Rattle.safe_device.specs.Device.{DeviceState, IsSound, content_of, is_synced};
    ghost use Rattle.safe_device.specs.Left.{calls_of};

    ghost Value = { DeviceState P };

    ghost view = { λ d. record {
      pair = d.file.pair;
      content = content_of P.is_honest d.pages d.pending.items (P.file d.file.pair);
      calls = calls_of (P.journal d.file.pair);
      pages = d.pages;
      pending = length d.pending.items;
      failed = d.failed;
      is_broken = d.is_broken;
      is_synced = is_synced d.file.begun d.file.count d.file.guarded.items d.pages d.pending.items;
    } };

    ghost invariant = { λ d. IsSound P.is_honest P.file P.journal P.may_leave
        d.file d.pages d.is_broken (vec_capacity d.pending) };
}

impl<P: PagePair> SafeDevice<P> {
    /// A device over both files, as `recover` left them. Calls may stand in the journal: they are
    /// read by `noted`, and a sync ends them.
    #[tactic(auto, using(crate::proofs::DeviceLemmas::content_opened))]
    pub fn new(alloc: Global, pair: P) -> Result<SafeDevice<P>, AllocError>
    where
        P: Drop,
        requires { IsTrue P.is_honest → IsAtRest P.file P.journal P.may_leave pair }
        ensures { IfOk result (IsOpened P.is_honest P.file P.journal pair) }
    {
        let pending = Vec::with_capacity(alloc, MOST_PENDING)?;
        let images = Images::with_capacity(alloc, MOST_PENDING)?;
        let file = GuardedFile::new(alloc, pair)?;
        let pages = file.count;
        Ok(SafeDevice {
            file,
            pending,
            images,
            pages,
            failed: 0,
            is_broken: false,
        })
    }

    /// Both files.
    pub fn into_pair(self) -> P
        ensures { result ≡ self.pair }
    {
        self.file.pair
    }

    /// Notes calls behind the pages of the last sync, with one addition to the journal and one wait.
    /// It is for a device of which nothing was written since.
    ///
    /// # Errors
    ///
    /// Where something was written nothing is done. Where a transfer fails the device is to be
    /// opened again.
    pub fn note(&mut self, calls: &[u8]) -> Result<(), NoteFault>
        ensures ok { OnOk result (HasNoted P.is_honest calls.now self.old self.new) }
        ensures written { IsErrOf result NoteFault.Written ↔ (self.old.is_synced ≡ false) }
        ensures err { (IsErrOf result NoteFault.Written → self.new ≡ self.old)
            × (IsErrOf result NoteFault.Device → FailsToNote self.old self.new) }
        ensures same { self.new.content ≡ self.old.content }
        ensures any_moment { Notes P.is_honest P.file P.journal P.moment P.left_since
            calls.now (is_ok result) self.old self.new }
        ensures durable { IsTrue P.is_honest → OnOk result (Keeps
            (StandsFor (with_calls calls.now (committed P.file P.journal self.old.pair)))
            (P.may_leave self.new.pair)) }
    {
        if !self.pending.is_empty() || !self.file.is_unchanged(self.pages) {
            return Err(NoteFault::Written);
        }
        if self.is_broken {
            self.failed = self.failed.saturating_add(1);
            return Err(NoteFault::Device);
        }
        let Ok(()) = self.file.note(calls) else {
            self.is_broken = true;
            self.failed = self.failed.saturating_add(1);
            return Err(NoteFault::Device);
        };
        Ok(())
    }

    /// How many additions of calls stand behind the pages of the last sync.
    pub fn noted_count(&self) -> usize
        ensures { IsTrue P.is_honest → result ≡ length self.now.calls }
    {
        self.file.pair.calls()
    }

    /// Reads one of them, counted from 0, in place of what was there.
    ///
    /// # Errors
    ///
    /// There is no memory for it, or the transfer failed.
    pub fn noted(&self, index: usize, into: &mut Vec<u8>) -> Result<(), CallsFault>
        ensures { IsTrue P.is_honest →
            OnOk result (slice_get self.now.calls index ≡ Some into.new.items) }
    {
        self.file.pair.load_calls(index, into)
    }

    /// Writes the pages that wait to the file. What they are does not change.
    #[tactic(auto, using(crate::proofs::DeviceLemmas::content_same, crate::proofs::DeviceLemmas::content_written, crate::proofs::DeviceLemmas::file_written, crate::proofs::DeviceLemmas::written_length))]
    fn write_pending(&mut self) -> Result<(), DeviceFault>
        requires usable { self.old.is_broken ≡ false }
        ensures ok { OnOk result (IsWrittenOut P.is_honest P.file P.journal self.old self.new) }
        ensures err { OnErr result (HasRisen self.old.failed self.new.failed) }
        ensures told { IsOkUnless result DeviceFault.Device }
        ensures content { self.new.content ≡ self.old.content }
        ensures later { (self.old.failed ≤ self.new.failed) × (self.new.pages ≡ self.old.pages) }
        ensures any_moment { IsTrue P.is_honest →
            LeavesOnly P.moment P.left_since self.old.pair self.new.pair
            (StandsFor (committed P.file P.journal self.old.pair)) }
    {
        let Ok(()) = self.file.write_all(&mut self.images, &self.pending) else {
            self.is_broken = true;
            self.failed = self.failed.saturating_add(1);
            return Err(DeviceFault::Device);
        };
        self.pending.clear();
        Ok(())
    }

    /// Sees to it that one more page can wait.
    fn make_room(&mut self) -> Result<(), DeviceFault>
        requires usable { self.old.is_broken ≡ false }
        ensures ok { OnOk result (HasRoom P.is_honest P.file P.journal self.old self.new) }
        ensures err { OnErr result (HasRisen self.old.failed self.new.failed) }
        ensures told { IsOkUnless result DeviceFault.Device }
        ensures content { self.new.content ≡ self.old.content }
        ensures later { (self.old.failed ≤ self.new.failed) × (self.new.pages ≡ self.old.pages) }
        ensures any_moment { IsTrue P.is_honest →
            LeavesOnly P.moment P.left_since self.old.pair self.new.pair
            (StandsFor (committed P.file P.journal self.old.pair)) }
    {
        if self.pending.len() < MOST_PENDING {
            return Ok(());
        }
        self.write_pending()
    }
}

impl<P: PagePair> PageDevice for SafeDevice<P> {
    ghost is_honest = { λ _. P.is_honest };

    ghost content = { λ d. d.content };

    ghost is_synced = { λ d. d.is_synced };

    ghost fault_count = { λ d. d.failed };

    #[tactic(auto, using(crate::proofs::DeviceLemmas::content_length))]
    fn pages(&self) -> u32 {
        self.pages
    }

    fn faults(&self) -> u64 {
        self.failed
    }

    #[tactic(auto, using(crate::proofs::DeviceLemmas::content_length, crate::proofs::DeviceLemmas::content_read))]
    fn read(&mut self, page: u32, into: &mut Page) -> Result<(), DeviceFault>
        ensures ok { IsTrue P.is_honest →
            OnOk result (slice_get self.old.content page ≡ Some into.new) }
        ensures past { IsErrOf result DeviceFault.PastEnd ↔ (length self.old.content ≤ page) }
        ensures same { self.new.content ≡ self.old.content }
        ensures files { self.new.pair ≡ self.old.pair }
        ensures rest { self.new ≡ record self.old { failed = self.new.failed } }
        ensures cause { HasCause MayMeetTheEnd self.old.failed self.new.failed result }
    {
        if page >= self.pages {
            return Err(DeviceFault::PastEnd);
        }
        let Ok(()) = self.file.pair.load(page, into) else {
            self.failed = self.failed.saturating_add(1);
            return Err(DeviceFault::Device);
        };
        overlay(&self.pending, page, into);
        Ok(())
    }

    #[tactic(auto, using(crate::proofs::DeviceLemmas::content_length, crate::proofs::DeviceLemmas::content_set, crate::proofs::DeviceLemmas::content_differs, crate::proofs::DeviceLemmas::differs_same))]
    fn write(&mut self, page: u32, bytes: &Page) -> Result<(), DeviceFault>
        ensures ok { IsTrue P.is_honest →
            OnOk result (self.new.content ≡ slice_set self.old.content page bytes.now) }
        ensures past { IsErrOf result DeviceFault.PastEnd ↔ (length self.old.content ≤ page) }
        ensures others { DiffersAtMostAt page self.old.content self.new.content }
        ensures cause { HasCause MayMeetTheEnd self.old.failed self.new.failed result }
        ensures any_moment { StaysCommitted P.is_honest P.file P.journal P.moment P.left_since
            (is_ok result) self.old self.new }
    {
        if page >= self.pages {
            return Err(DeviceFault::PastEnd);
        }
        if self.is_broken {
            self.failed = self.failed.saturating_add(1);
            return Err(DeviceFault::Device);
        }
        self.make_room()?;
        self.pending
            .push(PageImage {
                page,
                bytes: *bytes,
            })
            .unwrap();
        Ok(())
    }

    #[tactic(auto, using(crate::proofs::DeviceLemmas::content_length, crate::proofs::DeviceLemmas::content_extended, crate::proofs::DeviceLemmas::content_longer))]
    fn extend(&mut self, bytes: &Page) -> Result<(), DeviceFault>
        ensures ok { IsTrue P.is_honest →
            OnOk result (self.new.content ≡ self.old.content ++ bytes.now ∷ []) }
        ensures grows { OnOk result (length self.new.content ≡ length self.old.content + 1) }
        ensures full { IsErrOf result DeviceFault.DeviceFull ↔
            (MAX_PAGES ≤ length self.old.content) }
        ensures err { OnErr result (self.new.content ≡ self.old.content) }
        ensures cause { HasCause MayBeFull self.old.failed self.new.failed result }
        ensures any_moment { StaysCommitted P.is_honest P.file P.journal P.moment P.left_since
            (is_ok result) self.old self.new }
    {
        if self.pages >= MAX_PAGES {
            return Err(DeviceFault::DeviceFull);
        }
        if self.is_broken {
            self.failed = self.failed.saturating_add(1);
            return Err(DeviceFault::Device);
        }
        self.write_pending()?;
        let Ok(()) = self.file.extend(bytes) else {
            self.is_broken = true;
            self.failed = self.failed.saturating_add(1);
            return Err(DeviceFault::Device);
        };
        self.pages += 1;
        Ok(())
    }

    fn sync(&mut self) -> Result<(), DeviceFault>
        ensures ok { IsTrue P.is_honest → OnOk result (IsTrue self.new.is_synced) }
        ensures same { self.new.content ≡ self.old.content }
        ensures cause { HasCause MayOnlyFail self.old.failed self.new.failed result }
        ensures any_moment { Commits P.is_honest P.file P.journal P.moment P.left_since
            (is_ok result) self.old self.new }
        ensures durable { IsTrue P.is_honest →
            OnOk result (Keeps (StandsFor (alone self.old.content)) (P.may_leave self.new.pair)) }
        ensures usable { OnOk result (HasEnded P.is_honest self.new) }
    {
        if self.is_broken {
            self.failed = self.failed.saturating_add(1);
            return Err(DeviceFault::Device);
        }
        self.write_pending()?;
        let Ok(()) = self.file.sync() else {
            self.is_broken = true;
            self.failed = self.failed.saturating_add(1);
            return Err(DeviceFault::Device);
        };
        Ok(())
    }
}

/// Makes of a page as the file has it what it is where these are put in their places, in order.
fn overlay(images: &[PageImage], page: u32, into: &mut Page)
    ensures { (pages : List (List ℕ)) → slice_get pages page ≡ Some into.old →
        slice_get (put_back pages images.now) page ≡ Some into.new }
{
    for image in images {
        if image.page == page {
            *into = image.bytes;
        }
    }
}
