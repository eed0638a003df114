//! A file whose pages are written only once their images stand in the journal.
ghost use Rattle.std.specs.Prelude.{◌≡◌, ◌<◌, ◌≤◌, ◌⊎◌, [], ◌∷◌, ◌++◌, List, ℕ, true, false, length, Some, slice_get, slice_set, IfOk, OnOk, IsTrue, IsFalse};
ghost use Rattle.std.specs.List.{All, Contains};
ghost use Rattle.safe_device.specs.declared.journal.PageImage.{PageImage as TheImage};
ghost use Rattle.safe_device.specs.Left.{alone, images_of, put_back, restored, with_calls};
ghost use Rattle.safe_device.specs.Device.{is_unchanged};
ghost use Rattle.safe_device.specs.Crash.{LeavesOnly, IsTornAt, IsLongerBy};
ghost use Rattle.safe_device.specs.Safe.{numbers, first_count, committed, IsSafe, IsAtRest, IsEither, IsUnchanged, StandsFor};

use crate::journal::{Images, PageImage};
use crate::page_pair::PagePair;
use page_device::{MAX_PAGES, PAGE_BYTES, Page};
use std::alloc::{AllocError, Global};
use std::io;

/// A file of pages. A crash at any moment leaves its pages as they were at the last sync that was
/// done, with the calls that were noted since, or, while a sync is under way, as they are after it.
/// After an `Err` it is to be opened again.
#[derive(Drop)]
pub struct GuardedFile<P: PagePair> {
    pub pair: P,
    /// Whether there is a journal.
    pub begun: bool,
    /// How many pages it says that there were.
    pub count: u32,
    /// The pages that have an image in it.
    pub guarded: Vec<u32>,
}

impl<P: PagePair> GuardedFile<P> {
    /// The file of a pair that `recover` left.
    ///
    /// All memory that a session needs is taken here, so that none can be wanting at a write.
    pub fn new(alloc: Global, pair: P) -> Result<GuardedFile<P>, AllocError>
    where
        P: Drop,
        requires { IsTrue P.is_honest → IsAtRest P.file P.journal P.may_leave pair }
        ensures safe { IsTrue P.is_honest → IfOk result (IsSafe P.file P.journal P.may_leave) }
        ensures same { IfOk result (λ made. made.pair ≡ pair) }
        ensures none { IfOk result (λ made. made.guarded.items ≡ []) }
        ensures whole { IsTrue P.is_honest → IfOk result (λ it. it.count ≡ length (P.file pair)) }
    {
        let guarded = Vec::with_capacity(alloc, MAX_PAGES as usize)?;
        let begun = pair.calls() > 0;
        let count = pair.pages();
        Ok(GuardedFile {
            pair,
            begun,
            count,
            guarded,
        })
    }

    /// Whether nothing was written since the last sync of a file that has so many pages.
    pub fn is_unchanged(&self, pages: u32) -> bool
        ensures { result ≡ is_unchanged self.now.begun self.now.count self.now.guarded.items pages }
    {
        self.guarded.is_empty() && (!self.begun || self.count == pages)
    }

    /// Notes calls in the journal, and waits until they outlast a crash.
    pub fn note(&mut self, calls: &[u8]) -> io::Result<()>
        requires safe { IsTrue P.is_honest → IsSafe P.file P.journal P.may_leave self.old }
        requires unchanged { IsTrue P.is_honest → IsUnchanged self.old.begun self.old.count
            self.old.guarded.items (length (P.file self.old.pair)) }
        ensures safe { IsTrue P.is_honest →
            OnOk result (IsSafe P.file P.journal P.may_leave self.new) }
        ensures file { P.file self.new.pair ≡ P.file self.old.pair }
        ensures committed { IsTrue P.is_honest →
            OnOk result (committed P.file P.journal self.new.pair
            ≡ with_calls calls.now (committed P.file P.journal self.old.pair)) }
        ensures unchanged { IsTrue P.is_honest → OnOk result (IsUnchanged self.new.begun
            self.new.count self.new.guarded.items (length (P.file self.new.pair))) }
        ensures any_moment { IsTrue P.is_honest →
            LeavesOnly P.moment P.left_since self.old.pair self.new.pair
            (IsEither (committed P.file P.journal self.old.pair)
            (with_calls calls.now (committed P.file P.journal self.old.pair))) }
    {
        let count = self.first_count();
        self.pair.append_calls(count, calls)?;
        self.pair.sync_journal()?;
        self.count = count;
        self.begun = true;
        Ok(())
    }

    /// Whether a page may be written in place: it has an image in the journal, or it was added
    /// in this session.
    fn is_guarded(&self, page: u32) -> bool
        ensures begun { IsTrue result → self.now.begun ≡ true }
        ensures guarded { IsTrue result →
            Contains self.now.guarded.items page ⊎ (self.now.count ≤ page) }
        ensures open { IsFalse result → self.now.begun ≡ true →
            (page < self.now.count) × (Contains self.now.guarded.items page → ⊥) }
    {
        self.begun && (page >= self.count || self.guarded.contains(&page))
    }

    /// How many pages there were when the session began, or are now where none has begun.
    fn first_count(&self) -> u32
        ensures { IsTrue P.is_honest →
            result ≡ first_count self.now.begun self.now.count (P.file self.now.pair) }
    {
        if self.begun {
            self.count
        } else {
            self.pair.pages()
        }
    }

    /// Adds images to the journal, and waits until they outlast a crash.
    fn add_images(&mut self, images: &[PageImage]) -> io::Result<()>
        requires safe { IsTrue P.is_honest → IsSafe P.file P.journal P.may_leave self.old }
        requires images { IsTrue P.is_honest → All (λ (image : TheImage).
            slice_get (committed P.file P.journal self.old.pair).pages image.page ≡ Some image.bytes)
            images.now }
        ensures safe { IsTrue P.is_honest →
            OnOk result (IsSafe P.file P.journal P.may_leave self.new) }
        ensures file { P.file self.new.pair ≡ P.file self.old.pair }
        ensures committed { IsTrue P.is_honest →
            OnOk result (committed P.file P.journal self.new.pair
            ≡ committed P.file P.journal self.old.pair) }
        ensures begun { OnOk result (self.new.begun ≡ true) }
        ensures guarded { OnOk result
            (self.new.guarded.items ≡ self.old.guarded.items ++ numbers images.now) }
        ensures any_moment { IsTrue P.is_honest →
            LeavesOnly P.moment P.left_since self.old.pair self.new.pair
            (StandsFor (committed P.file P.journal self.old.pair)) }
    {
        push_numbers(&mut self.guarded, images)?;
        self.count = self.first_count();
        self.pair.append_images(self.count, images)?;
        self.pair.sync_journal()?;
        self.begun = true;
        Ok(())
    }

    /// The images of those pages that have none yet and were there when the session began, in place
    /// of those that were given.
    fn open_images(&self, images: &mut Images, pages: &[PageImage]) -> io::Result<()>
        requires safe { IsTrue P.is_honest → IsSafe P.file P.journal P.may_leave self.now }
        ensures images { IsTrue P.is_honest → OnOk result (All (λ (image : TheImage).
            slice_get (committed P.file P.journal self.now.pair).pages image.page ≡ Some image.bytes)
            images.new) }
    {
        images.clear();
        for page in pages {
            if self.is_guarded(page.page) {
                continue;
            }
            let mut bytes = [0; PAGE_BYTES];
            self.pair.load(page.page, &mut bytes)?;
            images.push(PageImage {
                page: page.page,
                bytes,
            })?;
        }
        Ok(())
    }

    /// Sees to it that these pages may be written in place, with one wait for them all.
    fn protect(&mut self, images: &mut Images, pages: &[PageImage]) -> io::Result<()>
        requires safe { IsTrue P.is_honest → IsSafe P.file P.journal P.may_leave self.old }
        ensures safe { IsTrue P.is_honest →
            OnOk result (IsSafe P.file P.journal P.may_leave self.new) }
        ensures file { P.file self.new.pair ≡ P.file self.old.pair }
        ensures committed { IsTrue P.is_honest →
            OnOk result (committed P.file P.journal self.new.pair
            ≡ committed P.file P.journal self.old.pair) }
        ensures any_moment { IsTrue P.is_honest →
            LeavesOnly P.moment P.left_since self.old.pair self.new.pair
            (StandsFor (committed P.file P.journal self.old.pair)) }
    {
        self.open_images(images, pages)?;
        if images.as_slice().is_empty() {
            return Ok(());
        }
        self.add_images(images.as_slice())
    }

    /// Sees to it that a page may be written in place.
    fn guard(&mut self, page: u32) -> io::Result<()>
        requires safe { IsTrue P.is_honest → IsSafe P.file P.journal P.may_leave self.old }
        ensures safe { IsTrue P.is_honest →
            OnOk result (IsSafe P.file P.journal P.may_leave self.new) }
        ensures file { P.file self.new.pair ≡ P.file self.old.pair }
        ensures committed { IsTrue P.is_honest →
            OnOk result (committed P.file P.journal self.new.pair
            ≡ committed P.file P.journal self.old.pair) }
        ensures begun { OnOk result (self.new.begun ≡ true) }
        ensures guarded { OnOk result
            (Contains self.new.guarded.items page ⊎ (self.new.count ≤ page)) }
        ensures any_moment { IsTrue P.is_honest →
            LeavesOnly P.moment P.left_since self.old.pair self.new.pair
            (StandsFor (committed P.file P.journal self.old.pair)) }
    {
        if self.is_guarded(page) {
            return Ok(());
        }
        let mut bytes = [0; PAGE_BYTES];
        self.pair.load(page, &mut bytes)?;
        self.add_images(&[PageImage { page, bytes }])
    }

    /// Writes over a page. Its image goes to the journal first, where it is not there yet.
    fn write(&mut self, page: &PageImage) -> io::Result<()>
        requires safe { IsTrue P.is_honest → IsSafe P.file P.journal P.may_leave self.old }
        ensures safe { IsTrue P.is_honest →
            OnOk result (IsSafe P.file P.journal P.may_leave self.new) }
        ensures file { IsTrue P.is_honest → OnOk result
            (P.file self.new.pair ≡ slice_set (P.file self.old.pair) page.now.page page.now.bytes) }
        ensures torn { IsTornAt page.now.page (P.file self.old.pair) (P.file self.new.pair) }
        ensures committed { IsTrue P.is_honest →
            OnOk result (committed P.file P.journal self.new.pair
            ≡ committed P.file P.journal self.old.pair) }
        ensures any_moment { IsTrue P.is_honest →
            LeavesOnly P.moment P.left_since self.old.pair self.new.pair
            (StandsFor (committed P.file P.journal self.old.pair)) }
    {
        self.guard(page.page)?;
        self.pair.store(page.page, &page.bytes)?;
        Ok(())
    }

    /// Writes over pages, each in place of what is there, in order. Their images go to the journal
    /// first, with one wait for them all, through the room that is given for them. What an error
    /// leaves differs in these pages alone.
    pub fn write_all(&mut self, images: &mut Images, pages: &[PageImage]) -> io::Result<()>
        requires safe { IsTrue P.is_honest → IsSafe P.file P.journal P.may_leave self.old }
        ensures safe { IsTrue P.is_honest →
            OnOk result (IsSafe P.file P.journal P.may_leave self.new) }
        ensures file { IsTrue P.is_honest → OnOk result
            (P.file self.new.pair ≡ put_back (P.file self.old.pair) pages.now) }
        ensures others { (count : ℕ) → restored count pages.now (P.file self.new.pair)
            ≡ restored count pages.now (P.file self.old.pair) }
        ensures committed { IsTrue P.is_honest →
            OnOk result (committed P.file P.journal self.new.pair
            ≡ committed P.file P.journal self.old.pair) }
        ensures any_moment { IsTrue P.is_honest →
            LeavesOnly P.moment P.left_since self.old.pair self.new.pair
            (StandsFor (committed P.file P.journal self.old.pair)) }
    {
        self.protect(images, pages)?;
        self.write_each(pages)
    }

    /// Writes over pages one by one.
    fn write_each(&mut self, pages: &[PageImage]) -> io::Result<()>
        requires safe { IsTrue P.is_honest → IsSafe P.file P.journal P.may_leave self.old }
        ensures safe { IsTrue P.is_honest →
            OnOk result (IsSafe P.file P.journal P.may_leave self.new) }
        ensures file { IsTrue P.is_honest → OnOk result
            (P.file self.new.pair ≡ put_back (P.file self.old.pair) pages.now) }
        ensures others { (count : ℕ) → restored count pages.now (P.file self.new.pair)
            ≡ restored count pages.now (P.file self.old.pair) }
        ensures committed { IsTrue P.is_honest →
            OnOk result (committed P.file P.journal self.new.pair
            ≡ committed P.file P.journal self.old.pair) }
        ensures any_moment { IsTrue P.is_honest →
            LeavesOnly P.moment P.left_since self.old.pair self.new.pair
            (StandsFor (committed P.file P.journal self.old.pair)) }
    {
        for page in pages {
            self.write(page)?;
        }
        Ok(())
    }

    /// Sees to it that the journal says how many pages there were.
    fn begin(&mut self) -> io::Result<()>
        requires safe { IsTrue P.is_honest → IsSafe P.file P.journal P.may_leave self.old }
        ensures safe { IsTrue P.is_honest →
            OnOk result (IsSafe P.file P.journal P.may_leave self.new) }
        ensures file { P.file self.new.pair ≡ P.file self.old.pair }
        ensures committed { IsTrue P.is_honest →
            OnOk result (committed P.file P.journal self.new.pair
            ≡ committed P.file P.journal self.old.pair) }
        ensures begun { OnOk result (self.new.begun ≡ true) }
        ensures any_moment { IsTrue P.is_honest →
            LeavesOnly P.moment P.left_since self.old.pair self.new.pair
            (StandsFor (committed P.file P.journal self.old.pair)) }
    {
        if self.begun {
            return Ok(());
        }
        self.add_images(&[])
    }

    /// Adds a page after the last. An error may leave more after it.
    pub fn extend(&mut self, bytes: &Page) -> io::Result<()>
        requires safe { IsTrue P.is_honest → IsSafe P.file P.journal P.may_leave self.old }
        ensures safe { IsTrue P.is_honest →
            OnOk result (IsSafe P.file P.journal P.may_leave self.new) }
        ensures file { IsTrue P.is_honest → OnOk result
            (P.file self.new.pair ≡ P.file self.old.pair ++ bytes.now ∷ []) }
        ensures longer { IsLongerBy (P.file self.old.pair) (P.file self.new.pair) }
        ensures committed { IsTrue P.is_honest →
            OnOk result (committed P.file P.journal self.new.pair
            ≡ committed P.file P.journal self.old.pair) }
        ensures any_moment { IsTrue P.is_honest →
            LeavesOnly P.moment P.left_since self.old.pair self.new.pair
            (StandsFor (committed P.file P.journal self.old.pair)) }
    {
        self.begin()?;
        self.pair.extend(bytes)?;
        Ok(())
    }

    /// Ends the session, and the calls that were noted before it: from then on a crash leaves the
    /// pages as they are now, and no call.
    pub fn sync(&mut self) -> io::Result<()>
        requires safe { IsTrue P.is_honest → IsSafe P.file P.journal P.may_leave self.old }
        ensures safe { IsTrue P.is_honest →
            OnOk result (IsSafe P.file P.journal P.may_leave self.new) }
        ensures file { P.file self.new.pair ≡ P.file self.old.pair }
        ensures committed { IsTrue P.is_honest →
            OnOk result (committed P.file P.journal self.new.pair
            ≡ alone (P.file self.old.pair)) }
        ensures ended { OnOk result (self.new.begun ≡ false) }
        ensures any_moment { IsTrue P.is_honest →
            LeavesOnly P.moment P.left_since self.old.pair self.new.pair
            (IsEither (committed P.file P.journal self.old.pair)
            (alone (P.file self.old.pair))) }
    {
        if !self.begun {
            return Ok(());
        }
        self.pair.sync_file()?;
        self.pair.end_journal()?;
        self.pair.sync_journal()?;
        self.begun = false;
        self.guarded.clear();
        Ok(())
    }
}

/// Adds the numbers of pages that have images.
fn push_numbers(guarded: &mut Vec<u32>, images: &[PageImage]) -> Result<(), AllocError>
    ensures { OnOk result (guarded.new.items ≡ guarded.old.items ++ numbers images.now) }
{
    for image in images {
        guarded.push(image.page)?;
    }
    Ok(())
}
