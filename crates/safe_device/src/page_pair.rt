//! A file of pages and the journal beside it, as a crash sees them.
ghost use Rattle.std.specs.Prelude.{◌≡◌, ◌≤◌, ℕ, Bool, [], ◌∷◌, ◌++◌, List, Option, Some, None, length, take, slice_get, slice_set, IfOk, OnOk, IsTrue};
ghost use Rattle.safe_device.specs.Left.{Left, added, noted, without_images, found_of, images_of, calls_of};
ghost use Rattle.safe_device.specs.Crash.{Follows, Keeps, HasBoth, IsTornAt, IsLongerBy, TornAt, LongerBy, CutTo, Appended, Noted, Emptied, Removed, HasFile, HasJournal, Elapses};
ghost use Rattle.safe_device.specs.declared.journal.Journal.{Journal as TheJournal};

use crate::journal::PageImage;
use page_device::Page;
use std::io;
use thiserror::Error;

/// What a journal says of itself, where a whole one is found.
#[derive(Clone, Copy, PartialEq, Eq)]
pub struct FoundJournal {
    /// How many pages the file had.
    pub count: u32,
    /// How many additions of calls it holds.
    pub calls: usize,
    /// How many images it holds.
    pub images: u32,
}

/// Why an addition of calls was not read.
#[derive(Debug, Drop, Error)]
pub enum CallsFault {
    /// There is no memory for it.
    #[error("out of memory")]
    NoMemory,
    /// The system failed to read it.
    #[error("{0}")]
    Failed(io::Error),
}

/// A file of pages, and a journal beside it. Each keeps what was synced. Of the pages that were
/// written since, a crash may leave any, each as it was or with anything in it.
///
/// A journal is found whole or not at all: an image or an addition of calls that is not whole is
/// not seen.
pub trait PagePair {
    /// Both files give back what was written, and keep what was synced.
    ghost is_honest: { Bool };

    /// The pages that a read returns.
    ghost file: { Self → List (List ℕ) };

    /// The journal that a reader finds.
    ghost journal: { Self → Option TheJournal };

    /// What a crash at this moment may leave of both.
    ghost may_leave: { Self → Left → Type 0 };

    /// The moment, as a number that does not fall.
    ghost moment: { Self → ℕ };

    /// What a crash at some moment from that one on might have left, in a call or between two.
    ghost left_since: { Self → ℕ → Left → Type 0 };

    /// How many pages the file has.
    fn pages(&self) -> u32
        ensures { IsTrue is_honest → result ≡ length (file self.now) };

    /// Reads a page.
    fn load(&self, page: u32, into: &mut Page) -> io::Result<()>
        ensures ok { IsTrue is_honest →
            OnOk result (slice_get (file self.now) page ≡ Some into.new) };

    /// Writes over a page that is there.
    fn store(&mut self, page: u32, bytes: &Page) -> io::Result<()>
        ensures ok { IsTrue is_honest →
            OnOk result (file self.new ≡ slice_set (file self.old) page bytes.now) }
        ensures torn { IsTornAt page (file self.old) (file self.new) }
        ensures journal { journal self.new ≡ journal self.old }
        ensures crash { Follows (TornAt page) (may_leave self.old) (may_leave self.new) }
        ensures time { Elapses moment left_since may_leave self.old self.new };

    /// Adds a page after the last.
    fn extend(&mut self, bytes: &Page) -> io::Result<()>
        ensures ok { IsTrue is_honest →
            OnOk result (file self.new ≡ file self.old ++ bytes.now ∷ []) }
        ensures longer { IsLongerBy (file self.old) (file self.new) }
        ensures journal { journal self.new ≡ journal self.old }
        ensures crash { Follows LongerBy (may_leave self.old) (may_leave self.new) }
        ensures time { Elapses moment left_since may_leave self.old self.new };

    /// Ends the file after its first so many pages.
    fn cut(&mut self, pages: u32) -> io::Result<()>
        ensures ok { IsTrue is_honest → OnOk result (file self.new ≡ take pages (file self.old)) }
        ensures journal { journal self.new ≡ journal self.old }
        ensures crash { Follows (CutTo pages) (may_leave self.old) (may_leave self.new) }
        ensures time { Elapses moment left_since may_leave self.old self.new };

    /// Brings the file to where it outlasts a crash.
    fn sync_file(&mut self) -> io::Result<()>
        ensures ok { OnOk result (Keeps (HasFile (file self.old)) (may_leave self.new)) }
        ensures file { file self.new ≡ file self.old }
        ensures journal { journal self.new ≡ journal self.old }
        ensures crash { (c : Left) → may_leave self.new c → may_leave self.old c }
        ensures time { Elapses moment left_since may_leave self.old self.new };

    /// What the journal says of itself, where there is a whole one.
    fn find_journal(&self) -> io::Result<Option<FoundJournal>>
        ensures ok { IsTrue is_honest →
            IfOk result (λ found. found ≡ found_of (journal self.now)) };

    /// Reads an image of the journal, counted from 0, and tells the number of its page.
    fn load_image(&self, index: u32, into: &mut Page) -> io::Result<u32>
        ensures ok { IsTrue is_honest → IfOk result (λ page.
            slice_get (images_of (journal self.now)) index
            ≡ Some (record { page = page; bytes = into.new })) };

    /// Adds images to the journal. One that begins says that there were `count` pages.
    fn append_images(&mut self, count: u32, images: &[PageImage]) -> io::Result<()>
        ensures ok { IsTrue is_honest → OnOk result
            (journal self.new ≡ Some (added count images.now (journal self.old))) }
        ensures file { file self.new ≡ file self.old }
        ensures crash { Follows (Appended count images.now)
            (may_leave self.old) (may_leave self.new) }
        ensures time { Elapses moment left_since may_leave self.old self.new };

    /// How many additions of calls the journal has.
    fn calls(&self) -> usize
        ensures { IsTrue is_honest → result ≡ length (calls_of (journal self.now)) };

    /// Reads an addition of calls of the journal, counted from 0, in place of what was there.
    fn load_calls(&self, index: usize, into: &mut Vec<u8>) -> Result<(), CallsFault>
        ensures ok { IsTrue is_honest → OnOk result
            (slice_get (calls_of (journal self.now)) index ≡ Some into.new.items) };

    /// Notes calls in a journal that has no image: one addition. A journal that begins says that
    /// there were `count` pages.
    fn append_calls(&mut self, count: u32, calls: &[u8]) -> io::Result<()>
        requires { IsTrue is_honest → images_of (journal self.old) ≡ [] }
        ensures ok { IsTrue is_honest → OnOk result
            (journal self.new ≡ Some (noted count calls.now (journal self.old))) }
        ensures file { file self.new ≡ file self.old }
        ensures crash { Follows (Noted count calls.now)
            (may_leave self.old) (may_leave self.new) }
        ensures time { Elapses moment left_since may_leave self.old self.new };

    /// Lets the images of the journal go, and keeps its calls.
    fn end_images(&mut self) -> io::Result<()>
        ensures ok { OnOk result (journal self.new ≡ without_images (journal self.old)) }
        ensures file { file self.new ≡ file self.old }
        ensures crash { Follows Emptied (may_leave self.old) (may_leave self.new) }
        ensures time { Elapses moment left_since may_leave self.old self.new };

    /// Ends the journal with its calls and images, so that a reader finds none.
    fn end_journal(&mut self) -> io::Result<()>
        ensures ok { OnOk result (journal self.new ≡ None) }
        ensures file { file self.new ≡ file self.old }
        ensures crash { Follows Removed (may_leave self.old) (may_leave self.new) }
        ensures time { Elapses moment left_since may_leave self.old self.new };

    /// Brings the journal, or that there is none, to where it outlasts a crash.
    fn sync_journal(&mut self) -> io::Result<()>
        ensures ok { OnOk result (Keeps (HasJournal (journal self.old)) (may_leave self.new)) }
        ensures file { file self.new ≡ file self.old }
        ensures journal { journal self.new ≡ journal self.old }
        ensures crash { (c : Left) → may_leave self.new c → may_leave self.old c }
        ensures time { Elapses moment left_since may_leave self.old self.new };

    /// Whether it is known that a crash leaves both as they are read.
    fn is_settled(&self) -> bool
        ensures { IsTrue result →
            Keeps (HasBoth (file self.now) (journal self.now)) (may_leave self.now) };

    /// A program that is killed leaves what it had written, so that is one of the outcomes.
    ghost seen_may_stay: { (pair : Self) → IsTrue is_honest →
        may_leave pair (record { file = file pair; journal = journal pair }) };

    /// This moment is one of those since an earlier one.
    ghost counts_now: { (pair : Self) (t : ℕ) (c : Left) →
        t ≤ moment pair → may_leave pair c → left_since pair t c };

    /// Since this moment there is no other.
    ghost only_now: { (pair : Self) (c : Left) →
        left_since pair (moment pair) c → may_leave pair c };
}
