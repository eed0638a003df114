//! Files of pages: what a `FileDevice` asks of a file, and the system's files.
ghost use Rattle.std.specs.Prelude.{◌≡◌, ◌≢◌, ℕ, ◌*◌, ◌<◌, Bool, List, IsTrue, OnOk};

use crate::page::{PAGE_BYTES, Page};
use std::fs::OpenFile;
use std::io;
use std::io::{Read, Seek, SeekFrom, Write};

/// A file of pages, one after the other.
pub trait PageFile {
    /// It gives back what was written. No call makes it honest or dishonest.
    ghost is_honest: { Self → Bool };

    /// What was last written at each place.
    ghost page_at: { Self → ℕ → List ℕ };

    /// What was written is on the disk.
    ghost is_synced: { Self → Bool };

    /// Reads one page and no other byte.
    fn load(&mut self, page: u32, into: &mut Page) -> io::Result<()>
        ensures ok { IsTrue (is_honest self.old) → OnOk result (into.new ≡ page_at self.old page) }
        ensures same { (n : ℕ) → page_at self.new n ≡ page_at self.old n }
        ensures honest { is_honest self.new ≡ is_honest self.old };

    /// Writes one page and no other byte.
    fn store(&mut self, page: u32, bytes: &Page) -> io::Result<()>
        ensures ok { IsTrue (is_honest self.old) → OnOk result (page_at self.new page ≡ bytes.now) }
        ensures others { (n : ℕ) → n ≢ page → page_at self.new n ≡ page_at self.old n }
        ensures honest { is_honest self.new ≡ is_honest self.old };

    /// Ends the file behind its first so many pages.
    fn cut(&mut self, pages: u32) -> io::Result<()>
        ensures same { (n : ℕ) → n < pages → page_at self.new n ≡ page_at self.old n }
        ensures honest { is_honest self.new ≡ is_honest self.old };

    /// Brings what was written to the disk.
    fn sync(&mut self) -> io::Result<()>
        ensures ok { IsTrue (is_honest self.old) → OnOk result (IsTrue (is_synced self.new)) }
        ensures same { (n : ℕ) → page_at self.new n ≡ page_at self.old n }
        ensures honest { is_honest self.new ≡ is_honest self.old };
}

/// A file of the system, open for reads and writes.
///
/// Nobody can know whether it is honest: no clause says which bytes a read of the system gives. So
/// its members say nothing, and what is promised of an honest device is not promised of this one.
#[derive(Drop)]
pub struct SystemFile<F: Drop> {
    file: F,
}

impl<F: OpenFile + Drop> SystemFile<F> {
    /// An open file.
    pub fn new(file: F) -> SystemFile<F> {
        SystemFile { file }
    }
}

impl<F: Read + Write + Seek + OpenFile + Drop> PageFile for SystemFile<F> {
    ghost use Rattle.std.specs.Prelude.{false, []};

    ghost is_honest = { λ _. false };

    ghost page_at = { λ _ _. [] };

    ghost is_synced = { λ _. false };

    fn load(&mut self, page: u32, into: &mut Page) -> io::Result<()> {
        self.file.seek(SeekFrom::Start(offset_of(page)))?;
        self.file.read_exact(into)
    }

    fn store(&mut self, page: u32, bytes: &Page) -> io::Result<()> {
        self.file.seek(SeekFrom::Start(offset_of(page)))?;
        self.file.write_all(bytes)
    }

    fn cut(&mut self, pages: u32) -> io::Result<()> {
        self.file.set_len(offset_of(pages))
    }

    fn sync(&mut self) -> io::Result<()> {
        self.file.sync_all()
    }
}

/// Where a page begins.
fn offset_of(page: u32) -> u64
    ensures { result ≡ page * PAGE_BYTES }
{
    page as u64 * PAGE_BYTES as u64
}
