//! What the system says where a file of it fails.

ghost use Rattle.std.specs.Prelude.{◌≡◌};

use page_device::{Page, PageFile};
use std::alloc::{AllocError, Global};
use std::cell::Cell;
use std::io;
use std::rc::Rc;

/// A file of pages that passes its transfers on to another, and keeps why the last was refused.
#[derive(Drop)]
pub struct Heard<F: PageFile> {
    file: F,
    why: Rc<Cell<Option<io::Error>>>,
}

/// Why the last transfer of a file was refused, if one was.
#[derive(Drop)]
pub struct Refusal {
    why: Rc<Cell<Option<io::Error>>>,
}

impl Refusal {
    /// What the system said.
    pub fn into_error(self) -> Option<io::Error> {
        self.why.take()
    }
}

impl<F: PageFile + Drop> Heard<F> {
    /// The transfers of a file, and where the reason is kept if one is refused.
    pub fn new(alloc: Global, file: F) -> Result<(Heard<F>, Refusal), AllocError> {
        let why = Rc::new(alloc, Cell::new(None))?;
        let refusal = Refusal { why: why.clone()? };
        Ok((Heard { file, why }, refusal))
    }
}

impl<F: PageFile> PageFile for Heard<F> {
    ghost is_honest = { λ h. F.is_honest h.file };

    ghost page_at = { λ h. F.page_at h.file };

    ghost is_synced = { λ h. F.is_synced h.file };

    fn load(&mut self, page: u32, into: &mut Page) -> io::Result<()> {
        match self.file.load(page, into) {
            Ok(()) => Ok(()),
            Err(error) => Err(keep(error, &self.why)),
        }
    }

    fn store(&mut self, page: u32, bytes: &Page) -> io::Result<()> {
        match self.file.store(page, bytes) {
            Ok(()) => Ok(()),
            Err(error) => Err(keep(error, &self.why)),
        }
    }

    fn cut(&mut self, pages: u32) -> io::Result<()> {
        match self.file.cut(pages) {
            Ok(()) => Ok(()),
            Err(error) => Err(keep(error, &self.why)),
        }
    }

    fn sync(&mut self) -> io::Result<()> {
        match self.file.sync() {
            Ok(()) => Ok(()),
            Err(error) => Err(keep(error, &self.why)),
        }
    }
}

/// Keeps an error, and tells its kind again.
fn keep(error: io::Error, why: &Cell<Option<io::Error>>) -> io::Error {
    let again = io::Error::from(error.kind());
    why.set(Some(error));
    again
}
