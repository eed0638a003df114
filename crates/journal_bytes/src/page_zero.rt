//! How a journal knows the file that it is of: by page 0 as it was.
ghost use Rattle.std.specs.Prelude.{◌≡◌};
ghost use Rattle.journal_bytes.specs.Bytes.{is_page_zero, seal_in};

use crate::image::{Sum, digest};
use page_device::{PAYLOAD_BYTES, Page};

/// Bytes of a seal.
pub const SEAL_BYTES: usize = 24;

/// The first bytes of the digest with which page 0 ends.
pub type Seal = [u8; SEAL_BYTES];

/// Page 0 as it was when a journal began.
#[derive(Clone, Copy)]
pub enum PageZero {
    /// Its seal.
    Seal(Seal),
    /// Its SHA-256, in version 1.
    Digest(Sum),
}

impl PageZero {
    /// Whether it is this page.
    pub fn is(&self, page: &Page) -> bool
        ensures { result ≡ is_page_zero self.now page.now }
    {
        match self {
            PageZero::Seal(seal) => seal_of(page).as_slice() == seal.as_slice(),
            PageZero::Digest(sum) => digest(page).as_slice() == sum.as_slice(),
        }
    }
}

/// The seal of a page. Its digest is not computed again.
pub fn seal_of(page: &Page) -> Seal
    ensures { result ≡ seal_in page.now }
{
    let mut seal = [0; SEAL_BYTES];
    seal.copy_from_slice(&page[PAYLOAD_BYTES..PAYLOAD_BYTES + SEAL_BYTES]);
    seal
}
