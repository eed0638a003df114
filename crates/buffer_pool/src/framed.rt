//! A page in a frame, with its digest once it was sealed.

ghost use Rattle.std.specs.Prelude.{◌≡◌};
ghost use Rattle.std.specs.Borrow.{sem};
ghost use Rattle.page_device.specs.Sealed.{IsSealed, page_digest, payload_of};
ghost use Rattle.buffer_pool.specs.Lending.{LendsFramed};

use crate::file_page::FilePage;
use page_device::{DIGEST_BYTES, Page, page_digest, seal_with};
use std::marker::Model;

/// The digest of a payload as a page of this number.
#[derive(Clone, Copy, Drop)]
struct Seal {
    page: u32,
    digest: [u8; DIGEST_BYTES],
}

/// A page, and its digest where it was sealed since it was lent last. A clause sees the bytes of the
/// page.
#[derive(Drop)]
pub struct Framed {
    page: FilePage,
    seal: Option<Seal>,
}

impl Model for Framed {
    ghost use Rattle.std.specs.Prelude.{ℕ, List, ◌≡◌, IfSome};
    ghost use Rattle.page_device.specs.Sealed.{page_digest};

    ghost Value = { List ℕ };

    ghost view = { λ f. f.page };

    ghost invariant = { λ f. IfSome f.seal (λ seal. seal.digest ≡ page_digest seal.page f.page) };
}

impl Framed {
    /// A page that was not sealed.
    pub fn new(page: FilePage) -> Framed
        ensures { result ≡ page }
    {
        Framed { page, seal: None }
    }

    /// The page.
    pub fn page(&self) -> &FilePage
        ensures { result.now ≡ self.now }
    {
        &self.page
    }

    /// Lends the page to be changed. So its digest is forgotten.
    pub fn page_mut(&mut self) -> &mut FilePage
        ensures* writes_back { sem 𝓛 (LendsFramed self.entry result) }
        ensures value { result.now ≡ self.old }
    {
        self.seal = None;
        &mut self.page
    }

    /// The page as page `n`, sealed. Its digest is computed once, until the page is lent.
    pub fn sealed(&mut self, n: u32) -> Page
        ensures same { self.new ≡ self.old }
        ensures sealed { IsSealed n result }
        ensures payload { payload_of result ≡ self.old }
    {
        let digest = self.digest(n);
        seal_with(self.page.payload(), &digest)
    }

    /// The digest of page `n` with its payload.
    fn digest(&mut self, n: u32) -> [u8; DIGEST_BYTES]
        ensures same { self.new ≡ self.old }
        ensures is { result ≡ page_digest n self.old }
    {
        if let Some(seal) = self.seal {
            if seal.page == n {
                return seal.digest;
            }
        }
        let digest = page_digest(n, self.page.payload());
        self.seal = Some(Seal { page: n, digest });
        digest
    }
}
