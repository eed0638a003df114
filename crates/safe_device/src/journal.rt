//! What a journal holds: calls that were noted, and the images of pages as they were before a session.
ghost use Rattle.std.specs.Prelude.{◌≡◌, [], ◌∷◌, ◌++◌, length, slice_get, Some, IfSome, IfOk, OnOk};

use page_device::Page;
use std::alloc::{AllocError, AllocFailed, Global};
use std::marker::Model;

/// The bytes of a page, with its number.
#[derive(Clone, Copy, Drop)]
pub struct PageImage {
    pub page: u32,
    pub bytes: Page,
}

/// Images of pages. A clause sees the list of them.
#[derive(Drop)]
pub struct Images {
    items: Vec<PageImage>,
}

impl Model for Images {
    ghost use Rattle.std.specs.Prelude.{List};
    ghost use Rattle.safe_device.specs.declared.journal.PageImage.{PageImage as TheImage};

    ghost Value = { List TheImage };

    ghost view = { λ images. images.items.items };
}

impl Images {
    /// No image.
    pub fn new(alloc: Global) -> Images
        ensures { result ≡ [] }
    {
        Images {
            items: Vec::new(alloc),
        }
    }

    /// No image, with room for so many.
    pub fn with_capacity(alloc: Global, many: usize) -> Result<Images, AllocError>
        ensures { IfOk result (λ images. images ≡ []) }
    {
        Ok(Images {
            items: Vec::with_capacity(alloc, many)?,
        })
    }

    /// Lets all images go, and keeps their room.
    pub fn clear(&mut self)
        ensures { self.new ≡ [] }
    {
        self.items.clear();
    }

    /// Adds an image.
    pub fn push(&mut self, image: PageImage) -> Result<(), AllocFailed<PageImage>>
        ensures ok { OnOk result (self.new ≡ self.old ++ image ∷ []) }
    {
        self.items.push(image)
    }

    /// These images and more.
    pub fn with(mut images: Images, more: &[PageImage]) -> Result<Images, AllocError>
        ensures { IfOk result (λ all. all ≡ images ++ more.now) }
    {
        images.items.extend_from_slice(more)?;
        Ok(images)
    }

    /// The same images again.
    pub fn try_copy(&self, alloc: Global) -> Result<Images, AllocError>
        ensures { IfOk result (λ copy. copy ≡ self.now) }
    {
        Ok(Images {
            items: self.items.to_vec(alloc)?,
        })
    }

    /// The images.
    pub fn as_slice(&self) -> &[PageImage]
        ensures { result.now ≡ self.now }
    {
        &self.items
    }
}

/// Bytes. A clause sees the list of them.
#[derive(Drop)]
pub struct Bytes {
    items: Vec<u8>,
}

impl Model for Bytes {
    ghost use Rattle.std.specs.Prelude.{ℕ, List};

    ghost Value = { List ℕ };

    ghost view = { λ bytes. bytes.items.items };
}

impl Bytes {
    /// The same bytes again.
    pub fn copy_of(bytes: &[u8], alloc: Global) -> Result<Bytes, AllocError>
        ensures { IfOk result (λ copy. copy ≡ bytes.now) }
    {
        Ok(Bytes {
            items: bytes.to_vec(alloc)?,
        })
    }

    /// The bytes.
    pub fn as_slice(&self) -> &[u8]
        ensures { result.now ≡ self.now }
    {
        &self.items
    }
}

/// Additions of calls, each the bytes that were noted at once. A clause sees the list of them.
#[derive(Drop)]
pub struct Calls {
    items: Vec<Bytes>,
}

impl Model for Calls {
    ghost use Rattle.std.specs.Prelude.{ℕ, List};

    ghost Value = { List (List ℕ) };

    ghost view = { λ calls. calls.items.items };
}

impl Calls {
    /// No addition.
    pub fn new(alloc: Global) -> Calls
        ensures { result ≡ [] }
    {
        Calls {
            items: Vec::new(alloc),
        }
    }

    /// How many additions there are.
    pub fn len(&self) -> usize
        ensures { result ≡ length self.now }
    {
        self.items.len()
    }

    /// An addition, counted from 0.
    pub fn get(&self, index: usize) -> Option<&Bytes>
        ensures { IfSome result (λ bytes. slice_get self.now index ≡ Some bytes.now) }
    {
        self.items.get(index)
    }

    /// These additions and one more.
    pub fn with(mut calls: Calls, more: &[u8], alloc: Global) -> Result<Calls, AllocError>
        ensures { IfOk result (λ all. all ≡ calls ++ more.now ∷ []) }
    {
        calls.items.push(Bytes::copy_of(more, alloc)?)?;
        Ok(calls)
    }

    /// The same additions again.
    pub fn try_copy(&self, alloc: Global) -> Result<Calls, AllocError>
        ensures { IfOk result (λ copy. copy ≡ self.now) }
    {
        let mut items = Vec::with_capacity(alloc, self.items.len())?;
        for bytes in &self.items {
            items.push(Bytes::copy_of(bytes.as_slice(), alloc)?)?;
        }
        Ok(Calls { items })
    }
}

/// A whole journal: how many pages the file had, the calls that were noted behind them, and the
/// images of those that may have changed.
#[derive(Drop)]
pub struct Journal {
    pub count: u32,
    pub calls: Calls,
    pub images: Images,
}
