//! Room for a page, which moves as a pointer does.
ghost use Rattle.std.specs.Prelude.{◌≡◌, [], ◌∷◌, OnErr, OnOk};

use safe_device::page_device::{PAGE_BYTES, Page};
use std::alloc::{AllocError, Global};
use std::marker::Model;

/// What stands in room that has no memory yet.
pub(crate) const ZEROS: Page = [0; PAGE_BYTES];

/// Room for one page. A transfer is told, and moved, without its bytes.
#[derive(Drop)]
pub struct Room {
    /// The page; none before there is memory for it.
    pages: Vec<Page>,
}

impl Model for Room {
    ghost use Rattle.std.specs.Prelude.{ℕ, List, slice_index_or};
    ghost use Rattle.pair_transfers.specs.declared.room.TheConstants.{ZEROS};

    ghost Value = { List ℕ };

    ghost view = { λ r. slice_index_or r.pages.items 0 ZEROS };
}

impl Room {
    /// Room without memory.
    pub fn none(alloc: Global) -> Room
        ensures { result ≡ ZEROS }
    {
        Room {
            pages: Vec::new(alloc),
        }
    }

    /// Takes memory, where it has none.
    pub fn take(&mut self) -> Result<(), AllocError>
        ensures { self.new ≡ self.old }
    {
        if !self.pages.is_empty() {
            return Ok(());
        }
        add(&mut self.pages, &ZEROS)
    }

    /// What stands in it.
    pub fn page(&self) -> &Page
        ensures { result.now ≡ self.now }
    {
        if self.pages.is_empty() {
            return &ZEROS;
        }
        &self.pages[0]
    }

    /// Puts a page into it.
    pub fn put(&mut self, page: &Page) -> Result<(), AllocError>
        ensures { OnOk result (self.new ≡ page.now) }
    {
        self.pages.clear();
        add(&mut self.pages, page)
    }
}

/// Adds the page, of which there is none.
fn add(pages: &mut Vec<Page>, page: &Page) -> Result<(), AllocError>
    requires { pages.old.items ≡ [] }
    ensures ok { OnOk result (pages.new.items ≡ page.now ∷ []) }
    ensures err { OnErr result (pages.new.items ≡ []) }
{
    pages.reserve(1)?;
    pages.push(*page).unwrap();
    Ok(())
}
