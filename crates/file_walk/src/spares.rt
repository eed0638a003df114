//! The list of free pages is walked, and each page from the root on gets its one role.

ghost use Rattle.std.specs.Prelude.{◌≡◌, ◌≤◌, ◌⊎◌, length, IfOk, IfErr, OnOk};
ghost use Rattle.page_device.specs.declared.page.TheConstants.{MAX_PAGES};
ghost use Rattle.file_walk.specs.Order.{LacksMemory};
ghost use Rattle.file_walk.specs.Walks.{AreMarked, HasRightSpares, HasRoomFor, IsRightChain, IsSparesFault};

use crate::fault::StructureFault;
use crate::outline::Outline;
use std::alloc::{AllocError, Global};

/// Walks the list of free pages. Each page is marked once, as one of the chain or of this list,
/// so the walk ends.
pub fn test_spares(alloc: Global, file: &Outline, chain: &[u32]) -> Result<(), StructureFault>
    requires { IsRightChain file.now chain.now }
    ensures ok { OnOk result (HasRightSpares file.now chain.now) }
    ensures err { IfErr result (λ fault.
        LacksMemory fault ⊎ IsSparesFault file.now chain.now fault) }
{
    file.keeps_layout();
    chain_is_within(file, chain);
    let mut marks = marks_of(alloc, file.pages() as usize, chain)?;
    let mut page = file.first_free();
    'walk: while page != 0 {
        let Some(next) = file.behind(page) else {
            return Err(StructureFault::NotFree { page });
        };
        if marks[page as usize] {
            return Err(StructureFault::NotFree { page });
        }
        marks[page as usize] = true;
        page = next;
    }
    for number in file.root()..file.pages() {
        if !marks[number as usize] {
            return Err(StructureFault::PageLost { page: number });
        }
    }
    Ok(())
}

/// The pages of a chain are pages of the file, and none stands on it twice.
fn chain_is_within(file: &Outline, chain: &[u32])
    requires { IsRightChain file.now chain.now }
    ensures { HasRoomFor (length file.now.pages) chain.now }
{
    let _ = (file.pages(), chain.len());
}

/// So many marks, of which those of the chain are set.
fn marks_of(alloc: Global, pages: usize, chain: &[u32]) -> Result<Vec<bool>, AllocError>
    requires { HasRoomFor pages chain.now }
    ensures marked { IfOk result (λ marks. AreMarked pages chain.now marks.items) }
{
    let mut marks = vec![in alloc; false; pages]?;
    for page in chain {
        marks[*page as usize] = true;
    }
    Ok(marks)
}
