//! Which page of the file and which slot of it an entry of the directory has.

ghost use Rattle.std.specs.Prelude.{◌≡◌, ◌≤◌, ◌<◌, ◌^◌};
ghost use Rattle.directory.specs.declared.layout.TheConstants.{DIRECTORY_PAGES, FIRST_DIRECTORY_PAGE, GREATEST_DEPTH, PAGE_ENTRIES};
ghost use Rattle.directory.specs.Entries.{page_of, slot_of};

use crate::layout::{FIRST_DIRECTORY_PAGE, PAGE_ENTRIES};

/// The page of the file in which an entry stands.
pub fn page_of(index: u32) -> u32
    ensures value { result ≡ page_of index }
    ensures first { FIRST_DIRECTORY_PAGE ≤ result }
    ensures last { index < 2 ^ GREATEST_DEPTH → result ≤ DIRECTORY_PAGES }
{
    FIRST_DIRECTORY_PAGE + index / PAGE_ENTRIES as u32
}

/// The slot of its page in which an entry stands.
pub fn slot_of(index: u32) -> usize
    ensures value { result ≡ slot_of index }
    ensures within { result < PAGE_ENTRIES }
{
    index as usize % PAGE_ENTRIES
}
