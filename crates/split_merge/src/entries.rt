//! Which pages of the directory a doubling and a split write.

ghost use Rattle.std.specs.Prelude.{◌≡◌, ◌<◌, ◌≤◌, ◌^◌};
ghost use Rattle.directory.specs.declared.layout.TheConstants.{GREATEST_DEPTH};
ghost use Rattle.directory.specs.Entries.{page_of};
ghost use Rattle.split_merge.specs.Entries.{first_upper, last_upper, stride};

use directory::{PAGE_ENTRIES, page_of};

/// The first page with an entry of the upper half that a directory of this depth
/// gets when it doubles.
pub fn first_upper(depth: u8) -> u32
    requires { depth < GREATEST_DEPTH }
    ensures { result ≡ first_upper depth }
{
    page_of(1 << depth)
}

/// The last one.
pub fn last_upper(depth: u8) -> u32
    requires { depth < GREATEST_DEPTH }
    ensures { result ≡ last_upper depth }
{
    page_of((2 << depth) - 1)
}

/// From the first entry of a range on one page to the first one on the next page that has
/// any, where the range has this depth: pages are full of them, or entries are further apart
/// than a page is long.
pub fn stride(depth: u8) -> u32
    requires { depth ≤ GREATEST_DEPTH }
    ensures { result ≡ stride depth }
{
    let apart = 1 << depth;
    if apart < PAGE_ENTRIES as u32 {
        return PAGE_ENTRIES as u32;
    }
    apart
}
