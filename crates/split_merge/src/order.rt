//! Which place follows on which, where the directory's pages are gone through in ascending order.

ghost use Rattle.std.specs.Prelude.{◌≡◌, ◌<◌, ◌≤◌};
ghost use Rattle.directory.specs.declared.layout.TheConstants.{GREATEST_DEPTH};
ghost use Rattle.split_merge.specs.Order.{IsPlaced, after_copy, after_retarget, after_take};

use crate::entries::{first_upper, last_upper, stride};
use crate::place::SplitPlace;
use directory::Range;

/// The place after TakePage. A bucket that is as deep as the directory needs it doubled.
pub fn after_take(whole: Range, depth: u8, new: u32) -> SplitPlace
    requires shallow { whole.depth < GREATEST_DEPTH }
    ensures is { result ≡ after_take whole depth new }
    ensures placed { IsPlaced whole depth result }
{
    if whole.depth < depth {
        return SplitPlace::WriteNew(new);
    }
    SplitPlace::CopyDirectory(new, first_upper(depth))
}

/// The place after CopyDirectory of a page.
pub fn after_copy(whole: Range, depth: u8, new: u32, page: u32) -> SplitPlace
    requires shallow { whole.depth < GREATEST_DEPTH }
    requires placed { IsPlaced whole depth (SplitPlace.CopyDirectory new page) }
    ensures is { result ≡ after_copy depth new page }
    ensures placed { IsPlaced whole depth result }
{
    if page < last_upper(depth) {
        return SplitPlace::CopyDirectory(new, page + 1);
    }
    SplitPlace::RaiseDepth(new)
}

/// The place after Retarget of the page of an entry.
pub fn after_retarget(whole: Range, depth: u8, new: u32, entry: u32) -> SplitPlace
    requires depth { depth ≤ GREATEST_DEPTH }
    requires placed { IsPlaced whole depth (SplitPlace.Retarget new entry) }
    ensures is { result ≡ after_retarget whole depth new entry }
    ensures placed { IsPlaced whole depth result }
{
    let next = entry + stride(whole.depth + 1);
    if next < 1 << depth {
        return SplitPlace::Retarget(new, next);
    }
    SplitPlace::SetCounts(new)
}
