//! Entries on one page of the directory, and their changes.

ghost use Rattle.std.specs.Prelude.{◌≡◌, ◌≢◌, ◌+◌, ◌*◌, ◌-◌, ◌%◌, ◌≤◌, ◌<◌, ◌^◌, ℕ, slice_set, true};
ghost use Rattle.directory.specs.declared.layout.TheConstants.{DIRECTORY_PAGES, FIRST_DIRECTORY_PAGE, GREATEST_DEPTH, PAGE_ENTRIES};
ghost use Rattle.directory.specs.Entries.{copied, entry_in, is_upper, page_of, retargeted, slot_at};
ghost use Rattle.directory.specs.Pages.{IsDirectoryPage, SpellsDirectory, entries_at};

use crate::directory::{page_of, slot_of};
use crate::layout::{FIRST_DIRECTORY_PAGE, HEAD_BYTES, PAGE_ENTRIES};
use crate::page::directory_of;
use crate::range::Range;
use numbers::fields::set_four;
use page_device::Payload;

/// Has a slot name a bucket's page.
pub fn set_entry(payload: &mut Payload, slot: usize, bucket: u32)
    requires directory { IsDirectoryPage payload.old }
    requires slot { slot < PAGE_ENTRIES }
    ensures ok { SpellsDirectory (slice_set (entries_at payload.old) slot bucket) payload.new }
    ensures directory { IsDirectoryPage payload.new }
{
    let (_, entries) = payload.split_at_mut(HEAD_BYTES);
    set_four(entries, 4 * slot, bucket);
}

/// Has a slot name a bucket's page, and the others name what they did.
fn put_entry(payload: &mut Payload, slot: usize, bucket: u32)
    requires directory { IsDirectoryPage payload.old }
    requires slot { slot < PAGE_ENTRIES }
    ensures ok { slot_at slot payload.new ≡ bucket }
    ensures others { (other : ℕ) → other ≢ slot →
        slot_at other payload.new ≡ slot_at other payload.old }
    ensures directory { IsDirectoryPage payload.new }
{
    set_entry(payload, slot, bucket);
}

/// The doubling of a directory of a depth, on one of its pages: each entry of the upper half
/// becomes that of the lower half, which stands on the page `lower`, as it was (Fagin, Nievergelt,
/// Pippenger and Strong 1979).
pub fn copy_upper(payload: &mut Payload, page: u32, depth: u8, lower: &Payload)
    requires first { FIRST_DIRECTORY_PAGE ≤ page }
    requires last { page ≤ DIRECTORY_PAGES }
    requires depth { depth < GREATEST_DEPTH }
    requires directory { IsDirectoryPage payload.old }
    ensures ok { (i : ℕ) → page_of i ≡ page
        → entry_in payload.new i ≡ copied depth lower.now payload.old i }
    ensures directory { IsDirectoryPage payload.new }
{
    let first = first_entry(page);
    let half = half_of(depth);
    let begin = half.saturating_sub(first);
    let end = (2 * half).saturating_sub(first).min(PAGE_ENTRIES as u32);
    for slot in begin..end {
        let bucket = directory_of(lower).entry(slot_of(first + slot - half));
        put_entry(payload, slot as usize, bucket);
    }
}

/// The page on which the lower half's entries stand that `copy_upper` copies onto a page.
pub fn lower_page(page: u32, depth: u8) -> u32
    requires first { FIRST_DIRECTORY_PAGE ≤ page }
    requires last { page ≤ DIRECTORY_PAGES }
    requires depth { depth < GREATEST_DEPTH }
    ensures { (i : ℕ) → page_of i ≡ page → is_upper depth i ≡ true →
        page_of (i - 2 ^ depth) ≡ result }
{
    page_of(first_entry(page).saturating_sub(half_of(depth)))
}

/// Has the entries of a range on one page of a directory of a depth name a bucket's page.
pub fn retarget(payload: &mut Payload, page: u32, depth: u8, range: Range, bucket: u32)
    requires first { FIRST_DIRECTORY_PAGE ≤ page }
    requires last { page ≤ DIRECTORY_PAGES }
    requires depth { depth ≤ GREATEST_DEPTH }
    requires local_depth { range.depth ≤ GREATEST_DEPTH }
    requires directory { IsDirectoryPage payload.old }
    ensures ok { (i : ℕ) → page_of i ≡ page
        → entry_in payload.new i ≡ retargeted depth range bucket payload.old i }
    ensures directory { IsDirectoryPage payload.new }
{
    let first = first_entry(page);
    let stride = 1 << range.depth;
    if range.pattern < stride {
        let end = (1_u32 << depth)
            .saturating_sub(first)
            .min(PAGE_ENTRIES as u32);
        let mut slot = first_in(range, first);
        while slot < end {
            put_entry(payload, slot as usize, bucket);
            slot += stride;
        }
    }
}

/// How far after an entry the first one of a range stands.
fn first_in(range: Range, entry: u32) -> u32
    requires local_depth { range.depth ≤ GREATEST_DEPTH }
    requires pattern { range.pattern < 2 ^ range.depth }
    ensures there { (entry + result) % 2 ^ range.depth ≡ range.pattern }
    ensures first { result < 2 ^ range.depth }
{
    let low = crate::index(entry, range.depth);
    if low <= range.pattern {
        range.pattern - low
    } else {
        range.pattern + (1 << range.depth) - low
    }
}

/// The entry in the first slot of a page.
fn first_entry(page: u32) -> u32
    requires first { FIRST_DIRECTORY_PAGE ≤ page }
    requires last { page ≤ DIRECTORY_PAGES }
    ensures { result ≡ PAGE_ENTRIES * (page - FIRST_DIRECTORY_PAGE) }
{
    PAGE_ENTRIES as u32 * (page - FIRST_DIRECTORY_PAGE)
}

/// Entries of a directory of a depth: half of those of the next.
fn half_of(depth: u8) -> u32
    requires { depth < GREATEST_DEPTH }
    ensures { result ≡ 2 ^ depth }
{
    1 << depth
}
