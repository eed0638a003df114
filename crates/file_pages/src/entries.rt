//! Writes of the directory's pages, which a doubling, a split or a merge makes.

ghost use Rattle.std.specs.Prelude.{◌≡◌, ℕ, ◌-◌, ◌≤◌, ◌<◌, ◌^◌, is_ok, true, IsTrue, IfErr, OnOk, OnErr};
ghost use Rattle.directory.specs.declared.layout.TheConstants.{DIRECTORY_PAGES, FIRST_DIRECTORY_PAGE, GREATEST_DEPTH};
ghost use Rattle.directory.specs.Entries.{is_upper, page_of};
ghost use Rattle.directory.specs.Pages.{IsDirectoryPage};
ghost use Rattle.hash_file.specs.Changes.{copy_directory, retarget};
ghost use Rattle.file_pages.specs.Entries.{IsLowerHalf, MayCopy, MayRetarget};
ghost use Rattle.file_pages.specs.Fault.{FileHasCause, IsDevicesFault};
ghost use Rattle.file_pages.specs.Files.{IsReady, IsFilePool, store_of};
ghost use Rattle.file_pages.specs.Writes.{OnlyWrites};

use crate::fault::FileFault;
use crate::header::read_header;
use crate::pinning::pin;
use crate::read::read_page;
use buffer_pool::{FilePage, Pool};
use directory::{DIRECTORY_PAGES, FIRST_DIRECTORY_PAGE, GREATEST_DEPTH, Range, lower_page};
use page_device::PageDevice;

/// The directory is about to double: on one of its pages, each entry of the upper half becomes that
/// of the lower half with the same low bits (Fagin et al. 1979). It is `Failed` where the page is
/// none of the directory, or the directory has the greatest depth.
pub fn copy_directory<D: PageDevice>(pool: &mut Pool<D>, page: u32) -> Result<(), FileFault>
    requires ready { IsReady pool.old }
    ensures writes { OnlyWrites (is_ok result) pool.old pool.new }
    ensures ok { IsTrue pool.old.honest →
        OnOk result (store_of pool.new.images ≡ copy_directory page (store_of pool.old.images)) }
    ensures err { IsTrue pool.old.honest → OnErr result (pool.new.images ≡ pool.old.images) }
    ensures fault { IsTrue pool.old.honest → IsFilePool pool.old →
        MayCopy page (store_of pool.old.images) → IfErr result (IsDevicesFault pool.old pool.new) }
    ensures cause { IfErr result (FileHasCause pool.old pool.new) }
{
    if !(FIRST_DIRECTORY_PAGE..=DIRECTORY_PAGES).contains(&page) {
        return Err(FileFault::Failed);
    }
    let header = read_header(pool)?;
    if header.depth >= GREATEST_DEPTH {
        return Err(FileFault::Failed);
    }
    let lower = read_page(pool, source_of(page, header.depth))?;
    copy_onto(pool, page, header.depth, &lower)
}

/// On one page of the directory, the entries of a range come to name a bucket's page.
/// It is `Failed` where the page is none of the directory, or the range is deeper than
/// the directory may be.
pub fn retarget<D: PageDevice>(
    pool: &mut Pool<D>,
    page: u32,
    range: Range,
    bucket: u32,
) -> Result<(), FileFault>
    requires ready { IsReady pool.old }
    ensures writes { OnlyWrites (is_ok result) pool.old pool.new }
    ensures ok { IsTrue pool.old.honest → OnOk result
        (store_of pool.new.images ≡ retarget page range bucket (store_of pool.old.images)) }
    ensures err { IsTrue pool.old.honest → OnErr result (pool.new.images ≡ pool.old.images) }
    ensures fault { IsTrue pool.old.honest → IsFilePool pool.old → MayRetarget page range →
        IfErr result (IsDevicesFault pool.old pool.new) }
    ensures cause { IfErr result (FileHasCause pool.old pool.new) }
{
    if !(FIRST_DIRECTORY_PAGE..=DIRECTORY_PAGES).contains(&page) || range.depth > GREATEST_DEPTH {
        return Err(FileFault::Failed);
    }
    let header = read_header(pool)?;
    retarget_on(pool, page, header.depth, range, bucket)
}

/// The page whose entries are copied onto a page: that of the lower half. Where no entry of the
/// upper half stands on the page none is copied, and it is one up to the page itself.
fn source_of(page: u32, depth: u8) -> u32
    requires first { FIRST_DIRECTORY_PAGE ≤ page }
    requires last { page ≤ DIRECTORY_PAGES }
    requires depth { depth < GREATEST_DEPTH }
    ensures stands { (i : ℕ) → page_of i ≡ page → is_upper depth i ≡ true →
        page_of (i - 2 ^ depth) ≡ result }
    ensures last { result ≤ page }
{
    let lower = lower_page(page, depth);
    if page < lower {
        return page;
    }
    lower
}

/// Copies the entries of the lower half, which are those of the page `lower`.
fn copy_onto<D: PageDevice>(
    pool: &mut Pool<D>,
    page: u32,
    depth: u8,
    lower: &FilePage,
) -> Result<(), FileFault>
    requires ready { IsReady pool.old }
    requires first { FIRST_DIRECTORY_PAGE ≤ page }
    requires last { page ≤ DIRECTORY_PAGES }
    requires depth { depth < GREATEST_DEPTH }
    ensures writes { OnlyWrites (is_ok result) pool.old pool.new }
    ensures ok { IsTrue pool.old.honest → IsLowerHalf page depth lower.now pool.old.images →
        OnOk result (store_of pool.new.images ≡ copy_directory page (store_of pool.old.images)) }
    ensures err { IsTrue pool.old.honest → OnErr result (pool.new.images ≡ pool.old.images) }
    ensures fault { IsTrue pool.old.honest → IsFilePool pool.old →
        IfErr result (IsDevicesFault pool.old pool.new) }
    ensures cause { IfErr result (FileHasCause pool.old pool.new) }
{
    let frame = pin(pool, page)?;
    if !is_directory(pool.image(&frame)) {
        pool.unpin(frame);
        return Err(FileFault::Failed);
    }
    pool.image_mut(&frame).copy_upper(page, depth, lower);
    pool.unpin(frame);
    Ok(())
}

/// Has the entries of a range name a bucket's page, where the directory has this depth.
fn retarget_on<D: PageDevice>(
    pool: &mut Pool<D>,
    page: u32,
    depth: u8,
    range: Range,
    bucket: u32,
) -> Result<(), FileFault>
    requires ready { IsReady pool.old }
    requires first { FIRST_DIRECTORY_PAGE ≤ page }
    requires last { page ≤ DIRECTORY_PAGES }
    requires depth { depth ≤ GREATEST_DEPTH }
    requires local_depth { range.depth ≤ GREATEST_DEPTH }
    ensures writes { OnlyWrites (is_ok result) pool.old pool.new }
    ensures ok { IsTrue pool.old.honest → depth ≡ (store_of pool.old.images).header.depth →
        OnOk result
        (store_of pool.new.images ≡ retarget page range bucket (store_of pool.old.images)) }
    ensures err { IsTrue pool.old.honest → OnErr result (pool.new.images ≡ pool.old.images) }
    ensures fault { IsTrue pool.old.honest → IsFilePool pool.old →
        IfErr result (IsDevicesFault pool.old pool.new) }
    ensures cause { IfErr result (FileHasCause pool.old pool.new) }
{
    let frame = pin(pool, page)?;
    if !is_directory(pool.image(&frame)) {
        pool.unpin(frame);
        return Err(FileFault::Failed);
    }
    pool.image_mut(&frame).retarget(page, depth, range, bucket);
    pool.unpin(frame);
    Ok(())
}

/// Whether a page is one of the directory.
fn is_directory(page: &FilePage) -> bool
    ensures directory { IsTrue result → IsDirectoryPage page.now }
    ensures taken { IsDirectoryPage page.now → IsTrue result }
{
    page.directory().is_some()
}
