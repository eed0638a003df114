//! Writes of the header.
//!
//! They have one shape: the header is read, tested, changed and stored. Test and change are their
//! own: a split counts two buckets for one, a merge one for two.

ghost use Rattle.std.specs.Prelude.{◌≡◌, ◌≢◌, ◌<◌, ◌≤◌, ℕ, is_ok, length, IsTrue, IsErr, IfErr, IfOk, OnOk, OnErr};
ghost use Rattle.bucket_page.specs.Reading.{page_in};
ghost use Rattle.bucket_page.specs.declared.page.PageKind.TheVariants as kinds;
ghost use Rattle.bucket_page.specs.Spelling.{Spells};
ghost use Rattle.directory.specs.declared.layout.TheConstants.{GREATEST_DEPTH, ROOT_PAGE};
ghost use Rattle.directory.specs.Reading.{header_at};
ghost use Rattle.directory.specs.Spelling.{IsHeader};
ghost use Rattle.hash_file.specs.Changes.{link_free, lower_depth, merge_counts, raise_depth, set_counts, split_counts, take_page, with_header};
ghost use Rattle.hash_file.specs.Store.{IsFreePage, next_at};
ghost use Rattle.buffer_pool.specs.Forms.{IsHeaderPage};
ghost use Rattle.file_pages.specs.Fault.{FileHasCause, IsDevicesFault};
ghost use Rattle.file_pages.specs.Files.{IsReady, IsFilePool, store_of};
ghost use Rattle.file_pages.specs.Headers.{HasFreePage, MayMergeCount, MaySplitCount};
ghost use Rattle.file_pages.specs.Reads.{OnlyReads};
ghost use Rattle.file_pages.specs.Writes.{OnlyWrites};

use crate::fault::FileFault;
use crate::pinning::pin;
use buffer_pool::{FilePage, Pool};
use directory::{GREATEST_DEPTH, Header, ROOT_PAGE};
use page_device::PageDevice;

/// The first free page leaves the list of free pages. It is `Failed` where there is none, or the
/// page is not free.
pub fn take_page<D: PageDevice>(pool: &mut Pool<D>) -> Result<u32, FileFault>
    requires ready { IsReady pool.old }
    ensures writes { OnlyWrites (is_ok result) pool.old pool.new }
    ensures ok { IsTrue pool.old.honest →
        OnOk result (store_of pool.new.images ≡ take_page (store_of pool.old.images)) }
    ensures page { IsTrue pool.old.honest →
        IfOk result (λ page. page ≡ (store_of pool.old.images).header.first_free) }
    ensures err { IsTrue pool.old.honest → OnErr result (pool.new.images ≡ pool.old.images) }
    ensures fault { IsTrue pool.old.honest → IsFilePool pool.old →
        HasFreePage (store_of pool.old.images) → IfErr result (IsDevicesFault pool.old pool.new) }
    ensures cause { IfErr result (FileHasCause pool.old pool.new) }
{
    let mut header = read_header(pool)?;
    let page = header.first_free;
    let next = read_next_free(pool, page)?;
    header.set_first_free(next);
    write_header(pool, &header)?;
    Ok(page)
}

/// A page becomes the first one on the list of free pages.
pub fn link_free<D: PageDevice>(pool: &mut Pool<D>, page: u32) -> Result<(), FileFault>
    requires ready { IsReady pool.old }
    ensures writes { OnlyWrites (is_ok result) pool.old pool.new }
    ensures ok { IsTrue pool.old.honest →
        OnOk result (store_of pool.new.images ≡ link_free page (store_of pool.old.images)) }
    ensures err { IsTrue pool.old.honest → OnErr result (pool.new.images ≡ pool.old.images) }
    ensures fault { IsTrue pool.old.honest → IsFilePool pool.old →
        IfErr result (IsDevicesFault pool.old pool.new) }
    ensures cause { IfErr result (FileHasCause pool.old pool.new) }
{
    let mut header = read_header(pool)?;
    header.set_first_free(page);
    write_header(pool, &header)
}

/// The depth of the directory grows by one. It is `Failed` at the greatest depth.
pub fn raise_depth<D: PageDevice>(pool: &mut Pool<D>) -> Result<(), FileFault>
    requires ready { IsReady pool.old }
    ensures writes { OnlyWrites (is_ok result) pool.old pool.new }
    ensures ok { IsTrue pool.old.honest →
        OnOk result (store_of pool.new.images ≡ raise_depth (store_of pool.old.images)) }
    ensures err { IsTrue pool.old.honest → OnErr result (pool.new.images ≡ pool.old.images) }
    ensures fault { IsTrue pool.old.honest → IsFilePool pool.old →
        (store_of pool.old.images).header.depth < GREATEST_DEPTH →
        IfErr result (IsDevicesFault pool.old pool.new) }
    ensures cause { IfErr result (FileHasCause pool.old pool.new) }
{
    let mut header = read_header(pool)?;
    if header.depth >= GREATEST_DEPTH {
        return Err(FileFault::Failed);
    }
    header.raise();
    write_header(pool, &header)
}

/// The depth of the directory falls by one. It is `Failed` at depth 0.
pub fn lower_depth<D: PageDevice>(pool: &mut Pool<D>) -> Result<(), FileFault>
    requires ready { IsReady pool.old }
    ensures writes { OnlyWrites (is_ok result) pool.old pool.new }
    ensures ok { IsTrue pool.old.honest →
        OnOk result (store_of pool.new.images ≡ lower_depth (store_of pool.old.images)) }
    ensures err { IsTrue pool.old.honest → OnErr result (pool.new.images ≡ pool.old.images) }
    ensures fault { IsTrue pool.old.honest → IsFilePool pool.old →
        1 ≤ (store_of pool.old.images).header.depth →
        IfErr result (IsDevicesFault pool.old pool.new) }
    ensures cause { IfErr result (FileHasCause pool.old pool.new) }
{
    let mut header = read_header(pool)?;
    if header.depth == 0 {
        return Err(FileFault::Failed);
    }
    header.lower();
    write_header(pool, &header)
}

/// The header counts the two halves of a bucket of a local depth in its place. It is `Failed` where
/// none is counted, or a count is too great.
pub fn count_split<D: PageDevice>(pool: &mut Pool<D>, depth: u8) -> Result<(), FileFault>
    requires ready { IsReady pool.old }
    ensures writes { OnlyWrites (is_ok result) pool.old pool.new }
    ensures ok { IsTrue pool.old.honest → OnOk result (store_of pool.new.images ≡ set_counts
        (split_counts depth (store_of pool.old.images).header.counts) (store_of pool.old.images)) }
    ensures err { IsTrue pool.old.honest → OnErr result (pool.new.images ≡ pool.old.images) }
    ensures fault { IsTrue pool.old.honest → IsFilePool pool.old →
        MaySplitCount depth (store_of pool.old.images) →
        IfErr result (IsDevicesFault pool.old pool.new) }
    ensures cause { IfErr result (FileHasCause pool.old pool.new) }
{
    let mut header = read_header(pool)?;
    if depth >= GREATEST_DEPTH {
        return Err(FileFault::Failed);
    }
    let wholes = header.count(depth);
    let halves = header.count(depth + 1);
    if wholes < 1 || halves > u32::MAX - 2 {
        return Err(FileFault::Failed);
    }
    header.set_count(depth, wholes - 1);
    header.set_count(depth + 1, halves + 2);
    write_header(pool, &header)
}

/// The header counts a bucket of a local depth in the place of its two halves. It is `Failed` where
/// those are not counted, or a count is too great.
pub fn count_merge<D: PageDevice>(pool: &mut Pool<D>, depth: u8) -> Result<(), FileFault>
    requires ready { IsReady pool.old }
    ensures writes { OnlyWrites (is_ok result) pool.old pool.new }
    ensures ok { IsTrue pool.old.honest → OnOk result (store_of pool.new.images ≡ set_counts
        (merge_counts depth (store_of pool.old.images).header.counts) (store_of pool.old.images)) }
    ensures err { IsTrue pool.old.honest → OnErr result (pool.new.images ≡ pool.old.images) }
    ensures fault { IsTrue pool.old.honest → IsFilePool pool.old →
        MayMergeCount depth (store_of pool.old.images) →
        IfErr result (IsDevicesFault pool.old pool.new) }
    ensures cause { IfErr result (FileHasCause pool.old pool.new) }
{
    let mut header = read_header(pool)?;
    if depth >= GREATEST_DEPTH {
        return Err(FileFault::Failed);
    }
    let wholes = header.count(depth);
    let halves = header.count(depth + 1);
    if halves < 2 || wholes > u32::MAX - 1 {
        return Err(FileFault::Failed);
    }
    header.set_count(depth, wholes + 1);
    header.set_count(depth + 1, halves - 2);
    write_header(pool, &header)
}

/// The header.
pub fn read_header<D: PageDevice>(pool: &mut Pool<D>) -> Result<Header, FileFault>
    requires ready { IsReady pool.old }
    ensures reads { OnlyReads (is_ok result) pool.old pool.new }
    ensures range { IfOk result IsHeader }
    ensures ok { IsTrue pool.old.honest →
        IfOk result (λ header. header ≡ (store_of pool.old.images).header) }
    ensures fault { IsTrue pool.old.honest → IsFilePool pool.old →
        IfErr result (IsDevicesFault pool.old pool.new) }
    ensures cause { IfErr result (FileHasCause pool.old pool.new) }
{
    let frame = pin(pool, 0)?;
    let header = header_of(pool.image(&frame));
    pool.unpin(frame);
    header
}

/// What a page says as the header.
fn header_of(page: &FilePage) -> Result<Header, FileFault>
    ensures range { IfOk result IsHeader }
    ensures ok { IfOk result (λ header. header ≡ header_at page.now) }
    ensures err { IsErr result → IsHeaderPage page.now → ⊥ }
    ensures fault { IfErr result (λ fault. fault ≡ FileFault.Failed) }
{
    let Some(header) = page.header() else {
        return Err(FileFault::Failed);
    };
    Ok(header)
}

/// The page that follows a free page on the list.
fn read_next_free<D: PageDevice>(pool: &mut Pool<D>, page: u32) -> Result<u32, FileFault>
    requires ready { IsReady pool.old }
    ensures reads { OnlyReads (is_ok result) pool.old pool.new }
    ensures ok { IsTrue pool.old.honest →
        IfOk result (λ next. next ≡ next_at (store_of pool.old.images) page) }
    ensures fault { IsTrue pool.old.honest → IsFilePool pool.old → ROOT_PAGE ≤ page →
        page < length pool.old.images → IsFreePage (store_of pool.old.images) page →
        IfErr result (IsDevicesFault pool.old pool.new) }
    ensures cause { IfErr result (FileHasCause pool.old pool.new) }
{
    if page < ROOT_PAGE {
        return Err(FileFault::Failed);
    }
    let frame = pin(pool, page)?;
    let next = next_free_of(pool.image(&frame));
    pool.unpin(frame);
    next
}

/// What a free page names.
fn next_free_of(page: &FilePage) -> Result<u32, FileFault>
    ensures ok { IfOk result (λ next. page_in page.now ≡ kinds.Free next) }
    ensures err { IsErr result → Spells (page_in page.now) page.now →
        (next : ℕ) → page_in page.now ≢ kinds.Free next }
    ensures fault { IfErr result (λ fault. fault ≡ FileFault.Failed) }
{
    let Some(next) = page.next_free() else {
        return Err(FileFault::Failed);
    };
    Ok(next)
}

/// Writes the header.
fn write_header<D: PageDevice>(pool: &mut Pool<D>, header: &Header) -> Result<(), FileFault>
    requires ready { IsReady pool.old }
    requires range { IsHeader header.now }
    ensures writes { OnlyWrites (is_ok result) pool.old pool.new }
    ensures ok { IsTrue pool.old.honest →
        OnOk result (store_of pool.new.images ≡ with_header header.now (store_of pool.old.images)) }
    ensures err { IsTrue pool.old.honest → OnErr result (pool.new.images ≡ pool.old.images) }
    ensures fault { IsTrue pool.old.honest → IsFilePool pool.old →
        IfErr result (IsDevicesFault pool.old pool.new) }
    ensures cause { IfErr result (FileHasCause pool.old pool.new) }
{
    let frame = pin(pool, 0)?;
    pool.image_mut(&frame).write_header(header);
    pool.unpin(frame);
    Ok(())
}
