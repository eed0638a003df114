//! Writes of whole pages behind the directory, which a split or a merge makes.

ghost use Rattle.std.specs.Prelude.{◌≡◌, ◌<◌, is_ok, IsTrue, IsErr, IfErr, IfOk, OnOk, OnErr};
ghost use Rattle.bucket_page.specs.Changes.{IsBucketPage, SpellsBucket};
ghost use Rattle.bucket_page.specs.Dividing.{joined, lower_half, upper_half};
ghost use Rattle.bucket_page.specs.Reading.{bucket_in, page_in};
ghost use Rattle.bucket_page.specs.Spelling.{Spells};
ghost use Rattle.directory.specs.declared.layout.TheConstants.{GREATEST_DEPTH};
ghost use Rattle.hash_file.specs.Changes.{with_page, write_free, write_left, write_new, write_old, write_tombstone};
ghost use Rattle.hash_file.specs.Store.{bucket_at};
ghost use Rattle.file_pages.specs.Buckets.{IsThere, MayJoin, MaySplit};
ghost use Rattle.file_pages.specs.Fault.{FileHasCause, IsDevicesFault};
ghost use Rattle.file_pages.specs.Files.{IsReady, IsFilePool, store_of};
ghost use Rattle.file_pages.specs.Reads.{OnlyReads};
ghost use Rattle.file_pages.specs.Writes.{OnlyWrites};

use crate::buddies::join;
use crate::fault::FileFault;
use crate::header::read_header;
use crate::pinning::pin;
use crate::read::read_page;
use bucket_page::PseudoKey;
use buffer_pool::{FilePage, Pool};
use directory::{GREATEST_DEPTH, ROOT_PAGE};
use page_device::PageDevice;

/// A page becomes the upper half of a bucket. It is `Failed` where that is no bucket, or one
/// of the greatest depth.
pub fn write_new<D: PageDevice, K: PseudoKey>(
    pool: &mut Pool<D>,
    keys: &K,
    old: u32,
    new: u32,
) -> Result<(), FileFault>
    requires ready { IsReady pool.old }
    ensures writes { OnlyWrites (is_ok result) pool.old pool.new }
    ensures ok { IsTrue pool.old.honest → OnOk result (store_of pool.new.images ≡
        write_new (K.of_key keys.now) old new (store_of pool.old.images)) }
    ensures err { IsTrue pool.old.honest → OnErr result (pool.new.images ≡ pool.old.images) }
    ensures fault { IsTrue pool.old.honest → IsFilePool pool.old →
        MaySplit old (store_of pool.old.images) → IsThere new (store_of pool.old.images) →
        IfErr result (IsDevicesFault pool.old pool.new) }
    ensures cause { IfErr result (FileHasCause pool.old pool.new) }
{
    let half = read_upper_half(pool, keys, old)?;
    store_page(pool, new, half)
}

/// A bucket becomes its lower half, with the other half behind it. It is `Failed` where it is no
/// bucket, or one of the greatest depth.
pub fn write_old<D: PageDevice, K: PseudoKey>(
    pool: &mut Pool<D>,
    keys: &K,
    old: u32,
    new: u32,
) -> Result<(), FileFault>
    requires ready { IsReady pool.old }
    ensures writes { OnlyWrites (is_ok result) pool.old pool.new }
    ensures ok { IsTrue pool.old.honest → OnOk result (store_of pool.new.images ≡
        write_old (K.of_key keys.now) old new (store_of pool.old.images)) }
    ensures err { IsTrue pool.old.honest → OnErr result (pool.new.images ≡ pool.old.images) }
    ensures fault { IsTrue pool.old.honest → IsFilePool pool.old →
        MaySplit old (store_of pool.old.images) → IfErr result (IsDevicesFault pool.old pool.new) }
    ensures cause { IfErr result (FileHasCause pool.old pool.new) }
{
    let half = read_lower_half(pool, keys, old, new)?;
    store_page(pool, old, half)
}

/// The left page of a merge becomes the bucket of both. It is `Failed` where a page is no bucket,
/// or the two are no buddies, have a key in common or do not fit together.
pub fn write_left<D: PageDevice>(pool: &mut Pool<D>, left: u32, right: u32) -> Result<(), FileFault>
    requires ready { IsReady pool.old }
    ensures writes { OnlyWrites (is_ok result) pool.old pool.new }
    ensures ok { IsTrue pool.old.honest → OnOk result
        (store_of pool.new.images ≡ write_left left right (store_of pool.old.images)) }
    ensures err { IsTrue pool.old.honest → OnErr result (pool.new.images ≡ pool.old.images) }
    ensures fault { IsTrue pool.old.honest → IsFilePool pool.old →
        MayJoin left right (store_of pool.old.images) →
        IfErr result (IsDevicesFault pool.old pool.new) }
    ensures cause { IfErr result (FileHasCause pool.old pool.new) }
{
    let both = read_joined(pool, left, right)?;
    store_page(pool, left, both)
}

/// The right page of a merge becomes a tombstone, whose link is the left page.
pub fn write_tombstone<D: PageDevice>(
    pool: &mut Pool<D>,
    left: u32,
    right: u32,
) -> Result<(), FileFault>
    requires ready { IsReady pool.old }
    ensures writes { OnlyWrites (is_ok result) pool.old pool.new }
    ensures ok { IsTrue pool.old.honest → OnOk result
        (store_of pool.new.images ≡ write_tombstone left right (store_of pool.old.images)) }
    ensures err { IsTrue pool.old.honest → OnErr result (pool.new.images ≡ pool.old.images) }
    ensures fault { IsTrue pool.old.honest → IsFilePool pool.old →
        IsThere right (store_of pool.old.images) → IfErr result (IsDevicesFault pool.old pool.new) }
    ensures cause { IfErr result (FileHasCause pool.old pool.new) }
{
    let mut tombstone = FilePage::blank();
    tombstone.write_tombstone(left);
    store_page(pool, right, tombstone)
}

/// The right page of a merge becomes a free page, before the first one on the list.
pub fn write_free<D: PageDevice>(pool: &mut Pool<D>, right: u32) -> Result<(), FileFault>
    requires ready { IsReady pool.old }
    ensures writes { OnlyWrites (is_ok result) pool.old pool.new }
    ensures ok { IsTrue pool.old.honest → OnOk result
        (store_of pool.new.images ≡ write_free right (store_of pool.old.images)) }
    ensures err { IsTrue pool.old.honest → OnErr result (pool.new.images ≡ pool.old.images) }
    ensures fault { IsTrue pool.old.honest → IsFilePool pool.old →
        IsThere right (store_of pool.old.images) → IfErr result (IsDevicesFault pool.old pool.new) }
    ensures cause { IfErr result (FileHasCause pool.old pool.new) }
{
    let header = read_header(pool)?;
    let mut free = FilePage::blank();
    free.write_free(header.first_free);
    store_page(pool, right, free)
}

/// The upper half of the bucket on a page.
fn read_upper_half<D: PageDevice, K: PseudoKey>(
    pool: &mut Pool<D>,
    keys: &K,
    page: u32,
) -> Result<FilePage, FileFault>
    requires ready { IsReady pool.old }
    ensures reads { OnlyReads (is_ok result) pool.old pool.new }
    ensures ok { IsTrue pool.old.honest → IfOk result (SpellsBucket
        (upper_half (K.of_key keys.now) (bucket_at (store_of pool.old.images) page))) }
    ensures spells { IfOk result (λ half. Spells (page_in half) half) }
    ensures fault { IsTrue pool.old.honest → IsFilePool pool.old →
        MaySplit page (store_of pool.old.images) → IfErr result (IsDevicesFault pool.old pool.new) }
    ensures cause { IfErr result (FileHasCause pool.old pool.new) }
{
    if page < ROOT_PAGE {
        return Err(FileFault::Failed);
    }
    let frame = pin(pool, page)?;
    let half = upper_half_of(pool.image(&frame), keys);
    pool.unpin(frame);
    half
}

/// The lower half of the bucket on a page, with another page behind it.
fn read_lower_half<D: PageDevice, K: PseudoKey>(
    pool: &mut Pool<D>,
    keys: &K,
    page: u32,
    next: u32,
) -> Result<FilePage, FileFault>
    requires ready { IsReady pool.old }
    ensures reads { OnlyReads (is_ok result) pool.old pool.new }
    ensures ok { IsTrue pool.old.honest → IfOk result (SpellsBucket
        (lower_half (K.of_key keys.now) next (bucket_at (store_of pool.old.images) page))) }
    ensures spells { IfOk result (λ half. Spells (page_in half) half) }
    ensures fault { IsTrue pool.old.honest → IsFilePool pool.old →
        MaySplit page (store_of pool.old.images) → IfErr result (IsDevicesFault pool.old pool.new) }
    ensures cause { IfErr result (FileHasCause pool.old pool.new) }
{
    if page < ROOT_PAGE {
        return Err(FileFault::Failed);
    }
    let frame = pin(pool, page)?;
    let half = lower_half_of(pool.image(&frame), keys, next);
    pool.unpin(frame);
    half
}

/// The bucket of two pages.
fn read_joined<D: PageDevice>(
    pool: &mut Pool<D>,
    left: u32,
    right: u32,
) -> Result<FilePage, FileFault>
    requires ready { IsReady pool.old }
    ensures reads { OnlyReads (is_ok result) pool.old pool.new }
    ensures ok { IsTrue pool.old.honest → IfOk result (SpellsBucket
        (joined (bucket_at (store_of pool.old.images) left)
        (bucket_at (store_of pool.old.images) right))) }
    ensures spells { IfOk result (λ both. Spells (page_in both) both) }
    ensures fault { IsTrue pool.old.honest → IsFilePool pool.old →
        MayJoin left right (store_of pool.old.images) →
        IfErr result (IsDevicesFault pool.old pool.new) }
    ensures cause { IfErr result (FileHasCause pool.old pool.new) }
{
    if left < ROOT_PAGE || right < ROOT_PAGE {
        return Err(FileFault::Failed);
    }
    let first = read_page(pool, left)?;
    let second = read_page(pool, right)?;
    join(&first, &second)
}

fn upper_half_of<K: PseudoKey>(page: &FilePage, keys: &K) -> Result<FilePage, FileFault>
    ensures bucket { IfOk result (λ _. IsBucketPage page.now) }
    ensures ok { IfOk result
        (SpellsBucket (upper_half (K.of_key keys.now) (bucket_in page.now))) }
    ensures err { IsErr result → IsBucketPage page.now →
        (bucket_in page.now).depth < GREATEST_DEPTH → ⊥ }
    ensures fault { IfErr result (λ fault. fault ≡ FileFault.Failed) }
{
    if !may_be_cut(page) {
        return Err(FileFault::Failed);
    }
    Ok(page.upper_half(keys))
}

fn lower_half_of<K: PseudoKey>(page: &FilePage, keys: &K, next: u32) -> Result<FilePage, FileFault>
    ensures bucket { IfOk result (λ _. IsBucketPage page.now) }
    ensures ok { IfOk result
        (SpellsBucket (lower_half (K.of_key keys.now) next (bucket_in page.now))) }
    ensures err { IsErr result → IsBucketPage page.now →
        (bucket_in page.now).depth < GREATEST_DEPTH → ⊥ }
    ensures fault { IfErr result (λ fault. fault ≡ FileFault.Failed) }
{
    if !may_be_cut(page) {
        return Err(FileFault::Failed);
    }
    Ok(page.lower_half(keys, next))
}

/// Whether a page is a bucket that has not the greatest depth.
fn may_be_cut(page: &FilePage) -> bool
    ensures bucket { IsTrue result → IsBucketPage page.now }
    ensures shallow { IsTrue result → (bucket_in page.now).depth < GREATEST_DEPTH }
    ensures taken { IsBucketPage page.now → (bucket_in page.now).depth < GREATEST_DEPTH →
        IsTrue result }
{
    match page.bucket() {
        Some(bucket) => bucket.depth() < GREATEST_DEPTH,
        None => false,
    }
}

/// Makes this the page of a number behind the directory.
fn store_page<D: PageDevice>(pool: &mut Pool<D>, page: u32, new: FilePage) -> Result<(), FileFault>
    requires ready { IsReady pool.old }
    requires spells { Spells (page_in new) new }
    ensures writes { OnlyWrites (is_ok result) pool.old pool.new }
    ensures ok { IsTrue pool.old.honest → OnOk result
        (store_of pool.new.images ≡ with_page page (page_in new) (store_of pool.old.images)) }
    ensures err { IsTrue pool.old.honest → OnErr result (pool.new.images ≡ pool.old.images) }
    ensures fault { IsTrue pool.old.honest → IsFilePool pool.old →
        IsThere page (store_of pool.old.images) → IfErr result (IsDevicesFault pool.old pool.new) }
    ensures cause { IfErr result (FileHasCause pool.old pool.new) }
{
    if page < ROOT_PAGE {
        return Err(FileFault::Failed);
    }
    let frame = pin(pool, page)?;
    pool.store(&frame, new);
    pool.unpin(frame);
    Ok(())
}
