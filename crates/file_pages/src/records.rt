//! Writes of one record, in place in the bucket on its page.
//!
//! They have one shape: the page is pinned, what the write needs is tested, and the page
//! is changed. Test and change are their own, and so are what each promises of the bucket
//! and when it fails.

ghost use Rattle.std.specs.Prelude.{◌≡◌, ◌+◌, ◌≤◌, ◌++◌, true, is_ok, drop, length, None, IsTrue, IfErr, IsSome, OnOk, OnErr};
ghost use Rattle.bucket_page.specs.declared.layout.TheConstants.{RECORD_HEAD_BYTES, ROOM_BYTES};
ghost use Rattle.bucket_page.specs.Changes.{IsBucketPage, value_of_key};
ghost use Rattle.bucket_page.specs.Reading.{records_in};
ghost use Rattle.bucket_page.specs.Records.{lookup, pair, record_bytes};
ghost use Rattle.hash_file.specs.Changes.{Put, Remove, Replace, write_record};
ghost use Rattle.hash_file.specs.Store.{records_at};
ghost use Rattle.file_pages.specs.Fault.{FileHasCause, IsDevicesFault};
ghost use Rattle.file_pages.specs.Files.{IsReady, IsFilePool, store_of};
ghost use Rattle.file_pages.specs.Writes.{IsBucketThere, OnlyWrites, TakesRecord};

use crate::fault::FileFault;
use crate::pinning::pin;
use bucket_page::{RECORD_HEAD_BYTES, ROOM_BYTES, RecordKey};
use buffer_pool::{FilePage, Pool};
use directory::ROOT_PAGE;
use page_device::PageDevice;

/// Puts a record into the bucket on a page. It is `Failed` where the page is no bucket, or the
/// bucket has the key or no room.
pub fn put_record<D: PageDevice>(
    pool: &mut Pool<D>,
    page: u32,
    key: &RecordKey,
    value: &[u8],
) -> Result<(), FileFault>
    requires ready { IsReady pool.old }
    ensures writes { OnlyWrites (is_ok result) pool.old pool.new }
    ensures ok { IsTrue pool.old.honest → OnOk result (store_of pool.new.images ≡
        write_record page (Put (pair key.now value.now)) (store_of pool.old.images)) }
    ensures err { IsTrue pool.old.honest → OnErr result (pool.new.images ≡ pool.old.images) }
    ensures fault { IsTrue pool.old.honest → IsFilePool pool.old →
        TakesRecord page key.now (length value.now) (store_of pool.old.images) →
        IfErr result (IsDevicesFault pool.old pool.new) }
    ensures cause { IfErr result (FileHasCause pool.old pool.new) }
{
    if page < ROOT_PAGE {
        return Err(FileFault::Failed);
    }
    let frame = pin(pool, page)?;
    if !takes(pool.image(&frame), key, value.len()) {
        pool.unpin(frame);
        return Err(FileFault::Failed);
    }
    let _ = pool.image_mut(&frame).put(key, value);
    pool.unpin(frame);
    Ok(())
}

/// Replaces the first bytes of the value of a key, in the bucket on a page; the others stay. It is
/// `Failed` where the bucket has no value of the key, or a shorter one.
pub fn replace_front<D: PageDevice>(
    pool: &mut Pool<D>,
    page: u32,
    key: &RecordKey,
    front: &[u8],
) -> Result<(), FileFault>
    requires ready { IsReady pool.old }
    ensures writes { OnlyWrites (is_ok result) pool.old pool.new }
    ensures ok { IsTrue pool.old.honest → OnOk result (store_of pool.new.images ≡
        write_record page (Replace (pair key.now (front.now ++ drop (length front.now)
        (value_of_key key.now (records_at (store_of pool.old.images) page)))))
        (store_of pool.old.images)) }
    ensures err { IsTrue pool.old.honest → OnErr result (pool.new.images ≡ pool.old.images) }
    ensures fault { IsTrue pool.old.honest → IsFilePool pool.old →
        IsBucketThere page (store_of pool.old.images) →
        IsSome (lookup key.now (records_at (store_of pool.old.images) page)) →
        length front.now ≤ length (value_of_key key.now (records_at (store_of pool.old.images)
        page)) → IfErr result (IsDevicesFault pool.old pool.new) }
    ensures cause { IfErr result (FileHasCause pool.old pool.new) }
{
    if page < ROOT_PAGE {
        return Err(FileFault::Failed);
    }
    let frame = pin(pool, page)?;
    if !has_front(pool.image(&frame), key, front.len()) {
        pool.unpin(frame);
        return Err(FileFault::Failed);
    }
    pool.image_mut(&frame).replace_front(key, front);
    pool.unpin(frame);
    Ok(())
}

/// Takes the record of a key out of the bucket on a page. It is `Failed` where the bucket has none.
pub fn remove_record<D: PageDevice>(
    pool: &mut Pool<D>,
    page: u32,
    key: &RecordKey,
) -> Result<(), FileFault>
    requires ready { IsReady pool.old }
    ensures writes { OnlyWrites (is_ok result) pool.old pool.new }
    ensures ok { IsTrue pool.old.honest → OnOk result (store_of pool.new.images ≡
        write_record page (Remove key.now) (store_of pool.old.images)) }
    ensures err { IsTrue pool.old.honest → OnErr result (pool.new.images ≡ pool.old.images) }
    ensures fault { IsTrue pool.old.honest → IsFilePool pool.old →
        IsBucketThere page (store_of pool.old.images) →
        IsSome (lookup key.now (records_at (store_of pool.old.images) page)) →
        IfErr result (IsDevicesFault pool.old pool.new) }
    ensures cause { IfErr result (FileHasCause pool.old pool.new) }
{
    if page < ROOT_PAGE {
        return Err(FileFault::Failed);
    }
    let frame = pin(pool, page)?;
    if !has_record(pool.image(&frame), key) {
        pool.unpin(frame);
        return Err(FileFault::Failed);
    }
    pool.image_mut(&frame).remove(key);
    pool.unpin(frame);
    Ok(())
}

/// Whether a page is a bucket that has no record of the key, and room for a value of so many bytes.
fn takes(page: &FilePage, key: &RecordKey, bytes: usize) -> bool
    ensures bucket { result ≡ true → IsBucketPage page.now }
    ensures absent { result ≡ true → lookup key.now (records_in page.now) ≡ None }
    ensures room { result ≡ true → length (record_bytes (records_in page.now))
        + (RECORD_HEAD_BYTES + bytes) ≤ ROOM_BYTES }
    ensures taken { IsBucketPage page.now → lookup key.now (records_in page.now) ≡ None →
        length (record_bytes (records_in page.now)) + (RECORD_HEAD_BYTES + bytes) ≤ ROOM_BYTES →
        result ≡ true }
{
    let Some(bucket) = page.bucket() else {
        return false;
    };
    if bucket.find(key).is_some() {
        return false;
    }
    bytes <= ROOM_BYTES && bucket.used() + (RECORD_HEAD_BYTES + bytes) <= ROOM_BYTES
}

/// Whether a page is a bucket that has a value of at least so many bytes under a key.
fn has_front(page: &FilePage, key: &RecordKey, bytes: usize) -> bool
    ensures bucket { result ≡ true → IsBucketPage page.now }
    ensures there { result ≡ true → IsSome (lookup key.now (records_in page.now)) }
    ensures long { result ≡ true → bytes ≤ length (value_of_key key.now (records_in page.now)) }
    ensures taken { IsBucketPage page.now → IsSome (lookup key.now (records_in page.now)) →
        bytes ≤ length (value_of_key key.now (records_in page.now)) → result ≡ true }
{
    let Some(bucket) = page.bucket() else {
        return false;
    };
    match bucket.find(key) {
        Some(value) => bytes <= value.len(),
        None => false,
    }
}

/// Whether a page is a bucket that has a record of the key.
fn has_record(page: &FilePage, key: &RecordKey) -> bool
    ensures bucket { result ≡ true → IsBucketPage page.now }
    ensures there { result ≡ true → IsSome (lookup key.now (records_in page.now)) }
    ensures taken { IsBucketPage page.now → IsSome (lookup key.now (records_in page.now)) →
        result ≡ true }
{
    let Some(bucket) = page.bucket() else {
        return false;
    };
    bucket.find(key).is_some()
}
