//! A deed done at once in the bucket on a page that is in a frame.
//!
//! Each looks first, in one walk of the bucket, and writes at the place that this told, where nothing
//! more is due behind it: a second try of a put, a merge behind a removal. So nothing can fail.

ghost use Rattle.std.specs.Prelude.{◌≡◌, ◌≤◌, ℕ, List, length, take, IfSome, None, Some, true, false};
ghost use Rattle.queue_records.specs.declared.layout.TheConstants.{MESSAGE_BYTES};
ghost use Rattle.record_file.specs.Readings.{HasFrontOn, HasFrontSet};
ghost use Rattle.record_file.specs.Words.{IsReady};
ghost use Rattle.record_file.specs.WritesAhead.{IsBucketAhead, WritesOn};
ghost use Rattle.record_file.specs.declared.bucket_access.Deed.{Deed};

use crate::bucket_access::{has_room, is_due};
use bucket_page::{BucketView, RecordKey};
use directory::ROOT_PAGE;
use file_pages::buffer_pool::Pool;
use page_device::PageDevice;
use queue_records::{Links, MESSAGE_BYTES, Value, relink};

/// Puts a value where the key has none and the bucket has room for it.
pub(crate) fn put_ahead<D: PageDevice>(
    pool: &mut Pool<D>,
    page: u32,
    key: &RecordKey,
    value: &[u8],
) -> bool
    requires ready { IsReady pool.old }
    ensures made { result ≡ true →
        WritesOn Deed.Put page None key.now value.now pool.old pool.new }
    ensures spares { result ≡ false → pool.new ≡ pool.old }
{
    let Some(bucket) = bucket_ahead(pool, page) else {
        return false;
    };
    let sought = bucket.seek(key);
    let place = sought.place;
    let None = sought.value else {
        return false;
    };
    if !has_room(bucket.used(), value.len()) {
        return false;
    }
    let Some(image) = pool.resident_mut(page) else {
        return false;
    };
    image.put_at(&place, value);
    true
}

/// Replaces the value of a key by one as long.
pub(crate) fn replace_ahead<D: PageDevice>(
    pool: &mut Pool<D>,
    page: u32,
    key: &RecordKey,
    value: &[u8],
) -> bool
    requires ready { IsReady pool.old }
    ensures made { result ≡ true →
        WritesOn Deed.Replace page (Some (length value.now)) key.now value.now pool.old pool.new }
    ensures spares { result ≡ false → pool.new ≡ pool.old }
{
    let Some(bucket) = bucket_ahead(pool, page) else {
        return false;
    };
    let sought = bucket.seek(key);
    let place = sought.place;
    let Some(old) = sought.value else {
        return false;
    };
    if old.len() != value.len() {
        return false;
    }
    let Some(image) = pool.resident_mut(page) else {
        return false;
    };
    image.replace_front_at(&place, value);
    true
}

/// Sets links in the front of the value of a key, where it has one. The value's length is told, and
/// what the front has become.
pub(crate) fn relink_ahead<D: PageDevice>(
    pool: &mut Pool<D>,
    page: u32,
    key: &RecordKey,
    links: &Links,
    front: &mut Value,
) -> Option<usize>
    requires ready { IsReady pool.old }
    ensures made { IfSome result (λ len.
        WritesOn Deed.Replace page (Some len) key.now front.new pool.old pool.new) }
    ensures set { IfSome result (λ len.
        HasFrontOn page len key.now pool.old links.now front.new) }
    ensures spares { result ≡ None → (front.new ≡ front.old) × (pool.new ≡ pool.old) }
{
    let Some(bucket) = bucket_ahead(pool, page) else {
        return None;
    };
    let sought = bucket.seek(key);
    let place = sought.place;
    let Some(value) = sought.value else {
        return None;
    };
    let len = value.len();
    let mut relinked = [0; MESSAGE_BYTES];
    let Some(bytes) = set_front(value, links, &mut relinked) else {
        return None;
    };
    let Some(image) = pool.resident_mut(page) else {
        return None;
    };
    image.replace_front_at(&place, &relinked[..bytes]);
    front.set(&relinked[..bytes]);
    Some(len)
}

/// Takes the record of a key out, where no merge is due then. The length of its value is told.
pub(crate) fn remove_ahead<D: PageDevice>(
    pool: &mut Pool<D>,
    page: u32,
    key: &RecordKey,
) -> Option<usize>
    requires ready { IsReady pool.old }
    ensures made { IfSome result (λ len. (bytes : List ℕ) →
        WritesOn Deed.Remove page (Some len) key.now bytes pool.old pool.new) }
    ensures spares { result ≡ None → pool.new ≡ pool.old }
{
    let Some(bucket) = bucket_ahead(pool, page) else {
        return None;
    };
    let sought = bucket.seek(key);
    let place = sought.place;
    let Some(value) = sought.value else {
        return None;
    };
    let len = value.len();
    if is_due(bucket.depth(), bucket.used(), len) {
        return None;
    }
    let Some(image) = pool.resident_mut(page) else {
        return None;
    };
    image.remove_at(&place);
    Some(len)
}

/// The bucket on a page that is in a frame; none where there is none.
fn bucket_ahead<D: PageDevice>(pool: &Pool<D>, page: u32) -> Option<BucketView<'_>>
    ensures { IfSome result (IsBucketAhead page pool.now.images) }
{
    if page < ROOT_PAGE {
        return None;
    }
    pool.resident(page)?.bucket()
}

/// Copies the bytes at the front of a value in which links stand, and sets the links in them. Their
/// number is told, none where the value is shorter.
fn set_front(value: &[u8], links: &Links, front: &mut [u8]) -> Option<usize>
    requires room { length front.old ≡ MESSAGE_BYTES }
    ensures len { length front.new ≡ length front.old }
    ensures few { IfSome result (λ bytes. bytes ≤ length front.new) }
    ensures set { IfSome result (λ bytes.
        HasFrontSet value.now links.now (take bytes front.new)) }
{
    let bytes = links.front_bytes();
    if value.len() < bytes {
        return None;
    }
    front[..bytes].copy_from_slice(&value[..bytes]);
    relink(&mut front[..bytes], links);
    Some(bytes)
}
