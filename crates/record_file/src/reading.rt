//! What is read ahead of a page that is in a frame.

ghost use Rattle.std.specs.Prelude.{IfSome};
ghost use Rattle.record_file.specs.Readings.{IsReadAhead, value_on};

use bucket_page::RecordKey;
use file_pages::buffer_pool::Pool;
use file_pages::peek_value;
use page_device::PageDevice;
use queue_records::{MAX_VALUE_BYTES, Record};

/// The record that the bucket on a page has at a key, or that it has none, lent from the frame of
/// that page. Nothing is told where the page is in no frame, or the value there spells no record of
/// that key.
pub fn record_ahead<'a, D: PageDevice>(
    pool: &'a Pool<D>,
    page: u32,
    key: &RecordKey,
) -> Option<Option<Record<'a>>>
    ensures { IfSome result (λ found.
        IsReadAhead found key.now (value_on pool.now page key.now)) }
{
    let Some(found) = peek_value(pool, page, key) else {
        return None;
    };
    let Some(value) = found else {
        return Some(None);
    };
    if value.len() > MAX_VALUE_BYTES {
        return None;
    }
    match Record::decode(key, value) {
        Ok(entry) => Some(Some(entry)),
        Err(_) => None,
    }
}
