//! Pages read off their bytes, by docs/FORMAT.md alone.

use crate::line::Line;
use bucket_page::RecordKey;
use page_device::Payload;

/// The first byte of a page says what it is.
const DIRECTORY: u64 = 2;

const BUCKET: u64 = 3;

const TOMBSTONE: u64 = 4;

const FREE: u64 = 5;

/// Where the records of a bucket and the entries of a directory page begin.
pub(crate) const FIELDS: usize = 16;

/// The bytes of a record before its value: the length of the value, and the key.
pub(crate) const RECORD_HEAD: usize = 15;

/// The number in so many bytes at a place, the highest byte first; 0 where there are none.
pub fn number_at(payload: &Payload, at: usize, bytes: usize) -> u64 {
    let mut number: u64 = 0;
    for byte in bytes_at(payload, at, bytes) {
        number = number.wrapping_mul(256).wrapping_add(u64::from(*byte));
    }
    number
}

/// So many bytes at a place, or none where there are fewer.
pub fn bytes_at(payload: &Payload, at: usize, bytes: usize) -> &[u8] {
    match payload.get(at..at.saturating_add(bytes)) {
        Some(bytes) => bytes,
        None => b"",
    }
}

/// The number in four bytes at a place, as that of a page.
pub fn page_at(payload: &Payload, at: usize) -> u32 {
    u32::try_from(number_at(payload, at, 4)).unwrap_or(u32::MAX)
}

/// The next page of a bucket, or else 0.
pub fn next_of(payload: &Payload) -> u32 {
    if number_at(payload, 0, 1) == BUCKET {
        page_at(payload, 8)
    } else {
        0
    }
}

/// The page behind a free page, or else 0.
pub fn free_behind(payload: &Payload) -> u32 {
    if number_at(payload, 0, 1) == FREE {
        page_at(payload, 4)
    } else {
        0
    }
}

/// Tells what the header says: the depth and the first free page.
pub fn tell_header(payload: &Payload, line: &mut Line) {
    line.word("depth");
    line.number(number_at(payload, 2, 1));
    line.word("free");
    line.number(number_at(payload, 16, 4));
}

/// What is told of a bucket: where each number stands, and in how many bytes.
const BUCKET_FIELDS: [(&str, usize, usize); 5] = [
    ("bucket depth", 1, 1),
    ("pattern", 4, 4),
    ("next", 8, 4),
    ("records", 2, 2),
    ("bytes", 12, 2),
];

/// Tells a page but for its records and entries.
pub fn tell_page(payload: &Payload, line: &mut Line) {
    match number_at(payload, 0, 1) {
        DIRECTORY => line.word("directory"),
        BUCKET => {
            for (name, at, bytes) in &BUCKET_FIELDS {
                line.word(*name);
                line.number(number_at(payload, *at, *bytes));
            }
        }
        TOMBSTONE => {
            line.word("tombstone link");
            line.number(number_at(payload, 4, 4));
        }
        FREE => {
            line.word("free next");
            line.number(number_at(payload, 4, 4));
        }
        _ => line.word("another page"),
    }
}

/// A record of a bucket.
#[derive(Clone, Copy)]
struct Spot<'a> {
    key: RecordKey,
    value: &'a [u8],
    /// Where the next record begins.
    next: usize,
}

/// The record that begins at a place.
fn record_at(payload: &Payload, at: usize) -> Spot<'_> {
    let bytes = number_at(payload, at, 2) as usize;
    let value = at.saturating_add(RECORD_HEAD);
    Spot {
        key: RecordKey {
            kind: u8::try_from(number_at(payload, at.saturating_add(2), 1)).unwrap_or(u8::MAX),
            queue: page_at(payload, at.saturating_add(3)),
            number: number_at(payload, at.saturating_add(7), 8),
        },
        value: bytes_at(payload, value, bytes),
        next: value.saturating_add(bytes),
    }
}

/// Tells the numbers of the records of a bucket.
pub fn tell_numbers(payload: &Payload, line: &mut Line) {
    let records = number_at(payload, 2, 2);
    if records == 0 {
        line.word("none");
    }
    let mut at = FIELDS;
    for _ in 0..records {
        let spot = record_at(payload, at);
        line.number(spot.key.number);
        at = spot.next;
    }
}

/// The value of the record of a key in a bucket.
pub fn value_of(payload: &Payload, key: RecordKey) -> Option<&[u8]> {
    let (at, next) = place_of(payload, key);
    if next == at {
        return None;
    }
    Some(record_at(payload, at).value)
}

/// Where the record of a key stands in a bucket, and the next one; twice where it would stand, if
/// there is none.
pub fn place_of(payload: &Payload, key: RecordKey) -> (usize, usize) {
    let mut at = FIELDS;
    for _ in 0..number_at(payload, 2, 2) {
        let spot = record_at(payload, at);
        if spot.key == key {
            return (at, spot.next);
        }
        if key.is_below(&spot.key) {
            return (at, at);
        }
        at = spot.next;
    }
    (at, at)
}
