//! A file in memory is changed, byte by byte or record by record.

use crate::bytes::{FIELDS, RECORD_HEAD, number_at, place_of};
use bucket_page::RecordKey;
use page_device::{
    DeviceFault, MemDevice, PAGE_BYTES, PAYLOAD_BYTES, PageDevice, Payload, seal, unseal,
};
use std::alloc::{AllocError, Global};

/// The payload of a page; none of a page that is not there, or whose digest is another's.
pub fn payload_of(device: &mut MemDevice, page: u32) -> Result<Payload, DeviceFault> {
    let mut bytes = [0; PAGE_BYTES];
    device.read(page, &mut bytes)?;
    unseal(page, &bytes)
}

/// Whether two files have the same pages.
pub fn are_alike(one: &mut MemDevice, other: &mut MemDevice) -> bool {
    if one.pages() != other.pages() {
        return false;
    }
    for page in 0..one.pages() {
        if !is_alike(one, other, page) {
            return false;
        }
    }
    true
}

/// Whether two files have the same bytes on a page.
fn is_alike(one: &mut MemDevice, other: &mut MemDevice, page: u32) -> bool {
    let mut bytes = [0; PAGE_BYTES];
    let mut others = [0; PAGE_BYTES];
    one.read(page, &mut bytes).is_ok() && other.read(page, &mut others).is_ok() && bytes == others
}

/// Writes bytes into the payload of a page from a place on, and seals it again. Whether the page is
/// there and has these places.
pub fn set(device: &mut MemDevice, page: u32, at: usize, bytes: &[u8]) -> bool {
    let Ok(mut payload) = payload_of(device, page) else {
        return false;
    };
    write(&mut payload, at, bytes) && device.write(page, &seal(page, &payload)).is_ok()
}

/// Writes bytes from a place on. Whether there are such places.
fn write(payload: &mut Payload, at: usize, bytes: &[u8]) -> bool {
    let Some(places) = payload.get_mut(at..at.saturating_add(bytes.len())) else {
        return false;
    };
    for (place, byte) in places.iter_mut().zip(bytes) {
        *place = *byte;
    }
    true
}

/// Changes a byte of a page, and leaves its digest as it was. Whether it has this byte.
pub fn spoil(device: &mut MemDevice, page: u32, at: usize) -> bool {
    let mut bytes = [0; PAGE_BYTES];
    if device.read(page, &mut bytes).is_err() {
        return false;
    }
    match bytes.get_mut(at) {
        Some(byte) => *byte ^= 1,
        None => return false,
    }
    device.write(page, &bytes).is_ok()
}

/// Puts a record into a bucket, in the order of keys, and seals the page again. Whether there is a
/// bucket.
pub fn put(alloc: Global, device: &mut MemDevice, page: u32, key: RecordKey, value: &[u8]) -> bool {
    let Ok(payload) = payload_of(device, page) else {
        return false;
    };
    let (at, _) = place_of(&payload, key);
    let head = two(value.len() as u64);
    let spelled = key.to_bytes();
    let mut records = Vec::new(alloc);
    let Ok(()) = join(
        &mut records,
        &[
            before(&payload, at),
            head.as_slice(),
            spelled.as_slice(),
            value,
            behind(&payload, at),
        ],
    ) else {
        return false;
    };
    let many = number_at(&payload, 2, 2).saturating_add(1);
    let length = value.len().saturating_add(RECORD_HEAD) as u64;
    let bytes = number_at(&payload, 12, 2).saturating_add(length);
    set(device, page, FIELDS, records.as_slice()) && count(device, page, many, bytes)
}

/// Takes the record of a key out of a bucket, and seals the page again. Whether it was there.
pub fn take(alloc: Global, device: &mut MemDevice, page: u32, key: RecordKey) -> bool {
    let Ok(payload) = payload_of(device, page) else {
        return false;
    };
    let (at, next) = place_of(&payload, key);
    let mut records = Vec::new(alloc);
    let Ok(()) = join(
        &mut records,
        &[before(&payload, at), behind(&payload, next)],
    ) else {
        return false;
    };
    let taken = next.saturating_sub(at) as u64;
    let many = number_at(&payload, 2, 2).saturating_sub(1);
    let bytes = number_at(&payload, 12, 2).saturating_sub(taken);
    taken > 0 && set(device, page, FIELDS, records.as_slice()) && count(device, page, many, bytes)
}

/// The bytes of a bucket's records that stand before a place.
fn before(payload: &Payload, place: usize) -> &[u8] {
    payload.get(FIELDS..place).unwrap_or(b"")
}

/// The bytes of a payload from a place on.
fn behind(payload: &Payload, place: usize) -> &[u8] {
    payload.get(place..).unwrap_or(b"")
}

/// Joins the bytes behind the fields of a bucket, up to the end of the payload.
fn join(records: &mut Vec<u8>, parts: &[&[u8]]) -> Result<(), AllocError> {
    for part in parts {
        records.extend_from_slice(*part)?;
    }
    records.resize(PAYLOAD_BYTES - FIELDS, 0)
}

/// Writes how many records a bucket has, and how many bytes.
fn count(device: &mut MemDevice, page: u32, records: u64, bytes: u64) -> bool {
    set(device, page, 2, &two(records)) && set(device, page, 12, &two(bytes))
}

/// A number in two bytes.
fn two(number: u64) -> [u8; 2] {
    u16::try_from(number).unwrap_or(u16::MAX).to_be_bytes()
}
