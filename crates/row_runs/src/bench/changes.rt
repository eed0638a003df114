//! The bytes of a file are changed.

use crate::bench::files::NO_FILE;
use crate::bench::{Bench, Stage};
use crate::file::{put, set, spoil, take};
use crate::words::{Words, Wrong};
use page_device::{MemDevice, PAGE_BYTES, PageDevice};
use std::alloc::Global;

/// What is changed.
#[derive(Clone, Copy)]
pub enum Change {
    /// Bytes of a page's payload from a place on; the page is sealed again.
    Set,
    /// A record is put into a bucket, in the order of keys, and the page is sealed again.
    Put,
    /// The record of a key is taken out of a bucket, and the page is sealed again.
    Take,
    /// A byte of a page, which is not sealed again.
    Spoil,
    /// The file gets one page more, of zeros.
    Longer,
}

/// The changes by their verbs.
pub const CHANGES: [(&[u8], Change); 5] = [
    (b"set", Change::Set),
    (b"put", Change::Put),
    (b"take", Change::Take),
    (b"spoil", Change::Spoil),
    (b"longer", Change::Longer),
];

impl Bench {
    /// Changes the file, on which nobody works.
    pub(crate) fn change(
        &mut self,
        alloc: Global,
        change: Change,
        words: &mut Words<'_>,
    ) -> Result<(), Wrong> {
        let Stage::File(device) = &mut self.stage else {
            return Err(NO_FILE);
        };
        if changes(alloc, device, change, words)? {
            Ok(())
        } else {
            Err(Wrong::Wanted("a place in a page of the file, a bucket, or a record"))
        }
    }
}

/// Changes the bytes of a file. Whether it has what is to be changed.
fn changes(
    alloc: Global,
    device: &mut MemDevice,
    change: Change,
    words: &mut Words<'_>,
) -> Result<bool, Wrong> {
    if let Change::Longer = change {
        return Ok(device.extend(&[0; PAGE_BYTES]).is_ok());
    }
    let page = words.number("a page")?;
    match change {
        Change::Set => set_bytes(alloc, device, page, words),
        Change::Put => put_record(alloc, device, page, words),
        Change::Take => {
            let key = words.record_key()?;
            Ok(take(alloc, device, page, key))
        }
        _ => {
            let place = words.number("a place in the page")?;
            Ok(spoil(device, page, place as usize))
        }
    }
}

/// Sets bytes of a page. Whether it has these places.
fn set_bytes(
    alloc: Global,
    device: &mut MemDevice,
    page: u32,
    words: &mut Words<'_>,
) -> Result<bool, Wrong> {
    let place = words.number("a place in the page")?;
    let bytes = words.bytes(alloc)?;
    Ok(set(device, page, place as usize, bytes.as_slice()))
}

/// Puts a record into a bucket. Whether there is one.
fn put_record(
    alloc: Global,
    device: &mut MemDevice,
    page: u32,
    words: &mut Words<'_>,
) -> Result<bool, Wrong> {
    let key = words.record_key()?;
    let value = words.bytes(alloc)?;
    Ok(put(alloc, device, page, key, value.as_slice()))
}
