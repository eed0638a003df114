//! The map of a file: its directory, its buckets and its free pages.

use bucket_page::{BucketView, Malformed, PageKind, read_page};
use file_walk::{Outline, Structure, StructureFault, check_structure, read_sealed};
use page_device::{PAYLOAD_BYTES, PageDevice};
use queue_model::System;
use std::alloc::Global;

/// A bucket on the map of a file.
#[derive(Clone, Copy)]
pub struct MappedBucket {
    /// The page on which it stands.
    pub page: u32,
    /// How many low bits of their pseudokeys its records have in common.
    pub depth: u8,
    /// Those bits.
    pub pattern: u32,
    /// The next bucket's page on the chain, 0 for the last.
    pub next: u32,
    /// How many records it has.
    pub records: u64,
    /// The bytes that they take, of 4,048.
    pub bytes: u64,
}

/// The map of a file that is right.
#[derive(Drop)]
pub struct FileMap {
    /// Its pages.
    pub pages: u32,
    /// The depth of its directory.
    pub depth: u8,
    /// The page that each entry of the directory names.
    pub entries: Vec<u32>,
    /// The buckets in the order of their chain.
    pub buckets: Vec<MappedBucket>,
    /// The list of free pages in its order.
    pub free: Vec<u32>,
    /// How many queues its system has.
    pub queues: u64,
    /// How many messages are on them.
    pub messages: u64,
}

/// The map of the file of a device that holds this system. Each page of it is read, and its buckets
/// once more.
///
/// # Errors
///
/// The first thing that is wrong with the structure of the file, or what the machine lacked.
pub fn read_map<D: PageDevice>(
    alloc: Global,
    device: &mut D,
    system: &System,
) -> Result<FileMap, StructureFault> {
    let Structure { outline, chain } = check_structure(alloc, device)?;
    let buckets = buckets_of(alloc, device, chain.as_slice())?;
    Ok(FileMap {
        pages: outline.pages(),
        depth: outline.depth(),
        entries: entries_of(alloc, &outline)?,
        buckets,
        free: free_of(alloc, &outline)?,
        queues: system.queues() as u64,
        messages: system.messages() as u64,
    })
}

/// The buckets on the pages of a chain.
fn buckets_of<D: PageDevice>(
    alloc: Global,
    device: &mut D,
    chain: &[u32],
) -> Result<Vec<MappedBucket>, StructureFault> {
    let mut buckets = Vec::with_capacity(alloc, chain.len())?;
    for page in chain {
        buckets.push(read_bucket(device, *page)?)?;
    }
    Ok(buckets)
}

/// The page that each entry of the directory names.
fn entries_of(alloc: Global, outline: &Outline) -> Result<Vec<u32>, StructureFault> {
    let mut entries = Vec::with_capacity(alloc, outline.entries() as usize)?;
    for index in 0..outline.entries() {
        entries.push(outline.entry(index))?;
    }
    Ok(entries)
}

/// The list of free pages. There are no more of them than pages.
fn free_of(alloc: Global, outline: &Outline) -> Result<Vec<u32>, StructureFault> {
    let mut free = Vec::new(alloc);
    let mut page = outline.first_free();
    for _ in 0..outline.pages() {
        let Some(next) = outline.behind(page) else {
            return Ok(free);
        };
        free.push(page)?;
        page = next;
    }
    Ok(free)
}

/// The bucket on a page of the chain.
fn read_bucket<D: PageDevice>(device: &mut D, page: u32) -> Result<MappedBucket, StructureFault> {
    let mut payload = [0; PAYLOAD_BYTES];
    read_sealed(device, page, &mut payload)?;
    match read_page(&payload) {
        Ok(PageKind::Bucket(bucket)) => Ok(mapped(page, &bucket)),
        Ok(_) => Err(StructureFault::Malformed {
            page,
            reason: Malformed::Kind,
        }),
        Err(reason) => Err(StructureFault::Malformed { page, reason }),
    }
}

/// What the map says of the bucket on a page.
fn mapped(page: u32, bucket: &BucketView<'_>) -> MappedBucket {
    let mut records = 0u64;
    for _ in bucket.records() {
        records = records.saturating_add(1);
    }
    MappedBucket {
        page,
        depth: bucket.depth(),
        pattern: bucket.pattern(),
        next: bucket.next(),
        records,
        bytes: bucket.used() as u64,
    }
}
