//! The number of each fault, as docs/FAULTS.md lists it and as a program prints it;
//! and want of memory.

mod no_memory;

pub use no_memory::NoMemory;

/// A transfer failed.
pub const DEVICE: u8 = 20;

/// A page's digest is not that of its number and payload.
pub const BAD_DIGEST: u8 = 21;

/// A page at or past the device's end.
pub const PAST_END: u8 = 22;

/// A device has as many pages as there are numbers.
pub const DEVICE_FULL: u8 = 23;

/// A pool has no frame, or none that is free.
pub const TOO_FEW_FRAMES: u8 = 30;

/// A payload is no directory page, bucket, tombstone or free page.
pub const MALFORMED: u8 = 40;

/// Page 0 is no header.
pub const BAD_HEADER: u8 = 41;

/// Page 0 is a header of another version.
pub const BAD_VERSION: u8 = 42;

/// A key and a value are not a record's.
pub const BAD_RECORD: u8 = 43;

/// A record does not fit the bucket of its key.
pub const NO_ROOM: u8 = 50;

/// A growth was refused.
pub const NO_MEMORY: u8 = 60;

/// As many calls were decided as one session may decide.
pub const SESSION_FULL: u8 = 61;

/// A file is broken, or holds the records of no system.
pub const FAILED: u8 = 62;

/// A seat has a call under way.
pub const BUSY: u8 = 63;

/// The chain of a file is broken.
pub const CHAIN_BROKEN: u8 = 70;

/// A page is on neither the chain nor the free list, or the free list is broken.
pub const PAGE_LOST: u8 = 71;

/// A depth, an entry or a count of the directory is wrong.
pub const ENTRY_WRONG: u8 = 72;

/// The records are those of no system.
pub const NO_SYSTEM: u8 = 73;

/// A record stands where no system has it.
pub const STRAY: u8 = 74;
