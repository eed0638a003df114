//! Where the fields of a page stand (docs/FORMAT.md, "Pages").

use directory::HEAD_BYTES;
use directory::page_device::PAYLOAD_BYTES;

/// Bytes that a bucket has for records.
pub const ROOM_BYTES: usize = PAYLOAD_BYTES - HEAD_BYTES;

/// Bytes of a record beside its value: two of the value's length, and the key.
pub const RECORD_HEAD_BYTES: usize = 15;

/// The first byte of a bucket.
pub const BUCKET: u8 = 3;

/// The first byte of a tombstone.
pub const TOMBSTONE: u8 = 4;

/// The first byte of a free page.
pub const FREE: u8 = 5;

/// Bytes of a tombstone or of a free page up to its link, with it.
pub const LINK_BYTES: usize = 8;
