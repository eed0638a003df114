//! The record for which a bucket is split.

use bucket_page::RecordKey;

/// A record that is to be put, and for which its bucket has no room.
#[derive(Clone, Copy)]
pub struct Wanted {
    /// Its key.
    pub key: RecordKey,
    /// The pseudokey of the key.
    pub pseudokey: u32,
    /// Bytes of its value.
    pub bytes: usize,
}
