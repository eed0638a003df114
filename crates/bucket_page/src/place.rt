//! Places of records in a bucket.

use crate::record_key::RecordKey;

/// Where the record of a key stands in a bucket, or would stand.
#[derive(Clone, Copy)]
pub struct Place {
    pub key: RecordKey,
    /// The bytes of the records below it.
    pub at: usize,
}

/// What a walk for a key came to: its place, and its value where it has one.
#[derive(Clone, Copy)]
pub struct Sought<'a> {
    pub place: Place,
    pub value: Option<&'a [u8]>,
}
