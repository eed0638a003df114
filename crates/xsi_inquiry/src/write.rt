//! Writes of records that a decision leaves to be carried out.

use type_chains::bucket_page::RecordKey;
use type_chains::queue_records::{Links, Record};

/// As many writes follow a decision at most.
pub const MAX_WRITES: usize = 7;

/// As many records are inserted before a decision at most.
pub const MAX_TRIALS: usize = 2;

/// A change of one record that can't be refused. It lends nothing.
#[derive(Drop)]
pub enum Write {
    /// The record of this key takes the place of the one that stands there, whose value is as long.
    Replace(Record<'static>),
    /// The Message or the Type of this key gets these links, in its place. The rest of it stays.
    Relink(RecordKey, Links),
    /// The record of this key goes.
    Delete(RecordKey),
}
