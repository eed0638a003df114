//! The pages of a pool as those of a hash file: what each read and each write is of
//! the file's value.

#![tactic(auto)]

mod bucket;
mod buddies;
mod entries;
mod fault;
mod header;
mod pinning;
mod read;
mod records;
mod resident;
mod sight;

pub use bucket::{write_free, write_left, write_new, write_old, write_tombstone};
pub use bucket_page;
pub use buffer_pool;
pub use entries::{copy_directory, retarget};
pub use fault::FileFault;
pub use header::{
    count_merge, count_split, link_free, lower_depth, raise_depth, read_header, take_page,
};
pub use page_device;
pub use read::{copy_value, look, read_bucket, read_depth, read_entry};
pub use records::{put_record, remove_record, replace_front};
pub use resident::{peek_depth, peek_entry, peek_range, peek_value};
pub use sight::{BucketSight, Sight};
