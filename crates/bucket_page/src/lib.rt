//! Pages of an extendible hash file as bytes: buckets, directory pages, tombstones and free pages; and
//! pseudokeys, which are kept once they were computed.

#![tactic(auto)]

mod alike;
mod change;
mod divide;
mod head;
mod kept;
mod kept_keys;
pub mod laws;
mod layout;
mod page;
mod place;
mod pseudokey;
mod record_key;
mod records;
mod splice;
mod view;
mod write;

pub use alike::Alike;
pub use change::{DoesNotFit, put, put_at, remove, remove_at, replace_front, replace_front_at};
pub use directory;
pub use directory::{fields, page_device};
pub use divide::{cut, join, write_lower_half, write_upper_half};
pub use kept_keys::KeptKeys;
pub use layout::{BUCKET, FREE, RECORD_HEAD_BYTES, ROOM_BYTES, TOMBSTONE};
pub use page::{Malformed, PageKind, bucket_of, link_of, read_page};
pub use place::{Place, Sought};
pub use pseudokey::{ConstantKey, NumberKey, PseudoKey, ShaKey};
pub use record_key::{KEY_BYTES, RecordKey};
pub use records::{Record, Records};
pub use view::BucketView;
pub use write::{write_bucket, write_free, write_tombstone};
