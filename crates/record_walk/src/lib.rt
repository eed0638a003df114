//! The records of a file are walked along their links, and looked up by their keys: they are those of
//! one system, or of none.

#![tactic(auto)]

mod entries;
mod fault;
mod file_records;
mod lists;
mod look;
mod messages;
mod of_type;
mod page;
mod queue;
mod queue_links;
mod records;
mod system;
mod tested;
mod values;
mod versions;

pub use fault::WalkFault;
pub use file_records::FileRecords;
pub use queue::{queue_in, read_queue};
pub use queue_links::QueueLinks;
pub use records::{Linked, MessageLinks, Records};
pub use system::read_system;
pub use tested::{TestedBucket, read_tested};
pub use versions::{decode_in, is_spelled_in};
