//! A device over a file and its journal: killed at any moment, the pages are those of the last sync,
//! or, while one is under way, those that it keeps; and calls that were noted since stand behind them.

#![tactic(auto)]

mod device;
mod guarded_file;
mod journal;
mod loss;
mod memory;
mod page_pair;
mod recovery;
mod snapshot;

pub use device::{MOST_PENDING, NoteFault, SafeDevice};
pub use guarded_file::GuardedFile;
pub use journal::{Bytes, Calls, Images, Journal, PageImage};
pub use loss::Loss;
pub use memory::MemPair;
pub use page_device;
pub use page_pair::{CallsFault, FoundJournal, PagePair};
pub use recovery::{RecoveryFault, recover};
pub use snapshot::{Changes, FileChange, Pages, Snapshot};
