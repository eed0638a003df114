//! Sessions: one caller's calls over the pages of a device, each answered as by plain lists.

#![tactic(auto)]

mod laws;
mod loading;
mod memory;
mod session;
mod unanswered;
mod writing;

pub use bucket_page::directory::LEAST_PAGES;
pub use interleaving_core::{CloseFault, Failure, OpenFault};
pub use laws::the_pages_are_the_file;
pub use page_device::{MAX_PAGES, PAGE_BYTES, Page};
pub use queue_model;
pub use session::{FileKeys, Session};
pub use unanswered::Unanswered;
pub use writing::Unwritten;
