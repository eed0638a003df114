//! Devices of numbered, sealed pages: a read gives what was last written there. And the pages of a
//! device in memory.

#![tactic(auto)]

mod copies;
mod device;
mod fault;
mod faulty;
mod file;
mod memory;
mod page;
mod page_file;
mod sealed;

pub use copies::copied;
pub use device::PageDevice;
pub use fault::DeviceFault;
pub use faulty::FaultyDevice;
pub use file::FileDevice;
pub use memory::MemDevice;
pub use numbers::faults;
pub use page::{DIGEST_BYTES, MAX_PAGES, PAGE_BYTES, PAYLOAD_BYTES, Page, Payload};
pub use page_file::{PageFile, SystemFile};
pub use sealed::{page_digest, seal, seal_with, unseal, unseal_into};
