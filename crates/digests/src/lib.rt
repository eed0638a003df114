//! Digests that are computed side by side: whether sixteen pages are sealed, and those of four short
//! messages.

#![tactic(auto)]

mod compression;
mod constants;
mod row;
mod run;
mod short;
mod words;

pub use page_device;
pub use run::{LANES, are_sealed};
pub use short::{SHORT_BYTES, four_digests};
