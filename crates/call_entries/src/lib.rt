//! Calls that changed a system, as bytes one behind the other: written down as they are made, and
//! read to be made again.

#![tactic(auto)]

mod entry;
mod laws;
mod log;
mod reading;

pub use entry::{CallEntry, check_of};
pub use laws::{an_entry_is_of_one_call, entries_lead_to_one_system};
pub use log::{CallLog, MAX_ENTRY};
pub use reading::{CallReader, Unreadable};
