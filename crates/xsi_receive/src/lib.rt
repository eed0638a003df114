//! Receive: the records that it asks for, three at most, and what it decides and writes.

#![tactic(auto)]

mod head;
mod receive_inquiry;
mod removal;
mod stage;

pub use head::MessageHead;
pub use receive_inquiry::ReceiveInquiry;
pub use removal::{Removal, TypeLeft};
pub use stage::Stage;
