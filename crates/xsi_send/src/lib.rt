//! Send: what it asks of the records, and decides.

#![tactic(auto)]

mod plan;
mod reading;
mod send_inquiry;
mod stage;
mod type_place;

pub use send_inquiry::SendInquiry;
pub use stage::{Stage, Walk, is_refused_unread};
pub use type_place::TypePlace;
