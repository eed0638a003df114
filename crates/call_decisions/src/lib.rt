//! One inquiry for all calls; the names that a call holds while it asks and writes; what it comes to at
//! its Decide, its answer by the rules or that it waits; and what it then owes the file.

#![tactic(auto)]

mod any_inquiry;
mod decision;
mod held;
mod laws;
mod name_laws;
mod owed_laws;
mod settled;
mod telling;

pub use any_inquiry::AnyInquiry;
pub use decision::decide;
pub use held::{MAX_NAMES, name_at};
pub use laws::{a_plan_is_tried_where_nothing_stands, others_leave_what_a_call_can_tell};
pub use name_laws::{
    a_call_asks_under_its_names, a_call_takes_names_in_order, a_call_writes_under_its_names,
    a_calls_names_grow,
};
pub use owed_laws::{
    a_decision_owes_the_system_after, a_seat_owes_its_own, what_is_owed_is_paid_by_writes,
};
pub use settled::Settled;
pub use stale_search::file_pages;
