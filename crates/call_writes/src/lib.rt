//! What a call writes, one access after the other: its plan, the trials that it inserts before its
//! Decide and the writes behind it; what of them is due, and what is still owed.

#![tactic(auto)]

mod at_once;
mod deed;
mod due;
mod payment;
mod payment_laws;
mod plan;
mod ranges;
mod write_laws;
mod writes;

pub use at_once::AtOnce;
pub use call_decisions::{AnyInquiry, MAX_NAMES, Settled, decide, name_at};
pub use deed::Deed;
pub use due::Due;
pub use payment::{decide_at, decided, is_move, sweep_of, unwritten};
pub use payment_laws::{
    a_payment_owes_what_is_held, a_payment_that_is_over_owes_nothing, what_is_decided_is_paid,
};
pub use plan::PlanOf;
pub use record_file::{Access, BucketAccess, Deed as BucketDeed, record_ahead};
pub use write_laws::{trials_stand_in_order, what_is_decided_is_owed, what_is_due_is_owed};
pub use writes::CallWrites;
pub use xsi_remove::SweepTurns;
