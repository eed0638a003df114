//! One access to a record by the one seat of a file: it is stepped to its end, under the lock of that
//! record.

#![tactic(auto)]

mod seat;

pub use seat::carry_out;
