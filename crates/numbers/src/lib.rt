//! The numbers that all crates share: those of faults, the limits of queues, and numbers in bytes.

#![tactic(auto)]

pub mod faults;
pub mod fields;
pub mod limits;
