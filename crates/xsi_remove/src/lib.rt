//! The sweep of a queue that is removed: its messages are taken away turn by turn, each record by
//! one access.

#![tactic(auto)]

mod laws;
mod sweep;
mod work;

pub use laws::{a_sweep_begins_right, a_sweep_leaves_nothing};
pub use step_rules;
pub use sweep::SweepTurns;
