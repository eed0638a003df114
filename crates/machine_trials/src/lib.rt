//! The machines of the file, stepped from outside, and the rules of steps: schedules worked by hand,
//! and turns that are not allowed.

#![tactic(auto)]

mod laws;
mod task;
mod trial;
mod work;

pub use laws::{each_kind_of_step_comes_in_a_worked_schedule, wrong_turns_are_not_allowed};
pub use task::{Task, Value};
pub use trial::Trial;
pub use work::Work;
