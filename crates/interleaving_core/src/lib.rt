//! Many seats at calls over one file, a step of one of them at a time; the journal of what was decided;
//! and how many hops each seat's last search made, and what was done meanwhile.

#![tactic(auto)]

mod active;
mod closing;
mod count;
mod counts;
mod fault;
mod kernel;
mod opening;
mod places;
mod searches;
mod seat;
mod step;
mod under_way;
mod waiting;

pub use closing::{Closed, NotClosed};
pub use count::SearchCount;
pub use counts::SearchCounts;
pub use fault::{BeginFault, CloseFault, Failure, OpenFault, StepFault};
pub use file_check;
pub use kernel::{Kernel, MAX_DECIDED, MOST_STEPS};
pub use opening::FRAMES_BESIDE;
pub use step::Step;
pub use under_way::UnderWay;
pub use xsi_calls;
