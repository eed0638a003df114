//! Threads over a kernel: each makes its calls at a seat of its own, and what each seat was told is
//! its part of one legal journal. A rule over one atomic word ties the passes of kernel, seats and gauge.

#![tactic(auto)]

mod closing;
mod draft;
mod entries;
mod fault;
mod gate;
mod gauge;
mod held;
mod limit;
mod naming;
mod opening;
mod pass;
mod rule;
mod seat;
mod service;
mod sleepers;
mod stopper;
mod unanswered;
mod unclosed;
mod view;
mod waits;

pub use closing::{Ended, Ending};
pub use entries::Entries;
pub use fault::Fault;
pub use gate::{Gate, MOST_AT_ONCE, Open};
pub use gauge::{Gauge, Opened};
pub use interleavings;
pub use naming::Base;
pub use opening::{Prepared, Started};
pub use pass::{GaugePass, KernelPass, Room, SeatPass};
pub use rule::{Change, Recorded};
pub use seat::Seat;
pub use service::Service;
pub use stopper::Stopper;
pub use unanswered::Unanswered;
pub use unclosed::Unclosed;
pub use view::{Desk, Place, Sitting, View};
