//! What a call asks of the records of a system, and what it decides: its verdict, and the
//! writes that follow. For every system of which it was told the records, the verdict is the
//! outcome by the rules.

#![tactic(auto)]

mod decision;
mod expected;
mod inquiry;
mod near;
mod room;
mod slots;
mod sought;
mod verdict;
mod wanted;
mod write;

pub use decision::{Decision, Sweep};
pub use expected::{counter_in, key_in, message_in, queue_in, type_in};
pub use inquiry::{Inquiry, NotASystem};
pub use near::{others_leave_an_id, tell, tell_given};
pub use room::Room;
pub use slots::next_write;
pub use sought::Sought;
pub use type_chains;
pub use verdict::{Taken, Verdict};
pub use wanted::Wanted;
pub use write::{MAX_TRIALS, MAX_WRITES, Write};
