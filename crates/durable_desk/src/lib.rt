//! A desk whose calls are noted beside a file that a crash leaves as at a commit: what a client is
//! told behind a commit is never lost.

#![tactic(auto)]

mod commit;
mod durable;
mod laws;
mod opening;
mod remaking;

pub use commit::Uncommitted;
pub use desk;
pub use durable::DurableDesk;
pub use laws::{a_recovered_file_is_ready, what_is_committed_outlasts_a_crash};
pub use opening::{OpenRefusal, remade};
pub use safe_device;
