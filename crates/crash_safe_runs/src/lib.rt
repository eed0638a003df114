//! Scripts and replays over a file and its journal: cut off at any moment, each leaves the file of
//! before, or that of after, whose answers were all printed.

#![tactic(auto)]

mod concluding;
mod files;
mod replaying;
mod scripts;

pub use concluding::conclude;
pub use deferred_sync;
pub use files::{Sources, replay_file, run_file};
pub use replaying::replay_over;
pub use scripts::run_over;
pub use session_runs;
