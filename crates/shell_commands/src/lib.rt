//! Commands of a shell, done by a process: it reads standard input, opens FILE, waits where that is
//! asked for, and says on standard error what is not done.

#![tactic(auto)]

mod commands;
mod input;
mod looking;
mod own_ids;
mod trouble;
mod waiting;

pub use command_runs;
pub use commands::shell;
