//! Commands of a shell on the file of a device, from their command lines: each is asked of the file in
//! memory, and its text is printed before the device is written; what is looked at alone is read.

#![tactic(auto)]

mod asker;
mod commands;
mod error;
mod key;
mod looking;
mod mistake;
mod printing;
mod reading;
mod running;
mod task;
mod values;

pub use commands::command_over;
pub use error::CommandError;
pub use key::queue_name;
pub use looking::{Form, Look, info_on, look_on};
pub use mistake::Mistake;
pub use printing::Printer;
pub use queue_commands;
pub use reading::{read_command, read_task};
pub use running::{Ran, run_on};
pub use task::{CallerIds, Creation, Deed, Patience, ReceiveTask, SendTask, ShellTask};
