//! Scripts on files of message queues, the lines of several seats beside one another, by a schedule.

#![tactic(auto)]

mod deed;
mod ending;
mod files;
mod holdings;
mod keys;
mod line_events;
mod onlooker;
mod opening;
mod printing;
mod progress;
mod replay;
mod rounds;
mod spelled;
mod texts;

pub use deed::Deed;
pub use ending::{Ran, run, tell_end};
pub use files::{complain_of_ran, schedule_text, script_in, script_text};
pub use keys::FileKeys;
pub use msgq_cli;
pub use onlooker::{Onlooker, Sight};
pub use opening::{leave_refused, open, open_kernel};
pub use progress::{Place, Progress};
pub use replay::{MOST_STEPS, Replay};
pub use texts::{Texts, replay_on};
