//! The words of scripts and schedules (docs/SCRIPTS.md, "Words"), and schedules: texts that say which
//! seat makes the next steps.

#![tactic(auto)]

mod event;
mod hexadecimal;
mod kinds;
mod laws;
mod refusal;
mod schedule;
mod split;
mod values;

pub use event::{Event, Expected};
pub use laws::each_kind_has_a_name_of_its_own;
pub use refusal::Refusal;
pub use schedule::{ScheduleError, read_schedule, word_at};
pub use split::{is_word, words, words_into};
pub use values::{SEATS, body, key, mode, number, seat, signed};
