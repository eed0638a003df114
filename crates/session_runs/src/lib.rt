//! Scripts on files of message queues, run line by line: each call is answered before the next one
//! is made.

#![tactic(auto)]

mod runs;
mod serving;

pub use runs::run_lines;
pub use serving::{MEMORY_PAGES, run_on, run_text_on, serve, serve_text};
