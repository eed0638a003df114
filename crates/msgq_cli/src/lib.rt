//! Scripts of calls as text, and answers as lines of text.
//! A grammar gives what a script says, line by line; what is printed is a function of the answer.

#![tactic(auto)]

mod advice;
pub mod argument_names;
mod begun_files;
mod checks;
mod command;
mod command_line;
mod command_table;
mod complaint;
mod ending;
mod file_map;
mod file_names;
mod files;
mod front_table;
mod fullness;
mod heard;
mod help;
mod line;
mod line_faults;
mod map_json;
mod metrics;
mod mistake;
mod new_files;
mod option_table;
mod options;
mod output;
mod parser;
mod plain;
mod printed_word;
mod progress;
mod refusals;
mod reply;
mod reports;
mod script;
mod spelling;
mod table;
mod unmade;
mod waiting;

pub use advice::advise;
pub use checks::{check_on, map_file, print_found, report_file, warn_of_journal};
pub use command::{Command, DEFAULT_MODE};
pub use command_line::{Task, USUAL_PAGES, pages, read_command_line};
pub use command_table::{FILE_COMMANDS, SHELL_COMMANDS};
pub use complaint::{
    complain, complain_of, complain_of_fault, complain_of_lines, complain_of_refused, print_word,
};
pub use ending::{Ending, Failure, Stage};
pub use file_check;
pub use file_map::{FileMap, MappedBucket, read_map};
pub use files::{
    STANDARD_INPUT, fill_file, leave_unopened, new_file, new_on, open_to_read, read_file,
};
pub use front_table::{FRONT_COMMANDS, FRONT_OPTIONS};
pub use fullness::{Fullness, read_fullness};
pub use heard::{Heard, Refusal};
pub use line::{Line, SeatIds};
pub use map_json::print_map;
pub use metrics::{Metric, print_metrics};
pub use mistake::{Expected, Mistake, Optional};
pub use new_files::{CANT_BE_MADE, Unnamed, create_file};
pub use output::Output;
pub use parser::{program, wrong_word};
pub use plain::Plain;
pub use progress::{Progress, Shown};
pub use record_file;
pub use refusals::{fail, read_text, refuse, unread};
pub use reply::{Reply, print_fault, print_info, print_made};
pub use reports::{Deed, Report, ReportRequest, print_deed, print_ok, print_system, print_unread};
pub use script::{Script, ScriptError, read_script};
pub use table::{CommandRow, FileVerb, Operand, Place, ShellVerb, Verb, command_named};
pub use unmade::Unmade;
pub use waiting::{WRONG_SECONDS, wait_of, with_waits};
