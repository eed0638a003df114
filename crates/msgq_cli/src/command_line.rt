//! The command line.

ghost use Rattle.std.specs.Prelude.{◌≡◌, ◌&&◌, IfOk, IfSome};
ghost use Rattle.msgq_cli.specs.Tasks.{HasPages, IsFileSize, ReadsInputOnce, is_input, pages_of};

use crate::argument_names::{
    FILE, MAP, METRICS, NEW, OLD, PAGES, SCHEDULE, SCRIPT, TRACE, VERBOSE, WAIT,
};
use crate::command_table::FILE_COMMANDS;
use crate::files::STANDARD_INPUT;
use crate::parser::{program, wrong_use, wrong_word};
use crate::reports::{Report, ReportRequest};
use crate::table::{CommandRow, FileVerb, Verb, command_named};
use crate::waiting::{WRONG_SECONDS, wait_of};
use clap::{ArgMatches, Error};
use directory::LEAST_PAGES;
use page_device::MAX_PAGES;
use rollback_journal::Opening;
use schedules::number;
use std::alloc::{AllocError, Global};
use std::time::Duration;

/// What the command line asks for.
#[derive(Drop)]
pub enum Task<'a> {
    /// The script of standard input, on a new file in memory.
    Serve,
    /// A new file.
    New {
        /// Where it is made.
        file: &'a str,
        /// How many pages it has.
        pages: u32,
    },
    /// A script, on a file.
    Run {
        /// The file.
        file: Opening<'a>,
        /// The script.
        script: &'a str,
    },
    /// A script, on a file, its lines beside one another by a schedule.
    Replay {
        /// The file.
        file: Opening<'a>,
        /// The script.
        script: &'a str,
        /// The schedule.
        schedule: &'a str,
        /// Whether each event is told on standard error.
        is_traced: bool,
    },
    /// A file of version 1 becomes one of today's.
    Migrate {
        /// The older file, which is only read.
        old: &'a str,
        /// Where the new one is made.
        new: &'a str,
    },
    /// A new file of another size, with the same system.
    Copy {
        /// The file, which is only read.
        old: &'a str,
        /// Where the new one is made.
        new: &'a str,
        /// How many pages the new one has.
        pages: u32,
    },
    /// A file gets another size, in its place.
    Grow {
        /// The file.
        file: Opening<'a>,
        /// How many pages it gets.
        pages: u32,
    },
    /// A new file of what can be read of one that is wrong.
    Salvage {
        /// The file, which is only read.
        old: &'a str,
        /// Where the new one is made.
        new: &'a str,
        /// How many pages the new one has.
        pages: u32,
    },
    /// A report of the system that a file holds.
    Report(ReportRequest<'a>),
    /// The map of a file.
    Map {
        /// The file, which is only read.
        file: &'a str,
    },
}

/// So many pages has a file where it is not said.
pub const USUAL_PAGES: u32 = 1000;

/// What is wrong with two texts that would both be that of standard input.
const ONE_INPUT: &str = "SCRIPT and SCHEDULE can't both be standard input";

/// What a word of pages is.
const WRONG_PAGES: &str = "PAGES, a decimal number from 258 to 65536, without a sign";

/// What is wrong with words that the parser takes.
#[derive(Clone, Copy)]
enum Wrong<'a> {
    /// SCRIPT and SCHEDULE would both be that of standard input.
    OneInput,
    /// This word is no number of pages.
    Pages(&'a str),
    /// This word is no number of seconds.
    Wait(&'a str),
}

/// Reads the words of a command line, of which the first names the program.
///
/// A number of pages is one that a file can have, and one text at most is that of standard input.
pub fn read_command_line<'a>(alloc: Global, words: &'a [String]) -> Result<Task<'a>, Error>
    ensures pages { IfOk result HasPages }
    ensures input { IfOk result ReadsInputOnce }
{
    let matches = program(alloc, &[])?.try_get_matches_from(words)?;
    read_matches(alloc, &matches)
}

/// What the words that the parser took ask for.
fn read_matches<'a>(alloc: Global, matches: &ArgMatches<'a>) -> Result<Task<'a>, Error>
    ensures pages { IfOk result HasPages }
    ensures input { IfOk result ReadsInputOnce }
{
    let Some((name, arguments)) = matches.subcommand() else {
        return Ok(Task::Serve);
    };
    let Some(row) = command_named(FILE_COMMANDS, name) else {
        return Ok(Task::Serve);
    };
    match read_task(row.verb, arguments) {
        Ok(task) => Ok(task),
        Err(wrong) => Err(wrong.into_error(alloc, &row)?),
    }
}

/// What a command asks for.
fn read_task<'a>(verb: Verb, arguments: &ArgMatches<'a>) -> Result<Task<'a>, Wrong<'a>>
    ensures pages { IfOk result HasPages }
    ensures input { IfOk result ReadsInputOnce }
{
    let Verb::File(verb) = verb else {
        // (its parser has no other command)
        return Ok(Task::Serve);
    };
    let file = arguments.get_str(FILE).unwrap_or("");
    let old = arguments.get_str(OLD).unwrap_or("");
    let new = arguments.get_str(NEW).unwrap_or("");
    match verb {
        FileVerb::New => Ok(Task::New {
            file,
            pages: size(arguments)?,
        }),
        FileVerb::Run => Ok(Task::Run {
            file: opening(arguments)?,
            script: arguments.get_str(SCRIPT).unwrap_or(""),
        }),
        FileVerb::Replay => read_replay(arguments),
        FileVerb::Check if arguments.get_flag(MAP) => Ok(Task::Map { file }),
        FileVerb::Check => Ok(Task::Report(request(arguments, Report::Counts))),
        FileVerb::Stat => Ok(Task::Report(request(arguments, queues_of(arguments)))),
        FileVerb::Migrate => Ok(Task::Migrate { old, new }),
        FileVerb::Copy => {
            let pages = size(arguments)?;
            Ok(Task::Copy { old, new, pages })
        }
        FileVerb::Grow => {
            let pages = size(arguments)?;
            let file = opening(arguments)?;
            Ok(Task::Grow { file, pages })
        }
        FileVerb::Salvage => {
            let pages = size(arguments)?;
            Ok(Task::Salvage { old, new, pages })
        }
    }
}

/// What `replay` asks for.
fn read_replay<'a>(arguments: &ArgMatches<'a>) -> Result<Task<'a>, Wrong<'a>>
    ensures pages { IfOk result HasPages }
    ensures input { IfOk result ReadsInputOnce }
{
    let script = arguments.get_str(SCRIPT).unwrap_or("");
    let schedule = arguments.get_str(SCHEDULE).unwrap_or("");
    if share_input(script, schedule) {
        return Err(Wrong::OneInput);
    }
    let file = opening(arguments)?;
    Ok(Task::Replay {
        file,
        script,
        schedule,
        is_traced: arguments.get_flag(TRACE),
    })
}

/// Whether two texts would both be that of standard input.
fn share_input(one: &str, other: &str) -> bool
    ensures { result ≡ (is_input one.now && is_input other.now) }
{
    one == STANDARD_INPUT && other == STANDARD_INPUT
}

/// What a report shows, and of which file.
fn request<'a>(arguments: &ArgMatches<'a>, report: Report) -> ReportRequest<'a> {
    ReportRequest {
        file: arguments.get_str(FILE).unwrap_or(""),
        report,
        is_verbose: arguments.get_flag(VERBOSE),
    }
}

/// In which form the queues of a file are shown.
fn queues_of(arguments: &ArgMatches<'_>) -> Report {
    if arguments.get_flag(METRICS) {
        Report::Metrics
    } else {
        Report::Queues
    }
}

/// The file that is changed, and how long its opening waits.
fn opening<'a>(arguments: &ArgMatches<'a>) -> Result<Opening<'a>, Wrong<'a>> {
    let path = arguments.get_str(FILE).unwrap_or("");
    let Some(word) = arguments.get_str(WAIT) else {
        let wait = Duration::ZERO;
        return Ok(Opening { path, wait });
    };
    match wait_of(word.as_bytes()) {
        Some(wait) => Ok(Opening { path, wait }),
        None => Err(Wrong::Wait(word)),
    }
}

/// How many pages a file gets: as many as are asked for, or as usual.
fn size<'a>(arguments: &ArgMatches<'a>) -> Result<u32, Wrong<'a>>
    ensures { IfOk result IsFileSize }
{
    let Some(word) = arguments.get_str(PAGES) else {
        return Ok(USUAL_PAGES);
    };
    match pages(word.as_bytes()) {
        Some(pages) => Ok(pages),
        None => Err(Wrong::Pages(word)),
    }
}

impl<'a> Wrong<'a> {
    /// What is said of it, with the usage of its command.
    fn into_error(self, alloc: Global, row: &CommandRow) -> Result<Error, AllocError> {
        match self {
            Wrong::OneInput => wrong_use(alloc, row, ONE_INPUT),
            Wrong::Pages(word) => wrong_word(alloc, row, word, WRONG_PAGES),
            Wrong::Wait(word) => wrong_word(alloc, row, word, WRONG_SECONDS),
        }
    }
}

/// The number of pages that a word asks for, where a file can have so many.
pub fn pages(word: &[u8]) -> Option<u32>
    ensures value { result ≡ pages_of word.now }
    ensures within { IfSome result IsFileSize }
{
    let pages = number(word)?;
    if LEAST_PAGES <= pages && pages <= MAX_PAGES {
        Some(pages)
    } else {
        None
    }
}
