//! What is told of a system that a file holds.

ghost use Rattle.std.specs.Prelude.{◌≡◌};
ghost use Rattle.msgq_cli.specs.Outputs.{Prints};
ghost use Rattle.msgq_cli.specs.Reports.{deed_text, ok_text, report_text, system_text, unread_text, word_of};

use crate::metrics::print_metrics;
use crate::output::Output;
use crate::printed_word::PrintedWord;
use crate::reply::print_info;
use queue_model::System;
use std::io::Write;

/// What is told of a system.
#[derive(Clone, Copy)]
pub enum Report {
    /// How many queues it has, and messages on them.
    Counts,
    /// The state of each queue, and the next id.
    Queues,
    /// What is told of each queue in the text format of Prometheus.
    Metrics,
}

/// What was done with a file to make a new one.
#[derive(Clone, Copy)]
pub enum Deed {
    /// An older version became today's.
    Migrated,
    /// It was copied, to another size maybe.
    Copied,
    /// It got another size.
    Grown,
    /// What can be read of it was taken over.
    Salvaged,
}

impl Deed {
    /// The word that is printed.
    fn word(self) -> &'static [u8]
        ensures { result.now ≡ word_of self }
    {
        match self {
            Deed::Migrated => b"migrated",
            Deed::Copied => b"copied",
            Deed::Grown => b"grown",
            Deed::Salvaged => b"salvaged",
        }
    }
}

/// A report that is asked for.
#[derive(Clone, Copy)]
pub struct ReportRequest<'a> {
    /// The file.
    pub file: &'a str,
    /// What is told.
    pub report: Report,
    /// Whether standard error tells how full the file is. On a terminal it does.
    pub is_verbose: bool,
}

impl Report {
    /// Prints it of a system.
    pub fn print<W: Write + Drop>(self, system: &System, output: &mut Output<W>)
        ensures { Prints output.old output.new (report_text self system.now) }
    {
        match self {
            Report::Counts => print_ok(system, output),
            Report::Queues => print_system(system, output),
            Report::Metrics => print_metrics(system, output),
        }
    }
}

/// Prints how many queues a system has, and messages on them.
pub fn print_ok<W: Write + Drop>(system: &System, output: &mut Output<W>)
    ensures { Prints output.old output.new (ok_text system.now) }
{
    output.line(&[
        PrintedWord::Text(b"ok"),
        PrintedWord::Number(system.queues() as u64),
        PrintedWord::Number(system.messages() as u64),
    ]);
}

/// Prints what was done, how many queues have come to a new file, and messages on them.
pub fn print_deed<W: Write + Drop>(deed: Deed, system: &System, output: &mut Output<W>)
    ensures { Prints output.old output.new (deed_text deed system.now) }
{
    output.line(&[
        PrintedWord::Text(deed.word()),
        PrintedWord::Number(system.queues() as u64),
        PrintedWord::Number(system.messages() as u64),
    ]);
}

/// Prints the first and the last of pages that can't be read, and stand one behind the other.
pub fn print_unread<W: Write + Drop>(first: u32, last: u32, output: &mut Output<W>)
    ensures { Prints output.old output.new (unread_text first last) }
{
    output.line(&[
        PrintedWord::Text(b"unread"),
        PrintedWord::Number(u64::from(first)),
        PrintedWord::Number(u64::from(last)),
    ]);
}

/// Prints the state of each queue of a system, in order of id, and the next id.
pub fn print_system<W: Write + Drop>(system: &System, output: &mut Output<W>)
    ensures { Prints output.old output.new (system_text system.now) }
{
    for place in 0..system.queues() {
        if let Some(info) = system.info(place) {
            print_info(&info, output);
        }
    }
    output.line(&[
        PrintedWord::Text(b"next"),
        PrintedWord::Number(u64::from(system.next_id())),
    ]);
}
