//! Scripts run on files of the system, and on a file in memory, a thread a seat.

ghost use Rattle.std.specs.Prelude.{◌≡◌};
ghost use Rattle.msgq.specs.Scripts.{RunsInputNew, RunsTextNew};

use crate::answered::Progress;
use crate::runs::{run_on, run_over};
use crash_safe_runs::session_runs::{MEMORY_PAGES, serve_text};
use msgq_cli::record_file::format;
use msgq_cli::{
    Ending, Output, Stage, complain_of, fail, leave_unopened, read_script, read_text, refuse,
    unread,
};
use page_device::MemDevice;
use replays::{complain_of_ran, script_in};
use rollback_journal::{Opening, open_in_turn};
use service_runs::{ThreadASeat, is_of_one_seat};
use std::fs::File;
use std::io::{Eprint, IsTerminal, Read, Write};
use std::rt::Files;
use std::sync::Wait;
use std::thread::Threads;
use std::time::Clock;

/// What the faults of a file in memory are told of.
const MEMORY: &str = "the file in memory";

/// A script and the file on which it is run.
pub struct Scripted<'a> {
    pub file: Opening<'a>,
    /// The name of the script's own file, or `-` for standard input.
    pub script: &'a str,
}

/// `run FILE SCRIPT`: runs the script of a file, or of standard input, on a file of message queues,
/// the lines of each seat in a thread of its own.
///
/// The script is read first: fault 20 or 60 alone where it can't be read, and nothing is run where
/// it is wrong. Then the file is opened, and what a run that was cut off has left is undone:
/// `fault N` alone where it is not. Then it is as `run_over` says.
pub fn run_file<R, W, E>(
    rt: &R,
    run: Scripted<'_>,
    progress: &Progress<'_, R>,
    output: &mut Output<W>,
    errors: &mut E,
) -> Ending
where
    R: Files<File = File> + AllocGlobal + Input + Clock + Eprint + Threads + Wait + Sync,
    W: Write + Drop,
    E: Write + IsTerminal,
{
    let Scripted { file, script } = run;
    // a wrong script is told before the file is opened
    let script = match script_in(rt, script, output, errors) {
        Ok(script) => script,
        Err(ending) => return ending,
    };
    let device = match open_in_turn(rt, file) {
        Ok(device) => device,
        Err(error) => return leave_unopened(file.path, error, output, errors),
    };
    let crew = ThreadASeat::new(rt, rt.alloc(), errors.is_terminal());
    if is_of_one_seat(&script) {
        progress.begin(script.lines().len());
    }
    let ran = run_over(&crew, device, &script, output);
    complain_of_ran(file.path, ran, output, errors)
}

/// Runs the script that a reader gives on a new file in memory, from the empty system.
///
/// A wrong script runs nothing. Fault 60 alone where there is no memory to read the script or to
/// make the file, and fault 20 alone where the reader fails otherwise.
pub fn serve<R: Threads + Wait + Clock + Eprint + Sync, I: Read, W: Write + Drop, E: Write>(
    crew: &ThreadASeat<'_, R>,
    progress: &Progress<'_, R>,
    reader: &mut I,
    output: &mut Output<W>,
    errors: &mut E,
) -> Ending
    ensures { RunsInputNew (I.remaining reader.old) output.old output.new result }
{
    match read_text(crew.alloc(), reader) {
        Ok(text) => serve_beside(crew, progress, text.as_slice(), output, errors),
        Err(error) => unread("standard input", &error, output, errors),
    }
}

/// Runs a text as a script on a new file in memory.
fn serve_beside<R: Threads + Wait + Clock + Eprint + Sync, W: Write + Drop, E: Write>(
    crew: &ThreadASeat<'_, R>,
    progress: &Progress<'_, R>,
    text: &[u8],
    output: &mut Output<W>,
    errors: &mut E,
) -> Ending
    ensures { RunsTextNew text.now output.old output.new result }
{
    let alloc = crew.alloc();
    let script = match read_script(alloc, text) {
        Ok(script) => script,
        Err(error) => return refuse(alloc, error, text, output, errors),
    };
    if is_of_one_seat(&script) {
        progress.begin(script.lines().len());
        return serve_text(alloc, text, output, errors);
    }
    let mut device = MemDevice::new(alloc);
    if let Err(fault) = format(&mut device, MEMORY_PAGES) {
        let ending = fail(Stage::Making, fault.number(), output);
        complain_of(MEMORY, ending, errors);
        return ending;
    }
    let ending = run_on(crew, device, &script, output).ending;
    complain_of(MEMORY, ending, errors);
    ending
}
