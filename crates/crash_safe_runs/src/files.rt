//! Scripts run and replayed on files of the system.

use crate::replaying::replay_over;
use crate::scripts::run_over;
use replays::msgq_cli::{Ending, Output, leave_unopened};
use replays::{Texts, complain_of_ran, schedule_text, script_in, script_text};
use rollback_journal::{Opening, open_in_turn};
use std::fs::File;
use std::io::Write;
use std::rt::{Clock, Files};

/// What a replay is made of, by their names, and whether it is traced. A script or a schedule of
/// the name `-` is that of standard input.
#[derive(Clone, Copy)]
pub struct Sources<'a> {
    /// The file.
    pub file: Opening<'a>,
    /// The script.
    pub script: &'a str,
    /// The schedule.
    pub schedule: &'a str,
    /// Each event is told on standard error.
    pub is_traced: bool,
}

/// `replay FILE SCRIPT SCHEDULE`: runs the lines of several seats beside one another on a file of
/// message queues, by a schedule.
///
/// The script is read first, then the schedule: fault 20 or 60 alone where one can't be read, and
/// nothing is run where one is wrong. Then the file is opened, and what a run that was cut off has
/// left is undone: `fault N` alone where it is not. Then it is as `replay_over` says.
pub fn replay_file<R, W, E>(
    rt: &R,
    sources: Sources,
    output: &mut Output<W>,
    errors: &mut E,
) -> Ending
where
    R: Files<File = File> + AllocGlobal + Input + Clock,
    W: Write + Drop,
    E: Write,
{
    // a wrong text is told before the file is opened
    let script = match script_text(rt, sources.script, output, errors) {
        Ok(script) => script,
        Err(ending) => return ending,
    };
    let schedule = match schedule_text(rt, sources.schedule, output, errors) {
        Ok(schedule) => schedule,
        Err(ending) => return ending,
    };
    let device = match open_in_turn(rt, sources.file) {
        Ok(device) => device,
        Err(error) => return leave_unopened(sources.file.path, error, output, errors),
    };
    let texts = Texts {
        script: script.as_slice(),
        schedule: schedule.as_slice(),
        is_traced: sources.is_traced,
    };
    let replayed = replay_over(rt.alloc(), device, texts, output, errors);
    complain_of_ran(sources.file.path, replayed, output, errors)
}

/// `run FILE SCRIPT`: runs the script of a file, or of standard input, on a file of message queues.
///
/// The script is read first: fault 20 or 60 alone where it can't be read, and nothing is run where
/// it is wrong. Then the file is opened, and what a run that was cut off has left is undone:
/// `fault N` alone where it is not. Then it is as `run_over` says.
pub fn run_file<R, W, E>(
    rt: &R,
    file: Opening,
    script: &str,
    output: &mut Output<W>,
    errors: &mut E,
) -> Ending
where
    R: Files<File = File> + AllocGlobal + Input + Clock,
    W: Write + Drop,
    E: Write,
{
    // a wrong script is told before the file is opened
    let script = match script_in(rt, script, output, errors) {
        Ok(script) => script,
        Err(ending) => return ending,
    };
    let device = match open_in_turn(rt, file) {
        Ok(device) => device,
        Err(error) => return leave_unopened(file.path, error, output, errors),
    };
    let ran = run_over(rt.alloc(), device, &script, output);
    complain_of_ran(file.path, ran, output, errors)
}
