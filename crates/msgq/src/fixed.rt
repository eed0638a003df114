//! The fixed commands: scripts, and files that are made, checked and made anew.

ghost use Rattle.msgq_cli.specs.Tasks.{HasPages};

use crate::answered::Progress;
use crate::scripts::{Scripted, run_file, serve};
use crash_safe_runs::{Sources, replay_file};
use migration::{
    CopyRequest, GrowRequest, SalvageRequest, Size, copy_file, grow_file, salvage_file,
};
use msgq_cli::{
    Ending, Output, Task, advise, complain, complain_of_lines, map_file, new_file, report_file,
};
use service_runs::ThreadASeat;
use std::fs::File;
use std::io::{Eprint, IsTerminal, Write};
use std::rt::Files;
use std::sync::Wait;
use std::thread::Threads;
use std::time::Clock;

/// What faults of lines are told of, where a script is run without a file.
const MEMORY: &str = "the file in memory";

/// Does what a command line asks for, and gives the exit status. The output is one that tells the
/// progress what was answered.
pub fn fixed<R, W, E>(
    rt: &R,
    task: Task<'_>,
    progress: &Progress<'_, R>,
    output: &mut Output<W>,
    errors: &mut E,
) -> u8
where
    R: Files<File = File> + AllocGlobal + Input + Clock + Eprint + Threads + Wait + Sync,
    W: Write + Drop,
    E: Write + IsTerminal,
    requires pages { HasPages task }
{
    // These two say themselves what became of their file.
    let is_run = matches!(&task, Task::Run { .. } | Task::Replay { .. });
    let ending = perform(rt, task, progress, output, errors);
    output.flush();
    if let Some(error) = output.refusal() {
        if !is_run {
            complain("standard output", "it can't be written", error, errors);
        }
    }
    ending.status(output.has_refused())
}

/// Does what a command line asks for. Standard error is told what can be done with a file that is
/// refused.
fn perform<R, W, E>(
    rt: &R,
    task: Task<'_>,
    progress: &Progress<'_, R>,
    output: &mut Output<W>,
    errors: &mut E,
) -> Ending
where
    R: Files<File = File> + AllocGlobal + Input + Clock + Eprint + Threads + Wait + Sync,
    W: Write + Drop,
    E: Write + IsTerminal,
    requires pages { HasPages task }
{
    let (file, ending) = match task {
        Task::Serve => return serve_input(rt, progress, output, errors),
        Task::New { file, pages } => return new_file(rt, file, pages, output, errors),
        Task::Migrate { old, new } => {
            let size = Size::Migrated;
            return copy_file(rt, CopyRequest { old, new, size }, output, errors);
        }
        Task::Copy { old, new, pages } => {
            let size = Size::Pages(pages);
            return copy_file(rt, CopyRequest { old, new, size }, output, errors);
        }
        Task::Grow { file, pages } => {
            return grow_file(rt, GrowRequest { file, pages }, output, errors);
        }
        Task::Salvage { old, new, pages } => {
            let request = SalvageRequest { old, new, pages };
            return salvage_file(rt, request, output, errors);
        }
        Task::Run { file, script } => {
            let path = file.path;
            let run = Scripted { file, script };
            (path, run_file(rt, run, progress, output, errors))
        }
        Task::Replay {
            file,
            script,
            schedule,
            is_traced,
        } => {
            let sources = Sources {
                file,
                script,
                schedule,
                is_traced,
            };
            (file.path, replay_file(rt, sources, output, errors))
        }
        Task::Report(request) => (request.file, report_file(rt, request, output, errors)),
        Task::Map { file } => (file, map_file(rt, file, output, errors)),
    };
    advise(rt, file, ending, errors);
    ending
}

/// Runs the script of standard input on a file in memory.
fn serve_input<R, W, E>(
    rt: &R,
    progress: &Progress<'_, R>,
    output: &mut Output<W>,
    errors: &mut E,
) -> Ending
where
    R: Files<File = File> + AllocGlobal + Input + Clock + Eprint + Threads + Wait + Sync,
    W: Write + Drop,
    E: Write + IsTerminal,
{
    let crew = ThreadASeat::new(rt, rt.alloc(), errors.is_terminal());
    let ending = serve(&crew, progress, &mut rt.reader(), output, errors);
    complain_of_lines(MEMORY, None, output, errors);
    ending
}
