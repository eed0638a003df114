//! Message queues (XSI, POSIX.1-2017) kept in one file: makes files, runs scripts of calls on
//! them, checks them, and makes new ones of them.

#![tactic(auto)]

ghost use Rattle.msgq_cli.specs.Tasks.{HasPages};

mod answered;
mod fixed;
mod runs;
mod scripts;
mod stack;

use answered::{Progress, Watched};
use clap::Error;
use fixed::fixed;
use msgq_cli::{Output, Task, print_fault, read_command_line, with_waits};
use numbers::faults;
use shell_commands::command_runs::read_command;
use shell_commands::shell;
use stack::has_stack;
use std::fs::{File, OpenOptions};
use std::io::{BufWriter, Eprint, ErrorKind, IsTerminal, Write};
use std::os::fd::{AsRawFd, RawFd};
use std::os::unix::fs::FileTypeExt;
use std::process::ExitCode;
use std::rt::Files;
use std::sync::Wait;
use std::thread::Threads;
use std::time::Clock;
use std::{fs, io};

fn main(rt: HostRuntime) -> ExitCode {
    if !has_stack(rt.alloc()) {
        return without_memory(&rt);
    }
    act(&rt, &rt)
}

/// Does what the command line asks for. What it takes of the stack is not taken by `main`, which
/// alone has threads: so it hands them on.
#[inline(never)]
fn act<R>(rt: &HostRuntime, threads: &R) -> ExitCode
where
    R: Files<File = File> + AllocGlobal + Input + Clock + Eprint + Threads + Wait + Sync,
{
    let _input = hold(rt, 0);
    let _output = hold(rt, 1);
    let _errors = hold(rt, 2);
    match words(rt) {
        Ok(words) => obey(rt, threads, words.as_slice()),
        Err(error) => without_words(rt, error.kind()),
    }
}

/// Does what these words ask for.
fn obey<R>(rt: &HostRuntime, threads: &R, words: &[String]) -> ExitCode
where
    R: Files<File = File> + AllocGlobal + Input + Clock + Eprint + Threads + Wait + Sync,
{
    match read_command(rt.alloc(), words) {
        Ok(Some(task)) => ExitCode::from(shell(rt, &task).number()),
        Ok(None) => obey_fixed(rt, threads, words),
        Err(error) => tell(rt, error),
    }
}

/// The same of words that are no command of a shell.
fn obey_fixed<R>(rt: &HostRuntime, threads: &R, words: &[String]) -> ExitCode
where
    R: Files<File = File> + AllocGlobal + Input + Clock + Eprint + Threads + Wait + Sync,
{
    match read_command_line(rt.alloc(), words) {
        Ok(task) => print_fixed(rt, threads, task),
        Err(error) => tell(rt, error),
    }
}

/// Does a fixed command, and prints what comes of it on standard output.
fn print_fixed<R>(rt: &HostRuntime, threads: &R, task: Task<'_>) -> ExitCode
where
    R: Files<File = File> + AllocGlobal + Input + Clock + Eprint + Threads + Wait + Sync,
    requires pages { HasPages task }
{
    let progress = Progress::new(threads, rt.stderr().is_terminal() && is_kept(rt));
    let Ok(writer) = BufWriter::new(rt.alloc(), Watched::new(io::writer(rt), &progress)) else {
        return without_memory(rt);
    };
    let mut output = Output::new(writer);
    ExitCode::from(fixed(threads, task, &progress, &mut output, &mut rt.stderr()))
}

/// Whether what is printed goes to a file or a device that is no terminal. Who reads a pipe may
/// print on the terminal meanwhile.
fn is_kept(rt: &HostRuntime) -> bool {
    if rt.stdout().is_terminal() {
        return false;
    }
    let Ok(found) = fs::metadata(rt, "/dev/stdout") else {
        return false;
    };
    found.is_file() || found.file_type().is_char_device()
}

/// Takes the place of a standard stream that is closed, so that no file which is opened later gets
/// its number, and is written or read as that stream. What is held can't be read as the input, nor
/// written as the others.
fn hold(rt: &HostRuntime, stream: RawFd) -> Option<File> {
    let mut how = OpenOptions::new();
    how.read(stream != 0);
    how.write(stream == 0);
    let file = how.open(rt, "/dev/null").ok()?;
    if file.as_raw_fd() == stream {
        Some(file)
    } else {
        None
    }
}

/// The words of the command line, in which the seconds of a wait are one word with its option.
fn words(rt: &HostRuntime) -> io::Result<Vec<String>> {
    let words = std::env::args(rt)?.collect(rt.alloc())?;
    Ok(with_waits(rt.alloc(), words)?)
}

/// Ends where the words of the command line can't be read.
fn without_words(rt: &HostRuntime, why: ErrorKind) -> ExitCode {
    if why == ErrorKind::OutOfMemory {
        return without_memory(rt);
    }
    let _ = writeln!(rt.stderr(), "msgq: a word of the command line is not UTF-8");
    ExitCode::from(2)
}

/// Shows help or the version, or says what is wrong with the command line, or that there was no
/// memory to read it.
fn tell(rt: &HostRuntime, text: Error) -> ExitCode {
    if text.kind() == clap::error::ErrorKind::OutOfMemory {
        return without_memory(rt);
    }
    if !text.use_stderr() {
        return match text.print(rt) {
            Ok(()) => ExitCode::SUCCESS,
            Err(_) => ExitCode::FAILURE,
        };
    }
    let Ok(text) = text.to_string(rt.alloc()) else {
        return without_memory(rt);
    };
    let text = text.as_str();
    let why = text.strip_prefix("error: ").unwrap_or(text);
    let mut errors = rt.stderr();
    let _ = write!(errors, "msgq: {why}");
    ExitCode::from(2)
}

/// Ends where there is no memory to begin with. A buffer of no byte takes none.
fn without_memory(rt: &HostRuntime) -> ExitCode {
    let Ok(writer) = BufWriter::with_capacity(rt.alloc(), 0, io::writer(rt)) else {
        unreachable!()
    };
    let mut output = Output::new(writer);
    print_fault(faults::NO_MEMORY, &mut output);
    output.flush();
    ExitCode::FAILURE
}
