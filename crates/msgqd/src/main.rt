//! The core of a server of message queues: it has the file open, decides the calls that the relay
//! hands it through standard input, saves, and only then writes the answers to standard output.

#![tactic(auto)]

mod command_line;
mod inbox;
mod service;
mod trouble;

use command_line::{USAGE, read_command_line};
use service::run;
use std::fs::{File, OpenOptions};
use std::io::Write;
use std::os::fd::{AsRawFd, RawFd};
use std::process::ExitCode;

fn main(rt: HostRuntime) -> ExitCode {
    let _input = hold(&rt, 0);
    let _output = hold(&rt, 1);
    let _errors = hold(&rt, 2);
    start(&rt)
}

/// Does what the command line asks for, and gives the exit status.
fn start(rt: &HostRuntime) -> ExitCode {
    let words = match std::env::args(rt) {
        Ok(words) => words,
        Err(error) => {
            let _ = writeln!(
                rt.stderr(),
                "msgqd: the command line can't be read: {error}"
            );
            return ExitCode::from(2);
        }
    };
    let words: Vec<String> = match words.collect(rt.alloc()) {
        Ok(words) => words,
        Err(_) => {
            let _ = writeln!(rt.stderr(), "msgqd: out of memory");
            return ExitCode::FAILURE;
        }
    };
    obey(rt, &words)
}

/// The same by its words.
fn obey(rt: &HostRuntime, words: &[String]) -> ExitCode {
    match read_command_line(words) {
        Ok(task) => run(rt, &task),
        Err(why) => {
            let why = why.text();
            let _ = writeln!(rt.stderr(), "msgqd: {why}\n{USAGE}");
            ExitCode::from(2)
        }
    }
}

/// Takes the place of a standard stream that is closed, so that no file which is opened later gets
/// its number, and is written or read as that stream. What is held can't be read as the input, nor
/// written as the others.
fn hold(rt: &HostRuntime, stream: RawFd) -> Option<File> {
    let mut how = OpenOptions::new();
    how.read(stream != 0);
    how.write(stream == 0);
    let file = how.open(rt, "/dev/null").ok()?;
    if file.as_raw_fd() == stream {
        Some(file)
    } else {
        None
    }
}
