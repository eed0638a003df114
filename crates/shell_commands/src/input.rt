//! What a shell hands to `send`: the messages of standard input, and a file to make.

ghost use Rattle.command_runs.specs.Tasks.{CanBeMade};

use command_runs::Creation;
use msgq_cli::{CANT_BE_MADE, Unmade, Unnamed, complain, complain_of_fault, fill_file};
use queue_commands::{ExitStatus, Framing, Unsent, messages_of};
use queue_model::Body;
use std::io::{ErrorKind, IsTerminal, Write};
use std::time::Duration;
use std::{fs, thread};

/// What is said of standard input that is a terminal.
const TERMINAL: &str = "it is a terminal: hand the body by < or |, or say - to type it";

/// So many milliseconds lie between two looks whether another process has made FILE, and so often it
/// is looked.
const NAP: u64 = 10;

const MOST_NAPS: u32 = 1_000;

/// The messages of standard input. A terminal is read only where it is named. Where they can't be
/// sent this is said, and what the command ends with is given.
pub fn read_messages<E: Write>(
    rt: &HostRuntime,
    file: &str,
    is_named: bool,
    framing: Framing,
    errors: &mut E,
) -> Result<Vec<Body>, ExitStatus> {
    if !is_named && rt.stdin().is_terminal() {
        complain("standard input", "it is not read", TERMINAL, errors);
        return Err(ExitStatus::WrongCommandLine);
    }
    match messages_of(rt.alloc(), &mut rt.reader(), framing) {
        Ok(bodies) => Ok(bodies),
        Err(unsent) => {
            let status = status_of(&unsent);
            complain(file, "nothing is sent", unsent, errors);
            Err(status)
        }
    }
}

/// The exit status of a command whose input is not sent.
fn status_of(unsent: &Unsent) -> ExitStatus {
    match unsent {
        Unsent::LongInput | Unsent::LongLine(_) | Unsent::TooMany => ExitStatus::Refused,
        Unsent::Unread(_) | Unsent::NoMemory => ExitStatus::Fault,
    }
}

/// Makes FILE of so many pages where there is none, and prints nothing of that. It gets its name
/// once it is whole, so no other command meets a part of it. Where another process makes it, that
/// is waited for. Where it can't be made this is said.
///
/// Where it is shared with a group, that is its group, which may read and write it.
pub fn make_file<E>(rt: &HostRuntime, file: &str, made: Creation, errors: &mut E) -> bool
where
    E: Write + IsTerminal,
    requires pages { CanBeMade made }
{
    for _ in 0..MOST_NAPS {
        if !is_missing(rt, file) {
            // what is wrong with it is told where it is opened
            return true;
        }
        let why = match Unnamed::begin(rt, file, None) {
            Ok(unnamed) => return share_and_fill(rt, unnamed, made, errors),
            Err(why) => why,
        };
        match &why {
            Unmade::InMaking => thread::sleep(rt, Duration::from_millis(NAP)),
            Unmade::Refused(error) if error.kind() == ErrorKind::AlreadyExists => return true,
            _ => return tell_unmade(file, &why, errors),
        }
    }
    tell_unmade(file, &Unmade::InMaking, errors)
}

/// Whether there is no FILE.
fn is_missing(rt: &HostRuntime, file: &str) -> bool {
    match fs::metadata(rt, file) {
        Ok(_) => false,
        Err(error) => error.kind() == ErrorKind::NotFound,
    }
}

/// Says why FILE can't be made; it is not.
fn tell_unmade<E: Write>(file: &str, why: &Unmade, errors: &mut E) -> bool {
    complain_of_fault(file, CANT_BE_MADE, why.number(), why, errors);
    false
}

/// Makes the pages of a file that was begun, for whom it is shared with, and gives it its name.
fn share_and_fill<E>(rt: &HostRuntime, unnamed: Unnamed<'_>, made: Creation, errors: &mut E) -> bool
where
    E: Write + IsTerminal,
    requires pages { CanBeMade made }
{
    if let Some(group) = made.group {
        if let Err(error) = unnamed.share_with(rt, group) {
            unnamed.give_up(rt, Unmade::Refused(error), errors);
            return false;
        }
    }
    fill_file(rt, unnamed, made.pages, errors).is_ok()
}
