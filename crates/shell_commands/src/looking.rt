//! Looks at FILE, which change nothing of it.

use crate::trouble::{Errand, Trouble};
use crate::waiting::{MOST_LOOKS, Stamp, TURN, sleep_a_tick, spent_since};
use command_runs::{CommandError, Look, Printer, Ran, look_on};
use msgq_cli::{complain, open_to_read};
use queue_commands::ExitStatus;
use rollback_journal::LeftOver;
use std::io;
use std::io::Write;
use std::time::{Duration, Instant};

/// Looks at FILE, and says why nothing was shown. What a process was changing meanwhile is looked
/// at again.
pub fn look(rt: &HostRuntime, errand: Errand<'_>, what: &Look) -> ExitStatus {
    let start = match Instant::now(rt) {
        Ok(start) => start,
        Err(error) => return Trouble::Clock(error).tell(rt, errand, None),
    };
    for _ in 0..MOST_LOOKS {
        let Some(Sight { text, is_steady }) = look_once(rt, errand, what) else {
            return ExitStatus::Fault;
        };
        if is_steady || is_shown_as_it_stands(rt, errand.file, start) {
            return show(rt, errand, text);
        }
        sleep_a_tick(rt);
    }
    ExitStatus::Fault
}

/// Whether FILE was looked at for so long that it is shown although it is written meanwhile; if so,
/// this is said.
fn is_shown_as_it_stands(rt: &HostRuntime, file: &str, start: Instant) -> bool {
    if spent_since(rt, start) < Duration::from_secs(TURN) {
        return false;
    }
    let why = "a run was cut off, or is under way";
    complain(file, "it is shown as it stands", why, &mut rt.stderr());
    true
}

/// What was seen of FILE.
struct Sight {
    /// What is to be shown, or why nothing is.
    text: Result<Vec<u8>, CommandError>,
    /// Whether nothing tells that FILE was written while it was read.
    is_steady: bool,
}

/// Looks at FILE. None where it is not opened, which was said.
fn look_once(rt: &HostRuntime, errand: Errand<'_>, what: &Look) -> Option<Sight> {
    let alloc = rt.alloc();
    let before = Stamp::of(rt, errand.file);
    let left = left_beside(rt, errand.file);
    let device = open_to_read(rt, errand.file, &mut rt.stderr()).ok()?;
    let mut text = Printer::new(Vec::new(alloc));
    let Ran { device: _, came } = look_on(alloc, device, errand.caller, what, &mut text);
    let is_steady = !is_under_way(rt, errand.file, left) && Stamp::of(rt, errand.file) == before;
    Some(Sight {
        text: came.map(|()| text.into_writer()),
        is_steady,
    })
}

/// What a run that was cut off, or is under way, has left beside FILE. None also where it can't be
/// known.
fn left_beside(rt: &HostRuntime, file: &str) -> Option<LeftOver> {
    rollback_journal::look(rt, file).ok()?
}

/// Whether a run is writing FILE, beside which this was left before it was read. (Where nothing was
/// left, another look would sync both files once more.)
fn is_under_way(rt: &HostRuntime, file: &str, left: Option<LeftOver>) -> bool {
    match left {
        Some(left) => has_images(left) || left_beside(rt, file).is_some_and(has_images),
        None => rollback_journal::is_under_way(rt, file).unwrap_or(false),
    }
}

/// Whether a run is writing FILE, or was cut off while it did. Calls that a server has answered may
/// stand in the journal meanwhile: the pages of FILE stay until they are saved.
fn has_images(left: LeftOver) -> bool {
    left.calls == 0 || left.images > 0
}

/// Shows what was seen, or says why nothing was.
fn show(rt: &HostRuntime, errand: Errand<'_>, text: Result<Vec<u8>, CommandError>) -> ExitStatus {
    let printed = match text {
        Ok(text) => print(rt, text.as_slice()).map_err(Trouble::Unshown),
        Err(error) => Err(Trouble::Undone(error, None)),
    };
    match printed {
        Ok(()) => ExitStatus::Done,
        Err(trouble) => trouble.tell(rt, errand, None),
    }
}

/// Prints a text on standard output.
fn print(rt: &HostRuntime, text: &[u8]) -> io::Result<()> {
    let mut output = io::writer(rt);
    output.write_all(text)?;
    output.flush()
}
