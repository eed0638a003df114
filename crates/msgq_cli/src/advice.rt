//! What can be done with a file that a command refused. No claim rests on these words.

use crate::complaint::tell;
use crate::ending::{Ending, Failure, Stage};
use directory::OLDER_LAYOUT;
use numbers::faults;
use std::fs::{File, OpenOptions};
use std::io::{ErrorKind, Read, Write};
use std::rt::Files;

/// A file of message queues begins with the header: its kind, its version, the depth, a byte 0, and
/// then this (docs/FORMAT.md).
const MAGIC: &[u8] = b"MSGQFILE";

/// What the first bytes of a file say.
#[derive(Clone, Copy)]
enum Beginning {
    /// It is no file of message queues.
    Foreign,
    /// It has the layout that `migrate` reads.
    Older,
    /// It has another layout, and maybe today's.
    Other,
    /// They can't be read.
    Unread,
}

/// Says what can be done with a file that was not opened, or is not right.
pub fn advise<R, E>(rt: &R, file: &str, ending: Ending, errors: &mut E)
where
    R: Files<File = File>,
    E: Write,
{
    let Some(Failure { stage, fault }) = ending.failure() else {
        return;
    };
    if stage != Stage::Opening && stage != Stage::Checking {
        return;
    }
    // These say nothing of the file. One that is a fifo is not opened again.
    if fault == faults::DEVICE || fault == faults::NO_MEMORY || fault == faults::TOO_FEW_FRAMES {
        return;
    }
    let is_version = fault == faults::BAD_VERSION;
    let advice = match read_beginning(rt, file) {
        Beginning::Foreign => "it is no file of message queues",
        Beginning::Older if is_version => {
            "it is of version 1: 'msgq migrate' makes a file of today's version of it"
        }
        Beginning::Other if is_version => "no command of this program reads its version",
        Beginning::Other if fault == faults::BAD_HEADER => {
            "it has more pages than its header says, or the header is wrong: put a copy in its place, \
             or have 'msgq salvage' make a new file of what can be read"
        }
        Beginning::Older => "no command mends it: put a copy in its place",
        Beginning::Other => {
            "no command mends it: put a copy in its place, or have 'msgq salvage' make a new file of \
            what can be read"
        }
        Beginning::Unread => return,
    };
    tell(file, advice, errors);
}

/// What the first bytes of a file say.
fn read_beginning<R: Files<File = File>>(rt: &R, file: &str) -> Beginning {
    let mut how = OpenOptions::new();
    how.read(true);
    let Ok(mut opened) = how.open(rt, file) else {
        return Beginning::Unread;
    };
    let mut head = [0; 12];
    match opened.read_exact(&mut head) {
        Ok(()) => beginning_of(&head),
        Err(error) => match error.kind() {
            ErrorKind::UnexpectedEof => Beginning::Foreign,
            _ => Beginning::Unread,
        },
    }
}

/// What these bytes at the beginning of a file say.
fn beginning_of(head: &[u8; 12]) -> Beginning {
    if !head.ends_with(MAGIC) {
        return Beginning::Foreign;
    }
    if head[1] == OLDER_LAYOUT.version {
        Beginning::Older
    } else {
        Beginning::Other
    }
}
