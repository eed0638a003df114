//! What standard error says of a run that does not go as it was asked. No claim
//! rests on these words.

use crate::ending::{Ending, Failure, Stage};
use crate::fullness::{Fullness, NoRoom};
use crate::line::text as text_of;
use crate::line_faults::{LineFaults, Met};
use crate::mistake::{Expected, Mistake, Optional};
use crate::output::Output;
use crate::plain::Plain;
use numbers::faults;
use rollback_journal::Refused;
use schedules::words;
use std::alloc::{AllocError, Global};
use std::fmt::{Display, Formatter};
use std::io::Write;
use std::{fmt, io};

/// Of a longer word the beginning is shown.
const MOST_SHOWN: usize = 64;

/// What fault 60 of a line says.
const NO_MEMORY: &str = "there was no memory for it, and nothing changed: it may be asked again";

/// What fault 61 of a line says.
const SESSION_FULL: &str =
    "a run makes at most 65536 calls: run the lines from here on by themselves";

/// What the next run does with a file that is not closed.
const PUTS_BACK: &str = "it finds the file as before these lines or as after all of them, whole";

/// `msgq: FILE: what`.
pub(crate) fn tell<E: Write, D: Display + Drop>(file: &str, what: D, errors: &mut E) {
    let file = Plain(file);
    let _ = writeln!(errors, "msgq: {file}: {what}");
}

/// `msgq: FILE: what: why`.
pub fn complain<E: Write, D: Display + Drop>(file: &str, what: &str, why: D, errors: &mut E) {
    tell(file, format_args!("{what}: {why}"), errors);
}

/// `msgq: FILE: what (fault N): why`, where `fault N` is printed.
pub fn complain_of_fault<E: Write, D: Display + Drop>(
    file: &str,
    what: &str,
    fault: u8,
    why: D,
    errors: &mut E,
) {
    tell(file, format_args!("{what} (fault {fault}): {why}"), errors);
}

/// Says of each kind of fault that lines were replied what it is and what can be done: of the first
/// line that met it, and of how many more. How full the file is, where that is known, is said where
/// one had no room.
pub fn complain_of_lines<W: Write + Drop, E: Write>(
    file: &str,
    fullness: Option<Fullness>,
    output: &Output<W>,
    errors: &mut E,
) {
    let LineFaults {
        no_room,
        no_memory,
        session_full,
    } = output.line_faults();
    let room = NoRoom(fullness);
    complain_of_kind(file, no_room, faults::NO_ROOM, room, errors);
    complain_of_kind(file, no_memory, faults::NO_MEMORY, NO_MEMORY, errors);
    complain_of_kind(
        file,
        session_full,
        faults::SESSION_FULL,
        SESSION_FULL,
        errors,
    );
}

/// Says of one kind of fault what it is, where a line met it.
fn complain_of_kind<E: Write, D: Display + Drop>(
    file: &str,
    met: Option<Met>,
    fault: u8,
    why: D,
    errors: &mut E,
) {
    let Some(Met { first, more }) = met else {
        return;
    };
    let more = More(more);
    tell(
        file,
        format_args!("line {first} (fault {fault}): {why}{more}"),
        errors,
    );
}

/// How many lines more met a kind of fault.
#[derive(Clone, Copy)]
struct More(u64);

impl Display for More {
    fn fmt<W: fmt::Write>(&self, f: &mut Formatter<W>) -> fmt::Result {
        match self.0 {
            0 => Ok(()),
            1 => f.write_str("; so one line more"),
            more => write!(f, "; so {more} lines more"),
        }
    }
}

/// Says of a run on a file that ended by a fault that no line met what this was.
pub fn complain_of<E: Write>(file: &str, ending: Ending, errors: &mut E) {
    match ending {
        Ending::Failed(Failure { stage, fault }) => {
            complain_of_fault(file, what(stage), fault, why(fault), errors)
        }
        Ending::Unopened(fault) => {
            complain_of_fault(file, what(Stage::Opening), fault.number(), fault, errors)
        }
        Ending::Done | Ending::Faulty | Ending::WrongLine(_) | Ending::WrongWord(_) => {}
    }
}

/// So of a run on a file of the system: in the system's words, where it refused a transfer.
pub fn complain_of_refused<E: Write>(
    file: &str,
    ending: Ending,
    refused: Option<Refused>,
    errors: &mut E,
) {
    let (Some(Failure { stage, fault }), Some(refused)) = (ending.failure(), refused) else {
        return complain_of(file, ending, errors);
    };
    if fault == faults::DEVICE {
        complain_of_fault(file, what(stage), fault, refused, errors);
        if stage == Stage::Closing {
            complain(file, "the next run", PUTS_BACK, errors);
        }
        return;
    }
    if fault == faults::FAILED {
        complain(file, "a transfer failed", refused, errors);
    }
    complain_of(file, ending, errors);
}

/// What could not be done.
fn what(stage: Stage) -> &'static str {
    match stage {
        Stage::Reading => "it can't be read",
        Stage::Making => "it can't be made",
        Stage::Opening => "it can't be opened",
        Stage::Checking => "it can't be checked",
        Stage::Closing => "it can't be closed",
    }
}

/// What a fault says that the system has no words for (docs/FAULTS.md).
pub(crate) fn why(fault: u8) -> &'static str {
    match fault {
        faults::DEVICE => "it is no file, or the system failed to read or write it",
        faults::PAST_END => "its length is no multiple of 4096, the bytes of a page",
        faults::NO_MEMORY => "there is no memory",
        faults::FAILED => "a line failed before, so nothing was written",
        _ => "it has another form",
    }
}

/// `script line N`, and below it what was not understood and what could stand there.
pub(crate) fn complain_of_line<E: Write>(
    alloc: Global,
    text: &[u8],
    line: u64,
    mistake: Mistake,
    errors: &mut E,
) {
    let _ = writeln!(errors, "script line {line}");
    let word = match mistake {
        Mistake::Word(number, _) => word_at(alloc, line_at(text, line), number),
        _ => Ok(None),
    };
    match word {
        Ok(Some(word)) => {
            let _ = print_word(word, errors);
        }
        Ok(None) => print_part("not understood", what_stands(mistake), errors),
        Err(_) => return,
    }
    print_part("could stand there", could(mistake), errors);
}

/// Says a part of what is wrong with a line.
fn print_part<E: Write>(part: &str, what: &str, errors: &mut E) {
    let _ = writeln!(errors, "  {part}: {what}");
}

/// The word of a number of a line, if it has so many; words count from 1.
fn word_at(alloc: Global, line: &[u8], number: usize) -> Result<Option<&[u8]>, AllocError> {
    let words = words(alloc, text_of(line).unwrap_or(line))?;
    Ok(words.get(number.saturating_sub(1)).copied())
}

/// What stands where a line is wrong, and no word is.
fn what_stands(mistake: Mistake) -> &'static str {
    match mistake {
        Mistake::Word(..) => "the end of the line",
        Mistake::ReturnAtEnd => "a CR at the end of the script",
        Mistake::NotAscii => "a byte from 128 on",
        Mistake::Blanks => "a line of blanks",
        Mistake::LateIds => "ids behind a command, or again for a seat",
    }
}

/// What could stand where a line is wrong.
fn could(mistake: Mistake) -> &'static str {
    match mistake {
        Mistake::Word(_, expected) => form(expected),
        Mistake::ReturnAtEnd => "LF, CR LF or nothing",
        Mistake::NotAscii => "ASCII text",
        Mistake::Blanks => { "a seat and its command, ids, a comment behind #, or an empty line" }
        Mistake::LateIds => {
            "a seat and its command: ids lines come first, at most one for a seat"
        }
    }
}

/// The name of what could stand at a word's place, and what it looks like.
fn form(expected: Expected) -> &'static str {
    match expected {
        Expected::SeatOrIds => "SEAT, a number from 1 to 64, or ids",
        Expected::Command => "a command: get, snd, rcv, stat, set, rm or stop",
        Expected::Seat => "SEAT, a number from 1 to 64",
        Expected::Uid => "UID, a number from 0 to 4294967295",
        Expected::Gid => "GID, a number from 0 to 4294967295",
        Expected::Key => "KEY, a number from 0 to 4294967295, or private",
        Expected::Id => "ID, a number from 0 to 4294967295",
        Expected::Size => "SIZE, a number from 0 to 4294967295",
        Expected::Qbytes => "QBYTES, a number from 0 to 4294967295",
        Expected::Type => "TYPE, a number from -9223372036854775808 to 9223372036854775807",
        Expected::Hex => "HEX, an even number of hexadecimal digits, or - for the empty body",
        Expected::OptionOf(Optional::Get) => {
            "create, excl, mode=OOO (three octal digits), each once, or nothing"
        }
        Expected::OptionOf(Optional::Send) => "nowait, once, or nothing",
        Expected::OptionOf(Optional::Receive) => "nowait, noerror, each once, or nothing",
        Expected::OptionOf(Optional::Set) => {
            "uid=N, gid=N, mode=OOO (three octal digits), each once, or nothing"
        }
        Expected::End => "nothing more",
    }
}

/// Shows a word that was not understood. What a terminal could take for a command of its own is shown
/// as `?`.
pub fn print_word<E: Write>(word: &[u8], errors: &mut E) -> io::Result<()> {
    errors.write_all(b"  not understood: ")?;
    for byte in word.iter().take(MOST_SHOWN) {
        let shown = if byte.is_ascii_graphic() { *byte } else { b'?' };
        errors.write_all(&[shown])?;
    }
    let end = if word.len() > MOST_SHOWN {
        "..\n"
    } else {
        "\n"
    };
    errors.write_all(end.as_bytes())
}

/// A line of a text; lines count from 1.
fn line_at(text: &[u8], line: u64) -> &[u8] {
    let mut number = 0u64;
    for bytes in text.split_inclusive(|&byte| byte == b'\n') {
        number = number.saturating_add(1);
        if number == line {
            return bytes;
        }
    }
    b""
}
