//! Runs that end before a line is run: their script is wrong, or can't be read.

ghost use Rattle.std.specs.Prelude.{◌≡◌, IfOk};
ghost use Rattle.std.specs.IoError.{error_kind};
ghost use Rattle.msgq_cli.specs.Refusals.{AreKnownAs, IsFaultAlone, IsRefused, read_fault_of};

use crate::complaint::{complain_of, complain_of_fault, complain_of_line};
use crate::ending::{Ending, Failure, Stage};
use crate::output::Output;
use crate::reply::print_fault;
use crate::script::ScriptError;
use numbers::faults;
use std::alloc::Global;
use std::io;
use std::io::{ErrorKind, Read, Write};

/// Ends a run whose script is not read.
pub fn refuse<W: Write + Drop, E: Write>(
    alloc: Global,
    error: ScriptError,
    text: &[u8],
    output: &mut Output<W>,
    errors: &mut E,
) -> Ending
    ensures { IsRefused error output.old output.new result }
{
    match error {
        ScriptError::WrongLine { line, mistake } => {
            complain_of_line(alloc, text, line, mistake, errors);
            Ending::WrongLine(line)
        }
        ScriptError::NoMemory => {
            let ending = fail(Stage::Reading, faults::NO_MEMORY, output);
            complain_of("the script", ending, errors);
            ending
        }
    }
}

/// All that a reader gives.
pub fn read_text<R: Read>(alloc: Global, reader: &mut R) -> io::Result<Vec<u8>>
    ensures { IfOk result (λ text. AreKnownAs (R.remaining reader.old) text.items) }
{
    let mut text = Vec::new(alloc);
    reader.read_to_end(&mut text)?;
    Ok(text)
}

/// Ends a run of whose script the system refused to open or read the file.
pub fn unread<W: Write + Drop, E: Write>(
    name: &str,
    error: &io::Error,
    output: &mut Output<W>,
    errors: &mut E,
) -> Ending
    ensures { IsFaultAlone (read_fault_of (error_kind error.now)) output.old output.new result }
{
    let fault = read_fault(error.kind());
    complain_of_fault(name, "it can't be read", fault, error, errors);
    fail(Stage::Reading, fault, output)
}

/// The number of an error of a reader: 60 for want of memory, and 20 else.
fn read_fault(kind: ErrorKind) -> u8
    ensures { result ≡ read_fault_of kind }
{
    match kind {
        ErrorKind::OutOfMemory => faults::NO_MEMORY,
        _ => faults::DEVICE,
    }
}

/// Prints a fault that no line met.
pub fn fail<W: Write + Drop>(stage: Stage, fault: u8, output: &mut Output<W>) -> Ending
    ensures { IsFaultAlone fault output.old output.new result }
{
    print_fault(fault, output);
    Ending::Failed(Failure { stage, fault })
}
