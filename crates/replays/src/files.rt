//! The texts of runs and replays of files, and what is said of these.

use crate::ending::Ran;
use crate::texts::refuse_schedule;
use msgq_cli::{
    Ending, Failure, Output, Plain, STANDARD_INPUT, Script, complain, complain_of_fault,
    complain_of_lines, complain_of_refused, read_file, read_fullness, read_script, refuse, unread,
};
use numbers::faults;
use numbers::faults::BUSY;
use rollback_journal::SystemPair;
use rollback_journal::safe_device::SafeDevice;
use schedules::read_schedule;
use std::alloc::Global;
use std::fs::File;
use std::io::Write;
use std::rt::Files;

/// Why a replay is not closed.
const LEFT: &str = "a line is left that no seat can finish";

/// Says of a run or a replay of a file of the system what its lines met, what refused its answers, and
/// what it ended by. Then the file is let go.
pub fn complain_of_ran<W: Write + Drop, E: Write>(
    file: &str,
    ran: Ran<SafeDevice<SystemPair<File>>>,
    output: &Output<W>,
    errors: &mut E,
) -> Ending {
    let Ran {
        mut device,
        failure,
        is_untold,
        ending,
    } = ran;
    let fullness = if output.has_lacked_room() {
        read_fullness(&mut device)
    } else {
        None
    };
    complain_of_lines(file, fullness, output, errors);
    if let Some(failure) = failure {
        complain_of_fault(file, "a line failed", faults::FAILED, failure, errors);
    }
    if is_untold {
        complain_of_output(file, output, errors);
    }
    if is_busy(ending) {
        complain_of_fault(file, "it is not closed", BUSY, LEFT, errors);
    } else {
        complain_of_refused(file, ending, device.into_pair().into_refused(), errors);
    }
    ending
}

/// Whether a line was left.
fn is_busy(ending: Ending) -> bool {
    matches!(
        ending,
        Ending::Failed(Failure {
            stage: _,
            fault: BUSY
        })
    )
}

/// The script that is in a file or comes by standard input.
///
/// # Errors
///
/// How the run ends where it can't be read or is wrong: that was told.
pub fn script_in<R, W, E>(
    rt: &R,
    name: &str,
    output: &mut Output<W>,
    errors: &mut E,
) -> Result<Script, Ending>
where
    R: Files<File = File> + AllocGlobal + Input,
    W: Write + Drop,
    E: Write,
{
    let text = text_in(rt, name, output, errors)?;
    script_of(rt.alloc(), text.as_slice(), name, output, errors)
}

/// The text of a script that is in a file or comes by standard input, once it is known to be one.
///
/// # Errors
///
/// How the run ends where it can't be read or is wrong: that was told.
pub fn script_text<R, W, E>(
    rt: &R,
    name: &str,
    output: &mut Output<W>,
    errors: &mut E,
) -> Result<Vec<u8>, Ending>
where
    R: Files<File = File> + AllocGlobal + Input,
    W: Write + Drop,
    E: Write,
{
    let text = text_in(rt, name, output, errors)?;
    let _ = script_of(rt.alloc(), text.as_slice(), name, output, errors)?;
    Ok(text)
}

/// So of a schedule.
///
/// # Errors
///
/// As those of a script.
pub fn schedule_text<R, W, E>(
    rt: &R,
    name: &str,
    output: &mut Output<W>,
    errors: &mut E,
) -> Result<Vec<u8>, Ending>
where
    R: Files<File = File> + AllocGlobal + Input,
    W: Write + Drop,
    E: Write,
{
    let text = text_in(rt, name, output, errors)?;
    match read_schedule(rt.alloc(), text.as_slice()) {
        Ok(_) => Ok(text),
        Err(error) => {
            let ending = refuse_schedule(rt.alloc(), error, text.as_slice(), output, errors);
            Err(name_text(name, ending, errors))
        }
    }
}

/// What is in a file or comes by standard input.
fn text_in<R, W, E>(
    rt: &R,
    name: &str,
    output: &mut Output<W>,
    errors: &mut E,
) -> Result<Vec<u8>, Ending>
where
    R: Files<File = File> + AllocGlobal + Input,
    W: Write + Drop,
    E: Write,
{
    match read_file(rt, name) {
        Ok(text) => Ok(text),
        Err(error) => Err(unread(name, &error, output, errors)),
    }
}

/// The script that a text of this name spells.
fn script_of<W, E>(
    alloc: Global,
    text: &[u8],
    name: &str,
    output: &mut Output<W>,
    errors: &mut E,
) -> Result<Script, Ending>
where
    W: Write + Drop,
    E: Write,
{
    match read_script(alloc, text) {
        Ok(script) => Ok(script),
        Err(error) => {
            let ending = refuse(alloc, error, text, output, errors);
            Err(name_text(name, ending, errors))
        }
    }
}

/// Says below what is wrong in a text in which one it is.
fn name_text<E: Write>(name: &str, ending: Ending, errors: &mut E) -> Ending {
    if let Ending::WrongLine(_) | Ending::WrongWord(_) = ending {
        let name = if name == STANDARD_INPUT {
            "standard input"
        } else {
            name
        };
        let name = Plain(name);
        let _ = writeln!(errors, "  in: {name}");
    }
    ending
}

/// Says what refused the answers, so that nothing was written to the file.
fn complain_of_output<W: Write + Drop, E: Write>(file: &str, output: &Output<W>, errors: &mut E) {
    if let Some(error) = output.refusal() {
        let file = Plain(file);
        let _ = writeln!(
            errors,
            "msgq: standard output: {error}; {file} is unchanged"
        );
    }
}
