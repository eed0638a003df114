//! Files checked, and what is told of the systems that they hold: subcommands of the program
//! that write no file.

ghost use Rattle.std.specs.Prelude.{◌≡◌, IsTrue, IfOk, IfErr};
ghost use Rattle.bucket_page.specs.Pseudokeys.{sha_key};
ghost use Rattle.file_check.specs.Records.{HasCheckCause};
ghost use Rattle.file_check.specs.Whole.{IsFileOf, IsToldOf};
ghost use Rattle.msgq_cli.specs.Checks.{IsReportOrFault, found_text};
ghost use Rattle.msgq_cli.specs.Maps.{IsMapOrFault};
ghost use Rattle.msgq_cli.specs.Outputs.{Prints};

use crate::complaint::{complain_of_fault, tell};
use crate::ending::{Ending, Failure, Stage};
use crate::file_map::{FileMap, read_map};
use crate::files::open_to_read;
use crate::fullness::read_fullness;
use crate::map_json::print_map;
use crate::output::Output;
use crate::progress::{Progress, Shown};
use crate::refusals::fail;
use crate::reply::print_fault;
use crate::reports::{Report, ReportRequest};
use bucket_page::ShaKey;
use file_check::{CheckFault, Checked, check};
use numbers::faults;
use numbers::faults::NoMemory;
use page_device::{FileDevice, PageDevice, SystemFile};
use queue_model::System;
use rollback_journal::look;
use std::alloc::Global;
use std::fs;
use std::fs::File;
use std::io::{IsTerminal, Write};
use std::os::unix::fs::MetadataExt;
use std::rt::Files;

/// What is said where the check itself failed.
const CANT: &str = "it can't be checked";

/// Why a fault says nothing of a file.
const CHANGED: &str = "it was changed while it was read, as by a run that ended: check it again";

/// `check FILE` and `stat FILE`: checks a file, which is opened to be read alone, and prints a
/// report of its system.
///
/// What is told is of the file as it stands. Where a run that was cut off has left a journal, it is
/// said on standard error that the next one undoes it, and nothing is written. How full the file is
/// is said there too, where that is asked for or a terminal.
///
/// `fault N` alone where the file is not opened, where something is wrong with it, or where the
/// machine lacks something: a transfer fails (20), or there is no memory (60). Then it is said on
/// standard error what and where. A fault of a file that was changed since it was opened is told
/// as 20, for its pages are not those of one moment.
pub fn report_file<R, W, E>(
    rt: &R,
    request: ReportRequest,
    output: &mut Output<W>,
    errors: &mut E,
) -> Ending
where
    R: Files<File = File> + AllocGlobal,
    W: Write + Drop,
    E: Write + IsTerminal,
    ensures { IsReportOrFault request.entry.report output.old output.new result }
{
    let ReportRequest {
        file,
        report,
        is_verbose,
    } = request;
    let (mut device, found) = match check_file(rt, file, errors) {
        Ok(checked) => checked,
        Err(Failure { stage, fault }) => return fail(stage, fault, output),
    };
    print_found(report, &found, output);
    let Err(fault) = found else {
        if is_verbose || errors.is_terminal() {
            tell_fullness(&mut device, file, errors);
        }
        return Ending::Done;
    };
    let number = fault.number();
    complain_of_fault(file, what(fault), number, fault, errors);
    Ending::Failed(Failure {
        stage: Stage::Checking,
        fault: number,
    })
}

/// `check --map FILE`: checks a file, as `report_file` does, and prints its map as one JSON object.
///
/// `fault N` alone where that does, and where there is no memory for the map (60).
pub fn map_file<R, W, E>(rt: &R, file: &str, output: &mut Output<W>, errors: &mut E) -> Ending
where
    R: Files<File = File> + AllocGlobal,
    W: Write + Drop,
    E: Write + IsTerminal,
    ensures { IsMapOrFault output.old output.new result }
{
    let map = match map_of(rt, file, errors) {
        Ok(map) => map,
        Err(Failure { stage, fault }) => return fail(stage, fault, output),
    };
    match print_map(rt.alloc(), &map, output) {
        Ok(()) => Ending::Done,
        Err(NoMemory) => {
            let why = "there is no memory for its map";
            complain_of_fault(file, CANT, faults::NO_MEMORY, why, errors);
            fail(Stage::Checking, faults::NO_MEMORY, output)
        }
    }
}

/// Says how full the file of a device is, where its header can be read.
fn tell_fullness<D: PageDevice, E: Write>(device: &mut D, file: &str, errors: &mut E) {
    if let Some(fullness) = read_fullness(device) {
        fullness.tell(file, errors);
    }
}

/// Checks a file, and reads its map. Where there is none this is said, and the fault is told.
fn map_of<R, E>(rt: &R, file: &str, errors: &mut E) -> Result<FileMap, Failure>
where
    R: Files<File = File> + AllocGlobal,
    E: Write + IsTerminal,
{
    let (mut device, found) = check_file(rt, file, errors)?;
    match map_found(rt.alloc(), &mut device, &found) {
        Ok(map) => Ok(map),
        Err(fault) => {
            let number = fault.number();
            complain_of_fault(file, what(fault), number, fault, errors);
            Err(Failure {
                stage: Stage::Checking,
                fault: number,
            })
        }
    }
}

/// The map of the file of a device on which a check found this.
fn map_found<D: PageDevice>(
    alloc: Global,
    device: &mut D,
    found: &Result<System, CheckFault>,
) -> Result<FileMap, CheckFault> {
    match found {
        Ok(system) => map_system(alloc, device, system),
        Err(fault) => Err(*fault),
    }
}

/// The map of the file of a device that holds this system.
fn map_system<D: PageDevice>(
    alloc: Global,
    device: &mut D,
    system: &System,
) -> Result<FileMap, CheckFault> {
    match read_map(alloc, device, system) {
        Ok(map) => Ok(map),
        Err(fault) => Err(CheckFault::Structure(fault)),
    }
}

/// The device of a file, and what was found where it was checked.
type CheckedFile = (FileDevice<SystemFile<File>>, Result<System, CheckFault>);

/// Opens a file to read it alone, and checks it. Where it is not opened, or was changed while it
/// was checked, this is said, and the fault is told.
fn check_file<R, E>(rt: &R, file: &str, errors: &mut E) -> Result<CheckedFile, Failure>
where
    R: Files<File = File> + AllocGlobal,
    E: Write + IsTerminal,
{
    warn_of_journal(rt, file, errors);
    let before = trace_of(rt, file);
    match open_to_read(rt, file, errors) {
        Ok(device) => check_opened(rt, file, before, device, errors),
        Err(fault) => Err(Failure {
            stage: Stage::Opening,
            fault: fault.number(),
        }),
    }
}

/// Checks a file that was opened, and had this trace before.
fn check_opened<R, E>(
    rt: &R,
    file: &str,
    before: Option<Trace>,
    device: FileDevice<SystemFile<File>>,
    errors: &mut E,
) -> Result<CheckedFile, Failure>
where
    R: Files<File = File> + AllocGlobal,
    E: Write + IsTerminal,
{
    let checked = check_on(rt.alloc(), device, errors);
    if checked.1.is_err() && trace_of(rt, file) != before {
        complain_of_fault(file, CANT, faults::DEVICE, CHANGED, errors);
        return Err(Failure {
            stage: Stage::Checking,
            fault: faults::DEVICE,
        });
    }
    Ok(checked)
}

/// What each change of a file changes: where it stands, its length, and when it was written last.
#[derive(Clone, Copy, PartialEq, Eq)]
struct Trace {
    inode: u64,
    bytes: u64,
    written: (i64, i64),
}

/// The trace of a file now, where the system tells it.
fn trace_of<R: Files>(rt: &R, file: &str) -> Option<Trace> {
    match fs::metadata(rt, file) {
        Ok(found) => Some(Trace {
            inode: found.ino(),
            bytes: found.len(),
            written: (found.mtime(), found.mtime_nsec()),
        }),
        Err(_) => None,
    }
}

/// Says what a run that was cut off has left, and what the next one does.
pub fn warn_of_journal<R, E>(rt: &R, file: &str, errors: &mut E)
where
    R: Files<File = File> + AllocGlobal,
    E: Write,
{
    if let Ok(Some(left)) = look(rt, file) {
        let images = left.images;
        tell(
            file,
            format_args!(
                "a run was cut off, or is under way; its journal has {images} pages as they were \
                before, which the next run puts back"
            ),
            errors,
        );
    }
}

/// Checks the file of a device: what is found is the system that it holds, or what is wrong.
///
/// Where the device is honest it is the one system whose file its pages are, and a fault is the
/// first thing that is wrong with them, unless a transfer failed or there was no memory. Nothing is
/// written to the device. Where it is large and `errors` a terminal, that shows how far the check
/// has come.
pub fn check_on<D: PageDevice, E: Write + IsTerminal>(
    alloc: Global,
    device: D,
    errors: &mut E,
) -> (D, Result<System, CheckFault>)
    ensures ok { IsTrue (D.is_honest device) →
        IfOk result.1 (IsFileOf sha_key (D.content device)) }
    ensures err { IsTrue (D.is_honest device) →
        IfErr result.1 (IsToldOf sha_key (D.content device)) }
    ensures same { D.content result.0 ≡ D.content device }
    ensures honest { D.is_honest result.0 ≡ D.is_honest device }
    ensures cause { HasCheckCause (D.fault_count device) (D.fault_count result.0) result.1 }
{
    let progress = Progress::new(errors);
    let Checked { device, found } = check(alloc, Shown::new(device, &progress), ShaKey);
    (device.into_device(), found)
}

/// Prints a report of the system that a check found, or the number of what is wrong.
pub fn print_found<W: Write + Drop>(
    report: Report,
    found: &Result<System, CheckFault>,
    output: &mut Output<W>,
)
    ensures { Prints output.old output.new (found_text report found.now) }
{
    match found {
        Ok(system) => report.print(system, output),
        Err(fault) => print_fault(fault.number(), output),
    }
}

/// What a fault says of the check.
fn what(fault: CheckFault) -> &'static str {
    match fault.number() {
        faults::DEVICE | faults::NO_MEMORY => CANT,
        _ => "it is wrong",
    }
}
