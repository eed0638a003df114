//! Files made, and scripts read from files.

ghost use Rattle.std.specs.Prelude.{◌≡◌, ◌≤◌, ℕ, [], IsTrue};
ghost use Rattle.page_device.specs.declared.page.TheConstants.{MAX_PAGES};
ghost use Rattle.directory.specs.declared.layout.TheConstants.{LEAST_PAGES};
ghost use Rattle.msgq_cli.specs.Refusals.{IsFaultAlone, IsMadeOrFault, Makes};

use crate::complaint::{complain_of, complain_of_fault, tell, why};
use crate::ending::{Ending, Failure, Stage};
use crate::heard::Refusal;
use crate::new_files::{CANT_BE_MADE, Unnamed, create_file};
use crate::output::Output;
use crate::progress::{Progress, Shown};
use crate::refusals::{fail, read_text};
use crate::reply::print_made;
use directory::LEAST_PAGES;
use numbers::faults;
use page_device::{DeviceFault, FileDevice, MAX_PAGES, PageDevice, PageFile, SystemFile};
use record_file::format;
use rollback_journal::OpenError;
use std::alloc::Global;
use std::fs::{File, OpenOptions};
use std::io::{BufWriter, IsTerminal, Read, Write};
use std::rt::Files;
use std::{fs, io};

/// A script of this name is that of standard input.
pub const STANDARD_INPUT: &str = "-";

/// What is said of a file that can't be opened.
const CANT_BE_OPENED: &str = "it can't be opened";

/// What can be done where a file is in use.
const WAITS: &str = "'--wait SECONDS' waits until it is not";

/// `new FILE PAGES`: makes a file, where nothing may be yet, and prints `made PAGES`. The file and
/// its name are on the disk then.
///
/// Fault 20 alone where the system refuses to make the file or a transfer fails, where another
/// process is making it, or where the journal of a file of this name was left behind; fault 60 alone
/// where there is no memory. What was made is then removed.
pub fn new_file<R, W, E>(
    rt: &R,
    file: &str,
    pages: u32,
    output: &mut Output<W>,
    errors: &mut E,
) -> Ending
where
    R: Files<File = File> + AllocGlobal,
    W: Write + Drop,
    E: Write + IsTerminal,
    requires least { LEAST_PAGES ≤ pages }
    requires most { pages ≤ MAX_PAGES }
    ensures { IsMadeOrFault pages output.old output.new result }
{
    let unnamed = match create_file(rt, file, None, errors) {
        Ok(unnamed) => unnamed,
        Err(fault) => return fail(Stage::Making, fault, output),
    };
    match fill_file(rt, unnamed, pages, errors) {
        Ok(()) => {
            print_made(pages, output);
            Ending::Done
        }
        Err(fault) => fail(Stage::Making, fault, output),
    }
}

/// Makes so many pages of a file that was begun, and gives it its name. Where it can't be made this
/// is said, what was made is removed, and the fault is told.
pub fn fill_file<R, E>(rt: &R, unnamed: Unnamed<'_>, pages: u32, errors: &mut E) -> Result<(), u8>
where
    R: Files<File = File> + AllocGlobal,
    E: Write + IsTerminal,
    requires least { LEAST_PAGES ≤ pages }
    requires most { pages ≤ MAX_PAGES }
{
    let ending = match unnamed.transfers(rt.alloc()) {
        Ok((heard, refusal)) => {
            let ending = make_pages(rt.alloc(), heard, pages, errors);
            tell_unmade(unnamed.name(), ending, refusal, errors);
            ending
        }
        Err(why) => return Err(unnamed.give_up(rt, why, errors)),
    };
    if matches!(ending, Ending::Done) {
        return name_filled(rt, unnamed, errors);
    }
    unnamed.remove(rt, errors);
    match ending {
        Ending::Failed(Failure { stage: _, fault }) => Err(fault),
        _ => Err(faults::DEVICE),
    }
}

/// Gives a file that is whole its name.
fn name_filled<R, E>(rt: &R, unnamed: Unnamed<'_>, errors: &mut E) -> Result<(), u8>
where
    R: Files<File = File>,
    E: Write,
{
    if unnamed.give_name(rt, errors) {
        Ok(())
    } else {
        Err(faults::DEVICE)
    }
}

/// Says why the pages of a file were not made, if they were not: in the system's words, where it
/// refused a transfer.
fn tell_unmade<E: Write>(name: &str, ending: Ending, refusal: Refusal, errors: &mut E) {
    if matches!(ending, Ending::Done) {
        return;
    }
    match refusal.into_error() {
        Some(error) => complain_of_fault(name, CANT_BE_MADE, faults::DEVICE, &error, errors),
        None => complain_of(name, ending, errors),
    }
}

/// Makes so many pages of a file that has none. That it is made is told once it has its name, so
/// nothing is printed.
fn make_pages<F, E>(alloc: Global, file: F, pages: u32, errors: &mut E) -> Ending
where
    F: PageFile + Drop,
    E: Write + IsTerminal,
    requires least { LEAST_PAGES ≤ pages }
    requires most { pages ≤ MAX_PAGES }
{
    let Ok(writer) = BufWriter::with_capacity(alloc, 0, Vec::new(alloc)) else {
        unreachable!()
    };
    let mut unseen = Output::new(writer);
    let progress = Progress::new(errors);
    let device = Shown::new(FileDevice::new(file, 0), &progress);
    let (device, ending) = new_on(device, pages, &mut unseen);
    let _ = device.into_device();
    ending
}

/// Makes a file of so many pages on a device without pages.
pub fn new_on<D: PageDevice, W: Write + Drop>(
    device: D,
    pages: u32,
    output: &mut Output<W>,
) -> (D, Ending)
    requires empty { D.content device ≡ [] }
    requires least { LEAST_PAGES ≤ pages }
    requires most { pages ≤ MAX_PAGES }
    ensures honest { IsTrue (D.is_honest device) → Makes pages (D.content result.0)
        (D.fault_count device) (D.fault_count result.0) output.old output.new result.1 }
    ensures one { IsMadeOrFault pages output.old output.new result.1 }
    ensures same { D.is_honest result.0 ≡ D.is_honest device }
{
    let mut device = device;
    let made = format(&mut device, pages);
    let ending = match made {
        Ok(()) => {
            print_made(pages, output);
            Ending::Done
        }
        Err(fault) => fail(Stage::Making, fault.number(), output),
    };
    (device, ending)
}

/// Ends a run or a replay whose file is not opened.
pub fn leave_unopened<W: Write + Drop, E: Write>(
    file: &str,
    error: OpenError,
    output: &mut Output<W>,
    errors: &mut E,
) -> Ending
    ensures { (fault : ℕ) × IsFaultAlone fault output.old output.new result }
{
    let fault = error.number();
    let ending = fail(Stage::Opening, fault, output);
    match error {
        OpenError::InUse(holder) => {
            tell(
                file,
                format_args!("it is in use by {holder} (fault {fault}): {WAITS}"),
                errors,
            );
        }
        _ => complain_of_fault(file, CANT_BE_OPENED, fault, error, errors),
    }
    ending
}

/// All bytes of a file, or of standard input.
pub fn read_file<R, F>(rt: &R, path: &str) -> io::Result<Vec<u8>>
where
    R: Files<File = F> + AllocGlobal + Input,
    F: Read + Drop,
{
    if path == STANDARD_INPUT {
        return read_text(rt.alloc(), &mut rt.reader());
    }
    let mut file = fs::open(rt, path)?;
    read_text(rt.alloc(), &mut file)
}

/// Opens a file to read it alone. Why one is not opened is said: in the system's words, where it does
/// not open it.
pub fn open_to_read<R, E>(
    rt: &R,
    file: &str,
    errors: &mut E,
) -> Result<FileDevice<SystemFile<File>>, DeviceFault>
where
    R: Files<File = File>,
    E: Write,
{
    if is_no_file(rt, file) {
        complain_of_fault(
            file,
            CANT_BE_OPENED,
            faults::DEVICE,
            "it is no file",
            errors,
        );
        return Err(DeviceFault::Device);
    }
    match FileDevice::open_read_only(rt, file) {
        Ok(device) => Ok(device),
        Err(fault) => {
            tell_unopened(rt, file, fault.number(), errors);
            Err(fault)
        }
    }
}

/// Says why a file was not opened.
fn tell_unopened<R, E>(rt: &R, file: &str, fault: u8, errors: &mut E)
where
    R: Files<File = File>,
    E: Write,
{
    let mut how = OpenOptions::new();
    how.read(true);
    match how.open(rt, file) {
        Ok(_) => complain_of_fault(file, CANT_BE_OPENED, fault, why(fault), errors),
        Err(error) => complain_of_fault(file, CANT_BE_OPENED, fault, &error, errors),
    }
}

/// Whether this is a fifo, a device or a socket. A fifo would wait for a writer.
fn is_no_file<R: Files>(rt: &R, file: &str) -> bool {
    match fs::metadata(rt, file) {
        Ok(found) => !found.is_file() && !found.is_dir(),
        Err(_) => false,
    }
}
