//! The subcommand `salvage`.

ghost use Rattle.std.specs.Prelude.{◌≡◌, ◌≤◌, ◌++◌, [], IsTrue, IfOk};
ghost use Rattle.bucket_page.specs.Pseudokeys.{sha_key};
ghost use Rattle.directory.specs.declared.layout.TheConstants.{LEAST_PAGES};
ghost use Rattle.page_device.specs.Device.{HasRisen};
ghost use Rattle.page_device.specs.declared.page.TheConstants.{MAX_PAGES};
ghost use Rattle.migration.specs.Causes.{HasSalvageCause};
ghost use Rattle.msgq_cli.specs.Outputs.{Prints};
ghost use Rattle.msgq_cli.specs.Reports.{deed_text};
ghost use Rattle.msgq_cli.specs.Tasks.{IsFileSize};
ghost use Rattle.msgq_cli.specs.declared.reports.Deed.TheVariants as deeds;
ghost use Rattle.migration.specs.Printing.{IsSalvagedOrFault, unread_texts};
ghost use Rattle.migration.specs.Rescues.{IsFoundIn, IsMadeOrTold, IsRescuedFrom};

use crate::losses::{Losses, Pages};
use crate::made::Target;
use crate::salvage_fault::SalvageFault;
use crate::salvaged::{Rescue, Salvaged, salvage};
use crate::unmade::complain_of_unmade;
use bucket_page::ShaKey;
use msgq_cli::{
    Deed, Ending, Failure, Output, Plain, Progress, Shown, Stage, advise, complain_of_fault,
    create_file, fail, print_deed, print_unread, warn_of_journal,
};
use numbers::faults;
use page_device::{FileDevice, MAX_PAGES, PAGE_BYTES, PageDevice, SystemFile};
use std::alloc::Global;
use std::fs::{self, File, OpenOptions};
use std::io::{self, IsTerminal, Write};
use std::rt::Files;

/// A new file that is asked for, of what can be read of another.
#[derive(Clone, Copy)]
pub struct SalvageRequest<'a> {
    /// The old file, which is only read.
    pub old: &'a str,
    /// Where the new one is made.
    pub new: &'a str,
    /// How many pages it gets.
    pub pages: u32,
}

/// `salvage OLD NEW PAGES`: makes a file of so many pages, where nothing may be yet, of what can be
/// read of OLD, which is opened to be read alone. Prints `salvaged QUEUES MESSAGES`, and below it
/// `unread FIRST LAST` for pages of OLD that can't be read; what else was left out is said on
/// standard error. NEW and its name are on the disk then.
///
/// Fault 20 alone where the system refuses to make NEW, or to open or to read OLD; 21 and 22 alone
/// where no page of OLD can be read, 42 where it is of another version, 50 where NEW has no room, 60
/// where there is no memory. The NEW that was made is then removed.
pub fn salvage_file<R, W, E>(
    rt: &R,
    request: SalvageRequest,
    output: &mut Output<W>,
    errors: &mut E,
) -> Ending
where
    R: Files<File = File> + AllocGlobal,
    W: Write + Drop,
    E: Write + IsTerminal,
    requires { IsFileSize request.pages }
    ensures { IsSalvagedOrFault output.old output.new result }
{
    let SalvageRequest { old, new, pages } = request;
    let unnamed = match create_file(rt, new, Some(old), errors) {
        Ok(unnamed) => unnamed,
        Err(fault) => return fail(Stage::Making, fault, output),
    };
    warn_of_journal(rt, old, errors);
    let Some(device) = open_rest(rt, old, errors) else {
        unnamed.remove(rt, errors);
        return fail(Stage::Opening, faults::DEVICE, output);
    };
    let (heard, refusal) = match unnamed.transfers(rt.alloc()) {
        Ok(transfers) => transfers,
        Err(why) => {
            let fault = unnamed.give_up(rt, why, errors);
            return fail(Stage::Making, fault, output);
        }
    };
    let target = Target {
        device: FileDevice::new(heard, 0),
        pages,
    };
    let Salvaged {
        old: _,
        new: _,
        found,
    } = salvage_on(rt.alloc(), device, target, errors);
    let rescue = match found {
        Ok(rescue) => rescue,
        Err(fault) => {
            let stage = explain(rt, request, fault, refusal.into_error(), errors);
            unnamed.remove(rt, errors);
            return fail(stage, fault.number(), output);
        }
    };
    if !unnamed.give_name(rt, errors) {
        return fail(Stage::Making, faults::DEVICE, output);
    }
    print_rescue(&rescue, output);
    tell_losses(old, &rescue.losses, errors);
    Ending::Done
}

/// Opens a file to read it alone, whatever its length is. Why one is not opened is said.
fn open_rest<R, E>(rt: &R, file: &str, errors: &mut E) -> Option<FileDevice<SystemFile<File>>>
where
    R: Files<File = File>,
    E: Write,
{
    let what = "it can't be opened";
    match pages_of(rt, file) {
        Ok(Some(device)) => return Some(device),
        Ok(None) => complain_of_fault(file, what, faults::DEVICE, "it is no file", errors),
        Err(error) => complain_of_fault(file, what, faults::DEVICE, &error, errors),
    }
    None
}

/// The whole pages of a file; none where this is no file.
fn pages_of<R>(rt: &R, file: &str) -> io::Result<Option<FileDevice<SystemFile<File>>>>
where
    R: Files<File = File>,
{
    // A fifo would wait for a writer.
    let found = fs::metadata(rt, file)?;
    if !found.is_file() {
        return Ok(None);
    }
    let mut how = OpenOptions::new();
    how.read(true);
    let opened = how.open(rt, file)?;
    let pages = found.len() / PAGE_BYTES as u64;
    let pages = u32::try_from(pages).unwrap_or(MAX_PAGES).min(MAX_PAGES);
    Ok(Some(FileDevice::new(SystemFile::new(opened), pages)))
}

/// Makes a new file of what can be read on a device, as `crate::salvage` does. Where they are
/// large and `errors` a terminal, that shows how far it has come, which changes nothing of what
/// `salvage` promises.
pub fn salvage_on<O, N, E>(
    alloc: Global,
    old: O,
    target: Target<N>,
    errors: &mut E,
) -> Salvaged<O, N>
where
    O: PageDevice,
    N: PageDevice,
    E: Write + IsTerminal,
    requires empty { N.content target.device ≡ [] }
    requires least { LEAST_PAGES ≤ target.pages }
    requires most { target.pages ≤ MAX_PAGES }
    ensures ok { IsTrue (N.is_honest target.device) →
        IsMadeOrTold sha_key target.pages (N.content result.new)
        (IsFoundIn sha_key (O.content old) (IsTrue (O.is_honest old))
        (HasRisen (O.fault_count old) (O.fault_count result.old))) result.found }
    ensures rescued { IsTrue (O.is_honest old) → IsRescuedFrom sha_key (O.content old)
        (HasRisen (O.fault_count old) (O.fault_count result.old)) result.found }
    ensures same { O.content result.old ≡ O.content old }
    ensures honest { (O.is_honest result.old ≡ O.is_honest old)
        × (N.is_honest result.new ≡ N.is_honest target.device) }
    ensures synced { IsTrue (N.is_honest target.device) →
        IfOk result.found (λ _. IsTrue (N.is_synced result.new)) }
    ensures cause { HasSalvageCause (O.fault_count old) (O.fault_count result.old)
        (N.fault_count target.device) (N.fault_count result.new) result.found }
{
    let progress = Progress::new(errors);
    let target = Target {
        device: Shown::new(target.device, &progress),
        pages: target.pages,
    };
    let Salvaged { old, new, found } = salvage(alloc, Shown::new(old, &progress), target, &ShaKey);
    Salvaged {
        old: old.into_device(),
        new: new.into_device(),
        found,
    }
}

/// Prints how much was salvaged, and which pages can't be read.
fn print_rescue<W: Write + Drop>(rescue: &Rescue, output: &mut Output<W>)
    ensures { Prints output.old output.new (deed_text deeds.Salvaged rescue.now.system
        ++ unread_texts rescue.now.losses.unread.items) }
{
    print_deed(Deed::Salvaged, &rescue.system, output);
    print_pages(rescue.losses.unread.as_slice(), output);
}

/// Prints a line for each run of pages.
fn print_pages<W: Write + Drop>(unread: &[Pages], output: &mut Output<W>)
    ensures { Prints output.old output.new (unread_texts unread.now) }
{
    for pages in unread {
        print_unread(pages.first, pages.last, output);
    }
}

/// Says what was left out, or put in the place of what is lost.
fn tell_losses<E: Write>(file: &str, losses: &Losses, errors: &mut E) {
    let file = Plain(file);
    for (count, what) in [
        (
            losses.wrong,
            "records are none of their kind, and were left out",
        ),
        (
            losses.twice,
            "records of queues and messages stand on a lower page too, which counts",
        ),
        (
            losses.beyond,
            "queues and messages are past the limits, and were left out",
        ),
        (
            losses.keyless,
            "queues have the key of another, and are private now",
        ),
    ] {
        if count > 0 {
            let _ = writeln!(errors, "msgq: {file}: {count} {what}");
        }
    }
    for id in &losses.made {
        let id = *id;
        let _ = writeln!(
            errors,
            "msgq: {file}: the record of queue {id} is lost: it was made anew, of user 0, with mode \
            600 and 16384 bytes"
        );
    }
    if losses.has_no_counter {
        let _ = writeln!(
            errors,
            "msgq: {file}: the next id is lost: that of a queue which was removed may come again"
        );
    }
}

/// Says why nothing came of a file, and tells what was being done.
fn explain<R, E>(
    rt: &R,
    request: SalvageRequest,
    fault: SalvageFault,
    refusal: Option<io::Error>,
    errors: &mut E,
) -> Stage
where
    R: Files<File = File>,
    E: Write,
{
    let SalvageRequest { old, new, pages: _ } = request;
    if let SalvageFault::New(fault) = fault {
        return complain_of_unmade(new, fault, refusal, errors);
    }
    let number = fault.number();
    complain_of_fault(old, "nothing can be salvaged", number, fault, errors);
    if fault == SalvageFault::BadVersion {
        let failure = Failure {
            stage: Stage::Checking,
            fault: number,
        };
        advise(rt, old, Ending::Failed(failure), errors);
    }
    Stage::Checking
}
