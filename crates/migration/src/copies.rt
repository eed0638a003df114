//! The subcommands `migrate` and `copy`.

ghost use Rattle.std.specs.Prelude.{◌≡◌, ◌≤◌, [], IsTrue, IfErr, IfOk};
ghost use Rattle.bucket_page.specs.Pseudokeys.{sha_key};
ghost use Rattle.directory.specs.Layouts.{IsLayout};
ghost use Rattle.directory.specs.declared.layout.TheConstants.{LEAST_PAGES};
ghost use Rattle.page_device.specs.declared.page.TheConstants.{MAX_PAGES};
ghost use Rattle.migration.specs.Causes.{HasCopyCause};
ghost use Rattle.migration.specs.Copying.{IsCopied, IsToldOfCopy};
ghost use Rattle.migration.specs.Printing.{HasSize, IsDoneOrFault, deed_of};

use crate::copied::{Copied, copy, migrated_pages};
use crate::fault::CopyFault;
use crate::made::Target;
use crate::unmade::complain_of_unmade;
use bucket_page::ShaKey;
use directory::{LAYOUT, Layout, OLDER_LAYOUT, layouts_are_right};
use msgq_cli::{
    Deed, Ending, Failure, Output, Progress, Shown, Stage, advise, complain_of_fault, create_file,
    fail, open_to_read, print_deed, warn_of_journal,
};
use numbers::faults;
use page_device::{FileDevice, PageDevice};
use std::alloc::Global;
use std::fs::File;
use std::io::{self, IsTerminal, Write};
use std::rt::Files;

/// What a new file is made of, and how many pages it gets.
#[derive(Clone, Copy)]
pub enum Size {
    /// The old file is of version 1, and the new one has as many more as today's directory.
    Migrated,
    /// The old file is of today's version, and the new one has so many.
    Pages(u32),
    /// So it is, and the new one takes its place.
    Grown(u32),
}

impl Size {
    /// What is done.
    fn deed(self) -> Deed
        ensures { result ≡ deed_of self }
    {
        match self {
            Size::Migrated => Deed::Migrated,
            Size::Pages(_) => Deed::Copied,
            Size::Grown(_) => Deed::Grown,
        }
    }

    /// The layout of the old file.
    fn layout(self) -> Layout
        ensures { IsLayout result }
    {
        layouts_are_right();
        match self {
            Size::Migrated => OLDER_LAYOUT,
            Size::Pages(_) | Size::Grown(_) => LAYOUT,
        }
    }

    /// Pages of the new file, where the old one has so many.
    fn pages(self, old: u32) -> u32
        requires { HasSize self }
        ensures least { LEAST_PAGES ≤ result }
        ensures most { result ≤ MAX_PAGES }
    {
        match self {
            Size::Migrated => migrated_pages(old),
            Size::Pages(pages) | Size::Grown(pages) => pages,
        }
    }
}

/// A new file that is asked for.
#[derive(Clone, Copy)]
pub struct CopyRequest<'a> {
    /// The old file, which is only read.
    pub old: &'a str,
    /// Where the new one is made.
    pub new: &'a str,
    /// How many pages it gets.
    pub size: Size,
}

/// `migrate OLD NEW` and `copy OLD NEW PAGES`: makes a file of today's version of the system of
/// another, where nothing may be yet, and prints `migrated QUEUES MESSAGES` or `copied QUEUES
/// MESSAGES`. NEW and its name are on the disk then.
///
/// Fault 20 alone where the system refuses to make NEW; until it is whole it has another name beside
/// its own (`Unnamed`). Then OLD is opened, to be read alone, and
/// checked: `fault N` alone for the first thing that is wrong with it, and where NEW has no room for
/// its records (50), a transfer of either fails (20), or there is no memory (60). The NEW that was
/// made is then removed. How far it is is shown on a terminal.
pub fn copy_file<R, W, E>(
    rt: &R,
    request: CopyRequest,
    output: &mut Output<W>,
    errors: &mut E,
) -> Ending
where
    R: Files<File = File> + AllocGlobal,
    W: Write + Drop,
    E: Write + IsTerminal,
    requires { HasSize request.size }
    ensures { IsDoneOrFault (deed_of request.entry.size) output.old output.new result }
{
    let CopyRequest { old, new, size } = request;
    let unnamed = match create_file(rt, new, Some(old), errors) {
        Ok(unnamed) => unnamed,
        Err(fault) => return fail(Stage::Making, fault, output),
    };
    warn_of_journal(rt, old, errors);
    let device = match open_to_read(rt, old, errors) {
        Ok(device) => device,
        Err(fault) => {
            unnamed.remove(rt, errors);
            return fail(Stage::Opening, fault.number(), output);
        }
    };
    let (heard, refusal) = match unnamed.transfers(rt.alloc()) {
        Ok(transfers) => transfers,
        Err(why) => {
            let fault = unnamed.give_up(rt, why, errors);
            return fail(Stage::Making, fault, output);
        }
    };
    let target = Target {
        pages: size.pages(device.pages()),
        device: FileDevice::new(heard, 0),
    };
    let copied = copy_on(rt.alloc(), &size.layout(), device, target, errors);
    let Copied {
        old: _,
        new: _,
        found,
    } = copied;
    let system = match found {
        Ok(system) => system,
        Err(fault) => {
            let stage = explain(rt, request, fault, refusal.into_error(), errors);
            unnamed.remove(rt, errors);
            return fail(stage, fault.number(), output);
        }
    };
    if !unnamed.give_name(rt, errors) {
        return fail(Stage::Making, faults::DEVICE, output);
    }
    print_deed(size.deed(), &system, output);
    Ending::Done
}

/// Makes a new file of the file on a device, as `crate::copy` does. Where they are large and
/// `errors` a terminal, that shows how far it has come, which changes nothing of what `copy`
/// promises.
pub fn copy_on<O, N, E>(
    alloc: Global,
    layout: &Layout,
    old: O,
    target: Target<N>,
    errors: &mut E,
) -> Copied<O, N>
where
    O: PageDevice,
    N: PageDevice,
    E: Write + IsTerminal,
    requires layout { IsLayout layout.now }
    requires empty { N.content target.device ≡ [] }
    requires least { LEAST_PAGES ≤ target.pages }
    requires most { target.pages ≤ MAX_PAGES }
    ensures ok { IsTrue (O.is_honest old) → IsTrue (N.is_honest target.device) →
        IfOk result.found (IsCopied layout.now sha_key target.pages
        (O.content old) (N.content result.new)) }
    ensures err { IfErr result.found (IsToldOfCopy layout.now sha_key target.pages
        (O.content old) (IsTrue (O.is_honest old)) (IsTrue (N.is_honest target.device))) }
    ensures same { O.content result.old ≡ O.content old }
    ensures honest { (O.is_honest result.old ≡ O.is_honest old)
        × (N.is_honest result.new ≡ N.is_honest target.device) }
    ensures synced { IsTrue (N.is_honest target.device) →
        IfOk result.found (λ _. IsTrue (N.is_synced result.new)) }
    ensures cause { HasCopyCause (O.fault_count old) (O.fault_count result.old)
        (N.fault_count target.device) (N.fault_count result.new) result.found }
{
    let progress = Progress::new(errors);
    let target = Target {
        pages: target.pages,
        device: Shown::new(target.device, &progress),
    };
    let old = Shown::new(old, &progress);
    let Copied { old, new, found } = copy(alloc, layout, old, target, ShaKey);
    Copied {
        old: old.into_device(),
        new: new.into_device(),
        found,
    }
}

/// Says why a file did not become a new one, and tells what was being done.
pub(crate) fn explain<R, E>(
    rt: &R,
    request: CopyRequest,
    fault: CopyFault,
    refusal: Option<io::Error>,
    errors: &mut E,
) -> Stage
where
    R: Files<File = File>,
    E: Write,
{
    let CopyRequest { old, new, size } = request;
    let fault = match fault {
        CopyFault::Old(fault) => fault,
        CopyFault::New(fault) => return complain_of_unmade(new, fault, refusal, errors),
    };
    let number = fault.number();
    let stage = Stage::Checking;
    match size {
        Size::Migrated if number == faults::BAD_VERSION => {
            let why = "it is not of version 1";
            complain_of_fault(old, "it can't be migrated", number, why, errors);
            return stage;
        }
        Size::Migrated => complain_of_fault(old, "it can't be migrated", number, fault, errors),
        Size::Pages(_) => complain_of_fault(old, "it can't be copied", number, fault, errors),
        Size::Grown(_) => complain_of_fault(old, "it can't be grown", number, fault, errors),
    }
    let failure = Failure {
        stage,
        fault: number,
    };
    advise(rt, old, Ending::Failed(failure), errors);
    stage
}
