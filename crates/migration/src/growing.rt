//! The subcommand `grow`.

ghost use Rattle.msgq_cli.specs.Tasks.{IsFileSize};
ghost use Rattle.msgq_cli.specs.declared.reports.Deed.TheVariants as deeds;
ghost use Rattle.migration.specs.Printing.{IsDoneOrFault};

use crate::copied::Copied;
use crate::copies::{CopyRequest, Size, copy_on, explain};
use crate::made::Target;
use directory::{LAYOUT, layouts_are_right};
use msgq_cli::{
    Deed, Ending, Output, Stage, Unnamed, complain_of_fault, fail, leave_unopened, print_deed,
};
use numbers::faults;
use page_device::FileDevice;
use queue_model::System;
use rollback_journal::safe_device::SafeDevice;
use rollback_journal::{Opening, SystemPair, open_in_turn};
use std::fs;
use std::fs::File;
use std::io::{self, ErrorKind, IsTerminal, Write};
use std::rt::{Clock, Files};

/// What is said of a file that does not get another size.
const CANT_BE_GROWN: &str = "it can't be grown";

/// A file that is to get another size.
#[derive(Clone, Copy)]
pub struct GrowRequest<'a> {
    /// The file, and how long its opening waits.
    pub file: Opening<'a>,
    /// How many pages it gets.
    pub pages: u32,
}

/// `grow FILE PAGES`: gives a file another size, more pages or fewer, and prints `grown QUEUES
/// MESSAGES`. It is locked meanwhile, so nobody else changes it; who waits for the lock goes on with
/// the file of the new size. That is made beside it (`Unnamed`), and takes its name once it is whole:
/// killed at any moment FILE is the file of before or the new one.
///
/// Fault 20 alone where it is in use or the system refuses to make the new file; else `fault N`
/// alone for the first thing that is wrong with it, and where the new one has no room for its
/// records (50), or there is no memory (60). It is then as it was.
pub fn grow_file<R, W, E>(
    rt: &R,
    request: GrowRequest,
    output: &mut Output<W>,
    errors: &mut E,
) -> Ending
where
    R: Files<File = File> + AllocGlobal + Clock,
    W: Write + Drop,
    E: Write + IsTerminal,
    requires { IsFileSize request.pages }
    ensures { IsDoneOrFault deeds.Grown output.old output.new result }
{
    let path = request.file.path;
    let old = match open_in_turn(rt, request.file) {
        Ok(old) => old,
        Err(error) => return leave_unopened(path, error, output, errors),
    };
    // A link is not replaced by the file that it leads to.
    let name = match real_name(rt, path) {
        Ok(name) => name,
        Err(error) => {
            complain_of_fault(path, CANT_BE_GROWN, faults::DEVICE, &error, errors);
            return fail(Stage::Making, faults::DEVICE, output);
        }
    };
    match grow(rt, old, name.as_str(), request.pages, errors) {
        Ok(system) => {
            print_deed(Deed::Grown, &system, output);
            Ending::Done
        }
        Err((stage, fault)) => fail(stage, fault, output),
    }
}

/// Makes a file of so many pages of a file that is locked, and gives it its name. Why that can't be
/// done is said, and what was being done is told, and the fault.
fn grow<R, E>(
    rt: &R,
    old: SafeDevice<SystemPair<File>>,
    name: &str,
    pages: u32,
    errors: &mut E,
) -> Result<System, (Stage, u8)>
where
    R: Files<File = File> + AllocGlobal,
    E: Write + IsTerminal,
    requires { IsFileSize pages }
{
    let unnamed = match Unnamed::begin_in_place(rt, name) {
        Ok(unnamed) => unnamed,
        Err(why) => {
            let fault = why.number();
            complain_of_fault(name, CANT_BE_GROWN, fault, why, errors);
            return Err((Stage::Making, fault));
        }
    };
    let (heard, refusal) = match unnamed.transfers(rt.alloc()) {
        Ok(transfers) => transfers,
        Err(why) => return Err((Stage::Making, unnamed.give_up(rt, why, errors))),
    };
    let target = Target {
        pages,
        device: FileDevice::new(heard, 0),
    };
    layouts_are_right();
    let Copied {
        old: locked,
        new: _,
        found,
    } = copy_on(rt.alloc(), &LAYOUT, old, target, errors);
    let system = match found {
        Ok(system) => system,
        Err(fault) => {
            let request = CopyRequest {
                old: name,
                new: name,
                size: Size::Grown(pages),
            };
            let stage = explain(rt, request, fault, refusal.into_error(), errors);
            unnamed.remove(rt, errors);
            return Err((stage, fault.number()));
        }
    };
    let is_named = unnamed.take_name(rt, errors);
    drop(locked);
    if is_named {
        Ok(system)
    } else {
        Err((Stage::Making, faults::DEVICE))
    }
}

/// The name of a file, where no link leads on.
fn real_name<R>(rt: &R, path: &str) -> io::Result<String>
where
    R: Files + AllocGlobal,
{
    let mut name = String::new(rt.alloc());
    let real = fs::canonicalize(rt, path)?;
    let Some(real) = real.to_str() else {
        return Err(ErrorKind::InvalidFilename.into());
    };
    name.push_str(real)?;
    Ok(name)
}
