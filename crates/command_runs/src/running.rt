//! A command run on the file of a device.

ghost use Rattle.std.specs.Prelude.{◌≡◌, ℕ, List, Option, IfOk, IsTrue, OnErr, OnOk, length, true};
ghost use Rattle.page_device.specs.Device.{HasRisen};
ghost use Rattle.interleavings.specs.LoneKernelWords.{Caller, State};
ghost use Rattle.session.specs.Session.{Holds, Opens, pages_of, saved_of};
ghost use Rattle.command_runs.specs.Asking.{Pages};
ghost use Rattle.command_runs.specs.Memory.{AsksFile, AsksFrom};
ghost use Rattle.command_runs.specs.Faults.{unread};
ghost use Rattle.command_runs.specs.Running.{EndsWith, HasFileOf, IfUnprinted, IfUnwritten, RunsOn, seen};
ghost use Rattle.queue_commands.specs.declared.request.Request.{Request};

use crate::asker::Asker;
use crate::error::CommandError;
use crate::printing::Printer;
use bucket_page::ShaKey;
use file_walk::StructureFault;
use interleavings::interleaving_core::file_check::{CheckFault, Checked, check};
use page_device::{DeviceFault, MAX_PAGES, MemDevice, PageDevice, copied};
use queue_commands::{Request, Text, ask};
use queue_model::Caller;
use session::{CloseFault, OpenFault, Session, Unwritten, the_pages_are_the_file};
use std::alloc::Global;
use std::io::Write;

/// What a command leaves.
#[derive(Drop)]
pub struct Ran<D> {
    /// The device of its file.
    pub device: D,
    /// Whether it was done, or why not.
    pub came: Result<(), CommandError>,
}

/// A command that was asked, of which nothing is printed or written yet.
#[derive(Drop)]
struct Asked {
    /// What it prints.
    text: Text,
    /// The session on the file in memory, which holds the system that it leaves.
    session: Session,
}

/// Runs a command of a caller on the file of a device, and prints its text.
///
/// The file is read into memory and checked. Where the device is honest it is that of one system,
/// of which the calls of the command are asked (docs/SHELL.md, "What a command asks"). The text is
/// handed to the output, and only then the pages that have changed are written to the device, which
/// then has the file of the system that the calls left. Where the file is refused, a call is refused
/// or not answered, or the output refuses the text, the device has what it had.
pub fn run_on<D: PageDevice + Drop, W: Write + Drop>(
    alloc: Global,
    device: D,
    caller: Caller,
    request: &Request,
    output: &mut Printer<W>,
) -> Ran<D>
    ensures honest { IsTrue (D.is_honest device) → RunsOn caller request.now
        (D.content device) (D.content result.device)
        (seen output.old.held output.new.held
        (D.fault_count device) (D.fault_count result.device)) result.came }
    ensures unwritten { IfUnwritten (D.content result.device ≡ D.content device) result.came }
    ensures same { D.is_honest result.device ≡ D.is_honest device }
    ensures untold { IfUnprinted (output.new.refused ≡ true) result.came }
    ensures synced { IsTrue (D.is_honest device) →
        OnOk result.came (IsTrue (D.is_synced result.device)) }
{
    if device.pages() > MAX_PAGES {
        return refuse(alloc, device);
    }
    let mut device = device;
    let file = match copied(alloc, &mut device) {
        Ok(file) => file,
        Err(fault) => {
            return Ran {
                device,
                came: Err(CommandError::Unopened(unread(fault))),
            };
        }
    };
    match ask_file(alloc, file, caller, request) {
        Ok(asked) => end(device, asked, output),
        Err(error) => Ran {
            device,
            came: Err(error),
        },
    }
}

/// Tells what is wrong with a file that has more pages than a file has at most.
fn refuse<D: PageDevice + Drop>(alloc: Global, device: D) -> Ran<D>
    ensures honest { IsTrue (D.is_honest device) →
        (c : Caller) (r : Request) (output : Option (List ℕ)) →
        RunsOn c r (D.content device) (D.content result.device)
        (seen output output (D.fault_count device) (D.fault_count result.device)) result.came }
    ensures unwritten { IfUnwritten (D.content result.device ≡ D.content device) result.came }
    ensures same { D.is_honest result.device ≡ D.is_honest device }
    ensures undone { OnOk result.came ⊥ }
    ensures told { IfUnprinted ⊥ result.came }
{
    let Checked { device, found } = check(alloc, device, ShaKey);
    let error = match found {
        Err(fault) => CommandError::Unopened(OpenFault::Wrong(fault)),
        // no file is right that has so many
        Ok(_) => CommandError::NoMemory,
    };
    Ran {
        device,
        came: Err(error),
    }
}

/// Why a file is not opened whose pages can't be read into memory.
fn unread(fault: DeviceFault) -> OpenFault
    ensures { result ≡ unread fault }
{
    match fault {
        DeviceFault::Device => OpenFault::Wrong(CheckFault::Structure(StructureFault::Device)),
        _ => OpenFault::NoMemory,
    }
}

/// Prints the text of a command, and only then writes what it has changed to the device.
fn end<D: PageDevice, W: Write + Drop>(device: D, asked: Asked, output: &mut Printer<W>) -> Ran<D>
    requires as_many { pages_of asked.session ≡ length (D.content device) }
    ensures honest { IsTrue (D.is_honest device) → D.content device ≡ saved_of asked.session →
        (s : State) → Holds s asked.session →
        EndsWith asked.text s (D.content device) (D.content result.device)
        (seen output.old.held output.new.held
        (D.fault_count device) (D.fault_count result.device)) result.came }
    ensures unwritten { IfUnwritten (D.content result.device ≡ D.content device) result.came }
    ensures same { D.is_honest result.device ≡ D.is_honest device }
    ensures untold { IfUnprinted (output.new.refused ≡ true) result.came }
    ensures synced { IsTrue (D.is_honest device) →
        OnOk result.came (IsTrue (D.is_synced result.device)) }
{
    let Asked { text, session } = asked;
    let mut device = device;
    if let Err(error) = output.print(text.as_slice()) {
        session.abandon();
        return Ran {
            device,
            came: Err(CommandError::Unprinted(error)),
        };
    }
    match save(session, &mut device) {
        Ok(()) => Ran {
            device,
            came: Ok(()),
        },
        // no transfer of a session in memory fails
        Err(_) => Ran {
            device,
            came: Err(CommandError::Unclosed(CloseFault::Device)),
        },
    }
}

/// Writes the pages of a session that have changed to the device of its file, and brings them to
/// where they outlast the program.
fn save<D: PageDevice>(session: Session, device: &mut D) -> Result<(), Unwritten>
    requires as_many { pages_of session ≡ length (D.content device.old) }
    ensures ok { IsTrue (D.is_honest device.old) → D.content device.old ≡ saved_of session →
        (s : State) → Holds s session →
        OnOk result (HasFileOf s (D.content device.old) (D.content device.new)) }
    ensures synced { IsTrue (D.is_honest device.old) →
        OnOk result (IsTrue (D.is_synced device.new)) }
    ensures same { D.is_honest device.new ≡ D.is_honest device.old }
    ensures cause { (s : State) → Holds s session →
        OnErr result (HasRisen (D.fault_count device.old) (D.fault_count device.new)) }
{
    the_pages_are_the_file();
    let mut session = session;
    let written = session.write_changed(device);
    // its device is in memory, and so tells that no transfer of the session failed
    session.abandon();
    if let Err(fault) = written {
        return Err(fault);
    }
    match device.sync() {
        Ok(()) => Ok(()),
        Err(_) => Err(Unwritten::Device),
    }
}

/// Asks a command of a file in memory.
fn ask_file(
    alloc: Global,
    file: MemDevice,
    caller: Caller,
    request: &Request,
) -> Result<Asked, CommandError>
    ensures asks { AsksFile caller request.now file result }
    ensures pages { IfOk result (λ asked. pages_of asked.session ≡ length file) }
{
    match Session::in_memory(alloc, file, caller) {
        Ok(session) => ask_session(alloc, session, request),
        Err(fault) => Err(CommandError::Unopened(fault)),
    }
}

/// Asks a command in a session.
fn ask_session(alloc: Global, session: Session, request: &Request) -> Result<Asked, CommandError>
    ensures { (c : Caller) (content : Pages) → Opens c content session →
        AsksFrom c request.now content result }
{
    let mut asker = Asker {
        session,
        fault: None,
    };
    let asked = ask(alloc, &mut asker, request);
    let Asker { session, fault } = asker;
    match asked {
        Ok(text) => Ok(Asked { text, session }),
        Err(error) => {
            // no transfer failed in memory
            session.abandon();
            Err(CommandError::of_asking(error, fault))
        }
    }
}
