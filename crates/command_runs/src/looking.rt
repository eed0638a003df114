//! What is looked at of a file, which is not written.

ghost use Rattle.std.specs.Prelude.{◌≡◌, ℕ, IfSome, IsTrue, true};
ghost use Rattle.interleavings.specs.LoneKernelWords.{Caller};
ghost use Rattle.command_runs.specs.Looking.{IsTold, LooksAt, LooksOn, Shows, why_missing};
ghost use Rattle.command_runs.specs.Running.{IfUnprinted, seen};
ghost use Rattle.command_runs.specs.declared.looking.Look.TheVariants.{Queues, Messages};

use crate::error::CommandError;
use crate::printing::Printer;
use crate::running::Ran;
use bucket_page::ShaKey;
use interleavings::interleaving_core::OpenFault;
use interleavings::interleaving_core::file_check::{CheckFault, Checked, check};
use page_device::PageDevice;
use queue_commands::{
    AskError, PlainLists, QueueName, Request, Text, ask, put_messages, put_messages_json,
    put_queues, put_queues_json,
};
use queue_model::{Caller, Errno, QueueInfo, System};
use std::alloc::Global;
use std::io::Write;

/// In which form it is shown.
#[derive(Clone, Copy)]
pub enum Form {
    /// A table with headings.
    Table,
    /// One JSON object.
    Json,
}

/// What is looked at.
#[derive(Drop)]
pub enum Look {
    /// The queues.
    Queues(Form),
    /// The messages of a queue.
    Messages(QueueName, Form),
    /// What a command would print, which is asked of the system on plain lists.
    Command(Request),
}

/// Looks at the file of a device, and prints what is shown. The device is as it was.
pub fn look_on<D: PageDevice, W: Write + Drop>(
    alloc: Global,
    device: D,
    caller: Caller,
    look: &Look,
    output: &mut Printer<W>,
) -> Ran<D>
    ensures honest { IsTrue (D.is_honest device) → LooksOn caller look.now (D.content device)
        (seen output.old.held output.new.held
        (D.fault_count device) (D.fault_count result.device)) result.came }
    ensures untold { IfUnprinted (output.new.refused ≡ true) result.came }
    ensures same { D.content result.device ≡ D.content device }
    ensures as_honest { D.is_honest result.device ≡ D.is_honest device }
{
    let Checked { device, found } = check(alloc, device, ShaKey);
    let came = look_at(alloc, found, caller, look, output);
    Ran { device, came }
}

/// What Stat tells of the queue of a name in the file of a device; none where the file is not right,
/// or no queue has the name. The device is only read.
pub fn info_on<D: PageDevice + Drop>(alloc: Global, device: D, name: QueueName) -> Option<QueueInfo>
    ensures { IsTrue (D.is_honest device) → IfSome result (IsTold name (D.content device)) }
{
    let Checked { device: _, found } = check(alloc, device, ShaKey);
    let Ok(system) = found else {
        return None;
    };
    let place = name.place_in(&system)?;
    system.info(place)
}

/// Looks at what the checker found.
fn look_at<W: Write + Drop>(
    alloc: Global,
    found: Result<System, CheckFault>,
    caller: Caller,
    look: &Look,
    output: &mut Printer<W>,
) -> Result<(), CommandError>
    ensures looks { (was faults : ℕ) → LooksAt caller look.now found
        (seen output.old.held output.new.held was faults) result }
    ensures untold { IfUnprinted (output.new.refused ≡ true) result }
{
    let system = match found {
        Ok(system) => system,
        Err(fault) => return Err(CommandError::Unopened(OpenFault::Wrong(fault))),
    };
    let text = show(alloc, system, caller, look)?;
    match output.print(text.as_slice()) {
        Ok(()) => Ok(()),
        Err(error) => Err(CommandError::Unprinted(error)),
    }
}

/// What is shown of a system.
fn show(alloc: Global, system: System, caller: Caller, look: &Look) -> Result<Text, CommandError>
    ensures { Shows caller look.now system result }
{
    match look {
        Look::Queues(form) => show_queues(alloc, &system, *form),
        Look::Messages(name, form) => show_messages(alloc, &system, *name, *form),
        Look::Command(request) => {
            let mut lists = PlainLists { system, caller };
            match ask(alloc, &mut lists, request) {
                Ok(text) => Ok(text),
                Err(AskError::Refused(errno)) => Err(CommandError::Refused(errno)),
                // plain lists lack nothing but memory
                Err(AskError::Unanswered | AskError::NoMemory) => Err(CommandError::NoMemory),
            }
        }
    }
}

/// The queues of a system.
fn show_queues(alloc: Global, system: &System, form: Form) -> Result<Text, CommandError>
    ensures { (c : Caller) → Shows c (Queues form) system.now result }
{
    let mut text = Text::new(alloc);
    match form {
        Form::Table => {
            put_queues(&mut text, system)?;
            Ok(text)
        }
        Form::Json => {
            put_queues_json(&mut text, alloc, system)?;
            Ok(text)
        }
    }
}

/// Why no queue of a system has a name, as its calls are refused.
fn why_missing(name: QueueName, system: &System) -> Errno
    ensures { result ≡ why_missing name system.now }
{
    match name {
        QueueName::Key(_) => Errno::ENOENT,
        QueueName::Id(id) if id == 0 || system.next_id() <= id => Errno::EINVAL,
        QueueName::Id(_) => Errno::EIDRM,
    }
}

/// The messages of the queue of a system that has the name.
fn show_messages(
    alloc: Global,
    system: &System,
    name: QueueName,
    form: Form,
) -> Result<Text, CommandError>
    ensures { (c : Caller) → Shows c (Messages name form) system.now result }
{
    let Some(place) = name.place_in(system) else {
        return Err(CommandError::Refused(why_missing(name, system)));
    };
    let Some(info) = system.info(place) else {
        return Err(CommandError::Refused(Errno::ENOENT));
    };
    system.keeps_limits();
    let messages = &system.queue(place).messages;
    let mut text = Text::new(alloc);
    match form {
        Form::Table => {
            put_messages(&mut text, messages)?;
            Ok(text)
        }
        Form::Json => {
            put_messages_json(&mut text, alloc, &info, messages)?;
            Ok(text)
        }
    }
}
